//! Queries that end in the queue: those that are too large now, and those whose time has come.
ghost use Rattle.std.specs.Prelude.{◌≡◌, ◌==◌, length, is_some, find};
ghost use Rattle.rm_rules.specs.Sound.{IsSound};

use super::Machine;
use crate::counters::count_end;
use budgets::row_least_cap;
use pool_queue::{Test, deadline};
use rm_base::name::Name;
use rm_base::reply::End;
use rm_rules::state::{Cap, Phase, Waiter};

/// Whether a waiting query's floor is above its least cap by the machine's definitions.
#[derive(Clone, Copy)]
struct IsTooLarge<'a> {
    machine: &'a Machine,
}

impl Test for IsTooLarge<'_> {
    ghost use Rattle.pool_queue.specs.Queue.{is_large};

    ghost ready = { λ test. IsSound test.machine.now.definitions };

    ghost passes = { λ test. is_large test.machine.now.definitions };

    fn passes(&self, w: &Waiter) -> bool {
        self.machine.least_cap(w.pool, w.user).bytes < w.floor
    }
}

impl Machine {
    ghost use Rattle.rm_rules.specs.Definitions.{pool_row};
    ghost use Rattle.rm_rules.specs.Ask.{least_cap};
    ghost use Rattle.rm_rules.specs.Deadlines.{ended_as, first_due, first_nowait, timed_out, without_due};
    ghost use Rattle.rm_rules.specs.Settle.{first_too_large, too_large_end, without_too_large, without_nowait};
    ghost use Rattle.rm_rules.specs.Healthy.{AreNumbered, IsHealthy};
    ghost use Rattle.machine.specs.Settling.{CanSettle, IsSettling, MayLeave};

    /// The least cap on what a query of this user can hold in the pool.
    pub fn least_cap(&self, pool: Name, user: Name) -> Cap
        requires { IsSound self.now.definitions }
        ensures { result ≡ least_cap self.now.definitions (pool_row self.now.definitions pool) user }
    {
        row_least_cap(&self.definitions, &self.row(pool), user)
    }

    /// How a waiting query that is too large ends.
    fn too_large_end(&self, w: &Waiter) -> End
        requires { IsSound self.now.definitions }
        ensures { result ≡ too_large_end self.now w.now }
    {
        let least = self.least_cap(w.pool, w.user);
        End::TooLarge(least.kind, w.floor, least.bytes)
    }

    /// The first waiting query that is too large now.
    fn first_too_large(&self) -> Option<Waiter>
        requires { IsSound self.now.definitions }
        ensures { result ≡ first_too_large self.now }
    {
        self.waiting.first_that(&IsTooLarge { machine: self })
    }

    /// The waiting query of this number.
    pub fn waiter_called(&self, query: u64) -> Option<Waiter>
        ensures { result ≡ find (λ w. w.query == query) self.now.waiting }
    {
        self.waiting.waiter_called(query)
    }

    /// The first waiting query whose deadline has come.
    fn first_due(&self) -> Option<Waiter>
        requires { AreNumbered self.now.last_query self.now.waiting self.now.running }
        ensures { result ≡ first_due self.now }
    {
        let query = self.waiting.due(&self.definitions, self.clock)?;
        self.waiter_called(query)
    }

    /// The first waiting query of a pool in which none may wait.
    fn first_nowait(&self) -> Option<Waiter>
        requires { AreNumbered self.now.last_query self.now.waiting self.now.running }
        ensures { result ≡ first_nowait self.now }
    {
        let query = self.waiting.first_nowait(&self.definitions)?;
        self.waiter_called(query)
    }

    /// The waiting query ends so.
    pub fn end_as(&mut self, w: Waiter, end: End)
        requires counts { length self.old.counters ≡ length self.old.definitions.pools }
        requires leaves { MayLeave self.old.waiting w }
        ensures { self.new ≡ ended_as end self.old w }
    {
        let rows = self.definitions.pools.rows();
        count_end(rows, w.pool, end, &mut self.counters);
        self.sessions.set_phase(w.session, Phase::Ended(end));
        self.waiting.leave(w.query);
    }

    /// The waiting query ends at its deadline.
    fn time_out(&mut self, w: Waiter)
        requires sound { IsSound self.old.definitions }
        requires counts { length self.old.counters ≡ length self.old.definitions.pools }
        requires leaves { MayLeave self.old.waiting w }
        ensures { self.new ≡ timed_out self.old w }
    {
        let deadline = deadline(&self.definitions, &w);
        self.end_as(w, End::TimedOut(deadline));
    }

    /// Each waiting query that is too large now ends.
    pub fn end_too_large(&mut self)
        requires { CanSettle self.old }
        ensures state { self.new ≡ without_too_large self.old }
        ensures settles { CanSettle self.new }
        ensures small { first_too_large self.new ≡ None }
    {
        while let Some(w) = self.first_too_large() {
            let end = self.too_large_end(&w);
            self.end_as(w, end);
        }
    }

    /// Each waiting query of a pool in which none may wait ends.
    pub fn end_nowait(&mut self)
        requires { IsSettling self.old }
        ensures state { self.new ≡ without_nowait self.old }
        ensures settling { IsSettling self.new }
    {
        while let Some(w) = self.first_nowait() {
            self.time_out(w);
        }
    }

    /// Each waiting query whose deadline has come ends. Says whether there was one.
    pub fn end_due(&mut self) -> bool
        requires { IsHealthy self.old }
        ensures state { self.new ≡ without_due self.old }
        ensures some { result ≡ is_some (first_due self.old) }
    {
        let some = self.first_due().is_some();
        while let Some(w) = self.first_due() {
            self.time_out(w);
        }
        some
    }
}
