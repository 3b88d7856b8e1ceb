//! What follows each change.
ghost use Rattle.std.specs.Prelude.{◌≡◌, ◌<◌, ◌≤◌, ◌==◌, ◌*◌, true, count_by, length, None};
ghost use Rattle.rm_base.specs.declared.limits.TheConstants.{SESSIONS_MOST, MEMORY_MOST};

use super::Machine;
use budgets::row_asked;
use rm_rules::state::{Phase, Runner, Waiter};

impl Machine {
    ghost use Rattle.rm_rules.specs.Holdings.{holdings_of};
    ghost use Rattle.rm_rules.specs.Accounting.{need, free};
    ghost use Rattle.rm_rules.specs.Admission.{ask_of, first_entitled, admitted, admission};
    ghost use Rattle.rm_rules.specs.Shuffle.{shuffled_state};
    ghost use Rattle.rm_rules.specs.Settle.{settled, first_too_large};
    ghost use Rattle.rm_rules.specs.Sound.{IsSound, has_pool};
    ghost use Rattle.rm_rules.specs.Healthy.{AreSized};
    ghost use Rattle.machine.specs.Settling.{CanSettle, IsSettling, MayLeave};

    /// The first entitled head in queue order.
    fn first_entitled(&self) -> Option<Waiter>
        requires { IsSettling self.now }
        ensures { result ≡ first_entitled self.now }
    {
        let query = self.waiting.first_entitled(&self.definitions, self)?;
        self.waiter_called(query)
    }

    /// The waiting query runs from now on, with its ask as its grant.
    fn admit(&mut self, w: Waiter)
        requires sound { IsSound self.old.definitions }
        requires sized { AreSized self.old.definitions self.old.actual self.old.counters }
        requires room { length self.old.running < SESSIONS_MOST }
        requires absent { count_by (λ r. r.query == w.query) self.old.running ≡ 0 }
        requires known { has_pool self.old.definitions w.pool ≡ true }
        requires fits { need (holdings_of self.old) w.pool (ask_of self.old.definitions w) ≤ free (holdings_of self.old) }
        requires leaves { MayLeave self.old.waiting w }
        ensures { self.new ≡ admitted self.old w }
    {
        let grant = row_asked(&self.definitions, &self.row(w.pool), w.user, w.floor);
        self.sessions.set_phase(w.session, Phase::Running);
        self.waiting.leave(w.query);
        self.runs.begin(&Runner {
            query: w.query,
            session: w.session,
            user: w.user,
            pool: w.pool,
            floor: w.floor,
            grant,
            start: self.clock,
            ran: w.ran,
            moves: w.moves,
            leaving: None,
            cancelled: false,
        });
    }

    /// Admits the first entitled head, again and again until no head is entitled.
    fn admit_entitled(&mut self)
        requires { IsSettling self.old }
        ensures state { self.new ≡ admission self.old }
        ensures settling { IsSettling self.new }
    {
        while let Some(w) = self.first_entitled() {
            self.admit(w);
        }
    }

    /// Sizes follow the declared ones, and the memory in force the total.
    fn shuffle(&mut self)
        requires { CanSettle self.old }
        ensures { self.new ≡ shuffled_state self.old }
    {
        self.runs.shuffle(&self.definitions);
    }

    /// What follows a change: too large queries end, sizes are shuffled, heads are admitted, queries that may not wait end,
    /// and heads are admitted again.
    pub fn settle(&mut self)
        requires { CanSettle self.old }
        ensures { self.new ≡ settled self.old }
    {
        self.end_too_large();
        self.shuffle();
        self.admit_entitled();
        self.end_nowait();
        self.admit_entitled();
    }
}
