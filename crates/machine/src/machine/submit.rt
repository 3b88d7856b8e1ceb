//! Submit: a new query.
ghost use Rattle.std.specs.Prelude.{◌≡◌, ◌<◌, ◌≤◌, ◌+◌, true, false, length, Some, Ok, Err, IfOk, IfErr, IfNone, OnErr};
ghost use Rattle.rm_base.specs.declared.limits.TheConstants.{SESSIONS_MOST, ENTRIES_BEYOND};

use super::Machine;
use crate::done::Done;
use crate::sessions::is_idle;
use rm_base::name::Name;
use rm_base::refusal::Refusal;
use rm_rules::answer::Answer;
use rm_rules::state::{Phase, Session, Waiter};

impl Machine {
    ghost use Rattle.rm_rules.specs.State.{session_called, is_idle};
    ghost use Rattle.rm_rules.specs.Change.{size_refusal, submitting_refusal, submitted, submitting};
    ghost use Rattle.rm_rules.specs.Sound.{IsSound};
    ghost use Rattle.rm_rules.specs.Healthy.{IsHealthy};
    ghost use Rattle.pool_queue.specs.Queue.{has_query};
    ghost use Rattle.machine.specs.Done.{change_to};

    /// Why a query of this user with this floor is too large for the pool.
    fn size_refusal(&self, pool: Name, user: Name, floor: u64) -> Option<Refusal>
        requires { IsSound self.now.definitions }
        ensures { result ≡ size_refusal self.now.definitions pool user floor }
    {
        let least = self.least_cap(pool, user);
        if least.bytes < floor {
            Some(Refusal::TooLarge(least.kind, floor, least.bytes))
        } else {
            None
        }
    }

    /// Why the session may not submit a query with this floor to the pool.
    fn submitting_refusal(&self, x: &Session, pool: Name, floor: u64) -> Option<Refusal>
        requires { IsHealthy self.now }
        ensures value { result ≡ submitting_refusal self.now x.now pool floor }
        ensures idle { IfNone result (is_idle x.now.phase ≡ true) }
    {
        if !is_idle(x.phase) {
            return Some(Refusal::SessionBusy);
        }
        if !self.has_user(x.user) {
            return Some(Refusal::NoSuchUser(x.user));
        }
        if !self.has_usage(x.user, pool) {
            return Some(Refusal::NoUsage(pool));
        }
        if let Some(refusal) = self.size_refusal(pool, x.user, floor) {
            return Some(refusal);
        }
        if self.is_journal_full(self.live_queries() + 1, self.sessions.len()) {
            return Some(Refusal::JournalFull(self.room));
        }
        None
    }

    /// A new query of the session joins the queue of the pool now.
    fn enqueue(&mut self, x: &Session, pool: Name, floor: u64)
        requires room { length self.old.waiting < SESSIONS_MOST }
        requires absent { has_query self.old.waiting (self.old.last_query + 1) ≡ false }
        requires numbers { self.old.last_query ≤ self.old.room + ENTRIES_BEYOND }
        ensures { self.new ≡ (submitted self.old x.now pool floor).state }
    {
        let query = self.last_query + 1;
        self.waiting.join(Waiter {
            query,
            session: x.number,
            user: x.user,
            pool,
            floor,
            queued: self.clock,
            ran: 0,
            moves: 0,
        });
        self.sessions.set_phase(x.number, Phase::Waiting);
        self.last_query = query;
    }

    /// The session submits a query with this floor to its pool.
    pub fn submit(&mut self, x: &Session, floor: u64) -> Result<Done, Refusal>
        requires healthy { IsHealthy self.old }
        requires open { session_called self.old.sessions x.now.number ≡ Some x.now }
        ensures ok { IfOk result (λ done. submitting self.old floor x.now ≡ Ok (change_to self.new done)) }
        ensures err { IfErr result (λ refusal. submitting self.old floor x.now ≡ Err refusal) }
        ensures kept { OnErr result (self.new ≡ self.old) }
    {
        let pool = self.session_pool(x);
        if let Some(refusal) = self.submitting_refusal(x, pool, floor) {
            return Err(refusal);
        }
        self.enqueue(x, pool, floor);
        Ok(Done::changing(Answer::Collects(x.number)))
    }
}
