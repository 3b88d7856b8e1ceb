//! Check: whether a running query goes on, and where.
ghost use Rattle.std.specs.Prelude.{◌≡◌, ◌<◌, true, Some, Ok, Err, IfOk, IfErr, OnErr};
ghost use Rattle.rm_base.specs.declared.limits.TheConstants.{MOVES_MOST};

use super::Machine;
use super::fit::takes_grant;
use crate::done::Done;
use crate::moves::{add_move, leaving_for, move_of, moved};
use cascade::{running_time, verdict};
use rm_base::name::Name;
use rm_base::refusal::Refusal;
use rm_base::reply::Reply;
use rm_rules::answer::Answer;
use rm_rules::state::{Runner, Session};
use rm_rules::verdict::Verdict;

impl Machine {
    ghost use Rattle.rm_rules.specs.declared.verdict.Verdict.TheVariants.{GoesTo};
    ghost use Rattle.rm_rules.specs.State.{runner_of};
    ghost use Rattle.rm_rules.specs.Moving.{takes, moved_on, asked_to_leave};
    ghost use Rattle.rm_rules.specs.Change.{checked_to, checking};
    ghost use Rattle.rm_rules.specs.Sound.{has_pool};
    ghost use Rattle.rm_rules.specs.Healthy.{IsHealthy};
    ghost use Rattle.machine.specs.Done.{change_to};

    /// The pool takes the running query as it stands.
    fn takes(&self, r: &Runner, pool: Name) -> bool
        requires healthy { IsHealthy self.now }
        requires runs { runner_of self.now.running r.now.session ≡ Some r.now }
        ensures { result ≡ takes self.now r.now pool }
    {
        let seen = self.runs.accounts().if_moved(r.query, pool);
        takes_grant(&self.definitions, &seen, pool, r.grant)
    }

    /// The running query goes on in the pool with its grant, behind all others that run.
    fn move_on(&mut self, r: &Runner, pool: Name)
        requires healthy { IsHealthy self.old }
        requires runs { runner_of self.old.running r.now.session ≡ Some r.now }
        requires moves { r.now.moves < MOVES_MOST }
        requires known { has_pool self.old.definitions pool ≡ true }
        requires takes { takes self.old r.now pool ≡ true }
        ensures { self.new ≡ moved_on self.old r.now pool }
    {
        self.runs.go_on(r, &moved(self.clock, pool, r));
        add_move(&mut self.moves, move_of(self.clock, pool, r));
    }

    /// The running query is to give way to wait in the pool.
    fn ask_to_leave(&mut self, r: &Runner, pool: Name)
        requires runs { runner_of self.old.running r.now.session ≡ Some r.now }
        requires moves { r.now.moves < MOVES_MOST }
        ensures { self.new ≡ asked_to_leave self.old r.now pool }
    {
        self.runs.mark(r, &leaving_for(pool, r));
    }

    /// The running query goes on in the pool, where that takes it, and else is to give way to wait there.
    fn send_to(&mut self, r: &Runner, pool: Name) -> Done
        requires healthy { IsHealthy self.old }
        requires runs { runner_of self.old.running r.now.session ≡ Some r.now }
        requires moves { r.now.moves < MOVES_MOST }
        requires known { has_pool self.old.definitions pool ≡ true }
        ensures { checked_to self.old r.now (GoesTo pool) ≡ change_to self.new result }
    {
        if self.takes(r, pool) {
            self.move_on(r, pool);
            Done::changing(Answer::Says(Reply::MovedOn(pool)))
        } else {
            self.ask_to_leave(r, pool);
            Done::changing(Answer::Says(Reply::GiveWay(pool)))
        }
    }

    /// The session is told whether its query goes on.
    pub fn check(&mut self, x: &Session) -> Result<Done, Refusal>
        requires { IsHealthy self.old }
        ensures ok { IfOk result (λ done. checking self.old x.now ≡ Ok (change_to self.new done)) }
        ensures err { IfErr result (λ refusal. checking self.old x.now ≡ Err refusal) }
        ensures kept { OnErr result (self.new ≡ self.old) }
    {
        let Some(r) = self.runs.of(x.number) else {
            return Err(Refusal::NotLive);
        };
        let running = running_time(&r, self.clock);
        match verdict(&self.definitions, &r, x.cap_ms, running) {
            Verdict::Says(reply) => Ok(Done::quiet(Answer::Says(reply))),
            Verdict::GoesTo(pool) => Ok(self.send_to(&r, pool)),
        }
    }
}
