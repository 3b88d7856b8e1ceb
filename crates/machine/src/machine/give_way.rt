//! GiveWay: a running query leaves its pool to wait in another.
ghost use Rattle.std.specs.Prelude.{◌≡◌, Some, Ok, Err, IfOk, IfErr, OnErr};

use super::Machine;
use crate::done::Done;
use crate::moves::{add_move, move_of, requeued};
use rm_base::name::Name;
use rm_base::refusal::Refusal;
use rm_rules::answer::Answer;
use rm_rules::state::{Phase, Runner, Session};

impl Machine {
    ghost use Rattle.rm_rules.specs.State.{runner_of};
    ghost use Rattle.rm_rules.specs.Moving.{gave_way};
    ghost use Rattle.rm_rules.specs.Change.{giving_way};
    ghost use Rattle.rm_rules.specs.Healthy.{IsHealthy};
    ghost use Rattle.machine.specs.Done.{change_to};

    /// The running query gives its bytes back, and waits in the pool behind all others that wait.
    fn requeue(&mut self, r: &Runner, pool: Name)
        requires healthy { IsHealthy self.old }
        requires runs { runner_of self.old.running r.now.session ≡ Some r.now }
        ensures { self.new ≡ gave_way self.old r.now pool }
    {
        self.runs.end(r);
        self.sessions.set_phase(r.session, Phase::Waiting);
        self.waiting.join(requeued(self.clock, pool, r));
        add_move(&mut self.moves, move_of(self.clock, pool, r));
    }

    /// The session's query gives way, where it is to.
    pub fn give_way(&mut self, x: &Session) -> Result<Done, Refusal>
        requires { IsHealthy self.old }
        ensures ok { IfOk result (λ done. giving_way self.old x.now ≡ Ok (change_to self.new done)) }
        ensures err { IfErr result (λ refusal. giving_way self.old x.now ≡ Err refusal) }
        ensures kept { OnErr result (self.new ≡ self.old) }
    {
        let Some(r) = self.runs.of(x.number) else {
            return Err(Refusal::NotLive);
        };
        let Some(pool) = r.leaving else {
            return Err(Refusal::NotLive);
        };
        self.requeue(&r, pool);
        Ok(Done::changing(Answer::Collects(r.session)))
    }
}
