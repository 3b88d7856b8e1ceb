//! Cancel: a session's query is to end, or to stop.
ghost use Rattle.std.specs.Prelude.{◌≡◌, Some, Ok, Err, IfOk, IfErr, OnErr};

use super::Machine;
use crate::done::Done;
use crate::moves::stopping;
use rm_base::refusal::Refusal;
use rm_base::reply::{End, Reply};
use rm_rules::answer::Answer;
use rm_rules::state::{Runner, Session};

impl Machine {
    ghost use Rattle.rm_rules.specs.State.{runner_of};
    ghost use Rattle.rm_rules.specs.Moving.{asked_to_stop};
    ghost use Rattle.rm_rules.specs.Change.{cancelled, cancelling};
    ghost use Rattle.rm_rules.specs.Healthy.{IsHealthy};
    ghost use Rattle.machine.specs.Done.{change_to};

    /// The running query is to stop.
    fn ask_to_stop(&mut self, r: &Runner)
        requires { runner_of self.old.running r.now.session ≡ Some r.now }
        ensures { self.new ≡ asked_to_stop self.old r.now }
    {
        self.runs.mark(r, &stopping(r));
    }

    /// The session's query ends where it waits, and is to stop where it runs. To cancel that again changes nothing.
    fn cancel_query(&mut self, y: &Session) -> Result<Done, Refusal>
        requires { IsHealthy self.old }
        ensures ok { IfOk result (λ done. cancelled self.old y.now ≡ Ok (change_to self.new done)) }
        ensures err { IfErr result (λ refusal. cancelled self.old y.now ≡ Err refusal) }
        ensures kept { OnErr result (self.new ≡ self.old) }
    {
        let answer = Answer::Says(Reply::Cancelled);
        if let Some(w) = self.waiting.waiter_of(y.number) {
            self.end_as(w, End::Cancelled);
            return Ok(Done::changing(answer));
        }
        let Some(r) = self.runs.of(y.number) else {
            return Err(Refusal::NotLive);
        };
        if r.cancelled {
            return Ok(Done::quiet(answer));
        }
        self.ask_to_stop(&r);
        Ok(Done::changing(answer))
    }

    /// The session asks for the end of the target's query, which is of the same user.
    pub fn cancel(&mut self, x: &Session, target: u32) -> Result<Done, Refusal>
        requires { IsHealthy self.old }
        ensures ok { IfOk result (λ done. cancelling self.old target x.now ≡ Ok (change_to self.new done)) }
        ensures err { IfErr result (λ refusal. cancelling self.old target x.now ≡ Err refusal) }
        ensures kept { OnErr result (self.new ≡ self.old) }
    {
        let Some(y) = self.sessions.called(target) else {
            return Err(Refusal::NoSuchSession);
        };
        if !x.user.same(y.user) {
            return Err(Refusal::NotLive);
        }
        self.cancel_query(&y)
    }
}
