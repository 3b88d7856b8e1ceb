//! Poll: how a session's query stands.
ghost use Rattle.std.specs.Prelude.{◌≡◌, Ok, Err, IfOk, IfErr, OnErr};

use super::Machine;
use crate::done::Done;
use rm_base::refusal::Refusal;
use rm_base::reply::Reply;
use rm_rules::answer::Answer;
use rm_rules::state::{Phase, Session};

impl Machine {
    ghost use Rattle.rm_rules.specs.Change.{polling};
    ghost use Rattle.machine.specs.Done.{change_to};

    /// The session is told how its query stands. An end is collected.
    pub fn poll(&mut self, x: &Session) -> Result<Done, Refusal>
        ensures ok { IfOk result (λ done. polling self.old x.now ≡ Ok (change_to self.new done)) }
        ensures err { IfErr result (λ refusal. polling self.old x.now ≡ Err refusal) }
        ensures kept { OnErr result (self.new ≡ self.old) }
    {
        let quiet = Done::quiet(Answer::Tells(x.number));
        match x.phase {
            Phase::Idle => Err(Refusal::NotLive),
            Phase::Waiting => Ok(quiet),
            Phase::Running => Ok(quiet),
            Phase::Ended(end) => {
                self.sessions.set_phase(x.number, Phase::Idle);
                Ok(Done::changing(Answer::Says(Reply::Ended(end))))
            }
        }
    }
}
