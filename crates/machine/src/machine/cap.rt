//! SetCap: a session's own runtime cap.
ghost use Rattle.std.specs.Prelude.{◌≡◌, Ok, Err, IfOk, IfErr, OnErr};
ghost use Rattle.rm_rules.specs.Change.{within_moments};

use super::Machine;
use crate::done::Done;
use crate::sessions::has_cap;
use rm_base::limits::MOMENT_MOST;
use rm_base::refusal::Refusal;
use rm_base::reply::Reply;
use rm_rules::answer::Answer;
use rm_rules::state::Session;

/// A cap is the greatest moment at most.
fn within_moments(cap: Option<u64>) -> Option<u64>
    ensures { result ≡ within_moments cap }
{
    cap.map(|ms| MOMENT_MOST.min(ms))
}

impl Machine {
    ghost use Rattle.rm_rules.specs.Change.{capping};
    ghost use Rattle.rm_rules.specs.Healthy.{IsHealthy};
    ghost use Rattle.machine.specs.Done.{change_to};

    /// The session's queries have this runtime cap from now on, or none of the session. To set the cap that is there
    /// changes nothing.
    pub fn set_cap(&mut self, x: &Session, cap: Option<u64>) -> Result<Done, Refusal>
        requires { IsHealthy self.old }
        ensures ok { IfOk result (λ done. capping self.old cap x.now ≡ Ok (change_to self.new done)) }
        ensures err { IfErr result (λ refusal. capping self.old cap x.now ≡ Err refusal) }
        ensures kept { OnErr result (self.new ≡ self.old) }
    {
        if self.is_journal_full(self.live_queries(), self.sessions.len()) {
            return Err(Refusal::JournalFull(self.room));
        }
        let cap = within_moments(cap);
        let answer = Answer::Says(Reply::Set);
        if has_cap(x, cap) {
            return Ok(Done::quiet(answer));
        }
        self.sessions.set_cap(x.number, cap);
        Ok(Done::changing(answer))
    }
}
