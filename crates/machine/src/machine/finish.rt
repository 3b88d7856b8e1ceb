//! Finish: a running query has ended.
ghost use Rattle.std.specs.Prelude.{◌≡◌, Ok, Err, IfOk, IfErr, OnErr};

use super::Machine;
use crate::done::Done;
use crate::sessions::is_running;
use rm_base::refusal::Refusal;
use rm_base::reply::Reply;
use rm_rules::answer::Answer;
use rm_rules::state::{Phase, Session};

impl Machine {
    ghost use Rattle.rm_rules.specs.State.{without_runner};
    ghost use Rattle.rm_rules.specs.Change.{grant_of, finishing};
    ghost use Rattle.rm_rules.specs.Healthy.{AreNumbered};
    ghost use Rattle.machine.specs.Done.{change_to};

    /// The session's query runs no longer. What it held is told, 0 where none runs.
    fn remove_running(&mut self, session: u32) -> u64
        requires { AreNumbered self.old.last_query self.old.waiting self.old.running }
        ensures state { self.new ≡ record self.old { running = without_runner session self.old.running } }
        ensures grant { result ≡ grant_of self.old.running session }
    {
        let Some(r) = self.runs.of(session) else {
            return 0;
        };
        self.runs.end(&r);
        r.grant
    }

    /// The session's query ends, and its grant is given back.
    pub fn finish(&mut self, x: &Session) -> Result<Done, Refusal>
        requires { AreNumbered self.old.last_query self.old.waiting self.old.running }
        ensures ok { IfOk result (λ done. finishing self.old x.now ≡ Ok (change_to self.new done)) }
        ensures err { IfErr result (λ refusal. finishing self.old x.now ≡ Err refusal) }
        ensures kept { OnErr result (self.new ≡ self.old) }
    {
        if !is_running(x.phase) {
            return Err(Refusal::NotLive);
        }
        let grant = self.remove_running(x.number);
        self.sessions.set_phase(x.number, Phase::Idle);
        Ok(Done::changing(Answer::Says(Reply::Released(grant))))
    }
}
