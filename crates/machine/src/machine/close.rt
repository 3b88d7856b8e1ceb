//! Close: a session is gone.
ghost use Rattle.std.specs.Prelude.{◌≡◌, Ok, Err, IfOk, IfErr, OnErr};

use super::Machine;
use crate::done::Done;
use crate::sessions::is_running;
use rm_base::refusal::Refusal;
use rm_base::reply::Reply;
use rm_rules::answer::Answer;
use rm_rules::state::Session;

impl Machine {
    ghost use Rattle.rm_rules.specs.State.{without_waiter};
    ghost use Rattle.rm_rules.specs.Change.{closing};
    ghost use Rattle.rm_rules.specs.Healthy.{AreInPhase, AreNumbered};
    ghost use Rattle.machine.specs.Done.{change_to};

    /// The session's query waits no longer, if it has one that does.
    fn remove_waiting(&mut self, session: u32)
        requires in_phase { AreInPhase self.old.sessions self.old.waiting self.old.running }
        requires numbered { AreNumbered self.old.last_query self.old.waiting self.old.running }
        ensures { self.new ≡ record self.old { waiting = without_waiter session self.old.waiting } }
    {
        if let Some(w) = self.waiting.waiter_of(session) {
            self.waiting.leave(w.query);
        }
    }

    /// The session is closed, unless a query of it runs.
    pub fn close(&mut self, x: &Session) -> Result<Done, Refusal>
        requires in_phase { AreInPhase self.old.sessions self.old.waiting self.old.running }
        requires numbered { AreNumbered self.old.last_query self.old.waiting self.old.running }
        ensures ok { IfOk result (λ done. closing self.old x.now ≡ Ok (change_to self.new done)) }
        ensures err { IfErr result (λ refusal. closing self.old x.now ≡ Err refusal) }
        ensures kept { OnErr result (self.new ≡ self.old) }
    {
        if is_running(x.phase) {
            return Err(Refusal::SessionBusy);
        }
        self.remove_waiting(x.number);
        self.sessions.remove(x.number);
        Ok(Done::changing(Answer::Says(Reply::Closed)))
    }
}
