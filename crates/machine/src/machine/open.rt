//! Open: a new session.
ghost use Rattle.std.specs.Prelude.{◌≡◌, ◌<◌, Ok, Err, length, IfOk, IfErr, IfNone, OnErr};
ghost use Rattle.rm_base.specs.declared.limits.TheConstants.{SESSIONS_MOST};

use super::Machine;
use crate::done::Done;
use rm_base::limits::SESSIONS_MOST;
use rm_base::name::Name;
use rm_base::refusal::Refusal;
use rm_base::reply::Reply;
use rm_rules::answer::Answer;
use rm_rules::state::{Phase, Session};

impl Machine {
    ghost use Rattle.rm_rules.specs.State.{counted_entries};
    ghost use Rattle.rm_rules.specs.Change.{opening_refusal, opening};
    ghost use Rattle.rm_rules.specs.Healthy.{IsHealthy};
    ghost use Rattle.machine.specs.Done.{change_to};

    /// Why no session of this user is opened.
    fn opening_refusal(&self, user: Name) -> Option<Refusal>
        requires { IsHealthy self.now }
        ensures value { result ≡ opening_refusal self.now user }
        ensures place { IfNone result (length self.now.sessions < SESSIONS_MOST) }
        ensures room { IfNone result (counted_entries self.now.journal < self.now.room) }
    {
        if !self.has_user(user) {
            return Some(Refusal::NoSuchUser(user));
        }
        if self.sessions.len() >= SESSIONS_MOST {
            return Some(Refusal::SessionsFull(SESSIONS_MOST as u32));
        }
        if self.is_journal_full(self.live_queries(), self.sessions.len() + 1) {
            return Some(Refusal::JournalFull(self.room));
        }
        None
    }

    /// A new session of this user, opened by this seat.
    pub fn open_session(&mut self, seat: u32, user: Name) -> Result<Done, Refusal>
        requires { IsHealthy self.old }
        ensures ok { IfOk result (λ done. opening self.old seat user ≡ Ok (change_to self.new done)) }
        ensures err { IfErr result (λ refusal. opening self.old seat user ≡ Err refusal) }
        ensures kept { OnErr result (self.new ≡ self.old) }
    {
        if let Some(refusal) = self.opening_refusal(user) {
            return Err(refusal);
        }
        let number = self.last_session + 1;
        self.sessions.add(Session {
            number,
            seat,
            user,
            pool: None,
            cap_ms: None,
            phase: Phase::Idle,
        });
        self.last_session = number;
        Ok(Done::changing(Answer::Says(Reply::Opened(number))))
    }
}
