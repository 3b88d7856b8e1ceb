//! SetPool: a session's choice of its pool.
ghost use Rattle.std.specs.Prelude.{◌≡◌, Ok, Err, IfOk, IfErr, OnErr};

use super::Machine;
use crate::done::Done;
use crate::sessions::has_chosen;
use rm_base::name::Name;
use rm_base::refusal::Refusal;
use rm_base::reply::Reply;
use rm_rules::answer::Answer;
use rm_rules::state::Session;

impl Machine {
    ghost use Rattle.rm_rules.specs.Change.{choosing_refusal, choosing};
    ghost use Rattle.rm_rules.specs.Healthy.{IsHealthy};
    ghost use Rattle.machine.specs.Done.{change_to};

    /// Why the session may not choose the pool.
    fn choosing_refusal(&self, x: &Session, pool: Name) -> Option<Refusal>
        requires { IsHealthy self.now }
        ensures { result ≡ choosing_refusal self.now x.now pool }
    {
        if !self.has_pool(pool) {
            return Some(Refusal::NoSuchPool(pool));
        }
        if !self.has_usage(x.user, pool) {
            return Some(Refusal::NoUsage(pool));
        }
        if self.is_journal_full(self.live_queries(), self.sessions.len()) {
            return Some(Refusal::JournalFull(self.room));
        }
        None
    }

    /// The session chooses its pool. To choose what is chosen changes nothing.
    pub fn choose(&mut self, x: &Session, pool: Name) -> Result<Done, Refusal>
        requires { IsHealthy self.old }
        ensures ok { IfOk result (λ done. choosing self.old pool x.now ≡ Ok (change_to self.new done)) }
        ensures err { IfErr result (λ refusal. choosing self.old pool x.now ≡ Err refusal) }
        ensures kept { OnErr result (self.new ≡ self.old) }
    {
        if let Some(refusal) = self.choosing_refusal(x, pool) {
            return Err(refusal);
        }
        let answer = Answer::Says(Reply::Set);
        if has_chosen(x, pool) {
            return Ok(Done::quiet(answer));
        }
        self.sessions.set_choice(x.number, pool);
        Ok(Done::changing(answer))
    }
}
