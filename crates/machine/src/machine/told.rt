//! What a session is told of its query.
ghost use Rattle.std.specs.Prelude.{◌≡◌, Some};

use super::Machine;
use crate::sessions::is_ended;
use rm_base::refusal::Refusal;
use rm_base::reply::Reply;
use rm_rules::answer::Answer;
use rm_rules::state::Phase;

impl Machine {
    ghost use Rattle.rm_rules.specs.State.{runner_of, waiter_of};
    ghost use Rattle.rm_rules.specs.Answers.{told_running, told_waiting, told, reply_of, without_end, answered};
    ghost use Rattle.rm_rules.specs.Healthy.{AreInPhase, AreNumbered};

    fn told_running(&self, session: u32) -> Reply
        requires { AreNumbered self.now.last_query self.now.waiting self.now.running }
        ensures { result ≡ told_running self.now session (runner_of self.now.running session) }
    {
        let Some(r) = self.runs.of(session) else {
            return Reply::Refused(Refusal::NotLive);
        };
        let account = self.runs.accounts().account_of(r.query);
        Reply::Admitted {
            query: r.query,
            pool: r.pool,
            grant: r.grant,
            own: account.own,
            borrowed: account.borrowed,
        }
    }

    fn told_waiting(&self, session: u32) -> Reply
        requires in_phase { AreInPhase self.now.sessions self.now.waiting self.now.running }
        requires numbered { AreNumbered self.now.last_query self.now.waiting self.now.running }
        ensures { result ≡ told_waiting self.now session (waiter_of self.now.waiting session) }
    {
        let Some(w) = self.waiting.waiter_of(session) else {
            return Reply::Refused(Refusal::NotLive);
        };
        Reply::Waiting {
            query: w.query,
            place: self.waiting.place_of(w.query).unwrap_or(0),
        }
    }

    /// What a session is told of its query, as the state stands.
    fn told(&self, session: u32) -> Reply
        requires in_phase { AreInPhase self.now.sessions self.now.waiting self.now.running }
        requires numbered { AreNumbered self.now.last_query self.now.waiting self.now.running }
        ensures { result ≡ told self.now session }
    {
        let Some(x) = self.sessions.called(session) else {
            return Reply::Refused(Refusal::NoSuchSession);
        };
        match x.phase {
            Phase::Idle => Reply::Refused(Refusal::NotLive),
            Phase::Waiting => self.told_waiting(session),
            Phase::Running => self.told_running(session),
            Phase::Ended(end) => Reply::Ended(end),
        }
    }

    /// The reply to an event that is not refused.
    pub fn reply_of(&self, answer: Answer) -> Reply
        requires in_phase { AreInPhase self.now.sessions self.now.waiting self.now.running }
        requires numbered { AreNumbered self.now.last_query self.now.waiting self.now.running }
        ensures { result ≡ reply_of self.now answer }
    {
        match answer {
            Answer::Says(reply) => reply,
            Answer::Tells(session) => self.told(session),
            Answer::Collects(session) => self.told(session),
        }
    }

    /// The session of this number has collected its end, where its query has ended.
    fn collect_end(&mut self, session: u32)
        ensures { self.new ≡ record self.old { sessions = without_end session self.old.sessions } }
    {
        if is_ended(self.sessions.phase_of(session)) {
            self.sessions.set_phase(session, Phase::Idle);
        }
    }

    /// The answer is given: what it collects is collected.
    pub fn collect(&mut self, answer: Answer)
        ensures { self.new ≡ answered self.old answer }
    {
        match answer {
            Answer::Says(_) => {}
            Answer::Tells(_) => {}
            Answer::Collects(session) => self.collect_end(session),
        }
    }
}
