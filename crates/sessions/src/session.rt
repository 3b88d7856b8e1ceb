//! Sessions over a host, and the laws on them.

ghost use Rattle.std.specs.Prelude.{◌≡◌, ◌≢◌, ◌↔◌, ℕ, true, false, ◌||◌, is_some, IfOk, IfErr, IsErr, OnOk, IfSome};
ghost use Rattle.std.specs.Option.{ForSome};
ghost use Rattle.rm_base.specs.declared.entry.Account.{Account};
ghost use Rattle.rm_base.specs.declared.entry.Answered.{Answered};
ghost use Rattle.rm_base.specs.declared.event.Event.{Event};
ghost use Rattle.rm_rules.specs.Grants.{is_refused};
ghost use Rattle.rm_rules.specs.Replay.{IsFormed};
ghost use Rattle.sessions.specs.Granted.{Granted};
ghost use Rattle.sessions.specs.Host.{Known, SeesMore, Called};
ghost use Rattle.sessions.specs.Session.{SeesOpen, SeesRunning, TellsGrant};

use crate::grant::Grant;
use crate::host::Host;
use crate::submitted::Submitted;
use rm_base::entry::Account;
use rm_base::event::Event;
use rm_base::moment::Moment;
use rm_base::name::Name;
use rm_base::refusal::Refusal;
use rm_base::reply::Reply;
use std::marker::Model;

/// A session of a host, which knows whether a grant of it is out. Each of its calls is one event of the host, takes no
/// memory, and answers that event's reply.
#[derive(Debug, Drop)]
pub struct Session {
    number: u32,
    granted: bool,
}

impl Model for Session {
    ghost use Rattle.sessions.specs.Granted.{SessionState};

    ghost Value = { SessionState };

    ghost view = { λ s. record { number = s.number; granted = s.granted } };
}

impl Session {
    ghost use Rattle.sessions.specs.Session.{SeesOpen, SeesQuery, sees_leaving, HoldsGrant, CallsOnce, asks_way, open_reply, close_reply, IsTold, TellsQuery, is_admitted, is_refusal, IfAdmitted, ComesBack};

    /// Opens a session of a user. It is refused with 8 where there is no such user, with 24 where as many sessions are open
    /// as may be, and with 25 where the journal is full.
    pub fn open<H: Host>(host: &mut H, at: Moment, user: Name) -> Result<Session, Refusal>
        ensures call { CallsOnce (H.known host.old) (H.known host.new) at (Event.Open user)
            (λ reply. reply ≡ open_reply result) }
        ensures open { IfOk result (λ session. SeesOpen (H.known host.new) session.number) }
        ensures free { IfOk result (λ session. session.granted ≡ false) }
    {
        match host.call(at, &Event::Open { user }).reply {
            Reply::Opened(number) => Ok(Session {
                number,
                granted: false,
            }),
            Reply::Refused(refusal) => Err(refusal),
            _ => unreachable!(),
        }
    }

    /// The number by which the host knows the session.
    pub fn number(&self) -> u32
        ensures { result ≡ self.now.number }
    {
        self.number
    }

    /// Submits a query that no less than `floor` bytes serve. It is refused with 20 where the host's seat has no such
    /// session, with 21 where the session has a query, with 8 where its user is gone, with 23 where the user may not use
    /// the session's pool, with 19 where no query of that pool may have so many bytes, and with 25 where the journal is
    /// full.
    pub fn submit<H: Host>(&mut self, host: &mut H, at: Moment, floor: u64) -> Submitted
        ensures call { CallsOnce (H.known host.old) (H.known host.new) at (Event.Submit self.old.number floor)
            (IsTold self.old.number result) }
        ensures grant { IfAdmitted result (HoldsGrant (H.known host.new) self.old.number) }
        ensures busy { (grant : Granted) → HoldsGrant (H.known host.old) self.old.number grant
            → result ≡ Submitted.Refused Refusal.SessionBusy }
        ensures session { self.new ≡ record self.old { granted = self.old.granted || is_admitted result } }
        ensures open { SeesOpen (H.known host.old) self.old.number → SeesOpen (H.known host.new) self.old.number }
    {
        let event = Event::Submit {
            session: self.number,
            floor,
        };
        let answered = host.call(at, &event);
        self.told(answered.reply)
    }

    /// Asks for the session's query. `held` is the session's grant where one is out, and comes back. Else it is refused
    /// with 20 where the host's seat has no such session, and with 22 where the session has no query.
    pub fn poll<H: Host>(&mut self, host: &mut H, at: Moment, held: Option<Grant>) -> Submitted
        requires held { self.old.granted ≡ is_some held }
        requires own { ForSome held (HoldsGrant (H.known host.old) self.old.number) }
        ensures call { CallsOnce (H.known host.old) (H.known host.new) at (Event.Poll self.old.number)
            (IsTold self.old.number result) }
        ensures back { IfSome held (λ grant. ComesBack grant result) }
        ensures grant { IfAdmitted result (HoldsGrant (H.known host.new) self.old.number) }
        ensures session { self.new ≡ record self.old { granted = is_admitted result } }
        ensures open { SeesOpen (H.known host.old) self.old.number → SeesOpen (H.known host.new) self.old.number }
    {
        let event = Event::Poll {
            session: self.number,
        };
        let answered = host.call(at, &event);
        match held {
            Some(grant) => {
                let account = account_of(&grant, answered.reply);
                Submitted::Admitted(grant, account)
            }
            None => self.told(answered.reply),
        }
    }

    /// Asks whether the session's query may run on with its grant. It is never refused. The query may have moved on to
    /// another pool; where the reply is to give way, `give_way` is what it asks for.
    pub fn check<H: Host>(&mut self, host: &mut H, at: Moment, grant: &Grant) -> Reply
        requires own { HoldsGrant (H.known host.old) self.old.number grant.now }
        ensures call { CallsOnce (H.known host.old) (H.known host.new) at (Event.Check self.old.number)
            (λ reply. reply ≡ result) }
        ensures told { is_refused result ≡ false }
        ensures grant { HoldsGrant (H.known host.new) self.old.number grant.now }
        ensures leaving { sees_leaving (H.known host.new) self.old.number ≡ (sees_leaving (H.known host.old) self.old.number || asks_way result) }
        ensures session { self.new ≡ self.old }
        ensures open { SeesOpen (H.known host.new) self.old.number }
    {
        let event = Event::Check {
            session: self.number,
        };
        host.call(at, &event).reply
    }

    /// Lets the session's query give its grant back and wait in the pool for which it is to leave. Its run has been stopped,
    /// and its memory dropped. It is never refused, and the query may be admitted at once, with another grant.
    pub fn give_way<H: Host>(&mut self, host: &mut H, at: Moment, grant: Grant) -> Submitted
        requires own { HoldsGrant (H.known host.old) self.old.number grant }
        requires leaving { sees_leaving (H.known host.old) self.old.number ≡ true }
        ensures call { CallsOnce (H.known host.old) (H.known host.new) at (Event.GiveWay self.old.number)
            (IsTold self.old.number result) }
        ensures told { is_refusal result ≡ false }
        ensures grant { IfAdmitted result (HoldsGrant (H.known host.new) self.old.number) }
        ensures session { self.new ≡ record self.old { granted = is_admitted result } }
        ensures open { SeesOpen (H.known host.new) self.old.number }
    {
        let event = Event::GiveWay {
            session: self.number,
        };
        let answered = host.call(at, &event);
        self.granted = false;
        let _bytes = grant.spend();
        self.told(answered.reply)
    }

    /// Ends the session's query and gives its grant back. It is never refused.
    pub fn finish<H: Host>(&mut self, host: &mut H, at: Moment, grant: Grant) -> u64
        requires own { HoldsGrant (H.known host.old) self.old.number grant }
        ensures call { CallsOnce (H.known host.old) (H.known host.new) at (Event.Finish self.old.number)
            (λ reply. reply ≡ Reply.Released result) }
        ensures bytes { result ≡ grant.bytes }
        ensures session { self.new ≡ record self.old { granted = false } }
        ensures open { SeesOpen (H.known host.new) self.old.number }
    {
        let event = Event::Finish {
            session: self.number,
        };
        let _answered = host.call(at, &event);
        self.granted = false;
        grant.spend()
    }

    /// Closes the session. It is refused with 21, and comes back, just where it has a query that was admitted unseen.
    pub fn close<H: Host>(self, host: &mut H, at: Moment) -> Result<(), (Session, Refusal)>
        requires free { self.granted ≡ false }
        requires open { SeesOpen (H.known host.old) self.number }
        ensures call { CallsOnce (H.known host.old) (H.known host.new) at (Event.Close self.number)
            (λ reply. reply ≡ close_reply result) }
        ensures closed { OnOk result (SeesOpen (H.known host.new) self.number → ⊥) }
        ensures runs { IsErr result ↔ SeesQuery (H.known host.new) self.number }
        ensures busy { IfErr result (λ back. back.1 ≡ Refusal.SessionBusy) }
        ensures back { IfErr result (λ back. back.0 ≡ self) }
    {
        let event = Event::Close {
            session: self.number,
        };
        match host.call(at, &event).reply {
            Reply::Closed => Ok(()),
            Reply::Refused(refusal) => Err((self, refusal)),
            _ => unreachable!(),
        }
    }

    /// What the reply to Submit, Poll or GiveWay says.
    fn told(&mut self, reply: Reply) -> Submitted
        requires { TellsQuery reply }
        ensures told { IsTold self.old.number result reply }
        ensures session { self.new ≡ record self.old { granted = self.old.granted || is_admitted result } }
    {
        match reply {
            Reply::Admitted {
                query,
                pool,
                grant,
                own,
                borrowed,
            } => {
                self.granted = true;
                let account = Account {
                    pool,
                    own,
                    borrowed,
                };
                Submitted::Admitted(Grant::of(self.number, query, grant), account)
            }
            Reply::Waiting { query: _, place } => Submitted::Waiting(place),
            Reply::Ended(end) => Submitted::Ended(end),
            Reply::Refused(refusal) => Submitted::Refused(refusal),
            _ => unreachable!(),
        }
    }
}

/// How a grant is held, as the reply tells.
fn account_of(grant: &Grant, reply: Reply) -> Account
    requires { (account : Account) × TellsGrant grant.now account reply }
    ensures { TellsGrant grant.now result reply }
{
    match reply {
        Reply::Admitted {
            query: _,
            pool,
            grant: _,
            own,
            borrowed,
        } => Account {
            pool,
            own,
            borrowed,
        },
        _ => unreachable!(),
    }
}

/// A session stays open, whatever is done at its host and at other seats, until its own seat closes it.
pub fn sessions_stay_open()
    ensures calls { (old new : Known) (at number : ℕ) (event : Event) (answered : Answered)
        → Called old new at event answered
        → IsFormed event
        → event ≢ Event.Close number
        → SeesOpen old number
        → SeesOpen new number }
    ensures looks { (old new : Known) (number : ℕ) → SeesMore old new → SeesOpen old number → SeesOpen new number }
{}

/// A query runs on with its grant, whatever is done at its host and at other seats, until its own seat finishes it or lets
/// it give way.
pub fn running_queries_go_on()
    ensures calls { (old new : Known) (at : ℕ) (grant : Granted) (event : Event) (answered : Answered)
        → Called old new at event answered
        → IsFormed event
        → event ≢ Event.Finish grant.session
        → event ≢ Event.GiveWay grant.session
        → SeesRunning old grant
        → SeesRunning new grant }
    ensures looks { (old new : Known) (grant : Granted) → SeesMore old new → SeesRunning old grant → SeesRunning new grant }
{}
