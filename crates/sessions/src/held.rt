//! The sessions that a script has opened, by its names for them.

ghost use Rattle.std.specs.Prelude.{◌≡◌, ◌<◌, false, length, position, IfErr, IfSome};
ghost use Rattle.std.specs.List.{list_any};
ghost use Rattle.rm_base.specs.Name.{same_name};
ghost use Rattle.sessions.specs.Held.{named_session, IsHeld, printed, PrintsAs, grant_after, given_up, held_back, closing_reply};
ghost use Rattle.sessions.specs.Host.{desk_known};
ghost use Rattle.sessions.specs.Session.{CallsOnce};

use crate::grant::Grant;
use crate::host::Host;
use crate::session::Session;
use crate::submitted::Submitted;
use machine::desk::Desk;
use rm_base::event::Event;
use rm_base::moment::Moment;
use rm_base::name::Name;
use rm_base::refusal::Refusal;
use rm_base::reply::Reply;

/// A session of a script, with its grant while one is out, and whether its query is to give way, as a check replied.
pub struct Held {
    pub name: Name,
    pub session: Session,
    pub grant: Option<Grant>,
    pub leaving: bool,
}

/// A grant that is left when its script ends is given up, with no event.
impl Drop for Held {
    fn drop(self) {
        let Held {
            name: _,
            session: _,
            grant,
            leaving: _,
        } = self;
        if let Some(grant) = grant {
            let _bytes = grant.spend();
        }
    }
}

impl Held {
    /// Submits a query, and answers what the reply prints.
    pub fn ask(&mut self, desk: &mut Desk, at: Moment, floor: u64) -> Reply
        requires { IsHeld (desk_known desk.old) self.old }
        ensures call { CallsOnce (desk_known desk.old) (desk_known desk.new) at (Event.Submit self.old.session.number floor) (PrintsAs result) }
        ensures held { IsHeld (desk_known desk.new) self.new }
        ensures named { named_session self.new ≡ named_session self.old }
    {
        let told = self.session.submit(desk, at, floor);
        let reply = printed(&told);
        self.keep(told);
        reply
    }

    /// Asks for the query, and answers what the reply prints.
    pub fn poll(&mut self, desk: &mut Desk, at: Moment) -> Reply
        requires { IsHeld (desk_known desk.old) self.old }
        ensures call { CallsOnce (desk_known desk.old) (desk_known desk.new) at (Event.Poll self.old.session.number) (PrintsAs result) }
        ensures held { IsHeld (desk_known desk.new) self.new }
        ensures named { named_session self.new ≡ named_session self.old }
    {
        let grant = self.grant.take();
        let told = self.session.poll(desk, at, grant);
        let reply = printed(&told);
        self.keep(told);
        reply
    }

    /// Asks whether the query may run on, and keeps in mind whether it is to give way.
    pub fn check(&mut self, desk: &mut Desk, at: Moment) -> Reply
        requires { IsHeld (desk_known desk.old) self.old }
        ensures call { CallsOnce (desk_known desk.old) (desk_known desk.new) at (Event.Check self.old.session.number) (λ reply. reply ≡ result) }
        ensures held { IsHeld (desk_known desk.new) self.new }
        ensures named { named_session self.new ≡ named_session self.old }
    {
        let reply = self.checked(desk, at);
        if let Reply::GiveWay(_) = reply {
            self.leaving = true;
        }
        reply
    }

    /// The reply to Check. Where no grant is out, the event goes to the machine itself.
    fn checked(&mut self, desk: &mut Desk, at: Moment) -> Reply
        requires { IsHeld (desk_known desk.old) self.old }
        ensures call { CallsOnce (desk_known desk.old) (desk_known desk.new) at (Event.Check self.old.session.number) (λ reply. reply ≡ result) }
        ensures same { self.new ≡ self.old }
    {
        match &self.grant {
            Some(grant) => self.session.check(desk, at, grant),
            None => {
                let event = Event::Check {
                    session: self.session.number(),
                };
                desk.call(at, &event).reply
            }
        }
    }

    /// Lets the query give way. Where no grant is out, or the query is not to give way, the event goes to the machine itself.
    pub fn give_way(&mut self, desk: &mut Desk, at: Moment) -> Reply
        requires { IsHeld (desk_known desk.old) self.old }
        ensures call { CallsOnce (desk_known desk.old) (desk_known desk.new) at (Event.GiveWay self.old.session.number) (PrintsAs result) }
        ensures held { IsHeld (desk_known desk.new) self.new }
        ensures named { named_session self.new ≡ named_session self.old }
    {
        match self.leaving_grant() {
            Some(grant) => {
                let told = self.session.give_way(desk, at, grant);
                let reply = printed(&told);
                self.keep(told);
                reply
            }
            None => {
                let event = Event::GiveWay {
                    session: self.session.number(),
                };
                desk.call(at, &event).reply
            }
        }
    }

    /// The grant of a query that is to give way, which it does now.
    fn leaving_grant(&mut self) -> Option<Grant>
        ensures grant { result ≡ given_up self.old.leaving self.old.grant }
        ensures left { self.new ≡ record self.old { grant = held_back self.old.leaving self.old.grant; leaving = false } }
    {
        if !self.leaving {
            return None;
        }
        self.leaving = false;
        self.grant.take()
    }

    /// Ends the query. Where no grant is out, the event goes to the machine itself.
    pub fn finish(&mut self, desk: &mut Desk, at: Moment) -> Reply
        requires { IsHeld (desk_known desk.old) self.old }
        ensures call { CallsOnce (desk_known desk.old) (desk_known desk.new) at (Event.Finish self.old.session.number) (λ reply. reply ≡ result) }
        ensures held { IsHeld (desk_known desk.new) self.new }
        ensures named { named_session self.new ≡ named_session self.old }
    {
        self.leaving = false;
        match self.grant.take() {
            Some(grant) => Reply::Released(self.session.finish(desk, at, grant)),
            None => {
                let event = Event::Finish {
                    session: self.session.number(),
                };
                desk.call(at, &event).reply
            }
        }
    }

    /// Closes the session, which comes back where that is refused. While a grant is out, the event goes to the machine
    /// itself.
    pub fn close(self, desk: &mut Desk, at: Moment) -> Result<(), (Held, Refusal)>
        requires { IsHeld (desk_known desk.old) self }
        ensures call { CallsOnce (desk_known desk.old) (desk_known desk.new) at (Event.Close self.session.number) (λ reply. reply ≡ closing_reply result) }
        ensures held { IfErr result (λ back. IsHeld (desk_known desk.new) back.0) }
        ensures named { IfErr result (λ back. named_session back.0 ≡ named_session self) }
    {
        let Held {
            name,
            session,
            grant,
            leaving,
        } = self;
        match grant {
            None => match session.close(desk, at) {
                Ok(()) => Ok(()),
                Err((session, refusal)) => {
                    let held = Held {
                        name,
                        session,
                        grant: None,
                        leaving,
                    };
                    Err((held, refusal))
                }
            },
            Some(grant) => {
                let event = Event::Close {
                    session: session.number(),
                };
                let Reply::Refused(refusal) = desk.call(at, &event).reply else {
                    unreachable!()
                };
                let held = Held {
                    name,
                    session,
                    grant: Some(grant),
                    leaving,
                };
                Err((held, refusal))
            }
        }
    }

    /// Keeps the grant of a query that was admitted.
    fn keep(&mut self, told: Submitted)
        ensures { self.new ≡ record self.old { grant = grant_after told self.old.grant } }
    {
        match told {
            Submitted::Admitted(grant, _) => {
                if let Some(before) = self.grant.replace(grant) {
                    let _bytes = before.spend();
                }
            }
            Submitted::Waiting(_) => {}
            Submitted::Ended(_) => {}
            Submitted::Refused(_) => {}
        }
    }
}

/// The reply that told this, but for the number of the query, which is not printed.
fn printed(told: &Submitted) -> Reply
    ensures { result ≡ printed told.now }
{
    match told {
        Submitted::Admitted(grant, account) => Reply::Admitted {
            query: 0,
            pool: account.pool,
            grant: grant.bytes(),
            own: account.own,
            borrowed: account.borrowed,
        },
        Submitted::Waiting(place) => Reply::Waiting {
            query: 0,
            place: *place,
        },
        Submitted::Ended(end) => Reply::Ended(*end),
        Submitted::Refused(refusal) => Reply::Refused(*refusal),
    }
}

/// The place of the session that has this name.
pub fn place_of(held: &[Held], name: Name) -> Option<usize>
    ensures place { result ≡ position (λ h. same_name h.name name) held.now }
    ensures within { IfSome result (λ place. place < length held.now) }
{
    held.iter().position(|h| h.name.same(name))
}

/// Whether a session has this name.
pub fn has_session(held: &[Held], name: Name) -> bool
    ensures { result ≡ list_any (λ h. same_name h.name name) held.now }
{
    held.iter().any(|h| h.name.same(name))
}
