use crate::name::Name;
use crate::refusal::{CapKind, Refusal};
use std::fmt;

/// Whose runtime cap a query has exceeded.
#[derive(Clone, Copy, Debug, PartialEq, Eq)]
pub enum CapOwner {
    User,
    Session,
    Pool,
}

/// How a query ended in the queue: at its deadline, too large (whose cap, its floor and the cap), or cancelled.
#[derive(Clone, Copy, Debug, PartialEq, Eq)]
pub enum End {
    TimedOut(u64),
    TooLarge(CapKind, u64, u64),
    Cancelled,
}

/// What the pool machine replies to an event. Grants are in bytes, running times and caps in milliseconds; a place in
/// the queue is counted from 1.
#[derive(Clone, Copy, Debug, PartialEq, Eq)]
pub enum Reply {
    Defined,
    Opened(u32),
    Set,
    Admitted {
        query: u64,
        pool: Name,
        grant: u64,
        own: u64,
        borrowed: u64,
    },
    Waiting {
        query: u64,
        place: u64,
    },
    Ended(End),
    Go,
    MovedOn(Name),
    GiveWay(Name),
    CapEnded {
        which: CapOwner,
        ran: u64,
        cap: u64,
    },
    Stopping,
    Released(u64),
    Cancelled,
    Closed,
    Refused(Refusal),
}

impl fmt::Display for CapOwner {
    ghost use Rattle.std.specs.Prelude.{Some};
    ghost use Rattle.rm_base.specs.RefusalText.{cap_owner_text};

    ghost output = { λ owner. Some (cap_owner_text owner) };

    fn fmt<W: fmt::Write>(&self, f: &mut fmt::Formatter<W>) -> fmt::Result {
        f.write_str(match self {
            CapOwner::User => "user",
            CapOwner::Session => "session",
            CapOwner::Pool => "pool",
        })
    }
}
