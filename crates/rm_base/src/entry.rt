use crate::event::Event;
use crate::moment::Moment;
use crate::name::Name;
use crate::reply::Reply;

/// A journal entry: an event that changed the machine, who made it, when, and what was replied.
#[derive(Clone, Copy, Debug, PartialEq, Eq)]
pub struct Entry {
    pub seat: u32,
    pub at: Moment,
    pub event: Event,
    pub reply: Reply,
}

/// What an event was answered: the reply, the journal's length after it, and whether it made an entry.
#[derive(Clone, Copy, Debug, PartialEq, Eq)]
pub struct Answered {
    pub reply: Reply,
    pub place: u64,
    pub entry: bool,
}

/// What a query holds of its pool's own bytes, and what it has borrowed from GENERAL.
#[derive(Clone, Copy, Debug, PartialEq, Eq)]
pub struct Account {
    pub pool: Name,
    pub own: u64,
    pub borrowed: u64,
}

/// How many queries of a pool ended in its queue, by how they ended.
#[derive(Clone, Copy, Debug, PartialEq, Eq)]
pub struct EndCounts {
    pub timedout: u64,
    pub toolarge: u64,
    pub cancelled: u64,
}

/// A query's move from one pool to another, and how long it had run, in milliseconds.
#[derive(Clone, Copy, Debug, PartialEq, Eq)]
pub struct MoveSeen {
    pub at: Moment,
    pub session: u32,
    pub query: u64,
    pub source: Name,
    pub target: Name,
    pub ran: u64,
}
