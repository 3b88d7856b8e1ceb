use rm_base::moment::Moment;
use rm_base::name::Name;
use rm_base::refusal::CapKind;
use rm_base::reply::End;

/// What a session's query is doing. An end is kept until it is collected.
#[derive(Clone, Copy, Debug, PartialEq, Eq)]
pub enum Phase {
    Idle,
    Waiting,
    Running,
    Ended(End),
}

/// An open session: its number, the seat that opened it, its user, the pool that it chose, its own runtime cap in
/// milliseconds, and what its query is doing.
#[derive(Clone, Copy, Debug, PartialEq, Eq)]
pub struct Session {
    pub number: u32,
    pub seat: u32,
    pub user: Name,
    pub pool: Option<Name>,
    pub cap_ms: Option<u64>,
    pub phase: Phase,
}

/// A waiting query: its number, its session and that session's user, the pool in which it waits, its floor in bytes,
/// the moment at which it was queued, how long it had run before, in milliseconds, and how often it was moved.
#[derive(Clone, Copy, Debug, PartialEq, Eq)]
pub struct Waiter {
    pub query: u64,
    pub session: u32,
    pub user: Name,
    pub pool: Name,
    pub floor: u64,
    pub queued: Moment,
    pub ran: u64,
    pub moves: u32,
}

/// A running query: what it was as a waiter, its grant in bytes, the moment of its start, the pool to which it is to
/// give way, and whether it was cancelled.
#[derive(Clone, Copy, Debug, PartialEq, Eq)]
pub struct Runner {
    pub query: u64,
    pub session: u32,
    pub user: Name,
    pub pool: Name,
    pub floor: u64,
    pub grant: u64,
    pub start: Moment,
    pub ran: u64,
    pub moves: u32,
    pub leaving: Option<Name>,
    pub cancelled: bool,
}

/// What a running query holds, in bytes, and the pool in which it runs.
#[derive(Clone, Copy, Debug, PartialEq, Eq)]
pub struct Holding {
    pub query: u64,
    pub pool: Name,
    pub bytes: u64,
}

/// A pool but GENERAL, with its actual size in bytes: so much of the memory in force is set aside for it.
#[derive(Clone, Copy, Debug, PartialEq, Eq)]
pub struct Reserve {
    pub pool: Name,
    pub size: u64,
}

/// A cap on a query's memory, in bytes, and whose it is.
#[derive(Clone, Copy, Debug, PartialEq, Eq)]
pub struct Cap {
    pub kind: CapKind,
    pub bytes: u64,
}

/// How a query fits: whether its pool lets it in, what it would need of GENERAL's bytes, and whether it fits in all.
#[derive(Clone, Copy, Debug, PartialEq, Eq)]
pub struct Judged {
    pub poolfit: bool,
    pub need: u64,
    pub fits: bool,
}
