use crate::definitions::Definitions;
use crate::entry::{Account, EndCounts, MoveSeen};
use crate::listed::Listed;
use crate::moment::Moment;
use crate::name::Name;

/// What a session's query is doing. An end is kept until it is collected.
#[derive(Clone, Copy, Debug, PartialEq, Eq)]
pub enum Condition {
    Idle,
    Waiting,
    Running,
    Ended,
}

/// An open session: its number, its user, the pool in which its next query would wait, and its own runtime cap, in
/// milliseconds.
#[derive(Clone, Copy, Debug, PartialEq, Eq)]
pub struct SessionSeen {
    pub session: u32,
    pub user: Name,
    pub pool: Name,
    pub cap_ms: Option<u64>,
    pub condition: Condition,
}

/// A running query, with what it holds, in bytes, and the moment of its start.
#[derive(Clone, Copy, Debug, PartialEq, Eq)]
pub struct RunningSeen {
    pub query: u64,
    pub session: u32,
    pub account: Account,
    pub start: Moment,
    pub moves: u32,
}

/// A waiting query, with the moment at which it was queued.
#[derive(Clone, Copy, Debug, PartialEq, Eq)]
pub struct WaitingSeen {
    pub query: u64,
    pub session: u32,
    pub pool: Name,
    pub queued: Moment,
}

/// The pool machine at one moment: the definitions, the memory in force and the actual size of each pool but GENERAL,
/// in bytes, the open sessions, the running and the waiting queries in their orders, the ended queries of each pool,
/// and the last moves.
#[derive(Debug, Drop)]
pub struct Snapshot {
    pub definitions: Definitions,
    pub in_force: u64,
    pub actual: Listed<u64>,
    pub sessions: Listed<SessionSeen>,
    pub running: Listed<RunningSeen>,
    pub waiting: Listed<WaitingSeen>,
    pub counters: Listed<EndCounts>,
    pub moves: Listed<MoveSeen>,
}

/// A snapshot, and how long the journal was then.
#[derive(Debug, Drop)]
pub struct Looked {
    pub snapshot: Snapshot,
    pub place: u64,
}
