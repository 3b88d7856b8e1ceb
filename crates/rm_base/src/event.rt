use crate::name::Name;
use crate::statement::Statement;

/// What may happen to the pool machine. A floor is the least memory that serves a query, in bytes, and a cap the longest
/// running time of a session's queries, in milliseconds, or none. Cancel asks by one session for the end of a query, its own
/// or another's.
#[derive(Clone, Copy, Debug, PartialEq, Eq)]
pub enum Event {
    Define(Statement),
    Open { user: Name },
    SetPool { session: u32, pool: Name },
    SetCap { session: u32, cap: Option<u64> },
    Submit { session: u32, floor: u64 },
    Poll { session: u32 },
    Check { session: u32 },
    GiveWay { session: u32 },
    Finish { session: u32 },
    Cancel { by: u32, target: u32 },
    Close { session: u32 },
}
