use crate::name::Name;
use crate::statement::Level;

/// A pool. GENERAL's memory is 0, and where its max is `None` it is 95 percent of the machine's memory. `None` in
/// `planned` and `parallel` is AUTO, elsewhere NONE. Sizes are in bytes.
#[derive(Clone, Copy, Debug, PartialEq, Eq)]
pub struct PoolRow {
    pub name: Name,
    pub memory: u64,
    pub max: Option<u64>,
    pub query_max: Option<u64>,
    pub parallel: Option<u32>,
    pub priority: i32,
    pub runtime_priority: Level,
    pub threshold_s: u32,
    pub queue_ms: Option<u64>,
    pub planned: Option<u32>,
    pub concurrency: Option<u32>,
    pub cap_ms: Option<u64>,
    pub cascade: Option<Name>,
}

/// A user, with its own pool or none, and its caps, in bytes and milliseconds.
#[derive(Clone, Copy, Debug, PartialEq, Eq)]
pub struct UserRow {
    pub name: Name,
    pub pool: Option<Name>,
    pub memory_cap: Option<u64>,
    pub cap_ms: Option<u64>,
}

/// A role, with its pool or none.
#[derive(Clone, Copy, Debug, PartialEq, Eq)]
pub struct RoleRow {
    pub name: Name,
    pub pool: Option<Name>,
}

/// A grant of what is named first to what is named second.
#[derive(Clone, Copy, Debug, PartialEq, Eq)]
pub enum GrantRow {
    PoolToUser(Name, Name),
    PoolToRole(Name, Name),
    RoleToUser(Name, Name),
}
