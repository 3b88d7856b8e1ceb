use crate::name::Name;

/// How soon a pool's queries are run. It is kept and shown, and has no effect.
#[derive(Clone, Copy, Debug, PartialEq, Eq)]
pub enum Level {
    Low,
    Medium,
    High,
}

/// A size in a statement: bytes, or a percentage that is turned into bytes when the statement is accepted.
#[derive(Clone, Copy, Debug, PartialEq, Eq)]
pub enum Size {
    Bytes(u64),
    Percent(u8),
}

/// The parameters that a statement names for a pool. An outer `None` is a parameter that is not named, an inner one
/// NONE or AUTO. Caps and timeouts are in milliseconds, the threshold of RUNTIMEPRIORITY in seconds.
#[derive(Clone, Copy, Debug, PartialEq, Eq)]
pub struct PoolChange {
    pub memory: Option<Size>,
    pub max: Option<Option<Size>>,
    pub query_max: Option<Option<Size>>,
    pub parallel: Option<Option<u32>>,
    pub priority: Option<i32>,
    pub runtime_priority: Option<Level>,
    pub threshold_s: Option<u32>,
    pub queue_ms: Option<Option<u64>>,
    pub planned: Option<Option<u32>>,
    pub concurrency: Option<Option<u32>>,
    pub cap_ms: Option<Option<u64>>,
    pub cascade: Option<Option<Name>>,
}

/// The parameters that a statement names for a user, with `None` as in `PoolChange`.
#[derive(Clone, Copy, Debug, PartialEq, Eq)]
pub struct UserChange {
    pub pool: Option<Option<Name>>,
    pub memory_cap: Option<Option<Size>>,
    pub cap_ms: Option<Option<u64>>,
}

/// A statement on pools, users, roles and grants. In the USAGE statements the first name is the pool, in the other
/// grants the role.
#[derive(Clone, Copy, Debug, PartialEq, Eq)]
pub enum Statement {
    CreatePool(Name, PoolChange),
    AlterPool(Name, PoolChange),
    DropPool(Name),
    CreateUser(Name, UserChange),
    AlterUser(Name, UserChange),
    DropUser(Name),
    CreateRole(Name),
    AlterRole(Name, Option<Name>),
    DropRole(Name),
    GrantUsage(Name, Name),
    RevokeUsage(Name, Name),
    GrantRole(Name, Name),
    RevokeRole(Name, Name),
}
