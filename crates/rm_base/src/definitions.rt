ghost use Rattle.std.specs.Prelude.{◌≡◌, ◌≤◌, IfOk};
ghost use Rattle.rm_base.specs.declared.limits.TheConstants.{MEMORY_LEAST, MEMORY_MOST, CORES_MOST};
ghost use Rattle.rm_base.specs.Definitions.{fresh, default_pool_row, default_user_row};

use crate::limits::{
    CORES_MOST, MEMORY_LEAST, MEMORY_MOST, QUEUE_MS_DEFAULT, THRESHOLD_SECONDS_DEFAULT,
};
use crate::name::Name;
use crate::rows::{PoolRow, UserRow};
use crate::statement::Level;
use crate::tables::{Grants, Pools, Roles, Users};
use std::alloc::{AllocError, Global};

/// The machine's memory in bytes, its cores, and what was defined on it: the pools with GENERAL first, the users, the
/// roles, the grants, and how many statements were accepted since opening. It has room for all that may be defined.
#[derive(Debug, Drop)]
pub struct Definitions {
    pub memory: u64,
    pub cores: u32,
    pub pools: Pools,
    pub users: Users,
    pub roles: Roles,
    pub grants: Grants,
    pub changes: u32,
}

impl Definitions {
    /// The definitions of a machine on which nothing was defined yet.
    pub fn new(alloc: Global, memory: u64, cores: u32) -> Result<Definitions, AllocError>
        requires memory_least { MEMORY_LEAST ≤ memory }
        requires memory_most { memory ≤ MEMORY_MOST }
        requires cores_least { 1 ≤ cores }
        requires cores_most { cores ≤ CORES_MOST }
        ensures { IfOk result (λ definitions. definitions ≡ fresh memory cores) }
    {
        let mut pools = Pools::new(alloc)?;
        let mut users = Users::new(alloc)?;
        pools.add(default_pool_row(Name::general()));
        users.add(default_user_row(Name::dbadmin()));
        Ok(Definitions {
            memory,
            cores,
            pools,
            users,
            roles: Roles::new(alloc)?,
            grants: Grants::new(alloc)?,
            changes: 0,
        })
    }

    /// The same definitions, with the same room.
    pub fn copy(&self, alloc: Global) -> Result<Definitions, AllocError>
        ensures { IfOk result (λ definitions. definitions ≡ self.now) }
    {
        Ok(Definitions {
            memory: self.memory,
            cores: self.cores,
            pools: self.pools.copy(alloc)?,
            users: self.users.copy(alloc)?,
            roles: self.roles.copy(alloc)?,
            grants: self.grants.copy(alloc)?,
            changes: self.changes,
        })
    }
}

/// A pool with all defaults.
pub fn default_pool_row(name: Name) -> PoolRow
    ensures { result ≡ default_pool_row name }
{
    PoolRow {
        name,
        memory: 0,
        max: None,
        query_max: None,
        parallel: None,
        priority: 0,
        runtime_priority: Level::Medium,
        threshold_s: THRESHOLD_SECONDS_DEFAULT,
        queue_ms: Some(QUEUE_MS_DEFAULT),
        planned: None,
        concurrency: None,
        cap_ms: None,
        cascade: None,
    }
}

/// A user with all defaults.
pub fn default_user_row(name: Name) -> UserRow
    ensures { result ≡ default_user_row name }
{
    UserRow {
        name,
        pool: None,
        memory_cap: None,
        cap_ms: None,
    }
}
