//! What the definitions say: rows by their names, the total and what is reserved of it.
ghost use Rattle.std.specs.Prelude.{◌≡◌, ◌≤◌, ◌*◌, IsTrue};
ghost use Rattle.std.specs.List.{list_all};
ghost use Rattle.rm_base.specs.declared.limits.TheConstants.{MEMORY_MOST, POOLS_MOST};
ghost use Rattle.rm_base.specs.Ranges.{is_pool_in_range};
ghost use Rattle.rm_rules.specs.Definitions.{pool_called, user_called, role_called, pool_row, usable, total, reserved, memory_cap};
ghost use Rattle.rm_rules.specs.Sound.{IsSound};

use rm_base::definitions::{Definitions, default_pool_row};
use rm_base::limits::{PERCENT_MOST, USABLE_PERCENT};
use rm_base::name::Name;
use rm_base::rows::{PoolRow, RoleRow, UserRow};

/// The pool of this name.
pub fn pool_called(pools: &[PoolRow], name: Name) -> Option<PoolRow>
    ensures { result ≡ pool_called pools.now name }
{
    pools.iter().copied().find(|r| r.name.same(name))
}

/// The user of this name.
pub fn user_called(users: &[UserRow], name: Name) -> Option<UserRow>
    ensures { result ≡ user_called users.now name }
{
    users.iter().copied().find(|r| r.name.same(name))
}

/// The role of this name.
pub fn role_called(roles: &[RoleRow], name: Name) -> Option<RoleRow>
    ensures { result ≡ role_called roles.now name }
{
    roles.iter().copied().find(|r| r.name.same(name))
}

/// The pool's row; a pool that is not there is read as one with all defaults.
#[tactic(auto, using(crate::proofs::PoolLaws::pool_row_in_range))]
pub fn pool_row(definitions: &Definitions, name: Name) -> PoolRow
    ensures value { result ≡ pool_row definitions.now name }
    ensures in_range { IsSound definitions.now → IsTrue (is_pool_in_range result) }
{
    pool_called(definitions.pools.rows(), name).unwrap_or(default_pool_row(name))
}

/// The user's MEMORYCAP, in bytes.
pub fn memory_cap(definitions: &Definitions, user: Name) -> Option<u64>
    ensures { result ≡ memory_cap definitions.now user }
{
    user_called(definitions.users.rows(), user).and_then(|row| row.memory_cap)
}

/// What of so many bytes may be used before others wait.
pub fn usable(bytes: u64) -> u64
    requires { bytes ≤ MEMORY_MOST }
    ensures value { result ≡ usable bytes }
    ensures most { result ≤ bytes }
{
    USABLE_PERCENT * bytes / PERCENT_MOST
}

/// What all queries can hold, in bytes: GENERAL's MAXMEMORYSIZE, or 95 percent of the machine's memory.
#[tactic(auto, using(crate::proofs::Sizes::total_most))]
pub fn total(definitions: &Definitions) -> u64
    requires memory { definitions.now.memory ≤ MEMORY_MOST }
    requires pools { IsTrue (list_all is_pool_in_range definitions.now.pools) }
    ensures value { result ≡ total definitions.now }
    ensures most { result ≤ MEMORY_MOST }
{
    pool_row(definitions, Name::general())
        .max
        .unwrap_or(usable(definitions.memory))
}

/// What all pools reserve, in bytes.
pub fn reserved(definitions: &Definitions) -> u64
    requires { IsTrue (list_all is_pool_in_range definitions.now.pools) }
    ensures value { result ≡ reserved definitions.now }
    ensures most { result ≤ POOLS_MOST * MEMORY_MOST }
{
    definitions.pools.rows().iter().map(|r| r.memory).sum()
}
