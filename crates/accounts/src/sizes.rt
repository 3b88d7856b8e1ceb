//! The reserves of the pools, and the shuffle of their sizes.
ghost use Rattle.std.specs.Prelude.{◌≡◌, ◌<◌, ◌≤◌, ◌+◌, ◌-◌, ◌^◌, true, length, map, IfOk};
ghost use Rattle.std.specs.List.{list_all};
ghost use Rattle.rm_base.specs.declared.limits.TheConstants.{POOLS_MOST};
ghost use Rattle.rm_rules.specs.Definitions.{user_pools};
ghost use Rattle.rm_rules.specs.Sound.{IsSound};
ghost use Rattle.rm_rules.specs.Holdings.{reserves_of, reserve_names};
ghost use Rattle.rm_rules.specs.Accounting.{debt};
ghost use Rattle.rm_rules.specs.Shuffle.{grown_reserves};
ghost use Rattle.accounts.specs.Accounts.{names_in};
ghost use Rattle.accounts.specs.Sizes.{held, is_settled, fallen_to, growth_to, fallen_reserves};

use crate::bytes::{debt, own};
use rm_base::bounded::Bounded;
use rm_base::definitions::Definitions;
use rm_base::limits::POOLS_MOST;
use rm_base::rows::PoolRow;
use rm_rules::state::{Holding, Reserve};
use std::alloc::{AllocError, Global};

/// All pools but GENERAL.
fn user_pools(pools: &[PoolRow]) -> &[PoolRow]
    ensures rows { result.now ≡ user_pools pools.now }
    ensures few { length result.now ≤ length pools.now }
{
    match pools {
        [] => pools,
        [_, rest @ ..] => rest,
    }
}

/// Each pool but GENERAL, at its MEMORYSIZE.
pub fn first_reserves(
    alloc: Global,
    pools: &[PoolRow],
) -> Result<Bounded<Reserve, POOLS_MOST>, AllocError>
    requires { length pools.now ≤ POOLS_MOST }
    ensures { IfOk result (λ reserves. reserves ≡ reserves_of (user_pools pools.now) (map (λ r. r.memory) (user_pools pools.now))) }
{
    let mut reserves = Bounded::new(alloc)?;
    for row in user_pools(pools) {
        reserves.add(Reserve {
            pool: row.name,
            size: row.memory,
        });
    }
    Ok(reserves)
}

/// Whether each pool has its MEMORYSIZE.
pub fn are_settled(definitions: &Definitions, reserves: &[Reserve]) -> bool
    requires sound { IsSound definitions.now }
    requires same_pools { names_in definitions.now ≡ reserve_names reserves.now }
    ensures { result ≡ true → list_all (is_settled definitions.now) reserves.now ≡ true }
{
    for (i, row) in user_pools(definitions.pools.rows()).iter().enumerate() {
        if reserves[i].size != row.memory {
            return false;
        }
    }
    true
}

/// What a pool above its MEMORYSIZE falls to: to it, or to the own bytes that it uses where these are more.
fn fallen_to(memory: u64, grants: &[Holding], e: &Reserve) -> u64
    requires { held grants.now < 2 ^ 64 }
    ensures { result ≡ fallen_to memory grants.now e.now }
{
    if memory < e.size {
        memory.max(own(grants, e))
    } else {
        e.size
    }
}

/// Pools above their MEMORYSIZE fall.
pub fn fall(
    definitions: &Definitions,
    grants: &[Holding],
    reserves: &mut Bounded<Reserve, POOLS_MOST>,
)
    requires sound { IsSound definitions.now }
    requires same_pools { names_in definitions.now ≡ reserve_names reserves.old }
    requires granted { held grants.now < 2 ^ 64 }
    ensures { reserves.new ≡ fallen_reserves definitions.now grants.now reserves.old }
{
    for (i, row) in user_pools(definitions.pools.rows()).iter().enumerate() {
        let e = reserves.rows()[i];
        let size = fallen_to(row.memory, grants, &e);
        reserves.set(i, Reserve { pool: e.pool, size });
    }
}

/// By how much a pool below its MEMORYSIZE grows: within what it has borrowed and what is free.
fn growth_to(memory: u64, grants: &[Holding], e: &Reserve, spare: u64) -> u64
    requires granted { held grants.now < 2 ^ 63 }
    requires spare { spare < 2 ^ 63 }
    ensures value { result ≡ growth_to memory grants.now spare e.now }
    ensures fits { e.now.size + result < 2 ^ 64 }
{
    let wanted = memory.saturating_sub(e.size);
    wanted.min(debt(grants, e) + spare)
}

/// What is still free after a pool grew by so much: it paid back its debt first.
fn spare_after(grants: &[Holding], e: &Reserve, more: u64, spare: u64) -> u64
    requires granted { held grants.now < 2 ^ 63 }
    ensures { result ≡ spare - (more - debt grants.now e.now) }
{
    spare.saturating_sub(more.saturating_sub(debt(grants, e)))
}

/// Pools below their MEMORYSIZE grow, one after the other, while so much is free.
pub fn grow(
    definitions: &Definitions,
    grants: &[Holding],
    reserves: &mut Bounded<Reserve, POOLS_MOST>,
    free: u64,
)
    requires sound { IsSound definitions.now }
    requires same_pools { names_in definitions.now ≡ reserve_names reserves.old }
    requires granted { held grants.now < 2 ^ 63 }
    requires free { free < 2 ^ 63 }
    ensures { reserves.new ≡ grown_reserves definitions.now grants.now free reserves.old }
{
    let mut spare = free;
    for (i, row) in user_pools(definitions.pools.rows()).iter().enumerate() {
        let e = reserves.rows()[i];
        let more = growth_to(row.memory, grants, &e, spare);
        spare = spare_after(grants, &e, more, spare);
        reserves.set(
            i,
            Reserve {
                pool: e.pool,
                size: e.size + more,
            },
        );
    }
}
