//! What a pool's queries get by the definitions alone: thresholds, budgets, caps and asks, in bytes. It takes no memory.
#![tactic(auto)]

ghost use Rattle.std.specs.Prelude.{◌≡◌, ◌≤◌, ◌*◌, ◌↔◌, IsTrue, IsErr, IfOk, IfErr};
ghost use Rattle.rm_base.specs.declared.limits.TheConstants.{MEMORY_MOST};
ghost use Rattle.rm_base.specs.Ranges.{is_pool_in_range};
ghost use Rattle.rm_rules.specs.Definitions.{pool_row, planned};
ghost use Rattle.rm_rules.specs.Budget.{threshold, budget};
ghost use Rattle.rm_rules.specs.Ask.{cap, least_cap, ask, is_too_large, too_large};
ghost use Rattle.rm_rules.specs.Sound.{IsSound};

mod caps;
mod shares;

pub use crate::caps::{row_cap, row_least_cap};
pub use crate::shares::row_threshold;
use crate::shares::{row_budget, row_planned};
use rm_base::definitions::Definitions;
use rm_base::name::Name;
use rm_base::refusal::Refusal;
use rm_base::rows::PoolRow;
use rm_rules::readings::pool_row;
use rm_rules::state::Cap;

/// PLANNEDCONCURRENCY in force: so many queries share what the pool has.
pub fn planned(definitions: &Definitions, pool: Name) -> u32
    requires { IsSound definitions.now }
    ensures value { result ≡ planned definitions.now (pool_row definitions.now pool) }
    ensures least { 1 ≤ result }
{
    row_planned(definitions, &pool_row(definitions, pool))
}

/// The queueing threshold: while the pool's queries hold more, the others wait.
pub fn threshold(definitions: &Definitions, pool: Name) -> u64
    requires { IsSound definitions.now }
    ensures value { result ≡ threshold definitions.now (pool_row definitions.now pool) }
    ensures most { result ≤ MEMORY_MOST }
{
    row_threshold(definitions, &pool_row(definitions, pool))
}

/// The query budget: what a query asks for, where its floor and the caps leave it that.
pub fn budget(definitions: &Definitions, pool: Name) -> u64
    requires { IsSound definitions.now }
    ensures value { result ≡ budget definitions.now (pool_row definitions.now pool) }
    ensures most { result ≤ MEMORY_MOST }
{
    row_budget(definitions, &pool_row(definitions, pool))
}

/// What the pool's queries can hold in all.
pub fn cap(definitions: &Definitions, pool: Name) -> u64
    requires { IsSound definitions.now }
    ensures value { result ≡ cap definitions.now (pool_row definitions.now pool) }
    ensures most { result ≤ 2 * MEMORY_MOST }
{
    row_cap(definitions, &pool_row(definitions, pool))
}

/// The least cap on what a query of this user can hold in the pool, and whose it is.
pub fn least_cap(definitions: &Definitions, pool: Name, user: Name) -> Cap
    requires { IsSound definitions.now }
    ensures value { result ≡ least_cap definitions.now (pool_row definitions.now pool) user }
    ensures most { result.bytes ≤ 2 * MEMORY_MOST }
{
    row_least_cap(definitions, &pool_row(definitions, pool), user)
}

/// What a query of this user with this floor asks for in the pool of this row: where its floor is above the least cap, that
/// cap.
pub fn row_asked(definitions: &Definitions, row: &PoolRow, user: Name, floor: u64) -> u64
    requires sound { IsSound definitions.now }
    requires in_range { IsTrue (is_pool_in_range row.now) }
    ensures value { result ≡ ask definitions.now row.now user floor }
    ensures most { result ≤ 2 * MEMORY_MOST }
{
    let wanted = row_budget(definitions, row).max(floor);
    wanted.min(row_least_cap(definitions, row, user).bytes)
}

/// What a query of this user with this floor asks for in the pool: where its floor is above the least cap, that cap.
pub fn asked(definitions: &Definitions, pool: Name, user: Name, floor: u64) -> u64
    requires { IsSound definitions.now }
    ensures value { result ≡ ask definitions.now (pool_row definitions.now pool) user floor }
    ensures most { result ≤ 2 * MEMORY_MOST }
{
    row_asked(definitions, &pool_row(definitions, pool), user, floor)
}

/// What a query of this user with this floor asks for in the pool. A floor above the least cap is refused.
pub fn ask(definitions: &Definitions, pool: Name, user: Name, floor: u64) -> Result<u64, Refusal>
    requires { IsSound definitions.now }
    ensures ok { IfOk result (λ bytes.
        bytes ≡ ask definitions.now (pool_row definitions.now pool) user floor) }
    ensures most { IfOk result (λ bytes. bytes ≤ 2 * MEMORY_MOST) }
    ensures least { (least_cap definitions.now (pool_row definitions.now pool) user).bytes ≤ 2 * MEMORY_MOST }
    ensures err { IfErr result (λ refusal.
        refusal ≡ too_large definitions.now (pool_row definitions.now pool) user floor) }
    ensures large { IsErr result ↔ IsTrue (is_too_large definitions.now (pool_row definitions.now pool) user floor) }
{
    let least = least_cap(definitions, pool, user);
    if least.bytes < floor {
        return Err(Refusal::TooLarge(least.kind, floor, least.bytes));
    }
    Ok(asked(definitions, pool, user, floor))
}
