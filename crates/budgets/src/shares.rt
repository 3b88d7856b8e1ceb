//! What a pool may reach, and how its queries share it.
ghost use Rattle.std.specs.Prelude.{◌≡◌, ◌≤◌, ◌==◌, IsTrue, unwrap_or, if◌then◌else◌};
ghost use Rattle.rm_base.specs.declared.limits.TheConstants.{MEMORY_MOST};
ghost use Rattle.rm_base.specs.Name.{same_name, general};
ghost use Rattle.rm_base.specs.Ranges.{is_pool_in_range};
ghost use Rattle.rm_rules.specs.Definitions.{total, planned};
ghost use Rattle.rm_rules.specs.Budget.{threshold, budget};
ghost use Rattle.rm_rules.specs.Sound.{IsSound};

use rm_base::definitions::Definitions;
use rm_base::limits::{PLANNED_LEAST, PLANNED_SHARE};
use rm_base::name::Name;
use rm_base::rows::PoolRow;
use rm_rules::readings::{total, usable};

/// PLANNEDCONCURRENCY in force.
#[tactic(auto, using(crate::proofs::Bounds::planned_least, rm_rules::proofs::Sizes::sound_memory_most))]
pub fn row_planned(definitions: &Definitions, row: &PoolRow) -> u32
    requires sound { IsSound definitions.now }
    requires in_range { IsTrue (is_pool_in_range row.now) }
    ensures value { result ≡ planned definitions.now row.now }
    ensures least { 1 ≤ result }
{
    let by_total = (total(definitions) / PLANNED_SHARE) as u32;
    let automatic = PLANNED_LEAST.max(definitions.cores.min(by_total));
    row.planned.unwrap_or(automatic)
}

/// The total for GENERAL, else what the pool's MAXMEMORYSIZE leaves of it.
#[tactic(auto, using(rm_rules::proofs::Sizes::sound_memory_most))]
fn reach(definitions: &Definitions, row: &PoolRow) -> u64
    requires sound { IsSound definitions.now }
    requires in_range { IsTrue (is_pool_in_range row.now) }
    ensures value { let most = total definitions.now in
        result ≡ (if same_name row.now.name general then most else unwrap_or row.now.max most) }
    ensures most { result ≤ MEMORY_MOST }
{
    let total = total(definitions);
    if row.name.same(Name::general()) {
        return total;
    }
    row.max.unwrap_or(total)
}

/// What the pool's queries may hold before others wait.
pub fn row_threshold(definitions: &Definitions, row: &PoolRow) -> u64
    requires sound { IsSound definitions.now }
    requires in_range { IsTrue (is_pool_in_range row.now) }
    ensures value { result ≡ threshold definitions.now row.now }
    ensures most { result ≤ MEMORY_MOST }
{
    usable(reach(definitions, row))
}

/// What the planned queries share.
fn shared(definitions: &Definitions, row: &PoolRow) -> u64
    requires sound { IsSound definitions.now }
    requires in_range { IsTrue (is_pool_in_range row.now) }
    ensures value { result ≡ (if row.now.memory == 0 then threshold definitions.now row.now else row.now.memory) }
    ensures most { result ≤ MEMORY_MOST }
{
    if row.memory == 0 {
        row_threshold(definitions, row)
    } else {
        row.memory
    }
}

/// One planned query's share.
pub fn row_budget(definitions: &Definitions, row: &PoolRow) -> u64
    requires sound { IsSound definitions.now }
    requires in_range { IsTrue (is_pool_in_range row.now) }
    ensures value { result ≡ budget definitions.now row.now }
    ensures most { result ≤ MEMORY_MOST }
{
    shared(definitions, row) / u64::from(row_planned(definitions, row))
}
