//! The pools as a statement would leave them: with one row in its place, read off without that list being built.
ghost use Rattle.std.specs.Prelude.{◌≡◌, ◌+◌, ◌*◌, ◌≤◌, IsTrue};
ghost use Rattle.rm_base.specs.declared.limits.TheConstants.{MEMORY_MOST, POOLS_MOST};
ghost use Rattle.rm_rules.specs.Definitions.{pool_called, total, reserved};
ghost use Rattle.rm_rules.specs.Sound.{IsSound};
ghost use Rattle.rm_base.specs.Ranges.{is_pool_in_range};
ghost use Rattle.rm_rules.specs.PoolStatements.{pools_with, with_pool};

use rm_base::definitions::Definitions;
use rm_base::name::Name;
use rm_base::rows::PoolRow;
use rm_rules::readings::{pool_called, pool_row, reserved, total, usable};

pub fn called_after(rows: &[PoolRow], row: &PoolRow, name: Name) -> Option<PoolRow>
    ensures { result ≡ pool_called (pools_with row.now rows.now) name }
{
    if row.name.same(name) {
        return Some(*row);
    }
    pool_called(rows, name)
}

/// The total, in bytes.
#[tactic(auto, using(rm_rules::proofs::Sizes::sound_memory_most))]
pub fn total_after(definitions: &Definitions, row: &PoolRow) -> u64
    requires sound { IsSound definitions.now }
    requires in_range { IsTrue (is_pool_in_range row.now) }
    ensures value { result ≡ total (with_pool definitions.now row.now) }
    ensures most { result ≤ MEMORY_MOST }
{
    if row.name.same(Name::general()) {
        return row.max.unwrap_or(usable(definitions.memory));
    }
    total(definitions)
}

/// What the pools reserve, in bytes.
pub fn reserved_after(definitions: &Definitions, row: &PoolRow) -> u64
    requires sound { IsSound definitions.now }
    requires in_range { IsTrue (is_pool_in_range row.now) }
    ensures value { result ≡ reserved (with_pool definitions.now row.now) }
    ensures most { result ≤ (POOLS_MOST + 1) * MEMORY_MOST }
{
    reserved(definitions) - pool_row(definitions, row.name).memory + row.memory
}
