//! CREATE and ALTER RESOURCE POOL: the row that they leave of their pool, and what they are refused with.
ghost use Rattle.std.specs.Prelude.{◌≡◌, ◌≤◌, length, IsTrue};
ghost use Rattle.rm_base.specs.declared.limits.TheConstants.{MEMORY_MOST, POOLS_MOST};
ghost use Rattle.rm_base.specs.Ranges.{is_pool_change_in_range, is_pool_in_range};
ghost use Rattle.rm_rules.specs.Sound.{IsSound};
ghost use Rattle.rm_rules.specs.PoolStatements.{max_whole, changed_pool, created_pool, altered_pool, with_pool, total_out_of_range, general_reserves, max_below_memory, general_too_small, target_missing, cascade_loop, chain_too_long, pools_full, outcome_refusal, create_pool_refusal, alter_pool_refusal};

use crate::after::{called_after, reserved_after, total_after};
use crate::chains::{is_on_chain, longest_through};
use crate::refusals::{
    changes_full, first_refusal, pool_missing, pool_taken, refused_if, table_full,
};
use crate::sizes::{limit_or, size_or};
use crate::tables::put;
use rm_base::definitions::{Definitions, default_pool_row};
use rm_base::limits::{CHAIN_MOST, GENERAL_PART, POOLS_MOST, TOTAL_LEAST};
use rm_base::name::Name;
use rm_base::refusal::{Parameter, Refusal, TableKind};
use rm_base::rows::PoolRow;
use rm_base::statement::PoolChange;
use rm_rules::readings::{pool_row, total};

/// What a percentage of the pool's MAXMEMORYSIZE is taken of.
fn max_whole(definitions: &Definitions, name: Name) -> u64
    requires { IsSound definitions.now }
    ensures value { result ≡ max_whole definitions.now name }
    ensures most { result ≤ MEMORY_MOST }
{
    let total = total(definitions);
    if name.same(Name::general()) {
        definitions.memory
    } else {
        total
    }
}

fn changed_pool(definitions: &Definitions, row: &PoolRow, change: &PoolChange) -> PoolRow
    requires { IsSound definitions.now }
    ensures { result ≡ changed_pool definitions.now row.now change.now }
{
    let total = total(definitions);
    let max_whole = max_whole(definitions, row.name);
    PoolRow {
        name: row.name,
        memory: size_or(total, change.memory, row.memory),
        max: limit_or(max_whole, change.max, row.max),
        query_max: limit_or(total, change.query_max, row.query_max),
        parallel: change.parallel.unwrap_or(row.parallel),
        priority: change.priority.unwrap_or(row.priority),
        runtime_priority: change.runtime_priority.unwrap_or(row.runtime_priority),
        threshold_s: change.threshold_s.unwrap_or(row.threshold_s),
        queue_ms: change.queue_ms.unwrap_or(row.queue_ms),
        planned: change.planned.unwrap_or(row.planned),
        concurrency: change.concurrency.unwrap_or(row.concurrency),
        cap_ms: change.cap_ms.unwrap_or(row.cap_ms),
        cascade: change.cascade.unwrap_or(row.cascade),
    }
}

/// The row of a created pool.
pub fn created_pool(definitions: &Definitions, name: Name, change: &PoolChange) -> PoolRow
    requires sound { IsSound definitions.now }
    requires formed { IsTrue (is_pool_change_in_range change.now) }
    ensures value { result ≡ created_pool definitions.now name change.now }
    ensures in_range { IsTrue (is_pool_in_range result) }
{
    changed_pool(definitions, &default_pool_row(name), change)
}

/// The row of an altered pool.
pub fn altered_pool(definitions: &Definitions, name: Name, change: &PoolChange) -> PoolRow
    requires sound { IsSound definitions.now }
    requires formed { IsTrue (is_pool_change_in_range change.now) }
    ensures value { result ≡ altered_pool definitions.now name change.now }
    ensures in_range { IsTrue (is_pool_in_range result) }
{
    changed_pool(definitions, &pool_row(definitions, name), change)
}

pub fn create_pool(definitions: &mut Definitions, name: Name, change: &PoolChange)
    requires sound { IsSound definitions.old }
    requires formed { IsTrue (is_pool_change_in_range change.now) }
    requires room { length (with_pool definitions.old (created_pool definitions.old name change.now)).pools ≤ POOLS_MOST }
    ensures { definitions.new ≡ with_pool definitions.old (created_pool definitions.old name change.now) }
{
    let row = created_pool(definitions, name, change);
    put(&mut definitions.pools, row);
}

pub fn alter_pool(definitions: &mut Definitions, name: Name, change: &PoolChange)
    requires sound { IsSound definitions.old }
    requires formed { IsTrue (is_pool_change_in_range change.now) }
    requires room { length (with_pool definitions.old (altered_pool definitions.old name change.now)).pools ≤ POOLS_MOST }
    ensures { definitions.new ≡ with_pool definitions.old (altered_pool definitions.old name change.now) }
{
    let row = altered_pool(definitions, name, change);
    put(&mut definitions.pools, row);
}

fn total_out_of_range(
    definitions: &Definitions,
    name: Name,
    change: &PoolChange,
    row: &PoolRow,
) -> Option<Refusal>
    requires sound { IsSound definitions.now }
    requires in_range { IsTrue (is_pool_in_range row.now) }
    ensures { result ≡ total_out_of_range (with_pool definitions.now row.now) name change.now }
{
    let total = total_after(definitions, row);
    let in_range = TOTAL_LEAST <= total && total <= definitions.memory;
    refused_if(
        name.same(Name::general()) && change.max.is_some() && !in_range,
        Refusal::Range(Parameter::MaxMemorySize),
    )
}

fn general_reserves(name: Name, change: &PoolChange) -> Option<Refusal>
    ensures { result ≡ general_reserves name change.now }
{
    refused_if(
        name.same(Name::general()) && change.memory.is_some(),
        Refusal::BuiltIn,
    )
}

fn max_below_memory(max: Option<u64>, memory: u64) -> Option<Refusal>
    ensures { result ≡ max_below_memory max memory }
{
    match max {
        None => None,
        Some(most) => refused_if(most < memory, Refusal::MaxBelowMemory(most, memory)),
    }
}

fn general_too_small(definitions: &Definitions, row: &PoolRow) -> Option<Refusal>
    requires sound { IsSound definitions.now }
    requires in_range { IsTrue (is_pool_in_range row.now) }
    ensures { result ≡ general_too_small (with_pool definitions.now row.now) }
{
    let total = total_after(definitions, row);
    let left = total.saturating_sub(reserved_after(definitions, row));
    refused_if(
        GENERAL_PART * left < total,
        Refusal::GeneralTooSmall(left, total.div_ceil(GENERAL_PART)),
    )
}

fn target_missing(definitions: &Definitions, row: &PoolRow) -> Option<Refusal>
    ensures { result ≡ target_missing (with_pool definitions.now row.now) row.now.cascade }
{
    match row.cascade {
        None => None,
        Some(target) => {
            let found = called_after(definitions.pools.rows(), row, target);
            refused_if(found.is_none(), Refusal::NoSuchTarget(target))
        }
    }
}

fn cascade_loop(definitions: &Definitions, row: &PoolRow) -> Option<Refusal>
    ensures { result ≡ cascade_loop (with_pool definitions.now row.now).pools row.now }
{
    let returns = is_on_chain(definitions.pools.rows(), row, row.cascade, POOLS_MOST);
    refused_if(returns, Refusal::CascadeLoop(row.name))
}

fn chain_too_long(definitions: &Definitions, row: &PoolRow) -> Option<Refusal>
    requires { IsSound definitions.now }
    ensures { result ≡ chain_too_long (with_pool definitions.now row.now).pools row.now.name }
{
    let longest = longest_through(definitions, row) as u32;
    refused_if(CHAIN_MOST < longest, Refusal::ChainTooLong(longest))
}

fn pools_full(definitions: &Definitions) -> Option<Refusal>
    ensures { result ≡ pools_full definitions.now }
{
    let count = definitions.pools.len() as u32;
    table_full(TableKind::Pools, POOLS_MOST as u32, count)
}

fn outcome_refusal(definitions: &Definitions, row: &PoolRow) -> Option<Refusal>
    requires sound { IsSound definitions.now }
    requires in_range { IsTrue (is_pool_in_range row.now) }
    ensures { result ≡ outcome_refusal (with_pool definitions.now row.now) row.now }
{
    first_refusal(&[
        max_below_memory(row.max, row.memory),
        general_too_small(definitions, row),
        target_missing(definitions, row),
        cascade_loop(definitions, row),
        chain_too_long(definitions, row),
    ])
}

/// Why a pool with this row is not created.
pub fn create_pool_refusal(definitions: &Definitions, name: Name, row: &PoolRow) -> Option<Refusal>
    requires sound { IsSound definitions.now }
    requires in_range { IsTrue (is_pool_in_range row.now) }
    ensures { result ≡ create_pool_refusal definitions.now name row.now }
{
    first_refusal(&[
        pool_taken(definitions, name),
        outcome_refusal(definitions, row),
        pools_full(definitions),
        changes_full(definitions),
    ])
}

/// Why a pool is not altered to this row.
pub fn alter_pool_refusal(
    definitions: &Definitions,
    name: Name,
    change: &PoolChange,
    row: &PoolRow,
) -> Option<Refusal>
    requires sound { IsSound definitions.now }
    requires in_range { IsTrue (is_pool_in_range row.now) }
    ensures { result ≡ alter_pool_refusal definitions.now name change.now row.now }
{
    first_refusal(&[
        total_out_of_range(definitions, name, change, row),
        pool_missing(definitions, name),
        general_reserves(name, change),
        outcome_refusal(definitions, row),
        changes_full(definitions),
    ])
}
