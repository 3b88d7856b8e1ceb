//! Chains of CASCADE TO: of the pools as they are, and as a statement would leave them.
ghost use Rattle.std.specs.Prelude.{◌≡◌, ◌+◌, ◌≤◌, length};
ghost use Rattle.std.specs.List.{list_any};
ghost use Rattle.rm_base.specs.declared.limits.TheConstants.{POOLS_MOST};
ghost use Rattle.rm_base.specs.Name.{same_name};
ghost use Rattle.rm_rules.specs.Sound.{IsSound, chain_ends};
ghost use Rattle.pool_table.specs.Longest.{other_length, longest_of_others};
ghost use Rattle.rm_rules.specs.PoolStatements.{pools_with, with_pool, cascade_of, chain, chain_from, length_through, longest_through};

use crate::after::called_after;
use rm_base::definitions::Definitions;
use rm_base::limits::POOLS_MOST;
use rm_base::name::Name;
use rm_base::rows::PoolRow;
use rm_rules::readings::pool_called;

/// Whether a chain ends after at most so many pools, all of which are there.
pub fn chain_ends(rows: &[PoolRow], next: Option<Name>, most: u32) -> bool
    ensures { result ≡ chain_ends rows.now most next }
{
    let Some(name) = next else {
        return true;
    };
    if most == 0 {
        return false;
    }
    match pool_called(rows, name) {
        None => false,
        Some(r) => chain_ends(rows, r.cascade, most - 1),
    }
}

fn cascade_of(rows: &[PoolRow], row: &PoolRow, name: Name) -> Option<Name>
    ensures { result ≡ cascade_of (pools_with row.now rows.now) name }
{
    called_after(rows, row, name).and_then(|r| r.cascade)
}

/// Whether the pool of the row stands on a chain, of which so many pools are read.
pub fn is_on_chain(rows: &[PoolRow], row: &PoolRow, next: Option<Name>, most: usize) -> bool
    ensures { result ≡ list_any (same_name row.now.name) (chain (pools_with row.now rows.now) most next) }
{
    if most == 0 {
        return false;
    }
    match next {
        None => false,
        Some(name) => {
            row.name.same(name) || is_on_chain(rows, row, cascade_of(rows, row, name), most - 1)
        }
    }
}

/// How many pools a chain has, of which so many are read.
fn chain_length(rows: &[PoolRow], row: &PoolRow, next: Option<Name>, most: usize) -> usize
    ensures value { result ≡ length (chain (pools_with row.now rows.now) most next) }
    ensures most { result ≤ most }
{
    if most == 0 {
        return 0;
    }
    match next {
        None => 0,
        Some(name) => 1 + chain_length(rows, row, cascade_of(rows, row, name), most - 1),
    }
}

/// How many pools the chain from this start has, where the pool of the row stands on it.
fn length_through(rows: &[PoolRow], row: &PoolRow, start: &PoolRow) -> usize
    ensures value { result ≡ length_through row.now.name (chain_from (pools_with row.now rows.now) start.now) }
    ensures most { result ≤ POOLS_MOST + 1 }
{
    if row.name.same(start.name) || is_on_chain(rows, row, start.cascade, POOLS_MOST) {
        1 + chain_length(rows, row, start.cascade, POOLS_MOST)
    } else {
        0
    }
}

fn other_length(rows: &[PoolRow], row: &PoolRow, start: &PoolRow) -> usize
    ensures value { result ≡ other_length (pools_with row.now rows.now) row.now.name start.now }
    ensures most { result ≤ POOLS_MOST + 1 }
{
    if row.name.same(start.name) {
        0
    } else {
        length_through(rows, row, start)
    }
}

fn longest_of_others(rows: &[PoolRow], row: &PoolRow, starts: &[PoolRow]) -> usize
    ensures value { result ≡ longest_of_others (pools_with row.now rows.now) row.now.name starts.now }
    ensures most { result ≤ POOLS_MOST + 1 }
{
    match starts {
        [] => 0,
        [first, rest @ ..] => {
            other_length(rows, row, first).max(longest_of_others(rows, row, rest))
        }
    }
}

/// How many pools the longest chain has on which the pool of the row stands.
pub fn longest_through(definitions: &Definitions, row: &PoolRow) -> usize
    requires { IsSound definitions.now }
    ensures value { result ≡ longest_through (with_pool definitions.now row.now).pools row.now.name (with_pool definitions.now row.now).pools }
    ensures most { result ≤ POOLS_MOST + 1 }
{
    let rows = definitions.pools.rows();
    let own = length_through(rows, row, row);
    own.max(longest_of_others(rows, row, rows))
}
