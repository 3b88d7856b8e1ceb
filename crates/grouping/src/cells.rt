//! What groups give: their rows, or the first sum out of range.

ghost use Rattle.std.specs.Prelude.{◌≡◌, ◌<◌, ◌≤◌, ◌-◌, ◌^◌, length, map, slice_get, Some, IfErr, IfOk, IfSome, IsPermutation, IsSorted, OnOk};
ghost use Rattle.std.specs.Option.{unwrap_or};
ghost use Rattle.rm_base.specs.declared.value.Value.TheVariants.{Null};
ghost use Rattle.rm_base.specs.Values.{rows_measure};
ghost use Rattle.rm_rules.specs.Grouping.{is_int64, key_value};
ghost use Rattle.rm_rules.specs.Ordering.{in_order};
ghost use Rattle.spill_files.specs.declared.error.RunError.TheVariants.{NeedsSpill};
ghost use Rattle.spill_files.specs.Errors.{IsOfMemory};
ghost use Rattle.grouping.specs.Finishing.{bad_at, bad_from, bad_sum, cell, cells, count_cell, group_cmp, total_cell};

use crate::batch::Batch;
use crate::keys::copy;
use crate::tallies::Tallies;
use crate::tally::Tally;
use crate::totals::Sums;
use rm_base::row::Row;
use rm_base::select::{Item, OrderSpec};
use rm_base::value::Value;
use spill_files::error::RunError;
use std::alloc::{AllocError, Global};
use std::cmp::Ordering;
use tuples::tuple::Tuple;

fn is_int64(n: i128) -> bool
    ensures { result ≡ is_int64 n }
{
    n >= i64::MIN as i128 && n <= i64::MAX as i128
}

fn bad_tally(tally: &Tally) -> Option<i128>
    ensures { result ≡ bad_sum (Some tally.now) }
{
    match tally {
        Tally::Key(_) => None,
        Tally::Rows(_) => None,
        Tally::Present(_, _) => None,
        Tally::Total(_, sums) => {
            if is_int64(sums.sum()) {
                None
            } else {
                Some(sums.sum())
            }
        }
        Tally::Least(_, _) => None,
        Tally::Most(_, _) => None,
    }
}

fn bad_group(place: usize, group: &(Row, Tallies)) -> Option<i128>
    ensures { result ≡ bad_sum (slice_get group.now.1 place) }
{
    match group.1.as_slice().get(place) {
        Some(tally) => bad_tally(tally),
        None => None,
    }
}

/// The first sum out of range at a place.
fn bad_at(place: usize, groups: &[(Row, Tallies)]) -> Option<i128>
    ensures { result ≡ bad_at place groups.now }
{
    for group in groups {
        if let Some(sum) = bad_group(place, group) {
            return Some(sum);
        }
    }
    None
}

/// The least column with a sum out of range, counted from 1, and its first such sum.
pub fn first_bad(items: &[Item], groups: &[(Row, Tallies)]) -> Option<(usize, i128)>
    ensures first { result ≡ bad_from 0 items.now groups.now }
    ensures within { IfSome result (λ bad. bad.0 ≤ length items.now) }
{
    for place in 0..items.len() {
        if let Some(sum) = bad_at(place, groups) {
            return Some((place + 1, sum));
        }
    }
    None
}

fn group_cmp(a: &(Row, Tallies), b: &(Row, Tallies)) -> Ordering
    ensures { result ≡ group_cmp a.now b.now }
{
    a.0.cmp(&b.0)
}

/// Puts groups in the order of their keys.
pub fn sort_groups(groups: &mut [(Row, Tallies)])
    ensures permutation { IsPermutation groups.old groups.new }
    ensures sorted { IsSorted group_cmp groups.new }
{
    groups.sort_unstable_by(|a, b| group_cmp(a, b));
}

fn count_cell(n: u64) -> Value
    ensures { result ≡ count_cell n }
{
    match i64::try_from(n) {
        Ok(n) => Value::Int(n),
        Err(_) => Value::Null,
    }
}

fn total_cell(sums: &Sums) -> Value
    ensures { result ≡ total_cell sums.now.count sums.now.sum }
{
    if 0 < sums.count() {
        let sum = sums.sum();
        match i64::try_from(sum) {
            Ok(sum) => Value::Int(sum),
            Err(_) => Value::Null,
        }
    } else {
        Value::Null
    }
}

fn best_cell(alloc: Global, best: &Option<Value>) -> Result<Value, AllocError>
    ensures { IfOk result (λ copy. copy ≡ unwrap_or best.now Null) }
{
    match best {
        Some(value) => value.copy(alloc),
        None => Ok(Value::Null),
    }
}

fn key_value(alloc: Global, keys: &[u32], key: &[Value], c: u32) -> Result<Value, AllocError>
    ensures { IfOk result (λ value. value ≡ key_value keys.now key.now c) }
{
    for place in 0..keys.len() {
        if keys[place] == c {
            return copy(alloc, key.get(place));
        }
    }
    Ok(Value::Null)
}

fn cell(alloc: Global, keys: &[u32], key: &Row, tally: &Tally) -> Result<Value, AllocError>
    ensures { IfOk result (λ value. value ≡ cell keys.now key.now tally.now) }
{
    match tally {
        Tally::Key(c) => key_value(alloc, keys, key.as_slice(), *c),
        Tally::Rows(n) => Ok(count_cell(*n)),
        Tally::Present(_, n) => Ok(count_cell(*n)),
        Tally::Total(_, sums) => Ok(total_cell(sums)),
        Tally::Least(_, best) => best_cell(alloc, best),
        Tally::Most(_, best) => best_cell(alloc, best),
    }
}

fn cell_row(alloc: Global, keys: &[u32], group: &(Row, Tallies)) -> Result<Row, AllocError>
    ensures { IfOk result (λ row. row ≡ map (cell keys.now group.now.0) group.now.1) }
{
    let mut values = Vec::with_capacity(alloc, group.1.as_slice().len())?;
    for tally in group.1.as_slice() {
        values.push(cell(alloc, keys, &group.0, tally)?)?;
    }
    Ok(Row::of(values))
}

/// The rows of groups, which may measure as much as the room.
pub fn cell_rows(
    alloc: Global,
    keys: &[u32],
    groups: &[(Row, Tallies)],
    room: u64,
) -> Result<Vec<Row>, RunError>
    requires { room < 2 ^ 64 - 1 }
    ensures rows { IfOk result (λ rows. rows.items ≡ cells keys.now groups.now) }
    ensures fits { OnOk result (rows_measure (cells keys.now groups.now) ≤ room) }
    ensures spills { IfErr result (λ e. e ≡ NeedsSpill → room < rows_measure (cells keys.now groups.now)) }
    ensures only { IfErr result IsOfMemory }
{
    let mut rows = Vec::with_capacity(alloc, groups.len())?;
    let mut charge = 0;
    for group in groups {
        let row = cell_row(alloc, keys, group)?;
        let bytes = Tuple::one(&row).measure();
        if bytes > room - charge {
            return Err(RunError::NeedsSpill);
        }
        rows.push(row)?;
        charge += bytes;
    }
    Ok(rows)
}

/// The first rows of groups in order. All their rows may measure as much as the room.
pub fn first_cell_rows(
    alloc: Global,
    keys: &[u32],
    order: &OrderSpec,
    groups: &[(Row, Tallies)],
    room: u64,
) -> Result<Vec<Row>, RunError>
    requires { room < 2 ^ 64 - 1 }
    ensures rows { IfOk result (λ rows. rows.items ≡ in_order order.now (cells keys.now groups.now)) }
    ensures fits { OnOk result (rows_measure (cells keys.now groups.now) ≤ room) }
    ensures spills { IfErr result (λ e. e ≡ NeedsSpill → room < rows_measure (cells keys.now groups.now)) }
    ensures only { IfErr result IsOfMemory }
{
    let mut batch = Batch::new(alloc, order, room)?;
    for group in groups {
        batch.add(cell_row(alloc, keys, group)?)?;
    }
    Ok(batch.finish())
}
