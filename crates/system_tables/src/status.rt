//! What each pool has and uses.
ghost use Rattle.std.specs.Prelude.{◌≡◌, ◌<◌, ◌++◌, ◌^◌, map, length, IfOk, OnOk};
ghost use Rattle.std.specs.List.{sum, zip};
ghost use Rattle.rm_rules.specs.Accounting.{kept_back};
ghost use Rattle.rm_rules.specs.Definitions.{pool_row, user_pools};
ghost use Rattle.system_tables.specs.Cells.{cell_value};
ghost use Rattle.system_tables.specs.Seen.{IsSeen, holdings_seen};
ghost use Rattle.system_tables.specs.TableRows.{waiting_in, general_bytes, pool_bytes, status_shown, other_shown, status_rows};

use crate::cells::{Cell, row_of};
use crate::seen::{debt, grants_seen, running_in, used};
use crate::shares::{row_budget, row_threshold};
use rm_base::name::Name;
use rm_base::row::Row;
use rm_base::rows::PoolRow;
use rm_base::snapshot::{Snapshot, WaitingSeen};
use rm_rules::readings::{reserved, total};
use rm_rules::state::{Holding, Reserve};
use std::alloc::{AllocError, Global};

/// What a pool reserves and has, the most that it may have, what its queries hold, and what of it they have borrowed.
#[derive(Clone, Copy)]
pub struct PoolBytes {
    pub memory: u64,
    pub actual: u64,
    pub max: Option<u64>,
    pub in_use: u64,
    pub borrowed: u64,
}

/// The sum of these numbers.
fn sum_of(numbers: &[u64]) -> u64
    requires { sum numbers.now < 2 ^ 64 }
    ensures { result ≡ sum numbers.now }
{
    let mut all = 0;
    for n in numbers {
        all += *n;
    }
    all
}

/// What all pools but GENERAL have.
fn kept_back(snapshot: &Snapshot) -> u64
    requires { IsSeen snapshot.now }
    ensures { result ≡ kept_back (holdings_seen snapshot.now).reserves }
{
    sum_of(snapshot.actual.as_slice())
}

/// GENERAL's bytes.
#[tactic(auto, using(crate::proofs::Sizes::kept_within))]
fn general_bytes(snapshot: &Snapshot, grants: &[Holding]) -> PoolBytes
    requires seen { IsSeen snapshot.now }
    requires grants { grants.now ≡ (holdings_seen snapshot.now).grants }
    ensures { result ≡ general_bytes snapshot.now }
{
    let total = total(&snapshot.definitions);
    PoolBytes {
        memory: total - reserved(&snapshot.definitions),
        actual: snapshot.in_force - kept_back(snapshot),
        max: Some(total),
        in_use: used(grants, Name::general()),
        borrowed: 0,
    }
}

/// The bytes of another pool, which has this actual size.
fn pool_bytes(snapshot: &Snapshot, grants: &[Holding], r: &PoolRow, size: u64) -> PoolBytes
    requires seen { IsSeen snapshot.now }
    requires grants { grants.now ≡ (holdings_seen snapshot.now).grants }
    ensures { result ≡ pool_bytes snapshot.now (r.now, size) }
{
    let pool = r.name;
    PoolBytes {
        memory: r.memory,
        actual: size,
        max: r.max,
        in_use: used(grants, pool),
        borrowed: debt(grants, &Reserve { pool, size }),
    }
}

fn waiting_in(waiting: &[WaitingSeen], pool: Name) -> usize
    ensures { result ≡ waiting_in pool waiting.now }
{
    waiting.iter().filter(|w| w.pool.same(pool)).count()
}

fn status_cells(snapshot: &Snapshot, grants: &[Holding], r: &PoolRow, b: PoolBytes) -> [Cell; 10]
    requires seen { IsSeen snapshot.now }
    requires grants { grants.now ≡ (holdings_seen snapshot.now).grants }
    requires named { pool_row snapshot.now.definitions r.now.name ≡ r.now }
    ensures { map cell_value result ≡ status_shown snapshot.now r.now b }
{
    let definitions = &snapshot.definitions;
    [
        Cell::Name(r.name),
        Cell::Number(b.memory),
        Cell::Number(b.actual),
        Cell::NumberIfSet(b.max),
        Cell::Number(b.in_use),
        Cell::Number(b.borrowed),
        Cell::Number(row_threshold(definitions, r)),
        Cell::Number(row_budget(definitions, r)),
        Cell::Number(running_in(grants, r.name) as u64),
        Cell::Number(waiting_in(snapshot.waiting.as_slice(), r.name) as u64),
    ]
}

/// Adds a row for each of these pools, which are all but GENERAL.
fn add_others(
    alloc: Global,
    rows: &mut Vec<Row>,
    snapshot: &Snapshot,
    grants: &[Holding],
    others: &[PoolRow],
) -> Result<(), AllocError>
    requires seen { IsSeen snapshot.now }
    requires grants { grants.now ≡ (holdings_seen snapshot.now).grants }
    requires sized { length snapshot.now.actual ≡ length others.now }
    requires behind { user_pools snapshot.now.definitions.pools ≡ others.now }
    ensures { OnOk result (rows.new.items ≡ rows.old.items ++ map (other_shown snapshot.now) (zip others.now snapshot.now.actual)) }
{
    let sizes = snapshot.actual.as_slice();
    for (i, r) in others.iter().enumerate() {
        let bytes = pool_bytes(snapshot, grants, r, sizes[i]);
        rows.push(row_of(alloc, &status_cells(snapshot, grants, r, bytes))?)?;
    }
    Ok(())
}

/// A row for each pool.
pub fn status_rows(alloc: Global, snapshot: &Snapshot) -> Result<Vec<Row>, AllocError>
    requires { IsSeen snapshot.now }
    ensures { IfOk result (λ rows. rows.items ≡ status_rows snapshot.now snapshot.now.definitions.pools) }
{
    let mut rows = Vec::new(alloc);
    let [general, others @ ..] = snapshot.definitions.pools.rows() else {
        return Ok(rows);
    };
    let grants = grants_seen(alloc, snapshot.running.as_slice())?;
    let bytes = general_bytes(snapshot, &grants);
    let cells = status_cells(snapshot, &grants, general, bytes);
    rows.push(row_of(alloc, &cells)?)?;
    add_others(alloc, &mut rows, snapshot, &grants, others)?;
    Ok(rows)
}
