//! What each pool was given by its statements.
ghost use Rattle.std.specs.Prelude.{◌≡◌, map, IfOk};
ghost use Rattle.rm_rules.specs.Definitions.{pool_row};
ghost use Rattle.rm_rules.specs.Sound.{IsSound};
ghost use Rattle.system_tables.specs.Cells.{cell_value};
ghost use Rattle.system_tables.specs.Seen.{IsSeen};
ghost use Rattle.system_tables.specs.TableRows.{pool_shown};

use crate::cells::{Cell, row_of};
use crate::shares::row_planned;
use rm_base::definitions::Definitions;
use rm_base::limits::SECOND_MS;
use rm_base::row::Row;
use rm_base::rows::PoolRow;
use rm_base::snapshot::Snapshot;
use std::alloc::{AllocError, Global};

/// A count that may be unset.
fn count(n: Option<u32>) -> Cell
    ensures { result ≡ Cell.NumberIfSet n }
{
    Cell::NumberIfSet(n.map(u64::from))
}

fn pool_cells(definitions: &Definitions, r: &PoolRow) -> [Cell; 13]
    requires sound { IsSound definitions.now }
    requires named { pool_row definitions.now r.now.name ≡ r.now }
    ensures { map cell_value result ≡ pool_shown definitions.now r.now }
{
    [
        Cell::Name(r.name),
        Cell::Number(r.memory),
        Cell::NumberIfSet(r.max),
        Cell::NumberIfSet(r.query_max),
        count(r.parallel),
        Cell::Priority(r.priority),
        Cell::Level(r.runtime_priority),
        Cell::Number(u64::from(r.threshold_s) * SECOND_MS),
        Cell::NumberIfSet(r.queue_ms),
        Cell::Number(u64::from(row_planned(definitions, r))),
        count(r.concurrency),
        Cell::NumberIfSet(r.cap_ms),
        Cell::NameIfSet(r.cascade),
    ]
}

/// A row for each pool.
pub fn pool_rows(alloc: Global, snapshot: &Snapshot) -> Result<Vec<Row>, AllocError>
    requires { IsSeen snapshot.now }
    ensures { IfOk result (λ rows. rows.items ≡ map (pool_shown snapshot.now.definitions) snapshot.now.definitions.pools) }
{
    let definitions = &snapshot.definitions;
    let pools = definitions.pools.rows();
    let mut rows = Vec::with_capacity(alloc, pools.len())?;
    for r in pools {
        rows.push_reserved(row_of(alloc, &pool_cells(definitions, r))?);
    }
    Ok(rows)
}
