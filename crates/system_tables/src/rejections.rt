//! How many queries of each pool ended in its queue.
ghost use Rattle.std.specs.Prelude.{◌≡◌, map, IfOk};
ghost use Rattle.std.specs.List.{zip};
ghost use Rattle.system_tables.specs.Cells.{cell_value};
ghost use Rattle.system_tables.specs.Seen.{IsSeen};
ghost use Rattle.system_tables.specs.TableRows.{rejection_shown};

use crate::cells::{Cell, row_of};
use rm_base::entry::EndCounts;
use rm_base::row::Row;
use rm_base::rows::PoolRow;
use rm_base::snapshot::Snapshot;
use std::alloc::{AllocError, Global};

fn rejection_cells(r: &PoolRow, ended: &EndCounts) -> [Cell; 4]
    ensures { map cell_value result ≡ rejection_shown (r.now, ended.now) }
{
    [
        Cell::Name(r.name),
        Cell::Number(ended.timedout),
        Cell::Number(ended.toolarge),
        Cell::Number(ended.cancelled),
    ]
}

/// A row for each pool.
pub fn rejection_rows(alloc: Global, snapshot: &Snapshot) -> Result<Vec<Row>, AllocError>
    requires { IsSeen snapshot.now }
    ensures { IfOk result (λ rows. rows.items ≡ map rejection_shown (zip snapshot.now.definitions.pools snapshot.now.counters)) }
{
    let pools = snapshot.definitions.pools.rows();
    let counters = snapshot.counters.as_slice();
    let mut rows = Vec::with_capacity(alloc, pools.len())?;
    for (i, r) in pools.iter().enumerate() {
        rows.push_reserved(row_of(alloc, &rejection_cells(r, &counters[i]))?);
    }
    Ok(rows)
}
