//! The running queries, and what they hold.
ghost use Rattle.std.specs.Prelude.{◌≡◌, ◌<◌, ◌+◌, ◌^◌, map, IfOk};
ghost use Rattle.system_tables.specs.Cells.{cell_value};
ghost use Rattle.system_tables.specs.Seen.{IsSeen};
ghost use Rattle.system_tables.specs.TableRows.{acquisition_shown};

use crate::cells::{Cell, row_of};
use rm_base::row::Row;
use rm_base::snapshot::{RunningSeen, Snapshot};
use std::alloc::{AllocError, Global};

fn acquisition_cells(r: &RunningSeen) -> [Cell; 8]
    requires { r.now.account.own + r.now.account.borrowed < 2 ^ 64 }
    ensures { map cell_value result ≡ acquisition_shown r.now }
{
    [
        Cell::Number(u64::from(r.session)),
        Cell::Number(r.query),
        Cell::Name(r.account.pool),
        Cell::Number(r.account.own + r.account.borrowed),
        Cell::Number(r.account.own),
        Cell::Number(r.account.borrowed),
        Cell::Number(r.start.ms()),
        Cell::Number(u64::from(r.moves)),
    ]
}

/// A row for each running query.
pub fn acquisition_rows(alloc: Global, snapshot: &Snapshot) -> Result<Vec<Row>, AllocError>
    requires { IsSeen snapshot.now }
    ensures { IfOk result (λ rows. rows.items ≡ map acquisition_shown snapshot.now.running) }
{
    let running = snapshot.running.as_slice();
    let mut rows = Vec::with_capacity(alloc, running.len())?;
    for r in running {
        rows.push_reserved(row_of(alloc, &acquisition_cells(r))?);
    }
    Ok(rows)
}
