//! The open sessions.
ghost use Rattle.std.specs.Prelude.{◌≡◌, map, IfOk};
ghost use Rattle.system_tables.specs.Cells.{cell_value};
ghost use Rattle.system_tables.specs.TableRows.{session_shown};

use crate::cells::{Cell, row_of};
use rm_base::row::Row;
use rm_base::snapshot::SessionSeen;
use std::alloc::{AllocError, Global};

fn session_cells(x: &SessionSeen) -> [Cell; 5]
    ensures { map cell_value result ≡ session_shown x.now }
{
    [
        Cell::Number(u64::from(x.session)),
        Cell::Name(x.user),
        Cell::Name(x.pool),
        Cell::NumberIfSet(x.cap_ms),
        Cell::Condition(x.condition),
    ]
}

/// A row for each session.
pub fn session_rows(alloc: Global, sessions: &[SessionSeen]) -> Result<Vec<Row>, AllocError>
    ensures { IfOk result (λ rows. rows.items ≡ map session_shown sessions.now) }
{
    let mut rows = Vec::with_capacity(alloc, sessions.len())?;
    for x in sessions {
        rows.push_reserved(row_of(alloc, &session_cells(x))?);
    }
    Ok(rows)
}
