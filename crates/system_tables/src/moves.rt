//! The last moves of queries from pool to pool.
ghost use Rattle.std.specs.Prelude.{◌≡◌, map, IfOk};
ghost use Rattle.system_tables.specs.Cells.{cell_value};
ghost use Rattle.system_tables.specs.TableRows.{move_shown};

use crate::cells::{Cell, row_of};
use rm_base::entry::MoveSeen;
use rm_base::row::Row;
use std::alloc::{AllocError, Global};

fn move_cells(m: &MoveSeen) -> [Cell; 6]
    ensures { map cell_value result ≡ move_shown m.now }
{
    [
        Cell::Number(m.at.ms()),
        Cell::Number(u64::from(m.session)),
        Cell::Number(m.query),
        Cell::Name(m.source),
        Cell::Name(m.target),
        Cell::Number(m.ran),
    ]
}

/// A row for each move, the earliest first.
pub fn move_rows(alloc: Global, moves: &[MoveSeen]) -> Result<Vec<Row>, AllocError>
    ensures { IfOk result (λ rows. rows.items ≡ map move_shown moves.now) }
{
    let mut rows = Vec::with_capacity(alloc, moves.len())?;
    for m in moves {
        rows.push_reserved(row_of(alloc, &move_cells(m))?);
    }
    Ok(rows)
}
