//! The waiting queries.
ghost use Rattle.std.specs.Prelude.{◌≡◌, ◌≤◌, map, option_map, IfOk};
ghost use Rattle.rm_rules.specs.Deadlines.{deadline_of};
ghost use Rattle.rm_rules.specs.Sound.{IsSound};
ghost use Rattle.system_tables.specs.Cells.{cell_value};
ghost use Rattle.system_tables.specs.Seen.{IsSeen, waiter_seen};
ghost use Rattle.system_tables.specs.TableRows.{waiting_shown, queue_rows};

use crate::cells::{Cell, row_of};
use rm_base::definitions::Definitions;
use rm_base::row::Row;
use rm_base::snapshot::{Snapshot, WaitingSeen};
use rm_rules::readings::pool_row;
use std::alloc::{AllocError, Global};

/// When the query is to end, by the timeout of the pool in which it waits now.
fn deadline_of(definitions: &Definitions, w: &WaitingSeen) -> Option<u64>
    requires { IsSound definitions.now }
    ensures { result ≡ deadline_of definitions.now (waiter_seen w.now) }
{
    match pool_row(definitions, w.pool).queue_ms {
        None => None,
        Some(timeout) => Some(w.queued.ms() + timeout),
    }
}

fn waiting_cells(definitions: &Definitions, place: u64, w: &WaitingSeen) -> [Cell; 6]
    requires { IsSound definitions.now }
    ensures { map cell_value result ≡ waiting_shown definitions.now place w.now }
{
    [
        Cell::Number(place),
        Cell::Number(u64::from(w.session)),
        Cell::Number(w.query),
        Cell::Name(w.pool),
        Cell::Number(w.queued.ms()),
        Cell::NumberIfSet(deadline_of(definitions, w)),
    ]
}

/// A row for each waiting query.
pub fn queue_rows(alloc: Global, snapshot: &Snapshot) -> Result<Vec<Row>, AllocError>
    requires { IsSeen snapshot.now }
    ensures { IfOk result (λ rows. rows.items ≡ queue_rows snapshot.now.definitions 1 snapshot.now.waiting) }
{
    let definitions = &snapshot.definitions;
    let waiting = snapshot.waiting.as_slice();
    let mut rows = Vec::with_capacity(alloc, waiting.len())?;
    for (i, w) in waiting.iter().enumerate() {
        let cells = waiting_cells(definitions, i as u64 + 1, w);
        rows.push_reserved(row_of(alloc, &cells)?);
    }
    Ok(rows)
}
