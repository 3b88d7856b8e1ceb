//! The definitions for which the rows of a store stand.

ghost use Rattle.std.specs.Prelude.{◌≡◌, ◌≤◌, true, IfOk};
ghost use Rattle.std.specs.List.{list_all};
ghost use Rattle.rm_base.specs.declared.limits.TheConstants.{MEMORY_LEAST, MEMORY_MOST, CORES_MOST};
ghost use Rattle.rm_outside.specs.Stored.{IsNewlyLoaded};

use crate::cells;
use crate::fault::outside_of;
use crate::schema::is_fresh;
use crate::stored_row::StoredRow;
use rm_base::bounded::Bounded;
use rm_base::definitions::Definitions;
use rm_outside::outside::Outside;
use sqlite::{Alter, Connection};
use std::alloc::Global;

/// All rows of a table, whose places have to be 0, 1, 2 and on.
fn rows_of<T: StoredRow + Drop, S: Alter, const MOST: usize>(
    alloc: Global,
    connection: &mut Connection<S>,
) -> Result<Bounded<T, MOST>, Outside>
    ensures { IfOk result (λ rows. list_all T.StoredRow.is_in_range rows ≡ true) }
{
    let answer = connection.query_all(T::SELECT, &[]).map_err(outside_of)?;
    let mut rows = Bounded::new(alloc)?;
    for (place, row) in (0..i64::MAX).zip(answer.iter()) {
        if rows.is_full() || cells::int(row, 0)? != place {
            return Err(Outside::Failed);
        }
        rows.add(T::read(row)?);
    }
    Ok(rows)
}

/// The definitions that are stored, or those of a fresh store.
pub fn load<S: Alter>(
    alloc: Global,
    connection: &mut Connection<S>,
    memory: u64,
    cores: u32,
) -> Result<Definitions, Outside>
    requires memory_least { MEMORY_LEAST ≤ memory }
    requires memory_most { memory ≤ MEMORY_MOST }
    requires cores_least { 1 ≤ cores }
    requires cores_most { cores ≤ CORES_MOST }
    ensures { IfOk result (λ definitions. IsNewlyLoaded definitions memory cores) }
{
    if is_fresh(connection)? {
        return Ok(Definitions::new(alloc, memory, cores)?);
    }
    Ok(Definitions {
        memory,
        cores,
        pools: rows_of(alloc, connection)?,
        users: rows_of(alloc, connection)?,
        roles: rows_of(alloc, connection)?,
        grants: rows_of(alloc, connection)?,
        changes: 0,
    })
}
