//! The rows of definitions, put into a store.

ghost use Rattle.std.specs.Prelude.{◌≡◌, true};
ghost use Rattle.std.specs.List.{list_all};
ghost use Rattle.rm_outside.specs.Ranges.{IsInRange};

use crate::fault::outside_of;
use crate::schema::{clear, is_fresh, make};
use crate::stored_row::StoredRow;
use rm_base::definitions::Definitions;
use rm_outside::outside::Outside;
use sqlite::{Alter, Connection, Error, Transaction};

/// Writes rows at the places 0, 1, 2 and on.
fn put_rows<T: StoredRow, S: Alter>(tx: &mut Transaction<'_, S>, rows: &[T]) -> Result<(), Error>
    requires { list_all T.StoredRow.is_in_range rows.now ≡ true }
{
    let insert = tx.prepare(T::INSERT)?;
    for (place, row) in (0..i64::MAX).zip(rows.iter()) {
        row.put(place, &insert, tx)?;
    }
    Ok(())
}

fn put_all<S: Alter>(tx: &mut Transaction<'_, S>, next: &Definitions) -> Result<(), Error>
    requires { IsInRange next.now }
{
    put_rows(tx, next.pools.rows())?;
    put_rows(tx, next.users.rows())?;
    put_rows(tx, next.roles.rows())?;
    put_rows(tx, next.grants.rows())
}

/// Replaces what is stored, all of it or nothing: a transaction that is dropped is rolled back.
fn replace<S: Alter>(
    mut tx: Transaction<'_, S>,
    is_fresh: bool,
    next: &Definitions,
) -> Result<(), Error>
    requires { IsInRange next.now }
{
    if is_fresh {
        make(&mut tx)?;
    } else {
        clear(&mut tx)?;
    }
    put_all(&mut tx, next)?;
    tx.commit()
}

/// Puts the rows of definitions in the place of all that are stored, and makes the tables first in a fresh store.
///
/// On an error the rows that were stored stay.
pub fn save<S: Alter>(connection: &mut Connection<S>, next: &Definitions) -> Result<(), Outside>
    requires { IsInRange next.now }
{
    let is_fresh = is_fresh(connection)?;
    if !connection.is_autocommit() {
        return Err(Outside::Failed);
    }
    replace(connection.transaction(), is_fresh, next).map_err(outside_of)
}
