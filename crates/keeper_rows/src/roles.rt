//! The roles in the store.

ghost use Rattle.std.specs.Prelude.{true};

use crate::cells;
use crate::stored_row::StoredRow;
use rm_base::rows::RoleRow;
use rm_outside::outside::Outside;
use sqlite::types::ValueRef;
use sqlite::{Alter, Error, Row, Statement, Transaction};

impl StoredRow for RoleRow {
    ghost is_in_range = { λ _. true };

    const SELECT: &'static str = "SELECT pos, name, pool FROM roles ORDER BY pos";

    const INSERT: &'static str = "INSERT INTO roles(pos, name, pool) VALUES (?1, ?2, ?3)";

    fn read(row: &Row) -> Result<RoleRow, Outside> {
        Ok(RoleRow {
            name: cells::name(row, 1)?,
            pool: cells::maybe_name(row, 2)?,
        })
    }

    fn put<S: Alter>(
        &self,
        place: i64,
        insert: &Statement,
        tx: &mut Transaction<'_, S>,
    ) -> Result<usize, Error> {
        tx.execute_prepared(
            insert,
            &[
                ValueRef::Int(place),
                cells::of_name(&self.name),
                cells::of_maybe_name(&self.pool),
            ],
        )
    }
}
