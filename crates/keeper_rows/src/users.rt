//! The users in the store.

ghost use Rattle.rm_base.specs.Ranges.{is_user_in_range};

use crate::cells;
use crate::stored_row::StoredRow;
use rm_base::limits::{MEMORY_MOST, SPAN_MOST};
use rm_base::rows::UserRow;
use rm_outside::outside::Outside;
use sqlite::types::ValueRef;
use sqlite::{Alter, Error, Row, Statement, Transaction};

impl StoredRow for UserRow {
    ghost is_in_range = { is_user_in_range };

    const SELECT: &'static str =
        "SELECT pos, name, pool, memory_cap, cap_ms FROM users ORDER BY pos";

    const INSERT: &'static str =
        "INSERT INTO users(pos, name, pool, memory_cap, cap_ms) VALUES (?1, ?2, ?3, ?4, ?5)";

    fn read(row: &Row) -> Result<UserRow, Outside> {
        Ok(UserRow {
            name: cells::name(row, 1)?,
            pool: cells::maybe_name(row, 2)?,
            memory_cap: cells::maybe_between(row, 3, 0, MEMORY_MOST)?,
            cap_ms: cells::maybe_between(row, 4, 1, SPAN_MOST)?,
        })
    }

    fn put<S: Alter>(
        &self,
        place: i64,
        insert: &Statement,
        tx: &mut Transaction<'_, S>,
    ) -> Result<usize, Error> {
        tx.execute_prepared(
            insert,
            &[
                ValueRef::Int(place),
                cells::of_name(&self.name),
                cells::of_maybe_name(&self.pool),
                cells::of_maybe_number(self.memory_cap),
                cells::of_maybe_number(self.cap_ms),
            ],
        )
    }
}
