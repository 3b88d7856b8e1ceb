//! The grants in the store.

ghost use Rattle.std.specs.Prelude.{true};

use crate::cells;
use crate::stored_row::StoredRow;
use rm_base::name::Name;
use rm_base::rows::GrantRow;
use rm_outside::outside::Outside;
use sqlite::types::ValueRef;
use sqlite::{Alter, Error, Row, Statement, Transaction};

/// The number that stands for the kind of a grant, what is granted, and to whom.
fn parts(grant: &GrantRow) -> (i64, &Name, &Name) {
    match grant {
        GrantRow::PoolToUser(pool, user) => (0, pool, user),
        GrantRow::PoolToRole(pool, role) => (1, pool, role),
        GrantRow::RoleToUser(role, user) => (2, role, user),
    }
}

impl StoredRow for GrantRow {
    ghost is_in_range = { λ _. true };

    const SELECT: &'static str = "SELECT pos, kind, a, b FROM grants ORDER BY pos";

    const INSERT: &'static str = "INSERT INTO grants(pos, kind, a, b) VALUES (?1, ?2, ?3, ?4)";

    fn read(row: &Row) -> Result<GrantRow, Outside> {
        let a = cells::name(row, 2)?;
        let b = cells::name(row, 3)?;
        match cells::int(row, 1)? {
            0 => Ok(GrantRow::PoolToUser(a, b)),
            1 => Ok(GrantRow::PoolToRole(a, b)),
            2 => Ok(GrantRow::RoleToUser(a, b)),
            _ => Err(Outside::Failed),
        }
    }

    fn put<S: Alter>(
        &self,
        place: i64,
        insert: &Statement,
        tx: &mut Transaction<'_, S>,
    ) -> Result<usize, Error> {
        let (kind, a, b) = parts(self);
        tx.execute_prepared(
            insert,
            &[
                ValueRef::Int(place),
                ValueRef::Int(kind),
                cells::of_name(a),
                cells::of_name(b),
            ],
        )
    }
}
