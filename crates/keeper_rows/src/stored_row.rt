//! What every table of the store has.

ghost use Rattle.std.specs.Prelude.{◌≡◌, Bool, true, IfOk};

use rm_outside::outside::Outside;
use sqlite::{Alter, Error, Row, Statement, Transaction};

/// A row of one of the tables, each of whose rows has its place among them in the first column.
///
/// `is_in_range` says of a row that every number in it is in its range.
pub trait StoredRow: Sized {
    ghost is_in_range: { Self → Bool };

    /// Reads the rows in the order of their places.
    const SELECT: &'static str;

    /// Writes a row.
    const INSERT: &'static str;

    /// The row in the cells of an answer to `SELECT`.
    fn read(row: &Row) -> Result<Self, Outside>
        ensures { IfOk result (λ row. is_in_range row ≡ true) };

    /// Writes the row at a place, by `INSERT` as it was prepared.
    fn put<S: Alter>(
        &self,
        place: i64,
        insert: &Statement,
        tx: &mut Transaction<'_, S>,
    ) -> Result<usize, Error>
        requires { is_in_range self.now ≡ true };
}
