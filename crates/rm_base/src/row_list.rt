ghost use Rattle.std.specs.Prelude.{◌≡◌, Some, refl};
ghost use Rattle.std.specs.Cmp.{partial_equiv_from_equiv};
ghost use Rattle.rm_base.specs.Values.{same_rows, rows_cmp, rows_writes};
ghost use Rattle.rm_base.specs.ValueLaws.{rows_equiv, rows_total, rows_ties, rows_order, rows_writes-alike};

use crate::row::Row;
use std::cmp::Ordering;
use std::hash::{Hash, Hasher};
use std::marker::Model;

/// Rows in order, seen as their list.
#[derive(Debug, Drop)]
pub struct RowList {
    rows: Vec<Row>,
}

impl Model for RowList {
    ghost use Rattle.std.specs.Prelude.{List};
    ghost use Rattle.rm_base.specs.declared.value.Value as cell;

    ghost Value = { List (List cell.Value) };

    ghost view = { λ l. l.rows.items };
}

impl RowList {
    /// It takes no memory.
    pub fn of(rows: Vec<Row>) -> RowList
        ensures { result ≡ rows.items }
    {
        RowList { rows }
    }

    pub fn as_slice(&self) -> &[Row]
        ensures { result.now ≡ self.now }
    {
        &self.rows
    }

    /// It takes no memory.
    pub fn into_vec(self) -> Vec<Row>
        ensures { result.items ≡ self }
    {
        self.rows
    }
}

impl PartialEq for RowList {
    ghost eq = { same_rows };

    ghost laws = { partial_equiv_from_equiv rows_equiv };

    fn eq(&self, other: &RowList) -> bool {
        self.rows == other.rows
    }
}

impl Eq for RowList {
    ghost laws = { rows_equiv };
}

impl PartialOrd for RowList {
    ghost partial_cmp = { λ a b. Some (rows_cmp a b) };

    ghost laws = { rows_order };

    fn partial_cmp(&self, other: &RowList) -> Option<Ordering> {
        Some(self.cmp(other))
    }
}

impl Ord for RowList {
    ghost cmp = { rows_cmp };

    ghost total = { rows_total };

    ghost matches_partial_cmp = { λ a b. refl };

    ghost matches_eq = { rows_ties };

    fn cmp(&self, other: &RowList) -> Ordering {
        self.rows.cmp(&other.rows)
    }
}

impl Hash for RowList {
    ghost hash_input = { rows_writes };

    ghost respects_eq = { rows_writes-alike };

    fn hash<H: Hasher>(&self, state: &mut H) {
        self.rows.hash(state);
    }
}
