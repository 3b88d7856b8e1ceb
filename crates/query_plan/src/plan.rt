use rm_base::limits::{FLOOR_OF_MORE, FLOOR_OF_ONE};
use rm_base::select::Select;
use std::marker::Model;

/// A SELECT whose names stand for columns of a catalog, seen as its data.
#[derive(Debug, Drop)]
pub struct Plan {
    select: Select,
}

impl Model for Plan {
    ghost use Rattle.std.specs.Prelude.{◌≤◌, length};
    ghost use Rattle.rm_base.specs.declared.limits.TheConstants.{SELECT_TABLES_MOST};
    ghost use Rattle.rm_base.specs.declared.select.Select.{Select};

    ghost Value = { Select };

    ghost view = { λ p. p.select };

    ghost invariant = { λ p. length p.select.tables ≤ SELECT_TABLES_MOST };
}

impl Plan {
    ghost use Rattle.std.specs.Prelude.{◌≡◌, ◌≤◌, length};
    ghost use Rattle.rm_base.specs.declared.limits.TheConstants.{SELECT_TABLES_MOST};
    ghost use Rattle.rm_base.specs.Select.{select_floor};

    pub(crate) fn of(select: Select) -> Plan
        requires { length select.tables ≤ SELECT_TABLES_MOST }
        ensures { result ≡ select }
    {
        Plan { select }
    }

    /// The data of the SELECT.
    pub fn select(&self) -> &Select
        ensures { result.now ≡ self.now }
    {
        &self.select
    }

    /// The least memory that serves it, in bytes.
    pub fn floor(&self) -> u64
        ensures { result ≡ select_floor self.now }
    {
        let further = self.select.tables.as_slice().len().saturating_sub(1);
        FLOOR_OF_ONE + FLOOR_OF_MORE * further as u64
    }
}
