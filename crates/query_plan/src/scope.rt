ghost use Rattle.std.specs.Prelude.{◌≡◌};
ghost use Rattle.std.specs.Option.{option_copied};
ghost use Rattle.query_plan.specs.Scope.{counts_within, is_listed, reaches, table_named};

use crate::raw::{RawSelect, RawTable};
use rm_base::catalog::{Catalog, CatalogColumn, CatalogTable, ColumnKind};
use rm_base::name::Name;

/// A column of a SELECT's tables: of which table, counted from 0, what that is called by, and the column.
#[derive(Clone, Copy, Debug)]
pub struct Here {
    pub table: usize,
    pub call: Name,
    pub column: CatalogColumn,
}

/// A column that a reference means: which of all tables' columns, counted from 0, of which table, and its kind.
#[derive(Clone, Copy, Debug)]
pub struct Found {
    pub column: u32,
    pub table: usize,
    pub kind: ColumnKind,
}

/// The table of this name.
pub fn table_named(catalog: &Catalog, name: Name) -> Option<&CatalogTable>
    ensures { option_copied result ≡ table_named catalog.now name }
{
    catalog
        .as_slice()
        .iter()
        .find(|table| table.name.same(name))
}

/// Whether a number counts no further than the columns of the tables; where one of them is unknown, any does.
fn reaches(catalog: &Catalog, tables: &[RawTable], number: u64) -> bool
    ensures { result ≡ reaches catalog.now tables.now number }
{
    let mut rest = number;
    for table in tables {
        match table_named(catalog, table.name) {
            None => return true,
            Some(found) => rest = rest.saturating_sub(found.columns.as_slice().len() as u64),
        }
    }
    rest == 0
}

/// Whether this is the number of an output column, counted from 1.
pub fn is_listed(catalog: &Catalog, raw: &RawSelect, number: u64) -> bool
    ensures { result ≡ is_listed catalog.now raw.now number }
{
    number > 0 && number <= i64::MAX as u64 && counts_within(catalog, raw, number)
}

fn counts_within(catalog: &Catalog, raw: &RawSelect, number: u64) -> bool
    ensures { result ≡ counts_within catalog.now raw.now raw.now.all number }
{
    match raw.all {
        None => number <= raw.items.as_slice().len() as u64,
        Some(_) => reaches(catalog, raw.tables.as_slice(), number),
    }
}
