use crate::load_error::LoadError;
use crate::row::values_of;
use csv::ByteRecord;
use rm_base::catalog::CatalogColumn;
use rm_base::limits::{ROWS_MOST, TABLE_MOST};
use rm_base::listed::Listed;
use rm_base::row::{Row, row_measure};
use std::alloc::{AllocError, Global};
use std::marker::Model;

/// A table, seen as its columns and its rows.
#[derive(Debug, Drop)]
pub struct Table {
    columns: Listed<CatalogColumn>,
    rows: Vec<Row>,
    measure: u64,
}

impl Model for Table {
    ghost use Rattle.std.specs.Prelude.{◌≡◌};
    ghost use Rattle.rm_base.specs.TableSeen.{TableSeen, IsTable};
    ghost use Rattle.rm_base.specs.Values.{rows_measure};

    ghost Value = { TableSeen };

    ghost view = { λ t. record { columns = t.columns; rows = t.rows.items } };

    ghost invariant = { λ t. IsTable (record { columns = t.columns; rows = t.rows.items }) × (t.measure ≡ rows_measure t.rows.items) };
}

impl Table {
    ghost use Rattle.std.specs.Prelude.{◌≡◌, ◌≤◌, ◌<◌, ◌⊎◌, [], true, length, Ok, Err, OnOk, IfOk, IfErr};
    ghost use Rattle.csv.specs.Records.{fields_of};
    ghost use Rattle.rm_base.specs.declared.limits.TheConstants.{COLUMNS_MOST};
    ghost use Rattle.rm_base.specs.TableSeen.{IsTable, fits_columns};
    ghost use Rattle.csv_tables.specs.Loading.{with_record, with_row};
    ghost use Rattle.csv_tables.specs.declared.load_error.LoadError.TheVariants.{Memory};

    pub fn columns(&self) -> &[CatalogColumn]
        ensures { result.now ≡ self.now.columns }
    {
        self.columns.as_slice()
    }

    pub fn rows(&self) -> &[Row]
        ensures rows { result.now ≡ self.now.rows }
        ensures table { IsTable self.now }
    {
        &self.rows
    }

    /// A list of the same columns.
    pub(crate) fn copy_columns(&self, alloc: Global) -> Result<Listed<CatalogColumn>, AllocError>
        ensures copy { IfOk result (λ columns. columns ≡ self.now.columns) }
        ensures narrow { length self.now.columns ≤ COLUMNS_MOST }
    {
        self.columns.copy(alloc)
    }

    /// A table without rows, of 1 to 16 columns.
    pub fn new(alloc: Global, columns: Vec<CatalogColumn>) -> Table
        requires some { 0 < length columns.items }
        requires few { length columns.items ≤ COLUMNS_MOST }
        ensures { result ≡ record { columns = columns.items; rows = [] } }
    {
        Table {
            columns: Listed::of(columns),
            rows: Vec::new(alloc),
            measure: 0,
        }
    }

    /// Adds a record.
    pub(crate) fn add(&mut self, alloc: Global, cells: &ByteRecord) -> Result<(), LoadError>
        ensures ok { OnOk result (with_record self.old (fields_of cells.now) ≡ Ok self.new) }
        ensures err { IfErr result (λ e. (e ≡ Memory) ⊎ (with_record self.old (fields_of cells.now) ≡ Err e)) }
    {
        let number = self.rows.len() as u64 + 2;
        let columns = self.columns.as_slice();
        if cells.len() != columns.len() {
            return Err(LoadError::Width(number));
        }
        let values = values_of(alloc, number, columns, cells)?;
        self.put(Row::of(values))
    }

    /// Adds a row whose values fit the columns.
    pub fn put(&mut self, row: Row) -> Result<(), LoadError>
        requires { fits_columns self.old.columns row ≡ true }
        ensures ok { OnOk result (with_row self.old row ≡ Ok self.new) }
        ensures err { IfErr result (λ e. (e ≡ Memory) ⊎ (with_row self.old row ≡ Err e)) }
    {
        if self.rows.len() >= ROWS_MOST {
            return Err(LoadError::Rows);
        }
        let measure = self.measure + row_measure(&row);
        if measure > TABLE_MOST {
            return Err(LoadError::TooLarge);
        }
        self.rows.push(row)?;
        self.measure = measure;
        Ok(())
    }
}
