//! The two tables of a workload, made once.

ghost use Rattle.std.specs.Prelude.{◌≡◌, ◌+◌, ◌≤◌, ◌<◌, [], ◌∷◌, ◌++◌, true, length, IfOk, OnOk};
ghost use Rattle.rm_base.specs.declared.limits.TheConstants.{ROWS_MOST, TABLE_MOST, WORKLOAD_ROWS_MOST};
ghost use Rattle.rm_base.specs.TableSeen.{fits_columns};
ghost use Rattle.rm_base.specs.Values.{row_measure, rows_measure};
ghost use Rattle.workload.specs.Generator.{int_column, table_a, table_b, tables_of};
ghost use Rattle.workload.specs.Generator.{name_a, name_b, name_k, name_v, name_w};

use crate::generator::{KEYS, ROWS_OF_A_TO_B, SHIFT, drawn, number_row};
use csv_tables::load_error::LoadError;
use csv_tables::table::Table;
use csv_tables::tables::Tables;
use rm_base::catalog::{CatalogColumn, ColumnKind};
use rm_base::name::Name;
use rm_base::row::Row;
use std::alloc::{AllocError, Global};

fn name_a() -> Name
    ensures { result ≡ name_a }
{
    Name::of("a").unwrap()
}

fn name_b() -> Name
    ensures { result ≡ name_b }
{
    Name::of("b").unwrap()
}

fn name_k() -> Name
    ensures { result ≡ name_k }
{
    Name::of("k").unwrap()
}

fn name_v() -> Name
    ensures { result ≡ name_v }
{
    Name::of("v").unwrap()
}

fn name_w() -> Name
    ensures { result ≡ name_w }
{
    Name::of("w").unwrap()
}

/// A table of two columns of Ints, without rows.
fn empty_table(alloc: Global, first: Name, second: Name) -> Result<Table, AllocError>
    ensures { IfOk result (λ t. t ≡ record { columns = int_column first ∷ int_column second ∷ []; rows = [] }) }
{
    let kind = ColumnKind::Int;
    let mut columns = Vec::with_capacity(alloc, 2)?;
    columns.push(CatalogColumn { name: first, kind })?;
    columns.push(CatalogColumn { name: second, kind })?;
    Ok(Table::new(alloc, columns))
}

/// Puts a row behind the others, where there is room for it.
fn put(table: &mut Table, row: Row) -> Result<(), AllocError>
    requires fits { fits_columns table.old.columns row ≡ true }
    requires few { length table.old.rows < ROWS_MOST }
    requires small { rows_measure table.old.rows + row_measure row ≤ TABLE_MOST }
    ensures { OnOk result (table.new ≡ record table.old { rows = table.old.rows ++ row ∷ [] }) }
{
    match table.put(row) {
        Ok(()) => Ok(()),
        Err(LoadError::Memory) => Err(AllocError),
        Err(
            LoadError::Header(_)
            | LoadError::Columns(_)
            | LoadError::Width(_)
            | LoadError::Value(..)
            | LoadError::Rows
            | LoadError::TooLarge,
        ) => unreachable!(),
    }
}

/// Table a, of so many rows.
fn table_a(alloc: Global, rows: u32, seed: u64) -> Result<Table, AllocError>
    requires { rows ≤ WORKLOAD_ROWS_MOST }
    ensures { IfOk result (λ t. t ≡ table_a rows seed) }
{
    let mut table = empty_table(alloc, name_k(), name_v())?;
    let mut x = seed;
    for i in 0..rows {
        x = drawn(x);
        let row = number_row(alloc, i % KEYS, (x >> SHIFT) as u32)?;
        put(&mut table, row)?;
    }
    Ok(table)
}

/// Table b, of a tenth of as many rows.
fn table_b(alloc: Global, rows: u32) -> Result<Table, AllocError>
    requires { rows ≤ WORKLOAD_ROWS_MOST }
    ensures { IfOk result (λ t. t ≡ table_b rows) }
{
    let mut table = empty_table(alloc, name_k(), name_w())?;
    for i in 0..rows / ROWS_OF_A_TO_B {
        let row = number_row(alloc, i % KEYS, i)?;
        put(&mut table, row)?;
    }
    Ok(table)
}

/// Both tables by their names.
pub fn tables_of(alloc: Global, rows: u32, seed: u64) -> Result<Tables, AllocError>
    requires { rows ≤ WORKLOAD_ROWS_MOST }
    ensures { IfOk result (λ tables. tables ≡ tables_of rows seed) }
{
    let mut tables = Tables::new(alloc);
    tables.add(alloc, name_a(), table_a(alloc, rows, seed)?)?;
    tables.add(alloc, name_b(), table_b(alloc, rows)?)?;
    Ok(tables)
}
