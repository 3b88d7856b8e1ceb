ghost use Rattle.std.specs.Prelude.{◌≡◌, ◌≤◌, ◌<◌, ◌⊎◌, ◌++◌, ◌∷◌, [], length, option_map, Ok, IfOk, IfErr, Err};
ghost use Rattle.csv.specs.Records.{fields_of};
ghost use Rattle.rm_base.specs.declared.limits.TheConstants.{COLUMNS_MOST};
ghost use Rattle.csv_tables.specs.declared.load_error.LoadError.TheVariants.{Memory};
ghost use Rattle.csv_tables.specs.Header.{typed, name_in, named, column_of, with_column, is_used, columns_from, columns_of};

use crate::load_error::LoadError;
use crate::row::cell_at;
use csv::ByteRecord;
use rm_base::catalog::{CatalogColumn, ColumnKind};
use rm_base::limits::COLUMNS_MOST;
use rm_base::name::Name;
use std::alloc::Global;
use std::str;

fn typed(cell: &[u8]) -> (&[u8], ColumnKind)
    ensures { (result.0.now, result.1) ≡ typed cell.now }
{
    if let Some(name) = cell.strip_suffix(b":int") {
        return (name, ColumnKind::Int);
    }
    if let Some(name) = cell.strip_suffix(b":text") {
        return (name, ColumnKind::Words);
    }
    (cell, ColumnKind::Words)
}

fn name_in(bytes: &[u8]) -> Option<Name>
    ensures { result ≡ name_in bytes.now }
{
    match str::from_utf8(bytes) {
        Ok(text) => Name::of(text),
        Err(_) => None,
    }
}

fn named(kind: ColumnKind, name: Option<Name>) -> Option<CatalogColumn>
    ensures { result ≡ named kind name }
{
    match name {
        Some(name) => Some(CatalogColumn { name, kind }),
        None => None,
    }
}

fn column_of(cell: &[u8]) -> Option<CatalogColumn>
    ensures { result ≡ column_of cell.now }
{
    let (name, kind) = typed(cell);
    named(kind, name_in(name))
}

fn is_used(name: Name, columns: &[CatalogColumn]) -> bool
    ensures { result ≡ is_used name columns.now }
{
    columns.iter().any(|column| column.name.same(name))
}

/// The column, where there is one and its name is new.
fn new_column(columns: &[CatalogColumn], column: Option<CatalogColumn>) -> Option<CatalogColumn>
    ensures { option_map (λ column. columns.now ++ column ∷ []) result ≡ with_column columns.now column }
{
    match column {
        Some(column) => {
            if is_used(column.name, columns) {
                None
            } else {
                Some(column)
            }
        }
        None => None,
    }
}

fn columns_in(alloc: Global, header: &ByteRecord) -> Result<Vec<CatalogColumn>, LoadError>
    requires { length (fields_of header.now) ≤ COLUMNS_MOST }
    ensures ok { IfOk result (λ columns. columns_from [] (fields_of header.now) ≡ Ok columns.items) }
    ensures many { IfOk result (λ columns. length columns.items ≡ length (fields_of header.now)) }
    ensures err { IfErr result (λ e. (e ≡ Memory) ⊎ (columns_from [] (fields_of header.now) ≡ Err e)) }
{
    let mut columns = Vec::with_capacity(alloc, header.len())?;
    for place in 0..header.len() {
        let Some(column) = new_column(&columns, column_of(cell_at(header, place))) else {
            return Err(LoadError::Header(place as u32 + 1));
        };
        columns.push(column)?;
    }
    Ok(columns)
}

/// The columns that a header names.
pub fn columns_of(alloc: Global, header: &ByteRecord) -> Result<Vec<CatalogColumn>, LoadError>
    ensures ok { IfOk result (λ columns. columns_of (fields_of header.now) ≡ Ok columns.items) }
    ensures some { IfOk result (λ columns. 0 < length columns.items) }
    ensures few { IfOk result (λ columns. length columns.items ≤ COLUMNS_MOST) }
    ensures err { IfErr result (λ e. (e ≡ Memory) ⊎ (columns_of (fields_of header.now) ≡ Err e)) }
{
    if header.is_empty() || header.len() > COLUMNS_MOST {
        let count = u32::try_from(header.len()).unwrap_or(u32::MAX);
        return Err(LoadError::Columns(count));
    }
    columns_in(alloc, header)
}
