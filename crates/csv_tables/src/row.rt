ghost use Rattle.std.specs.Prelude.{◌≡◌, ◌≤◌, ◌<◌, ◌⊎◌, [], length, true, slice_index_or, Ok, Err, IfOk, IfErr};
ghost use Rattle.csv.specs.Records.{fields_of};
ghost use Rattle.rm_base.specs.declared.limits.TheConstants.{COLUMNS_MOST};
ghost use Rattle.rm_base.specs.TableSeen.{fits_columns};
ghost use Rattle.csv_tables.specs.declared.load_error.LoadError.TheVariants.{Memory};
ghost use Rattle.csv_tables.specs.Loading.{values_from};

use crate::cell::value_of;
use crate::load_error::LoadError;
use csv::ByteRecord;
use rm_base::catalog::CatalogColumn;
use rm_base::value::Value;
use std::alloc::Global;

/// The cell at a place of a record, counted from 0.
pub fn cell_at(cells: &ByteRecord, place: usize) -> &[u8]
    requires { place < length (fields_of cells.now) }
    ensures { result.now ≡ slice_index_or (fields_of cells.now) place [] }
{
    match cells.get(place) {
        Some(cell) => cell,
        None => unreachable!(),
    }
}

/// The values of a record, column by column.
pub fn values_of(
    alloc: Global,
    number: u64,
    columns: &[CatalogColumn],
    cells: &ByteRecord,
) -> Result<Vec<Value>, LoadError>
    requires few { length columns.now ≤ COLUMNS_MOST }
    requires wide { length (fields_of cells.now) ≡ length columns.now }
    ensures ok { IfOk result (λ values. values_from number [] columns.now (fields_of cells.now) ≡ Ok values.items) }
    ensures fits { IfOk result (λ values. fits_columns columns.now values.items ≡ true) }
    ensures err { IfErr result (λ e. (e ≡ Memory) ⊎ (values_from number [] columns.now (fields_of cells.now) ≡ Err e)) }
{
    let mut values = Vec::with_capacity(alloc, columns.len())?;
    for (place, column) in columns.iter().enumerate() {
        let Some(value) = value_of(alloc, column.kind, cell_at(cells, place))? else {
            return Err(LoadError::Value(number, place as u32 + 1));
        };
        values.push(value)?;
    }
    Ok(values)
}
