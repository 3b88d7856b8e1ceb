ghost use Rattle.std.specs.Prelude.{◌≡◌, ◌⊎◌, true, Ok, Err, IfOk, IfErr};
ghost use Rattle.csv.specs.Records.{fields_of};
ghost use Rattle.csv_tables.specs.declared.load_error.LoadError.TheVariants.{Memory};
ghost use Rattle.csv_tables.specs.Left.{IsReading, TakesNext, left_of};
ghost use Rattle.csv_tables.specs.Loading.{loaded, table_of};

use crate::header::columns_of;
use crate::load_error::LoadError;
use crate::table::Table;
use csv::{ByteRecord, Reader, ReaderBuilder};
use std::alloc::Global;

/// Reads the next record, and tells whether there was one.
fn next_record(reader: &mut Reader<&[u8]>, cells: &mut ByteRecord) -> Result<bool, LoadError>
    requires { IsReading reader.old }
    ensures took { IfOk result (λ found. TakesNext (left_of reader.old) (left_of reader.new) found (fields_of cells.new)) }
    ensures reading { IfOk result (λ found. found ≡ true → IsReading reader.new) }
    ensures err { IfErr result (λ e. e ≡ Memory) }
{
    let Ok(found) = reader.read_byte_record(cells) else {
        return Err(LoadError::Memory);
    };
    Ok(found)
}

/// Adds each record that is left.
fn load_rows(
    alloc: Global,
    reader: &mut Reader<&[u8]>,
    cells: &mut ByteRecord,
    mut table: Table,
) -> Result<Table, LoadError>
    requires { IsReading reader.old }
    ensures ok { IfOk result (λ loaded_table. loaded (Ok table) (left_of reader.old) ≡ Ok loaded_table) }
    ensures err { IfErr result (λ e. (e ≡ Memory) ⊎ (loaded (Ok table) (left_of reader.old) ≡ Err e)) }
{
    'records: while next_record(reader, cells)? {
        table.add(alloc, cells)?;
    }
    Ok(table)
}

/// The table of a file of CSV.
pub fn load(alloc: Global, bytes: &[u8]) -> Result<Table, LoadError>
    ensures ok { IfOk result (λ table. table_of bytes.now ≡ Ok table) }
    ensures err { IfErr result (λ e. (e ≡ Memory) ⊎ (table_of bytes.now ≡ Err e)) }
{
    let mut reader = ReaderBuilder::new()
        .has_headers(false)
        .flexible(true)
        .from_reader(alloc, bytes);
    let mut cells = ByteRecord::new(alloc);
    if !next_record(&mut reader, &mut cells)? {
        return Err(LoadError::Columns(0));
    }
    let columns = columns_of(alloc, &cells)?;
    load_rows(alloc, &mut reader, &mut cells, Table::new(alloc, columns))
}
