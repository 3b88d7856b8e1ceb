//! Rows as CSV, by the writer of `csv` with its default settings.

ghost use Rattle.std.specs.Prelude.{◌≡◌, IfOk, OnOk};
ghost use Rattle.std.specs.Io.KnownBytes.{Appends};
ghost use Rattle.csv.specs.Writing.{row_text, default_writer, text_written};
ghost use Rattle.sessions.specs.AnswerTexts.{cell_text, row_line, rows_text};
ghost use Rattle.sessions.specs.Answered.{IsBetweenRows};

use csv::{Error, Writer, WriterBuilder};
use itoa::Buffer;
use rm_base::row::Row;
use rm_base::text::Text;
use rm_base::value::Value;
use std::alloc::{AllocError, Global};
use std::io::Write;

/// The lines of rows.
pub fn rows_bytes(alloc: Global, rows: &[Row]) -> Result<Vec<u8>, AllocError>
    ensures { IfOk result (λ bytes. bytes.items ≡ rows_text rows.now) }
{
    let mut writer = WriterBuilder::new().from_writer(Vec::new(alloc));
    let mut digits = Buffer::new();
    for row in rows {
        if write_row(&mut writer, &mut digits, row.as_slice()).is_err() {
            return Err(AllocError);
        }
    }
    match writer.into_inner() {
        Ok(bytes) => Ok(bytes),
        Err(_) => Err(AllocError),
    }
}

/// The line of the names of columns.
pub fn names_bytes(alloc: Global, names: &[Text]) -> Result<Vec<u8>, AllocError>
    ensures { IfOk result (λ bytes. bytes.items ≡ row_text default_writer names.now) }
{
    let mut writer = WriterBuilder::new().from_writer(Vec::new(alloc));
    if write_names(&mut writer, names).is_err() {
        return Err(AllocError);
    }
    match writer.into_inner() {
        Ok(bytes) => Ok(bytes),
        Err(_) => Err(AllocError),
    }
}

/// Writes the line of a row.
fn write_row<W: Write + Drop>(
    writer: &mut Writer<W>,
    digits: &mut Buffer,
    row: &[Value],
) -> Result<(), Error>
    requires { IsBetweenRows writer.old }
    ensures text { OnOk result (Appends (text_written W.contents writer.old) (text_written W.contents writer.new) (row_line row.now)) }
    ensures between { OnOk result (IsBetweenRows writer.new) }
{
    for value in row {
        writer.write_field(cell_bytes(digits, value))?;
    }
    writer.end_record()
}

/// Writes the line of names.
fn write_names<W: Write + Drop>(writer: &mut Writer<W>, names: &[Text]) -> Result<(), Error>
    requires { IsBetweenRows writer.old }
    ensures { OnOk result (Appends (text_written W.contents writer.old) (text_written W.contents writer.new) (row_text default_writer names.now)) }
{
    for name in names {
        writer.write_field(name.as_str().as_bytes())?;
    }
    writer.end_record()
}

/// The text of a cell.
fn cell_bytes<'a>(digits: &'a mut Buffer, value: &'a Value) -> &'a [u8]
    ensures { result.now ≡ cell_text value.now }
{
    match value {
        Value::Null => b"",
        Value::Int(number) => digits.format(*number).as_bytes(),
        Value::Words(text) => text.as_str().as_bytes(),
    }
}
