mod files;
mod runs;
mod side_by_side;
mod tables;
mod values;

use csv_tables::table::Table;
use rm_base::value::Value;
use std::alloc::{AllocError, Global};

/// The bytes that a case writes: with a CR for `␍`, a byte that no text has for `⊘`, and a thousand letters for `⋯`.
fn bytes_of(alloc: Global, case: &str) -> Result<Vec<u8>, AllocError> {
    let mut bytes = Vec::new(alloc);
    for c in case.chars() {
        match c {
            '␍' => bytes.push(b'\r')?,
            '⊘' => bytes.push(0xff)?,
            '⋯' => push_letters(&mut bytes)?,
            _ => push_char(&mut bytes, c)?,
        }
    }
    Ok(bytes)
}

fn push_letters(bytes: &mut Vec<u8>) -> Result<(), AllocError> {
    for _ in 0..1_000 {
        bytes.push(b'x')?;
    }
    Ok(())
}

fn push_char(bytes: &mut Vec<u8>, c: char) -> Result<(), AllocError> {
    let mut room = [0; 4];
    bytes.extend_from_slice(c.encode_utf8(&mut room).as_bytes())
}

/// A value as the cases write it.
fn push_value(alloc: Global, shown: &mut String, value: &Value) -> Result<(), AllocError> {
    match value {
        Value::Null => shown.push_str("NULL"),
        Value::Int(number) => shown.push_str(format!(in alloc; "{number}")?.as_str()),
        Value::Words(text) => {
            let text = text.as_str();
            shown.push_str(format!(in alloc; "'{text}'")?.as_str())
        }
    }
}

/// A table as the cases write it: its columns on one line, and each row on one.
fn shown(alloc: Global, table: &Table) -> Result<String, AllocError> {
    let mut shown = String::new(alloc);
    for column in table.columns() {
        let name = column.name;
        let kind = column.kind;
        shown.push_str(format!(in alloc; "{name} {kind:?};")?.as_str())?;
    }
    shown.push('\n')?;
    for row in table.rows() {
        for value in row.as_slice() {
            push_value(alloc, &mut shown, value)?;
            shown.push(';')?;
        }
        shown.push('\n')?;
    }
    Ok(shown)
}
