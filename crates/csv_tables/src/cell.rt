ghost use Rattle.std.specs.Prelude.{◌≡◌, IfOk};
ghost use Rattle.std.specs.List.{list_all};
ghost use Rattle.std.specs.Char.{is_ascii_digit};
ghost use Rattle.csv_tables.specs.Cells.{number_of, int_of, negative, positive, value_of, text_of};

use rm_base::catalog::ColumnKind;
use rm_base::limits::{CELL_DIGITS_MOST, CELL_MOST};
use rm_base::text::Text;
use rm_base::value::Value;
use std::alloc::{AllocError, Global};
use std::str;

fn all_digits(text: &[u8]) -> bool
    ensures { result ≡ list_all is_ascii_digit text.now }
{
    text.iter().all(|byte| byte.is_ascii_digit())
}

/// The number that 1 to 19 digits write.
fn number_of(text: &[u8]) -> Option<u64>
    ensures { result ≡ number_of text.now }
{
    if text.len() > CELL_DIGITS_MOST || !all_digits(text) {
        return None;
    }
    match str::from_utf8(text) {
        Ok(text) => text.parse().ok(),
        Err(_) => None,
    }
}

fn negative(number: u64) -> Option<i64>
    ensures { result ≡ negative number }
{
    i64::try_from(-i128::from(number)).ok()
}

fn positive(number: u64) -> Option<i64>
    ensures { result ≡ positive number }
{
    i64::try_from(number).ok()
}

/// The integer that a cell writes.
fn int_of(cell: &[u8]) -> Option<i64>
    ensures { result ≡ int_of cell.now }
{
    match cell {
        [b'-', digits @ ..] => negative(number_of(digits)?),
        _ => positive(number_of(cell)?),
    }
}

fn text_of(alloc: Global, cell: &[u8]) -> Result<Option<Value>, AllocError>
    ensures { IfOk result (λ value. value ≡ text_of cell.now) }
{
    if cell.len() > CELL_MOST {
        return Ok(None);
    }
    match str::from_utf8(cell) {
        Ok(text) => Ok(Some(Value::Words(Text::of(String::from_str(alloc, text)?)))),
        Err(_) => Ok(None),
    }
}

/// The value that a cell writes in a column of that kind, or none where it has a fault.
pub fn value_of(alloc: Global, kind: ColumnKind, cell: &[u8]) -> Result<Option<Value>, AllocError>
    ensures { IfOk result (λ value. value ≡ value_of kind cell.now) }
{
    if cell.is_empty() {
        return Ok(Some(Value::Null));
    }
    match kind {
        ColumnKind::Int => Ok(int_of(cell).map(Value::Int)),
        ColumnKind::Words => text_of(alloc, cell),
    }
}
