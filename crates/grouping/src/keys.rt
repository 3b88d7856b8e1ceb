//! The key of a tuple: its values in the columns of GROUP BY.

ghost use Rattle.std.specs.Prelude.{◌≡◌, ◌-◌, ◌^◌, min, IfOk};
ghost use Rattle.rm_base.specs.Values.{row_measure, same_row, same_value};
ghost use Rattle.rm_rules.specs.Comparing.{columns};
ghost use Rattle.tuples.specs.Known.{known};
ghost use Rattle.tuples.specs.Tuple.{tuple_values};

use rm_base::row::Row;
use rm_base::value::Value;
use std::alloc::{AllocError, Global};
use tuples::tuple::Tuple;

/// A copy of a value that may be missing, which is Null then.
pub fn copy(alloc: Global, value: Option<&Value>) -> Result<Value, AllocError>
    ensures { IfOk result (λ copied. copied ≡ known value.entry) }
{
    match value {
        Some(value) => value.copy(alloc),
        None => Ok(Value::Null),
    }
}

/// The key of a tuple, as a row.
pub fn key_of(alloc: Global, keys: &[u32], tuple: Tuple) -> Result<Row, AllocError>
    ensures { IfOk result (λ key. key ≡ columns keys.now (tuple_values tuple.entry)) }
{
    let mut values = Vec::with_capacity(alloc, keys.len())?;
    for column in keys {
        values.push(copy(alloc, tuple.column(*column))?)?;
    }
    Ok(Row::of(values))
}

fn is_same(a: Option<&Value>, b: &Value) -> bool
    ensures { result ≡ same_value (known a.entry) b.now }
{
    match a {
        Some(a) => a == b,
        None => Value::Null == *b,
    }
}

/// Whether these values are the key of a tuple.
fn has_values(keys: &[u32], tuple: Tuple, values: &[Value]) -> bool
    ensures { result ≡ same_row (columns keys.now (tuple_values tuple.entry)) values.now }
{
    if keys.len() != values.len() {
        return false;
    }
    for (place, column) in keys.iter().enumerate() {
        if !is_same(tuple.column(*column), &values[place]) {
            return false;
        }
    }
    true
}

/// Whether a row is the key of a tuple.
pub fn has_key(keys: &[u32], tuple: Tuple, key: &Row) -> bool
    ensures { result ≡ same_row (columns keys.now (tuple_values tuple.entry)) key.now }
{
    has_values(keys, tuple, key.as_slice())
}
