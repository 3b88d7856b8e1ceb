//! The row of the select list that a tuple gives.

ghost use Rattle.std.specs.Prelude.{◌≡◌, ◌-◌, ◌^◌, min, IfOk};
ghost use Rattle.rm_base.specs.Values.{row_measure, value_measure};
ghost use Rattle.rm_rules.specs.Comparing.{column};
ghost use Rattle.rm_rules.specs.Meaning.{shown, shown_column};
ghost use Rattle.tuples.specs.Known.{known};
ghost use Rattle.tuples.specs.Tuple.{tuple_values};

use crate::tuple::Tuple;
use rm_base::limits::{NULL_MEASURE, ROW_MEASURE};
use rm_base::row::Row;
use rm_base::select::Item;
use rm_base::value::Value;
use std::alloc::{AllocError, Global};

/// The value that an item shows; a Null may be missing.
fn shown_column<'a>(tuple: Tuple<'a>, item: Item) -> Option<&'a Value>
    ensures { known result ≡ shown_column (tuple_values tuple.entry) item }
{
    match item {
        Item::Column(c) => tuple.column(c),
        Item::CountAll => None,
        Item::Count(_) => None,
        Item::Sum(_) => None,
        Item::Min(_) => None,
        Item::Max(_) => None,
    }
}

fn copy(alloc: Global, value: Option<&Value>) -> Result<Value, AllocError>
    ensures { IfOk result (λ copied. copied ≡ known value.entry) }
{
    match value {
        Some(value) => value.copy(alloc),
        None => Ok(Value::Null),
    }
}

fn measure(value: Option<&Value>) -> u64
    ensures { result ≡ value_measure (known value.entry) }
{
    match value {
        Some(value) => value.measure(),
        None => NULL_MEASURE,
    }
}

/// The row of these items.
pub fn shown(alloc: Global, items: &[Item], tuple: Tuple) -> Result<Row, AllocError>
    ensures { IfOk result (λ row. row ≡ shown items.now (tuple_values tuple.entry)) }
{
    let mut values = Vec::with_capacity(alloc, items.len())?;
    for item in items {
        values.push(copy(alloc, shown_column(tuple, *item))?)?;
    }
    Ok(Row::of(values))
}

/// What the row of these items measures, in bytes; it stands still at its greatest value.
pub fn shown_measure(items: &[Item], tuple: Tuple) -> u64
    ensures { result ≡ min (row_measure (shown items.now (tuple_values tuple.entry))) (2 ^ 64 - 1) }
{
    let mut sum: u64 = ROW_MEASURE;
    for item in items {
        sum = sum.saturating_add(measure(shown_column(tuple, *item)));
    }
    sum
}
