//! The order of an answer.

ghost use Rattle.std.specs.Prelude.{◌≡◌};
ghost use Rattle.std.specs.Ordering.{is_lt};
ghost use Rattle.rm_base.specs.Values.{row_cmp, value_cmp};
ghost use Rattle.rm_rules.specs.Meaning.{shown, shown_column};
ghost use Rattle.rm_rules.specs.Ordering.{key_cmp, order_cmp};
ghost use Rattle.rm_rules.specs.Sorting.{sorted};
ghost use Rattle.tuples.specs.Known.{known};
ghost use Rattle.tuples.specs.Tuple.{tuple_values};
ghost use Rattle.rm_rules.specs.Comparing.{column};

use rm_base::row::Row;
use rm_base::select::{Item, OrderKey};
use rm_base::value::Value;
use std::cmp::Ordering;
use tuples::tuple::Tuple;

fn value_cmp(a: Option<&Value>, b: Option<&Value>) -> Ordering
    ensures { result ≡ value_cmp (known a.entry) (known b.entry) }
{
    match (a, b) {
        (Some(a), Some(b)) => a.cmp(b),
        (Some(a), None) => a.cmp(&Value::Null),
        (None, Some(b)) => Value::Null.cmp(b),
        (None, None) => Ordering::Equal,
    }
}

fn column(row: &Row, c: u32) -> Option<&Value>
    ensures { known result ≡ column row.now c }
{
    row.as_slice().get(c as usize)
}

fn key_cmp(key: OrderKey, a: &Row, b: &Row) -> Ordering
    ensures { result ≡ key_cmp key a.now b.now }
{
    let x = column(a, key.column);
    let y = column(b, key.column);
    if key.falling {
        value_cmp(y, x)
    } else {
        value_cmp(x, y)
    }
}

fn order_cmp(keys: &[OrderKey], a: &Row, b: &Row) -> Ordering
    ensures { result ≡ order_cmp keys.now a.now b.now }
{
    for key in keys {
        let order = key_cmp(*key, a, b);
        if order != Ordering::Equal {
            return order;
        }
    }
    a.cmp(b)
}

/// Puts rows in order. It takes no memory.
pub fn sort_rows(keys: &[OrderKey], rows: &mut [Row])
    ensures { rows.new ≡ sorted (order_cmp keys.now) rows.old }
{
    rows.sort_unstable_by(|a, b| order_cmp(keys, a, b));
}

/// Whether a row comes before another.
pub fn is_before(keys: &[OrderKey], a: &Row, b: &Row) -> bool
    ensures { result ≡ is_lt (order_cmp keys.now a.now b.now) }
{
    order_cmp(keys, a, b).is_lt()
}

/// The value that an item shows of a tuple; a Null may be missing.
fn shown_column<'a>(tuple: Tuple<'a>, item: Item) -> Option<&'a Value>
    ensures { known result ≡ shown_column (tuple_values tuple.entry) item }
{
    match item {
        Item::Column(c) => tuple.column(c),
        Item::CountAll => None,
        Item::Count(_) => None,
        Item::Sum(_) => None,
        Item::Min(_) => None,
        Item::Max(_) => None,
    }
}

/// The value in a column of the row that items show.
fn shown_at<'a>(items: &[Item], tuple: Tuple<'a>, c: u32) -> Option<&'a Value>
    ensures { known result ≡ column (shown items.now (tuple_values tuple.entry)) c }
{
    match items.get(c as usize) {
        Some(item) => shown_column(tuple, *item),
        None => None,
    }
}

fn shown_key_cmp(key: OrderKey, items: &[Item], tuple: Tuple, row: &Row) -> Ordering
    ensures { result ≡ key_cmp key (shown items.now (tuple_values tuple.entry)) row.now }
{
    let x = shown_at(items, tuple, key.column);
    let y = column(row, key.column);
    if key.falling {
        value_cmp(y, x)
    } else {
        value_cmp(x, y)
    }
}

/// The row that items show, and values, from left to right.
fn shown_row_cmp(items: &[Item], tuple: Tuple, values: &[Value]) -> Ordering
    ensures { result ≡ row_cmp (shown items.now (tuple_values tuple.entry)) values.now }
{
    for (place, item) in items.iter().enumerate() {
        if place >= values.len() {
            return Ordering::Greater;
        }
        let order = value_cmp(shown_column(tuple, *item), Some(&values[place]));
        if order != Ordering::Equal {
            return order;
        }
    }
    if items.len() < values.len() {
        Ordering::Less
    } else {
        Ordering::Equal
    }
}

/// Whether the row that items show of a tuple comes before a row.
pub fn is_shown_before(keys: &[OrderKey], items: &[Item], tuple: Tuple, row: &Row) -> bool
    ensures { result ≡ is_lt (order_cmp keys.now (shown items.now (tuple_values tuple.entry)) row.now) }
{
    shown_order_cmp(keys, items, tuple, row).is_lt()
}

fn shown_order_cmp(keys: &[OrderKey], items: &[Item], tuple: Tuple, row: &Row) -> Ordering
    ensures { result ≡ order_cmp keys.now (shown items.now (tuple_values tuple.entry)) row.now }
{
    for key in keys {
        let order = shown_key_cmp(*key, items, tuple, row);
        if order != Ordering::Equal {
            return order;
        }
    }
    shown_row_cmp(items, tuple, row.as_slice())
}
