//! The cells of stored rows, as values and back.

ghost use Rattle.std.specs.Prelude.{◌≡◌, ◌<◌, ◌^◌, true, IfOk, IfSome};
ghost use Rattle.rm_base.specs.declared.limits.TheConstants.{CONCURRENCY_MOST};
ghost use Rattle.rm_base.specs.Ranges.{passes_if_set, is_between, is_priority};

use crate::fault::outside_of;
use rm_base::limits::{CONCURRENCY_MOST, PRIORITY_MOST};
use rm_base::name::Name;
use rm_outside::outside::Outside;
use sqlite::Row;
use sqlite::types::ValueRef;
use std::str;

/// The integer in a cell, or none.
pub fn maybe_int(row: &Row, at: usize) -> Result<Option<i64>, Outside> {
    match row.get_ref(at) {
        Ok(ValueRef::Null) => Ok(None),
        Ok(ValueRef::Int(number)) => Ok(Some(number)),
        Ok(_) => Err(Outside::Failed),
        Err(error) => Err(outside_of(error)),
    }
}

/// The integer in a cell.
pub fn int(row: &Row, at: usize) -> Result<i64, Outside> {
    maybe_int(row, at)?.ok_or(Outside::Failed)
}

/// A number from `least` to `most`.
fn within(number: i64, least: u64, most: u64) -> Result<u64, Outside>
    ensures { IfOk result (λ n. is_between least most n ≡ true) }
{
    match u64::try_from(number) {
        Ok(n) => if least <= n && n <= most {
            Ok(n)
        } else {
            Err(Outside::Failed)
        },
        Err(_) => Err(Outside::Failed),
    }
}

/// The number from `least` to `most` in a cell, or none.
pub fn maybe_between(row: &Row, at: usize, least: u64, most: u64) -> Result<Option<u64>, Outside>
    ensures { IfOk result (λ cell. passes_if_set (is_between least most) cell ≡ true) }
{
    match maybe_int(row, at)? {
        None => Ok(None),
        Some(number) => Ok(Some(within(number, least, most)?)),
    }
}

/// The number from `least` to `most` in a cell.
pub fn between(row: &Row, at: usize, least: u64, most: u64) -> Result<u64, Outside>
    ensures { IfOk result (λ n. is_between least most n ≡ true) }
{
    within(int(row, at)?, least, most)
}

/// The number of queries or threads in a cell, or none.
pub fn maybe_concurrency(row: &Row, at: usize) -> Result<Option<u32>, Outside>
    ensures { IfOk result (λ cell. passes_if_set (is_between 1 CONCURRENCY_MOST) cell ≡ true) }
{
    match maybe_between(row, at, 1, u64::from(CONCURRENCY_MOST))? {
        None => Ok(None),
        Some(number) => Ok(Some(number as u32)),
    }
}

/// The PRIORITY in a cell.
pub fn priority(row: &Row, at: usize) -> Result<i32, Outside>
    ensures { IfOk result (λ n. is_priority n ≡ true) }
{
    match i32::try_from(int(row, at)?) {
        Ok(n) => if -PRIORITY_MOST <= n && n <= PRIORITY_MOST {
            Ok(n)
        } else {
            Err(Outside::Failed)
        },
        Err(_) => Err(Outside::Failed),
    }
}

/// Whether a cell holds a text.
pub fn is_text(row: &Row, at: usize, text: &str) -> bool {
    match row.get_ref(at) {
        Ok(ValueRef::Text(held)) => held == text.as_bytes(),
        _ => false,
    }
}

/// The name that a text spells in lower case.
fn name_in(text: &[u8]) -> Result<Name, Outside> {
    let Ok(text) = str::from_utf8(text) else {
        return Err(Outside::Failed);
    };
    match Name::of(text) {
        Some(name) => if name.as_str() == text {
            Ok(name)
        } else {
            Err(Outside::Failed)
        },
        None => Err(Outside::Failed),
    }
}

/// The name in a cell, or none.
pub fn maybe_name(row: &Row, at: usize) -> Result<Option<Name>, Outside> {
    match row.get_ref(at) {
        Ok(ValueRef::Null) => Ok(None),
        Ok(ValueRef::Text(text)) => match name_in(text) {
            Ok(name) => Ok(Some(name)),
            Err(error) => Err(error),
        },
        Ok(_) => Err(Outside::Failed),
        Err(error) => Err(outside_of(error)),
    }
}

/// The name in a cell.
pub fn name(row: &Row, at: usize) -> Result<Name, Outside> {
    match maybe_name(row, at) {
        Ok(Some(name)) => Ok(name),
        Ok(None) => Err(Outside::Failed),
        Err(error) => Err(error),
    }
}

/// A cell for a number.
pub fn of_number(number: u64) -> ValueRef<'static>
    requires { number < 2 ^ 63 }
{
    ValueRef::Int(number as i64)
}

/// A cell for a number, or for none.
pub fn of_maybe_number(number: Option<u64>) -> ValueRef<'static>
    requires { IfSome number (λ n. n < 2 ^ 63) }
{
    match number {
        Some(number) => of_number(number),
        None => ValueRef::Null,
    }
}

/// A cell for a number of queries or threads, or for none.
pub fn of_maybe_count(count: Option<u32>) -> ValueRef<'static> {
    match count {
        Some(count) => ValueRef::Int(i64::from(count)),
        None => ValueRef::Null,
    }
}

/// A cell for a name.
pub fn of_name(name: &Name) -> ValueRef<'_> {
    ValueRef::Text(name.as_str().as_bytes())
}

/// A cell for a name, or for none.
pub fn of_maybe_name(name: &Option<Name>) -> ValueRef<'_> {
    match name {
        Some(name) => of_name(name),
        None => ValueRef::Null,
    }
}
