//! The numbers of the generator, and the rows of the two tables.

ghost use Rattle.std.specs.Prelude.{◌≡◌, IfOk};
ghost use Rattle.workload.specs.Generator.{drawn, number_row};

use rm_base::row::Row;
use rm_base::value::Value;
use std::alloc::{AllocError, Global};

/// What a number of the generator is multiplied by to give the next one.
pub const MULTIPLIER: u64 = 6_364_136_223_846_793_005;

/// What is added then.
pub const INCREMENT: u64 = 1_442_695_040_888_963_407;

/// By how many bits a number of the generator is shifted down to give a value of v.
pub const SHIFT: u32 = 33;

/// How many keys there are.
pub const KEYS: u32 = 100;

/// How many rows table a has for one of table b.
pub const ROWS_OF_A_TO_B: u32 = 10;

/// The number of the generator behind this one.
pub fn drawn(x: u64) -> u64
    ensures { result ≡ drawn x }
{
    x.wrapping_mul(MULTIPLIER).wrapping_add(INCREMENT)
}

/// A row of two numbers.
pub fn number_row(alloc: Global, first: u32, second: u32) -> Result<Row, AllocError>
    ensures { IfOk result (λ row. row ≡ number_row first second) }
{
    let mut values = Vec::with_capacity(alloc, 2)?;
    values.push(Value::Int(i64::from(first)))?;
    values.push(Value::Int(i64::from(second)))?;
    Ok(Row::of(values))
}
