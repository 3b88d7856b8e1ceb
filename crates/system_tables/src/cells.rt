//! The cells of system tables, and the values that they become.
ghost use Rattle.std.specs.Prelude.{◌≡◌, map, IfOk};
ghost use Rattle.system_tables.specs.Cells.{number, name, number_if_set, name_if_set, level_text, condition_text, cell_value};

use rm_base::name::Name;
use rm_base::row::Row;
use rm_base::snapshot::Condition;
use rm_base::statement::Level;
use rm_base::text::Text;
use rm_base::value::Value;
use std::alloc::{AllocError, Global};

/// What a cell of a row shows.
#[derive(Clone, Copy)]
pub enum Cell {
    Number(u64),
    NumberIfSet(Option<u64>),
    Priority(i32),
    Name(Name),
    NameIfSet(Option<Name>),
    Level(Level),
    Condition(Condition),
}

fn level_text(level: Level) -> &'static str
    ensures { result.now ≡ level_text level }
{
    match level {
        Level::Low => "low",
        Level::Medium => "medium",
        Level::High => "high",
    }
}

fn condition_text(condition: Condition) -> &'static str
    ensures { result.now ≡ condition_text condition }
{
    match condition {
        Condition::Idle => "idle",
        Condition::Waiting => "waiting",
        Condition::Running => "running",
        Condition::Ended => "ended",
    }
}

fn number(alloc: Global, n: u64) -> Result<Value, AllocError>
    ensures { IfOk result (λ value. value ≡ number n) }
{
    if n < 1 << 63 {
        return Ok(Value::Int(n as i64));
    }
    Ok(Value::Words(Text::of(format!(in alloc; "{n}")?)))
}

fn words(alloc: Global, text: &str) -> Result<Value, AllocError>
    ensures { IfOk result (λ value. value ≡ Value.Words text.now) }
{
    Ok(Value::Words(Text::of(String::from_str(alloc, text)?)))
}

fn cell_value(alloc: Global, cell: Cell) -> Result<Value, AllocError>
    ensures { IfOk result (λ value. value ≡ cell_value cell) }
{
    match cell {
        Cell::Number(n) => number(alloc, n),
        Cell::NumberIfSet(None) => Ok(Value::Null),
        Cell::NumberIfSet(Some(n)) => number(alloc, n),
        Cell::Priority(n) => Ok(Value::Int(i64::from(n))),
        Cell::Name(name) => words(alloc, name.as_str()),
        Cell::NameIfSet(None) => Ok(Value::Null),
        Cell::NameIfSet(Some(name)) => words(alloc, name.as_str()),
        Cell::Level(level) => words(alloc, level_text(level)),
        Cell::Condition(condition) => words(alloc, condition_text(condition)),
    }
}

/// The row of these cells.
pub fn row_of(alloc: Global, cells: &[Cell]) -> Result<Row, AllocError>
    ensures { IfOk result (λ row. row ≡ map cell_value cells.now) }
{
    let mut values = Vec::with_capacity(alloc, cells.len())?;
    for cell in cells {
        values.push_reserved(cell_value(alloc, *cell)?);
    }
    Ok(Row::of(values))
}
