ghost use Rattle.std.specs.Prelude.{◌≡◌};
ghost use Rattle.pool_sql.specs.Printed.{level_text, priority_value, value_in, value_or};

use crate::setting::Setting;
use rm_base::limits::KIBI;
use rm_base::name::Name;
use rm_base::statement::{Level, Size};
use std::fmt;

/// How a value is printed. Sizes are printed in KiB or percent, spans in milliseconds.
#[derive(Clone, Copy)]
pub enum Value {
    /// NONE
    Absent,
    /// AUTO
    Auto,
    OfSize(Size),
    Number(u64),
    /// A number behind a `-`.
    Negative(u64),
    Span(u64),
    OfLevel(Level),
    OfName(Name),
}

impl fmt::Display for Value {
    ghost use Rattle.std.specs.Prelude.{Some};
    ghost use Rattle.pool_sql.specs.Printed.{value_text};

    ghost output = { λ value. Some (value_text value) };

    fn fmt<W: fmt::Write>(&self, f: &mut fmt::Formatter<W>) -> fmt::Result {
        match self {
            Value::Absent => f.write_str("NONE"),
            Value::Auto => f.write_str("AUTO"),
            Value::OfSize(Size::Bytes(number)) => write!(f, "'{}K'", *number / KIBI),
            Value::OfSize(Size::Percent(number)) => write!(f, "'{number}%'"),
            Value::Number(number) => write!(f, "{number}"),
            Value::Negative(number) => write!(f, "- {number}"),
            Value::Span(number) => write!(f, "'{number} ms'"),
            Value::OfLevel(level) => f.write_str(level_text(*level)),
            Value::OfName(name) => write!(f, "{name}"),
        }
    }
}

fn level_text(level: Level) -> &'static str
    ensures { result.now ≡ level_text level }
{
    match level {
        Level::Low => "LOW",
        Level::Medium => "MEDIUM",
        Level::High => "HIGH",
    }
}

fn size_or_none(size: Option<Size>) -> Value
    ensures { result ≡ value_or Value.Absent (λ x. Value.OfSize x) size }
{
    match size {
        None => Value::Absent,
        Some(size) => Value::OfSize(size),
    }
}

fn span_or_none(span: Option<u64>) -> Value
    ensures { result ≡ value_or Value.Absent (λ x. Value.Span x) span }
{
    match span {
        None => Value::Absent,
        Some(span) => Value::Span(span),
    }
}

pub fn name_or_none(name: Option<Name>) -> Value
    ensures { result ≡ value_or Value.Absent (λ x. Value.OfName x) name }
{
    match name {
        None => Value::Absent,
        Some(name) => Value::OfName(name),
    }
}

fn number_or(none: Value, number: Option<u32>) -> Value
    ensures { result ≡ value_or none (λ x. Value.Number x) number }
{
    match number {
        None => none,
        Some(number) => Value::Number(u64::from(number)),
    }
}

fn priority_value(priority: i32) -> Value
    ensures { result ≡ priority_value priority }
{
    let number = u64::from(priority.unsigned_abs());
    if priority < 0 {
        Value::Negative(number)
    } else {
        Value::Number(number)
    }
}

/// How a setting's value is printed.
pub fn value_in(setting: Setting) -> Value
    ensures { result ≡ value_in setting }
{
    match setting {
        Setting::MemorySize(size) => Value::OfSize(size),
        Setting::MaxMemorySize(size) => size_or_none(size),
        Setting::MaxQueryMemorySize(size) => size_or_none(size),
        Setting::ExecutionParallelism(number) => number_or(Value::Auto, number),
        Setting::Priority(priority) => priority_value(priority),
        Setting::RuntimePriority(level) => Value::OfLevel(level),
        Setting::RuntimePriorityThreshold(number) => Value::Number(u64::from(number)),
        Setting::QueueTimeout(span) => span_or_none(span),
        Setting::PlannedConcurrency(number) => number_or(Value::Auto, number),
        Setting::MaxConcurrency(number) => number_or(Value::Absent, number),
        Setting::RuntimeCap(span) => span_or_none(span),
        Setting::Cascade(name) => name_or_none(name),
        Setting::ResourcePool(name) => name_or_none(name),
        Setting::MemoryCap(size) => size_or_none(size),
    }
}
