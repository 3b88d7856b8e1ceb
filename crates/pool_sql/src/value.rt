ghost use Rattle.std.specs.Prelude.{◌≡◌};
ghost use Rattle.rm_words.specs.Token.{token_told};
ghost use Rattle.pool_sql.specs.Value.{defaults, is_auto, is_default, is_none, level_of, memory_size_of, negative_of, optional_name, optional_size, parallelism_of, priority_of, queue_timeout_of, runtime_cap_of, stop_of, threshold_of, value_of};

use crate::amount::{number_between, size_of, span_of, timeout_of};
use crate::setting::Setting;
use crate::stop::{Fault, Stop};
use rm_base::definitions::default_pool_row;
use rm_base::limits::{CONCURRENCY_MOST, PRIORITY_MOST, THRESHOLD_SECONDS_MOST};
use rm_base::name::Name;
use rm_base::refusal::Parameter;
use rm_base::rows::PoolRow;
use rm_base::statement::{Level, Size};
use rm_words::token::Token;

fn is_default(token: &Token) -> bool
    ensures { result ≡ is_default (token_told token.now) }
{
    token.is_key(b"DEFAULT")
}

/// NONE, or DEFAULT where that is NONE.
fn is_none(token: &Token) -> bool
    ensures { result ≡ is_none (token_told token.now) }
{
    token.is_key(b"NONE") || is_default(token)
}

/// AUTO, or DEFAULT where that is AUTO.
fn is_auto(token: &Token) -> bool
    ensures { result ≡ is_auto (token_told token.now) }
{
    token.is_key(b"AUTO") || is_default(token)
}

/// What a pool's parameters are by default.
fn defaults() -> PoolRow
    ensures { result ≡ defaults }
{
    default_pool_row(Name::general())
}

fn stop_of(parameter: Parameter, fault: Fault) -> Stop
    ensures { result ≡ stop_of parameter fault }
{
    match fault {
        Fault::Form => Stop::Syntax,
        Fault::Outside => Stop::Range(parameter),
    }
}

fn memory_size_of(token: &Token) -> Result<Size, Stop>
    ensures { result ≡ memory_size_of (token_told token.now) }
{
    if is_default(token) {
        return Ok(Size::Percent(0));
    }
    match size_of(token) {
        Ok(size) => Ok(size),
        Err(fault) => Err(stop_of(Parameter::MemorySize, fault)),
    }
}

fn optional_size(parameter: Parameter, token: &Token) -> Result<Option<Size>, Stop>
    ensures { result ≡ optional_size parameter (token_told token.now) }
{
    if is_none(token) {
        return Ok(None);
    }
    match size_of(token) {
        Ok(size) => Ok(Some(size)),
        Err(fault) => Err(stop_of(parameter, fault)),
    }
}

/// From 1 to the greatest, or `None` where the token says so.
fn parallelism_of(parameter: Parameter, none: bool, token: &Token) -> Result<Option<u32>, Stop>
    ensures { result ≡ parallelism_of parameter none (token_told token.now) }
{
    if none {
        return Ok(None);
    }
    match number_between(1, u64::from(CONCURRENCY_MOST), token) {
        Ok(number) => Ok(Some(number as u32)),
        Err(fault) => Err(stop_of(parameter, fault)),
    }
}

fn priority_of(token: &Token) -> Result<i32, Stop>
    ensures { result ≡ priority_of (token_told token.now) }
{
    if token.is_key(b"HOLD") {
        return Err(Stop::NotSupported);
    }
    if is_default(token) {
        return Ok(defaults().priority);
    }
    match number_between(0, PRIORITY_MOST as u64, token) {
        Ok(number) => Ok(number as i32),
        Err(fault) => Err(stop_of(Parameter::Priority, fault)),
    }
}

/// A priority whose word stands behind a `-`.
pub fn negative_of(token: &Token) -> Result<i32, Stop>
    ensures { result ≡ negative_of (token_told token.now) }
{
    match number_between(0, PRIORITY_MOST as u64, token) {
        Ok(number) => Ok(-(number as i32)),
        Err(fault) => Err(stop_of(Parameter::Priority, fault)),
    }
}

fn level_of(token: &Token) -> Result<Level, Stop>
    ensures { result ≡ level_of (token_told token.now) }
{
    if token.is_key(b"HIGH") {
        Ok(Level::High)
    } else if token.is_key(b"MEDIUM") {
        Ok(Level::Medium)
    } else if token.is_key(b"LOW") {
        Ok(Level::Low)
    } else if is_default(token) {
        Ok(defaults().runtime_priority)
    } else {
        Err(Stop::Syntax)
    }
}

fn threshold_of(token: &Token) -> Result<u32, Stop>
    ensures { result ≡ threshold_of (token_told token.now) }
{
    if is_default(token) {
        return Ok(defaults().threshold_s);
    }
    match number_between(0, u64::from(THRESHOLD_SECONDS_MOST), token) {
        Ok(number) => Ok(number as u32),
        Err(fault) => Err(stop_of(Parameter::RuntimePriorityThreshold, fault)),
    }
}

fn queue_timeout_of(token: &Token) -> Result<Option<u64>, Stop>
    ensures { result ≡ queue_timeout_of (token_told token.now) }
{
    if is_default(token) {
        return Ok(defaults().queue_ms);
    }
    if token.is_key(b"NONE") {
        return Ok(None);
    }
    match timeout_of(token) {
        Ok(number) => Ok(Some(number)),
        Err(fault) => Err(stop_of(Parameter::QueueTimeout, fault)),
    }
}

fn runtime_cap_of(token: &Token) -> Result<Option<u64>, Stop>
    ensures { result ≡ runtime_cap_of (token_told token.now) }
{
    if is_none(token) {
        return Ok(None);
    }
    match span_of(1, token) {
        Ok(number) => Ok(Some(number)),
        Err(fault) => Err(stop_of(Parameter::RuntimeCap, fault)),
    }
}

/// A name, or `None` for NONE or DEFAULT.
pub fn optional_name(token: &Token) -> Result<Option<Name>, Stop>
    ensures { result ≡ optional_name (token_told token.now) }
{
    if is_none(token) {
        return Ok(None);
    }
    match token.name() {
        Some(name) => Ok(Some(name)),
        None => Err(Stop::Syntax),
    }
}

/// What the parameter is set to by a value of one word.
pub fn value_of(parameter: Parameter, token: &Token) -> Result<Setting, Stop>
    ensures { result ≡ value_of parameter (token_told token.now) }
{
    match parameter {
        Parameter::MemorySize => memory_size_of(token).map(Setting::MemorySize),
        Parameter::MaxMemorySize => optional_size(parameter, token).map(Setting::MaxMemorySize),
        Parameter::MaxQueryMemorySize => {
            optional_size(parameter, token).map(Setting::MaxQueryMemorySize)
        }
        Parameter::ExecutionParallelism => parallelism_of(parameter, is_auto(token), token).map(
            Setting::ExecutionParallelism,
        ),
        Parameter::Priority => priority_of(token).map(Setting::Priority),
        Parameter::RuntimePriority => level_of(token).map(Setting::RuntimePriority),
        Parameter::RuntimePriorityThreshold => {
            threshold_of(token).map(Setting::RuntimePriorityThreshold)
        }
        Parameter::QueueTimeout => queue_timeout_of(token).map(Setting::QueueTimeout),
        Parameter::PlannedConcurrency => parallelism_of(parameter, is_auto(token), token).map(
            Setting::PlannedConcurrency,
        ),
        Parameter::MaxConcurrency => {
            parallelism_of(parameter, is_none(token), token).map(Setting::MaxConcurrency)
        }
        Parameter::RuntimeCap => runtime_cap_of(token).map(Setting::RuntimeCap),
        Parameter::Cascade => optional_name(token).map(Setting::Cascade),
        Parameter::ResourcePool => optional_name(token).map(Setting::ResourcePool),
        Parameter::MemoryCap => optional_size(parameter, token).map(Setting::MemoryCap),
    }
}
