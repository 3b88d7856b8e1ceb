ghost use Rattle.std.specs.Prelude.{◌≡◌, ◌++◌, IfOk, OnOk, option_map};
ghost use Rattle.std.specs.String.{string_bytes};
ghost use Rattle.rm_base.specs.WellFormed.{IsWellFormed};
ghost use Rattle.pool_sql.specs.Printed.{keys_text, parameter_named, pool_settings, setting_text, settings_text, statement_text, user_settings};
ghost use Rattle.pool_sql.specs.Text.{SpellsText};

use crate::setting::Setting;
use crate::shown::{name_or_none, value_in};
use rm_base::name::Name;
use rm_base::refusal::Parameter;
use rm_base::statement::{PoolChange, Statement, UserChange};
use std::alloc::{AllocError, Global};

fn parameter_named(setting: Setting) -> Parameter
    ensures { result ≡ parameter_named setting }
{
    match setting {
        Setting::MemorySize(_) => Parameter::MemorySize,
        Setting::MaxMemorySize(_) => Parameter::MaxMemorySize,
        Setting::MaxQueryMemorySize(_) => Parameter::MaxQueryMemorySize,
        Setting::ExecutionParallelism(_) => Parameter::ExecutionParallelism,
        Setting::Priority(_) => Parameter::Priority,
        Setting::RuntimePriority(_) => Parameter::RuntimePriority,
        Setting::RuntimePriorityThreshold(_) => Parameter::RuntimePriorityThreshold,
        Setting::QueueTimeout(_) => Parameter::QueueTimeout,
        Setting::PlannedConcurrency(_) => Parameter::PlannedConcurrency,
        Setting::MaxConcurrency(_) => Parameter::MaxConcurrency,
        Setting::RuntimeCap(_) => Parameter::RuntimeCap,
        Setting::Cascade(_) => Parameter::Cascade,
        Setting::ResourcePool(_) => Parameter::ResourcePool,
        Setting::MemoryCap(_) => Parameter::MemoryCap,
    }
}

/// The key words of a parameter.
fn keys_text(parameter: Parameter) -> &'static str
    ensures { result.now ≡ keys_text parameter }
{
    match parameter {
        Parameter::Cascade => "CASCADE TO",
        Parameter::ResourcePool => "RESOURCE POOL",
        _ => parameter.text(),
    }
}

fn push_setting(alloc: Global, text: &mut String, setting: Setting) -> Result<(), AllocError>
    ensures { OnOk result (string_bytes text.new ≡ string_bytes text.old ++ setting_text setting) }
{
    let keys = keys_text(parameter_named(setting));
    let value = value_in(setting);
    text.push_str(format!(in alloc; " {keys} {value}")?.as_str())
}

fn push_settings(
    alloc: Global,
    text: &mut String,
    settings: &[Option<Setting>],
) -> Result<(), AllocError>
    ensures { OnOk result (string_bytes text.new ≡ string_bytes text.old ++ settings_text settings.now) }
{
    for setting in settings {
        if let Some(setting) = setting {
            push_setting(alloc, text, *setting)?;
        }
    }
    Ok(())
}

/// What a change names, in the order in which it is printed.
fn pool_settings(change: &PoolChange) -> [Option<Setting>; 12]
    ensures { result ≡ pool_settings change.now }
{
    [
        change.memory.map(Setting::MemorySize),
        change.max.map(Setting::MaxMemorySize),
        change.query_max.map(Setting::MaxQueryMemorySize),
        change.parallel.map(Setting::ExecutionParallelism),
        change.priority.map(Setting::Priority),
        change.runtime_priority.map(Setting::RuntimePriority),
        change.threshold_s.map(Setting::RuntimePriorityThreshold),
        change.queue_ms.map(Setting::QueueTimeout),
        change.planned.map(Setting::PlannedConcurrency),
        change.concurrency.map(Setting::MaxConcurrency),
        change.cap_ms.map(Setting::RuntimeCap),
        change.cascade.map(Setting::Cascade),
    ]
}

fn user_settings(change: &UserChange) -> [Option<Setting>; 3]
    ensures { result ≡ user_settings change.now }
{
    [
        change.pool.map(Setting::ResourcePool),
        change.memory_cap.map(Setting::MemoryCap),
        change.cap_ms.map(Setting::RuntimeCap),
    ]
}

/// The text, and behind it what is set.
fn with_settings(
    alloc: Global,
    text: String,
    settings: &[Option<Setting>],
) -> Result<String, AllocError>
    ensures { IfOk result (λ whole. string_bytes whole ≡ string_bytes text ++ settings_text settings.now) }
{
    let mut text = text;
    push_settings(alloc, &mut text, settings)?;
    Ok(text)
}

fn with_pool(alloc: Global, text: String, change: &PoolChange) -> Result<String, AllocError>
    ensures { IfOk result (λ whole. string_bytes whole ≡ string_bytes text ++ settings_text (pool_settings change.now)) }
{
    with_settings(alloc, text, &pool_settings(change))
}

fn with_user(alloc: Global, text: String, change: &UserChange) -> Result<String, AllocError>
    ensures { IfOk result (λ whole. string_bytes whole ≡ string_bytes text ++ settings_text (user_settings change.now)) }
{
    with_settings(alloc, text, &user_settings(change))
}

fn role_text(alloc: Global, name: Name, pool: Option<Name>) -> Result<String, AllocError>
    ensures { IfOk result (λ text. string_bytes text ≡ statement_text (Statement.AlterRole name pool)) }
{
    let pool = name_or_none(pool);
    format!(in alloc; "ALTER ROLE {name} RESOURCE POOL {pool}")
}

fn statement_text(alloc: Global, statement: &Statement) -> Result<String, AllocError>
    ensures { IfOk result (λ text. string_bytes text ≡ statement_text statement.now) }
{
    match statement {
        Statement::CreatePool(name, change) => {
            let text = format!(in alloc; "CREATE RESOURCE POOL {name}")?;
            with_pool(alloc, text, change)
        }
        Statement::AlterPool(name, change) => {
            let text = format!(in alloc; "ALTER RESOURCE POOL {name}")?;
            with_pool(alloc, text, change)
        }
        Statement::DropPool(name) => format!(in alloc; "DROP RESOURCE POOL {name}"),
        Statement::CreateUser(name, change) => {
            let text = format!(in alloc; "CREATE USER {name}")?;
            with_user(alloc, text, change)
        }
        Statement::AlterUser(name, change) => {
            let text = format!(in alloc; "ALTER USER {name}")?;
            with_user(alloc, text, change)
        }
        Statement::DropUser(name) => format!(in alloc; "DROP USER {name}"),
        Statement::CreateRole(name) => format!(in alloc; "CREATE ROLE {name}"),
        Statement::AlterRole(name, pool) => role_text(alloc, *name, *pool),
        Statement::DropRole(name) => format!(in alloc; "DROP ROLE {name}"),
        Statement::GrantUsage(pool, name) => {
            format!(in alloc; "GRANT USAGE ON RESOURCE POOL {pool} TO {name}")
        }
        Statement::RevokeUsage(pool, name) => {
            format!(in alloc; "REVOKE USAGE ON RESOURCE POOL {pool} FROM {name}")
        }
        Statement::GrantRole(role, user) => format!(in alloc; "GRANT {role} TO {user}"),
        Statement::RevokeRole(role, user) => format!(in alloc; "REVOKE {role} FROM {user}"),
    }
}

/// The canonical text of a statement, which is read as that statement and no other.
pub fn print_statement(alloc: Global, statement: &Statement) -> Result<String, AllocError>
    requires { IsWellFormed statement.now }
    ensures text { IfOk result (λ text. string_bytes text ≡ statement_text statement.now) }
    ensures spells { IfOk result (λ text. SpellsText (string_bytes text) statement.now) }
{
    statement_text(alloc, statement)
}
