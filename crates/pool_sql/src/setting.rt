ghost use Rattle.std.specs.Prelude.{◌≡◌};
ghost use Rattle.rm_base.specs.WellFormed.{is_named, is_named_pool, is_named_user};
ghost use Rattle.pool_sql.specs.Setting.{no_pool_change, no_user_change, set, set_pool, set_user};

use rm_base::name::Name;
use rm_base::refusal::Parameter;
use rm_base::statement::{Level, PoolChange, Size, Statement, UserChange};

/// What a statement says of one parameter, with an inner `None` for NONE or AUTO.
#[derive(Clone, Copy)]
pub enum Setting {
    MemorySize(Size),
    MaxMemorySize(Option<Size>),
    MaxQueryMemorySize(Option<Size>),
    ExecutionParallelism(Option<u32>),
    Priority(i32),
    RuntimePriority(Level),
    RuntimePriorityThreshold(u32),
    QueueTimeout(Option<u64>),
    PlannedConcurrency(Option<u32>),
    MaxConcurrency(Option<u32>),
    RuntimeCap(Option<u64>),
    Cascade(Option<Name>),
    ResourcePool(Option<Name>),
    MemoryCap(Option<Size>),
}

/// The change that names no parameter of a pool.
pub fn no_pool_change() -> PoolChange
    ensures { result ≡ no_pool_change }
{
    PoolChange {
        memory: None,
        max: None,
        query_max: None,
        parallel: None,
        priority: None,
        runtime_priority: None,
        threshold_s: None,
        queue_ms: None,
        planned: None,
        concurrency: None,
        cap_ms: None,
        cascade: None,
    }
}

/// The change that names no parameter of a user.
pub fn no_user_change() -> UserChange
    ensures { result ≡ no_user_change }
{
    UserChange {
        pool: None,
        memory_cap: None,
        cap_ms: None,
    }
}

fn set_pool(change: PoolChange, setting: Setting) -> PoolChange
    ensures { result ≡ set_pool change setting }
{
    let mut change = change;
    match setting {
        Setting::MemorySize(size) => change.memory = Some(size),
        Setting::MaxMemorySize(size) => change.max = Some(size),
        Setting::MaxQueryMemorySize(size) => change.query_max = Some(size),
        Setting::ExecutionParallelism(number) => change.parallel = Some(number),
        Setting::Priority(number) => change.priority = Some(number),
        Setting::RuntimePriority(level) => change.runtime_priority = Some(level),
        Setting::RuntimePriorityThreshold(number) => change.threshold_s = Some(number),
        Setting::QueueTimeout(number) => change.queue_ms = Some(number),
        Setting::PlannedConcurrency(number) => change.planned = Some(number),
        Setting::MaxConcurrency(number) => change.concurrency = Some(number),
        Setting::RuntimeCap(number) => change.cap_ms = Some(number),
        Setting::Cascade(name) => change.cascade = Some(name),
        Setting::ResourcePool(_) | Setting::MemoryCap(_) => {}
    }
    change
}

fn set_user(change: UserChange, setting: Setting) -> UserChange
    ensures { result ≡ set_user change setting }
{
    match setting {
        Setting::ResourcePool(name) => UserChange {
            pool: Some(name),
            ..change
        },
        Setting::MemoryCap(size) => UserChange {
            memory_cap: Some(size),
            ..change
        },
        Setting::RuntimeCap(number) => UserChange {
            cap_ms: Some(number),
            ..change
        },
        Setting::MemorySize(_)
        | Setting::MaxMemorySize(_)
        | Setting::MaxQueryMemorySize(_)
        | Setting::ExecutionParallelism(_)
        | Setting::Priority(_)
        | Setting::RuntimePriority(_)
        | Setting::RuntimePriorityThreshold(_)
        | Setting::QueueTimeout(_)
        | Setting::PlannedConcurrency(_)
        | Setting::MaxConcurrency(_)
        | Setting::Cascade(_) => change,
    }
}

/// The statement with one more parameter named.
pub fn set(statement: Statement, setting: Setting) -> Statement
    ensures { result ≡ set statement setting }
{
    match statement {
        Statement::CreatePool(name, change) => Statement::CreatePool(
            name,
            set_pool(change, setting),
        ),
        Statement::AlterPool(name, change) => Statement::AlterPool(name, set_pool(change, setting)),
        Statement::CreateUser(name, change) => Statement::CreateUser(
            name,
            set_user(change, setting),
        ),
        Statement::AlterUser(name, change) => Statement::AlterUser(name, set_user(change, setting)),
        Statement::DropPool(_)
        | Statement::DropUser(_)
        | Statement::CreateRole(_)
        | Statement::AlterRole(..)
        | Statement::DropRole(_)
        | Statement::GrantUsage(..)
        | Statement::RevokeUsage(..)
        | Statement::GrantRole(..)
        | Statement::RevokeRole(..) => statement,
    }
}

fn is_named_pool(parameter: Parameter, change: &PoolChange) -> bool
    ensures { result ≡ is_named_pool parameter change.now }
{
    match parameter {
        Parameter::MemorySize => change.memory.is_some(),
        Parameter::MaxMemorySize => change.max.is_some(),
        Parameter::MaxQueryMemorySize => change.query_max.is_some(),
        Parameter::ExecutionParallelism => change.parallel.is_some(),
        Parameter::Priority => change.priority.is_some(),
        Parameter::RuntimePriority => change.runtime_priority.is_some(),
        Parameter::RuntimePriorityThreshold => change.threshold_s.is_some(),
        Parameter::QueueTimeout => change.queue_ms.is_some(),
        Parameter::PlannedConcurrency => change.planned.is_some(),
        Parameter::MaxConcurrency => change.concurrency.is_some(),
        Parameter::RuntimeCap => change.cap_ms.is_some(),
        Parameter::Cascade => change.cascade.is_some(),
        Parameter::ResourcePool | Parameter::MemoryCap => false,
    }
}

fn is_named_user(parameter: Parameter, change: &UserChange) -> bool
    ensures { result ≡ is_named_user parameter change.now }
{
    match parameter {
        Parameter::ResourcePool => change.pool.is_some(),
        Parameter::MemoryCap => change.memory_cap.is_some(),
        Parameter::RuntimeCap => change.cap_ms.is_some(),
        Parameter::MemorySize
        | Parameter::MaxMemorySize
        | Parameter::MaxQueryMemorySize
        | Parameter::ExecutionParallelism
        | Parameter::Priority
        | Parameter::RuntimePriority
        | Parameter::RuntimePriorityThreshold
        | Parameter::QueueTimeout
        | Parameter::PlannedConcurrency
        | Parameter::MaxConcurrency
        | Parameter::Cascade => false,
    }
}

/// Whether the statement names the parameter.
pub fn is_named(parameter: Parameter, statement: &Statement) -> bool
    ensures { result ≡ is_named parameter statement.now }
{
    match statement {
        Statement::CreatePool(_, change) | Statement::AlterPool(_, change) => {
            is_named_pool(parameter, change)
        }
        Statement::CreateUser(_, change) | Statement::AlterUser(_, change) => {
            is_named_user(parameter, change)
        }
        Statement::DropPool(_)
        | Statement::DropUser(_)
        | Statement::CreateRole(_)
        | Statement::AlterRole(..)
        | Statement::DropRole(_)
        | Statement::GrantUsage(..)
        | Statement::RevokeUsage(..)
        | Statement::GrantRole(..)
        | Statement::RevokeRole(..) => false,
    }
}
