use crate::name::Name;
use crate::refusal_value::{RefusalValue, RefusalValues};
use std::fmt;

/// Whose cap on a query's memory is the least.
#[derive(Clone, Copy, Debug, PartialEq, Eq)]
pub enum CapKind {
    Pool,
    Query,
    User,
}

/// A parameter of a statement.
#[derive(Clone, Copy, Debug, PartialEq, Eq)]
pub enum Parameter {
    MemorySize,
    MaxMemorySize,
    MaxQueryMemorySize,
    ExecutionParallelism,
    Priority,
    RuntimePriority,
    RuntimePriorityThreshold,
    QueueTimeout,
    PlannedConcurrency,
    MaxConcurrency,
    RuntimeCap,
    Cascade,
    ResourcePool,
    MemoryCap,
}

/// A table of the definitions, or the count of accepted statements.
#[derive(Clone, Copy, Debug, PartialEq, Eq)]
pub enum TableKind {
    Pools,
    Users,
    Roles,
    Grants,
    Changes,
}

/// Why a statement, a query or an event is refused. Places are byte offsets from 0.
#[derive(Clone, Copy, Debug, PartialEq, Eq)]
pub enum Refusal {
    Syntax(u64),
    UnknownParameter(u64),
    Repeated(Parameter),
    NotSupported(u64),
    Range(Parameter),
    NameTaken,
    NoSuchPool(Name),
    NoSuchUser(Name),
    NoSuchRole(Name),
    BuiltIn,
    MaxBelowMemory(u64, u64),
    GeneralTooSmall(u64, u64),
    NoSuchTarget(Name),
    CascadeLoop(Name),
    ChainTooLong(u32),
    Dependents(Name),
    TableFull(TableKind, u32),
    NotGranted(Name),
    TooLarge(CapKind, u64, u64),
    NoSuchSession,
    SessionBusy,
    NotLive,
    NoUsage(Name),
    SessionsFull(u32),
    JournalFull(u32),
    NoSuchTable(Name),
    NoSuchColumn(Name),
    Ambiguous(Name),
    TypeClash(u64),
    NotGrouped(u64),
    TooManyTables(u32),
}

impl fmt::Display for CapKind {
    ghost use Rattle.std.specs.Prelude.{Some};
    ghost use Rattle.rm_base.specs.RefusalText.{cap_kind_text};

    ghost output = { λ kind. Some (cap_kind_text kind) };

    fn fmt<W: fmt::Write>(&self, f: &mut fmt::Formatter<W>) -> fmt::Result {
        f.write_str(match self {
            CapKind::Pool => "pool",
            CapKind::Query => "query",
            CapKind::User => "user",
        })
    }
}

impl Parameter {
    ghost use Rattle.std.specs.Prelude.{◌≡◌};
    ghost use Rattle.rm_base.specs.RefusalText.{parameter_text};

    /// The key word, in capitals.
    pub fn text(self) -> &'static str
        ensures { result.now ≡ parameter_text self }
    {
        match self {
            Parameter::MemorySize => "MEMORYSIZE",
            Parameter::MaxMemorySize => "MAXMEMORYSIZE",
            Parameter::MaxQueryMemorySize => "MAXQUERYMEMORYSIZE",
            Parameter::ExecutionParallelism => "EXECUTIONPARALLELISM",
            Parameter::Priority => "PRIORITY",
            Parameter::RuntimePriority => "RUNTIMEPRIORITY",
            Parameter::RuntimePriorityThreshold => "RUNTIMEPRIORITYTHRESHOLD",
            Parameter::QueueTimeout => "QUEUETIMEOUT",
            Parameter::PlannedConcurrency => "PLANNEDCONCURRENCY",
            Parameter::MaxConcurrency => "MAXCONCURRENCY",
            Parameter::RuntimeCap => "RUNTIMECAP",
            Parameter::Cascade => "CASCADE",
            Parameter::ResourcePool => "RESOURCE",
            Parameter::MemoryCap => "MEMORYCAP",
        }
    }
}

impl fmt::Display for Parameter {
    ghost use Rattle.std.specs.Prelude.{Some};
    ghost use Rattle.rm_base.specs.RefusalText.{parameter_text};

    ghost output = { λ named. Some (parameter_text named) };

    fn fmt<W: fmt::Write>(&self, f: &mut fmt::Formatter<W>) -> fmt::Result {
        f.write_str(self.text())
    }
}

impl fmt::Display for TableKind {
    ghost use Rattle.std.specs.Prelude.{Some};
    ghost use Rattle.rm_base.specs.RefusalText.{table_kind_text};

    ghost output = { λ kind. Some (table_kind_text kind) };

    fn fmt<W: fmt::Write>(&self, f: &mut fmt::Formatter<W>) -> fmt::Result {
        f.write_str(match self {
            TableKind::Pools => "pools",
            TableKind::Users => "users",
            TableKind::Roles => "roles",
            TableKind::Grants => "grants",
            TableKind::Changes => "changes",
        })
    }
}

impl Refusal {
    ghost use Rattle.std.specs.Prelude.{◌≡◌};
    ghost use Rattle.rm_base.specs.RefusalText.{refusal_number, refusal_values};

    /// From 1 on in the order of the variants.
    pub fn number(&self) -> u32
        ensures { result ≡ refusal_number self.now }
    {
        match self {
            Refusal::Syntax(_) => 1,
            Refusal::UnknownParameter(_) => 2,
            Refusal::Repeated(_) => 3,
            Refusal::NotSupported(_) => 4,
            Refusal::Range(_) => 5,
            Refusal::NameTaken => 6,
            Refusal::NoSuchPool(_) => 7,
            Refusal::NoSuchUser(_) => 8,
            Refusal::NoSuchRole(_) => 9,
            Refusal::BuiltIn => 10,
            Refusal::MaxBelowMemory(..) => 11,
            Refusal::GeneralTooSmall(..) => 12,
            Refusal::NoSuchTarget(_) => 13,
            Refusal::CascadeLoop(_) => 14,
            Refusal::ChainTooLong(_) => 15,
            Refusal::Dependents(_) => 16,
            Refusal::TableFull(..) => 17,
            Refusal::NotGranted(_) => 18,
            Refusal::TooLarge(..) => 19,
            Refusal::NoSuchSession => 20,
            Refusal::SessionBusy => 21,
            Refusal::NotLive => 22,
            Refusal::NoUsage(_) => 23,
            Refusal::SessionsFull(_) => 24,
            Refusal::JournalFull(_) => 25,
            Refusal::NoSuchTable(_) => 26,
            Refusal::NoSuchColumn(_) => 27,
            Refusal::Ambiguous(_) => 28,
            Refusal::TypeClash(_) => 29,
            Refusal::NotGrouped(_) => 30,
            Refusal::TooManyTables(_) => 31,
        }
    }

    /// What it was refused for, in the order of the text.
    pub fn values(&self) -> RefusalValues
        ensures { result ≡ refusal_values self.now }
    {
        use RefusalValue::{Cap, Name, Number, Parameter, Table};
        match *self {
            Refusal::Syntax(place) => RefusalValues::one(Number(place)),
            Refusal::UnknownParameter(place) => RefusalValues::one(Number(place)),
            Refusal::Repeated(named) => RefusalValues::one(Parameter(named)),
            Refusal::NotSupported(place) => RefusalValues::one(Number(place)),
            Refusal::Range(named) => RefusalValues::one(Parameter(named)),
            Refusal::NameTaken => RefusalValues::none(),
            Refusal::NoSuchPool(pool) => RefusalValues::one(Name(pool)),
            Refusal::NoSuchUser(user) => RefusalValues::one(Name(user)),
            Refusal::NoSuchRole(role) => RefusalValues::one(Name(role)),
            Refusal::BuiltIn => RefusalValues::none(),
            Refusal::MaxBelowMemory(max, memory) => RefusalValues::two(Number(max), Number(memory)),
            Refusal::GeneralTooSmall(left, least) => RefusalValues::two(
                Number(left),
                Number(least),
            ),
            Refusal::NoSuchTarget(pool) => RefusalValues::one(Name(pool)),
            Refusal::CascadeLoop(pool) => RefusalValues::one(Name(pool)),
            Refusal::ChainTooLong(pools) => RefusalValues::one(Number(u64::from(pools))),
            Refusal::Dependents(pool) => RefusalValues::one(Name(pool)),
            Refusal::TableFull(kind, count) => RefusalValues::two(
                Table(kind),
                Number(u64::from(count)),
            ),
            Refusal::NotGranted(pool) => RefusalValues::one(Name(pool)),
            Refusal::TooLarge(which, floor, cap) => RefusalValues::three(
                Cap(which),
                Number(floor),
                Number(cap),
            ),
            Refusal::NoSuchSession => RefusalValues::none(),
            Refusal::SessionBusy => RefusalValues::none(),
            Refusal::NotLive => RefusalValues::none(),
            Refusal::NoUsage(pool) => RefusalValues::one(Name(pool)),
            Refusal::SessionsFull(most) => RefusalValues::one(Number(u64::from(most))),
            Refusal::JournalFull(room) => RefusalValues::one(Number(u64::from(room))),
            Refusal::NoSuchTable(table) => RefusalValues::one(Name(table)),
            Refusal::NoSuchColumn(column) => RefusalValues::one(Name(column)),
            Refusal::Ambiguous(name) => RefusalValues::one(Name(name)),
            Refusal::TypeClash(place) => RefusalValues::one(Number(place)),
            Refusal::NotGrouped(place) => RefusalValues::one(Number(place)),
            Refusal::TooManyTables(most) => RefusalValues::one(Number(u64::from(most))),
        }
    }
}

impl fmt::Display for Refusal {
    ghost use Rattle.std.specs.Prelude.{Some};
    ghost use Rattle.rm_base.specs.RefusalText.{refusal_text};

    ghost output = { λ refusal. Some (refusal_text refusal) };

    /// `refused` and the refusal's number, and its values, each after one space.
    fn fmt<W: fmt::Write>(&self, f: &mut fmt::Formatter<W>) -> fmt::Result {
        let number = self.number();
        match self.values().as_slice() {
            [] => write!(f, "refused {number}"),
            [first] => write!(f, "refused {number} {first}"),
            [first, second] => write!(f, "refused {number} {first} {second}"),
            [first, second, third, ..] => write!(f, "refused {number} {first} {second} {third}"),
        }
    }
}
