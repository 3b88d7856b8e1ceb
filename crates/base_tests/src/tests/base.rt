//! Names, moments, refusals, definitions and bounded lists.

use rm_base::bounded::Bounded;
use rm_base::definitions::{Definitions, default_pool_row, default_user_row};
use rm_base::moment::Moment;
use rm_base::name::Name;
use rm_base::refusal::{CapKind, Parameter, Refusal, TableKind};
use rm_base::refusal_value::RefusalValue;
use rm_base::reply::CapOwner;
use rm_base::rows::{GrantRow, RoleRow};
use std::test::Fail;

/// Words that are names, each with the name after `=`.
static NAMES: &str = "\
general=general
A_1=a_1
_=_
select1=select1
usage=usage
ABCDEFGHIJKLMNOPQRSTUVWXYZ_01234=abcdefghijklmnopqrstuvwxyz_01234
";

/// Words that are no names, parted by `/`: the first is empty, the last has 33 bytes.
static NO_NAMES: &str =
    "/1a/a-b/a b/SELECT/Count/where/caf\u{e9}/\u{212a}/ABCDEFGHIJKLMNOPQRSTUVWXYZ_012345";

#[test]
fn reads_names_in_any_case(rt: HostRuntime) -> Result<(), Fail> {
    for line in NAMES.lines() {
        let (word, text) = line.split_once('=').ok_or("no =")?;
        let name = Name::of(word).ok_or("no name")?;
        assert_eq!(rt; name.as_str(), text);
    }
    for word in NO_NAMES.split('/') {
        assert!(rt; Name::of(word).is_none(), "{word:?}");
    }
    Ok(())
}

/// Milliseconds, and the moment that they are.
static MOMENTS: [(u64, u64); 5] = [
    (0, 0),
    (999_999_999_999_999, 999_999_999_999_999),
    (1_000_000_000_000_000, 1_000_000_000_000_000),
    (1_000_000_000_000_001, 1_000_000_000_000_000),
    (u64::MAX, 1_000_000_000_000_000),
];

#[test]
fn moments_end_at_the_greatest(rt: HostRuntime) {
    for (ms, kept) in MOMENTS {
        let moment = Moment::of(ms);
        assert_eq!(rt; moment.ms(), kept);
        assert_eq!(rt; moment.later(Moment::of(5)).ms(), kept.max(5));
    }
}

/// A refusal of each number, and one of each kind of value.
fn refusal(case: u32, name: Name) -> Option<Refusal> {
    Some(match case {
        1 => Refusal::Syntax(0),
        2 => Refusal::UnknownParameter(24),
        3 => Refusal::Repeated(Parameter::Cascade),
        4 => Refusal::NotSupported(u64::MAX),
        5 => Refusal::Range(Parameter::MemorySize),
        6 => Refusal::NameTaken,
        7 => Refusal::NoSuchPool(name),
        8 => Refusal::NoSuchUser(name),
        9 => Refusal::NoSuchRole(name),
        10 => Refusal::BuiltIn,
        11 => Refusal::MaxBelowMemory(10, 20),
        12 => Refusal::GeneralTooSmall(3, 4),
        13 => Refusal::NoSuchTarget(name),
        14 => Refusal::CascadeLoop(name),
        15 => Refusal::ChainTooLong(9),
        16 => Refusal::Dependents(name),
        17 => Refusal::TableFull(TableKind::Pools, 64),
        18 => Refusal::NotGranted(name),
        19 => Refusal::TooLarge(CapKind::Query, 7, 5),
        20 => Refusal::NoSuchSession,
        21 => Refusal::SessionBusy,
        22 => Refusal::NotLive,
        23 => Refusal::NoUsage(name),
        24 => Refusal::SessionsFull(128),
        25 => Refusal::JournalFull(u32::MAX),
        26 => Refusal::NoSuchTable(name),
        27 => Refusal::NoSuchColumn(name),
        28 => Refusal::Ambiguous(name),
        29 => Refusal::TypeClash(31),
        30 => Refusal::NotGrouped(7),
        31 => Refusal::TooManyTables(3),
        32 => Refusal::Range(Parameter::MaxMemorySize),
        33 => Refusal::Range(Parameter::MaxQueryMemorySize),
        34 => Refusal::Range(Parameter::ExecutionParallelism),
        35 => Refusal::Range(Parameter::Priority),
        36 => Refusal::Range(Parameter::RuntimePriority),
        37 => Refusal::Range(Parameter::RuntimePriorityThreshold),
        38 => Refusal::Range(Parameter::QueueTimeout),
        39 => Refusal::Range(Parameter::PlannedConcurrency),
        40 => Refusal::Range(Parameter::MaxConcurrency),
        41 => Refusal::Range(Parameter::RuntimeCap),
        42 => Refusal::Range(Parameter::MemoryCap),
        43 => Refusal::Repeated(Parameter::ResourcePool),
        44 => Refusal::TableFull(TableKind::Users, 256),
        45 => Refusal::TableFull(TableKind::Roles, 64),
        46 => Refusal::TableFull(TableKind::Grants, 1_024),
        47 => Refusal::TableFull(TableKind::Changes, 4_096),
        48 => Refusal::TooLarge(CapKind::Pool, 7, 5),
        49 => Refusal::TooLarge(CapKind::User, 7, 5),
        _ => return None,
    })
}

/// How they are written with the name etl.
static REFUSALS: &str = "\
refused 1 0
refused 2 24
refused 3 CASCADE
refused 4 18446744073709551615
refused 5 MEMORYSIZE
refused 6
refused 7 etl
refused 8 etl
refused 9 etl
refused 10
refused 11 10 20
refused 12 3 4
refused 13 etl
refused 14 etl
refused 15 9
refused 16 etl
refused 17 pools 64
refused 18 etl
refused 19 query 7 5
refused 20
refused 21
refused 22
refused 23 etl
refused 24 128
refused 25 4294967295
refused 26 etl
refused 27 etl
refused 28 etl
refused 29 31
refused 30 7
refused 31 3
refused 5 MAXMEMORYSIZE
refused 5 MAXQUERYMEMORYSIZE
refused 5 EXECUTIONPARALLELISM
refused 5 PRIORITY
refused 5 RUNTIMEPRIORITY
refused 5 RUNTIMEPRIORITYTHRESHOLD
refused 5 QUEUETIMEOUT
refused 5 PLANNEDCONCURRENCY
refused 5 MAXCONCURRENCY
refused 5 RUNTIMECAP
refused 5 MEMORYCAP
refused 3 RESOURCE
refused 17 users 256
refused 17 roles 64
refused 17 grants 1024
refused 17 changes 4096
refused 19 pool 7 5
refused 19 user 7 5
";

#[test]
fn writes_refusals(rt: HostRuntime) -> Result<(), Fail> {
    let etl = Name::of("ETL").ok_or("etl")?;
    let mut written = String::new(rt.alloc());
    for case in 1..=49 {
        let refusal = refusal(case, etl).ok_or("no refusal")?;
        written.push_str(refusal.to_string(rt.alloc())?.as_str())?;
        written.push('\n')?;
    }
    assert_eq!(rt; written.as_str(), REFUSALS);
    Ok(())
}

#[test]
fn writes_whose_cap_it_is(rt: HostRuntime) -> Result<(), Fail> {
    let owners = format!(in rt.alloc();
        "{} {} {}",
        CapOwner::User,
        CapOwner::Session,
        CapOwner::Pool
    )?;
    assert_eq!(rt; owners.as_str(), "user session pool");
    assert_eq!(rt; Parameter::Cascade.text(), "CASCADE");
    Ok(())
}

#[test]
fn tells_a_refusals_values_apart(rt: HostRuntime) -> Result<(), Fail> {
    let refusal = Refusal::TooLarge(CapKind::Query, 7, 5);
    let values = [
        RefusalValue::Cap(CapKind::Query),
        RefusalValue::Number(7),
        RefusalValue::Number(5),
    ];
    assert_eq!(rt; refusal.number(), 19);
    assert!(rt; refusal.values().as_slice() == values.as_slice());
    assert!(rt; Refusal::NameTaken.values().as_slice().is_empty());
    Ok(())
}

#[test]
fn definitions_begin_with_general_and_dbadmin(rt: HostRuntime) -> Result<(), Fail> {
    let mut definitions = Definitions::new(rt.alloc(), 1_073_741_824, 16)?;
    let general = Name::general();
    let dbadmin = Name::dbadmin();
    definitions.roles.add(RoleRow {
        name: dbadmin,
        pool: Some(general),
    });
    definitions
        .grants
        .add(GrantRow::PoolToRole(general, dbadmin));
    let copy = definitions.copy(rt.alloc())?;
    assert!(rt; copy.pools.rows() == [default_pool_row(general)].as_slice());
    assert!(rt; copy.users.rows() == [default_user_row(dbadmin)].as_slice());
    assert!(rt; copy.roles.rows() == definitions.roles.rows());
    assert!(rt; copy.grants.rows() == definitions.grants.rows());
    assert_eq!(rt; general.as_str(), "general");
    assert_eq!(rt; dbadmin.as_str(), "dbadmin");
    Ok(())
}

/// A row as other crates have them.
#[derive(Clone, Copy, Debug, PartialEq, Eq)]
struct Row {
    number: u64,
    owner: Option<Name>,
    change: Option<Option<Name>>,
}

fn numbered(number: u64) -> Row {
    Row {
        number,
        owner: Some(Name::general()),
        change: Some(Some(Name::dbadmin())),
    }
}

#[test]
fn a_list_is_filled_changed_and_emptied(rt: HostRuntime) -> Result<(), Fail> {
    let mut list: Bounded<Row, 3> = Bounded::new(rt.alloc())?;
    assert!(rt; list.is_empty());
    list.add(numbered(1));
    list.add(numbered(2));
    list.add(numbered(3));
    assert!(rt; list.is_full());
    list.set(1, numbered(4));
    let copy = list.copy(rt.alloc())?;
    assert!(rt; list.remove(0) == numbered(1));
    assert!(rt; list.rows() == [numbered(4), numbered(3)].as_slice());
    assert!(rt; copy.rows() == [numbered(1), numbered(4), numbered(3)].as_slice());
    assert!(rt; list.len() == 2 && copy.len() == 3);
    Ok(())
}
