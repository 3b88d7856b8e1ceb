//! Which definitions are sound, at the edges.

use super::defined::{defined, named};
use pool_table::sound;
use rm_base::definitions::{Definitions, default_pool_row, default_user_row};
use rm_base::name::Name;
use rm_base::rows::PoolRow;
use std::test::Fail;

/// What is defined, and after `=` whether it is sound.
static NAMED: &str = "\
pool etl, pool web=true
pool etl, pool web, pool etl=false
pool general=false
user ann, role loader=true
user ann, user ann=false
role ann, role ann=false
user ann, role ann=false
user dbadmin=false
role dbadmin=false
pool etl, user etl, role general=true
pool etl, user ann etl=true
user ann etl=false
pool etl, role loader etl=true
role loader etl=false
pool etl, user ann, usage etl ann=true
pool etl, role ann, usage etl ann=false
user ann, usage etl ann=false
pool etl, role loader, shared etl loader=true
pool etl, user loader, shared etl loader=false
role loader, shared etl loader=false
role loader, user ann, member loader ann=true
role ann, user loader, member loader ann=false
role loader, role other, member loader other=false
usage general dbadmin=true
usage general dbadmin, usage general dbadmin=false
pool etl, user ann, role loader, usage etl ann, shared etl loader, member loader ann=true
pool etl, pool web, user ann, usage etl ann, usage web ann, usage etl dbadmin=true
pool etl, user ann, role loader, shared etl loader, usage etl ann, shared etl loader=false
role loader, user ann, member loader ann, member loader ann=false
pool a general=true
pool a b=false
pool a a=false
pool a b, pool b a=false
pool a b, pool b c, pool c b=false
pool a b, pool b c, pool c d, pool d e, pool e f, pool f g, pool g general=true
pool a b, pool b c, pool c d, pool d e, pool e f, pool f g, pool g h, pool h general=false
pool h general, pool g h, pool f g, pool e f, pool d e, pool c d, pool b c, pool i c=true
";

#[test]
fn names_stand_once_and_mean_what_is_there(rt: HostRuntime) -> Result<(), Fail> {
    for line in NAMED.lines() {
        let (text, wanted) = line.split_once('=').ok_or(line)?;
        let definitions = defined(rt.alloc(), text)?;
        assert_eq!(rt; sound(&definitions), wanted == "true", "{line:?}");
    }
    Ok(())
}

#[test]
fn general_and_dbadmin_are_there(rt: HostRuntime) -> Result<(), Fail> {
    let mut first = defined(rt.alloc(), "pool etl, user ann")?;
    assert!(rt; sound(&first));
    first.pools.set(0, default_pool_row(named("web")?));
    assert!(rt; !sound(&first));
    first.pools.set(0, default_pool_row(Name::general()));
    assert!(rt; sound(&first));
    first.users.remove(0);
    assert!(rt; !sound(&first));
    Ok(())
}

/// A value of a pool.
#[derive(Clone, Copy, Debug)]
enum Value {
    QueryMax(u64),
    Parallel(u32),
    Priority(i32),
    Threshold(u32),
    Timeout(u64),
    Planned(u32),
    Concurrency(u32),
    Cap(u64),
}

/// The least and the greatest values beside the next ones, and whether a pool may have them.
static VALUES: [(Value, bool); 29] = [
    (Value::QueryMax(0), true),
    (Value::QueryMax(1_125_899_906_842_624), true),
    (Value::QueryMax(1_125_899_906_842_625), false),
    (Value::Parallel(0), false),
    (Value::Parallel(1), true),
    (Value::Parallel(1_000), true),
    (Value::Parallel(1_001), false),
    (Value::Priority(-101), false),
    (Value::Priority(-100), true),
    (Value::Priority(100), true),
    (Value::Priority(101), false),
    (Value::Threshold(0), true),
    (Value::Threshold(86_400), true),
    (Value::Threshold(86_401), false),
    (Value::Timeout(0), true),
    (Value::Timeout(31_536_000_000), true),
    (Value::Timeout(31_536_000_001), false),
    (Value::Planned(0), false),
    (Value::Planned(1), true),
    (Value::Planned(1_000), true),
    (Value::Planned(1_001), false),
    (Value::Concurrency(0), false),
    (Value::Concurrency(1), true),
    (Value::Concurrency(1_000), true),
    (Value::Concurrency(1_001), false),
    (Value::Cap(0), false),
    (Value::Cap(1), true),
    (Value::Cap(31_536_000_000), true),
    (Value::Cap(31_536_000_001), false),
];

fn with_value(row: PoolRow, value: Value) -> PoolRow {
    match value {
        Value::QueryMax(bytes) => PoolRow {
            query_max: Some(bytes),
            ..row
        },
        Value::Parallel(number) => PoolRow {
            parallel: Some(number),
            ..row
        },
        Value::Priority(priority) => PoolRow { priority, ..row },
        Value::Threshold(threshold_s) => PoolRow { threshold_s, ..row },
        Value::Timeout(ms) => PoolRow {
            queue_ms: Some(ms),
            ..row
        },
        Value::Planned(number) => PoolRow {
            planned: Some(number),
            ..row
        },
        Value::Concurrency(number) => PoolRow {
            concurrency: Some(number),
            ..row
        },
        Value::Cap(ms) => PoolRow {
            cap_ms: Some(ms),
            ..row
        },
    }
}

#[test]
fn pools_have_values_in_their_ranges(rt: HostRuntime) -> Result<(), Fail> {
    let etl = default_pool_row(named("etl")?);
    for (value, wanted) in VALUES {
        let mut definitions = Definitions::new(rt.alloc(), 104_857_600, 8)?;
        definitions.pools.add(with_value(etl, value));
        assert_eq!(rt; sound(&definitions), wanted, "{value:?}");
    }
    Ok(())
}

/// A user's MEMORYCAP and RUNTIMECAP, and whether it may have them.
static USER_CAPS: [(Option<u64>, Option<u64>, bool); 6] = [
    (Some(0), Some(1), true),
    (Some(1_125_899_906_842_624), None, true),
    (Some(1_125_899_906_842_625), None, false),
    (None, Some(0), false),
    (None, Some(31_536_000_000), true),
    (None, Some(31_536_000_001), false),
];

#[test]
fn users_have_caps_in_their_ranges(rt: HostRuntime) -> Result<(), Fail> {
    let mut ann = default_user_row(named("ann")?);
    for (memory_cap, cap_ms, wanted) in USER_CAPS {
        ann.memory_cap = memory_cap;
        ann.cap_ms = cap_ms;
        let mut definitions = Definitions::new(rt.alloc(), 104_857_600, 8)?;
        definitions.users.add(ann);
        assert_eq!(rt; sound(&definitions), wanted, "{memory_cap:?} {cap_ms:?}");
    }
    Ok(())
}

/// A machine's memory and cores, the count of changes, and whether it may be so.
static MACHINES: [(u64, u32, u32, bool); 8] = [
    (16_777_216, 1, 0, true),
    (16_777_215, 1, 0, false),
    (1_125_899_906_842_624, 1_024, 4_096, true),
    (1_125_899_906_842_625, 1_024, 4_096, false),
    (104_857_600, 0, 0, false),
    (104_857_600, 1_024, 0, true),
    (104_857_600, 1_025, 0, false),
    (104_857_600, 8, 4_097, false),
];

#[test]
fn machines_have_numbers_in_their_ranges(rt: HostRuntime) -> Result<(), Fail> {
    let mut definitions = Definitions::new(rt.alloc(), 104_857_600, 8)?;
    for (memory, cores, changes, wanted) in MACHINES {
        definitions.memory = memory;
        definitions.cores = cores;
        definitions.changes = changes;
        assert_eq!(rt; sound(&definitions), wanted, "{memory} {cores} {changes}");
    }
    Ok(())
}

/// GENERAL's MAXMEMORYSIZE and MEMORYSIZE, etl's, web's MEMORYSIZE, and whether a machine of 100 MiB can have them. The
/// total is 99,614,720 bytes at first, of which a quarter is 24,903,680.
static SIZES: [(Option<u64>, u64, Option<u64>, u64, u64, bool); 16] = [
    (None, 0, None, 74_711_040, 0, true),
    (None, 0, None, 74_711_041, 0, false),
    (None, 0, None, 74_711_040, 1, false),
    (None, 0, None, 99_614_721, 0, false),
    (None, 1, None, 0, 0, false),
    (None, 0, Some(0), 0, 0, true),
    (None, 0, Some(4_096), 4_096, 0, true),
    (None, 0, Some(4_095), 4_096, 0, false),
    (None, 0, Some(1_125_899_906_842_624), 0, 0, true),
    (None, 0, Some(1_125_899_906_842_625), 0, 0, false),
    (Some(104_857_600), 0, None, 0, 0, true),
    (Some(104_857_601), 0, None, 0, 0, false),
    (Some(1_048_576), 0, None, 786_432, 0, true),
    (Some(1_048_575), 0, None, 0, 0, false),
    (Some(1_048_577), 0, None, 786_432, 0, true),
    (Some(1_048_577), 0, None, 786_433, 0, false),
];

#[test]
fn sizes_leave_a_quarter_to_general(rt: HostRuntime) -> Result<(), Fail> {
    let mut general = default_pool_row(Name::general());
    let mut etl = default_pool_row(named("etl")?);
    let mut web = default_pool_row(named("web")?);
    for (general_max, general_memory, etl_max, etl_memory, web_memory, wanted) in SIZES {
        general.max = general_max;
        general.memory = general_memory;
        etl.max = etl_max;
        etl.memory = etl_memory;
        web.memory = web_memory;
        let mut definitions = Definitions::new(rt.alloc(), 104_857_600, 8)?;
        definitions.pools.set(0, general);
        definitions.pools.add(etl);
        definitions.pools.add(web);
        assert_eq!(rt; sound(&definitions), wanted, "{general_max:?} {etl_memory}");
    }
    Ok(())
}
