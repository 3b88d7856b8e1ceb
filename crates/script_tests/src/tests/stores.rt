//! Definitions that are kept between scripts, and stores that fail or lack memory.

ghost use Rattle.std.specs.Prelude.{◌≡◌};

use super::status_kept;
use rm_base::definitions::Definitions;
use rm_outside::failing_keeper::FailingKeeper;
use rm_outside::failing_sink::FailingSink;
use rm_outside::failing_source::FailingSource;
use rm_outside::keeper::Keeper;
use rm_outside::memory_keeper::MemoryKeeper;
use rm_outside::memory_shelf::MemoryShelf;
use rm_outside::memory_sink::MemorySink;
use rm_outside::memory_source::MemorySource;
use rm_outside::outside::Outside;
use std::alloc::Global;
use std::process::Abort;
use std::test::Fail;

/// Runs a script over this store, and compares its status and what it wrote with what was expected: the status, a line's
/// end, and the output.
fn compare_kept<K: Keeper>(
    rt: &impl Abort,
    alloc: Global,
    keeper: &mut K,
    case: &str,
) -> Result<(), Fail> {
    let (words, rest) = case.split_once('\n').ok_or("no words")?;
    let (script, expected) = rest.split_once("---- ").ok_or("no ----")?;
    let (status, text) = expected.split_once('\n').ok_or("no status")?;
    let mut input = MemorySource::new(script.as_bytes().to_vec(alloc)?);
    let mut out = MemorySink::new(alloc);
    let mut shelf = MemoryShelf::new(alloc);
    let got = status_kept(alloc, words, &mut input, &mut out, &mut shelf, keeper)?;
    assert_eq!(rt;
        format!(in alloc; "{got}")?.as_str(),
        status,
        "the status of {case:?}"
    );
    assert_eq!(rt; out.contents(), text.as_bytes(), "the text of {case:?}");
    Ok(())
}

/// Runs the scripts of a case one after the other over this store. A line `====` parts them. Each is a line of words, the
/// script, `---- ` and the status, and the output.
fn run_kept<K: Keeper>(
    rt: &impl Abort,
    alloc: Global,
    keeper: &mut K,
    cases: &str,
) -> Result<(), Fail> {
    for case in cases.split("====\n") {
        compare_kept(rt, alloc, keeper, case)?;
    }
    Ok(())
}

/// Every kind of row is there in the next script, in its order, and nothing else is: no session, query or moment.
static KEPT: &str = "\
script --memory 100M --cores 8
sql ALTER RESOURCE POOL general MAXMEMORYSIZE '80M'
sql CREATE RESOURCE POOL p MEMORYSIZE '20M' MAXMEMORYSIZE '40M' PLANNEDCONCURRENCY 2
---- 0
ok
ok
====
script --memory 100M --cores 8
show resource_pools
---- 0
name,memory_size,max_memory_size,max_query_memory_size,execution_parallelism,priority,runtime_priority,runtime_priority_threshold,queue_timeout,planned_concurrency,max_concurrency,runtime_cap,cascade_to
general,0,83886080,,,0,medium,2000,300000,4,,,
p,20971520,41943040,,,0,medium,2000,300000,2,,,
====
script --memory 100M --cores 8
at 5000
sql CREATE RESOURCE POOL a MEMORYSIZE '1M' QUEUETIMEOUT NONE PLANNEDCONCURRENCY 1 RUNTIMECAP '3 seconds' CASCADE TO p
sql CREATE USER ann RESOURCE POOL general MEMORYCAP '2M'
sql CREATE ROLE clerk
sql GRANT USAGE ON RESOURCE POOL a TO clerk
sql GRANT clerk TO ann
sql GRANT USAGE ON RESOURCE POOL p TO ann
sql CREATE ROLE ann
open s dbadmin a
ask s 1
---- 0
ok
ok
ok
ok
ok
ok
refused 6
s opened 1
s admitted 1048576 a 1048576 0
====
script --cores 8 --memory 100M
at 0
show resource_pools
show sessions
open s ann a
open t ann p
ask s 2097153
ask t 2097152
sql CREATE ROLE clerk
---- 0
name,memory_size,max_memory_size,max_query_memory_size,execution_parallelism,priority,runtime_priority,runtime_priority_threshold,queue_timeout,planned_concurrency,max_concurrency,runtime_cap,cascade_to
general,0,83886080,,,0,medium,2000,300000,4,,,
p,20971520,41943040,,,0,medium,2000,300000,2,,,
a,1048576,,,,0,medium,2000,,1,,3000,p
session,user_name,pool_name,runtime_cap,condition
s opened 1
t opened 2
s refused 19 user 2097153 2097152
t admitted 2097152 p 2097152 0
refused 6
====
script --memory 100M --cores 8
sql CREATE RESOURCE POOL q
frob
sql CREATE RESOURCE POOL r
---- 2
ok
bad line 2
====
script --memory 100M --cores 8
sql CREATE RESOURCE POOL r
table t nope.csv
sql CREATE RESOURCE POOL u
---- 5
ok
table t refused missing
====
script --memory 100M --cores 8
show resource_rejections
---- 0
pool_name,timedout,toolarge,cancelled
general,0,0,0
p,0,0,0
a,0,0,0
q,0,0,0
r,0,0,0
";

/// A machine on which the stored definitions are not sound takes none of them, and leaves them. Words that name no script
/// come before that.
static UNSOUND: &str = "\
script --memory 16G --cores 8
sql CREATE RESOURCE POOL ceo_pool MEMORYSIZE '1800M' PRIORITY 10
---- 0
ok
====
script --memory 16M --cores 8
sql CREATE RESOURCE POOL q
show resource_pools
---- 9
====
script --memory 16M
frob
---- 1
====
script --memory 16G --cores 8
show resource_rejections
---- 0
pool_name,timedout,toolarge,cancelled
general,0,0,0
ceo_pool,0,0,0
";

#[test]
fn definitions_are_kept_between_scripts(rt: HostRuntime) -> Result<(), Fail> {
    run_kept(&rt, rt.alloc(), &mut MemoryKeeper::new(), KEPT)
}

#[test]
fn unsound_definitions_are_refused(rt: HostRuntime) -> Result<(), Fail> {
    run_kept(&rt, rt.alloc(), &mut MemoryKeeper::new(), UNSOUND)
}

/// A script that makes four calls of its store: the load, and a commit for each statement but the refused one.
static STATEMENTS: &[u8] = b"\
sql CREATE RESOURCE POOL p
sql CREATE USER dbadmin
sql CREATE RESOURCE POOL q
sql CREATE RESOURCE POOL r
";

/// For each call that fails: its number, the status where it fails, the status where it lacks memory, the lines that are
/// printed, and the pools that are stored then. The fifth call does not come.
static CALLS: &str = "\
1;6;7;;general
2;6;7;;general
3;6;7;ok/refused 6/;general/p
4;6;7;ok/refused 6/ok/;general/p/q
5;0;0;ok/refused 6/ok/ok/;general/p/q/r
";

/// Runs the statements over this store, and compares the status and what was printed.
fn compare_call<K: Keeper>(
    rt: &impl Abort,
    alloc: Global,
    keeper: &mut K,
    status: &str,
    printed: &str,
) -> Result<(), Fail> {
    let mut input = MemorySource::new(STATEMENTS.to_vec(alloc)?);
    let mut out = MemorySink::new(alloc);
    let mut shelf = MemoryShelf::new(alloc);
    let words = "script --memory 100M --cores 8";
    let got = status_kept(alloc, words, &mut input, &mut out, &mut shelf, keeper)?;
    assert_eq!(rt; format!(in alloc; "{got}")?.as_str(), status, "the status");
    assert_eq!(rt;
        out.contents(),
        printed.replace(alloc, "/", "\n")?.as_bytes(),
        "the text at status {status}"
    );
    Ok(())
}

/// Compares the pools that a store has with the names, which a `/` parts.
fn compare_pools<K: Keeper>(
    rt: &impl Abort,
    alloc: Global,
    keeper: &mut K,
    names: &str,
) -> Result<(), Fail> {
    let mut text = String::new(alloc);
    text.push_str("script --memory 100M --cores 8\nshow resource_rejections\n---- 0\n")?;
    text.push_str("pool_name,timedout,toolarge,cancelled\n")?;
    for name in names.split('/') {
        text.push_str(name)?;
        text.push_str(",0,0,0\n")?;
    }
    compare_kept(rt, alloc, keeper, text.as_str())
}

/// A store in memory whose call of this number lacks memory, and counts no fault.
#[derive(Drop)]
struct WantingKeeper {
    keeper: MemoryKeeper,
    calls: u64,
    wanting: u64,
}

impl WantingKeeper {
    fn wants(&mut self) -> bool
        ensures { self.new.keeper ≡ self.old.keeper }
    {
        self.calls = self.calls.saturating_add(1);
        self.calls == self.wanting
    }
}

impl Keeper for WantingKeeper {
    ghost use Rattle.std.specs.Prelude.{Some};

    ghost faults = { λ _. 0 };

    ghost stored = { λ k. Some k.keeper };

    fn faults(&self) -> u64 {
        0
    }

    fn load(&mut self, alloc: Global, memory: u64, cores: u32) -> Result<Definitions, Outside> {
        if self.wants() {
            return Err(Outside::Memory);
        }
        self.keeper.load(alloc, memory, cores)
    }

    fn commit(&mut self, alloc: Global, next: &Definitions) -> Result<(), Outside> {
        if self.wants() {
            return Err(Outside::Memory);
        }
        self.keeper.commit(alloc, next)
    }
}

/// One line of the table: the same call fails, and lacks memory.
fn try_call(rt: &impl Abort, alloc: Global, line: &str) -> Result<(), Fail> {
    let (call, rest) = line.split_once(';').ok_or("no call")?;
    let (failed, rest) = rest.split_once(';').ok_or("no status")?;
    let (lacking, rest) = rest.split_once(';').ok_or("no second status")?;
    let (printed, pools) = rest.split_once(';').ok_or("no text")?;
    let call: u64 = call.parse().ok().ok_or("no number")?;
    let mut failing = FailingKeeper::new(MemoryKeeper::new(), [call].to_vec(alloc)?);
    compare_call(rt, alloc, &mut failing, failed, printed)?;
    assert_eq!(rt;
        failing.faults(),
        u64::from(call < 5),
        "the faults at {call}"
    );
    compare_pools(rt, alloc, &mut failing.into_inner(), pools)?;
    let mut wanting = WantingKeeper {
        keeper: MemoryKeeper::new(),
        calls: 0,
        wanting: call,
    };
    compare_call(rt, alloc, &mut wanting, lacking, printed)?;
    compare_pools(rt, alloc, &mut wanting.keeper, pools)
}

#[test]
fn a_store_that_fails_ends_the_script(rt: HostRuntime) -> Result<(), Fail> {
    for line in CALLS.lines() {
        try_call(&rt, rt.alloc(), line)?;
    }
    Ok(())
}

/// An output that fails at this write leaves these lines, and these pools: at most one statement more than was answered.
fn try_write(
    rt: &impl Abort,
    alloc: Global,
    write: u64,
    text: &[u8],
    pools: &str,
) -> Result<(), Fail> {
    let mut keeper = MemoryKeeper::new();
    let mut input = MemorySource::new(STATEMENTS.to_vec(alloc)?);
    let mut out = FailingSink::new(alloc, [write].to_vec(alloc)?);
    let mut shelf = MemoryShelf::new(alloc);
    let words = "script --memory 100M --cores 8";
    let got = status_kept(alloc, words, &mut input, &mut out, &mut shelf, &mut keeper)?;
    assert_eq!(rt; got, 4, "the status at {write}");
    assert_eq!(rt; out.contents(), text, "the text at {write}");
    compare_pools(rt, alloc, &mut keeper, pools)
}

#[test]
fn an_output_that_fails_leaves_what_was_stored(rt: HostRuntime) -> Result<(), Fail> {
    try_write(&rt, rt.alloc(), 1, b"", "general/p")?;
    try_write(&rt, rt.alloc(), 2, b"ok\n", "general/p")?;
    try_write(&rt, rt.alloc(), 3, b"ok\nrefused 6\n", "general/p/q")
}

/// A fault of reading comes before the store is opened.
#[test]
fn the_input_is_read_before_the_store(rt: HostRuntime) -> Result<(), Fail> {
    let alloc = rt.alloc();
    let mut keeper = FailingKeeper::new(MemoryKeeper::new(), [1].to_vec(alloc)?);
    let mut input = FailingSource::new(STATEMENTS.to_vec(alloc)?, [1].to_vec(alloc)?);
    let mut out = MemorySink::new(alloc);
    let mut shelf = MemoryShelf::new(alloc);
    let words = "script --memory 100M --cores 8";
    let got = status_kept(alloc, words, &mut input, &mut out, &mut shelf, &mut keeper)?;
    assert_eq!(rt; got, 3);
    assert_eq!(rt; keeper.faults(), 0);
    Ok(())
}
