//! Runtime caps, queries that move on or give way, and queries that are cancelled.

use super::run_cases;
use super::tables::{run_over, shelf_of};
use std::test::Fail;

/// A query's share is 23,658,496, in GENERAL and in a pool that reserves nothing.
static CAPS: &str = "\
# A cap is exceeded from the first moment above it on. The query moves on to the first pool that leaves it time, and keeps
# its grant; its time there counts from its first start.
sql CREATE RESOURCE POOL slow RUNTIMECAP '10 seconds'
sql CREATE RESOURCE POOL mid RUNTIMECAP '500 ms' CASCADE TO slow
sql CREATE RESOURCE POOL fast RUNTIMECAP '1 second' CASCADE TO mid
open a dbadmin fast
ask a 1
at 1000
check a
at 1001
check a
poll a
at 10000
check a
at 10001
check a
done a
check a
---- 0
ok
ok
ok
a opened 1
a admitted 23658496 fast 0 23658496
a go
a moved slow
a admitted 23658496 slow 0 23658496
a go
a capended pool 10001 10000
a released 23658496
a refused 22
====
# The user's cap comes before the session's, and that before the pool's. A session's cap may be set, and taken away, while
# its query runs.
sql CREATE RESOURCE POOL p RUNTIMECAP '2 ms'
sql CREATE USER ann RUNTIMECAP '4 ms'
sql GRANT USAGE ON RESOURCE POOL p TO ann
open a ann p
ask a 1
set a cap 3
at 5
check a
sql ALTER USER ann RUNTIMECAP NONE
check a
set a cap 5
check a
set a cap none
sql ALTER RESOURCE POOL p RUNTIMECAP NONE
check a
done a
---- 0
ok
ok
ok
a opened 1
a admitted 23658496 p 0 23658496
a set
a capended user 5 4
ok
a capended session 5 3
a set
a capended pool 5 2
a set
ok
a go
a released 23658496
====
# A number of 15 digits is a cap, with leading zeros too. The key and `none` are compared as written.
open a dbadmin
set a cap 999999999999999
set a cap 000000000000007
set  a  cap  none
set a cap NONE
---- 2
a opened 1
a set
a set
a set
bad line 6
====
open a dbadmin
set a cap 0
---- 2
a opened 1
bad line 2
====
open a dbadmin
set a cap 1000000000000000
---- 2
a opened 1
bad line 2
====
open a dbadmin
set a Cap 5
---- 2
a opened 1
bad line 2
====
open a dbadmin
check a
check
---- 2
a opened 1
a refused 22
bad line 3
====
check a
---- 2
bad line 1
";

#[test]
fn caps_end_or_move_queries(rt: HostRuntime) -> Result<(), Fail> {
    run_cases(&rt, rt.alloc(), CAPS)
}

static WAYS: &str = "\
# A query gives way only once it was told to. It waits in the other pool, and runs there with the grant of that pool.
sql CREATE RESOURCE POOL slow MEMORYSIZE '10M' MAXMEMORYSIZE '10M' PLANNEDCONCURRENCY 1
sql CREATE RESOURCE POOL fast RUNTIMECAP '1 second' CASCADE TO slow
open a dbadmin fast
open b dbadmin slow
ask b 1
ask a 1
at 1001
way a
poll a
check a
check a
poll a
way a
check a
way a
done a
poll a
done b
check a
poll a
done a
way a
---- 0
ok
ok
a opened 1
b opened 2
b admitted 10485760 slow 10485760 0
a admitted 23658496 fast 0 23658496
a refused 22
a admitted 23658496 fast 0 23658496
a giveway slow
a giveway slow
a admitted 23658496 fast 0 23658496
a queued 1
a refused 22
a refused 22
a refused 22
a waiting 1
b released 10485760
a go
a admitted 10485760 slow 10485760 0
a released 10485760
a refused 22
====
# No query runs in the pool, but none may have so large a grant there: the query gives way, and is admitted at once.
sql CREATE RESOURCE POOL slow MEMORYSIZE '10M' MAXMEMORYSIZE '10M' PLANNEDCONCURRENCY 1
sql CREATE RESOURCE POOL fast RUNTIMECAP '1 second' CASCADE TO slow
open a dbadmin fast
ask a 1
at 1001
check a
way a
way a
done a
---- 0
ok
ok
a opened 1
a admitted 23658496 fast 0 23658496
a giveway slow
a admitted 10485760 slow 10485760 0
a refused 22
a released 10485760
====
# The pool has no place in its queue: the query that gives way ends at once, and its session is idle.
sql CREATE RESOURCE POOL slow MAXCONCURRENCY 1 QUEUETIMEOUT 0
sql CREATE RESOURCE POOL fast RUNTIMECAP '1 second' CASCADE TO slow
open a dbadmin fast
open b dbadmin slow
ask b 1
ask a 1
at 1001
check a
way a
poll a
ask a 1
---- 0
ok
ok
a opened 1
b opened 2
b admitted 23658496 slow 0 23658496
a admitted 23658496 fast 0 23658496
a giveway slow
a timedout 1001
a refused 22
a admitted 23658496 fast 0 23658496
====
# A query that was admitted unseen may be checked, and give way, before anyone polls it.
sql CREATE RESOURCE POOL slow MEMORYSIZE '10M' MAXMEMORYSIZE '10M' PLANNEDCONCURRENCY 1
sql CREATE RESOURCE POOL fast MAXCONCURRENCY 1 RUNTIMECAP '1 second' CASCADE TO slow
open a dbadmin fast
open b dbadmin fast
open c dbadmin slow
ask c 1
ask b 1
ask a 1
done b
at 1001
check a
way a
close a
---- 0
ok
ok
a opened 1
b opened 2
c opened 3
c admitted 10485760 slow 10485760 0
b admitted 23658496 fast 0 23658496
a queued 1
b released 23658496
a giveway slow
a queued 1
a closed
====
open a dbadmin
way a b
---- 2
a opened 1
bad line 2
";

#[test]
fn queries_give_way(rt: HostRuntime) -> Result<(), Fail> {
    run_cases(&rt, rt.alloc(), WAYS)
}

static CANCELS: &str = "\
# A running query that is cancelled is told so by its next check, and runs on until it is done.
open a dbadmin
open b dbadmin
ask a 1
cancel b a
cancel b a
cancel a A
check a
poll a
done a
cancel b a
---- 0
a opened 1
b opened 2
a admitted 23658496 general 23658496 0
b cancelled
b cancelled
a cancelled
a stopping
a admitted 23658496 general 23658496 0
a released 23658496
b refused 22
====
# A waiting query that is cancelled ends, and its session is told so by its next poll.
sql CREATE RESOURCE POOL one MAXCONCURRENCY 1
open a dbadmin one
open b dbadmin one
ask a 1
ask b 1
cancel a b
cancel a b
ask b 1
poll b
poll b
ask b 1
---- 0
ok
a opened 1
b opened 2
a admitted 23658496 one 0 23658496
b queued 1
a cancelled
a refused 22
b refused 21
b cancelled
b refused 22
b queued 1
====
# Another user's query is not cancelled.
sql CREATE USER ann
open a dbadmin
open b ann
ask a 1
cancel b a
check a
---- 0
ok
a opened 1
b opened 2
a admitted 23658496 general 23658496 0
b refused 22
a go
====
# Both names are those of open sessions.
open a dbadmin
cancel a b
---- 2
a opened 1
bad line 3
====
open a dbadmin
cancel b a
---- 2
a opened 1
bad line 2
====
open a dbadmin
cancel a
---- 2
a opened 1
bad line 2
";

#[test]
fn queries_are_cancelled(rt: HostRuntime) -> Result<(), Fail> {
    run_cases(&rt, rt.alloc(), CANCELS)
}

/// Files by their paths: a line with `>> ` and a path, and then the file.
static FILES: &str = "\
>> t.csv
n:int
2
1
";

static PLANS: &str = "\
# A plan runs once its query was checked: it may run on.
sql CREATE RESOURCE POOL fast RUNTIMECAP '1 second'
table t t.csv
open a dbadmin fast
query a SELECT n FROM t
at 1000
done a
done a
---- 0
ok
table t rows 2
a opened 1
a admitted 23658496 fast 0 23658496
a rows 2
n
1
2
a released 23658496
a refused 22
====
# It moves on, and runs.
sql CREATE RESOURCE POOL slow
sql CREATE RESOURCE POOL fast RUNTIMECAP '1 second' CASCADE TO slow
table t t.csv
open a dbadmin fast
query a SELECT n FROM t
at 1001
done a
---- 0
ok
ok
table t rows 2
a opened 1
a admitted 23658496 fast 0 23658496
a moved slow
a rows 2
n
1
2
a released 23658496
====
# Its time is over: it does not run, and is forgotten.
table t t.csv
open a dbadmin
set a cap 5
query a SELECT n FROM t
at 6
done a
ask a 1
at 12
done a
---- 0
table t rows 2
a opened 1
a set
a admitted 23658496 general 23658496 0
a capended session 6 5
a released 23658496
a admitted 23658496 general 23658496 0
a released 23658496
====
# It is cancelled: so too.
table t t.csv
open a dbadmin
open b dbadmin
query a SELECT n FROM t
cancel b a
done a
done a
---- 0
table t rows 2
a opened 1
b opened 2
a admitted 23658496 general 23658496 0
b cancelled
a stopping
a released 23658496
a refused 22
====
# It is to give way: the plan is kept while the query waits, and runs with the other pool's grant.
sql CREATE RESOURCE POOL slow MEMORYSIZE '10M' MAXMEMORYSIZE '10M' PLANNEDCONCURRENCY 1
sql CREATE RESOURCE POOL fast RUNTIMECAP '1 second' CASCADE TO slow
table t t.csv
open a dbadmin fast
open b dbadmin slow
ask b 1
query a SELECT n FROM t
at 1001
done a
done a
done b
poll a
done a
---- 0
ok
ok
table t rows 2
a opened 1
b opened 2
b admitted 10485760 slow 10485760 0
a admitted 23658496 fast 0 23658496
a giveway slow
a queued 1
a refused 22
b released 10485760
a admitted 10485760 slow 10485760 0
a rows 2
n
1
2
a released 10485760
====
# Nobody polled it since: the plan runs all the same.
sql CREATE RESOURCE POOL slow MEMORYSIZE '10M' MAXMEMORYSIZE '10M' PLANNEDCONCURRENCY 1
sql CREATE RESOURCE POOL fast RUNTIMECAP '1 second' CASCADE TO slow
table t t.csv
open a dbadmin fast
open b dbadmin slow
ask b 1
query a SELECT n FROM t
at 1001
check a
way a
done b
done a
---- 0
ok
ok
table t rows 2
a opened 1
b opened 2
b admitted 10485760 slow 10485760 0
a admitted 23658496 fast 0 23658496
a giveway slow
a queued 1
b released 10485760
a rows 2
n
1
2
a released 10485760
====
# The query gives way and is admitted at once: the plan is kept, and does not run yet.
sql CREATE RESOURCE POOL slow MEMORYSIZE '10M' MAXMEMORYSIZE '10M' PLANNEDCONCURRENCY 1
sql CREATE RESOURCE POOL fast RUNTIMECAP '1 second' CASCADE TO slow
table t t.csv
open a dbadmin fast
query a SELECT n FROM t
at 1001
done a
done a
---- 0
ok
ok
table t rows 2
a opened 1
a admitted 23658496 fast 0 23658496
a giveway slow
a admitted 10485760 slow 10485760 0
a rows 2
n
1
2
a released 10485760
====
# It ends as it gives way: the plan is forgotten.
sql CREATE RESOURCE POOL slow MAXCONCURRENCY 1 QUEUETIMEOUT 0
sql CREATE RESOURCE POOL fast RUNTIMECAP '1 second' CASCADE TO slow
table t t.csv
open a dbadmin fast
open b dbadmin slow
ask b 1
query a SELECT n FROM t
at 1001
done a
ask a 1
done a
---- 0
ok
ok
table t rows 2
a opened 1
b opened 2
b admitted 23658496 slow 0 23658496
a admitted 23658496 fast 0 23658496
a giveway slow
a timedout 1001
a admitted 23658496 fast 0 23658496
a released 23658496
====
# A waiting query is cancelled: its plan is kept until its end is told.
sql CREATE RESOURCE POOL one MAXCONCURRENCY 1
table t t.csv
open a dbadmin one
open b dbadmin one
ask a 1
query b SELECT n FROM t
cancel a b
done b
poll b
done a
ask b 1
done b
---- 0
ok
table t rows 2
a opened 1
b opened 2
a admitted 23658496 one 0 23658496
b queued 1
a cancelled
b refused 22
b cancelled
a released 23658496
b admitted 23658496 one 0 23658496
b released 23658496
";

#[test]
fn plans_run_after_a_check(rt: HostRuntime) -> Result<(), Fail> {
    let alloc = rt.alloc();
    run_over(&rt, alloc, &mut shelf_of(alloc, FILES)?, PLANS)
}
