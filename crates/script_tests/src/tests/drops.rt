//! Pools that are dropped while queries of theirs wait and run.

use super::run_cases;
use std::test::Fail;

/// T is 83,886,080, GENERAL's threshold 79,691,776, and a query of GENERAL asks for 19,922,944 while no pool reserves
/// anything.
static CASES: &str = "\
# Waiting queries of a pool whose priority is above GENERAL's go before all others, in their order; what runs keeps its grant.
sql ALTER RESOURCE POOL general MAXMEMORYSIZE '80M' MAXCONCURRENCY 1
sql CREATE RESOURCE POOL p MEMORYSIZE '10M' PLANNEDCONCURRENCY 1 PRIORITY 5 MAXCONCURRENCY 1
open x dbadmin p
open y dbadmin p
open z dbadmin p
open g1 dbadmin
open g2 dbadmin
ask x 1
ask g1 1
ask g2 1
ask y 1
ask z 1
sql DROP RESOURCE POOL p
poll y
poll z
poll g2
poll x
done x
poll y
done g1
poll y
---- 0
ok
ok
x opened 1
y opened 2
z opened 3
g1 opened 4
g2 opened 5
x admitted 10485760 p 10485760 0
g1 admitted 19922944 general 19922944 0
g2 queued 1
y queued 2
z queued 3
ok
y waiting 1
z waiting 2
g2 waiting 3
x admitted 10485760 general 10485760 0
x released 10485760
y waiting 1
g1 released 19922944
y admitted 19922944 general 19922944 0
====
# Those of a pool whose priority is not above GENERAL's go behind all others.
sql ALTER RESOURCE POOL general MAXMEMORYSIZE '80M' MAXCONCURRENCY 1
sql CREATE RESOURCE POOL p PRIORITY 0 MAXCONCURRENCY 1
open x dbadmin p
open y dbadmin p
open g1 dbadmin
open g2 dbadmin
ask x 1
ask y 1
ask g1 1
ask g2 1
sql DROP RESOURCE POOL p
poll g2
poll y
---- 0
ok
ok
x opened 1
y opened 2
g1 opened 3
g2 opened 4
x admitted 19922944 p 0 19922944
y queued 1
g1 admitted 19922944 general 19922944 0
g2 queued 2
ok
g2 waiting 1
y waiting 2
====
# A drop while the pool still grows: its 24,117,248 bytes go back, its query runs on in GENERAL, and 16,252,928 are free.
sql ALTER RESOURCE POOL general MAXMEMORYSIZE '80M'
open g1 dbadmin
open g2 dbadmin
open g3 dbadmin
open g4 dbadmin
ask g1 1
ask g2 1
ask g3 1
ask g4 1
sql CREATE RESOURCE POOL r MEMORYSIZE '30M'
open x dbadmin r
ask x 1
done g1
poll x
sql DROP RESOURCE POOL r
poll x
ask g1 1
done x
poll g1
---- 0
ok
g1 opened 1
g2 opened 2
g3 opened 3
g4 opened 4
g1 admitted 19922944 general 19922944 0
g2 admitted 19922944 general 19922944 0
g3 admitted 19922944 general 19922944 0
g4 admitted 19922944 general 19922944 0
ok
x opened 5
x queued 1
g1 released 19922944
x admitted 7864320 r 7864320 0
ok
x admitted 7864320 general 7864320 0
g1 queued 1
x released 7864320
g1 admitted 19922944 general 19922944 0
====
# A drop while another pool still grows: that pool grows on by what comes free, to 18,874,368, and GENERAL's use, 65,011,712,
# is above the 52,428,800 that it may reach, so nobody is admitted to it until two more of its queries have ended.
sql ALTER RESOURCE POOL general MAXMEMORYSIZE '80M'
open g1 dbadmin
open g2 dbadmin
open g3 dbadmin
open g4 dbadmin
ask g1 1
ask g2 1
ask g3 1
ask g4 1
sql CREATE RESOURCE POOL a MEMORYSIZE '20M'
sql CREATE RESOURCE POOL b MEMORYSIZE '30M'
done g1
open y dbadmin a
ask y 1
sql DROP RESOURCE POOL a
poll y
open z dbadmin b
ask z 1
ask g1 1
done g2
poll g1
done g3
poll g1
---- 0
ok
g1 opened 1
g2 opened 2
g3 opened 3
g4 opened 4
g1 admitted 19922944 general 19922944 0
g2 admitted 19922944 general 19922944 0
g3 admitted 19922944 general 19922944 0
g4 admitted 19922944 general 19922944 0
ok
ok
g1 released 19922944
y opened 5
y admitted 5242880 a 5242880 0
ok
y admitted 5242880 general 5242880 0
z opened 6
z admitted 7864320 b 7864320 0
g1 queued 1
g2 released 19922944
g1 waiting 1
g3 released 19922944
g1 admitted 19922944 general 19922944 0
====
# Sessions that chose the pool have chosen GENERAL, a user of it has GENERAL, and a role has none, so another role counts.
sql CREATE RESOURCE POOL p
sql CREATE RESOURCE POOL q
sql CREATE USER ann
sql CREATE USER ben
sql CREATE ROLE r
sql CREATE ROLE t
sql GRANT USAGE ON RESOURCE POOL p TO ann
sql GRANT USAGE ON RESOURCE POOL p TO r
sql GRANT USAGE ON RESOURCE POOL q TO t
sql ALTER USER ann RESOURCE POOL p
sql ALTER ROLE r RESOURCE POOL p
sql ALTER ROLE t RESOURCE POOL q
sql GRANT r TO ben
sql GRANT t TO ben
open a ann
open b ben
open c dbadmin p
sql DROP RESOURCE POOL p
ask a 1
ask b 1
ask c 1
sql CREATE RESOURCE POOL p
done a
ask a 1
set a pool p
---- 0
ok
ok
ok
ok
ok
ok
ok
ok
ok
ok
ok
ok
ok
ok
a opened 1
b opened 2
c opened 3
ok
a admitted 23658496 general 23658496 0
b admitted 23658496 q 0 23658496
c admitted 23658496 general 23658496 0
ok
a released 23658496
a admitted 23658496 general 23658496 0
a refused 23 p
====
# What is not dropped: a pool that is not there, GENERAL, and one to which others cascade, of which the first is named.
sql CREATE RESOURCE POOL slow
sql CREATE RESOURCE POOL mid CASCADE TO slow
sql CREATE RESOURCE POOL other CASCADE TO slow
sql DROP RESOURCE POOL nope
sql DROP RESOURCE POOL general
sql DROP RESOURCE POOL slow
sql DROP RESOURCE POOL mid
sql DROP RESOURCE POOL slow
sql ALTER RESOURCE POOL other CASCADE TO NONE
sql DROP RESOURCE POOL slow
sql DROP RESOURCE POOL slow
---- 0
ok
ok
ok
refused 7 nope
refused 10
refused 16 mid
ok
refused 16 other
ok
ok
refused 7 slow
";

#[test]
fn pools_are_dropped(rt: HostRuntime) -> Result<(), Fail> {
    run_cases(&rt, rt.alloc(), CASES)
}
