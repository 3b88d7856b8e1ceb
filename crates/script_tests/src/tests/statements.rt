//! Statements on pools: their texts, and which of them are accepted.

use super::run_cases;
use std::test::Fail;

/// A place counts bytes from 0, behind the one space after `sql`. A parameter of the pool `p` stands at place 23, its value
/// behind a name of n bytes at 24 + n.
static TEXTS: &str = "\
sql 
sql x
sql  x ;
sql CREATE  
sql CREATE POOL p
sql CREATE RESOURCE POOL
sql CREATE RESOURCE POOL min
sql CREATE RESOURCE POOL a23456789012345678901234567890_33
sql CREATE RESOURCE POOL p; x
sql CREATE RESOURCE POOL p # x
sql ALTER RESOURCE POOL general
sql ALTER RESOURCE POOL general ;
sql CREATE RESOURCE POOL p MEMORYSIZE 20
sql CREATE RESOURCE POOL p MEMORYSIZE '20'
sql CREATE RESOURCE POOL p MEMORYSIZE '20X'
sql CREATE RESOURCE POOL p MEMORYSIZE '20 M'
sql CREATE RESOURCE POOL p MEMORYSIZE '20M
sql CREATE RESOURCE POOL p MEMORYSIZE NONE
sql CREATE RESOURCE POOL p QUEUETIMEOUT '5  seconds'
sql CREATE RESOURCE POOL p RUNTIMECAP 5
sql CREATE RESOURCE POOL p CASCADE slow
---- 0
refused 1 0
refused 1 0
refused 1 1
refused 1 8
refused 1 7
refused 1 20
refused 1 21
refused 1 21
refused 1 24
refused 1 23
refused 1 27
refused 1 28
refused 1 34
refused 1 34
refused 1 34
refused 1 34
refused 1 34
refused 1 34
refused 1 36
refused 1 34
refused 1 31
====
# Key words and the units of sizes are read in any case, those of spans are not. One ; may stand at the end.
sql create Resource POOL Etl memorysize '1m' priority -1;
sql CREATE\tRESOURCE POOL  x ; \r
sql ALTER RESOURCE POOL ETL RUNTIMEPRIORITY low QUEUETIMEOUT '5 seconds' RUNTIMECAP '1 hour' CASCADE TO X
sql ALTER RESOURCE POOL ETL QUEUETIMEOUT '5 Seconds'
---- 0
ok
ok
ok
refused 1 37
====
# No parameter has the name, it was given before, or it is none that the host supports.
sql CREATE RESOURCE POOL p FOO 1
sql CREATE RESOURCE POOL p PRIORITY 1 FOO 1
sql CREATE RESOURCE POOL p PRIORITY 1 PRIORITY 2
sql CREATE RESOURCE POOL p MEMORYSIZE '1M' MAXMEMORYSIZE '1M' memorysize '2M'
sql CREATE RESOURCE POOL p CASCADE TO NONE CASCADE TO NONE
sql CREATE RESOURCE POOL p CPUAFFINITYSET 1
sql CREATE RESOURCE POOL p CPUAFFINITYMODE any
sql CREATE RESOURCE POOL p PRIORITY HOLD
---- 0
refused 2 23
refused 2 34
refused 3 PRIORITY
refused 3 MEMORYSIZE
refused 3 CASCADE
refused 4 23
refused 4 23
refused 4 32
====
# Values past the ends of their ranges.
sql CREATE RESOURCE POOL p PRIORITY 101
sql CREATE RESOURCE POOL p PRIORITY -101
sql CREATE RESOURCE POOL p MEMORYSIZE '101%'
sql CREATE RESOURCE POOL p MAXMEMORYSIZE '1025T'
sql CREATE RESOURCE POOL p MAXQUERYMEMORYSIZE '99999999999999999999T'
sql CREATE RESOURCE POOL p EXECUTIONPARALLELISM 0
sql CREATE RESOURCE POOL p PLANNEDCONCURRENCY 1001
sql CREATE RESOURCE POOL p MAXCONCURRENCY 0
sql CREATE RESOURCE POOL p RUNTIMEPRIORITYTHRESHOLD 86401
sql CREATE RESOURCE POOL p QUEUETIMEOUT 31536001
sql CREATE RESOURCE POOL p RUNTIMECAP '0 ms'
sql CREATE RESOURCE POOL p RUNTIMECAP '8761 hours'
---- 0
refused 5 PRIORITY
refused 5 PRIORITY
refused 5 MEMORYSIZE
refused 5 MAXMEMORYSIZE
refused 5 MAXQUERYMEMORYSIZE
refused 5 EXECUTIONPARALLELISM
refused 5 PLANNEDCONCURRENCY
refused 5 MAXCONCURRENCY
refused 5 RUNTIMEPRIORITYTHRESHOLD
refused 5 QUEUETIMEOUT
refused 5 RUNTIMECAP
refused 5 RUNTIMECAP
====
# Values at the ends of their ranges.
sql CREATE RESOURCE POOL a PRIORITY 100 MAXMEMORYSIZE '1024T' EXECUTIONPARALLELISM 1 PLANNEDCONCURRENCY 1000
sql CREATE RESOURCE POOL b PRIORITY -100 MAXQUERYMEMORYSIZE '100%' MAXCONCURRENCY 1000 RUNTIMEPRIORITYTHRESHOLD 86400
sql CREATE RESOURCE POOL c MEMORYSIZE '0%' QUEUETIMEOUT 31536000 RUNTIMECAP '8760 hours'
sql CREATE RESOURCE POOL d MEMORYSIZE '0K' QUEUETIMEOUT '0 ms' RUNTIMECAP '1 ms' MAXCONCURRENCY 1
---- 0
ok
ok
ok
ok
";

#[test]
fn texts_are_statements_or_refused(rt: HostRuntime) -> Result<(), Fail> {
    run_cases(&rt, rt.alloc(), TEXTS)
}

/// T is 99,614,720 at first, and 83,886,080 with MAXMEMORYSIZE '80M' for GENERAL.
static ACCEPTANCE: &str = "\
# GENERAL's MAXMEMORYSIZE is T: from 1 MiB to the machine's memory.
sql ALTER RESOURCE POOL general MAXMEMORYSIZE '101M'
sql ALTER RESOURCE POOL general MAXMEMORYSIZE '1023K'
sql ALTER RESOURCE POOL general MAXMEMORYSIZE '1%'
open a dbadmin
ask a 99614721
sql ALTER RESOURCE POOL general MAXMEMORYSIZE '100M'
ask a 104857601
sql ALTER RESOURCE POOL general MAXMEMORYSIZE '1M'
ask a 1048577
sql ALTER RESOURCE POOL general MAXMEMORYSIZE NONE
ask a 99614721
---- 0
refused 5 MAXMEMORYSIZE
refused 5 MAXMEMORYSIZE
ok
a opened 1
a refused 19 pool 99614721 1048576
ok
a refused 19 pool 104857601 104857600
ok
a refused 19 pool 1048577 1048576
ok
a refused 19 pool 99614721 99614720
====
# A query of GENERAL gets a quarter of 95 percent of T.
sql ALTER RESOURCE POOL general MAXMEMORYSIZE '80M'
open a dbadmin
ask a 1
---- 0
ok
a opened 1
a admitted 19922944 general 19922944 0
====
# Names of pools are taken once, and of those that are there.
sql CREATE RESOURCE POOL etl
sql CREATE RESOURCE POOL ETL MEMORYSIZE '1M'
sql CREATE RESOURCE POOL general
sql ALTER RESOURCE POOL load PRIORITY 1
sql ALTER RESOURCE POOL etl PRIORITY 1
---- 0
ok
refused 6
refused 6
refused 7 load
ok
====
# GENERAL reserves nothing.
sql ALTER RESOURCE POOL general MEMORYSIZE '1M'
sql ALTER RESOURCE POOL general PRIORITY 1 MEMORYSIZE '0%'
---- 0
refused 10
refused 10
====
# A pool reaches what it reserves, in one statement or in two.
sql CREATE RESOURCE POOL p MEMORYSIZE '20M' MAXMEMORYSIZE '10M'
sql CREATE RESOURCE POOL p MEMORYSIZE '20M' MAXMEMORYSIZE '20M'
sql ALTER RESOURCE POOL p MAXMEMORYSIZE '19M'
sql ALTER RESOURCE POOL p MEMORYSIZE '21M'
sql ALTER RESOURCE POOL p MEMORYSIZE '21M' MAXMEMORYSIZE NONE
---- 0
refused 11 10485760 20971520
ok
refused 11 19922944 20971520
refused 11 20971520 22020096
ok
====
# A quarter of T is left to GENERAL.
sql ALTER RESOURCE POOL general MAXMEMORYSIZE '80M'
sql CREATE RESOURCE POOL p MEMORYSIZE '61M'
sql CREATE RESOURCE POOL p MEMORYSIZE '60M'
sql CREATE RESOURCE POOL q MEMORYSIZE '1K'
sql ALTER RESOURCE POOL p MEMORYSIZE '59M'
sql CREATE RESOURCE POOL q MEMORYSIZE '1M'
sql ALTER RESOURCE POOL general MAXMEMORYSIZE '79M'
sql ALTER RESOURCE POOL general MAXMEMORYSIZE '50M'
---- 0
ok
refused 12 19922944 20971520
ok
refused 12 20970496 20971520
ok
ok
refused 12 19922944 20709376
refused 12 0 13107200
====
# CASCADE TO names a pool, and no chain returns.
sql CREATE RESOURCE POOL slow RUNTIMECAP '10 seconds' CASCADE TO nope
sql CREATE RESOURCE POOL slow RUNTIMECAP '10 seconds' CASCADE TO slow
sql CREATE RESOURCE POOL slow RUNTIMECAP '10 seconds'
sql CREATE RESOURCE POOL mid RUNTIMECAP '500 ms' CASCADE TO slow
sql CREATE RESOURCE POOL fast RUNTIMECAP '1 second' CASCADE TO mid
sql ALTER RESOURCE POOL slow CASCADE TO fast
sql ALTER RESOURCE POOL mid CASCADE TO mid
sql ALTER RESOURCE POOL mid CASCADE TO NONE
sql ALTER RESOURCE POOL slow CASCADE TO fast
sql ALTER RESOURCE POOL slow CASCADE TO general
sql ALTER RESOURCE POOL general CASCADE TO slow
sql ALTER RESOURCE POOL general CASCADE TO mid
---- 0
refused 13 nope
refused 14 slow
ok
ok
ok
refused 14 slow
refused 14 mid
ok
ok
ok
refused 14 general
ok
====
# No chain has more than 8 pools, wherever the statement's pool stands in it.
sql CREATE RESOURCE POOL p1
sql CREATE RESOURCE POOL p2 CASCADE TO p1
sql CREATE RESOURCE POOL p3 CASCADE TO p2
sql CREATE RESOURCE POOL p4 CASCADE TO p3
sql CREATE RESOURCE POOL p5 CASCADE TO p4
sql CREATE RESOURCE POOL p6 CASCADE TO p5
sql CREATE RESOURCE POOL p7 CASCADE TO p6
sql CREATE RESOURCE POOL p8 CASCADE TO p7
sql CREATE RESOURCE POOL p9 CASCADE TO p8
sql ALTER RESOURCE POOL p1 CASCADE TO general
sql CREATE RESOURCE POOL p9 CASCADE TO p7
---- 0
ok
ok
ok
ok
ok
ok
ok
ok
refused 15 9
refused 15 9
ok
====
# Of several refusals the one with the least number comes.
sql CREATE RESOURCE POOL general MEMORYSIZE '90M' MAXMEMORYSIZE '1M' CASCADE TO nope
sql ALTER RESOURCE POOL general MEMORYSIZE '90M' MAXMEMORYSIZE '1M' CASCADE TO nope
sql ALTER RESOURCE POOL general MEMORYSIZE '1M' MAXMEMORYSIZE '1K'
sql ALTER RESOURCE POOL p MEMORYSIZE '90M' MAXMEMORYSIZE '1M' CASCADE TO nope
sql CREATE RESOURCE POOL p MEMORYSIZE '90M' MAXMEMORYSIZE '1M' CASCADE TO nope
sql CREATE RESOURCE POOL p MEMORYSIZE '90M' CASCADE TO nope
sql CREATE RESOURCE POOL p MEMORYSIZE '90M' CASCADE TO p
---- 0
refused 6
refused 10
refused 5 MAXMEMORYSIZE
refused 7 p
refused 11 1048576 94371840
refused 12 5242880 24903680
refused 12 5242880 24903680
====
# A percentage is of T, as it is before the statement, and for GENERAL of the machine's memory.
sql ALTER RESOURCE POOL general MAXMEMORYSIZE '80M'
sql CREATE RESOURCE POOL p MEMORYSIZE '25%' MAXMEMORYSIZE '50%' PLANNEDCONCURRENCY 1
open a dbadmin p
ask a 1
ask a 1
done a
ask a 41943041
sql ALTER RESOURCE POOL general MAXMEMORYSIZE '50%'
ask a 1
done a
set a pool general
ask a 31457281
---- 0
ok
ok
a opened 1
a admitted 20971520 p 20971520 0
a refused 21
a released 20971520
a refused 19 pool 41943041 41943040
ok
a admitted 20971520 p 20971520 0
a released 20971520
a set
a refused 19 pool 31457281 31457280
====
# ALTER keeps what it does not name, DEFAULT stands for what CREATE takes, and what is refused changes nothing.
sql CREATE RESOURCE POOL p MEMORYSIZE '8M' PLANNEDCONCURRENCY 2 MAXCONCURRENCY 1
open a dbadmin p
open b dbadmin p
sql ALTER RESOURCE POOL p PRIORITY 1
sql ALTER RESOURCE POOL p PLANNEDCONCURRENCY 1 CASCADE TO nope
ask a 1
ask b 1
sql ALTER RESOURCE POOL p MAXCONCURRENCY DEFAULT
poll b
done a
done b
sql ALTER RESOURCE POOL p PLANNEDCONCURRENCY DEFAULT
ask a 1
sql ALTER RESOURCE POOL p MEMORYSIZE DEFAULT PLANNEDCONCURRENCY AUTO
ask b 1
---- 0
ok
a opened 1
b opened 2
ok
refused 13 nope
a admitted 4194304 p 4194304 0
b queued 1
ok
b admitted 4194304 p 4194304 0
a released 4194304
b released 4194304
ok
a admitted 2097152 p 2097152 0
ok
b admitted 23658496 p 0 23658496
====
# No query of the pool may have more than its MAXQUERYMEMORYSIZE, not its budget either.
sql CREATE RESOURCE POOL p MAXQUERYMEMORYSIZE '1M'
open a dbadmin p
ask a 1048577
ask a 1
sql CREATE RESOURCE POOL q MAXMEMORYSIZE '1M' MAXQUERYMEMORYSIZE '1M'
open b dbadmin q
ask b 1048577
---- 0
ok
a opened 1
a refused 19 query 1048577 1048576
a admitted 1048576 p 0 1048576
ok
b opened 2
b refused 19 pool 1048577 1048576
";

#[test]
fn statements_are_accepted_by_the_definitions(rt: HostRuntime) -> Result<(), Fail> {
    run_cases(&rt, rt.alloc(), ACCEPTANCE)
}
