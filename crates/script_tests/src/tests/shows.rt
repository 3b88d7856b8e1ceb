//! System tables, as scripts show them.

use super::{compare, run_cases};
use std::test::Fail;

static ON_A_LARGER_MACHINE: &str = "\
show resource_pool_status
sql CREATE RESOURCE POOL ceo_pool MEMORYSIZE '1800M' PRIORITY 10
show resource_pool_status
show resource_pools
";

/// T is 95 percent of 16 GiB, of which ceo_pool reserves 1800 MiB. AUTO stands for 7, since 7 times 2 GiB fit into T.
static ON_A_LARGER_MACHINE_EXPECTED: &str = "\
0
pool_name,memory_size,memory_size_actual,max_memory_size,memory_in_use,memory_borrowed,queueing_threshold,query_budget,running,waiting
general,16320875724,16320875724,16320875724,0,0,15504831937,2214975991,0,0
ok
pool_name,memory_size,memory_size_actual,max_memory_size,memory_in_use,memory_borrowed,queueing_threshold,query_budget,running,waiting
general,14433438924,14433438924,16320875724,0,0,15504831937,2214975991,0,0
ceo_pool,1887436800,1887436800,,0,0,15504831937,269633828,0,0
name,memory_size,max_memory_size,max_query_memory_size,execution_parallelism,priority,runtime_priority,runtime_priority_threshold,queue_timeout,planned_concurrency,max_concurrency,runtime_cap,cascade_to
general,0,,,,0,medium,2000,300000,7,,,
ceo_pool,1887436800,,,,10,medium,2000,300000,7,,,
";

static TABLES: &str = "\
# A host with nobody there. Tables without rows are their header alone, what is not set is an empty cell, and a name may be
# written in any case.
show resource_pools
show resource_pool_status
show resource_acquisitions
show resource_queues
show resource_rejections
show resource_pool_move
show SESSIONS
show nope
show resource_pool
---- 0
name,memory_size,max_memory_size,max_query_memory_size,execution_parallelism,priority,runtime_priority,runtime_priority_threshold,queue_timeout,planned_concurrency,max_concurrency,runtime_cap,cascade_to
general,0,,,,0,medium,2000,300000,4,,,
pool_name,memory_size,memory_size_actual,max_memory_size,memory_in_use,memory_borrowed,queueing_threshold,query_budget,running,waiting
general,99614720,99614720,99614720,0,0,94633984,23658496,0,0
session,query,pool_name,memory,own,borrowed,start,moves
place,session,query,pool_name,queued,deadline
pool_name,timedout,toolarge,cancelled
general,0,0,0
at,session,query,source,target,ran
session,user_name,pool_name,runtime_cap,condition
refused 26 nope
refused 26 resource_pool
====
# All that a pool may be given, and the order of creation.
sql CREATE RESOURCE POOL slow RUNTIMEPRIORITY LOW QUEUETIMEOUT 0
sql CREATE RESOURCE POOL etl MEMORYSIZE '20M' MAXMEMORYSIZE '40M' MAXQUERYMEMORYSIZE '30M' EXECUTIONPARALLELISM 3 PRIORITY -7 RUNTIMEPRIORITY HIGH RUNTIMEPRIORITYTHRESHOLD 5 QUEUETIMEOUT NONE PLANNEDCONCURRENCY 2 MAXCONCURRENCY 9 RUNTIMECAP '10 seconds' CASCADE TO slow
sql ALTER RESOURCE POOL general MAXMEMORYSIZE '80M'
show resource_pools
---- 0
ok
ok
ok
name,memory_size,max_memory_size,max_query_memory_size,execution_parallelism,priority,runtime_priority,runtime_priority_threshold,queue_timeout,planned_concurrency,max_concurrency,runtime_cap,cascade_to
general,0,83886080,,,0,medium,2000,300000,4,,,
slow,0,,,,0,low,2000,0,4,,,
etl,20971520,41943040,31457280,3,-7,high,5000,,2,9,10000,slow
====
# T is 80 MiB. etl has 20 MiB, of which its first two queries take a half each; the next two borrow as much again, and the
# fifth waits, since they hold more than 95 percent of etl's MAXMEMORYSIZE. In one a query runs and one waits, with no
# deadline. A deadline that has come takes effect at the next event, which showing is not.
sql ALTER RESOURCE POOL general MAXMEMORYSIZE '80M'
sql CREATE RESOURCE POOL etl MEMORYSIZE '20M' MAXMEMORYSIZE '40M' PLANNEDCONCURRENCY 2 QUEUETIMEOUT 60
sql CREATE RESOURCE POOL one MAXCONCURRENCY 1 QUEUETIMEOUT NONE
sql CREATE USER ann
sql GRANT USAGE ON RESOURCE POOL one TO ann
open a dbadmin etl
open b dbadmin etl
open c dbadmin etl
open d dbadmin etl
open e dbadmin etl
open f ann one
open g ann one
open h ann
at 1000
ask a 1
ask b 1
at 1500
ask c 1
ask d 1
at 2000
ask e 1
ask f 1
ask g 1
set g cap 5000
at 2500
ask h 1
show resource_acquisitions
show resource_queues
show sessions
show resource_pool_status
at 62000
show resource_queues
poll e
ask e 9000000
show resource_queues
sql ALTER RESOURCE POOL etl MAXQUERYMEMORYSIZE '8M'
cancel f g
show resource_queues
show sessions
poll e
show resource_rejections
sql DROP RESOURCE POOL etl
show resource_rejections
show resource_acquisitions
---- 0
ok
ok
ok
ok
ok
a opened 1
b opened 2
c opened 3
d opened 4
e opened 5
f opened 6
g opened 7
h opened 8
a admitted 10485760 etl 10485760 0
b admitted 10485760 etl 10485760 0
c admitted 10485760 etl 0 10485760
d admitted 10485760 etl 0 10485760
e queued 1
f admitted 19922944 one 0 19922944
g queued 2
g set
h admitted 19922944 general 19922944 0
session,query,pool_name,memory,own,borrowed,start,moves
1,1,etl,10485760,10485760,0,1000,0
2,2,etl,10485760,10485760,0,1000,0
3,3,etl,10485760,0,10485760,1500,0
4,4,etl,10485760,0,10485760,1500,0
6,6,one,19922944,0,19922944,2000,0
8,8,general,19922944,19922944,0,2500,0
place,session,query,pool_name,queued,deadline
1,5,5,etl,2000,62000
2,7,7,one,2000,
session,user_name,pool_name,runtime_cap,condition
1,dbadmin,etl,,running
2,dbadmin,etl,,running
3,dbadmin,etl,,running
4,dbadmin,etl,,running
5,dbadmin,etl,,waiting
6,ann,one,,running
7,ann,one,5000,waiting
8,ann,general,,running
pool_name,memory_size,memory_size_actual,max_memory_size,memory_in_use,memory_borrowed,queueing_threshold,query_budget,running,waiting
general,62914560,62914560,83886080,19922944,0,79691776,19922944,1,0
etl,20971520,20971520,41943040,41943040,20971520,39845888,10485760,4,1
one,0,0,,19922944,19922944,79691776,19922944,1,1
place,session,query,pool_name,queued,deadline
1,5,5,etl,2000,62000
2,7,7,one,2000,
e timedout 62000
e queued 2
place,session,query,pool_name,queued,deadline
1,7,7,one,2000,
2,5,9,etl,62000,122000
ok
f cancelled
place,session,query,pool_name,queued,deadline
session,user_name,pool_name,runtime_cap,condition
1,dbadmin,etl,,running
2,dbadmin,etl,,running
3,dbadmin,etl,,running
4,dbadmin,etl,,running
5,dbadmin,etl,,ended
6,ann,one,,running
7,ann,one,5000,ended
8,ann,general,,running
e toolarge query 9000000 8388608
pool_name,timedout,toolarge,cancelled
general,0,0,0
etl,1,1,0
one,0,0,1
ok
pool_name,timedout,toolarge,cancelled
general,0,0,0
one,0,0,1
session,query,pool_name,memory,own,borrowed,start,moves
1,1,general,10485760,10485760,0,1000,0
2,2,general,10485760,10485760,0,1000,0
3,3,general,10485760,10485760,0,1500,0
4,4,general,10485760,10485760,0,1500,0
6,6,one,19922944,0,19922944,2000,0
8,8,general,19922944,19922944,0,2500,0
====
# Moves stand in the order in which they were made, and keep the names of dropped pools. One was taken over as it ran, the
# other gave way and was admitted later, with the bytes that its new pool has.
sql CREATE RESOURCE POOL slow
sql CREATE RESOURCE POOL fast RUNTIMECAP '1 second' CASCADE TO slow
sql CREATE RESOURCE POOL tiny MEMORYSIZE '10M' MAXMEMORYSIZE '10M' PLANNEDCONCURRENCY 1
sql CREATE RESOURCE POOL quick RUNTIMECAP '2 seconds' CASCADE TO tiny
open a dbadmin fast
open b dbadmin tiny
open c dbadmin quick
ask a 1
at 1001
check a
ask b 1
ask c 1
at 3002
check c
show resource_acquisitions
way c
show resource_queues
done b
show resource_acquisitions
sql DROP RESOURCE POOL fast
show resource_pool_move
---- 0
ok
ok
ok
ok
a opened 1
b opened 2
c opened 3
a admitted 23658496 fast 0 23658496
a moved slow
b admitted 10485760 tiny 10485760 0
c admitted 23658496 quick 0 23658496
c giveway tiny
session,query,pool_name,memory,own,borrowed,start,moves
1,1,slow,23658496,0,23658496,1001,1
2,2,tiny,10485760,10485760,0,1001,0
3,3,quick,23658496,0,23658496,1001,1
c queued 1
place,session,query,pool_name,queued,deadline
1,3,3,tiny,3002,303002
b released 10485760
session,query,pool_name,memory,own,borrowed,start,moves
1,1,slow,23658496,0,23658496,1001,1
3,3,tiny,10485760,10485760,0,3002,1
ok
at,session,query,source,target,ran
1001,1,1,fast,slow,1001
3002,3,3,quick,tiny,2001
====
# A pool that is made while most of the memory is in use begins with what is free, and grows as queries end.
sql ALTER RESOURCE POOL general MAXMEMORYSIZE '80M'
open a dbadmin
open b dbadmin
open c dbadmin
open d dbadmin
ask a 1
ask b 1
ask c 1
ask d 1
sql CREATE RESOURCE POOL r MEMORYSIZE '30M'
show resource_pool_status
done a
show resource_pool_status
done b
show resource_pool_status
---- 0
ok
a opened 1
b opened 2
c opened 3
d opened 4
a admitted 19922944 general 19922944 0
b admitted 19922944 general 19922944 0
c admitted 19922944 general 19922944 0
d admitted 19922944 general 19922944 0
ok
pool_name,memory_size,memory_size_actual,max_memory_size,memory_in_use,memory_borrowed,queueing_threshold,query_budget,running,waiting
general,52428800,79691776,83886080,79691776,0,79691776,19922944,4,0
r,31457280,4194304,,0,0,79691776,7864320,0,0
a released 19922944
pool_name,memory_size,memory_size_actual,max_memory_size,memory_in_use,memory_borrowed,queueing_threshold,query_budget,running,waiting
general,52428800,59768832,83886080,59768832,0,79691776,19922944,3,0
r,31457280,24117248,,0,0,79691776,7864320,0,0
b released 19922944
pool_name,memory_size,memory_size_actual,max_memory_size,memory_in_use,memory_borrowed,queueing_threshold,query_budget,running,waiting
general,52428800,52428800,83886080,39845888,0,79691776,19922944,2,0
r,31457280,31457280,,0,0,79691776,7864320,0,0
====
# A total that is lowered below what is in use is in force as queries end.
sql ALTER RESOURCE POOL general MAXMEMORYSIZE '80M'
open a dbadmin
open b dbadmin
open c dbadmin
open d dbadmin
ask a 1
ask b 1
ask c 1
ask d 1
sql ALTER RESOURCE POOL general MAXMEMORYSIZE '30M'
show resource_pool_status
done a
show resource_pool_status
done b
show resource_pool_status
done c
show resource_pool_status
---- 0
ok
a opened 1
b opened 2
c opened 3
d opened 4
a admitted 19922944 general 19922944 0
b admitted 19922944 general 19922944 0
c admitted 19922944 general 19922944 0
d admitted 19922944 general 19922944 0
ok
pool_name,memory_size,memory_size_actual,max_memory_size,memory_in_use,memory_borrowed,queueing_threshold,query_budget,running,waiting
general,31457280,79691776,31457280,79691776,0,29884416,7471104,4,0
a released 19922944
pool_name,memory_size,memory_size_actual,max_memory_size,memory_in_use,memory_borrowed,queueing_threshold,query_budget,running,waiting
general,31457280,59768832,31457280,59768832,0,29884416,7471104,3,0
b released 19922944
pool_name,memory_size,memory_size_actual,max_memory_size,memory_in_use,memory_borrowed,queueing_threshold,query_budget,running,waiting
general,31457280,39845888,31457280,39845888,0,29884416,7471104,2,0
c released 19922944
pool_name,memory_size,memory_size_actual,max_memory_size,memory_in_use,memory_borrowed,queueing_threshold,query_budget,running,waiting
general,31457280,31457280,31457280,19922944,0,29884416,7471104,1,0
====
show
---- 2
bad line 1
====
show sessions sessions
---- 2
bad line 1
====
show count
---- 2
bad line 1
====
show 1st
---- 2
bad line 1
====
Show sessions
---- 2
bad line 1
====
# Lines after one that is refused are done.
show tables
show sessions
shows sessions
---- 2
refused 26 tables
session,user_name,pool_name,runtime_cap,condition
bad line 4
";

#[test]
fn system_tables_show_the_state(rt: HostRuntime) -> Result<(), Fail> {
    run_cases(&rt, rt.alloc(), TABLES)
}

#[test]
fn automatic_counts_are_shown_as_those_in_force(rt: HostRuntime) -> Result<(), Fail> {
    compare(
        &rt,
        rt.alloc(),
        "script --memory 16G --cores 8",
        ON_A_LARGER_MACHINE,
        ON_A_LARGER_MACHINE_EXPECTED,
    )
}
