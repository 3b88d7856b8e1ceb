//! The queue: priorities, how many queries of a pool run at a time, and deadlines.

use super::run_cases;
use std::test::Fail;

/// T is 99,614,720 where nothing says otherwise, and a query's share 23,658,496, in GENERAL and in a pool that reserves
/// nothing. Four such queries leave 4,980,736 bytes free.
static ORDER: &str = "\
# h2 finds 6990507 bytes free and waits. The pool lo has bytes of its own, but l3 would pass h2 with GENERAL's.
sql ALTER RESOURCE POOL general MAXMEMORYSIZE '80M'
sql CREATE RESOURCE POOL hi PRIORITY 10 PLANNEDCONCURRENCY 3
sql CREATE RESOURCE POOL lo MEMORYSIZE '10M' PLANNEDCONCURRENCY 2
open g1 dbadmin
open g2 dbadmin
open h1 dbadmin hi
open h2 dbadmin hi
open l1 dbadmin lo
open l2 dbadmin lo
open l3 dbadmin lo
ask g1 1
ask h1 1
ask g2 1
ask h2 1
ask l1 1
ask l2 1
ask l3 1
done g1
poll h2
poll l3
---- 0
ok
ok
ok
g1 opened 1
g2 opened 2
h1 opened 3
h2 opened 4
l1 opened 5
l2 opened 6
l3 opened 7
g1 admitted 19922944 general 19922944 0
h1 admitted 26563925 hi 0 26563925
g2 admitted 19922944 general 19922944 0
h2 queued 1
l1 admitted 5242880 lo 5242880 0
l2 admitted 5242880 lo 5242880 0
l3 queued 2
g1 released 19922944
h2 admitted 26563925 hi 0 26563925
l3 waiting 1
====
# The higher priority comes first, of one pool the earlier, and the place counts all who wait.
sql CREATE RESOURCE POOL high PRIORITY 10
sql CREATE RESOURCE POOL low PRIORITY -5 PLANNEDCONCURRENCY 100
open a dbadmin
open b dbadmin
open c dbadmin
open d dbadmin
open e dbadmin low
open f dbadmin
open g dbadmin high
open h dbadmin high
ask a 1
ask b 1
ask c 1
ask d 1
ask e 23658496
ask f 1
ask g 1
ask h 1
done a
poll g
poll h
done b
poll h
poll f
done c
poll f
poll e
done d
poll e
---- 0
ok
ok
a opened 1
b opened 2
c opened 3
d opened 4
e opened 5
f opened 6
g opened 7
h opened 8
a admitted 23658496 general 23658496 0
b admitted 23658496 general 23658496 0
c admitted 23658496 general 23658496 0
d admitted 23658496 general 23658496 0
e queued 1
f queued 2
g queued 3
h queued 4
a released 23658496
g admitted 23658496 high 0 23658496
h waiting 3
b released 23658496
h admitted 23658496 high 0 23658496
f waiting 2
c released 23658496
f admitted 23658496 general 23658496 0
e waiting 1
d released 23658496
e admitted 23658496 low 0 23658496
====
# A query of low asks for 946339 bytes. One that comes before the query of high has them, one that comes behind it waits
# though they are free, and then until GENERAL's use of 95580323 is within its threshold of 94633984.
sql CREATE RESOURCE POOL high PRIORITY 10
sql CREATE RESOURCE POOL low PRIORITY -5 PLANNEDCONCURRENCY 100
open a dbadmin
open b dbadmin
open c dbadmin
open d dbadmin
open e dbadmin low
open f dbadmin high
open g dbadmin low
ask a 1
ask b 1
ask c 1
ask d 1
ask e 1
ask f 1
ask g 1
done a
poll f
poll g
done b
poll g
---- 0
ok
ok
a opened 1
b opened 2
c opened 3
d opened 4
e opened 5
f opened 6
g opened 7
a admitted 23658496 general 23658496 0
b admitted 23658496 general 23658496 0
c admitted 23658496 general 23658496 0
d admitted 23658496 general 23658496 0
e admitted 946339 low 0 946339
f queued 1
g queued 2
a released 23658496
f admitted 23658496 high 0 23658496
g waiting 1
b released 23658496
g admitted 946339 low 0 946339
====
# Of equal priority the one that was queued first goes first, in whatever order their pools stand.
sql CREATE RESOURCE POOL one MAXCONCURRENCY 1
sql CREATE RESOURCE POOL still MAXCONCURRENCY 1
open a dbadmin
open b dbadmin
open c dbadmin
open d dbadmin
open e dbadmin still
open f dbadmin one
ask a 1
ask b 1
ask c 1
ask d 1
ask e 1
ask f 1
done a
poll e
poll f
---- 0
ok
ok
a opened 1
b opened 2
c opened 3
d opened 4
e opened 5
f opened 6
a admitted 23658496 general 23658496 0
b admitted 23658496 general 23658496 0
c admitted 23658496 general 23658496 0
d admitted 23658496 general 23658496 0
e queued 1
f queued 2
a released 23658496
e admitted 23658496 still 0 23658496
f waiting 1
====
# 28639232 bytes are free once b is done. The pool hi is of higher priority and its query needs 47316992, so l waits.
sql CREATE RESOURCE POOL hi PRIORITY 1 PLANNEDCONCURRENCY 2
open a dbadmin
open b dbadmin
open l dbadmin
open h dbadmin hi
ask a 70975488
ask b 1
ask l 1
ask h 1
done b
poll l
done a
poll h
---- 0
ok
a opened 1
b opened 2
l opened 3
h opened 4
a admitted 70975488 general 70975488 0
b admitted 23658496 general 23658496 0
l queued 1
h queued 2
b released 23658496
l waiting 1
a released 70975488
h admitted 47316992 hi 0 47316992
====
# With equal priorities l, which was queued first, has them.
sql CREATE RESOURCE POOL hi PLANNEDCONCURRENCY 2
open a dbadmin
open b dbadmin
open l dbadmin
open h dbadmin hi
ask a 70975488
ask b 1
ask l 1
ask h 1
done b
poll l
poll h
---- 0
ok
a opened 1
b opened 2
l opened 3
h opened 4
a admitted 70975488 general 70975488 0
b admitted 23658496 general 23658496 0
l queued 1
h queued 2
b released 23658496
l admitted 23658496 general 23658496 0
h waiting 1
====
# As many queries of a pool run as may, and one whose own pool is full holds up no other pool.
sql CREATE RESOURCE POOL one PRIORITY 1 MAXCONCURRENCY 1
open a dbadmin one
open b dbadmin one
open c dbadmin
open d dbadmin one
ask a 1
ask b 1
ask c 1
done a
poll b
ask d 1
sql ALTER RESOURCE POOL one MAXCONCURRENCY 2
poll d
---- 0
ok
a opened 1
b opened 2
c opened 3
d opened 4
a admitted 23658496 one 0 23658496
b queued 1
c admitted 23658496 general 23658496 0
a released 23658496
b admitted 23658496 one 0 23658496
d queued 1
ok
d admitted 23658496 one 0 23658496
";

#[test]
fn heads_are_admitted_in_queue_order(rt: HostRuntime) -> Result<(), Fail> {
    run_cases(&rt, rt.alloc(), ORDER)
}

/// Two pools that reserve nothing, and 28,639,232 bytes free beside a query of GENERAL: a query of `lo` asks for
/// 23,658,496 of them, and one of `hi` for 47,316,992.
static UNBLOCKED: &str = "\
# The head of hi blocks until its deadline.
sql CREATE RESOURCE POOL hi PRIORITY 1 PLANNEDCONCURRENCY 2 QUEUETIMEOUT 1
sql CREATE RESOURCE POOL lo PRIORITY -1
open g dbadmin
open h dbadmin hi
open l dbadmin lo
ask g 70975488
ask h 1
ask l 1
at 999
poll l
poll h
at 1000
poll l
poll h
---- 0
ok
ok
g opened 1
h opened 2
l opened 3
g admitted 70975488 general 70975488 0
h queued 1
l queued 2
l waiting 2
h waiting 1
l admitted 23658496 lo 0 23658496
h timedout 1000
====
# Or until none of its pool may wait.
sql CREATE RESOURCE POOL hi PRIORITY 1 PLANNEDCONCURRENCY 2 QUEUETIMEOUT 1
sql CREATE RESOURCE POOL lo PRIORITY -1
open g dbadmin
open h dbadmin hi
open l dbadmin lo
ask g 70975488
ask h 1
ask l 1
sql ALTER RESOURCE POOL hi QUEUETIMEOUT 0
poll l
poll h
---- 0
ok
ok
g opened 1
h opened 2
l opened 3
g admitted 70975488 general 70975488 0
h queued 1
l queued 2
ok
l admitted 23658496 lo 0 23658496
h timedout 0
====
# Or until its priority is the lower one; equal is not enough, for it was queued first.
sql CREATE RESOURCE POOL hi PRIORITY 1 PLANNEDCONCURRENCY 2
sql CREATE RESOURCE POOL lo PRIORITY -1
open g dbadmin
open h dbadmin hi
open l dbadmin lo
ask g 70975488
ask h 1
ask l 1
sql ALTER RESOURCE POOL hi PRIORITY -1
poll l
sql ALTER RESOURCE POOL hi PRIORITY -2
poll l
poll h
---- 0
ok
ok
g opened 1
h opened 2
l opened 3
g admitted 70975488 general 70975488 0
h queued 1
l queued 2
ok
l waiting 2
ok
l admitted 23658496 lo 0 23658496
h waiting 1
====
# Or until what it needs is free.
sql CREATE RESOURCE POOL hi PRIORITY 1 PLANNEDCONCURRENCY 2
sql CREATE RESOURCE POOL lo PRIORITY -1
open g dbadmin
open h dbadmin hi
open l dbadmin lo
ask g 70975488
ask h 1
ask l 1
done g
poll h
poll l
---- 0
ok
ok
g opened 1
h opened 2
l opened 3
g admitted 70975488 general 70975488 0
h queued 1
l queued 2
g released 70975488
h admitted 47316992 hi 0 47316992
l admitted 23658496 lo 0 23658496
";

#[test]
fn what_waits_behind_a_blocked_head_is_let_go(rt: HostRuntime) -> Result<(), Fail> {
    run_cases(&rt, rt.alloc(), UNBLOCKED)
}

static DEADLINES: &str = "\
# At its deadline b is out of the queue, before the query ends for whose place it waited. In none0 nobody waits.
sql ALTER RESOURCE POOL general MAXMEMORYSIZE '80M'
sql CREATE RESOURCE POOL one MAXCONCURRENCY 1 QUEUETIMEOUT 5
sql CREATE RESOURCE POOL none0 MAXCONCURRENCY 1 QUEUETIMEOUT 0
open a dbadmin one
open b dbadmin one
open c dbadmin none0
open d dbadmin none0
ask a 1
ask b 1
at 5000
done a
poll b
ask c 1
ask d 1
---- 0
ok
ok
ok
a opened 1
b opened 2
c opened 3
d opened 4
a admitted 19922944 one 0 19922944
b queued 1
a released 19922944
b timedout 5000
c admitted 19922944 none0 0 19922944
d timedout 5000
====
# With QUEUETIMEOUT NONE there is no deadline.
sql CREATE RESOURCE POOL one MAXCONCURRENCY 1 QUEUETIMEOUT NONE
open a dbadmin one
open b dbadmin one
ask a 1
ask b 1
at 1000000
poll b
at 999999999999999
poll b
---- 0
ok
a opened 1
b opened 2
a admitted 23658496 one 0 23658496
b queued 1
b waiting 1
b waiting 1
====
# With QUEUETIMEOUT 0 a query that cannot run ends at once, and leaves its session free for the next.
sql ALTER RESOURCE POOL general MAXMEMORYSIZE '80M'
sql ALTER RESOURCE POOL general QUEUETIMEOUT 0 MAXCONCURRENCY 1
open a dbadmin
open b dbadmin
ask a 1
ask b 1
ask b 1
at 7
ask b 1
poll b
at 8
done a
ask b 1
---- 0
ok
ok
a opened 1
b opened 2
a admitted 19922944 general 19922944 0
b timedout 0
b timedout 0
b timedout 7
b refused 22
a released 19922944
b admitted 19922944 general 19922944 0
====
# It is 5 minutes where nothing is said, from the moment at which the query was queued.
open a dbadmin
open b dbadmin
ask a 99614720
at 10
ask b 1
at 300009
poll b
at 300010
poll b
poll b
---- 0
a opened 1
b opened 2
a admitted 99614720 general 99614720 0
b queued 1
b waiting 1
b timedout 300010
b refused 22
====
# A deadline acts with the first event at its moment or later, whosoever's: also with one that is refused, and with a poll
# of another query. Its end is told when it is asked for.
sql CREATE RESOURCE POOL one MAXCONCURRENCY 1 QUEUETIMEOUT 5
open a dbadmin one
open b dbadmin one
open c dbadmin one
ask a 1
at 10
ask b 1
at 5009
done c
poll b
at 5010
done c
ask c 1
poll b
poll b
ask b 1
at 20000
poll a
ask b 1
poll b
ask b 1
---- 0
ok
a opened 1
b opened 2
c opened 3
a admitted 23658496 one 0 23658496
b queued 1
c refused 22
b waiting 1
c refused 22
c queued 1
b timedout 5010
b refused 22
b queued 2
a admitted 23658496 one 0 23658496
b refused 21
b timedout 10010
b queued 1
====
# Moments pass unseen between two events: the one at 99999 finds a deadline that came long before.
sql CREATE RESOURCE POOL one MAXCONCURRENCY 1 QUEUETIMEOUT 5
open a dbadmin one
open b dbadmin one
at 10
ask a 1
ask b 1
at 5009
poll b
at 99999
done a
poll b
poll a
---- 0
ok
a opened 1
b opened 2
a admitted 23658496 one 0 23658496
b queued 1
b waiting 1
a released 23658496
b timedout 5010
a refused 22
====
# A statement sets no deadline back that has come.
sql CREATE RESOURCE POOL one MAXCONCURRENCY 1 QUEUETIMEOUT 5
open a dbadmin one
open b dbadmin one
ask a 1
ask b 1
at 5000
sql ALTER RESOURCE POOL one QUEUETIMEOUT NONE
poll b
---- 0
ok
a opened 1
b opened 2
a admitted 23658496 one 0 23658496
b queued 1
ok
b timedout 5000
====
# A statement sets one back that has not come.
sql CREATE RESOURCE POOL one MAXCONCURRENCY 1 QUEUETIMEOUT 5
open a dbadmin one
open b dbadmin one
ask a 1
ask b 1
at 4999
sql ALTER RESOURCE POOL one QUEUETIMEOUT '6 seconds'
at 5999
poll b
at 6000
poll b
---- 0
ok
a opened 1
b opened 2
a admitted 23658496 one 0 23658496
b queued 1
ok
b waiting 1
b timedout 6000
====
# What a statement makes overdue may still be admitted by it.
sql CREATE RESOURCE POOL one MAXCONCURRENCY 1 QUEUETIMEOUT 9
open a dbadmin one
open b dbadmin one
ask a 1
ask b 1
at 5000
sql ALTER RESOURCE POOL one QUEUETIMEOUT 5 MAXCONCURRENCY 2
poll b
---- 0
ok
a opened 1
b opened 2
a admitted 23658496 one 0 23658496
b queued 1
ok
b admitted 23658496 one 0 23658496
====
# Else it ends with the next event.
sql CREATE RESOURCE POOL still MAXCONCURRENCY 1 QUEUETIMEOUT NONE
open a dbadmin still
open b dbadmin still
ask a 1
at 10
ask b 1
at 9000
poll b
sql ALTER RESOURCE POOL still QUEUETIMEOUT 5
done a
poll b
---- 0
ok
a opened 1
b opened 2
a admitted 23658496 still 0 23658496
b queued 1
b waiting 1
ok
a released 23658496
b timedout 5010
====
# A QUEUETIMEOUT of 0 ends those that wait already, each at the moment at which it was queued.
sql CREATE RESOURCE POOL still MAXCONCURRENCY 1 QUEUETIMEOUT NONE
open a dbadmin still
open b dbadmin still
open c dbadmin still
ask a 1
at 10
ask b 1
at 20
ask c 1
at 1000000
poll b
sql ALTER RESOURCE POOL still QUEUETIMEOUT 0
poll c
poll b
---- 0
ok
a opened 1
b opened 2
c opened 3
a admitted 23658496 still 0 23658496
b queued 1
c queued 2
b waiting 1
ok
c timedout 20
b timedout 10
";

#[test]
fn queries_end_at_their_deadlines(rt: HostRuntime) -> Result<(), Fail> {
    run_cases(&rt, rt.alloc(), DEADLINES)
}
