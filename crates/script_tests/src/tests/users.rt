//! Users, roles and grants, and sessions that are opened and closed.

use super::run_cases;
use std::test::Fail;

/// T is 83,886,080 with MAXMEMORYSIZE '80M' for GENERAL, and a query of GENERAL or of a pool that reserves nothing asks for
/// 19,922,944; without, for 23,658,496.
static CASES: &str = "\
# A user's MEMORYCAP is a cap on each of its queries, and a pool wants USAGE.
sql ALTER RESOURCE POOL general MAXMEMORYSIZE '80M'
sql CREATE USER ann MEMORYCAP '5M'
sql CREATE RESOURCE POOL etl
open a ann
ask a 6000000
ask a 1
ask a 1
open b ann etl
ask b 1
---- 0
ok
ok
ok
a opened 1
a refused 19 user 6000000 5242880
a admitted 5242880 general 5242880 0
a refused 21
b refused 23 etl
b admitted 5242880 general 5242880 0
====
# A session waits in the pool of its user's role, where it has chosen none.
sql ALTER RESOURCE POOL general MAXMEMORYSIZE '80M'
sql CREATE ROLE r
sql CREATE USER ann
sql CREATE RESOURCE POOL etl
sql GRANT USAGE ON RESOURCE POOL etl TO r
sql ALTER ROLE r RESOURCE POOL etl
sql GRANT r TO ann
open a ann
ask a 1
---- 0
ok
ok
ok
ok
ok
ok
ok
a opened 1
a admitted 19922944 etl 0 19922944
====
# A role has no pool of which it has no USAGE.
sql CREATE ROLE r
sql CREATE RESOURCE POOL etl
sql ALTER ROLE r RESOURCE POOL etl
sql ALTER ROLE r RESOURCE POOL general
---- 0
ok
ok
refused 18 etl
ok
====
# Of two roles the one counts that was granted first, and a pool of the user's own counts before both.
sql CREATE ROLE r
sql CREATE ROLE q
sql CREATE USER ann
sql CREATE RESOURCE POOL x
sql CREATE RESOURCE POOL y
sql GRANT USAGE ON RESOURCE POOL x TO r
sql GRANT USAGE ON RESOURCE POOL y TO q
sql ALTER ROLE r RESOURCE POOL x
sql ALTER ROLE q RESOURCE POOL y
sql GRANT q TO ann
sql GRANT r TO ann
open a ann
ask a 1
done a
sql ALTER USER ann RESOURCE POOL x
ask a 1
---- 0
ok
ok
ok
ok
ok
ok
ok
ok
ok
ok
ok
a opened 1
a admitted 23658496 y 0 23658496
a released 23658496
ok
a admitted 23658496 x 0 23658496
====
# A query wants USAGE when it comes, also of a pool that the session chose before.
sql CREATE RESOURCE POOL etl
sql CREATE USER ann
sql GRANT USAGE ON RESOURCE POOL etl TO ann
open a ann etl
sql REVOKE USAGE ON RESOURCE POOL etl FROM ann
ask a 1
set a pool etl
set a pool general
ask a 1
---- 0
ok
ok
ok
a opened 1
ok
a refused 23 etl
a refused 23 etl
a set
a admitted 23658496 general 23658496 0
====
# The session of a user that is gone stays open, and its query runs on.
sql CREATE USER ann
open a ann
ask a 1
sql DROP USER ann
poll a
done a
ask a 1
close a
open a ann
---- 0
ok
a opened 1
a admitted 23658496 general 23658496 0
ok
a admitted 23658496 general 23658496 0
a released 23658496
a refused 8 ann
a closed
a refused 8 ann
====
# A session is closed whose query waits, and the query leaves the queue. One whose query runs is not.
sql ALTER RESOURCE POOL general MAXCONCURRENCY 1
open a dbadmin
open b dbadmin
open c dbadmin
ask a 1
ask b 1
ask c 1
poll c
close b
poll c
close a
poll a
done a
poll c
close a
open a dbadmin
ask a 1
---- 0
ok
a opened 1
b opened 2
c opened 3
a admitted 23658496 general 23658496 0
b queued 1
c queued 2
c waiting 2
b closed
c waiting 1
a refused 21
a admitted 23658496 general 23658496 0
a released 23658496
c admitted 23658496 general 23658496 0
a closed
a opened 4
a queued 1
====
# Nor is one whose query was admitted since, though nobody asked.
sql ALTER RESOURCE POOL general MAXCONCURRENCY 1
open a dbadmin
open b dbadmin
ask a 1
ask b 1
done a
close b
done b
close b
---- 0
ok
a opened 1
b opened 2
a admitted 23658496 general 23658496 0
b queued 1
a released 23658496
b refused 21
b released 23658496
b closed
====
# An end that nobody collected is forgotten with its session.
sql CREATE RESOURCE POOL one MAXCONCURRENCY 1 QUEUETIMEOUT 5
open a dbadmin one
open b dbadmin one
ask a 1
ask b 1
at 5000
done a
close b
open b dbadmin one
poll b
ask b 1
---- 0
ok
a opened 1
b opened 2
a admitted 23658496 one 0 23658496
b queued 1
a released 23658496
b closed
b opened 3
b refused 22
b admitted 23658496 one 0 23658496
====
# A session that is closed has no name, and its name may be another's.
open a dbadmin
open b dbadmin
close A
open c dbadmin
open a dbadmin
close b
close a
ask c 1
ask a 1
---- 2
a opened 1
b opened 2
a closed
c opened 3
a opened 4
b closed
a closed
c admitted 23658496 general 23658496 0
bad line 10
";

#[test]
fn users_open_and_close_sessions(rt: HostRuntime) -> Result<(), Fail> {
    run_cases(&rt, rt.alloc(), CASES)
}
