//! Statements on users, roles and grants: what refuses them, and what they leave.

use super::run_cases;
use std::test::Fail;

/// A query of GENERAL, or of a pool that reserves nothing, asks for 23,658,496; for 19,922,944 with MAXMEMORYSIZE '80M' for
/// GENERAL.
static CASES: &str = "\
# Users and roles have no name in common, and each is named where it is due. The lower number comes first.
sql CREATE USER ann
sql CREATE ROLE r
sql CREATE USER r
sql CREATE ROLE ann
sql CREATE USER dbadmin
sql CREATE ROLE dbadmin
sql ALTER USER bob MEMORYCAP '1M'
sql DROP USER r
sql DROP ROLE ann
sql ALTER ROLE ann RESOURCE POOL general
sql GRANT ann TO r
sql GRANT r TO bob
sql GRANT q TO ann
sql REVOKE q FROM bob
sql DROP USER dbadmin
sql DROP ROLE dbadmin
sql GRANT USAGE ON RESOURCE POOL p TO bob
sql GRANT USAGE ON RESOURCE POOL general TO bob
sql REVOKE USAGE ON RESOURCE POOL p FROM ann
sql CREATE USER bob RESOURCE POOL p
sql ALTER USER bob RESOURCE POOL p
sql ALTER USER bob RESOURCE POOL general
---- 0
ok
ok
refused 6
refused 6
refused 6
refused 6
refused 8 bob
refused 8 r
refused 9 ann
refused 9 ann
refused 8 r
refused 8 bob
refused 9 q
refused 8 bob
refused 10
refused 9 dbadmin
refused 7 p
refused 8 bob
refused 7 p
refused 7 p
refused 7 p
refused 8 bob
====
# A user is given a pool that is granted to it or to a role of its own, or GENERAL. All pools are dbadmin's.
sql CREATE RESOURCE POOL etl
sql CREATE USER ann RESOURCE POOL etl
sql CREATE USER ann RESOURCE POOL general
sql ALTER USER ann RESOURCE POOL etl
sql CREATE ROLE r
sql GRANT USAGE ON RESOURCE POOL etl TO r
sql ALTER USER ann RESOURCE POOL etl
sql GRANT r TO ann
sql ALTER USER ann RESOURCE POOL etl
sql ALTER USER dbadmin RESOURCE POOL etl
open a ann
ask a 1
open b dbadmin
ask b 1
sql REVOKE r FROM ann
done a
ask a 1
sql ALTER USER ann RESOURCE POOL NONE
ask a 1
---- 0
ok
refused 18 etl
ok
refused 18 etl
ok
ok
refused 18 etl
ok
ok
ok
a opened 1
a admitted 23658496 etl 0 23658496
b opened 2
b admitted 23658496 etl 0 23658496
ok
a released 23658496
a refused 23 etl
ok
a admitted 23658496 general 23658496 0
====
# What was granted goes with a dropped user or role, and does not come back with the name.
sql CREATE RESOURCE POOL etl
sql CREATE ROLE r
sql CREATE USER ann
sql GRANT USAGE ON RESOURCE POOL etl TO r
sql GRANT r TO ann
sql DROP USER ann
sql CREATE USER ann
open a ann etl
sql GRANT r TO ann
set a pool etl
sql DROP ROLE r
ask a 1
sql CREATE ROLE r
sql GRANT r TO ann
ask a 1
sql GRANT USAGE ON RESOURCE POOL etl TO r
ask a 1
---- 0
ok
ok
ok
ok
ok
ok
ok
a refused 23 etl
ok
a set
ok
a refused 23 etl
ok
ok
a refused 23 etl
ok
a admitted 23658496 etl 0 23658496
====
# A cap in percent is of the total as it was. One that falls below the floor of a waiting query ends it.
sql ALTER RESOURCE POOL general MAXMEMORYSIZE '50M' MAXCONCURRENCY 1
sql CREATE USER ann MEMORYCAP '10%'
sql ALTER RESOURCE POOL general MAXMEMORYSIZE '80M'
open a ann
open b dbadmin
ask b 1
ask a 5242881
ask a 5242880
poll a
sql ALTER USER ann MEMORYCAP '5M'
poll a
sql ALTER USER ann MEMORYCAP '4M'
poll a
---- 0
ok
ok
ok
a opened 1
b opened 2
b admitted 19922944 general 19922944 0
a refused 19 user 5242881 5242880
a queued 1
a waiting 1
ok
a waiting 1
ok
a toolarge user 5242880 4194304
====
# A grant that is there, and one that is not, are no rows to add or to take.
sql CREATE ROLE r
sql CREATE USER ann
sql REVOKE r FROM ann
sql GRANT r TO ann
sql GRANT r TO ann
sql REVOKE r FROM ann
sql REVOKE USAGE ON RESOURCE POOL general FROM ann
sql GRANT USAGE ON RESOURCE POOL general TO ann
open a ann general
---- 0
ok
ok
ok
ok
ok
ok
ok
ok
a opened 1
";

#[test]
fn statements_on_users_roles_and_grants(rt: HostRuntime) -> Result<(), Fail> {
    run_cases(&rt, rt.alloc(), CASES)
}
