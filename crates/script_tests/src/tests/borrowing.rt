//! Budgets, caps, borrowing from GENERAL, and sizes that follow a statement as queries end.

use super::run_cases;
use std::test::Fail;

/// T is 83,886,080 with MAXMEMORYSIZE '80M' for GENERAL, GENERAL's threshold 79,691,776 and its budget 19,922,944; without,
/// they are 99,614,720, 94,633,984 and 23,658,496.
static CASES: &str = "\
# A pool's queries have half of its 20 MiB each. The third and the fourth borrow; then the use of 41943040 is above the
# threshold of 39845888, and the fifth waits.
sql ALTER RESOURCE POOL general MAXMEMORYSIZE '80M'
sql CREATE RESOURCE POOL etl MEMORYSIZE '20M' MAXMEMORYSIZE '40M' PLANNEDCONCURRENCY 2
open a dbadmin etl
open b dbadmin etl
open c dbadmin etl
open d dbadmin etl
open e dbadmin etl
ask a 1
ask b 1
ask c 1
ask d 1
ask e 1
---- 0
ok
ok
a opened 1
b opened 2
c opened 3
d opened 4
e opened 5
a admitted 10485760 etl 10485760 0
b admitted 10485760 etl 10485760 0
c admitted 10485760 etl 0 10485760
d admitted 10485760 etl 0 10485760
e queued 1
====
# What is given back pays what was borrowed: the third query has own bytes then, and the fifth borrows.
sql ALTER RESOURCE POOL general MAXMEMORYSIZE '80M'
sql CREATE RESOURCE POOL etl MEMORYSIZE '20M' MAXMEMORYSIZE '40M' PLANNEDCONCURRENCY 2
open a dbadmin etl
open b dbadmin etl
open c dbadmin etl
open d dbadmin etl
open e dbadmin etl
ask a 1
ask b 1
ask c 1
ask d 1
ask e 1
done a
poll c
poll e
---- 0
ok
ok
a opened 1
b opened 2
c opened 3
d opened 4
e opened 5
a admitted 10485760 etl 10485760 0
b admitted 10485760 etl 10485760 0
c admitted 10485760 etl 0 10485760
d admitted 10485760 etl 0 10485760
e queued 1
a released 10485760
c admitted 10485760 etl 10485760 0
e admitted 10485760 etl 0 10485760
====
# The place of a query that ends is taken at once.
sql CREATE RESOURCE POOL etl MEMORYSIZE '20M' MAXMEMORYSIZE '40M' PLANNEDCONCURRENCY 2
at 5
open a dbadmin etl
ask a 1
open b dbadmin etl
ask b 1
open c dbadmin etl
ask c 1
open d dbadmin etl
ask d 1
open e dbadmin etl
ask e 1
done b
done e
---- 0
ok
a opened 1
a admitted 10485760 etl 10485760 0
b opened 2
b admitted 10485760 etl 10485760 0
c opened 3
c admitted 10485760 etl 0 10485760
d opened 4
d admitted 10485760 etl 0 10485760
e opened 5
e queued 1
b released 10485760
e released 10485760
====
# A pool that may not grow past what it reserves borrows nothing, though GENERAL is empty.
sql ALTER RESOURCE POOL general MAXMEMORYSIZE '80M'
sql CREATE RESOURCE POOL solo MEMORYSIZE '10M' MAXMEMORYSIZE '10M' PLANNEDCONCURRENCY 1
open a dbadmin solo
open b dbadmin solo
ask a 1
ask b 1
---- 0
ok
ok
a opened 1
b opened 2
a admitted 10485760 solo 10485760 0
b queued 1
====
# A budget of 79691776 is cut to what the pool can reach, since another pool reserves the rest.
sql ALTER RESOURCE POOL general MAXMEMORYSIZE '80M'
sql CREATE RESOURCE POOL big MEMORYSIZE '40M'
sql CREATE RESOURCE POOL z PLANNEDCONCURRENCY 1
open a dbadmin z
ask a 1
---- 0
ok
ok
ok
a opened 1
a admitted 41943040 z 0 41943040
====
# A pool's MAXMEMORYSIZE falls below its use. The fifth query waits until the use is within the threshold of 19922944.
sql ALTER RESOURCE POOL general MAXMEMORYSIZE '80M'
sql CREATE RESOURCE POOL etl MEMORYSIZE '20M' MAXMEMORYSIZE '40M' PLANNEDCONCURRENCY 2
open a dbadmin etl
open b dbadmin etl
open c dbadmin etl
open d dbadmin etl
open e dbadmin etl
ask a 1
ask b 1
ask c 1
ask d 1
ask e 1
sql ALTER RESOURCE POOL etl MAXMEMORYSIZE '20M'
done a
poll e
done b
poll e
done c
poll e
---- 0
ok
ok
a opened 1
b opened 2
c opened 3
d opened 4
e opened 5
a admitted 10485760 etl 10485760 0
b admitted 10485760 etl 10485760 0
c admitted 10485760 etl 0 10485760
d admitted 10485760 etl 0 10485760
e queued 1
ok
a released 10485760
e waiting 1
b released 10485760
e waiting 1
c released 10485760
e admitted 10485760 etl 10485760 0
====
# The whole machine is handed to one query, whose floor is GENERAL's cap.
open a dbadmin
open b dbadmin
ask a 99614720
ask b 1
poll b
done a
poll b
---- 0
a opened 1
b opened 2
a admitted 99614720 general 99614720 0
b queued 1
b waiting 1
a released 99614720
b admitted 23658496 general 23658496 0
====
# A query that waits ends where a statement makes it too large. Its end is told once.
open a dbadmin
open b dbadmin
ask a 1
ask b 99614720
sql ALTER RESOURCE POOL general MAXMEMORYSIZE '80M'
poll b
poll b
ask b 83886080
---- 0
a opened 1
b opened 2
a admitted 23658496 general 23658496 0
b queued 1
ok
b toolarge pool 99614720 83886080
b refused 22
b queued 1
====
# Four run in GENERAL. The fifth is too large once T is 50 MiB; its next query waits, since more is in use than is left.
sql ALTER RESOURCE POOL general MAXMEMORYSIZE '80M'
open a dbadmin
open b dbadmin
open c dbadmin
open d dbadmin
open e dbadmin
ask a 1
ask b 1
ask c 1
ask d 1
ask e 62914560
sql ALTER RESOURCE POOL general MAXMEMORYSIZE '50M'
poll e
poll e
ask e 1
---- 0
ok
a opened 1
b opened 2
c opened 3
d opened 4
e opened 5
a admitted 19922944 general 19922944 0
b admitted 19922944 general 19922944 0
c admitted 19922944 general 19922944 0
d admitted 19922944 general 19922944 0
e queued 1
ok
e toolarge pool 62914560 52428800
e refused 22
e queued 1
====
# It is too large by the cap of its own pool, and by the one on a query.
sql CREATE RESOURCE POOL p MAXCONCURRENCY 1
open a dbadmin p
open b dbadmin p
open c dbadmin p
ask a 1
ask b 20971520
ask c 20971520
sql ALTER RESOURCE POOL p MAXQUERYMEMORYSIZE '10M'
poll b
sql ALTER RESOURCE POOL p MAXMEMORYSIZE '10M'
ask b 10485761
poll c
---- 0
ok
a opened 1
b opened 2
c opened 3
a admitted 23658496 p 0 23658496
b queued 1
c queued 2
ok
b toolarge query 20971520 10485760
ok
b refused 19 pool 10485761 10485760
c toolarge query 20971520 10485760
====
# A pool is created and resized while nothing runs. A query that needs all that the pool can reach shows its size.
sql CREATE RESOURCE POOL r MEMORYSIZE '20M'
open a dbadmin r
ask a 99614720
done a
sql ALTER RESOURCE POOL r MEMORYSIZE '30M'
ask a 99614720
done a
sql ALTER RESOURCE POOL r MEMORYSIZE '10M'
ask a 99614720
done a
sql ALTER RESOURCE POOL r MEMORYSIZE '10M'
ask a 99614720
done a
sql CREATE RESOURCE POOL r MEMORYSIZE '20M'
sql ALTER RESOURCE POOL x MEMORYSIZE '20M'
sql CREATE RESOURCE POOL x MEMORYSIZE '80M'
ask a 99614720
---- 0
ok
a opened 1
a admitted 99614720 r 20971520 78643200
a released 99614720
ok
a admitted 99614720 r 31457280 68157440
a released 99614720
ok
a admitted 99614720 r 10485760 89128960
a released 99614720
ok
a admitted 99614720 r 10485760 89128960
a released 99614720
refused 6
refused 7 x
refused 12 5242880 24903680
a admitted 99614720 r 10485760 89128960
====
# Four run in GENERAL, which leaves 4194304 bytes free: a new pool has these of its 30 MiB, and 19922944 more when a query
# ends. So two queries of the pool need nothing of GENERAL's.
sql ALTER RESOURCE POOL general MAXMEMORYSIZE '80M'
open a dbadmin
open b dbadmin
open c dbadmin
open d dbadmin
ask a 1
ask b 1
ask c 1
ask d 1
sql CREATE RESOURCE POOL r MEMORYSIZE '30M' PLANNEDCONCURRENCY 30
open e dbadmin r
open f dbadmin r
ask e 4194304
ask f 19922944
done a
poll f
---- 0
ok
a opened 1
b opened 2
c opened 3
d opened 4
a admitted 19922944 general 19922944 0
b admitted 19922944 general 19922944 0
c admitted 19922944 general 19922944 0
d admitted 19922944 general 19922944 0
ok
e opened 5
f opened 6
e admitted 4194304 r 4194304 0
f queued 1
a released 19922944
f admitted 19922944 r 19922944 0
====
# A byte more is not there, neither before that query ends nor after it. Once two have ended the pool has what it reserves,
# and the rest is free.
sql ALTER RESOURCE POOL general MAXMEMORYSIZE '80M'
open a dbadmin
open b dbadmin
open c dbadmin
open d dbadmin
ask a 1
ask b 1
ask c 1
ask d 1
sql CREATE RESOURCE POOL r MEMORYSIZE '30M' PLANNEDCONCURRENCY 30
open e dbadmin r
open f dbadmin r
ask e 4194305
done a
poll e
ask f 19922944
done b
poll f
done e
done f
ask e 44040192
---- 0
ok
a opened 1
b opened 2
c opened 3
d opened 4
a admitted 19922944 general 19922944 0
b admitted 19922944 general 19922944 0
c admitted 19922944 general 19922944 0
d admitted 19922944 general 19922944 0
ok
e opened 5
f opened 6
e queued 1
a released 19922944
e admitted 4194305 r 4194305 0
f queued 1
b released 19922944
f admitted 19922944 r 19922944 0
e released 4194305
f released 19922944
e admitted 44040192 r 31457280 12582912
====
# What a pool borrowed becomes its own as its MEMORYSIZE rises, with no byte free in between.
sql ALTER RESOURCE POOL general MAXMEMORYSIZE '80M'
sql CREATE RESOURCE POOL r
open a dbadmin r
open b dbadmin
ask a 20971520
ask b 62914560
sql ALTER RESOURCE POOL r MEMORYSIZE '15M'
poll a
sql ALTER RESOURCE POOL r MEMORYSIZE '10M'
poll a
done a
poll b
---- 0
ok
ok
a opened 1
b opened 2
a admitted 20971520 r 0 20971520
b admitted 62914560 general 62914560 0
ok
a admitted 20971520 r 15728640 5242880
ok
a admitted 20971520 r 15728640 5242880
a released 20971520
b admitted 62914560 general 62914560 0
====
# T falls to 30 MiB while 79691776 bytes are granted. A query waits until the use is within the threshold of 29884416.
sql ALTER RESOURCE POOL general MAXMEMORYSIZE '80M'
open a dbadmin
open b dbadmin
open c dbadmin
open d dbadmin
open e dbadmin
ask a 1
ask b 1
ask c 1
ask d 1
sql ALTER RESOURCE POOL general MAXMEMORYSIZE '30M'
ask e 1
done a
poll e
done b
poll e
done c
poll e
---- 0
ok
a opened 1
b opened 2
c opened 3
d opened 4
e opened 5
a admitted 19922944 general 19922944 0
b admitted 19922944 general 19922944 0
c admitted 19922944 general 19922944 0
d admitted 19922944 general 19922944 0
ok
e queued 1
a released 19922944
e waiting 1
b released 19922944
e waiting 1
c released 19922944
e admitted 7471104 general 7471104 0
====
# Queries of one pool share its bytes in the order in which they run.
sql CREATE RESOURCE POOL etl MEMORYSIZE '20M' MAXMEMORYSIZE '40M' PLANNEDCONCURRENCY 2
open a dbadmin etl
open b dbadmin etl
open c dbadmin etl
ask a 15728640
ask b 15728640
ask c 10485760
poll a
poll b
done a
poll b
poll c
---- 0
ok
a opened 1
b opened 2
c opened 3
a admitted 15728640 etl 15728640 0
b admitted 15728640 etl 5242880 10485760
c admitted 10485760 etl 0 10485760
a admitted 15728640 etl 15728640 0
b admitted 15728640 etl 5242880 10485760
a released 15728640
b admitted 15728640 etl 15728640 0
c admitted 10485760 etl 5242880 5242880
";

#[test]
fn pools_borrow_and_follow_statements(rt: HostRuntime) -> Result<(), Fail> {
    run_cases(&rt, rt.alloc(), CASES)
}
