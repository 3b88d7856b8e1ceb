//! Queries of SELECT in scripts: what they print, and which plan is kept for a session.

use super::tables::{run_over, shelf_of};
use std::test::Fail;

/// Files by their paths: a line with `>> ` and a path, and then the file.
static FILES: &str = "\
>> n.csv
n:int,m
2,x
,y
1,
>> one.csv
v:int
7

-7
>> empty.csv
v:int
>> quoted.csv
t,n:int
\"a,b\",1
\"say \"\"x\"\"\",2
\"two
lines\",3
\"\",4
>> big.csv
n:int
1
2
3
";

static CASES: &str = "\
# The order and the limit; Null comes first and is an empty cell.
table t n.csv
open a dbadmin
query a SELECT * FROM t ORDER BY n DESC LIMIT 2
done a
query a SELECT n FROM t WHERE n = m
query a SELECT m, n FROM t
done a
---- 0
table t rows 3
a opened 1
a admitted 23658496 general 23658496 0
a rows 2
n,m
2,x
1,
a released 23658496
a refused 29 24
a admitted 23658496 general 23658496 0
a rows 3
m,n
,1
x,2
y,
a released 23658496
====
# Refusals of reading come before those of the machine, and reach no machine.
table t n.csv
open a dbadmin
ask a 1
query a SELECT nope FROM t
query a SELECT n FROM u
query a SELECT n FROM t x WHERE t.n = 1
query a SELECT n AS k, m AS k FROM t ORDER BY k
query a SELECT n FROM t WHERE n < 'x'
query a SELECT
query a 
query a SELECT n FROM t
done a
done a
---- 0
table t rows 3
a opened 1
a admitted 23658496 general 23658496 0
a refused 27 nope
a refused 26 u
a refused 27 t
a refused 28 k
a refused 29 24
a refused 1 6
a refused 1 0
a refused 21
a released 23658496
a refused 22
====
# A query that waits keeps its plan, and runs when it was admitted.
sql CREATE RESOURCE POOL one MEMORYSIZE '10M' MAXMEMORYSIZE '10M' PLANNEDCONCURRENCY 1 QUEUETIMEOUT 60
table t one.csv
open a dbadmin one
open b dbadmin one
ask a 1
query b SELECT v FROM t
done b
poll b
done a
poll b
done b
done b
---- 0
ok
table t rows 2
a opened 1
b opened 2
a admitted 10485760 one 10485760 0
b queued 1
b refused 22
b waiting 1
a released 10485760
b admitted 10485760 one 10485760 0
b rows 2
v
-7
7
b released 10485760
b refused 22
====
# A query that nobody polled runs too.
sql CREATE RESOURCE POOL one MEMORYSIZE '10M' MAXMEMORYSIZE '10M' PLANNEDCONCURRENCY 1 QUEUETIMEOUT 60
table t one.csv
open a dbadmin one
open b dbadmin one
ask a 1
query b SELECT v FROM t LIMIT 1
done a
done b
---- 0
ok
table t rows 2
a opened 1
b opened 2
a admitted 10485760 one 10485760 0
b queued 1
a released 10485760
b rows 1
v
-7
b released 10485760
====
# The plan of a query that timed out goes with the reply that tells it; a later ask keeps none.
sql CREATE RESOURCE POOL one MEMORYSIZE '10M' MAXMEMORYSIZE '10M' PLANNEDCONCURRENCY 1 QUEUETIMEOUT 60
table t one.csv
open a dbadmin one
open b dbadmin one
ask a 1
query b SELECT v FROM t
at 60000
done b
poll b
done a
ask b 1
done b
---- 0
ok
table t rows 2
a opened 1
b opened 2
a admitted 10485760 one 10485760 0
b queued 1
b refused 22
b timedout 60000
a released 10485760
b admitted 10485760 one 10485760 0
b released 10485760
====
# A refused submit keeps the plan before it; a plan goes with its session.
sql CREATE RESOURCE POOL one MEMORYSIZE '10M' MAXMEMORYSIZE '10M' PLANNEDCONCURRENCY 1 QUEUETIMEOUT 60
table t one.csv
table n n.csv
open a dbadmin one
open b dbadmin one
query a SELECT v FROM t WHERE v > 0
query a SELECT n FROM n
query b SELECT n FROM n
close b
open b dbadmin one
done a
ask b 1
done b
---- 0
ok
table t rows 2
table n rows 3
a opened 1
b opened 2
a admitted 10485760 one 10485760 0
a refused 21
b queued 1
b closed
b opened 3
a rows 1
v
7
a released 10485760
b admitted 10485760 one 10485760 0
b released 10485760
====
# Cells as CSV: a comma, a quote or a line's end calls for quotes, and a row of one empty cell is two of them.
table t quoted.csv
table e empty.csv
open a dbadmin
query a SELECT t FROM t
done a
query a SELECT n, t FROM t WHERE n = 2
done a
query a SELECT v FROM e
done a
query a SELECT n, t FROM t WHERE t = ''
done a
---- 0
table t rows 4
table e rows 0
a opened 1
a admitted 23658496 general 23658496 0
a rows 4
t
\"\"
\"a,b\"
\"say \"\"x\"\"\"
\"two
lines\"
a released 23658496
a admitted 23658496 general 23658496 0
a rows 1
n,t
2,\"say \"\"x\"\"\"
a released 23658496
a admitted 23658496 general 23658496 0
a rows 0
v
a released 23658496
a admitted 23658496 general 23658496 0
a rows 0
n,t
a released 23658496
====
# A table that comes later changes no plan that is kept.
table t one.csv
open a dbadmin
query  A SELECT v FROM t
table u n.csv
done a
---- 0
table t rows 2
a opened 1
a admitted 23658496 general 23658496 0
table u rows 3
a rows 2
v
-7
7
a released 23658496
====
# What is no line of a query.
table t one.csv
open a dbadmin
query a
---- 2
table t rows 2
a opened 1
bad line 4
====
query a SELECT v FROM t
---- 2
bad line 1
====
 query a SELECT v FROM t
---- 2
bad line 1
";

#[test]
fn queries_run(rt: HostRuntime) -> Result<(), Fail> {
    let alloc = rt.alloc();
    run_over(&rt, alloc, &mut shelf_of(alloc, FILES)?, CASES)
}
