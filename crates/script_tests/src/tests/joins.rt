//! Joins and groups in scripts: what they answer, what they are refused with, and where they need to spill.

use super::tables::{run_over, shelf_of};
use rm_outside::memory_shelf::MemoryShelf;
use std::alloc::Global;
use std::test::Fail;

/// Files by their paths: a line with `>> ` and a path, and then the file.
static FILES: &str = "\
>> people.csv
name,team,age:int
ann,red,31
bob,blue,
cleo,red,25
dan,,40
>> teams.csv
team,room:int
red,1
blue,2
green,3
>> rooms.csv
room:int,floor:int
1,10
2,10
3,20
3,30
>> nulls.csv
k:int,v:int
,1
,2
>> empty.csv
k:int,v:int
>> pairs.csv
a:int,b
1,x
1,y
2,x
1,x
>> sums.csv
g,v:int,w:int
a,9223372036854775807,-9223372036854775808
a,1,0
b,5,-1
b,6,-9223372036854775808
";

static CASES: &str = "\
# Rows that meet, in the order asked for; a Null meets nothing.
table people people.csv
table teams teams.csv
open a dbadmin
query a SELECT name, room FROM people JOIN teams ON people.team = teams.team ORDER BY room DESC, name
done a
query a SELECT * FROM people p JOIN teams t ON t.team = p.team AND age > 25
done a
query a SELECT COUNT(*) FROM people JOIN teams ON people.team <> teams.team
done a
---- 0
table people rows 4
table teams rows 3
a opened 1
a admitted 23658496 general 23658496 0
a rows 3
name,room
bob,2
ann,1
cleo,1
a released 23658496
a admitted 23658496 general 23658496 0
a rows 1
name,team,age,team,room
ann,red,31,red,1
a released 23658496
a admitted 23658496 general 23658496 0
a rows 1
count
6
a released 23658496
====
# Groups: Null is a group, and counts as no value.
table people people.csv
open a dbadmin
query a SELECT team, COUNT(*), COUNT(age), SUM(age), MIN(age), MAX(name) FROM people GROUP BY team
done a
query a SELECT COUNT(*) AS n, team FROM people WHERE age > 1 GROUP BY team ORDER BY n DESC LIMIT 1
done a
query a SELECT MAX(age) FROM people GROUP BY team, team ORDER BY 1
done a
---- 0
table people rows 4
a opened 1
a admitted 23658496 general 23658496 0
a rows 3
team,count,count,sum,min,max
,1,1,40,40,dan
blue,1,0,,,bob
red,2,2,56,25,cleo
a released 23658496
a admitted 23658496 general 23658496 0
a rows 1
n,team
2,red
a released 23658496
a admitted 23658496 general 23658496 0
a rows 3
max
\"\"
31
40
a released 23658496
====
# Without GROUP BY there is one group, even of no rows.
table empty empty.csv
table people people.csv
open a dbadmin
query a SELECT COUNT(*), COUNT(v), SUM(v), MIN(v), MAX(v) FROM empty
done a
query a SELECT SUM(v) FROM empty
done a
query a SELECT k, COUNT(*) FROM empty GROUP BY k
done a
query a SELECT COUNT(*) FROM people WHERE age > 100
done a
---- 0
table empty rows 0
table people rows 4
a opened 1
a admitted 23658496 general 23658496 0
a rows 1
count,count,sum,min,max
0,0,,,
a released 23658496
a admitted 23658496 general 23658496 0
a rows 1
sum
\"\"
a released 23658496
a admitted 23658496 general 23658496 0
a rows 0
k,count
a released 23658496
a admitted 23658496 general 23658496 0
a rows 1
count
0
a released 23658496
====
# Three tables; the third is joined with what the first two gave.
table people people.csv
table teams teams.csv
table rooms rooms.csv
open a dbadmin
query a SELECT name, floor FROM people JOIN teams ON people.team = teams.team JOIN rooms ON rooms.room = teams.room AND floor < 20 WHERE age <> 31
done a
query a SELECT teams.team, COUNT(*), SUM(floor) FROM rooms JOIN teams ON rooms.room = teams.room JOIN people ON people.team = teams.team GROUP BY teams.team
done a
query a SELECT x.room, y.floor FROM rooms x JOIN rooms y ON x.floor < y.floor AND y.room = x.room
done a
---- 0
table people rows 4
table teams rows 3
table rooms rows 4
a opened 1
a admitted 23658496 general 23658496 0
a rows 1
name,floor
cleo,10
a released 23658496
a admitted 23658496 general 23658496 0
a rows 2
team,count,sum
blue,1,10
red,2,20
a released 23658496
a admitted 23658496 general 23658496 0
a rows 1
room,floor
3,30
a released 23658496
====
# Keys of two columns, keys that are all Null, and tables without rows.
table pairs pairs.csv
table nulls nulls.csv
table empty empty.csv
open a dbadmin
query a SELECT x.a, x.b, COUNT(*) FROM pairs x JOIN pairs y ON x.a = y.a AND x.b = y.b GROUP BY x.a, x.b
done a
query a SELECT COUNT(*) FROM nulls x JOIN nulls y ON x.k = y.k
done a
query a SELECT x.v FROM nulls x JOIN empty y ON x.v = y.v
done a
query a SELECT y.v FROM empty x JOIN nulls y ON 1 = 1
done a
query a SELECT x.v, y.v FROM nulls x JOIN nulls y ON 2 > 1
done a
---- 0
table pairs rows 4
table nulls rows 2
table empty rows 0
a opened 1
a admitted 23658496 general 23658496 0
a rows 3
a,b,count
1,x,4
1,y,1
2,x,1
a released 23658496
a admitted 23658496 general 23658496 0
a rows 1
count
0
a released 23658496
a admitted 23658496 general 23658496 0
a rows 0
v
a released 23658496
a admitted 23658496 general 23658496 0
a rows 0
v
a released 23658496
a admitted 23658496 general 23658496 0
a rows 4
v,v
1,1
1,2
2,1
2,2
a released 23658496
====
# A sum outside 64 bits takes the place of the rows: the least column, the first group; also behind a LIMIT.
table sums sums.csv
open a dbadmin
query a SELECT g, SUM(w), SUM(v) FROM sums GROUP BY g
done a
query a SELECT g, SUM(v) FROM sums GROUP BY g ORDER BY g DESC LIMIT 1
done a
query a SELECT SUM(w) FROM sums WHERE g = 'a'
done a
query a SELECT COUNT(*) FROM sums WHERE v > 0
done a
---- 0
table sums rows 4
a opened 1
a admitted 23658496 general 23658496 0
a failed sum 2 -9223372036854775809
a released 23658496
a admitted 23658496 general 23658496 0
a failed sum 2 9223372036854775808
a released 23658496
a admitted 23658496 general 23658496 0
a rows 1
sum
-9223372036854775808
a released 23658496
a admitted 23658496 general 23658496 0
a rows 1
count
4
a released 23658496
====
# Refusals of joins and groups.
table people people.csv
table teams teams.csv
open a dbadmin
query a SELECT name, COUNT(*) FROM people
query a SELECT * FROM people GROUP BY name
query a SELECT SUM(name) FROM people
query a SELECT team FROM people JOIN teams ON room = 1
query a SELECT name FROM people JOIN people ON name = 'x'
query a SELECT name FROM people p JOIN teams q ON r.team = q.team JOIN teams r ON r.room = 1
query a SELECT name FROM people a JOIN people b ON a.age = b.age JOIN people c ON c.age = b.age JOIN people d ON d.age = a.age
query a SELECT name FROM people JOIN staff ON age = 1
query a SELECT name FROM people JOIN teams
---- 0
table people rows 4
table teams rows 3
a opened 1
a refused 30 7
a refused 30 7
a refused 29 7
a refused 28 team
a refused 28 name
a refused 27 r
a refused 31 3
a refused 26 staff
a refused 1 34
====
# A plan over two tables needs 1,310,720 bytes, over three 1,572,864. Where not all fits a quarter, it needs to spill.
sql CREATE RESOURCE POOL least MAXQUERYMEMORYSIZE '1280K'
table people people.csv
table teams teams.csv
open a dbadmin least
query a SELECT name FROM people JOIN teams ON people.team = teams.team
done a
query a SELECT name FROM people JOIN teams ON people.team = teams.team JOIN teams u ON u.room = teams.room
---- 0
ok
table people rows 4
table teams rows 3
a opened 1
a admitted 1310720 least 0 1310720
a rows 3
name
ann
bob
cleo
a released 1310720
a refused 19 query 1572864 1310720
";

#[test]
fn tables_are_joined_and_grouped(rt: HostRuntime) -> Result<(), Fail> {
    let alloc = rt.alloc();
    run_over(&rt, alloc, &mut shelf_of(alloc, FILES)?, CASES)
}

/// A header, and one line so many times behind it.
fn repeated(alloc: Global, header: &[u8], line: &[u8], times: usize) -> Result<Vec<u8>, Fail> {
    let mut bytes = header.to_vec(alloc)?;
    for _ in 0..times {
        bytes.extend_from_slice(line)?;
    }
    Ok(bytes)
}

static MANY: &str = "\
sql CREATE RESOURCE POOL wide PLANNEDCONCURRENCY 1
table many many.csv
table few few.csv
table nulls nulls.csv
open a dbadmin wide
query a SELECT COUNT(*), SUM(few.v) FROM many JOIN few ON many.k = few.k
done a
query a SELECT COUNT(*) FROM few JOIN many ON many.k = few.k
done a
query a SELECT COUNT(*) FROM nulls x JOIN nulls y ON x.k = y.k
done a
---- 0
ok
table many rows 100000
table few rows 4
table nulls rows 100000
a opened 1
a admitted 94633984 wide 0 94633984
a rows 1
count,sum
300000,600000
a released 94633984
a admitted 94633984 wide 0 94633984
a rows 1
count
300000
a released 94633984
a admitted 94633984 wide 0 94633984
a rows 1
count
0
a released 94633984
";

/// 100,000 rows of one key, on either side, and 100,000 by 100,000 whose keys are all Null: nested loops would not end in
/// time.
#[test]
fn many_rows_of_one_key_are_joined(rt: HostRuntime) -> Result<(), Fail> {
    let alloc = rt.alloc();
    let mut shelf = MemoryShelf::new(alloc);
    shelf.put(
        String::from_str(alloc, "many.csv")?,
        repeated(alloc, b"k:int\n", b"1\n", 100_000)?,
    )?;
    shelf.put(
        String::from_str(alloc, "few.csv")?,
        b"k:int,v:int\n1,1\n1,2\n1,3\n2,9\n".to_vec(alloc)?,
    )?;
    shelf.put(
        String::from_str(alloc, "nulls.csv")?,
        repeated(alloc, b"k:int,v:int\n", b",1\n", 100_000)?,
    )?;
    run_over(&rt, alloc, &mut shelf, MANY)
}

static BORDER: &str = "\
sql CREATE RESOURCE POOL least MAXQUERYMEMORYSIZE '1280K'
table within within.csv
table above above.csv
table one one.csv
open a dbadmin least
query a SELECT COUNT(*) FROM within
done a
query a SELECT COUNT(*) FROM above
done a
query a SELECT COUNT(*) FROM one JOIN within ON 1 = 2
done a
query a SELECT COUNT(*) FROM one JOIN above ON 1 = 2
done a
---- 0
ok
table within rows 311
table above rows 311
table one rows 1
a opened 1
a admitted 1310720 least 0 1310720
a rows 1
count
311
a released 1310720
a admitted 1310720 least 0 1310720
a failed needsspill
a released 1310720
a admitted 1310720 least 0 1310720
a rows 1
count
0
a released 1310720
a admitted 1310720 least 0 1310720
a failed needsspill
a released 1310720
";

/// 310 rows of one Text of 1,024 bytes, which measure 1,056 each, and a last one of this many bytes.
fn long_rows(alloc: Global, last: usize) -> Result<Vec<u8>, Fail> {
    let mut line = repeated(alloc, b"", b"x", 1_024)?;
    line.push(b'\n')?;
    let rows = repeated(alloc, b"t\n", &line, 310)?;
    repeated(alloc, &rows, b"y", last)
}

/// A quarter of 1,310,720 bytes is 327,680: 310 rows of 1,056 bytes and one of 320 fill it, and a byte more is too much, in
/// what a stage puts out and in a side.
#[test]
fn what_is_above_a_quarter_needs_to_spill(rt: HostRuntime) -> Result<(), Fail> {
    let alloc = rt.alloc();
    let mut shelf = MemoryShelf::new(alloc);
    shelf.put(
        String::from_str(alloc, "within.csv")?,
        long_rows(alloc, 288)?,
    )?;
    shelf.put(
        String::from_str(alloc, "above.csv")?,
        long_rows(alloc, 289)?,
    )?;
    shelf.put(
        String::from_str(alloc, "one.csv")?,
        b"v:int\n1\n".to_vec(alloc)?,
    )?;
    run_over(&rt, alloc, &mut shelf, BORDER)
}
