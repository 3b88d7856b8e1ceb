//! The lines of a script: where they end, their words, names and numbers, and the script's moment.

use super::{USUAL, run, run_cases};
use std::test::Fail;

static CASES: &str = "\
---- 0
====
# What is empty, or begins with a #, prints nothing.

\r
#
#open a dbadmin
# \u{e4} \u{20ac}
---- 0
====
# The first bad line ends the script.
open a dbadmin
frob
open b dbadmin
---- 2
a opened 1
bad line 3
====
# The last line counts without its line feed.
open a dbadmin
open b dbadmin---- 0
a opened 1
b opened 2
====
frob---- 2
bad line 1
====
# One carriage return before a line feed is dropped.
open a dbadmin\r
open b dbadmin\r\r
---- 2
a opened 1
bad line 3
====
# A carriage return that stands elsewhere is none of a line's end.
open a dbadmin\rask a 1
---- 2
bad line 2
====
open a dbadmin\r---- 2
bad line 1
====
# Spaces part words, one or more of them. Names are read in any case and kept in lower case.
open  A   DbAdmin
ask  a 000000000000001
poll   A
set a pool  GENERAL
done a
---- 0
a opened 1
a admitted 23658496 general 23658496 0
a admitted 23658496 general 23658496 0
a set
a released 23658496
====
# A name has 32 bytes at most.
open a2345678901234567890123456789_32 dbadmin
done A2345678901234567890123456789_32
open a23456789012345678901234567890_33 dbadmin
---- 2
a2345678901234567890123456789_32 opened 1
a2345678901234567890123456789_32 refused 22
bad line 4
====
# A name is open once, whatever its case.
open a dbadmin
open A dbadmin
---- 2
a opened 1
bad line 3
====
# A floor has 15 digits at most, and is told as it is.
open a dbadmin
open b dbadmin
ask a 99614720
ask b 99614721
ask b 999999999999999
ask a 1
---- 0
a opened 1
b opened 2
a admitted 99614720 general 99614720 0
b refused 19 pool 99614721 99614720
b refused 19 pool 999999999999999 99614720
a refused 21
====
# A query is ended once, and the session may have another.
open a dbadmin
done a
poll a
ask a 1
done a
done a
ask a 2
---- 0
a opened 1
a refused 22
a refused 22
a admitted 23658496 general 23658496 0
a released 23658496
a refused 22
a admitted 23658496 general 23658496 0
====
# Five queries share GENERAL: each has a quarter of its threshold, and the fifth waits.
open a dbadmin
open b dbadmin
open c dbadmin
open d dbadmin
open e dbadmin
ask a 1
ask b 1
ask c 1
ask d 1
ask e 1
poll e
done e
done a
done e
---- 0
a opened 1
b opened 2
c opened 3
d opened 4
e opened 5
a admitted 23658496 general 23658496 0
b admitted 23658496 general 23658496 0
c admitted 23658496 general 23658496 0
d admitted 23658496 general 23658496 0
e queued 1
e waiting 1
e refused 22
a released 23658496
e released 23658496
====
# The moment moves on, or stays.
at 0
at 7
at 7
at 007
at 000000000000008
at 999999999999999
open a dbadmin
---- 0
a opened 1
====
# It never falls.
open a dbadmin
at 7
ask a 1
at 6
done a
---- 2
a opened 1
a admitted 23658496 general 23658496 0
bad line 5
====
# Nobody opens a session whose user is not there, and then no pool is set; the name is as free as before.
open a ann
open a ann etl
ask a 1
---- 2
a refused 8 ann
a refused 8 ann
bad line 4
====
# A session whose pool is refused stays open, in GENERAL.
open a dbadmin etl
ask a 1
open b dbadmin General
open a dbadmin
---- 2
a refused 7 etl
a admitted 23658496 general 23658496 0
b opened 2
bad line 5
====
# A session chooses its pool for its next query.
sql CREATE RESOURCE POOL etl MEMORYSIZE '20M' PLANNEDCONCURRENCY 2
open a dbadmin ETL
ask a 1
set a pool nope
set a pool general
set a pool general
poll a
done a
ask a 1
---- 0
ok
a opened 1
a admitted 10485760 etl 10485760 0
a refused 7 nope
a set
a set
a admitted 10485760 etl 10485760 0
a released 10485760
a admitted 23658496 general 23658496 0
";

#[test]
fn lines_do_what_they_say(rt: HostRuntime) -> Result<(), Fail> {
    run_cases(&rt, rt.alloc(), CASES)
}

/// Lines that are bad where session `a` is open and the moment is 7, with `|` between them.
static BAD: &str = "\
at|at |at 6|at 7 |at 7 7|at a 7|at a|at +7|at -7|at 7.0|at 7ms|at seven|at 0000000000000007|at 1000000000000000| at 7|\
at\t7|At 7|at7| sql x|sql|sqlx|Sql x|sql\tx|\
open b|open b dbadmin etl x|Open b dbadmin|open b dbadmin |open b dbadmin etl |open\tb dbadmin|open b\tdbadmin|\
open 1b dbadmin|open b-c dbadmin|open min dbadmin|open b Select|open b dbadmin select|\
open b dbadmin 1etl|open \u{e4} dbadmin|open a dbadmin|open A dbadmin|open a dbadmin etl| open b dbadmin|set a pool|\
set a Pool etl|set a pool select|set a cap 0|set a cap 7 7|set a cap seven|set b cap 7|set a pool etl x|set b pool general|set a|ask a 0|ask a 000000000000000|\
ask a 0000000000000001|ask a 1000000000000000|ask a +7|ask a -7|ask a|ask a 7 7|ask 7 a|ask a 7 |ask b 1|ask a 1_0|\
ask a 0x1|ask a 1a|ask a 1.0|ask a \u{661}|ask a one|check|check a a|check b|way|way b|cancel a|cancel a b|cancel b a|cancel a a a|poll|poll a b|poll a | poll a|poll b|done|done a-b|done a a|\
done a |done b|dones a|close|close a b|close a | close a|close b|Close a|closed a|frob a| # no note| |\t|\u{feff}# no note";

#[test]
fn other_lines_are_bad(rt: HostRuntime) -> Result<(), Fail> {
    let alloc = rt.alloc();
    for line in BAD.split('|') {
        let script = format!(in alloc; "open a dbadmin\nat 7\n{line}\nopen c dbadmin\n")?;
        let (status, out) = run(alloc, USUAL, script.as_bytes())?;
        assert_eq!(rt; status, 2, "the status of {line:?}");
        assert_eq!(rt;
            out.contents(),
            b"a opened 1\nbad line 3\n".as_slice(),
            "the text of {line:?}"
        );
    }
    Ok(())
}

/// Lines that are no UTF-8: a byte that begins none, a text that ends too early, and half of a surrogate pair.
static NO_TEXTS: [&[u8]; 3] = [b"# \xff\n", b"#\xc3", b"\xed\xa0\x80\n"];

#[test]
fn lines_that_are_no_texts_are_bad(rt: HostRuntime) -> Result<(), Fail> {
    for script in &NO_TEXTS {
        let (status, out) = run(rt.alloc(), USUAL, script)?;
        assert_eq!(rt; status, 2, "the status of {script:?}");
        assert_eq!(rt;
            out.contents(),
            b"bad line 1\n".as_slice(),
            "the text of {script:?}"
        );
    }
    Ok(())
}
