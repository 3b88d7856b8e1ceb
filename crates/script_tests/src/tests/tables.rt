//! Tables that a script loads, and files that have a fault.

use super::{USUAL, status_with};
use rm_outside::failing_shelf::FailingShelf;
use rm_outside::memory_shelf::MemoryShelf;
use rm_outside::memory_sink::MemorySink;
use rm_outside::memory_source::MemorySource;
use rm_outside::shelf::Shelf;
use std::alloc::Global;
use std::process::Abort;
use std::test::Fail;

/// Files by their paths: a line with `>> ` and a path, and then the file.
static FILES: &str = "\
>> n.csv
n:int,m
2,x
,y
1,
>> one.csv
v:int
7
>> header.csv
n:int,select
>> repeated.csv
n,m,N:int
>> none.csv

>> wide.csv
a,b,c,d,e,f,g,h,i,j,k,l,m,n,o,p,q
>> width.csv
n:int
1
1,2
>> value.csv
t,n:int
a,1
b,+5
";

/// The shelf with these files.
pub fn shelf_of(alloc: Global, files: &str) -> Result<MemoryShelf, Fail> {
    let mut shelf = MemoryShelf::new(alloc);
    for file in files.split(">> ").skip(1) {
        let (path, bytes) = file.split_once('\n').ok_or("no path")?;
        shelf.put(
            String::from_str(alloc, path)?,
            bytes.as_bytes().to_vec(alloc)?,
        )?;
    }
    Ok(shelf)
}

/// Runs cases over a shelf, as `run_cases` does over none.
pub fn run_over(
    rt: &impl Abort,
    alloc: Global,
    shelf: &mut impl Shelf,
    cases: &str,
) -> Result<(), Fail> {
    for case in cases.split("====\n") {
        let (script, expected) = case.split_once("---- ").ok_or("no ----")?;
        let (status, text) = expected.split_once('\n').ok_or("no status")?;
        let mut input = MemorySource::new(script.as_bytes().to_vec(alloc)?);
        let mut out = MemorySink::new(alloc);
        let got = status_with(alloc, USUAL, &mut input, &mut out, shelf)?;
        assert_eq!(rt;
            format!(in alloc; "{got}")?.as_str(),
            status,
            "the status of {script:?}"
        );
        assert_eq!(rt; out.contents(), text.as_bytes(), "the text of {script:?}");
    }
    Ok(())
}

static CASES: &str = "\
table t n.csv
table  One  one.csv
---- 0
table t rows 3
table one rows 1
====
# A table of that name is there; the file is not looked at.
table t n.csv
table T nope.csv
---- 2
table t rows 3
bad line 3
====
table t n.csv
table select n.csv
---- 2
table t rows 3
bad line 2
====
table t
---- 2
bad line 1
====
table t n.csv x
---- 2
bad line 1
====
# What is refused ends the script.
table t nope.csv
open a dbadmin
---- 5
table t refused missing
====
open a dbadmin
table t header.csv
---- 5
a opened 1
table t refused header 2
====
table t repeated.csv
---- 5
table t refused header 3
====
table t none.csv
---- 5
table t refused columns 0
====
table t wide.csv
---- 5
table t refused columns 17
====
table t width.csv
---- 5
table t refused width 3
====
table t value.csv
---- 5
table t refused value 3 2
====
# A 17th table has no place.
table a one.csv
table b one.csv
table c one.csv
table d one.csv
table e one.csv
table f one.csv
table g one.csv
table h one.csv
table i one.csv
table j one.csv
table k one.csv
table l one.csv
table m one.csv
table n one.csv
table o one.csv
table p one.csv
table q one.csv
---- 2
table a rows 1
table b rows 1
table c rows 1
table d rows 1
table e rows 1
table f rows 1
table g rows 1
table h rows 1
table i rows 1
table j rows 1
table k rows 1
table l rows 1
table m rows 1
table n rows 1
table o rows 1
table p rows 1
bad line 18
";

#[test]
fn tables_are_loaded(rt: HostRuntime) -> Result<(), Fail> {
    let alloc = rt.alloc();
    run_over(&rt, alloc, &mut shelf_of(alloc, FILES)?, CASES)
}

static FAILING: &str = "\
open a dbadmin
table t one.csv
table u one.csv
open b dbadmin
---- 3
a opened 1
";

/// The load of this number fails, and the lines before it were done.
fn blames_the_shelf(rt: &impl Abort, alloc: Global, load: u64, cases: &str) -> Result<(), Fail> {
    let mut shelf = FailingShelf::new(shelf_of(alloc, FILES)?, [load].to_vec(alloc)?);
    run_over(rt, alloc, &mut shelf, cases)?;
    assert_eq!(rt; shelf.faults(), 1, "the faults at {load}");
    Ok(())
}

static FAILING_LATER: &str = "\
open a dbadmin
table t one.csv
table u one.csv
open b dbadmin
---- 3
a opened 1
table t rows 1
";

#[test]
fn a_shelf_that_fails_ends_the_script(rt: HostRuntime) -> Result<(), Fail> {
    blames_the_shelf(&rt, rt.alloc(), 1, FAILING)?;
    blames_the_shelf(&rt, rt.alloc(), 2, FAILING_LATER)
}

/// A file with a header and so many line ends.
fn long_file(alloc: Global, feeds: usize) -> Result<Vec<u8>, Fail> {
    let mut bytes = b"n".to_vec(alloc)?;
    bytes.extend_from_slice(&vec![in alloc; b'\n'; feeds]?)?;
    Ok(bytes)
}

static LONG: &str = "\
table t most.csv
table u long.csv
---- 5
table t rows 0
table u refused long
";

/// A file may have 67,108,864 bytes.
#[test]
fn a_long_file_is_refused(rt: HostRuntime) -> Result<(), Fail> {
    let alloc = rt.alloc();
    let mut shelf = MemoryShelf::new(alloc);
    shelf.put(
        String::from_str(alloc, "most.csv")?,
        long_file(alloc, 67_108_863)?,
    )?;
    shelf.put(
        String::from_str(alloc, "long.csv")?,
        long_file(alloc, 67_108_864)?,
    )?;
    run_over(&rt, alloc, &mut shelf, LONG)
}
