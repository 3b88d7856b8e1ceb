//! Files of CSV, and the table or the fault that each is.

use crate::tests::{bytes_of, shown};
use csv_tables::load::load;
use csv_tables::load_error::LoadError;
use std::alloc::{AllocError, Global};
use std::process::Abort;
use std::test::Fail;

/// Cases, parted by a line `====`: a file, which `----` ends, and the table or the fault.
static FILES: &str = "\
n:int,m
2,x
,y
1,
----
n Int;m Words;
2;'x';
NULL;'y';
1;NULL;
====
A:int,b:text,C
----
a Int;b Words;c Words;
====
----
Columns(0)
====


----
Columns(0)
====
a,b,c,d,e,f,g,h,i,j,k,l,m,n,o,p
----
a Words;b Words;c Words;d Words;e Words;f Words;g Words;h Words;i Words;j Words;k Words;l Words;m Words;n Words;o Words;p Words;
====
a,b,c,d,e,f,g,h,i,j,k,l,m,n,o,p,1q
----
Columns(17)
====
a,1b,c:
----
Header(2)
====
a,count
----
Header(2)
====
a,b,A:int
----
Header(3)
====
a:INT
----
Header(1)
====
a:int:int
----
Header(1)
====
a,:text
----
Header(2)
====
a,,b
----
Header(2)
====
a,⊘
----
Header(2)
====
\"\"
----
Header(1)
====
\"a\",\"b:int\"
1,2
----
a Words;b Int;
'1';2;
====
a,b
1
----
Width(2)
====
a:int,b
x,y,z
----
Width(2)
====
a:int,b
1,2
x,3
1
----
Value(3, 1)
====
a,b:int
⊘,x
----
Value(2, 1)
====
n:int
9223372036854775807
-9223372036854775808
0000000000000000001
-0
007
\"5\"
\"\"
----
n Int;
9223372036854775807;
-9223372036854775808;
1;
0;
7;
5;
NULL;
====
n:int
9223372036854775808
----
Value(2, 1)
====
n:int
1
-9223372036854775809
----
Value(3, 1)
====
n:int
00000000000000000001
----
Value(2, 1)
====
n:int
+5
----
Value(2, 1)
====
n:int
-
----
Value(2, 1)
====
n:int
--1
----
Value(2, 1)
====
n:int
1.0
----
Value(2, 1)
====
n:int
 1
----
Value(2, 1)
====
n:int
٣
----
Value(2, 1)
====
a,b
\"x,y\",\"say \"\"no\"\"\"
\"one
two\",\"q\"r
 s , t
u\"v\",
----
a Words;b Words;
'x,y';'say \"no\"';
'one
two';'qr';
' s ';' t';
'u\"v\"';NULL;
====
a
\"not closed
x,y
----
a Words;
'not closed
x,y
';
====
\u{feff}a␍

b␍
␍
c----
a Words;
'b';
'c';
====
a:int


x
----
Value(2, 1)
====
a
⋯xxxxxxxxxxxxxxxxxxxxxxxx
xxxxxxxxxxxxxxxxxxxxxxxxx⋯
----
Value(3, 1)
====
a,b:int
é,1
⊘,2
----
Value(3, 1)
";

fn told(alloc: Global, bytes: &[u8]) -> Result<String, AllocError> {
    match load(alloc, bytes) {
        Ok(table) => shown(alloc, &table),
        Err(fault) => format!(in alloc; "{fault:?}\n"),
    }
}

fn check_file(rt: &impl Abort, alloc: Global, case: &str) -> Result<(), Fail> {
    let (file, expected) = case.split_once("----\n").ok_or("no ----")?;
    let bytes = bytes_of(alloc, file)?;
    assert_eq!(rt; told(alloc, &bytes)?.as_str(), expected, "{file:?}");
    Ok(())
}

#[test]
fn files_are_tables_or_have_a_first_fault(rt: HostRuntime) -> Result<(), Fail> {
    for case in FILES.split("====\n") {
        check_file(&rt, rt.alloc(), case)?;
    }
    Ok(())
}

/// A header, and so many lines behind it.
fn long_file(alloc: Global, header: &str, line: &str, lines: u32) -> Result<String, AllocError> {
    let mut file = String::from_str(alloc, header)?;
    for _ in 0..lines {
        file.push_str(line)?;
    }
    Ok(file)
}

/// How many rows a file gives, or its fault.
fn rows_of(alloc: Global, file: &str) -> Result<usize, LoadError> {
    let table = load(alloc, file.as_bytes())?;
    Ok(table.rows().len())
}

#[test]
fn tables_have_a_million_rows_at_most(rt: HostRuntime) -> Result<(), Fail> {
    let mut file = long_file(rt.alloc(), "n:int\n", "1\n", 1_000_000)?;
    assert_eq!(rt; rows_of(rt.alloc(), file.as_str()), Ok(1_000_000));
    file.push_str("2\n")?;
    assert_eq!(rt; rows_of(rt.alloc(), file.as_str()), Err(LoadError::Rows));
    file.push_str("x\n")?;
    assert_eq!(rt; rows_of(rt.alloc(), file.as_str()), Err(LoadError::Rows));
    Ok(())
}

/// Fourteen Ints measure 128 bytes, so 524,288 rows of them measure just 64 MiB.
#[test]
fn tables_measure_64_mebibytes_at_most(rt: HostRuntime) -> Result<(), Fail> {
    let header =
        "a:int,b:int,c:int,d:int,e:int,f:int,g:int,h:int,i:int,j:int,k:int,l:int,m:int,n:int\n";
    let line = "1,2,3,4,5,6,7,8,9,1,2,3,4,5\n";
    let mut file = long_file(rt.alloc(), header, line, 524_288)?;
    assert_eq!(rt; rows_of(rt.alloc(), file.as_str()), Ok(524_288));
    file.push_str(",,,,,,,,,,,,,\n")?;
    assert_eq!(rt;
        rows_of(rt.alloc(), file.as_str()),
        Err(LoadError::TooLarge)
    );
    Ok(())
}
