//! The words of the command line.

use super::compare;
use std::alloc::Global;
use std::process::Abort;
use std::test::Fail;

/// The script of every case. Its second line tells the budget of GENERAL: 95 percent of T, by the cores where these are
/// more than 4 and T has 2 GiB for each of them. Its last tells T, where this is less.
static ASKS: &str = "open a dbadmin\nask a 1\ndone a\nask a 999999999999999\n";

/// The words, `---- ` and the status, and the output of ASKS.
static CASES: &str = "\
script --memory 100M --cores 8
---- 0
a opened 1
a admitted 23658496 general 23658496 0
a released 23658496
a refused 19 pool 999999999999999 99614720
====
script --cores=8 --memory 100M
---- 0
a opened 1
a admitted 23658496 general 23658496 0
a released 23658496
a refused 19 pool 999999999999999 99614720
====
script --memory 16M --cores 1
---- 0
a opened 1
a admitted 3785359 general 3785359 0
a released 3785359
a refused 19 pool 999999999999999 15938355
====
script --memory 16384K --cores 1024
---- 0
a opened 1
a admitted 3785359 general 3785359 0
a released 3785359
a refused 19 pool 999999999999999 15938355
====
script --memory 000000000000000000000000000000000000000016M --cores 4
---- 0
a opened 1
a admitted 3785359 general 3785359 0
a released 3785359
a refused 19 pool 999999999999999 15938355
====
script --memory 16G --cores 8
---- 0
a opened 1
a admitted 2214975991 general 2214975991 0
a released 2214975991
a refused 19 pool 999999999999999 16320875724
====
script --memory 16G --cores 5
---- 0
a opened 1
a admitted 3100966387 general 3100966387 0
a released 3100966387
a refused 19 pool 999999999999999 16320875724
====
script --memory 1024T --cores 1024
---- 0
a opened 1
a admitted 992309244067 general 992309244067 0
a released 992309244067
a admitted 999999999999999 general 999999999999999 0
====
script --memory 1048576G --cores 1024
---- 0
a opened 1
a admitted 992309244067 general 992309244067 0
a released 992309244067
a admitted 999999999999999 general 999999999999999 0
";

#[test]
fn machines_are_as_the_words_say(rt: HostRuntime) -> Result<(), Fail> {
    for case in CASES.split("====\n") {
        let (words, expected) = case.split_once("\n---- ").ok_or("no ----")?;
        compare(&rt, rt.alloc(), words, ASKS, expected)?;
    }
    Ok(())
}

/// Words that are none of a script's, a line each. Two spaces have an empty word between them.
static USAGE: &str = "\
script
script --memory 100M
script --memory 100M --cores 8 --cores 8
script --memory 100M --cores 8 8
script --memory 100M  --cores 8
script  --memory 100M --cores 8
Script --memory 100M --cores 8
serve --memory 100M --cores 8
script -memory 100M --cores 8
script --Memory 100M --cores 8
script --memory 16383K --cores 8
script --memory 15M --cores 8
script --memory 0G --cores 8
script --memory 1025T --cores 8
script --memory 1099511627777K --cores 8
script --memory 18446744073709551615T --cores 8
script --memory 99999999999999999999999999999999999999999M --cores 8
script --memory 100m --cores 8
script --memory 100 --cores 8
script --memory 100MB --cores 8
script --memory M --cores 8
script --memory +100M --cores 8
script --memory -100M --cores 8
script --memory 100P --cores 8
script --memory 100\u{39c} --cores 8
script --memory 1.5G --cores 8
script --memory 100M --cores 0
script --memory 100M --cores 1025
script --memory 100M --cores 08
script --memory 100M --cores +8
script --memory 100M --cores -8
script --memory 100M --cores 8.0
script --memory 100M --cores eight
script --memory 100M --cores 4294967304
script --memory 100M --cores 99999999999999999999999999999999999999999";

fn knows_no_words(rt: &impl Abort, alloc: Global, words: &str) -> Result<(), Fail> {
    compare(rt, alloc, words, ASKS, "1\n")
}

#[test]
fn other_words_are_none(rt: HostRuntime) -> Result<(), Fail> {
    for words in USAGE.lines() {
        knows_no_words(&rt, rt.alloc(), words)?;
    }
    knows_no_words(&rt, rt.alloc(), "")
}
