//! The words of the command line, and what they are read as.

use options::options_of;
use options::script::script_options;
use options::workload::workload_options;
use std::alloc::Global;
use std::test::Fail;

/// The words of a line.
pub fn words_of(alloc: Global, line: &str) -> Result<Vec<String>, Fail> {
    let mut words = Vec::new(alloc);
    for word in line.split(' ') {
        words.push(String::from_str(alloc, word)?)?;
    }
    Ok(words)
}

/// What the words of a line come to, as it is printed.
fn told_of(alloc: Global, line: &str) -> Result<String, Fail> {
    let words = words_of(alloc, line)?;
    match options_of(alloc, &words)? {
        Some(options) => Ok(format!(in alloc; "{options:?}")?),
        None => Ok(String::from_str(alloc, "refused")?),
    }
}

/// Lines of words, and what each comes to: any order and `=`, values that are odd but taken, and the ends of ranges.
static TAKEN: &str = "\
script --memory 100M --cores 8 -> Options { command: Script, workers: 1, store: None, spool: None }
script --cores=8 --memory 100M -> Options { command: Script, workers: 1, store: None, spool: None }
script --store a.db --cores 8 --spool=s --memory=100M -> Options { command: Script, workers: 1, store: Some(\"a.db\"), spool: Some(\"s\") }
script --memory 100M --cores 8 --store= -> Options { command: Script, workers: 1, store: Some(\"\"), spool: None }
script --memory 100M --cores 8 --store=-a -> Options { command: Script, workers: 1, store: Some(\"-a\"), spool: None }
script --memory 100M --cores 8 --store=a=b -> Options { command: Script, workers: 1, store: Some(\"a=b\"), spool: None }
script --memory 100M --cores 8 -- -> Options { command: Script, workers: 1, store: None, spool: None }
script --memory 16M --cores 1 -> Options { command: Script, workers: 1, store: None, spool: None }
script --memory 01024T --cores 1024 -> Options { command: Script, workers: 1, store: None, spool: None }
workload --memory 100M --cores 8 --count 3 --rows 1000 --seed 1 -> Options { command: Workload, workers: 1, store: None, spool: None }
workload --seed=1 --rows=1000 --spool s --count=3 --cores=8 --memory=100M -> Options { command: Workload, workers: 1, store: None, spool: Some(\"s\") }
workload --memory 100M --cores 8 --count 0 --rows 1 --seed 0 -> Options { command: Workload, workers: 1, store: None, spool: None }
workload --memory 100M --cores 8 --count 10000 --rows 100000 --seed 18446744073709551615 -> Options { command: Workload, workers: 1, store: None, spool: None }";

#[test]
fn words_name_a_command(rt: HostRuntime) -> Result<(), Fail> {
    let alloc = rt.alloc();
    for line in TAKEN.lines() {
        let (words, expected) = line.split_once(" -> ").expect(&rt, "words and an answer");
        let told = told_of(alloc, words)?;
        assert_eq!(rt; told.as_str(), expected, "{words}");
    }
    Ok(())
}

/// Lines of words that name no command: an option that is wanting, repeated or unknown, a value that is wanting, begins with
/// `-` or is out of its range, and a word too many.
static REFUSED: &str = "\
script
script --memory 100M
script --cores 8
script --memory 100M --cores 8 --cores 8
script --memory 100M --cores 8 --store a --store=a
script --help
script --memory 100M --cores 8 --help
script --memory 100M --cores 8 --version
script --memory 100M --cores 8 -h
script --memory 100M --cores 8 --store
script --memory 100M --cores 8 --store -a
script --memory 100M --cores 8 --store --spool s
script --memory 100M --cores 8 --cache a
script --mem 100M --cores 8
script --memory 100M --cores 8 a
script --memory 100M --cores 8 -- a
script --memory 100M --cores 8 --count 1
script --memory 100m --cores 8
script --memory 100 --cores 8
script --memory 15M --cores 8
script --memory 1025T --cores 8
script --memory 100M --cores 0
script --memory 100M --cores 1025
script --memory 100M --cores 08
script --memory 100M --cores +8
script --memory 100M --cores=
Script --memory 100M --cores 8
--memory 100M --cores 8
workload --memory 100M --cores 8 --count 3 --rows 1000
workload --memory 100M --cores 8 --count 3 --rows 1000 --seed 1 --seed 1
workload --memory 100M --cores 8 --count 3 --rows 1000 --seed 1 --store a
workload --memory 100M --cores 8 --count 3 --rows 1000 --seed 1 --help
workload --memory 100M --cores 8 --count 10001 --rows 1000 --seed 1
workload --memory 100M --cores 8 --count 3 --rows 0 --seed 1
workload --memory 100M --cores 8 --count 3 --rows 100001 --seed 1
workload --memory 100M --cores 8 --count 3 --rows 1000 --seed 18446744073709551616";

#[test]
fn words_that_no_command_takes_are_refused(rt: HostRuntime) -> Result<(), Fail> {
    let alloc = rt.alloc();
    for words in REFUSED.lines() {
        let told = told_of(alloc, words)?;
        assert_eq!(rt; told.as_str(), "refused", "{words}");
    }
    Ok(())
}

static SCRIPT: &str = "script --store a.db --cores=8 --memory=0100M";

static WORKLOAD: &str =
    "workload --seed 18446744073709551615 --rows=2 --count 3 --cores 8 --memory 1G";

#[test]
fn values_are_those_of_their_options(rt: HostRuntime) -> Result<(), Fail> {
    let alloc = rt.alloc();
    let words = words_of(alloc, SCRIPT)?;
    let script = script_options(alloc, &words)?.expect(&rt, "a script's words");
    assert_eq!(rt; script.memory, 104_857_600);
    assert_eq!(rt; script.cores, 8);
    let words = words_of(alloc, WORKLOAD)?;
    let workload = workload_options(alloc, &words)?.expect(&rt, "a workload's words");
    assert_eq!(rt; workload.memory, 1_073_741_824);
    assert_eq!(rt; workload.cores, 8);
    assert_eq!(rt; workload.count, 3);
    assert_eq!(rt; workload.rows, 2);
    assert_eq!(rt; workload.seed, u64::MAX);
    assert_eq!(rt; workload.workers, 1);
    Ok(())
}
