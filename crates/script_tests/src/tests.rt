//! How scripts are run here, and how cases of them are written.

use rm_outside::keeper::Keeper;
use rm_outside::memory_keeper::MemoryKeeper;
use rm_outside::memory_shelf::MemoryShelf;
use rm_outside::memory_sink::MemorySink;
use rm_outside::memory_source::MemorySource;
use rm_outside::memory_spool::MemorySpool;
use rm_outside::shelf::Shelf;
use rm_outside::sink::Sink;
use rm_outside::source::Source;
use sessions::script_main::script_main;
use std::alloc::Global;
use std::process::Abort;
use std::test::Fail;

mod borrowing;
mod cascades;
mod command_words;
mod drops;
mod faults;
mod grantees;
mod joins;
mod limits;
mod lines;
mod queries;
mod queue;
mod rooms;
mod session_calls;
mod shows;
mod statements;
mod stores;
mod tables;
mod users;

/// The words that most scripts here run with. T is 95 percent of 100 MiB, which is 99,614,720 bytes, the threshold of
/// GENERAL 95 percent of that, 94,633,984, and its budget a quarter of the threshold, 23,658,496.
static USUAL: &str = "script --memory 100M --cores 8";

/// Runs a script over this source and this sink, and answers its status.
fn status_over<S: Source, O: Sink>(
    alloc: Global,
    line: &str,
    input: &mut S,
    out: &mut O,
) -> Result<u8, Fail> {
    status_with(alloc, line, input, out, &mut MemoryShelf::new(alloc))
}

/// The same with the files of this shelf.
fn status_with<S: Source, O: Sink, H: Shelf>(
    alloc: Global,
    line: &str,
    input: &mut S,
    out: &mut O,
    shelf: &mut H,
) -> Result<u8, Fail> {
    status_kept(alloc, line, input, out, shelf, &mut MemoryKeeper::new())
}

/// The same with the definitions of this store.
fn status_kept<S: Source, O: Sink, H: Shelf, K: Keeper>(
    alloc: Global,
    line: &str,
    input: &mut S,
    out: &mut O,
    shelf: &mut H,
    keeper: &mut K,
) -> Result<u8, Fail> {
    let mut words = Vec::new(alloc);
    for word in line.split(' ') {
        words.push(String::from_str(alloc, word)?)?;
    }
    let mut spool = MemorySpool::new(alloc);
    let status = script_main(alloc, &words, input, out, shelf, &mut spool, keeper);
    Ok(status.0)
}

/// Runs a script in memory, and answers its status and what it wrote.
fn run(alloc: Global, words: &str, script: &[u8]) -> Result<(u8, MemorySink), Fail> {
    let mut input = MemorySource::new(script.to_vec(alloc)?);
    let mut out = MemorySink::new(alloc);
    let status = status_over(alloc, words, &mut input, &mut out)?;
    Ok((status, out))
}

/// Runs a script, and compares its status and what it wrote with what was expected: the status, a line's end, and the
/// output.
fn compare(
    rt: &impl Abort,
    alloc: Global,
    words: &str,
    script: &str,
    expected: &str,
) -> Result<(), Fail> {
    let (status, text) = expected.split_once('\n').ok_or("no status")?;
    let (got, out) = run(alloc, words, script.as_bytes())?;
    assert_eq!(rt;
        format!(in alloc; "{got}")?.as_str(),
        status,
        "the status of {words:?}, {script:?}"
    );
    assert_eq!(rt;
        out.contents(),
        text.as_bytes(),
        "the text of {words:?}, {script:?}"
    );
    Ok(())
}

/// Runs cases with the usual words. A line `====` parts two cases. Each is a script, `---- ` and the status, which end the
/// script and not its last line, and the output.
fn run_cases(rt: &impl Abort, alloc: Global, cases: &str) -> Result<(), Fail> {
    for case in cases.split("====\n") {
        let (script, expected) = case.split_once("---- ").ok_or("no ----")?;
        compare(rt, alloc, USUAL, script, expected)?;
    }
    Ok(())
}
