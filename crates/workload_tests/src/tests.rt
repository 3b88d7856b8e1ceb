//! Workloads, by their words and under different clocks.

ghost use Rattle.std.specs.Prelude.{◌≡◌, length, map, string_bytes, IfOk};
ghost use Rattle.workload.specs.Ended.{HasKits};

use crate::words::words_of;
use options::status::{DONE, Status, USAGE, WRITE_FAULT};
use options::workload::workload_options;
use rm_base::moment::Moment;
use rm_outside::failing_sink::FailingSink;
use rm_outside::memory_clock::MemoryClock;
use rm_outside::memory_sink::MemorySink;
use rm_outside::memory_spool::MemorySpool;
use std::alloc::Global;
use std::test::Fail;
use workload::kit::Kit;
use workload::workload_main::workload_main;

/// So many kits, whose clocks stand still at a moment.
fn kits_of(alloc: Global, count: u32, at: u64) -> Result<Vec<Kit<MemorySpool, MemoryClock>>, Fail>
    ensures { IfOk result (λ kits. length kits.items ≡ count) }
{
    let mut kits = Vec::new(alloc);
    for _ in 0..count {
        let mut moments = Vec::new(alloc);
        moments.push(Moment::of(at))?;
        kits.push(Kit {
            spool: MemorySpool::new(alloc),
            clock: MemoryClock::new(moments),
        })?;
    }
    Ok(kits)
}

/// A kit for each worker that the words name.
fn kits_for(
    alloc: Global,
    words: &[String],
    at: u64,
) -> Result<Vec<Kit<MemorySpool, MemoryClock>>, Fail>
    ensures { IfOk result (λ kits. HasKits (map string_bytes words.now) (length kits.items)) }
{
    let workers = match workload_options(alloc, words)? {
        Some(options) => options.workers,
        None => 0,
    };
    kits_of(alloc, workers, at)
}

/// The status with which the words of a line, run at a moment, end, and what they print.
fn run_at(alloc: Global, line: &str, at: u64) -> Result<(Status, Vec<u8>), Fail> {
    let words = words_of(alloc, line)?;
    let mut kits = kits_for(alloc, &words, at)?;
    let mut out = MemorySink::new(alloc);
    let status = workload_main(alloc, &words, &mut out, &mut kits);
    Ok((status, out.contents().to_vec(alloc)?))
}

/// Whether the words of a line, run at a moment, end with the status and print the text.
fn prints(alloc: Global, line: &str, at: u64, status: u8, text: &str) -> Result<bool, Fail> {
    let (ended, printed) = run_at(alloc, line, at)?;
    Ok(ended.0 == status && printed.as_slice() == text.as_bytes())
}

static SMALL: &str = "workload --memory 100M --cores 8 --count 3 --rows 1000 --seed 1";

static SMALL_PRINTS: &str = "queries 3
rows 102
total 6950
granted 38600704
free 79691776
";

#[test]
fn a_workload_prints_five_lines_whatever_the_clock_says(rt: HostRuntime) -> Result<(), Fail> {
    let alloc = rt.alloc();
    assert!(rt; prints(alloc, SMALL, 0, DONE, SMALL_PRINTS)?);
    assert!(rt; prints(alloc, SMALL, 1_000_000_007, DONE, SMALL_PRINTS)?);
    Ok(())
}

static NONE: &str = "workload --memory 100M --cores 8 --count 0 --rows 1000 --seed 1";

static NONE_PRINTS: &str = "queries 0
rows 0
total 0
granted 0
free 79691776
";

#[test]
fn a_workload_of_no_queries_prints_zeros(rt: HostRuntime) -> Result<(), Fail> {
    let alloc = rt.alloc();
    assert!(rt; prints(alloc, NONE, 0, DONE, NONE_PRINTS)?);
    assert!(rt; prints(alloc, "workload --count 1", 0, USAGE, "")?);
    Ok(())
}

static LARGE: &str = "workload --memory 1G --cores 8 --count 3 --rows 10000 --seed 7";

static LARGE_PRINTS: &str = "queries 3
rows 102
total 114950
granted 395271207
free 816043786
";

static MANY: &str = "workload --memory 1G --cores 8 --count 200 --rows 10000 --seed 7";

#[test]
fn a_workload_of_larger_tables_prints_their_sums(rt: HostRuntime) -> Result<(), Fail> {
    let alloc = rt.alloc();
    assert!(rt; prints(alloc, LARGE, 0, DONE, LARGE_PRINTS)?);
    Ok(())
}

#[test]
fn two_runs_of_200_queries_print_the_same_lines(rt: HostRuntime) -> Result<(), Fail> {
    let alloc = rt.alloc();
    let (_, first) = run_at(alloc, MANY, 0)?;
    let (_, second) = run_at(alloc, MANY, 5)?;
    assert!(rt; first.as_slice().starts_with(b"queries 200\n"));
    assert!(rt; first.as_slice() == second.as_slice());
    Ok(())
}

#[test]
fn a_failing_output_ends_a_workload_with_its_status(rt: HostRuntime) -> Result<(), Fail> {
    let alloc = rt.alloc();
    let words = words_of(alloc, NONE)?;
    let mut kits = kits_for(alloc, &words, 0)?;
    let mut out = FailingSink::new(alloc, [1].to_vec(alloc)?);
    let ended = workload_main(alloc, &words, &mut out, &mut kits);
    assert_eq!(rt; ended.0, WRITE_FAULT);
    assert!(rt; out.contents().is_empty());
    Ok(())
}

static FAILS: &str = "workload --memory 16M --cores 8 --count 4 --rows 5000 --seed 3";

static FITS: &str = "workload --memory 16M --cores 8 --count 1 --rows 5000 --seed 3";

static FITS_PRINTS: &str = "queries 1
rows 1
total 5000
granted 1048576
free 12750685
";

/// In 16 MiB the pool of query 1 grants 3,785,359 bytes. Its join has 25,000 rows of 48 bytes, more than a quarter of that.
#[test]
fn a_join_that_does_not_fit_ends_a_workload(rt: HostRuntime) -> Result<(), Fail> {
    let alloc = rt.alloc();
    assert!(rt; prints(alloc, FAILS, 0, DONE, "failed 1\n")?);
    assert!(rt; prints(alloc, FITS, 0, DONE, FITS_PRINTS)?);
    Ok(())
}
