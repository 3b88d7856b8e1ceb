//! Streams that fail, and streams that lack memory.

ghost use Rattle.std.specs.Prelude.{◌≡◌};

use super::{USUAL, status_over};
use rm_outside::failing_sink::FailingSink;
use rm_outside::failing_source::FailingSource;
use rm_outside::memory_sink::MemorySink;
use rm_outside::memory_source::MemorySource;
use rm_outside::outside::Outside;
use rm_outside::sink::Sink;
use rm_outside::source::Source;
use std::alloc::Global;
use std::process::Abort;
use std::test::Fail;

/// A script that prints two lines.
static SCRIPT: &[u8] = b"open a dbadmin\nask a 1\n";

/// The read of this number fails, and nothing is written.
fn blames_the_input(rt: &impl Abort, alloc: Global, read: u64) -> Result<(), Fail> {
    let mut input = FailingSource::new(SCRIPT.to_vec(alloc)?, [read].to_vec(alloc)?);
    let mut out = MemorySink::new(alloc);
    let status = status_over(alloc, USUAL, &mut input, &mut out)?;
    assert_eq!(rt; status, 3, "the status at {read}");
    assert_eq!(rt; out.contents(), b"".as_slice(), "the text at {read}");
    assert_eq!(rt; input.faults(), 1, "the faults at {read}");
    Ok(())
}

#[test]
fn an_input_that_fails_ends_the_script(rt: HostRuntime) -> Result<(), Fail> {
    blames_the_input(&rt, rt.alloc(), 1)?;
    blames_the_input(&rt, rt.alloc(), 2)
}

/// The write of this number fails, and what was written before stays.
fn blames_the_output(rt: &impl Abort, alloc: Global, write: u64, text: &[u8]) -> Result<(), Fail> {
    let mut input = MemorySource::new(SCRIPT.to_vec(alloc)?);
    let mut out = FailingSink::new(alloc, [write].to_vec(alloc)?);
    let status = status_over(alloc, USUAL, &mut input, &mut out)?;
    assert_eq!(rt; status, 4, "the status at {write}");
    assert_eq!(rt; out.contents(), text, "the text at {write}");
    assert_eq!(rt; out.faults(), 1, "the faults at {write}");
    Ok(())
}

#[test]
fn an_output_that_fails_ends_the_script(rt: HostRuntime) -> Result<(), Fail> {
    blames_the_output(&rt, rt.alloc(), 1, b"")?;
    blames_the_output(&rt, rt.alloc(), 2, b"a opened 1\n")
}

/// Failures that come behind the last call of a script are none of its.
#[test]
fn later_failures_do_not_come(rt: HostRuntime) -> Result<(), Fail> {
    let alloc = rt.alloc();
    let mut input = FailingSource::new(SCRIPT.to_vec(alloc)?, [3].to_vec(alloc)?);
    let mut out = FailingSink::new(alloc, [3].to_vec(alloc)?);
    let status = status_over(alloc, USUAL, &mut input, &mut out)?;
    assert_eq!(rt; status, 0);
    assert_eq!(rt; (input.faults(), out.faults()), (0, 0));
    Ok(())
}

/// A stream that never has the memory that a call needs, and counts no fault.
#[derive(Drop)]
struct Wanting;

impl Source for Wanting {
    ghost use Rattle.std.specs.Prelude.{None};

    ghost faults = { λ _. 0 };

    ghost left = { λ _. None };

    fn faults(&self) -> u64 {
        0
    }

    fn read(&mut self, into: &mut [u8]) -> Result<usize, Outside> {
        if into.is_empty() {
            return Ok(0);
        }
        Err(Outside::Memory)
    }
}

impl Sink for Wanting {
    ghost use Rattle.std.specs.Prelude.{None};

    ghost faults = { λ _. 0 };

    ghost written = { λ _. None };

    fn faults(&self) -> u64 {
        0
    }

    fn write(&mut self, bytes: &[u8]) -> Result<usize, Outside> {
        if bytes.is_empty() {
            return Ok(0);
        }
        Err(Outside::Memory)
    }
}

/// Want of memory is no fault of the stream that lacks it.
#[test]
fn want_of_memory_is_no_fault(rt: HostRuntime) -> Result<(), Fail> {
    let alloc = rt.alloc();
    let mut out = MemorySink::new(alloc);
    assert_eq!(rt; status_over(alloc, USUAL, &mut Wanting, &mut out)?, 7);
    assert_eq!(rt; out.contents(), b"".as_slice());
    let mut input = MemorySource::new(SCRIPT.to_vec(alloc)?);
    assert_eq!(rt; status_over(alloc, USUAL, &mut input, &mut Wanting)?, 7);
    let mut input = MemorySource::new(b"frob".to_vec(alloc)?);
    assert_eq!(rt; status_over(alloc, USUAL, &mut input, &mut Wanting)?, 7);
    Ok(())
}
