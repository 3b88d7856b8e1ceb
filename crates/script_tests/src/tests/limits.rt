//! Scripts at their limits and one past them.

use super::{USUAL, run, status_over};
use rm_outside::memory_sink::MemorySink;
use rm_outside::memory_source::MemorySource;
use rm_outside::source::Source;
use std::alloc::Global;
use std::process::Abort;
use std::test::Fail;

/// So many times the same line.
fn repeated(alloc: Global, line: &[u8], times: usize) -> Result<Vec<u8>, Fail> {
    let mut script = Vec::new(alloc);
    for _ in 0..times {
        script.extend_from_slice(line)?;
    }
    Ok(script)
}

/// Runs a script that prints this alone.
fn prints(
    rt: &impl Abort,
    alloc: Global,
    script: &[u8],
    status: u8,
    text: &[u8],
) -> Result<(), Fail> {
    let (got, out) = run(alloc, USUAL, script)?;
    assert_eq!(rt; got, status, "the status of {} bytes", script.len());
    assert_eq!(rt; out.contents(), text, "the text of {} bytes", script.len());
    Ok(())
}

/// Lines are counted from 1, also those that print nothing.
#[test]
fn a_bad_line_is_told_by_its_number(rt: HostRuntime) -> Result<(), Fail> {
    let alloc = rt.alloc();
    let mut script = repeated(alloc, b"#\n", 5_000)?;
    script.extend_from_slice(b"open a dbadmin\nfrob\nopen b dbadmin\n")?;
    prints(&rt, alloc, &script, 2, b"a opened 1\nbad line 5002\n")
}

#[test]
fn a_line_has_so_many_bytes(rt: HostRuntime) -> Result<(), Fail> {
    let alloc = rt.alloc();
    let mut line = repeated(alloc, b"#", 65_536)?;
    prints(&rt, alloc, &line, 0, b"")?;
    line.extend_from_slice(b"\r\nopen a dbadmin\n")?;
    prints(&rt, alloc, &line, 0, b"a opened 1\n")?;
    prints(
        &rt,
        alloc,
        &repeated(alloc, b"#", 65_537)?,
        2,
        b"bad line 1\n",
    )
}

/// Lines of these texts, each with the numbers from 1 on between them.
pub fn numbered(alloc: Global, before: &str, after: &str, most: u32) -> Result<String, Fail> {
    let mut script = String::new(alloc);
    for n in 1..=most {
        script.push_str(format!(in alloc; "{before}{n}{after}\n")?.as_str())?;
    }
    Ok(script)
}

#[test]
fn so_many_sessions_are_open(rt: HostRuntime) -> Result<(), Fail> {
    let mut script = numbered(rt.alloc(), "open s", " dbadmin", 129)?;
    script.push_str("close s1\nopen s129 dbadmin\nopen s1 dbadmin\nclose s128\nopen s1 dbadmin\n")?;
    let (status, out) = run(rt.alloc(), USUAL, script.as_bytes())?;
    assert_eq!(rt; status, 0);
    assert!(rt;
        out.contents().ends_with(
            b"s128 opened 128\ns129 refused 24 128\ns1 closed\ns129 opened 129\ns1 refused 24 128\ns128 closed\ns1 opened 130\n"
        )
    );
    Ok(())
}

/// GENERAL is the first of 64 pools.
#[test]
fn so_many_pools_are_there(rt: HostRuntime) -> Result<(), Fail> {
    let script = numbered(rt.alloc(), "sql CREATE RESOURCE POOL p", "", 64)?;
    let (status, out) = run(rt.alloc(), USUAL, script.as_bytes())?;
    assert_eq!(rt; status, 0);
    assert!(rt; out.contents().ends_with(b"ok\nok\nrefused 17 pools 64\n"));
    Ok(())
}

/// Runs so many line feeds and a bad line, and answers the status, what was written and how many bytes are left, up to 2.
fn run_feeds(alloc: Global, count: usize) -> Result<(u8, MemorySink, usize), Fail> {
    let mut script = vec![in alloc; b'\n'; count]?;
    script.push(b'x')?;
    let mut input = MemorySource::new(script);
    let mut out = MemorySink::new(alloc);
    let status = status_over(alloc, USUAL, &mut input, &mut out)?;
    let left = input.read(&mut [0; 2]).ok().ok_or("no answer")?;
    Ok((status, out, left))
}

/// A script of 64 MiB is run, and has that many lines at most; of a longer one a byte more is read, and no second one.
#[test]
fn a_script_has_so_many_bytes(rt: HostRuntime) -> Result<(), Fail> {
    let (status, out, left) = run_feeds(rt.alloc(), 67_108_863)?;
    assert_eq!(rt; (status, left), (2, 0));
    assert_eq!(rt; out.contents(), b"bad line 67108864\n".as_slice());
    let (status, out, left) = run_feeds(rt.alloc(), 67_108_865)?;
    assert_eq!(rt; (status, left), (8, 1));
    assert_eq!(rt; out.contents(), b"".as_slice());
    Ok(())
}

/// Words that are none leave the input as it is.
#[test]
fn without_words_nothing_is_read(rt: HostRuntime) -> Result<(), Fail> {
    let alloc = rt.alloc();
    let mut input = MemorySource::new(b"open a dbadmin\n".to_vec(alloc)?);
    let mut out = MemorySink::new(alloc);
    let status = status_over(alloc, "script --memory 100M", &mut input, &mut out)?;
    assert_eq!(rt; status, 1);
    assert_eq!(rt; out.contents(), b"".as_slice());
    assert_eq!(rt; input.read(&mut [0; 16]), Ok(15));
    Ok(())
}

/// The input is read to its end also where the first line is bad.
#[test]
fn behind_a_bad_line_all_is_read(rt: HostRuntime) -> Result<(), Fail> {
    let alloc = rt.alloc();
    let mut input = MemorySource::new(repeated(alloc, b"frob\n", 10_000)?);
    let mut out = MemorySink::new(alloc);
    let status = status_over(alloc, USUAL, &mut input, &mut out)?;
    assert_eq!(rt; status, 2);
    assert_eq!(rt; out.contents(), b"bad line 1\n".as_slice());
    assert_eq!(rt; input.read(&mut [0; 1]), Ok(0));
    Ok(())
}
