use rm_outside::failing_sink::FailingSink;
use rm_outside::failing_source::FailingSource;
use rm_outside::keeper::Keeper;
use rm_outside::memory_keeper::MemoryKeeper;
use rm_outside::memory_shelf::MemoryShelf;
use rm_outside::memory_sink::MemorySink;
use rm_outside::memory_source::MemorySource;
use rm_outside::memory_spool::MemorySpool;
use rm_outside::outside::Outside;
use rm_outside::shelf::{Shelf, ShelfError};
use rm_outside::sink::Sink;
use rm_outside::source::Source;
use rm_outside::spool::Spool;
use std::test::Fail;

#[test]
fn source_gives_its_bytes_and_then_the_end(rt: HostRuntime) -> Result<(), Fail> {
    let mut source = MemorySource::new(b"hello".to_vec(rt.alloc())?);
    let (mut first, mut second) = ([0; 3], [0; 3]);
    let answers = [
        source.read(&mut first),
        source.read(&mut []),
        source.read(&mut second),
        source.read(&mut [0]),
    ];
    assert!(rt; answers == [Ok(3), Ok(0), Ok(2), Ok(0)]);
    assert!(rt; (first, second, source.faults()) == (*b"hel", *b"lo\0", 0));
    Ok(())
}

#[test]
fn source_fails_at_its_second_read_and_loses_nothing(rt: HostRuntime) -> Result<(), Fail> {
    let alloc = rt.alloc();
    let mut source = FailingSource::new(b"abcd".to_vec(alloc)?, [2].to_vec(alloc)?);
    let (mut first, mut second) = ([0; 2], [0; 2]);
    let answers = [
        source.read(&mut first),
        source.read(&mut []),
        source.read(&mut second),
        source.read(&mut second),
    ];
    assert!(rt; answers == [Ok(2), Ok(0), Err(Outside::Failed), Ok(2)]);
    assert!(rt; (second, source.faults()) == (*b"cd", 1));
    Ok(())
}

#[test]
fn sink_keeps_what_is_written(rt: HostRuntime) -> Result<(), Fail> {
    let mut sink = MemorySink::new(rt.alloc());
    let answers = [sink.write(b"ab"), sink.write(b""), sink.write(b"c")];
    assert!(rt; answers == [Ok(2), Ok(0), Ok(1)]);
    assert!(rt; (sink.contents(), sink.faults()) == (b"abc".as_slice(), 0));
    Ok(())
}

#[test]
fn sink_fails_at_its_first_write_and_takes_the_second(rt: HostRuntime) -> Result<(), Fail> {
    let alloc = rt.alloc();
    let mut sink = FailingSink::new(alloc, [1].to_vec(alloc)?);
    let answers = [
        sink.write(b""),
        sink.write(b"ab"),
        sink.write(b"cd"),
        sink.write(b"e"),
    ];
    assert!(rt; answers == [Ok(0), Err(Outside::Failed), Ok(2), Ok(1)]);
    assert!(rt; (sink.contents(), sink.faults()) == (b"cde".as_slice(), 1));
    Ok(())
}

#[test]
fn shelf_gives_the_file_at_a_path(rt: HostRuntime) -> Result<(), Fail> {
    let alloc = rt.alloc();
    let mut shelf = MemoryShelf::new(alloc);
    shelf.put(String::from_str(alloc, "a.csv")?, b"old".to_vec(alloc)?)?;
    shelf.put(String::from_str(alloc, "a.csv")?, b"new".to_vec(alloc)?)?;
    let answers = [shelf.load(alloc, "a.csv"), shelf.load(alloc, "b.csv")];
    assert!(rt; answers == [Ok(b"new".to_vec(alloc)?), Err(ShelfError::Missing)]);
    Ok(())
}

#[test]
fn spool_gives_back_what_was_appended(rt: HostRuntime) -> Result<(), Fail> {
    let alloc = rt.alloc();
    let mut spool = MemorySpool::new(alloc);
    let Ok(id) = spool.create(alloc) else {
        return Err("no file")?;
    };
    let appended = (spool.append(id, b"abc"), spool.append(id, b"de"));
    let mut into = [0; 3];
    let read = (spool.read(id, 2, &mut into), spool.read(id, 9, &mut [0]));
    let removed = spool.remove(id);
    assert!(rt; (appended, read, removed) == ((Ok(()), Ok(())), (Ok(3), Ok(0)), Ok(())));
    assert!(rt; (into, spool.calls(), spool.written()) == (*b"cde", 6, 5));
    Ok(())
}

#[test]
fn keeper_loads_what_was_committed(rt: HostRuntime) -> Result<(), Fail> {
    let mut keeper = MemoryKeeper::new();
    let mut next = keeper
        .load(rt.alloc(), 1_073_741_824, 4)
        .ok()
        .ok_or("no memory")?;
    next.changes = 7;
    keeper.commit(rt.alloc(), &next).ok().ok_or("no memory")?;
    let loaded = keeper
        .load(rt.alloc(), 2_147_483_648, 8)
        .ok()
        .ok_or("no memory")?;
    assert_eq!(rt; loaded.memory, 2_147_483_648);
    assert_eq!(rt; loaded.cores, 8);
    assert_eq!(rt; loaded.changes, 0);
    assert!(rt; loaded.pools.rows() == next.pools.rows());
    Ok(())
}
