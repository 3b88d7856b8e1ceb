//! A store in a file.

use super::{ROWS, TABLES, adopted, commit, definitions, held, made};
use rm_outside::outside::Outside;
use sqlite::Connection;
use std::fs;
use std::test::Fail;

static PATH: &str = "kept.db";

static LOG: &str = "kept.db-wal";

/// Commits to the file, and closes it.
fn commit_and_close(rt: &HostRuntime) -> Result<(Option<Outside>, Option<Outside>), Fail> {
    let mut keeper = adopted(Connection::open(rt, PATH)?)?;
    let next = definitions(rt.alloc())?;
    let committed = commit(rt.alloc(), &mut keeper, &next).err();
    Ok((committed, keeper.close().err()))
}

/// All that the file holds.
fn held_in_file(rt: &HostRuntime) -> Result<String, Fail> {
    let mut connection = Connection::open(rt, PATH)?;
    held(rt.alloc(), &mut connection)
}

#[test]
fn a_closed_file_is_whole_without_its_log(rt: HostRuntime) -> Result<(), Fail> {
    assert_eq!(rt; commit_and_close(&rt)?, (None, None));
    fs::remove_file(&rt, LOG)?;
    assert_eq!(rt; held_in_file(&rt)?, made(rt.alloc(), &[TABLES, ROWS])?);
    fs::remove_file(&rt, PATH)?;
    fs::remove_file(&rt, LOG)?;
    Ok(())
}
