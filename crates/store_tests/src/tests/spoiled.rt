//! Rows for which no definitions stand, and definitions whose rows can't be stored.

use super::{
    FRESH_ROWS, Left, ROWS, TABLES, after_load, commit, definitions, left_by, loaded, refused,
    store,
};
use pool_table::sound;
use rm_outside::keeper::Keeper;
use rm_outside::outside::Outside;
use std::alloc::Global;
use std::test::Fail;

/// What spoils the rows of a store: statements, a case a line.
static SPOILED: &str = "UPDATE pools SET pos = 3 WHERE pos = 2
UPDATE pools SET pos = -1 WHERE pos = 0
DELETE FROM pools WHERE pos = 1
DELETE FROM users WHERE pos = 0
UPDATE roles SET pos = 2 WHERE pos = 1
UPDATE grants SET pos = 3 WHERE pos = 2
UPDATE pools SET level = 3 WHERE pos = 1
UPDATE pools SET level = -1 WHERE pos = 1
UPDATE grants SET kind = 3 WHERE pos = 1
UPDATE grants SET kind = -1 WHERE pos = 1
UPDATE pools SET name = 'Front' WHERE pos = 2
UPDATE pools SET name = 'max' WHERE pos = 2
UPDATE users SET name = '' WHERE pos = 1
UPDATE users SET name = 'a b' WHERE pos = 1
UPDATE roles SET name = 'abcdefghijklmnopqrstuvwxyz1234567' WHERE pos = 1
UPDATE grants SET a = 'Readers' WHERE pos = 0
UPDATE grants SET b = '1ann' WHERE pos = 0
UPDATE pools SET cascade_to = 'TAIL' WHERE pos = 2
UPDATE users SET pool = '' WHERE pos = 1
UPDATE roles SET pool = 'Tail' WHERE pos = 0
UPDATE pools SET memory = -1 WHERE pos = 1
UPDATE pools SET memory = 1125899906842625 WHERE pos = 1
UPDATE pools SET max = 1125899906842625 WHERE pos = 1
UPDATE pools SET query_max = -1 WHERE pos = 1
UPDATE pools SET query_max = 1125899906842625 WHERE pos = 1
UPDATE pools SET parallel = 0 WHERE pos = 1
UPDATE pools SET parallel = 1001 WHERE pos = 1
UPDATE pools SET priority = 101 WHERE pos = 1
UPDATE pools SET priority = -101 WHERE pos = 1
UPDATE pools SET priority = 4294967297 WHERE pos = 1
UPDATE pools SET threshold_s = -1 WHERE pos = 1
UPDATE pools SET threshold_s = 86401 WHERE pos = 1
UPDATE pools SET queue_ms = 31536000001 WHERE pos = 1
UPDATE pools SET planned = 0 WHERE pos = 1
UPDATE pools SET planned = 1001 WHERE pos = 1
UPDATE pools SET concurrency = 0 WHERE pos = 1
UPDATE pools SET concurrency = 4294967297 WHERE pos = 1
UPDATE pools SET cap_ms = 0 WHERE pos = 1
UPDATE pools SET cap_ms = 31536000001 WHERE pos = 1
UPDATE users SET memory_cap = -1 WHERE pos = 1
UPDATE users SET memory_cap = 1125899906842625 WHERE pos = 1
UPDATE users SET cap_ms = 0 WHERE pos = 1
UPDATE users SET cap_ms = 31536000001 WHERE pos = 1
INSERT INTO pools WITH RECURSIVE n(i) AS (SELECT 3 UNION ALL SELECT i + 1 FROM n WHERE i < 64) SELECT i, 'p' || i, 0, NULL, NULL, NULL, 0, 1, 2, NULL, NULL, NULL, NULL, NULL FROM n
INSERT INTO users WITH RECURSIVE n(i) AS (SELECT 3 UNION ALL SELECT i + 1 FROM n WHERE i < 256) SELECT i, 'u' || i, NULL, NULL, NULL FROM n
INSERT INTO roles WITH RECURSIVE n(i) AS (SELECT 2 UNION ALL SELECT i + 1 FROM n WHERE i < 64) SELECT i, 'r' || i, NULL FROM n
INSERT INTO grants WITH RECURSIVE n(i) AS (SELECT 3 UNION ALL SELECT i + 1 FROM n WHERE i < 1024) SELECT i, 0, 'front', 'u' || i FROM n";

#[test]
fn spoiled_rows_are_refused(rt: HostRuntime) -> Result<(), Fail> {
    for case in SPOILED.lines() {
        let spoiled = [TABLES, ROWS, case];
        assert_eq!(rt;
            after_load(rt.alloc(), &spoiled)?,
            refused(rt.alloc(), &spoiled)?
        );
    }
    Ok(())
}

/// What leaves every value within its limits, and the tables full.
static FULL: &str =
    "UPDATE pools SET memory = 1125899906842624, max = 1125899906842624, query_max = 1125899906842624, parallel = 1000, planned = 1000, queue_ms = 31536000000, threshold_s = 86400, cap_ms = 1 WHERE pos = 1;
UPDATE users SET memory_cap = 1125899906842624, cap_ms = 1 WHERE pos = 1;
INSERT INTO pools WITH RECURSIVE n(i) AS (SELECT 3 UNION ALL SELECT i + 1 FROM n WHERE i < 63) SELECT i, 'p' || i, 0, NULL, NULL, NULL, 0, 1, 2, NULL, NULL, NULL, NULL, NULL FROM n;
INSERT INTO users WITH RECURSIVE n(i) AS (SELECT 3 UNION ALL SELECT i + 1 FROM n WHERE i < 255) SELECT i, 'u' || i, NULL, NULL, NULL FROM n;
INSERT INTO roles WITH RECURSIVE n(i) AS (SELECT 2 UNION ALL SELECT i + 1 FROM n WHERE i < 63) SELECT i, 'r' || i, NULL FROM n;
INSERT INTO grants WITH RECURSIVE n(i) AS (SELECT 3 UNION ALL SELECT i + 1 FROM n WHERE i < 1023) SELECT i, 0, 'front', 'u' || i FROM n";

#[test]
fn a_full_store_is_loaded(rt: HostRuntime) -> Result<(), Fail> {
    let alloc = rt.alloc();
    let full = loaded(alloc, &mut store(alloc, &[TABLES, ROWS, FULL])?)?;
    assert_eq!(rt; (full.pools.len(), full.users.len()), (64, 256));
    assert_eq!(rt; (full.roles.len(), full.grants.len()), (64, 1_024));
    Ok(())
}

/// Commits sound definitions with their first role once more behind the others, which no store takes.
fn commit_twofold<K: Keeper>(alloc: Global, keeper: &mut K) -> Result<Option<Outside>, Fail> {
    let mut next = definitions(alloc)?;
    let role = *next.roles.rows().first().ok_or("no role")?;
    if !sound(&next) || next.roles.is_full() {
        return Err("no room for a role".into());
    }
    next.roles.add(role);
    Ok(keeper.commit(alloc, &next).err())
}

fn after_twofold(alloc: Global, statements: &[&str]) -> Result<Left, Fail> {
    let mut keeper = store(alloc, statements)?;
    let error = commit_twofold(alloc, &mut keeper)?;
    left_by(alloc, error, keeper)
}

#[test]
fn a_commit_that_fails_leaves_what_was_stored(rt: HostRuntime) -> Result<(), Fail> {
    let stored = [TABLES, FRESH_ROWS];
    assert_eq!(rt;
        after_twofold(rt.alloc(), &stored)?,
        refused(rt.alloc(), &stored)?
    );
    assert_eq!(rt; after_twofold(rt.alloc(), &[])?, refused(rt.alloc(), &[])?);
    Ok(())
}

/// The error of a commit that follows one that failed.
fn error_after_twofold(alloc: Global) -> Result<Option<Outside>, Fail> {
    let mut keeper = store(alloc, &[])?;
    commit_twofold(alloc, &mut keeper)?;
    Ok(commit(alloc, &mut keeper, &definitions(alloc)?).err())
}

#[test]
fn a_commit_follows_one_that_failed(rt: HostRuntime) -> Result<(), Fail> {
    assert_eq!(rt; error_after_twofold(rt.alloc())?, None);
    Ok(())
}
