//! What is loaded, and what a commit leaves.

use super::{
    CORES, FRESH_ROWS, Left, MEMORY, ROWS, TABLES, after_commit, after_load, commit, definitions,
    left_by, loaded, store, taken,
};
use rm_base::name::Name;
use rm_base::rows::{GrantRow, PoolRow, RoleRow, UserRow};
use rm_base::statement::Level;
use std::alloc::Global;
use std::test::Fail;

fn name(text: &str) -> Result<Name, Fail> {
    Ok(Name::of(text).ok_or("no name")?)
}

fn front() -> Result<PoolRow, Fail> {
    Ok(PoolRow {
        name: name("front")?,
        memory: 4_096,
        max: Some(20_971_520),
        query_max: Some(10_485_760),
        parallel: Some(5),
        priority: 100,
        runtime_priority: Level::High,
        threshold_s: 86_400,
        queue_ms: Some(0),
        planned: Some(4),
        concurrency: Some(1_000),
        cap_ms: Some(31_536_000_000),
        cascade: Some(name("tail")?),
    })
}

fn tail() -> Result<PoolRow, Fail> {
    Ok(PoolRow {
        name: name("tail")?,
        memory: 1_048_576,
        max: None,
        query_max: None,
        parallel: None,
        priority: -100,
        runtime_priority: Level::Low,
        threshold_s: 0,
        queue_ms: None,
        planned: None,
        concurrency: None,
        cap_ms: None,
        cascade: None,
    })
}

#[test]
fn pools_are_loaded_in_their_order(rt: HostRuntime) -> Result<(), Fail> {
    let loaded = definitions(rt.alloc())?;
    let pools = loaded.pools.rows();
    assert_eq!(rt; pools.len(), 3);
    assert_eq!(rt;
        pools.first().map(|pool| pool.runtime_priority),
        Some(Level::Medium)
    );
    assert_eq!(rt; pools.get(1).copied(), Some(tail()?));
    assert_eq!(rt; pools.get(2).copied(), Some(front()?));
    assert_eq!(rt;
        (loaded.memory, loaded.cores, loaded.changes),
        (MEMORY, CORES, 0)
    );
    Ok(())
}

#[test]
fn users_and_roles_are_loaded_in_their_order(rt: HostRuntime) -> Result<(), Fail> {
    let loaded = definitions(rt.alloc())?;
    let zoe = UserRow {
        name: name("zoe")?,
        pool: Some(name("front")?),
        memory_cap: Some(1_048_576),
        cap_ms: Some(60_000),
    };
    let ann = UserRow {
        name: name("ann")?,
        pool: None,
        memory_cap: Some(0),
        cap_ms: None,
    };
    let writers = RoleRow {
        name: name("writers")?,
        pool: Some(name("tail")?),
    };
    let readers = RoleRow {
        name: name("readers")?,
        pool: None,
    };
    assert_eq!(rt; loaded.users.rows().get(1).copied(), Some(zoe));
    assert_eq!(rt; loaded.users.rows().get(2).copied(), Some(ann));
    assert_eq!(rt; loaded.users.rows().len(), 3);
    assert_eq!(rt; loaded.roles.rows(), [writers, readers].as_slice());
    Ok(())
}

#[test]
fn grants_are_loaded_in_their_order(rt: HostRuntime) -> Result<(), Fail> {
    let loaded = definitions(rt.alloc())?;
    let grants = [
        GrantRow::RoleToUser(name("readers")?, name("ann")?),
        GrantRow::PoolToUser(name("front")?, name("zoe")?),
        GrantRow::PoolToRole(name("tail")?, name("writers")?),
    ];
    assert_eq!(rt; loaded.grants.rows(), grants.as_slice());
    Ok(())
}

/// How many pools, users, roles and grants stand in the definitions of a fresh store.
fn fresh_counts(alloc: Global) -> Result<[usize; 4], Fail> {
    let fresh = loaded(alloc, &mut store(alloc, &[])?)?;
    Ok([
        fresh.pools.len(),
        fresh.users.len(),
        fresh.roles.len(),
        fresh.grants.len(),
    ])
}

#[test]
fn a_store_without_tables_is_fresh(rt: HostRuntime) -> Result<(), Fail> {
    assert_eq!(rt; fresh_counts(rt.alloc())?, [1, 1, 0, 0]);
    assert_eq!(rt; after_load(rt.alloc(), &[])?, taken(rt.alloc(), &[])?);
    Ok(())
}

#[test]
fn a_first_commit_makes_the_tables(rt: HostRuntime) -> Result<(), Fail> {
    assert_eq!(rt;
        after_commit(rt.alloc(), &[])?,
        taken(rt.alloc(), &[TABLES, ROWS])?
    );
    Ok(())
}

/// What is left where a fresh store's definitions are committed over others.
fn after_two_commits(alloc: Global) -> Result<Left, Fail> {
    let mut keeper = store(alloc, &[])?;
    let fresh = loaded(alloc, &mut keeper)?;
    if let Err(error) = commit(alloc, &mut keeper, &definitions(alloc)?) {
        return left_by(alloc, Some(error), keeper);
    }
    let error = commit(alloc, &mut keeper, &fresh).err();
    left_by(alloc, error, keeper)
}

#[test]
fn a_later_commit_replaces_every_row(rt: HostRuntime) -> Result<(), Fail> {
    assert_eq!(rt;
        after_two_commits(rt.alloc())?,
        taken(rt.alloc(), &[TABLES, FRESH_ROWS])?
    );
    Ok(())
}
