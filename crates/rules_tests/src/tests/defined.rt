//! Definitions as texts name them.

use rm_base::bounded::Bounded;
use rm_base::definitions::{Definitions, default_pool_row, default_user_row};
use rm_base::name::Name;
use rm_base::rows::{GrantRow, PoolRow, RoleRow, UserRow};
use std::alloc::Global;
use std::test::Fail;

/// The name that a word spells.
pub fn named(word: &str) -> Result<Name, Fail> {
    Ok(Name::of(word).ok_or(word)?)
}

/// A machine of 100 MiB and 8 cores with what a text names, parted by commas: `pool a`, or `pool a b` where it cascades
/// to another, `user u` or `role r`, each alone or with its pool, and the grants `usage a u` of a pool to a user,
/// `shared a r` of a pool to a role, and `member r u` of a role to a user.
pub fn defined(alloc: Global, text: &str) -> Result<Definitions, Fail> {
    let mut definitions = Definitions::new(alloc, 104_857_600, 8)?;
    for item in text.split(", ") {
        add_item(&mut definitions, item)?;
    }
    Ok(definitions)
}

fn add_item(definitions: &mut Definitions, item: &str) -> Result<(), Fail> {
    let (kind, rest) = item.split_once(' ').ok_or(item)?;
    let (first, other) = match rest.split_once(' ') {
        None => (named(rest)?, None),
        Some((first, other)) => (named(first)?, Some(named(other)?)),
    };
    match kind {
        "pool" => add(&mut definitions.pools, cascading(first, other)),
        "user" => add(&mut definitions.users, user_in(first, other)),
        "role" => add(
            &mut definitions.roles,
            RoleRow {
                name: first,
                pool: other,
            },
        ),
        kind => add(
            &mut definitions.grants,
            granted(kind, first, other.ok_or(item)?)?,
        ),
    }
}

fn add<T: Copy, const MOST: usize>(table: &mut Bounded<T, MOST>, row: T) -> Result<(), Fail> {
    if table.is_full() {
        Err("a full table")?;
    }
    table.add(row);
    Ok(())
}

fn cascading(name: Name, cascade: Option<Name>) -> PoolRow {
    PoolRow {
        cascade,
        ..default_pool_row(name)
    }
}

fn user_in(name: Name, pool: Option<Name>) -> UserRow {
    UserRow {
        pool,
        ..default_user_row(name)
    }
}

fn granted(kind: &str, what: Name, to: Name) -> Result<GrantRow, Fail> {
    match kind {
        "usage" => Ok(GrantRow::PoolToUser(what, to)),
        "shared" => Ok(GrantRow::PoolToRole(what, to)),
        "member" => Ok(GrantRow::RoleToUser(what, to)),
        kind => Err(kind)?,
    }
}
