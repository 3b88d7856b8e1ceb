//! Databases that are neither fresh nor stores of this schema.

use super::{ROWS, TABLES, after_commit, after_load, refused, taken};
use std::alloc::Global;
use std::process::Abort;
use std::test::Fail;

/// What makes a store foreign: statements, a case a line.
static OTHER_SCHEMAS: &str = "UPDATE meta SET n = 2
UPDATE meta SET n = 0
UPDATE meta SET k = 'version'
DELETE FROM meta
INSERT INTO meta VALUES ('other', 1)
DROP TABLE roles
DROP TABLE meta
CREATE TABLE other(a INTEGER) STRICT
CREATE INDEX by_pool ON users(pool)
CREATE VIEW names AS SELECT name FROM pools
DROP TABLE roles; CREATE TABLE roles(pos INTEGER PRIMARY KEY, name TEXT NOT NULL UNIQUE) STRICT
DROP TABLE roles; CREATE TABLE roles(pos INTEGER PRIMARY KEY, name TEXT NOT NULL UNIQUE, pool TEXT, more TEXT) STRICT
DROP TABLE roles; CREATE TABLE roles(pos INTEGER PRIMARY KEY, name TEXT NOT NULL UNIQUE, pool INTEGER) STRICT
DROP TABLE roles; CREATE TABLE roles(pos INTEGER PRIMARY KEY, name TEXT NOT NULL, pool TEXT) STRICT
DROP TABLE roles; CREATE TABLE roles(pos INTEGER PRIMARY KEY, name TEXT NOT NULL UNIQUE, pool TEXT)
DROP TABLE roles; CREATE TABLE role(pos INTEGER PRIMARY KEY, name TEXT NOT NULL UNIQUE, pool TEXT) STRICT";

/// A database that was made for something else.
static OTHERS_DATABASE: &str = "CREATE TABLE other(a INTEGER) STRICT; INSERT INTO other VALUES (7)";

/// Neither a load nor a commit takes a store, and all that it holds stays.
fn is_refused(rt: &impl Abort, alloc: Global, statements: &[&str]) -> Result<(), Fail> {
    let refused = refused(alloc, statements)?;
    assert_eq!(rt; after_load(alloc, statements)?, refused);
    assert_eq!(rt; after_commit(alloc, statements)?, refused);
    Ok(())
}

#[test]
fn other_schemas_are_refused(rt: HostRuntime) -> Result<(), Fail> {
    for case in OTHER_SCHEMAS.lines() {
        is_refused(&rt, rt.alloc(), &[TABLES, ROWS, case])?;
    }
    is_refused(&rt, rt.alloc(), &[OTHERS_DATABASE])
}

/// A table that is written in another way.
static OTHERWISE_SPELLED: &str = "DROP TABLE roles; create table ROLES (
  POS integer primary key,
  name text not null unique,
  pool text
) strict; INSERT INTO roles VALUES (0, 'writers', 'tail'), (1, 'readers', NULL)";

#[test]
fn case_and_white_space_in_a_table_are_free(rt: HostRuntime) -> Result<(), Fail> {
    let spelled = [TABLES, ROWS, OTHERWISE_SPELLED];
    assert_eq!(rt;
        after_load(rt.alloc(), &spelled)?,
        taken(rt.alloc(), &spelled)?
    );
    assert_eq!(rt;
        after_commit(rt.alloc(), &spelled)?,
        taken(rt.alloc(), &spelled)?
    );
    Ok(())
}
