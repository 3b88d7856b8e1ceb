//! The tables of the store.

use crate::cells;
use crate::fault::outside_of;
use rm_outside::outside::Outside;
use sqlite::types::ValueRef;
use sqlite::{Alter, Connection, Error, Row, Transaction};

/// The number of the schema that is read and written here.
const SCHEMA_NUMBER: i64 = 1;

/// What makes each table of the schema, by their names.
static TABLES: [&str; 5] = [
    "CREATE TABLE grants(pos INTEGER PRIMARY KEY, kind INTEGER NOT NULL, a TEXT NOT NULL, b TEXT NOT NULL) STRICT",
    "CREATE TABLE meta(k TEXT PRIMARY KEY, n INTEGER NOT NULL) STRICT",
    "CREATE TABLE pools(pos INTEGER PRIMARY KEY, name TEXT NOT NULL UNIQUE, memory INTEGER NOT NULL, max INTEGER, query_max INTEGER, parallel INTEGER, priority INTEGER NOT NULL, level INTEGER NOT NULL, threshold_s INTEGER NOT NULL, queue_ms INTEGER, planned INTEGER, concurrency INTEGER, cap_ms INTEGER, cascade_to TEXT) STRICT",
    "CREATE TABLE roles(pos INTEGER PRIMARY KEY, name TEXT NOT NULL UNIQUE, pool TEXT) STRICT",
    "CREATE TABLE users(pos INTEGER PRIMARY KEY, name TEXT NOT NULL UNIQUE, pool TEXT, memory_cap INTEGER, cap_ms INTEGER) STRICT",
];

/// Whether two texts are one but for the case of letters and for white space, of which no word here needs the place.
fn are_alike(a: &[u8], b: &[u8]) -> bool {
    let a = a.iter().filter(|c| !c.is_ascii_whitespace());
    let b = b.iter().filter(|c| !c.is_ascii_whitespace());
    a.map(|c| c.to_ascii_lowercase())
        .eq(b.map(|c| c.to_ascii_lowercase()))
}

/// Whether an object of the store is the table that a text makes.
fn is_made_by(object: &Row, text: &str) -> bool {
    match object.get_ref(0) {
        Ok(ValueRef::Text(made)) => are_alike(made, text.as_bytes()),
        _ => false,
    }
}

/// Whether the objects of a store are the tables of the schema.
fn are_tables(objects: &[Row]) -> bool {
    objects.len() == TABLES.len()
        && objects
            .iter()
            .zip(&TABLES)
            .all(|(object, text)| is_made_by(object, text))
}

/// Whether the one row of `meta` names the schema.
fn is_numbered(rows: &[Row]) -> Result<bool, Outside> {
    match rows {
        [row] => Ok(cells::is_text(row, 0, "schema") && cells::int(row, 1)? == SCHEMA_NUMBER),
        _ => Ok(false),
    }
}

/// Whether the store holds nothing yet. One that holds anything but the schema has failed.
pub fn is_fresh<S: Alter>(connection: &mut Connection<S>) -> Result<bool, Outside> {
    let objects = connection
        .query_all(
            "SELECT sql FROM sqlite_schema WHERE sql IS NOT NULL ORDER BY name COLLATE NOCASE",
            &[],
        )
        .map_err(outside_of)?;
    if objects.is_empty() {
        return Ok(true);
    }
    if !are_tables(&objects) {
        return Err(Outside::Failed);
    }
    let meta = connection
        .query_all("SELECT k, n FROM meta", &[])
        .map_err(outside_of)?;
    if is_numbered(&meta)? {
        Ok(false)
    } else {
        Err(Outside::Failed)
    }
}

/// Makes the tables, in which there are no rows yet but the schema's number.
pub fn make<S: Alter>(tx: &mut Transaction<'_, S>) -> Result<(), Error> {
    for table in &TABLES {
        tx.execute(table, &[])?;
    }
    tx.execute(
        "INSERT INTO meta(k, n) VALUES ('schema', ?1)",
        &[ValueRef::Int(SCHEMA_NUMBER)],
    )?;
    Ok(())
}

/// Takes all rows out of the tables but the schema's number.
pub fn clear<S: Alter>(tx: &mut Transaction<'_, S>) -> Result<(), Error> {
    tx.execute_batch("DELETE FROM pools; DELETE FROM users; DELETE FROM roles; DELETE FROM grants")
}
