//! Stores as statements make them, and all that a store holds as a text.

ghost use Rattle.std.specs.Prelude.{◌≡◌, IfOk};
ghost use Rattle.rm_outside.specs.Stored.{IsNewlyLoaded};

use keeper_rows::sql_keeper::SqlKeeper;
use pool_table::sound;
use rm_base::definitions::Definitions;
use rm_outside::keeper::Keeper;
use rm_outside::outside::Outside;
use sqlite::types::ValueRef;
use sqlite::{Alter, Connection, Error, MemStore, Row};
use std::alloc::{AllocError, Global};
use std::str;
use std::test::Fail;

mod files;
mod foreign;
mod rows;
mod spoiled;

/// The machine's memory, in bytes.
const MEMORY: u64 = 104_857_600;

const CORES: u32 = 8;

/// The five tables, and the number of the schema.
static TABLES: &str = "CREATE TABLE meta(k TEXT PRIMARY KEY, n INTEGER NOT NULL) STRICT;
CREATE TABLE pools(pos INTEGER PRIMARY KEY, name TEXT NOT NULL UNIQUE, memory INTEGER NOT NULL, max INTEGER, query_max INTEGER, parallel INTEGER, priority INTEGER NOT NULL, level INTEGER NOT NULL, threshold_s INTEGER NOT NULL, queue_ms INTEGER, planned INTEGER, concurrency INTEGER, cap_ms INTEGER, cascade_to TEXT) STRICT;
CREATE TABLE users(pos INTEGER PRIMARY KEY, name TEXT NOT NULL UNIQUE, pool TEXT, memory_cap INTEGER, cap_ms INTEGER) STRICT;
CREATE TABLE roles(pos INTEGER PRIMARY KEY, name TEXT NOT NULL UNIQUE, pool TEXT) STRICT;
CREATE TABLE grants(pos INTEGER PRIMARY KEY, kind INTEGER NOT NULL, a TEXT NOT NULL, b TEXT NOT NULL) STRICT;
INSERT INTO meta VALUES ('schema', 1)";

/// Rows with every value that may be none, with and without it, and grants of every kind.
static ROWS: &str = "INSERT INTO pools VALUES
(0, 'general', 0, 90000000, NULL, NULL, 0, 1, 2, 300000, NULL, NULL, NULL, NULL),
(1, 'tail', 1048576, NULL, NULL, NULL, -100, 0, 0, NULL, NULL, NULL, NULL, NULL),
(2, 'front', 4096, 20971520, 10485760, 5, 100, 2, 86400, 0, 4, 1000, 31536000000, 'tail');
INSERT INTO users VALUES (0, 'dbadmin', NULL, NULL, NULL), (1, 'zoe', 'front', 1048576, 60000), (2, 'ann', NULL, 0, NULL);
INSERT INTO roles VALUES (0, 'writers', 'tail'), (1, 'readers', NULL);
INSERT INTO grants VALUES (0, 2, 'readers', 'ann'), (1, 0, 'front', 'zoe'), (2, 1, 'tail', 'writers')";

/// The rows of a fresh store, once they are committed.
static FRESH_ROWS: &str =
    "INSERT INTO pools VALUES (0, 'general', 0, NULL, NULL, NULL, 0, 1, 2, 300000, NULL, NULL, NULL, NULL);
INSERT INTO users VALUES (0, 'dbadmin', NULL, NULL, NULL)";

// These have no clause, so that the proof of a test does not carry the state of each call.
fn run<S: Alter>(connection: &mut Connection<S>, statements: &str) -> Result<(), Error> {
    connection.execute_batch(statements)
}

fn answer<S: Alter>(connection: &mut Connection<S>, query: &str) -> Result<Vec<Row>, Error> {
    connection.query_all(query, &[])
}

/// A database in memory, after some statements.
fn database(alloc: Global, statements: &[&str]) -> Result<Connection<MemStore>, Fail> {
    let mut connection = Connection::open_in_memory(alloc)?;
    for statement in statements {
        run(&mut connection, statement)?;
    }
    Ok(connection)
}

fn adopted<S: Alter + Drop>(connection: Connection<S>) -> Result<SqlKeeper<S>, Fail> {
    if connection.is_autocommit() {
        Ok(SqlKeeper::adopt(connection))
    } else {
        Err("a transaction is open".into())
    }
}

/// A store in memory, after some statements.
fn store(alloc: Global, statements: &[&str]) -> Result<SqlKeeper<MemStore>, Fail> {
    adopted(database(alloc, statements)?)
}

fn load<S: Alter + Drop>(alloc: Global, keeper: &mut SqlKeeper<S>) -> Result<Definitions, Outside> {
    keeper.load(alloc, MEMORY, CORES)
}

/// Commits definitions, which have to be sound.
fn commit<S: Alter + Drop>(
    alloc: Global,
    keeper: &mut SqlKeeper<S>,
    next: &Definitions,
) -> Result<(), Outside> {
    if sound(next) {
        keeper.commit(alloc, next)
    } else {
        Err(Outside::Failed)
    }
}

/// The definitions that a store holds, which can be loaded.
fn loaded<S: Alter + Drop>(alloc: Global, keeper: &mut SqlKeeper<S>) -> Result<Definitions, Fail> {
    Ok(load(alloc, keeper).ok().ok_or("not loaded")?)
}

/// The definitions for which `ROWS` stand.
fn definitions(alloc: Global) -> Result<Definitions, Fail> {
    loaded(alloc, &mut store(alloc, &[TABLES, ROWS])?)
}

fn push_cell(alloc: Global, text: &mut String, cell: ValueRef<'_>) -> Result<(), Fail> {
    match cell {
        ValueRef::Null => text.push_str("NULL|")?,
        ValueRef::Int(number) => text.push_str(format!(in alloc; "{number}|")?.as_str())?,
        ValueRef::Text(bytes) => {
            text.push_str(str::from_utf8(bytes).ok().ok_or("not UTF-8")?)?;
            text.push_str("|")?;
        }
        _ => return Err("neither a number nor a text".into()),
    }
    Ok(())
}

fn push_row(alloc: Global, text: &mut String, row: &Row) -> Result<(), Fail> {
    for at in 0..row.column_count() {
        push_cell(alloc, text, row.get_ref(at)?)?;
    }
    text.push_str("\n")?;
    Ok(())
}

fn push_rows<S: Alter>(
    alloc: Global,
    text: &mut String,
    connection: &mut Connection<S>,
    query: &str,
) -> Result<(), Fail> {
    for row in answer(connection, query)?.iter() {
        push_row(alloc, text, row)?;
    }
    Ok(())
}

/// All that a database holds: its objects, and the rows of each table.
fn held<S: Alter>(alloc: Global, connection: &mut Connection<S>) -> Result<String, Fail> {
    let mut text = String::new(alloc);
    push_rows(
        alloc,
        &mut text,
        connection,
        "SELECT type, name, sql FROM sqlite_schema ORDER BY name",
    )?;
    for table in answer(
        connection,
        "SELECT name FROM sqlite_schema WHERE type = 'table' ORDER BY name",
    )?
    .iter()
    {
        let name: String = table.get(0)?;
        push_rows(
            alloc,
            &mut text,
            connection,
            format!(in alloc; "SELECT * FROM {name}")?.as_str(),
        )?;
    }
    Ok(text)
}

/// All that a store in memory holds after some statements.
fn made(alloc: Global, statements: &[&str]) -> Result<String, Fail> {
    held(alloc, &mut database(alloc, statements)?)
}

/// What a call answered, and what the store holds after it.
#[derive(Debug, Drop, PartialEq)]
struct Left {
    error: Option<Outside>,
    faults: u64,
    held: String,
}

fn left_by<S: Alter + Drop>(
    alloc: Global,
    error: Option<Outside>,
    keeper: SqlKeeper<S>,
) -> Result<Left, Fail> {
    let faults = keeper.faults();
    let held = held(alloc, &mut keeper.into_connection())?;
    Ok(Left {
        error,
        faults,
        held,
    })
}

/// What a load leaves of the store that statements make.
fn after_load(alloc: Global, statements: &[&str]) -> Result<Left, Fail> {
    let mut keeper = store(alloc, statements)?;
    let error = load(alloc, &mut keeper).err();
    left_by(alloc, error, keeper)
}

/// What a commit of the definitions for which `ROWS` stand leaves of the store that statements make.
fn after_commit(alloc: Global, statements: &[&str]) -> Result<Left, Fail> {
    let next = definitions(alloc)?;
    let mut keeper = store(alloc, statements)?;
    let error = commit(alloc, &mut keeper, &next).err();
    left_by(alloc, error, keeper)
}

/// A call that failed, was counted and left all as statements make it.
fn refused(alloc: Global, statements: &[&str]) -> Result<Left, Fail> {
    Ok(Left {
        error: Some(Outside::Failed),
        faults: 1,
        held: made(alloc, statements)?,
    })
}

/// A call that did not fail, and left what statements make.
fn taken(alloc: Global, statements: &[&str]) -> Result<Left, Fail> {
    Ok(Left {
        error: None,
        faults: 0,
        held: made(alloc, statements)?,
    })
}
