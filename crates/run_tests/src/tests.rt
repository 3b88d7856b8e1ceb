//! Runs of a SELECT, and the row steps that they hand over.

ghost use Rattle.std.specs.Prelude.{◌≡◌, ◌≤◌, None, IfOk};
ghost use Rattle.rm_base.specs.Select.{select_floor};
ghost use Rattle.query_run.specs.Running.{IsRunnable};

use csv_tables::load::load;
use csv_tables::table::Table;
use csv_tables::tables::Tables;
use query_plan::plan::Plan;
use query_plan::reading::read_select;
use query_run::run::{RunEnd, run};
use rm_base::name::Name;
use rm_base::reply::Reply;
use rm_base::value::Value;
use rm_outside::memory_spool::MemorySpool;
use rm_outside::memory_watch::MemoryWatch;
use rm_outside::stopping_watch::StoppingWatch;
use rm_outside::watch::{STEPS_MOST, Watch};
use std::alloc::Global;
use std::test::Fail;

/// How many rows each table here has.
const ROWS: u32 = 20_000;

/// What each run here is granted, in bytes.
const GRANT: u64 = 100_000_000;

fn table_of(alloc: Global, text: &str) -> Result<Table, Fail> {
    match load(alloc, text.as_bytes()) {
        Ok(table) => Ok(table),
        Err(_) => Err("no table")?,
    }
}

/// A table of one column, k, with the numbers from 0 on.
fn numbers(alloc: Global) -> Result<Table, Fail> {
    let mut text = String::from_str(alloc, "k:int\n")?;
    for number in 0..ROWS {
        text.push_str(format!(in alloc; "{number}\n")?.as_str())?;
    }
    table_of(alloc, text.as_str())
}

/// How many texts the table of long texts has.
const LONG_ROWS: u32 = 2_000;

/// 1,020 letters.
fn letters(alloc: Global) -> Result<String, Fail> {
    let mut letters = String::new(alloc);
    for _ in 0..102 {
        letters.push_str("abcdefghij")?;
    }
    Ok(letters)
}

/// A table of one column, k, with texts of 1,024 bytes that differ at their ends.
fn long_texts(alloc: Global) -> Result<Table, Fail> {
    let letters = letters(alloc)?;
    let mut text = String::from_str(alloc, "k\n")?;
    for number in 1_000..1_000 + LONG_ROWS {
        text.push_str(letters.as_str())?;
        text.push_str(format!(in alloc; "{number}\n")?.as_str())?;
    }
    table_of(alloc, text.as_str())
}

/// Puts a table of this name behind the others.
fn put(alloc: Global, tables: &mut Tables, name: &str, table: Table) -> Result<(), Fail> {
    let name = Name::of(name).ok_or("no name")?;
    if tables.is_full() || tables.has(name) {
        return Err("no room")?;
    }
    tables.add(alloc, name, table)?;
    Ok(())
}

/// Two tables, p and q, of the same numbers.
fn two_tables(alloc: Global) -> Result<Tables, Fail> {
    let mut tables = Tables::new(alloc);
    put(alloc, &mut tables, "p", numbers(alloc)?)?;
    put(alloc, &mut tables, "q", numbers(alloc)?)?;
    Ok(tables)
}

/// Two tables, p and q, of the same long texts.
fn two_long_tables(alloc: Global) -> Result<Tables, Fail> {
    let mut tables = Tables::new(alloc);
    put(alloc, &mut tables, "p", long_texts(alloc)?)?;
    put(alloc, &mut tables, "q", long_texts(alloc)?)?;
    Ok(tables)
}

/// The plan of a text over these tables.
fn plan_of(alloc: Global, tables: &Tables, text: &str) -> Result<Plan, Fail>
    ensures { IfOk result (λ plan. IsRunnable plan tables.now) }
{
    match read_select(alloc, text, tables.catalog()) {
        Ok(plan) => Ok(plan),
        Err(_) => Err("no plan")?,
    }
}

/// How a text's run over these tables ends.
fn run_over<W: Watch>(
    alloc: Global,
    tables: &Tables,
    text: &str,
    watch: &mut W,
) -> Result<RunEnd, Fail>
    requires { W.stop watch.old ≡ None }
{
    let plan = plan_of(alloc, tables, text)?;
    let grant = plan.floor().max(GRANT);
    let mut spool = MemorySpool::new(alloc);
    Ok(run(alloc, &plan, tables, grant, &mut spool, watch))
}

static JOIN: &str = "SELECT COUNT(*) FROM p JOIN q ON p.k = q.k";

static GROUPS: &str = "SELECT k, COUNT(*) FROM p GROUP BY k";

/// Whether a run ended with one row of this number alone.
fn answers(end: &RunEnd, number: i64) -> bool {
    match end {
        RunEnd::Answer(rows) => match rows.as_slice() {
            [row] => match row.as_slice() {
                [Value::Int(found)] => *found == number,
                _ => false,
            },
            _ => false,
        },
        _ => false,
    }
}

/// How many rows a run ended with.
fn rows_of(end: &RunEnd) -> Option<usize> {
    match end {
        RunEnd::Answer(rows) => Some(rows.as_slice().len()),
        _ => None,
    }
}

/// Each row of a table meets one row of the other. A row is taken, compared and put out a few times, and not compared with
/// each row of the other table.
#[test]
fn a_join_looks_rows_up_by_their_keys(rt: HostRuntime) -> Result<(), Fail> {
    let alloc = rt.alloc();
    let tables = two_tables(alloc)?;
    let mut watch = MemoryWatch::new();
    let end = run_over(alloc, &tables, JOIN, &mut watch)?;
    assert!(rt; answers(&end, ROWS as i64));
    assert!(rt; watch.handed() < 10 * ROWS as u64);
    Ok(())
}

/// A run that is stopped at its third check-in hands over no step more.
#[test]
fn a_stop_ends_a_run(rt: HostRuntime) -> Result<(), Fail> {
    let alloc = rt.alloc();
    let tables = two_tables(alloc)?;
    let mut watch = StoppingWatch::new(2, Reply::Stopping);
    let end = run_over(alloc, &tables, JOIN, &mut watch)?;
    assert!(rt; matches!(end, RunEnd::Stopped(Reply::Stopping)));
    assert_eq!(rt; watch.handed(), 3 * STEPS_MOST);
    Ok(())
}

#[test]
fn groups_have_one_row_each(rt: HostRuntime) -> Result<(), Fail> {
    let alloc = rt.alloc();
    let tables = two_tables(alloc)?;
    let end = run_over(alloc, &tables, GROUPS, &mut MemoryWatch::new())?;
    assert_eq!(rt; rows_of(&end), Some(ROWS as usize));
    Ok(())
}

#[test]
fn texts_of_1024_bytes_are_keys(rt: HostRuntime) -> Result<(), Fail> {
    let alloc = rt.alloc();
    let tables = two_long_tables(alloc)?;
    let end = run_over(alloc, &tables, JOIN, &mut MemoryWatch::new())?;
    assert!(rt; answers(&end, LONG_ROWS as i64));
    let end = run_over(alloc, &tables, GROUPS, &mut MemoryWatch::new())?;
    assert_eq!(rt; rows_of(&end), Some(LONG_ROWS as usize));
    Ok(())
}
