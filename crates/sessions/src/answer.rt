//! The answer of a query: its plan runs, and what that came to is written.

ghost use Rattle.std.specs.Prelude.{◌≡◌, ◌≤◌, ◌<◌, ◌++◌, length, IfOk, IfErr, OnOk, string_bytes};
ghost use Rattle.std.specs.Io.KnownBytes.{Appends};
ghost use Rattle.query_run.specs.Running.{IsRunnable, tables_called};
ghost use Rattle.sessions.specs.AnswerTexts.{rows_text, rows_head, plan_outcome, shown_text};
ghost use Rattle.sessions.specs.Answered.{ran_outcome, rows_in, head_text, told_text, answer_text};
ghost use Rattle.sessions.specs.Transfers.{ExplainsOutput};
ghost use Rattle.sessions.specs.World.{seen_sink};

use crate::csv_rows::{names_bytes, rows_bytes};
use crate::failure::Failure;
use crate::output::write_text;
use crate::texts::{large_line, line_text, spill_line, sum_line};
use csv_tables::tables::Tables;
use query_plan::plan::Plan;
use query_run::run::{RunEnd, run};
use rm_base::limits::PIECE_MOST;
use rm_base::name::Name;
use rm_base::reply::Reply;
use rm_base::row::Row;
use rm_base::row_list::RowList;
use rm_base::text::Text;
use rm_outside::memory_watch::MemoryWatch;
use rm_outside::sink::Sink;
use rm_outside::spool::Spool;
use std::alloc::{AllocError, Global};
use system_tables::rows::Shown;

/// What the run of a plan came to.
#[derive(Drop)]
pub enum Ran {
    Rows(RowList),
    /// An output column, counted from 1, has a sum outside 64 bits.
    SumOutOfRange(u32, i128),
    /// An answer has room for so many first rows alone.
    TooLarge(u64),
    /// What the run keeps does not fit its grant.
    NeedsSpill,
}

/// The answer of a session's query, with what is told before it and the grant that was released after it.
#[derive(Drop)]
pub struct Answer {
    pub session: Name,
    pub before: String,
    pub plan: Plan,
    pub ran: Ran,
    pub released: u64,
}

/// Runs a plan with a grant. Its work is never stopped.
pub fn run_plan<P: Spool>(
    alloc: Global,
    plan: &Plan,
    tables: &Tables,
    grant: u64,
    spool: &mut P,
) -> Result<Ran, AllocError>
    requires { IsRunnable plan.now tables.now }
    ensures outcome { IfOk result (λ ran. ran_outcome ran ≡ plan_outcome grant plan.now (tables_called tables.now plan.now.tables)) }
    ensures spool { spool.new ≡ spool.old }
{
    if plan.floor() > grant {
        return Ok(Ran::NeedsSpill);
    }
    let mut watch = MemoryWatch::new();
    match run(alloc, plan, tables, grant, spool, &mut watch) {
        RunEnd::Answer(rows) => Ok(Ran::Rows(rows)),
        RunEnd::SumOutOfRange(column, sum) => Ok(Ran::SumOutOfRange(column, sum)),
        RunEnd::AnswerTooLarge(rows) => Ok(Ran::TooLarge(rows)),
        RunEnd::NeedsSpill => Ok(Ran::NeedsSpill),
        RunEnd::Stopped(_) => unreachable!(),
        RunEnd::Memory => Err(AllocError),
    }
}

/// Writes an answer, a piece of its rows at a time.
pub fn write_answer<O: Sink>(alloc: Global, answer: &Answer, out: &mut O) -> Result<(), Failure>
    ensures later { O.faults out.old ≤ O.faults out.new }
    ensures whole { OnOk result (Appends (O.written out.old) (O.written out.new) (answer_text answer.now)) }
    ensures err { IfErr result (ExplainsOutput (seen_sink O.Sink out.old) (seen_sink O.Sink out.new) (answer_text answer.now)) }
{
    write_text(out, answer.before.as_bytes())?;
    write_outcome(alloc, answer, out)
}

/// Writes what an answer prints behind what is told before it.
fn write_outcome<O: Sink>(alloc: Global, answer: &Answer, out: &mut O) -> Result<(), Failure>
    ensures later { O.faults out.old ≤ O.faults out.new }
    ensures whole { OnOk result (Appends (O.written out.old) (O.written out.new) (told_text answer.now)) }
    ensures err { IfErr result (ExplainsOutput (seen_sink O.Sink out.old) (seen_sink O.Sink out.new) (told_text answer.now)) }
{
    let names = answer.plan.select().names.as_slice();
    let head = head_bytes(alloc, answer.session, names, &answer.ran)?;
    write_text(out, &head)?;
    write_rows(alloc, rows_in(&answer.ran), out)?;
    let released = line_text(alloc, answer.session, Reply::Released(answer.released))?;
    write_text(out, released.as_bytes())
}

/// Writes a table that is shown, behind what is told before it.
pub fn write_shown<O: Sink>(
    alloc: Global,
    before: &str,
    table: &Shown,
    out: &mut O,
) -> Result<(), Failure>
    ensures later { O.faults out.old ≤ O.faults out.new }
    ensures whole { OnOk result (Appends (O.written out.old) (O.written out.new) (before.now ++ shown_text table.now)) }
    ensures err { IfErr result (ExplainsOutput (seen_sink O.Sink out.old) (seen_sink O.Sink out.new) (before.now ++ shown_text table.now)) }
{
    write_text(out, before.as_bytes())?;
    write_table(alloc, table, out)
}

/// Writes the line of a table's columns, and its rows.
fn write_table<O: Sink>(alloc: Global, table: &Shown, out: &mut O) -> Result<(), Failure>
    ensures later { O.faults out.old ≤ O.faults out.new }
    ensures whole { OnOk result (Appends (O.written out.old) (O.written out.new) (shown_text table.now)) }
    ensures err { IfErr result (ExplainsOutput (seen_sink O.Sink out.old) (seen_sink O.Sink out.new) (shown_text table.now)) }
{
    let head = names_bytes(alloc, table.columns.as_slice())?;
    write_text(out, &head)?;
    write_rows(alloc, table.rows.as_slice(), out)
}

/// The rows of an answer, or none.
fn rows_in(ran: &Ran) -> &[Row]
    ensures { result.now ≡ rows_in ran.now }
{
    match ran {
        Ran::Rows(rows) => rows.as_slice(),
        Ran::SumOutOfRange(..) => &[],
        Ran::TooLarge(_) => &[],
        Ran::NeedsSpill => &[],
    }
}

/// What is printed before the rows.
fn head_bytes(
    alloc: Global,
    session: Name,
    names: &[Text],
    ran: &Ran,
) -> Result<Vec<u8>, AllocError>
    ensures { IfOk result (λ bytes. bytes.items ≡ head_text session names.now ran.now) }
{
    match ran {
        Ran::Rows(rows) => rows_head(alloc, session, names, rows.as_slice().len()),
        Ran::SumOutOfRange(column, sum) => {
            Ok(sum_line(alloc, session, *column, *sum)?.into_bytes())
        }
        Ran::TooLarge(rows) => Ok(large_line(alloc, session, *rows)?.into_bytes()),
        Ran::NeedsSpill => Ok(spill_line(alloc, session)?.into_bytes()),
    }
}

/// The line that tells how many rows follow, and the line of their columns' names.
fn rows_head(
    alloc: Global,
    session: Name,
    names: &[Text],
    count: usize,
) -> Result<Vec<u8>, AllocError>
    ensures { IfOk result (λ bytes. bytes.items ≡ rows_head session names.now count) }
{
    let mut bytes = format!(in alloc; "{session} rows {count}\n")?.into_bytes();
    bytes.extend_from_slice(&names_bytes(alloc, names)?)?;
    Ok(bytes)
}

/// Writes rows, a piece of them at a time.
fn write_rows<O: Sink>(alloc: Global, rows: &[Row], out: &mut O) -> Result<(), Failure>
    ensures later { O.faults out.old ≤ O.faults out.new }
    ensures whole { OnOk result (Appends (O.written out.old) (O.written out.new) (rows_text rows.now)) }
    ensures err { IfErr result (ExplainsOutput (seen_sink O.Sink out.old) (seen_sink O.Sink out.new) (rows_text rows.now)) }
{
    let mut at = 0;
    while at < rows.len() {
        let count = piece_len(&rows[at..]);
        let piece = rows_bytes(alloc, &rows[at..at + count])?;
        write_text(out, &piece)?;
        at += count;
    }
    Ok(())
}

/// How many first rows make a piece: one at least, and then as long as they measure no more than a piece.
fn piece_len(rows: &[Row]) -> usize
    requires { 0 < length rows.now }
    ensures some { 0 < result }
    ensures within { result ≤ length rows.now }
{
    let mut room = PIECE_MOST as u64;
    for (at, row) in rows.iter().enumerate() {
        let measure = row_size(row);
        if measure > room {
            return at.max(1);
        }
        room -= measure;
    }
    rows.len()
}

/// About how long the line of a row is, in bytes.
fn row_size(row: &Row) -> u64 {
    let mut size: u64 = 0;
    for value in row.as_slice() {
        size = size.saturating_add(value.measure());
    }
    size
}
