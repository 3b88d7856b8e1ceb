//! What a script prints.

ghost use Rattle.std.specs.Prelude.{◌≡◌, Some, IfOk, string_bytes, codes};
ghost use Rattle.sessions.specs.AnswerTexts.{fault_text, sum_line, large_line, spill_line, loaded_text, unloaded_text};
ghost use Rattle.sessions.specs.Texts.{end_text, reply_text, line_text, queued_text, chosen_text, bare_text, bad_text};

use csv_tables::load_error::LoadError;
use rm_base::name::Name;
use rm_base::reply::{End, Reply};
use std::alloc::{AllocError, Global};
use std::fmt;

/// How a query ended in the queue, as a script prints it.
#[derive(Drop)]
struct EndText(End);

impl fmt::Display for EndText {
    ghost output = { λ e. Some (end_text e.0) };

    fn fmt<W: fmt::Write>(&self, f: &mut fmt::Formatter<W>) -> fmt::Result {
        match self.0 {
            End::TimedOut(deadline) => write!(f, "timedout {deadline}"),
            End::TooLarge(which, floor, cap) => write!(f, "toolarge {which} {floor} {cap}"),
            End::Cancelled => write!(f, "cancelled"),
        }
    }
}

/// A reply, as a script prints it.
#[derive(Drop)]
struct ReplyText(Reply);

impl fmt::Display for ReplyText {
    ghost output = { λ r. Some (reply_text r.0) };

    fn fmt<W: fmt::Write>(&self, f: &mut fmt::Formatter<W>) -> fmt::Result {
        match self.0 {
            Reply::Defined => write!(f, "ok"),
            Reply::Opened(session) => write!(f, "opened {session}"),
            Reply::Set => write!(f, "set"),
            Reply::Admitted {
                query: _,
                pool,
                grant,
                own,
                borrowed,
            } => write!(f, "admitted {grant} {pool} {own} {borrowed}"),
            Reply::Waiting { query: _, place } => write!(f, "waiting {place}"),
            Reply::Ended(end) => {
                let end = EndText(end);
                write!(f, "{end}")
            }
            Reply::Go => write!(f, "go"),
            Reply::MovedOn(pool) => write!(f, "moved {pool}"),
            Reply::GiveWay(pool) => write!(f, "giveway {pool}"),
            Reply::CapEnded { which, ran, cap } => write!(f, "capended {which} {ran} {cap}"),
            Reply::Stopping => write!(f, "stopping"),
            Reply::Released(grant) => write!(f, "released {grant}"),
            Reply::Cancelled => write!(f, "cancelled"),
            Reply::Closed => write!(f, "closed"),
            Reply::Refused(refusal) => write!(f, "{refusal}"),
        }
    }
}

/// The line of a reply to a session.
pub fn line_text(alloc: Global, session: Name, reply: Reply) -> Result<String, AllocError>
    ensures { IfOk result (λ text. string_bytes text ≡ line_text session reply) }
{
    let reply = ReplyText(reply);
    format!(in alloc; "{session} {reply}\n")
}

/// The line of a reply to Submit or GiveWay.
pub fn queued_text(alloc: Global, session: Name, reply: Reply) -> Result<String, AllocError>
    ensures { IfOk result (λ text. string_bytes text ≡ queued_text session reply) }
{
    match reply {
        Reply::Waiting { query: _, place } => format!(in alloc; "{session} queued {place}\n"),
        _ => line_text(alloc, session, reply),
    }
}

/// The line of a reply to SetPool right after a session was opened.
pub fn chosen_text(
    alloc: Global,
    session: Name,
    number: u32,
    reply: Reply,
) -> Result<String, AllocError>
    ensures { IfOk result (λ text. string_bytes text ≡ chosen_text session number reply) }
{
    match reply {
        Reply::Set => line_text(alloc, session, Reply::Opened(number)),
        _ => line_text(alloc, session, reply),
    }
}

/// The line of a reply that names no session.
pub fn bare_text(alloc: Global, reply: Reply) -> Result<String, AllocError>
    ensures { IfOk result (λ text. string_bytes text ≡ bare_text reply) }
{
    let reply = ReplyText(reply);
    format!(in alloc; "{reply}\n")
}

/// The first fault of a file of CSV, as a script prints it.
#[derive(Drop)]
struct FaultText(LoadError);

impl fmt::Display for FaultText {
    ghost output = { λ f. Some (fault_text f.0) };

    fn fmt<W: fmt::Write>(&self, f: &mut fmt::Formatter<W>) -> fmt::Result {
        match self.0 {
            LoadError::Header(column) => write!(f, "header {column}"),
            LoadError::Columns(count) => write!(f, "columns {count}"),
            LoadError::Width(number) => write!(f, "width {number}"),
            LoadError::Value(number, column) => write!(f, "value {number} {column}"),
            LoadError::Rows => write!(f, "rows"),
            LoadError::TooLarge => write!(f, "large"),
            LoadError::Memory => write!(f, ""),
        }
    }
}

/// The line of a sum outside 64 bits, in an output column that is counted from 1.
pub fn sum_line(alloc: Global, session: Name, column: u32, sum: i128) -> Result<String, AllocError>
    ensures { IfOk result (λ text. string_bytes text ≡ sum_line session column sum) }
{
    format!(in alloc; "{session} failed sum {column} {sum}\n")
}

/// The line of an answer that is too large, with the number of first rows that it has room for.
pub fn large_line(alloc: Global, session: Name, rows: u64) -> Result<String, AllocError>
    ensures { IfOk result (λ text. string_bytes text ≡ large_line session rows) }
{
    format!(in alloc; "{session} failed answer {rows}\n")
}

/// The line of a run that keeps more than its grant has room for.
pub fn spill_line(alloc: Global, session: Name) -> Result<String, AllocError>
    ensures { IfOk result (λ text. string_bytes text ≡ spill_line session) }
{
    format!(in alloc; "{session} failed needsspill\n")
}

/// The line of a table that was loaded.
pub fn loaded_text(alloc: Global, name: Name, rows: usize) -> Result<String, AllocError>
    ensures { IfOk result (λ text. string_bytes text ≡ loaded_text name rows) }
{
    format!(in alloc; "table {name} rows {rows}\n")
}

/// The line of a table whose file has a fault.
pub fn unloaded_text(alloc: Global, name: Name, fault: LoadError) -> Result<String, AllocError>
    ensures { IfOk result (λ text. string_bytes text ≡ unloaded_text name (fault_text fault)) }
{
    let fault = FaultText(fault);
    format!(in alloc; "table {name} refused {fault}\n")
}

/// The line of a table whose file is not there.
pub fn missing_text(alloc: Global, name: Name) -> Result<String, AllocError>
    ensures { IfOk result (λ text. string_bytes text ≡ unloaded_text name (codes "missing")) }
{
    format!(in alloc; "table {name} refused missing\n")
}

/// The line of a table whose file is too long.
pub fn long_text(alloc: Global, name: Name) -> Result<String, AllocError>
    ensures { IfOk result (λ text. string_bytes text ≡ unloaded_text name (codes "long")) }
{
    format!(in alloc; "table {name} refused long\n")
}

/// The line that says that a line is bad.
pub fn bad_text(alloc: Global, number: u64) -> Result<String, AllocError>
    ensures { IfOk result (λ text. string_bytes text ≡ bad_text number) }
{
    format!(in alloc; "bad line {number}\n")
}
