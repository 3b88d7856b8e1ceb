//! A system table of a snapshot.
ghost use Rattle.std.specs.Prelude.{◌≡◌, ◌↔◌, map, IfOk, IfErr, IsNone, IsErrOf};
ghost use Rattle.system_tables.specs.Seen.{IsSeen};
ghost use Rattle.system_tables.specs.SystemTables.{table_called, table_columns};
ghost use Rattle.system_tables.specs.TableRows.{rows_shown, shown_of};

use crate::acquisitions::acquisition_rows;
use crate::moves::move_rows;
use crate::pools::pool_rows;
use crate::queues::queue_rows;
use crate::rejections::rejection_rows;
use crate::sessions::session_rows;
use crate::status::status_rows;
use crate::table::SystemTable;
use rm_base::listed::Listed;
use rm_base::name::Name;
use rm_base::refusal::Refusal;
use rm_base::row::Row;
use rm_base::row_list::RowList;
use rm_base::snapshot::Snapshot;
use rm_base::text::Text;
use std::alloc::{AllocError, Global};

/// A table as it is shown: the names of its columns, and its rows.
#[derive(Debug, Drop)]
pub struct Shown {
    pub columns: Listed<Text>,
    pub rows: RowList,
}

/// Why a table is not shown.
#[derive(Clone, Copy, PartialEq, Eq, Debug)]
pub enum ShowError {
    Refused(Refusal),
    Memory,
}

impl From<AllocError> for ShowError {
    ghost use Rattle.std.specs.Prelude.{◌≡◌};
    ghost use Rattle.system_tables.specs.declared.rows.ShowError.TheVariants.{Memory};

    ghost from_gives = { λ _ e. e ≡ Memory };

    fn from(_error: AllocError) -> ShowError {
        ShowError::Memory
    }
}

/// The system table of this name, as the snapshot shows it.
pub fn table_rows(alloc: Global, snapshot: &Snapshot, name: Name) -> Result<Shown, ShowError>
    requires { IsSeen snapshot.now }
    ensures shown { IfOk result (λ shown. shown_of snapshot.now name ≡ Ok shown) }
    ensures refused { (refusal : Refusal) → result ≡ Err (ShowError.Refused refusal) → shown_of snapshot.now name ≡ Err refusal }
    ensures missing { table_called name ≡ None → result ≡ Err (ShowError.Refused (Refusal.NoSuchTable name)) }
{
    let Some(table) = SystemTable::called(name) else {
        return Err(ShowError::Refused(Refusal::NoSuchTable(name)));
    };
    let columns = columns_of(alloc, table.columns())?;
    let rows = RowList::of(rows_of(alloc, snapshot, table)?);
    Ok(Shown { columns, rows })
}

/// The texts of these names.
fn columns_of(alloc: Global, names: &[&str]) -> Result<Listed<Text>, AllocError>
    ensures { IfOk result (λ columns. columns ≡ map (λ c. c.now) names.now) }
{
    let mut columns = Listed::new(alloc);
    for name in names {
        columns.push(Text::of(String::from_str(alloc, name)?))?;
    }
    Ok(columns)
}

/// The rows of a table.
fn rows_of(alloc: Global, snapshot: &Snapshot, table: SystemTable) -> Result<Vec<Row>, AllocError>
    requires { IsSeen snapshot.now }
    ensures { IfOk result (λ rows. rows.items ≡ rows_shown snapshot.now table) }
{
    match table {
        SystemTable::Pools => pool_rows(alloc, snapshot),
        SystemTable::Status => status_rows(alloc, snapshot),
        SystemTable::Acquisitions => acquisition_rows(alloc, snapshot),
        SystemTable::Queues => queue_rows(alloc, snapshot),
        SystemTable::Rejections => rejection_rows(alloc, snapshot),
        SystemTable::Moves => move_rows(alloc, snapshot.moves.as_slice()),
        SystemTable::Sessions => session_rows(alloc, snapshot.sessions.as_slice()),
    }
}
