//! Why a script fails, and with which status a script ends.

ghost use Rattle.std.specs.Prelude.{◌≡◌};
ghost use Rattle.sessions.specs.Failures.{read_failure, write_failure, commit_failure, status_of};

use keeper_rows::opening::OpenError;
use options::status::{
    BAD_LINE, BAD_TABLE, DONE, KEEPER_FAULT, NO_MEMORY, READ_FAULT, Status, TOO_LONG, UNSOUND,
    USAGE, WRITE_FAULT,
};
use rm_outside::outside::Outside;
use std::alloc::AllocError;

/// Why a script ended before the end of its lines.
#[derive(Clone, Copy, Debug, PartialEq, Eq)]
pub enum Failure {
    Usage,
    BadLine,
    ReadFault,
    ShelfFault,
    WriteFault,
    BadTable,
    /// The stored definitions could not be read.
    OpenFault,
    /// The definitions that an accepted statement leaves could not be stored.
    CommitFault,
    Memory,
    TooLong,
    /// The stored definitions are not sound on this machine.
    Unsound,
}

impl From<AllocError> for Failure {
    ghost use Rattle.std.specs.Prelude.{◌≡◌};
    ghost use Rattle.sessions.specs.declared.failure.Failure.TheVariants.{Memory};

    ghost from_gives = { λ _ failure. failure ≡ Memory };

    fn from(_: AllocError) -> Self {
        Failure::Memory
    }
}

impl From<OpenError> for Failure {
    ghost use Rattle.std.specs.Prelude.{◌≡◌};
    ghost use Rattle.sessions.specs.Failures.{open_failure};

    ghost from_gives = { λ error failure. failure ≡ open_failure error };

    fn from(error: OpenError) -> Self {
        match error {
            OpenError::Failed => Failure::OpenFault,
            OpenError::Unsound => Failure::Unsound,
            OpenError::Memory => Failure::Memory,
        }
    }
}

/// Why a script fails whose input answers this.
pub fn read_failure(error: Outside) -> Failure
    ensures { result ≡ read_failure error }
{
    match error {
        Outside::Failed => Failure::ReadFault,
        Outside::Memory => Failure::Memory,
    }
}

/// Why a script fails whose output answers this.
pub fn write_failure(error: Outside) -> Failure
    ensures { result ≡ write_failure error }
{
    match error {
        Outside::Failed => Failure::WriteFault,
        Outside::Memory => Failure::Memory,
    }
}

/// Why a script fails whose store answers this to a commit.
pub fn commit_failure(error: Outside) -> Failure
    ensures { result ≡ commit_failure error }
{
    match error {
        Outside::Failed => Failure::CommitFault,
        Outside::Memory => Failure::Memory,
    }
}

/// The status of a script that came to the end of its lines, or failed.
pub fn status_of(ended: Result<(), Failure>) -> Status
    ensures { result.0 ≡ status_of ended }
{
    Status(match ended {
        Ok(()) => DONE,
        Err(Failure::Usage) => USAGE,
        Err(Failure::BadLine) => BAD_LINE,
        Err(Failure::ReadFault) => READ_FAULT,
        Err(Failure::ShelfFault) => READ_FAULT,
        Err(Failure::WriteFault) => WRITE_FAULT,
        Err(Failure::BadTable) => BAD_TABLE,
        Err(Failure::OpenFault) => KEEPER_FAULT,
        Err(Failure::CommitFault) => KEEPER_FAULT,
        Err(Failure::Memory) => NO_MEMORY,
        Err(Failure::TooLong) => TOO_LONG,
        Err(Failure::Unsound) => UNSOUND,
    })
}
