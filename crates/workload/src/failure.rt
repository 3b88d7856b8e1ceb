//! Why a workload prints no text, and with which status a workload ends.

ghost use Rattle.std.specs.Prelude.{◌≡◌};
ghost use Rattle.workload.specs.Failures.{write_failure, status_of};

use options::status::{DONE, NO_MEMORY, Status, USAGE, WRITE_FAULT};
use rm_outside::outside::Outside;
use std::alloc::AllocError;

/// Why a workload does not print its text, or not whole.
#[derive(Clone, Copy, Debug, PartialEq, Eq)]
pub enum Failure {
    Usage,
    WriteFault,
    Memory,
}

impl From<AllocError> for Failure {
    ghost use Rattle.std.specs.Prelude.{◌≡◌};
    ghost use Rattle.workload.specs.declared.failure.Failure.TheVariants.{Memory};

    ghost from_gives = { λ _ failure. failure ≡ Memory };

    fn from(_: AllocError) -> Self {
        Failure::Memory
    }
}

/// Why a workload fails whose output answers this.
pub fn write_failure(error: Outside) -> Failure
    ensures { result ≡ write_failure error }
{
    match error {
        Outside::Failed => Failure::WriteFault,
        Outside::Memory => Failure::Memory,
    }
}

/// The status of a workload that printed its text, or failed.
pub fn status_of(ended: Result<(), Failure>) -> Status
    ensures { result.0 ≡ status_of ended }
{
    Status(match ended {
        Ok(()) => DONE,
        Err(Failure::Usage) => USAGE,
        Err(Failure::WriteFault) => WRITE_FAULT,
        Err(Failure::Memory) => NO_MEMORY,
    })
}
