use rm_base::reply::Reply;
use std::alloc::{AllocError, AllocFailed};
use tuples::pace::Stopped;

/// Why a run has no rows.
#[derive(Clone, Copy, Debug, PartialEq, Eq)]
pub enum RunError {
    /// The spool failed.
    Failed,
    /// The watch stopped it.
    Stopped(Reply),
    /// Its rows do not fit into a quarter of the grant.
    NeedsSpill,
    /// A growth of memory was refused.
    Memory,
}

impl From<AllocError> for RunError {
    ghost use Rattle.std.specs.Prelude.{◌≡◌};
    ghost use Rattle.spill_files.specs.declared.error.RunError.TheVariants.{Memory};

    ghost from_gives = { λ _ e. e ≡ Memory };

    fn from(_error: AllocError) -> RunError {
        RunError::Memory
    }
}

impl<T: Drop> From<AllocFailed<T>> for RunError {
    ghost use Rattle.std.specs.Prelude.{◌≡◌};
    ghost use Rattle.spill_files.specs.declared.error.RunError.TheVariants.{Memory};

    ghost from_gives = { λ _ e. e ≡ Memory };

    fn from(_error: AllocFailed<T>) -> RunError {
        RunError::Memory
    }
}

impl From<Stopped> for RunError {
    ghost use Rattle.std.specs.Prelude.{◌≡◌};
    ghost use Rattle.spill_files.specs.declared.error.RunError.TheVariants as error;

    ghost from_gives = { λ stopped e. e ≡ error.Stopped stopped.0 };

    fn from(stopped: Stopped) -> RunError {
        RunError::Stopped(stopped.0)
    }
}
