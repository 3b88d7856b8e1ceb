ghost use Rattle.std.specs.Prelude.{◌≡◌};
ghost use Rattle.rm_outside.specs.declared.outside.Outside.TheVariants.{Memory};

use std::alloc::{AllocError, AllocFailed};

/// Why a call on the outside gave no answer.
#[derive(Clone, Copy, Debug, PartialEq, Eq)]
pub enum Outside {
    /// The outside failed, and the object counted it.
    Failed,
    /// A growth of memory was refused.
    Memory,
}

impl From<AllocError> for Outside {
    ghost from_gives = { λ _ e. e ≡ Memory };

    fn from(_error: AllocError) -> Outside {
        Outside::Memory
    }
}

impl<T: Drop> From<AllocFailed<T>> for Outside {
    ghost from_gives = { λ _ e. e ≡ Memory };

    fn from(_error: AllocFailed<T>) -> Outside {
        Outside::Memory
    }
}
