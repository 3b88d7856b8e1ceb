ghost use Rattle.std.specs.Prelude.{◌≡◌, ℕ, ◌≤◌, min, max};
ghost use Rattle.rm_base.specs.declared.limits.TheConstants.{MOMENT_MOST};

use crate::limits::MOMENT_MOST;
use std::marker::Model;

/// A moment, in milliseconds from the host's beginning.
#[derive(Clone, Copy, Debug, PartialEq, Eq, PartialOrd, Ord)]
pub struct Moment {
    ms: u64,
}

impl Model for Moment {
    ghost Value = { ℕ };

    ghost view = { λ m. m.ms };

    ghost invariant = { λ m. m.ms ≤ MOMENT_MOST };

    ghost inverse = { λ n. record { ms = n } };
}

impl Moment {
    /// A greater number than the greatest moment is taken as that moment.
    pub fn of(ms: u64) -> Moment
        ensures { result ≡ min ms MOMENT_MOST }
    {
        Moment {
            ms: ms.min(MOMENT_MOST),
        }
    }

    /// The milliseconds.
    pub fn ms(self) -> u64
        ensures value { result ≡ self }
        ensures within { self ≤ MOMENT_MOST }
    {
        self.ms
    }

    /// The later of two moments.
    pub fn later(self, other: Moment) -> Moment
        ensures { result ≡ max self other }
    {
        Moment {
            ms: self.ms.max(other.ms),
        }
    }
}
