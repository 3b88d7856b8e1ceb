//! What the queue asks of those who keep the bytes.
ghost use Rattle.std.specs.Prelude.{◌≡◌, true, false};
ghost use Rattle.rm_base.specs.declared.definitions.Definitions.{Definitions};
ghost use Rattle.rm_rules.specs.Definitions.{pool_row};
ghost use Rattle.rm_rules.specs.Ask.{is_too_large};
ghost use Rattle.rm_rules.specs.Holdings.{Holdings};
ghost use Rattle.rm_rules.specs.Fit.{judged_by};
ghost use Rattle.rm_rules.specs.Sound.{IsSound, has_pool};

use crate::state::Judged;
use rm_base::name::Name;

/// Something that knows how a query would fit. It answers for these definitions and these bytes.
pub trait Room {
    ghost definitions: { Self → Definitions };

    ghost holdings: { Self → Holdings };

    /// How a query of this user with this floor, in bytes, would fit in the pool.
    fn judge(&self, pool: Name, user: Name, floor: u64) -> Judged
        requires sound { IsSound (definitions self.now) }
        requires known { has_pool (definitions self.now) pool ≡ true }
        requires small { is_too_large (definitions self.now) (pool_row (definitions self.now) pool) user floor ≡ false }
        ensures { result ≡ judged_by (definitions self.now) (holdings self.now) pool user floor };
}
