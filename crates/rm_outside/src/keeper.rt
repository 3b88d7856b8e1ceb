ghost use Rattle.std.specs.Prelude.{◌≡◌, ◌≤◌, ℕ, Option, Some, IsSome, IfSome, IfOk, OnOk, OnErr};
ghost use Rattle.rm_base.specs.declared.limits.TheConstants.{MEMORY_LEAST, MEMORY_MOST, CORES_MOST};
ghost use Rattle.rm_outside.specs.Faults.{HasCause};
ghost use Rattle.rm_outside.specs.Ranges.{IsInRange};
ghost use Rattle.rm_outside.specs.Stored.{StoredRows, IsNewlyLoaded, restored, rows_of};

use crate::outside::Outside;
use rm_base::definitions::Definitions;
use std::alloc::Global;

/// The store of the definitions, which outlives the host.
///
/// `faults` are the failures counted so far, and `stored` the rows that are stored, where told. A store that can't be
/// read is a failure.
pub trait Keeper {
    ghost faults: { Self → ℕ };

    ghost stored: { Self → Option StoredRows };

    /// The failures counted so far; at its greatest value the count stands still.
    fn faults(&self) -> u64
        ensures { result ≡ faults self.now };

    /// The definitions for which the stored rows stand, on a machine with this memory, in bytes, and these cores.
    fn load(&mut self, alloc: Global, memory: u64, cores: u32) -> Result<Definitions, Outside>
        requires memory_least { MEMORY_LEAST ≤ memory }
        requires memory_most { memory ≤ MEMORY_MOST }
        requires cores_least { 1 ≤ cores }
        requires cores_most { cores ≤ CORES_MOST }
        ensures machine { IfOk result (λ definitions. IsNewlyLoaded definitions memory cores) }
        ensures rows { IfOk result (λ definitions. IfSome (stored self.new) (λ rows.
            definitions ≡ restored rows memory cores)) }
        ensures stays { IfSome (stored self.new) (λ rows. stored self.old ≡ Some rows) }
        ensures cause { HasCause (faults self.old) (faults self.new) result };

    /// Stores the rows of `next` in the place of those that are stored.
    fn commit(&mut self, alloc: Global, next: &Definitions) -> Result<(), Outside>
        requires { IsInRange next.now }
        ensures ok { OnOk result (IfSome (stored self.new) (λ rows. rows ≡ rows_of next.now)) }
        ensures err { OnErr result (IfSome (stored self.new) (λ rows. stored self.old ≡ Some rows)) }
        ensures told { IsSome (stored self.new) → IsSome (stored self.old) }
        ensures cause { HasCause (faults self.old) (faults self.new) result };
}
