//! The definitions with which a host begins.

ghost use Rattle.std.specs.Prelude.{◌≡◌, ◌≤◌, true, Some, IfSome, IfOk, IsErrOf};
ghost use Rattle.rm_base.specs.declared.limits.TheConstants.{MEMORY_LEAST, MEMORY_MOST, CORES_MOST};
ghost use Rattle.rm_rules.specs.Sound.{IsSound};
ghost use Rattle.rm_outside.specs.Stored.{IsNewlyLoaded, restored};
ghost use Rattle.keeper_rows.specs.Opening.{is_sound, GaveUnsound, HasOpenCause};
ghost use Rattle.keeper_rows.specs.declared.opening.OpenError.TheVariants.{Unsound};

use pool_table::sound;
use rm_base::definitions::Definitions;
use rm_outside::keeper::Keeper;
use rm_outside::outside::Outside;
use std::alloc::Global;

/// Why a host can't begin with what is stored.
#[derive(Clone, Copy, Debug, PartialEq, Eq)]
pub enum OpenError {
    /// The store could not be read.
    Failed,
    /// The stored definitions are not sound on this machine.
    Unsound,
    Memory,
}

impl From<Outside> for OpenError {
    ghost use Rattle.keeper_rows.specs.Opening.{open_error};

    ghost from_gives = { λ error opened. opened ≡ open_error error };

    fn from(error: Outside) -> Self {
        match error {
            Outside::Failed => OpenError::Failed,
            Outside::Memory => OpenError::Memory,
        }
    }
}

/// The definitions for which the stored rows stand, on a machine with this memory, in bytes, and these cores.
///
/// They are refused exactly where they are not sound there.
pub fn open_definitions<K: Keeper>(
    alloc: Global,
    keeper: &mut K,
    memory: u64,
    cores: u32,
) -> Result<Definitions, OpenError>
    requires memory_least { MEMORY_LEAST ≤ memory }
    requires memory_most { memory ≤ MEMORY_MOST }
    requires cores_least { 1 ≤ cores }
    requires cores_most { cores ≤ CORES_MOST }
    ensures sound { IfOk result IsSound }
    ensures tested { IfOk result (λ definitions. is_sound definitions ≡ true) }
    ensures machine { IfOk result (λ definitions. IsNewlyLoaded definitions memory cores) }
    ensures rows { IfOk result (λ definitions. IfSome (K.stored keeper.new) (λ rows.
        definitions ≡ restored rows memory cores)) }
    ensures unsound { IsErrOf result Unsound → GaveUnsound (K.stored keeper.new) memory cores }
    ensures stays { IfSome (K.stored keeper.new) (λ rows. K.stored keeper.old ≡ Some rows) }
    ensures cause { HasOpenCause (K.faults keeper.old) (K.faults keeper.new) result }
{
    let definitions = keeper.load(alloc, memory, cores)?;
    if is_sound(&definitions) {
        Ok(definitions)
    } else {
        Err(OpenError::Unsound)
    }
}

/// Whether definitions are sound.
fn is_sound(definitions: &Definitions) -> bool
    ensures tested { result ≡ is_sound definitions.now }
    ensures sound { result ≡ true → IsSound definitions.now }
{
    sound(definitions)
}
