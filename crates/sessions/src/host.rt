//! What sessions call: a machine as one seat reaches it.

ghost use Rattle.std.specs.Prelude.{◌≡◌, ℕ, true, IfOk};
ghost use Rattle.rm_base.specs.declared.entry.Answered.{Answered};
ghost use Rattle.rm_base.specs.declared.event.Event.{Event};
ghost use Rattle.rm_rules.specs.Replay.{IsFormed, is_define};
ghost use Rattle.machine.specs.Looked.{looked_of};
ghost use Rattle.sessions.specs.Host.{Known, state_of, SeesMore, Called, IsStep, desk_known};

use machine::desk::Desk;
use rm_base::entry::Answered;
use rm_base::event::Event;
use rm_base::moment::Moment;
use rm_base::snapshot::Looked;
use std::alloc::{AllocError, Global};

/// The seat that alone makes statements.
pub const FIRST_SEAT: u32 = 0;

/// A machine as one seat reaches it. `known` is what a host tells of itself: the number of its seat, where the history
/// begins, and the entries that it has seen.
pub trait Host {
    ghost known: { Self → Known };

    /// One event of the host's seat, at the moment or the clock, the later of them.
    fn call(&mut self, at: Moment, event: &Event) -> Answered
        requires formed { IsFormed event.now }
        requires from_first { is_define event.now ≡ true → (known self.old).seat ≡ FIRST_SEAT }
        ensures { Called (known self.old) (known self.new) at event.now result };

    /// The state as it stands, with the length of its history.
    fn look(&mut self, alloc: Global) -> Result<Looked, AllocError>
        ensures sees { SeesMore (known self.old) (known self.new) }
        ensures looked { IfOk result (λ looked. looked ≡ looked_of (state_of (known self.new))) };
}

/// Over a desk a host is the first seat; nobody acts on the desk between its calls.
impl Host for Desk {
    ghost known = { desk_known };

    fn call(&mut self, at: Moment, event: &Event) -> Answered {
        // For the proof alone: what every desk keeps, as the history's clauses say.
        let _entries = self.entries();
        self.apply(FIRST_SEAT, at, event)
    }

    fn look(&mut self, alloc: Global) -> Result<Looked, AllocError> {
        Desk::look(self, alloc)
    }
}

/// Where no other seat acts on the machine, a call is the event's step at what the host has seen.
pub fn lone_calls_are_steps()
    ensures { (old new : Known) (at : ℕ) (event : Event) (answered : Answered)
        → Called old new at event answered
        → old.alone ≡ true
        → IsStep old new at event answered }
{}
