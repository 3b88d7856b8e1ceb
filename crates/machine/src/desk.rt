//! The desk: the machine with its history, driven by events.
ghost use Rattle.std.specs.Prelude.{◌≡◌, length, IfOk};

use crate::machine::Machine;
use rm_base::definitions::Definitions;
use rm_base::entry::{Answered, Entry};
use rm_base::event::Event;
use rm_base::moment::Moment;
use rm_base::snapshot::Looked;
use std::alloc::{AllocError, Global};
use std::marker::Model;

/// A pool machine that has kept its history from the beginning. It takes its memory when it is made, and none after.
#[derive(Debug, Drop)]
pub struct Desk {
    machine: Machine,
    first: Definitions,
}

impl Model for Desk {
    ghost use Rattle.machine.specs.Desk.{DeskState, IsLegalDesk};

    ghost Value = { DeskState };

    ghost view = { λ d. record { first = d.first; state = d.machine } };

    ghost invariant = { λ d. IsLegalDesk (record { first = d.first; state = d.machine }) };
}

impl Desk {
    ghost use Rattle.rm_rules.specs.State.{start};
    ghost use Rattle.rm_rules.specs.Step.{step};
    ghost use Rattle.rm_rules.specs.Replay.{replay, IsFormed, IsLegal};
    ghost use Rattle.rm_rules.specs.Sound.{IsSound};
    ghost use Rattle.rm_rules.specs.Healthy.{IsHealthy};
    ghost use Rattle.rm_rules.specs.Conserved.{ConservedAfterEach};
    ghost use Rattle.rm_rules.specs.Grants.{BytesAreKept};
    ghost use Rattle.machine.specs.Desk.{DeskState, beginning};
    ghost use Rattle.machine.specs.Looked.{looked_of};

    /// A desk with nobody there yet.
    pub fn new(alloc: Global, definitions: Definitions, room: u32) -> Result<Desk, AllocError>
        requires { IsSound definitions }
        ensures first { IfOk result (λ desk. desk.first ≡ definitions) }
        ensures state { IfOk result (λ desk. desk.state ≡ start definitions room) }
    {
        let first = definitions.copy(alloc)?;
        let machine = Machine::new(alloc, definitions, room)?;
        Ok(Desk { machine, first })
    }

    /// One event of a seat, at the moment or the clock, the later of them. Nothing here can fail for want of memory.
    pub fn apply(&mut self, seat: u32, at: Moment, event: &Event) -> Answered
        requires formed { IsFormed event.now }
        ensures state { self.new ≡ record self.old { state = (step self.old.state seat at event.now).state } }
        ensures reply { result.reply ≡ (step self.old.state seat at event.now).reply }
        ensures entry { result.entry ≡ (step self.old.state seat at event.now).entry }
        ensures place { result.place ≡ length self.new.state.journal }
    {
        self.machine.apply(seat, at, event)
    }

    /// The history. Its clauses say what every desk keeps.
    pub fn entries(&self) -> &[Entry]
        ensures entries { result.now ≡ self.now.state.journal }
        ensures sound { IsSound self.now.first }
        ensures legal { IsLegal (beginning self.now) self.now.state.journal }
        ensures replays { replay (beginning self.now) self.now.state.journal ≡ self.now.state }
        ensures healthy { IsHealthy self.now.state }
        ensures conserved { ConservedAfterEach (beginning self.now) self.now.state.journal }
        ensures bytes { BytesAreKept (beginning self.now) self.now.state.journal }
    {
        self.machine.entries()
    }

    /// The definitions in force.
    pub fn definitions(&self) -> &Definitions
        ensures value { result.now ≡ self.now.state.definitions }
        ensures sound { IsSound result.now }
    {
        self.machine.definitions()
    }

    /// The state as it stands, with the journal's length. It is the one that a legal history leaves.
    pub fn look(&self, alloc: Global) -> Result<Looked, AllocError>
        ensures looked { IfOk result (λ looked. looked ≡ looked_of self.now.state) }
        ensures sound { IsSound self.now.first }
        ensures legal { IsLegal (beginning self.now) self.now.state.journal }
        ensures replays { replay (beginning self.now) self.now.state.journal ≡ self.now.state }
    {
        Ok(Looked {
            snapshot: self.machine.look(alloc)?,
            place: self.machine.entries().len() as u64,
        })
    }
}
