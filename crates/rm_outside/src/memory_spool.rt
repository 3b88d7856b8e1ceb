ghost use Rattle.std.specs.Prelude.{◌≡◌, ◌≤◌, ◌++◌, [], Some, None, length, min, take, drop, refl, IsTrue, OnOk, OnErr, unwrap_or};
ghost use Rattle.rm_base.specs.declared.limits.TheConstants.{SPOOL_FILE_MOST};
ghost use Rattle.rm_outside.specs.Slots.{is_file};

use crate::copy::copy_front;
use crate::outside::Outside;
use crate::spool::{Spool, SpoolId};
use std::alloc::{AllocError, Global};
use std::marker::Model;

/// A spool in memory, which never fails. It uses no number twice.
#[derive(Drop)]
pub struct MemorySpool {
    slots: Vec<Slot>,
    calls: u64,
    written: u64,
}

// A file's bytes while it is live.
#[derive(Drop)]
struct Slot {
    bytes: Option<Vec<u8>>,
}

impl Model for Slot {
    ghost use Rattle.std.specs.Prelude.{ℕ, List, Option};
    ghost use Rattle.std.specs.Option.{option_map};

    ghost Value = { Option (List ℕ) };

    ghost view = { λ s. option_map (λ v. v.items) s.bytes };
}

impl Model for MemorySpool {
    ghost use Rattle.rm_outside.specs.Slots.{Slots};

    ghost Value = { Slots };

    ghost view = { λ s. record { slots = s.slots.items; calls = s.calls; written = s.written } };
}

impl Slot {
    fn empty(alloc: Global) -> Slot
        ensures { result ≡ Some [] }
    {
        Slot {
            bytes: Some(Vec::new(alloc)),
        }
    }

    fn append(&mut self, piece: &[u8]) -> Result<(), AllocError>
        requires { IsTrue (is_file self.old) }
        ensures ok { OnOk result (self.new ≡ Some (unwrap_or self.old [] ++ piece.now)) }
        ensures err { OnErr result (self.new ≡ self.old) }
        ensures live { IsTrue (is_file self.new) }
    {
        match &mut self.bytes {
            Some(bytes) => bytes.extend_from_slice(piece),
            None => Ok(()),
        }
    }

    fn read(&self, at: u64, into: &mut [u8]) -> usize
        ensures count { result ≡ min (length (drop at (unwrap_or self.now []))) (length into.old) }
        ensures copied { into.new ≡ take result (drop at (unwrap_or self.now [])) ++ drop result into.old }
    {
        match &self.bytes {
            Some(bytes) => {
                let at = (at as usize).min(bytes.len());
                copy_front(&bytes[at..], into)
            }
            None => 0,
        }
    }

    fn end(&mut self)
        ensures { self.new ≡ None }
    {
        self.bytes = None;
    }
}

impl MemorySpool {
    pub fn new(alloc: Global) -> MemorySpool
        ensures { result ≡ record { slots = []; calls = 0; written = 0 } }
    {
        MemorySpool {
            slots: Vec::new(alloc),
            calls: 0,
            written: 0,
        }
    }
}

impl Spool for MemorySpool {
    ghost use Rattle.std.proofs.Common.{rules};
    ghost use Rattle.rm_outside.specs.Slots.{files_of};

    ghost faults = { λ _. 0 };

    ghost calls = { λ s. s.calls };

    ghost written = { λ s. s.written };

    ghost files = { λ s. files_of s.slots };

    ghost sizes_are_lengths = { λ _ _ _. refl };

    ghost sizes_fit = { λ s number. Prim.search rules };

    fn faults(&self) -> u64 {
        0
    }

    fn calls(&self) -> u64 {
        self.calls
    }

    fn written(&self) -> u64 {
        self.written
    }

    fn create(&mut self, alloc: Global) -> Result<SpoolId, Outside> {
        self.calls = self.calls.saturating_add(1);
        let number = self.slots.len() as u64;
        self.slots.push(Slot::empty(alloc))?;
        Ok(SpoolId(number))
    }

    fn append(&mut self, id: SpoolId, piece: &[u8]) -> Result<(), Outside> {
        self.calls = self.calls.saturating_add(1);
        let written = self.written.saturating_add(piece.len() as u64);
        let slot = &mut self.slots[id.0 as usize];
        slot.append(piece)?;
        self.written = written;
        Ok(())
    }

    fn read(&mut self, id: SpoolId, at: u64, into: &mut [u8]) -> Result<usize, Outside> {
        self.calls = self.calls.saturating_add(1);
        let slot = &self.slots[id.0 as usize];
        Ok(slot.read(at, into))
    }

    fn remove(&mut self, id: SpoolId) -> Result<(), Outside> {
        self.calls = self.calls.saturating_add(1);
        let slot = &mut self.slots[id.0 as usize];
        slot.end();
        Ok(())
    }
}
