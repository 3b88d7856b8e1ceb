ghost use Rattle.std.specs.Prelude.{◌≡◌, ◌≤◌, ℕ, Some, IfSome, IfOk, IfErr, Err, vec_len, if◌then◌else◌};
ghost use Rattle.rm_base.specs.declared.limits.TheConstants.{FILE_MOST};
ghost use Rattle.rm_outside.specs.Plan.{fails_next, after_call};
ghost use Rattle.rm_outside.specs.Shelf.{HasShelfCause, IsWholeFile, Explains, file_at};

use crate::call_plan::CallPlan;
use crate::memory_shelf::MemoryShelf;
use crate::shelf::{Shelf, ShelfError};
use std::alloc::Global;
use std::marker::Model;

/// A shelf of files in memory whose loads fail by a plan.
#[derive(Drop)]
pub struct FailingShelf {
    shelf: MemoryShelf,
    plan: CallPlan,
}

impl Model for FailingShelf {
    ghost use Rattle.rm_outside.specs.Plan.{PlannedShelf};

    ghost Value = { PlannedShelf };

    ghost view = { λ s. record { shelf = s.shelf; plan = s.plan } };
}

impl FailingShelf {
    /// `failing` are the numbers of the loads that fail, counted from 1.
    pub fn new(shelf: MemoryShelf, failing: Vec<u64>) -> FailingShelf
        ensures files { ⟦<FailingShelf as Shelf>⟧.files result ≡ Some (file_at shelf) }
        ensures faults { ⟦<FailingShelf as Shelf>⟧.faults result ≡ 0 }
        ensures plan { result.plan ≡ record { failing = failing.items; calls = 0; faults = 0 } }
    {
        FailingShelf {
            shelf,
            plan: CallPlan::new(failing),
        }
    }
}

impl Shelf for FailingShelf {
    ghost faults = { λ s. s.plan.faults };

    ghost files = { λ s. Some (file_at s.shelf) };

    fn faults(&self) -> u64 {
        self.plan.faults()
    }

    fn load(&mut self, alloc: Global, path: &str) -> Result<Vec<u8>, ShelfError> {
        if self.plan.fails() {
            return Err(ShelfError::Failed);
        }
        self.shelf.load(alloc, path)
    }
}
