ghost use Rattle.std.specs.Prelude.{◌≡◌, Some};

use crate::call_plan::CallPlan;
use crate::keeper::Keeper;
use crate::memory_keeper::MemoryKeeper;
use crate::outside::Outside;
use rm_base::definitions::Definitions;
use std::alloc::Global;
use std::marker::Model;

/// A store in memory whose loads and commits fail by a plan.
#[derive(Drop)]
pub struct FailingKeeper {
    keeper: MemoryKeeper,
    plan: CallPlan,
}

impl Model for FailingKeeper {
    ghost use Rattle.rm_outside.specs.Plan.{PlannedKeeper};

    ghost Value = { PlannedKeeper };

    ghost view = { λ k. record { rows = k.keeper; plan = k.plan } };
}

impl FailingKeeper {
    /// `failing` are the numbers of the calls that fail, loads and commits counted together from 1.
    pub fn new(keeper: MemoryKeeper, failing: Vec<u64>) -> FailingKeeper
        ensures stored { ⟦<FailingKeeper as Keeper>⟧.stored result ≡ Some keeper }
        ensures faults { ⟦<FailingKeeper as Keeper>⟧.faults result ≡ 0 }
        ensures plan { result.plan ≡ record { failing = failing.items; calls = 0; faults = 0 } }
    {
        FailingKeeper {
            keeper,
            plan: CallPlan::new(failing),
        }
    }

    /// The store behind the plan.
    pub fn into_inner(self) -> MemoryKeeper
        ensures { result ≡ self.rows }
    {
        self.keeper
    }
}

impl Keeper for FailingKeeper {
    ghost faults = { λ k. k.plan.faults };

    ghost stored = { λ k. Some k.rows };

    fn faults(&self) -> u64 {
        self.plan.faults()
    }

    fn load(&mut self, alloc: Global, memory: u64, cores: u32) -> Result<Definitions, Outside> {
        if self.plan.fails() {
            return Err(Outside::Failed);
        }
        self.keeper.load(alloc, memory, cores)
    }

    fn commit(&mut self, alloc: Global, next: &Definitions) -> Result<(), Outside> {
        if self.plan.fails() {
            return Err(Outside::Failed);
        }
        self.keeper.commit(alloc, next)
    }
}
