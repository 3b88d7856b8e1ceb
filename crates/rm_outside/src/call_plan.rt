ghost use Rattle.std.specs.Prelude.{◌≡◌, ◌≤◌};
ghost use Rattle.rm_outside.specs.Plan.{fails_next, after_call};

use std::marker::Model;

/// Which calls of an object fail: their numbers, counted from 1, with the calls made and the faults counted so far.
#[derive(Drop)]
pub struct CallPlan {
    failing: Vec<u64>,
    calls: u64,
    faults: u64,
}

impl Model for CallPlan {
    ghost use Rattle.rm_outside.specs.Plan.{Plan};

    ghost Value = { Plan };

    ghost view = { λ p. record { failing = p.failing.items; calls = p.calls; faults = p.faults } };
}

impl CallPlan {
    /// `failing` are the numbers of the calls that are to fail.
    pub fn new(failing: Vec<u64>) -> CallPlan
        ensures { result ≡ record { failing = failing.items; calls = 0; faults = 0 } }
    {
        CallPlan {
            failing,
            calls: 0,
            faults: 0,
        }
    }

    pub fn faults(&self) -> u64
        ensures { result ≡ self.now.faults }
    {
        self.faults
    }

    /// Counts one more call, and answers whether it is to fail; then it counts the fault too.
    pub fn fails(&mut self) -> bool
        ensures fails { result ≡ fails_next self.old }
        ensures after { self.new ≡ after_call self.old }
        ensures later { self.old.faults ≤ self.new.faults }
    {
        self.calls = self.calls.saturating_add(1);
        let fails = self.failing.contains(&self.calls);
        if fails {
            self.faults = self.faults.saturating_add(1);
        }
        fails
    }
}
