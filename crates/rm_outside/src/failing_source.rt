ghost use Rattle.std.specs.Prelude.{◌≡◌, ◌<◌, ℕ, Some, Ok, Err, length, min, if◌then◌else◌};
ghost use Rattle.std.specs.Io.{ReadsAtMost};
ghost use Rattle.std.specs.Io.KnownBytes.{ReadConsumes};
ghost use Rattle.rm_outside.specs.Faults.{HasCause};
ghost use Rattle.rm_outside.specs.Streams.{AnswersNothing};
ghost use Rattle.rm_outside.specs.Plan.{fails_next, after_call};

use crate::call_plan::CallPlan;
use crate::memory_source::MemorySource;
use crate::outside::Outside;
use crate::source::Source;
use std::marker::Model;

/// A source over bytes in memory whose calls fail by a plan. Reads into an empty slice are no calls of the plan.
#[derive(Drop)]
pub struct FailingSource {
    source: MemorySource,
    plan: CallPlan,
}

impl Model for FailingSource {
    ghost use Rattle.rm_outside.specs.Plan.{Planned};

    ghost Value = { Planned };

    ghost view = { λ s. record { bytes = s.source; plan = s.plan } };
}

impl FailingSource {
    /// `failing` are the numbers of the reads that fail, counted from 1.
    pub fn new(bytes: Vec<u8>, failing: Vec<u64>) -> FailingSource
        ensures left { ⟦<FailingSource as Source>⟧.left result ≡ Some bytes.items }
        ensures faults { ⟦<FailingSource as Source>⟧.faults result ≡ 0 }
        ensures plan { result.plan ≡ record { failing = failing.items; calls = 0; faults = 0 } }
    {
        FailingSource {
            source: MemorySource::new(bytes),
            plan: CallPlan::new(failing),
        }
    }
}

impl Source for FailingSource {
    ghost faults = { λ s. s.plan.faults };

    ghost left = { λ s. Some s.bytes };

    fn faults(&self) -> u64 {
        self.plan.faults()
    }

    fn read(&mut self, into: &mut [u8]) -> Result<usize, Outside>
        ensures bound { ReadsAtMost result into.new }
        ensures bytes { ReadConsumes (Some self.old.bytes) (Some self.new.bytes) result into.new }
        ensures cause { HasCause self.old.plan.faults self.new.plan.faults result }
        ensures empty { length into.old ≡ 0 → AnswersNothing self.old.plan.faults self.new.plan.faults result }

        ensures skipped { length into.old ≡ 0 → self.new.plan ≡ self.old.plan }
        ensures counts { 0 < length into.old → self.new.plan ≡ after_call self.old.plan }
        ensures answer { 0 < length into.old → result ≡ (if fails_next self.old.plan then Err Outside.Failed
            else Ok (min (length self.old.bytes) (length into.old))) }
    {
        if into.is_empty() {
            return Ok(0);
        }
        if self.plan.fails() {
            return Err(Outside::Failed);
        }
        self.source.read(into)
    }
}
