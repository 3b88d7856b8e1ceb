ghost use Rattle.std.specs.Prelude.{◌≡◌, ◌<◌, ◌↔◌, ℕ, [], Some, length, IfOk, IsErrOf, IsTrue};
ghost use Rattle.std.specs.Io.KnownBytes.{WriteAppends};
ghost use Rattle.rm_outside.specs.Faults.{HasCause};
ghost use Rattle.rm_outside.specs.Streams.{AnswersNothing, TakesSome};
ghost use Rattle.rm_outside.specs.Plan.{fails_next, after_call};

use crate::call_plan::CallPlan;
use crate::memory_sink::MemorySink;
use crate::outside::Outside;
use crate::sink::Sink;
use std::alloc::Global;
use std::marker::Model;

/// A sink in memory whose calls fail by a plan. Writes of an empty slice are no calls of the plan.
#[derive(Drop)]
pub struct FailingSink {
    sink: MemorySink,
    plan: CallPlan,
}

impl Model for FailingSink {
    ghost use Rattle.rm_outside.specs.Plan.{Planned};

    ghost Value = { Planned };

    ghost view = { λ s. record { bytes = s.sink; plan = s.plan } };
}

impl FailingSink {
    /// `failing` are the numbers of the writes that fail, counted from 1.
    pub fn new(alloc: Global, failing: Vec<u64>) -> FailingSink
        ensures written { ⟦<FailingSink as Sink>⟧.written result ≡ Some [] }
        ensures faults { ⟦<FailingSink as Sink>⟧.faults result ≡ 0 }
        ensures plan { result.plan ≡ record { failing = failing.items; calls = 0; faults = 0 } }
    {
        FailingSink {
            sink: MemorySink::new(alloc),
            plan: CallPlan::new(failing),
        }
    }

    /// The bytes written so far.
    pub fn contents(&self) -> &[u8]
        ensures { ⟦<FailingSink as Sink>⟧.written self.now ≡ Some result.now }
    {
        self.sink.contents()
    }
}

impl Sink for FailingSink {
    ghost faults = { λ s. s.plan.faults };

    ghost written = { λ s. Some s.bytes };

    fn faults(&self) -> u64 {
        self.plan.faults()
    }

    fn write(&mut self, bytes: &[u8]) -> Result<usize, Outside>
        ensures takes { TakesSome result bytes.now }
        ensures bytes { WriteAppends (Some self.old.bytes) (Some self.new.bytes) result bytes.now }
        ensures cause { HasCause self.old.plan.faults self.new.plan.faults result }
        ensures empty { length bytes.now ≡ 0 → AnswersNothing self.old.plan.faults self.new.plan.faults result }

        ensures skipped { length bytes.now ≡ 0 → self.new.plan ≡ self.old.plan }
        ensures counts { 0 < length bytes.now → self.new.plan ≡ after_call self.old.plan }
        ensures fails { 0 < length bytes.now → (IsErrOf result Outside.Failed ↔ IsTrue (fails_next self.old.plan)) }
        ensures whole { IfOk result (λ n. n ≡ length bytes.now) }
    {
        if bytes.is_empty() {
            return Ok(0);
        }
        if self.plan.fails() {
            return Err(Outside::Failed);
        }
        self.sink.write(bytes)
    }
}
