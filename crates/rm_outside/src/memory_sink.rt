ghost use Rattle.std.specs.Prelude.{◌≡◌, ℕ, [], Some, length, IfOk};
ghost use Rattle.std.specs.Io.KnownBytes.{WriteAppends};
ghost use Rattle.rm_outside.specs.Faults.{HasCause};
ghost use Rattle.rm_outside.specs.Streams.{AnswersNothing, TakesSome};

use crate::outside::Outside;
use crate::sink::Sink;
use std::alloc::Global;
use std::marker::Model;

/// A sink that keeps what is written in memory, and never fails. Contracts see it as the bytes written.
#[derive(Drop)]
pub struct MemorySink {
    bytes: Vec<u8>,
}

impl Model for MemorySink {
    ghost use Rattle.std.specs.Prelude.{ℕ, List};

    ghost Value = { List ℕ };

    ghost view = { λ s. s.bytes.items };
}

impl MemorySink {
    pub fn new(alloc: Global) -> MemorySink
        ensures written { ⟦<MemorySink as Sink>⟧.written result ≡ Some [] }
        ensures faults { ⟦<MemorySink as Sink>⟧.faults result ≡ 0 }
    {
        MemorySink {
            bytes: Vec::new(alloc),
        }
    }

    /// The bytes written so far.
    pub fn contents(&self) -> &[u8]
        ensures { ⟦<MemorySink as Sink>⟧.written self.now ≡ Some result.now }
    {
        self.bytes.as_slice()
    }
}

impl Sink for MemorySink {
    ghost faults = { λ _. 0 };

    ghost written = { λ s. Some s };

    fn faults(&self) -> u64 {
        0
    }

    fn write(&mut self, bytes: &[u8]) -> Result<usize, Outside>
        ensures takes { TakesSome result bytes.now }
        ensures bytes { WriteAppends (Some self.old) (Some self.new) result bytes.now }
        ensures cause { HasCause 0 0 result }
        ensures empty { length bytes.now ≡ 0 → AnswersNothing 0 0 result }
        ensures whole { IfOk result (λ n. n ≡ length bytes.now) }
    {
        if bytes.is_empty() {
            return Ok(0);
        }
        self.bytes.extend_from_slice(bytes)?;
        Ok(bytes.len())
    }
}
