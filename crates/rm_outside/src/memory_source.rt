ghost use Rattle.std.specs.Prelude.{◌≡◌, Some, Ok, min, length};
ghost use Rattle.std.specs.Io.{ReadsAtMost};
ghost use Rattle.std.specs.Io.KnownBytes.{ReadConsumes};
ghost use Rattle.rm_outside.specs.Faults.{HasCause};
ghost use Rattle.rm_outside.specs.Streams.{AnswersNothing};

use crate::copy::copy_front;
use crate::outside::Outside;
use crate::source::Source;
use std::marker::Model;

/// A source over bytes in memory, which never fails. Contracts see it as the bytes that are left.
#[derive(Drop)]
pub struct MemorySource {
    bytes: Vec<u8>,
    at: usize,
}

impl Model for MemorySource {
    ghost use Rattle.std.specs.Prelude.{◌≤◌, ℕ, List, drop, length};

    ghost Value = { List ℕ };

    ghost view = { λ s. drop s.at s.bytes.items };

    ghost invariant = { λ s. s.at ≤ length s.bytes.items };
}

impl MemorySource {
    pub fn new(bytes: Vec<u8>) -> MemorySource
        ensures left { ⟦<MemorySource as Source>⟧.left result ≡ Some bytes.items }
        ensures faults { ⟦<MemorySource as Source>⟧.faults result ≡ 0 }
    {
        MemorySource { bytes, at: 0 }
    }

    fn rest(&self) -> &[u8]
        ensures { result.now ≡ self.now }
    {
        &self.bytes[self.at..]
    }
}

impl Source for MemorySource {
    ghost faults = { λ _. 0 };

    ghost left = { λ s. Some s };

    fn faults(&self) -> u64 {
        0
    }

    fn read(&mut self, into: &mut [u8]) -> Result<usize, Outside>
        ensures bound { ReadsAtMost result into.new }
        ensures bytes { ReadConsumes (Some self.old) (Some self.new) result into.new }
        ensures cause { HasCause 0 0 result }
        ensures empty { length into.old ≡ 0 → AnswersNothing 0 0 result }
        ensures answer { result ≡ Ok (min (length self.old) (length into.old)) }
    {
        let count = copy_front(self.rest(), into);
        self.at += count;
        Ok(count)
    }
}
