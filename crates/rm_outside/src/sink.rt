ghost use Rattle.std.specs.Prelude.{◌≡◌, ℕ, List, Option, length};
ghost use Rattle.std.specs.Io.KnownBytes.{WriteAppends};
ghost use Rattle.rm_outside.specs.Faults.{HasCause};
ghost use Rattle.rm_outside.specs.Streams.{AnswersNothing, TakesSome};

use crate::outside::Outside;

/// Something that bytes are written to, in order.
///
/// `faults` are the failures counted so far, and `written` the bytes written so far, where told.
pub trait Sink {
    ghost faults: { Self → ℕ };

    ghost written: { Self → Option (List ℕ) };

    /// The failures counted so far; at its greatest value the count stands still.
    fn faults(&self) -> u64
        ensures { result ≡ faults self.now };

    /// Writes bytes from the front of `bytes`, and answers how many it took.
    fn write(&mut self, bytes: &[u8]) -> Result<usize, Outside>
        ensures takes { TakesSome result bytes.now }
        ensures bytes { WriteAppends (written self.old) (written self.new) result bytes.now }
        ensures cause { HasCause (faults self.old) (faults self.new) result }
        ensures empty { length bytes.now ≡ 0 → AnswersNothing (faults self.old) (faults self.new) result };
}
