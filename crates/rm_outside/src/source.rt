ghost use Rattle.std.specs.Prelude.{◌≡◌, ℕ, List, Option, length};
ghost use Rattle.std.specs.Io.{ReadsAtMost};
ghost use Rattle.std.specs.Io.KnownBytes.{ReadConsumes};
ghost use Rattle.rm_outside.specs.Faults.{HasCause};
ghost use Rattle.rm_outside.specs.Streams.{AnswersNothing};

use crate::outside::Outside;

/// Something that bytes are read from, in order.
///
/// `faults` are the failures counted so far, and `left` the bytes that are left, where told.
pub trait Source {
    ghost faults: { Self → ℕ };

    ghost left: { Self → Option (List ℕ) };

    /// The failures counted so far; at its greatest value the count stands still.
    fn faults(&self) -> u64
        ensures { result ≡ faults self.now };

    /// Reads the next bytes into the front of `into`, and answers how many.
    ///
    /// 0 for a slice that isn't empty means the end.
    fn read(&mut self, into: &mut [u8]) -> Result<usize, Outside>
        ensures bound { ReadsAtMost result into.new }
        ensures bytes { ReadConsumes (left self.old) (left self.new) result into.new }
        ensures cause { HasCause (faults self.old) (faults self.new) result }
        ensures empty { length into.old ≡ 0 → AnswersNothing (faults self.old) (faults self.new) result };
}
