ghost use Rattle.std.specs.Prelude.{◌≡◌, ◌-◌, ◌≤◌, ℕ, length, take, min, IfSome, IfOk, OnOk, OnErr, IsTrue};
ghost use Rattle.std.specs.Io.{ReadsAtMost};
ghost use Rattle.rm_outside.specs.Faults.{HasCause, counted};
ghost use Rattle.rm_outside.specs.Spool.{Files, FilesStay, Creates, Extends, ExtendsByFront, Removes, IsBare, IsPart};
ghost use Rattle.rm_base.specs.declared.limits.TheConstants.{SPOOL_FILE_MOST};

use crate::outside::Outside;
use std::alloc::Global;

/// The number of a file of a spool.
#[derive(Clone, Copy, Debug, PartialEq, Eq)]
pub struct SpoolId(pub u64);

/// Files of bytes that are set aside for a while, and that only the spool knows.
///
/// `faults` are the failures counted so far, `calls` the calls made, `written` the bytes appended, and `files` what is
/// told of the files. A count stands still at its greatest value.
pub trait Spool {
    ghost faults: { Self → ℕ };

    ghost calls: { Self → ℕ };

    ghost written: { Self → ℕ };

    ghost files: { Self → Files };

    /// The failures counted so far.
    fn faults(&self) -> u64
        ensures { result ≡ faults self.now };

    /// How often `create`, `append`, `read` and `remove` were called.
    fn calls(&self) -> u64
        ensures { result ≡ calls self.now };

    /// How many bytes were appended.
    fn written(&self) -> u64
        ensures { result ≡ written self.now };

    /// Makes an empty file.
    fn create(&mut self, alloc: Global) -> Result<SpoolId, Outside>
        ensures ok { IfOk result (λ id. Creates (files self.old) (files self.new) id.0) }
        ensures err { OnErr result (FilesStay (files self.old) (files self.new)) }
        ensures one_call { calls self.new ≡ counted (calls self.old) 1 }
        ensures none_written { written self.new ≡ written self.old }
        ensures cause { HasCause (faults self.old) (faults self.new) result };

    /// Puts a piece at the end of a file. After an error the file may hold the front of the piece.
    fn append(&mut self, id: SpoolId, piece: &[u8]) -> Result<(), Outside>
        requires { IsTrue ((files self.old).is_live id.0) }
        ensures ok { OnOk result (Extends (files self.old) (files self.new) id.0 piece.now) }
        ensures ok_written { OnOk result (written self.new ≡ counted (written self.old) (length piece.now)) }
        ensures err { OnErr result (ExtendsByFront (files self.old) (files self.new) id.0 piece.now
            (written self.old) (written self.new)) }
        ensures one_call { calls self.new ≡ counted (calls self.old) 1 }
        ensures cause { HasCause (faults self.old) (faults self.new) result };

    /// Reads the bytes of a file from a place on, counted from 0, as many as fit into `into` and are there, and answers
    /// how many.
    fn read(&mut self, id: SpoolId, at: u64, into: &mut [u8]) -> Result<usize, Outside>
        requires { IsTrue ((files self.old).is_live id.0) }
        ensures bound { ReadsAtMost result into.new }
        ensures count { IfOk result (λ n. n ≡ min (length into.new) ((files self.old).size id.0 - at)) }
        ensures bytes { IfOk result (λ n. IsPart ((files self.old).bytes id.0) at (take n into.new)) }
        ensures stays { FilesStay (files self.old) (files self.new) }
        ensures one_call { calls self.new ≡ counted (calls self.old) 1 }
        ensures none_written { written self.new ≡ written self.old }
        ensures cause { HasCause (faults self.old) (faults self.new) result };

    /// Ends a file, whatever it answers. After an error its bytes may still take room.
    fn remove(&mut self, id: SpoolId) -> Result<(), Outside>
        requires { IsTrue ((files self.old).is_live id.0) }
        ensures removes { Removes (files self.old) (files self.new) id.0 }
        ensures ok { OnOk result (IsBare ((files self.old).bytes id.0) ((files self.new).bytes id.0)) }
        ensures one_call { calls self.new ≡ counted (calls self.old) 1 }
        ensures none_written { written self.new ≡ written self.old }
        ensures cause { HasCause (faults self.old) (faults self.new) result };

    // Where the bytes of a live file are told, its length is theirs.
    ghost sizes_are_lengths: { (spool : Self) (number : ℕ) → IsTrue ((files spool).is_live number)
        → IfSome ((files spool).bytes number) (λ bytes. length bytes ≡ (files spool).size number) };

    // No live file is longer than a file may be.
    ghost sizes_fit: { (spool : Self) (number : ℕ) → IsTrue ((files spool).is_live number)
        → (files spool).size number ≤ SPOOL_FILE_MOST };
}
