ghost use Rattle.std.specs.Prelude.{◌≡◌, ◌≤◌, ℕ, List, Option, IfSome, IfOk, IfErr, vec_len};
ghost use Rattle.rm_outside.specs.declared.shelf.ShelfError.TheVariants.{Memory};
ghost use Rattle.rm_base.specs.declared.limits.TheConstants.{FILE_MOST};
ghost use Rattle.rm_outside.specs.Shelf.{HasShelfCause, IsWholeFile, Explains};

use std::alloc::{AllocError, AllocFailed, Global};

/// Why a file was not loaded.
#[derive(Clone, Copy, Debug, PartialEq, Eq)]
pub enum ShelfError {
    /// The shelf failed, and counted it.
    Failed,
    /// No file has the path.
    Missing,
    /// The file is longer than `FILE_MOST`.
    TooLong,
    /// A growth of memory was refused.
    Memory,
}

impl From<AllocError> for ShelfError {
    ghost from_gives = { λ _ e. e ≡ Memory };

    fn from(_error: AllocError) -> ShelfError {
        ShelfError::Memory
    }
}

impl<T: Drop> From<AllocFailed<T>> for ShelfError {
    ghost from_gives = { λ _ e. e ≡ Memory };

    fn from(_error: AllocFailed<T>) -> ShelfError {
        ShelfError::Memory
    }
}

/// Files that are loaded whole, by their paths.
///
/// `faults` are the failures counted so far, and `files` the bytes of the file at each path, where told.
pub trait Shelf {
    ghost faults: { Self → ℕ };

    ghost files: { Self → Option (List ℕ → Option (List ℕ)) };

    /// The failures counted so far; at its greatest value the count stands still.
    fn faults(&self) -> u64
        ensures { result ≡ faults self.now };

    /// The bytes of the file at a path.
    fn load(&mut self, alloc: Global, path: &str) -> Result<Vec<u8>, ShelfError>
        ensures bound { IfOk result (λ bytes. vec_len bytes ≤ FILE_MOST) }
        ensures ok { IfSome (files self.old) (λ at. IfOk result (λ bytes. IsWholeFile (at path.now) bytes.items)) }
        ensures err { IfSome (files self.old) (λ at. IfErr result (λ error. Explains (at path.now) error)) }
        ensures stays { files self.new ≡ files self.old }
        ensures cause { HasShelfCause (faults self.old) (faults self.new) result };
}
