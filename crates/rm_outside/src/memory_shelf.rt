ghost use Rattle.std.specs.Prelude.{◌≡◌, ◌∷◌, [], Some, OnOk, OnErr};
ghost use Rattle.std.specs.Option.{option_copied};
ghost use Rattle.std.specs.String.{string_bytes};
ghost use Rattle.rm_outside.specs.Shelf.{file_at};

use crate::shelf::{Shelf, ShelfError};
use rm_base::limits::FILE_MOST;
use std::alloc::{AllocError, Global};
use std::marker::Model;

/// A shelf of files in memory, which never fails. Contracts see it as a list of paths and bytes.
#[derive(Drop)]
pub struct MemoryShelf {
    files: Vec<ShelfFile>,
}

#[derive(Drop)]
struct ShelfFile {
    path: String,
    bytes: Vec<u8>,
}

impl Model for ShelfFile {
    ghost use Rattle.std.specs.Prelude.{ℕ, List};
    ghost use Rattle.std.specs.String.{string_bytes};

    ghost Value = { List ℕ × List ℕ };

    ghost view = { λ f. (string_bytes f.path, f.bytes.items) };
}

impl Model for MemoryShelf {
    ghost use Rattle.std.specs.Prelude.{ℕ, List};

    ghost Value = { List (List ℕ × List ℕ) };

    ghost view = { λ s. s.files.items };
}

impl MemoryShelf {
    pub fn new(alloc: Global) -> MemoryShelf
        ensures files { result ≡ [] }
        ensures faults { ⟦<MemoryShelf as Shelf>⟧.faults result ≡ 0 }
    {
        MemoryShelf {
            files: Vec::new(alloc),
        }
    }

    /// Puts a file on the shelf, in front of one with the same path.
    pub fn put(&mut self, path: String, bytes: Vec<u8>) -> Result<(), AllocError>
        ensures ok { OnOk result (self.new ≡ (string_bytes path, bytes.items) ∷ self.old) }
        ensures err { OnErr result (self.new ≡ self.old) }
    {
        self.files.insert(0, ShelfFile { path, bytes })?;
        Ok(())
    }
}

// The bytes of the first file with a path.
fn first_with<'a>(files: &'a [ShelfFile], path: &str) -> Option<&'a [u8]>
    ensures { option_copied result ≡ file_at files.now path.now }
{
    for file in files {
        if file.path.as_str() == path {
            return Some(file.bytes.as_slice());
        }
    }
    None
}

impl Shelf for MemoryShelf {
    ghost faults = { λ _. 0 };

    ghost files = { λ files. Some (file_at files) };

    fn faults(&self) -> u64 {
        0
    }

    fn load(&mut self, alloc: Global, path: &str) -> Result<Vec<u8>, ShelfError> {
        let Some(bytes) = first_with(&self.files, path) else {
            return Err(ShelfError::Missing);
        };
        if bytes.len() > FILE_MOST {
            return Err(ShelfError::TooLong);
        }
        Ok(Vec::from_slice(alloc, bytes)?)
    }
}
