use std::alloc::{AllocError, AllocFailed};

/// The first fault of a file of CSV, or want of memory. Columns and records are counted from 1, the header counted.
#[derive(Clone, Copy, Debug, PartialEq, Eq)]
pub enum LoadError {
    /// The header has a cell that names no column, or one whose name was used before.
    Header(u32),
    /// The header has so many cells, none or too many.
    Columns(u32),
    /// A record has another number of cells than the header.
    Width(u64),
    /// A cell of a record has no value of its column's kind.
    Value(u64, u32),
    /// There is one row too many.
    Rows,
    /// A row takes the measure above its limit.
    TooLarge,
    /// Memory was wanting.
    Memory,
}

impl From<AllocError> for LoadError {
    ghost use Rattle.std.specs.Prelude.{◌≡◌};
    ghost use Rattle.csv_tables.specs.declared.load_error.LoadError.TheVariants.{Memory};

    ghost from_gives = { λ _ error. error ≡ Memory };

    fn from(_: AllocError) -> LoadError {
        LoadError::Memory
    }
}

impl<T: Drop> From<AllocFailed<T>> for LoadError {
    ghost use Rattle.std.specs.Prelude.{◌≡◌};
    ghost use Rattle.csv_tables.specs.declared.load_error.LoadError.TheVariants.{Memory};

    ghost from_gives = { λ _ error. error ≡ Memory };

    fn from(_: AllocFailed<T>) -> LoadError {
        LoadError::Memory
    }
}
