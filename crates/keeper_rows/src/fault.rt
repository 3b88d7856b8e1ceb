//! What a failure of the store is to a host.

use rm_outside::outside::Outside;
use sqlite::{Error, ErrorCode};

/// Want of memory, or else a failure of the store.
pub fn outside_of(error: Error) -> Outside {
    match error {
        Error::SqliteFailure(ErrorCode::OutOfMemory) => Outside::Memory,
        _ => Outside::Failed,
    }
}
