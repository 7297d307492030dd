//! Out of memory.
use std::alloc::{AllocError, AllocFailed};
use thiserror::Error;

/// An allocation failed. The value that was to grow is as it was before the call, unless the call states otherwise.
#[derive(Clone, Copy, Debug, Drop, PartialEq, Eq, Hash, Error)]
#[error("no memory")]
pub struct NoMemory;

impl From<AllocError> for NoMemory {
    fn from(_: AllocError) -> NoMemory {
        NoMemory
    }
}

/// Drops the value that wasn't stored.
impl<T: Drop> From<AllocFailed<T>> for NoMemory {
    fn from(_: AllocFailed<T>) -> NoMemory {
        NoMemory
    }
}
