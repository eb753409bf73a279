//! The refusal of memory.
use std::alloc::{AllocError, AllocFailed};
use thiserror::Error as ThisError;

/// The growth of a list, a text or a memory was refused.
#[derive(Clone, Copy, Debug, Drop, ThisError, PartialEq, Eq)]
#[error("out of memory")]
pub struct NoMemory;

impl From<AllocError> for NoMemory {
    fn from(_: AllocError) -> NoMemory {
        NoMemory
    }
}

impl<T: Drop> From<AllocFailed<T>> for NoMemory {
    fn from(_: AllocFailed<T>) -> NoMemory {
        NoMemory
    }
}
