//! Why a call gives up.

use std::alloc::{AllocError, AllocFailed};
use thiserror::Error;

/// Memory was refused.
#[derive(Clone, Copy, Debug, Drop, Error, PartialEq, Eq)]
#[error("out of memory")]
pub struct NoMemory;

/// Memory was refused, and the value is given back.
#[derive(Drop)]
pub struct NoMemoryWith<T>(pub T);

impl From<AllocError> for NoMemory {
    fn from(_: AllocError) -> NoMemory {
        NoMemory
    }
}

impl<T: Drop> From<AllocFailed<T>> for NoMemory {
    fn from(_: AllocFailed<T>) -> NoMemory {
        NoMemory
    }
}

impl<T: Drop> From<NoMemoryWith<T>> for NoMemory {
    fn from(_: NoMemoryWith<T>) -> NoMemory {
        NoMemory
    }
}
