//! The error of a call that finds no memory.
use std::alloc::{AllocError, AllocFailed};
use thiserror::Error;

/// There is no memory for what was requested. It says nothing else.
#[derive(Debug, Drop, Error)]
#[error("out of memory")]
pub struct NoMemory;

impl From<AllocError> for NoMemory {
    fn from(_refused: AllocError) -> NoMemory {
        NoMemory
    }
}

impl<T: Drop> From<AllocFailed<T>> for NoMemory {
    fn from(_refused: AllocFailed<T>) -> NoMemory {
        NoMemory
    }
}
