//! `OutOfMemory`, and `Mem`, the result of a call that fails only for want of memory.

use std::alloc::{AllocError, AllocFailed};
use thiserror::Error;

/// Want of memory: the one answer that comes without a cause, and that is merged with no other.
#[derive(Clone, Copy, Debug, PartialEq, Eq, Error)]
#[error("out of memory")]
pub struct OutOfMemory;

/// What a call answers that fails only for want of memory.
pub type Mem<T> = Result<T, OutOfMemory>;

impl From<AllocError> for OutOfMemory {
    fn from(_: AllocError) -> Self {
        OutOfMemory
    }
}

impl<T: Drop> From<AllocFailed<T>> for OutOfMemory {
    fn from(_: AllocFailed<T>) -> Self {
        OutOfMemory
    }
}
