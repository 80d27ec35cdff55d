//! The answer of a call that asks for memory and in which nothing else can go wrong.

use std::alloc::{AllocError, AllocFailed};
use thiserror::Error;

/// No memory was left.
#[derive(Clone, Copy, Debug, PartialEq, Eq, Error)]
#[error("no memory was left")]
pub struct NoMemory;

/// Errors that all say that memory ran out: `NoMemory`, and the allocator's own. A refusal that has one such cause
/// among others is made of each of them by one `From`, so that `?` passes them on.
pub trait OutOfMemory: Drop {}

impl OutOfMemory for NoMemory {}

impl OutOfMemory for AllocError {}

impl<T: Drop> OutOfMemory for AllocFailed<T> {}

impl From<AllocError> for NoMemory {
    fn from(_error: AllocError) -> NoMemory {
        NoMemory
    }
}

impl<T: Drop> From<AllocFailed<T>> for NoMemory {
    fn from(_error: AllocFailed<T>) -> NoMemory {
        NoMemory
    }
}
