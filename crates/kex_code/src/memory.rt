// Want of memory.

use std::alloc::{AllocError, AllocFailed};
use thiserror::Error;

/// Memory was wanted, and there was none. No contract says when it comes.
#[derive(Clone, Copy, Debug, PartialEq, Eq, Drop, Error)]
#[error("out of memory")]
pub struct Memory;

impl From<AllocError> for Memory {
    fn from(_: AllocError) -> Memory {
        Memory
    }
}

impl<T: Drop> From<AllocFailed<T>> for Memory {
    fn from(_: AllocFailed<T>) -> Memory {
        Memory
    }
}
