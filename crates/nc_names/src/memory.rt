//! Want of memory, the one answer that any call which allocates may give.
use std::alloc::{AllocError, AllocFailed};

/// No memory was found. What a refused call was to change is as before, unless its contract says
/// otherwise.
#[derive(Clone, Copy, Debug, PartialEq, Eq)]
pub struct Memory;

impl From<AllocError> for Memory {
    fn from(_: AllocError) -> Memory {
        Memory
    }
}

impl<T: Drop> From<AllocFailed<T>> for Memory {
    fn from(_: AllocFailed<T>) -> Memory {
        Memory
    }
}
