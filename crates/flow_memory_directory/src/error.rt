// Why a call on a directory in memory fails.
use flow_directory::CallError;
use std::alloc::{AllocError, AllocFailed};

/// Why a call on a directory in memory fails.
#[derive(Clone, Copy, Debug, PartialEq, Eq)]
pub enum MemoryError {
    /// The call was to fail, or isn't one that the file allows, or there is no room.
    Refused,
    /// Memory was refused.
    OutOfMemory,
}

impl CallError for MemoryError {
    fn is_out_of_memory(&self) -> bool {
        *self == MemoryError::OutOfMemory
    }

    fn out_of_memory() -> Self {
        MemoryError::OutOfMemory
    }

    fn other_length() -> Self {
        MemoryError::Refused
    }
}

impl From<AllocError> for MemoryError {
    fn from(_: AllocError) -> Self {
        MemoryError::OutOfMemory
    }
}

impl<T: Drop> From<AllocFailed<T>> for MemoryError {
    fn from(_: AllocFailed<T>) -> Self {
        MemoryError::OutOfMemory
    }
}
