// Why a call of the system fails.
use flow_directory::CallError;
use std::alloc::{AllocError, AllocFailed};
use std::io::{self, ErrorKind};

/// Why a call of the system fails.
#[derive(Debug, Drop)]
pub struct SystemError {
    pub(crate) said: io::Error,
}

impl CallError for SystemError {
    fn is_out_of_memory(&self) -> bool {
        self.said.kind() == ErrorKind::OutOfMemory
    }

    fn out_of_memory() -> Self {
        SystemError::from(ErrorKind::OutOfMemory)
    }

    fn other_length() -> Self {
        SystemError::from(ErrorKind::UnexpectedEof)
    }
}

impl From<io::Error> for SystemError {
    fn from(said: io::Error) -> Self {
        SystemError { said }
    }
}

impl From<ErrorKind> for SystemError {
    fn from(kind: ErrorKind) -> Self {
        SystemError { said: kind.into() }
    }
}

impl From<AllocError> for SystemError {
    fn from(_: AllocError) -> Self {
        SystemError::out_of_memory()
    }
}

impl<T: Drop> From<AllocFailed<T>> for SystemError {
    fn from(_: AllocFailed<T>) -> Self {
        SystemError::out_of_memory()
    }
}
