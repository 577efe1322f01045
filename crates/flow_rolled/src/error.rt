//! Why octets, or a file, are not read as a rolled file.

ghost use Rattle.std.specs.Prelude.{◌≡◌, Some};
ghost use Rattle.flow_rolled.specs.Printed.{printed};
ghost use Rattle.flow_rolled.specs.declared.error.RolledError.TheVariants.{OutOfMemory};

use flow_refusals::{ReadRefusal, RefusalCode};
use std::alloc::{AllocError, AllocFailed};
use std::error::Error;
use std::fmt;

/// Why octets were not read, printed as its number, its name and the place.
#[derive(Clone, Copy, Debug, PartialEq, Eq)]
pub enum RolledError {
    /// They are no rolled file: the end of the longest sequence of whole messages with which some rolled file begins.
    NotRolled(usize),
    /// No memory is left.
    OutOfMemory,
}

impl fmt::Display for RolledError {
    ghost output = { λ e. Some (printed e) };

    fn fmt<W: fmt::Write>(&self, f: &mut fmt::Formatter<W>) -> fmt::Result {
        match self {
            RolledError::NotRolled(at) => write!(f, "{} {at}", RefusalCode::NotRolled),
            RolledError::OutOfMemory => write!(f, "{}", RefusalCode::OutOfMemory),
        }
    }
}

impl Error for RolledError {}

impl From<AllocError> for RolledError {
    ghost from_gives = { λ _ e. e ≡ OutOfMemory };

    fn from(_e: AllocError) -> RolledError {
        RolledError::OutOfMemory
    }
}

impl<T: Drop> From<AllocFailed<T>> for RolledError {
    ghost from_gives = { λ _ e. e ≡ OutOfMemory };

    fn from(_e: AllocFailed<T>) -> RolledError {
        RolledError::OutOfMemory
    }
}

/// Why the rows of a rolled file on a disk are not read. Damaged: this file is no rolled file; the place is the end of
/// the longest sequence of whole messages with which some rolled file begins, in octets from the file's start.
pub type RowError = ReadRefusal;
