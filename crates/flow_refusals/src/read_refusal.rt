//! Why a file is not read.

ghost use Rattle.std.specs.Prelude.{◌≡◌, Some};
ghost use Rattle.flow_refusals.specs.Printed.{read_code, read_text};
ghost use Rattle.flow_refusals.specs.declared.read_refusal.ReadRefusal.TheVariants.{OutOfMemory};

use crate::code::RefusalCode;
use std::alloc::{AllocError, AllocFailed};
use std::error::Error;
use std::fmt;

/// Why a file is not read, printed as its number, its name, and of damage the file and the place.
#[derive(Clone, Copy, Debug, PartialEq, Eq)]
pub enum ReadRefusal {
    /// This file isn't what was written: the place, in octets from the file's start.
    Damaged(u64, u64),
    /// The device failed in that call.
    Fault,
    /// A growth of memory was refused.
    OutOfMemory,
}

impl ReadRefusal {
    /// The refusal, without what it carries.
    pub fn code(self) -> RefusalCode
        ensures { result ≡ read_code self }
    {
        match self {
            ReadRefusal::Damaged(_, _) => RefusalCode::Damaged,
            ReadRefusal::Fault => RefusalCode::Fault,
            ReadRefusal::OutOfMemory => RefusalCode::OutOfMemory,
        }
    }
}

impl fmt::Display for ReadRefusal {
    ghost output = { λ e. Some (read_text e) };

    fn fmt<W: fmt::Write>(&self, f: &mut fmt::Formatter<W>) -> fmt::Result {
        match self {
            ReadRefusal::Damaged(file, at) => write!(f, "{} {file} {at}", self.code()),
            ReadRefusal::Fault | ReadRefusal::OutOfMemory => write!(f, "{}", self.code()),
        }
    }
}

impl Error for ReadRefusal {}

impl From<AllocError> for ReadRefusal {
    ghost from_gives = { λ _ e. e ≡ OutOfMemory };

    fn from(_e: AllocError) -> ReadRefusal {
        ReadRefusal::OutOfMemory
    }
}

impl<T: Drop> From<AllocFailed<T>> for ReadRefusal {
    ghost from_gives = { λ _ e. e ≡ OutOfMemory };

    fn from(_e: AllocFailed<T>) -> ReadRefusal {
        ReadRefusal::OutOfMemory
    }
}
