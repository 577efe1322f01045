// Why a disk refuses a call.
ghost use Rattle.std.specs.Prelude.{◌≡◌, Some};
ghost use Rattle.flow_refusals.specs.Printed.{sum_of_read};
ghost use Rattle.flow_disk.specs.Printed.{printed, read_refusal};
ghost use Rattle.flow_disk.specs.declared.error.DiskError.TheVariants.{OutOfMemory};

use flow_refusals::{ReadRefusal, RefusalCode, SumRefusal};
use std::alloc::{AllocError, AllocFailed};
use std::error::Error;
use std::fmt;

/// Why a disk refuses a call: the device failed in that call, or memory was refused to it.
#[derive(Clone, Copy, Debug, PartialEq, Eq)]
pub enum DiskError {
    /// The device failed in that call; the disk's count of failures rose.
    Fault,
    /// A growth of memory was refused.
    OutOfMemory,
}

impl fmt::Display for DiskError {
    ghost output = { λ e. Some (printed e) };

    fn fmt<W: fmt::Write>(&self, f: &mut fmt::Formatter<W>) -> fmt::Result {
        match self {
            DiskError::Fault => write!(f, "{}", RefusalCode::Fault),
            DiskError::OutOfMemory => write!(f, "{}", RefusalCode::OutOfMemory),
        }
    }
}

impl Error for DiskError {}

impl From<DiskError> for ReadRefusal {
    ghost from_gives = { λ error refusal. refusal ≡ read_refusal error };

    fn from(error: DiskError) -> ReadRefusal {
        match error {
            DiskError::Fault => ReadRefusal::Fault,
            DiskError::OutOfMemory => ReadRefusal::OutOfMemory,
        }
    }
}

impl From<DiskError> for SumRefusal {
    ghost from_gives = { λ error refusal. refusal ≡ sum_of_read (read_refusal error) };

    fn from(error: DiskError) -> SumRefusal {
        SumRefusal::from(ReadRefusal::from(error))
    }
}

impl From<AllocError> for DiskError {
    ghost from_gives = { λ _ e. e ≡ OutOfMemory };

    fn from(_: AllocError) -> Self {
        DiskError::OutOfMemory
    }
}

impl<T: Drop> From<AllocFailed<T>> for DiskError {
    ghost from_gives = { λ _ e. e ≡ OutOfMemory };

    fn from(_: AllocFailed<T>) -> Self {
        DiskError::OutOfMemory
    }
}
