//! Why sums were not made.

ghost use Rattle.std.specs.Prelude.{◌≡◌, Some};
ghost use Rattle.flow_measure.specs.Printed.{printed, sum_refusal};
ghost use Rattle.flow_measure.specs.declared.error.SumError.TheVariants.{OutOfMemory};

use flow_refusals::{RefusalCode, SumRefusal};
use std::alloc::{AllocError, AllocFailed};
use std::error::Error;
use std::fmt;

/// Why flows or rows were not added, printed as its number and its name. The rows that they were to be added to are
/// then as before.
#[derive(Clone, Copy, Debug, PartialEq, Eq)]
pub enum SumError {
    /// A sum would pass its type.
    SumSpent,
    /// A growth of memory was refused.
    OutOfMemory,
}

impl fmt::Display for SumError {
    ghost output = { λ e. Some (printed e) };

    fn fmt<W: fmt::Write>(&self, f: &mut fmt::Formatter<W>) -> fmt::Result {
        match self {
            SumError::SumSpent => write!(f, "{}", RefusalCode::SumSpent),
            SumError::OutOfMemory => write!(f, "{}", RefusalCode::OutOfMemory),
        }
    }
}

impl Error for SumError {}

impl From<SumError> for SumRefusal {
    ghost from_gives = { λ error refusal. refusal ≡ sum_refusal error };

    fn from(error: SumError) -> SumRefusal {
        match error {
            SumError::SumSpent => SumRefusal::SumSpent,
            SumError::OutOfMemory => SumRefusal::OutOfMemory,
        }
    }
}

impl From<AllocError> for SumError {
    ghost from_gives = { λ _ e. e ≡ OutOfMemory };

    fn from(_e: AllocError) -> SumError {
        SumError::OutOfMemory
    }
}

impl<T: Drop> From<AllocFailed<T>> for SumError {
    ghost from_gives = { λ _ e. e ≡ OutOfMemory };

    fn from(_e: AllocFailed<T>) -> SumError {
        SumError::OutOfMemory
    }
}
