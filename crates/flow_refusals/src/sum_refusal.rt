//! Why the sums of a file are not made.

ghost use Rattle.std.specs.Prelude.{◌≡◌, Some};
ghost use Rattle.flow_refusals.specs.Printed.{sum_of_read, sum_text};

use crate::code::RefusalCode;
use crate::read_refusal::ReadRefusal;
use std::error::Error;
use std::fmt;

/// Why the sums of a file are not made, printed as its number, its name, and of damage the file and the place.
#[derive(Clone, Copy, Debug, PartialEq, Eq)]
pub enum SumRefusal {
    /// This file isn't what was written: the place, in octets from the file's start.
    Damaged(u64, u64),
    /// A sum would pass its type.
    SumSpent,
    /// The device failed in that call.
    Fault,
    /// A growth of memory was refused.
    OutOfMemory,
}

impl fmt::Display for SumRefusal {
    ghost output = { λ e. Some (sum_text e) };

    fn fmt<W: fmt::Write>(&self, f: &mut fmt::Formatter<W>) -> fmt::Result {
        match self {
            SumRefusal::Damaged(file, at) => write!(f, "{} {file} {at}", RefusalCode::Damaged),
            SumRefusal::SumSpent => write!(f, "{}", RefusalCode::SumSpent),
            SumRefusal::Fault => write!(f, "{}", RefusalCode::Fault),
            SumRefusal::OutOfMemory => write!(f, "{}", RefusalCode::OutOfMemory),
        }
    }
}

impl Error for SumRefusal {}

impl From<ReadRefusal> for SumRefusal {
    ghost from_gives = { λ read e. e ≡ sum_of_read read };

    fn from(error: ReadRefusal) -> SumRefusal {
        match error {
            ReadRefusal::Damaged(file, at) => SumRefusal::Damaged(file, at),
            ReadRefusal::Fault => SumRefusal::Fault,
            ReadRefusal::OutOfMemory => SumRefusal::OutOfMemory,
        }
    }
}
