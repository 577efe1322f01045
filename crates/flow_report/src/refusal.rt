//! Why a run ended before its work was done.

ghost use Rattle.std.specs.Prelude.{Some, ◌≡◌, ◌≢◌, ◌≤◌};
ghost use Rattle.flow_report.specs.Refusals.{refusal_code, status_of, stream_refusal, message_refusal, IsOfInput};
ghost use Rattle.flow_report.specs.Printed.{printed};
ghost use Rattle.flow_report.specs.declared.refusal.Refusal.TheVariants.{OutOfMemory, Write as WriteRefused};

use crate::patient::WriteFailed;
use flow_codec::{FileError, MessageError, ReadFailed, StreamError};
use flow_refusals::RefusalCode;
use std::alloc::{AllocError, AllocFailed};
use std::error::Error;
use std::fmt;

/// Why a run ended before its work was done, printed as its number, its name and what it carries.
#[derive(Debug, Drop)]
pub enum Refusal {
    /// The message of this number, from 1, is refused by 1 to 10.
    Message { fault: MessageError, number: u64 },
    /// The octets after the accepted messages are no message: 15 to 17.
    File(FileError),
    OutOfMemory,
    /// A sum would pass its type.
    SumSpent,
    /// One more message than 2^48 - 1.
    NumbersSpent,
    /// Reading failed.
    Read(ReadFailed),
    /// Writing failed.
    Write(WriteFailed),
}

impl fmt::Display for Refusal {
    ghost output = { λ e. Some (printed e) };

    fn fmt<W: fmt::Write>(&self, f: &mut fmt::Formatter<W>) -> fmt::Result {
        match self {
            Refusal::Message { fault, number } => write!(f, "{fault} message {number}"),
            Refusal::File(fault) => write!(f, "{fault}"),
            Refusal::OutOfMemory => write!(f, "{}", RefusalCode::OutOfMemory),
            Refusal::SumSpent => write!(f, "{}", RefusalCode::SumSpent),
            Refusal::NumbersSpent => write!(f, "{}", RefusalCode::NumbersSpent),
            Refusal::Read(_) => write!(f, "{}", RefusalCode::Read),
            Refusal::Write(_) => write!(f, "{}", RefusalCode::Write),
        }
    }
}

impl Error for Refusal {}

impl Refusal {
    /// Why a run stops at the message of this number, by this fault.
    pub fn of_message(fault: MessageError, number: u64) -> Refusal
        ensures value { result ≡ message_refusal fault number }
        ensures unwritten { IsOfInput result }
    {
        match fault {
            MessageError::OutOfMemory => Refusal::OutOfMemory,
            fault => Refusal::Message { fault, number },
        }
    }

    /// The refusal, without what it carries.
    pub fn code(&self) -> RefusalCode
        ensures { result ≡ refusal_code self.now }
    {
        match self {
            Refusal::Message { fault, .. } => fault.code(),
            Refusal::File(fault) => fault.code(),
            Refusal::OutOfMemory => RefusalCode::OutOfMemory,
            Refusal::SumSpent => RefusalCode::SumSpent,
            Refusal::NumbersSpent => RefusalCode::NumbersSpent,
            Refusal::Read(_) => RefusalCode::Read,
            Refusal::Write(_) => RefusalCode::Write,
        }
    }

    /// The exit status: 1 for refused input, 3 for a device, 4 for memory.
    pub fn status(&self) -> u8
        ensures value { result ≡ status_of self.now }
        ensures failed { 1 ≤ result }
        ensures other { result ≢ 2 }
    {
        self.code().status()
    }
}

impl From<StreamError> for Refusal {
    ghost from_gives = { λ e r. r ≡ stream_refusal e };

    fn from(error: StreamError) -> Refusal {
        match error {
            StreamError::File(fault) => Refusal::File(fault),
            StreamError::Read(failed) => Refusal::Read(failed),
            StreamError::NumbersSpent => Refusal::NumbersSpent,
        }
    }
}

impl From<WriteFailed> for Refusal {
    ghost from_gives = { λ failed r. r ≡ WriteRefused failed };

    fn from(failed: WriteFailed) -> Refusal {
        Refusal::Write(failed)
    }
}

impl From<AllocError> for Refusal {
    ghost from_gives = { λ _ r. r ≡ OutOfMemory };

    fn from(_e: AllocError) -> Refusal {
        Refusal::OutOfMemory
    }
}

impl<T: Drop> From<AllocFailed<T>> for Refusal {
    ghost from_gives = { λ _ r. r ≡ OutOfMemory };

    fn from(_e: AllocFailed<T>) -> Refusal {
        Refusal::OutOfMemory
    }
}
