//! Why an archive refused a message.

ghost use Rattle.std.specs.Prelude.{◌≡◌};
ghost use Rattle.flow_archive.specs.Plain.{fault_refusal};
ghost use Rattle.flow_archive.specs.Printed.{printed};
ghost use Rattle.flow_archive.specs.declared.error.PlainError.TheVariants.{OutOfMemory};

use flow_codec::MessageError;
use flow_refusals::RefusalCode;
use std::alloc::{AllocError, AllocFailed};
use std::error::Error;
use std::fmt;

/// Why a plain archive refused a message, printed as its number, its name and what it carries.
#[derive(Clone, Copy, Debug, PartialEq, Eq)]
pub enum PlainError {
    /// The first fault of the message, 1 to 10.
    Message(MessageError),
    /// The archive has 2^48 - 1 messages, and numbers for no more.
    NumbersSpent,
    /// A growth of memory was refused.
    OutOfMemory,
}

impl fmt::Display for PlainError {
    ghost output = { printed };

    fn fmt<W: fmt::Write>(&self, f: &mut fmt::Formatter<W>) -> fmt::Result {
        match self {
            PlainError::Message(fault) => write!(f, "{fault}"),
            PlainError::NumbersSpent => write!(f, "{}", RefusalCode::NumbersSpent),
            PlainError::OutOfMemory => write!(f, "{}", RefusalCode::OutOfMemory),
        }
    }
}

impl Error for PlainError {}

impl From<AllocError> for PlainError {
    ghost from_gives = { λ _ e. e ≡ OutOfMemory };

    fn from(_e: AllocError) -> PlainError {
        PlainError::OutOfMemory
    }
}

impl<T: Drop> From<AllocFailed<T>> for PlainError {
    ghost from_gives = { λ _ e. e ≡ OutOfMemory };

    fn from(_e: AllocFailed<T>) -> PlainError {
        PlainError::OutOfMemory
    }
}

impl From<MessageError> for PlainError {
    ghost from_gives = { λ fault e. e ≡ fault_refusal fault };

    fn from(fault: MessageError) -> PlainError {
        match fault {
            MessageError::OutOfMemory => PlainError::OutOfMemory,
            fault => PlainError::Message(fault),
        }
    }
}
