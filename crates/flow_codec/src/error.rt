//! Why a message, or a File, was refused.

ghost use Rattle.std.specs.Prelude.{◌≡◌, Some};
ghost use Rattle.flow_codec.specs.declared.error.MessageError.TheVariants.{OutOfMemory};
ghost use Rattle.flow_codec.specs.Printed.{message_code, message_text};

use flow_refusals::RefusalCode;
use std::alloc::{AllocError, AllocFailed};
use std::error::Error;
use std::fmt;

/// The first fault of a message (RFC 7011, sections 3 and 8), printed as its number, its name and what it carries.
/// A place is that of a Set or a record, in octets from the message's first.
#[derive(Clone, Copy, Debug, PartialEq, Eq)]
pub enum MessageError {
    /// Fewer octets than a message header has.
    Short,
    /// The Version field isn't 10.
    Version,
    /// The Length field isn't the count of the octets.
    Length,
    /// A Set's header or its Length doesn't fit the message.
    SetLength(usize),
    /// A template record passes the end of its Set.
    TemplateCut(usize),
    /// A Template ID below 256 that withdraws nothing.
    TemplateId(usize),
    /// A Scope Field Count of 0, or above the Field Count.
    ScopeCount(usize),
    /// A field of a data record passes the end of its Set.
    RecordCut(usize),
    /// The template records in force in this Observation Domain would pass 60,000 octets.
    TemplatesFull(u32),
    /// More than 64 Observation Domains would have templates in force.
    DomainsFull,
    /// A growth of memory was refused.
    OutOfMemory,
}

impl MessageError {
    /// The refusal, without what it carries.
    pub fn code(self) -> RefusalCode
        ensures { result ≡ message_code self }
    {
        match self {
            MessageError::Short => RefusalCode::Short,
            MessageError::Version => RefusalCode::Version,
            MessageError::Length => RefusalCode::Length,
            MessageError::SetLength(_) => RefusalCode::SetLength,
            MessageError::TemplateCut(_) => RefusalCode::TemplateCut,
            MessageError::TemplateId(_) => RefusalCode::TemplateId,
            MessageError::ScopeCount(_) => RefusalCode::ScopeCount,
            MessageError::RecordCut(_) => RefusalCode::RecordCut,
            MessageError::TemplatesFull(_) => RefusalCode::TemplatesFull,
            MessageError::DomainsFull => RefusalCode::DomainsFull,
            MessageError::OutOfMemory => RefusalCode::OutOfMemory,
        }
    }
}

impl fmt::Display for MessageError {
    ghost output = { λ e. Some (message_text e) };

    fn fmt<W: fmt::Write>(&self, f: &mut fmt::Formatter<W>) -> fmt::Result {
        match self {
            MessageError::SetLength(at)
            | MessageError::TemplateCut(at)
            | MessageError::TemplateId(at)
            | MessageError::ScopeCount(at)
            | MessageError::RecordCut(at) => write!(f, "{} {at}", self.code()),
            MessageError::TemplatesFull(domain) => write!(f, "{} {domain}", self.code()),
            MessageError::Short
            | MessageError::Version
            | MessageError::Length
            | MessageError::DomainsFull
            | MessageError::OutOfMemory => write!(f, "{}", self.code()),
        }
    }
}

impl Error for MessageError {}

impl From<AllocError> for MessageError {
    ghost from_gives = { λ _ e. e ≡ OutOfMemory };

    fn from(_e: AllocError) -> MessageError {
        MessageError::OutOfMemory
    }
}

impl<T: Drop> From<AllocFailed<T>> for MessageError {
    ghost from_gives = { λ _ e. e ≡ OutOfMemory };

    fn from(_e: AllocFailed<T>) -> MessageError {
        MessageError::OutOfMemory
    }
}
