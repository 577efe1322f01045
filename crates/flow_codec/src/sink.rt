//! Sinks, which take a message's data records.

ghost use Rattle.std.specs.Prelude.{◌≡◌, ◌++◌, ◌∷◌, [], List, OnOk, IfErr};
ghost use Rattle.flow_codec.specs.Raw.{Placed, RawRecord, raw, IsWholeRecord};

use crate::error::MessageError;
use crate::message::Header;
use crate::templates::Definition;
use std::alloc::{AllocError, AllocFailed};

/// Takes data records one after the other, each in its octets.
pub trait RecordSink {
    /// Why a sink refuses a record.
    type Error;

    /// What a sink has that no record changes.
    type Kept;

    // From the first state on, the sink has taken these records, and is now in the second.
    ghost holds: { Self → List Placed → Self → Type 0 };

    // From that state on, after these records, this record is refused with this error.
    ghost refuses: { Self → List Placed → Placed → Self.Error → Type 0 };

    // What no record changes, whether it is taken or refused.
    ghost kept: { Self → Self.Kept };

    /// Takes a whole record of a message with this header. After an `Err` the sink is of no use, but for what it keeps.
    fn record(
        &mut self,
        header: &Header,
        id: u16,
        definition: &Definition,
        octets: &[u8],
    ) -> Result<(), Self::Error>
        requires { IsWholeRecord definition.now octets.now }
        ensures taken { OnOk result ((start : Self) (taken : List Placed) → holds start taken self.old
            → holds start (taken ++ (header.now, raw id definition.now octets.now) ∷ []) self.new) }
        ensures refused { IfErr result (λ e. (start : Self) (taken : List Placed) → holds start taken self.old
            → refuses start taken (header.now, raw id definition.now octets.now) e) }
        ensures kept { kept self.new ≡ kept self.old };
}

/// Why a walk over a message stopped.
#[derive(Clone, Copy, Debug, PartialEq, Eq)]
pub enum WalkError<E> {
    /// The message is refused.
    Message(MessageError),
    /// The sink refused a record.
    Sink(E),
}

impl<E> From<MessageError> for WalkError<E> {
    ghost use Rattle.std.specs.Prelude.{◌≡◌};
    ghost use Rattle.flow_codec.specs.declared.sink.WalkError.TheVariants.{Message};

    ghost from_gives = { λ d e. e ≡ Message d };

    fn from(fault: MessageError) -> Self {
        WalkError::Message(fault)
    }
}

impl From<WalkError<AllocError>> for MessageError {
    ghost use Rattle.flow_codec.specs.Walk.{IsFaultOf};

    ghost from_gives = { λ w e. IsFaultOf w e };

    fn from(stop: WalkError<AllocError>) -> Self {
        match stop {
            WalkError::Message(fault) => fault,
            WalkError::Sink(_) => MessageError::OutOfMemory,
        }
    }
}
