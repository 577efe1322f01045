//! Where a thread that feeds counts what isn't read, as it goes.

use flow_codec::{Losses, MessageError};

/// Counts what messages that are taken in show of records that aren't read, and datagrams that are passed over.
pub trait Counter {
    /// Of a batch that was taken in, counted from what those before it of the same File show on.
    fn add_losses(&mut self, piece: Losses);

    /// A datagram isn't accepted for this fault.
    fn add_refused(&mut self, fault: MessageError);
}

/// Counts nothing.
#[derive(Clone, Copy, Debug, PartialEq, Eq)]
pub struct Uncounted;

impl Counter for Uncounted {
    fn add_losses(&mut self, _piece: Losses) {}

    fn add_refused(&mut self, _fault: MessageError) {}
}
