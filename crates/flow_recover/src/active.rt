//! The active segment, as its file holds it.

/// A segment's prefix and its messages.
#[derive(Drop)]
pub struct ActiveSegment {
    /// The octets before the messages.
    pub prefix: Vec<u8>,
    /// Each message's octets, in order.
    pub messages: Vec<Vec<u8>>,
}
