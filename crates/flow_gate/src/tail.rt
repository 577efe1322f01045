// What a scan gives, and why it refuses.
use flow_refusals::ReadRefusal;

/// The messages of a gated list.
#[derive(Drop)]
pub struct Tail {
    /// The place of the closed gate after them, in octets from the file's start.
    pub end: u64,
    /// Each message's octets, in order.
    pub messages: Vec<Vec<u8>>,
}

/// Why a scan gives no list. Damaged: in this file, at this place, there is neither a closed gate nor a message that
/// fits with 2 octets after it.
pub type ScanError = ReadRefusal;

/// What is at a place.
pub(crate) enum Found {
    /// A closed gate.
    Closed,
    /// A message of this many octets, with 2 octets after it.
    Message(usize),
    /// Neither.
    Damage,
}
