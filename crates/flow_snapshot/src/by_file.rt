//! A file with kept messages, as it is there.

use bytes::Bytes;
use flow_disk::SealedFile;
use flow_segment::SealedPart;

/// A file with kept messages. Nothing of it is copied.
pub enum KeptPart<'a, S: SealedFile> {
    /// A sealed segment.
    Sealed(&'a SealedPart<S>),
    /// The active segment: its prefix, and the messages that were added to it.
    Active(&'a [u8], &'a [Bytes]),
}
