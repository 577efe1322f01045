//! The steps of an archive, as its readers learn them.

use bytes::Bytes;
use flow_disk::SealedFile;
use flow_rolled::RolledPart;
use flow_segment::SealedPart;
use std::sync::Arc;

/// Which step was made, without its content.
#[derive(Clone, Copy, Debug, PartialEq, Eq)]
pub enum Mark {
    /// Messages were added: the numbers of the first and of the last one.
    Added(u64, u64),
    /// The active segment was sealed: its file.
    Sealed(u64),
    /// A rolled file was installed for so many of the oldest sealed segments.
    Installed(u64, usize),
    /// A file over wide intervals was installed for so many of the oldest rolled files.
    Merged(u64, usize),
}

/// A step with its content.
#[derive(Drop)]
pub enum Step<S: SealedFile> {
    /// Messages, added to the active segment.
    Added(Vec<Bytes>),
    /// The active segment, sealed, and the prefix of the next one.
    Sealed(Arc<SealedPart<S>>, Bytes),
    /// A rolled file, for so many of the oldest sealed segments.
    Installed(Arc<RolledPart<S>>, usize),
    /// A file over wide intervals, for so many of the oldest rolled files.
    Merged(Arc<RolledPart<S>>, usize),
}
