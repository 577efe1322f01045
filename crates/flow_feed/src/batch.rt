//! Messages of a File, as they are read and given to an archive.

ghost use Rattle.std.specs.Prelude.{◌≡◌};
ghost use Rattle.flow_feed.specs.Stopped.{stop_code};

use crate::datagrams::ReceiveFailed;
use flow_archive::ArchiveError;
use flow_codec::StreamError;
use flow_refusals::RefusalCode;

/// Why a File isn't taken in whole.
#[derive(Clone, Copy, Debug, PartialEq, Eq)]
pub enum FeedStop {
    /// After the messages that were taken in the File has a fault (15 to 17), or reading it failed (31), or it has one
    /// message more than 2^48 - 1 (25).
    File(StreamError),
    /// The archive refused the message after them, or the seal that would have made room for it.
    Archive(ArchiveError),
    /// There was no memory to hold it.
    OutOfMemory,
    /// The File can't be opened (31). `feed`, which is given an open one, never answers this.
    Unopened,
    /// Receiving a datagram failed, or reading an input that is fed up to where feeding is asked to end (31).
    Unreceived(ReceiveFailed),
}

impl FeedStop {
    /// The refusal, without what it carries.
    pub fn code(self) -> RefusalCode
        ensures { result ≡ stop_code self }
    {
        match self {
            FeedStop::File(error) => error.code(),
            FeedStop::Archive(error) => error.code(),
            FeedStop::OutOfMemory => RefusalCode::OutOfMemory,
            FeedStop::Unopened | FeedStop::Unreceived(_) => RefusalCode::Read,
        }
    }
}

/// How far a File was taken in.
#[derive(Clone, Copy, Debug, PartialEq, Eq)]
pub struct Fed {
    /// Its messages that the archive has acknowledged.
    pub messages: u64,
    /// Why the next one isn't, unless all are.
    pub stop: Option<FeedStop>,
}
