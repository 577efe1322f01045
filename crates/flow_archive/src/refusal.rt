//! Why an archive refuses an event.

ghost use Rattle.std.specs.Prelude.{◌≡◌, Some};
ghost use Rattle.flow_archive.specs.Refusals.{archive_code, archive_text, of_disk, refusal_of};
ghost use Rattle.flow_archive.specs.declared.refusal.ArchiveError.TheVariants.{OutOfMemory};

use flow_codec::MessageError;
use flow_disk::DiskError;
use flow_refusals::RefusalCode;
use std::alloc::{AllocError, AllocFailed};
use std::error::Error;
use std::fmt;

/// Why an archive refuses an event, printed as its number, its name and what it carries.
#[derive(Clone, Copy, Debug, PartialEq, Eq)]
pub enum ArchiveError {
    /// The first fault of a message, 1 to 10.
    Message(MessageError),
    /// A growth of memory was refused.
    OutOfMemory,
    /// This file, a source of a job, isn't what its entry says, from this octet on; or its sums would pass their types,
    /// at octet 0. Nothing has changed.
    Damaged(u64, u64),
    /// The next file, manifest or message would have a number past its limit.
    NumbersSpent,
    /// The disk of a new archive has files.
    NotEmpty,
    /// The device failed in this call, and the archive is closed.
    Fault,
    /// The device failed where a source of a job was read. Nothing has changed, and the archive goes on.
    SourceFault,
    /// The messages would pass the limit of the active segment.
    NoRoom,
    /// The manifest has 4,096 entries.
    ManifestFull,
    /// The active segment has no messages.
    NothingToSeal,
    /// A job is under way.
    RollBusy,
    /// No job is under way.
    NoRoll,
    /// There aren't so many files of the kind that a job sums, or none are asked for.
    RollCount,
    /// Not all sources of the job are read, or its file isn't made.
    RollNotDone,
    /// Another owner has the file: a directory, or a snapshot.
    Pinned,
    /// No file waits for its removal.
    NothingToRetire,
    /// The device failed in an earlier call.
    Closed,
}

impl ArchiveError {
    /// The refusal, without what it carries.
    pub fn code(self) -> RefusalCode
        ensures { result ≡ archive_code self }
    {
        match self {
            ArchiveError::Message(fault) => fault.code(),
            ArchiveError::OutOfMemory => RefusalCode::OutOfMemory,
            ArchiveError::Damaged(_, _) => RefusalCode::Damaged,
            ArchiveError::NumbersSpent => RefusalCode::NumbersSpent,
            ArchiveError::NotEmpty => RefusalCode::NotEmpty,
            ArchiveError::Fault | ArchiveError::SourceFault => RefusalCode::Fault,
            ArchiveError::NoRoom => RefusalCode::NoRoom,
            ArchiveError::ManifestFull => RefusalCode::ManifestFull,
            ArchiveError::NothingToSeal => RefusalCode::NothingToSeal,
            ArchiveError::RollBusy => RefusalCode::RollBusy,
            ArchiveError::NoRoll => RefusalCode::NoRoll,
            ArchiveError::RollCount => RefusalCode::RollCount,
            ArchiveError::RollNotDone => RefusalCode::RollNotDone,
            ArchiveError::Pinned => RefusalCode::Pinned,
            ArchiveError::NothingToRetire => RefusalCode::NothingToRetire,
            ArchiveError::Closed => RefusalCode::Closed,
        }
    }
}

impl fmt::Display for ArchiveError {
    ghost output = { λ e. Some (archive_text e) };

    fn fmt<W: fmt::Write>(&self, f: &mut fmt::Formatter<W>) -> fmt::Result {
        match self {
            ArchiveError::Message(fault) => write!(f, "{fault}"),
            ArchiveError::Damaged(file, at) => write!(f, "{} {file} {at}", self.code()),
            _ => write!(f, "{}", self.code()),
        }
    }
}

impl Error for ArchiveError {}

impl From<AllocError> for ArchiveError {
    ghost from_gives = { λ _ e. e ≡ OutOfMemory };

    fn from(_e: AllocError) -> ArchiveError {
        ArchiveError::OutOfMemory
    }
}

impl<T: Drop> From<AllocFailed<T>> for ArchiveError {
    ghost from_gives = { λ _ e. e ≡ OutOfMemory };

    fn from(_e: AllocFailed<T>) -> ArchiveError {
        ArchiveError::OutOfMemory
    }
}

impl From<DiskError> for ArchiveError {
    ghost from_gives = { λ e told. told ≡ of_disk e };

    fn from(e: DiskError) -> ArchiveError {
        match e {
            DiskError::Fault => ArchiveError::Fault,
            DiskError::OutOfMemory => ArchiveError::OutOfMemory,
        }
    }
}

impl From<MessageError> for ArchiveError {
    ghost from_gives = { λ fault e. e ≡ refusal_of fault };

    fn from(fault: MessageError) -> ArchiveError {
        match fault {
            MessageError::OutOfMemory => ArchiveError::OutOfMemory,
            fault => ArchiveError::Message(fault),
        }
    }
}

/// A disk that is given back, and why: no archive was made on it, or opened.
#[derive(Drop)]
pub struct Refused<D, E> {
    /// The disk. An opening that was refused may have frozen files of it.
    pub disk: D,
    /// Why.
    pub error: E,
}
