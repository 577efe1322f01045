//! Why a command over an archive ended before its work was done.

ghost use Rattle.std.specs.Prelude.{Some, ◌≡◌, ◌≢◌, ◌≤◌};
ghost use Rattle.flow_commands.specs.Archives.{archive_code, archive_printed, archive_status, of_archive, of_folder};
ghost use Rattle.flow_commands.specs.Archives.{of_opening, of_query, of_text};
ghost use Rattle.flow_commands.specs.declared.archive_refusal.ArchiveRefusal.TheVariants as refusal;

use crate::folder_fault::FolderFault;
use flow_archive::ArchiveError;
use flow_folder::FolderError;
use flow_manifest::OpenError;
use flow_refusals::{ReadRefusal, RefusalCode};
use flow_report::{TextError, WriteFailed};
use std::alloc::{AllocError, AllocFailed};
use std::error::Error;
use std::fmt;

/// Why a command over an archive ended before its work was done, printed as its number, its name and what it carries.
#[derive(Debug, Drop)]
pub enum ArchiveRefusal {
    /// The folder can't be opened: 30.
    Folder(FolderFault),
    /// The archive can't be opened: 20 to 24, or 30.
    Opening(OpenError),
    /// The archive refuses an event, or isn't made.
    Archive(ArchiveError),
    /// A file of the archive can't be asked: 20, or 30.
    Query(ReadRefusal),
    OutOfMemory,
    /// Writing failed.
    Write(WriteFailed),
}

impl fmt::Display for ArchiveRefusal {
    ghost output = { λ e. Some (archive_printed e) };

    fn fmt<W: fmt::Write>(&self, f: &mut fmt::Formatter<W>) -> fmt::Result {
        match self {
            ArchiveRefusal::Folder(fault) => write!(f, "{fault}"),
            ArchiveRefusal::Opening(error) => write!(f, "{error}"),
            ArchiveRefusal::Archive(error) => write!(f, "{error}"),
            ArchiveRefusal::Query(error) => write!(f, "{error}"),
            ArchiveRefusal::OutOfMemory => write!(f, "{}", RefusalCode::OutOfMemory),
            ArchiveRefusal::Write(_) => write!(f, "{}", RefusalCode::Write),
        }
    }
}

impl Error for ArchiveRefusal {}

impl ArchiveRefusal {
    /// The refusal, without what it carries.
    pub fn code(&self) -> RefusalCode
        ensures { result ≡ archive_code self.now }
    {
        match self {
            ArchiveRefusal::Folder(_) => RefusalCode::Fault,
            ArchiveRefusal::Opening(error) => error.code(),
            ArchiveRefusal::Archive(error) => error.code(),
            ArchiveRefusal::Query(error) => error.code(),
            ArchiveRefusal::OutOfMemory => RefusalCode::OutOfMemory,
            ArchiveRefusal::Write(_) => RefusalCode::Write,
        }
    }

    /// The exit status: 1 for what is refused, 3 for a device, 4 for memory, 5 for damage.
    pub fn status(&self) -> u8
        ensures value { result ≡ archive_status self.now }
        ensures failed { 1 ≤ result }
        ensures other { result ≢ 2 }
        ensures most { result ≤ 5 }
    {
        self.code().status()
    }
}

impl From<OpenError> for ArchiveRefusal {
    ghost from_gives = { λ e r. r ≡ of_opening e };

    fn from(error: OpenError) -> ArchiveRefusal {
        match error {
            OpenError::OutOfMemory => ArchiveRefusal::OutOfMemory,
            error => ArchiveRefusal::Opening(error),
        }
    }
}

impl From<ArchiveError> for ArchiveRefusal {
    ghost from_gives = { λ e r. r ≡ of_archive e };

    fn from(error: ArchiveError) -> ArchiveRefusal {
        match error {
            ArchiveError::OutOfMemory => ArchiveRefusal::OutOfMemory,
            error => ArchiveRefusal::Archive(error),
        }
    }
}

impl From<ReadRefusal> for ArchiveRefusal {
    ghost from_gives = { λ e r. r ≡ of_query e };

    fn from(error: ReadRefusal) -> ArchiveRefusal {
        match error {
            ReadRefusal::OutOfMemory => ArchiveRefusal::OutOfMemory,
            error => ArchiveRefusal::Query(error),
        }
    }
}

impl From<FolderError> for ArchiveRefusal {
    ghost from_gives = { λ e r. r ≡ of_folder e };

    fn from(error: FolderError) -> ArchiveRefusal {
        match error {
            FolderError::NotThere => ArchiveRefusal::Folder(FolderFault::NotThere),
            FolderError::NotAFolder => ArchiveRefusal::Folder(FolderFault::NotAFolder),
            FolderError::Refused(_) => ArchiveRefusal::Folder(FolderFault::Refused),
            FolderError::InUse => ArchiveRefusal::Folder(FolderFault::InUse),
            FolderError::NotAFile(file) => ArchiveRefusal::Folder(FolderFault::NotAFile(file)),
            FolderError::NoLock(_) => ArchiveRefusal::Folder(FolderFault::NoLock),
            FolderError::NoHandles => ArchiveRefusal::Folder(FolderFault::NoHandles),
            FolderError::OutOfMemory => ArchiveRefusal::OutOfMemory,
        }
    }
}

impl From<TextError> for ArchiveRefusal {
    ghost from_gives = { λ e r. r ≡ of_text e };

    fn from(error: TextError) -> ArchiveRefusal {
        match error {
            TextError::OutOfMemory => ArchiveRefusal::OutOfMemory,
            TextError::Write(failed) => ArchiveRefusal::Write(failed),
        }
    }
}

impl From<WriteFailed> for ArchiveRefusal {
    ghost from_gives = { λ failed r. r ≡ refusal.Write failed };

    fn from(failed: WriteFailed) -> ArchiveRefusal {
        ArchiveRefusal::Write(failed)
    }
}

impl From<AllocError> for ArchiveRefusal {
    ghost from_gives = { λ _ r. r ≡ refusal.OutOfMemory };

    fn from(_e: AllocError) -> ArchiveRefusal {
        ArchiveRefusal::OutOfMemory
    }
}

impl<T: Drop> From<AllocFailed<T>> for ArchiveRefusal {
    ghost from_gives = { λ _ r. r ≡ refusal.OutOfMemory };

    fn from(_e: AllocFailed<T>) -> ArchiveRefusal {
        ArchiveRefusal::OutOfMemory
    }
}
