//! Why a request has no answer.

ghost use Rattle.std.specs.Prelude.{Some, ◌≡◌, ◌≢◌, ◌≤◌};
ghost use Rattle.flow_shell.specs.Refusals.{of_query, of_reader, of_text, shell_code, shell_printed, shell_status};
ghost use Rattle.flow_commands.specs.declared.archive_refusal.ArchiveRefusal.TheVariants as refusal;
ghost use Rattle.flow_shell.specs.declared.refusal.ShellRefusal.TheVariants as shell;

use flow_commands::ArchiveRefusal;
use flow_refusals::{ReadRefusal, RefusalCode};
use flow_report::{TextError, WriteFailed};
use flow_shared::ReaderError;
use std::alloc::{AllocError, AllocFailed};
use std::error::Error;
use std::fmt;

/// Why a request has no answer, printed as its number, its name and what it carries.
#[derive(Debug, Drop)]
pub enum ShellRefusal {
    /// What is shown can't be copied: 11, or 50.
    Reader(ReaderError),
    /// The archive can't be asked, or the answer can't be written.
    Archive(ArchiveRefusal),
}

impl fmt::Display for ShellRefusal {
    ghost output = { λ e. Some (shell_printed e) };

    fn fmt<W: fmt::Write>(&self, f: &mut fmt::Formatter<W>) -> fmt::Result {
        match self {
            ShellRefusal::Reader(error) => write!(f, "{error}"),
            ShellRefusal::Archive(refusal) => write!(f, "{refusal}"),
        }
    }
}

impl Error for ShellRefusal {}

impl ShellRefusal {
    /// The refusal, without what it carries.
    pub fn code(&self) -> RefusalCode
        ensures { result ≡ shell_code self.now }
    {
        match self {
            ShellRefusal::Reader(error) => error.code(),
            ShellRefusal::Archive(refusal) => refusal.code(),
        }
    }

    /// The status of an answer: 1 for what is refused, 3 for a device or the reader's place, 4 for memory, 5 for
    /// damage.
    pub fn status(&self) -> u8
        ensures value { result ≡ shell_status self.now }
        ensures other { result ≢ 2 }
        ensures most { result ≤ 5 }
    {
        self.code().status()
    }
}

impl From<ReaderError> for ShellRefusal {
    ghost from_gives = { λ e r. r ≡ of_reader e };

    fn from(error: ReaderError) -> ShellRefusal {
        ShellRefusal::Reader(error)
    }
}

impl From<ReadRefusal> for ShellRefusal {
    ghost from_gives = { λ e r. r ≡ of_query e };

    fn from(error: ReadRefusal) -> ShellRefusal {
        ShellRefusal::Archive(ArchiveRefusal::from(error))
    }
}

impl From<TextError> for ShellRefusal {
    ghost from_gives = { λ e r. r ≡ of_text e };

    fn from(error: TextError) -> ShellRefusal {
        ShellRefusal::Archive(ArchiveRefusal::from(error))
    }
}

impl From<WriteFailed> for ShellRefusal {
    ghost from_gives = { λ failed r. r ≡ shell.Archive (refusal.Write failed) };

    fn from(failed: WriteFailed) -> ShellRefusal {
        ShellRefusal::Archive(ArchiveRefusal::Write(failed))
    }
}

impl From<AllocError> for ShellRefusal {
    ghost from_gives = { λ _ r. r ≡ shell.Archive refusal.OutOfMemory };

    fn from(_e: AllocError) -> ShellRefusal {
        ShellRefusal::Archive(ArchiveRefusal::OutOfMemory)
    }
}

impl<T: Drop> From<AllocFailed<T>> for ShellRefusal {
    ghost from_gives = { λ _ r. r ≡ shell.Archive refusal.OutOfMemory };

    fn from(_e: AllocFailed<T>) -> ShellRefusal {
        ShellRefusal::Archive(ArchiveRefusal::OutOfMemory)
    }
}
