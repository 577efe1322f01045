//! Why octets are no manifest, and why an archive can't be opened.

ghost use Rattle.std.specs.Prelude.{◌≡◌, Some};
ghost use Rattle.flow_manifest.specs.declared.error.ManifestError.TheVariants as manifest;
ghost use Rattle.flow_manifest.specs.declared.error.OpenError.TheVariants as opening;
ghost use Rattle.flow_manifest.specs.Opening.{of_file, told};
ghost use Rattle.flow_manifest.specs.Printed.{manifest_text, opening_code, opening_text};

use flow_disk::DiskError;
use flow_refusals::{ReadRefusal, RefusalCode};
use std::alloc::{AllocError, AllocFailed};
use std::error::Error;
use std::fmt;

/// The first fault of octets that are no manifest, printed as its number and its name.
#[derive(Clone, Copy, Debug, PartialEq, Eq)]
pub enum ManifestError {
    /// The format is neither 1 nor 2.
    Format,
    /// A number is out of its range, or the entries aren't those of a valid manifest.
    Entries,
    /// There are fewer octets, or more, than the manifest has.
    Cut,
    /// A growth was refused.
    OutOfMemory,
}

impl fmt::Display for ManifestError {
    ghost output = { λ e. Some (manifest_text e) };

    fn fmt<W: fmt::Write>(&self, f: &mut fmt::Formatter<W>) -> fmt::Result {
        match self {
            ManifestError::Format => write!(f, "{}", RefusalCode::Format),
            ManifestError::Entries => write!(f, "{}", RefusalCode::Entries),
            ManifestError::Cut => write!(f, "{}", RefusalCode::SlotCut),
            ManifestError::OutOfMemory => write!(f, "{}", RefusalCode::OutOfMemory),
        }
    }
}

impl Error for ManifestError {}

impl From<AllocError> for ManifestError {
    ghost from_gives = { λ _ e. e ≡ manifest.OutOfMemory };

    fn from(_e: AllocError) -> ManifestError {
        ManifestError::OutOfMemory
    }
}

impl<T: Drop> From<AllocFailed<T>> for ManifestError {
    ghost from_gives = { λ _ e. e ≡ manifest.OutOfMemory };

    fn from(_e: AllocFailed<T>) -> ManifestError {
        ManifestError::OutOfMemory
    }
}

/// Why an archive can't be opened, printed as its number, its name, and the file and the place that it carries.
#[derive(Clone, Copy, Debug, PartialEq, Eq)]
pub enum OpenError {
    /// A file, and a place in it, with content that no honest run leaves.
    Damaged(u64, u64),
    /// An open slot whose format is neither 1 nor 2.
    Format(u64),
    /// An open slot with a number out of its range, or entries that aren't those of a valid manifest.
    Entries(u64),
    /// An open slot with fewer octets, or more, than its manifest has, or a slot without octets beside an open one.
    Cut(u64),
    /// No slot is open.
    NoArchive,
    /// The device failed in this call.
    Fault,
    /// A growth was refused.
    OutOfMemory,
}

impl OpenError {
    /// The refusal, without what it carries.
    pub fn code(self) -> RefusalCode
        ensures { result ≡ opening_code self }
    {
        match self {
            OpenError::Damaged(_, _) => RefusalCode::Damaged,
            OpenError::Format(_) => RefusalCode::Format,
            OpenError::Entries(_) => RefusalCode::Entries,
            OpenError::Cut(_) => RefusalCode::SlotCut,
            OpenError::NoArchive => RefusalCode::NoArchive,
            OpenError::Fault => RefusalCode::Fault,
            OpenError::OutOfMemory => RefusalCode::OutOfMemory,
        }
    }
}

impl fmt::Display for OpenError {
    ghost output = { λ e. Some (opening_text e) };

    fn fmt<W: fmt::Write>(&self, f: &mut fmt::Formatter<W>) -> fmt::Result {
        match self {
            OpenError::Damaged(file, at) => write!(f, "{} {file} {at}", self.code()),
            OpenError::Format(file) | OpenError::Entries(file) | OpenError::Cut(file) => {
                write!(f, "{} {file}", self.code())
            }
            OpenError::NoArchive | OpenError::Fault | OpenError::OutOfMemory => {
                write!(f, "{}", self.code())
            }
        }
    }
}

impl Error for OpenError {}

impl From<DiskError> for OpenError {
    ghost from_gives = { λ e told_as. told_as ≡ told e };

    fn from(e: DiskError) -> OpenError {
        match e {
            DiskError::Fault => OpenError::Fault,
            DiskError::OutOfMemory => OpenError::OutOfMemory,
        }
    }
}

impl From<ReadRefusal> for OpenError {
    ghost from_gives = { λ e told_as. told_as ≡ of_file e };

    fn from(e: ReadRefusal) -> OpenError {
        match e {
            ReadRefusal::Damaged(file, at) => OpenError::Damaged(file, at),
            ReadRefusal::Fault => OpenError::Fault,
            ReadRefusal::OutOfMemory => OpenError::OutOfMemory,
        }
    }
}

impl From<AllocError> for OpenError {
    ghost from_gives = { λ _ e. e ≡ opening.OutOfMemory };

    fn from(_e: AllocError) -> OpenError {
        OpenError::OutOfMemory
    }
}

impl<T: Drop> From<AllocFailed<T>> for OpenError {
    ghost from_gives = { λ _ e. e ≡ opening.OutOfMemory };

    fn from(_e: AllocFailed<T>) -> OpenError {
        OpenError::OutOfMemory
    }
}
