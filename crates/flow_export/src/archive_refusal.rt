//! Why an archive isn't exported.

ghost use Rattle.std.specs.Prelude.{◌≡◌};
ghost use Rattle.flow_export.specs.declared.refusal.ExportRefusal.TheVariants as export;
ghost use Rattle.flow_export.specs.Asked.{of_export};
ghost use Rattle.flow_export.specs.declared.archive_refusal.ArchiveExportRefusal.TheVariants.{Folder, Opening, Query};
ghost use Rattle.flow_refusals.specs.declared.read_refusal.ReadRefusal.TheVariants.{OutOfMemory};

use crate::refusal::ExportRefusal;
use flow_folder::FolderError;
use flow_manifest::OpenError;
use flow_refusals::ReadRefusal;
use flow_report::WriteFailed;
use std::alloc::AllocError;

/// Why an archive isn't exported.
#[derive(Debug, Drop)]
pub enum ArchiveExportRefusal {
    /// The folder can't be opened.
    Folder(FolderError),
    /// The archive can't be opened: 20 to 24, 30, or 11.
    Opening(OpenError),
    /// A file of the archive can't be read: 20, 30, or 11.
    Query(ReadRefusal),
    /// Messages up to this one are in sums alone, and one of them is asked for, or may have a flow of the span: 52.
    Rolled(u64),
    /// Writing failed: 32.
    Write(WriteFailed),
}

impl From<FolderError> for ArchiveExportRefusal {
    ghost from_gives = { λ e r. r ≡ Folder e };

    fn from(error: FolderError) -> ArchiveExportRefusal {
        ArchiveExportRefusal::Folder(error)
    }
}

impl From<OpenError> for ArchiveExportRefusal {
    ghost from_gives = { λ e r. r ≡ Opening e };

    fn from(error: OpenError) -> ArchiveExportRefusal {
        ArchiveExportRefusal::Opening(error)
    }
}

impl From<ExportRefusal> for ArchiveExportRefusal {
    ghost from_gives = { λ e r. r ≡ of_export e };

    fn from(error: ExportRefusal) -> ArchiveExportRefusal {
        match error {
            ExportRefusal::Query(error) => ArchiveExportRefusal::Query(error),
            ExportRefusal::Write(failed) => ArchiveExportRefusal::Write(failed),
        }
    }
}

impl From<ReadRefusal> for ArchiveExportRefusal {
    ghost from_gives = { λ e r. r ≡ Query e };

    fn from(error: ReadRefusal) -> ArchiveExportRefusal {
        ArchiveExportRefusal::Query(error)
    }
}

impl From<AllocError> for ArchiveExportRefusal {
    ghost from_gives = { λ _ r. r ≡ Query OutOfMemory };

    fn from(_e: AllocError) -> ArchiveExportRefusal {
        ArchiveExportRefusal::Query(ReadRefusal::OutOfMemory)
    }
}
