//! Why messages aren't exported.

ghost use Rattle.std.specs.Prelude.{◌≡◌};
ghost use Rattle.flow_export.specs.declared.refusal.ExportRefusal.TheVariants as refusal;
ghost use Rattle.flow_refusals.specs.declared.read_refusal.ReadRefusal.TheVariants as query;

use flow_refusals::ReadRefusal;
use flow_report::WriteFailed;
use std::alloc::AllocError;

/// Why messages aren't exported.
#[derive(Debug, Drop)]
pub enum ExportRefusal {
    /// A file of the archive can't be read: 20, 30, or 11.
    Query(ReadRefusal),
    /// Writing failed: 32.
    Write(WriteFailed),
}

impl From<ReadRefusal> for ExportRefusal {
    ghost from_gives = { λ e r. r ≡ refusal.Query e };

    fn from(error: ReadRefusal) -> ExportRefusal {
        ExportRefusal::Query(error)
    }
}

impl From<AllocError> for ExportRefusal {
    ghost from_gives = { λ _ r. r ≡ refusal.Query query.OutOfMemory };

    fn from(_e: AllocError) -> ExportRefusal {
        ExportRefusal::Query(ReadRefusal::OutOfMemory)
    }
}

impl From<WriteFailed> for ExportRefusal {
    ghost from_gives = { λ failed r. r ≡ refusal.Write failed };

    fn from(failed: WriteFailed) -> ExportRefusal {
        ExportRefusal::Write(failed)
    }
}
