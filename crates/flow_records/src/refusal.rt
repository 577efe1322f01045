//! Why records aren't written whole.

ghost use Rattle.std.specs.Prelude.{◌≡◌};
ghost use Rattle.flow_report.specs.declared.text_error.TextError.TheVariants as text;
ghost use Rattle.flow_records.specs.declared.refusal.RecordsRefusal.TheVariants.{Query, Text};

use flow_refusals::ReadRefusal;
use flow_report::{TextError, WriteFailed};
use std::alloc::AllocError;

/// Why records aren't written whole.
#[derive(Debug, Drop)]
pub enum RecordsRefusal {
    /// A file can't be read: 20, 30, or 11.
    Query(ReadRefusal),
    /// The lines can't be written: 32, or 11.
    Text(TextError),
}

impl From<ReadRefusal> for RecordsRefusal {
    ghost from_gives = { λ e r. r ≡ Query e };

    fn from(error: ReadRefusal) -> RecordsRefusal {
        RecordsRefusal::Query(error)
    }
}

impl From<TextError> for RecordsRefusal {
    ghost from_gives = { λ e r. r ≡ Text e };

    fn from(error: TextError) -> RecordsRefusal {
        RecordsRefusal::Text(error)
    }
}

impl From<WriteFailed> for RecordsRefusal {
    ghost from_gives = { λ failed r. r ≡ Text (text.Write failed) };

    fn from(failed: WriteFailed) -> RecordsRefusal {
        RecordsRefusal::Text(TextError::Write(failed))
    }
}

impl From<AllocError> for RecordsRefusal {
    ghost from_gives = { λ _ r. r ≡ Text text.OutOfMemory };

    fn from(_e: AllocError) -> RecordsRefusal {
        RecordsRefusal::Text(TextError::OutOfMemory)
    }
}
