//! Why text isn't written whole.

ghost use Rattle.std.specs.Prelude.{◌≡◌};
ghost use Rattle.flow_report.specs.declared.text_error.TextError.TheVariants as text;

use crate::patient::WriteFailed;
use std::alloc::AllocError;

/// Why text isn't written whole.
#[derive(Debug, Drop)]
pub enum TextError {
    OutOfMemory,
    /// Writing failed.
    Write(WriteFailed),
}

impl From<WriteFailed> for TextError {
    ghost from_gives = { λ failed r. r ≡ text.Write failed };

    fn from(failed: WriteFailed) -> TextError {
        TextError::Write(failed)
    }
}

impl From<AllocError> for TextError {
    ghost from_gives = { λ _ r. r ≡ text.OutOfMemory };

    fn from(_e: AllocError) -> TextError {
        TextError::OutOfMemory
    }
}
