//! Why an archive's sums aren't added to those of others.

ghost use Rattle.std.specs.Prelude.{◌≡◌, ◌≢◌, ◌≤◌, Some};
ghost use Rattle.flow_refusals.specs.declared.read_refusal.ReadRefusal.TheVariants as refused;
ghost use Rattle.flow_several.specs.Printed.{together_status, together_text};
ghost use Rattle.flow_several.specs.Together.{of_sums};
ghost use Rattle.flow_several.specs.declared.error.TogetherError.TheVariants.{Query};

use flow_measure::SumError;
use flow_refusals::{ReadRefusal, RefusalCode};
use std::alloc::AllocError;
use std::error::Error;
use std::fmt;

/// Why an archive's sums aren't added to those of others, printed as its number, its name and what it carries.
#[derive(Clone, Copy, Debug, PartialEq, Eq)]
pub enum TogetherError {
    /// A file of the archive can't be asked: 20, 30, or 11.
    Query(ReadRefusal),
    /// Its intervals have other widths than those of the first archive: 51.
    OtherWidths,
    /// A sum would pass its type: 14.
    SumSpent,
}

impl fmt::Display for TogetherError {
    ghost output = { λ e. Some (together_text e) };

    fn fmt<W: fmt::Write>(&self, f: &mut fmt::Formatter<W>) -> fmt::Result {
        match self {
            TogetherError::Query(error) => write!(f, "{error}"),
            TogetherError::OtherWidths => write!(f, "{}", RefusalCode::Widths),
            TogetherError::SumSpent => write!(f, "{}", RefusalCode::SumSpent),
        }
    }
}

impl Error for TogetherError {}

impl TogetherError {
    /// The exit status: 1 for widths and sums that are refused, 3 for a device, 4 for memory, 5 for damage.
    pub fn status(self) -> u8
        ensures value { result ≡ together_status self }
        ensures failed { 1 ≤ result }
        ensures other { result ≢ 2 }
        ensures most { result ≤ 5 }
    {
        match self {
            TogetherError::Query(error) => error.code().status(),
            TogetherError::OtherWidths => RefusalCode::Widths.status(),
            TogetherError::SumSpent => RefusalCode::SumSpent.status(),
        }
    }
}

impl From<ReadRefusal> for TogetherError {
    ghost from_gives = { λ e r. r ≡ Query e };

    fn from(error: ReadRefusal) -> TogetherError {
        TogetherError::Query(error)
    }
}

impl From<SumError> for TogetherError {
    ghost from_gives = { λ e r. r ≡ of_sums e };

    fn from(error: SumError) -> TogetherError {
        match error {
            SumError::SumSpent => TogetherError::SumSpent,
            SumError::OutOfMemory => TogetherError::Query(ReadRefusal::OutOfMemory),
        }
    }
}

impl From<AllocError> for TogetherError {
    ghost from_gives = { λ _ r. r ≡ Query refused.OutOfMemory };

    fn from(_e: AllocError) -> TogetherError {
        TogetherError::Query(ReadRefusal::OutOfMemory)
    }
}
