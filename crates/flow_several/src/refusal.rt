//! Why several archives aren't summed, or their sums aren't written.

ghost use Rattle.std.specs.Prelude.{◌≡◌, ◌≢◌, ◌≤◌, Some};
ghost use Rattle.flow_several.specs.Refusals.{of_sum, of_text, several_status, several_text, summing_status};
ghost use Rattle.flow_several.specs.Refusals.{summing_text};
ghost use Rattle.flow_refusals.specs.declared.read_refusal.ReadRefusal.TheVariants as query;
ghost use Rattle.flow_several.specs.declared.error.TogetherError.TheVariants as together;
ghost use Rattle.flow_several.specs.declared.refusal.SeveralRefusal.TheVariants as several;
ghost use Rattle.flow_several.specs.declared.refusal.SummingRefusal.TheVariants.{Opening, Sums};

use crate::error::TogetherError;
use flow_manifest::OpenError;
use flow_measure::SumError;
use flow_refusals::{ReadRefusal, RefusalCode};
use flow_report::{TextError, WriteFailed};
use std::alloc::AllocError;
use std::error::Error;
use std::fmt;

/// Why an archive isn't summed with others, or its flows aren't all listed, printed as its number, its name and what it
/// carries.
#[derive(Debug, Drop)]
pub enum SummingRefusal {
    /// The archive can't be opened: 20 to 24, 30, or 11.
    Opening(OpenError),
    /// Its sums aren't added to those of others, or one of its files can't be asked.
    Sums(TogetherError),
}

impl fmt::Display for SummingRefusal {
    ghost output = { λ e. Some (summing_text e) };

    fn fmt<W: fmt::Write>(&self, f: &mut fmt::Formatter<W>) -> fmt::Result {
        match self {
            SummingRefusal::Opening(error) => write!(f, "{error}"),
            SummingRefusal::Sums(error) => write!(f, "{error}"),
        }
    }
}

impl SummingRefusal {
    /// The exit status: 1 for what is refused, 3 for a device, 4 for memory, 5 for damage.
    pub fn status(&self) -> u8
        ensures value { result ≡ summing_status self.now }
        ensures failed { 1 ≤ result }
        ensures other { result ≢ 2 }
        ensures most { result ≤ 5 }
    {
        match self {
            SummingRefusal::Opening(error) => error.code().status(),
            SummingRefusal::Sums(error) => error.status(),
        }
    }
}

/// Why the sums or the flows of several archives aren't written, printed as its number, its name and what it carries.
#[derive(Debug, Drop)]
pub enum SeveralRefusal {
    /// The archive with this number, from 1 on, is the first that isn't summed or listed.
    Archive(u64, SummingRefusal),
    /// The sums of all archives by the width and by the wide width, which are one, don't fit one table: 14.
    SumSpent,
    OutOfMemory,
    /// Writing failed.
    Write(WriteFailed),
}

impl fmt::Display for SeveralRefusal {
    ghost output = { λ e. Some (several_text e) };

    fn fmt<W: fmt::Write>(&self, f: &mut fmt::Formatter<W>) -> fmt::Result {
        match self {
            SeveralRefusal::Archive(number, error) => write!(f, "{error} archive {number}"),
            SeveralRefusal::SumSpent => write!(f, "{}", RefusalCode::SumSpent),
            SeveralRefusal::OutOfMemory => write!(f, "{}", RefusalCode::OutOfMemory),
            SeveralRefusal::Write(_) => write!(f, "{}", RefusalCode::Write),
        }
    }
}

impl Error for SummingRefusal {}

impl Error for SeveralRefusal {}

impl SeveralRefusal {
    /// The exit status: 1 for what is refused, 3 for a device, 4 for memory, 5 for damage.
    pub fn status(&self) -> u8
        ensures value { result ≡ several_status self.now }
        ensures failed { 1 ≤ result }
        ensures other { result ≢ 2 }
        ensures most { result ≤ 5 }
    {
        match self {
            SeveralRefusal::Archive(_, error) => error.status(),
            SeveralRefusal::SumSpent => RefusalCode::SumSpent.status(),
            SeveralRefusal::OutOfMemory => RefusalCode::OutOfMemory.status(),
            SeveralRefusal::Write(_) => RefusalCode::Write.status(),
        }
    }
}

impl From<OpenError> for SummingRefusal {
    ghost from_gives = { λ e r. r ≡ Opening e };

    fn from(error: OpenError) -> SummingRefusal {
        SummingRefusal::Opening(error)
    }
}

impl From<TogetherError> for SummingRefusal {
    ghost from_gives = { λ e r. r ≡ Sums e };

    fn from(error: TogetherError) -> SummingRefusal {
        SummingRefusal::Sums(error)
    }
}

impl From<ReadRefusal> for SummingRefusal {
    ghost from_gives = { λ e r. r ≡ Sums (together.Query e) };

    fn from(error: ReadRefusal) -> SummingRefusal {
        SummingRefusal::Sums(TogetherError::Query(error))
    }
}

impl From<AllocError> for SummingRefusal {
    ghost from_gives = { λ _ r. r ≡ Sums (together.Query query.OutOfMemory) };

    fn from(error: AllocError) -> SummingRefusal {
        SummingRefusal::Sums(TogetherError::from(error))
    }
}

impl From<SumError> for SeveralRefusal {
    ghost from_gives = { λ e r. r ≡ of_sum e };

    fn from(error: SumError) -> SeveralRefusal {
        match error {
            SumError::SumSpent => SeveralRefusal::SumSpent,
            SumError::OutOfMemory => SeveralRefusal::OutOfMemory,
        }
    }
}

impl From<AllocError> for SeveralRefusal {
    ghost from_gives = { λ _ r. r ≡ several.OutOfMemory };

    fn from(_e: AllocError) -> SeveralRefusal {
        SeveralRefusal::OutOfMemory
    }
}

impl From<WriteFailed> for SeveralRefusal {
    ghost from_gives = { λ failed r. r ≡ several.Write failed };

    fn from(failed: WriteFailed) -> SeveralRefusal {
        SeveralRefusal::Write(failed)
    }
}

impl From<TextError> for SeveralRefusal {
    ghost from_gives = { λ e r. r ≡ of_text e };

    fn from(error: TextError) -> SeveralRefusal {
        match error {
            TextError::OutOfMemory => SeveralRefusal::OutOfMemory,
            TextError::Write(failed) => SeveralRefusal::Write(failed),
        }
    }
}
