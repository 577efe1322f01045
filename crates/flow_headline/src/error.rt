//! Why no archive was opened after a stop.

ghost use Rattle.std.specs.Prelude.{◌≡◌, Some};
ghost use Rattle.flow_headline.specs.Printed.{printed, printed_told};
ghost use Rattle.flow_headline.specs.declared.error.NotOpened.TheVariants.{OutOfMemory};
ghost use Rattle.flow_headline.specs.declared.error.TotalsRefusal.TheVariants.{NotOpened as NotOpenedTold};
ghost use Rattle.flow_headline.specs.declared.error.TotalsRefusal.TheVariants.{NotAnswered as NotAnsweredTold};

use flow_refusals::{ReadRefusal, RefusalCode};
use std::alloc::AllocError;
use std::error::Error;
use std::fmt;

/// Why no archive was opened after a stop. The refusals 20 to 24 of what a disk holds aren't among these: they never
/// come.
#[derive(Clone, Copy, Debug, PartialEq, Eq)]
pub enum NotOpened {
    /// A growth of memory was refused: before the first event, or in the opening; or the disk in memory had no room for
    /// what the opening writes.
    OutOfMemory,
    /// No stop leaves what was chosen: `Filled` without octets, or `Longer` with too many for the room of a file.
    NoSuchStop,
}

impl fmt::Display for NotOpened {
    ghost output = { λ e. Some (printed e) };

    fn fmt<W: fmt::Write>(&self, f: &mut fmt::Formatter<W>) -> fmt::Result {
        match self {
            NotOpened::OutOfMemory => write!(f, "{}", RefusalCode::OutOfMemory),
            NotOpened::NoSuchStop => write!(f, "NoSuchStop"),
        }
    }
}

impl Error for NotOpened {}

impl From<AllocError> for NotOpened {
    ghost from_gives = { λ _ e. e ≡ OutOfMemory };

    fn from(_e: AllocError) -> NotOpened {
        NotOpened::OutOfMemory
    }
}

/// Why no totals were answered after a stop.
#[derive(Clone, Copy, Debug, PartialEq, Eq)]
pub enum TotalsRefusal {
    /// No archive was opened.
    NotOpened(NotOpened),
    /// The query was not answered.
    NotAnswered(ReadRefusal),
}

impl fmt::Display for TotalsRefusal {
    ghost output = { λ e. Some (printed_told e) };

    fn fmt<W: fmt::Write>(&self, f: &mut fmt::Formatter<W>) -> fmt::Result {
        match self {
            TotalsRefusal::NotOpened(error) => write!(f, "{error}"),
            TotalsRefusal::NotAnswered(error) => write!(f, "{error}"),
        }
    }
}

impl Error for TotalsRefusal {}

impl From<NotOpened> for TotalsRefusal {
    ghost from_gives = { λ e t. t ≡ NotOpenedTold e };

    fn from(error: NotOpened) -> TotalsRefusal {
        TotalsRefusal::NotOpened(error)
    }
}

impl From<ReadRefusal> for TotalsRefusal {
    ghost from_gives = { λ e t. t ≡ NotAnsweredTold e };

    fn from(error: ReadRefusal) -> TotalsRefusal {
        TotalsRefusal::NotAnswered(error)
    }
}

impl From<AllocError> for TotalsRefusal {
    ghost from_gives = { λ _ t. t ≡ NotOpenedTold OutOfMemory };

    fn from(_e: AllocError) -> TotalsRefusal {
        TotalsRefusal::NotOpened(NotOpened::OutOfMemory)
    }
}
