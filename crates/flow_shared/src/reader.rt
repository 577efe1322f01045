//! The places of readers.

ghost use Rattle.std.specs.Prelude.{◌≡◌, IsTrue, IfOk, OnErr, Some};
ghost use mathlib.Core.List.{IsPrefix};
ghost use Rattle.flow_measure.specs.History.{History};
ghost use Rattle.flow_shared.specs.Meaning.{history_behind, HasView, Means};
ghost use Rattle.flow_shared.specs.Printed.{printed, reader_code};
ghost use Rattle.flow_shared.specs.Told.{after};

use crate::history::{Naming, Told};
use crate::shown::Shown;
use flow_disk::SealedFile;
use flow_refusals::RefusalCode;
use flow_snapshot::{Directory, Snapshot};
use left_right::ReadHandle;
use std::error::Error;
use std::fmt;
use std::marker::Model;

/// Why a snapshot wasn't taken, printed as its number and its name.
#[derive(Clone, Copy, Debug, PartialEq, Eq)]
pub enum ReaderError {
    /// A growth of memory was refused.
    OutOfMemory,
    /// The place couldn't be entered.
    Away,
}

impl ReaderError {
    /// The refusal.
    pub fn code(self) -> RefusalCode
        ensures { result ≡ reader_code self }
    {
        match self {
            ReaderError::OutOfMemory => RefusalCode::OutOfMemory,
            ReaderError::Away => RefusalCode::Away,
        }
    }
}

impl fmt::Display for ReaderError {
    ghost output = { λ e. Some (printed e) };

    fn fmt<W: fmt::Write>(&self, f: &mut fmt::Formatter<W>) -> fmt::Result {
        write!(f, "{}", self.code())
    }
}

impl Error for ReaderError {}

/// A reader's place. It is seen as the list of steps that it knows.
#[derive(Drop)]
pub struct ArchiveReader<S: SealedFile, J: Naming> {
    place: ReadHandle<Shown<S, J>>,
    told: Told<J>,
}

impl<S: SealedFile, J: Naming> Model for ArchiveReader<S, J> {
    ghost use Rattle.std.specs.Prelude.{List};
    ghost use Rattle.flow_model.specs.Changes.{Change};

    ghost Value = { List Change };

    ghost view = { λ r. r.told };
}

impl<S: SealedFile, J: Naming> ArchiveReader<S, J> {
    pub(crate) fn new(place: ReadHandle<Shown<S, J>>, told: Told<J>) -> ArchiveReader<S, J>
        ensures { result ≡ told }
    {
        ArchiveReader { place, told }
    }

    /// From now on it shows no less than these steps. It waits for nobody, and takes no memory.
    pub fn learn(&mut self, told: Told<J>)
        ensures own { IsPrefix self.old self.new }
        ensures told { IsPrefix told self.new }
    {
        self.told.learn(&told);
    }

    /// The archive after a list of steps that begins with all that this reader saw or learnt. It waits for nobody.
    pub fn snapshot(&mut self) -> Result<Snapshot<S>, ReaderError>
        ensures later { IsPrefix self.old self.new }
        ensures shelf { IfOk result (λ s. s.shelf ≡ after J.opening self.new) }
        // On an honest disk it reads as it is, and has the view of each history of the opening files after these steps.
        ensures honest { IsTrue J.honest → IfOk result (λ s. IsTrue s.honest) }
        ensures view { IsTrue J.honest → (h : History) → HasView J.opening h
            → IfOk result (λ s. HasView s.shelf (history_behind h self.new)) }
        ensures kept { OnErr result (self.new ≡ self.old) }
    {
        let Some(shown) = self.place.enter() else {
            return Err(ReaderError::Away);
        };
        let (directory, told) = copy_shown(&shown, &self.told)?;
        self.told = told;
        Ok(directory.into_snapshot())
    }
}

/// What is shown, if it is no older than what is known.
fn copy_shown<S: SealedFile, J: Naming>(
    shown: &Shown<S, J>,
    known: &Told<J>,
) -> Result<(Directory<S>, Told<J>), ReaderError>
    ensures shelf { IfOk result (λ r. (r.0.shelf ≡ after J.opening r.1) × IsPrefix known.now r.1) }
    ensures honest { IsTrue J.honest → IfOk result (λ r. IsTrue r.0.honest) }
    ensures means { IsTrue J.honest → IfOk result (λ r. Means J.opening r.1) }
{
    if !known.begins(shown.told()) {
        return Err(ReaderError::Away);
    }
    match shown.directory().try_copy() {
        Ok(directory) => Ok((directory, shown.told().again())),
        Err(_) => Err(ReaderError::OutOfMemory),
    }
}
