//! The sums of several archives, each by itself, made side by side.

ghost use Rattle.std.specs.Prelude.{◌≡◌, ◌+◌, ℕ, List, [], ◌∷◌, false, length, IfNone, IfSome, OnOk};
ghost use Rattle.flow_disk.specs.Cause.{HasCause};
ghost use Rattle.flow_refusals.specs.declared.read_refusal.ReadRefusal.TheVariants as query;
ghost use Rattle.flow_several.specs.declared.refusal.SummingRefusal.TheVariants as summing;
ghost use Rattle.flow_several.specs.Several.{DiskReading, IsOwnAnswer};
ghost use Rattle.flow_several.specs.Turns.{AreReady, Awaits, IsAnswerOf};
ghost use Rattle.flow_several.specs.declared.error.TogetherError.TheVariants as together;

use crate::answer::Answer;
use crate::asked::Asking;
use crate::in_turn::InTurn;
use crate::refusal::SummingRefusal;
use crate::summing::open_and_sum;
use crate::together::Together;
use flow_disk::{Disk, Faults};
use flow_manifest::OpenError;
use std::alloc::Global;
use std::thread::Threads;

/// What is asked of each archive: its sums.
#[derive(Clone, Copy)]
struct Summing {
    alloc: Global,
}

impl<D: Disk> Asking<D, Answer<D::Sealed>> for Summing {
    ghost use Rattle.std.specs.Prelude.{◌≡◌, ℕ, false};
    ghost use Rattle.flow_several.specs.Turns.{IsAnswerOf};

    ghost may_ask = { λ summing disk. (n : ℕ) → (D.marks disk n).frozen ≡ false };

    ghost answers = { λ summing disk answer. IsAnswerOf D.Disk disk answer };

    /// Opens, sums and closes the archive on a disk.
    fn ask(&self, disk: D) -> Answer<D::Sealed> {
        let mut faults = Faults::new();
        let (_disk, sums) = open_and_sum(self.alloc, disk, &mut faults);
        Answer { sums, faults }
    }
}

/// The sums of several archives, each by itself, in the order of their disks. So many are opened, summed and closed at
/// once, each in a thread of its own, before the first of them is taken.
#[derive(Drop)]
pub(crate) struct SumsOfEach<D: Disk> {
    archives: InTurn<D, Answer<D::Sealed>>,
}

impl<D: Disk + Send> SumsOfEach<D>
where
    D::Sealed: Send + Sync,
{
    /// Those of the archives on these disks, of which none was asked.
    pub(crate) fn of(alloc: Global, disks: Vec<D>) -> Self
        ensures answers { result.archives.answers.items ≡ [] }
        ensures left { result.archives.left.items ≡ disks.items }
    {
        SumsOfEach {
            archives: InTurn::of(alloc, disks),
        }
    }

    /// The sums of the next archive, or why it has none; None after the last one. Where memory runs out for those that
    /// are asked at once, that is the answer of the first of them. After a refusal nothing is known of those after it.
    pub(crate) fn next<R: Threads + Sync>(
        &mut self,
        rt: &R,
        alloc: Global,
        faults: &mut Faults<D::Sealed>,
    ) -> Option<Result<Together, SummingRefusal>>
        requires { AreReady D.Disk self.old.archives.answers.items self.old.archives.left.items }
        ensures ready { AreReady D.Disk self.new.archives.answers.items self.new.archives.left.items }
        ensures answer { IfSome result (λ answer. (reads : List DiskReading)
            → Awaits D.Disk self.old.archives.answers.items self.old.archives.left.items reads
            → (own : DiskReading) × (rest : List DiskReading) × (reads ≡ own ∷ rest) × IsOwnAnswer own answer
            × OnOk answer (Awaits D.Disk self.new.archives.answers.items self.new.archives.left.items rest)) }
        ensures end { IfNone result ((reads : List DiskReading)
            → Awaits D.Disk self.old.archives.answers.items self.old.archives.left.items reads → reads ≡ []) }
        ensures count { IfSome result (λ answer. OnOk answer
            (length self.new.archives.answers.items + length self.new.archives.left.items + 1
            ≡ length self.old.archives.answers.items + length self.old.archives.left.items)) }
        ensures ended { IfNone result
            (length self.old.archives.answers.items + length self.old.archives.left.items ≡ 0) }
        ensures cause { IfSome result
            (HasCause (summing.Sums (together.Query query.Fault)) faults.old faults.new) }
        ensures still { IfNone result (faults.new ≡ faults.old) }
    {
        match self.archives.next(rt, &Summing { alloc }) {
            None => None,
            Some(answer) => match answer {
                Ok(own) => {
                    faults.add(own.faults);
                    Some(own.sums)
                }
                Err(_) => Some(Err(SummingRefusal::Opening(OpenError::OutOfMemory))),
            },
        }
    }
}
