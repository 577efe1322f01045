//! The sums of archives.

ghost use Rattle.std.specs.Prelude.{◌≡◌, ◌≢◌, ℕ, false, IsTrue, IfOk, IfErr, List, OnOk, IsOk, MatchResult};
ghost use Rattle.std.specs.List.{All};
ghost use Rattle.flow_disk.specs.Cause.{HasCause};
ghost use Rattle.flow_manifest.specs.Slots.{reads_of};
ghost use Rattle.flow_measure.specs.View.{View};
ghost use Rattle.flow_model.specs.Standing.{StandsFor};
ghost use Rattle.flow_several.specs.Together.{AreSumsOf};
ghost use Rattle.flow_several.specs.declared.error.TogetherError.TheVariants as together;
ghost use Rattle.flow_several.specs.declared.refusal.SummingRefusal.TheVariants as summing;
ghost use Rattle.flow_several.specs.Several.{readings, AreSummed, DiskReading, HasReadCause, IsFirstRefused};
ghost use Rattle.flow_several.specs.Several.{IsNotSummed, IsOfAnArchive, IsOwnAnswer, IsSummedWith, KeepsArchive};

use crate::refusal::{SeveralRefusal, SummingRefusal};
use crate::side_by_side::SumsOfEach;
use crate::together::Together;
use flow_archive::Archive;
use flow_disk::{Disk, Faults};
use flow_manifest::OpenError;
use flow_model::one_view_of_a_state;
use flow_refusals::ReadRefusal;
use std::alloc::Global;
use std::thread::Threads;

/// The sums of an archive.
fn sum_archive<D: Disk>(
    alloc: Global,
    archive: &mut Archive<D>,
    faults: &mut Faults<D::Sealed>,
) -> Result<Together, SummingRefusal>
    ensures disk { archive.new.disk ≡ archive.old.disk }
    ensures summed { IsTrue (D.honest archive.old.disk) → (reads : ℕ → List ℕ) → StandsFor reads archive.old.state
        → IsOwnAnswer reads result }
    ensures opened { IfErr result (λ e. e ≢ summing.Opening OpenError.Fault) }
    ensures cause { HasCause (summing.Sums (together.Query ReadRefusal.Fault)) faults.old faults.new result }
{
    one_view_of_a_state();
    let directory = archive.directory(alloc)?;
    let snapshot = directory.into_snapshot();
    let one = Together::of(alloc, &snapshot, faults)?;
    Ok(one)
}

/// Opens the archive on a disk, of which nothing is frozen, and sums it. It gives the disk back.
pub(crate) fn open_and_sum<D: Disk>(
    alloc: Global,
    disk: D,
    faults: &mut Faults<D::Sealed>,
) -> (D, Result<Together, SummingRefusal>)
    requires { (n : ℕ) → (D.marks disk n).frozen ≡ false }
    ensures summed { IsTrue (D.honest disk) → IsOwnAnswer (reads_of (D.held disk)) result.1 }
    ensures honest { D.honest result.0 ≡ D.honest disk }
    // A stop at any moment leaves what opens as the archive that was there.
    ensures any_moment { KeepsArchive D.Disk disk result.0 }
    // It is a fault of opening exactly where a call of the disk failed, and one of asking exactly where a read failed.
    ensures opening { HasCause (summing.Opening OpenError.Fault) (D.faults disk) (D.faults result.0) result.1 }
    ensures cause { HasCause (summing.Sums (together.Query ReadRefusal.Fault)) faults.old faults.new result.1 }
{
    match Archive::open(alloc, disk) {
        Ok(archive) => {
            let mut archive = archive;
            let summed = sum_archive(alloc, &mut archive, faults);
            (archive.into_disk(), summed)
        }
        Err(refused) => (refused.disk, Err(SummingRefusal::from(refused.error))),
    }
}

/// The sums of some archives and of the one that answered this.
fn sums_with(
    all: Together,
    answer: Result<Together, SummingRefusal>,
) -> Result<Together, SummingRefusal>
    ensures summed { (reads : DiskReading) → IsOwnAnswer reads answer → (vs : List View) → AreSumsOf all.sums vs
        → MatchResult result (λ more. IsSummedWith reads vs more.sums) (IsNotSummed reads vs) }
    ensures done { OnOk result (IsOk answer) }
    ensures cause { (before now : ℕ)
        → HasCause (summing.Sums (together.Query ReadRefusal.Fault)) before now answer
        → HasCause (summing.Sums (together.Query ReadRefusal.Fault)) before now result }
{
    let one = answer?;
    let more = all.join(one)?;
    Ok(more)
}

/// The sums of the archives on these disks. As many as there are processors are opened, summed and closed at once;
/// their sums are added in the order of the disks.
pub(crate) fn sum_all<D: Disk + Send, R: Threads + Sync>(
    rt: &R,
    alloc: Global,
    disks: Vec<D>,
    faults: &mut Faults<D::Sealed>,
) -> Result<Together, SeveralRefusal>
where
    D::Sealed: Send + Sync,
    requires { All (λ d. (n : ℕ) → (D.marks d n).frozen ≡ false) disks.items }
    ensures summed { All (λ d. IsTrue (D.honest d)) disks.items
        → IfOk result (λ all. AreSummed (readings D.Disk disks.items) all.sums) }
    ensures refused { All (λ d. IsTrue (D.honest d)) disks.items
        → IfErr result (IsFirstRefused (readings D.Disk disks.items)) }
    ensures named { IfErr result IsOfAnArchive }
    ensures cause { HasReadCause faults.old faults.new result }
{
    let mut all = Together::new();
    let mut place: u64 = 0;
    let mut sums = SumsOfEach::of(alloc, disks);
    'answers: while let Some(answer) = sums.next(rt, alloc, faults) {
        match sums_with(all, answer) {
            Ok(more) => all = more,
            Err(error) => return Err(SeveralRefusal::Archive(place + 1, error)),
        }
        place += 1;
    }
    Ok(all)
}
