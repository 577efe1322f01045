//! Sums of several archives.

ghost use Rattle.std.specs.Prelude.{◌≡◌, ◌≢◌, IsTrue, List, [], ◌∷◌, ◌++◌, MatchResult, IfOk, IfErr};
ghost use Rattle.flow_disk.specs.Cause.{HasCause};
ghost use Rattle.flow_measure.specs.View.{View};
ghost use Rattle.flow_model.specs.Views.{IsViewOf};
ghost use Rattle.flow_snapshot.specs.Totals.{first_file, IsMade};
ghost use Rattle.flow_several.specs.Together.{first_width, rows_of_sums, same_widths, totals_in_views, width_of_sums};
ghost use Rattle.flow_several.specs.Together.{AreBoth, AreJoined, AreNotJoined, AreOfParts, AreSumsOf, BothFit};
ghost use Rattle.flow_several.specs.Together.{BothFitTogether, FitTogether, IsJoiningRefused, IsJoint, IsUnmade};
ghost use Rattle.flow_several.specs.Together.{OneTableFits};
ghost use Rattle.flow_several.specs.declared.error.TogetherError.TheVariants as together;

use crate::error::TogetherError;
use crate::interleaving::rows_of_both;
use flow_disk::{Faults, SealedFile};
use flow_measure::{Row, SumError};
use flow_refusals::ReadRefusal;
use flow_snapshot::{PartSums, Snapshot};
use std::alloc::Global;

/// Whether both are sums by the same widths.
fn have_same_widths(all: &PartSums, more: &PartSums) -> bool
    ensures { result ≡ same_widths all.now more.now }
{
    let narrow = all.narrow.width() == more.narrow.width();
    let wide = all.wide.width() == more.wide.width();
    narrow && wide
}

/// The sums of both, by the same widths.
fn both(mut all: PartSums, more: PartSums) -> Result<PartSums, SumError>
    requires narrow { all.narrow.width ≡ more.narrow.width }
    requires wide { all.wide.width ≡ more.wide.width }
    ensures { MatchResult result (λ s. AreBoth all more s) (λ e. IsUnmade (BothFit all more) e) }
{
    all.narrow.merge(&more.narrow)?;
    all.wide.merge(&more.wide)?;
    Ok(all)
}

/// The sums of some archives and those of one more.
fn joint(all: Option<PartSums>, more: PartSums) -> Result<PartSums, TogetherError>
    ensures { IsJoint all more result }
{
    match all {
        None => Ok(more),
        Some(all) => {
            if !have_same_widths(&all, &more) {
                return Err(TogetherError::OtherWidths);
            }
            Ok(both(all, more)?)
        }
    }
}

/// The sums of some archives and of more.
fn joined(all: Option<PartSums>, more: Option<PartSums>) -> Result<Option<PartSums>, TogetherError>
    ensures { MatchResult result (AreJoined all more) (AreNotJoined all more) }
{
    match more {
        None => Ok(all),
        Some(more) => {
            let sums = joint(all, more)?;
            Ok(Some(sums))
        }
    }
}

/// The rows of sums by both widths that start from `from` on and before `to`; none where there are no sums.
fn rows_of(alloc: Global, sums: Option<PartSums>, from: u64, to: u64) -> Result<Vec<Row>, SumError>
    ensures { MatchResult result (λ rows. rows.items ≡ rows_of_sums from to sums)
        (λ e. IsUnmade (OneTableFits sums) e) }
{
    match sums {
        None => Ok(Vec::new(alloc)),
        Some(sums) => {
            let PartSums { narrow, wide } = sums;
            rows_of_both(alloc, from, to, narrow, &wide)
        }
    }
}

/// The sums of several archives, by the width and the wide width of the first.
#[derive(Drop)]
pub struct Together {
    /// None before the first archive.
    pub(crate) sums: Option<PartSums>,
}

impl Together {
    /// Those of no archive.
    pub fn new() -> Self
        ensures { AreSumsOf result.sums [] }
    {
        Together { sums: None }
    }

    /// Those of one archive. Each of its files is read once. It refuses as `Snapshot::totals` does.
    pub fn of<S: SealedFile>(
        alloc: Global,
        snapshot: &Snapshot<S>,
        faults: &mut Faults<S>,
    ) -> Result<Together, ReadRefusal>
        ensures cause { HasCause ReadRefusal.Fault faults.old faults.new result }
        // On honest disks, also where files are damaged: the sums of all parts, each of which was read whole.
        ensures found { IsTrue snapshot.now.honest → IfOk result (λ one. AreOfParts snapshot.now.shelf one.sums) }
        // The sums of the view of the archive's files.
        ensures summed { IsTrue snapshot.now.honest → (v : View) → IsViewOf snapshot.now.shelf v
            → IsMade (first_file snapshot.now.shelf) (FitTogether (v ∷ [])) (λ one. AreSumsOf one.sums (v ∷ []))
            result }
    {
        let first = snapshot.first_file();
        let sums = snapshot.share(alloc, first, 1, 0, faults)?;
        Ok(Together { sums: Some(sums) })
    }

    /// The sums of these archives and of more. It refuses where those have other widths, or a sum of all would pass its
    /// type.
    pub fn join(self, more: Together) -> Result<Together, TogetherError>
        ensures joined { MatchResult result (λ all. AreJoined self.sums more.sums all.sums)
            (AreNotJoined self.sums more.sums) }
        // Where these are the sums of some views, and more are those of one: those of one view more.
        ensures views { (v : View) → AreSumsOf more.sums (v ∷ []) → (vs : List View) → AreSumsOf self.sums vs
            → MatchResult result (λ all. AreSumsOf all.sums (vs ++ v ∷ [])) (IsJoiningRefused vs v) }
        ensures quiet { IfErr result (λ e. e ≢ together.Query ReadRefusal.Fault) }
    {
        let sums = joined(self.sums, more.sums)?;
        Ok(Together { sums })
    }

    /// The width of the first archive's intervals, in seconds; 0 before the first.
    pub fn width(&self) -> u32
        ensures value { result ≡ width_of_sums self.now.sums }
        ensures views { (vs : List View) → AreSumsOf self.now.sums vs → result ≡ first_width vs }
    {
        match &self.sums {
            Some(sums) => sums.narrow.width(),
            None => 0,
        }
    }

    /// The rows of all archives that start from `from` on and before `to`, in the order of their keys, each the sums of
    /// all of them.
    pub fn rows(self, alloc: Global, from: u64, to: u64) -> Result<Vec<Row>, SumError>
        ensures made { MatchResult result (λ rows. rows.items ≡ rows_of_sums from to self.sums)
            (λ e. IsUnmade (OneTableFits self.sums) e) }
        ensures views { (vs : List View) → AreSumsOf self.sums vs
            → MatchResult result (λ rows. rows.items ≡ totals_in_views from to vs)
            (λ e. IsUnmade (BothFitTogether vs) e) }
    {
        rows_of(alloc, self.sums, from, to)
    }
}
