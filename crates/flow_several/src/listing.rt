//! The flows of several archives.

ghost use Rattle.std.specs.Prelude.{◌≡◌, ◌≤◌, ℕ, List, Some, false, length, slice_get, IsTrue, IfOk, IfErr, OnOk};
ghost use Rattle.std.specs.Prelude.{IsOk, MatchResult};
ghost use Rattle.std.specs.Io.KnownBytes.{Appends};
ghost use Rattle.std.specs.List.{flat_map, All};
ghost use Rattle.flow_disk.specs.Cause.{HasCause};
ghost use Rattle.flow_manifest.specs.Slots.{reads_of};
ghost use Rattle.flow_measure.specs.declared.flow.Flow.{Flow};
ghost use Rattle.flow_measure.specs.Query.{flows_in_view};
ghost use Rattle.flow_measure.specs.View.{View};
ghost use Rattle.flow_model.specs.Standing.{StandsFor};
ghost use Rattle.flow_model.specs.Views.{IsViewOf};
ghost use Rattle.flow_report.specs.Writing.{AppendsFront};
ghost use Rattle.flow_snapshot.specs.Answered.{IsAnswered};
ghost use Rattle.flow_snapshot.specs.Found.{kept_by_file, HaveOwnFlows, KeptFile};
ghost use Rattle.flow_several.specs.declared.listing_refusal.ListingRefusal.TheVariants as refusal;
ghost use Rattle.flow_several.specs.Flows.{archive_flows, numbered_flow, starts_in, AreFlowsRead, AreFlowsRefused};
ghost use Rattle.flow_several.specs.Flows.{IsListedUpTo, IsNoBlame, IsWhileListed, Lists, ListsFront, ListsUpTo};
ghost use Rattle.flow_several.specs.Flows.{StartIn, WritesFlows, WritesFlowsOf, WritesLines, WritesLinesFront};
ghost use Rattle.flow_several.specs.Flows.{WritesSomeFlows};
ghost use Rattle.flow_several.specs.Several.{readings, HasReadCause, KeepsArchive};
ghost use Rattle.flow_several.specs.Turns.{IsOpened};

use crate::asked::Asking;
use crate::flow_lines::{write_flows, write_names};
use crate::in_turn::InTurn;
use crate::listing_refusal::ListingRefusal;
use crate::refusal::SeveralRefusal;
use flow_archive::{Archive, Refused};
use flow_disk::{Disk, Faults, SealedFile};
use flow_manifest::OpenError;
use flow_measure::Flow;
use flow_model::one_view_of_a_state;
use flow_refusals::ReadRefusal;
use flow_report::Format;
use flow_snapshot::Snapshot;
use std::alloc::{AllocError, Global};
use std::io::Write;
use std::thread::Threads;

/// What is listed of an archive: the flows that start from `from` on and before `to`, with its number.
#[derive(Clone, Copy)]
pub(crate) struct Listing {
    number: u64,
    from: u64,
    to: u64,
    format: Format,
}

impl Listing {
    ghost use Rattle.flow_several.specs.Flows.{starts_in};

    /// Whether a flow starts in the span.
    fn has(&self, flow: &Flow) -> bool
        ensures { result ≡ starts_in self.now.from self.now.to flow.now }
    {
        let start = u64::from(flow.start);
        self.from <= start && start < self.to
    }
}

/// The flows of one file's kept messages that start in a span. It isn't read where it is known to have none.
fn flows_of_file<S: SealedFile>(
    alloc: Global,
    snapshot: &Snapshot<S>,
    at: u64,
    listing: &Listing,
    faults: &mut Faults<S>,
) -> Result<Vec<Flow>, ReadRefusal>
    requires { at ≤ length snapshot.now.shelf.sealed }
    ensures cause { HasCause ReadRefusal.Fault faults.old faults.new result }
    ensures within { IfOk result (λ flows. StartIn listing.now.from listing.now.to flows.items) }
    ensures given { IsTrue snapshot.now.honest → (file : KeptFile)
        → slice_get (kept_by_file snapshot.now.shelf) at ≡ Some file → (own : List Flow)
        → HaveOwnFlows listing.now.from listing.now.to file own → IsAnswered (λ flows. flows.items ≡ own) result }
{
    let mut flows = snapshot.flows_of_file(alloc, at, listing.from, listing.to, faults)?;
    flows.retain(|flow| listing.has(flow));
    Ok(flows)
}

/// Writes the lines of a snapshot's flows that start in a span, those of one file after the other: no more flows are
/// held than one file has.
fn list_files<S: SealedFile, W: Write>(
    alloc: Global,
    snapshot: &Snapshot<S>,
    listing: &Listing,
    output: &mut W,
    faults: &mut Faults<S>,
) -> Result<(), ListingRefusal>
    // On every disk: the lines of some flows of the span, or a prefix of such lines.
    ensures all { OnOk result (WritesLines listing.now.format listing.now.number
        (StartIn listing.now.from listing.now.to) (W.contents output.old) (W.contents output.new)) }
    ensures some { IfErr result (λ e. IsWhileListed e × WritesLinesFront listing.now.format listing.now.number
        (StartIn listing.now.from listing.now.to) (W.contents output.old) (W.contents output.new)) }
    // On honest ones: those of each view of the files, or a prefix of these, and no damage is reported.
    ensures told { IsTrue snapshot.now.honest → (v : View) → IsViewOf snapshot.now.shelf v
        → OnOk result (Appends (W.contents output.old) (W.contents output.new)
        (flat_map (numbered_flow listing.now.format listing.now.number)
        (flows_in_view listing.now.from listing.now.to v))) }
    ensures cut { IsTrue snapshot.now.honest → (v : View) → IsViewOf snapshot.now.shelf v
        → IfErr result (λ e. IsNoBlame e × AppendsFront (W.contents output.old) (W.contents output.new)
        (flat_map (numbered_flow listing.now.format listing.now.number)
        (flows_in_view listing.now.from listing.now.to v))) }
    ensures cause { HasCause (refusal.Query ReadRefusal.Fault) faults.old faults.new result }
{
    let files = snapshot.kept_files();
    for at in 0..files {
        let flows = flows_of_file(alloc, snapshot, at, listing, faults)?;
        write_flows(
            alloc,
            flows.as_slice(),
            listing.format,
            listing.number,
            output,
        )?;
    }
    Ok(())
}

/// Writes the lines of a snapshot's flows, and before those of the first archive their heading.
fn list_snapshot<S: SealedFile, W: Write>(
    alloc: Global,
    snapshot: &Snapshot<S>,
    listing: &Listing,
    output: &mut W,
    faults: &mut Faults<S>,
) -> Result<(), ListingRefusal>
    ensures all { OnOk result (Lists listing.now.format listing.now.number
        (StartIn listing.now.from listing.now.to) (W.contents output.old) (W.contents output.new)) }
    ensures some { IfErr result (λ e. IsWhileListed e × ListsFront listing.now.format listing.now.number
        (StartIn listing.now.from listing.now.to) (W.contents output.old) (W.contents output.new)) }
    ensures told { IsTrue snapshot.now.honest → (v : View) → IsViewOf snapshot.now.shelf v
        → OnOk result (Appends (W.contents output.old) (W.contents output.new)
        (archive_flows listing.now.format listing.now.number (flows_in_view listing.now.from listing.now.to v))) }
    ensures cut { IsTrue snapshot.now.honest → (v : View) → IsViewOf snapshot.now.shelf v
        → IfErr result (λ e. IsNoBlame e × AppendsFront (W.contents output.old) (W.contents output.new)
        (archive_flows listing.now.format listing.now.number
        (flows_in_view listing.now.from listing.now.to v))) }
    ensures cause { HasCause (refusal.Query ReadRefusal.Fault) faults.old faults.new result }
{
    write_names(listing.format, listing.number, output)?;
    list_files(alloc, snapshot, listing, output, faults)
}

/// Writes the lines of an archive's flows.
fn list_archive<D: Disk, W: Write>(
    alloc: Global,
    archive: &mut Archive<D>,
    listing: &Listing,
    output: &mut W,
    faults: &mut Faults<D::Sealed>,
) -> Result<(), ListingRefusal>
    ensures disk { archive.new.disk ≡ archive.old.disk }
    ensures listed { IsTrue (D.honest archive.old.disk) → (reads : ℕ → List ℕ) → StandsFor reads archive.old.state
        → MatchResult result (λ _. Lists listing.now.format listing.now.number
        (AreFlowsRead listing.now.from listing.now.to reads) (W.contents output.old) (W.contents output.new))
        (IsListedUpTo listing.now.format listing.now.number listing.now.from listing.now.to reads
        (W.contents output.old) (W.contents output.new)) }
    ensures all { OnOk result (Lists listing.now.format listing.now.number
        (StartIn listing.now.from listing.now.to) (W.contents output.old) (W.contents output.new)) }
    ensures some { IfErr result (λ e. IsWhileListed e × ListsFront listing.now.format listing.now.number
        (StartIn listing.now.from listing.now.to) (W.contents output.old) (W.contents output.new)) }
    ensures cause { HasCause (refusal.Query ReadRefusal.Fault) faults.old faults.new result }
{
    one_view_of_a_state();
    let directory = archive.directory(alloc)?;
    let snapshot = directory.into_snapshot();
    list_snapshot(alloc, &snapshot, listing, output, faults)
}

/// Writes the lines of the flows of an archive that came of opening a disk, and gives the disk back.
fn list_opened<D: Disk, W: Write>(
    alloc: Global,
    opened: Result<Archive<D>, Refused<D, OpenError>>,
    listing: &Listing,
    output: &mut W,
    faults: &mut Faults<D::Sealed>,
) -> (D, Result<(), ListingRefusal>)
    ensures listed { (disk : D) → IsOpened D.Disk disk opened → IsTrue (D.honest disk) → MatchResult result.1
        (λ _. Lists listing.now.format listing.now.number
        (AreFlowsRead listing.now.from listing.now.to (reads_of (D.held disk))) (W.contents output.old)
        (W.contents output.new))
        (IsListedUpTo listing.now.format listing.now.number listing.now.from listing.now.to (reads_of (D.held disk))
        (W.contents output.old) (W.contents output.new)) }
    ensures all { OnOk result.1 (Lists listing.now.format listing.now.number
        (StartIn listing.now.from listing.now.to) (W.contents output.old) (W.contents output.new)) }
    ensures some { IfErr result.1 (ListsUpTo listing.now.format listing.now.number
        (StartIn listing.now.from listing.now.to) (W.contents output.old) (W.contents output.new)) }
    ensures honest { (disk : D) → IsOpened D.Disk disk opened → D.honest result.0 ≡ D.honest disk }
    // A stop at any moment since it was opened leaves what opens as the archive that was there.
    ensures any_moment { (disk : D) → IsOpened D.Disk disk opened → KeepsArchive D.Disk disk result.0 }
    // It is a fault of opening exactly where a call of the disk failed, and one of asking exactly where a read failed.
    ensures opening { (disk : D) → IsOpened D.Disk disk opened
        → HasCause (refusal.Opening OpenError.Fault) (D.faults disk) (D.faults result.0) result.1 }
    ensures cause { HasCause (refusal.Query ReadRefusal.Fault) faults.old faults.new result.1 }
{
    match opened {
        Ok(archive) => {
            let mut archive = archive;
            let listed = list_archive(alloc, &mut archive, listing, output, faults);
            (archive.into_disk(), listed)
        }
        Err(refused) => (refused.disk, Err(ListingRefusal::Opening(refused.error))),
    }
}

/// What is asked of each archive before its flows are: that it is opened.
#[derive(Clone, Copy)]
struct Opening {
    alloc: Global,
}

impl<D: Disk> Asking<D, Result<Archive<D>, Refused<D, OpenError>>> for Opening {
    ghost use Rattle.std.specs.Prelude.{◌≡◌, ℕ, false};
    ghost use Rattle.flow_several.specs.Turns.{IsOpened};

    ghost may_ask = { λ opening disk. (n : ℕ) → (D.marks disk n).frozen ≡ false };

    ghost answers = { λ opening disk opened. IsOpened D.Disk disk opened };

    fn ask(&self, disk: D) -> Result<Archive<D>, Refused<D, OpenError>> {
        Archive::open(self.alloc, disk)
    }
}

/// Writes the lines of the flows of an archive that came of opening a disk, unless memory ran out for that.
fn list_answer<D: Disk, W: Write>(
    alloc: Global,
    answer: Result<Result<Archive<D>, Refused<D, OpenError>>, AllocError>,
    listing: &Listing,
    output: &mut W,
    faults: &mut Faults<D::Sealed>,
) -> Result<(), ListingRefusal>
    ensures listed { (disk : D) → IfOk answer (IsOpened D.Disk disk) → IsTrue (D.honest disk) → MatchResult result
        (λ _. Lists listing.now.format listing.now.number
        (AreFlowsRead listing.now.from listing.now.to (reads_of (D.held disk))) (W.contents output.old)
        (W.contents output.new))
        (IsListedUpTo listing.now.format listing.now.number listing.now.from listing.now.to (reads_of (D.held disk))
        (W.contents output.old) (W.contents output.new)) }
    ensures done { OnOk result (IsOk answer) }
    ensures all { OnOk result (Lists listing.now.format listing.now.number
        (StartIn listing.now.from listing.now.to) (W.contents output.old) (W.contents output.new)) }
    ensures some { IfErr result (ListsUpTo listing.now.format listing.now.number
        (StartIn listing.now.from listing.now.to) (W.contents output.old) (W.contents output.new)) }
    ensures cause { HasCause (refusal.Query ReadRefusal.Fault) faults.old faults.new result }
{
    match answer {
        Ok(opened) => {
            let (_disk, listed) = list_opened(alloc, opened, listing, output, faults);
            listed
        }
        Err(_) => Err(ListingRefusal::Opening(OpenError::OutOfMemory)),
    }
}

/// Opens the archives on these disks, of which nothing is frozen, and writes the lines of the flows of each that aren't
/// rolled and start from `from` on and before `to`, one archive after the other: as `flows` writes them, with the
/// number of the archive before the others, from 1 on. In CSV the names of the values are the first line. As many
/// archives as there are processors, at most 64, are opened at once, each in a thread of its own where one can be made;
/// their lines are written while their files are read. It ends with the first archive that can't be opened, or whose
/// flows can't all be read, which is named, after the lines of those before it and a prefix of its own.
pub fn flows_of_each<D: Disk + Send, R: Threads + Sync, W: Write>(
    rt: &R,
    alloc: Global,
    disks: Vec<D>,
    from: u64,
    to: u64,
    format: Format,
    output: &mut W,
    faults: &mut Faults<D::Sealed>,
) -> Result<(), SeveralRefusal>
where
    D::Sealed: Send + Sync,
    requires { All (λ d. (n : ℕ) → (D.marks d n).frozen ≡ false) disks.items }
    // On honest disks the lines are those of what was read of each, and of one that is open no damage is reported.
    ensures flows { All (λ d. IsTrue (D.honest d)) disks.items → OnOk result
        (WritesFlows format from to (readings D.Disk disks.items) (W.contents output.old) (W.contents output.new)) }
    ensures refused { All (λ d. IsTrue (D.honest d)) disks.items → IfErr result
        (AreFlowsRefused format from to (readings D.Disk disks.items) (W.contents output.old)
        (W.contents output.new)) }
    // And whatever the disks:
    ensures written { OnOk result
        (WritesFlowsOf format from to (length disks.items) (W.contents output.old) (W.contents output.new)) }
    ensures kept { IfErr result (WritesSomeFlows format from to (W.contents output.old) (W.contents output.new)) }
    // It is a fault of asking exactly where a read of an archive's file failed.
    ensures cause { HasReadCause faults.old faults.new result }
{
    let opening = Opening { alloc };
    let mut archives = InTurn::of(alloc, disks);
    let mut place: u64 = 0;
    'answers: while let Some(answer) = archives.next(rt, &opening) {
        let listing = Listing {
            number: place + 1,
            from,
            to,
            format,
        };
        match list_answer(alloc, answer, &listing, output, faults) {
            Ok(()) => {}
            Err(error) => return Err(error.numbered(place + 1)),
        }
        place += 1;
    }
    Ok(())
}
