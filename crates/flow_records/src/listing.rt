//! The lines of a snapshot's records.

ghost use Rattle.std.specs.Prelude.{◌≡◌, ◌≤◌, List, length, slice_get, IfErr, IsTrue, OnErr, OnOk, Some};
ghost use Rattle.std.specs.Io.KnownBytes.{Appends};
ghost use Rattle.flow_disk.specs.Cause.{HasCause};
ghost use Rattle.flow_codec.specs.Raw.{Placed};
ghost use Rattle.flow_measure.specs.View.{View};
ghost use Rattle.flow_model.specs.Views.{IsViewOf};
ghost use Rattle.flow_report.specs.Writing.{AppendsFront};
ghost use Rattle.flow_snapshot.specs.Found.{kept_by_file, KeptFile};
ghost use Rattle.flow_records.specs.declared.refusal.RecordsRefusal.TheVariants.{Query};
ghost use Rattle.flow_records.specs.Listing.{records_lines, IsBlameless, StaysSo, TellsFrontOf, TellsFrontOfSome};
ghost use Rattle.flow_records.specs.Listing.{TellsOf, TellsOwn, TellsOwnOf, TellsSome, WritesOwnRecords};
ghost use Rattle.flow_records.specs.Listing.{WritesRecords, WritesSomeRecords};
ghost use Rattle.flow_records.specs.Records.{records_in_view, HaveOwnRecords};

use crate::active::tell_active;
use crate::chosen::ChosenRecords;
use crate::part::tell_segment;
use crate::refusal::RecordsRefusal;
use flow_columns::{LineFormat, ListLines};
use flow_disk::{Faults, SealedFile};
use flow_refusals::ReadRefusal;
use flow_snapshot::{KeptPart, Snapshot};
use std::alloc::Global;
use std::io::Write;

/// Lines on their way to a writer, and the records of the message that is read.
#[derive(Drop)]
pub(crate) struct Listing {
    pub(crate) chosen: ChosenRecords,
    pub(crate) lines: ListLines,
}

/// Takes the lines of one file's records, of flows that start within.
fn tell_file<S: SealedFile, W: Write>(
    alloc: Global,
    snapshot: &Snapshot<S>,
    at: u64,
    listing: &mut Listing,
    output: &mut W,
    faults: &mut Faults<S>,
) -> Result<(), RecordsRefusal>
    requires { at ≤ length snapshot.now.shelf.sealed }
    ensures same { StaysSo listing.old listing.new }
    ensures cause { HasCause (Query ReadRefusal.Fault) faults.old faults.new result }
    ensures all { OnOk result (TellsSome listing.old (W.contents output.old) (W.contents output.new) listing.new) }
    ensures some { OnErr result (TellsFrontOfSome listing.old (W.contents output.old) (W.contents output.new)) }
    ensures found { IsTrue snapshot.now.honest → (file : KeptFile)
        → slice_get (kept_by_file snapshot.now.shelf) at ≡ Some file
        → OnOk result (TellsOwn listing.old (W.contents output.old) (W.contents output.new) listing.new file) }
    ensures cut { IsTrue snapshot.now.honest → (file : KeptFile)
        → slice_get (kept_by_file snapshot.now.shelf) at ≡ Some file → (own : List Placed)
        → HaveOwnRecords listing.old.chosen.from listing.old.chosen.to file own
        → IfErr result (λ e. IsBlameless e
        × TellsFrontOf listing.old (W.contents output.old) (W.contents output.new) own) }
{
    match snapshot.kept_part(at) {
        KeptPart::Sealed(part) => tell_segment(alloc, part, listing, output, faults),
        KeptPart::Active(prefix, messages) => {
            tell_active(alloc, prefix, messages, listing, output)
        }
    }
}

/// Takes the lines of a snapshot's records of flows that start within, those of one file after the other.
fn tell_files<S: SealedFile, W: Write>(
    alloc: Global,
    snapshot: &Snapshot<S>,
    listing: &mut Listing,
    output: &mut W,
    faults: &mut Faults<S>,
) -> Result<(), RecordsRefusal>
    ensures cause { HasCause (Query ReadRefusal.Fault) faults.old faults.new result }
    ensures all { OnOk result (TellsSome listing.old (W.contents output.old) (W.contents output.new) listing.new) }
    ensures some { OnErr result (TellsFrontOfSome listing.old (W.contents output.old) (W.contents output.new)) }
    ensures found { IsTrue snapshot.now.honest → OnOk result (TellsOwnOf listing.old (W.contents output.old)
        (W.contents output.new) listing.new (kept_by_file snapshot.now.shelf)) }
    ensures told { IsTrue snapshot.now.honest → (v : View) → IsViewOf snapshot.now.shelf v
        → OnOk result (TellsOf listing.old (W.contents output.old) (W.contents output.new) listing.new
        (records_in_view listing.old.chosen.from listing.old.chosen.to v)) }
    ensures cut { IsTrue snapshot.now.honest → (v : View) → IsViewOf snapshot.now.shelf v
        → IfErr result (λ e. IsBlameless e
        × TellsFrontOf listing.old (W.contents output.old) (W.contents output.new)
        (records_in_view listing.old.chosen.from listing.old.chosen.to v)) }
{
    let files = snapshot.kept_files();
    for at in 0..files {
        tell_file(alloc, snapshot, at, listing, output, faults)?;
    }
    Ok(())
}

/// Writes the lines of a snapshot's data records whose flows start from `from` on and before `to`, both in seconds
/// since 1970-01-01 00:00 UTC, in the order in which they were taken in. Each file is read once, a piece at a time,
/// with nothing but its own prefix, and not at all where it is known that none of its flows start in the span.
///
/// Where a file that is read isn't what its archive wrote, it answers `Damaged`, with the file and the place; `Fault`
/// exactly where a read has raised `faults`; after an `Err` a prefix of the lines is written.
pub fn write_records<S: SealedFile, W: Write>(
    alloc: Global,
    snapshot: &Snapshot<S>,
    from: u64,
    to: u64,
    format: &LineFormat<'_>,
    output: &mut W,
    faults: &mut Faults<S>,
) -> Result<(), RecordsRefusal>
    ensures cause { HasCause (Query ReadRefusal.Fault) faults.old faults.new result }
    // On every disk: lines of some records whose flows start in the span, or a prefix of such lines.
    ensures all { OnOk result (WritesRecords format.now from to (W.contents output.old) (W.contents output.new)) }
    ensures some { OnErr result (WritesSomeRecords format.now from to (W.contents output.old) (W.contents output.new)) }
    // On honest ones, damaged or not, each file was read whole.
    ensures found { IsTrue snapshot.now.honest → OnOk result (WritesOwnRecords format.now from to
        (kept_by_file snapshot.now.shelf) (W.contents output.old) (W.contents output.new)) }
    // Of files with a view: the lines are those of the view, or a prefix of these, and no damage is reported.
    ensures told { IsTrue snapshot.now.honest → (v : View) → IsViewOf snapshot.now.shelf v
        → OnOk result (Appends (W.contents output.old) (W.contents output.new) (records_lines format.now from to v)) }
    ensures cut { IsTrue snapshot.now.honest → (v : View) → IsViewOf snapshot.now.shelf v
        → IfErr result (λ e. IsBlameless e
        × AppendsFront (W.contents output.old) (W.contents output.new) (records_lines format.now from to v)) }
{
    let lines = ListLines::new(alloc, format)?;
    let chosen = ChosenRecords::new(alloc, from, to);
    let mut listing = Listing { chosen, lines };
    tell_files(alloc, snapshot, &mut listing, output, faults)?;
    listing.lines.end(output)?;
    Ok(())
}
