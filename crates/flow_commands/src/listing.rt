//! The command `flows`.

ghost use Rattle.std.specs.Prelude.{◌≡◌, ◌≢◌, ◌≤◌, List, ℕ, Some, false, length, slice_get, IsTrue, OnOk, IfOk};
ghost use Rattle.std.specs.Prelude.{IfErr};
ghost use Rattle.std.specs.List.{flat_map};
ghost use Rattle.std.specs.Io.KnownBytes.{Appends};
ghost use Rattle.flow_disk.specs.Cause.{HasCause};
ghost use Rattle.flow_manifest.specs.Slots.{reads_of};
ghost use Rattle.flow_archive.specs.Beginning.{answer_of, disk_of};
ghost use Rattle.flow_model.specs.Standing.{StandsFor};
ghost use Rattle.flow_commands.specs.declared.archive_refusal.ArchiveRefusal.TheVariants as refusal;
ghost use Rattle.flow_commands.specs.Opened.{IsAsked, IsHandedOn, KeepsArchive, KeepsFiles};
ghost use Rattle.flow_commands.specs.Asking.{flows_lines, Always, AreFlows, AreFlowsIn, FlowsStartIn, IsBlameless};
ghost use Rattle.flow_commands.specs.Asking.{HasFront, HasSome, IsWhileAsking, TellsLines, TellsUpTo, Writes};
ghost use Rattle.flow_commands.specs.Asking.{WritesUpTo};
ghost use Rattle.flow_measure.specs.declared.flow.Flow.{Flow};
ghost use Rattle.flow_snapshot.specs.Answered.{IsAnswered};
ghost use Rattle.flow_snapshot.specs.Found.{kept_by_file, HaveOwnFlows, KeptFile};
ghost use Rattle.flow_measure.specs.Query.{flows_in_view};
ghost use Rattle.flow_measure.specs.View.{View};
ghost use Rattle.flow_model.specs.Views.{IsViewOf};
ghost use Rattle.flow_report.specs.ArchiveLines.{flow_line};
ghost use Rattle.flow_report.specs.Telling.{Tells, TellsFront};
ghost use Rattle.flow_report.specs.Writing.{AppendsFront};

use crate::archive_refusal::ArchiveRefusal;
use crate::asking::to_ask;
use crate::ending::ended;
use crate::plan::StartSpan;
use flow_archive::{Archive, Refused};
use flow_disk::{Disk, Faults, SealedFile};
use flow_folder::{FirstFault, Lockable};
use flow_folder_view::FolderView;
use flow_manifest::OpenError;
use flow_measure::Flow;
use flow_refusals::ReadRefusal;
use flow_report::{FlowLines, Format};
use flow_snapshot::Snapshot;
use std::alloc::{AllocGlobal, Global};
use std::fs::Files;
use std::io::Write;
use std::os::unix::fs::FileExt;

/// The flows of one file's kept messages that start in a span. Whatever the file is, no other one is among them. It
/// isn't read where it is known to have none.
fn flows_of_file<S: SealedFile>(
    alloc: Global,
    snapshot: &Snapshot<S>,
    at: u64,
    span: &StartSpan,
    faults: &mut Faults<S>,
) -> Result<Vec<Flow>, ReadRefusal>
    requires { at ≤ length snapshot.now.shelf.sealed }
    ensures cause { HasCause ReadRefusal.Fault faults.old faults.new result }
    ensures within { IfOk result (λ flows. FlowsStartIn span.now flows.items) }
    ensures given { IsTrue snapshot.now.honest → (file : KeptFile)
        → slice_get (kept_by_file snapshot.now.shelf) at ≡ Some file → (own : List Flow)
        → HaveOwnFlows span.now.from span.now.to file own → IsAnswered (λ flows. flows.items ≡ own) result }
{
    let (from, to) = (span.from(), span.to());
    let mut flows = snapshot.flows_of_file(alloc, at, from, to, faults)?;
    flows.retain(|flow| span.has(flow.start));
    Ok(flows)
}

/// Takes the lines of a snapshot's flows that start in a span, those of one file after the other: no more flows are
/// held than one file has. They go to the writer as they come. Files that are known to have none in the span aren't
/// read.
fn tell_kept<S: SealedFile, W: Write>(
    alloc: Global,
    snapshot: &Snapshot<S>,
    span: &StartSpan,
    lines: &mut FlowLines,
    output: &mut W,
    faults: &mut Faults<S>,
) -> Result<(), ArchiveRefusal>
    // On every disk: the lines of some flows of the span, or a prefix of such lines.
    ensures all { OnOk result (HasSome lines.old.format span.now (W.contents output.old) lines.old.held
        (W.contents output.new) lines.new.held) }
    ensures some { IfErr result (λ e. IsWhileAsking e × HasFront lines.old.format span.now (W.contents output.old)
        lines.old.held (W.contents output.new)) }
    // On honest ones: those of each view of the files, or a prefix of these, and no damage is reported.
    ensures told { IsTrue snapshot.now.honest → (v : View) → IsViewOf snapshot.now.shelf v
        → OnOk result (Tells (W.contents output.old) lines.old.held (W.contents output.new) lines.new.held
        (flat_map (flow_line lines.old.format) (flows_in_view span.now.from span.now.to v))) }
    ensures cut { IsTrue snapshot.now.honest → (v : View) → IsViewOf snapshot.now.shelf v
        → IfErr result (λ e. IsBlameless e × TellsFront (W.contents output.old) lines.old.held
        (W.contents output.new) (flat_map (flow_line lines.old.format)
        (flows_in_view span.now.from span.now.to v))) }
    ensures cause { HasCause (refusal.Query ReadRefusal.Fault) faults.old faults.new result }
{
    let files = snapshot.kept_files();
    for at in 0..files {
        let flows = flows_of_file(alloc, snapshot, at, span, faults)?;
        lines.put(output, flows.as_slice())?;
    }
    Ok(())
}

/// Writes the lines of a snapshot's flows that start in a span, with their heading.
fn write_kept<S: SealedFile, W: Write>(
    alloc: Global,
    snapshot: &Snapshot<S>,
    span: &StartSpan,
    format: Format,
    output: &mut W,
    faults: &mut Faults<S>,
) -> Result<(), ArchiveRefusal>
    // On every disk: the lines of some flows of the span, or a prefix of such lines.
    ensures written { OnOk result (Writes (AreFlowsIn format span.now) (W.contents output.old)
        (W.contents output.new)) }
    ensures some { IfErr result (λ e. IsWhileAsking e
        × WritesUpTo (AreFlowsIn format span.now) e (W.contents output.old) (W.contents output.new)) }
    // On honest ones: those of each view of the files, or a prefix of these, and no damage is reported.
    ensures told { IsTrue snapshot.now.honest → (v : View) → IsViewOf snapshot.now.shelf v
        → OnOk result (Appends (W.contents output.old) (W.contents output.new) (flows_lines format span.now v)) }
    ensures cut { IsTrue snapshot.now.honest → (v : View) → IsViewOf snapshot.now.shelf v
        → IfErr result (λ e. IsBlameless e
        × AppendsFront (W.contents output.old) (W.contents output.new) (flows_lines format span.now v)) }
    ensures cause { HasCause (refusal.Query ReadRefusal.Fault) faults.old faults.new result }
{
    let mut lines = FlowLines::new(alloc, format)?;
    tell_kept(alloc, snapshot, span, &mut lines, output, faults)?;
    lines.end(output)?;
    Ok(())
}

/// Writes the lines of an archive's flows.
fn list<D: Disk, W: Write>(
    alloc: Global,
    archive: &mut Archive<D>,
    span: &StartSpan,
    format: Format,
    output: &mut W,
    faults: &mut Faults<D::Sealed>,
) -> Result<(), ArchiveRefusal>
    ensures asked { IsAsked archive.old archive.new }
    ensures told { IsTrue (D.honest archive.old.disk) → (reads : ℕ → List ℕ) → StandsFor reads archive.old.state
        → OnOk result (TellsLines (flows_lines format span.now) reads (W.contents output.old)
        (W.contents output.new)) }
    ensures refused { IsTrue (D.honest archive.old.disk) → (reads : ℕ → List ℕ) → StandsFor reads archive.old.state
        → IfErr result (TellsUpTo (flows_lines format span.now) Always reads (W.contents output.old)
        (W.contents output.new)) }
    ensures written { OnOk result (Writes (AreFlowsIn format span.now) (W.contents output.old)
        (W.contents output.new)) }
    ensures kept { IfErr result
        (λ e. WritesUpTo (AreFlowsIn format span.now) e (W.contents output.old) (W.contents output.new)) }
    ensures opened { IfErr result (λ e. e ≢ refusal.Opening OpenError.Fault) }
    ensures cause { HasCause (refusal.Query ReadRefusal.Fault) faults.old faults.new result }
{
    let asked = to_ask(alloc, archive)?;
    write_kept(alloc, &asked.snapshot, span, format, output, faults)
}

/// Opens the archive on a disk, of which nothing is frozen, and writes the lines of the flows that aren't rolled and
/// start in a span: START DOMAIN PROTOCOL OCTETS PACKETS, in the order in which they were taken in. They are written
/// while the files are read, one after the other: a refusal of the opening comes before anything is written, and a
/// later one, a read that failed or out of memory, after a prefix of the lines. It hands the archive on, or gives the
/// disk back.
pub fn flows<D: Disk, W: Write>(
    alloc: Global,
    disk: D,
    span: &StartSpan,
    format: Format,
    output: &mut W,
    faults: &mut Faults<D::Sealed>,
) -> Result<Archive<D>, Refused<D, ArchiveRefusal>>
    requires { (n : ℕ) → (D.marks disk n).frozen ≡ false }
    // On an honest disk the lines are those of the one view of what was read, and no damage is reported once it is
    // open.
    ensures told { IsTrue (D.honest disk) → OnOk result
        (TellsLines (flows_lines format span.now) (reads_of (D.held disk)) (W.contents output.old)
        (W.contents output.new)) }
    ensures refused { IsTrue (D.honest disk) → IfErr result (λ r. TellsUpTo (flows_lines format span.now) Always
        (reads_of (D.held disk)) (W.contents output.old) (W.contents output.new) r.error) }
    // And whatever the disk:
    ensures written { OnOk result (Writes (AreFlowsIn format span.now) (W.contents output.old)
        (W.contents output.new)) }
    ensures kept { IfErr result
        (λ r. WritesUpTo (AreFlowsIn format span.now) r.error (W.contents output.old) (W.contents output.new)) }
    ensures honest { D.honest (disk_of result) ≡ D.honest disk }
    // A stop at any moment leaves what opens as the archive that was there, and that is the one that is handed on.
    ensures any_moment { KeepsArchive D.Disk disk (disk_of result) }
    ensures handed { IfOk result (IsHandedOn D.Disk disk) }
    // After an opening that is refused by 20 to 24 each file reads as before.
    ensures unchanged { IfErr result (λ r. KeepsFiles D.Disk disk r.disk r.error) }
    // It is a fault of opening exactly where a call of the disk failed, and one of asking exactly where a read failed.
    ensures opening { HasCause (refusal.Opening OpenError.Fault) (D.faults disk) (D.faults (disk_of result))
        (answer_of result) }
    ensures cause { HasCause (refusal.Query ReadRefusal.Fault) faults.old faults.new (answer_of result) }
{
    match Archive::open(alloc, disk) {
        Ok(archive) => {
            let mut archive = archive;
            match list(alloc, &mut archive, span, format, output, faults) {
                Ok(()) => Ok(archive),
                Err(error) => Err(Refused {
                    disk: archive.into_disk(),
                    error,
                }),
            }
        }
        Err(refused) => Err(Refused {
            disk: refused.disk,
            error: ArchiveRefusal::from(refused.error),
        }),
    }
}

/// Writes these lines of the archive on a disk, and lets the disk go.
fn write_flows<D: Disk, W: Write>(
    alloc: Global,
    disk: D,
    span: &StartSpan,
    format: Format,
    output: &mut W,
) -> Result<(), ArchiveRefusal>
    requires { (n : ℕ) → (D.marks disk n).frozen ≡ false }
    ensures within { OnOk result (Writes (AreFlowsIn format span.now) (W.contents output.old)
        (W.contents output.new)) }
    ensures kept_within { IfErr result
        (λ e. WritesUpTo (AreFlowsIn format span.now) e (W.contents output.old) (W.contents output.new)) }
{
    ended(flows(alloc, disk, span, format, output, &mut Faults::new()))
}

/// Asks the archive of a folder for its flows. Nothing of the folder is changed, and others may ask it meanwhile.
pub fn flows_in<H: Files + AllocGlobal + Clone + Drop, W: Write>(
    rt: &H,
    folder: &str,
    first_fault: &FirstFault,
    span: &StartSpan,
    format: Format,
    output: &mut W,
) -> Result<(), ArchiveRefusal>
where
    H::File: FileExt + Lockable,
    ensures within { OnOk result (Writes (AreFlowsIn format span.now) (W.contents output.old)
        (W.contents output.new)) }
    ensures kept_within { IfErr result
        (λ e. WritesUpTo (AreFlowsIn format span.now) e (W.contents output.old) (W.contents output.new)) }
    ensures written { OnOk result (Writes (AreFlows format) (W.contents output.old) (W.contents output.new)) }
    ensures kept { IfErr result (λ e. WritesUpTo (AreFlows format) e (W.contents output.old) (W.contents output.new)) }
{
    let view = FolderView::noting(rt, folder, first_fault)?;
    write_flows(rt.alloc(), view, span, format, output)
}
