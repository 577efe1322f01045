//! An archive that is opened, asked for the messages of a span of time, and given back.

ghost use Rattle.std.specs.Prelude.{◌≡◌, ℕ, false, IsTrue, List, OnOk, IfErr};
ghost use Rattle.flow_disk.specs.Cause.{HasCause};
ghost use Rattle.flow_export.specs.Export.{Writes};
ghost use Rattle.flow_export.specs.Span.{IsSomeSpanExport};
ghost use Rattle.flow_export.specs.declared.archive_refusal.ArchiveExportRefusal.TheVariants as refusal;
ghost use Rattle.flow_export.specs.Asked.{IsOfAsking, KeepsArchive};
ghost use Rattle.flow_export.specs.ByTime.{ExportsByTimeIn, IsTimeExport, IsTimeExportRead, IsTimeRefusal};
ghost use Rattle.flow_export.specs.ByTime.{IsUnexportedByTime, WritesByTime};
ghost use Rattle.flow_manifest.specs.Slots.{reads_of};
ghost use Rattle.flow_measure.specs.View.{View};
ghost use Rattle.flow_model.specs.Standing.{StandsFor};
ghost use Rattle.flow_model.specs.Views.{IsViewOf};

use crate::archive_refusal::ArchiveExportRefusal;
use crate::laws::exported_spans;
use crate::selecting::write_span;
use crate::starting::TimeSpan;
use crate::summed::meets_sums;
use flow_archive::Archive;
use flow_disk::{Disk, Faults, SealedFile};
use flow_folder::{FirstFault, Lockable};
use flow_folder_view::FolderView;
use flow_manifest::OpenError;
use flow_model::one_view_of_a_state;
use flow_refusals::ReadRefusal;
use flow_snapshot::Snapshot;
use std::alloc::{AllocGlobal, Global};
use std::fs::Files;
use std::io::Write;
use std::os::unix::fs::FileExt;

/// Writes the messages of a snapshot that have a flow of a span, after those that restate the templates in force before
/// them; and nothing where messages that are in sums alone may have one.
fn write_by_time<S: SealedFile, W: Write>(
    alloc: Global,
    snapshot: &Snapshot<S>,
    span: TimeSpan,
    output: &mut W,
    faults: &mut Faults<S>,
) -> Result<(), ArchiveExportRefusal>
    ensures exact { IsTrue snapshot.now.honest → (v : View) → IsViewOf snapshot.now.shelf v → OnOk result
        (Writes (IsTimeExport snapshot.now.shelf v span) (W.contents output.old) (W.contents output.new)) }
    ensures refused { IsTrue snapshot.now.honest → (v : View) → IsViewOf snapshot.now.shelf v → IfErr result
        (IsTimeRefusal snapshot.now.shelf v span (W.contents output.old) (W.contents output.new)) }
    ensures written { OnOk result (Writes (IsSomeSpanExport span.from span.to) (W.contents output.old)
        (W.contents output.new)) }
    ensures some { IfErr result (WritesByTime span (W.contents output.old) (W.contents output.new)) }
    ensures asking { IfErr result IsOfAsking }
    ensures cause { HasCause (refusal.Query ReadRefusal.Fault) faults.old faults.new result }
{
    if meets_sums(alloc, snapshot, span, faults)? {
        return Err(ArchiveExportRefusal::Rolled(snapshot.cut()));
    }
    write_span(alloc, snapshot, span, output, faults)?;
    Ok(())
}

/// The same of an archive.
fn ask_by_time<D: Disk, W: Write>(
    alloc: Global,
    archive: &mut Archive<D>,
    span: TimeSpan,
    output: &mut W,
    faults: &mut Faults<D::Sealed>,
) -> Result<(), ArchiveExportRefusal>
    ensures disk { archive.new.disk ≡ archive.old.disk }
    ensures exact { IsTrue (D.honest archive.old.disk) → (reads : ℕ → List ℕ) → StandsFor reads archive.old.state
        → OnOk result (Writes (IsTimeExportRead reads span) (W.contents output.old) (W.contents output.new)) }
    ensures refused { IsTrue (D.honest archive.old.disk) → (reads : ℕ → List ℕ) → StandsFor reads archive.old.state
        → IfErr result (IsUnexportedByTime reads span (W.contents output.old) (W.contents output.new)) }
    ensures written { OnOk result (Writes (IsSomeSpanExport span.from span.to) (W.contents output.old)
        (W.contents output.new)) }
    ensures some { IfErr result (WritesByTime span (W.contents output.old) (W.contents output.new)) }
    ensures asking { IfErr result IsOfAsking }
    ensures cause { HasCause (refusal.Query ReadRefusal.Fault) faults.old faults.new result }
{
    one_view_of_a_state();
    exported_spans();
    let directory = archive.directory(alloc)?;
    let snapshot = directory.into_snapshot();
    write_by_time(alloc, &snapshot, span, output, faults)
}

/// Opens the archive on a disk, of which nothing is frozen, and writes the messages of which some flow starts in a span
/// of time, and between them those that define templates, octet for octet, after messages that restate the templates in
/// force before the first of them. Where messages that are in sums alone may have a flow of the span that is refused,
/// before anything is written; another refusal comes as one of `export` does. It gives the disk back.
pub fn export_by_time<D: Disk, W: Write>(
    alloc: Global,
    disk: D,
    span: TimeSpan,
    output: &mut W,
    faults: &mut Faults<D::Sealed>,
) -> (D, Result<(), ArchiveExportRefusal>)
    requires { (n : ℕ) → (D.marks disk n).frozen ≡ false }
    // On an honest disk: just what is asked for of what was read. That messages are in sums alone is answered exactly
    // where some of them may have flows of the span.
    ensures exact { IsTrue (D.honest disk) → OnOk result.1 (Writes (IsTimeExportRead (reads_of (D.held disk)) span)
        (W.contents output.old) (W.contents output.new)) }
    ensures refused { IsTrue (D.honest disk) → IfErr result.1
        (IsUnexportedByTime (reads_of (D.held disk)) span (W.contents output.old) (W.contents output.new)) }
    // And whatever the disk: messages that restate some templates, and then whole messages, each of which holds Sets of
    // template records, or has a flow of the span under some templates; or a prefix of such octets, or nothing.
    ensures written { OnOk result.1 (Writes (IsSomeSpanExport span.from span.to) (W.contents output.old)
        (W.contents output.new)) }
    ensures some { IfErr result.1 (WritesByTime span (W.contents output.old) (W.contents output.new)) }
    ensures honest { D.honest result.0 ≡ D.honest disk }
    // A stop at any moment leaves what opens as the archive that was there.
    ensures any_moment { KeepsArchive D.Disk disk result.0 }
    // It is a fault of opening exactly where a call of the disk failed, and one of asking exactly where a read failed.
    ensures opening { HasCause (refusal.Opening OpenError.Fault) (D.faults disk) (D.faults result.0) result.1 }
    ensures cause { HasCause (refusal.Query ReadRefusal.Fault) faults.old faults.new result.1 }
{
    match Archive::open(alloc, disk) {
        Ok(archive) => {
            let mut archive = archive;
            let asked = ask_by_time(alloc, &mut archive, span, output, faults);
            (archive.into_disk(), asked)
        }
        Err(refused) => (refused.disk, Err(ArchiveExportRefusal::from(refused.error))),
    }
}

/// The same, of a disk that nobody asks for more.
fn by_time_alone<D: Disk, W: Write>(
    alloc: Global,
    disk: D,
    span: TimeSpan,
    output: &mut W,
) -> Result<(), ArchiveExportRefusal>
    requires { (n : ℕ) → (D.marks disk n).frozen ≡ false }
    ensures asked { ExportsByTimeIn D.Disk span (W.contents output.old) (W.contents output.new) result }
    ensures written { OnOk result (Writes (IsSomeSpanExport span.from span.to) (W.contents output.old)
        (W.contents output.new)) }
    ensures some { IfErr result (WritesByTime span (W.contents output.old) (W.contents output.new)) }
{
    let faults = &mut Faults::new();
    let (_disk, asked) = export_by_time(alloc, disk, span, output, faults);
    asked
}

/// Asks the archive of a folder for the messages of a span of time. Nothing of the folder is changed, and others may
/// ask it meanwhile.
pub fn export_by_time_in<'a, H: Files + AllocGlobal + Clone + Drop, W: Write>(
    rt: &'a H,
    folder: &'a str,
    first_fault: &'a FirstFault,
    span: TimeSpan,
    output: &mut W,
) -> Result<(), ArchiveExportRefusal>
where
    H::File: FileExt + Lockable,
    ensures asked { ExportsByTimeIn ⟦<FolderView<'a, H> as Disk>⟧ span (W.contents output.old) (W.contents output.new)
        result }
    ensures written { OnOk result (Writes (IsSomeSpanExport span.from span.to) (W.contents output.old)
        (W.contents output.new)) }
    ensures some { IfErr result (WritesByTime span (W.contents output.old) (W.contents output.new)) }
{
    let view = FolderView::noting(rt, folder, first_fault)?;
    by_time_alone(rt.alloc(), view, span, output)
}
