//! An archive that is opened, asked for its messages, and given back.

ghost use Rattle.std.specs.Prelude.{◌≡◌, ℕ, false, IsTrue, List, OnOk, IfErr};
ghost use Rattle.flow_disk.specs.Cause.{HasCause};
ghost use Rattle.flow_export.specs.Export.{AreTemplates, Writes};
ghost use Rattle.flow_export.specs.declared.archive_refusal.ArchiveExportRefusal.TheVariants as refusal;
ghost use Rattle.flow_export.specs.Asked.{cut_in, last_in, AreTemplatesOf, AreUnexported, AreUnwritten};
ghost use Rattle.flow_export.specs.Asked.{ExportsIn, IsCountedExport, IsCutIn, IsExportOfSome, IsExportRead};
ghost use Rattle.flow_export.specs.Asked.{IsNoFault, IsOfAsking, IsSpanExport, KeepsArchive};
ghost use Rattle.flow_export.specs.Asked.{TemplatesIn, WritesOrNot, WritesUpTo};
ghost use Rattle.flow_manifest.specs.Slots.{reads_of};
ghost use Rattle.flow_measure.specs.View.{View};
ghost use Rattle.flow_model.specs.Shelved.{shelf_of};
ghost use Rattle.flow_model.specs.Standing.{StandsFor};
ghost use Rattle.flow_model.specs.Views.{IsViewOf};

use crate::archive_refusal::ArchiveExportRefusal;
use crate::exporting::write_messages;
use crate::restating::write_templates;
use crate::span::{MessageSpan, last_before};
use flow_archive::Archive;
use flow_disk::{Disk, Faults, SealedFile};
use flow_folder::{FirstFault, Lockable};
use flow_folder_view::FolderView;
use flow_manifest::OpenError;
use flow_model::one_view_of_a_state;
use flow_refusals::ReadRefusal;
use flow_snapshot::Snapshot;
use std::alloc::{AllocGlobal, Global};
use std::fs::Files;
use std::io::Write;
use std::os::unix::fs::FileExt;

/// Writes the messages that restate what an archive passes on.
fn ask_templates<D: Disk, W: Write>(
    alloc: Global,
    archive: &mut Archive<D>,
    output: &mut W,
    faults: &mut Faults<D::Sealed>,
) -> Result<(), ArchiveExportRefusal>
    ensures disk { archive.new.disk ≡ archive.old.disk }
    ensures exact { IsTrue (D.honest archive.old.disk) → (reads : ℕ → List ℕ) → StandsFor reads archive.old.state
        → OnOk result (Writes (AreTemplatesOf reads) (W.contents output.old) (W.contents output.new)) }
    ensures refused { IsTrue (D.honest archive.old.disk) → (reads : ℕ → List ℕ) → StandsFor reads archive.old.state
        → IfErr result (AreUnwritten reads (W.contents output.old) (W.contents output.new)) }
    ensures written { OnOk result (Writes AreTemplates (W.contents output.old) (W.contents output.new)) }
    ensures some { IfErr result (WritesOrNot AreTemplates (W.contents output.old) (W.contents output.new)) }
    ensures asking { IfErr result IsOfAsking }
    ensures cause { HasCause (refusal.Query ReadRefusal.Fault) faults.old faults.new result }
{
    one_view_of_a_state();
    let directory = archive.directory(alloc)?;
    let snapshot = directory.into_snapshot();
    write_templates(alloc, &snapshot, output, faults)?;
    Ok(())
}

/// Opens the archive on a disk, of which nothing is frozen, and writes the templates in force after its last message,
/// as messages that restate them: those that its next segment would begin with. It gives the disk back.
pub fn templates<D: Disk, W: Write>(
    alloc: Global,
    disk: D,
    output: &mut W,
    faults: &mut Faults<D::Sealed>,
) -> (D, Result<(), ArchiveExportRefusal>)
    requires { (n : ℕ) → (D.marks disk n).frozen ≡ false }
    // On an honest disk: just what the archive that was read passes on; no damage is reported once it is open.
    ensures exact { IsTrue (D.honest disk) → OnOk result.1 (Writes (AreTemplatesOf (reads_of (D.held disk)))
        (W.contents output.old) (W.contents output.new)) }
    ensures refused { IsTrue (D.honest disk) → IfErr result.1
        (AreUnwritten (reads_of (D.held disk)) (W.contents output.old) (W.contents output.new)) }
    // And whatever the disk:
    ensures written { OnOk result.1 (Writes AreTemplates (W.contents output.old) (W.contents output.new)) }
    ensures some { IfErr result.1 (WritesOrNot AreTemplates (W.contents output.old) (W.contents output.new)) }
    ensures honest { D.honest result.0 ≡ D.honest disk }
    // A stop at any moment leaves what opens as the archive that was there.
    ensures any_moment { KeepsArchive D.Disk disk result.0 }
    // It is a fault of opening exactly where a call of the disk failed, and one of asking exactly where a read failed.
    ensures opening { HasCause (refusal.Opening OpenError.Fault) (D.faults disk) (D.faults result.0) result.1 }
    ensures cause { HasCause (refusal.Query ReadRefusal.Fault) faults.old faults.new result.1 }
{
    match Archive::open(alloc, disk) {
        Ok(archive) => {
            let mut archive = archive;
            let asked = ask_templates(alloc, &mut archive, output, faults);
            (archive.into_disk(), asked)
        }
        Err(refused) => (refused.disk, Err(ArchiveExportRefusal::from(refused.error))),
    }
}

/// The same, of a disk that nobody asks for more.
fn templates_alone<D: Disk, W: Write>(
    alloc: Global,
    disk: D,
    output: &mut W,
) -> Result<(), ArchiveExportRefusal>
    requires { (n : ℕ) → (D.marks disk n).frozen ≡ false }
    ensures asked { TemplatesIn D.Disk (W.contents output.old) (W.contents output.new) result }
    ensures written { OnOk result (Writes AreTemplates (W.contents output.old) (W.contents output.new)) }
    ensures some { IfErr result (WritesOrNot AreTemplates (W.contents output.old) (W.contents output.new)) }
{
    let faults = &mut Faults::new();
    let (_disk, asked) = templates(alloc, disk, output, faults);
    asked
}

/// Asks the archive of a folder for the templates in force. Nothing of the folder is changed, and others may ask it
/// meanwhile.
pub fn templates_in<'a, H: Files + AllocGlobal + Clone + Drop, W: Write>(
    rt: &'a H,
    folder: &'a str,
    first_fault: &'a FirstFault,
    output: &mut W,
) -> Result<(), ArchiveExportRefusal>
where
    H::File: FileExt + Lockable,
    ensures asked { TemplatesIn ⟦<FolderView<'a, H> as Disk>⟧ (W.contents output.old) (W.contents output.new) result }
    ensures written { OnOk result (Writes AreTemplates (W.contents output.old) (W.contents output.new)) }
    ensures some { IfErr result (WritesOrNot AreTemplates (W.contents output.old) (W.contents output.new)) }
{
    let view = FolderView::noting(rt, folder, first_fault)?;
    templates_alone(rt.alloc(), view, output)
}

/// Writes messages of a snapshot, after those that restate the templates in force before them.
fn write_span<S: SealedFile, W: Write>(
    alloc: Global,
    snapshot: &Snapshot<S>,
    span: &MessageSpan,
    output: &mut W,
    faults: &mut Faults<S>,
) -> Result<(), ArchiveExportRefusal>
    ensures exact { IsTrue snapshot.now.honest → OnOk result
        (Writes (IsSpanExport snapshot.now.shelf span.now) (W.contents output.old) (W.contents output.new)) }
    ensures cut { IsTrue snapshot.now.honest → IfErr result (WritesUpTo (IsSpanExport snapshot.now.shelf span.now)
        span.now (W.contents output.old) (W.contents output.new)) }
    ensures rolled { IfErr result (IsCutIn snapshot.now.shelf) }
    ensures blameless { IsTrue snapshot.now.honest → (v : View) → IsViewOf snapshot.now.shelf v
        → IfErr result IsNoFault }
    ensures written { OnOk result (Writes (IsCountedExport (cut_in snapshot.now.shelf) (last_in snapshot.now.shelf)
        span.now) (W.contents output.old) (W.contents output.new)) }
    ensures some { IfErr result (WritesUpTo (IsCountedExport (cut_in snapshot.now.shelf) (last_in snapshot.now.shelf)
        span.now) span.now (W.contents output.old) (W.contents output.new)) }
    ensures asking { IfErr result IsOfAsking }
    ensures cause { HasCause (refusal.Query ReadRefusal.Fault) faults.old faults.new result }
{
    let cut = snapshot.cut();
    match last_before(span, cut) {
        Some(before) => {
            let most = span.to.saturating_sub(before);
            write_messages(alloc, snapshot, before - cut, most, output, faults)?;
            Ok(())
        }
        None => Err(ArchiveExportRefusal::Rolled(cut)),
    }
}

/// The same of an archive.
fn ask_messages<D: Disk, W: Write>(
    alloc: Global,
    archive: &mut Archive<D>,
    span: &MessageSpan,
    output: &mut W,
    faults: &mut Faults<D::Sealed>,
) -> Result<(), ArchiveExportRefusal>
    ensures disk { archive.new.disk ≡ archive.old.disk }
    ensures exact { IsTrue (D.honest archive.old.disk) → (reads : ℕ → List ℕ) → StandsFor reads archive.old.state
        → OnOk result (Writes (IsExportRead reads span.now) (W.contents output.old) (W.contents output.new)) }
    ensures refused { IsTrue (D.honest archive.old.disk) → (reads : ℕ → List ℕ) → StandsFor reads archive.old.state
        → IfErr result (AreUnexported reads span.now (W.contents output.old) (W.contents output.new)) }
    // On every disk as many as the counts of the archive's files say.
    ensures written { OnOk result (Writes (IsCountedExport (cut_in (shelf_of archive.old.state))
        (last_in (shelf_of archive.old.state)) span.now) (W.contents output.old) (W.contents output.new)) }
    ensures some { IfErr result (WritesUpTo (IsCountedExport (cut_in (shelf_of archive.old.state))
        (last_in (shelf_of archive.old.state)) span.now) span.now (W.contents output.old) (W.contents output.new)) }
    ensures asking { IfErr result IsOfAsking }
    ensures cause { HasCause (refusal.Query ReadRefusal.Fault) faults.old faults.new result }
{
    one_view_of_a_state();
    let directory = archive.directory(alloc)?;
    let snapshot = directory.into_snapshot();
    write_span(alloc, &snapshot, span, output, faults)
}

/// Opens the archive on a disk, of which nothing is frozen, and writes the messages that are asked for, octet for
/// octet, after messages that restate the templates in force before the first of them. They are written while the
/// files are read, one after the other: a refusal of the opening, or of messages that are in sums alone, comes before
/// anything is written, and a later one, a read that failed or out of memory, after a prefix. It gives the disk back.
pub fn export<D: Disk, W: Write>(
    alloc: Global,
    disk: D,
    span: &MessageSpan,
    output: &mut W,
    faults: &mut Faults<D::Sealed>,
) -> (D, Result<(), ArchiveExportRefusal>)
    requires { (n : ℕ) → (D.marks disk n).frozen ≡ false }
    // On an honest disk: just what is asked for of what was read. That messages are in sums alone is answered exactly
    // where such ones are asked for, and no damage is reported once it is open.
    ensures exact { IsTrue (D.honest disk) → OnOk result.1 (Writes (IsExportRead (reads_of (D.held disk)) span.now)
        (W.contents output.old) (W.contents output.new)) }
    ensures refused { IsTrue (D.honest disk) → IfErr result.1
        (AreUnexported (reads_of (D.held disk)) span.now (W.contents output.old) (W.contents output.new)) }
    // And whatever the disk: messages that restate some templates, and then one for each number that is asked for and
    // is there, each whole; or a prefix of such octets, or nothing.
    ensures written { OnOk result.1 (Writes (IsExportOfSome span.now) (W.contents output.old) (W.contents output.new)) }
    ensures some { IfErr result.1 (WritesUpTo (IsExportOfSome span.now) span.now (W.contents output.old)
        (W.contents output.new)) }
    ensures honest { D.honest result.0 ≡ D.honest disk }
    // A stop at any moment leaves what opens as the archive that was there.
    ensures any_moment { KeepsArchive D.Disk disk result.0 }
    // It is a fault of opening exactly where a call of the disk failed, and one of asking exactly where a read failed.
    ensures opening { HasCause (refusal.Opening OpenError.Fault) (D.faults disk) (D.faults result.0) result.1 }
    ensures cause { HasCause (refusal.Query ReadRefusal.Fault) faults.old faults.new result.1 }
{
    match Archive::open(alloc, disk) {
        Ok(archive) => {
            let mut archive = archive;
            let asked = ask_messages(alloc, &mut archive, span, output, faults);
            (archive.into_disk(), asked)
        }
        Err(refused) => (refused.disk, Err(ArchiveExportRefusal::from(refused.error))),
    }
}

/// The same, of a disk that nobody asks for more.
fn export_alone<D: Disk, W: Write>(
    alloc: Global,
    disk: D,
    span: &MessageSpan,
    output: &mut W,
) -> Result<(), ArchiveExportRefusal>
    requires { (n : ℕ) → (D.marks disk n).frozen ≡ false }
    ensures asked { ExportsIn D.Disk span.now (W.contents output.old) (W.contents output.new) result }
    ensures written { OnOk result (Writes (IsExportOfSome span.now) (W.contents output.old) (W.contents output.new)) }
    ensures some { IfErr result (WritesUpTo (IsExportOfSome span.now) span.now (W.contents output.old)
        (W.contents output.new)) }
{
    let faults = &mut Faults::new();
    let (_disk, asked) = export(alloc, disk, span, output, faults);
    asked
}

/// Asks the archive of a folder for messages. Nothing of the folder is changed, and others may ask it meanwhile.
pub fn export_in<'a, H: Files + AllocGlobal + Clone + Drop, W: Write>(
    rt: &'a H,
    folder: &'a str,
    first_fault: &'a FirstFault,
    span: &MessageSpan,
    output: &mut W,
) -> Result<(), ArchiveExportRefusal>
where
    H::File: FileExt + Lockable,
    ensures asked { ExportsIn ⟦<FolderView<'a, H> as Disk>⟧ span.now (W.contents output.old) (W.contents output.new)
        result }
    ensures written { OnOk result (Writes (IsExportOfSome span.now) (W.contents output.old) (W.contents output.new)) }
    ensures some { IfErr result (WritesUpTo (IsExportOfSome span.now) span.now (W.contents output.old)
        (W.contents output.new)) }
{
    let view = FolderView::noting(rt, folder, first_fault)?;
    export_alone(rt.alloc(), view, span, output)
}
