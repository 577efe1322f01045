//! The command `records`.

ghost use Rattle.std.specs.Prelude.{◌≡◌, ◌≢◌, ℕ, List, false, IfErr, IfOk, IsTrue, OnOk};
ghost use Rattle.std.specs.Io.KnownBytes.{Appends};
ghost use Rattle.flow_archive.specs.Beginning.{answer_of, disk_of};
ghost use Rattle.flow_commands.specs.declared.archive_refusal.ArchiveRefusal.TheVariants as refusal;
ghost use Rattle.flow_commands.specs.Asking.{Always, IsBlameless, IsWhileAsking, TellsLines, TellsUpTo, Writes};
ghost use Rattle.flow_commands.specs.Asking.{WritesUpTo};
ghost use Rattle.flow_commands.specs.Rolling.{done_of};
ghost use Rattle.flow_commands.specs.Opened.{IsAsked, IsHandedOn, KeepsArchive, KeepsFiles};
ghost use Rattle.flow_disk.specs.Cause.{HasCause};
ghost use Rattle.flow_records.specs.Listing.{records_lines, AreRecordsIn};
ghost use Rattle.flow_manifest.specs.Slots.{reads_of};
ghost use Rattle.flow_measure.specs.View.{View};
ghost use Rattle.flow_model.specs.Standing.{StandsFor};
ghost use Rattle.flow_model.specs.Views.{IsViewOf};
ghost use Rattle.flow_records.specs.Refused.{of_records};
ghost use Rattle.flow_report.specs.Writing.{AppendsFront};

use crate::listing::write_records;
use crate::refusal::RecordsRefusal;
use flow_archive::{Archive, Refused};
use flow_columns::LineFormat;
use flow_commands::{ArchiveRefusal, StartSpan, ended, to_ask};
use flow_disk::{Disk, Faults, SealedFile};
use flow_folder::{FirstFault, Lockable};
use flow_folder_view::FolderView;
use flow_manifest::OpenError;
use flow_refusals::ReadRefusal;
use flow_snapshot::Snapshot;
use std::alloc::{AllocGlobal, Global};
use std::fs::Files;
use std::io::Write;
use std::os::unix::fs::FileExt;

/// Why the command ended.
fn refusal_of(refusal: RecordsRefusal) -> ArchiveRefusal
    ensures { result ≡ of_records refusal }
{
    match refusal {
        RecordsRefusal::Query(error) => ArchiveRefusal::from(error),
        RecordsRefusal::Text(error) => ArchiveRefusal::from(error),
    }
}

/// Writes the lines of a snapshot's records.
fn write_asked<S: SealedFile, W: Write>(
    alloc: Global,
    snapshot: &Snapshot<S>,
    span: &StartSpan,
    format: &LineFormat<'_>,
    output: &mut W,
    faults: &mut Faults<S>,
) -> Result<(), ArchiveRefusal>
    // On every disk: the lines of some records of the span, or a prefix of such lines.
    ensures written { OnOk result (Writes (AreRecordsIn format.now span.now.from span.now.to) (W.contents output.old)
        (W.contents output.new)) }
    ensures some { IfErr result (λ e. IsWhileAsking e × WritesUpTo (AreRecordsIn format.now span.now.from span.now.to) e
        (W.contents output.old) (W.contents output.new)) }
    // On honest ones: those of each view of the files, or a prefix of these, and no damage is reported.
    ensures told { IsTrue snapshot.now.honest → (v : View) → IsViewOf snapshot.now.shelf v
        → OnOk result (Appends (W.contents output.old) (W.contents output.new)
        (records_lines format.now span.now.from span.now.to v)) }
    ensures cut { IsTrue snapshot.now.honest → (v : View) → IsViewOf snapshot.now.shelf v
        → IfErr result (λ e. IsBlameless e × AppendsFront (W.contents output.old) (W.contents output.new)
        (records_lines format.now span.now.from span.now.to v)) }
    ensures cause { HasCause (refusal.Query ReadRefusal.Fault) faults.old faults.new result }
{
    match write_records(
        alloc,
        snapshot,
        span.from(),
        span.to(),
        format,
        output,
        faults,
    ) {
        Ok(()) => Ok(()),
        Err(refusal) => Err(refusal_of(refusal)),
    }
}

/// Writes the lines of an archive's records.
fn list<D: Disk, W: Write>(
    alloc: Global,
    archive: &mut Archive<D>,
    span: &StartSpan,
    format: &LineFormat<'_>,
    output: &mut W,
    faults: &mut Faults<D::Sealed>,
) -> Result<(), ArchiveRefusal>
    ensures asked { IsAsked archive.old archive.new }
    ensures told { IsTrue (D.honest archive.old.disk) → (reads : ℕ → List ℕ) → StandsFor reads archive.old.state
        → OnOk result (TellsLines (records_lines format.now span.now.from span.now.to) reads (W.contents output.old)
        (W.contents output.new)) }
    ensures refused { IsTrue (D.honest archive.old.disk) → (reads : ℕ → List ℕ) → StandsFor reads archive.old.state
        → IfErr result (TellsUpTo (records_lines format.now span.now.from span.now.to) Always reads
        (W.contents output.old) (W.contents output.new)) }
    ensures written { OnOk result (Writes (AreRecordsIn format.now span.now.from span.now.to) (W.contents output.old)
        (W.contents output.new)) }
    ensures kept { IfErr result
        (λ e. WritesUpTo (AreRecordsIn format.now span.now.from span.now.to) e (W.contents output.old)
        (W.contents output.new)) }
    ensures opened { IfErr result (λ e. e ≢ refusal.Opening OpenError.Fault) }
    ensures cause { HasCause (refusal.Query ReadRefusal.Fault) faults.old faults.new result }
{
    let asked = to_ask(alloc, archive)?;
    write_asked(alloc, &asked.snapshot, span, format, output, faults)
}

/// Opens the archive on a disk, of which nothing is frozen, and writes the lines of the data records that aren't
/// rolled and whose flows start in a span, in the order in which they were taken in. They are written
/// while the files are read, one after the other: a refusal of the opening comes before anything is written, and a
/// later one, a read that failed or out of memory, after a prefix of the lines. It hands the archive on, or gives the
/// disk back.
pub fn records<D: Disk, W: Write>(
    alloc: Global,
    disk: D,
    span: &StartSpan,
    format: &LineFormat<'_>,
    output: &mut W,
    faults: &mut Faults<D::Sealed>,
) -> Result<Archive<D>, Refused<D, ArchiveRefusal>>
    requires { (n : ℕ) → (D.marks disk n).frozen ≡ false }
    // On an honest disk the lines are those of the one view of what was read, and no damage is reported once it is
    // open.
    ensures told { IsTrue (D.honest disk) → OnOk result
        (TellsLines (records_lines format.now span.now.from span.now.to) (reads_of (D.held disk))
        (W.contents output.old) (W.contents output.new)) }
    ensures refused { IsTrue (D.honest disk) → IfErr result
        (λ r. TellsUpTo (records_lines format.now span.now.from span.now.to) Always (reads_of (D.held disk))
        (W.contents output.old) (W.contents output.new) r.error) }
    // And whatever the disk:
    ensures written { OnOk result (Writes (AreRecordsIn format.now span.now.from span.now.to) (W.contents output.old)
        (W.contents output.new)) }
    ensures kept { IfErr result
        (λ r. WritesUpTo (AreRecordsIn format.now span.now.from span.now.to) r.error (W.contents output.old)
        (W.contents output.new)) }
    ensures honest { D.honest (disk_of result) ≡ D.honest disk }
    // A stop at any moment leaves what opens as the archive that was there, and that is the one that is handed on.
    ensures any_moment { KeepsArchive D.Disk disk (disk_of result) }
    ensures handed { IfOk result (IsHandedOn D.Disk disk) }
    // After an opening that is refused by 20 to 24 each file reads as before.
    ensures unchanged { IfErr result (λ r. KeepsFiles D.Disk disk r.disk r.error) }
    // It is a fault of opening exactly where a call of the disk failed, and one of asking exactly where a read failed.
    ensures opening { HasCause (refusal.Opening OpenError.Fault) (D.faults disk) (D.faults (disk_of result))
        (answer_of result) }
    ensures cause { HasCause (refusal.Query ReadRefusal.Fault) faults.old faults.new (answer_of result) }
{
    match Archive::open(alloc, disk) {
        Ok(archive) => {
            let mut archive = archive;
            match list(alloc, &mut archive, span, format, output, faults) {
                Ok(()) => Ok(archive),
                Err(error) => Err(Refused {
                    disk: archive.into_disk(),
                    error,
                }),
            }
        }
        Err(refused) => Err(Refused {
            disk: refused.disk,
            error: ArchiveRefusal::from(refused.error),
        }),
    }
}

/// Writes these lines of the archive on a disk, and lets the disk go.
fn write_listing<D: Disk, W: Write>(
    alloc: Global,
    disk: D,
    span: &StartSpan,
    format: &LineFormat<'_>,
    output: &mut W,
) -> Result<(), ArchiveRefusal>
    requires { (n : ℕ) → (D.marks disk n).frozen ≡ false }
    ensures written { OnOk result (Writes (AreRecordsIn format.now span.now.from span.now.to) (W.contents output.old)
        (W.contents output.new)) }
    ensures kept { IfErr result
        (λ e. WritesUpTo (AreRecordsIn format.now span.now.from span.now.to) e (W.contents output.old)
        (W.contents output.new)) }
{
    ended(records(alloc, disk, span, format, output, &mut Faults::new()))
}

/// Asks the archive of a folder for its records. Nothing of the folder is changed, and others may ask it meanwhile.
pub fn records_in<H: Files + AllocGlobal + Clone + Drop, W: Write>(
    rt: &H,
    folder: &str,
    first_fault: &FirstFault,
    span: &StartSpan,
    format: &LineFormat<'_>,
    output: &mut W,
) -> Result<(), ArchiveRefusal>
where
    H::File: FileExt + Lockable,
    ensures written { OnOk result (Writes (AreRecordsIn format.now span.now.from span.now.to) (W.contents output.old)
        (W.contents output.new)) }
    ensures kept { IfErr result
        (λ e. WritesUpTo (AreRecordsIn format.now span.now.from span.now.to) e (W.contents output.old)
        (W.contents output.new)) }
{
    let view = FolderView::noting(rt, folder, first_fault)?;
    write_listing(rt.alloc(), view, span, format, output)
}
