//! The command `totals`.

ghost use Rattle.std.specs.Prelude.{◌≡◌, ◌≢◌, List, ℕ, false, filter, IsTrue, OnOk, IfOk, IfErr};
ghost use Rattle.flow_disk.specs.Cause.{HasCause};
ghost use Rattle.flow_manifest.specs.Slots.{reads_of};
ghost use Rattle.flow_archive.specs.Beginning.{answer_of, disk_of};
ghost use Rattle.flow_model.specs.Standing.{StandsFor};
ghost use Rattle.flow_measure.specs.History.{History, IsHistory};
ghost use Rattle.flow_measure.specs.Query.{totals_between, totals_in_view};
ghost use Rattle.flow_measure.specs.View.{view_of, AreCountsOf, View};
ghost use Rattle.flow_snapshot.specs.Answered.{IsAnswered};
ghost use Rattle.flow_snapshot.specs.Totals.{first_file, IsMade, IsWithinHistoryLimits, SumsFit};
ghost use Rattle.flow_model.specs.Views.{IsViewOf};
ghost use Rattle.flow_commands.specs.declared.archive_refusal.ArchiveRefusal.TheVariants as refusal;
ghost use Rattle.flow_commands.specs.Opened.{IsAsked, IsHandedOn, KeepsArchive, KeepsFiles};
ghost use Rattle.flow_commands.specs.Asking.{AreLinesOf, AreReadRows, AreRows, AreRowsIn, IsBeforeWriting};
ghost use Rattle.flow_commands.specs.Asking.{IsNotFound};
ghost use Rattle.flow_commands.specs.Asking.{RowsStartIn, TellsLines, TellsNoLines};
ghost use Rattle.flow_commands.specs.Asking.{Writes, WritesOrNot, totals_lines};
ghost use Rattle.flow_commands.specs.Plans.{is_in};
ghost use Rattle.flow_report.specs.declared.format.Format.{Format};
ghost use Rattle.flow_report.specs.ArchiveLines.{rows_text};

use crate::archive_refusal::ArchiveRefusal;
use crate::asking::to_ask;
use crate::ending::ended;
use crate::plan::{StartSpan, Workers};
use flow_archive::{Archive, Refused};
use flow_disk::{Disk, Faults, SealedFile};
use flow_folder::{FirstFault, Lockable};
use flow_folder_view::FolderView;
use flow_manifest::OpenError;
use flow_measure::Row;
use flow_refusals::ReadRefusal;
use flow_report::{Format, write_rows};
use flow_roller::{Open, scan_by_parts};
use flow_snapshot::Snapshot;
use std::alloc::{AllocGlobal, Global};
use std::fs::Files;
use std::io::Write;
use std::os::unix::fs::FileExt;
use std::thread::Threads;

/// The rows that an archive answers, and the width of its intervals.
#[derive(Drop)]
struct FoundRows {
    rows: Vec<Row>,
    /// In seconds.
    width: u32,
}

/// The rows that start in a span.
fn rows_in(rows: Vec<Row>, span: &StartSpan) -> Vec<Row>
    ensures { result.items ≡ filter (λ row. is_in span.now row.key.start) rows.items }
{
    let mut rows = rows;
    rows.retain(|row| span.has(row.key.start));
    rows
}

/// What a snapshot answers to `totals`, by so many workers. Where one of them is refused, it is asked once more by one
/// thread, so that what is answered doesn't depend on how many there are.
fn scan_rows<S: SealedFile + Send + Sync, H: Threads + Sync>(
    rt: &H,
    alloc: Global,
    snapshot: &Snapshot<S>,
    span: &StartSpan,
    workers: &Workers,
    faults: &mut Faults<S>,
) -> Result<Vec<Row>, ReadRefusal>
    ensures cause { HasCause ReadRefusal.Fault faults.old faults.new result }
    // On honest disks, also where files are damaged: the totals of all files, each of which was read whole.
    ensures found { IsTrue snapshot.now.honest
        → IfOk result (λ rows. AreReadRows snapshot.now.shelf span.now rows.items) }
    // What is answered by each view of the files; where its sums fit their types none is damaged.
    ensures given { IsTrue snapshot.now.honest → (v : View) → IsViewOf snapshot.now.shelf v
        → IsMade (first_file snapshot.now.shelf) (SumsFit v)
        (λ rows. rows.items ≡ totals_in_view span.now.from span.now.to v) result }
    // Where the view is that of a history within the limits: its totals, and never damage.
    ensures answered { IsTrue snapshot.now.honest → (h : History) (counts : List ℕ) → IsHistory h
        → AreCountsOf h counts → IsWithinHistoryLimits h → IsViewOf snapshot.now.shelf (view_of h counts)
        → IsAnswered (λ rows. rows.items ≡ totals_between span.now.from span.now.to h) result }
{
    let (from, to) = (span.from(), span.to());
    let count = workers.count();
    let mut own = Faults::new();
    if let Ok(rows) = scan_by_parts(snapshot, rt, alloc, &Open, count, from, to, &mut own) {
        return Ok(rows);
    }
    snapshot.totals(alloc, from, to, faults)
}

/// What a snapshot answers to `totals`, by so many workers. Whatever its files are, no row starts outside the span.
pub fn ask_rows<S: SealedFile + Send + Sync, H: Threads + Sync>(
    rt: &H,
    alloc: Global,
    snapshot: &Snapshot<S>,
    span: &StartSpan,
    workers: &Workers,
    faults: &mut Faults<S>,
) -> Result<Vec<Row>, ReadRefusal>
    ensures cause { HasCause ReadRefusal.Fault faults.old faults.new result }
    ensures within { IfOk result (λ rows. RowsStartIn span.now rows.items) }
    // On honest disks, also where files are damaged: the totals of all files, each of which was read whole.
    ensures found { IsTrue snapshot.now.honest
        → IfOk result (λ rows. AreReadRows snapshot.now.shelf span.now rows.items) }
    // What is answered by each view of the files; where its sums fit their types none is damaged.
    ensures given { IsTrue snapshot.now.honest → (v : View) → IsViewOf snapshot.now.shelf v
        → IsMade (first_file snapshot.now.shelf) (SumsFit v)
        (λ rows. rows.items ≡ totals_in_view span.now.from span.now.to v) result }
    // Where the view is that of a history within the limits: its totals, and never damage.
    ensures answered { IsTrue snapshot.now.honest → (h : History) (counts : List ℕ) → IsHistory h
        → AreCountsOf h counts → IsWithinHistoryLimits h → IsViewOf snapshot.now.shelf (view_of h counts)
        → IsAnswered (λ rows. rows.items ≡ totals_between span.now.from span.now.to h) result }
{
    match scan_rows(rt, alloc, snapshot, span, workers, faults) {
        Ok(rows) => Ok(rows_in(rows, span)),
        Err(error) => Err(error),
    }
}

/// Asks an archive for its sums, by so many workers.
fn find_rows<D: Disk, H: Threads + Sync>(
    rt: &H,
    alloc: Global,
    archive: &mut Archive<D>,
    span: &StartSpan,
    workers: &Workers,
    faults: &mut Faults<D::Sealed>,
) -> Result<FoundRows, ArchiveRefusal>
where
    D::Sealed: Send + Sync,
    ensures asked { IsAsked archive.old archive.new }
    ensures lines { IsTrue (D.honest archive.old.disk) → (reads : ℕ → List ℕ) → StandsFor reads archive.old.state
        → IfOk result (λ found. (format : Format) → AreLinesOf (totals_lines format span.now) reads
        (rows_text format found.width found.rows.items)) }
    ensures refused { IsTrue (D.honest archive.old.disk) → (reads : ℕ → List ℕ) → StandsFor reads archive.old.state
        → IfErr result (IsNotFound SumsFit reads) }
    ensures within { IfOk result (λ found. RowsStartIn span.now found.rows.items) }
    ensures unwritten { IfErr result (λ e. IsBeforeWriting e) }
    ensures opened { IfErr result (λ e. e ≢ refusal.Opening OpenError.Fault) }
    ensures cause { HasCause (refusal.Query ReadRefusal.Fault) faults.old faults.new result }
{
    let asked = to_ask(alloc, archive)?;
    let rows = ask_rows(rt, alloc, &asked.snapshot, span, workers, faults)?;
    Ok(FoundRows {
        rows,
        width: asked.width,
    })
}

/// Writes the lines of an archive's sums.
fn total<D: Disk, H: Threads + Sync, W: Write>(
    rt: &H,
    alloc: Global,
    archive: &mut Archive<D>,
    span: &StartSpan,
    workers: &Workers,
    format: Format,
    output: &mut W,
    faults: &mut Faults<D::Sealed>,
) -> Result<(), ArchiveRefusal>
where
    D::Sealed: Send + Sync,
    ensures asked { IsAsked archive.old archive.new }
    ensures told { IsTrue (D.honest archive.old.disk) → (reads : ℕ → List ℕ) → StandsFor reads archive.old.state
        → OnOk result (TellsLines (totals_lines format span.now) reads (W.contents output.old)
        (W.contents output.new)) }
    ensures refused { IsTrue (D.honest archive.old.disk) → (reads : ℕ → List ℕ) → StandsFor reads archive.old.state
        → IfErr result (TellsNoLines (totals_lines format span.now) SumsFit reads (W.contents output.old)
        (W.contents output.new)) }
    ensures written { OnOk result (Writes (AreRowsIn format span.now) (W.contents output.old) (W.contents output.new)) }
    ensures kept { IfErr result
        (λ e. WritesOrNot (AreRowsIn format span.now) e (W.contents output.old) (W.contents output.new)) }
    ensures opened { IfErr result (λ e. e ≢ refusal.Opening OpenError.Fault) }
    ensures cause { HasCause (refusal.Query ReadRefusal.Fault) faults.old faults.new result }
{
    let found = find_rows(rt, alloc, archive, span, workers, faults)?;
    write_rows(alloc, found.rows.as_slice(), found.width, format, output)?;
    Ok(())
}

/// Opens the archive on a disk, of which nothing is frozen, and writes the totals lines of the intervals that start in
/// a span: START DOMAIN PROTOCOL FLOWS OCTETS PACKETS, and of a row over wide intervals their width after them; in CSV
/// and JSON each row has its width. So many workers scan it, each a thread where one can be made. It hands the archive
/// on, or gives the disk back.
pub fn totals<D: Disk, H: Threads + Sync, W: Write>(
    rt: &H,
    alloc: Global,
    disk: D,
    span: &StartSpan,
    workers: &Workers,
    format: Format,
    output: &mut W,
    faults: &mut Faults<D::Sealed>,
) -> Result<Archive<D>, Refused<D, ArchiveRefusal>>
where
    D::Sealed: Send + Sync,
    requires { (n : ℕ) → (D.marks disk n).frozen ≡ false }
    // On an honest disk the lines are those of the one view of what was read.
    ensures told { IsTrue (D.honest disk) → OnOk result
        (TellsLines (totals_lines format span.now) (reads_of (D.held disk)) (W.contents output.old)
        (W.contents output.new)) }
    ensures refused { IsTrue (D.honest disk) → IfErr result (λ r. TellsNoLines (totals_lines format span.now) SumsFit
        (reads_of (D.held disk)) (W.contents output.old) (W.contents output.new) r.error) }
    // And whatever the disk:
    ensures written { OnOk result (Writes (AreRowsIn format span.now) (W.contents output.old) (W.contents output.new)) }
    ensures kept { IfErr result
        (λ r. WritesOrNot (AreRowsIn format span.now) r.error (W.contents output.old) (W.contents output.new)) }
    ensures honest { D.honest (disk_of result) ≡ D.honest disk }
    // A stop at any moment leaves what opens as the archive that was there, and that is the one that is handed on.
    ensures any_moment { KeepsArchive D.Disk disk (disk_of result) }
    ensures handed { IfOk result (IsHandedOn D.Disk disk) }
    // After an opening that is refused by 20 to 24 each file reads as before.
    ensures unchanged { IfErr result (λ r. KeepsFiles D.Disk disk r.disk r.error) }
    // It is a fault of opening exactly where a call of the disk failed, and one of asking exactly where a read failed.
    ensures opening { HasCause (refusal.Opening OpenError.Fault) (D.faults disk) (D.faults (disk_of result))
        (answer_of result) }
    ensures cause { HasCause (refusal.Query ReadRefusal.Fault) faults.old faults.new (answer_of result) }
{
    match Archive::open(alloc, disk) {
        Ok(archive) => {
            let mut archive = archive;
            match total(
                rt,
                alloc,
                &mut archive,
                span,
                workers,
                format,
                output,
                faults,
            ) {
                Ok(()) => Ok(archive),
                Err(error) => Err(Refused {
                    disk: archive.into_disk(),
                    error,
                }),
            }
        }
        Err(refused) => Err(Refused {
            disk: refused.disk,
            error: ArchiveRefusal::from(refused.error),
        }),
    }
}

/// Writes these lines of the archive on a disk, and lets the disk go.
fn write_sums<H: AllocGlobal + Threads + Sync, D: Disk, W: Write>(
    rt: &H,
    disk: D,
    span: &StartSpan,
    workers: &Workers,
    format: Format,
    output: &mut W,
) -> Result<(), ArchiveRefusal>
where
    D::Sealed: Send + Sync,
    requires { (n : ℕ) → (D.marks disk n).frozen ≡ false }
    ensures within { OnOk result (Writes (AreRowsIn format span.now) (W.contents output.old)
        (W.contents output.new)) }
    ensures kept_within { IfErr result
        (λ e. WritesOrNot (AreRowsIn format span.now) e (W.contents output.old) (W.contents output.new)) }
{
    ended(totals(
        rt,
        rt.alloc(),
        disk,
        span,
        workers,
        format,
        output,
        &mut Faults::new(),
    ))
}

/// Asks the archive of a folder for its sums, by so many workers, or as many as there are processors. Nothing of the
/// folder is changed, and others may ask it meanwhile.
pub fn totals_in<H: Files + AllocGlobal + Clone + Drop + Threads + Send + Sync, W: Write>(
    rt: &H,
    folder: &str,
    first_fault: &FirstFault,
    span: &StartSpan,
    workers: Option<&Workers>,
    format: Format,
    output: &mut W,
) -> Result<(), ArchiveRefusal>
where
    H::File: FileExt + Lockable + Send + Sync,
    H::Dir: Send + Sync,
    ensures within { OnOk result (Writes (AreRowsIn format span.now) (W.contents output.old)
        (W.contents output.new)) }
    ensures kept_within { IfErr result
        (λ e. WritesOrNot (AreRowsIn format span.now) e (W.contents output.old) (W.contents output.new)) }
    ensures written { OnOk result (Writes (AreRows format) (W.contents output.old) (W.contents output.new)) }
    ensures kept { IfErr result (λ e. WritesOrNot (AreRows format) e (W.contents output.old) (W.contents output.new)) }
{
    let view = FolderView::noting(rt, folder, first_fault)?;
    let workers = Workers::given_or_usual(rt, workers);
    write_sums(rt, view, span, &workers, format, output)
}
