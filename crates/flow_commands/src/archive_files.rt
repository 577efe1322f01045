//! The command `check --files`.

ghost use Rattle.std.specs.Prelude.{◌≡◌, ◌≢◌, ◌++◌, ◌+◌, ◌<◌, ◌^◌, List, ℕ, length, false, IsTrue, OnOk, IfOk, IfErr};
ghost use Rattle.std.specs.Prelude.{IfSome};
ghost use Rattle.std.specs.FinMap.{FinMap};
ghost use Rattle.std.specs.List.{flat_map};
ghost use Rattle.flow_commands.specs.declared.archive_files.FileLine.{FileLine};
ghost use Rattle.flow_disk.specs.Cause.{HasCause};
ghost use Rattle.flow_manifest.specs.Slots.{reads_of};
ghost use Rattle.flow_measure.specs.declared.rows.Sums.{Sums};
ghost use Rattle.flow_measure.specs.Sums.{key_cmp};
ghost use Rattle.flow_archive.specs.Beginning.{answer_of, disk_of};
ghost use Rattle.flow_model.specs.Standing.{StandsFor};
ghost use Rattle.flow_snapshot.specs.Shares.{AllPartsFit, AreNarrow, AreWide};
ghost use Rattle.flow_snapshot.specs.Totals.{first_file, IsMade, SumsFit};
ghost use Rattle.flow_commands.specs.declared.archive_refusal.ArchiveRefusal.TheVariants as refusal;
ghost use Rattle.flow_commands.specs.ArchiveFiles.{AreFileLines, AreListings, ListsFiles, ListsNoFiles};
ghost use Rattle.flow_commands.specs.ArchiveFiles.{file_line, kind_word, line_of, lines_of, starts_in, starts_of};
ghost use Rattle.flow_commands.specs.ArchiveFiles.{starts_of_file, starts_of_span, starts_words};
ghost use Rattle.flow_commands.specs.Asking.{IsBeforeWriting, IsNotFound, Writes, WritesOrNot};
ghost use Rattle.flow_commands.specs.Archives.{of_query};
ghost use Rattle.flow_commands.specs.Opened.{IsAsked, IsHandedOn, KeepsArchive, KeepsFiles};
ghost use Rattle.flow_commands.specs.Check.{standing_of};

use crate::archive_refusal::ArchiveRefusal;
use crate::checking::Standing;
use crate::ending::ended;
use flow_archive::{Archive, Refused};
use flow_disk::{Disk, Faults, SealedFile};
use flow_folder::{FirstFault, Lockable};
use flow_folder_view::FolderView;
use flow_manifest::{Entry, Kind, OpenError};
use flow_measure::{PartSpan, Row, Rows, interval_of};
use flow_model::one_view_of_a_state;
use flow_refusals::ReadRefusal;
use flow_report::{Patience, push_count, write_patiently};
use flow_snapshot::{KeptPart, PartSums, Snapshot};
use std::alloc::{AllocError, AllocGlobal, Global};
use std::fs::Files;
use std::io::Write;
use std::os::unix::fs::FileExt;

/// After each start.
const AFTER_ALL: u64 = 1 << 32;

/// When the flows of a file start.
#[derive(Clone, Copy)]
struct Starts {
    /// The start of the first interval, in seconds.
    first: u32,
    /// The start of the last one.
    last: u32,
}

/// A file of an archive, as it is listed.
#[derive(Clone, Copy)]
struct FileLine {
    kind: Kind,
    /// The file's number.
    file: u64,
    /// How many of its octets count.
    octets: u64,
    /// How many messages it has, or has the sums of.
    messages: u64,
    /// None where it has no flows.
    starts: Option<Starts>,
}

/// The starts of the first and of the last interval of rows.
fn starts_of(rows: &[Row]) -> Option<Starts>
    ensures { result ≡ starts_of rows.now }
{
    let [row, others @ ..] = rows else {
        return None;
    };
    let first = row.key.start;
    let mut last = first;
    for other in others {
        last = other.key.start;
    }
    Some(Starts { first, last })
}

/// The starts of a file's flows, by its sums over wide intervals, else over those of the width.
fn starts_in(alloc: Global, sums: &PartSums) -> Result<Option<Starts>, AllocError>
    ensures { IfOk result (λ starts. starts ≡ starts_in sums.now.wide sums.now.narrow) }
{
    let wide = sums.wide.in_span(alloc, 0, AFTER_ALL)?;
    if let Some(starts) = starts_of(wide.as_slice()) {
        return Ok(Some(starts));
    }
    let narrow = sums.narrow.in_span(alloc, 0, AFTER_ALL)?;
    Ok(starts_of(narrow.as_slice()))
}

/// The starts of the first and of the last interval of flows with this span.
fn starts_of_span(span: PartSpan, width: u32) -> Option<Starts>
    requires { 0 < width }
    ensures { result ≡ starts_of_span width span }
{
    if span.last < span.first {
        return None;
    }
    Some(Starts {
        first: interval_of(span.first, width),
        last: interval_of(span.last, width),
    })
}

/// The word of a kind.
fn kind_word(kind: Kind) -> &'static str
    ensures { result.now ≡ kind_word kind }
{
    match kind {
        Kind::Wide => "wide",
        Kind::Rolled => "rolled",
        Kind::Sealed => "sealed",
        Kind::Active => "active",
    }
}

/// Two starts, or two lines where there are none.
fn push_starts(text: &mut Vec<u8>, starts: Option<Starts>) -> Result<(), AllocError>
    ensures { OnOk result (text.new.items ≡ text.old.items ++ starts_words starts) }
{
    let Some(starts) = starts else {
        return text.extend_from_slice(" - -".as_bytes());
    };
    push_count(text, u64::from(starts.first))?;
    push_count(text, u64::from(starts.last))
}

/// Adds the line of a file: KIND FILE OCTETS MESSAGES FIRST LAST.
#[tactic(auto, unfolding(crate::specs::ArchiveFiles::file_line))]
fn push_line(text: &mut Vec<u8>, line: &FileLine) -> Result<(), AllocError>
    ensures { OnOk result (text.new.items ≡ text.old.items ++ file_line line.now) }
{
    text.extend_from_slice(kind_word(line.kind).as_bytes())?;
    push_count(text, line.file)?;
    push_count(text, line.octets)?;
    push_count(text, line.messages)?;
    push_starts(text, line.starts)?;
    text.push(b'\n')?;
    Ok(())
}

/// What is listed of an entry: of the active segment so many octets and messages as there are now.
fn line_of(end: u64, active: u64, entry: &Entry, starts: Option<Starts>) -> FileLine
    ensures { result ≡ line_of end active entry.now starts }
{
    let (octets, messages) = match entry.kind {
        Kind::Active => (end, active),
        _ => (entry.length, entry.messages),
    };
    FileLine {
        kind: entry.kind,
        file: entry.file,
        octets,
        messages,
        starts,
    }
}

/// The starts of the flows of the file with this number, of so many, where they are known without reading it: those of
/// a sealed segment whose span is known.
fn known_starts<S: SealedFile>(
    snapshot: &Snapshot<S>,
    width: u32,
    count: u32,
    number: u32,
) -> Option<Option<Starts>>
    requires count { number < count }
    requires some { 0 < width }
    requires width { width ≡ snapshot.now.shelf.width }
    ensures { IsTrue snapshot.now.honest → (wide narrow : List (FinMap key_cmp Sums))
        → AreWide snapshot.now.shelf wide → AreNarrow snapshot.now.shelf narrow
        → IfSome result (λ starts. starts ≡ starts_of_file snapshot.now.shelf count wide narrow number) }
{
    let summed = snapshot.summed_files();
    let number = u64::from(number);
    // The files with numbers are those of the snapshot.
    if number < summed || u64::from(count) != summed.saturating_add(snapshot.kept_files()) {
        return None;
    }
    match snapshot.kept_part(number - summed) {
        KeptPart::Sealed(part) => {
            let span = part.span?;
            Some(starts_of_span(span, width))
        }
        KeptPart::Active(_prefix, _messages) => None,
    }
}

/// The starts of the flows of the file with this number, of so many. It isn't read where they are known.
fn starts_of_file<S: SealedFile>(
    alloc: Global,
    snapshot: &Snapshot<S>,
    width: u32,
    count: u32,
    number: u32,
    faults: &mut Faults<S>,
) -> Result<Option<Starts>, ReadRefusal>
    requires count { number < count }
    requires some { 0 < width }
    requires width { width ≡ snapshot.now.shelf.width }
    ensures cause { HasCause ReadRefusal.Fault faults.old faults.new result }
    ensures given { IsTrue snapshot.now.honest → (wide narrow : List (FinMap key_cmp Sums))
        → AreWide snapshot.now.shelf wide → AreNarrow snapshot.now.shelf narrow
        → IsMade (first_file snapshot.now.shelf) (AllPartsFit snapshot.now.shelf wide narrow)
        (λ starts. starts ≡ starts_of_file snapshot.now.shelf count wide narrow number) result }
{
    if let Some(starts) = known_starts(snapshot, width, count, number) {
        return Ok(starts);
    }
    let first = snapshot.first_file();
    let sums = snapshot.share(alloc, first, count, number, faults)?;
    Ok(starts_in(alloc, &sums)?)
}

/// Adds a line for each file.
fn push_files<S: SealedFile>(
    alloc: Global,
    snapshot: &Snapshot<S>,
    width: u32,
    end: u64,
    active: u64,
    entries: &[Entry],
    text: &mut Vec<u8>,
    faults: &mut Faults<S>,
) -> Result<(), ReadRefusal>
    requires count { length entries.now < 2 ^ 32 }
    requires some { 0 < width }
    requires width { width ≡ snapshot.now.shelf.width }
    ensures cause { HasCause ReadRefusal.Fault faults.old faults.new result }
    ensures given { IsTrue snapshot.now.honest → (wide narrow : List (FinMap key_cmp Sums))
        → AreWide snapshot.now.shelf wide → AreNarrow snapshot.now.shelf narrow
        → IsMade (first_file snapshot.now.shelf) (AllPartsFit snapshot.now.shelf wide narrow)
        (λ _. text.new.items
        ≡ text.old.items ++ lines_of snapshot.now.shelf wide narrow end active entries.now) result }
    ensures lines { OnOk result
        ((lines : List FileLine) × (text.new.items ≡ text.old.items ++ flat_map file_line lines)) }
{
    let count = entries.len() as u32;
    let mut number: u32 = 0;
    for entry in entries {
        let starts = starts_of_file(alloc, snapshot, width, count, number, faults)?;
        push_line(text, &line_of(end, active, entry, starts))?;
        number = number.wrapping_add(1);
    }
    Ok(())
}

/// What an archive is found to be.
fn standing_of<D: Disk>(archive: &Archive<D>) -> Standing
    ensures { result ≡ standing_of archive.now.state }
{
    let manifest = archive.manifest();
    Standing::of(manifest, archive.position())
}

/// The lines of an archive: what it is found to be, and each of its files.
fn find_files<D: Disk>(
    alloc: Global,
    archive: &mut Archive<D>,
    faults: &mut Faults<D::Sealed>,
) -> Result<Vec<u8>, ReadRefusal>
    ensures asked { IsAsked archive.old archive.new }
    ensures lines { IsTrue (D.honest archive.old.disk) → (reads : ℕ → List ℕ) → StandsFor reads archive.old.state
        → IfOk result (λ text. AreFileLines reads text.items) }
    ensures shape { IfOk result (λ text. AreListings text.items) }
    ensures refused { IsTrue (D.honest archive.old.disk) → (reads : ℕ → List ℕ) → StandsFor reads archive.old.state
        → IfErr result (λ e. IsNotFound SumsFit reads (of_query e)) }
    ensures cause { HasCause ReadRefusal.Fault faults.old faults.new result }
{
    one_view_of_a_state();
    // It has a valid manifest.
    let _closed = archive.is_closed();
    let snapshot = archive.directory(alloc)?.into_snapshot();
    let width = archive.width();
    let mut text = standing_of(archive).line(alloc)?;
    let entries = archive.manifest().entries.as_slice();
    let active = archive.active_count() as u64;
    push_files(
        alloc,
        &snapshot,
        width,
        archive.end(),
        active,
        entries,
        &mut text,
        faults,
    )?;
    Ok(text)
}

/// Writes the lines of an archive.
fn list_files<D: Disk, W: Write>(
    alloc: Global,
    archive: &mut Archive<D>,
    output: &mut W,
    faults: &mut Faults<D::Sealed>,
) -> Result<(), ArchiveRefusal>
    ensures asked { IsAsked archive.old archive.new }
    ensures told { IsTrue (D.honest archive.old.disk) → (reads : ℕ → List ℕ) → StandsFor reads archive.old.state
        → OnOk result (ListsFiles reads (W.contents output.old) (W.contents output.new)) }
    ensures refused { IsTrue (D.honest archive.old.disk) → (reads : ℕ → List ℕ) → StandsFor reads archive.old.state
        → IfErr result (ListsNoFiles reads (W.contents output.old) (W.contents output.new)) }
    ensures written { OnOk result (Writes AreListings (W.contents output.old) (W.contents output.new)) }
    ensures kept { IfErr result (λ e. WritesOrNot AreListings e (W.contents output.old) (W.contents output.new)) }
    ensures opened { IfErr result (λ e. e ≢ refusal.Opening OpenError.Fault) }
    ensures cause { HasCause (refusal.Query ReadRefusal.Fault) faults.old faults.new result }
{
    let text = find_files(alloc, archive, faults)?;
    write_patiently(output, text.as_slice(), &mut Patience::new())?;
    Ok(())
}

/// Opens the archive on a disk, of which nothing is frozen, and writes the line of `check`, and then one for each file,
/// in the manifest's order: KIND FILE OCTETS MESSAGES FIRST LAST. Its kind is `wide`, `rolled`, `sealed` or `active`;
/// FIRST and LAST are the starts of the first and the last interval of its flows, in seconds, and `-` where it has
/// none. Each file is read, but for a sealed segment of which the opening knows when its flows start. It hands the
/// archive on, or gives the disk back.
pub fn check_files<D: Disk, W: Write>(
    alloc: Global,
    disk: D,
    output: &mut W,
    faults: &mut Faults<D::Sealed>,
) -> Result<Archive<D>, Refused<D, ArchiveRefusal>>
    requires { (n : ℕ) → (D.marks disk n).frozen ≡ false }
    // On an honest disk the lines are those of what was read.
    ensures told { IsTrue (D.honest disk) → OnOk result
        (ListsFiles (reads_of (D.held disk)) (W.contents output.old) (W.contents output.new)) }
    ensures refused { IsTrue (D.honest disk) → IfErr result (λ r. ListsNoFiles (reads_of (D.held disk))
        (W.contents output.old) (W.contents output.new) r.error) }
    // And whatever the disk:
    ensures written { OnOk result (Writes AreListings (W.contents output.old) (W.contents output.new)) }
    ensures kept { IfErr result
        (λ r. WritesOrNot AreListings r.error (W.contents output.old) (W.contents output.new)) }
    ensures honest { D.honest (disk_of result) ≡ D.honest disk }
    // A stop at any moment leaves what opens as the archive that was there, and that is the one that is handed on.
    ensures any_moment { KeepsArchive D.Disk disk (disk_of result) }
    ensures handed { IfOk result (IsHandedOn D.Disk disk) }
    // After an opening that is refused by 20 to 24 each file reads as before.
    ensures unchanged { IfErr result (λ r. KeepsFiles D.Disk disk r.disk r.error) }
    // It is a fault of opening exactly where a call of the disk failed, and one of asking exactly where a read failed.
    ensures opening { HasCause (refusal.Opening OpenError.Fault) (D.faults disk) (D.faults (disk_of result))
        (answer_of result) }
    ensures cause { HasCause (refusal.Query ReadRefusal.Fault) faults.old faults.new (answer_of result) }
{
    match Archive::open(alloc, disk) {
        Ok(archive) => {
            let mut archive = archive;
            match list_files(alloc, &mut archive, output, faults) {
                Ok(()) => Ok(archive),
                Err(error) => Err(Refused {
                    disk: archive.into_disk(),
                    error,
                }),
            }
        }
        Err(refused) => Err(Refused {
            disk: refused.disk,
            error: ArchiveRefusal::from(refused.error),
        }),
    }
}

/// Writes these lines of the archive on a disk, and lets the disk go.
fn write_listing<D: Disk, W: Write>(
    alloc: Global,
    disk: D,
    output: &mut W,
) -> Result<(), ArchiveRefusal>
    requires { (n : ℕ) → (D.marks disk n).frozen ≡ false }
    ensures written { OnOk result (Writes AreListings (W.contents output.old) (W.contents output.new)) }
    ensures kept { IfErr result (λ e. WritesOrNot AreListings e (W.contents output.old) (W.contents output.new)) }
{
    ended(check_files(alloc, disk, output, &mut Faults::new()))
}

/// The same of the archive of a folder, of which nothing is changed, and which others may ask meanwhile.
pub fn check_files_in<H: Files + AllocGlobal + Clone + Drop, W: Write>(
    rt: &H,
    folder: &str,
    first_fault: &FirstFault,
    output: &mut W,
) -> Result<(), ArchiveRefusal>
where
    H::File: FileExt + Lockable,
    ensures written { OnOk result (Writes AreListings (W.contents output.old) (W.contents output.new)) }
    ensures kept { IfErr result (λ e. WritesOrNot AreListings e (W.contents output.old) (W.contents output.new)) }
{
    let view = FolderView::noting(rt, folder, first_fault)?;
    write_listing(rt.alloc(), view, output)
}
