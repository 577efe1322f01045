//! A run over several archives.

ghost use Rattle.std.specs.Prelude.{◌≡◌, ◌≢◌, ◌≤◌, ℕ, List, map, length, IfOk, string_bytes};
ghost use Rattle.std.specs.Io.KnownBytes.{Keeps};
ghost use Rattle.flow_commands.specs.Archives.{archive_printed, archive_status};
ghost use Rattle.flow_program.specs.Printed.{told_lines};
ghost use Rattle.flow_program.specs.Several.{folders_status, numbered, refused_text, text_reported, totals_wanted};
ghost use Rattle.flow_program.specs.Several.{AreFoldersReported, FoldersEnd, SeveralEnd};
ghost use Rattle.flow_report.specs.Writing.{AppendsFront};
ghost use Rattle.flow_several.specs.Refusals.{several_text};

use crate::archives::seconds_of;
use crate::arguments::{FolderNames, MomentSpan};
use crate::telling::{DONE, NO_MEMORY, tell_line, tell_of_archive, told_lines};
use flow_commands::{ArchiveRefusal, StartSpan};
use flow_disk::{Disk, Faults};
use flow_folder::{FirstFault, Lockable};
use flow_report::Format;
use flow_several::{
    FolderViews, FoldersRefusal, Opener, Question, SeveralRefusal, Wanted, ask_folders,
};
use std::alloc::{AllocError, AllocGlobal, Global};
use std::fs::Files;
use std::io::Write;
use std::os::unix::fs::FileExt;
use std::thread::Threads;
use std::time::Clock;

/// The status where no memory was found.
const WITHOUT_MEMORY: u8 = 4;

/// The text of a refusal, with the number of the archive that is refused after its first line.
fn numbered(alloc: Global, text: &str, number: u64) -> Result<String, AllocError>
    ensures { IfOk result (λ with. string_bytes with ≡ numbered text.now number) }
{
    match text.split_once('\n') {
        Some((first, more)) => format!(in alloc; "{first} archive {number}\n{more}"),
        None => format!(in alloc; "{text} archive {number}"),
    }
}

/// The text of why the folder with this number can't be opened.
fn folder_text(alloc: Global, number: u64, refusal: &ArchiveRefusal) -> Result<String, AllocError>
    ensures { IfOk result (λ text. string_bytes text ≡ numbered (archive_printed refusal.now) number) }
{
    let text = format!(in alloc; "{refusal}")?;
    numbered(alloc, text.as_str(), number)
}

/// The text of why several archives have no answer, or it isn't written.
fn several_text(alloc: Global, refusal: &SeveralRefusal) -> Result<String, AllocError>
    ensures { IfOk result (λ text. string_bytes text ≡ several_text refusal.now) }
{
    format!(in alloc; "{refusal}")
}

/// Reports a refusal by its status and its text, and how to ask what its number means. That memory ran out is reported
/// without any, and without more; where there is none for the text or the lines of another refusal, nothing is.
pub(crate) fn report_text<E: Write>(
    alloc: Global,
    errors: &mut E,
    status: u8,
    text: Result<String, AllocError>,
)
    ensures { (printed : List ℕ) → IfOk text (λ t. string_bytes t ≡ printed)
        → AppendsFront (E.contents errors.old) (E.contents errors.new) (told_lines (text_reported status printed)) }
{
    if status == WITHOUT_MEMORY {
        tell_line(errors, NO_MEMORY.as_bytes());
        return;
    }
    let Ok(text) = text else {
        return;
    };
    let Ok(lines) = told_lines(alloc, text.as_str()) else {
        return;
    };
    tell_line(errors, lines.as_bytes());
}

/// Reports the refusal of the archive with this number. It answers the exit status.
pub(crate) fn report_archive<E: Write>(
    alloc: Global,
    errors: &mut E,
    number: u64,
    refusal: &ArchiveRefusal,
) -> u8
    ensures status { result ≡ archive_status refusal.now }
    ensures failed { 1 ≤ result }
    ensures other { result ≢ 2 }
    ensures most { result ≤ 5 }
    ensures reported { AppendsFront (E.contents errors.old) (E.contents errors.new)
        (told_lines (refused_text number refusal.now)) }
{
    let status = refusal.status();
    report_text(alloc, errors, status, folder_text(alloc, number, refusal));
    status
}

/// Reports why archives in folders aren't asked, or their answer isn't written. It answers the exit status.
fn report_folders<E: Write>(alloc: Global, errors: &mut E, refusal: FoldersRefusal) -> u8
    ensures status { result ≡ folders_status refusal }
    ensures failed { 1 ≤ result }
    ensures other { result ≢ 2 }
    ensures most { result ≤ 5 }
    ensures reported { AreFoldersReported refusal (E.contents errors.old) (E.contents errors.new) }
{
    match refusal {
        FoldersRefusal::Folder(number, error) => {
            let refusal = ArchiveRefusal::from(error);
            report_archive(alloc, errors, number, &refusal)
        }
        FoldersRefusal::Several(refusal) => {
            let status = refusal.status();
            report_text(alloc, errors, status, several_text(alloc, &refusal));
            status
        }
    }
}

/// What is asked of several archives.
fn question_of(span: &StartSpan, wanted: Wanted, format: Format) -> Question
    ensures { result ≡ record { from = span.now.from; to = span.now.to; wanted = wanted; format = format } }
{
    Question {
        from: span.from(),
        to: span.to(),
        wanted,
        format,
    }
}

/// What is wanted of totals: of each archive, or of all together.
pub(crate) fn totals_wanted(each: bool) -> Wanted
    ensures { result ≡ totals_wanted each }
{
    if each {
        Wanted::TotalsOfEach
    } else {
        Wanted::Totals
    }
}

/// Runs `totals` or `flows` over the archives of these folders.
pub(crate) fn run_several<
    'a,
    H: AllocGlobal + Clock + Threads + Sync,
    D: Disk + Send,
    O: Opener<'a, D>,
    W: Write,
    E: Write,
>(
    rt: &H,
    opener: &O,
    folders: &FolderNames<'a>,
    span: MomentSpan,
    wanted: Wanted,
    format: Format,
    output: &mut W,
    errors: &mut E,
) -> u8
where
    D::Sealed: Send + Sync,
    ensures folders { FoldersEnd D.Disk O.opens O.refuses folders.now span wanted format (W.contents output.old)
        (W.contents output.new) (E.contents errors.old) (E.contents errors.new) result }
    ensures runs { SeveralEnd (length folders.now) span wanted format (W.contents output.old) (W.contents output.new)
        (E.contents errors.old) (E.contents errors.new) result }
    ensures quiet { result ≡ 0 → Keeps (E.contents errors.old) (E.contents errors.new) }
    ensures status { result ≤ 5 }
    ensures other { result ≢ 2 }
{
    let alloc = rt.alloc();
    let seconds = match seconds_of(rt, span) {
        Ok(seconds) => seconds,
        Err(refusal) => return tell_of_archive(alloc, errors, &refusal),
    };
    let question = question_of(&seconds, wanted, format);
    let paths = folders.paths.as_slice();
    let faults = &mut Faults::new();
    match ask_folders(rt, alloc, opener, paths, &question, output, faults) {
        Ok(()) => DONE,
        Err(refusal) => report_folders(alloc, errors, refusal),
    }
}

/// Runs `totals` or `flows` over the archives of these folders of the system, which it reads alone. What the system says
/// of the first call that fails is noted.
pub(crate) fn run_several_folders<
    'a,
    H: Files + AllocGlobal + Clock + Clone + Drop + Threads + Send + Sync,
    W: Write,
    E: Write,
>(
    rt: &'a H,
    first_fault: &'a FirstFault,
    folders: &FolderNames<'a>,
    span: MomentSpan,
    wanted: Wanted,
    format: Format,
    output: &mut W,
    errors: &mut E,
) -> u8
where
    H::File: FileExt + Lockable + Send + Sync,
    H::Dir: Send + Sync,
    ensures runs { SeveralEnd (length folders.now) span wanted format (W.contents output.old) (W.contents output.new)
        (E.contents errors.old) (E.contents errors.new) result }
    ensures quiet { result ≡ 0 → Keeps (E.contents errors.old) (E.contents errors.new) }
    ensures status { result ≤ 5 }
    ensures other { result ≢ 2 }
{
    let opener = FolderViews::new(rt, first_fault);
    run_several(rt, &opener, folders, span, wanted, format, output, errors)
}
