//! A run of `check` over several archives.

ghost use Rattle.std.specs.Prelude.{◌≡◌, ◌≢◌, ◌≤◌, ◌++◌, ◌∷◌, [], ℕ, List, max, true, IfErr, IfOk, Ok, Err, OnOk};
ghost use Rattle.std.specs.Io.KnownBytes.{Appends, Keeps};
ghost use Rattle.flow_report.specs.declared.patient.WriteFailed.{WriteFailed};
ghost use Rattle.flow_report.specs.declared.refusal.Refusal.TheVariants as refusal;
ghost use Rattle.flow_report.specs.Printed.{printed};
ghost use Rattle.flow_report.specs.Refusals.{status_of};
ghost use Rattle.flow_report.specs.Writing.{AppendsFront};
ghost use Rattle.flow_program.specs.Checks.{number_before, numbered_lines, status_in, text_of, ChecksEnd, IsOutcome};
ghost use Rattle.flow_program.specs.Checks.{IsReported, MayBeOutcome, Outcome};
ghost use Rattle.flow_program.specs.Printed.{told_lines};
ghost use Rattle.flow_program.specs.SideBySide.{outcome_of, IsReportedAs};

use crate::arguments::FolderNames;
use crate::checking::Checking;
use crate::several::report_archive;
use crate::side_by_side::Checks;
use crate::telling::{DONE, tell};
use flow_commands::ArchiveRefusal;
use flow_disk::Disk;
use flow_folder::{FirstFault, Lockable};
use flow_report::{Patience, Refusal, write_patiently};
use flow_several::{FolderViews, Opener, at_once};
use itoa::Buffer;
use std::alloc::{AllocError, AllocGlobal, Global};
use std::fs::Files;
use std::io::Write;
use std::os::unix::fs::FileExt;
use std::thread::Threads;

/// Puts an octet after a text, and before it an archive's number, where it begins a line.
fn push_octet(text: &mut Vec<u8>, number: u64, begins: bool, octet: u8) -> Result<(), AllocError>
    ensures { OnOk result (text.new.items ≡ text.old.items ++ number_before number begins ++ octet ∷ []) }
{
    if begins {
        let mut digits = Buffer::new();
        text.extend_from_slice(digits.format(number).as_bytes())?;
        text.push(b' ')?;
    }
    text.push(octet)?;
    Ok(())
}

/// A text, with an archive's number before each of its lines.
fn numbered_lines(alloc: Global, number: u64, text: &[u8]) -> Result<Vec<u8>, AllocError>
    ensures { IfOk result (λ lines. lines.items ≡ numbered_lines number true text.now) }
{
    let mut lines = Vec::new(alloc);
    let mut begins = true;
    for octet in text {
        push_octet(&mut lines, number, begins, *octet)?;
        begins = *octet == b'\n';
    }
    Ok(lines)
}

/// What `check` writes of one archive, with the archive's number before each line, or why it is refused.
fn lines_of(
    alloc: Global,
    number: u64,
    answer: Result<Vec<u8>, ArchiveRefusal>,
) -> Result<Vec<u8>, ArchiveRefusal>
    ensures lines { IfOk result (λ lines. (text : List ℕ) × (outcome_of answer ≡ Ok text)
        × (lines.items ≡ numbered_lines number true text)) }
    ensures refused { IfErr result (λ e. IsReportedAs (outcome_of answer) (Err e)) }
{
    let text = answer?;
    let lines = numbered_lines(alloc, number, text.as_slice())?;
    Ok(lines)
}

/// Writes the lines of an archive or reports its refusal, each with its number, and answers the status. Where its lines
/// can't be written, that is reported, and its status answered as an error.
fn write_one<W: Write, E: Write>(
    alloc: Global,
    number: u64,
    answer: Result<Vec<u8>, ArchiveRefusal>,
    output: &mut W,
    errors: &mut E,
) -> Result<u8, u8>
    ensures done { IfOk result (λ status. (o : Outcome) × IsReportedAs (outcome_of answer) o
        × (status ≡ status_in o) × Appends (W.contents output.old) (W.contents output.new) (text_of number o)
        × IsReported number o (E.contents errors.old) (E.contents errors.new)) }
    ensures quiet { IfOk result (λ status. status ≡ 0 → Keeps (E.contents errors.old) (E.contents errors.new)) }
    ensures cut { IfErr result (λ status. (text : List ℕ) × (failed : WriteFailed) × (outcome_of answer ≡ Ok text)
        × AppendsFront (W.contents output.old) (W.contents output.new) (numbered_lines number true text)
        × AppendsFront (E.contents errors.old) (E.contents errors.new) (told_lines (printed (refusal.Write failed)))
        × (status ≡ status_of (refusal.Write failed))) }
    ensures most { IfOk result (λ status. status ≤ 5) }
    ensures other { IfOk result (λ status. status ≢ 2) }
    ensures failed { IfErr result (λ status. (1 ≤ status) × (status ≤ 5) × (status ≢ 2)) }
{
    let lines = match lines_of(alloc, number, answer) {
        Ok(lines) => lines,
        Err(refusal) => return Ok(report_archive(alloc, errors, number, &refusal)),
    };
    match write_patiently(output, lines.as_slice(), &mut Patience::new()) {
        Ok(()) => Ok(DONE),
        Err(failed) => Err(tell(alloc, errors, &Refusal::Write(failed))),
    }
}

/// The greater of two statuses.
fn greater(one: u8, other: u8) -> u8
    ensures value { result ≡ max one other }
    ensures either { one ≢ 2 → other ≢ 2 → result ≢ 2 }
    ensures most { one ≤ 5 → other ≤ 5 → result ≤ 5 }
    ensures none { result ≡ 0 → (one ≡ 0) × (other ≡ 0) }
{
    if one < other { other } else { one }
}

/// Runs `check` over the archives of these folders, whatever came of those before each: as many as there are
/// processors are checked at once, and in the order of the folders the lines of each are written with its number, or its
/// refusal is reported. It answers the greatest status.
pub(crate) fn run_checks<
    'a,
    H: AllocGlobal + Threads + Sync,
    D: Disk + Send,
    O: Opener<'a, D>,
    W: Write,
    E: Write,
>(rt: &H, opener: &O, folders: &FolderNames<'a>, files: bool, output: &mut W, errors: &mut E) -> u8
where
    D::Sealed: Send + Sync,
    ensures folders { ChecksEnd (IsOutcome D.Disk O.opens O.refuses files) folders.now (W.contents output.old)
        (W.contents output.new) (E.contents errors.old) (E.contents errors.new) result }
    ensures runs { ChecksEnd (MayBeOutcome files) folders.now (W.contents output.old) (W.contents output.new)
        (E.contents errors.old) (E.contents errors.new) result }
    ensures quiet { result ≡ 0 → Keeps (E.contents errors.old) (E.contents errors.new) }
    ensures status { result ≤ 5 }
    ensures other { result ≢ 2 }
{
    let alloc = rt.alloc();
    let checking = Checking { alloc, files };
    let paths = folders.paths.as_slice();
    let at_once = at_once(rt);
    let mut archives = Checks::none(alloc);
    let mut greatest = DONE;
    for (place, folder) in paths.iter().enumerate() {
        archives.open_more(alloc, opener, paths, place, at_once);
        let answer = archives.next(rt, &checking, opener, folder);
        match write_one(alloc, place as u64 + 1, answer, output, errors) {
            Ok(status) => greatest = greater(greatest, status),
            Err(status) => return status,
        }
    }
    greatest
}

/// Runs `check` over the archives of these folders of the system, which it reads alone. What the system says of the first
/// call that fails is noted.
pub(crate) fn run_folder_checks<
    'a,
    H: Files + AllocGlobal + Clone + Drop + Threads + Send + Sync,
    W: Write,
    E: Write,
>(
    rt: &'a H,
    first_fault: &'a FirstFault,
    folders: &FolderNames<'a>,
    files: bool,
    output: &mut W,
    errors: &mut E,
) -> u8
where
    H::File: FileExt + Lockable + Send + Sync,
    H::Dir: Send + Sync,
    ensures runs { ChecksEnd (MayBeOutcome files) folders.now (W.contents output.old) (W.contents output.new)
        (E.contents errors.old) (E.contents errors.new) result }
    ensures quiet { result ≡ 0 → Keeps (E.contents errors.old) (E.contents errors.new) }
    ensures status { result ≤ 5 }
    ensures other { result ≢ 2 }
{
    let opener = FolderViews::new(rt, first_fault);
    run_checks(rt, &opener, folders, files, output, errors)
}
