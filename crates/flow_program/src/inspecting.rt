//! A run of `inspect` that is given Files.

ghost use Rattle.std.specs.Prelude.{◌≡◌, ◌≢◌, ◌≤◌, ℕ, suc, Some, None, false, OnOk, OnErr, IfOk, IfErr, IfSome};
ghost use Rattle.std.specs.Prelude.{length, map, string_bytes};
ghost use Rattle.std.specs.Io.KnownBytes.{Appends, Keeps};
ghost use Rattle.flow_report.specs.Measure.{IsRefusedBy};
ghost use Rattle.flow_report.specs.Refusals.{status_of};
ghost use Rattle.flow_report.specs.Writing.{AppendsFront};
ghost use Rattle.flow_inspect.specs.Inspect.{KeepsOrFrontOfFile, WritesFile};
ghost use Rattle.flow_program.specs.Arguments.{has_input};
ghost use Rattle.flow_program.specs.Inspecting.{InspectEnds, IsFileTold, StopsAfter, WritesFiles, file_printed};
ghost use Rattle.flow_program.specs.Inspecting.{is_input};
ghost use Rattle.flow_program.specs.Inspecting.{known_at};
ghost use Rattle.flow_program.specs.Printed.{told_lines};
ghost use Rattle.flow_report.specs.declared.refusal.Refusal.TheVariants as refusal;

use crate::arguments::{FileNames, is_input};
use crate::telling::{DONE, tell_line, told_lines, write_octets};
use flow_inspect::inspect_file;
use flow_report::{Format, Refusal};
use itoa::Buffer;
use std::alloc::{AllocError, AllocGlobal, Global};
use std::fs::{File, Files};
use std::io;
use std::io::{ErrorKind, Read, Write};

/// A File that can't be opened: whatever is read of it fails.
#[derive(Drop)]
struct Unopened {}

impl Read for Unopened {
    fn read(&mut self, _buf: &mut [u8]) -> io::Result<usize> {
        Err(io::Error::from(ErrorKind::NotFound))
    }
}

/// Why a File is refused.
#[derive(Drop)]
struct FileRefusal {
    refusal: Refusal,
    /// Which of the Files it is, from 1.
    number: u64,
}

/// Writes the lines of the File of this number, at a path.
fn inspect_opened<H: Files + AllocGlobal, W: Write>(
    rt: &H,
    format: Format,
    number: u64,
    path: &str,
    output: &mut W,
) -> Result<(), Refusal>
    ensures lines { OnOk result
        (WritesFile format (Some number) None (W.contents output.old) (W.contents output.new)) }
    ensures kept { IfErr result
        (λ e. KeepsOrFrontOfFile format (Some number) None (W.contents output.old) (W.contents output.new) e) }
{
    match File::open(rt, path) {
        Ok(file) => {
            let mut file = file;
            inspect_file(rt.alloc(), format, number, &mut file, output)
        }
        Err(error) => {
            if error.kind() == ErrorKind::OutOfMemory {
                return Err(Refusal::OutOfMemory);
            }
            inspect_file(rt.alloc(), format, number, &mut Unopened {}, output)
        }
    }
}

/// The same, where the path may be that of standard input.
fn inspect_path<H: Files + AllocGlobal, R: Read, W: Write>(
    rt: &H,
    format: Format,
    number: u64,
    path: &str,
    input: &mut R,
    output: &mut W,
) -> Result<(), Refusal>
    ensures lines { OnOk result (WritesFile format (Some number) (known_at (R.remaining input.old) path.now)
        (W.contents output.old) (W.contents output.new)) }
    ensures refused { IfErr result (λ e. IfSome (known_at (R.remaining input.old) path.now)
        (λ octets. IsRefusedBy octets (R.remaining input.new) e)) }
    ensures kept { IfErr result (λ e. KeepsOrFrontOfFile format (Some number)
        (known_at (R.remaining input.old) path.now) (W.contents output.old) (W.contents output.new) e) }
    // Standard input isn't read for another path.
    ensures input { is_input path.now ≡ false → Keeps (R.remaining input.old) (R.remaining input.new) }
{
    if is_input(path) {
        inspect_file(rt.alloc(), format, number, input, output)
    } else {
        inspect_opened(rt, format, number, path, output)
    }
}

/// Writes the lines of Files, one after the other, up to the first that is refused.
fn inspect_files<H: Files + AllocGlobal, R: Read, W: Write>(
    rt: &H,
    format: Format,
    paths: &[&str],
    input: &mut R,
    output: &mut W,
) -> Result<(), FileRefusal>
    ensures input { has_input (map (λ path. path.now) paths.now) ≡ false
        → Keeps (R.remaining input.old) (R.remaining input.new) }
    ensures lines { OnOk result (WritesFiles format (R.remaining input.old) (map (λ path. path.now) paths.now)
        (length paths.now) (W.contents output.old) (W.contents output.new)) }
    ensures refused { IfErr result (λ e. (count : ℕ) × (e.number ≡ suc count)
        × StopsAfter format (map (λ path. path.now) paths.now) count (R.remaining input.old) (R.remaining input.new)
        (W.contents output.old) (W.contents output.new) e.refusal) }
{
    let mut number: u64 = 0;
    for path in paths {
        number += 1;
        if let Err(refusal) = inspect_path(rt, format, number, path, input, output) {
            return Err(FileRefusal { refusal, number });
        }
    }
    Ok(())
}

/// Reports that memory ran out at the File of this number, without any.
fn write_no_memory<E: Write>(errors: &mut E, number: u64) -> Result<(), Refusal>
    ensures all { OnOk result (Appends (E.contents errors.old) (E.contents errors.new)
        (told_lines (file_printed refusal.OutOfMemory number))) }
    ensures front { OnErr result (AppendsFront (E.contents errors.old) (E.contents errors.new)
        (told_lines (file_printed refusal.OutOfMemory number))) }
{
    let mut digits = Buffer::new();
    write_octets(errors, "flowvault: 11 OutOfMemory file ".as_bytes())?;
    write_octets(errors, digits.format(number).as_bytes())?;
    write_octets(
        errors,
        "\nflowvault: see: flowvault explain 11\n".as_bytes(),
    )
}

/// The lines of the refusal of a File.
fn file_lines(alloc: Global, refused: &FileRefusal) -> Result<String, AllocError>
    ensures { IfOk result
        (λ lines. string_bytes lines ≡ told_lines (file_printed refused.now.refusal refused.now.number)) }
{
    let refusal = &refused.refusal;
    let number = refused.number;
    let text = format!(in alloc; "{refusal} file {number}")?;
    told_lines(alloc, text.as_str())
}

/// Reports the refusal of a File as `flowvault: NUMBER NAME .. file N`, and how to ask what the number means. That
/// memory ran out is reported without any; where there is none for the lines of another refusal, nothing is.
fn tell_refused<E: Write>(alloc: Global, errors: &mut E, refused: &FileRefusal)
    ensures { IsFileTold refused.now.refusal refused.now.number (E.contents errors.old) (E.contents errors.new) }
{
    if let Refusal::OutOfMemory = refused.refusal {
        let _ = write_no_memory(errors, refused.number);
        return;
    }
    let Ok(lines) = file_lines(alloc, refused) else {
        return;
    };
    tell_line(errors, lines.as_bytes());
}

/// Tells the refusal of a File, and answers its exit status.
fn tell_file<E: Write>(alloc: Global, errors: &mut E, refused: &FileRefusal) -> u8
    ensures status { result ≡ status_of refused.now.refusal }
    ensures failed { 1 ≤ result }
    ensures other { result ≢ 2 }
    ensures most { result ≤ 5 }
    ensures told { IsFileTold refused.now.refusal refused.now.number (E.contents errors.old) (E.contents errors.new) }
{
    tell_refused(alloc, errors, refused);
    refused.refusal.status()
}

/// Runs `inspect` of Files: their lines are written, each with its File's number, up to the first File that is refused.
/// It answers the exit status.
pub(crate) fn run_inspect_files<H: Files + AllocGlobal, R: Read, W: Write, E: Write>(
    rt: &H,
    format: Format,
    files: &FileNames<'_>,
    input: &mut R,
    output: &mut W,
    errors: &mut E,
) -> u8
    ensures input { has_input files.now ≡ false → Keeps (R.remaining input.old) (R.remaining input.new) }
    ensures runs { InspectEnds format files.now (R.remaining input.old) (R.remaining input.new) (W.contents output.old)
        (W.contents output.new) (E.contents errors.old) (E.contents errors.new) result }
    ensures quiet { result ≡ 0 → Keeps (E.contents errors.old) (E.contents errors.new) }
    ensures status { result ≤ 5 }
    ensures other { result ≢ 2 }
{
    match inspect_files(rt, format, files.paths.as_slice(), input, output) {
        Ok(()) => DONE,
        Err(refused) => tell_file(rt.alloc(), errors, &refused),
    }
}
