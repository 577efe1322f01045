//! What is reported of a refusal on standard error.

ghost use Rattle.std.specs.Prelude.{◌≡◌, ◌≢◌, ◌≤◌, OnOk, OnErr, IfOk, string_bytes};
ghost use Rattle.std.specs.Io.KnownBytes.{Appends};
ghost use Rattle.flow_report.specs.Refusals.{status_of};
ghost use Rattle.flow_report.specs.Printed.{printed};
ghost use Rattle.flow_program.specs.Printed.{first_word, told_lines};
ghost use Rattle.flow_report.specs.Writing.{AppendsFront};
ghost use Rattle.flow_commands.specs.Archives.{archive_printed, archive_status};
ghost use Rattle.flow_program.specs.Run.{IsArchiveTold, IsRefusalTold};

use flow_commands::ArchiveRefusal;
use flow_report::{Patience, Refusal, write_patiently};
use std::alloc::{AllocError, Global};
use std::io::Write;

/// The status of a run that did its work, or showed its help.
pub(crate) const DONE: u8 = 0;

/// The line where no memory was found.
pub(crate) const NO_MEMORY: &str =
    "flowvault: 11 OutOfMemory\nflowvault: see: flowvault explain 11\n";

/// Writes octets.
pub(crate) fn write_octets<W: Write>(to: &mut W, octets: &[u8]) -> Result<(), Refusal>
    ensures all { OnOk result (Appends (W.contents to.old) (W.contents to.new) octets.now) }
    ensures front { OnErr result (AppendsFront (W.contents to.old) (W.contents to.new) octets.now) }
{
    write_patiently(to, octets, &mut Patience::new())?;
    Ok(())
}

/// Writes a line on standard error, or as much of it as can be written: the status says the same.
pub(crate) fn tell_line<E: Write>(errors: &mut E, line: &[u8])
    ensures { AppendsFront (E.contents errors.old) (E.contents errors.new) line.now }
{
    let _ = write_octets(errors, line);
}

/// The text before its first space.
fn first_word(text: &str) -> &str
    ensures { result.now ≡ first_word text.now }
{
    match text.split_once(' ') {
        Some((word, _)) => word,
        None => text,
    }
}

/// The lines of a refusal's text: it, and how to ask what its number means.
pub(crate) fn told_lines(alloc: Global, text: &str) -> Result<String, AllocError>
    ensures { IfOk result (λ lines. string_bytes lines ≡ told_lines text.now) }
{
    let number = first_word(text);
    format!(in alloc; "flowvault: {text}\nflowvault: see: flowvault explain {number}\n")
}

/// The lines of a refusal.
fn refusal_lines(alloc: Global, refusal: &Refusal) -> Result<String, AllocError>
    ensures { IfOk result (λ lines. string_bytes lines ≡ told_lines (printed refusal.now)) }
{
    let text = format!(in alloc; "{refusal}")?;
    told_lines(alloc, text.as_str())
}

/// Reports a refusal as `flowvault: NUMBER NAME ..`, and how to ask what the number means. That memory ran out is
/// reported without any; where there is none for the lines of another refusal, nothing is.
#[tactic(auto, using(crate::proofs::Told::nothing_told, crate::proofs::Told::line_told))]
fn tell_refusal<E: Write>(alloc: Global, errors: &mut E, refusal: &Refusal)
    ensures { IsRefusalTold refusal.now (E.contents errors.old) (E.contents errors.new) }
{
    if let Refusal::OutOfMemory = refusal {
        tell_line(errors, NO_MEMORY.as_bytes());
        return;
    }
    let Ok(lines) = refusal_lines(alloc, refusal) else {
        return;
    };
    tell_line(errors, lines.as_bytes());
}

/// Tells a refusal, and answers its exit status.
pub(crate) fn tell<E: Write>(alloc: Global, errors: &mut E, refusal: &Refusal) -> u8
    ensures status { result ≡ status_of refusal.now }
    ensures failed { 1 ≤ result }
    ensures other { result ≢ 2 }
    ensures told { IsRefusalTold refusal.now (E.contents errors.old) (E.contents errors.new) }
{
    tell_refusal(alloc, errors, refusal);
    refusal.status()
}

/// The lines of a refusal of a command over an archive.
fn archive_lines(alloc: Global, refusal: &ArchiveRefusal) -> Result<String, AllocError>
    ensures { IfOk result (λ lines. string_bytes lines ≡ told_lines (archive_printed refusal.now)) }
{
    let text = format!(in alloc; "{refusal}")?;
    told_lines(alloc, text.as_str())
}

/// Reports the refusal of a command over an archive, and how to ask what its number means. That memory ran out is
/// reported without any; where there is none for the lines of another refusal, nothing is.
#[tactic(auto, using(crate::proofs::Told::nothing_told_of_archive, crate::proofs::Told::line_told_of_archive))]
fn tell_archive_refusal<E: Write>(alloc: Global, errors: &mut E, refusal: &ArchiveRefusal)
    ensures { IsArchiveTold refusal.now (E.contents errors.old) (E.contents errors.new) }
{
    if let ArchiveRefusal::OutOfMemory = refusal {
        tell_line(errors, NO_MEMORY.as_bytes());
        return;
    }
    let Ok(lines) = archive_lines(alloc, refusal) else {
        return;
    };
    tell_line(errors, lines.as_bytes());
}

/// Tells the refusal of a command over an archive, and answers its exit status.
pub(crate) fn tell_of_archive<E: Write>(
    alloc: Global,
    errors: &mut E,
    refusal: &ArchiveRefusal,
) -> u8
    ensures status { result ≡ archive_status refusal.now }
    ensures failed { 1 ≤ result }
    ensures other { result ≢ 2 }
    ensures most { result ≤ 5 }
    ensures told { IsArchiveTold refusal.now (E.contents errors.old) (E.contents errors.new) }
{
    tell_archive_refusal(alloc, errors, refusal);
    refusal.status()
}
