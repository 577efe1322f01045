//! How an answer ends: `done STATUS`, or a refusal before it.

ghost use Rattle.std.specs.Prelude.{◌≡◌, ◌≤◌, ◌++◌, IfOk, string_bytes};
ghost use Rattle.flow_shell.specs.Written.{done_line, refused_line, IsEndedBy, IsFinished, IsRefusalWritten, IsWritten};

use crate::refusal::ShellRefusal;
use flow_commands::ArchiveRefusal;
use flow_report::{Patience, write_patiently};
use std::alloc::{AllocError, Global};
use std::io::Write;

/// The status of an answer.
pub(crate) const DONE: u8 = 0;

/// What is answered where memory is wanting for more.
pub(crate) const NO_MEMORY: &str = "refused 11 OutOfMemory\n";

/// The status of an answer where memory is wanting.
pub(crate) const WITHOUT_MEMORY: u8 = 4;

/// The end of an answer: `done STATUS`.
fn done_line(status: u8) -> &'static str
    requires { status ≤ 5 }
    ensures { result.now ≡ done_line status }
{
    match status {
        0 => "done 0\n",
        1 => "done 1\n",
        2 => "done 2\n",
        3 => "done 3\n",
        4 => "done 4\n",
        _ => "done 5\n",
    }
}

/// Writes the end of an answer.
pub(crate) fn end_answer<W: Write>(status: u8, output: &mut W) -> Result<(), ArchiveRefusal>
    requires { status ≤ 5 }
    ensures { IsWritten (done_line status) (W.contents output.old) (W.contents output.new) result }
{
    write_patiently(output, done_line(status).as_bytes(), &mut Patience::new())?;
    Ok(())
}

/// Writes a text, and the end of an answer after it.
pub(crate) fn answer_text<W: Write>(
    text: &str,
    status: u8,
    output: &mut W,
) -> Result<(), ArchiveRefusal>
    requires { status ≤ 5 }
    ensures { IsWritten (text.now ++ done_line status) (W.contents output.old) (W.contents output.new) result }
{
    write_patiently(output, text.as_bytes(), &mut Patience::new())?;
    end_answer(status, output)
}

/// The line of a refusal.
fn refused_line(alloc: Global, refusal: &ShellRefusal) -> Result<String, AllocError>
    ensures { IfOk result (λ line. string_bytes line ≡ refused_line refusal.now) }
{
    format!(in alloc; "refused {refusal}\n")
}

/// Writes a refusal, and the end of an answer after it. That memory ran out is reported without any.
fn answer_refusal<W: Write>(
    alloc: Global,
    refusal: &ShellRefusal,
    output: &mut W,
) -> Result<(), ArchiveRefusal>
    ensures { IsRefusalWritten refusal.now (W.contents output.old) (W.contents output.new) result }
{
    match refused_line(alloc, refusal) {
        Ok(line) => answer_text(line.as_str(), refusal.status(), output),
        Err(AllocError) => answer_text(NO_MEMORY, WITHOUT_MEMORY, output),
    }
}

/// Ends an answer that was refused, or couldn't be written.
fn finish_refused<W: Write>(
    alloc: Global,
    refusal: ArchiveRefusal,
    output: &mut W,
) -> Result<(), ArchiveRefusal>
    ensures { IsEndedBy refusal (W.contents output.old) (W.contents output.new) result }
{
    match refusal {
        ArchiveRefusal::Write(failed) => Err(ArchiveRefusal::Write(failed)),
        other => answer_refusal(alloc, &ShellRefusal::Archive(other), output),
    }
}

/// Ends an answer: where it was refused, with the line of that. Where it couldn't be written, nothing more is.
pub(crate) fn finish<W: Write>(
    alloc: Global,
    outcome: Result<(), ShellRefusal>,
    output: &mut W,
) -> Result<(), ArchiveRefusal>
    ensures { IsFinished outcome (W.contents output.old) (W.contents output.new) result }
{
    match outcome {
        Ok(()) => end_answer(DONE, output),
        Err(ShellRefusal::Reader(error)) => {
            answer_refusal(alloc, &ShellRefusal::Reader(error), output)
        }
        Err(ShellRefusal::Archive(refusal)) => finish_refused(alloc, refusal, output),
    }
}
