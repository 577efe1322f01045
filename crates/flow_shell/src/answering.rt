//! Answers by what a reader of the shared archive is shown.

ghost use Rattle.std.specs.Prelude.{◌≡◌, ◌++◌, ℕ, IsTrue, IfErr, IfOk, List, OnOk, string_bytes};
ghost use Rattle.std.specs.Io.KnownBytes.{Appends};
ghost use mathlib.Core.List.{IsPrefix};
ghost use Rattle.flow_measure.specs.declared.rows.Row.{Row};
ghost use Rattle.flow_measure.specs.History.{History};
ghost use Rattle.flow_measure.specs.Query.{flows_in_view, message_in_view, totals_in_view};
ghost use Rattle.flow_report.specs.ArchiveLines.{flows_text, rows_text};
ghost use Rattle.flow_shared.specs.Meaning.{HasView};
ghost use Rattle.flow_shared.specs.Told.{after};
ghost use Rattle.flow_snapshot.specs.Answered.{octets_in};
ghost use Rattle.flow_commands.specs.Asking.{AreFlows, AreReadRows, AreRows, Writes};
ghost use Rattle.flow_shell.specs.Answers.{checked_line, message_line, standing_in, view_after, AreDigits, IsCheckLine};
ghost use Rattle.flow_shell.specs.Answers.{IsBeforeWriting, WritesOrRefuses};

use crate::refusal::ShellRefusal;
use flow_commands::{Standing, StartSpan, Workers, ask_rows};
use flow_disk::{Faults, SealedFile};
use flow_measure::{Flow, Row};
use flow_report::{Format, Patience, write_flows, write_patiently, write_rows};
use flow_shared::{ArchiveReader, Naming};
use flow_snapshot::Snapshot;
use std::alloc::{AllocError, Global};
use std::io::Write;
use std::thread::Threads;

/// The sums of the intervals that start in a span, of what the reader is shown.
fn find_rows<S: SealedFile + Send + Sync, J: Naming, H: Threads + Sync>(
    rt: &H,
    alloc: Global,
    reader: &mut ArchiveReader<S, J>,
    span: &StartSpan,
    workers: &Workers,
) -> Result<Vec<Row>, ShellRefusal>
    ensures later { IsPrefix reader.old reader.new }
    ensures rows { IsTrue J.honest → (h : History) → HasView J.opening h
        → IfOk result
        (λ rows. rows.items ≡ totals_in_view span.now.from span.now.to (view_after J.opening h reader.new)) }
    // Also where files are damaged: the totals of files that were each read whole.
    ensures found { IsTrue J.honest
        → IfOk result (λ rows. AreReadRows (after J.opening reader.new) span.now rows.items) }
    ensures unwritten { IfErr result (λ e. IsBeforeWriting e) }
{
    let snapshot = reader.snapshot()?;
    let rows = ask_rows(rt, alloc, &snapshot, span, workers, &mut Faults::new())?;
    Ok(rows)
}

/// Writes the totals lines of the intervals that start in a span, by so many workers: those of the archive after the
/// steps that the reader is shown.
pub fn answer_totals<S: SealedFile + Send + Sync, J: Naming, H: Threads + Sync, W: Write>(
    rt: &H,
    alloc: Global,
    reader: &mut ArchiveReader<S, J>,
    width: u32,
    span: &StartSpan,
    workers: &Workers,
    output: &mut W,
) -> Result<(), ShellRefusal>
    ensures later { IsPrefix reader.old reader.new }
    // On an honest disk: the totals of the archive's history after these steps.
    ensures lines { IsTrue J.honest → (h : History) → HasView J.opening h
        → OnOk result (Appends (W.contents output.old) (W.contents output.new)
        (rows_text Format.PLAIN width (totals_in_view span.now.from span.now.to (view_after J.opening h reader.new)))) }
    // Also where files are damaged: the totals of files that were each read whole.
    ensures found { IsTrue J.honest → OnOk result ((rows : List Row) × AreReadRows (after J.opening reader.new) span.now
        rows × Appends (W.contents output.old) (W.contents output.new) (rows_text Format.PLAIN width rows)) }
    ensures written { OnOk result (Writes (AreRows Format.PLAIN) (W.contents output.old) (W.contents output.new)) }
    ensures kept { IfErr result
        (λ e. WritesOrRefuses (AreRows Format.PLAIN) e (W.contents output.old) (W.contents output.new)) }
{
    let rows = find_rows(rt, alloc, reader, span, workers)?;
    write_rows(alloc, rows.as_slice(), width, Format::PLAIN, output)?;
    Ok(())
}

/// The flows that aren't rolled and start in a span, of what the reader is shown.
fn find_flows<S: SealedFile, J: Naming>(
    alloc: Global,
    reader: &mut ArchiveReader<S, J>,
    span: &StartSpan,
) -> Result<Vec<Flow>, ShellRefusal>
    ensures later { IsPrefix reader.old reader.new }
    ensures flows { IsTrue J.honest → (h : History) → HasView J.opening h
        → IfOk result
        (λ flows. flows.items ≡ flows_in_view span.now.from span.now.to (view_after J.opening h reader.new)) }
    ensures unwritten { IfErr result (λ e. IsBeforeWriting e) }
{
    let snapshot = reader.snapshot()?;
    let flows = snapshot.flows(alloc, span.from(), span.to(), &mut Faults::new())?;
    Ok(flows)
}

/// Writes the lines of the flows that aren't rolled and start in a span: those of the archive after the steps that the
/// reader is shown.
pub fn answer_flows<S: SealedFile, J: Naming, W: Write>(
    alloc: Global,
    reader: &mut ArchiveReader<S, J>,
    span: &StartSpan,
    output: &mut W,
) -> Result<(), ShellRefusal>
    ensures later { IsPrefix reader.old reader.new }
    ensures lines { IsTrue J.honest → (h : History) → HasView J.opening h
        → OnOk result (Appends (W.contents output.old) (W.contents output.new)
        (flows_text Format.PLAIN (flows_in_view span.now.from span.now.to (view_after J.opening h reader.new)))) }
    ensures written { OnOk result (Writes (AreFlows Format.PLAIN) (W.contents output.old) (W.contents output.new)) }
    ensures kept { IfErr result
        (λ e. WritesOrRefuses (AreFlows Format.PLAIN) e (W.contents output.old) (W.contents output.new)) }
{
    let flows = find_flows(alloc, reader, span)?;
    write_flows(alloc, flows.as_slice(), Format::PLAIN, output)?;
    Ok(())
}

/// The line of a message: its octets in hexadecimal digits, or `none`.
fn line_of(alloc: Global, message: &Option<Vec<u8>>) -> Result<String, AllocError>
    ensures { IfOk result (λ line. string_bytes line ≡ message_line (octets_in message.now)) }
{
    let mut line = match message {
        Some(octets) => hex::encode(alloc, octets.as_slice())?,
        None => String::from_str(alloc, "none")?,
    };
    line.push_str("\n")?;
    Ok(line)
}

/// The line of the message with this number, of what the reader is shown.
fn find_message<S: SealedFile, J: Naming>(
    alloc: Global,
    reader: &mut ArchiveReader<S, J>,
    number: u64,
) -> Result<String, ShellRefusal>
    ensures later { IsPrefix reader.old reader.new }
    ensures line { IsTrue J.honest → (h : History) → HasView J.opening h
        → IfOk result (λ line. string_bytes line
        ≡ message_line (message_in_view number (view_after J.opening h reader.new))) }
    ensures unwritten { IfErr result (λ e. IsBeforeWriting e) }
    ensures digits { IfOk result (λ line. AreDigits (string_bytes line)) }
{
    let snapshot = reader.snapshot()?;
    let message = snapshot.message(alloc, number, &mut Faults::new())?;
    let line = line_of(alloc, &message)?;
    Ok(line)
}

/// Writes the line of the message with this number: of the archive after the steps that the reader is shown.
pub fn answer_message<S: SealedFile, J: Naming, W: Write>(
    alloc: Global,
    reader: &mut ArchiveReader<S, J>,
    number: u64,
    output: &mut W,
) -> Result<(), ShellRefusal>
    ensures later { IsPrefix reader.old reader.new }
    ensures lines { IsTrue J.honest → (h : History) → HasView J.opening h
        → OnOk result (Appends (W.contents output.old) (W.contents output.new)
        (message_line (message_in_view number (view_after J.opening h reader.new)))) }
    ensures written { OnOk result (Writes AreDigits (W.contents output.old) (W.contents output.new)) }
    ensures kept { IfErr result (λ e. WritesOrRefuses AreDigits e (W.contents output.old) (W.contents output.new)) }
{
    let line = find_message(alloc, reader, number)?;
    write_patiently(output, line.as_bytes(), &mut Patience::new())?;
    Ok(())
}

/// What the files of a snapshot are.
fn standing_in<S: SealedFile>(snapshot: &Snapshot<S>) -> Standing
    ensures { result ≡ standing_in snapshot.now.shelf }
{
    Standing {
        position: snapshot.position(),
        cut: snapshot.cut(),
        rolled: snapshot.summed_files(),
        sealed: snapshot.sealed_files(),
    }
}

/// The line that says what the reader is shown.
fn find_counts<S: SealedFile, J: Naming>(
    alloc: Global,
    reader: &mut ArchiveReader<S, J>,
) -> Result<Vec<u8>, ShellRefusal>
    ensures later { IsPrefix reader.old reader.new }
    ensures line { IfOk result (λ text. text.items ≡ checked_line (after J.opening reader.new)) }
    ensures unwritten { IfErr result (λ e. IsBeforeWriting e) }
{
    let snapshot = reader.snapshot()?;
    let line = standing_in(&snapshot).line(alloc)?;
    Ok(line)
}

/// Writes `ok POSITION CUT ROLLED SEALED`: how many messages were taken in, how many of them are in sums alone, and how
/// many files of sums and sealed segments there are, after the steps that the reader is shown.
pub fn answer_check<S: SealedFile, J: Naming, W: Write>(
    alloc: Global,
    reader: &mut ArchiveReader<S, J>,
    output: &mut W,
) -> Result<(), ShellRefusal>
    ensures later { IsPrefix reader.old reader.new }
    ensures lines { OnOk result (Appends (W.contents output.old) (W.contents output.new)
        (checked_line (after J.opening reader.new))) }
    ensures kept { IfErr result (λ e. WritesOrRefuses IsCheckLine e (W.contents output.old) (W.contents output.new)) }
{
    let line = find_counts(alloc, reader)?;
    write_patiently(output, line.as_slice(), &mut Patience::new())?;
    Ok(())
}
