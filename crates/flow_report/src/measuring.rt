//! The command `measure`.

ghost use Rattle.std.specs.Prelude.{◌≡◌, ◌≤◌, [], ℕ, List, vec_capacity, None, OnOk, IfOk, IfErr, IfSome};
ghost use Rattle.std.specs.Io.KnownBytes.{Appends};
ghost use Rattle.flow_codec.specs.Losses.{no_losses};
ghost use Rattle.flow_measure.specs.Sums.{empty_table};
ghost use Rattle.flow_report.specs.Lacks.{HasLosses};
ghost use Rattle.flow_report.specs.Refusals.{refusal_of, IsOfInput};
ghost use Rattle.flow_report.specs.Writing.{AppendsFront};
ghost use Rattle.flow_report.specs.Measure.{lines_of, HasTotals, HasSums, IsRefusedBy, KeepsOrFront};

use crate::format::Format;
use crate::lacking::{CountedTotals, Lacking};
use crate::output::HeldText;
use crate::patient::WriteFailed;
use crate::refusal::Refusal;
use crate::rows::put_rows_heading;
use crate::width::Width;
use flow_codec::{Losses, MessageReader, Templates, WalkError, walk_sets};
use flow_measure::{Row, Rows, SumError, Totals};
use std::alloc::Global;
use std::io::{Read, Write};

/// Adds the flows of all messages of a File that was opened now to sums of none, and answers what the messages show of
/// records that aren't read.
fn add_messages<R: Read>(
    alloc: Global,
    input: &mut R,
    reader: &mut MessageReader,
    templates: &mut Templates,
    lacking: &mut Lacking,
    sums: &mut CountedTotals,
) -> Result<Losses, Refusal>
    requires opened { reader.old ≡ record { ahead = []; message = []; count = 0; at = 0; stopped = None } }
    requires undefined { templates.old ≡ [] }
    requires unlost { lacking.old.losses ≡ no_losses }
    requires undue { lacking.old.due.entries ≡ [] }
    requires empty { sums.old.totals.rows ≡ empty_table sums.old.totals.rows.width }
    ensures sums { OnOk result (IfSome (R.remaining input.old)
        (λ octets. HasSums sums.old.totals.rows.width octets sums.new.totals.rows)) }
    ensures losses { IfOk result (λ losses. IfSome (R.remaining input.old) (λ octets. HasLosses octets losses)) }
    ensures refused { IfErr result (λ e. IfSome (R.remaining input.old)
        (λ octets. IsRefusedBy octets (R.remaining input.new) e)) }
    ensures unwritten { IfErr result (λ e. IsOfInput e) }
{
    'messages: while reader.advance(input)? {
        sums.records = 0;
        match walk_sets(templates, alloc, reader.message(), sums) {
            Ok(walked) => lacking.note(&walked, sums.records)?,
            Err(stop) => return Err(refusal_of(stop, reader.count())),
        }
    }
    Ok(lacking.losses())
}

/// The sums of all flows of the File that `input` reads, over intervals of this width, and what its messages show of
/// records that aren't read.
fn sums_of<R: Read>(alloc: Global, width: &Width, input: &mut R) -> Result<(Rows, Losses), Refusal>
    ensures sums { IfOk result (λ x. IfSome (R.remaining input.old) (λ octets. HasSums width.now octets x.0)) }
    ensures losses { IfOk result (λ x. IfSome (R.remaining input.old) (λ octets. HasLosses octets x.1)) }
    ensures refused { IfErr result (λ e. IfSome (R.remaining input.old)
        (λ octets. IsRefusedBy octets (R.remaining input.new) e)) }
    ensures unwritten { IfErr result (λ e. IsOfInput e) }
{
    let mut reader = MessageReader::new(alloc)?;
    let mut templates = Templates::new(alloc);
    let mut lacking = Lacking::new(alloc);
    let mut sums = CountedTotals {
        totals: Totals {
            rows: Rows::new(alloc, width.seconds()),
        },
        records: 0,
    };
    let added = add_messages(
        alloc,
        input,
        &mut reader,
        &mut templates,
        &mut lacking,
        &mut sums,
    );
    drop(reader);
    drop(templates);
    drop(lacking);
    match added {
        Ok(losses) => Ok((sums.totals.rows, losses)),
        Err(refused) => {
            drop(sums);
            Err(refused)
        }
    }
}

/// Why a run stops at the message of this number.
fn refusal_of(stop: WalkError<SumError>, number: u64) -> Refusal
    ensures value { result ≡ refusal_of stop number }
    ensures unwritten { IsOfInput result }
{
    match stop {
        WalkError::Message(fault) => Refusal::of_message(fault, number),
        WalkError::Sink(SumError::OutOfMemory) => Refusal::OutOfMemory,
        WalkError::Sink(SumError::SumSpent) => Refusal::SumSpent,
    }
}

/// Writes the lines of all sums, as they are made: no memory is taken but for the text that is held.
fn write_totals<W: Write>(
    rows: &Rows,
    format: Format,
    lines: &mut HeldText,
    output: &mut W,
) -> Result<(), WriteFailed>
    requires none { lines.old.text.items ≡ [] }
    requires room { 65964 ≤ vec_capacity lines.old.text }
    ensures all { OnOk result (Appends (W.contents output.old) (W.contents output.new) (lines_of format rows.now)) }
    ensures front { IfErr result
        (λ _. AppendsFront (W.contents output.old) (W.contents output.new) (lines_of format rows.now)) }
{
    let width = rows.width();
    let mut walk = rows.walk();
    put_rows_heading(&mut lines.text, format);
    'rows: while let Some((key, sums)) = walk.next() {
        lines.put_row(output, format, width, Row { key, sums, width })?;
    }
    lines.flush(output)?;
    Ok(())
}

/// Reads a File and writes the sums of all its flows: START DOMAIN PROTOCOL FLOWS OCTETS PACKETS, and in CSV and JSON
/// the width, a row for each interval of this width, Observation Domain and protocol, in this order, none before
/// protocol 0. Nothing is written unless the whole File was accepted. It answers what the File's messages show of
/// records that aren't read.
pub fn measure<R: Read, W: Write>(
    alloc: Global,
    width: &Width,
    format: Format,
    input: &mut R,
    output: &mut W,
) -> Result<Losses, Refusal>
    // The lines are those of a whole File.
    ensures lines { OnOk result
        (IfSome (R.remaining input.old) (λ octets. (lines : List ℕ) × HasTotals format width.now octets lines
        × Appends (W.contents output.old) (W.contents output.new) lines)) }
    // What is answered is what the messages of the whole File show.
    ensures losses { IfOk result (λ losses. IfSome (R.remaining input.old) (λ octets. HasLosses octets losses)) }
    // A refusal is that of the first fault by place.
    ensures refused { IfErr result (λ e. IfSome (R.remaining input.old)
        (λ octets. IsRefusedBy octets (R.remaining input.new) e)) }
    // After one nothing is written, or, where writing failed, a prefix of the lines.
    ensures kept { IfErr result
        (λ e. KeepsOrFront format width.now (R.remaining input.old) (W.contents output.old) (W.contents output.new) e) }
{
    let (rows, losses) = sums_of(alloc, width, input)?;
    let mut lines = HeldText::new(alloc)?;
    write_totals(&rows, format, &mut lines, output)?;
    Ok(losses)
}
