//! Lines of rows.

ghost use Rattle.std.specs.Prelude.{◌≡◌, ◌≤◌, ◌+◌, ◌++◌, [], OnOk, IfErr, vec_len, vec_capacity};
ghost use Rattle.std.specs.Io.KnownBytes.{Appends};
ghost use Rattle.flow_report.specs.ArchiveLines.{row_line, row_names, rows_text, shows_width};
ghost use Rattle.flow_report.specs.Formats.{heading};
ghost use Rattle.flow_report.specs.Writing.{AppendsFront, IsCut};

use crate::format::{Format, Layout};
use crate::output::{HeldText, MOST_HELD};
use crate::patient::WriteFailed;
use crate::text_error::TextError;
use crate::values::{put_last, put_opening, put_protocol, put_text, put_time, put_value};
use flow_measure::Row;
use std::alloc::Global;
use std::io::Write;

/// Whether the width of a row's intervals is written.
fn shows_width(layout: Layout, usual: u32, width: u32) -> bool
    ensures { result ≡ shows_width layout usual width }
{
    match layout {
        Layout::Lines => width != usual,
        Layout::Csv => true,
        Layout::Json => true,
    }
}

/// The line of a row, where there is room: START DOMAIN PROTOCOL FLOWS OCTETS PACKETS, and the width of its intervals
/// where that isn't the usual one; in CSV and JSON always.
#[tactic(auto, unfolding(crate::specs::ArchiveLines::row_line))]
fn put_row(line: &mut Vec<u8>, format: Format, usual: u32, row: Row)
    requires { vec_len line.old + 428 ≤ vec_capacity line.old }
    ensures text { line.new.items ≡ line.old.items ++ row_line format usual row }
    ensures room { vec_capacity line.old ≤ vec_capacity line.new }
{
    put_opening(line, format);
    put_time(line, format, "start", row.key.start);
    put_value(line, format, "domain", row.key.domain);
    put_protocol(line, format, row.key.protocol);
    put_value(line, format, "flows", row.sums.flows);
    put_value(line, format, "octets", row.sums.octets);
    if shows_width(format.layout, usual, row.width) {
        put_value(line, format, "packets", row.sums.packets);
        put_last(line, format, "width", row.width);
    } else {
        put_last(line, format, "packets", row.sums.packets);
    }
}

/// Appends the heading of rows, where there is room: in CSV the names of their values.
pub(crate) fn put_rows_heading(line: &mut Vec<u8>, format: Format)
    requires { vec_len line.old + 428 ≤ vec_capacity line.old }
    ensures text { line.new.items ≡ line.old.items ++ heading format.layout row_names }
    ensures len { vec_len line.new ≤ vec_len line.old + 428 }
    ensures room { vec_capacity line.old ≤ vec_capacity line.new }
{
    if let Layout::Csv = format.layout {
        put_text(line, "start,domain,protocol,flows,octets,packets,width\n");
    }
}

impl HeldText {
    ghost use Rattle.std.specs.Prelude.{◌≡◌, ◌<◌, ◌≤◌, OnOk, IfErr, length, vec_capacity};
    ghost use Rattle.flow_measure.specs.declared.rows.Row.{Row};
    ghost use Rattle.flow_report.specs.ArchiveLines.{row_line};
    ghost use Rattle.flow_report.specs.Telling.{Tells, TellsFront};

    /// Takes the line of a row, and writes the text held once there is much of it.
    pub(crate) fn put_row<W: Write>(
        &mut self,
        output: &mut W,
        format: Format,
        usual: u32,
        row: Row,
    ) -> Result<(), WriteFailed>
        requires few { length self.old.text.items < 65536 }
        requires room { 65964 ≤ vec_capacity self.old.text }
        ensures told { OnOk result
            (Tells (W.contents output.old) self.old.text.items (W.contents output.new) self.new.text.items
            (row_line format usual row)) }
        ensures few { OnOk result (length self.new.text.items < 65536) }
        ensures room { 65964 ≤ vec_capacity self.new.text }
        ensures front { IfErr result
            (λ _. TellsFront (W.contents output.old) self.old.text.items (W.contents output.new)
            (row_line format usual row)) }
    {
        put_row(&mut self.text, format, usual, row);
        if self.text.len() >= MOST_HELD {
            self.flush(output)?;
        }
        Ok(())
    }
}

/// Writes the lines of rows, as they are made: no memory is taken but for the text that is held.
fn tell_rows<W: Write>(
    rows: &[Row],
    usual: u32,
    format: Format,
    lines: &mut HeldText,
    output: &mut W,
) -> Result<(), WriteFailed>
    requires none { lines.old.text.items ≡ [] }
    requires room { 65964 ≤ vec_capacity lines.old.text }
    ensures all { OnOk result
        (Appends (W.contents output.old) (W.contents output.new) (rows_text format usual rows.now)) }
    ensures front { IfErr result
        (λ _. AppendsFront (W.contents output.old) (W.contents output.new) (rows_text format usual rows.now)) }
{
    put_rows_heading(&mut lines.text, format);
    for row in rows {
        lines.put_row(output, format, usual, *row)?;
    }
    lines.flush(output)?;
    Ok(())
}

/// Writes rows: START DOMAIN PROTOCOL FLOWS OCTETS PACKETS, and the width of a row's intervals where that isn't the
/// usual one; in CSV and JSON always.
pub fn write_rows<W: Write>(
    alloc: Global,
    rows: &[Row],
    usual: u32,
    format: Format,
    output: &mut W,
) -> Result<(), TextError>
    ensures all { OnOk result
        (Appends (W.contents output.old) (W.contents output.new) (rows_text format usual rows.now)) }
    ensures cut { IfErr result
        (IsCut (W.contents output.old) (W.contents output.new) (rows_text format usual rows.now)) }
{
    let mut lines = HeldText::new(alloc)?;
    tell_rows(rows, usual, format, &mut lines, output)?;
    Ok(())
}
