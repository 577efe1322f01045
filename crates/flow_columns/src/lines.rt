//! Lines of flows' data records.

ghost use Rattle.std.specs.Prelude.{◌≡◌, IfErr, IfOk, OnErr, OnOk};
ghost use Rattle.std.specs.Io.KnownBytes.{Appends};
ghost use Rattle.flow_codec.specs.Raw.{raw};
ghost use Rattle.flow_columns.specs.Lines.{heading, line_by, line_text};
ghost use Rattle.flow_report.specs.Telling.{Tells, TellsFront};
ghost use Rattle.flow_report.specs.Writing.{AppendsFront};

use crate::columns::ColumnLines;
use crate::names::LineFormat;
use flow_codec::{Definition, Header};
use flow_report::{RecordLines, TextError, WriteFailed};
use std::alloc::{AllocError, Global};
use std::io::Write;
use std::marker::Model;

/// How they are made.
#[derive(Drop)]
pub(crate) enum Made {
    Whole(RecordLines),
    Cells(ColumnLines),
}

/// Lines of flows' data records on their way to a writer, with their heading. Some 64 KiB of them are held, and written
/// once there are more.
#[derive(Drop)]
pub struct ListLines {
    made: Made,
}

impl Model for ListLines {
    ghost use Rattle.flow_columns.specs.Lines.{LinesText};
    ghost use Rattle.flow_columns.specs.Made.{text_of};

    ghost Value = { LinesText };

    ghost view = { λ l. text_of l.made };
}

impl ListLines {
    /// Of no records: the heading is held, which in CSV names the fields.
    pub fn new(alloc: Global, format: &LineFormat<'_>) -> Result<Self, AllocError>
        ensures { IfOk result (λ l. l ≡ record { line = line_by format.now; held = heading format.now }) }
    {
        let made = match format {
            LineFormat::Whole(whole) => Made::Whole(RecordLines::new(alloc, *whole)?),
            LineFormat::Columns(names, times) => {
                Made::Cells(ColumnLines::new(alloc, names.text(), *times)?)
            }
        };
        Ok(ListLines { made })
    }

    /// Takes the line of a data record, whose flow starts at `start`, under the header of its message. After an `Err`
    /// the writer has a prefix of what was held and of this line.
    pub fn put<W: Write>(
        &mut self,
        output: &mut W,
        start: u32,
        header: &Header,
        id: u16,
        definition: &Definition,
        octets: &[u8],
    ) -> Result<(), TextError>
        ensures line { self.new.line ≡ self.old.line }
        ensures told { OnOk result (Tells (W.contents output.old) self.old.held (W.contents output.new) self.new.held
            (line_text self.old.line (start, (header.now, raw id definition.now octets.now)))) }
        ensures front { OnErr result (TellsFront (W.contents output.old) self.old.held (W.contents output.new)
            (line_text self.old.line (start, (header.now, raw id definition.now octets.now)))) }
    {
        match &mut self.made {
            Made::Whole(lines) => lines.put(output, start, header, id, definition, octets),
            Made::Cells(lines) => lines.put(output, start, header, id, definition, octets),
        }
    }

    /// Writes all that is held. After an `Err` the writer has a prefix of it.
    pub fn end<W: Write>(self, output: &mut W) -> Result<(), WriteFailed>
        ensures all { OnOk result (Appends (W.contents output.old) (W.contents output.new) self.held) }
        ensures front { OnErr result
            (AppendsFront (W.contents output.old) (W.contents output.new) self.held) }
    {
        match self.made {
            Made::Whole(lines) => lines.end(output),
            Made::Cells(lines) => lines.end(output),
        }
    }
}
