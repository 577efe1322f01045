//! Lines of flows' data records.

ghost use Rattle.std.specs.Prelude.{◌≡◌, ◌++◌, ◌∷◌, [], OnOk, OnErr, IfErr, IfOk};
ghost use Rattle.std.specs.Io.KnownBytes.{Appends};
ghost use Rattle.std.specs.Fmt.{decimal};
ghost use Rattle.flow_codec.specs.Raw.{raw};
ghost use Rattle.flow_report.specs.Formats.{second_text};
ghost use Rattle.flow_report.specs.Records.{record_text, words_line};
ghost use Rattle.flow_report.specs.Telling.{IsCutIn, Tells, TellsFront};
ghost use Rattle.flow_report.specs.Writing.{AppendsFront};

use crate::format::Times;
use crate::output::HeldText;
use crate::patient::WriteFailed;
use crate::refusal::Refusal;
use crate::text_error::TextError;
use flow_codec::{Definition, Header};
use flow_dates::time_text;
use itoa::Buffer;
use std::alloc::{AllocError, Global};
use std::io::Write;
use std::marker::Model;

/// How the fields of a data record are laid out.
#[derive(Clone, Copy, Debug, PartialEq, Eq)]
pub enum RecordLayout {
    /// A line each, as `dump` writes it.
    Lines,
    /// JSON (RFC 8259), an object each, which is a line.
    Json,
}

/// How data records are written.
#[derive(Clone, Copy, Debug, PartialEq, Eq)]
pub struct RecordFormat {
    pub layout: RecordLayout,
    pub times: Times,
}

/// A number in decimal.
pub(crate) fn push_number(text: &mut Vec<u8>, number: u64) -> Result<(), AllocError>
    ensures { OnOk result (text.new.items ≡ text.old.items ++ decimal number) }
{
    let mut digits = Buffer::new();
    text.extend_from_slice(digits.format(number).as_bytes())?;
    Ok(())
}

/// A time.
pub(crate) fn push_second(text: &mut Vec<u8>, times: Times, second: u32) -> Result<(), AllocError>
    ensures { OnOk result (text.new.items ≡ text.old.items ++ second_text times second) }
{
    match times {
        Times::Seconds => push_number(text, second as u64),
        Times::Dates => {
            text.extend_from_slice(&time_text(second))?;
            Ok(())
        }
    }
}

/// What a record's line begins with: START DOMAIN, with a space after each.
fn push_flow(text: &mut Vec<u8>, times: Times, start: u32, domain: u32) -> Result<(), AllocError>
    ensures { OnOk result (text.new.items
        ≡ text.old.items ++ (second_text times start ++ 32 ∷ decimal domain ++ 32 ∷ [])) }
{
    push_second(text, times, start)?;
    text.push(b' ')?;
    push_number(text, domain as u64)?;
    text.push(b' ')?;
    Ok(())
}

/// Why text isn't written whole, by the refusal of what was writing it.
fn cut_by(refusal: Refusal) -> TextError {
    match refusal {
        Refusal::Write(failed) => TextError::Write(failed),
        _ => TextError::OutOfMemory,
    }
}

impl HeldText {
    ghost use Rattle.std.specs.Prelude.{◌≡◌, OnOk, OnErr, IfErr};
    ghost use Rattle.flow_codec.specs.Raw.{raw};
    ghost use Rattle.flow_report.specs.Records.{record_text, words_line};
    ghost use Rattle.flow_report.specs.Telling.{IsCutIn, Tells, TellsFront};

    /// Takes the line of a flow's record, in words.
    fn put_words<W: Write>(
        &mut self,
        output: &mut W,
        times: Times,
        start: u32,
        header: &Header,
        id: u16,
        definition: &Definition,
        octets: &[u8],
    ) -> Result<(), Refusal>
        ensures told { OnOk result
            (Tells (W.contents output.old) self.old.text.items (W.contents output.new) self.new.text.items
            (words_line times (start, (header.now, raw id definition.now octets.now)))) }
        ensures front { IfErr result
            (IsCutIn (W.contents output.old) self.old.text.items (W.contents output.new)
            (words_line times (start, (header.now, raw id definition.now octets.now)))) }
    {
        push_flow(&mut self.text, times, start, header.domain)?;
        self.put_record(output, id, definition, octets)
    }

    /// Takes the line of a flow's record.
    fn put_flow_record<W: Write>(
        &mut self,
        output: &mut W,
        format: RecordFormat,
        start: u32,
        header: &Header,
        id: u16,
        definition: &Definition,
        octets: &[u8],
    ) -> Result<(), Refusal>
        ensures told { OnOk result
            (Tells (W.contents output.old) self.old.text.items (W.contents output.new) self.new.text.items
            (record_text format (start, (header.now, raw id definition.now octets.now)))) }
        ensures front { IfErr result
            (IsCutIn (W.contents output.old) self.old.text.items (W.contents output.new)
            (record_text format (start, (header.now, raw id definition.now octets.now)))) }
    {
        match format.layout {
            RecordLayout::Lines => {
                self.put_words(output, format.times, start, header, id, definition, octets)
            }
            RecordLayout::Json => {
                self.put_object(output, format.times, start, header, id, definition, octets)
            }
        }
    }
}

/// Lines of data records on their way to a writer. Some 64 KiB of them are held, and written once there are more.
#[derive(Drop)]
pub struct RecordLines {
    lines: HeldText,
    format: RecordFormat,
}

impl Model for RecordLines {
    ghost use Rattle.flow_report.specs.Records.{RecordText};

    ghost Value = { RecordText };

    ghost view = { λ l. record { format = l.format; held = l.lines.text.items } };
}

impl RecordLines {
    /// Of no records.
    pub fn new(alloc: Global, format: RecordFormat) -> Result<Self, AllocError>
        ensures { IfOk result (λ l. l ≡ record { format = format; held = [] }) }
    {
        Ok(RecordLines {
            lines: HeldText::new(alloc)?,
            format,
        })
    }

    /// Takes the line of a data record, whose flow starts at `start`, under the header of its message. After an `Err`
    /// the writer has a prefix of what was held and of this line.
    pub fn put<W: Write>(
        &mut self,
        output: &mut W,
        start: u32,
        header: &Header,
        id: u16,
        definition: &Definition,
        octets: &[u8],
    ) -> Result<(), TextError>
        ensures format { self.new.format ≡ self.old.format }
        ensures told { OnOk result (Tells (W.contents output.old) self.old.held (W.contents output.new) self.new.held
            (record_text self.old.format (start, (header.now, raw id definition.now octets.now)))) }
        ensures front { OnErr result (TellsFront (W.contents output.old) self.old.held (W.contents output.new)
            (record_text self.old.format (start, (header.now, raw id definition.now octets.now)))) }
    {
        let format = self.format;
        match self
            .lines
            .put_flow_record(output, format, start, header, id, definition, octets)
        {
            Ok(()) => Ok(()),
            Err(refusal) => Err(cut_by(refusal)),
        }
    }

    /// Writes all that is held. After an `Err` the writer has a prefix of it.
    pub fn end<W: Write>(self, output: &mut W) -> Result<(), WriteFailed>
        ensures all { OnOk result (Appends (W.contents output.old) (W.contents output.new) self.held) }
        ensures front { IfErr result
            (λ _. AppendsFront (W.contents output.old) (W.contents output.new) self.held) }
    {
        let mut lines = self.lines;
        lines.flush(output)
    }
}
