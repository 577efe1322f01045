//! The command `dump`.

ghost use Rattle.std.specs.Prelude.{◌≡◌, ◌≤◌, ◌++◌, [], None, List, drop, vec_len, OnOk, IfErr, IfSome};
ghost use Rattle.std.specs.List.{flat_map};
ghost use Rattle.flow_codec.specs.Fields.{fields_in};
ghost use Rattle.flow_report.specs.Lines.{field_text, record_line, message_text};
ghost use Rattle.flow_report.specs.Telling.{Tells, TellsFront, IsCutIn};
ghost use Rattle.flow_codec.specs.Stream.{progress};
ghost use Rattle.flow_codec.specs.Raw.{raw};
ghost use Rattle.flow_report.specs.Dump.{records_in, message_of, IsNext, ReadsWithin, IsDumped, IsDumpedUntil};

use crate::line::{FIELD_ROOM, end_by_field, end_by_record};
use crate::output::{HeldText, MOST_HELD};
use crate::refusal::Refusal;
use crate::text::{push_message_line, push_start};
use flow_codec::{
    Definition, Header, MessageReader, RecordSink, Templates, WalkError, split_field, walk_message,
};
use flow_elements::ElementId;
use std::alloc::{AllocError, Global};
use std::io::{Read, Write};

/// A data record: the ID and definition of its template, and how many octets it has.
#[derive(Drop)]
struct HeldRecord {
    id: u16,
    definition: Definition,
    len: usize,
}

/// Holds the data records of a message, their octets one after the other. Its memory is kept for the next message.
#[derive(Drop)]
struct HeldRecords {
    records: Vec<HeldRecord>,
    octets: Vec<u8>,
}

/// An accepted message.
#[derive(Drop)]
struct HeldMessage {
    header: Header,
    held: HeldRecords,
}

impl HeldRecords {
    fn new(alloc: Global) -> Self {
        HeldRecords {
            records: Vec::new(alloc),
            octets: Vec::new(alloc),
        }
    }

    /// Leaves nothing held.
    fn clear(&mut self)
        ensures records { self.new.records.items ≡ [] }
        ensures octets { self.new.octets.items ≡ [] }
    {
        self.records.clear();
        self.octets.clear();
    }
}

impl RecordSink for HeldRecords {
    ghost use Rattle.flow_report.specs.Dump.{HasTaken};

    type Error = AllocError;

    type Kept = ();

    ghost holds = { λ s taken t. HasTaken s taken t };

    ghost refuses = { λ _ _ _ _. Unit {0} };

    ghost kept = { λ _. tt };

    fn record(
        &mut self,
        _header: &Header,
        id: u16,
        definition: &Definition,
        octets: &[u8],
    ) -> Result<(), AllocError> {
        self.records.push(HeldRecord {
            id,
            definition: definition.clone()?,
            len: octets.len(),
        })?;
        self.octets.extend_from_slice(octets)?;
        Ok(())
    }
}

/// Reads the next message and accepts it whole, in memory that held another; `None` at the File's end.
fn next_message<R: Read>(
    alloc: Global,
    input: &mut R,
    reader: &mut MessageReader,
    templates: &mut Templates,
    mut held: HeldRecords,
) -> Result<Option<HeldMessage>, Refusal>
    ensures next { reader.old.stopped ≡ None → IsNext (progress reader.old (R.remaining input.old)) templates.old result
        (progress reader.new (R.remaining input.new)) templates.new }
    ensures within { IfErr result
        (λ e. ReadsWithin reader.old (R.remaining input.old) e reader.new (R.remaining input.new)) }
{
    if !reader.advance(input)? {
        return Ok(None);
    }
    held.clear();
    match walk_message(templates, alloc, reader.message(), &mut held) {
        Ok(header) => Ok(Some(HeldMessage { header, held })),
        Err(WalkError::Sink(_)) => Err(Refusal::OutOfMemory),
        Err(WalkError::Message(fault)) => Err(Refusal::of_message(fault, reader.count())),
    }
}

impl HeldText {
    /// Room for a line of so many octets.
    pub(crate) fn widen(&mut self, len: usize) -> Result<(), AllocError>
        ensures text { self.new.text ≡ self.old.text }
        ensures room { OnOk result (len ≤ vec_len self.new.line) }
    {
        if self.line.len() < len {
            self.line.resize(len, 0)?;
        }
        Ok(())
    }

    /// Appends the octets of the line from a place on to the text.
    pub(crate) fn push_line(&mut self, start: usize) -> Result<(), AllocError>
        requires { start ≤ vec_len self.old.line }
        ensures { OnOk result (self.new.text.items ≡ self.old.text.items ++ drop start self.old.line.items) }
    {
        self.text.extend_from_slice(&self.line[start..])
    }

    /// Appends a field of a record to the text.
    fn push_field(&mut self, id: ElementId, octets: &[u8]) -> Result<(), AllocError>
        ensures { OnOk result (self.new.text.items
            ≡ self.old.text.items ++ field_text (record { id = id; octets = octets.now })) }
    {
        self.widen(octets.len().saturating_mul(2).saturating_add(FIELD_ROOM))?;
        match end_by_field(&mut self.line, id, octets) {
            Some(start) => self.push_line(start),
            None => Err(AllocError),
        }
    }

    /// Takes a field of a record, and writes the text held once there is much of it.
    fn put_field<W: Write>(
        &mut self,
        output: &mut W,
        id: ElementId,
        octets: &[u8],
    ) -> Result<(), Refusal>
        ensures told { OnOk result
            (Tells (W.contents output.old) self.old.text.items (W.contents output.new) self.new.text.items
            (field_text (record { id = id; octets = octets.now }))) }
        ensures front { IfErr result
            (IsCutIn (W.contents output.old) self.old.text.items (W.contents output.new)
            (field_text (record { id = id; octets = octets.now }))) }
    {
        self.push_field(id, octets)?;
        if self.text.len() >= MOST_HELD {
            self.flush(output)?;
        }
        Ok(())
    }

    /// Takes the fields of a record.
    fn put_fields<W: Write>(
        &mut self,
        output: &mut W,
        specifiers: &[(ElementId, u16)],
        octets: &[u8],
    ) -> Result<(), Refusal>
        ensures told { OnOk result
            (Tells (W.contents output.old) self.old.text.items (W.contents output.new) self.new.text.items
            (flat_map field_text (fields_in specifiers.now octets.now))) }
        ensures front { IfErr result
            (IsCutIn (W.contents output.old) self.old.text.items (W.contents output.new)
            (flat_map field_text (fields_in specifiers.now octets.now))) }
    {
        let mut rest = octets;
        for (id, len) in specifiers {
            let (value, after) = split_field(*len, rest);
            self.put_field(output, *id, value)?;
            rest = after;
        }
        Ok(())
    }

    /// Takes the line of a record, field by field.
    fn put_any_record<W: Write>(
        &mut self,
        output: &mut W,
        id: u16,
        definition: &Definition,
        octets: &[u8],
    ) -> Result<(), Refusal>
        ensures told { OnOk result
            (Tells (W.contents output.old) self.old.text.items (W.contents output.new) self.new.text.items
            (record_line (raw id definition.now octets.now))) }
        ensures front { IfErr result
            (IsCutIn (W.contents output.old) self.old.text.items (W.contents output.new)
            (record_line (raw id definition.now octets.now))) }
    {
        push_start(&mut self.text, definition.options(), id)?;
        self.put_fields(output, definition.fields(), octets)?;
        self.text.push(b'\n')?;
        Ok(())
    }

    /// Takes the line of a record: where its fields are of fixed lengths and its line isn't long, at once.
    pub(crate) fn put_record<W: Write>(
        &mut self,
        output: &mut W,
        id: u16,
        definition: &Definition,
        octets: &[u8],
    ) -> Result<(), Refusal>
        ensures told { OnOk result
            (Tells (W.contents output.old) self.old.text.items (W.contents output.new) self.new.text.items
            (record_line (raw id definition.now octets.now))) }
        ensures front { IfErr result
            (IsCutIn (W.contents output.old) self.old.text.items (W.contents output.new)
            (record_line (raw id definition.now octets.now))) }
    {
        let Some(start) = end_by_record(&mut self.line, id, definition, octets) else {
            return self.put_any_record(output, id, definition, octets);
        };
        self.push_line(start)?;
        if self.text.len() >= MOST_HELD {
            self.flush(output)?;
        }
        Ok(())
    }

    /// Takes the lines of records, whose octets come one after the other.
    fn put_records<W: Write>(
        &mut self,
        output: &mut W,
        records: &[HeldRecord],
        octets: &[u8],
    ) -> Result<(), Refusal>
        ensures told { OnOk result
            (Tells (W.contents output.old) self.old.text.items (W.contents output.new) self.new.text.items
            (flat_map record_line (records_in records.now octets.now))) }
        ensures front { IfErr result
            (IsCutIn (W.contents output.old) self.old.text.items (W.contents output.new)
            (flat_map record_line (records_in records.now octets.now))) }
    {
        let mut rest = octets;
        for record in records {
            let (own, after) = rest.split_at(record.len.min(rest.len()));
            self.put_record(output, record.id, &record.definition, own)?;
            rest = after;
        }
        Ok(())
    }

    /// Takes the lines of a message.
    fn put_message<W: Write>(
        &mut self,
        output: &mut W,
        message: &HeldMessage,
    ) -> Result<(), Refusal>
        ensures told { OnOk result
            (Tells (W.contents output.old) self.old.text.items (W.contents output.new) self.new.text.items
            (message_text (message_of message.now))) }
        ensures front { IfErr result
            (IsCutIn (W.contents output.old) self.old.text.items (W.contents output.new)
            (message_text (message_of message.now))) }
    {
        push_message_line(&mut self.text, &message.header)?;
        let HeldRecords { records, octets } = &message.held;
        self.put_records(output, records.as_slice(), octets.as_slice())
    }
}

/// Writes the messages of a File that was opened now, in text that holds nothing, and memory for a message.
fn dump_messages<R: Read, W: Write>(
    alloc: Global,
    input: &mut R,
    output: &mut W,
    reader: &mut MessageReader,
    templates: &mut Templates,
    lines: &mut HeldText,
    mut held: HeldRecords,
) -> Result<(), Refusal>
    requires opened { reader.old ≡ record { ahead = []; message = []; count = 0; at = 0; stopped = None } }
    requires undefined { templates.old ≡ [] }
    requires none { lines.old.text.items ≡ [] }
    ensures dumped { OnOk result
        (IfSome (R.remaining input.old) (λ octets. IsDumped octets (W.contents output.old) (W.contents output.new))) }
    ensures refused { IfErr result
        (λ e. IfSome (R.remaining input.old)
        (λ octets. IsDumpedUntil octets (R.remaining input.new) (W.contents output.old) (W.contents output.new) e)) }
{
    'messages: loop {
        match next_message(alloc, input, reader, templates, held) {
            Ok(Some(message)) => {
                lines.put_message(output, &message)?;
                held = message.held;
            }
            Ok(None) => {
                lines.flush(output)?;
                return Ok(());
            }
            Err(refusal) => {
                lines.flush(output)?;
                return Err(refusal);
            }
        }
    }
}

/// Writes the messages of the File that `input` reads, and their data records, a line each, as they are read.
///
/// It holds one message, and text of some 64 KiB beside a field's. Where the File ends by a fault, a refused message or
/// a failed read, the lines of all messages before are written; where memory runs out or writing fails, a prefix of the
/// lines.
pub fn dump<R: Read, W: Write>(alloc: Global, input: &mut R, output: &mut W) -> Result<(), Refusal>
    ensures dumped { OnOk result
        (IfSome (R.remaining input.old) (λ octets. IsDumped octets (W.contents output.old) (W.contents output.new))) }
    ensures refused { IfErr result
        (λ e. IfSome (R.remaining input.old)
        (λ octets. IsDumpedUntil octets (R.remaining input.new) (W.contents output.old) (W.contents output.new) e)) }
{
    let mut reader = MessageReader::new(alloc)?;
    let mut lines = HeldText::new(alloc)?;
    let mut templates = Templates::new(alloc);
    dump_messages(
        alloc,
        input,
        output,
        &mut reader,
        &mut templates,
        &mut lines,
        HeldRecords::new(alloc),
    )
}
