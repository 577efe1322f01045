//! Data records as JSON.

ghost use Rattle.std.specs.Prelude.{◌≡◌, ◌≤◌, ◌+◌, ◌*◌, ◌++◌, ◌∷◌, [], length, OnOk, IfErr, IfSome};
ghost use Rattle.std.specs.List.{flat_map};
ghost use Rattle.flow_elements.specs.Values.{value_by, value_of};
ghost use Rattle.flow_codec.specs.Fields.{fields_in};
ghost use Rattle.flow_codec.specs.Raw.{raw};
ghost use Rattle.flow_report.specs.Formats.{time_by};
ghost use Rattle.flow_report.specs.declared.format.Layout.TheVariants.{Json};
ghost use Rattle.flow_report.specs.Lines.{name_text, number_text, value_text};
ghost use Rattle.flow_report.specs.Records.{json_field, json_line, json_start, json_value, quoted};
ghost use Rattle.flow_report.specs.Telling.{EndsBy, IsCutIn, IsPut, Tells};

use crate::format::Times;
use crate::line::{FIELD_ROOM, put_number, put_octet, put_value};
use crate::output::{HeldText, MOST_HELD};
use crate::records::{push_number, push_second};
use crate::refusal::Refusal;
use flow_codec::{Definition, Header, VARIABLE, split_field};
use flow_elements::{ElementId, ElementType, LentValue, element_name, element_type, lend_value};
use std::alloc::AllocError;
use std::io::Write;

/// A value in quotes.
fn put_quoted(line: &mut [u8], at: usize, kind: ElementType, octets: &[u8]) -> usize
    requires { (85 + 2 * length octets.now ≤ at) × (at ≤ length line.old) }
    ensures put { IsPut line.old at line.new result (quoted (value_text (value_by kind octets.now))) }
{
    let at = put_octet(line, at, b'"');
    let at = put_value(line, at, kind, octets);
    put_octet(line, at, b'"')
}

/// A value: a number as one, another in quotes.
fn put_json_value(line: &mut [u8], at: usize, kind: ElementType, octets: &[u8]) -> usize
    requires { (85 + 2 * length octets.now ≤ at) × (at ≤ length line.old) }
    ensures put { IsPut line.old at line.new result (json_value (value_by kind octets.now)) }
{
    match lend_value(kind, octets) {
        LentValue::Unsigned(number) => put_number(line, at, number),
        LentValue::Address4(_) => put_quoted(line, at, kind, octets),
        LentValue::Address6(_) => put_quoted(line, at, kind, octets),
        LentValue::Mac(_) => put_quoted(line, at, kind, octets),
        LentValue::Octets(_) => put_quoted(line, at, kind, octets),
    }
}

/// The value of an element's octets, by which the line then ends; `None` where there is no room, or where it has more
/// octets than a field can have.
fn end_by_value(line: &mut [u8], id: ElementId, octets: &[u8]) -> Option<usize>
    ensures { IfSome result (λ start. EndsBy line.new start (json_value (value_of id octets.now))) }
{
    if octets.len() >= VARIABLE as usize {
        return None;
    }
    let end = line.len();
    if end < FIELD_ROOM + 2 * octets.len() {
        return None;
    }
    Some(put_json_value(line, end, element_type(id), octets))
}

/// The name of an element that isn't listed.
fn push_element_number(text: &mut Vec<u8>, id: ElementId) -> Result<(), AllocError>
    ensures { OnOk result (text.new.items ≡ text.old.items ++ number_text id.enterprise id.number) }
{
    text.push(b'e')?;
    if let Some(enterprise) = id.enterprise {
        push_number(text, enterprise as u64)?;
        text.push(b'.')?;
    }
    push_number(text, id.number as u64)
}

/// The name of an element.
fn push_name(text: &mut Vec<u8>, id: ElementId) -> Result<(), AllocError>
    ensures { OnOk result (text.new.items ≡ text.old.items ++ name_text id) }
{
    match element_name(id) {
        Some(name) => {
            text.extend_from_slice(name.as_bytes())?;
            Ok(())
        }
        None => push_element_number(text, id),
    }
}

/// What comes before a value: a comma, the element's name in quotes, and a colon.
fn push_json_name(text: &mut Vec<u8>, id: ElementId) -> Result<(), AllocError>
    ensures { OnOk result (text.new.items ≡ text.old.items ++ (44 ∷ 34 ∷ name_text id ++ 34 ∷ 58 ∷ [])) }
{
    text.push(b',')?;
    text.push(b'"')?;
    push_name(text, id)?;
    text.push(b'"')?;
    text.push(b':')?;
    Ok(())
}

/// A time: a date in quotes.
fn push_json_second(text: &mut Vec<u8>, times: Times, second: u32) -> Result<(), AllocError>
    ensures { OnOk result (text.new.items ≡ text.old.items ++ time_by Json times second) }
{
    match times {
        Times::Seconds => push_second(text, times, second),
        Times::Dates => {
            text.push(b'"')?;
            push_second(text, times, second)?;
            text.push(b'"')?;
            Ok(())
        }
    }
}

/// What an object begins with: when the flow starts, its Observation Domain, and the ID of its template.
#[tactic(auto, unfolding(crate::specs::Records::json_start))]
fn push_json_start(
    text: &mut Vec<u8>,
    times: Times,
    start: u32,
    domain: u32,
    id: u16,
) -> Result<(), AllocError>
    ensures { OnOk result (text.new.items ≡ text.old.items ++ json_start times start domain id) }
{
    text.extend_from_slice(b"{\"start\":")?;
    push_json_second(text, times, start)?;
    text.extend_from_slice(b",\"domain\":")?;
    push_number(text, domain as u64)?;
    text.extend_from_slice(b",\"template\":")?;
    push_number(text, id as u64)
}

impl HeldText {
    ghost use Rattle.std.specs.Prelude.{◌≡◌, ◌++◌, OnOk, IfErr};
    ghost use Rattle.std.specs.List.{flat_map};
    ghost use Rattle.flow_codec.specs.Fields.{fields_in};
    ghost use Rattle.flow_codec.specs.Raw.{raw};
    ghost use Rattle.flow_elements.specs.Values.{value_of};
    ghost use Rattle.flow_report.specs.Records.{json_field, json_line, json_value};
    ghost use Rattle.flow_report.specs.Telling.{IsCutIn, Tells};

    /// Appends the value of a field to the text.
    fn push_json_value(&mut self, id: ElementId, octets: &[u8]) -> Result<(), AllocError>
        ensures { OnOk result (self.new.text.items
            ≡ self.old.text.items ++ json_value (value_of id octets.now)) }
    {
        self.widen(octets.len().saturating_mul(2).saturating_add(FIELD_ROOM))?;
        match end_by_value(&mut self.line, id, octets) {
            Some(start) => self.push_line(start),
            None => Err(AllocError),
        }
    }

    /// Appends a field of an object to the text.
    fn push_json_field(&mut self, id: ElementId, octets: &[u8]) -> Result<(), AllocError>
        ensures { OnOk result (self.new.text.items
            ≡ self.old.text.items ++ json_field (record { id = id; octets = octets.now })) }
    {
        push_json_name(&mut self.text, id)?;
        self.push_json_value(id, octets)
    }

    /// Takes a field of an object, and writes the text held once there is much of it.
    fn put_json_field<W: Write>(
        &mut self,
        output: &mut W,
        id: ElementId,
        octets: &[u8],
    ) -> Result<(), Refusal>
        ensures told { OnOk result
            (Tells (W.contents output.old) self.old.text.items (W.contents output.new) self.new.text.items
            (json_field (record { id = id; octets = octets.now }))) }
        ensures front { IfErr result
            (IsCutIn (W.contents output.old) self.old.text.items (W.contents output.new)
            (json_field (record { id = id; octets = octets.now }))) }
    {
        self.push_json_field(id, octets)?;
        if self.text.len() >= MOST_HELD {
            self.flush(output)?;
        }
        Ok(())
    }

    /// Takes the fields of an object.
    fn put_json_fields<W: Write>(
        &mut self,
        output: &mut W,
        specifiers: &[(ElementId, u16)],
        octets: &[u8],
    ) -> Result<(), Refusal>
        ensures told { OnOk result
            (Tells (W.contents output.old) self.old.text.items (W.contents output.new) self.new.text.items
            (flat_map json_field (fields_in specifiers.now octets.now))) }
        ensures front { IfErr result
            (IsCutIn (W.contents output.old) self.old.text.items (W.contents output.new)
            (flat_map json_field (fields_in specifiers.now octets.now))) }
    {
        let mut rest = octets;
        for (id, len) in specifiers {
            let (value, after) = split_field(*len, rest);
            self.put_json_field(output, *id, value)?;
            rest = after;
        }
        Ok(())
    }

    /// Takes the line of a flow's record, as an object.
    pub(crate) fn put_object<W: Write>(
        &mut self,
        output: &mut W,
        times: Times,
        start: u32,
        header: &Header,
        id: u16,
        definition: &Definition,
        octets: &[u8],
    ) -> Result<(), Refusal>
        ensures told { OnOk result
            (Tells (W.contents output.old) self.old.text.items (W.contents output.new) self.new.text.items
            (json_line times (start, (header.now, raw id definition.now octets.now)))) }
        ensures front { IfErr result
            (IsCutIn (W.contents output.old) self.old.text.items (W.contents output.new)
            (json_line times (start, (header.now, raw id definition.now octets.now)))) }
    {
        push_json_start(&mut self.text, times, start, header.domain, id)?;
        self.put_json_fields(output, definition.fields(), octets)?;
        self.text.extend_from_slice(b"}\n")?;
        Ok(())
    }
}
