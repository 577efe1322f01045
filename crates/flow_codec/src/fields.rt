//! A message's records in fields.

ghost use Rattle.std.specs.Prelude.{◌≡◌, ◌⊎◌, take, drop, IfOk, IfErr, OnErr};
ghost use Rattle.flow_codec.specs.Templates.{AllTemplates};
ghost use Rattle.flow_codec.specs.Fields.{counted_of, value_of, fields_in};
ghost use Rattle.flow_codec.specs.Raw.{RawMessage};
ghost use Rattle.flow_codec.specs.Message.{IsAccepted, IsRead, in_fields};
ghost use Rattle.flow_codec.specs.Fault.{IsFault};

use crate::error::MessageError;
use crate::message::{DataRecord, Field, Header, Message};
use crate::plan::VARIABLE;
use crate::sink::RecordSink;
use crate::templates::{Definition, Templates};
use crate::walk::walk_message;
use flow_elements::{ElementId, Items};
use std::alloc::{AllocError, Global};

/// The first `count` octets, or all where there are fewer, and those after them.
fn split_up_to(octets: &[u8], count: usize) -> (&[u8], &[u8])
    ensures front { result.0.now ≡ take count octets.now }
    ensures back { result.1.now ≡ drop count octets.now }
{
    if octets.len() < count {
        return octets.split_at(octets.len());
    }
    octets.split_at(count)
}

/// The octets that a length in one octet or three counts, and the octets after them.
fn split_counted(octets: &[u8]) -> (&[u8], &[u8])
    ensures value { result.0.now ≡ (counted_of octets.now).0 }
    ensures rest { result.1.now ≡ (counted_of octets.now).1 }
{
    let [first, rest @ ..] = octets else {
        return (octets, octets);
    };
    if *first < 255 {
        return split_up_to(rest, *first as usize);
    }
    if rest.len() < 2 {
        let (_, none) = rest.split_at(rest.len());
        return (none, none);
    }
    let (len, after) = rest.split_at(2);
    split_up_to(after, u16::from_be_bytes([len[0], len[1]]) as usize)
}

/// The value of the field that octets of a record begin with, by its Field Length, and the octets after it (RFC 7011,
/// sections 3.4.3 and 7). A Field Length of 65535 means variable length: the length octets, one or three, are left out
/// of the value. Nothing is copied; where the octets are too few, the value is shorter.
pub fn split_field(len: u16, octets: &[u8]) -> (&[u8], &[u8])
    ensures value { result.0.now ≡ (value_of len octets.now).0 }
    ensures rest { result.1.now ≡ (value_of len octets.now).1 }
{
    if len == VARIABLE {
        return split_counted(octets);
    }
    split_up_to(octets, len as usize)
}

/// The fields of a whole record.
fn fields_of(
    alloc: Global,
    specifiers: &[(ElementId, u16)],
    octets: &[u8],
) -> Result<Items<Field>, AllocError>
    ensures { IfOk result (λ fields. fields ≡ fields_in specifiers.now octets.now) }
{
    let mut fields = Vec::new(alloc);
    let mut rest = octets;
    for (id, len) in specifiers {
        let (value, after) = split_field(*len, rest);
        fields.push(Field {
            id: *id,
            octets: Items::from_vec(Vec::from_slice(alloc, value)?),
        })?;
        rest = after;
    }
    Ok(Items::from_vec(fields))
}

/// A sink that builds data records in fields.
#[derive(Drop)]
struct Records {
    alloc: Global,
    records: Vec<DataRecord>,
}

impl RecordSink for Records {
    ghost use Rattle.std.specs.Prelude.{◌≡◌, ◌++◌, map};
    ghost use Rattle.flow_codec.specs.Message.{interpreted};

    type Error = AllocError;

    type Kept = ();

    ghost holds = { λ s taken t. t.records.items ≡ s.records.items ++ map (λ x. interpreted x.1) taken };

    ghost refuses = { λ _ _ _ _. Unit {0} };

    ghost kept = { λ _. tt };

    fn record(
        &mut self,
        _header: &Header,
        id: u16,
        definition: &Definition,
        octets: &[u8],
    ) -> Result<(), AllocError> {
        let fields = fields_of(self.alloc, definition.fields(), octets)?;
        self.records.push(DataRecord {
            template: id,
            options: definition.options(),
            fields,
        })?;
        Ok(())
    }
}

/// Reads a message in fields, and takes its templates in. An `Err` leaves the templates as they were.
///
/// It builds every field. A hostile message has many fields of no octets, so accepting, counting and measuring walk the
/// message instead.
pub fn read_message(
    templates: &mut Templates,
    alloc: Global,
    octets: &[u8],
) -> Result<Message, MessageError>
    // What is read is an accepted message, and its templates are taken in.
    ensures found { IfOk result (λ m. (raw : RawMessage) × IsAccepted octets.now templates.old raw templates.new
        × (m ≡ in_fields raw)) }
    // An accepted message is read, unless memory runs out.
    ensures only { (m : RawMessage) (after : AllTemplates) → IsAccepted octets.now templates.old m after
        → IsRead result templates.new m after }
    // Other octets are refused by their first fault.
    ensures fault { IfErr result (λ e. (e ≡ MessageError.OutOfMemory) ⊎ IsFault octets.now templates.old e) }
    ensures err { OnErr result (templates.new ≡ templates.old) }
{
    let mut sink = Records {
        alloc,
        records: Vec::new(alloc),
    };
    let header = walk_message(templates, alloc, octets, &mut sink)?;
    Ok(Message {
        header,
        records: Items::from_vec(sink.records),
    })
}
