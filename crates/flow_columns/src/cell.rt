//! What a column has of a record.

ghost use Rattle.std.specs.Prelude.{◌≡◌, ◌++◌, OnOk, option_map};
ghost use Rattle.flow_codec.specs.Fields.{fields_in};
ghost use Rattle.flow_codec.specs.Raw.{raw};
ghost use Rattle.flow_columns.specs.Lines.{cell, cell_or_none, field_of, is_same, value_or_none};

use crate::column::Column;
use crate::value::{push_number, push_second, push_value};
use flow_codec::{Definition, Header, split_field};
use flow_elements::{ElementId, element_type};
use flow_report::Times;
use std::alloc::AllocError;

/// Whether they are one element.
fn is_same(a: ElementId, b: ElementId) -> bool
    ensures { result ≡ is_same a b }
{
    match (a.enterprise, b.enterprise) {
        (None, None) => a.number == b.number,
        (Some(of_a), Some(of_b)) => of_a == of_b && a.number == b.number,
        _ => false,
    }
}

/// The octets of a record's first field of an element.
fn field_of<'a>(
    id: ElementId,
    specifiers: &[(ElementId, u16)],
    octets: &'a [u8],
) -> Option<&'a [u8]>
    ensures { option_map (λ o. o.now) result ≡ field_of id (fields_in specifiers.now octets.now) }
{
    let mut rest = octets;
    for (of, len) in specifiers {
        let (value, after) = split_field(*len, rest);
        if is_same(*of, id) {
            return Some(value);
        }
        rest = after;
    }
    None
}

/// The value of a record's first field of an element; nothing where there is none.
fn push_field(
    text: &mut Vec<u8>,
    id: ElementId,
    specifiers: &[(ElementId, u16)],
    octets: &[u8],
) -> Result<(), AllocError>
    ensures { OnOk result (text.new.items
        ≡ text.old.items ++ value_or_none id (field_of id (fields_in specifiers.now octets.now))) }
{
    match field_of(id, specifiers, octets) {
        Some(value) => push_value(text, element_type(id), value),
        None => Ok(()),
    }
}

/// What a column has of a record.
fn push_column(
    text: &mut Vec<u8>,
    times: Times,
    column: Column,
    start: u32,
    header: &Header,
    id: u16,
    definition: &Definition,
    octets: &[u8],
) -> Result<(), AllocError>
    ensures { OnOk result (text.new.items
        ≡ text.old.items ++ cell times (start, (header.now, raw id definition.now octets.now)) column) }
{
    match column {
        Column::Start => push_second(text, times, start),
        Column::Domain => push_number(text, header.domain as u64),
        Column::Template => push_number(text, id as u64),
        Column::Element(element) => push_field(text, element, definition.fields(), octets),
    }
}

/// The same, and nothing where there is no column.
pub(crate) fn push_cell(
    text: &mut Vec<u8>,
    times: Times,
    column: Option<Column>,
    start: u32,
    header: &Header,
    id: u16,
    definition: &Definition,
    octets: &[u8],
) -> Result<(), AllocError>
    ensures { OnOk result (text.new.items
        ≡ text.old.items ++ cell_or_none times (start, (header.now, raw id definition.now octets.now)) column) }
{
    match column {
        Some(column) => push_column(text, times, column, start, header, id, definition, octets),
        None => Ok(()),
    }
}
