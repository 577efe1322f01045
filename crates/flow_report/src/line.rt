//! Lines that are written from their end to their start: each call puts text right before the octets from `at` on, and
//! answers the place where that text begins. So the digits of a number are written where they stay. The octets before
//! that place may be anything.

ghost use Rattle.std.specs.Prelude.{◌≡◌, ◌≤◌, ◌+◌, ◌*◌, ◌∷◌, ◌++◌, [], map, length, drop, codes, IfSome};
ghost use Rattle.std.specs.Prelude.{if◌then◌else◌};
ghost use Rattle.std.specs.Fmt.{decimal};
ghost use Rattle.std.specs.List.{flat_map, join_with_byte};
ghost use Rattle.flow_elements.specs.Values.{value_by};
ghost use Rattle.flow_codec.specs.Raw.{raw};
ghost use Rattle.flow_codec.specs.Fields.{fields_in};
ghost use Rattle.flow_report.specs.Lines.{hex, octets_text, pairs, value_text, number_text, field_text, record_line};
ghost use Rattle.flow_report.specs.Lines.{start_text};
ghost use Rattle.flow_report.specs.Telling.{IsPut, EndsBy};

use crate::label::{LABEL_ROOM, Label, label_of};
use crate::tables::{dotted_octet, hex_of};
use flow_codec::{Definition, VARIABLE};
use flow_elements::{ElementId, ElementType, LentValue, lend_value};
use itoa::write_digits;

/// The most octets of a field's text beside two for each of its value's.
pub(crate) const FIELD_ROOM: usize = 128;

/// One octet.
pub(crate) fn put_octet(line: &mut [u8], at: usize, octet: u8) -> usize
    requires { (1 ≤ at) × (at ≤ length line.old) }
    ensures put { IsPut line.old at line.new result (octet ∷ []) }
    ensures room { at ≤ result + 1 }
{
    let start = at - 1;
    line[start] = octet;
    start
}

/// Octets of text.
fn put_text(line: &mut [u8], at: usize, text: &[u8]) -> usize
    requires { (length text.now ≤ at) × (at ≤ length line.old) }
    ensures put { IsPut line.old at line.new result text.now }
    ensures room { result + length text.now ≡ at }
{
    let start = at - text.len();
    line[start..at].copy_from_slice(text);
    start
}

/// A number in decimal.
pub(crate) fn put_number(line: &mut [u8], at: usize, number: u64) -> usize
    requires { (20 ≤ at) × (at ≤ length line.old) }
    ensures put { IsPut line.old at line.new result (decimal number) }
    ensures room { at ≤ result + 20 }
{
    write_digits(number, line, at)
}

/// Octets in lower-case hexadecimal.
fn encode(octets: &[u8], text: &mut [u8])
    requires { length text.old ≡ 2 * length octets.now }
    ensures { text.new ≡ octets_text octets.now }
{
    hex::encode_to_slice(octets, text).unwrap();
}

/// Octets in lower-case hexadecimal.
fn put_octets(line: &mut [u8], at: usize, octets: &[u8]) -> usize
    requires { (2 * length octets.now ≤ at) × (at ≤ length line.old) }
    ensures put { IsPut line.old at line.new result (octets_text octets.now) }
    ensures room { at ≤ result + 2 * length octets.now }
{
    let start = at - 2 * octets.len();
    encode(octets, &mut line[start..at]);
    start
}

/// The octets that hold a part of an address.
fn put_part_whole(line: &mut [u8], at: usize, octets: [u8; 4]) -> usize
    requires { (4 ≤ at) × (at ≤ length line.old) }
    ensures put { IsPut line.old at line.new result octets }
    ensures room { result + 4 ≡ at }
    ensures len { length octets ≡ 4 }
{
    put_text(line, at, &octets)
}

/// A part of an address in decimal, after a dot: octets that are copied whole, as a label's are.
fn put_part(line: &mut [u8], at: usize, octet: u8) -> usize
    requires { (4 ≤ at) × (at ≤ length line.old) }
    ensures put { IsPut line.old at line.new result (46 ∷ decimal octet) }
    ensures room { (at ≤ result + 4) × (result + 2 ≤ at) }
{
    let part = dotted_octet(octet);
    put_part_whole(line, at, part.octets) + part.before
}

/// An IPv4 address in dotted decimal. The dot before its first part is left out.
fn put_address4(line: &mut [u8], at: usize, octets: [u8; 4]) -> usize
    requires { (83 ≤ at) × (at ≤ length line.old) }
    ensures put { IsPut line.old at line.new result (join_with_byte 46 (map decimal octets)) }
    ensures room { at ≤ result + 83 }
{
    let [a, b, c, d] = octets;
    let at = put_part(line, at, d);
    let at = put_part(line, at, c);
    let at = put_part(line, at, b);
    put_part(line, at, a) + 1
}

/// An octet in hexadecimal.
fn put_hex(line: &mut [u8], at: usize, octet: u8) -> usize
    requires { (2 ≤ at) × (at ≤ length line.old) }
    ensures put { IsPut line.old at line.new result (hex octet) }
    ensures room { at ≤ result + 2 }
{
    put_text(line, at, &hex_of(octet))
}

/// An octet in hexadecimal, after a colon.
fn put_mac_part(line: &mut [u8], at: usize, octet: u8) -> usize
    requires { (3 ≤ at) × (at ≤ length line.old) }
    ensures put { IsPut line.old at line.new result (58 ∷ hex octet) }
    ensures room { at ≤ result + 3 }
{
    let at = put_hex(line, at, octet);
    put_octet(line, at, b':')
}

/// A MAC address: six groups of two digits with colons.
fn put_mac(line: &mut [u8], at: usize, octets: [u8; 6]) -> usize
    requires { (17 ≤ at) × (at ≤ length line.old) }
    ensures put { IsPut line.old at line.new result (join_with_byte 58 (map hex octets)) }
    ensures room { at ≤ result + 17 }
{
    let [a, b, c, d, e, f] = octets;
    let at = put_mac_part(line, at, f);
    let at = put_mac_part(line, at, e);
    let at = put_mac_part(line, at, d);
    let at = put_mac_part(line, at, c);
    let at = put_mac_part(line, at, b);
    put_hex(line, at, a)
}

/// Two octets in hexadecimal.
#[tactic(auto, unfolding(crate::specs::Lines::hex))]
fn put_pair(line: &mut [u8], at: usize, a: u8, b: u8) -> usize
    requires { (4 ≤ at) × (at ≤ length line.old) }
    ensures put { IsPut line.old at line.new result (octets_text (a ∷ b ∷ [])) }
    ensures room { at ≤ result + 4 }
{
    let at = put_hex(line, at, b);
    put_hex(line, at, a)
}

/// Two octets in hexadecimal, after a colon.
fn put_group(line: &mut [u8], at: usize, a: u8, b: u8) -> usize
    requires { (5 ≤ at) × (at ≤ length line.old) }
    ensures put { IsPut line.old at line.new result (58 ∷ octets_text (a ∷ b ∷ [])) }
    ensures room { at ≤ result + 5 }
{
    let at = put_pair(line, at, a, b);
    put_octet(line, at, b':')
}

/// An IPv6 address: eight groups of four digits with colons.
fn put_address6(line: &mut [u8], at: usize, octets: [u8; 16]) -> usize
    requires { (39 ≤ at) × (at ≤ length line.old) }
    ensures put { IsPut line.old at line.new result (join_with_byte 58 (map octets_text (pairs octets))) }
    ensures room { at ≤ result + 39 }
{
    let [a, b, c, d, e, f, g, h, i, j, k, l, m, n, o, p] = octets;
    let at = put_group(line, at, o, p);
    let at = put_group(line, at, m, n);
    let at = put_group(line, at, k, l);
    let at = put_group(line, at, i, j);
    let at = put_group(line, at, g, h);
    let at = put_group(line, at, e, f);
    let at = put_group(line, at, c, d);
    put_pair(line, at, a, b)
}

/// The value of octets by an element's type.
pub(crate) fn put_value(line: &mut [u8], at: usize, kind: ElementType, octets: &[u8]) -> usize
    requires { (83 + 2 * length octets.now ≤ at) × (at ≤ length line.old) }
    ensures put { IsPut line.old at line.new result (value_text (value_by kind octets.now)) }
    ensures room { at ≤ result + 83 + 2 * length octets.now }
{
    match lend_value(kind, octets) {
        LentValue::Unsigned(number) => put_number(line, at, number),
        LentValue::Address4(address) => put_address4(line, at, address),
        LentValue::Address6(address) => put_address6(line, at, address),
        LentValue::Mac(address) => put_mac(line, at, address),
        LentValue::Octets(octets) => put_octets(line, at, octets),
    }
}

/// The octets that hold a label.
fn put_whole(line: &mut [u8], at: usize, octets: [u8; LABEL_ROOM]) -> usize
    requires { (32 ≤ at) × (at ≤ length line.old) }
    ensures put { IsPut line.old at line.new result octets }
    ensures room { result + length octets ≡ at }
    ensures len { length octets ≡ 32 }
{
    put_text(line, at, &octets)
}

/// A label, copied whole: its text is what counts.
fn put_label(line: &mut [u8], at: usize, label: Label) -> usize
    requires { (32 ≤ at) × (at ≤ length line.old) × (label.before ≤ 32) }
    ensures put { IsPut line.old at line.new result (drop label.before label.octets.now) }
    ensures room { at ≤ result + 32 }
{
    let octets = label.octets;
    put_whole(line, at, *octets) + label.before
}

/// A listed element's field: ` NAME=VALUE`.
fn put_named(line: &mut [u8], at: usize, label: Label, octets: &[u8]) -> usize
    requires { (128 + 2 * length octets.now ≤ at) × (at ≤ length line.old) × (label.before ≤ 32) }
    ensures put { IsPut line.old at line.new result
        (drop label.before label.octets.now ++ value_text (value_by label.kind octets.now)) }
    ensures room { at ≤ result + 128 + 2 * length octets.now }
{
    let at = put_value(line, at, label.kind, octets);
    put_label(line, at, label)
}

/// An element's number, after that of its enterprise where it has one.
fn put_element_number(line: &mut [u8], at: usize, id: ElementId) -> usize
    requires { (42 ≤ at) × (at ≤ length line.old) }
    ensures put { IsPut line.old at line.new result (number_text id.enterprise id.number) }
    ensures room { at ≤ result + 42 }
{
    let mut at = put_number(line, at, id.number as u64);
    if let Some(enterprise) = id.enterprise {
        at = put_octet(line, at, b'.');
        at = put_number(line, at, enterprise as u64);
    }
    put_octet(line, at, b'e')
}

/// The field of an element that isn't listed: ` NUMBER=OCTETS`.
fn put_numbered(line: &mut [u8], at: usize, id: ElementId, octets: &[u8]) -> usize
    requires { (128 + 2 * length octets.now ≤ at) × (at ≤ length line.old) }
    ensures put { IsPut line.old at line.new result
        (32 ∷ number_text id.enterprise id.number ++ 61 ∷ octets_text octets.now) }
    ensures room { at ≤ result + 128 + 2 * length octets.now }
{
    let at = put_octets(line, at, octets);
    let at = put_octet(line, at, b'=');
    let at = put_element_number(line, at, id);
    put_octet(line, at, b' ')
}

/// A field of a record: ` NAME=VALUE`, with the element's number where it isn't listed.
fn put_field(line: &mut [u8], at: usize, id: &ElementId, octets: &[u8]) -> usize
    requires { (128 + 2 * length octets.now ≤ at) × (at ≤ length line.old) }
    ensures put { IsPut line.old at line.new result (field_text (record { id = id.now; octets = octets.now })) }
    ensures room { at ≤ result + 128 + 2 * length octets.now }
{
    match label_of(id) {
        Some(label) => put_named(line, at, label, octets),
        None => put_numbered(line, at, *id, octets),
    }
}

/// The fields of a record, none of variable length; `None` where one is, or where the octets aren't theirs.
#[inline(never)]
fn put_fields(
    line: &mut [u8],
    at: usize,
    specifiers: &[(ElementId, u16)],
    octets: &[u8],
) -> Option<usize>
    requires { (128 * length specifiers.now + 2 * length octets.now ≤ at) × (at ≤ length line.old) }
    ensures put { IfSome result (λ start. IsPut line.old at line.new start
        (flat_map field_text (fields_in specifiers.now octets.now))) }
    ensures room { IfSome result (λ start. at ≤ start + 128 * length specifiers.now + 2 * length octets.now) }
{
    if octets.len() >= VARIABLE as usize {
        return None;
    }
    let mut start = at;
    let mut left = specifiers;
    let mut rest = octets;
    'fields: while let Some(((id, len), before)) = left.split_last() {
        let len = *len as usize;
        if rest.len() < len {
            return None;
        }
        let (front, value) = rest.split_at(rest.len() - len);
        start = put_field(line, start, id, value);
        left = before;
        rest = front;
    }
    if !rest.is_empty() {
        return None;
    }
    Some(start)
}

/// The kind of a record's template, copied whole as a label is.
fn put_kind(line: &mut [u8], at: usize, options: bool) -> usize
    requires { (32 ≤ at) × (at ≤ length line.old) }
    ensures { IsPut line.old at line.new result (if options then codes "options" else codes "record") }
{
    if options {
        put_whole(line, at, *b"                         options") + 25
    } else {
        put_whole(line, at, *b"                          record") + 26
    }
}

/// What a record's line begins with: `record ID` or `options ID`.
#[tactic(auto, unfolding(crate::specs::Lines::start_text))]
fn put_start(line: &mut [u8], at: usize, options: bool, id: u16) -> usize
    requires { (53 ≤ at) × (at ≤ length line.old) }
    ensures { IsPut line.old at line.new result (start_text options id) }
{
    let at = put_number(line, at, id as u64);
    let at = put_octet(line, at, b' ');
    put_kind(line, at, options)
}

/// The text of a field, by which the line then ends; `None` where there is no room, or where it has more octets than a
/// field of fixed length can have.
pub(crate) fn end_by_field(line: &mut [u8], id: ElementId, octets: &[u8]) -> Option<usize>
    ensures { IfSome result (λ start. EndsBy line.new start (field_text (record { id = id; octets = octets.now }))) }
{
    if octets.len() >= VARIABLE as usize {
        return None;
    }
    let end = line.len();
    if end < FIELD_ROOM + 2 * octets.len() {
        return None;
    }
    let len = octets.len() as u16;
    put_fields(line, end, &[(id, len)], octets)
}

/// The line of a record, by which the room then ends; `None` where a field is of variable length, or where there is no
/// room.
pub(crate) fn end_by_record(
    line: &mut [u8],
    id: u16,
    definition: &Definition,
    octets: &[u8],
) -> Option<usize>
    ensures { IfSome result (λ start. EndsBy line.new start (record_line (raw id definition.now octets.now))) }
{
    let fields = definition.fields();
    let end = line.len();
    // A field's room is that of 64 octets of values, and one such room is for the rest of the line.
    if end / FIELD_ROOM < fields.len().saturating_add(octets.len() / 64 + 2) {
        return None;
    }
    let at = put_octet(line, end, b'\n');
    let at = put_fields(line, at, fields, octets)?;
    Some(put_start(line, at, definition.options(), id))
}
