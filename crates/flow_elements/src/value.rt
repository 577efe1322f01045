//! The values of information elements.

ghost use Rattle.std.specs.Prelude.{◌≡◌, ◌≤◌, length, IfOk};
ghost use Rattle.flow_elements.specs.Values.{is_reduced, number_of, value_by, value_of};
ghost use Rattle.flow_elements.specs.Lending.{owned};

use crate::element::{ElementId, ElementType, Width, element_type};
use crate::items::Items;
use std::alloc::{AllocError, Global};

/// A value of an information element. Addresses are as in the message, the highest octet first.
#[derive(Clone, Debug, Drop)]
pub enum Value {
    /// A number, or a time in its type's unit.
    Unsigned(u64),
    /// An IPv4 address.
    Address4([u8; 4]),
    /// An IPv6 address.
    Address6([u8; 16]),
    /// A MAC address.
    Mac([u8; 6]),
    /// Any octets.
    Octets(Items<u8>),
}

/// A value like `Value`, but octets of no other type are lent and not copied.
#[derive(Clone, Copy, Debug)]
pub enum LentValue<'a> {
    /// A number, or a time in its type's unit.
    Unsigned(u64),
    /// An IPv4 address.
    Address4([u8; 4]),
    /// An IPv6 address.
    Address6([u8; 16]),
    /// A MAC address.
    Mac([u8; 6]),
    /// Any octets.
    Octets(&'a [u8]),
}

/// A number in at most 8 octets, the highest first.
pub fn number_of(octets: &[u8]) -> u64
    requires { length octets.now ≤ 8 }
    ensures { result ≡ number_of octets.now }
{
    // The lengths that nearly all exporters use are read at once.
    match octets {
        [a, b, c, d, e, f, g, h] => u64::from_be_bytes([*a, *b, *c, *d, *e, *f, *g, *h]),
        [a, b, c, d] => u64::from_be_bytes([0, 0, 0, 0, *a, *b, *c, *d]),
        [a, b] => u64::from_be_bytes([0, 0, 0, 0, 0, 0, *a, *b]),
        [a] => u64::from(*a),
        _ => padded(octets),
    }
}

/// A number in at most 8 octets, after octets of 0 that fill it up to 8.
fn padded(octets: &[u8]) -> u64
    requires { length octets.now ≤ 8 }
    ensures { result ≡ number_of octets.now }
{
    let mut padded = [0u8; 8];
    padded[8 - octets.len()..].copy_from_slice(octets);
    u64::from_be_bytes(padded)
}

/// Whether a number of this width may come in so many octets (RFC 7011, section 6.2).
fn is_reduced(width: Width, len: usize) -> bool
    ensures { result ≡ is_reduced width len }
{
    let most = match width {
        Width::One => 1,
        Width::Two => 2,
        Width::Four => 4,
        Width::Eight => 8,
    };
    1 <= len && len <= most
}

/// An array of these octets.
fn array_of<const N: usize>(octets: &[u8]) -> [u8; N]
    requires { length octets.now ≡ N }
    ensures { result ≡ octets.now }
{
    let mut array = [0u8; N];
    array.copy_from_slice(octets);
    array
}

/// The value of octets by an element's type. Octets of a length that the type doesn't have are the value themselves.
pub fn lend_value(kind: ElementType, octets: &[u8]) -> LentValue<'_>
    ensures { owned result ≡ value_by kind octets.now }
{
    let len = octets.len();
    match kind {
        ElementType::Unsigned(width) if is_reduced(width, len) => LentValue::Unsigned(number_of(
            octets,
        )),
        ElementType::Seconds if len == 4 => LentValue::Unsigned(number_of(octets)),
        ElementType::Milliseconds if len == 8 => LentValue::Unsigned(number_of(octets)),
        ElementType::Address4 if len == 4 => LentValue::Address4(array_of(octets)),
        ElementType::Address6 if len == 16 => LentValue::Address6(array_of(octets)),
        ElementType::Mac if len == 6 => LentValue::Mac(array_of(octets)),
        _ => LentValue::Octets(octets),
    }
}

/// The value of an element's octets, by the element's type. Octets of a length that the type doesn't have,
/// and those of an element that isn't listed, are the value themselves.
pub fn read_value(alloc: Global, id: ElementId, octets: &[u8]) -> Result<Value, AllocError>
    ensures { IfOk result (λ value. value ≡ value_of id octets.now) }
{
    let value = match lend_value(element_type(id), octets) {
        LentValue::Unsigned(number) => Value::Unsigned(number),
        LentValue::Address4(address) => Value::Address4(address),
        LentValue::Address6(address) => Value::Address6(address),
        LentValue::Mac(address) => Value::Mac(address),
        LentValue::Octets(octets) => Value::Octets(Items::from_vec(Vec::from_slice(
            alloc, octets,
        )?)),
    };
    Ok(value)
}
