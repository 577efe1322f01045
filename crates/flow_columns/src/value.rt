//! The values of fields, as text.

ghost use Rattle.std.specs.Prelude.{◌≡◌, ◌<◌, ◌∷◌, ◌++◌, [], map, OnOk};
ghost use Rattle.std.specs.Fmt.{decimal};
ghost use Rattle.std.specs.List.{join_with_byte};
ghost use Rattle.flow_elements.specs.Values.{value_by};
ghost use Rattle.flow_report.specs.Formats.{second_text};
ghost use Rattle.flow_report.specs.Lines.{hex, hex_digit, octets_text, pairs, value_text};

use flow_dates::time_text;
use flow_elements::{ElementType, LentValue, lend_value};
use flow_report::Times;
use itoa::Buffer;
use std::alloc::AllocError;

/// A number in decimal.
pub(crate) fn push_number(text: &mut Vec<u8>, number: u64) -> Result<(), AllocError>
    ensures { OnOk result (text.new.items ≡ text.old.items ++ decimal number) }
{
    let mut digits = Buffer::new();
    text.extend_from_slice(digits.format(number).as_bytes())?;
    Ok(())
}

/// A time.
pub(crate) fn push_second(text: &mut Vec<u8>, times: Times, second: u32) -> Result<(), AllocError>
    ensures { OnOk result (text.new.items ≡ text.old.items ++ second_text times second) }
{
    match times {
        Times::Seconds => push_number(text, second as u64),
        Times::Dates => {
            text.extend_from_slice(&time_text(second))?;
            Ok(())
        }
    }
}

/// A lower-case hexadecimal digit.
#[tactic(auto, unfolding(flow_report::specs::Lines::hex_digit))]
fn hex_digit(number: u8) -> u8
    requires { number < 16 }
    ensures { result ≡ hex_digit number }
{
    if number < 10 {
        b'0' + number
    } else {
        b'a' + (number - 10)
    }
}

/// An octet in hexadecimal.
#[tactic(auto, unfolding(flow_report::specs::Lines::hex))]
fn push_hex(text: &mut Vec<u8>, octet: u8) -> Result<(), AllocError>
    ensures { OnOk result (text.new.items ≡ text.old.items ++ hex octet) }
{
    text.push(hex_digit(octet / 16))?;
    text.push(hex_digit(octet % 16))?;
    Ok(())
}

/// Octets in hexadecimal.
fn push_octets(text: &mut Vec<u8>, octets: &[u8]) -> Result<(), AllocError>
    ensures { OnOk result (text.new.items ≡ text.old.items ++ octets_text octets.now) }
{
    for octet in octets {
        push_hex(text, *octet)?;
    }
    Ok(())
}

/// A dot, and an octet in decimal.
fn push_part(text: &mut Vec<u8>, octet: u8) -> Result<(), AllocError>
    ensures { OnOk result (text.new.items ≡ text.old.items ++ 46 ∷ decimal octet) }
{
    text.push(b'.')?;
    push_number(text, octet as u64)
}

/// An IPv4 address in dotted decimal.
fn push_address4(text: &mut Vec<u8>, octets: [u8; 4]) -> Result<(), AllocError>
    ensures { OnOk result (text.new.items ≡ text.old.items ++ join_with_byte 46 (map decimal octets)) }
{
    let [a, b, c, d] = octets;
    push_number(text, a as u64)?;
    push_part(text, b)?;
    push_part(text, c)?;
    push_part(text, d)
}

/// A colon, and an octet in hexadecimal.
fn push_mac_part(text: &mut Vec<u8>, octet: u8) -> Result<(), AllocError>
    ensures { OnOk result (text.new.items ≡ text.old.items ++ 58 ∷ hex octet) }
{
    text.push(b':')?;
    push_hex(text, octet)
}

/// A MAC address: six groups of two digits with colons.
fn push_mac(text: &mut Vec<u8>, octets: [u8; 6]) -> Result<(), AllocError>
    ensures { OnOk result (text.new.items ≡ text.old.items ++ join_with_byte 58 (map hex octets)) }
{
    let [a, b, c, d, e, f] = octets;
    push_hex(text, a)?;
    push_mac_part(text, b)?;
    push_mac_part(text, c)?;
    push_mac_part(text, d)?;
    push_mac_part(text, e)?;
    push_mac_part(text, f)
}

/// Two octets in hexadecimal.
#[tactic(auto, unfolding(flow_report::specs::Lines::hex))]
fn push_pair(text: &mut Vec<u8>, a: u8, b: u8) -> Result<(), AllocError>
    ensures { OnOk result (text.new.items ≡ text.old.items ++ octets_text (a ∷ b ∷ [])) }
{
    push_hex(text, a)?;
    push_hex(text, b)
}

/// A colon, and two octets in hexadecimal.
fn push_group(text: &mut Vec<u8>, a: u8, b: u8) -> Result<(), AllocError>
    ensures { OnOk result (text.new.items ≡ text.old.items ++ 58 ∷ octets_text (a ∷ b ∷ [])) }
{
    text.push(b':')?;
    push_pair(text, a, b)
}

/// An IPv6 address: eight groups of four digits with colons.
fn push_address6(text: &mut Vec<u8>, octets: [u8; 16]) -> Result<(), AllocError>
    ensures { OnOk result (text.new.items
        ≡ text.old.items ++ join_with_byte 58 (map octets_text (pairs octets))) }
{
    let [a, b, c, d, e, f, g, h, i, j, k, l, m, n, o, p] = octets;
    push_pair(text, a, b)?;
    push_group(text, c, d)?;
    push_group(text, e, f)?;
    push_group(text, g, h)?;
    push_group(text, i, j)?;
    push_group(text, k, l)?;
    push_group(text, m, n)?;
    push_group(text, o, p)
}

/// The value of octets by an element's type.
pub(crate) fn push_value(
    text: &mut Vec<u8>,
    kind: ElementType,
    octets: &[u8],
) -> Result<(), AllocError>
    ensures { OnOk result (text.new.items ≡ text.old.items ++ value_text (value_by kind octets.now)) }
{
    match lend_value(kind, octets) {
        LentValue::Unsigned(number) => push_number(text, number),
        LentValue::Address4(address) => push_address4(text, address),
        LentValue::Address6(address) => push_address6(text, address),
        LentValue::Mac(address) => push_mac(text, address),
        LentValue::Octets(octets) => push_octets(text, octets),
    }
}
