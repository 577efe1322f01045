//! Values of a line, put in memory that is already taken.

ghost use Rattle.std.specs.Prelude.{◌≡◌, ◌≤◌, ◌+◌, ◌∷◌, [], ◌++◌, codes, length, vec_len, vec_capacity};
ghost use Rattle.flow_dates.specs.Dates.{time_text};
ghost use Rattle.flow_report.specs.Formats.{closing, name_before, number_or_none, opening, separator};
ghost use Rattle.flow_report.specs.Formats.{time_in, value_in};

use crate::format::{Format, Layout, Times};
use flow_dates::time_text;
use itoa::{Buffer, Integer};

/// The most octets of a value's name.
const MOST_NAME: usize = 16;

/// The most octets of a value: its name in quotes and a colon, a number in decimal, and the octets after it.
pub const MOST_VALUE: usize = MOST_NAME + 3 + 40 + 2;

/// The most octets of a line: seven values, and its opening.
pub(crate) const MOST_LINE: usize = 7 * MOST_VALUE + 1;

/// Octets of text, where there is room.
fn put_octets(line: &mut Vec<u8>, octets: &[u8])
    requires { vec_len line.old + length octets.now ≤ vec_capacity line.old }
    ensures text { line.new.items ≡ line.old.items ++ octets.now }
    ensures len { vec_len line.new ≡ vec_len line.old + length octets.now }
    ensures room { vec_capacity line.old ≤ vec_capacity line.new }
{
    line.extend_from_slice(octets).unwrap();
}

/// A text, where there is room.
pub(crate) fn put_text(line: &mut Vec<u8>, text: &str)
    requires { vec_len line.old + length text.now ≤ vec_capacity line.old }
    ensures text { line.new.items ≡ line.old.items ++ text.now }
    ensures len { vec_len line.new ≡ vec_len line.old + length text.now }
    ensures room { vec_capacity line.old ≤ vec_capacity line.new }
{
    put_octets(line, text.as_bytes());
}

/// Appends the opening of a line, where there is room.
pub fn put_opening(line: &mut Vec<u8>, format: Format)
    requires { vec_len line.old + 1 ≤ vec_capacity line.old }
    ensures text { line.new.items ≡ line.old.items ++ opening format.layout }
    ensures len { vec_len line.new ≤ vec_len line.old + 1 }
    ensures room { vec_capacity line.old ≤ vec_capacity line.new }
{
    put_text(line, format.layout.opening());
}

/// Appends the text before a value, where there is room: in JSON its name.
fn put_name(line: &mut Vec<u8>, format: Format, name: &str)
    requires short { length name.now ≤ 16 }
    requires room { vec_len line.old + 19 ≤ vec_capacity line.old }
    ensures text { line.new.items ≡ line.old.items ++ name_before format.layout name.now }
    ensures len { vec_len line.new ≤ vec_len line.old + 19 }
    ensures room { vec_capacity line.old ≤ vec_capacity line.new }
{
    if let Layout::Json = format.layout {
        put_text(line, "\"");
        put_text(line, name);
        put_text(line, "\":");
    }
}

/// A number in decimal, where there is room.
fn put_digits<N: Integer>(line: &mut Vec<u8>, number: N)
    requires { vec_len line.old + 40 ≤ vec_capacity line.old }
    ensures text { line.new.items ≡ line.old.items ++ N.text number }
    ensures len { vec_len line.new ≤ vec_len line.old + 40 }
    ensures room { vec_capacity line.old ≤ vec_capacity line.new }
{
    let mut digits = Buffer::new();
    put_text(line, digits.format(number));
}

/// A date and time, where there is room.
fn put_date(line: &mut Vec<u8>, second: u32)
    requires { vec_len line.old + 20 ≤ vec_capacity line.old }
    ensures text { line.new.items ≡ line.old.items ++ time_text second }
    ensures len { vec_len line.new ≡ vec_len line.old + 20 }
    ensures room { vec_capacity line.old ≤ vec_capacity line.new }
{
    put_octets(line, &time_text(second));
}

/// A date and time in quotes, where there is room.
fn put_quoted_date(line: &mut Vec<u8>, second: u32)
    requires { vec_len line.old + 22 ≤ vec_capacity line.old }
    ensures text { line.new.items ≡ line.old.items ++ 34 ∷ time_text second ++ 34 ∷ [] }
    ensures len { vec_len line.new ≡ vec_len line.old + 22 }
    ensures room { vec_capacity line.old ≤ vec_capacity line.new }
{
    put_text(line, "\"");
    put_date(line, second);
    put_text(line, "\"");
}

/// A time, where there is room.
fn put_second(line: &mut Vec<u8>, format: Format, second: u32)
    requires { vec_len line.old + 40 ≤ vec_capacity line.old }
    ensures text { line.new.items ≡ line.old.items ++ time_in format second }
    ensures len { vec_len line.new ≤ vec_len line.old + 40 }
    ensures room { vec_capacity line.old ≤ vec_capacity line.new }
{
    match format.times {
        Times::Seconds => put_digits(line, second),
        Times::Dates => match format.layout {
            Layout::Lines => put_date(line, second),
            Layout::Csv => put_date(line, second),
            Layout::Json => put_quoted_date(line, second),
        },
    }
}

/// Appends a time with its name, and a separator, where there is room.
pub fn put_time(line: &mut Vec<u8>, format: Format, name: &str, second: u32)
    requires short { length name.now ≤ 16 }
    requires room { vec_len line.old + 61 ≤ vec_capacity line.old }
    ensures text { line.new.items
        ≡ line.old.items ++ (name_before format.layout name.now ++ time_in format second)
        ++ separator format.layout ∷ [] }
    ensures len { vec_len line.new ≤ vec_len line.old + 61 }
    ensures room { vec_capacity line.old ≤ vec_capacity line.new }
{
    put_name(line, format, name);
    put_second(line, format, second);
    line.push(format.layout.separator()).unwrap();
}

/// Appends a number with its name, and a separator, where there is room.
pub fn put_value<N: Integer>(line: &mut Vec<u8>, format: Format, name: &str, number: N)
    requires short { length name.now ≤ 16 }
    requires room { vec_len line.old + 61 ≤ vec_capacity line.old }
    ensures text { line.new.items
        ≡ line.old.items ++ (name_before format.layout name.now ++ N.text number) ++ separator format.layout ∷ [] }
    ensures len { vec_len line.new ≤ vec_len line.old + 61 }
    ensures room { vec_capacity line.old ≤ vec_capacity line.new }
{
    put_name(line, format, name);
    put_digits(line, number);
    line.push(format.layout.separator()).unwrap();
}

/// Appends the last number of a line with its name, and the line's closing, where there is room.
pub fn put_last<N: Integer>(line: &mut Vec<u8>, format: Format, name: &str, number: N)
    requires short { length name.now ≤ 16 }
    requires room { vec_len line.old + 61 ≤ vec_capacity line.old }
    ensures text { line.new.items
        ≡ line.old.items ++ (name_before format.layout name.now ++ N.text number) ++ closing format.layout }
    ensures len { vec_len line.new ≤ vec_len line.old + 61 }
    ensures room { vec_capacity line.old ≤ vec_capacity line.new }
{
    put_name(line, format, name);
    put_digits(line, number);
    put_text(line, format.layout.closing());
}

/// Appends a protocol's number, or the text for none, and a separator, where there is room.
pub(crate) fn put_protocol(line: &mut Vec<u8>, format: Format, protocol: Option<u8>)
    requires { vec_len line.old + 61 ≤ vec_capacity line.old }
    ensures text { line.new.items
        ≡ line.old.items ++ value_in format (codes "protocol", number_or_none protocol)
        ++ separator format.layout ∷ [] }
    ensures len { vec_len line.new ≤ vec_len line.old + 61 }
    ensures room { vec_capacity line.old ≤ vec_capacity line.new }
{
    match protocol {
        Some(protocol) => put_value(line, format, "protocol", protocol),
        None => {
            put_name(line, format, "protocol");
            put_text(line, format.layout.none());
            line.push(format.layout.separator()).unwrap();
        }
    }
}
