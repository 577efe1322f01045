//! How long flows last.

ghost use Rattle.std.specs.Prelude.{◌≡◌, ◌≤◌};
ghost use Rattle.flow_codec.specs.Fields.{fields_in};
ghost use Rattle.flow_inspect.specs.Lasting.{both_lasted, ends_of, found_in, greater, lasted_after, lasting};
ghost use Rattle.flow_inspect.specs.Lasting.{second_of, with_field};

use flow_codec::{Definition, split_field};
use flow_elements::{ElementId, number_of};

/// A flow is long if it lasts more seconds than this: a usual active timeout, and a usual interval.
const LONG: u64 = 300;

/// The milliseconds of a second.
const MILLISECONDS: u64 = 1_000;

/// When a flow starts and ends, where its record has it: by IANA's elements 150, 151, 152 and 153.
#[derive(Clone, Copy)]
pub(crate) struct Ends {
    start_seconds: Option<u64>,
    end_seconds: Option<u64>,
    start_milliseconds: Option<u64>,
    end_milliseconds: Option<u64>,
}

/// How long flows last.
#[derive(Clone, Copy)]
pub(crate) struct Lasted {
    /// The seconds of the longest one.
    pub(crate) longest: Option<u64>,
    /// How many last more than 300 seconds. It stops at 2^64 - 1.
    pub(crate) long: u64,
}

/// The number that was found, or else that of a value of IANA's element of this number, of so many octets.
fn found_in(
    found: Option<u64>,
    id: ElementId,
    value: &[u8],
    number: u16,
    count: usize,
) -> Option<u64>
    requires { count ≤ 8 }
    ensures { result ≡ found_in found number count (record { id = id; octets = value.now }) }
{
    if found.is_some() || id.enterprise.is_some() || id.number != number || value.len() != count {
        return found;
    }
    Some(number_of(value))
}

/// What was found, and what a field more has.
fn with_field(ends: Ends, id: ElementId, value: &[u8]) -> Ends
    ensures { result ≡ with_field ends (record { id = id; octets = value.now }) }
{
    Ends {
        start_seconds: found_in(ends.start_seconds, id, value, 150, 4),
        end_seconds: found_in(ends.end_seconds, id, value, 151, 4),
        start_milliseconds: found_in(ends.start_milliseconds, id, value, 152, 8),
        end_milliseconds: found_in(ends.end_milliseconds, id, value, 153, 8),
    }
}

/// When the flow of a record starts and ends.
fn ends_of(definition: &Definition, octets: &[u8]) -> Ends
    ensures { result ≡ ends_of (fields_in definition.now.fields octets.now) }
{
    let mut ends = Ends {
        start_seconds: None,
        end_seconds: None,
        start_milliseconds: None,
        end_milliseconds: None,
    };
    let mut rest = octets;
    for (id, len) in definition.fields() {
        let (value, after) = split_field(*len, rest);
        ends = with_field(ends, *id, value);
        rest = after;
    }
    ends
}

/// A moment in seconds: milliseconds, rounded down, or else seconds.
fn second_of(milliseconds: Option<u64>, seconds: Option<u64>) -> Option<u64>
    ensures { result ≡ second_of milliseconds seconds }
{
    match milliseconds {
        Some(count) => Some(count / MILLISECONDS),
        None => seconds,
    }
}

/// How many seconds the flow of a record lasts, where it has a start and an end; 0 where it ends before it starts.
pub(crate) fn lasting(definition: &Definition, octets: &[u8]) -> Option<u64>
    ensures { result ≡ lasting (ends_of (fields_in definition.now.fields octets.now)) }
{
    let ends = ends_of(definition, octets);
    let start = second_of(ends.start_milliseconds, ends.start_seconds)?;
    let end = second_of(ends.end_milliseconds, ends.end_seconds)?;
    Some(end.saturating_sub(start))
}

/// The greater of two numbers, where there is one.
fn greater(number: Option<u64>, more: Option<u64>) -> Option<u64>
    ensures { result ≡ greater number more }
{
    match (number, more) {
        (None, more) => more,
        (Some(number), None) => Some(number),
        (Some(number), Some(more)) => Some(number.max(more)),
    }
}

/// What is counted of some flows, and of one more that lasts so many seconds.
pub(crate) fn lasted_after(lasted: Lasted, seconds: u64) -> Lasted
    ensures { result ≡ lasted_after lasted seconds }
{
    Lasted {
        longest: greater(lasted.longest, Some(seconds)),
        long: if LONG < seconds {
            lasted.long.saturating_add(1)
        } else {
            lasted.long
        },
    }
}

/// What is counted of two parts of a File, together.
pub(crate) fn both_lasted(a: Lasted, b: Lasted) -> Lasted
    ensures { result ≡ both_lasted a b }
{
    Lasted {
        longest: greater(a.longest, b.longest),
        long: a.long.saturating_add(b.long),
    }
}
