//! Functions on messages and sums that no program calls, on values worked out by hand. What `dump` and `measure` say of
//! messages is in cases/messages.txt and cases/files.txt.

use flow_codec::{FileError, Span, Templates, read_message, split_file};
use flow_elements::{ElementId, Value, read_value};
use flow_measure::{Flow, Key, Row, Rows, SumError, Sums, flows_of_message};
use std::alloc::{AllocError, Global};
use std::test::*;

/// A template of elements 150, 4, 1 and 2, and a flow: 57 octets.
const FLOW: [u8; 57] = [
    0x00, 0x0a, 0x00, 0x39, 0x65, 0x53, 0xf1, 0x00, 0, 0, 0, 0, 0, 0, 0, 7, 0, 2, 0, 0x18, 1, 0, 0,
    4, 0, 0x96, 0, 4, 0, 4, 0, 1, 0, 1, 0, 4, 0, 2, 0, 4, 1, 0, 0, 0x11, 0x65, 0x53, 0xf1, 0, 6, 0,
    0, 5, 0xdc, 0, 0, 0, 0x0a,
];

/// Elements, octets, and what is read of them: numbers, addresses, and octets of a length that the type doesn't have.
const VALUES: [(u16, &[u8], &str); 6] = [
    (1, &[0x05, 0xDC], "Unsigned(1500)"),
    (
        152,
        &[0, 0, 0x01, 0x8B, 0xCF, 0xE5, 0x68, 0],
        "Unsigned(1700000000000)",
    ),
    (8, &[192, 0, 2, 1], "Address4([192, 0, 2, 1])"),
    (56, &[1, 2, 3, 4, 5, 6], "Mac([1, 2, 3, 4, 5, 6])"),
    (4, &[7, 8], "Octets(Items { items: [7, 8] })"),
    (9999, &[7, 8], "Octets(Items { items: [7, 8] })"),
];

/// An element's value.
fn value(alloc: Global, number: u16, octets: &[u8]) -> Result<Value, AllocError> {
    let id = ElementId {
        enterprise: None,
        number,
    };
    read_value(alloc, id, octets)
}

/// Whether an element's value is this, as text.
fn is_text(alloc: Global, number: u16, octets: &[u8], wanted: &str) -> Result<bool, AllocError> {
    let value = value(alloc, number, octets)?;
    Ok(format!(in alloc; "{value:?}")?.as_str() == wanted)
}

/// Whether octets of an element that isn't listed are its value, as they are.
fn are_kept(alloc: Global, octets: &[u8]) -> Result<bool, AllocError> {
    match value(alloc, 9999, octets)? {
        Value::Octets(items) => Ok(items.as_slice() == octets),
        _ => Ok(false),
    }
}

#[test]
fn values(rt: HostRuntime) -> Result<(), Fail> {
    let alloc = rt.alloc();
    for (number, octets, wanted) in VALUES {
        assert!(rt; is_text(alloc, number, octets, wanted)?, "{wanted}");
    }
    let mut octets = Vec::new(alloc);
    for number in 0..301u32 {
        assert!(rt; are_kept(alloc, octets.as_slice())?, "{number} octets");
        octets.push((number % 256) as u8)?;
    }
    Ok(())
}

/// The flow of the message.
const THE_FLOW: Flow = Flow {
    domain: 7,
    start: 1700000000,
    protocol: Some(6),
    octets: 1500,
    packets: 10,
};

/// The flows of the message, by its fields.
fn flows(alloc: Global, templates: &mut Templates) -> Option<Vec<Flow>> {
    let message = read_message(templates, alloc, &FLOW).ok()?;
    flows_of_message(alloc, &message).ok()
}

/// The message's template: whether it is an Options Template, its scope fields, and each element with its length.
const DEFINED: &str = "false 0 [(ElementId { enterprise: None, number: 150 }, 4), \
     (ElementId { enterprise: None, number: 4 }, 1), (ElementId { enterprise: None, number: 1 }, 4), \
     (ElementId { enterprise: None, number: 2 }, 4)]";

/// Whether the message's template is in force, and no other.
fn is_defined(alloc: Global, templates: &Templates) -> Result<bool, AllocError> {
    let Some(found) = templates.find(7, 256) else {
        return Ok(false);
    };
    let (options, scope) = (found.options(), found.scope());
    let text = format!(in alloc; "{options} {scope} {:?}", found.fields())?;
    Ok(text.as_str() == DEFINED && templates.find(7, 257).is_none())
}

/// Whether it is in a copy.
fn is_copied(alloc: Global, templates: &Templates) -> Result<bool, AllocError> {
    is_defined(alloc, &templates.try_copy()?)
}

/// Whether the message is read: its flow, its template, and this in a copy.
fn are_read(alloc: Global, templates: &mut Templates) -> Result<[bool; 3], AllocError> {
    let flow = match flows(alloc, templates) {
        Some(found) => found.as_slice() == [THE_FLOW].as_slice(),
        None => false,
    };
    Ok([
        flow,
        is_defined(alloc, templates)?,
        is_copied(alloc, templates)?,
    ])
}

/// The same, where no template is in force before.
fn are_read_first(alloc: Global) -> Result<[bool; 3], AllocError> {
    let mut templates = Templates::new(alloc);
    are_read(alloc, &mut templates)
}

/// A File of the message twice.
fn two_messages(alloc: Global) -> Result<Vec<u8>, AllocError> {
    let mut file = Vec::from_slice(alloc, FLOW.as_slice())?;
    file.extend_from_slice(FLOW.as_slice())?;
    Ok(file)
}

/// The messages of that File, each a place and a length.
const SPANS: [Span; 2] = [Span { at: 0, length: 57 }, Span { at: 57, length: 57 }];

/// Whether a File has these messages.
fn has_spans(alloc: Global, file: &[u8], wanted: &[Span]) -> Result<bool, FileError> {
    Ok(split_file(alloc, file)?.as_slice() == wanted)
}

#[test]
fn messages(rt: HostRuntime) -> Result<(), Fail> {
    let alloc = rt.alloc();
    assert_eq!(rt; are_read_first(alloc)?, [true; 3]);
    let file = two_messages(alloc)?;
    assert!(rt; has_spans(alloc, file.as_slice(), SPANS.as_slice())?);
    Ok(())
}

/// When flows start, and their protocols.
const STARTS: [(u32, Option<u8>); 4] = [
    (1700000000, Some(6)),
    (1699999800, None),
    (1700000099, Some(6)),
    (1700000100, Some(6)),
];

/// The sums of flows that start then, over intervals of 300 seconds.
fn rows(alloc: Global) -> Result<Rows, SumError> {
    let mut rows = Rows::new(alloc, 300);
    for (start, protocol) in STARTS {
        rows.add(&Flow {
            start,
            protocol,
            ..THE_FLOW
        })?;
    }
    Ok(rows)
}

/// The row of so many of these flows.
fn row(start: u32, width: u32, protocol: Option<u8>, flows: u64) -> Row {
    Row {
        key: Key {
            start,
            domain: 7,
            protocol,
        },
        sums: Sums {
            flows,
            octets: 1500 * u128::from(flows),
            packets: 10 * u128::from(flows),
        },
        width,
    }
}

/// The rows over wide intervals; none where these aren't some of the narrow ones each, or memory is refused.
fn widened(alloc: Global, rows: &Rows, wide: u32) -> Option<Vec<Row>> {
    if wide == 0 || wide % rows.width() != 0 {
        return None;
    }
    rows.widen(alloc, wide)
        .ok()?
        .in_span(alloc, 0, 1 << 32)
        .ok()
}

/// Wide intervals, and where the one begins that has all flows.
const WIDE: [(u32, u32); 7] = [
    (600, 1699999800),
    (1800, 1699999200),
    (3600, 1699999200),
    (7200, 1699999200),
    (21600, 1699984800),
    (43200, 1699963200),
    (86400, 1699920000),
];

#[test]
fn wide_sums(rt: HostRuntime) -> Result<(), Fail> {
    let rows = rows(rt.alloc())?;
    for (wide, start) in WIDE {
        let found = widened(rt.alloc(), &rows, wide).ok_or("rows")?;
        let wanted = [row(start, wide, None, 1), row(start, wide, Some(6), 3)];
        assert!(rt; found.as_slice() == wanted.as_slice(), "{wide}");
    }
    Ok(())
}

/// The sums of the message's flow.
fn one(alloc: Global) -> Result<Rows, SumError> {
    let mut rows = Rows::new(alloc, 300);
    rows.add(&THE_FLOW)?;
    Ok(rows)
}

/// Adds the sums of rows of the same width: whether they are added, and not refused as passing their types.
fn is_added(rows: &mut Rows, other: &Rows) -> Option<bool> {
    if rows.width() != other.width() {
        return None;
    }
    match rows.merge(other) {
        Ok(()) => Some(true),
        Err(SumError::SumSpent) => Some(false),
        Err(SumError::OutOfMemory) => None,
    }
}

/// Adds two tables to each other in turn, up to the first refusal: how often.
fn merged(first: &mut Rows, second: &mut Rows) -> Option<u32> {
    for count in 0..200u32 {
        let is_so = if count % 2 == 0 {
            is_added(first, second)?
        } else {
            is_added(second, first)?
        };
        if !is_so {
            return Some(count);
        }
    }
    None
}

/// Whether rows are just one row, of so many flows.
fn is_row(alloc: Global, rows: &Rows, flows: u64) -> bool {
    match rows.in_span(alloc, 0, 1 << 32) {
        Ok(found) => found.as_slice() == [row(1699999800, 300, Some(6), flows)].as_slice(),
        Err(_) => false,
    }
}

/// Each is added to the other in turn: the flows of both are two of Fibonacci's numbers, the 92nd sum has no room, and
/// changes nothing.
#[test]
fn a_sum_that_is_spent(rt: HostRuntime) -> Result<(), Fail> {
    let mut first = one(rt.alloc())?;
    let mut second = one(rt.alloc())?;
    assert_eq!(rt; merged(&mut first, &mut second), Some(91));
    assert!(rt; is_row(rt.alloc(), &first, 12200160415121876738));
    assert!(rt; is_row(rt.alloc(), &second, 7540113804746346429));
    Ok(())
}
