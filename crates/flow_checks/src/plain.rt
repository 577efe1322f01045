//! The plain archive.

use crate::messages::{PLAIN, RECORD};
use flow_archive::{PlainArchive, PlainError};
use flow_codec::MessageError;
use flow_measure::{Key, Row, Sums};
use std::alloc::Global;
use std::test::*;

/// A template of one element of any length, and a record of it whose field passes the end of its Set.
const RECORD_CUT: [u8; 36] = [
    0x00, 0x0A, 0x00, 0x24, 0x65, 0x53, 0xF1, 0x00, 0, 0, 0, 0, 0, 0, 0, 7, 0x00, 0x02, 0x00, 0x0C,
    0x01, 0x2C, 0x00, 0x01, 0x00, 0xD2, 0xFF, 0xFF, 0x01, 0x2C, 0x00, 0x08, 0x05, 0xAA, 0xBB, 0xCC,
];

/// The row of two flows.
const TWO: Row = Row {
    key: Key {
        start: 1_699_999_800,
        domain: 7,
        protocol: Some(6),
    },
    sums: Sums {
        flows: 2,
        octets: 3_000,
        packets: 20,
    },
    width: 300,
};

/// Whether a message whose last record is cut is refused by just that.
fn is_refused(archive: &mut PlainArchive) -> bool {
    matches!(
        archive.append(&RECORD_CUT),
        Err(PlainError::Message(MessageError::RecordCut(32)))
    )
}

/// Whether a message is taken in, some that are cut short are refused, and another is taken in after them.
fn is_taken(archive: &mut PlainArchive) -> bool {
    matches!(archive.append(&PLAIN), Ok(1))
        && archive.append(&PLAIN[..56]).is_err()
        && is_refused(archive)
        && matches!(archive.append(&RECORD), Ok(2))
}

/// Whether its totals are those of two flows.
fn has_two(alloc: Global, archive: &PlainArchive) -> bool {
    match archive.totals(alloc, 0, 1 << 32) {
        Ok(rows) => rows.as_slice() == [TWO].as_slice(),
        Err(_) => false,
    }
}

/// Whether an archive takes both in, and has their totals.
fn is_so(alloc: Global) -> bool {
    let mut archive = PlainArchive::new(alloc, 300);
    is_taken(&mut archive) && has_two(alloc, &archive)
}

#[test]
fn plain_archive(rt: HostRuntime) {
    assert!(rt; is_so(rt.alloc()));
}
