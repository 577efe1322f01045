//! A rolled file, octet by octet.

use crate::lies::memory;
use crate::segments::frozen;
use flow_disk::{DiskError, Faults, SealedFile};
use flow_measure::{Flow, Rows, SumError};
use flow_rolled::{RolledError, RolledPart, RowReader, decode_rows, encode_rows};
use std::alloc::Global;
use std::test::*;

/// The file of a row of 1,500 octets in 10 packets, octet by octet: a head, and one row.
const ONE_ROW: [u8; 161] = [
    0x00, 0x0A, 0x00, 0x64, 0x65, 0x53, 0xF1, 0x00, 0, 0, 0, 0, 0, 0, 0, 7, //
    0x00, 0x02, 0x00, 0x38, 0x01, 0x00, 0x00, 0x06, 0x00, 0x98, 0x00, 0x08, 0x00, 0x99, 0x00, 0x08, //
    0x00, 0x04, 0x00, 0x01, 0x01, 0x78, 0x00, 0x08, 0x00, 0x01, 0x00, 0x08, 0x00, 0x02, 0x00, 0x08, //
    0x01, 0x01, 0x00, 0x05, 0x00, 0x98, 0x00, 0x08, 0x00, 0x99, 0x00, 0x08, //
    0x01, 0x78, 0x00, 0x08, 0x00, 0x01, 0x00, 0x08, 0x00, 0x02, 0x00, 0x08, //
    0x00, 0x03, 0x00, 0x12, 0x01, 0x02, 0x00, 0x02, 0x00, 0x01, 0x00, 0x91, 0x00, 0x02, 0x01, 0x80,
    0x00, 0x01, //
    0x01, 0x02, 0x00, 0x0A, 0x01, 0x00, 0x01, 0x01, 0x01, 0x01, //
    0x00, 0x0A, 0x00, 0x3D, 0x65, 0x53, 0xF1, 0x00, 0, 0, 0, 2, 0, 0, 0, 7, //
    0x01, 0x00, 0x00, 0x2D, 0x00, 0x00, 0x01, 0x8B, 0xCF, 0xE2, 0x5A, 0xC0, //
    0x00, 0x00, 0x01, 0x8B, 0xCF, 0xE6, 0xEE, 0x9F, 6, 0, 0, 0, 0, 0, 0, 0, 1, //
    0, 0, 0, 0, 0, 0, 0x05, 0xDC, 0, 0, 0, 0, 0, 0, 0, 0x0A,
];

/// The sums of the flow.
fn one_row(alloc: Global) -> Result<Rows, SumError> {
    let mut rows = Rows::new(alloc, 300);
    rows.add(&Flow {
        domain: 7,
        start: 1_700_000_000,
        protocol: Some(6),
        octets: 1_500,
        packets: 10,
    })?;
    Ok(rows)
}

/// Whether tables have the same sums.
fn are_alike(first: &Rows, second: &Rows) -> bool {
    match (first.entries(), second.entries()) {
        (Ok(first), Ok(second)) => first.as_slice() == second.as_slice(),
        _ => false,
    }
}

/// Whether rows have these octets for their file, which is read as the same rows.
fn is_file_of(alloc: Global, rows: &Rows, wanted: &[u8]) -> bool {
    let is_written = match encode_rows(alloc, rows, 1_700_000_000) {
        Ok(octets) => octets.as_slice() == wanted,
        Err(_) => false,
    };
    match decode_rows(alloc, wanted, 300) {
        Ok(again) => is_written && are_alike(&again, rows),
        Err(_) => false,
    }
}

/// Whether octets are refused at this place.
fn is_refused(alloc: Global, octets: &[u8], at: usize) -> bool {
    match decode_rows(alloc, octets, 300) {
        Err(error) => error == RolledError::NotRolled(at),
        Ok(_) => false,
    }
}

/// How many rows the next message has, and none at the end.
fn count_next<S: SealedFile>(alloc: Global, reader: &mut RowReader<'_, S>) -> Option<usize> {
    match reader.next(alloc, &mut Faults::new()) {
        Ok(Some(rows)) => Some(rows.len()),
        _ => None,
    }
}

/// Whether a frozen file of the row is read message by message: the head, one row, and the end.
fn is_read<S: SealedFile>(alloc: Global, file: S) -> bool {
    if file.length() != 161 {
        return false;
    }
    let part = RolledPart::new(file, 1, 161);
    let mut reader = RowReader::new(alloc, &part, 300);
    count_next(alloc, &mut reader) == Some(0)
        && count_next(alloc, &mut reader) == Some(1)
        && count_next(alloc, &mut reader).is_none()
}

/// Whether the row has the file, and no rows have none.
fn are_written(alloc: Global) -> Result<bool, SumError> {
    let rows = one_row(alloc)?;
    let is_written = is_file_of(alloc, &rows, &ONE_ROW);
    Ok(is_written && is_file_of(alloc, &Rows::new(alloc, 300), &[]))
}

/// Whether the file is refused where an octet is another one, and where it is cut.
fn are_refused(alloc: Global) -> bool {
    let mut changed = ONE_ROW;
    changed[135] = 0xA0;
    is_refused(alloc, &changed, 100) && is_refused(alloc, &ONE_ROW[..160], 100)
}

/// Whether it is read in memory.
fn is_read_in_memory(alloc: Global) -> Result<bool, DiskError> {
    let mut disk = memory(alloc)?;
    let file = frozen(&mut disk, &ONE_ROW)?;
    Ok(is_read(alloc, file))
}

#[test]
fn a_rolled_file(rt: HostRuntime) -> Result<(), Fail> {
    let alloc = rt.alloc();
    assert!(rt; are_written(alloc)?);
    assert!(rt; are_refused(alloc));
    assert!(rt; is_read_in_memory(alloc)?);
    Ok(())
}
