//! A row's octets, and the rows that a key's sums take.

ghost use Rattle.std.specs.Prelude.{◌≡◌, ◌≤◌, ◌<◌, ◌+◌, ◌^◌, ◌++◌, OnOk, IfOk, nat_lt, if◌then◌else◌};
ghost use Rattle.std.specs.List.{flat_map};
ghost use Rattle.flow_measure.specs.declared.rows.Key.{Key};
ghost use Rattle.flow_rolled.specs.Rows.{row_of, left_of, rows_of, most};
ghost use Rattle.flow_rolled.specs.Octets.{row_octets, protocol_octets};

use crate::numbers::put_u64;
use crate::row::RolledRow;
use flow_measure::{Key, Sums};
use std::alloc::{AllocError, Global};

/// The greatest count of octets or packets that a row holds.
const MOST: u128 = 18_446_744_073_709_551_615;

/// The row that takes what it holds of these sums.
fn row_of(key: Key, sums: Sums) -> RolledRow
    ensures { result ≡ row_of key sums }
{
    RolledRow {
        key,
        flows: sums.flows,
        octets: least(sums.octets),
        packets: least(sums.packets),
    }
}

/// A count, as far as a row holds it.
fn least(count: u128) -> u64
    ensures { result ≡ (if nat_lt count most then count else most) }
{
    if count < MOST { count as u64 } else { u64::MAX }
}

/// What a row leaves of these sums, without the flows.
fn left_of(sums: Sums) -> Sums
    ensures { result ≡ left_of sums }
{
    Sums {
        flows: 0,
        octets: sums.octets.saturating_sub(MOST),
        packets: sums.packets.saturating_sub(MOST),
    }
}

/// Appends the rows of a key to others.
fn put_rows(rows: &mut Vec<RolledRow>, key: Key, sums: Sums) -> Result<(), AllocError>
    ensures { OnOk result (rows.new.items ≡ rows.old.items ++ rows_of (record { 0 = key; 1 = sums })) }
{
    let mut left = sums;
    while left.octets > MOST || left.packets > MOST {
        rows.push(row_of(key, left))?;
        left = left_of(left);
    }
    rows.push(row_of(key, left))?;
    Ok(())
}

/// The rows of all keys.
pub(crate) fn rows_of(alloc: Global, entries: &[(Key, Sums)]) -> Result<Vec<RolledRow>, AllocError>
    ensures { IfOk result (λ rows. rows.items ≡ flat_map rows_of entries.now) }
{
    let mut rows = Vec::with_capacity(alloc, entries.len())?;
    for entry in entries {
        let (key, sums) = *entry;
        put_rows(&mut rows, key, sums)?;
    }
    Ok(rows)
}

/// Appends a row's octets to others.
pub(crate) fn put_row(octets: &mut Vec<u8>, width: u32, row: &RolledRow) -> Result<(), AllocError>
    requires { 0 < width }
    ensures { OnOk result (octets.new.items ≡ octets.old.items ++ row_octets width row.now) }
{
    let start = u64::from(row.key.start);
    put_u64(octets, start * 1000)?;
    put_u64(octets, (start + u64::from(width)) * 1000 - 1)?;
    put_protocol(octets, row.key.protocol)?;
    put_u64(octets, row.flows)?;
    put_u64(octets, row.octets)?;
    put_u64(octets, row.packets)?;
    Ok(())
}

/// Appends a protocol to octets, where there is one.
fn put_protocol(octets: &mut Vec<u8>, protocol: Option<u8>) -> Result<(), AllocError>
    ensures { OnOk result (octets.new.items ≡ octets.old.items ++ protocol_octets protocol) }
{
    if let Some(number) = protocol {
        octets.push(number)?;
    }
    Ok(())
}
