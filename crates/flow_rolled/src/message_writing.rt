//! The octets of messages.

ghost use Rattle.std.specs.Prelude.{◌≡◌, ◌≤◌, ◌<◌, ◌+◌, ◌++◌, length, filter, OnOk, IfOk};
ghost use Rattle.flow_rolled.specs.Octets.{rows_octets, row_set_octets, sets_of, message_octets, set_around, of_kind};

use crate::message_reading::VERSION;
use crate::numbers::{put_u16, put_u32};
use crate::row::RolledRow;
use crate::row_writing::put_row;
use crate::set_reading::{HEAD_SETS, WITH_PROTOCOL, WITHOUT};
use std::alloc::{AllocError, Global};

/// The octets of the rows with a protocol, or of those without one.
fn octets_of_rows(
    alloc: Global,
    width: u32,
    rows: &[RolledRow],
    with: bool,
) -> Result<Vec<u8>, AllocError>
    requires { 0 < width }
    ensures { IfOk result (λ octets. octets.items ≡ rows_octets width (filter (of_kind with) rows.now)) }
{
    let mut octets = Vec::new(alloc);
    for row in rows {
        if row.key.protocol.is_some() == with {
            put_row(&mut octets, width, row)?;
        }
    }
    Ok(octets)
}

/// Appends a Set with this number and these octets to others, where there are any.
fn put_set(octets: &mut Vec<u8>, number: u16, body: &[u8]) -> Result<(), AllocError>
    requires { length body.now ≤ 41000 }
    ensures { OnOk result (octets.new.items ≡ octets.old.items ++ set_around number body.now) }
{
    if body.is_empty() {
        return Ok(());
    }
    let len = 4 + body.len() as u16;
    put_u16(octets, number)?;
    put_u16(octets, len)?;
    octets.extend_from_slice(body)?;
    Ok(())
}

/// The Sets of a message with these rows; without rows those of a head.
fn octets_of_sets(alloc: Global, width: u32, rows: &[RolledRow]) -> Result<Vec<u8>, AllocError>
    requires positive { 0 < width }
    requires few { length rows.now ≤ 1000 }
    ensures sets { IfOk result (λ octets. octets.items ≡ sets_of width rows.now) }
    ensures few { IfOk result (λ octets. length octets.items ≤ 41008) }
{
    let mut octets = Vec::new(alloc);
    if rows.is_empty() {
        octets.extend_from_slice(&HEAD_SETS)?;
        return Ok(octets);
    }
    put_set(
        &mut octets,
        WITH_PROTOCOL,
        &octets_of_rows(alloc, width, rows, true)?,
    )?;
    put_set(
        &mut octets,
        WITHOUT,
        &octets_of_rows(alloc, width, rows, false)?,
    )?;
    Ok(octets)
}

/// Appends a message to others.
pub(crate) fn put_message(
    octets: &mut Vec<u8>,
    alloc: Global,
    width: u32,
    time: u32,
    sequence: u32,
    domain: u32,
    rows: &[RolledRow],
) -> Result<(), AllocError>
    requires positive { 0 < width }
    requires few { length rows.now ≤ 1000 }
    ensures { OnOk result (octets.new.items ≡ octets.old.items
        ++ message_octets width (record { time = time; sequence = sequence; domain = domain; rows = rows.now })) }
{
    let sets = octets_of_sets(alloc, width, rows)?;
    let len = 16 + sets.len() as u16;
    put_u16(octets, VERSION)?;
    put_u16(octets, len)?;
    put_u32(octets, time)?;
    put_u32(octets, sequence)?;
    put_u32(octets, domain)?;
    octets.extend_from_slice(&sets)?;
    Ok(())
}
