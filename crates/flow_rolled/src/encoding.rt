//! The octets of a table's rolled file.

ghost use Rattle.std.specs.Prelude.{◌≡◌, ◌≤◌, ◌<◌, ℕ, List, ◌∷◌, length, take, Option, IfOk, IfSome};
ghost use Rattle.std.specs.Ordering.{is_lt};
ghost use Rattle.std.specs.List.Sorted.{IsPermutation, IsSortedBy};
ghost use Rattle.flow_rolled.specs.declared.row.RolledRow.{RolledRow};
ghost use Rattle.flow_rolled.specs.Rows.{file_cmp};
ghost use Rattle.flow_rolled.specs.Messages.{RolledMessage, group, message_after, messages_with};
ghost use Rattle.flow_rolled.specs.Octets.{messages_octets};
ghost use Rattle.flow_rolled.specs.Rollup.{rollup_octets, IsRollup};
ghost use Rattle.flow_rolled.specs.Writing.{IsPlaceOf, part_at};

use crate::message::{FULL, due_behind};
use crate::message_writing::put_message;
use crate::order::compare;
use crate::row::RolledRow;
use crate::row_writing::rows_of;
use flow_measure::{Key, Rows, Sums};
use std::alloc::{AllocError, Global};

/// A message's sequence number, domain, and count of rows.
#[derive(Clone, Copy)]
pub(crate) struct Place {
    /// Its sequence number.
    pub sequence: u32,
    pub domain: u32,
    /// How many rows; none of a head.
    pub count: usize,
}

/// Puts entries in the file's order.
fn sort_entries(entries: &mut Vec<(Key, Sums)>)
    ensures same { IsPermutation entries.old.items entries.new.items }
    ensures sorted { IsSortedBy (λ a b. is_lt (file_cmp a.0 b.0)) entries.new.items }
{
    entries.sort_unstable_by(|a, b| compare(&a.0, &b.0));
}

/// How many of the first rows are of this domain, up to 1,000.
fn group_len(rows: &[RolledRow], domain: u32) -> usize
    ensures { result ≡ length (group 1000 domain rows.now) }
{
    let mut count = 0;
    for row in rows {
        if count == FULL || row.key.domain != domain {
            return count;
        }
        count += 1;
    }
    count
}

/// The next message: rows of the domain of the message before, up to 1,000; else the head of the first row's domain.
fn next_place(before: Option<Place>, rows: &[RolledRow]) -> Place
    requires some { 0 < length rows.now }
    requires few { IfSome before (λ p. p.count ≤ 1000) }
    ensures few { result.count ≤ 1000 }
    ensures within { result.count ≤ length rows.now }
    ensures is { (time : ℕ) (b : Option RolledMessage) (r : RolledRow) (rs : List RolledRow) → IsPlaceOf before b
        → rows.now ≡ r ∷ rs
        → part_at time result rows.now ≡ message_after time b r rs }
{
    let domain = rows[0].key.domain;
    if let Some(place) = before {
        if place.domain == domain {
            return Place {
                sequence: due_behind(place.sequence, place.count),
                domain,
                count: group_len(rows, domain),
            };
        }
    }
    Place {
        sequence: 0,
        domain,
        count: 0,
    }
}

/// The messages of rows in the file's order.
fn messages_of(
    alloc: Global,
    width: u32,
    rows: &[RolledRow],
    time: u32,
) -> Result<Vec<u8>, AllocError>
    requires { 0 < width }
    ensures { IfOk result (λ octets. octets.items ≡ messages_octets width (messages_with time rows.now)) }
{
    let mut octets = Vec::new(alloc);
    let mut before = None;
    let mut left = rows;
    while !left.is_empty() {
        let place = next_place(before, left);
        let (group, rest) = left.split_at(place.count);
        put_message(
            &mut octets,
            alloc,
            width,
            time,
            place.sequence,
            place.domain,
            group,
        )?;
        before = Some(place);
        left = rest;
    }
    Ok(octets)
}

/// The octets of the rolled file of these rows, with this Export Time in seconds since 1970-01-01 00:00 UTC. All
/// numbers are big-endian. For each observation domain, in ascending order, a head message with Templates 256 and 257
/// and Options Template 258, and the rows in messages of 1,000 (RFC 7015's elements); without rows no octets. It fails
/// only where memory is refused.
pub fn encode_rows(alloc: Global, rows: &Rows, time: u32) -> Result<Vec<u8>, AllocError>
    ensures octets { IfOk result (λ octets. octets.items ≡ rollup_octets rows.now time) }
    // `decode_rows` reads these rows back.
    ensures rolled { IfOk result (λ octets. IsRollup rows.now.width octets.items rows.now) }
{
    let width = rows.width();
    let mut entries = rows.entries()?;
    sort_entries(&mut entries);
    let rows = rows_of(alloc, &entries)?;
    messages_of(alloc, width, &rows, time)
}
