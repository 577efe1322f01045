//! The Sets of a message from their octets.

ghost use Rattle.std.specs.Prelude.{◌≡◌, ◌≢◌, ◌<◌, ◌≤◌, ◌+◌, ◌*◌, ℕ, List, [], ◌++◌, length, IfOk, IfSome, IfNone};
ghost use Rattle.std.specs.List.{AllByRecursion};
ghost use Rattle.flow_rolled.specs.declared.row.RolledRow.{RolledRow};
ghost use Rattle.flow_rolled.specs.Octets.{rows_octets, row_set_octets, sets_of, head_sets, IsOf, AreOf, IsSet};

use crate::message::FULL;
use crate::numbers::u16_of;
use crate::row::RolledRow;
use crate::row_reading::take_row;
use std::alloc::{AllocError, Global};

/// The Set of the rows with a protocol.
pub(crate) const WITH_PROTOCOL: u16 = 256;

/// The Set of the rows without one.
pub(crate) const WITHOUT: u16 = 257;

/// The Sets of a head: Set 2 with Templates 256 and 257, Set 3 with Options Template 258, Set 258 with its two records.
pub(crate) const HEAD_SETS: [u8; 84] = [
    0, 2, 0, 56, //
    1, 0, 0, 6, 0, 152, 0, 8, 0, 153, 0, 8, 0, 4, 0, 1, 1, 120, 0, 8, 0, 1, 0, 8, 0, 2, 0, 8, //
    1, 1, 0, 5, 0, 152, 0, 8, 0, 153, 0, 8, 1, 120, 0, 8, 0, 1, 0, 8, 0, 2, 0, 8, //
    0, 3, 0, 18, 1, 2, 0, 2, 0, 1, 0, 145, 0, 2, 1, 128, 0, 1, //
    1, 2, 0, 10, 1, 0, 1, 1, 1, 1,
];

/// The rows that fill these octets, one after the other, all with a protocol or all without.
fn rows_of(
    alloc: Global,
    octets: &[u8],
    width: u32,
    domain: u32,
    with: bool,
) -> Result<Option<Vec<RolledRow>>, AllocError>
    requires { 0 < width }
    ensures found { IfOk result (λ o. IfSome o (λ rows. octets.now ≡ rows_octets width rows.items)) }
    ensures all { IfOk result (λ o. IfSome o (λ rows. AllByRecursion (IsOf width domain with) rows.items)) }
    ensures none { IfOk result (λ o. IfNone o ((rows : List RolledRow) → AllByRecursion (IsOf width domain with) rows
        → octets.now ≢ rows_octets width rows)) }
{
    let mut rows = Vec::new(alloc);
    let mut rest = octets;
    while !rest.is_empty() {
        let Some((row, after)) = take_row(rest, width, domain, with) else {
            return Ok(None);
        };
        rows.push(row)?;
        rest = after;
    }
    Ok(Some(rows))
}

/// The rows of the Set with this number, where octets begin with it, and the octets after it; else no rows.
fn set_of<'a>(
    alloc: Global,
    octets: &'a [u8],
    number: u16,
    width: u32,
    domain: u32,
    with: bool,
) -> Result<Option<(Vec<RolledRow>, &'a [u8])>, AllocError>
    requires { 0 < width }
    ensures found { IfOk result (λ o. IfSome o (λ x. octets.now ≡ row_set_octets width number x.0.items ++ x.1.now)) }
    ensures all { IfOk result (λ o. IfSome o (λ x. AllByRecursion (IsOf width domain with) x.0.items)) }
    ensures only { IfOk result (λ o. IfSome o (λ x. (rows : List RolledRow) (more : List ℕ)
        → IsSet width domain number with octets.now rows more → (x.0.items ≡ rows) × (x.1.now ≡ more))) }
    ensures none { IfOk result (λ o. IfNone o ((rows : List RolledRow) (more : List ℕ)
        → IsSet width domain number with octets.now rows more → ⊥)) }
{
    if octets.len() < 2 {
        return Ok(Some((Vec::new(alloc), octets)));
    }
    let (other, rest) = u16_of(octets);
    if other != number {
        return Ok(Some((Vec::new(alloc), octets)));
    }
    if rest.len() < 2 {
        return Ok(None);
    }
    let (len, rest) = u16_of(rest);
    let len = len as usize;
    if len <= 4 || len - 4 > rest.len() {
        return Ok(None);
    }
    let (body, after) = rest.split_at(len - 4);
    let Some(rows) = rows_of(alloc, body, width, domain, with)? else {
        return Ok(None);
    };
    Ok(Some((rows, after)))
}

/// The rows of the message of this domain whose Sets these octets are; none of a head's.
pub(crate) fn rows_of_sets(
    alloc: Global,
    octets: &[u8],
    width: u32,
    domain: u32,
) -> Result<Option<Vec<RolledRow>>, AllocError>
    requires { 0 < width }
    ensures found { IfOk result (λ o. IfSome o (λ rows. octets.now ≡ sets_of width rows.items)) }
    ensures all { IfOk result (λ o. IfSome o (λ rows. AreOf width domain rows.items)) }
    ensures none { IfOk result (λ o. IfNone o ((rows : List RolledRow) → AreOf width domain rows
        → octets.now ≢ sets_of width rows)) }
{
    if octets == HEAD_SETS.as_slice() {
        return Ok(Some(Vec::new(alloc)));
    }
    let Some((mut rows, rest)) = set_of(alloc, octets, WITH_PROTOCOL, width, domain, true)? else {
        return Ok(None);
    };
    let Some((more, rest)) = set_of(alloc, rest, WITHOUT, width, domain, false)? else {
        return Ok(None);
    };
    rows.extend_from_slice(&more)?;
    if rows.is_empty() || rows.len() > FULL || !rest.is_empty() {
        return Ok(None);
    }
    Ok(Some(rows))
}
