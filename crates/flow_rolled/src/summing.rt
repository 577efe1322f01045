//! The rows of a rolled file on a disk, added to sums.

ghost use Rattle.std.specs.Prelude.{◌≡◌, ◌<◌, IsTrue, OnOk, IfErr, MatchResult};
ghost use Rattle.flow_disk.specs.Cause.{HasCause};
ghost use Rattle.flow_measure.specs.Sums.{AllFit, IsRefused, widened_key};
ghost use Rattle.flow_rolled.specs.Rows.{sums_in};
ghost use Rattle.flow_rolled.specs.Stored.{with_rows, AreCounted, IsAdded, IsNotAdded, IsSpentBy, NamesFile};

use crate::part::RolledPart;
use crate::reader::RowReader;
use crate::row::RolledRow;
use flow_disk::{Faults, SealedFile};
use flow_measure::{Key, Rows, SumError, Sums, interval_of};
use flow_refusals::SumRefusal;
use std::alloc::Global;

/// The key of the interval by this width that holds a key's start.
fn widened_key(key: Key, width: u32) -> Key
    requires { 0 < width }
    ensures { result ≡ widened_key width key }
{
    Key {
        start: interval_of(key.start, width),
        ..key
    }
}

/// What a row adds.
pub(crate) fn sums_in(row: &RolledRow) -> Sums
    ensures { result ≡ sums_in row.now }
{
    Sums {
        flows: row.flows,
        octets: u128::from(row.octets),
        packets: u128::from(row.packets),
    }
}

/// Adds rows, each under the key of the interval that holds its start. After an `Err` some may have been added.
fn add_widened(rows: &mut Rows, list: &[RolledRow]) -> Result<(), SumError>
    requires { AreCounted rows.old list.now }
    ensures { MatchResult result
        (λ _. AllFit (with_rows list.now rows.old) × (rows.new ≡ with_rows list.now rows.old))
        (λ e. IsRefused e (with_rows list.now rows.old) × (rows.new.width ≡ rows.old.width)) }
{
    let width = rows.width();
    for row in list {
        rows.put(widened_key(row.key, width), sums_in(row))?;
    }
    Ok(())
}

/// Adds the sums of a rolled file, which was rolled by `width` in seconds, to sums of the same or another width, each
/// under the key of the interval that holds its start. No list of them is made: it takes memory for one piece of the
/// file, the rows of one message, and new keys.
///
/// What `RowReader` refuses is refused so; 14 SumSpent where a sum would pass its type by the rows read so far. After
/// an `Err` some rows may have been added.
pub fn sum_rows<S: SealedFile>(
    alloc: Global,
    faults: &mut Faults<S>,
    part: &RolledPart<S>,
    width: u32,
    rows: &mut Rows,
) -> Result<(), SumRefusal>
    requires { 0 < width }
    // On every file.
    ensures width { rows.new.width ≡ rows.old.width }
    ensures names { IfErr result (λ e. NamesFile part.now e) }
    ensures cause { HasCause SumRefusal.Fault faults.old faults.new result }

    // On an honest one: the sums of the file's table are added, and a refusal says why they aren't.
    ensures added { IsTrue part.now.honest → OnOk result (IsAdded width part.now.octets rows.old rows.new) }
    ensures refused { IsTrue part.now.honest → IfErr result (λ e. IsNotAdded part.now width rows.old e) }
    // A sum that is reported as spent is so by rows with which the file begins, damaged after them or not.
    ensures spent { IsTrue part.now.honest → IfErr result (λ e. IsSpentBy part.now width rows.old e) }
{
    let mut reader = RowReader::new(alloc, part, width);
    while let Some(list) = reader.next(alloc, faults)? {
        add_widened(rows, &list)?;
    }
    Ok(())
}
