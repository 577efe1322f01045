//! Archives in memory that are stopped and opened again.

ghost use Rattle.std.specs.Prelude.{◌≡◌, false, All, IfOk};
ghost use Rattle.flow_archive.specs.Runs.{IsEvent};

use crate::messages::{NO_SET, PLAIN, RECORD};
use flow_archive::{Answer, Archive, ArchiveError, Event};
use flow_disk::{Disk, Faults};
use flow_headline::{NotOpened, Reopened, run_and_open, run_on_disk, totals_after_a_stop};
use flow_measure::Row;
use flow_memory_disk::{Choice, FusedDisk, MemoryDisk, Room};
use std::alloc::{AllocError, Global};
use std::test::*;

/// Room for two small segments.
const ROOM: Room = Room {
    files: 8,
    octets: 512,
    calls: 256,
    written: 8_192,
};

/// How many device calls make an archive.
const CREATING: u64 = 13;

/// More than the events make with their archive.
const ALL_CALLS: u64 = 64;

/// An archive without messages, over a disk that passes so many calls.
fn created(alloc: Global, calls: u64) -> Result<Archive<FusedDisk<MemoryDisk>>, ArchiveError>
    ensures { IfOk result (λ archive. archive.closed ≡ false) }
{
    let disk = FusedDisk::new(MemoryDisk::new(alloc, ROOM)?, calls);
    match Archive::create(alloc, disk, 300, 65_535) {
        Ok(archive) => Ok(archive),
        Err(refused) => Err(refused.error),
    }
}

/// A message, a seal, a roll of the sealed segment with a message that is cut short in between, a flow under the
/// template of the first message, and the removal of the segment.
fn events(alloc: Global) -> Result<[Event; 9], AllocError>
    ensures { IfOk result (λ events. All IsEvent events) }
{
    Ok([
        Event::Append(PLAIN.to_vec(alloc)?),
        Event::Seal,
        Event::RollBegin(1),
        Event::RollStep,
        Event::Append(PLAIN[..56].to_vec(alloc)?),
        Event::RollWrite,
        Event::RollInstall,
        Event::Append(RECORD.to_vec(alloc)?),
        Event::Retire,
    ])
}

/// The number of the last message that was acknowledged.
fn acknowledged(answers: &[Result<Answer, ArchiveError>]) -> u64 {
    let mut last = 0;
    for answer in answers {
        if let Ok(Answer::Position(position)) = answer {
            last = *position;
        }
    }
    last
}

/// How many messages were acknowledged before a stop, and how many the archive has that was opened after it.
fn counted(alloc: Global, reopened: &mut Reopened) -> Option<(u64, u64)> {
    let next = reopened.archive.append(alloc, NO_SET.as_slice()).ok()?;
    Some((
        acknowledged(reopened.answers.as_slice()),
        next.checked_sub(1)?,
    ))
}

/// How many messages were acknowledged before a stop at this call, and how many the archive has that is opened
/// after it.
fn counts(alloc: Global, events: &[Event], call: u64, choice: Choice<'_>) -> Option<(u64, u64)>
    requires { All IsEvent events.now }
{
    let Ok(archive) = created(alloc, call) else {
        return None;
    };
    match run_and_open(alloc, archive, events, choice) {
        Ok(reopened) => {
            let mut reopened = reopened;
            let counted = counted(alloc, &mut reopened);
            drop(reopened);
            counted
        }
        Err(refused) => {
            drop(refused);
            None
        }
    }
}

/// Whether an archive is opened with all that was acknowledged, and at most the message besides that was under way.
fn opens(alloc: Global, events: &[Event], call: u64, choice: Choice<'_>) -> bool
    requires { All IsEvent events.now }
{
    match counts(alloc, events, call, choice) {
        Some((acknowledged, left)) => matches!(left.checked_sub(acknowledged), Some(0 | 1)),
        None => false,
    }
}

/// Whether a stop is refused that no machine makes.
fn is_no_stop(alloc: Global, events: &[Event]) -> bool
    requires { All IsEvent events.now }
{
    let Ok(archive) = created(alloc, ALL_CALLS) else {
        return false;
    };
    let opened = run_and_open(alloc, archive, events, Choice::Filled(&[]));
    let is_refused = matches!(opened, Err(NotOpened::NoSuchStop));
    drop(opened);
    is_refused
}

/// The number of the last message that is acknowledged where an archive takes events.
fn last_of<D: Disk>(alloc: Global, archive: &mut Archive<D>, events: &[Event]) -> Option<u64>
    requires { All IsEvent events.now }
{
    match run_on_disk(alloc, archive, events, &mut Faults::new()) {
        Ok(answers) => Some(acknowledged(answers.as_slice())),
        Err(_) => None,
    }
}

/// The same of one in memory.
fn last_of_all(alloc: Global, events: &[Event]) -> Option<u64>
    requires { All IsEvent events.now }
{
    match created(alloc, ALL_CALLS) {
        Ok(archive) => {
            let mut archive = archive;
            let last = last_of(alloc, &mut archive, events);
            drop(archive);
            last
        }
        Err(_) => None,
    }
}

/// The flows, octets and packets of rows.
fn sums_of(rows: &[Row]) -> (u64, u128, u128) {
    let mut sums = (0, 0, 0);
    for row in rows {
        sums.0 = row.sums.flows.wrapping_add(sums.0);
        sums.1 = row.sums.octets.wrapping_add(sums.1);
        sums.2 = row.sums.packets.wrapping_add(sums.2);
    }
    sums
}

/// Those of all rows that start before a time, after a stop at this call.
fn sums(alloc: Global, events: &[Event], call: u64, to: u64) -> Option<(u64, u128, u128)>
    requires { All IsEvent events.now }
{
    let Ok(archive) = created(alloc, call) else {
        return None;
    };
    match totals_after_a_stop(alloc, archive, events, Choice::Settled, 0, to) {
        Ok(told) => Some(sums_of(told.rows.as_slice())),
        Err(_) => None,
    }
}

/// The first call at which a stop leaves what isn't opened with all that was acknowledged.
fn not_opened_at(alloc: Global, events: &[Event]) -> Option<u64>
    requires { All IsEvent events.now }
{
    for call in CREATING..ALL_CALLS {
        for choice in [Choice::Kept, Choice::Settled, Choice::Filled(&[0x0A])] {
            if !opens(alloc, events, call, choice) {
                return Some(call);
            }
        }
    }
    None
}

/// Whether both messages are there after a stop at the last call, and none after one at the first.
fn are_counted(alloc: Global, events: &[Event]) -> bool
    requires { All IsEvent events.now }
{
    counts(alloc, events, ALL_CALLS, Choice::Settled) == Some((2, 2))
        && counts(alloc, events, CREATING, Choice::Settled) == Some((0, 0))
}

/// Whether the sums are those of both flows after a stop at the last call, of none before they start, and of none after
/// a stop at the first.
fn are_summed(alloc: Global, events: &[Event]) -> bool
    requires { All IsEvent events.now }
{
    sums(alloc, events, ALL_CALLS, 1 << 32) == Some((2, 3_000, 20))
        && sums(alloc, events, ALL_CALLS, 1_699_999_800) == Some((0, 0, 0))
        && sums(alloc, events, CREATING, 1 << 32) == Some((0, 0, 0))
}

/// Which of these isn't so.
fn wrong(alloc: Global, events: &[Event]) -> Option<(&'static str, u64)>
    requires { All IsEvent events.now }
{
    if let Some(call) = not_opened_at(alloc, events) {
        return Some(("opened", call));
    }
    if !are_counted(alloc, events) {
        return Some(("counted", 0));
    }
    if !is_no_stop(alloc, events) {
        return Some(("no stop", 0));
    }
    if last_of_all(alloc, events) != Some(2) {
        return Some(("acknowledged", 0));
    }
    if !are_summed(alloc, events) {
        return Some(("summed", 0));
    }
    None
}

#[test]
fn stops(rt: HostRuntime) -> Result<(), Fail> {
    let alloc = rt.alloc();
    let events = events(alloc)?;
    assert_eq!(rt; wrong(alloc, events.as_slice()), None);
    Ok(())
}
