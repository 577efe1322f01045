//! A roller beside those who append.

ghost use Rattle.std.specs.Prelude.{◌≡◌, ◌+◌, ◌≤◌, ◌↔◌, List, Ok, IfOk, IfErr, IsTrue, OnOk, length};
ghost use Rattle.std.specs.List.{AllByRecursion};
ghost use Rattle.flow_disk.specs.Cause.{HasCause};
ghost use Rattle.flow_turns.specs.declared.turn.Turn.{Turn};
ghost use Rattle.flow_turns.specs.declared.turn.Turn.TheVariants as answer;
ghost use Rattle.flow_roller.specs.Rolling.{IsDone, IsMerging, IsRolled, IsRoundRefused, MergesWhereMany, RollsBeside};
ghost use Rattle.flow_roller.specs.Rolling.{RollsOn, Round};

use crate::bell::{Bell, Keeping};
use crate::gate::Open;
use crate::rolling::roll_worker;
use flow_archive::ArchiveError;
use flow_disk::{Disk, Faults};
use flow_shared::{Naming, SharedArchive};
use flow_turns::Turn;
use std::alloc::Global;
use std::sync::Wait;

/// How many turns are made at most to end a job, and to remove what was replaced.
const MOST_CALLS: u64 = 1_000_000;

/// How many turns it makes at once.
const TURNS: u64 = 16;

/// How many of the newest segments are left as they are where no job is to begin: all.
const ALL: u32 = u32::MAX;

/// How many rolled files a merge sums at least. Each merge leaves a file over wide intervals, which no other one sums,
/// so these grow in number with the merges, up to what a manifest names.
const WORTH: usize = 1024;

/// Ends the job that is under way, and removes what waits for its removal, as far as it can be removed now. What
/// readers are shown is published twice before each turn, so that neither directory holds a file that was replaced.
fn clear<D: Disk, J: Naming, W: Wait>(
    shared: &SharedArchive<D, J, W>,
    rt: &W,
    alloc: Global,
    faults: &mut Faults<D::Sealed>,
) -> Result<(), ArchiveError>
    ensures unread { HasCause ArchiveError.SourceFault faults.old faults.new result }
    // No job begins: each turn is made by one who keeps all.
    ensures turns { (all : List Turn) × RollsOn D.Disk J.opening 4294967295 all result
        × IfOk result (λ _. IsDone 1000000 all) }
{
    for _ in 0..MOST_CALLS {
        shared.refresh(rt, alloc);
        shared.refresh(rt, alloc);
        if shared.roll_turn(rt, alloc, ALL, faults)? == Turn::Idle {
            return Ok(());
        }
    }
    Ok(())
}

/// Whether it is worth it to merge all but the newest `keep` of so many rolled files.
fn is_worth(rolled: usize, keep: u32) -> bool
    ensures { IsTrue result ↔ (keep + 1024 ≤ rolled) }
{
    rolled >= keep as usize + WORTH
}

/// Ends the job that is under way, and then merges all rolled files but the newest `keep` as one job.
fn merge<D: Disk, J: Naming, W: Wait>(
    shared: &SharedArchive<D, J, W>,
    rt: &W,
    alloc: Global,
    keep: u32,
    faults: &mut Faults<D::Sealed>,
) -> Result<(), ArchiveError>
    ensures unread { HasCause ArchiveError.SourceFault faults.old faults.new result }
    ensures turns { IsMerging D.Disk J.opening keep result }
{
    for _ in 0..MOST_CALLS {
        if shared.merge_turn(rt, alloc, keep, faults)? == Turn::Idle {
            return Ok(());
        }
    }
    Ok(())
}

/// The same, where it is asked for, and there are so many rolled files that it is worth it.
fn merge_where_many<D: Disk, J: Naming, W: Wait>(
    shared: &SharedArchive<D, J, W>,
    rt: &W,
    alloc: Global,
    keep: Option<u32>,
    faults: &mut Faults<D::Sealed>,
) -> Result<(), ArchiveError>
    ensures unread { HasCause ArchiveError.SourceFault faults.old faults.new result }
    ensures merged { MergesWhereMany D.Disk J.opening keep result }
{
    let Some(keep) = keep else {
        return Ok(());
    };
    let rolled = shared.rolled_count(rt);
    if !is_worth(rolled, keep) {
        return Ok(());
    }
    merge(shared, rt, alloc, keep, faults)
}

/// One round of the roller: so many turns, then merging, where it is asked for and worth it, then what `clear` does,
/// and one turn more, which it answers.
fn round<D: Disk, J: Naming, W: Wait>(
    shared: &SharedArchive<D, J, W>,
    rt: &W,
    alloc: Global,
    keep: u32,
    merged: Option<u32>,
    faults: &mut Faults<D::Sealed>,
) -> Result<Turn, ArchiveError>
    ensures unread { HasCause ArchiveError.SourceFault faults.old faults.new result }
    ensures worked { OnOk result ((all : List Turn)
        × AllByRecursion (λ turn. IsRolled D.Disk J.opening keep (Ok turn)) all × (length all ≡ 16)) }
    ensures merged { OnOk result (MergesWhereMany D.Disk J.opening merged (Ok tt)) }
    ensures last { IfOk result (λ turn. IsRolled D.Disk J.opening keep (Ok turn)) }
    ensures refused { IfErr result (IsRoundRefused D.Disk J.opening keep merged) }
{
    roll_worker(shared, rt, alloc, &Open, keep, TURNS, faults)?;
    merge_where_many(shared, rt, alloc, merged, faults)?;
    clear(shared, rt, alloc, faults)?;
    shared.roll_turn(rt, alloc, keep, faults)
}

/// Whether a roller is done after such a turn: nothing more is appended, and there was nothing to do.
fn is_done(last: Turn, has_ended: bool) -> bool
    ensures { IsTrue result → last ≡ answer.Idle }
{
    has_ended && last == Turn::Idle
}

/// Waits for the bell where the last turn had nothing to do, and answers whether nothing more is appended.
fn wait_where_idle<K: Keeping, W: Wait>(
    bell: &Bell<K>,
    rt: &W,
    last: Turn,
    has_ended: bool,
    heard: &mut u64,
) -> bool {
    if has_ended || last != Turn::Idle {
        return has_ended;
    }
    bell.wait(rt, heard)
}

/// Makes turns of rolling while others append, until they have ended and there is nothing left to do: all sealed
/// segments but the newest ones that the bell says to keep are rolled then, and files that were replaced are removed.
/// Where the bell says so, all rolled files but the newest are merged as soon as there are 1,024 of them. It waits for
/// the bell where it is idle, and makes its turns 2^64 - 1 times at most. It stops at the first refusal, and answers
/// that. Reads of a job's sources that fail raise `faults`.
pub fn roll_beside<D: Disk, J: Naming, K: Keeping, W: Wait>(
    shared: &SharedArchive<D, J, W>,
    rt: &W,
    alloc: Global,
    bell: &Bell<K>,
    faults: &mut Faults<D::Sealed>,
) -> Result<(), ArchiveError>
    ensures unread { HasCause ArchiveError.SourceFault faults.old faults.new result }
    // Each round is by one who keeps, and merges, as many as was asked for.
    ensures rounds { (rounds : List Round) × RollsBeside D.Disk J.opening K.asked rounds result }
{
    let mut heard = 0;
    let mut has_ended = false;
    for _ in 0..u64::MAX {
        let keep = bell.keep(rt);
        let merged = bell.merge(rt);
        let last = round(shared, rt, alloc, keep, merged, faults)?;
        if is_done(last, has_ended) {
            return Ok(());
        }
        has_ended = wait_where_idle(bell, rt, last, has_ended, &mut heard);
    }
    Ok(())
}
