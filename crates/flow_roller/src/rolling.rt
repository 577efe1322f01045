//! The thread that rolls.

ghost use Rattle.std.specs.Prelude.{◌≡◌, IfOk, List, length};
ghost use Rattle.flow_disk.specs.Cause.{HasCause};
ghost use Rattle.flow_turns.specs.declared.turn.Turn.{Turn};
ghost use Rattle.flow_roller.specs.Rolling.{IsRolled, RollsOn};

use crate::gate::{Gate, Point};
use flow_archive::ArchiveError;
use flow_disk::{Disk, Faults};
use flow_shared::{Naming, SharedArchive};
use flow_turns::Turn;
use std::alloc::Global;
use std::sync::Wait;

/// Passes the gate of a turn, and makes the turn.
fn turn_at<D: Disk, J: Naming, W: Wait, G: Gate>(
    shared: &SharedArchive<D, J, W>,
    rt: &W,
    alloc: Global,
    gate: &G,
    point: Point,
    keep: u32,
    faults: &mut Faults<D::Sealed>,
) -> Result<Turn, ArchiveError>
    ensures rolled { IsRolled D.Disk J.opening keep result }
    ensures unread { HasCause ArchiveError.SourceFault faults.old faults.new result }
{
    gate.pass(point);
    shared.roll_turn(rt, alloc, keep, faults)
}

/// Makes so many turns of rolling, and answers how many it made: all of them. Before each it passes the gate, while it
/// doesn't hold the archive. It stops at the first refusal, and answers that.
pub fn roll_worker<D: Disk, J: Naming, W: Wait, G: Gate>(
    shared: &SharedArchive<D, J, W>,
    rt: &W,
    alloc: Global,
    gate: &G,
    keep: u32,
    turns: u64,
    faults: &mut Faults<D::Sealed>,
) -> Result<u64, ArchiveError>
    ensures made { IfOk result (λ made. made ≡ turns) }
    ensures turns { (all : List Turn) × RollsOn D.Disk J.opening keep all result
        × IfOk result (λ made. length all ≡ made) }
    ensures unread { HasCause ArchiveError.SourceFault faults.old faults.new result }
{
    for turn in 0..turns {
        turn_at(shared, rt, alloc, gate, Point::Turn(turn + 1), keep, faults)?;
    }
    Ok(turns)
}
