//! Events on any disk, and what a stop leaves of them.

ghost use Rattle.std.specs.Prelude.{◌≡◌, ℕ, false, All, IfErr, IfOk, IsTrue, MatchResult};
ghost use Rattle.flow_disk.specs.Disk.{AllImages};
ghost use Rattle.flow_disk.specs.Calls.{LeavesOnly};
ghost use Rattle.flow_model.specs.State.{State};
ghost use Rattle.flow_model.specs.Standing.{StandsFor};
ghost use Rattle.flow_archive.specs.Seen.{Seen};
ghost use Rattle.flow_archive.specs.Runs.{AreCaused, IsEvent, IsRun, IsSince, StandsForSome};
ghost use Rattle.flow_headline.specs.Front.{EndsAtFault, IsFront, StopsBetween};

use flow_archive::{Answer, Archive, ArchiveError, Event, run};
use flow_disk::{Disk, Faults};
use std::alloc::{AllocError, Global};

/// Takes events in order, on any disk, and answers each. The room for the answers is made first; where it is refused,
/// nothing ran. Reads of a job's sources that fail raise `faults`. A batch has from 1 to 64 messages.
pub fn run_on_disk<D: Disk>(
    alloc: Global,
    archive: &mut Archive<D>,
    events: &[Event],
    faults: &mut Faults<D::Sealed>,
) -> Result<Vec<Result<Answer, ArchiveError>>, AllocError>
    requires { All IsEvent events.now }
    // All events ran, each once, with these answers.
    ensures run { IfOk result (λ answers. IsRun D.Disk archive.old events.now answers.items archive.new) }
    ensures kept { IfErr result (λ _. archive.new ≡ archive.old) }
    // Some answer is `Fault` exactly where a call of the device failed, and `SourceFault` exactly where a read did.
    ensures cause { IfOk result (λ answers. AreCaused ArchiveError.Fault (D.faults archive.old.disk)
        (D.faults archive.new.disk) answers.items) }
    ensures unread { MatchResult result (λ answers. AreCaused ArchiveError.SourceFault faults.old faults.new
        answers.items) (λ _. faults.new ≡ faults.old) }
    ensures any_moment { IsTrue (D.honest archive.old.disk) → archive.old.closed ≡ false
        → IfOk result (λ answers. LeavesOnly D.Disk archive.old.disk archive.new.disk
        (StandsForSome archive.old.state events.now answers.items)) }
    ensures since { IsTrue (D.honest archive.old.disk) → archive.old.closed ≡ false
        → IfOk result (λ answers. (i : ℕ) → IsSince D.Disk archive.old archive.new events.now answers.items i) }
    // There is an archive of the moment at which each event began, and for all of them: a stop since event i began, and
    // before event j did, leaves a prefix of the first j events, with all that were acknowledged of the first i: so all
    // that were before the stop, and at most the one under way besides.
    ensures between { IsTrue (D.honest archive.old.disk) → archive.old.closed ≡ false
        → IfOk result (λ answers. (at : ℕ → Seen D)
        × StopsBetween D.Disk archive.old archive.new events.now answers.items at) }
    // A stop after all events leaves a prefix of them, with all that were acknowledged.
    ensures left { IsTrue (D.honest archive.old.disk) → archive.old.closed ≡ false
        → IfOk result (λ answers. AllImages (D.held archive.new.disk) (λ image. (left : State)
        × IsFront archive.old.state events.now answers.items left × StandsFor image left)) }
    ensures behind { IfOk result (λ answers. EndsAtFault answers.items) }
{
    // Its contract says what a stop would leave before the first event.
    let _closed = archive.is_closed();
    let answers = run(archive, alloc, events, faults)?;
    Ok(answers)
}
