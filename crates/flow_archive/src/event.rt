//! Events: what an archive is asked to do, what it answers, and lists of them.

ghost use Rattle.std.specs.Prelude.{◌≡◌, ℕ, true, false, IsTrue, All, IfOk, IfErr, MatchResult};
ghost use Rattle.flow_disk.specs.Cause.{HasCause};
ghost use Rattle.flow_disk.specs.Calls.{LeavesOnly};
ghost use Rattle.flow_gate.specs.Scan.{texts};
ghost use Rattle.flow_gate.specs.Steps.{slices};
ghost use Rattle.flow_archive.specs.Answers.{Answers, Takes};
ghost use Rattle.flow_archive.specs.Runs.{AreCaused, IsEvent, IsRun, IsSince, StandsForSome};
ghost use Rattle.flow_archive.specs.Seen.{IsStep};

use crate::archive::Archive;
use crate::refusal::ArchiveError;
use flow_disk::{Disk, Faults};
use std::alloc::{AllocError, Global};

/// What an archive is asked to do.
#[derive(Debug, Drop)]
pub enum Event {
    /// Add a message.
    Append(Vec<u8>),
    /// Add messages, all of them or none: from 1 to 64.
    AppendBatch(Vec<Vec<u8>>),
    /// Seal the active segment, and begin a new one.
    Seal,
    /// Begin a job that rolls so many of the oldest sealed segments into one file.
    RollBegin(u32),
    /// Begin a job that merges so many of the oldest rolled files into one file of wide intervals.
    MergeBegin(u32),
    /// Read and sum one source more of the job.
    RollStep,
    /// Make the file of the job.
    RollWrite,
    /// Put the file of the job in place of its sources.
    RollInstall,
    /// Give the job up.
    RollDrop,
    /// Remove the oldest file that waits for it.
    Retire,
}

/// What an archive answers to an event that it has taken.
#[derive(Clone, Copy, Debug, PartialEq, Eq)]
pub enum Answer {
    /// The number of the last message that was added, from 1 on.
    Position(u64),
    /// The number of the file that was sealed.
    Sealed(u64),
    /// A job has begun.
    Began,
    /// How many sources of the job are left to be read.
    Left(u32),
    /// The file of the job is made.
    Written,
    /// How many messages are rolled: the cut.
    Installed(u64),
    /// How many messages are summed over wide intervals: the second cut.
    Merged(u64),
    /// The job was given up.
    Dropped,
    /// The number of the file that was removed.
    Retired(u64),
}

/// The octets of messages.
fn slices_of<'a>(alloc: Global, messages: &'a [Vec<u8>]) -> Result<Vec<&'a [u8]>, AllocError>
    ensures { IfOk result (λ octets. slices octets.items ≡ texts messages.now) }
{
    let mut octets = Vec::with_capacity(alloc, messages.len())?;
    for message in messages {
        octets.push_reserved(message.as_slice());
    }
    Ok(octets)
}

/// Takes one event. Reads of a job's sources that fail raise `faults`.
pub fn take_event<D: Disk>(
    archive: &mut Archive<D>,
    alloc: Global,
    event: &Event,
    faults: &mut Faults<D::Sealed>,
) -> Result<Answer, ArchiveError>
    requires { IsEvent event.now }
    ensures answers { Answers (D.honest archive.old.disk) archive.old.closed archive.old.state event.now result
        archive.new.state }
    ensures step { IsStep D.Disk archive.old archive.new (Takes true archive.old.state event.now) result }
    ensures cause { HasCause ArchiveError.Fault (D.faults archive.old.disk) (D.faults archive.new.disk) result }
    ensures unread { HasCause ArchiveError.SourceFault faults.old faults.new result }
{
    match event {
        Event::Append(message) => {
            let position = archive.append_batch(alloc, &[message.as_slice()])?;
            Ok(Answer::Position(position))
        }
        Event::AppendBatch(messages) => {
            if archive.is_closed() {
                return Err(ArchiveError::Closed);
            }
            let octets = slices_of(alloc, messages.as_slice())?;
            let position = archive.append_batch(alloc, octets.as_slice())?;
            Ok(Answer::Position(position))
        }
        Event::Seal => {
            let file = archive.seal(alloc)?;
            Ok(Answer::Sealed(file))
        }
        Event::RollBegin(count) => {
            archive.roll_begin(alloc, *count)?;
            Ok(Answer::Began)
        }
        Event::MergeBegin(count) => {
            archive.merge_begin(alloc, *count)?;
            Ok(Answer::Began)
        }
        Event::RollStep => {
            let left = archive.roll_step(alloc, faults)?;
            Ok(Answer::Left(left))
        }
        Event::RollWrite => {
            archive.roll_write(alloc)?;
            Ok(Answer::Written)
        }
        Event::RollInstall => archive.roll_install(alloc),
        Event::RollDrop => {
            archive.roll_drop()?;
            Ok(Answer::Dropped)
        }
        Event::Retire => {
            let file = archive.retire()?;
            Ok(Answer::Retired(file))
        }
    }
}

/// Takes events in order, and answers each. The room for the answers is made first; where it is refused, nothing ran.
/// Reads of a job's sources that fail raise `faults`.
pub fn run<D: Disk>(
    archive: &mut Archive<D>,
    alloc: Global,
    events: &[Event],
    faults: &mut Faults<D::Sealed>,
) -> Result<Vec<Result<Answer, ArchiveError>>, AllocError>
    requires { All IsEvent events.now }
    ensures run { IfOk result (λ answers. IsRun D.Disk archive.old events.now answers.items archive.new) }
    ensures kept { IfErr result (λ _. archive.new ≡ archive.old) }

    // Some answer is `Fault` exactly where a call of the device failed, and `SourceFault` exactly where a read did.
    ensures cause { IfOk result (λ answers. AreCaused ArchiveError.Fault (D.faults archive.old.disk)
        (D.faults archive.new.disk) answers.items) }
    ensures unread { MatchResult result (λ answers. AreCaused ArchiveError.SourceFault faults.old faults.new
        answers.items) (λ _. faults.new ≡ faults.old) }

    // A stop at any moment leaves the archive after some prefix of the events.
    ensures any_moment { IsTrue (D.honest archive.old.disk) → archive.old.closed ≡ false
        → IfOk result (λ answers. LeavesOnly D.Disk archive.old.disk archive.new.disk
        (StandsForSome archive.old.state events.now answers.items)) }

    // And so from each event on.
    ensures since { IsTrue (D.honest archive.old.disk) → archive.old.closed ≡ false
        → IfOk result (λ answers. (i : ℕ) → IsSince D.Disk archive.old archive.new events.now answers.items i) }
{
    // Its contract says what each image represents at the start.
    let _closed = archive.is_closed();
    let mut answers = Vec::with_capacity(alloc, events.len())?;
    'events: for event in events {
        let answer = take_event(archive, alloc, event, faults);
        answers.push_reserved(answer);
    }
    Ok(answers)
}
