//! Events, a stop, and the opening after it.

ghost use Rattle.std.specs.Prelude.{◌≡◌, ℕ, false, All, IfOk, IsErrOf, IfSome, None};
ghost use Rattle.flow_disk.specs.Disk.{IsDiskImage};
ghost use Rattle.flow_manifest.specs.Slots.{reads_of};
ghost use Rattle.flow_memory_disk.specs.Calls.{held_of};
ghost use Rattle.flow_memory_disk.specs.Memory.{story_of};
ghost use Rattle.flow_memory_disk.specs.Stopped.{stopped};
ghost use Rattle.flow_memory_disk.specs.Stopping.{CanCrash};
ghost use Rattle.flow_model.specs.State.{State};
ghost use Rattle.flow_model.specs.Standing.{StandsFor};
ghost use Rattle.flow_archive.specs.Runs.{IsEvent};
ghost use Rattle.flow_headline.specs.Front.{EndsAtFault, IsFront};
ghost use Rattle.flow_headline.specs.Machine.{IsFusedRun, IsNoStop, IsStoppedRun};

use crate::error::NotOpened;
use flow_archive::{Answer, Archive, ArchiveError, Event, run};
use flow_disk::Faults;
use flow_manifest::OpenError;
use flow_memory_disk::{Choice, FusedDisk, MemoryDisk};
use std::alloc::{AllocError, Global};

/// The answers of events, and the archive that was opened after a stop.
#[derive(Drop)]
pub struct Reopened {
    /// One for each event.
    pub answers: Vec<Result<Answer, ArchiveError>>,
    /// What the stop left.
    pub archive: Archive<MemoryDisk>,
}

/// The answers of events, and what a stop left of the disk.
#[derive(Drop)]
struct Stopped {
    answers: Vec<Result<Answer, ArchiveError>>,
    disk: MemoryDisk,
}

/// Runs events on an open archive over a disk that fails from some call on, stops the machine there, and opens what the
/// stop left. A batch has from 1 to 64 messages.
///
/// Errors: `OutOfMemory`, of the machine or of its disk, and `NoSuchStop` where the choice fits no stop after these
/// events.
pub fn run_and_open(
    alloc: Global,
    archive: Archive<FusedDisk<MemoryDisk>>,
    events: &[Event],
    choice: Choice<'_>,
) -> Result<Reopened, NotOpened>
    requires events { All IsEvent events.now }
    requires still_open { archive.closed ≡ false }
    // What was opened is the archive after a prefix of the events, with all that were acknowledged, and at most the one
    // under way besides.
    ensures prefix { IfOk result (λ r. IsFront archive.state events.now r.answers.items r.archive.state) }
    ensures behind { IfOk result (λ r. EndsAtFault r.answers.items) }
    ensures opened { IfOk result (λ r. r.archive.closed ≡ false) }
    // Its state is the one that the image left by the stop represents.
    ensures stopped { IfOk result (λ r. IsStoppedRun archive events.now r.answers.items choice.entry r.archive.state) }
    ensures no_stop { IsErrOf result NotOpened.NoSuchStop → IsNoStop archive events.now choice.entry }
{
    let Stopped { answers, disk } = run_and_stop(alloc, archive, events, choice)?;
    match Archive::open(alloc, disk) {
        Ok(archive) => Ok(Reopened { answers, archive }),
        Err(refused) => match refused.error {
            OpenError::OutOfMemory | OpenError::Fault => Err(NotOpened::OutOfMemory),
            _ => unreachable!(),
        },
    }
}

/// Runs events, and stops the machine after them.
fn run_and_stop(
    alloc: Global,
    archive: Archive<FusedDisk<MemoryDisk>>,
    events: &[Event],
    choice: Choice<'_>,
) -> Result<Stopped, NotOpened>
    requires events { All IsEvent events.now }
    requires still_open { archive.closed ≡ false }
    ensures thawed { IfOk result (λ s. (n : ℕ) → ((story_of s.disk).marks n).frozen ≡ false) }
    ensures left { IfOk result (λ s. (left : State) × IsFront archive.state events.now s.answers.items left
        × IsStoppedRun archive events.now s.answers.items choice.entry left
        × StandsFor (reads_of (held_of (story_of s.disk))) left) }
    ensures behind { IfOk result (λ s. EndsAtFault s.answers.items) }
    ensures no_stop { IsErrOf result NotOpened.NoSuchStop → IsNoStop archive events.now choice.entry }
{
    let mut archive = archive;
    // Its contract says what each image represents at the start.
    let _closed = archive.is_closed();
    let answers = run_all(&mut archive, alloc, events)?;
    match crashed(archive.into_disk(), choice) {
        Some(disk) => Ok(Stopped { answers, disk }),
        None => Err(NotOpened::NoSuchStop),
    }
}

/// Runs events.
fn run_all(
    archive: &mut Archive<FusedDisk<MemoryDisk>>,
    alloc: Global,
    events: &[Event],
) -> Result<Vec<Result<Answer, ArchiveError>>, AllocError>
    requires { All IsEvent events.now }
    ensures { IfOk result (λ answers. IsFusedRun archive.old events.now answers.items archive.new) }
{
    run(archive, alloc, events, &mut Faults::new())
}

/// What a stop leaves of a disk; `None` where no stop leaves what is chosen.
fn crashed(disk: FusedDisk<MemoryDisk>, choice: Choice<'_>) -> Option<MemoryDisk>
    ensures fits { IfSome result (λ _. CanCrash disk.disk.files.items choice.entry) }
    ensures image { IfSome result
        (λ d. IsDiskImage (held_of (story_of disk.disk)) (reads_of (held_of (story_of d)))) }
    ensures story { IfSome result (λ d. story_of d ≡ stopped (story_of disk.disk) choice.entry) }
    ensures thawed { IfSome result (λ d. (n : ℕ) → ((story_of d).marks n).frozen ≡ false) }
    ensures none { result ≡ None → CanCrash disk.disk.files.items choice.entry → ⊥ }
{
    if !disk.can_crash(choice) {
        return None;
    }
    Some(disk.crash(choice))
}
