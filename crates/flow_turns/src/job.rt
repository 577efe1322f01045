//! Whole jobs.

ghost use Rattle.std.specs.Prelude.{◌≡◌, ◌++◌, List, Result as Answered, replicate, All, IfOk, OnOk};
ghost use Rattle.flow_archive.specs.declared.event.Answer.{Answer as Reply};
ghost use Rattle.flow_archive.specs.declared.event.Event.TheVariants.{Retire, RollStep};
ghost use Rattle.flow_archive.specs.declared.refusal.ArchiveError.{ArchiveError as Refusal};
ghost use Rattle.flow_archive.specs.Runs.{IsEvent, IsRun};
ghost use Rattle.flow_turns.specs.Turns.{files_over, job_events, job_told, told_behind, IsCaused, IsJobRun};

use crate::turn::{begun_by, files_over};
use flow_archive::{Answer, Archive, ArchiveError, Event, take_event};
use flow_disk::{Disk, Faults};
use flow_manifest::JobKind;
use std::alloc::{AllocError, Global};

/// Appends so many steps to events.
fn push_steps(events: &mut Vec<Event>, count: u32) -> Result<(), AllocError>
    ensures { OnOk result (events.new.items ≡ events.old.items ++ replicate count RollStep) }
{
    for _ in 0..count {
        events.push(Event::RollStep)?;
    }
    Ok(())
}

/// Appends so many removals to events.
fn push_removals(events: &mut Vec<Event>, count: u32) -> Result<(), AllocError>
    ensures { OnOk result (events.new.items ≡ events.old.items ++ replicate count Retire) }
{
    for _ in 0..count {
        events.push(Event::Retire)?;
    }
    Ok(())
}

/// The events of a job over so many files: it begins, reads each, makes its file and installs it, and its sources are
/// removed.
fn job_events(alloc: Global, kind: JobKind, count: u32) -> Result<Vec<Event>, AllocError>
    ensures { IfOk result (λ events. events.items ≡ job_events kind count) }
{
    let mut events = Vec::new(alloc);
    if count == 0 {
        return Ok(events);
    }
    events.push(begun_by(kind, count))?;
    push_steps(&mut events, count)?;
    events.push(Event::RollWrite)?;
    events.push(Event::RollInstall)?;
    push_removals(&mut events, count)?;
    Ok(events)
}

/// A job's answer after the answer to one event more: the first refusal, but for that of a removal.
fn told_behind(
    told: Result<u32, ArchiveError>,
    answer: Result<Answer, ArchiveError>,
) -> Result<u32, ArchiveError>
    ensures { result ≡ told_behind told answer }
{
    match answer {
        Ok(_) | Err(ArchiveError::Pinned | ArchiveError::NothingToRetire) => told,
        Err(error) => told.and(Err(error)),
    }
}

/// Gives an archive each event of a job over so many files, and answers that count, or the first refusal, but for that
/// of a removal.
fn take_job<D: Disk>(
    archive: &mut Archive<D>,
    alloc: Global,
    events: &[Event],
    count: u32,
    faults: &mut Faults<D::Sealed>,
) -> Result<u32, ArchiveError>
    requires { All IsEvent events.now }
    ensures job { (answers : List (Answered Reply Refusal)) × IsRun D.Disk archive.old events.now answers archive.new
        × (result ≡ job_told count answers) }
    ensures cause { IsCaused ArchiveError.Fault (D.faults archive.old.disk) (D.faults archive.new.disk) result }
    ensures unread { IsCaused ArchiveError.SourceFault faults.old faults.new result }
{
    let mut told = Ok(count);
    'events: for event in events {
        let answer = take_event(archive, alloc, event, faults);
        told = told_behind(told, answer);
    }
    told
}

/// Rolls all sealed segments but the newest `keep` as one job, or merges all rolled files but the newest `keep`, and
/// removes what can be removed. It answers how many files the job summed, 0 where there are none, and nothing is done.
/// Reads of a source that fail raise `faults`.
///
/// Errors: the first refusal of an event of the job, and `OutOfMemory` before the first.
pub fn run_job<D: Disk>(
    archive: &mut Archive<D>,
    alloc: Global,
    kind: JobKind,
    keep: u32,
    faults: &mut Faults<D::Sealed>,
) -> Result<u32, ArchiveError>
    ensures job { IsJobRun D.Disk archive.old archive.new kind (files_over kind keep archive.old.state) result }
    ensures cause { IsCaused ArchiveError.Fault (D.faults archive.old.disk) (D.faults archive.new.disk) result }
    ensures unread { IsCaused ArchiveError.SourceFault faults.old faults.new result }
{
    let count = files_over(archive, kind, keep);
    let events = job_events(alloc, kind, count)?;
    take_job(archive, alloc, events.as_slice(), count, faults)
}
