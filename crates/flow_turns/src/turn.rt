//! Turns of rolling.

ghost use Rattle.std.specs.Prelude.{◌≡◌, ◌-◌, ◌↔◌, ◌<◌, IsTrue};
ghost use Rattle.flow_disk.specs.Cause.{HasCause};
ghost use Rattle.flow_archive.specs.declared.event.Answer.{Answer as CoreAnswer};
ghost use Rattle.flow_manifest.specs.Following.{source_of, count_of};
ghost use Rattle.flow_manifest.specs.Manifest.{IsInOrder};
ghost use Rattle.flow_manifest.specs.declared.manifest.Kind.TheVariants.{Sealed};
ghost use Rattle.flow_manifest.specs.declared.following.JobKind.TheVariants.{Merge, Roll};
ghost use Rattle.flow_turns.specs.Turns.{begun_by, due, files_over, next_step, turn_told, IsTurn};

use flow_archive::{Answer, Archive, ArchiveError, Event, JobStatus, take_event};
use flow_disk::{Disk, Faults};
use flow_manifest::{Entry, JobKind, Kind, MOST_ENTRIES};
use std::alloc::Global;

/// What a turn of rolling did.
#[derive(Clone, Copy, Debug, PartialEq, Eq)]
pub enum Turn {
    /// A job over so many files has begun.
    Began(u32),
    /// One file more was summed, and so many are left.
    Left(u32),
    /// The file of the job is made.
    Written,
    /// It is in the place of its segments: how many messages are rolled.
    Installed(u64),
    /// It is in the place of its rolled files: how many messages are summed over wide intervals.
    Merged(u64),
    /// The file of this number was removed.
    Retired(u64),
    /// There was nothing to do.
    Idle,
}

/// Whether more segments are sealed than the newest `keep`. They are the last entries but the active one: so the one
/// before those that are kept decides it, and none is counted.
fn has_more_sealed(entries: &[Entry], keep: u32) -> bool
    requires { IsInOrder entries.now }
    ensures { IsTrue result ↔ (keep < count_of Sealed entries.now) }
{
    match entries.len().checked_sub(keep as usize + 2) {
        Some(at) => matches!(entries[at].kind, Kind::Sealed),
        None => false,
    }
}

/// How many segments are sealed besides the newest `keep`.
fn sealed_over<D: Disk>(archive: &Archive<D>, keep: u32) -> usize
    ensures { result ≡ count_of Sealed archive.now.state.manifest.entries - keep }
{
    // On every disk, open or not, its manifest is a valid one.
    let _closed = archive.is_closed();
    if has_more_sealed(archive.manifest().entries.as_slice(), keep) {
        return archive.sealed_count().saturating_sub(keep as usize);
    }
    0
}

/// How many files a job of this kind may be begun over, where the newest `keep` are left as they are.
pub(crate) fn files_over<D: Disk>(archive: &Archive<D>, kind: JobKind, keep: u32) -> u32
    ensures { result ≡ files_over kind keep archive.now.state }
{
    let count = match kind {
        JobKind::Roll => sealed_over(archive, keep),
        JobKind::Merge => archive.rolled_count().saturating_sub(keep as usize),
    };
    count.min(MOST_ENTRIES as usize) as u32
}

/// The event that begins a job of this kind.
pub(crate) fn begun_by(kind: JobKind, count: u32) -> Event
    ensures { result ≡ begun_by kind count }
{
    match kind {
        JobKind::Roll => Event::RollBegin(count),
        JobKind::Merge => Event::MergeBegin(count),
    }
}

/// The next step of a job.
fn next_step(job: JobStatus) -> Event
    ensures { result ≡ next_step job }
{
    if job.left > 0 {
        return Event::RollStep;
    }
    match job.staged {
        None => Event::RollWrite,
        Some(_) => Event::RollInstall,
    }
}

/// The event of a turn.
fn due<D: Disk>(archive: &Archive<D>, kind: JobKind, keep: u32) -> Option<Event>
    ensures { result ≡ due kind keep archive.now.state }
{
    if let Some(job) = archive.job() {
        return Some(next_step(job));
    }
    let count = files_over(archive, kind, keep);
    if count > 0 {
        return Some(begun_by(kind, count));
    }
    match kind {
        JobKind::Roll => Some(Event::Retire),
        JobKind::Merge => None,
    }
}

/// A turn's answer, from the archive's answer to its event.
fn turn_told(event: &Event, answer: Result<Answer, ArchiveError>) -> Result<Turn, ArchiveError>
    ensures { result ≡ turn_told event.now answer }
{
    match (event, answer) {
        (Event::RollBegin(count) | Event::MergeBegin(count), Ok(Answer::Began)) => {
            Ok(Turn::Began(*count))
        }
        (_, Ok(Answer::Left(left))) => Ok(Turn::Left(left)),
        (_, Ok(Answer::Written)) => Ok(Turn::Written),
        (_, Ok(Answer::Installed(cut))) => Ok(Turn::Installed(cut)),
        (_, Ok(Answer::Merged(cut))) => Ok(Turn::Merged(cut)),
        (_, Ok(Answer::Retired(file))) => Ok(Turn::Retired(file)),
        (_, Ok(_)) => Ok(Turn::Idle),
        (_, Err(ArchiveError::Pinned | ArchiveError::NothingToRetire)) => Ok(Turn::Idle),
        (_, Err(error)) => Err(error),
    }
}

/// A turn of a job of this kind.
fn make_turn<D: Disk>(
    archive: &mut Archive<D>,
    alloc: Global,
    kind: JobKind,
    keep: u32,
    faults: &mut Faults<D::Sealed>,
) -> Result<Turn, ArchiveError>
    ensures turn { IsTurn D.Disk archive.old archive.new (due kind keep archive.old.state) result }
    ensures cause { HasCause ArchiveError.Fault (D.faults archive.old.disk) (D.faults archive.new.disk) result }
    ensures unread { HasCause ArchiveError.SourceFault faults.old faults.new result }
{
    let Some(event) = due(archive, kind, keep) else {
        if archive.is_closed() {
            return Err(ArchiveError::Closed);
        }
        return Ok(Turn::Idle);
    };
    let answer = take_event(archive, alloc, &event, faults);
    turn_told(&event, answer)
}

/// The next step of the job under way, of whatever kind; without one it begins to roll all sealed segments but the
/// newest `keep`; where there are none, it removes the oldest file that waits for its removal, and is idle where there
/// is none that can be removed. Reads of a source that fail raise `faults`.
///
/// Errors: those of the call of the archive that is due.
pub fn roll_turn<D: Disk>(
    archive: &mut Archive<D>,
    alloc: Global,
    keep: u32,
    faults: &mut Faults<D::Sealed>,
) -> Result<Turn, ArchiveError>
    ensures turn { IsTurn D.Disk archive.old archive.new (due Roll keep archive.old.state) result }
    ensures cause { HasCause ArchiveError.Fault (D.faults archive.old.disk) (D.faults archive.new.disk) result }
    ensures unread { HasCause ArchiveError.SourceFault faults.old faults.new result }
{
    make_turn(archive, alloc, JobKind::Roll, keep, faults)
}

/// The same, but without a job it begins to merge all rolled files but the newest `keep`, and where there are none it
/// is idle.
pub fn merge_turn<D: Disk>(
    archive: &mut Archive<D>,
    alloc: Global,
    keep: u32,
    faults: &mut Faults<D::Sealed>,
) -> Result<Turn, ArchiveError>
    ensures turn { IsTurn D.Disk archive.old archive.new (due Merge keep archive.old.state) result }
    ensures cause { HasCause ArchiveError.Fault (D.faults archive.old.disk) (D.faults archive.new.disk) result }
    ensures unread { HasCause ArchiveError.SourceFault faults.old faults.new result }
{
    make_turn(archive, alloc, JobKind::Merge, keep, faults)
}
