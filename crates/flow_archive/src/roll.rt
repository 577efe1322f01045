//! The jobs of an archive, up to the making of their files.

ghost use Rattle.std.specs.Prelude.{◌≡◌, ◌≢◌, ◌<◌, [], ◌∷◌, ◌++◌, ℕ, IsTrue, List, OnErr, OnOk, MatchResult, true};
ghost use Rattle.std.specs.Prelude.{IfOk, IfErr, false, length};
ghost use Rattle.flow_disk.specs.Cause.{HasCause, FailsOnlyByFault};
ghost use Rattle.flow_manifest.specs.declared.following.JobKind.TheVariants.{Merge, Roll};
ghost use Rattle.flow_manifest.specs.declared.manifest.Manifest.{Manifest};
ghost use Rattle.flow_measure.specs.History.{History};
ghost use Rattle.flow_snapshot.specs.Totals.{IsWithinHistoryLimits};
ghost use Rattle.flow_model.specs.Jobs.{width_made, IsJobSum};
ghost use Rattle.flow_model.specs.Shelved.{HasHistory};
ghost use Rattle.flow_model.specs.State.{Part};
ghost use Rattle.flow_archive.specs.Advancing.{HasTaken, IsNotTaken, IsTaken, IsTakenIn};
ghost use Rattle.flow_archive.specs.JobAnswers.{begun, dropped, AnswersBegin, AnswersDrop, AnswersStep, IsStagedGone};
ghost use Rattle.flow_archive.specs.JobAnswers.{IsStepped, AnswersWrite, IsWritten};
ghost use Rattle.flow_archive.specs.Seen.{IsStep};
ghost use Rattle.flow_archive.specs.Sources.{IsJobTime, IsSource};
ghost use Rattle.flow_archive.specs.UnderWay.{frozen_staged};
ghost use Rattle.flow_archive.specs.Staging.{AreJobOctets, HasNoOctets, job_with_staged};
ghost use Rattle.flow_disk.specs.Disk.{InFile};
ghost use Rattle.flow_disk.specs.Calls.{StopsBy, EndsBy};
ghost use Rattle.flow_segment.specs.Steps.{Becomes, IsAnything};

use crate::archive::Archive;
use crate::frozen::FrozenFile;
use crate::job::{RunningJob, generations_kept, sources_from, width_made};
use crate::refusal::ArchiveError;
use crate::sources::of_source;
use flow_disk::{Disk, DiskError, Faults, SealedFile};
use flow_manifest::{JobKind, count_of};
use flow_refusals::SumRefusal;
use flow_rolled::encode_rows;
use std::alloc::Global;

impl<D: Disk> Archive<D> {
    /// Begins a job that makes one rolled file of the `count` oldest sealed segments. It takes no memory, and doesn't
    /// call the device. Refusals, the first that holds: 49 Closed; 43 RollBusy, where a job is under way; 45 RollCount,
    /// where there aren't so many sealed segments, or none are asked for.
    pub fn roll_begin(&mut self, alloc: Global, count: u32) -> Result<(), ArchiveError>
        ensures answers { AnswersBegin self.old.closed self.old.state Roll count result self.new.state }
        ensures disk { self.new.disk ≡ self.old.disk }
        ensures step { IsStep D.Disk self.old self.new (λ after. after ≡ begun self.old.state Roll count) result }
        ensures cause { HasCause ArchiveError.Fault (D.faults self.old.disk) (D.faults self.new.disk) result }
    {
        self.begin(alloc, JobKind::Roll, count)
    }

    /// Begins a job that makes one wide file of the `count` oldest rolled files. Else it is as `roll_begin`.
    pub fn merge_begin(&mut self, alloc: Global, count: u32) -> Result<(), ArchiveError>
        ensures answers { AnswersBegin self.old.closed self.old.state Merge count result self.new.state }
        ensures disk { self.new.disk ≡ self.old.disk }
        ensures step { IsStep D.Disk self.old self.new (λ after. after ≡ begun self.old.state Merge count) result }
        ensures cause { HasCause ArchiveError.Fault (D.faults self.old.disk) (D.faults self.new.disk) result }
    {
        self.begin(alloc, JobKind::Merge, count)
    }

    /// Reads one source of the job that is under way, a piece at a time, merges its sums into the job's, and answers
    /// how many sources are left. Where none is left nothing is read. Refusals, the first that holds: 49 Closed; 44
    /// NoRoll; 20 Damaged, of the source's file, where it isn't what its entry says, or of the first source's, at octet
    /// 0, where sums would pass their types; 30 where the device failed; and 11 OutOfMemory. None of them changes
    /// anything, and the archive stays open.
    pub fn roll_step(
        &mut self,
        alloc: Global,
        faults: &mut Faults<D::Sealed>,
    ) -> Result<u32, ArchiveError>
        ensures answers { AnswersStep (D.honest self.old.disk) self.old.closed self.old.state result self.new.state }
        ensures disk { self.new.disk ≡ self.old.disk }
        ensures step { IsStep D.Disk self.old self.new (λ after. IsStepped self.old.state after) result }
        ensures unread { HasCause ArchiveError.SourceFault faults.old faults.new result }
        // On an honest disk 20 never comes where the archive has a history within the limits.
        ensures fits { IsTrue (D.honest self.old.disk) → (h : History) → HasHistory self.old.state h
            → IsWithinHistoryLimits h
            → (file at : ℕ) → result ≢ Err (ArchiveError.Damaged file at) }
    {
        if self.closed {
            return Err(ArchiveError::Closed);
        }
        let Some(job) = &mut self.job else {
            return Err(ArchiveError::NoRoll);
        };
        if job.read == job.sources {
            return Ok(0);
        }
        let manifest = &self.slots.current;
        let from = sources_from(job.kind, manifest.entries.as_slice());
        let first = &self.files[from];
        let source = &self.files[from + job.read as usize];
        match take_source(alloc, job, source, manifest.width, faults) {
            Ok(()) => {}
            Err(e) => {
                let oldest = first.number();
                let next = source.number();
                return Err(of_source(e, oldest, next));
            }
        }
        Ok(job.sources - job.read)
    }

    /// Makes the file of the job that is under way, whose sources are all read: its sums, with the greatest Export Time
    /// of its sources. No manifest names it yet. Where the file was made before, nothing happens. Refusals, the first
    /// that holds: 49 Closed; 44 NoRoll; 46 RollNotDone; 25 NumbersSpent; and 11 OutOfMemory, which changes nothing
    /// either. After 30 Fault the archive is closed.
    pub fn roll_write(&mut self, alloc: Global) -> Result<(), ArchiveError>
        ensures answers { AnswersWrite (D.honest self.old.disk) self.old.closed self.old.state result self.new.state }
        ensures step { IsStep D.Disk self.old self.new (λ after. IsWritten true self.old.state after) result }
        ensures cause { HasCause ArchiveError.Fault (D.faults self.old.disk) (D.faults self.new.disk) result }
    {
        if self.closed {
            return Err(ArchiveError::Closed);
        }
        if generations_kept(&self.job) > 0 {
            return Ok(());
        }
        let octets = staged_octets(alloc, &self.job, self.next, self.slots.current.generation)?;
        match stage(&mut self.disk, self.next, octets.as_slice()) {
            Ok(file) => {
                hold(&mut self.job, file);
                self.next += 1;
                Ok(())
            }
            Err(_) => {
                self.closed = true;
                Err(ArchiveError::Fault)
            }
        }
    }

    /// Gives the job up that is under way, and removes the file that it has made. It takes no memory. Refusals, the
    /// first that holds: 49 Closed; 44 NoRoll. After 30 Fault the archive is closed, and has no job.
    pub fn roll_drop(&mut self) -> Result<(), ArchiveError>
        ensures answers { AnswersDrop self.old.closed self.old.state result self.new.state }
        ensures removed { OnOk result (IsStagedGone (D.marks self.new.disk) self.old.state) }
        ensures step { IsStep D.Disk self.old self.new (λ after. after ≡ dropped self.old.state) result }
        ensures cause { HasCause ArchiveError.Fault (D.faults self.old.disk) (D.faults self.new.disk) result }
    {
        if self.closed {
            return Err(ArchiveError::Closed);
        }
        let Some(job) = self.job.take() else {
            return Err(ArchiveError::NoRoll);
        };
        let Some(file) = job.into_file() else {
            return Ok(());
        };
        match self.disk.retire(file) {
            Ok(()) => Ok(()),
            Err(_) => {
                self.closed = true;
                Err(ArchiveError::Fault)
            }
        }
    }

    /// Begins a job of a kind.
    fn begin(&mut self, alloc: Global, kind: JobKind, count: u32) -> Result<(), ArchiveError>
        ensures answers { AnswersBegin self.old.closed self.old.state kind count result self.new.state }
        ensures disk { self.new.disk ≡ self.old.disk }
        ensures step { IsStep D.Disk self.old self.new (λ after. after ≡ begun self.old.state kind count) result }
        ensures cause { HasCause ArchiveError.Fault (D.faults self.old.disk) (D.faults self.new.disk) result }
    {
        if self.closed {
            return Err(ArchiveError::Closed);
        }
        if self.job.is_some() {
            return Err(ArchiveError::RollBusy);
        }
        let manifest = &self.slots.current;
        let there = count_of(manifest.entries.as_slice(), kind.source());
        if count == 0 || there < count as usize {
            return Err(ArchiveError::RollCount);
        }
        let width = width_made(kind, manifest);
        self.job = Some(RunningJob::new(alloc, kind, count, width));
        Ok(())
    }
}

/// Reads the next source of a job, and adds what it holds to the sums of the job. A refusal changes nothing. Beside
/// what the reading takes, it takes memory for a change of each key of the job that a segment has too, and for new
/// keys.
fn take_source<S: SealedFile>(
    alloc: Global,
    job: &mut RunningJob<S>,
    source: &FrozenFile<S>,
    width: u32,
    faults: &mut Faults<S>,
) -> Result<(), SumRefusal>
    requires width { 0 < width }
    requires left { job.old.read < job.old.sources }
    ensures kept { OnErr result (job.new ≡ job.old) }
    ensures taken { OnOk result (IsTaken job.old job.new) }
    ensures cause { HasCause SumRefusal.Fault faults.old faults.new result }
    // On an honest disk, damaged or not: what is taken is all that the source holds; or why nothing is.
    ensures found { IsTrue source.now.honest → MatchResult result (λ x. HasTaken width source.now job.old job.new)
        (IsNotTaken width source.now job.old.rows) }
    // On an honest disk: the sums and the greatest Export Time are those of one part more.
    ensures read { IsTrue source.now.honest → (m : Manifest) (parts : List Part) (p : Part) → width ≡ m.width
        → job.old.rows.width ≡ width_made job.old.kind m → IsSource job.old.kind m source.now p
        → IsJobSum job.old.kind m parts job.old.rows → IsJobTime job.old.kind parts job.old.time
        → IsTakenIn job.old.kind m (parts ++ p ∷ []) result job.new }
{
    let time = source.add_to(alloc, width, &mut job.window, &mut job.rows, faults)?;
    job.time = job.time.max(time);
    job.read += 1;
    Ok(())
}

/// The octets of the file that a job makes; else the first of the refusals 44, 46, 25 that holds, or 11. `next` is the
/// file's number, and `generation` that of the manifest in force.
fn staged_octets<S: SealedFile>(
    alloc: Global,
    job: &Option<RunningJob<S>>,
    next: u64,
    generation: u64,
) -> Result<Vec<u8>, ArchiveError>
    ensures made { IfOk result (λ octets. AreJobOctets job.now next generation octets.items) }
    ensures refused { IfErr result (HasNoOctets job.now next generation) }
{
    let Some(job) = job else {
        return Err(ArchiveError::NoRoll);
    };
    if job.read < job.sources {
        return Err(ArchiveError::RollNotDone);
    }
    if next == u64::MAX || generation == u64::MAX {
        return Err(ArchiveError::NumbersSpent);
    }
    let time = job.time;
    Ok(encode_rows(alloc, &job.rows, time)?)
}

/// The job has made this file.
fn hold<S: SealedFile>(job: &mut Option<RunningJob<S>>, file: S)
    ensures { job.new ≡ job_with_staged (frozen_staged S.number S.size S.honest S.octets file) job.old }
{
    if let Some(job) = job {
        job.staged = Some(file);
    }
}

/// Makes a file of these octets, whatever it held, settled and frozen. It takes no memory. Until Ok a stop may leave
/// anything of this file.
fn stage<D: Disk>(disk: &mut D, file: u64, octets: &[u8]) -> Result<D::Sealed, DiskError>
    requires thawed { (D.marks disk.old file).frozen ≡ false }

    // On every disk.
    ensures honest { D.honest disk.new ≡ D.honest disk.old }
    ensures other_marks { (n : ℕ) → n ≢ file → D.marks disk.new n ≡ D.marks disk.old n }
    ensures frozen { OnOk result ((D.marks disk.new file).frozen ≡ true) }
    ensures staged { IfOk result (λ part. (D.Sealed.number part ≡ file) × (D.Sealed.size part ≡ length octets.now)
        × (D.Sealed.honest part ≡ D.honest disk.old)) }
    ensures cause { FailsOnlyByFault (D.faults disk.old) (D.faults disk.new) result }

    // On an honest one: the other files are as they were, and this one is these octets.
    ensures octets { IsTrue (D.honest disk.old) → IfOk result (λ part. D.Sealed.octets part ≡ octets.now) }
    ensures after { EndsBy D.Disk disk.old disk.new result (InFile file (Becomes octets.now)) }

    // A stop at any moment leaves the other files as they were.
    ensures any_moment { StopsBy D.Disk disk.old disk.new (InFile file IsAnything) }
{
    disk.write_at(file, 0, octets)?;
    disk.cut(file, octets.len() as u64)?;
    disk.sync(file)?;
    let part = disk.freeze(file)?;
    Ok(part)
}
