//! The install of a file that a job has made.

ghost use Rattle.std.specs.Prelude.{◌≡◌, ◌≢◌, ◌<◌, ◌≤◌, ◌+◌, [], ◌∷◌, ◌++◌, true, IfOk, IfErr, ℕ, false, IsTrue, OnOk};
ghost use Rattle.std.specs.Prelude.{IfSome, None, take, drop, vec_len, vec_capacity};
ghost use Rattle.flow_disk.specs.Cause.{HasCause, FailsOnlyByFault};
ghost use Rattle.flow_archive.specs.JobAnswers.{AnswersInstall, IsInstalled};
ghost use Rattle.flow_archive.specs.Seen.{IsStep};
ghost use Rattle.flow_disk.specs.Disk.{AllImages};
ghost use Rattle.flow_disk.specs.Calls.{LeavesOnly};
ghost use Rattle.flow_manifest.specs.declared.following.JobKind.{JobKind};
ghost use Rattle.flow_manifest.specs.Slots.{file_of, other, reads_of, swapped, AreSlots};
ghost use Rattle.flow_model.specs.State.{reopened, StagedFile, State};
ghost use Rattle.flow_model.specs.Jobs.{replaced};
ghost use Rattle.flow_model.specs.Standing.{IsKnown, StandsForEither};
ghost use Rattle.flow_archive.specs.Installing.{cut_in, IsInstall, IsNotInstalled, IsReplacement, IsStagedAs};
ghost use Rattle.flow_archive.specs.Installing.{HasMadeSums, IsStagedFor, MayInstall};
ghost use Rattle.std.specs.Vec.Iter.{into_iter_items, into_iter_len};
ghost use Rattle.flow_manifest.specs.Manifest.{IsValidManifest};

use crate::archive::Archive;
use crate::event::Answer;
use crate::frozen::FrozenFile;
use crate::job::{RunningJob, sources_from};
use crate::refusal::ArchiveError;
use flow_disk::{Disk, DiskError, SealedFile};
use flow_manifest::{
    Entry, JobKind, Manifest, Slots, Staged, encode, installed_manifest, swap_slots,
};
use std::alloc::{AllocError, Global};
use std::mem::replace;
use std::vec::IntoIter;

impl<D: Disk> Archive<D> {
    /// Puts the file that the job has made in place of its sources, which wait for their removal from now on, and
    /// answers the cut that it moves: how many messages are rolled, or summed over wide intervals. Refusals, the first
    /// that holds: 49 Closed; 44 NoRoll; 46 RollNotDone; and 11 OutOfMemory, which changes nothing either. After 30
    /// Fault the archive is closed.
    pub fn roll_install(&mut self, alloc: Global) -> Result<Answer, ArchiveError>
        ensures answers { AnswersInstall (D.honest self.old.disk) self.old.closed self.old.state result self.new.state }
        ensures step { IsStep D.Disk self.old self.new (λ after. IsInstalled true self.old.state after) result }
        ensures cause { HasCause ArchiveError.Fault (D.faults self.old.disk) (D.faults self.new.disk) result }
    {
        if self.closed {
            return Err(ArchiveError::Closed);
        }
        let made = to_install(alloc, &self.slots.current, &self.job, self.next)?;
        let Ok(room) = make_room(alloc, &self.files, &mut self.waiting, made.sources) else {
            return Err(ArchiveError::OutOfMemory);
        };
        let slot = self.slots.current_slot.other();
        match install(&mut self.disk, &self.slots, made.body.as_slice()) {
            Ok(()) => {
                let file = take_staged(&mut self.job, made.entry);
                exchange(
                    &mut self.files,
                    room,
                    &mut self.waiting,
                    made.place,
                    made.sources,
                    file,
                );
                self.slots = Slots {
                    current: made.manifest,
                    current_slot: slot,
                    other_open: true,
                };
                Ok(made.answer)
            }
            Err(_) => {
                self.closed = true;
                Err(ArchiveError::Fault)
            }
        }
    }
}

/// Puts the manifest in force that names the file that a job has made in place of its sources. It takes no memory.
fn install<D: Disk>(disk: &mut D, slots: &Slots, body: &[u8]) -> Result<(), DiskError>
    requires room { 1 ≤ (D.marks disk.old (file_of (other slots.now.current_slot))).size }
    requires thawed { (D.marks disk.old (file_of (other slots.now.current_slot))).frozen ≡ false }
    requires settled { (D.marks disk.old (file_of (other slots.now.current_slot))).settled ≡ true }
    requires settled_current { (D.marks disk.old (file_of slots.now.current_slot)).settled ≡ true }
    requires slots { IsTrue (D.honest disk.old) → AreSlots slots.now (reads_of (D.held disk.old)) }

    ensures honest { D.honest disk.new ≡ D.honest disk.old }
    ensures other_marks { (n : ℕ) → n ≢ file_of (other slots.now.current_slot)
        → D.marks disk.new n ≡ D.marks disk.old n }
    ensures slot_thawed { (D.marks disk.new (file_of (other slots.now.current_slot))).frozen ≡ false }
    ensures slot_settled { OnOk result
        ((D.marks disk.new (file_of (other slots.now.current_slot))).settled ≡ true) }
    ensures slot_room { OnOk result (1 ≤ (D.marks disk.new (file_of (other slots.now.current_slot))).size) }
    ensures cause { FailsOnlyByFault (D.faults disk.old) (D.faults disk.new) result }

    // A stop at any moment leaves the archive before the install or the one after it.
    ensures any_moment { IsTrue (D.honest disk.old) → (kind : JobKind) (count : ℕ) (file : StagedFile) (state : State)
        → IsInstall (D.held disk.old) slots.now body.now kind count file state
        → LeavesOnly D.Disk disk.old disk.new
        (StandsForEither (reopened state) (reopened (replaced state kind count file))) }
    // Afterwards it is the one after it.
    ensures after { IsTrue (D.honest disk.old) → (kind : JobKind) (count : ℕ) (file : StagedFile) (state : State)
        → IsInstall (D.held disk.old) slots.now body.now kind count file state
        → OnOk result (AllImages (D.held disk.new)
        (IsKnown (swapped slots.now (replaced state kind count file).manifest) (replaced state kind count file))) }
{
    swap_slots(disk, slots, body)?;
    Ok(())
}

/// What an install writes.
#[derive(Drop)]
struct Replacement {
    /// The manifest that names the file of the job in place of its sources.
    manifest: Manifest,
    /// That manifest's octets.
    body: Vec<u8>,
    /// The entry of the file.
    entry: Entry,
    /// How many entries are before it.
    place: usize,
    /// How many files it replaces.
    sources: usize,
    /// The cut that is moved.
    answer: Answer,
}

/// What is written for the file that a job has made; else the first of the refusals 44, 46 that holds, or 11. `next` is
/// the number of the next new file.
fn to_install<S: SealedFile>(
    alloc: Global,
    now: &Manifest,
    job: &Option<RunningJob<S>>,
    next: u64,
) -> Result<Replacement, ArchiveError>
    requires valid { IsValidManifest now.now }
    requires staged { IfSome job.now (λ r. IfSome r.staged (MayInstall now.now next r)) }
    ensures made { IfOk result (λ made. IsReplacement now.now next job.now made.manifest made.body.items made.entry
        made.place made.sources made.answer) }
    ensures refused { IfErr result (IsNotInstalled job.now) }
{
    let Some(job) = job else {
        return Err(ArchiveError::NoRoll);
    };
    let file = match &job.staged {
        Some(file) => file,
        None => return Err(ArchiveError::RollNotDone),
    };
    let sources = job.sources as usize;
    let staged = Staged {
        file: file.file(),
        length: file.length(),
    };
    let manifest = installed_manifest(alloc, now, job.kind, sources, staged, next)?;
    let body = encode(alloc, &manifest)?;
    let place = sources_from(job.kind, now.entries.as_slice());
    let entry = manifest.entries.as_slice()[place];
    let answer = cut_moved(job.kind, &manifest);
    Ok(Replacement {
        manifest,
        body,
        entry,
        place,
        sources,
        answer,
    })
}

/// The cut that a job has moved, as it is answered.
fn cut_moved(kind: JobKind, manifest: &Manifest) -> Answer
    ensures { result ≡ cut_in kind manifest.now }
{
    match kind {
        JobKind::Roll => Answer::Installed(manifest.rolled),
        JobKind::Merge => Answer::Merged(manifest.second),
    }
}

/// Takes a job's file, and ends the job.
fn take_staged<S: SealedFile>(job: &mut Option<RunningJob<S>>, entry: Entry) -> FrozenFile<S>
    requires staged { IsStagedFor job.old entry }
    requires sums { HasMadeSums job.old }
    ensures none { job.new ≡ None }
    ensures file { IsStagedAs job.old entry result }
{
    let Some(job) = replace(job, None) else {
        unreachable!()
    };
    let RunningJob { staged, rows, .. } = job;
    let Some(file) = staged else { unreachable!() };
    FrozenFile::named(file, entry).with_span(rows.width(), rows.span())
}

/// Makes room for so many more waiting files, and answers an empty list with room for all of `files`.
fn make_room<S: SealedFile>(
    alloc: Global,
    files: &Vec<FrozenFile<S>>,
    waiting: &mut Vec<FrozenFile<S>>,
    sources: usize,
) -> Result<Vec<FrozenFile<S>>, AllocError>
    ensures same { waiting.new.items ≡ waiting.old.items }
    ensures none { IfOk result (λ room. (room.items ≡ []) × (vec_len room ≡ 0)) }
    ensures room { IfOk result (λ room. vec_len files.now ≤ vec_capacity room) }
    ensures more { OnOk result (vec_len waiting.new + sources ≤ vec_capacity waiting.new) }
{
    waiting.reserve(sources)?;
    Vec::with_capacity(alloc, files.len())
}

/// Puts a file in place of so many, which wait for their removal from now on. `room` is a list without files that has
/// room for all.
fn exchange<S: SealedFile>(
    files: &mut Vec<FrozenFile<S>>,
    room: Vec<FrozenFile<S>>,
    waiting: &mut Vec<FrozenFile<S>>,
    place: usize,
    sources: usize,
    file: FrozenFile<S>,
)
    requires some { 1 ≤ sources }
    requires within { place + sources ≤ vec_len files.old }
    requires none { (room.items ≡ []) × (vec_len room ≡ 0) }
    requires room { vec_len files.old ≤ vec_capacity room }
    requires more { vec_len waiting.old + sources ≤ vec_capacity waiting.old }
    ensures files { files.new.items ≡ take place files.old.items ++ file ∷ drop (place + sources) files.old.items }
    ensures waiting { waiting.new.items ≡ waiting.old.items ++ take sources (drop place files.old.items) }
{
    let all = files.len();
    let mut rest = replace(files, room).into_iter();
    move_some(&mut rest, files, place);
    files.push_reserved(file);
    move_some(&mut rest, waiting, sources);
    move_some(&mut rest, files, all - place - sources);
}

/// Moves so many files to the end of a list that has room for them.
fn move_some<S: SealedFile>(
    from: &mut IntoIter<FrozenFile<S>>,
    to: &mut Vec<FrozenFile<S>>,
    count: usize,
)
    requires some { count ≤ into_iter_len from.old }
    requires room { vec_len to.old + count ≤ vec_capacity to.old }
    ensures moved { to.new.items ≡ to.old.items ++ take count (into_iter_items from.old) }
    ensures rest { into_iter_items from.new ≡ drop count (into_iter_items from.old) }
    ensures left { into_iter_len from.new + count ≡ into_iter_len from.old }
    ensures len { vec_len to.new ≡ vec_len to.old + count }
    ensures capacity { vec_capacity to.new ≡ vec_capacity to.old }
{
    for _ in 0..count {
        let Some(file) = from.next() else {
            unreachable!()
        };
        to.push_reserved(file);
    }
}
