//! An archive that threads share.

ghost use Rattle.std.specs.Prelude.{◌≡◌, ◌<◌, ◌≤◌, ◌∷◌, ◌⊎◌, ◌↔◌, [], true, length, All, Err, IsTrue, IfErr, IfOk};
ghost use mathlib.Core.List.{IsPrefix};
ghost use Rattle.left_right.specs.Handles.{published, pending};
ghost use Rattle.flow_disk.specs.Cause.{HasCause};
ghost use Rattle.flow_gate.specs.Steps.{slices};
ghost use Rattle.flow_model.specs.Shelved.{shelf_of};
ghost use Rattle.flow_shared.specs.Calls.{by};
ghost use Rattle.flow_manifest.specs.declared.following.JobKind.TheVariants.{Merge, Roll};
ghost use Rattle.flow_manifest.specs.declared.manifest.Kind.TheVariants.{Rolled};
ghost use Rattle.flow_manifest.specs.Following.{count_of};
ghost use Rattle.flow_shared.specs.Known.{Adds, IsAppendBy, Refreshes, Says, Seals, Turns, WasCalled, WasSeen};
ghost use Rattle.flow_shared.specs.UnderLock.{LockState};
ghost use Rattle.flow_shared.specs.Told.{after, HasAdded, HasOwn};

use crate::history::{Entry, Naming, Opened, Told};
use crate::locked::Locked;
use crate::reader::ArchiveReader;
use crate::receipt::Receipt;
use crate::shown::{Shown, Telling};
use crate::writing::Waits;
use flow_archive::{Archive, ArchiveError};
use flow_codec::Losses;
use flow_disk::{Disk, Faults, SealedFile};
use flow_turns::Turn;
use left_right::{Absorb, WriteHandle};
use std::alloc::{AllocError, Global};
use std::marker::PhantomData;
use std::sync::{Mutex, Wait};

/// An archive that threads share.
#[derive(Drop)]
pub struct SharedArchive<D: Disk, J: Naming, W: Wait>
where
    Shown<D::Sealed, J>: Absorb<Telling<D::Sealed, J>, State = [Entry; 0]>,
{
    lock: Mutex<Locked<D, J, W>>,
}

impl<D: Disk, J: Naming, W: Wait> SharedArchive<D, J, W>
where
    Shown<D::Sealed, J>: Absorb<Telling<D::Sealed, J>, State = [Entry; 0]>,
{
    /// Adds a message, and answers its number with what readers then see. Where the active segment has no room for it,
    /// it is sealed before. What else it does is said at the call of `Locked`.
    pub fn append(&self, rt: &W, alloc: Global, message: &[u8]) -> Result<Receipt<J>, ArchiveError>
        ensures own { IfOk result (λ r. IsTrue r.shown → HasOwn J.opening r.told (message.now ∷ []) r.position) }
        ensures calls { WasCalled D.Disk J.opening (λ (old : LockState D) (new : LockState D) steps.
            Adds D.Disk (message.now ∷ []) (by (λ r. r.position) result) old new steps
            × IfOk result (λ r. Says new r.made r.shown r.told)) }
    {
        let mut locked = self.lock.lock(rt);
        locked.facts();
        locked.count_from(Losses::none());
        let answer = locked.append(alloc, message);
        locked.facts();
        answer
    }

    /// The steps that are made.
    pub fn steps(&self, rt: &W) -> Told<J>
        ensures calls { WasSeen D.Disk J.opening (λ (now : LockState D). result ≡ now.made) }
    {
        let locked = self.lock.lock(rt);
        locked.facts();
        locked.made().again()
    }

    /// How many rolled files there are, without those over wide intervals.
    pub fn rolled_count(&self, rt: &W) -> usize
        ensures calls { WasSeen D.Disk J.opening
            (λ (now : LockState D). result ≡ count_of Rolled now.core.state.manifest.entries) }
    {
        let locked = self.lock.lock(rt);
        locked.facts();
        locked.rolled_count()
    }

    /// Adds messages, from 1 to 64, all of them or none, and answers the number of the last one with what readers then
    /// see. Where the active segment has no room for them, it is sealed before; 40 is answered where no segment has.
    /// What they show of records that aren't read is counted as of messages after those of `losses`. `known` is a list
    /// of steps that the caller has. From then on it has all that are made: after those that it had come the steps of
    /// others, and at the end the caller's, unless for want of memory that one isn't made yet.
    pub fn append_batch(
        &self,
        rt: &W,
        alloc: Global,
        known: &mut Told<J>,
        messages: &[&[u8]],
        losses: Losses,
    ) -> Result<Receipt<J>, ArchiveError>
        requires some { 1 ≤ length messages.now }
        requires few { length messages.now ≤ 64 }
        ensures known { IsPrefix known.old known.new }
        ensures added { IfOk result (λ r. IsTrue r.made
            → HasAdded J.opening known.old known.new (slices messages.now) r.position) }
        ensures own { IfOk result (λ r. IsTrue r.shown → HasOwn J.opening r.told (slices messages.now) r.position) }
        ensures calls { ((known.new ≡ known.old) × (by (λ r. r.position) result ≡ Err ArchiveError.OutOfMemory))
            ⊎ ((new : LockState D) × IsAppendBy D.Disk J.opening known.old known.new (slices messages.now)
            (by (λ r. r.position) result) new × IfOk result (λ r. Says new r.made r.shown r.told)) }
    {
        let mut locked = self.lock.lock(rt);
        locked.facts();
        // What a caller has was made under this lock before: it is never refused here.
        if !known.begins(locked.made()) {
            return Err(ArchiveError::OutOfMemory);
        }
        locked.count_from(losses);
        let answer = locked.append_batch(alloc, messages);
        locked.facts();
        *known = locked.made().again();
        answer
    }

    /// Seals the active segment, and answers the number of the sealed file.
    pub fn seal(&self, rt: &W, alloc: Global) -> Result<u64, ArchiveError>
        ensures calls { WasCalled D.Disk J.opening (Seals D.Disk result) }
    {
        let mut guard = self.lock.lock(rt);
        let locked = &mut *guard;
        locked.facts();
        let answer = locked.seal(alloc);
        locked.facts();
        answer
    }

    /// A turn of rolling: the next step of the job that is under way, else a job over all sealed segments but the
    /// newest `keep`, else a removal.
    pub fn roll_turn(
        &self,
        rt: &W,
        alloc: Global,
        keep: u32,
        faults: &mut Faults<D::Sealed>,
    ) -> Result<Turn, ArchiveError>
        ensures calls { WasCalled D.Disk J.opening (Turns D.Disk Roll keep result) }
        ensures unread { HasCause ArchiveError.SourceFault faults.old faults.new result }
    {
        let mut guard = self.lock.lock(rt);
        let locked = &mut *guard;
        locked.facts();
        let answer = locked.roll_turn(alloc, keep, faults);
        locked.facts();
        answer
    }

    /// The same of merging, of rolled files.
    pub fn merge_turn(
        &self,
        rt: &W,
        alloc: Global,
        keep: u32,
        faults: &mut Faults<D::Sealed>,
    ) -> Result<Turn, ArchiveError>
        ensures calls { WasCalled D.Disk J.opening (Turns D.Disk Merge keep result) }
        ensures unread { HasCause ArchiveError.SourceFault faults.old faults.new result }
    {
        let mut guard = self.lock.lock(rt);
        let locked = &mut *guard;
        locked.facts();
        let answer = locked.merge_turn(alloc, keep, faults);
        locked.facts();
        answer
    }

    /// Shows readers what they don't see yet, and says whether they see all steps.
    pub fn refresh(&self, rt: &W, alloc: Global) -> bool
        ensures calls { WasCalled D.Disk J.opening (Refreshes result) }
    {
        let mut guard = self.lock.lock(rt);
        let locked = &mut *guard;
        locked.facts();
        let shown = locked.refresh(alloc);
        locked.facts();
        shown
    }
}

impl<D: Disk, J: Naming, W: Wait> SharedArchive<D, J, W> {
    /// Ends the writer, drops the steps that readers weren't shown, and gives the archive back, with the steps that
    /// were made.
    pub fn end_with_steps(self, _rt: &W) -> (Archive<D>, Told<J>)
        ensures calls { WasSeen D.Disk J.opening
            (λ (last : LockState D). (result.0 ≡ last.core) × (result.1 ≡ last.made)) }
    {
        let locked = self.lock.into_inner();
        locked.facts();
        let Locked {
            archive,
            writer,
            told,
            tip: _,
            late: _,
            backlog: _,
        } = locked;
        drop(writer.take());
        (archive, told)
    }

    /// The same, and gives the archive back alone.
    pub fn end(self, rt: &W) -> Archive<D>
        ensures calls { WasSeen D.Disk J.opening (λ (last : LockState D). result ≡ last.core) }
    {
        let (archive, _told) = self.end_with_steps(rt);
        archive
    }
}

/// A writer of two directories of an archive, and places for so many readers.
fn places_of<D: Disk, J: Naming, W: Wait>(
    alloc: Global,
    archive: &mut Archive<D>,
    told: &Told<J>,
    places: usize,
) -> Result<
    (
        WriteHandle<Shown<D::Sealed, J>, Telling<D::Sealed, J>, Waits<W>>,
        Vec<ArchiveReader<D::Sealed, J>>,
    ),
    AllocError,
>
    requires opening { shelf_of archive.old.state ≡ J.opening }
    requires honest { D.honest archive.old.disk ≡ J.honest }
    requires empty { told.now ≡ [] }
    requires places { (0 < places) × (places ≤ 16) }
    ensures disk { archive.new.disk ≡ archive.old.disk }
    ensures closed { archive.new.closed ≡ archive.old.closed }
    ensures state { archive.new.state ≡ record archive.old.state { shared = true } }
    ensures writer { IfOk result (λ r. (published r.0 ≡ []) × (pending r.0 ≡ [])) }
    ensures count { IfOk result (λ r. length r.1.items ≡ places) }
    ensures unread { IfOk result (λ r. All (λ steps. steps ≡ []) r.1.items) }
{
    let first = archive.directory(alloc);
    let second = archive.directory(alloc);
    let first = Shown::new(first?, told.again());
    let second = Shown::new(second?, told.again());
    let waits = Waits { of: PhantomData };
    let writer = WriteHandle::new(alloc, waits, first, second, places)?;
    let readers = readers_of(alloc, &writer, told, places)?;
    Ok((writer, readers))
}

/// Places for so many readers, which know of no step.
fn readers_of<S: SealedFile, J: Naming, W: Wait>(
    alloc: Global,
    writer: &WriteHandle<Shown<S, J>, Telling<S, J>, Waits<W>>,
    told: &Told<J>,
    places: usize,
) -> Result<Vec<ArchiveReader<S, J>>, AllocError>
    requires { told.now ≡ [] }
    ensures count { IfOk result (λ readers. length readers.items ≡ places) }
    ensures unread { IfOk result (λ readers. All (λ steps. steps ≡ []) readers.items) }
{
    let mut readers = Vec::new(alloc);
    for _ in 0..places {
        let place = writer.handle()?;
        readers.push(ArchiveReader::new(place, told.again()))?;
    }
    Ok(readers)
}

/// Makes the shared object over an archive, and one reader for each of so many places, from 1 to 16. The files that
/// readers begin with are the archive's. Where memory is refused the archive is given back, perhaps shared.
pub fn start<D: Disk, J: Naming, W: Wait>(
    alloc: Global,
    archive: Archive<D>,
    opened: Opened,
    places: usize,
) -> Result<(SharedArchive<D, J, W>, Vec<ArchiveReader<D::Sealed, J>>), Archive<D>>
    requires book { opened.seen.book ≡ J.book }
    requires opening { shelf_of archive.state ≡ J.opening }
    requires honest { D.honest archive.disk ≡ J.honest }
    requires places { (0 < places) × (places ≤ 16) }
    // There are so many readers, which know of no step.
    ensures count { IfOk result (λ r. length r.1.items ≡ places) }
    ensures unread { IfOk result (λ r. All (λ steps. steps ≡ []) r.1.items) }
    ensures refused { IfErr result (λ a. (a.disk ≡ archive.disk) × (a.closed ≡ archive.closed)
        × (a.state ≡ record archive.state { shared = true })) }
{
    let (tip, told) = opened.named::<J>();
    let mut archive = archive;
    // What was taken in before counts for no append.
    archive.replace_losses(Losses::none());
    match places_of(alloc, &mut archive, &told, places) {
        Ok((writer, readers)) => {
            let locked: Locked<D, J, W> = Locked::new(archive, writer, tip, told);
            let lock = Mutex::new(locked);
            Ok((SharedArchive { lock }, readers))
        }
        Err(_) => Err(archive),
    }
}
