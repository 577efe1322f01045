//! The value under the lock.

ghost use Rattle.std.specs.Prelude.{◌≡◌, ◌≢◌, ◌⊎◌, MatchBool, ◌++◌, ◌∷◌, [], ◌≤◌, ◌<◌, ◌↔◌, List, length, true, false};
ghost use Rattle.std.specs.Prelude.{IfOk, IfErr, OnOk, IsTrue};
ghost use Rattle.std.specs.Option.{option_to_list};
ghost use mathlib.Core.List.{IsPrefix};
ghost use Rattle.left_right.specs.Handles.{published, pending};
ghost use Rattle.flow_disk.specs.Cause.{HasCause};
ghost use Rattle.flow_gate.specs.Gate.{octet_sum};
ghost use Rattle.flow_gate.specs.Steps.{slices};
ghost use Rattle.flow_model.specs.Changes.{Change};
ghost use Rattle.flow_model.specs.Shelf.{position_of};
ghost use Rattle.flow_model.specs.Shelved.{shelf_of};
ghost use Rattle.flow_manifest.specs.declared.following.JobKind.TheVariants.{Merge, Roll};
ghost use Rattle.flow_manifest.specs.declared.manifest.Kind.TheVariants.{Rolled};
ghost use Rattle.flow_manifest.specs.Following.{count_of};
ghost use Rattle.flow_turns.specs.Turns.{due, IsTurn};
ghost use Rattle.flow_shared.specs.Calls.{added_by, by, AppendsOnce, AppendsSealed, Appends, IsClosedBy};
ghost use Rattle.flow_shared.specs.Calls.{IsRefusedBefore, IsSeal, IsTurnedBy};
ghost use Rattle.flow_shared.specs.UnderLock.{all_of, IsUnderLock, LockState};
ghost use Rattle.flow_shared.specs.Told.{after, HasAdded, HasOwn};

use crate::calls::{add_marked, seal_marked, tell, turn_marked};
use crate::history::{Entry, Naming, Tip, Told};
use crate::receipt::Receipt;
use crate::shown::{Shown, Telling};
use crate::writing::{Waits, post, show};
use flow_archive::{Archive, ArchiveError};
use flow_codec::Losses;
use flow_disk::{Disk, Faults};
use flow_manifest::JobKind;
use flow_snapshot::Mark;
use flow_turns::Turn;
use left_right::{Absorb, WriteHandle};
use std::alloc::{AllocError, Global};
use std::marker::Model;
use std::sync::Wait;

/// Whether a segment of this limit, in octets, has room for all of these messages.
fn fit_together(messages: &[&[u8]], limit: u32) -> bool
    ensures { MatchBool result (octet_sum (slices messages.now) ≤ limit) (limit < octet_sum (slices messages.now)) }
{
    let mut left = u64::from(limit);
    for message in messages {
        let more = message.len() as u64;
        if more > left {
            return false;
        }
        left -= more;
    }
    true
}

/// The value under the lock: the archive, and the writer of what readers take. Its calls may wait for readers that
/// still take a copy of what they were shown.
#[derive(Drop)]
pub struct Locked<D: Disk, J: Naming, W: Wait>
where
    Shown<D::Sealed, J>: Absorb<Telling<D::Sealed, J>, State = [Entry; 0]>,
{
    pub(crate) archive: Archive<D>,
    pub(crate) writer: WriteHandle<Shown<D::Sealed, J>, Telling<D::Sealed, J>, Waits<W>>,
    pub(crate) told: Told<J>,
    pub(crate) tip: Tip<J>,
    /// A step that is in the history, and for which the writer found no memory.
    pub(crate) late: Option<Telling<D::Sealed, J>>,
    /// The mark of a step that isn't made yet.
    pub(crate) backlog: Option<Mark>,
}

impl<D: Disk, J: Naming, W: Wait> Model for Locked<D, J, W>
where
    Shown<D::Sealed, J>: Absorb<Telling<D::Sealed, J>, State = [Entry; 0]>,
{
    ghost use Rattle.std.specs.Prelude.{◌≡◌, ◌++◌, List, fold};
    ghost use Rattle.std.specs.Option.{option_to_list};
    ghost use mathlib.Core.List.{IsPrefix};
    ghost use Rattle.left_right.specs.Handles.{published, pending};
    ghost use Rattle.flow_model.specs.Changes.{Change};
    ghost use Rattle.flow_shared.specs.UnderLock.{lock_state, LockState, IsInStep};

    ghost Value = { LockState D };

    ghost view = { λ l. lock_state l.archive (published l.writer) l.told l.backlog };

    ghost invariant = { λ l. ((s : List Change) → ⟦<Shown<D::Sealed, J> as Absorb<Telling<D::Sealed, J>>>⟧.state s ≡ s)
        × ((s : List Change) (t : List Change × Change)
        → ⟦<Shown<D::Sealed, J> as Absorb<Telling<D::Sealed, J>>>⟧.applied s t ≡ t.0)
        × IsInStep D.honest J.opening J.honest l.archive l.told l.backlog
        × (fold (λ (xs : List Change) (t : List Change × Change). t.0) (published l.writer)
        (pending l.writer ++ option_to_list l.late) ≡ l.told)
        × IsPrefix (published l.writer) l.told };
}

impl<D: Disk, J: Naming, W: Wait> Locked<D, J, W> {
    /// An archive, and the writer of two directories of it.
    pub(crate) fn new(
        archive: Archive<D>,
        writer: WriteHandle<Shown<D::Sealed, J>, Telling<D::Sealed, J>, Waits<W>>,
        tip: Tip<J>,
        told: Told<J>,
    ) -> Locked<D, J, W>
        requires opening { shelf_of archive.state ≡ J.opening }
        requires shared { archive.state.shared ≡ true }
        requires honest { D.honest archive.disk ≡ J.honest }
        requires empty { (told ≡ []) × (published writer ≡ []) × (pending writer ≡ []) }
        ensures core { result.core ≡ archive }
        ensures none { all_of result ≡ [] }
    {
        Locked {
            archive,
            writer,
            told,
            tip,
            late: None,
            backlog: None,
        }
    }
}

impl<D: Disk, J: Naming, W: Wait> Locked<D, J, W>
where
    Shown<D::Sealed, J>: Absorb<Telling<D::Sealed, J>, State = [Entry; 0]>,
{
    /// Turns what is late, and then the mark of the backlog, into pending steps.
    fn drain(&mut self, alloc: Global) -> Result<(), AllocError>
        ensures core { self.new.core ≡ self.old.core }
        ensures told { self.new.told ≡ self.old.told }
        ensures later { IsPrefix self.old.made self.new.made }
        ensures all { all_of self.new ≡ all_of self.old }
        ensures done { OnOk result (self.new.backlog ≡ []) }
    {
        if !post(&mut self.writer, &mut self.late) {
            return Err(AllocError);
        }
        let Some(mark) = self.backlog else {
            return Ok(());
        };
        let (telling, told) = tell(&mut self.archive, alloc, mark, &self.told, &self.tip)?;
        self.late = Some(telling);
        self.told = told;
        self.backlog = None;
        post(&mut self.writer, &mut self.late);
        Ok(())
    }

    /// Publishes what is pending, and says whether readers see all steps.
    fn publish(&mut self) -> bool
        ensures core { self.new.core ≡ self.old.core }
        ensures made { self.new.made ≡ self.old.made }
        ensures all { all_of self.new ≡ all_of self.old }
        ensures backlog { self.new.backlog ≡ self.old.backlog }
        ensures shown { IsTrue result ↔ ((self.new.pending ≡ []) × (self.new.backlog ≡ [])) }
    {
        show(&mut self.writer, &self.late);
        if self.writer.published().told().len() != self.told.len() {
            return false;
        }
        match self.backlog {
            Some(_) => false,
            None => true,
        }
    }

    /// What each value under the lock has.
    pub fn facts(&self)
        ensures under_lock { IsUnderLock D.Disk J.opening self.now }
    {
        self.files();
        let _closed = self.archive.is_closed();
    }

    /// The archive's files are the opening ones with all steps, which are those that are made and those that aren't.
    fn files(&self)
        ensures files { after J.opening (all_of self.now) ≡ shelf_of self.now.core.state }
        ensures all { all_of self.now ≡ self.now.made ++ self.now.backlog }
    {
        let _ = &self.told;
    }

    /// What messages show of records that aren't read is counted as of messages after those of `losses`, in the next
    /// call that appends.
    pub(crate) fn count_from(&mut self, losses: Losses)
        ensures { self.new ≡ self.old }
    {
        self.archive.replace_losses(losses.none_after());
    }

    /// The steps that are made.
    pub(crate) fn made(&self) -> &Told<J>
        ensures { result.now ≡ self.now.made }
    {
        &self.told
    }

    /// How many rolled files there are, without those over wide intervals.
    pub(crate) fn rolled_count(&self) -> usize
        ensures { result ≡ count_of Rolled self.now.core.state.manifest.entries }
    {
        self.archive.rolled_count()
    }

    /// Whether all steps are made.
    fn is_made(&self) -> bool
        ensures { IsTrue result ↔ (self.now.backlog ≡ []) }
    {
        match self.backlog {
            Some(_) => false,
            None => true,
        }
    }

    /// Turns what is older into pending steps, unless the archive is closed.
    fn ready(&mut self, alloc: Global) -> Result<(), ArchiveError>
        ensures core { self.new.core ≡ self.old.core }
        ensures told { self.new.told ≡ self.old.told }
        ensures later { IsPrefix self.old.made self.new.made }
        ensures all { all_of self.new ≡ all_of self.old }
        ensures done { OnOk result (self.new.backlog ≡ []) }
        ensures refused { IfErr result (λ e. ((self.old.core.closed ≡ true) × (e ≡ ArchiveError.Closed))
            ⊎ ((self.old.core.closed ≡ false) × (e ≡ ArchiveError.OutOfMemory))) }
    {
        if self.archive.is_closed() {
            return Err(ArchiveError::Closed);
        }
        match self.drain(alloc) {
            Ok(()) => Ok(()),
            Err(_) => Err(ArchiveError::OutOfMemory),
        }
    }

    /// Adds messages, and leaves their step in the backlog.
    fn add(&mut self, alloc: Global, messages: &[&[u8]]) -> Result<u64, ArchiveError>
        requires some { 1 ≤ length messages.now }
        requires few { length messages.now ≤ 64 }
        ensures calls { AppendsOnce D.Disk self.old.core self.new.core (slices messages.now) result
            (added_by (slices messages.now) result) }
        ensures steps { all_of self.new ≡ all_of self.old ++ added_by (slices messages.now) result }
        ensures later { IsPrefix self.old.made self.new.made }
        ensures position { IfOk result (λ n. n ≡ position_of (shelf_of self.new.core.state)) }
        ensures cause { HasCause ArchiveError.Fault (D.faults self.old.core.disk) (D.faults self.new.core.disk) result }
    {
        self.ready(alloc)?;
        let (position, mark) = add_marked(&mut self.archive, alloc, messages)?;
        self.backlog = Some(mark);
        Ok(position)
    }

    /// Makes the steps that aren't made yet, and shows readers what they don't see yet, where memory isn't refused.
    fn receipt(&mut self, alloc: Global, position: u64) -> Receipt<J>
        ensures core { self.new.core ≡ self.old.core }
        ensures all { all_of self.new ≡ all_of self.old }
        ensures later { IsPrefix self.old.made self.new.made }
        ensures made { IsTrue result.made ↔ (self.new.backlog ≡ []) }
        ensures position { result.position ≡ position }
        ensures told { result.told ≡ self.new.told }
        ensures shown { IsTrue result.shown ↔ ((self.new.pending ≡ []) × (self.new.backlog ≡ [])) }
        ensures whole { IsTrue result.shown → result.told ≡ all_of self.new }
    {
        let _late = self.drain(alloc);
        let shown = self.publish();
        let made = self.is_made();
        Receipt {
            position,
            shown,
            made,
            told: self.writer.published().told().again(),
            losses: self.archive.replace_losses(Losses::none()),
        }
    }

    /// Adds messages to the active segment, and shows them to readers.
    fn once(&mut self, alloc: Global, messages: &[&[u8]]) -> Result<Receipt<J>, ArchiveError>
        requires some { 1 ≤ length messages.now }
        requires few { length messages.now ≤ 64 }
        ensures calls { AppendsOnce D.Disk self.old.core self.new.core (slices messages.now)
            (by (λ r. r.position) result) (added_by (slices messages.now) (by (λ r. r.position) result)) }
        ensures steps { all_of self.new ≡ all_of self.old
            ++ added_by (slices messages.now) (by (λ r. r.position) result) }
        ensures later { IsPrefix self.old.made self.new.made }
        ensures made { IfOk result (λ r. IsTrue r.made ↔ (self.new.backlog ≡ [])) }
        ensures added { IfOk result (λ r. IsTrue r.made
            → HasAdded J.opening self.old.made self.new.made (slices messages.now) r.position) }
        ensures told { IfOk result (λ r. r.told ≡ self.new.told) }
        ensures shown { IfOk result (λ r. IsTrue r.shown ↔ ((self.new.pending ≡ []) × (self.new.backlog ≡ []))) }
        ensures own { IfOk result (λ r. IsTrue r.shown
            → HasOwn J.opening r.told (slices messages.now) r.position) }
        ensures cause { HasCause ArchiveError.Fault (D.faults self.old.core.disk) (D.faults self.new.core.disk) result }
    {
        self.files();
        let position = self.add(alloc, messages)?;
        let receipt = self.receipt(alloc, position);
        self.files();
        Ok(receipt)
    }

    /// Adds messages, from 1 to 64, all of them or none, and answers the number of the last one with what readers then
    /// see. Where the active segment has no room for them, it is sealed before; 40 is answered where no segment has.
    pub fn append_batch(
        &mut self,
        alloc: Global,
        messages: &[&[u8]],
    ) -> Result<Receipt<J>, ArchiveError>
        requires some { 1 ≤ length messages.now }
        requires few { length messages.now ≤ 64 }
        ensures calls { (steps : List Change)
            × Appends D.Disk self.old.core self.new.core (slices messages.now) (by (λ r. r.position) result) steps
            × (all_of self.new ≡ all_of self.old ++ steps) }
        ensures later { IsPrefix self.old.made self.new.made }
        ensures made { IfOk result (λ r. IsTrue r.made ↔ (self.new.backlog ≡ [])) }
        ensures added { IfOk result (λ r. IsTrue r.made
            → HasAdded J.opening self.old.made self.new.made (slices messages.now) r.position) }
        ensures told { IfOk result (λ r. r.told ≡ self.new.told) }
        ensures shown { IfOk result (λ r. IsTrue r.shown ↔ ((self.new.pending ≡ []) × (self.new.backlog ≡ []))) }
        ensures own { IfOk result (λ r. IsTrue r.shown
            → HasOwn J.opening r.told (slices messages.now) r.position) }
        // 40 comes only where no segment has room for all of them.
        ensures room { IfErr result (λ e. e ≡ ArchiveError.NoRoom
            → self.old.core.state.manifest.limit < octet_sum (slices messages.now)) }
        ensures cause { HasCause ArchiveError.Fault (D.faults self.old.core.disk) (D.faults self.new.core.disk) result }
    {
        match self.once(alloc, messages) {
            Err(ArchiveError::NoRoom) => {}
            told => return told,
        }
        if !self.may_fit(messages) {
            return Err(ArchiveError::NoRoom);
        }
        self.once_sealed(alloc, messages)
    }

    /// Whether a segment without messages has room for all of these.
    fn may_fit(&self, messages: &[&[u8]]) -> bool
        ensures { MatchBool result (octet_sum (slices messages.now) ≤ self.now.core.state.manifest.limit)
            (self.now.core.state.manifest.limit < octet_sum (slices messages.now)) }
    {
        fit_together(messages, self.archive.limit())
    }

    /// Seals, and adds messages then.
    fn once_sealed(&mut self, alloc: Global, messages: &[&[u8]]) -> Result<Receipt<J>, ArchiveError>
        requires some { 1 ≤ length messages.now }
        requires few { length messages.now ≤ 64 }
        requires fit { octet_sum (slices messages.now) ≤ self.old.core.state.manifest.limit }
        ensures calls { (steps : List Change)
            × AppendsSealed D.Disk self.old.core self.new.core (slices messages.now) (by (λ r. r.position) result) steps
            × (all_of self.new ≡ all_of self.old ++ steps) }
        ensures later { IsPrefix self.old.made self.new.made }
        ensures made { IfOk result (λ r. IsTrue r.made ↔ (self.new.backlog ≡ [])) }
        ensures added { IfOk result (λ r. IsTrue r.made
            → HasAdded J.opening self.old.made self.new.made (slices messages.now) r.position) }
        ensures told { IfOk result (λ r. r.told ≡ self.new.told) }
        ensures shown { IfOk result (λ r. IsTrue r.shown ↔ ((self.new.pending ≡ []) × (self.new.backlog ≡ []))) }
        ensures own { IfOk result (λ r. IsTrue r.shown
            → HasOwn J.opening r.told (slices messages.now) r.position) }
        ensures room { IfErr result (λ e. e ≢ ArchiveError.NoRoom) }
        ensures cause { HasCause ArchiveError.Fault (D.faults self.old.core.disk) (D.faults self.new.core.disk) result }
    {
        match self.seal(alloc) {
            Ok(_) => self.once(alloc, messages),
            Err(error) => Err(error),
        }
    }

    /// Adds one message: a batch of one.
    pub fn append(&mut self, alloc: Global, message: &[u8]) -> Result<Receipt<J>, ArchiveError>
        ensures calls { (steps : List Change)
            × Appends D.Disk self.old.core self.new.core (message.now ∷ []) (by (λ r. r.position) result) steps
            × (all_of self.new ≡ all_of self.old ++ steps) }
        ensures later { IsPrefix self.old.made self.new.made }
        ensures made { IfOk result (λ r. IsTrue r.made ↔ (self.new.backlog ≡ [])) }
        ensures added { IfOk result (λ r. IsTrue r.made
            → HasAdded J.opening self.old.made self.new.made (message.now ∷ []) r.position) }
        ensures told { IfOk result (λ r. r.told ≡ self.new.told) }
        ensures shown { IfOk result (λ r. IsTrue r.shown ↔ ((self.new.pending ≡ []) × (self.new.backlog ≡ []))) }
        ensures own { IfOk result (λ r. IsTrue r.shown → HasOwn J.opening r.told (message.now ∷ []) r.position) }
        ensures room { IfErr result (λ e. e ≡ ArchiveError.NoRoom
            → self.old.core.state.manifest.limit < length message.now) }
        ensures cause { HasCause ArchiveError.Fault (D.faults self.old.core.disk) (D.faults self.new.core.disk) result }
    {
        self.append_batch(alloc, &[message])
    }

    /// Seals, and leaves its step in the backlog.
    fn close(&mut self, alloc: Global) -> Result<u64, ArchiveError>
        ensures call { IsSeal D.Disk self.old.core self.new.core result
            ⊎ IsRefusedBefore self.old.core self.new.core result }
        ensures steps { (steps : List Change) × IsClosedBy (D.honest self.old.core.disk) self.old.core.state
            self.new.core.state result steps × (all_of self.new ≡ all_of self.old ++ steps) }
        ensures later { IsPrefix self.old.made self.new.made }
        ensures cause { HasCause ArchiveError.Fault (D.faults self.old.core.disk) (D.faults self.new.core.disk) result }
    {
        self.ready(alloc)?;
        let (file, mark) = seal_marked(&mut self.archive, alloc)?;
        self.backlog = Some(mark);
        Ok(file)
    }

    /// Seals the active segment, shows it to readers, and answers the number of the sealed file.
    pub fn seal(&mut self, alloc: Global) -> Result<u64, ArchiveError>
        ensures call { IsSeal D.Disk self.old.core self.new.core result
            ⊎ IsRefusedBefore self.old.core self.new.core result }
        ensures steps { (steps : List Change) × IsClosedBy (D.honest self.old.core.disk) self.old.core.state
            self.new.core.state result steps × (all_of self.new ≡ all_of self.old ++ steps) }
        ensures later { IsPrefix self.old.made self.new.made }
        ensures cause { HasCause ArchiveError.Fault (D.faults self.old.core.disk) (D.faults self.new.core.disk) result }
    {
        let file = self.close(alloc)?;
        self.refresh(alloc);
        Ok(file)
    }

    /// Makes a turn, and leaves its step in the backlog.
    fn turned(
        &mut self,
        alloc: Global,
        kind: JobKind,
        keep: u32,
        faults: &mut Faults<D::Sealed>,
    ) -> Result<Turn, ArchiveError>
        ensures turn { IsTurn D.Disk self.old.core self.new.core (due kind keep self.old.core.state) result
            ⊎ IsRefusedBefore self.old.core self.new.core result }
        ensures steps { (steps : List Change) × IsTurnedBy result steps × (all_of self.new ≡ all_of self.old ++ steps) }
        ensures later { IsPrefix self.old.made self.new.made }
        ensures cause { HasCause ArchiveError.Fault (D.faults self.old.core.disk) (D.faults self.new.core.disk) result }
        ensures unread { HasCause ArchiveError.SourceFault faults.old faults.new result }
    {
        self.ready(alloc)?;
        let (turn, mark) = turn_marked(&mut self.archive, alloc, kind, keep, faults)?;
        self.backlog = mark;
        Ok(turn)
    }

    /// The next step of the job that is under way, of whatever kind; without one it begins to roll all sealed segments
    /// but the newest `keep`; where there are none, it removes the oldest file that waits for its removal, and is idle
    /// where there is none that can be removed. Readers are shown an install.
    pub fn roll_turn(
        &mut self,
        alloc: Global,
        keep: u32,
        faults: &mut Faults<D::Sealed>,
    ) -> Result<Turn, ArchiveError>
        ensures turn { IsTurn D.Disk self.old.core self.new.core (due Roll keep self.old.core.state) result
            ⊎ IsRefusedBefore self.old.core self.new.core result }
        ensures steps { (steps : List Change) × IsTurnedBy result steps × (all_of self.new ≡ all_of self.old ++ steps) }
        ensures later { IsPrefix self.old.made self.new.made }
        ensures cause { HasCause ArchiveError.Fault (D.faults self.old.core.disk) (D.faults self.new.core.disk) result }
        ensures unread { HasCause ArchiveError.SourceFault faults.old faults.new result }
    {
        let turn = self.turned(alloc, JobKind::Roll, keep, faults)?;
        self.refresh(alloc);
        Ok(turn)
    }

    /// The same, but without a job it begins to merge all rolled files but the newest `keep`, and where there are none
    /// it is idle.
    pub fn merge_turn(
        &mut self,
        alloc: Global,
        keep: u32,
        faults: &mut Faults<D::Sealed>,
    ) -> Result<Turn, ArchiveError>
        ensures turn { IsTurn D.Disk self.old.core self.new.core (due Merge keep self.old.core.state) result
            ⊎ IsRefusedBefore self.old.core self.new.core result }
        ensures steps { (steps : List Change) × IsTurnedBy result steps × (all_of self.new ≡ all_of self.old ++ steps) }
        ensures later { IsPrefix self.old.made self.new.made }
        ensures cause { HasCause ArchiveError.Fault (D.faults self.old.core.disk) (D.faults self.new.core.disk) result }
        ensures unread { HasCause ArchiveError.SourceFault faults.old faults.new result }
    {
        let turn = self.turned(alloc, JobKind::Merge, keep, faults)?;
        self.refresh(alloc);
        Ok(turn)
    }

    /// Shows readers what they don't see yet, also where nothing is pending, and says whether they see all steps.
    pub fn refresh(&mut self, alloc: Global) -> bool
        ensures core { self.new.core ≡ self.old.core }
        ensures all { all_of self.new ≡ all_of self.old }
        ensures later { IsPrefix self.old.made self.new.made }
        ensures shown { IsTrue result ↔ ((self.new.pending ≡ []) × (self.new.backlog ≡ [])) }
    {
        let _late = self.drain(alloc);
        self.publish()
    }
}
