//! The seal of the active segment.

ghost use Rattle.std.specs.Prelude.{◌≡◌, ◌≤◌, ◌+◌, ◌<◌, ◌≢◌, true, false, IsTrue, IfOk, length, OnOk, IfErr, ℕ};
ghost use Rattle.std.specs.Prelude.{IfSome, Some};
ghost use Rattle.flow_archive.specs.Frozen.{frozen_as, HasSpan};
ghost use Rattle.flow_disk.specs.Disk.{AllImages};
ghost use Rattle.flow_disk.specs.Cause.{HasCause, FailsOnlyByFault};
ghost use Rattle.flow_manifest.specs.Following.{messages_of, active_of, next_manifest, sealed_entry};
ghost use Rattle.flow_manifest.specs.Manifest.{IsValidManifest, manifest_octets};
ghost use Rattle.flow_model.specs.State.{end_of, reopened, State, after_seal};
ghost use Rattle.flow_model.specs.Standing.{IsKnown, IsSealedAt, StandsForEither};
ghost use Rattle.flow_archive.specs.Answers.{AnswersSeal, IsSealed, IsNotSealed, MayBeSealed};
ghost use Rattle.flow_archive.specs.Seen.{IsStep};
ghost use Rattle.flow_segment.specs.Carry.{prefix_of, IsCarry};
ghost use Rattle.flow_segment.specs.Spans.{AreNotedSoFar, IsOwnSpan};
ghost use Rattle.flow_codec.specs.Templates.{AllTemplates};
ghost use Rattle.flow_disk.specs.Calls.{LeavesOnly};
ghost use Rattle.flow_manifest.specs.Limits.{too_many_messages};
ghost use Rattle.flow_manifest.specs.Slots.{file_of, other, reads_of, swapped, AreSlots};
ghost use Rattle.flow_archive.specs.Sealing.{IsSealing, SealsMarks};

use crate::archive::Archive;
use crate::frozen::FrozenFile;
use crate::job::generations_kept;
use crate::refusal::ArchiveError;
use bytes::Bytes;
use flow_disk::{Disk, DiskError, SealedFile};
use flow_manifest::{
    Entry, Kind, MOST_ENTRIES, Manifest, Slots, encode, next_manifest, swap_slots,
};
use flow_measure::PartSpan;
use flow_segment::{Carry, make_segment, seal_tail};
use flow_snapshot::span_in_memory;
use std::alloc::Global;

impl<D: Disk> Archive<D> {
    /// Seals the active segment, begins a new one with the prefix that the sealed one determines, and answers the
    /// number of the sealed file. Refusals, the first that holds: 49 Closed; 42 NothingToSeal; 41 ManifestFull; 25
    /// NumbersSpent; and 11 OutOfMemory, which changes nothing either. After 30 Fault the archive is closed.
    pub fn seal(&mut self, alloc: Global) -> Result<u64, ArchiveError>
        ensures answers { AnswersSeal (D.honest self.old.disk) self.old.closed self.old.state result self.new.state }
        ensures step { IsStep D.Disk self.old self.new (λ after. IsSealed true self.old.state after) result }
        ensures cause { HasCause ArchiveError.Fault (D.faults self.old.disk) (D.faults self.new.disk) result }
    {
        if self.closed {
            return Err(ArchiveError::Closed);
        }
        let count = self.messages.len() as u64;
        let kept = generations_kept(&self.job);
        let next = next_segment(
            alloc,
            &self.slots.current,
            &self.carry,
            self.end,
            count,
            self.next,
            kept,
        )?;
        let Ok(()) = self.files.reserve(1) else {
            return Err(ArchiveError::OutOfMemory);
        };
        let span = own_span(
            alloc,
            self.span,
            self.prefix.as_slice(),
            self.messages.as_slice(),
        );
        let file = self.next;
        let slot = self.slots.current_slot.other();
        match seal_segment(
            &mut self.disk,
            &self.slots,
            self.active.file,
            self.end,
            file,
            next.prefix.as_slice(),
            next.body.as_slice(),
        ) {
            Ok(part) => {
                let sealed = Entry {
                    kind: Kind::Sealed,
                    length: self.end,
                    messages: count,
                    ..self.active
                };
                let width = self.slots.current.width;
                self.files
                    .push_reserved(sealed_file(part, sealed, width, span));
                self.active = Entry {
                    kind: Kind::Active,
                    prefix: next.prefix.len() as u32,
                    file,
                    length: 0,
                    messages: 0,
                };
                self.next = file + 1;
                self.end = next.prefix.len() as u64;
                self.prefix = next.prefix;
                self.messages = Vec::new(alloc);
                self.span = Some(PartSpan::none());
                self.slots = Slots {
                    current: next.manifest,
                    current_slot: slot,
                    other_open: true,
                };
                Ok(sealed.file)
            }
            Err(_) => {
                self.closed = true;
                Err(ArchiveError::Fault)
            }
        }
    }
}

/// When the flows of the active segment start, where that was noted or memory suffices to walk its messages.
fn own_span(
    alloc: Global,
    noted: Option<PartSpan>,
    prefix: &[u8],
    messages: &[Bytes],
) -> Option<PartSpan>
    requires { IfSome noted (λ s. (now : AllTemplates) × AreNotedSoFar prefix.now messages.now now (Some s)) }
    ensures { IfSome result (IsOwnSpan prefix.now messages.now) }
{
    match noted {
        Some(span) => Some(span),
        None => span_in_memory(alloc, prefix, messages),
    }
}

/// A sealed segment, which this entry names, and of which it may be known when its flows start.
fn sealed_file<S: SealedFile>(
    part: S,
    entry: Entry,
    width: u32,
    span: Option<PartSpan>,
) -> FrozenFile<S>
    requires number { S.number part ≡ entry.file }
    requires long { entry.length ≤ S.size part }
    requires kind { entry.kind ≡ Kind.Sealed }
    requires prefix { entry.prefix ≤ entry.length }
    requires span { IfSome span (HasSpan (frozen_as entry (S.honest part) (S.octets part)) width) }
    ensures { result ≡ frozen_as entry (S.honest part) (S.octets part) }
{
    let file = FrozenFile::named(part, entry);
    match span {
        Some(span) => file.with_span(width, span),
        None => file,
    }
}

/// What a seal writes.
#[derive(Drop)]
struct NextSegment {
    /// The prefix of the next segment.
    prefix: Bytes,
    /// The manifest that names it.
    manifest: Manifest,
    /// That manifest's octets.
    body: Vec<u8>,
}

/// The prefix of the segment after the active one, which ends at `end` and has `count` messages, and the manifest after
/// its seal; else the first of the refusals 42, 41, 25 that holds, or 11. The next segment is in `file`, and so many
/// generations are kept for another manifest.
fn next_segment(
    alloc: Global,
    now: &Manifest,
    carry: &Carry,
    end: u64,
    count: u64,
    file: u64,
    kept: u64,
) -> Result<NextSegment, ArchiveError>
    requires valid { IsValidManifest now.now }
    requires long { 1 ≤ count → (active_of now.now).prefix + 16 ≤ end }
    requires within { end ≤ (active_of now.now).prefix + now.now.limit }
    requires file { now.now.next ≤ file }
    requires kept { kept ≤ 1 }
    requires all { messages_of now.now.entries + count < too_many_messages }
    ensures may { OnOk result (MayBeSealed now.now count file kept) }
    ensures refused { IfErr result (IsNotSealed now.now count file kept) }
    ensures prefix { IfOk result (λ next. next.prefix ≡ prefix_of carry.now) }
    ensures carry { OnOk result (IsCarry carry.now) }
    ensures manifest { IfOk result (λ next. next.manifest
        ≡ next_manifest now.now end count file (length (prefix_of carry.now))) }
    ensures valid { IfOk result (λ next. IsValidManifest next.manifest) }
    ensures body { IfOk result (λ next. next.body.items ≡ manifest_octets next.manifest) }
{
    if count == 0 {
        return Err(ArchiveError::NothingToSeal);
    }
    if now.entries.len() >= MOST_ENTRIES as usize {
        return Err(ArchiveError::ManifestFull);
    }
    if now.generation >= u64::MAX - kept || file == u64::MAX {
        return Err(ArchiveError::NumbersSpent);
    }
    let octets = carry.prefix(alloc)?;
    let prefix = Bytes::from_vec(octets)?;
    let manifest = next_manifest(alloc, now, end, count, file, prefix.len() as u32)?;
    let body = encode(alloc, &manifest)?;
    Ok(NextSegment {
        prefix,
        manifest,
        body,
    })
}

/// Makes the next segment, puts the manifest that names it in force, and then cuts and freezes the segment before,
/// whose messages end at `end`. It takes no memory.
fn seal_segment<D: Disk>(
    disk: &mut D,
    slots: &Slots,
    active: u64,
    end: u64,
    next: u64,
    prefix: &[u8],
    body: &[u8],
) -> Result<D::Sealed, DiskError>
    requires slot_room { 1 ≤ (D.marks disk.old (file_of (other slots.now.current_slot))).size }
    requires slot_thawed { (D.marks disk.old (file_of (other slots.now.current_slot))).frozen ≡ false }
    requires slot_settled { (D.marks disk.old (file_of (other slots.now.current_slot))).settled ≡ true }
    requires current_settled { (D.marks disk.old (file_of slots.now.current_slot)).settled ≡ true }
    requires slots { IsTrue (D.honest disk.old) → AreSlots slots.now (reads_of (D.held disk.old)) }
    requires slot { file_of (other slots.now.current_slot) < 3 }
    requires active { (3 ≤ active) × (active < next) }
    requires end { end + 2 ≤ (D.marks disk.old active).size }
    requires active_thawed { (D.marks disk.old active).frozen ≡ false }
    requires active_settled { (D.marks disk.old active).settled ≡ true }
    requires next { (D.marks disk.old next).frozen ≡ false }

    ensures honest { D.honest disk.new ≡ D.honest disk.old }
    ensures marks { OnOk result
        (SealsMarks (D.marks disk.old) (D.marks disk.new) active next (file_of (other slots.now.current_slot))
        (length prefix.now)) }
    ensures sealed { IfOk result (λ part. (D.Sealed.number part ≡ active) × (D.Sealed.size part ≡ end)
        × (D.Sealed.honest part ≡ D.honest disk.old)) }
    ensures frozen { OnOk result ((D.marks disk.new active).frozen ≡ true) }
    ensures other_files { IsTrue (D.honest disk.old) → (n : ℕ) → n ≢ active → n ≢ next
        → n ≢ file_of (other slots.now.current_slot) → D.held disk.new n ≡ D.held disk.old n }
    ensures cause { FailsOnlyByFault (D.faults disk.old) (D.faults disk.new) result }

    // A stop at any moment leaves the archive before the seal or the one after it.
    ensures any_moment { IsTrue (D.honest disk.old) → (state : State)
        → IsSealing (D.held disk.old) slots.now active end next prefix.now body.now state
        → LeavesOnly D.Disk disk.old disk.new
        (StandsForEither (reopened state) (reopened (after_seal state prefix.now))) }
    // Afterwards it is the one after it, and the sealed file holds the segment that was active.
    ensures after { IsTrue (D.honest disk.old) → (state : State)
        → IsSealing (D.held disk.old) slots.now active end next prefix.now body.now state
        → OnOk result (AllImages (D.held disk.new) (IsKnown (swapped slots.now (after_seal state prefix.now).manifest)
        (after_seal state prefix.now))) }
    ensures part { IsTrue (D.honest disk.old) → (state : State)
        → IsSealing (D.held disk.old) slots.now active end next prefix.now body.now state
        → IfOk result (λ part. IsSealedAt (D.Sealed.octets part)
        (sealed_entry (active_of state.manifest) (end_of state) (length state.active.messages)) state.active) }
{
    make_segment(disk, next, prefix)?;
    swap_slots(disk, slots, body)?;
    seal_tail(disk, active, end)?;
    let part = disk.freeze(active)?;
    Ok(part)
}
