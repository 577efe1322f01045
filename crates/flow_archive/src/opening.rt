//! An archive that is opened.

ghost use Rattle.std.specs.Prelude.{◌≡◌, ◌⊎◌, ℕ, Bool, List, true, false, IsTrue, IfOk, IfErr, IsErrOf, length};
ghost use Rattle.std.specs.List.{AllByRecursion};
ghost use Rattle.flow_disk.specs.Disk.{AllImages, IsWithin};
ghost use Rattle.flow_disk.specs.Calls.{LeavesOnly};
ghost use Rattle.flow_disk.specs.Cause.{HasCause};
ghost use Rattle.flow_gate.specs.Scan.{texts};
ghost use Rattle.flow_manifest.specs.declared.slots.Slot.{Slot};
ghost use Rattle.flow_manifest.specs.Slots.{file_of, reads_of};
ghost use Rattle.flow_recover.specs.Kept.{AreFilesOf};
ghost use Rattle.flow_model.specs.State.{State, end_of, reopened};
ghost use Rattle.flow_recover.specs.Reading.{part_of};
ghost use Rattle.flow_model.specs.Standing.{StandsFor, StandsForEither, is_file_of};
ghost use Rattle.flow_recover.specs.Opening.{AreCutTo, IsDeviceOrMemory, IsRecovered, StandsForNone};
ghost use Rattle.flow_archive.specs.Beginning.{answer_of, disk_of};
ghost use Rattle.flow_archive.specs.Frozen.{all_frozen, HaveSpans, MayBeFrozen};

use crate::archive::Archive;
use crate::frozen::{FrozenFile, frozen_files, spanned_files};
use crate::refusal::Refused;
use bytes::Bytes;
use flow_disk::{Disk, SealedFile};
use flow_manifest::{Entry, Manifest, OpenError};
use flow_measure::PartSpan;
use flow_recover::{ActiveSegment, Recovered, recover};
use std::alloc::{AllocError, Global};

impl<D: Disk> Archive<D> {
    /// Opens the archive on a disk, of which nothing is frozen.
    ///
    /// Refusals, with the disk: 20 Damaged, 21 Format, 22 Entries, 23 Cut and 24 NoArchive where what is read
    /// represents no archive; 30 Fault and 11 OutOfMemory. Whatever is answered, a stop at any moment leaves what
    /// represents the archive that the disk held. Files of a disk that is given back may be frozen.
    pub fn open(alloc: Global, disk: D) -> Result<Archive<D>, Refused<D, OpenError>>
        requires thawed { (n : ℕ) → (D.marks disk n).frozen ≡ false }
        ensures honest { D.honest (disk_of result) ≡ D.honest disk }
        ensures opened { IfOk result (λ a. (a.closed ≡ false) × (a.state ≡ reopened a.state)) }
        // What was read represents its state, and so does each image from now on.
        ensures read { IsTrue (D.honest disk) → IfOk result (λ a. StandsFor (reads_of (D.held disk)) a.state) }
        ensures stands { IsTrue (D.honest disk)
            → IfOk result (λ a. AllImages (D.held a.disk) (λ image. StandsFor image a.state)) }
        // Where a stop left one of two states, it is one of them.
        ensures either { IsTrue (D.honest disk) → (s t : State) → AllImages (D.held disk) (StandsForEither s t)
            → IfOk result (λ a. (a.state ≡ s) ⊎ (a.state ≡ t)) }
        ensures told { IsTrue (D.honest disk)
            → IfErr result (λ r. IsDeviceOrMemory r.error ⊎ StandsForNone (reads_of (D.held disk))) }
        ensures any_moment { IsTrue (D.honest disk) → (s t : State) → AllImages (D.held disk) (StandsForEither s t)
            → LeavesOnly D.Disk disk (disk_of result) (StandsForEither s t) }
        // The files that its manifest names end exactly where they are to: on every disk, and on an honest one in all
        // that a stop may leave. They are listed, and on an honest disk no other file is.
        ensures cut { IfOk result
            (λ a. AreCutTo (λ n. (D.marks a.disk n).size) a.state.manifest (end_of a.state)) }
        ensures cut_images { IsTrue (D.honest disk) → IfOk result (λ a. AllImages (D.held a.disk)
            (λ image. AreCutTo (λ n. length (image n)) a.state.manifest (end_of a.state))) }
        ensures listed { IfOk result (λ a. (n : ℕ) → is_file_of a.state.manifest n ≡ true
            → (D.marks a.disk n).listed ≡ true) }
        ensures removed { IsTrue (D.honest disk) → IfOk result (λ a. (n : ℕ)
            → is_file_of a.state.manifest n ≡ false → (D.marks a.disk n).listed ≡ false) }
        // The slots are only settled: whatever is answered, each image of a slot was one before, and unless the device
        // failed they read as before.
        ensures slots { IsTrue (D.honest disk) → (slot : Slot)
            → IsWithin (D.held (disk_of result) (file_of slot)) (D.held disk (file_of slot)) }
        ensures kept { IsTrue (D.honest disk) → (IsErrOf (answer_of result) OpenError.Fault → ⊥)
            → (slot : Slot) → (D.held (disk_of result) (file_of slot)).reads ≡ (D.held disk (file_of slot)).reads }
        // After 20 to 24 each file reads as before.
        ensures unchanged { IsTrue (D.honest disk) → IfErr result (λ r. (IsDeviceOrMemory r.error → ⊥)
            → (n : ℕ) → (D.held r.disk n).reads ≡ (D.held disk n).reads) }
        ensures cause { HasCause OpenError.Fault (D.faults disk) (D.faults (disk_of result)) (answer_of result) }
    {
        let mut disk = disk;
        match recover(alloc, &mut disk) {
            Ok(found) => resumed(alloc, disk, found),
            Err(error) => Err(Refused { disk, error }),
        }
    }
}

/// What an archive keeps of what an opening has found.
#[derive(Drop)]
struct Kept<S: SealedFile> {
    /// Its frozen files.
    files: Vec<FrozenFile<S>>,
    /// The prefix of its active segment.
    prefix: Bytes,
    /// The messages of its active segment.
    messages: Vec<Bytes>,
}

/// Messages, each as it may be shared.
fn shared_messages(alloc: Global, messages: Vec<Vec<u8>>) -> Result<Vec<Bytes>, AllocError>
    ensures { IfOk result (λ shared. shared.items ≡ texts messages.items) }
{
    let mut shared = Vec::with_capacity(alloc, messages.len())?;
    for message in messages {
        shared.push_reserved(Bytes::from_vec(message)?);
    }
    Ok(shared)
}

/// The frozen files that these entries name, with the spans of their flows, and an active segment, as an archive keeps
/// them.
fn kept_of<S: SealedFile>(
    alloc: Global,
    manifest: &Manifest,
    entries: &[Entry],
    files: Vec<S>,
    spans: &[PartSpan],
    active: ActiveSegment,
) -> Result<Kept<S>, AllocError>
    requires files { (honest : Bool) × AreFilesOf S.number S.size S.honest honest entries.now files.items }
    requires entries { AllByRecursion (λ e. MayBeFrozen e.kind e) entries.now }
    requires spans { HaveSpans manifest.now (all_frozen S.honest S.octets entries.now files.items) spans.now }
    ensures files { IfOk result (λ kept. kept.files.items ≡ all_frozen S.honest S.octets entries.now files.items) }
    ensures prefix { IfOk result (λ kept. kept.prefix ≡ active.prefix.items) }
    ensures messages { IfOk result (λ kept. kept.messages.items ≡ texts active.messages.items) }
{
    let files = frozen_files(alloc, entries, files)?;
    Ok(Kept {
        files: spanned_files(alloc, files, manifest, spans)?,
        prefix: Bytes::from_vec(active.prefix)?,
        messages: shared_messages(alloc, active.messages)?,
    })
}

/// The archive that an opening has found on a disk; or the disk, where memory is refused.
pub(crate) fn resumed<D: Disk>(
    alloc: Global,
    disk: D,
    found: Recovered<D>,
) -> Result<Archive<D>, Refused<D, OpenError>>
    requires { (reads : ℕ → List ℕ) × IsRecovered D.honest D.marks D.held D.Sealed.octets D.Sealed.number D.Sealed.size
        D.Sealed.honest reads disk found.slots found.active_entry found.end found.total (part_of found.active)
        found.carry
        found.parts.items found.spans.items }
    ensures disk { disk_of result ≡ disk }
    ensures refused { IfErr result (λ r. r.error ≡ OpenError.OutOfMemory) }
    ensures still_open { IfOk result (λ a. a.closed ≡ false) }
    ensures at_rest { IfOk result (λ a. a.state ≡ reopened a.state) }
    ensures counted { IfOk result
        (λ a. (a.state.manifest ≡ found.slots.current) × (end_of a.state ≡ found.end)) }
    // Where what was read represented the state that was found, it represents this one.
    ensures read { (reads : ℕ → List ℕ) → IsRecovered D.honest D.marks D.held D.Sealed.octets D.Sealed.number
        D.Sealed.size D.Sealed.honest reads disk found.slots found.active_entry found.end found.total (part_of
        found.active)
        found.carry found.parts.items found.spans.items
        → IsTrue (D.honest disk) → IfOk result (λ a. StandsFor reads a.state) }
    ensures stands { IsTrue (D.honest disk)
        → IfOk result (λ a. AllImages (D.held a.disk) (λ image. StandsFor image a.state)) }
{
    let next = found.slots.current.next;
    let (files, active) = (found.parts, found.active);
    let manifest = &found.slots.current;
    let named = &manifest.entries.as_slice()[..files.len()];
    let spans = found.spans.as_slice();
    let Ok(kept) = kept_of(alloc, manifest, named, files, spans, active) else {
        return Err(Refused {
            disk,
            error: OpenError::OutOfMemory,
        });
    };
    Ok(Archive {
        disk,
        slots: found.slots,
        active: found.active_entry,
        end: found.end,
        total: found.total,
        carry: found.carry,
        files: kept.files,
        prefix: kept.prefix,
        messages: kept.messages,
        span: None,
        next,
        job: None,
        waiting: Vec::new(alloc),
        shared: false,
        closed: false,
    })
}
