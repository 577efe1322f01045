//! A new archive.

ghost use Rattle.std.specs.Prelude.{◌≡◌, ℕ, ◌≤◌, ◌%◌, false, IsTrue, OnOk, IfOk, IfErr};
ghost use Rattle.flow_disk.specs.Disk.{AllImages};
ghost use Rattle.flow_disk.specs.Cause.{FailsOnlyByFault, HasCause};
ghost use Rattle.flow_manifest.specs.Limits.{greatest_limit, greatest_width, least_limit};
ghost use Rattle.flow_manifest.specs.Manifest.{IsInRange, IsValidManifest, head_of, manifest_octets};
ghost use Rattle.flow_model.specs.State.{empty_state, first_manifest};
ghost use Rattle.flow_model.specs.Standing.{IsKnown, StandsFor};
ghost use Rattle.flow_recover.specs.Kept.{IsReadyFor};
ghost use Rattle.flow_archive.specs.Beginning.{HasFiles, IsNotMade, answer_of, disk_of, first_slots, widest};

use crate::archive::Archive;
use crate::refusal::{ArchiveError, Refused};
use bytes::Bytes;
use flow_disk::{Disk, DiskError};
use flow_manifest::{
    Entries, Entry, GREATEST_WIDTH, Kind, Manifest, Slot, Slots, create_slots, encode,
};
use flow_segment::{Carry, make_segment};
use std::alloc::{AllocError, Global};

/// The entry of the first segment, which has no prefix.
const FIRST: Entry = Entry {
    kind: Kind::Active,
    prefix: 0,
    file: 3,
    length: 0,
    messages: 0,
};

/// What the slots of a new archive hold.
#[derive(Drop)]
struct FirstSlots {
    /// The manifest in force.
    current: Manifest,
    /// Its octets.
    body: Vec<u8>,
    /// The octets of the one before it.
    older: Vec<u8>,
}

impl<D: Disk> Archive<D> {
    /// Makes an archive without messages on a disk without files. Its flows are summed over intervals of `width`
    /// seconds, from 1 to 86,400, and later over the greatest multiple of it up to 86,400; a segment takes `limit`
    /// octets of messages, from 65,535 to 16,777,216. Nothing of the disk is frozen.
    ///
    /// Refusals, with the disk: 27 NotEmpty where the disk has files, and 11 OutOfMemory, which both leave it as it
    /// was; and 30 Fault, after which its files may hold anything. A stop before Ok may leave anything too.
    pub fn create(
        alloc: Global,
        disk: D,
        width: u32,
        limit: u32,
    ) -> Result<Archive<D>, Refused<D, ArchiveError>>
        requires thawed { (n : ℕ) → (D.marks disk n).frozen ≡ false }
        requires width_from { 1 ≤ width }
        requires width_to { width ≤ greatest_width }
        requires limit_from { least_limit ≤ limit }
        requires limit_to { limit ≤ greatest_limit }
        ensures honest { D.honest (disk_of result) ≡ D.honest disk }
        ensures made { IfOk result
            (λ a. (a.state ≡ empty_state width (widest width) limit) × (a.closed ≡ false)) }
        ensures stands { IsTrue (D.honest disk) → IfOk result (λ a. AllImages (D.held a.disk)
            (λ image. StandsFor image (empty_state width (widest width) limit))) }
        ensures was_empty { IsTrue (D.honest disk) → OnOk result (HasFiles (D.marks disk) → ⊥) }
        ensures refused { IfErr result (λ r. IsNotMade D.Disk disk r.disk r.error) }
        ensures thawed { IfErr result (λ r. (n : ℕ) → (D.marks r.disk n).frozen ≡ false) }
        ensures cause { HasCause ArchiveError.Fault (D.faults disk) (D.faults (disk_of result)) (answer_of result) }
    {
        Self::create_wide(alloc, disk, width, widest(width), limit)
    }

    /// The same, with a wide width by choice: a multiple of the width, up to 86,400.
    pub fn create_wide(
        alloc: Global,
        disk: D,
        width: u32,
        wide: u32,
        limit: u32,
    ) -> Result<Archive<D>, Refused<D, ArchiveError>>
        requires thawed { (n : ℕ) → (D.marks disk n).frozen ≡ false }
        requires width_from { 1 ≤ width }
        requires wide_from { width ≤ wide }
        requires wide_to { wide ≤ greatest_width }
        requires wide_multiple { wide % width ≡ 0 }
        requires limit_from { least_limit ≤ limit }
        requires limit_to { limit ≤ greatest_limit }
        ensures honest { D.honest (disk_of result) ≡ D.honest disk }
        ensures made { IfOk result (λ a. (a.state ≡ empty_state width wide limit) × (a.closed ≡ false)) }
        ensures stands { IsTrue (D.honest disk) → IfOk result (λ a. AllImages (D.held a.disk)
            (λ image. StandsFor image (empty_state width wide limit))) }
        ensures was_empty { IsTrue (D.honest disk) → OnOk result (HasFiles (D.marks disk) → ⊥) }
        ensures refused { IfErr result (λ r. IsNotMade D.Disk disk r.disk r.error) }
        ensures thawed { IfErr result (λ r. (n : ℕ) → (D.marks r.disk n).frozen ≡ false) }
        ensures cause { HasCause ArchiveError.Fault (D.faults disk) (D.faults (disk_of result)) (answer_of result) }
    {
        let mut disk = disk;
        match begin(alloc, &mut disk, width, wide, limit) {
            Ok(slots) => Ok(Archive {
                disk,
                slots,
                active: FIRST,
                end: 0,
                total: 0,
                carry: Carry::new(alloc),
                files: Vec::new(alloc),
                prefix: Bytes::new(),
                messages: Vec::new(alloc),
                span: None,
                next: FIRST.file + 1,
                job: None,
                waiting: Vec::new(alloc),
                shared: false,
                closed: false,
            }),
            Err(error) => Err(Refused { disk, error }),
        }
    }
}

/// The greatest multiple of a width up to a day.
fn widest(width: u32) -> u32
    requires width_from { 1 ≤ width }
    requires width_to { width ≤ greatest_width }
    ensures is { result ≡ widest width }
    ensures from { width ≤ result }
    ensures to { result ≤ greatest_width }
    ensures multiple { result % width ≡ 0 }
{
    GREATEST_WIDTH / width * width
}

/// Makes the files of a new archive on a disk without files. All memory is taken before the first write.
fn begin<D: Disk>(
    alloc: Global,
    disk: &mut D,
    width: u32,
    wide: u32,
    limit: u32,
) -> Result<Slots, ArchiveError>
    requires thawed { (n : ℕ) → (D.marks disk.old n).frozen ≡ false }
    requires ranges { IsInRange (head_of (first_manifest 1 width wide limit)) }
    ensures honest { D.honest disk.new ≡ D.honest disk.old }
    ensures thawed { (n : ℕ) → (D.marks disk.new n).frozen ≡ false }
    ensures slots { IfOk result (λ slots. slots ≡ first_slots width wide limit) }
    ensures valid { OnOk result (IsValidManifest (first_manifest 1 width wide limit)) }
    ensures ready { OnOk result (IsReadyFor (D.marks disk.new) 3 4 0) }
    ensures known { IsTrue (D.honest disk.old) → OnOk result
        (AllImages (D.held disk.new) (IsKnown (first_slots width wide limit) (empty_state width wide limit))) }
    ensures was_empty { IsTrue (D.honest disk.old) → OnOk result (HasFiles (D.marks disk.old) → ⊥) }
    ensures refused { IfErr result (IsNotMade D.Disk disk.old disk.new) }
    ensures cause { HasCause ArchiveError.Fault (D.faults disk.old) (D.faults disk.new) result }
{
    let files = disk.files(alloc)?;
    if !files.is_empty() {
        return Err(ArchiveError::NotEmpty);
    }
    let first = slots_of(alloc, width, wide, limit)?;
    make_files(disk, first.body.as_slice(), first.older.as_slice())?;
    Ok(Slots {
        current: first.current,
        current_slot: Slot::First,
        other_open: true,
    })
}

/// Makes the active segment of a new archive, and then its slots. It takes no memory.
fn make_files<D: Disk>(disk: &mut D, first: &[u8], older: &[u8]) -> Result<(), DiskError>
    requires thawed { (n : ℕ) → (D.marks disk.old n).frozen ≡ false }
    ensures honest { D.honest disk.new ≡ D.honest disk.old }
    ensures thawed { (n : ℕ) → (D.marks disk.new n).frozen ≡ false }
    ensures ready { OnOk result (IsReadyFor (D.marks disk.new) 3 4 0) }
    ensures known { IsTrue (D.honest disk.old) → (width wide limit : ℕ)
        → IsValidManifest (first_manifest 1 width wide limit) → IsValidManifest (first_manifest 0 width wide limit)
        → first.now ≡ manifest_octets (first_manifest 1 width wide limit)
        → older.now ≡ manifest_octets (first_manifest 0 width wide limit) → OnOk result
        (AllImages (D.held disk.new) (IsKnown (first_slots width wide limit) (empty_state width wide limit))) }
    ensures cause { FailsOnlyByFault (D.faults disk.old) (D.faults disk.new) result }
{
    make_segment(disk, FIRST.file, &[])?;
    create_slots(disk, first, older)?;
    Ok(())
}

/// What the slots of a new archive hold.
fn slots_of(alloc: Global, width: u32, wide: u32, limit: u32) -> Result<FirstSlots, AllocError>
    requires { IsInRange (head_of (first_manifest 1 width wide limit)) }
    ensures current { IfOk result (λ slots. slots.current ≡ first_manifest 1 width wide limit) }
    ensures valid { IsValidManifest (first_manifest 1 width wide limit) }
    ensures valid_older { IsValidManifest (first_manifest 0 width wide limit) }
    ensures body { IfOk result (λ slots. slots.body.items ≡ manifest_octets (first_manifest 1 width wide limit)) }
    ensures older { IfOk result (λ slots. slots.older.items ≡ manifest_octets (first_manifest 0 width wide limit)) }
{
    let current = empty_manifest(alloc, 1, width, wide, limit)?;
    let before = empty_manifest(alloc, 0, width, wide, limit)?;
    let body = encode(alloc, &current)?;
    let older = encode(alloc, &before)?;
    Ok(FirstSlots {
        current,
        body,
        older,
    })
}

/// The manifest of an archive without messages, of this generation.
fn empty_manifest(
    alloc: Global,
    generation: u64,
    width: u32,
    wide: u32,
    limit: u32,
) -> Result<Manifest, AllocError>
    ensures { IfOk result (λ m. m ≡ first_manifest generation width wide limit) }
{
    let entries = Vec::from_slice(alloc, &[FIRST])?;
    Ok(Manifest {
        generation,
        width,
        wide,
        limit,
        next: FIRST.file + 1,
        rolled: 0,
        second: 0,
        entries: Entries::from_vec(entries),
    })
}
