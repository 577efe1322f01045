//! The two slots read, and judged.

ghost use Rattle.std.specs.Prelude.{◌≡◌, ◌≢◌, ◌⊎◌, ◌↔◌, ℕ, ◌≤◌, List, true, IsTrue, OnOk, IfOk, IfErr, length, take};
ghost use Rattle.std.specs.Prelude.{vec_len};
ghost use Rattle.flow_disk.specs.Disk.{IsDiskImage, AllImages, Stays};
ghost use Rattle.flow_disk.specs.Calls.{LeavesOnly, OnlyReads};
ghost use Rattle.flow_disk.specs.Cause.{HasCause};
ghost use Rattle.flow_manifest.specs.Manifest.{IsValidManifest};
ghost use Rattle.flow_manifest.specs.declared.slots.Slot.{Slot};
ghost use Rattle.flow_manifest.specs.Slots.{file_of, reads_of, IsOpen, AreSlots, IsInForce};
ghost use Rattle.flow_manifest.specs.Opening.{in_slot, IsHeld, IsSlotFault, IsOpenFault, IsNewerOf, NamesSlot, enough};

use crate::decoding::decode;
use crate::error::{ManifestError, OpenError};
use crate::manifest::Manifest;
use crate::slots::{Slot, Slots};
use crate::swap::OPEN;
use flow_disk::Disk;
use std::alloc::Global;

/// Reads both slots, and answers which manifest is in force. It only reads.
///
/// 24 NoArchive where no slot is open. Else slot 1 is judged before slot 2: one without octets is 23 Cut with its
/// number, an open one that isn't a manifest is 21, 22 or 23 with its number. Two open ones of one generation are 20
/// Damaged 2 3.
pub fn read_slots<D: Disk>(alloc: Global, disk: &mut D) -> Result<Slots, OpenError>
    // On every disk: the manifest is a valid one, and a refusal names the slot that is at fault.
    ensures honest { D.honest disk.new ≡ D.honest disk.old }
    ensures clock { D.moment disk.old ≤ D.moment disk.new }
    ensures other_marks { (n : ℕ) → n ≢ 1 → n ≢ 2 → D.marks disk.new n ≡ D.marks disk.old n }
    ensures settled { (n : ℕ) → (D.marks disk.new n).settled ≡ (D.marks disk.old n).settled }
    ensures frozen { (n : ℕ) → (D.marks disk.new n).frozen ≡ (D.marks disk.old n).frozen }
    ensures listed { (n : ℕ) → (D.marks disk.new n).listed ≡ (D.marks disk.old n).listed }
    ensures room { OnOk result ((slot : Slot) → 1 ≤ (D.marks disk.new (file_of slot)).size) }
    ensures valid { IfOk result (λ slots. IsValidManifest slots.current) }
    ensures names { IfErr result (λ e. NamesSlot e) }
    ensures cause { HasCause OpenError.Fault (D.faults disk.old) (D.faults disk.new) result }

    // On an honest one: nothing changes.
    ensures held { IsTrue (D.honest disk.old) → Stays (D.held disk.old) (D.held disk.new) }
    ensures any_moment { IsTrue (D.honest disk.old)
        → LeavesOnly D.Disk disk.old disk.new (IsDiskImage (D.held disk.old)) }

    // The slots that are read are as the answer says.
    ensures found { IsTrue (D.honest disk.old) → IfOk result (λ slots. AreSlots slots (reads_of (D.held disk.old))) }

    // Over settled slots its manifest is the one in force.
    ensures in_force { IsTrue (D.honest disk.old) → (D.marks disk.old 1).settled ≡ true
        → (D.marks disk.old 2).settled ≡ true
        → IfOk result (λ slots. AllImages (D.held disk.new) (λ image. IsInForce image slots.current)) }

    // Slots that are refused have this first fault, unless memory ran out or the device failed.
    ensures fault { IsTrue (D.honest disk.old)
        → IfErr result (λ e. (e ≡ OpenError.OutOfMemory) ⊎ (e ≡ OpenError.Fault)
        ⊎ IsOpenFault (reads_of (D.held disk.old)) e) }
{
    let first = slot_octets(alloc, disk, 1)?;
    let second = slot_octets(alloc, disk, 2)?;
    slots_of(alloc, &first, &second)
}

/// One octet more than the longest slot has: a gate, a head, and 4,096 entries.
const ENOUGH: u64 = 131_124;

/// The octets of a slot, as many as show whether it holds a manifest.
fn slot_octets<D: Disk>(alloc: Global, disk: &mut D, file: u64) -> Result<Vec<u8>, OpenError>
    ensures reads { OnlyReads D.Disk disk.old disk.new file }
    ensures size { IfOk result (λ octets. vec_len octets ≤ (D.marks disk.new file).size) }
    ensures octets { IsTrue (D.honest disk.old)
        → IfOk result (λ octets. octets.items ≡ take enough (D.held disk.old file).reads) }
    ensures any_moment { IsTrue (D.honest disk.old)
        → LeavesOnly D.Disk disk.old disk.new (IsDiskImage (D.held disk.old)) }
    ensures refused { IfErr result (λ e. (e ≡ OpenError.OutOfMemory) ⊎ (e ≡ OpenError.Fault)) }
    ensures cause { HasCause OpenError.Fault (D.faults disk.old) (D.faults disk.new) result }
{
    let count = disk.length(file)?;
    let octets = disk.read(alloc, file, 0, count.min(ENOUGH) as usize)?;
    Ok(octets)
}

/// What the octets of the two slots say.
fn slots_of(alloc: Global, first: &[u8], second: &[u8]) -> Result<Slots, OpenError>
    ensures found { IfOk result (λ slots. (image : ℕ → List ℕ) → image 1 ≡ first.now → image 2 ≡ second.now
        → AreSlots slots image) }
    ensures gates { OnOk result ((1 ≤ length first.now) × (1 ≤ length second.now)) }
    ensures fault { IfErr result (λ e. (e ≡ OpenError.OutOfMemory)
        ⊎ ((image : ℕ → List ℕ) → image 1 ≡ first.now → image 2 ≡ second.now → IsOpenFault image e)) }
    ensures device { IfErr result (λ e. e ≢ OpenError.Fault) }
{
    if !is_any_open(first, second) {
        return Err(OpenError::NoArchive);
    }
    let one = manifest_in(alloc, Slot::First, first)?;
    let two = manifest_in(alloc, Slot::Second, second)?;
    match (one, two) {
        (Some(one), Some(two)) => newer_of(one, two),
        (Some(current), None) => Ok(Slots {
            current,
            current_slot: Slot::First,
            other_open: false,
        }),
        (None, Some(current)) => Ok(Slots {
            current,
            current_slot: Slot::Second,
            other_open: false,
        }),
        (None, None) => Err(OpenError::NoArchive),
    }
}

/// Two open slots: the one of the greater generation counts.
fn newer_of(one: Manifest, two: Manifest) -> Result<Slots, OpenError>
    ensures found { IfOk result (λ slots. IsNewerOf one two slots) }
    ensures fault { IfErr result (λ e. (one.generation ≡ two.generation) × (e ≡ OpenError.Damaged 2 3)) }
{
    if one.generation == two.generation {
        return Err(OpenError::Damaged(2, 3));
    }
    if one.generation > two.generation {
        Ok(Slots {
            current: one,
            current_slot: Slot::First,
            other_open: true,
        })
    } else {
        Ok(Slots {
            current: two,
            current_slot: Slot::Second,
            other_open: true,
        })
    }
}

/// The manifest of an open slot, and none of a closed one.
fn manifest_in(alloc: Global, slot: Slot, octets: &[u8]) -> Result<Option<Manifest>, OpenError>
    ensures found { IfOk result (λ held. IsHeld octets.now held) }
    ensures gate { OnOk result (1 ≤ length octets.now) }
    ensures fault { IfErr result (λ e. (e ≡ OpenError.OutOfMemory) ⊎ IsSlotFault slot octets.now e) }
    ensures device { IfErr result (λ e. e ≢ OpenError.Fault) }
{
    let [gate, body @ ..] = octets else {
        return Err(OpenError::Cut(slot.file()));
    };
    if *gate != OPEN {
        return Ok(None);
    }
    match decode(alloc, body) {
        Ok(manifest) => Ok(Some(manifest)),
        Err(fault) => Err(told_in(slot, fault)),
    }
}

/// A manifest's fault, as one of its slot.
fn told_in(slot: Slot, fault: ManifestError) -> OpenError
    ensures is { result ≡ in_slot slot fault }
    ensures device { result ≢ OpenError.Fault }
{
    match fault {
        ManifestError::Format => OpenError::Format(slot.file()),
        ManifestError::Entries => OpenError::Entries(slot.file()),
        ManifestError::Cut => OpenError::Cut(slot.file()),
        ManifestError::OutOfMemory => OpenError::OutOfMemory,
    }
}

fn is_any_open(first: &[u8], second: &[u8]) -> bool
    ensures { IsTrue result ↔ (IsOpen first.now ⊎ IsOpen second.now) }
{
    if is_open(first) {
        return true;
    }
    is_open(second)
}

fn is_open(octets: &[u8]) -> bool
    ensures { IsTrue result ↔ IsOpen octets.now }
{
    match octets {
        [gate, ..] => *gate == OPEN,
        [] => false,
    }
}
