//! The two slots, and which of them counts.

ghost use Rattle.std.specs.Prelude.{◌≡◌, ◌≢◌, ◌⊎◌, ℕ, ◌+◌, ◌≤◌, List, Bool, true, false, IsTrue, length, OnOk, OnErr};
ghost use Rattle.flow_disk.specs.Disk.{AllImages, InFile};
ghost use Rattle.flow_disk.specs.Calls.{LeavesOnly, StopsBy, EndsBy, SettlesFile};
ghost use Rattle.flow_manifest.specs.declared.manifest.Manifest.{Manifest};
ghost use Rattle.flow_manifest.specs.Manifest.{IsValidManifest, manifest_octets};
ghost use Rattle.flow_manifest.specs.Slots.{file_of, other, reads_of, AreSlots, IsReady, IsInForce, MayClose};
ghost use Rattle.flow_manifest.specs.Slots.{swapped, IsNextBody, IsPrepared, IsSwapped, MayOpen, MaySwap, Opens};

use crate::manifest::Manifest;
use crate::swap::{open_slot, prepare_slot, swap_slot};
use flow_disk::{Disk, DiskError};

/// One of the two files that hold manifests.
#[derive(Clone, Copy, PartialEq, Eq)]
pub enum Slot {
    /// File 1.
    First,
    /// File 2.
    Second,
}

impl Slot {
    /// The number of the slot's file.
    pub fn file(self) -> u64
        ensures { result ≡ file_of self }
    {
        match self {
            Slot::First => 1,
            Slot::Second => 2,
        }
    }

    /// The slot beside this one.
    pub fn other(self) -> Slot
        ensures { result ≡ other self }
    {
        match self {
            Slot::First => Slot::Second,
            Slot::Second => Slot::First,
        }
    }
}

/// What the two slots hold.
#[derive(Drop)]
pub struct Slots {
    /// The manifest in force.
    pub current: Manifest,
    /// The slot that holds it.
    pub current_slot: Slot,
    /// Whether the other slot's gate is open.
    pub other_open: bool,
}

/// Swaps: puts the manifest of a body in force, in the slot that isn't. Both slots are settled, and as `slots` says;
/// after Ok they are as `swapped` says. It takes no memory.
///
/// At every moment the manifest in force is the current one or this one, and after Ok this one. After 30 Fault both
/// slots are synced and read anew.
pub fn swap_slots<D: Disk>(disk: &mut D, slots: &Slots, body: &[u8]) -> Result<(), DiskError>
    requires room { 1 ≤ (D.marks disk.old (file_of (other slots.now.current_slot))).size }
    requires thawed { (D.marks disk.old (file_of (other slots.now.current_slot))).frozen ≡ false }
    requires settled { (D.marks disk.old (file_of (other slots.now.current_slot))).settled ≡ true }
    requires settled_current { (D.marks disk.old (file_of slots.now.current_slot)).settled ≡ true }
    requires told { IsTrue (D.honest disk.old) → AreSlots slots.now (reads_of (D.held disk.old)) }

    ensures call { SettlesFile D.Disk disk.old disk.new (file_of (other slots.now.current_slot))
        (1 + length body.now) result }

    // A stop at any moment leaves the current manifest in force, or the one of this body.
    ensures in_force { IsTrue (D.honest disk.old) → (m : Manifest) → IsNextBody slots.now m body.now
        → LeavesOnly D.Disk disk.old disk.new (λ image. IsInForce image slots.now.current ⊎ IsInForce image m) }

    // Afterwards the one of this body is in force.
    ensures told { IsTrue (D.honest disk.old) → (m : Manifest) → IsNextBody slots.now m body.now
        → OnOk result (AllImages (D.held disk.new) (AreSlots (swapped slots.now m))) }

    // The same, of one slot alone.
    ensures any_moment { StopsBy D.Disk disk.old disk.new
        (InFile (file_of (other slots.now.current_slot)) (MaySwap body.now)) }
    ensures after { EndsBy D.Disk disk.old disk.new result
        (InFile (file_of (other slots.now.current_slot)) (IsSwapped body.now)) }
{
    let file = slots.current_slot.other().file();
    swap_slot(disk, file, slots.other_open, body)
}

/// Makes ready for a swap: closes the slot that isn't in force where it is open, and writes the body of the next
/// manifest after the closed gate. Both slots are settled, and as `slots` says. It takes no memory.
///
/// At every moment the manifest in force is the current one. After 30 Fault both slots are synced and read anew.
pub fn prepare<D: Disk>(disk: &mut D, slots: &mut Slots, body: &[u8]) -> Result<(), DiskError>
    requires room { 1 ≤ (D.marks disk.old (file_of (other slots.old.current_slot))).size }
    requires thawed { (D.marks disk.old (file_of (other slots.old.current_slot))).frozen ≡ false }
    requires settled { (D.marks disk.old (file_of (other slots.old.current_slot))).settled ≡ true }
    requires settled_current { (D.marks disk.old (file_of slots.old.current_slot)).settled ≡ true }
    requires told { IsTrue (D.honest disk.old) → AreSlots slots.old (reads_of (D.held disk.old)) }

    ensures call { SettlesFile D.Disk disk.old disk.new (file_of (other slots.old.current_slot))
        (1 + length body.now) result }
    ensures ok { OnOk result (slots.new ≡ record slots.old { other_open = false }) }
    ensures err { OnErr result (slots.new ≡ slots.old) }

    // A stop at any moment leaves the current manifest in force.
    ensures in_force { IsTrue (D.honest disk.old)
        → LeavesOnly D.Disk disk.old disk.new (λ image. IsInForce image slots.old.current) }

    // Afterwards the slots are as `slots` says, and a manifest with this body that follows the current one is ready.
    ensures told { IsTrue (D.honest disk.old) → OnOk result (AllImages (D.held disk.new) (AreSlots slots.new)) }
    ensures ready { IsTrue (D.honest disk.old) → (m : Manifest) → IsValidManifest m
        → m.generation ≡ slots.old.current.generation + 1 → body.now ≡ manifest_octets m
        → OnOk result (IsReady slots.new m (reads_of (D.held disk.new))) }

    // The same, of one slot alone.
    ensures any_moment { StopsBy D.Disk disk.old disk.new (InFile (file_of (other slots.old.current_slot)) MayClose) }
    ensures after { EndsBy D.Disk disk.old disk.new result
        (InFile (file_of (other slots.old.current_slot)) (IsPrepared body.now)) }
{
    let file = slots.current_slot.other().file();
    prepare_slot(disk, file, slots.other_open, body)?;
    slots.other_open = false;
    Ok(())
}

/// Swaps: opens the gate before the body that `prepare` has written. It takes no memory.
///
/// At every moment the manifest in force is the current one or this one, and after Ok this one. After 30 Fault both
/// slots are synced and read anew.
pub fn commit<D: Disk>(disk: &mut D, slots: &mut Slots, manifest: Manifest) -> Result<(), DiskError>
    requires room { 1 ≤ (D.marks disk.old (file_of (other slots.old.current_slot))).size }
    requires thawed { (D.marks disk.old (file_of (other slots.old.current_slot))).frozen ≡ false }
    requires settled { (D.marks disk.old (file_of (other slots.old.current_slot))).settled ≡ true }
    requires settled_current { (D.marks disk.old (file_of slots.old.current_slot)).settled ≡ true }
    requires ready { IsTrue (D.honest disk.old) → IsReady slots.old manifest (reads_of (D.held disk.old)) }

    ensures call { SettlesFile D.Disk disk.old disk.new (file_of (other slots.old.current_slot))
        (D.marks disk.old (file_of (other slots.old.current_slot))).size result }
    ensures ok { OnOk result (slots.new
        ≡ record { current = manifest; current_slot = other slots.old.current_slot; other_open = true }) }
    ensures err { OnErr result (slots.new ≡ slots.old) }

    // A stop at any moment leaves the current manifest in force, or this one.
    ensures in_force { IsTrue (D.honest disk.old)
        → LeavesOnly D.Disk disk.old disk.new (λ image. IsInForce image slots.old.current ⊎ IsInForce image manifest) }

    // Afterwards this one is in force, and the slots are as `slots` says.
    ensures told { IsTrue (D.honest disk.old) → OnOk result (AllImages (D.held disk.new) (AreSlots slots.new)) }
    ensures swapped { IsTrue (D.honest disk.old)
        → OnOk result (AllImages (D.held disk.new) (λ image. IsInForce image manifest)) }

    // The same, of one slot alone.
    ensures any_moment { StopsBy D.Disk disk.old disk.new (InFile (file_of (other slots.old.current_slot)) MayOpen) }
    ensures after { EndsBy D.Disk disk.old disk.new result (InFile (file_of (other slots.old.current_slot)) Opens) }
{
    let slot = slots.current_slot.other();
    let file = slot.file();
    open_slot(disk, file)?;
    slots.current = manifest;
    slots.current_slot = slot;
    slots.other_open = true;
    Ok(())
}
