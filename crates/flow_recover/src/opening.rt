//! Opening.

ghost use Rattle.std.specs.Prelude.{◌≡◌, ◌≢◌, ◌⊎◌, ℕ, ◌-◌, ◌≤◌, ◌+◌, ◌<◌, ◌^◌, length, get_or, true, false, IsTrue};
ghost use Rattle.std.specs.Prelude.{List, map};
ghost use Rattle.std.specs.Prelude.{OnOk, IfOk, IfErr, IsErrOf};
ghost use Rattle.std.specs.List.{AllByRecursion};
ghost use Rattle.flow_disk.specs.Disk.{AllImages, IsDiskImage, IsWithin};
ghost use Rattle.flow_disk.specs.Calls.{LeavesOnly};
ghost use Rattle.flow_disk.specs.Cause.{HasCause};
ghost use Rattle.flow_manifest.specs.declared.slots.Slot.{Slot};
ghost use Rattle.flow_manifest.specs.Manifest.{IsValidManifest};
ghost use Rattle.flow_manifest.specs.Slots.{file_of, reads_of};
ghost use Rattle.flow_manifest.specs.Following.{active_of, front_of, no_entry};
ghost use Rattle.flow_model.specs.State.{Part, State, at_rest};
ghost use Rattle.flow_recover.specs.Reading.{part_of};
ghost use Rattle.flow_model.specs.Standing.{is_file_of, StandsForEither};
ghost use Rattle.flow_model.specs.Chain.{IsSegment};
ghost use Rattle.flow_recover.specs.Kept.{IsCounted};
ghost use Rattle.flow_recover.specs.Opening.{AreCutTo, IsDeviceOrMemory, IsRead, IsRecovered, StandsForNone};
ghost use Rattle.flow_recover.specs.Spans.{AreSpansOf};

use crate::active::ActiveSegment;
use crate::reading::{Files, read_files};
use crate::settling::settle_all;
use crate::tidying::tidy;
use flow_disk::Disk;
use flow_manifest::{Entry, OpenError, Slots};
use flow_measure::PartSpan;
use flow_segment::Carry;
use std::alloc::Global;

/// What an opening finds.
#[derive(Drop)]
pub struct Recovered<D: Disk> {
    /// The slots, with the manifest in force.
    pub slots: Slots,
    /// The active entry.
    pub active_entry: Entry,
    /// The place of the closed gate in the active file.
    pub end: u64,
    /// How many messages there are in all.
    pub total: u64,
    /// The active segment.
    pub active: ActiveSegment,
    /// The carry that the active segment passes on.
    pub carry: Carry,
    /// The files before the active one, in the manifest's order.
    pub parts: Vec<D::Sealed>,
    /// When the flows of each of them start.
    pub spans: Vec<PartSpan>,
}

/// What is found before anything is changed.
#[derive(Drop)]
struct Found {
    slots: Slots,
    active_entry: Entry,
    files: Files,
}

/// Settles the slots and the files that the manifest names, checks them, tidies the disk, and answers what it found.
pub fn recover<D: Disk>(alloc: Global, disk: &mut D) -> Result<Recovered<D>, OpenError>
    requires thawed { (n : ℕ) → (D.marks disk.old n).frozen ≡ false }
    ensures honest { D.honest disk.new ≡ D.honest disk.old }
    ensures cause { HasCause OpenError.Fault (D.faults disk.old) (D.faults disk.new) result }
    ensures recovered { IfOk result
        (λ r. IsRecovered D.honest D.marks D.held D.Sealed.octets D.Sealed.number D.Sealed.size D.Sealed.honest
        (reads_of (D.held disk.old)) disk.new r.slots r.active_entry r.end r.total (part_of r.active) r.carry
        r.parts.items r.spans.items) }
    ensures listed { IfOk result (λ r. (n : ℕ) → is_file_of r.slots.current n ≡ true
        → (D.marks disk.new n).listed ≡ true) }
    ensures removed { IsTrue (D.honest disk.old) → IfOk result (λ r. (n : ℕ)
        → is_file_of r.slots.current n ≡ false → (D.marks disk.new n).listed ≡ false) }
    ensures told { IsTrue (D.honest disk.old)
        → IfErr result (λ e. IsDeviceOrMemory e ⊎ StandsForNone (reads_of (D.held disk.old))) }

    // The files that the manifest names end exactly where they are to: on every disk, and on an honest one in all that
    // a stop may leave. So do the frozen files in the answer, and on an honest disk they have as many octets.
    ensures cut { IfOk result (λ r. AreCutTo (λ n. (D.marks disk.new n).size) r.slots.current r.end) }
    ensures cut_images { IsTrue (D.honest disk.old) → IfOk result (λ r. AllImages (D.held disk.new)
        (λ image. AreCutTo (λ n. length (image n)) r.slots.current r.end)) }
    ensures sizes { IfOk result
        (λ r. map D.Sealed.size r.parts.items ≡ map (λ e. e.length) (front_of r.slots.current)) }
    ensures lengths { IsTrue (D.honest disk.old) → IfOk result
        (λ r. map (λ f. length (D.Sealed.octets f)) r.parts.items ≡ map (λ e. e.length) (front_of r.slots.current)) }

    // The slots are only settled: whatever is answered, each image of a slot was one before, and unless the device
    // failed they read as before.
    ensures slots { IsTrue (D.honest disk.old)
        → (slot : Slot) → IsWithin (D.held disk.new (file_of slot)) (D.held disk.old (file_of slot)) }
    ensures kept { IsTrue (D.honest disk.old) → (IsErrOf result OpenError.Fault → ⊥)
        → (slot : Slot) → (D.held disk.new (file_of slot)).reads ≡ (D.held disk.old (file_of slot)).reads }
    // After 20 to 24 each file reads as before.
    ensures unchanged { IsTrue (D.honest disk.old) → IfErr result (λ e. (IsDeviceOrMemory e → ⊥)
        → (n : ℕ) → (D.held disk.new n).reads ≡ (D.held disk.old n).reads) }
    ensures any_moment { IsTrue (D.honest disk.old) → (a b : State) → AllImages (D.held disk.old) (StandsForEither a b)
        → LeavesOnly D.Disk disk.old disk.new (StandsForEither a b) }
{
    let Found {
        slots,
        active_entry,
        files,
    } = find(alloc, disk)?;
    let parts = tidy(alloc, disk, &slots.current, active_entry, files.end)?;
    Ok(Recovered {
        slots,
        active_entry,
        end: files.end,
        total: files.total,
        active: files.active,
        carry: files.carry,
        parts,
        spans: files.spans,
    })
}

/// Settles the slots and the files that the manifest names, and reads and checks them.
fn find<D: Disk>(alloc: Global, disk: &mut D) -> Result<Found, OpenError>
    // On every disk.
    ensures honest { D.honest disk.new ≡ D.honest disk.old }
    ensures frozen { (n : ℕ) → (D.marks disk.new n).frozen ≡ (D.marks disk.old n).frozen }
    ensures slots { OnOk result ((slot : Slot) → ((D.marks disk.new (file_of slot)).settled ≡ true)
        × (1 ≤ (D.marks disk.new (file_of slot)).size)) }
    ensures settled { IfOk result
        (λ f. AllByRecursion (λ e. (D.marks disk.new e.file).settled ≡ true) f.slots.current.entries) }
    ensures listed { IfOk result (λ f. (n : ℕ) → is_file_of f.slots.current n ≡ true
        → (D.marks disk.new n).listed ≡ true) }
    ensures valid { IfOk result (λ f. IsValidManifest f.slots.current) }
    ensures active_entry { IfOk result (λ f. f.active_entry ≡ active_of f.slots.current) }
    ensures small { IfOk result (λ f. f.files.end + 2 < 2 ^ 64) }
    ensures counted { IfOk result (λ f. (parts : List Part)
        → IsCounted (at_rest f.slots.current parts (part_of f.files.active)) f.active_entry f.files.end f.files.total) }
    ensures segment { IfOk result (λ f. IsSegment (part_of f.files.active) f.files.carry) }
    ensures cause { HasCause OpenError.Fault (D.faults disk.old) (D.faults disk.new) result }

    // On an honest one.
    ensures narrows { IsTrue (D.honest disk.old) → AllImages (D.held disk.new) (IsDiskImage (D.held disk.old)) }
    ensures any_moment { IsTrue (D.honest disk.old)
        → LeavesOnly D.Disk disk.old disk.new (IsDiskImage (D.held disk.old)) }
    ensures reads { IsTrue (D.honest disk.old)
        → OnOk result ((n : ℕ) → (D.held disk.new n).reads ≡ (D.held disk.old n).reads) }
    ensures kept { IsTrue (D.honest disk.old) → IfErr result (λ e. e ≢ OpenError.Fault
        → (n : ℕ) → (D.held disk.new n).reads ≡ (D.held disk.old n).reads) }
    ensures read { IsTrue (D.honest disk.old) → IfOk result (λ f. (parts : List Part)
        × IsRead (D.held disk.new) (reads_of (D.held disk.old)) f.slots
        (at_rest f.slots.current parts (part_of f.files.active)) f.files.carry) }
    ensures spanned { IsTrue (D.honest disk.old) → IfOk result (λ f. AreSpansOf (reads_of (D.held disk.old))
        f.slots.current (front_of f.slots.current) f.files.spans.items) }
    ensures told { IsTrue (D.honest disk.old)
        → IfErr result (λ e. IsDeviceOrMemory e ⊎ StandsForNone (reads_of (D.held disk.old))) }
{
    let slots = settle_all(alloc, disk)?;
    let active_entry = active_entry_of(slots.current.entries.as_slice());
    let files = read_files(alloc, disk, &slots.current, active_entry)?;
    Ok(Found {
        slots,
        active_entry,
        files,
    })
}

/// The active entry.
fn active_entry_of(entries: &[Entry]) -> Entry
    requires { 1 ≤ length entries.now }
    ensures { result ≡ get_or entries.now (length entries.now - 1) no_entry }
{
    entries[entries.len() - 1]
}
