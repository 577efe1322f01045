//! The first part of an opening: files are settled, so that a stop leaves what is read.

ghost use Rattle.std.specs.Prelude.{◌≡◌, ◌≢◌, ◌⊎◌, ℕ, ◌≤◌, true, false, IsTrue, List, length, OnOk, IfOk, IfErr};
ghost use Rattle.std.specs.List.{AllByRecursion};
ghost use Rattle.flow_disk.specs.Disk.{IsDiskImage, AllImages};
ghost use Rattle.flow_disk.specs.Calls.{LeavesOnly};
ghost use Rattle.flow_disk.specs.Cause.{FailsOnlyByFault, HasCause};
ghost use Rattle.flow_manifest.specs.declared.slots.Slot.{Slot};
ghost use Rattle.flow_manifest.specs.Manifest.{IsValidManifest};
ghost use Rattle.flow_manifest.specs.Slots.{file_of, reads_of, AreSlots};
ghost use Rattle.flow_model.specs.Standing.{is_file_of};
ghost use Rattle.flow_recover.specs.Opening.{OnlySettles, IsDeviceOrMemory, StandsForNone};

use flow_disk::{Disk, DiskError};
use flow_manifest::{Entry, OpenError, Slots, read_slots};
use std::alloc::Global;

/// Settles a file. Each image after it was one before.
pub(crate) fn settle<D: Disk>(disk: &mut D, file: u64) -> Result<(), DiskError>
    ensures honest { D.honest disk.new ≡ D.honest disk.old }
    ensures frozen { (n : ℕ) → (D.marks disk.new n).frozen ≡ (D.marks disk.old n).frozen }
    ensures marks { OnOk result (OnlySettles (D.marks disk.old) (D.marks disk.new)) }
    ensures settled { OnOk result ((D.marks disk.new file).settled ≡ true) }
    ensures listed { OnOk result ((D.marks disk.new file).listed ≡ true) }
    ensures still { OnOk result
        ((n : ℕ) → (D.marks disk.old n).listed ≡ true → (D.marks disk.new n).listed ≡ true) }
    ensures reads { IsTrue (D.honest disk.old)
        → OnOk result ((n : ℕ) → (D.held disk.new n).reads ≡ (D.held disk.old n).reads) }
    ensures narrows { IsTrue (D.honest disk.old) → AllImages (D.held disk.new) (IsDiskImage (D.held disk.old)) }
    ensures any_moment { IsTrue (D.honest disk.old)
        → LeavesOnly D.Disk disk.old disk.new (IsDiskImage (D.held disk.old)) }
    ensures cause { FailsOnlyByFault (D.faults disk.old) (D.faults disk.new) result }
{
    disk.sync(file)?;
    Ok(())
}

/// Settles both slots.
pub(crate) fn settle_slots<D: Disk>(disk: &mut D) -> Result<(), DiskError>
    ensures honest { D.honest disk.new ≡ D.honest disk.old }
    ensures frozen { (n : ℕ) → (D.marks disk.new n).frozen ≡ (D.marks disk.old n).frozen }
    ensures settled { OnOk result ((slot : Slot) → (D.marks disk.new (file_of slot)).settled ≡ true) }
    ensures listed { OnOk result ((slot : Slot) → (D.marks disk.new (file_of slot)).listed ≡ true) }
    ensures reads { IsTrue (D.honest disk.old)
        → OnOk result ((n : ℕ) → (D.held disk.new n).reads ≡ (D.held disk.old n).reads) }
    ensures narrows { IsTrue (D.honest disk.old) → AllImages (D.held disk.new) (IsDiskImage (D.held disk.old)) }
    ensures any_moment { IsTrue (D.honest disk.old)
        → LeavesOnly D.Disk disk.old disk.new (IsDiskImage (D.held disk.old)) }
    ensures cause { FailsOnlyByFault (D.faults disk.old) (D.faults disk.new) result }
{
    settle(disk, 1)?;
    settle(disk, 2)?;
    Ok(())
}

/// Settles the files of these entries.
pub(crate) fn settle_entries<D: Disk>(disk: &mut D, entries: &[Entry]) -> Result<(), DiskError>
    ensures honest { D.honest disk.new ≡ D.honest disk.old }
    ensures frozen { (n : ℕ) → (D.marks disk.new n).frozen ≡ (D.marks disk.old n).frozen }
    ensures marks { OnOk result (OnlySettles (D.marks disk.old) (D.marks disk.new)) }
    ensures settled { OnOk result (AllByRecursion (λ e. (D.marks disk.new e.file).settled ≡ true) entries.now) }
    ensures listed { OnOk result (AllByRecursion (λ e. (D.marks disk.new e.file).listed ≡ true) entries.now) }
    ensures still { OnOk result
        ((n : ℕ) → (D.marks disk.old n).listed ≡ true → (D.marks disk.new n).listed ≡ true) }
    ensures reads { IsTrue (D.honest disk.old)
        → OnOk result ((n : ℕ) → (D.held disk.new n).reads ≡ (D.held disk.old n).reads) }
    ensures narrows { IsTrue (D.honest disk.old) → AllImages (D.held disk.new) (IsDiskImage (D.held disk.old)) }
    ensures any_moment { IsTrue (D.honest disk.old)
        → LeavesOnly D.Disk disk.old disk.new (IsDiskImage (D.held disk.old)) }
    ensures cause { FailsOnlyByFault (D.faults disk.old) (D.faults disk.new) result }
{
    'entries: for entry in entries {
        settle(disk, entry.file)?;
    }
    Ok(())
}

/// Settles the slots, reads them, and settles each file that the manifest in force names.
pub(crate) fn settle_all<D: Disk>(alloc: Global, disk: &mut D) -> Result<Slots, OpenError>
    ensures honest { D.honest disk.new ≡ D.honest disk.old }
    ensures frozen { (n : ℕ) → (D.marks disk.new n).frozen ≡ (D.marks disk.old n).frozen }
    ensures slots { OnOk result ((slot : Slot) → ((D.marks disk.new (file_of slot)).settled ≡ true)
        × (1 ≤ (D.marks disk.new (file_of slot)).size)) }
    ensures settled { IfOk result (λ slots. AllByRecursion (λ e.
        (D.marks disk.new e.file).settled ≡ true) slots.current.entries) }
    ensures listed { IfOk result (λ slots. (n : ℕ) → is_file_of slots.current n ≡ true
        → (D.marks disk.new n).listed ≡ true) }
    ensures valid { IfOk result (λ slots. IsValidManifest slots.current) }
    ensures reads { IsTrue (D.honest disk.old)
        → OnOk result ((n : ℕ) → (D.held disk.new n).reads ≡ (D.held disk.old n).reads) }
    ensures kept { IsTrue (D.honest disk.old) → IfErr result (λ e. e ≢ OpenError.Fault
        → (n : ℕ) → (D.held disk.new n).reads ≡ (D.held disk.old n).reads) }
    ensures narrows { IsTrue (D.honest disk.old) → AllImages (D.held disk.new) (IsDiskImage (D.held disk.old)) }
    ensures any_moment { IsTrue (D.honest disk.old)
        → LeavesOnly D.Disk disk.old disk.new (IsDiskImage (D.held disk.old)) }
    ensures found { IsTrue (D.honest disk.old) → IfOk result (λ slots. AreSlots slots (reads_of (D.held disk.new))) }
    ensures told { IsTrue (D.honest disk.old)
        → IfErr result (λ e. IsDeviceOrMemory e ⊎ StandsForNone (reads_of (D.held disk.old))) }
    ensures cause { HasCause OpenError.Fault (D.faults disk.old) (D.faults disk.new) result }
{
    settle_slots(disk)?;
    let slots = read_slots(alloc, disk)?;
    settle_entries(disk, slots.current.entries.as_slice())?;
    Ok(slots)
}
