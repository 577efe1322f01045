//! The slots of a new archive.

ghost use Rattle.std.specs.Prelude.{◌≡◌, ◌≢◌, ℕ, ◌+◌, ◌<◌, ◌≤◌, List, ◌∷◌, Bool, true, false, IsTrue, length, OnOk};
ghost use Rattle.flow_disk.specs.Disk.{IsImage, AllImages};
ghost use Rattle.flow_disk.specs.Calls.{SettlesFile};
ghost use Rattle.flow_disk.specs.Cause.{FailsOnlyByFault};
ghost use Rattle.flow_manifest.specs.declared.manifest.Manifest.{Manifest};
ghost use Rattle.flow_manifest.specs.declared.slots.Slot.{Slot};
ghost use Rattle.flow_manifest.specs.declared.slots.Slot.TheVariants.{First};
ghost use Rattle.flow_manifest.specs.Manifest.{IsValidManifest, manifest_octets};
ghost use Rattle.flow_manifest.specs.Slots.{file_of, open_gate, AreSlots};

use crate::swap::{GATE_LENGTH, OPEN};
use flow_disk::{Disk, DiskError};

/// The slots of a new archive: the first manifest in slot 1, and one of an older generation in slot 2, both open and
/// settled. Until Ok a stop may leave anything of them.
pub fn create_slots<D: Disk>(disk: &mut D, first: &[u8], older: &[u8]) -> Result<(), DiskError>
    requires thawed_1 { (D.marks disk.old 1).frozen ≡ false }
    requires thawed_2 { (D.marks disk.old 2).frozen ≡ false }

    ensures honest { D.honest disk.new ≡ D.honest disk.old }
    ensures clock { D.moment disk.old ≤ D.moment disk.new }
    ensures other_marks { (n : ℕ) → n ≢ 1 → n ≢ 2 → D.marks disk.new n ≡ D.marks disk.old n }
    ensures thawed { (slot : Slot) → (D.marks disk.new (file_of slot)).frozen ≡ false }
    ensures settled { OnOk result ((slot : Slot) → (D.marks disk.new (file_of slot)).settled ≡ true) }
    ensures listed { OnOk result ((slot : Slot) → (D.marks disk.new (file_of slot)).listed ≡ true) }
    ensures room { OnOk result ((slot : Slot) → 1 ≤ (D.marks disk.new (file_of slot)).size) }
    ensures other_files { IsTrue (D.honest disk.old) → (n : ℕ) → n ≢ 1 → n ≢ 2 → D.held disk.new n ≡ D.held disk.old n }

    // Afterwards the first manifest is in force.
    ensures told { IsTrue (D.honest disk.old) → (m n : Manifest) → IsValidManifest m → IsValidManifest n
        → n.generation < m.generation
        → first.now ≡ manifest_octets m → older.now ≡ manifest_octets n
        → OnOk result (AllImages (D.held disk.new)
        (AreSlots (record { current = m; current_slot = First; other_open = true }))) }
    ensures cause { FailsOnlyByFault (D.faults disk.old) (D.faults disk.new) result }
{
    write_slot(disk, 2, older)?;
    write_slot(disk, 1, first)
}

/// Makes an open slot of a body and nothing more, settled, whatever the file held. What a stop leaves of it isn't said.
fn write_slot<D: Disk>(disk: &mut D, file: u64, body: &[u8]) -> Result<(), DiskError>
    requires thawed { (D.marks disk.old file).frozen ≡ false }

    ensures call { SettlesFile D.Disk disk.old disk.new file (1 + length body.now) result }

    // Afterwards the slot is an open gate and the body.
    ensures after { IsTrue (D.honest disk.old)
        → OnOk result ((octets : List ℕ) → IsImage (D.held disk.new file) octets → octets ≡ open_gate ∷ body.now) }
{
    disk.write_at(file, 0, &[OPEN])?;
    disk.write_at(file, GATE_LENGTH, body)?;
    disk.cut(file, GATE_LENGTH + body.len() as u64)?;
    disk.sync(file)
}
