//! The steps of a swap, each on the slot that isn't in force.

ghost use Rattle.std.specs.Prelude.{◌≡◌, ◌≢◌, ℕ, ◌+◌, ◌≤◌, Bool, true, false, IsTrue, length, OnOk};
ghost use Rattle.flow_disk.specs.Disk.{InFile};
ghost use Rattle.flow_disk.specs.Calls.{StopsBy, EndsBy, ChangesFile, SettlesFile};
ghost use Rattle.flow_manifest.specs.Slots.{HasGate, HasSomeGate, SetsGate, IsClosed, MayClose, Closes, KeepsGate};
ghost use Rattle.flow_manifest.specs.Slots.{HasBody, IsPrepared, IsSwapped, MayOpen, MaySwap, Opens};

use flow_disk::{Disk, DiskError};

/// The octet of an open gate.
pub(crate) const OPEN: u8 = 0xA5;

/// The octet that closes a gate.
const CLOSED: u8 = 0;

/// How many octets a gate has.
pub(crate) const GATE_LENGTH: u64 = 1;

/// Writes the gate of a slot, and settles it.
fn write_gate<D: Disk>(disk: &mut D, file: u64, gate: u8) -> Result<(), DiskError>
    requires room { 1 ≤ (D.marks disk.old file).size }
    requires thawed { (D.marks disk.old file).frozen ≡ false }
    requires settled { (D.marks disk.old file).settled ≡ true }

    ensures call { SettlesFile D.Disk disk.old disk.new file (D.marks disk.old file).size result }

    // A stop at any moment leaves some gate.
    ensures any_moment { StopsBy D.Disk disk.old disk.new (InFile file HasSomeGate) }

    // Afterwards it is this one.
    ensures after { EndsBy D.Disk disk.old disk.new result (InFile file (SetsGate gate)) }
{
    disk.write_at(file, 0, &[gate])?;
    disk.sync(file)
}

/// Closes a slot where it is open, and settles it. A closed gate is not written.
pub(crate) fn close_slot<D: Disk>(disk: &mut D, file: u64, was_open: bool) -> Result<(), DiskError>
    requires room { 1 ≤ (D.marks disk.old file).size }
    requires thawed { (D.marks disk.old file).frozen ≡ false }
    requires settled { (D.marks disk.old file).settled ≡ true }
    requires gate { IsTrue (D.honest disk.old) → HasGate was_open (D.held disk.old file).reads }

    ensures call { ChangesFile D.Disk disk.old disk.new file result }
    ensures settled { OnOk result ((D.marks disk.new file).settled ≡ true) }
    ensures size { OnOk result ((D.marks disk.new file).size ≡ (D.marks disk.old file).size) }

    // A stop at any moment leaves the slot as it was, or closed.
    ensures any_moment { StopsBy D.Disk disk.old disk.new (InFile file MayClose) }

    // Afterwards it is closed.
    ensures after { EndsBy D.Disk disk.old disk.new result (InFile file (Closes was_open)) }
{
    if !was_open {
        return Ok(());
    }
    write_gate(disk, file, CLOSED)
}

/// Writes a body after the gate of a closed slot, cuts the slot after it, and settles it.
pub(crate) fn write_body<D: Disk>(disk: &mut D, file: u64, body: &[u8]) -> Result<(), DiskError>
    requires room { 1 ≤ (D.marks disk.old file).size }
    requires thawed { (D.marks disk.old file).frozen ≡ false }
    requires settled { (D.marks disk.old file).settled ≡ true }

    ensures call { SettlesFile D.Disk disk.old disk.new file (1 + length body.now) result }

    // A stop at any moment leaves the gate.
    ensures any_moment { StopsBy D.Disk disk.old disk.new (InFile file KeepsGate) }

    // Afterwards the slot is its gate and the body.
    ensures after { EndsBy D.Disk disk.old disk.new result (InFile file (HasBody body.now)) }
{
    disk.write_at(file, GATE_LENGTH, body)?;
    disk.cut(file, GATE_LENGTH + body.len() as u64)?;
    disk.sync(file)
}

/// Makes a closed slot of a body and nothing more, settled, whether it was open or closed. A closed gate is not
/// written.
pub(crate) fn prepare_slot<D: Disk>(
    disk: &mut D,
    file: u64,
    was_open: bool,
    body: &[u8],
) -> Result<(), DiskError>
    requires room { 1 ≤ (D.marks disk.old file).size }
    requires thawed { (D.marks disk.old file).frozen ≡ false }
    requires settled { (D.marks disk.old file).settled ≡ true }
    requires gate { IsTrue (D.honest disk.old) → HasGate was_open (D.held disk.old file).reads }

    ensures call { SettlesFile D.Disk disk.old disk.new file (1 + length body.now) result }

    // A stop at any moment leaves the slot as it was, or closed.
    ensures any_moment { StopsBy D.Disk disk.old disk.new (InFile file MayClose) }

    // Afterwards the slot is a closed gate and the body.
    ensures after { EndsBy D.Disk disk.old disk.new result (InFile file (IsPrepared body.now)) }
{
    close_slot(disk, file, was_open)?;
    write_body(disk, file, body)
}

/// Opens a closed slot, and settles it.
pub(crate) fn open_slot<D: Disk>(disk: &mut D, file: u64) -> Result<(), DiskError>
    requires room { 1 ≤ (D.marks disk.old file).size }
    requires thawed { (D.marks disk.old file).frozen ≡ false }
    requires settled { (D.marks disk.old file).settled ≡ true }
    requires gate { IsTrue (D.honest disk.old) → IsClosed (D.held disk.old file).reads }

    ensures call { SettlesFile D.Disk disk.old disk.new file (D.marks disk.old file).size result }

    // A stop at any moment leaves the slot closed, or open, with the octets after the gate as they were.
    ensures any_moment { StopsBy D.Disk disk.old disk.new (InFile file MayOpen) }

    // Afterwards it is open.
    ensures after { EndsBy D.Disk disk.old disk.new result (InFile file Opens) }
{
    write_gate(disk, file, OPEN)
}

/// Makes an open slot of a body and nothing more, settled, whether it was open or closed. A closed gate is not written
/// but to open it.
pub(crate) fn swap_slot<D: Disk>(
    disk: &mut D,
    file: u64,
    was_open: bool,
    body: &[u8],
) -> Result<(), DiskError>
    requires room { 1 ≤ (D.marks disk.old file).size }
    requires thawed { (D.marks disk.old file).frozen ≡ false }
    requires settled { (D.marks disk.old file).settled ≡ true }
    requires gate { IsTrue (D.honest disk.old) → HasGate was_open (D.held disk.old file).reads }

    ensures call { SettlesFile D.Disk disk.old disk.new file (1 + length body.now) result }

    // A stop at any moment leaves the slot as it was, closed, or open with the body.
    ensures any_moment { StopsBy D.Disk disk.old disk.new (InFile file (MaySwap body.now)) }

    // Afterwards it is open, and has the body.
    ensures after { EndsBy D.Disk disk.old disk.new result (InFile file (IsSwapped body.now)) }
{
    prepare_slot(disk, file, was_open, body)?;
    open_slot(disk, file)
}
