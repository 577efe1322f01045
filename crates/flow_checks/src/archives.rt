//! Archives on disks in memory.

ghost use Rattle.std.specs.Prelude.{◌≡◌, ℕ, false, IfOk};
ghost use Rattle.flow_memory_disk.specs.Memory.{story_of};

use flow_archive::{Archive, ArchiveError};
use flow_disk::Disk;
use flow_memory_disk::{MemoryDisk, Room};
use std::alloc::{AllocError, Global};

/// Room for some small files.
const ROOM: Room = Room {
    files: 32,
    octets: 2_048,
    calls: 1_024,
    written: 65_536,
};

/// A message of one flow from 2023-11-14 22:13:20, with the Template for it.
pub(crate) const FLOW: [u8; 57] = [
    0x00, 0x0A, 0x00, 0x39, 0x65, 0x53, 0xF1, 0x00, 0x00, 0x00, 0x00, 0x00, 0x00, 0x00, 0x00, 0x07,
    0x00, 0x02, 0x00, 0x18, 0x01, 0x00, 0x00, 0x04, 0x00, 0x96, 0x00, 0x04, 0x00, 0x04, 0x00, 0x01,
    0x00, 0x01, 0x00, 0x04, 0x00, 0x02, 0x00, 0x04, 0x01, 0x00, 0x00, 0x11, 0x65, 0x53, 0xF1, 0x00,
    0x06, 0x00, 0x00, 0x05, 0xDC, 0x00, 0x00, 0x00, 0x0A,
];

/// A disk in memory.
fn memory(alloc: Global) -> Result<MemoryDisk, AllocError>
    ensures { IfOk result (λ disk. (n : ℕ) → ((story_of disk).marks n).frozen ≡ false) }
{
    MemoryDisk::new(alloc, ROOM)
}

/// An archive without messages, by intervals of 300 seconds.
fn created<D: Disk>(alloc: Global, disk: D) -> Result<Archive<D>, ArchiveError>
    requires { (n : ℕ) → (D.marks disk n).frozen ≡ false }
{
    match Archive::create(alloc, disk, 300, 65_535) {
        Ok(archive) => Ok(archive),
        Err(refused) => Err(refused.error),
    }
}

/// Appends a message, and seals it.
fn put<D: Disk>(archive: &mut Archive<D>, alloc: Global) -> Result<(), ArchiveError> {
    archive.append(alloc, &FLOW)?;
    archive.seal(alloc)?;
    Ok(())
}

/// An archive with one sealed segment, of one message.
fn sealed<D: Disk>(alloc: Global, disk: D) -> Result<Archive<D>, ArchiveError>
    requires { (n : ℕ) → (D.marks disk n).frozen ≡ false }
{
    let mut archive = created(alloc, disk)?;
    match put(&mut archive, alloc) {
        Ok(()) => Ok(archive),
        Err(refused) => {
            drop(archive);
            Err(refused)
        }
    }
}

/// One on a disk in memory.
pub(crate) fn in_memory(alloc: Global) -> Result<Archive<MemoryDisk>, ArchiveError> {
    sealed(alloc, memory(alloc)?)
}
