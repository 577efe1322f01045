// How often a disk lies: of octets that are read, of its list of files, and of lengths.
ghost use Rattle.std.specs.Prelude.{◌≡◌, ◌≤◌, ℕ, true, false, OnOk, IfOk};
ghost use Rattle.flow_memory_disk.specs.Memory.{story_of};

use flow_disk::{Disk, DiskError, Faults, SealedFile};
use flow_memory_disk::{LyingDisk, MemoryDisk, Room};
use std::alloc::{AllocError, Global};
use std::test::*;

/// The room that a small file takes.
const AMPLE: Room = Room {
    files: 1,
    octets: 200,
    calls: 9,
    written: 200,
};

/// A disk in memory with this room, on which nothing is frozen.
pub(crate) fn memory(alloc: Global) -> Result<MemoryDisk, AllocError>
    ensures { IfOk result (λ disk. (n : ℕ) → ((story_of disk).marks n).frozen ≡ false) }
{
    MemoryDisk::new(alloc, AMPLE)
}

/// Whether file 7, settled as 1 2 3 4, is read so, and is the only one that is listed.
fn is_read<D: Disk>(alloc: Global, disk: &mut D) -> Result<bool, DiskError>
    requires thawed { (D.marks disk.old 7).frozen ≡ false }
    ensures thawed { OnOk result ((D.marks disk.new 7).frozen ≡ false) }
    ensures settled { OnOk result ((D.marks disk.new 7).settled ≡ true) }
    ensures size { OnOk result (4 ≤ (D.marks disk.new 7).size) }
{
    disk.write_at(7, 0, &[1, 2, 3, 4])?;
    disk.sync(7)?;
    let is_read = disk.read(alloc, 7, 0, 4)?.as_slice() == [1, 2, 3, 4].as_slice();
    Ok(is_read && disk.files(alloc)?.as_slice() == [7].as_slice())
}

/// Whether file 7 is read so once it is frozen.
fn is_read_frozen<D: Disk>(alloc: Global, disk: &mut D) -> Result<bool, DiskError>
    requires thawed { (D.marks disk.old 7).frozen ≡ false }
    requires settled { (D.marks disk.old 7).settled ≡ true }
    requires size { 4 ≤ (D.marks disk.old 7).size }
{
    let sealed = disk.freeze(7)?;
    let read = sealed.read(alloc, &mut Faults::new(), 0, 4)?;
    Ok(read.as_slice() == [1, 2, 3, 4].as_slice())
}

/// Whether all of it is true.
fn is_true<D: Disk>(alloc: Global, disk: &mut D) -> Result<bool, DiskError>
    requires { (D.marks disk.old 7).frozen ≡ false }
{
    let is_read = is_read(alloc, disk)?;
    Ok(is_read_frozen(alloc, disk)? && is_read)
}

/// The length that a disk answers of file 7, which has five octets; none where it is so great that 64 octets more are a
/// fault.
fn told_of_five<D: Disk>(disk: &mut D) -> Result<Option<u64>, DiskError>
    requires { (D.marks disk.old 7).frozen ≡ false }
{
    disk.write_at(7, 0, &[1, 2, 3, 4, 5])?;
    let told = disk.length(7)?;
    match disk.write_at(7, told, &[6; 64]) {
        Ok(()) => Ok(Some(told)),
        Err(DiskError::Fault) => Ok(None),
        Err(error) => Err(error),
    }
}

/// What a disk answers: whether all of four octets is true, or else the length of five.
fn told_of<D: Disk>(
    alloc: Global,
    disk: &mut D,
    is_of_five: bool,
) -> Result<(bool, Option<u64>), DiskError>
    requires { (D.marks disk.old 7).frozen ≡ false }
{
    if is_of_five {
        return Ok((false, told_of_five(disk)?));
    }
    Ok((is_true(alloc, disk)?, None))
}

/// The same of one that lies by this seed.
fn told(alloc: Global, seed: u64, is_of_five: bool) -> Result<(bool, Option<u64>), DiskError> {
    let mut disk = LyingDisk::new(memory(alloc)?, seed);
    told_of(alloc, &mut disk, is_of_five)
}

/// How many of 100 disks tell the truth of four octets.
fn true_ones(alloc: Global) -> Result<u64, DiskError> {
    let mut count = 0u64;
    for seed in 0..100 {
        let (is_true, _) = told(alloc, seed, false)?;
        count = count.saturating_add(u64::from(is_true));
    }
    Ok(count)
}

/// How often 200 disks answer of a file of five octets a length that is less, the truth, more, and one that is too
/// great for 64 octets more.
fn kinds(alloc: Global) -> Result<[u64; 4], DiskError> {
    let mut told_as = [0u64; 4];
    for seed in 0..200 {
        let (_, length) = told(alloc, seed, true)?;
        let kind = match length {
            Some(0..5) => 0,
            Some(5) => 1,
            Some(_) => 2,
            None => 3,
        };
        told_as[kind] = told_as[kind].saturating_add(1);
    }
    Ok(told_as)
}

#[test]
fn a_disk_lies_now_and_then(rt: HostRuntime) -> Result<(), Fail> {
    let count = true_ones(rt.alloc())?;
    assert!(rt; count > 0 && count < 50, "{count}");
    let [less, same, more, great] = kinds(rt.alloc())?;
    assert!(rt; less > 10 && same > 10 && more > 10 && great > 10);
    Ok(())
}
