//! A segment's file when it is made, and when it is sealed.

ghost use Rattle.std.specs.Prelude.{◌≡◌, ◌≢◌, ℕ, ◌+◌, ◌≤◌, true, false, IsTrue, List, [], ◌∷◌, ◌++◌, length, take};
ghost use Rattle.std.specs.Prelude.{OnOk};
ghost use Rattle.flow_disk.specs.Disk.{InFile};
ghost use Rattle.flow_disk.specs.Calls.{StopsBy, EndsBy, SettlesFile};
ghost use Rattle.flow_segment.specs.Steps.{trailer, Becomes, BecomesFront, IsAnything, KeepsFront};

use flow_disk::{Disk, DiskError};

/// The closed gate after the messages of a segment that isn't sealed.
const TRAILER: [u8; 2] = [0, 0];

/// Makes the file of a segment without messages, whatever the file held: its prefix and a closed gate, settled. It
/// takes no memory. Until Ok a stop may leave anything of this file.
pub fn make_segment<D: Disk>(disk: &mut D, file: u64, prefix: &[u8]) -> Result<(), DiskError>
    requires thawed { (D.marks disk.old file).frozen ≡ false }

    // On every disk.
    ensures call { SettlesFile D.Disk disk.old disk.new file (length prefix.now + 2) result }

    // On an honest one: the other files are as they were, and each image of the file is prefix and trailer.
    ensures octets { IsTrue (D.honest disk.old) → OnOk result ((D.held disk.new file).reads ≡ prefix.now ++ trailer) }
    ensures after { EndsBy D.Disk disk.old disk.new result (InFile file (Becomes (prefix.now ++ trailer))) }

    // A stop at any moment leaves the other files as they were.
    ensures any_moment { StopsBy D.Disk disk.old disk.new (InFile file IsAnything) }
{
    let end = prefix.len() as u64;
    disk.write_at(file, 0, prefix)?;
    disk.write_at(file, end, &TRAILER)?;
    disk.cut(file, end + 2)?;
    disk.sync(file)?;
    Ok(())
}

/// Cuts a settled segment to its first `length` octets, those before its trailer, and settles it. It takes no memory.
pub fn seal_tail<D: Disk>(disk: &mut D, file: u64, length: u64) -> Result<(), DiskError>
    requires room { length ≤ (D.marks disk.old file).size }
    requires thawed { (D.marks disk.old file).frozen ≡ false }
    requires settled { (D.marks disk.old file).settled ≡ true }

    // On every disk.
    ensures call { SettlesFile D.Disk disk.old disk.new file length result }

    // On an honest one: the other files are as they were, and each image of this one is its first octets.
    ensures octets { IsTrue (D.honest disk.old)
        → OnOk result ((D.held disk.new file).reads ≡ take length (D.held disk.old file).reads) }
    ensures after { EndsBy D.Disk disk.old disk.new result (InFile file (BecomesFront length)) }

    // A stop at any moment leaves the first octets.
    ensures any_moment { StopsBy D.Disk disk.old disk.new (InFile file (KeepsFront length)) }
{
    disk.cut(file, length)?;
    disk.sync(file)?;
    Ok(())
}
