// A batch of messages is added to a list.
ghost use Rattle.std.specs.Prelude.{◌≡◌, ◌≢◌, ℕ, ◌+◌, ◌≤◌, max, false, true, IsTrue, List, length, OnOk};
ghost use Rattle.std.specs.List.{All};
ghost use Rattle.flow_disk.specs.Disk.{IsImage, InFile};
ghost use Rattle.flow_disk.specs.Calls.{StopsBy, EndsBy, SettlesFile};
ghost use Rattle.flow_gate.specs.Gate.{IsWhole, IsClosedAt, octet_sum, opened};
ghost use Rattle.flow_gate.specs.Steps.{MayAdd, Adds, slices, put_batch};

use crate::gate::{open_gate, place_batch};
use flow_disk::{Disk, DiskError};

/// Adds a batch of messages to the lists that end at the closed gate at `end`: places the batch and opens its gate. It
/// takes no memory. After a fault the file is synced and scanned anew.
pub fn add_batch<D: Disk>(
    disk: &mut D,
    file: u64,
    end: u64,
    messages: &[&[u8]],
) -> Result<(), DiskError>
    requires some { 1 ≤ length messages.now }
    requires few { length messages.now ≤ 64 }
    requires messages { All IsWhole (slices messages.now) }
    requires room { end + 2 ≤ (D.marks disk.old file).size }
    requires thawed { (D.marks disk.old file).frozen ≡ false }
    requires gated { IsTrue (D.honest disk.old) → (image : List ℕ) → IsImage (D.held disk.old file) image
        → IsClosedAt image end }

    // On every disk.
    ensures call { SettlesFile D.Disk disk.old disk.new file
        (max (D.marks disk.old file).size (end + octet_sum (slices messages.now) + 2)) result }

    // On an honest one: what the file reads as, and that each of its images holds the lists of before, with all
    // messages of the batch.
    ensures octets { IsTrue (D.honest disk.old) → OnOk result ((D.held disk.new file).reads
        ≡ opened (put_batch (D.held disk.old file).reads end (slices messages.now)) end) }
    ensures after { EndsBy D.Disk disk.old disk.new result (InFile file (Adds end (slices messages.now))) }

    // A stop at any moment leaves the lists of before, with all messages of the batch or with none.
    ensures any_moment { StopsBy D.Disk disk.old disk.new (InFile file (MayAdd end (slices messages.now))) }
{
    place_batch(disk, file, end, messages)?;
    open_gate(disk, file, end)?;
    Ok(())
}
