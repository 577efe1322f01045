// A batch of messages is written with its gate closed, and the gate is opened once they are on the disk.
ghost use Rattle.std.specs.Prelude.{◌≡◌, ◌≢◌, ℕ, ◌+◌, ◌≤◌, max, false, true, IsTrue, List, [], ◌∷◌, length, OnOk};
ghost use Rattle.std.specs.List.{All};
ghost use Rattle.flow_disk.specs.Disk.{IsImage, AllImages, ComesOf, InFile};
ghost use Rattle.flow_disk.specs.Calls.{LeavesOnly, StopsBy, EndsBy, SettlesFile};
ghost use Rattle.flow_gate.specs.Gate.{IsWhole, IsClosedAt, IsPlaced, octet_sum, opened};
ghost use Rattle.flow_gate.specs.Steps.{KeepsLists, Places, MayAdd, Adds, slices, put_batch};

use flow_disk::{Disk, DiskError};

/// Writes a batch of messages at the closed gate at `end`, which stays closed: it is the gate of the first message, and
/// those of the others are open. Writes a closed gate after them, and settles the file. It takes no memory. After a
/// fault the file is synced and scanned anew.
pub fn place_batch<D: Disk>(
    disk: &mut D,
    file: u64,
    end: u64,
    messages: &[&[u8]],
) -> Result<(), DiskError>
    requires some { 1 ≤ length messages.now }
    requires few { length messages.now ≤ 64 }
    requires messages { All IsWhole (slices messages.now) }
    requires room { end + 2 ≤ (D.marks disk.old file).size }
    requires thawed { (D.marks disk.old file).frozen ≡ false }
    requires gated { IsTrue (D.honest disk.old) → (image : List ℕ) → IsImage (D.held disk.old file) image
        → IsClosedAt image end }

    // On every disk.
    ensures call { SettlesFile D.Disk disk.old disk.new file
        (max (D.marks disk.old file).size (end + octet_sum (slices messages.now) + 2)) result }

    // On an honest one: what the file reads as, and that each of its images holds the lists of before, with the batch
    // placed at their gate.
    ensures octets { IsTrue (D.honest disk.old)
        → OnOk result ((D.held disk.new file).reads ≡ put_batch (D.held disk.old file).reads end
        (slices messages.now)) }
    ensures placed { IsTrue (D.honest disk.old)
        → OnOk result (IsPlaced (D.held disk.new file).reads end (slices messages.now)) }
    ensures after { EndsBy D.Disk disk.old disk.new result (InFile file (Places end (slices messages.now))) }

    // A stop at any moment leaves the lists of before.
    ensures any_moment { StopsBy D.Disk disk.old disk.new (InFile file (KeepsLists end)) }
{
    let mut at = end;
    for message in messages {
        let kept = if at == end { 2 } else { 0 };
        disk.write_at(file, at + kept as u64, &message[kept..])?;
        at += message.len() as u64;
    }
    disk.write_at(file, at, &[0, 0])?;
    disk.sync(file)?;
    Ok(())
}

/// Writes one message at the closed gate at `end`: a batch of one.
pub fn place<D: Disk>(disk: &mut D, file: u64, end: u64, message: &[u8]) -> Result<(), DiskError>
    requires message { IsWhole message.now }
    requires room { end + 2 ≤ (D.marks disk.old file).size }
    requires thawed { (D.marks disk.old file).frozen ≡ false }
    requires gated { IsTrue (D.honest disk.old) → (image : List ℕ) → IsImage (D.held disk.old file) image
        → IsClosedAt image end }

    // On every disk.
    ensures call { SettlesFile D.Disk disk.old disk.new file
        (max (D.marks disk.old file).size (end + length message.now + 2)) result }

    // On an honest one.
    ensures octets { IsTrue (D.honest disk.old)
        → OnOk result ((D.held disk.new file).reads ≡ put_batch (D.held disk.old file).reads end (message.now ∷ [])) }
    ensures placed { IsTrue (D.honest disk.old)
        → OnOk result (IsPlaced (D.held disk.new file).reads end (message.now ∷ [])) }
    ensures after { EndsBy D.Disk disk.old disk.new result (InFile file (Places end (message.now ∷ []))) }
    ensures any_moment { StopsBy D.Disk disk.old disk.new (InFile file (KeepsLists end)) }
{
    place_batch(disk, file, end, &[message])
}

/// Opens the gate of a batch that `place_batch` has settled, and settles the file. It takes no memory. After a fault
/// the file is synced and scanned anew.
pub fn open_gate<D: Disk>(disk: &mut D, file: u64, end: u64) -> Result<(), DiskError>
    requires room { end + 2 ≤ (D.marks disk.old file).size }
    requires thawed { (D.marks disk.old file).frozen ≡ false }
    requires settled { (D.marks disk.old file).settled ≡ true }
    requires placed { IsTrue (D.honest disk.old)
        → (messages : List (List ℕ)) × IsPlaced (D.held disk.old file).reads end messages }

    // On every disk.
    ensures call { SettlesFile D.Disk disk.old disk.new file (D.marks disk.old file).size result }

    // On an honest one: what the file reads as, and that each of its images holds the lists of before, with all
    // messages of the batch.
    ensures octets { IsTrue (D.honest disk.old)
        → OnOk result ((D.held disk.new file).reads ≡ opened (D.held disk.old file).reads end) }
    ensures after { IsTrue (D.honest disk.old) → (messages : List (List ℕ))
        → IsPlaced (D.held disk.old file).reads end messages → OnOk result
        (AllImages (D.held disk.new) (ComesOf (D.held disk.old) (InFile file (Adds end messages)))) }

    // A stop at any moment leaves the lists of before, with all messages of the batch or with none.
    ensures any_moment { IsTrue (D.honest disk.old) → (messages : List (List ℕ))
        → IsPlaced (D.held disk.old file).reads end messages
        → LeavesOnly D.Disk disk.old disk.new (ComesOf (D.held disk.old) (InFile file (MayAdd end messages))) }
{
    disk.write_at(file, end + 1, &[10])?;
    disk.sync(file)?;
    Ok(())
}
