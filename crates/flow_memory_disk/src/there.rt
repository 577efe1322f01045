// Calls on a file whose length a disk lies about: each keeps to the octets that the file has.
ghost use Rattle.std.specs.Prelude.{◌≡◌, ◌≤◌, false, Some};
ghost use Rattle.flow_disk.specs.Cause.{HasCause, FailsOnlyByFault};
ghost use Rattle.flow_disk.specs.Disk.{Changes};
ghost use Rattle.flow_disk.specs.Files.{MarkedByWrite};
ghost use Rattle.flow_memory_disk.specs.Lying.{resized};

use flow_disk::{Disk, DiskError};

/// Reads from a place on those octets that the file has, and zeros after them.
pub(crate) fn read_there<D: Disk>(
    disk: &mut D,
    file: u64,
    at: u64,
    octets: &mut [u8],
) -> Result<(), DiskError>
    ensures clock { D.moment disk.old ≤ D.moment disk.new }
    ensures marks { Changes (D.marks disk.old) (D.marks disk.new) file
        (resized (Some (D.marks disk.new file).size) (D.marks disk.old file)) }
    ensures cause { HasCause DiskError.Fault (D.faults disk.old) (D.faults disk.new) result }
{
    let real = disk.length(file)?;
    let place = at.min(real);
    let there = (octets.len() as u64).min(real - place) as usize;
    octets[there..].fill(0);
    disk.read_into(file, place, &mut octets[..there])
}

/// Writes octets at a place, or at the end where that comes first.
pub(crate) fn write_there<D: Disk>(
    disk: &mut D,
    file: u64,
    at: u64,
    octets: &[u8],
) -> Result<(), DiskError>
    requires { (D.marks disk.old file).frozen ≡ false }
    ensures clock { D.moment disk.old ≤ D.moment disk.new }
    ensures marks { MarkedByWrite (D.marks disk.old) (D.marks disk.new) file (D.marks disk.new file).size result }
    ensures cause { FailsOnlyByFault (D.faults disk.old) (D.faults disk.new) result }
{
    let real = disk.length(file)?;
    disk.write_at(file, at.min(real), octets)
}

/// Cuts a file to so many octets, where it has more.
pub(crate) fn cut_there<D: Disk>(disk: &mut D, file: u64, count: u64) -> Result<(), DiskError>
    requires { (D.marks disk.old file).frozen ≡ false }
    ensures clock { D.moment disk.old ≤ D.moment disk.new }
    ensures marks { MarkedByWrite (D.marks disk.old) (D.marks disk.new) file (D.marks disk.new file).size result }
    ensures cause { FailsOnlyByFault (D.faults disk.old) (D.faults disk.new) result }
{
    let real = disk.length(file)?;
    disk.cut(file, count.min(real))
}
