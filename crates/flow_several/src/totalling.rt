//! The totals of several archives.

ghost use Rattle.std.specs.Prelude.{◌≡◌, ℕ, false, length, IsTrue, IfErr, OnOk};
ghost use Rattle.std.specs.List.{All};
ghost use Rattle.flow_several.specs.Each.{IsEachRefused, WritesEach, WritesEachRows, WritesSomeRows};
ghost use Rattle.flow_several.specs.Several.{readings, HasReadCause, IsRefusedOf, WritesNoRows, WritesRows};
ghost use Rattle.flow_several.specs.Several.{WritesTotals};

use crate::refusal::SeveralRefusal;
use crate::side_by_side::SumsOfEach;
use crate::summing::sum_all;
use crate::writing::{write_archive, write_sums};
use flow_disk::{Disk, Faults};
use flow_report::Format;
use std::alloc::Global;
use std::io::Write;
use std::thread::Threads;

/// Sums the archives on these disks, of which nothing is frozen, and writes the totals lines of the intervals that
/// start from `from` on and before `to`, one for each interval, domain and protocol of all of them: as `totals` writes
/// those of one archive. As many archives as there are processors, at most 64, are opened, asked and closed at once,
/// each in a thread of its own where one can be made. Nothing is written unless all are summed; the first that isn't is
/// named.
pub fn totals_of<D: Disk + Send, R: Threads + Sync, W: Write>(
    rt: &R,
    alloc: Global,
    disks: Vec<D>,
    from: u64,
    to: u64,
    format: Format,
    output: &mut W,
    faults: &mut Faults<D::Sealed>,
) -> Result<(), SeveralRefusal>
where
    D::Sealed: Send + Sync,
    requires { All (λ d. (n : ℕ) → (D.marks d n).frozen ≡ false) disks.items }
    // On honest disks the lines are those of the sums of all that was read.
    ensures totals { All (λ d. IsTrue (D.honest d)) disks.items → OnOk result
        (WritesTotals format from to (readings D.Disk disks.items) (W.contents output.old) (W.contents output.new)) }
    ensures refused { All (λ d. IsTrue (D.honest d)) disks.items → IfErr result
        (IsRefusedOf format from to (readings D.Disk disks.items) (W.contents output.old) (W.contents output.new)) }
    // And whatever the disks:
    ensures written { OnOk result (WritesRows format from to (W.contents output.old) (W.contents output.new)) }
    ensures kept { IfErr result (WritesNoRows format from to (W.contents output.old) (W.contents output.new)) }
    // It is a fault of asking exactly where a read of an archive's file failed.
    ensures cause { HasReadCause faults.old faults.new result }
{
    let all = sum_all(rt, alloc, disks, faults)?;
    write_sums(alloc, all, from, to, format, output)
}

/// Opens the archives on these disks, of which nothing is frozen, as `totals_of` does, and writes the totals lines of
/// each, in the order of the disks, of the intervals that start from `from` on and before `to`: as `totals` writes
/// them, with the archive's number before the others, from 1 on. In CSV the names of the values are the first line. It
/// ends with the first archive that can't be asked, which is named, after the lines of those before it.
pub fn totals_of_each<D: Disk + Send, R: Threads + Sync, W: Write>(
    rt: &R,
    alloc: Global,
    disks: Vec<D>,
    from: u64,
    to: u64,
    format: Format,
    output: &mut W,
    faults: &mut Faults<D::Sealed>,
) -> Result<(), SeveralRefusal>
where
    D::Sealed: Send + Sync,
    requires { All (λ d. (n : ℕ) → (D.marks d n).frozen ≡ false) disks.items }
    // On honest disks the lines are those of what was read of each.
    ensures totals { All (λ d. IsTrue (D.honest d)) disks.items → OnOk result
        (WritesEach format from to (readings D.Disk disks.items) (W.contents output.old) (W.contents output.new)) }
    ensures refused { All (λ d. IsTrue (D.honest d)) disks.items → IfErr result
        (IsEachRefused format from to (readings D.Disk disks.items) (W.contents output.old)
        (W.contents output.new)) }
    // And whatever the disks:
    ensures written { OnOk result
        (WritesEachRows format from to (length disks.items) (W.contents output.old) (W.contents output.new)) }
    ensures kept { IfErr result (WritesSomeRows format from to (W.contents output.old) (W.contents output.new)) }
    // It is a fault of asking exactly where a read of an archive's file failed.
    ensures cause { HasReadCause faults.old faults.new result }
{
    let mut place: u64 = 0;
    let mut sums = SumsOfEach::of(alloc, disks);
    'answers: while let Some(answer) = sums.next(rt, alloc, faults) {
        match answer {
            Ok(one) => write_archive(alloc, place + 1, one, from, to, format, output)?,
            Err(error) => return Err(SeveralRefusal::Archive(place + 1, error)),
        }
        place += 1;
    }
    Ok(())
}
