// What each call on a disk does to its folder, and what it reports.
ghost use Rattle.std.specs.Prelude.{◌≡◌, ◌≢◌, ◌+◌, ◌<◌, ◌≤◌, ◌^◌, ◌↔◌, ◌||◌, ℕ, max, true, false, IsTrue, is_some};
ghost use Rattle.std.specs.Prelude.{[], Contains, length, take, drop, OnOk, OnErr, IfOk};
ghost use Rattle.std.specs.Ordering.{nat_cmp};
ghost use Rattle.std.specs.BTreeMap.{get};
ghost use Rattle.std.specs.List.Sorted.{IsStrictlyIncreasing};
ghost use Rattle.flow_disk.specs.Cause.{HasCause, FailsOnlyByFault};
ghost use Rattle.flow_disk.specs.Disk.{Changes, Stays};
ghost use Rattle.flow_disk.specs.Files.{Writes, Cuts, Syncs, Removes, while_writing, while_cutting, while_removing};
ghost use Rattle.flow_disk.specs.Files.{MarkedByWrite, MarkedBySync, MarkedByRemoval, frozen_as};
ghost use Rattle.flow_disk.specs.Moments.{Passes, Covers};
ghost use Rattle.flow_directory.specs.File.{held_of};
ghost use Rattle.flow_folder_disk.specs.Known.{IsSettled, IsSeen, Leaves};
ghost use Rattle.flow_folder_disk.specs.Table.{marks_of, marks_in, sized_as, doubted};

use crate::disk::FolderDisk;
use crate::reported::Reported;
use crate::sealed::FolderSealed;
use flow_directory::{CallError, Directory};
use flow_disk::{DiskError, LIMIT, SealedFile};
use std::alloc::{AllocError, Global};
use std::collections::BTreeSet;

impl<S: Directory> FolderDisk<S> {
    /// How many octets a file has. From now on this is reported as its size.
    pub(crate) fn measure(&mut self, file: u64) -> Result<u64, DiskError>
        ensures honest { S.honest self.new.folder.system ≡ S.honest self.old.folder.system }
        ensures count { IsTrue (S.honest self.old.folder.system)
            → IfOk result (λ count. count ≡ length (S.files self.old.folder.system file).held.reads) }
        ensures done { IfOk result (λ count. Changes (marks_in self.old.table) (marks_in self.new.table) file
            (sized_as (marks_in self.old.table file) count)) }
        ensures failed { OnErr result (Stays (marks_in self.old.table) (marks_in self.new.table)) }
        ensures files { IsTrue (S.honest self.old.folder.system)
            → Stays (S.files self.old.folder.system) (S.files self.new.folder.system) }
        ensures time { IsTrue (S.honest self.old.folder.system) → Passes S.moment S.left_since
            self.old.folder.system self.new.folder.system (held_of (S.files self.old.folder.system)) }
        ensures cause { FailsOnlyByFault self.old.failed self.new.failed result }
    {
        let size = self.length_of(file)?;
        if size > LIMIT {
            return Err(self.fault());
        }
        let reported = self.table.of(file);
        self.report(
            file,
            Reported {
                size,
                settled: reported.settled,
                frozen: reported.frozen,
                listed: reported.listed,
            },
        )?;
        Ok(size)
    }

    /// How many octets a file has.
    fn length_of(&mut self, file: u64) -> Result<u64, DiskError>
        ensures honest { S.honest self.new.folder.system ≡ S.honest self.old.folder.system }
        ensures table { self.new.table ≡ self.old.table }
        ensures count { IsTrue (S.honest self.old.folder.system)
            → IfOk result (λ count. count ≡ length (S.files self.old.folder.system file).held.reads) }
        ensures files { IsTrue (S.honest self.old.folder.system)
            → Stays (S.files self.old.folder.system) (S.files self.new.folder.system) }
        ensures time { IsTrue (S.honest self.old.folder.system) → Passes S.moment S.left_since
            self.old.folder.system self.new.folder.system (held_of (S.files self.old.folder.system)) }
        ensures cause { FailsOnlyByFault self.old.failed self.new.failed result }
    {
        match self.folder.length(file) {
            Ok(size) => Ok(size),
            Err(error) => Err(self.fault_of(&error)),
        }
    }

    /// Reads octets of a file from a place on: as many as asked.
    pub(crate) fn fill(&mut self, file: u64, at: u64, octets: &mut [u8]) -> Result<(), DiskError>
        ensures honest { S.honest self.new.folder.system ≡ S.honest self.old.folder.system }
        ensures table { self.new.table ≡ self.old.table }
        ensures octets { IsTrue (S.honest self.old.folder.system) → OnOk result
            (octets.new ≡ take (length octets.old) (drop at (S.files self.old.folder.system file).held.reads)) }
        ensures seen { IsTrue (S.honest self.old.folder.system)
            → (n : ℕ) → IsSeen (S.files self.old.folder.system n) (S.files self.new.folder.system n) }
        ensures time { IsTrue (S.honest self.old.folder.system) → Passes S.moment S.left_since
            self.old.folder.system self.new.folder.system (held_of (S.files self.old.folder.system)) }
        ensures cause { HasCause DiskError.Fault self.old.failed self.new.failed result }
    {
        match self.folder.read(file, at, octets) {
            Ok(()) => Ok(()),
            Err(error) if error.is_out_of_memory() => Err(DiskError::OutOfMemory),
            Err(error) => Err(self.fault_of(&error)),
        }
    }

    /// From now on a file isn't reported as settled. Answers what was reported of it.
    fn doubt(&mut self, file: u64) -> Result<Reported, DiskError>
        requires { IsTrue (S.honest self.old.folder.system) → (S.files self.old.folder.system file).lent ≡ false }
        ensures system { self.new.folder.system ≡ self.old.folder.system }
        ensures pending { self.new.folder.pending ≡ self.old.folder.pending }
        ensures reported { IfOk result (λ reported. marks_of reported ≡ marks_in self.old.table file) }
        ensures done { OnOk result (Changes (marks_in self.old.table) (marks_in self.new.table) file
            (doubted (marks_in self.old.table file))) }
        ensures failed { OnErr result (Stays (marks_in self.old.table) (marks_in self.new.table)) }
        ensures cause { FailsOnlyByFault self.old.failed self.new.failed result }
    {
        let reported = self.table.of(file);
        let doubted = Reported {
            size: reported.size,
            settled: false,
            frozen: reported.frozen,
            listed: reported.listed,
        };
        self.report(file, doubted)?;
        Ok(reported)
    }

    /// Writes octets of a file at a place.
    pub(crate) fn put(&mut self, file: u64, at: u64, octets: &[u8]) -> Result<(), DiskError>
        requires place { at ≤ 2 ^ 62 }
        requires within { IsTrue (S.honest self.old.folder.system)
            → at ≤ length (S.files self.old.folder.system file).held.reads }
        requires thawed { (marks_in self.old.table file).frozen ≡ false }
        ensures honest { S.honest self.new.folder.system ≡ S.honest self.old.folder.system }
        ensures marks { MarkedByWrite (marks_in self.old.table) (marks_in self.new.table) file
            (max (marks_in self.old.table file).size (at + length octets.now)) result }
        ensures held { IsTrue (S.honest self.old.folder.system) → Writes (held_of (S.files self.old.folder.system))
            (held_of (S.files self.new.folder.system)) file at octets.now result }
        ensures leaves { IsTrue (S.honest self.old.folder.system) → Leaves S.files S.moment S.left_since
            self.old.folder.system self.new.folder.system file
            (while_writing (held_of (S.files self.old.folder.system)) file at octets.now) }
        ensures covered { IsTrue (S.honest self.old.folder.system) → OnOk result
            (Covers (S.moment self.old.folder.system) (S.left_since self.new.folder.system)
            (while_writing (held_of (S.files self.old.folder.system)) file at octets.now)) }
        ensures cause { FailsOnlyByFault self.old.failed self.new.failed result }
    {
        let count = octets.len() as u64;
        if count > LIMIT - at {
            return Err(self.fault());
        }
        let reported = self.doubt(file)?;
        self.write_doubted(file, at, octets, reported.settled)?;
        self.report(
            file,
            Reported {
                size: reported.size.max(at + count),
                settled: false,
                frozen: false,
                listed: true,
            },
        )
    }

    /// Writes octets of a file that isn't reported as settled. `settled` says that it was.
    fn write_doubted(
        &mut self,
        file: u64,
        at: u64,
        octets: &[u8],
        settled: bool,
    ) -> Result<(), DiskError>
        requires fits { at + length octets.now < 2 ^ 64 }
        requires within { IsTrue (S.honest self.old.folder.system)
            → at ≤ length (S.files self.old.folder.system file).held.reads }
        requires settled { IsTrue (S.honest self.old.folder.system)
            → settled ≡ true → IsSettled (S.files self.old.folder.system file) }
        requires doubted { (marks_in self.old.table file).settled ≡ false }
        requires free { IsTrue (S.honest self.old.folder.system)
            → (S.files self.old.folder.system file).lent ≡ false }
        ensures honest { S.honest self.new.folder.system ≡ S.honest self.old.folder.system }
        ensures table { self.new.table ≡ self.old.table }
        ensures free { IsTrue (S.honest self.old.folder.system)
            → (S.files self.new.folder.system file).lent ≡ false }
        ensures held { IsTrue (S.honest self.old.folder.system) → Writes (held_of (S.files self.old.folder.system))
            (held_of (S.files self.new.folder.system)) file at octets.now result }
        ensures leaves { IsTrue (S.honest self.old.folder.system) → Leaves S.files S.moment S.left_since
            self.old.folder.system self.new.folder.system file
            (while_writing (held_of (S.files self.old.folder.system)) file at octets.now) }
        ensures covered { IsTrue (S.honest self.old.folder.system) → OnOk result
            (Covers (S.moment self.old.folder.system) (S.left_since self.new.folder.system)
            (while_writing (held_of (S.files self.old.folder.system)) file at octets.now)) }
        ensures cause { FailsOnlyByFault self.old.failed self.new.failed result }
    {
        match self.folder.write(file, at, octets, settled) {
            Ok(()) => Ok(()),
            Err(error) => Err(self.fault_of(&error)),
        }
    }

    /// Cuts a file to so many octets.
    pub(crate) fn shorten(&mut self, file: u64, count: u64) -> Result<(), DiskError>
        requires place { count ≤ 2 ^ 62 }
        requires within { IsTrue (S.honest self.old.folder.system)
            → count ≤ length (S.files self.old.folder.system file).held.reads }
        requires thawed { (marks_in self.old.table file).frozen ≡ false }
        ensures honest { S.honest self.new.folder.system ≡ S.honest self.old.folder.system }
        ensures marks { MarkedByWrite (marks_in self.old.table) (marks_in self.new.table) file count result }
        ensures held { IsTrue (S.honest self.old.folder.system) → Cuts (held_of (S.files self.old.folder.system))
            (held_of (S.files self.new.folder.system)) file count result }
        ensures leaves { IsTrue (S.honest self.old.folder.system) → Leaves S.files S.moment S.left_since
            self.old.folder.system self.new.folder.system file
            (while_cutting (held_of (S.files self.old.folder.system)) file count) }
        ensures covered { IsTrue (S.honest self.old.folder.system) → OnOk result
            (Covers (S.moment self.old.folder.system) (S.left_since self.new.folder.system)
            (while_cutting (held_of (S.files self.old.folder.system)) file count)) }
        ensures cause { FailsOnlyByFault self.old.failed self.new.failed result }
    {
        let reported = self.doubt(file)?;
        self.cut_doubted(file, count, reported.settled)?;
        self.report(
            file,
            Reported {
                size: count,
                settled: false,
                frozen: false,
                listed: true,
            },
        )
    }

    /// Cuts a file that isn't reported as settled. `settled` says that it was.
    fn cut_doubted(&mut self, file: u64, count: u64, settled: bool) -> Result<(), DiskError>
        requires within { IsTrue (S.honest self.old.folder.system)
            → count ≤ length (S.files self.old.folder.system file).held.reads }
        requires settled { IsTrue (S.honest self.old.folder.system)
            → settled ≡ true → IsSettled (S.files self.old.folder.system file) }
        requires doubted { (marks_in self.old.table file).settled ≡ false }
        requires free { IsTrue (S.honest self.old.folder.system)
            → (S.files self.old.folder.system file).lent ≡ false }
        ensures honest { S.honest self.new.folder.system ≡ S.honest self.old.folder.system }
        ensures table { self.new.table ≡ self.old.table }
        ensures free { IsTrue (S.honest self.old.folder.system)
            → (S.files self.new.folder.system file).lent ≡ false }
        ensures held { IsTrue (S.honest self.old.folder.system) → Cuts (held_of (S.files self.old.folder.system))
            (held_of (S.files self.new.folder.system)) file count result }
        ensures leaves { IsTrue (S.honest self.old.folder.system) → Leaves S.files S.moment S.left_since
            self.old.folder.system self.new.folder.system file
            (while_cutting (held_of (S.files self.old.folder.system)) file count) }
        ensures covered { IsTrue (S.honest self.old.folder.system) → OnOk result
            (Covers (S.moment self.old.folder.system) (S.left_since self.new.folder.system)
            (while_cutting (held_of (S.files self.old.folder.system)) file count)) }
        ensures cause { FailsOnlyByFault self.old.failed self.new.failed result }
    {
        match self.folder.cut(file, count, settled) {
            Ok(()) => Ok(()),
            Err(error) => Err(self.fault_of(&error)),
        }
    }
}

impl<S: Directory> FolderDisk<S> {
    /// Settles a file and its name.
    pub(crate) fn settle(&mut self, file: u64) -> Result<(), DiskError>
        ensures honest { S.honest self.new.folder.system ≡ S.honest self.old.folder.system }
        ensures marks { MarkedBySync (marks_in self.old.table) (marks_in self.new.table) file result }
        ensures held { IsTrue (S.honest self.old.folder.system) → Syncs (held_of (S.files self.old.folder.system))
            (held_of (S.files self.new.folder.system)) file result }
        ensures leaves { IsTrue (S.honest self.old.folder.system) → Leaves S.files S.moment S.left_since
            self.old.folder.system self.new.folder.system file (held_of (S.files self.old.folder.system)) }
        ensures cause { FailsOnlyByFault self.old.failed self.new.failed result }
    {
        let reported = self.table.of(file);
        if reported.frozen && reported.settled {
            return self.settle_frozen(file, reported);
        }
        self.settle_changed(file)
    }

    /// Settles a file that is reported as frozen and settled.
    fn settle_frozen(&mut self, file: u64, reported: Reported) -> Result<(), DiskError>
        requires reported { marks_of reported ≡ marks_in self.old.table file }
        requires frozen { reported.frozen ≡ true }
        requires settled { reported.settled ≡ true }
        ensures honest { S.honest self.new.folder.system ≡ S.honest self.old.folder.system }
        ensures marks { MarkedBySync (marks_in self.old.table) (marks_in self.new.table) file result }
        ensures held { IsTrue (S.honest self.old.folder.system) → Syncs (held_of (S.files self.old.folder.system))
            (held_of (S.files self.new.folder.system)) file result }
        ensures leaves { IsTrue (S.honest self.old.folder.system) → Leaves S.files S.moment S.left_since
            self.old.folder.system self.new.folder.system file (held_of (S.files self.old.folder.system)) }
        ensures cause { FailsOnlyByFault self.old.failed self.new.failed result }
    {
        self.sync_settled(file)?;
        self.report(
            file,
            Reported {
                size: reported.size,
                settled: true,
                frozen: true,
                listed: true,
            },
        )
    }

    /// Syncs a file that is reported as frozen and settled: it stays settled, whether that fails or not.
    fn sync_settled(&mut self, file: u64) -> Result<(), DiskError>
        requires { (marks_in self.old.table file).settled ≡ true }
        ensures honest { S.honest self.new.folder.system ≡ S.honest self.old.folder.system }
        ensures table { self.new.table ≡ self.old.table }
        ensures absent { is_some (get nat_cmp self.new.folder.pending file) ≡ false }
        ensures held { IsTrue (S.honest self.old.folder.system) → Syncs (held_of (S.files self.old.folder.system))
            (held_of (S.files self.new.folder.system)) file result }
        ensures settled { IsTrue (S.honest self.old.folder.system)
            → IsSettled (S.files self.new.folder.system file) }
        ensures leaves { IsTrue (S.honest self.old.folder.system) → Leaves S.files S.moment S.left_since
            self.old.folder.system self.new.folder.system file (held_of (S.files self.old.folder.system)) }
        ensures cause { FailsOnlyByFault self.old.failed self.new.failed result }
    {
        match self.folder.sync_frozen(file) {
            Ok(()) => Ok(()),
            Err(error) => Err(self.fault_of(&error)),
        }
    }

    /// Settles a file that may have been changed.
    fn settle_changed(&mut self, file: u64) -> Result<(), DiskError>
        requires { IsTrue (S.honest self.old.folder.system) → (S.files self.old.folder.system file).lent ≡ false }
        ensures honest { S.honest self.new.folder.system ≡ S.honest self.old.folder.system }
        ensures marks { MarkedBySync (marks_in self.old.table) (marks_in self.new.table) file result }
        ensures held { IsTrue (S.honest self.old.folder.system) → Syncs (held_of (S.files self.old.folder.system))
            (held_of (S.files self.new.folder.system)) file result }
        ensures leaves { IsTrue (S.honest self.old.folder.system) → Leaves S.files S.moment S.left_since
            self.old.folder.system self.new.folder.system file (held_of (S.files self.old.folder.system)) }
        ensures cause { FailsOnlyByFault self.old.failed self.new.failed result }
    {
        let reported = self.doubt(file)?;
        self.sync_doubted(file, reported.settled)?;
        self.report(
            file,
            Reported {
                size: reported.size,
                settled: true,
                frozen: reported.frozen,
                listed: true,
            },
        )
    }

    /// Syncs a file that isn't reported as settled. `settled` says that it was.
    fn sync_doubted(&mut self, file: u64, settled: bool) -> Result<(), DiskError>
        requires settled { IsTrue (S.honest self.old.folder.system)
            → settled ≡ true → IsSettled (S.files self.old.folder.system file) }
        requires doubted { (marks_in self.old.table file).settled ≡ false }
        requires free { IsTrue (S.honest self.old.folder.system)
            → (S.files self.old.folder.system file).lent ≡ false }
        ensures honest { S.honest self.new.folder.system ≡ S.honest self.old.folder.system }
        ensures table { self.new.table ≡ self.old.table }
        ensures here { OnOk result (is_some (get nat_cmp self.new.folder.pending file) ≡ false) }
        ensures free { IsTrue (S.honest self.old.folder.system)
            → (S.files self.new.folder.system file).lent ≡ false }
        ensures held { IsTrue (S.honest self.old.folder.system) → Syncs (held_of (S.files self.old.folder.system))
            (held_of (S.files self.new.folder.system)) file result }
        ensures settled { IsTrue (S.honest self.old.folder.system)
            → OnOk result (IsSettled (S.files self.new.folder.system file)) }
        ensures leaves { IsTrue (S.honest self.old.folder.system) → Leaves S.files S.moment S.left_since
            self.old.folder.system self.new.folder.system file (held_of (S.files self.old.folder.system)) }
        ensures cause { FailsOnlyByFault self.old.failed self.new.failed result }
    {
        match self.folder.sync(file, settled) {
            Ok(()) => Ok(()),
            Err(error) => Err(self.fault_of(&error)),
        }
    }

    /// Removes a file, frozen or not, that isn't lent.
    pub(crate) fn take_away(&mut self, file: u64) -> Result<(), DiskError>
        requires { IsTrue (S.honest self.old.folder.system) → (S.files self.old.folder.system file).lent ≡ false }
        ensures honest { S.honest self.new.folder.system ≡ S.honest self.old.folder.system }
        ensures marks { MarkedByRemoval (marks_in self.old.table) (marks_in self.new.table) file result }
        ensures held { IsTrue (S.honest self.old.folder.system) → Removes (held_of (S.files self.old.folder.system))
            (held_of (S.files self.new.folder.system)) file result }
        ensures unlinked { IsTrue (S.honest self.old.folder.system)
            → OnOk result ((S.files self.new.folder.system file).linked ≡ false) }
        ensures leaves { IsTrue (S.honest self.old.folder.system) → Leaves S.files S.moment S.left_since
            self.old.folder.system self.new.folder.system file
            (while_removing (held_of (S.files self.old.folder.system)) file) }
        ensures covered { IsTrue (S.honest self.old.folder.system) → OnOk result
            (Covers (S.moment self.old.folder.system) (S.left_since self.new.folder.system)
            (while_removing (held_of (S.files self.old.folder.system)) file)) }
        ensures cause { FailsOnlyByFault self.old.failed self.new.failed result }
    {
        let _ = self.doubt(file)?;
        self.remove_doubted(file)?;
        self.report(
            file,
            Reported {
                size: 0,
                settled: true,
                frozen: false,
                listed: false,
            },
        )
    }

    /// Removes a file that isn't reported as settled.
    fn remove_doubted(&mut self, file: u64) -> Result<(), DiskError>
        requires doubted { (marks_in self.old.table file).settled ≡ false }
        requires free { IsTrue (S.honest self.old.folder.system)
            → (S.files self.old.folder.system file).lent ≡ false }
        ensures honest { S.honest self.new.folder.system ≡ S.honest self.old.folder.system }
        ensures table { self.new.table ≡ self.old.table }
        ensures here { OnOk result (is_some (get nat_cmp self.new.folder.pending file) ≡ false) }
        ensures free { IsTrue (S.honest self.old.folder.system)
            → (S.files self.new.folder.system file).lent ≡ false }
        ensures held { IsTrue (S.honest self.old.folder.system) → Removes (held_of (S.files self.old.folder.system))
            (held_of (S.files self.new.folder.system)) file result }
        ensures settled { IsTrue (S.honest self.old.folder.system)
            → OnOk result (IsSettled (S.files self.new.folder.system file)) }
        ensures unlinked { IsTrue (S.honest self.old.folder.system)
            → OnOk result ((S.files self.new.folder.system file).linked ≡ false) }
        ensures leaves { IsTrue (S.honest self.old.folder.system) → Leaves S.files S.moment S.left_since
            self.old.folder.system self.new.folder.system file
            (while_removing (held_of (S.files self.old.folder.system)) file) }
        ensures covered { IsTrue (S.honest self.old.folder.system) → OnOk result
            (Covers (S.moment self.old.folder.system) (S.left_since self.new.folder.system)
            (while_removing (held_of (S.files self.old.folder.system)) file)) }
        ensures cause { FailsOnlyByFault self.old.failed self.new.failed result }
    {
        match self.folder.remove(file) {
            Ok(()) => Ok(()),
            Err(error) => Err(self.fault_of(&error)),
        }
    }

    /// A value that reads a settled file, which is frozen from now on.
    pub(crate) fn lend(&mut self, file: u64) -> Result<FolderSealed<S::Reader>, DiskError>
        requires settled { (marks_in self.old.table file).settled ≡ true }
        requires thawed { (marks_in self.old.table file).frozen ≡ false }
        ensures honest { S.honest self.new.folder.system ≡ S.honest self.old.folder.system }
        ensures size { IsTrue (S.honest self.old.folder.system) → IfOk result
            (λ sealed. sealed.size ≡ length (S.files self.old.folder.system file).held.reads) }
        ensures reported { IfOk result (λ sealed. sealed.size ≡ (marks_in self.old.table file).size) }
        ensures reader { IfOk result (λ sealed. (S.Reader.number sealed.reader ≡ file)
            × (S.Reader.honest sealed.reader ≡ S.honest self.old.folder.system)) }
        ensures octets { IsTrue (S.honest self.old.folder.system) → IfOk result
            (λ sealed. S.Reader.reads sealed.reader ≡ (S.files self.old.folder.system file).held.reads) }
        ensures frozen { OnOk result (Changes (marks_in self.old.table) (marks_in self.new.table) file
            (frozen_as (marks_in self.old.table file))) }
        ensures thawed { OnErr result (Stays (marks_in self.old.table) (marks_in self.new.table)) }
        ensures held { IsTrue (S.honest self.old.folder.system) → Stays (held_of (S.files self.old.folder.system))
            (held_of (S.files self.new.folder.system)) }
        ensures linked { IsTrue (S.honest self.old.folder.system) → (n : ℕ)
            → (S.files self.new.folder.system n).linked ≡ (S.files self.old.folder.system n).linked }
        ensures time { IsTrue (S.honest self.old.folder.system) → Passes S.moment S.left_since
            self.old.folder.system self.new.folder.system (held_of (S.files self.old.folder.system)) }
        ensures cause { FailsOnlyByFault self.old.failed self.new.failed result }
    {
        let reported = self.table.of(file);
        let reader = match self.folder.seal(file, reported.size) {
            Ok(reader) => reader,
            Err(error) => return Err(self.fault_of(&error)),
        };
        let frozen = Reported {
            size: reported.size,
            settled: reported.settled,
            frozen: true,
            listed: reported.listed,
        };
        match self.table.report(file, frozen) {
            Ok(()) => Ok(FolderSealed {
                reader,
                size: reported.size,
            }),
            Err(_) => {
                self.folder.take_back(reader);
                Err(self.fault())
            }
        }
    }

    /// Removes a frozen file, in exchange for its value.
    pub(crate) fn discard(&mut self, sealed: FolderSealed<S::Reader>) -> Result<(), DiskError>
        ensures honest { S.honest self.new.folder.system ≡ S.honest self.old.folder.system }
        ensures marks { MarkedByRemoval (marks_in self.old.table) (marks_in self.new.table)
            (S.Reader.number sealed.reader) result }
        ensures held { IsTrue (S.honest self.old.folder.system) → Removes (held_of (S.files self.old.folder.system))
            (held_of (S.files self.new.folder.system)) (S.Reader.number sealed.reader) result }
        ensures unlinked { IsTrue (S.honest self.old.folder.system) → OnOk result
            ((S.files self.new.folder.system (S.Reader.number sealed.reader)).linked ≡ false) }
        ensures leaves { IsTrue (S.honest self.old.folder.system) → Leaves S.files S.moment S.left_since
            self.old.folder.system self.new.folder.system (S.Reader.number sealed.reader)
            (while_removing (held_of (S.files self.old.folder.system)) (S.Reader.number sealed.reader)) }
        ensures covered { IsTrue (S.honest self.old.folder.system) → OnOk result
            (Covers (S.moment self.old.folder.system) (S.left_since self.new.folder.system)
            (while_removing (held_of (S.files self.old.folder.system)) (S.Reader.number sealed.reader))) }
        ensures cause { FailsOnlyByFault self.old.failed self.new.failed result }
    {
        let file = sealed.file();
        let FolderSealed { reader, size: _ } = sealed;
        self.folder.take_back(reader);
        self.take_away(file)
    }
}

impl<S: Directory> FolderDisk<S> {
    /// The numbers of the files that have a name, or that are reported as listed, ascending.
    pub(crate) fn list(&mut self, alloc: Global) -> Result<Vec<u64>, DiskError>
        ensures honest { S.honest self.new.folder.system ≡ S.honest self.old.folder.system }
        ensures table { self.new.table ≡ self.old.table }
        ensures ascending { IfOk result (λ files. IsStrictlyIncreasing files.items) }
        ensures listed { IsTrue (S.honest self.old.folder.system) → IfOk result (λ files. (n : ℕ)
            → Contains files.items n ↔ (((S.files self.old.folder.system n).linked
            || (marks_in self.old.table n).listed) ≡ true)) }
        ensures files { IsTrue (S.honest self.old.folder.system)
            → Stays (S.files self.old.folder.system) (S.files self.new.folder.system) }
        ensures time { IsTrue (S.honest self.old.folder.system) → Passes S.moment S.left_since
            self.old.folder.system self.new.folder.system (held_of (S.files self.old.folder.system)) }
        ensures cause { HasCause DiskError.Fault self.old.failed self.new.failed result }
    {
        let named = self.named(alloc)?;
        let mut numbers = numbers_of(alloc, &named)?;
        self.table.list(alloc, &mut numbers)?;
        Ok(numbers.iter().copied().collect(alloc)?)
    }

    /// The files that have a name.
    fn named(&mut self, alloc: Global) -> Result<Vec<u64>, DiskError>
        ensures honest { S.honest self.new.folder.system ≡ S.honest self.old.folder.system }
        ensures table { self.new.table ≡ self.old.table }
        ensures listed { IsTrue (S.honest self.old.folder.system) → IfOk result (λ list. (n : ℕ)
            → Contains list.items n ↔ ((S.files self.old.folder.system n).linked ≡ true)) }
        ensures files { IsTrue (S.honest self.old.folder.system)
            → Stays (S.files self.old.folder.system) (S.files self.new.folder.system) }
        ensures time { IsTrue (S.honest self.old.folder.system) → Passes S.moment S.left_since
            self.old.folder.system self.new.folder.system (held_of (S.files self.old.folder.system)) }
        ensures cause { HasCause DiskError.Fault self.old.failed self.new.failed result }
    {
        match self.folder.list(alloc) {
            Ok(named) => Ok(named),
            Err(error) if error.is_out_of_memory() => Err(DiskError::OutOfMemory),
            Err(error) => Err(self.fault_of(&error)),
        }
    }
}

ghost use Rattle.std.specs.BTreeSet.{contains};
ghost use Rattle.std.specs.List.{list_any};
ghost use Rattle.std.specs.Ordering.{eq_by_cmp};

/// The numbers of a list, each once.
fn numbers_of(alloc: Global, list: &[u64]) -> Result<BTreeSet<u64>, AllocError>
    ensures { IfOk result (λ numbers. (n : ℕ)
        → contains nat_cmp numbers n ≡ list_any (eq_by_cmp nat_cmp n) list.now) }
{
    let mut numbers = BTreeSet::new(alloc);
    for file in list {
        numbers.insert(*file)?;
    }
    Ok(numbers)
}
