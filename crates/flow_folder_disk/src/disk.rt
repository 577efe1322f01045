// A folder as a disk.
ghost use Rattle.std.specs.Prelude.{◌≡◌, ◌≤◌, ◌^◌, ℕ, true, false, IsTrue, is_some, OnOk, OnErr};
ghost use Rattle.std.specs.Ordering.{nat_cmp};
ghost use Rattle.std.specs.BTreeMap.{get};
ghost use Rattle.flow_disk.specs.Cause.{HasRisen, FailsOnlyByFault};
ghost use Rattle.flow_directory.specs.File.{entry, held_of};
ghost use Rattle.flow_folder_disk.specs.Known.{IsSettled};
ghost use Rattle.flow_folder_disk.specs.Table.{marks_in};
ghost use Rattle.flow_folder_disk.specs.Agreeing.{AreUnchanged, AreSettled, AreFrozen};

use crate::folder::Folder;
use crate::reported::{Reported, Table};
use crate::sealed::FolderSealed;
use flow_directory::Directory;
use flow_disk::{Disk, DiskError};
use std::alloc::Global;

/// A folder as a disk, over a system of calls. No file of it passes 2^62 octets: a longer one, and a write past them,
/// is a fault, as is a read or a cut that finds fewer octets than were reported. A file that doesn't exist is an empty
/// one.
#[derive(Drop)]
pub struct FolderDisk<S: Directory> {
    pub(crate) folder: Folder<S>,
    pub(crate) table: Table,
    pub(crate) failed: u64,
    ghost unchanged: { AreUnchanged (marks_in table) (λ n. get nat_cmp folder.pending n) },
    ghost settled: { IsTrue (S.honest folder.system) → AreSettled (marks_in table) (S.files folder.system) },
    ghost frozen: { IsTrue (S.honest folder.system) → AreFrozen (marks_in table) (S.files folder.system) },
}

impl<S: Directory> FolderDisk<S> {
    ghost use Rattle.flow_disk.specs.Disk.{Changes, Stays};
    ghost use Rattle.flow_folder_disk.specs.Table.{marks_of, marks_by};

    /// The disk over a system of which no file is lent, and no name was lost by a failed sync of the folder.
    pub fn new(alloc: Global, system: S) -> Self
        requires found { IsTrue (S.honest system) → (n : ℕ) → (S.files system n).lost entry ≡ false }
        requires free { IsTrue (S.honest system) → (n : ℕ) → (S.files system n).lent ≡ false }
        ensures system { result.folder.system ≡ system }
        ensures frozen { (n : ℕ) → (marks_in result.table n).frozen ≡ false }
        ensures thawed { (n : ℕ) → (marks_by (S.honest result.folder.system) (marks_in result.table n)
            (S.files result.folder.system n)).frozen ≡ false }
    {
        let folder = Folder::new(alloc, system);
        let table = Table::new(alloc);
        FolderDisk {
            folder,
            table,
            failed: 0,
        }
    }

    /// Gives the disk up, and its system back. What is frozen stays lent.
    pub fn into_system(self) -> S
        ensures { result ≡ self.folder.system }
    {
        self.folder.system
    }

    /// Counts a fault.
    pub(crate) fn fault(&mut self) -> DiskError
        ensures fault { result ≡ DiskError.Fault }
        ensures table { self.new.table ≡ self.old.table }
        ensures system { self.new.folder.system ≡ self.old.folder.system }
        ensures pending { self.new.folder.pending ≡ self.old.folder.pending }
        ensures later { self.old.failed ≤ self.new.failed }
        ensures risen { HasRisen self.old.failed self.new.failed }
    {
        self.failed = self.failed.saturating_add(1);
        DiskError::Fault
    }

    /// Counts a fault, and notes what the system said.
    pub(crate) fn fault_of(&mut self, error: &S::Error) -> DiskError
        ensures fault { result ≡ DiskError.Fault }
        ensures table { self.new.table ≡ self.old.table }
        ensures system { self.new.folder.system ≡ self.old.folder.system }
        ensures pending { self.new.folder.pending ≡ self.old.folder.pending }
        ensures later { self.old.failed ≤ self.new.failed }
        ensures risen { HasRisen self.old.failed self.new.failed }
    {
        self.folder.system.note(error);
        self.fault()
    }

    /// Reports this of a file from now on, where there is memory.
    pub(crate) fn report(&mut self, file: u64, reported: Reported) -> Result<(), DiskError>
        requires unchanged { reported.settled ≡ true → is_some (get nat_cmp self.old.folder.pending file) ≡ false }
        requires settled { IsTrue (S.honest self.old.folder.system) → reported.settled ≡ true
            → IsSettled (S.files self.old.folder.system file) }
        requires frozen { IsTrue (S.honest self.old.folder.system)
            → (S.files self.old.folder.system file).lent ≡ true
            → (reported.frozen ≡ true) × (reported.settled ≡ true) }
        ensures system { self.new.folder.system ≡ self.old.folder.system }
        ensures pending { self.new.folder.pending ≡ self.old.folder.pending }
        ensures done { OnOk result (Changes (marks_in self.old.table) (marks_in self.new.table) file (marks_of
            reported)) }
        ensures failed { OnErr result (Stays (marks_in self.old.table) (marks_in self.new.table)) }
        ensures cause { FailsOnlyByFault self.old.failed self.new.failed result }
    {
        match self.table.report(file, reported) {
            Ok(()) => Ok(()),
            Err(_) => Err(self.fault()),
        }
    }
}

impl<S: Directory> Disk for FolderDisk<S> {
    type Sealed = FolderSealed<S::Reader>;

    ghost use Rattle.flow_folder_disk.specs.Table.{marks_by, limited};
    ghost use Rattle.flow_folder_disk.specs.Marking.{moment_by, settled_of, size_of, limit_of, moment_of, at_moment};

    ghost honest = { λ d. S.honest d.folder.system };

    ghost marks = { λ d n. marks_by (S.honest d.folder.system) (marks_in d.table n) (S.files d.folder.system n) };

    ghost held = { λ d. held_of (S.files d.folder.system) };

    ghost moment = { λ d. moment_by (S.honest d.folder.system) (S.moment d.folder.system) };

    ghost left_since = { λ d. S.left_since d.folder.system };

    ghost faults = { λ d. d.failed };

    ghost reads_image = { λ d n h. S.reads_image d.folder.system n h };

    ghost fast_within = { λ d n h. S.fast_within d.folder.system n h };

    ghost fast_whole = { λ d n h is. S.fast_whole d.folder.system n h is };

    ghost settled_alone = { λ d n image h is among. (d.settled h n (settled_of (S.honest d.folder.system)
        (marks_in d.table n) (S.files d.folder.system n) is)).alone image among };

    ghost has_size = { λ d n h. size_of (S.honest d.folder.system) (marks_in d.table n) (S.files d.folder.system n) h };

    ghost within_limit = { λ d n. limit_of (S.honest d.folder.system) (marks_in d.table n) (S.files d.folder.system n)
        (2 ^ 62) (λ h. S.within_limit d.folder.system n h) (limited d.table n) };

    ghost counts_now = { λ d t image h le is. S.counts_now d.folder.system t image h
        (moment_of (S.honest d.folder.system) t (S.moment d.folder.system) h le) is };

    ghost only_now = { λ d image h left. S.only_now d.folder.system image h (at_moment (S.honest d.folder.system)
        (S.moment d.folder.system) (λ t. S.left_since d.folder.system t image) h left) };

    fn length(&mut self, file: u64) -> Result<u64, DiskError> {
        self.measure(file)
    }

    fn read_into(&mut self, file: u64, at: u64, octets: &mut [u8]) -> Result<(), DiskError> {
        self.fill(file, at, octets)
    }

    fn write_at(&mut self, file: u64, at: u64, octets: &[u8]) -> Result<(), DiskError> {
        self.put(file, at, octets)
    }

    fn cut(&mut self, file: u64, count: u64) -> Result<(), DiskError> {
        self.shorten(file, count)
    }

    fn sync(&mut self, file: u64) -> Result<(), DiskError> {
        self.settle(file)
    }

    fn remove(&mut self, file: u64) -> Result<(), DiskError> {
        self.take_away(file)
    }

    fn files(&mut self, alloc: Global) -> Result<Vec<u64>, DiskError> {
        self.list(alloc)
    }

    fn freeze(&mut self, file: u64) -> Result<FolderSealed<S::Reader>, DiskError> {
        self.lend(file)
    }

    fn retire(&mut self, sealed: FolderSealed<S::Reader>) -> Result<(), DiskError> {
        self.discard(sealed)
    }
}
