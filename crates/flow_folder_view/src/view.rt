// A folder as a disk that is only read.
ghost use Rattle.std.specs.Prelude.{◌≡◌, ◌≢◌, ◌≤◌, ℕ, true, false, Some, is_some, OnOk, OnErr, IfOk};
ghost use Rattle.std.specs.Ordering.{nat_cmp};
ghost use Rattle.std.specs.BTreeMap.{get};
ghost use Rattle.flow_disk.specs.Cause.{HasRisen, FailsOnlyByFault};
ghost use Rattle.flow_folder_disk.specs.Table.{marks_in};

use crate::changed::{Change, ChangedFiles};
use flow_disk::{Disk, DiskError, LIMIT, SealedFile};
use flow_folder::{FirstFault, FolderError, FolderFiles, Lockable, SystemReader};
use flow_folder_disk::{FolderSealed, Reported, Table};
use std::alloc::{AllocGlobal, Global};
use std::fs::Files;
use std::io::{self, ErrorKind};
use std::os::unix::fs::FileExt;

/// A folder of the system as a disk that is only read. What its calls make of a file is made in memory; no file of the
/// folder is ever changed, and none is opened to be written. No file passes 2^62 octets: a longer one is a fault, as is
/// a read that finds fewer octets than were reported, and each write. A file that doesn't exist is an empty one.
#[derive(Drop)]
pub struct FolderView<'a, R: Files> {
    files: FolderFiles<'a, R>,
    changes: ChangedFiles,
    table: Table,
    failed: u64,
}

impl<'a, R: Files + AllocGlobal + Clone + Drop> FolderView<'a, R>
where
    R::File: FileExt + Lockable,
{
    ghost use Rattle.std.specs.Prelude.{IsTrue, Ok};
    ghost use Rattle.flow_disk.specs.Disk.{Changes, Stays};
    ghost use Rattle.flow_disk.specs.Files.{MarkedByRemoval};
    ghost use Rattle.flow_folder_disk.specs.Table.{marks_of};

    /// Opens a folder that exists, and locks it against disks that change it as long as the view or a frozen file of it
    /// exists. What the system says of the first call that fails is noted.
    pub fn noting(
        rt: &'a R,
        folder: &'a str,
        first_fault: &'a FirstFault,
    ) -> Result<Self, FolderError>
        ensures { IfOk result (λ view. (n : ℕ) → (marks_in view.table n).frozen ≡ false) }
    {
        Ok(FolderView {
            files: FolderFiles::open(rt, folder, first_fault)?,
            changes: ChangedFiles::none(rt.alloc()),
            table: Table::new(rt.alloc()),
            failed: 0,
        })
    }

    /// Counts a fault.
    fn fault(&mut self) -> DiskError
        ensures fault { result ≡ DiskError.Fault }
        ensures table { self.new.table ≡ self.old.table }
        ensures changes { self.new.changes ≡ self.old.changes }
        ensures later { self.old.failed ≤ self.new.failed }
        ensures risen { HasRisen self.old.failed self.new.failed }
    {
        self.failed = self.failed.saturating_add(1);
        DiskError::Fault
    }

    /// Counts a fault, and notes what the system said.
    fn fault_of(&mut self, error: &io::Error) -> DiskError
        ensures fault { result ≡ DiskError.Fault }
        ensures table { self.new.table ≡ self.old.table }
        ensures changes { self.new.changes ≡ self.old.changes }
        ensures later { self.old.failed ≤ self.new.failed }
        ensures risen { HasRisen self.old.failed self.new.failed }
    {
        self.files.note(error);
        self.fault()
    }

    /// Reports this of a file from now on, where there is memory.
    fn report(&mut self, file: u64, reported: Reported) -> Result<(), DiskError>
        ensures changes { self.new.changes ≡ self.old.changes }
        ensures done { OnOk result
            (Changes (marks_in self.old.table) (marks_in self.new.table) file (marks_of reported)) }
        ensures failed { OnErr result (Stays (marks_in self.old.table) (marks_in self.new.table)) }
        ensures cause { FailsOnlyByFault self.old.failed self.new.failed result }
    {
        match self.table.report(file, reported) {
            Ok(()) => Ok(()),
            Err(_) => Err(self.fault()),
        }
    }

    /// Changes a file in memory, and reports this of it from now on, where there is memory.
    fn change(&mut self, file: u64, change: Change, reported: Reported) -> Result<(), DiskError>
        ensures changed { OnOk result (get nat_cmp self.new.changes.changes file ≡ Some change) }
        ensures others { (n : ℕ) → n ≢ file
            → get nat_cmp self.new.changes.changes n ≡ get nat_cmp self.old.changes.changes n }
        ensures done { OnOk result
            (Changes (marks_in self.old.table) (marks_in self.new.table) file (marks_of reported)) }
        ensures failed { OnErr result (Stays (marks_in self.old.table) (marks_in self.new.table)) }
        ensures cause { FailsOnlyByFault self.old.failed self.new.failed result }
    {
        if self.changes.note(file, change).is_err() {
            return Err(self.fault());
        }
        self.report(file, reported)
    }

    /// How many octets a file has: one that was changed here those that were reported since, each other one those in
    /// the folder.
    fn length_of(&mut self, file: u64) -> io::Result<u64>
        ensures changed { is_some (get nat_cmp self.old.changes.changes file) ≡ true
            → result ≡ Ok (marks_in self.old.table file).size }
        ensures changes { self.new.changes ≡ self.old.changes }
        ensures table { self.new.table ≡ self.old.table }
        ensures failed { self.new.failed ≡ self.old.failed }
    {
        if self.changes.has(file) {
            return Ok(self.table.of(file).size);
        }
        self.files.length(file)
    }

    /// Removes a file in memory.
    fn take_away(&mut self, file: u64) -> Result<(), DiskError>
        ensures changed { OnOk result (get nat_cmp self.new.changes.changes file ≡ Some Change.Removed) }
        ensures marks { MarkedByRemoval (marks_in self.old.table) (marks_in self.new.table) file result }
        ensures cause { FailsOnlyByFault self.old.failed self.new.failed result }
    {
        self.change(
            file,
            Change::Removed,
            Reported {
                size: 0,
                settled: true,
                frozen: false,
                listed: false,
            },
        )
    }
}

impl<'a, R: Files + AllocGlobal + Clone + Drop> Disk for FolderView<'a, R>
where
    R::File: FileExt + Lockable,
{
    type Sealed = FolderSealed<SystemReader<'a, R>>;

    ghost use Rattle.std.specs.Prelude.{◌+◌, []};
    ghost use Rattle.flow_disk.specs.Disk.{settled_at};
    ghost use Rattle.flow_folder.specs.Honesty.{never};
    ghost use Rattle.flow_folder_disk.specs.Table.{limited};

    ghost honest = { λ _. false };

    ghost marks = { λ d. marks_in d.table };

    ghost held = { λ _ n. settled_at [] };

    ghost moment = { λ _. 0 };

    ghost left_since = { λ _ t image. ⊥ };

    ghost faults = { λ d. d.failed };

    ghost reads_image = { λ d n h. never h };

    ghost fast_within = { λ d n h. never h };

    ghost fast_whole = { λ d n h. never h };

    ghost settled_alone = { λ d n image h. never h };

    ghost has_size = { λ d n h. never h };

    ghost within_limit = { λ d n. limited d.table n };

    ghost counts_now = { λ d t image h. never h };

    ghost only_now = { λ d image h. never h };

    fn length(&mut self, file: u64) -> Result<u64, DiskError> {
        match self.length_of(file) {
            Ok(size) if size <= LIMIT => {
                let reported = self.table.of(file);
                self.report(
                    file,
                    Reported {
                        size,
                        settled: reported.settled,
                        frozen: reported.frozen,
                        listed: reported.listed,
                    },
                )?;
                Ok(size)
            }
            Ok(_) => Err(self.fault()),
            Err(error) => Err(self.fault_of(&error)),
        }
    }

    fn read_into(&mut self, file: u64, at: u64, octets: &mut [u8]) -> Result<(), DiskError> {
        match self.files.read(file, at, octets) {
            Ok(()) => Ok(()),
            Err(e) if e.kind() == ErrorKind::OutOfMemory => Err(DiskError::OutOfMemory),
            Err(error) => Err(self.fault_of(&error)),
        }
    }

    fn write_at(&mut self, _file: u64, _at: u64, _octets: &[u8]) -> Result<(), DiskError> {
        Err(self.fault())
    }

    fn cut(&mut self, file: u64, count: u64) -> Result<(), DiskError> {
        let _reported = self.table.of(file);
        self.change(
            file,
            Change::Cut,
            Reported {
                size: count,
                settled: false,
                frozen: false,
                listed: true,
            },
        )
    }

    fn sync(&mut self, file: u64) -> Result<(), DiskError> {
        let reported = self.table.of(file);
        self.report(
            file,
            Reported {
                size: reported.size,
                settled: true,
                frozen: reported.frozen,
                listed: true,
            },
        )
    }

    fn remove(&mut self, file: u64) -> Result<(), DiskError> {
        self.take_away(file)
    }

    fn files(&mut self, alloc: Global) -> Result<Vec<u64>, DiskError> {
        match self.files.list(alloc) {
            Ok(files) => Ok(self.changes.left_of(files)),
            Err(e) if e.kind() == ErrorKind::OutOfMemory => Err(DiskError::OutOfMemory),
            Err(error) => Err(self.fault_of(&error)),
        }
    }

    fn freeze(&mut self, file: u64) -> Result<FolderSealed<SystemReader<'a, R>>, DiskError> {
        let reported = self.table.of(file);
        let reader = match self.files.reader(file, reported.size) {
            Ok(reader) => reader,
            Err(error) => return Err(self.fault_of(&error)),
        };
        self.report(
            file,
            Reported {
                size: reported.size,
                settled: true,
                frozen: true,
                listed: reported.listed,
            },
        )?;
        Ok(FolderSealed::new(reader, reported.size))
    }

    fn retire(&mut self, sealed: FolderSealed<SystemReader<'a, R>>) -> Result<(), DiskError> {
        self.take_away(sealed.file())
    }
}
