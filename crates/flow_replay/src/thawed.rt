//! Disks on which nothing is frozen, whose files scripts change.

ghost use Rattle.std.specs.Prelude.{◌≡◌, ℕ, false};

use crate::asked::difference;
use crate::worn::{Wear, WornDisk};
use flow_disk::{Disk, DiskError};
use flow_folder_disk::FolderDisk;
use flow_memory_directory::{MemoryDirectory, MemoryError};
use flow_memory_disk::{FusedDisk, LyingDisk, MemoryDisk, OneFaultDisk, Room};
use flow_scripts::OfDisk;
use std::alloc::{AllocError, Global};

/// A disk on which nothing is frozen: its calls look first whether they may be made.
#[derive(Drop)]
pub(crate) struct Thawed<D: Disk> {
    pub(crate) disk: D,
    ghost thawed: { (n : ℕ) → (D.marks disk n).frozen ≡ false },
}

impl<D: Disk> Thawed<D> {
    /// Writes octets at a place, and settles the file; a fault after its end.
    fn put(&mut self, file: u64, at: u64, octets: &[u8]) -> Result<(), DiskError> {
        if self.disk.length(file)? < at {
            return Err(DiskError::Fault);
        }
        self.disk.write_at(file, at, octets)?;
        self.disk.sync(file)
    }

    /// Writes octets at the start of each file from one on up to another.
    fn fill(&mut self, from: u64, to: u64, octets: &[u8]) -> Result<(), DiskError> {
        for file in from..=to {
            self.put(file, 0, octets)?;
        }
        Ok(())
    }

    /// Cuts a file to so many octets, and settles it; a fault where it has fewer.
    fn cut(&mut self, file: u64, count: u64) -> Result<(), DiskError> {
        if self.disk.length(file)? < count {
            return Err(DiskError::Fault);
        }
        self.disk.cut(file, count)?;
        self.disk.sync(file)
    }

    /// Removes a file.
    fn remove(&mut self, file: u64) -> Result<(), DiskError> {
        self.disk.remove(file)
    }

    /// All octets of a file.
    fn contents(&mut self, alloc: Global, file: u64) -> Result<Vec<u8>, DiskError> {
        let count = self.disk.length(file)?;
        self.disk.read(alloc, file, 0, count as usize)
    }

    /// The numbers of its files.
    fn files(&mut self, alloc: Global) -> Result<Vec<u64>, DiskError> {
        self.disk.files(alloc)
    }

    /// Nothing where a file holds these octets, else its digits.
    fn holds(&mut self, alloc: Global, file: u64, octets: &[u8]) -> Result<String, DiskError> {
        let held = self.contents(alloc, file)?;
        Ok(difference(alloc, &held, octets)?)
    }

    /// How many octets a file has, as text.
    fn length(&mut self, alloc: Global, file: u64) -> Result<String, DiskError> {
        let count = self.disk.length(file)?;
        Ok(format!(in alloc; "{count}")?)
    }

    /// The numbers of its files, as text.
    fn listed(&mut self, alloc: Global) -> Result<String, DiskError> {
        let mut text = String::new(alloc);
        for file in self.files(alloc)? {
            if !text.is_empty() {
                text.push_str(" ")?;
            }
            text.push_str(&format!(in alloc; "{file}")?)?;
        }
        Ok(text)
    }

    /// What is answered to a question.
    fn told(&mut self, alloc: Global, asked: &OfDisk) -> Result<String, DiskError> {
        match asked {
            OfDisk::Put(file, at, octets) => self.put(*file, *at, octets.as_slice())?,
            OfDisk::Fill(from, to, octets) => self.fill(*from, *to, octets.as_slice())?,
            OfDisk::Cut(file, count) => self.cut(*file, *count)?,
            OfDisk::Remove(file) => self.remove(*file)?,
            OfDisk::File(file, octets) => return self.holds(alloc, *file, octets.as_slice()),
            OfDisk::Length(file) => return self.length(alloc, *file),
            OfDisk::Files => return self.listed(alloc),
        }
        Ok(String::new(alloc))
    }

    /// What is answered to a question, or why it isn't.
    pub(crate) fn answer(&mut self, alloc: Global, asked: &OfDisk) -> Result<String, AllocError> {
        match self.told(alloc, asked) {
            Ok(text) => Ok(text),
            Err(refused) => format!(in alloc; "{refused}"),
        }
    }

    /// Its files, and all their octets.
    pub(crate) fn image(&mut self, alloc: Global) -> Result<Vec<(u64, Vec<u8>)>, DiskError> {
        let mut image = Vec::new(alloc);
        for file in self.files(alloc)? {
            image.push((file, self.contents(alloc, file)?))?;
        }
        Ok(image)
    }

    /// Writes the octets of files, and settles these.
    pub(crate) fn write_all(&mut self, image: &[(u64, Vec<u8>)]) -> Result<(), DiskError> {
        for (file, octets) in image {
            self.put(*file, 0, octets.as_slice())?;
        }
        Ok(())
    }
}

/// A disk in memory without files.
pub(crate) fn empty(alloc: Global, room: Room) -> Result<MemoryDisk, AllocError> {
    MemoryDisk::new(alloc, room)
}

/// A disk in memory, given up without a stop.
pub(crate) fn given_up(disk: MemoryDisk) -> Thawed<MemoryDisk> {
    Thawed {
        disk: disk.restart(),
    }
}

/// A disk in memory, given up without a stop, which fails from its call of this number on, counted from 0.
pub(crate) fn fused(disk: MemoryDisk, call: u64) -> Thawed<FusedDisk<MemoryDisk>> {
    Thawed {
        disk: FusedDisk::new(disk.restart(), call),
    }
}

/// The same, where each read of a frozen file that reaches an octet fails.
pub(crate) fn with_bad_reads(
    disk: MemoryDisk,
    file: u64,
    from: u64,
) -> Thawed<FusedDisk<MemoryDisk>> {
    Thawed {
        disk: FusedDisk::with_bad_reads(disk.restart(), u64::MAX, file, from),
    }
}

/// The same, which lies as this seed chooses.
pub(crate) fn lying(disk: MemoryDisk, seed: u64) -> Thawed<LyingDisk<MemoryDisk>> {
    Thawed {
        disk: LyingDisk::new(disk.restart(), seed),
    }
}

/// The same, whose call of this number fails, counted from 1; none with 0.
pub(crate) fn with_a_fault(disk: MemoryDisk, call: u64) -> Thawed<OneFaultDisk<MemoryDisk>> {
    Thawed {
        disk: OneFaultDisk::new(disk.restart(), call),
    }
}

/// The same disk, whose frozen files give other octets where they are damaged.
pub(crate) fn worn<D: Disk>(disk: Thawed<D>, wear: Wear) -> Thawed<WornDisk<D>> {
    let Thawed { disk } = disk;
    Thawed {
        disk: WornDisk::new(disk, wear),
    }
}

/// Which syncs and openings of a folder fail: the one after so many others, and each later one too where it lasts; and
/// whether the pages of a failed sync are dropped.
#[derive(Clone, Copy)]
pub(crate) struct Failure {
    pub(crate) after: u64,
    pub(crate) drops: bool,
    pub(crate) lasts: bool,
}

impl Failure {
    /// None fails.
    pub(crate) const NEVER: Failure = Failure {
        after: u64::MAX,
        drops: false,
        lasts: false,
    };
}

/// Why a folder in memory can't be had.
fn refusal_of(error: MemoryError) -> DiskError {
    match error {
        MemoryError::Refused => DiskError::Fault,
        MemoryError::OutOfMemory => DiskError::OutOfMemory,
    }
}

/// A folder in memory after the power was cut.
pub(crate) fn after_power_cut(
    alloc: Global,
    system: MemoryDirectory,
    failure: Failure,
) -> Result<Thawed<FolderDisk<MemoryDirectory>>, DiskError> {
    let mut system = match system.power_cut() {
        Ok(system) => system,
        Err(refused) => return Err(refusal_of(refused)),
    };
    system.fail_after(failure.after, failure.drops, failure.lasts);
    Ok(Thawed {
        disk: FolderDisk::new(alloc, system),
    })
}

/// A folder in memory without files, which has room for so many.
pub(crate) fn empty_folder(
    alloc: Global,
    files: usize,
) -> Result<Thawed<FolderDisk<MemoryDirectory>>, DiskError> {
    match MemoryDirectory::new(alloc, files) {
        Ok(system) => after_power_cut(alloc, system, Failure::NEVER),
        Err(refused) => Err(refusal_of(refused)),
    }
}
