//! Calls of a disk, as rows of tables.

ghost use Rattle.std.specs.Prelude.{◌≡◌, ℕ, false};

use flow_disk::{Disk, DiskError, Faults, SealedFile};
use std::alloc::Global;

/// A call, and what it gives.
#[derive(Clone, Copy)]
pub(crate) enum Call<'a> {
    /// Writes octets to a file from a place on.
    Write(u64, u64, &'a [u8]),
    /// Cuts a file to so many octets.
    Cut(u64, u64),
    /// Syncs a file.
    Sync(u64),
    /// Removes a file.
    Remove(u64),
    /// A file has so many octets.
    Length(u64, u64),
    /// A file has these octets from a place on.
    Read(u64, u64, &'a [u8]),
    /// There are these files.
    Files(&'a [u64]),
}

/// A disk on which nothing is frozen: its calls look first whether they may be made.
#[derive(Drop)]
pub(crate) struct Thawed<D: Disk> {
    pub(crate) disk: D,
    ghost thawed: { (n : ℕ) → (D.marks disk n).frozen ≡ false },
}

impl<D: Disk> Thawed<D> {
    /// Writes octets at a place.
    fn write(&mut self, file: u64, at: u64, octets: &[u8]) -> Result<bool, DiskError> {
        if self.disk.length(file)? < at {
            return Ok(false);
        }
        self.disk.write_at(file, at, octets)?;
        Ok(true)
    }

    /// Cuts a file to so many octets.
    fn cut(&mut self, file: u64, count: u64) -> Result<bool, DiskError> {
        if self.disk.length(file)? < count {
            return Ok(false);
        }
        self.disk.cut(file, count)?;
        Ok(true)
    }

    /// Settles a file.
    fn sync(&mut self, file: u64) -> Result<bool, DiskError> {
        self.disk.sync(file)?;
        Ok(true)
    }

    /// Removes a file.
    fn remove(&mut self, file: u64) -> Result<bool, DiskError> {
        self.disk.remove(file)?;
        Ok(true)
    }

    /// Whether a file has these octets from a place on.
    fn has(&mut self, alloc: Global, file: u64, at: u64, wanted: &[u8]) -> Result<bool, DiskError> {
        let count = self.disk.length(file)?;
        if count < at || count - at < wanted.len() as u64 {
            return Ok(false);
        }
        let octets = self.disk.read(alloc, file, at, wanted.len())?;
        Ok(octets.as_slice() == wanted)
    }

    /// Makes a call: whether it gives what it says.
    fn gives(&mut self, alloc: Global, call: Call<'_>) -> Result<bool, DiskError> {
        match call {
            Call::Write(file, at, octets) => self.write(file, at, octets),
            Call::Cut(file, count) => self.cut(file, count),
            Call::Sync(file) => self.sync(file),
            Call::Remove(file) => self.remove(file),
            Call::Length(file, count) => Ok(self.disk.length(file)? == count),
            Call::Read(file, at, octets) => self.has(alloc, file, at, octets),
            Call::Files(files) => Ok(self.disk.files(alloc)?.as_slice() == files),
        }
    }

    /// Makes a call: whether it gives what it says, or is refused as a fault, where that is wanted.
    pub(crate) fn answers(&mut self, alloc: Global, call: Call<'_>, is_fault: bool) -> bool {
        match self.gives(alloc, call) {
            Ok(gives) => gives && !is_fault,
            Err(DiskError::Fault) => is_fault,
            Err(_) => false,
        }
    }

    /// Settles file 3 and freezes it. Then the disk is given up.
    pub(crate) fn freeze(self) -> Result<D::Sealed, DiskError> {
        let mut disk = self.disk;
        disk.sync(3)?;
        disk.freeze(3)
    }

    /// Freezes file 3, which has just these octets, and removes it: whether it is so before, while and after it is
    /// frozen.
    pub(crate) fn retire(self, alloc: Global, octets: &[u8]) -> Result<bool, DiskError> {
        let mut disk = self.disk;
        disk.sync(3)?;
        let sealed = disk.freeze(3)?;
        let is_so = is_frozen(alloc, &sealed, octets)?;
        let length = disk.length(3)?;
        disk.retire(sealed)?;
        Ok(is_so && length == octets.len() as u64 && disk.length(3)? == 0)
    }
}

/// Whether a frozen file is file 3, and has just these octets.
fn is_frozen<S: SealedFile>(alloc: Global, sealed: &S, octets: &[u8]) -> Result<bool, DiskError> {
    if sealed.file() != 3 || sealed.length() != octets.len() as u64 {
        return Ok(false);
    }
    let read = sealed.read(alloc, &mut Faults::new(), 0, octets.len())?;
    Ok(read.as_slice() == octets)
}

/// Whether reading so many octets of a frozen file from a place on meets a fault, where its value says it has them.
pub(crate) fn is_short<S: SealedFile>(alloc: Global, sealed: &S, at: u64, count: usize) -> bool {
    let length = sealed.length();
    if length < at || length - at < count as u64 {
        return false;
    }
    sealed.read(alloc, &mut Faults::new(), at, count) == Err(DiskError::Fault)
}
