//! The system, whose syncs and writes fail as a plan says.

use flow_folder::Lockable;
use std::alloc::{Alloc, Allocator, Global};
use std::cell::Cell;
use std::fs::{File, Files, Metadata, OpenFile, OpenOptions, Permissions, TryLockError};
use std::io::{self, ErrorKind, Read, Seek, SeekFrom, Write};
use std::os::fd::AsRawFd;
use std::os::unix::fs::{FileExt, MetadataExt};

/// How many of the next syncs fail, why no name can be looked up, if so, how many octets can still be written, and how
/// many writes, cuts and new files were made.
#[derive(Drop)]
pub(crate) struct Plan {
    pub(crate) failing: Cell<u32>,
    pub(crate) unseen: Cell<Option<ErrorKind>>,
    room: Cell<u64>,
    writes: Cell<u32>,
    cuts: Cell<u32>,
    made: Cell<u32>,
}

impl Plan {
    /// A plan by which nothing fails as yet, with room for so many octets.
    pub(crate) fn new(room: u64) -> Plan {
        Plan {
            failing: Cell::new(0),
            unseen: Cell::new(None),
            room: Cell::new(room),
            writes: Cell::new(0),
            cuts: Cell::new(0),
            made: Cell::new(0),
        }
    }

    /// How many writes, cuts and new files were made.
    pub(crate) fn counts(&self) -> [u32; 3] {
        [self.writes.get(), self.cuts.get(), self.made.get()]
    }
}

/// The system, but for what a plan lets fail, and as it is to who isn't root: nobody writes a read-only file.
#[derive(Clone, Copy)]
pub(crate) struct Failing<'a> {
    pub(crate) rt: &'a HostRuntime,
    pub(crate) plan: &'a Plan,
}

/// A file of it.
#[derive(Drop)]
pub(crate) struct FailingFile<'a> {
    file: File,
    plan: &'a Plan,
}

impl Alloc for Failing<'_> {
    type A = Global;

    fn alloc(&self) -> Global {
        self.rt.alloc()
    }
}

impl<'a> Files for Failing<'a> {
    type File = FailingFile<'a>;

    type Dir = <HostRuntime as Files>::Dir;

    fn open_file(&self, how: &OpenOptions, path: &str) -> io::Result<FailingFile<'a>> {
        if how.asks_create_new() {
            self.plan.made.set(self.plan.made.get().saturating_add(1));
        } else if how.asks_write() && self.rt.metadata(path)?.mode() & 0o200 == 0 {
            return Err(ErrorKind::PermissionDenied.into());
        }
        Ok(FailingFile {
            file: self.rt.open_file(how, path)?,
            plan: self.plan,
        })
    }

    fn open_dir(&self, path: &str) -> io::Result<<HostRuntime as Files>::Dir> {
        self.rt.open_dir(path)
    }

    fn metadata(&self, path: &str) -> io::Result<Metadata> {
        self.rt.metadata(path)
    }

    fn symlink_metadata(&self, path: &str) -> io::Result<Metadata> {
        match self.plan.unseen.get() {
            Some(why) => Err(why.into()),
            None => self.rt.symlink_metadata(path),
        }
    }

    fn copy(&self, from: &str, to: &str) -> io::Result<u64> {
        self.rt.copy(from, to)
    }

    fn rename(&self, from: &str, to: &str) -> io::Result<()> {
        self.rt.rename(from, to)
    }

    fn remove_file(&self, path: &str) -> io::Result<()> {
        self.rt.remove_file(path)
    }

    fn create_dir(&self, path: &str) -> io::Result<()> {
        self.rt.create_dir(path)
    }

    fn remove_dir(&self, path: &str) -> io::Result<()> {
        self.rt.remove_dir(path)
    }

    fn remove_dir_all<B: Allocator>(&self, alloc: B, path: &str) -> io::Result<()> {
        self.rt.remove_dir_all(alloc, path)
    }
}

impl Read for FailingFile<'_> {
    fn read(&mut self, buf: &mut [u8]) -> io::Result<usize> {
        self.file.read(buf)
    }
}

impl Write for FailingFile<'_> {
    fn write(&mut self, buf: &[u8]) -> io::Result<usize> {
        self.file.write(buf)
    }

    fn flush(&mut self) -> io::Result<()> {
        self.file.flush()
    }
}

impl Seek for FailingFile<'_> {
    fn seek(&mut self, to: SeekFrom) -> io::Result<u64> {
        self.file.seek(to)
    }
}

impl Lockable for FailingFile<'_> {
    fn try_lock(&self) -> Result<(), TryLockError> {
        self.file.try_lock()
    }

    fn try_lock_shared(&self) -> Result<(), TryLockError> {
        self.file.try_lock_shared()
    }

    fn descriptor(&self) -> i32 {
        self.file.as_raw_fd()
    }
}

impl OpenFile for FailingFile<'_> {
    fn metadata(&self) -> io::Result<Metadata> {
        self.file.metadata()
    }

    fn set_len(&self, size: u64) -> io::Result<()> {
        self.plan.cuts.set(self.plan.cuts.get().saturating_add(1));
        self.file.set_len(size)
    }

    fn set_permissions(&self, perm: Permissions) -> io::Result<()> {
        self.file.set_permissions(perm)
    }

    fn sync_all(&self) -> io::Result<()> {
        let failing = self.plan.failing.get();
        if failing > 0 {
            self.plan.failing.set(failing - 1);
            return Err(ErrorKind::Other.into());
        }
        self.file.sync_all()
    }

    fn sync_data(&self) -> io::Result<()> {
        self.sync_all()
    }
}

impl FileExt for FailingFile<'_> {
    fn read_at(&self, buf: &mut [u8], offset: u64) -> io::Result<usize> {
        self.file.read_at(buf, offset)
    }

    fn write_at(&self, buf: &[u8], offset: u64) -> io::Result<usize> {
        let room = self.plan.room.get();
        let count = room.min(buf.len() as u64) as usize;
        if count == 0 && !buf.is_empty() {
            return Err(ErrorKind::StorageFull.into());
        }
        let written = self.file.write_at(&buf[..count], offset)?;
        self.plan.room.set(room.saturating_sub(written as u64));
        self.plan
            .writes
            .set(self.plan.writes.get().saturating_add(1));
        Ok(written)
    }
}
