// Files of the system, found by their names.
use crate::marks::{Changed, changed};
use std::fs::{self, Files, Metadata, OpenFile, OpenOptions, Permissions};
use std::io::{self, ErrorKind};
use std::os::unix::fs::{FileExt, MetadataExt, OpenOptionsExt, PermissionsExt};

/// The permissions to write.
const WRITE: u32 = 0o222;

/// The permission of a file's owner to write it.
const OWNER_WRITES: u32 = 0o200;

/// Those of others than its owner.
const OTHERS_WRITE: u32 = 0o022;

/// The permissions among the octal digits of a mode.
const PERMISSIONS: u32 = 0o7777;

/// Who may read and write a new file, where the process's mask allows it: its owner both, its group the first.
const NEW: u32 = 0o640;

/// What a name led to. It is read-only where its permissions allowed nobody to write it.
#[derive(Clone, Copy)]
pub(crate) struct Found {
    dev: u64,
    ino: u64,
    mode: u32,
    uid: u32,
    gid: u32,
    pub(crate) length: u64,
    pub(crate) read_only: bool,
    pub(crate) changed: Changed,
    status_changed: Changed,
}

impl Found {
    /// What this metadata says.
    fn of(metadata: &Metadata) -> Found {
        Found {
            dev: metadata.dev(),
            ino: metadata.ino(),
            mode: metadata.mode(),
            uid: metadata.uid(),
            gid: metadata.gid(),
            length: metadata.len(),
            read_only: metadata.mode() & WRITE == 0,
            changed: changed(metadata),
            status_changed: (metadata.ctime(), metadata.ctime_nsec()),
        }
    }

    /// Whether both are one file.
    fn is_same(self, other: Found) -> bool {
        self.dev == other.dev && self.ino == other.ino
    }

    /// Whether this is the file of an earlier look, and who may open it can't have changed since: it has the same mode
    /// and owners, and what was changed last, if anything was, are its octets. (A write gives a file one time for both.
    /// Access lists and the flags of chattr are in no mode; what changes these gives a file the other time alone.)
    fn is_as_it_was(self, earlier: Found) -> bool {
        let owned = self.uid == earlier.uid && self.gid == earlier.gid;
        let unchanged = self.status_changed == earlier.status_changed;
        let written = self.status_changed == self.changed;
        self.is_same(earlier) && self.mode == earlier.mode && owned && (unchanged || written)
    }
}

/// A file that is open, to be changed or to be read alone, what it was found as when it was opened, its mode, and
/// whether its handle is sound: each call on it was good, and none was to change the mode.
#[derive(Drop)]
pub(crate) struct Opened<F> {
    pub(crate) file: F,
    pub(crate) found: Found,
    mode: u32,
    write: bool,
    pub(crate) sound: bool,
}

impl<F: FileExt + OpenFile + Drop> Opened<F> {
    /// Opens a file by its name, to be read, and to be written too where that is asked; an error where the name leads
    /// to another one than a look at it found.
    pub(crate) fn open<R: Files<File = F>>(
        rt: &R,
        path: &str,
        named: Found,
        write: bool,
    ) -> io::Result<Self> {
        let file = OpenOptions::new().read(true).write(write).open(rt, path)?;
        let metadata = file.metadata()?;
        let found = Found::of(&metadata);
        if !found.is_same(named) {
            return Err(ErrorKind::InvalidInput.into());
        }
        let mode = metadata.mode();
        Ok(Opened {
            file,
            found,
            mode,
            write,
            sound: true,
        })
    }

    /// The same file by the same handle, opened once more after it was closed, where it is to be opened for the same as
    /// before, and a look at its name since has found this very file, as it was. It has to be sound.
    pub(crate) fn again(self, named: Found, write: bool) -> Option<Self> {
        if self.write != write || !named.is_as_it_was(self.found) {
            return None;
        }
        let mut opened = self;
        opened.found = named;
        opened.mode = named.mode;
        Some(opened)
    }

    /// Opens the file of this name to be read; there may be none.
    pub(crate) fn look_into<R: Files<File = F>>(rt: &R, path: &str) -> io::Result<Option<Self>> {
        match look_up(rt, path)? {
            Some(named) => Ok(Some(Self::open(rt, path, named, false)?)),
            None => Ok(None),
        }
    }

    /// Makes a new file, which its owner may write whatever the process's mask is.
    pub(crate) fn create<R: Files<File = F>>(rt: &R, path: &str) -> io::Result<Self> {
        let file = OpenOptions::new()
            .read(true)
            .write(true)
            .create_new(true)
            .mode(NEW)
            .open(rt, path)?;
        let metadata = file.metadata()?;
        let found = Found::of(&metadata);
        let mode = metadata.mode() & NEW | OWNER_WRITES;
        if found.read_only {
            file.set_permissions(Permissions::from_mode(mode))?;
        }
        Ok(Opened {
            file,
            found,
            mode,
            write: true,
            sound: true,
        })
    }

    /// What a call on it answered.
    fn answered<T>(&mut self, answer: io::Result<T>) -> io::Result<T> {
        if answer.is_err() {
            self.sound = false;
        }
        answer
    }

    /// How many octets it has.
    pub(crate) fn length(&mut self) -> io::Result<u64> {
        let metadata = self.file.metadata();
        Ok(self.answered(metadata)?.len())
    }

    /// Reads octets from a place on.
    pub(crate) fn read(&mut self, at: u64, octets: &mut [u8]) -> io::Result<()> {
        let read = self.file.read_exact_at(octets, at);
        self.answered(read)
    }

    /// Writes octets at a place.
    pub(crate) fn write(&mut self, at: u64, octets: &[u8]) -> io::Result<()> {
        let written = self.file.write_all_at(octets, at);
        self.answered(written)
    }

    /// Cuts it to so many octets.
    pub(crate) fn set_length(&mut self, count: u64) -> io::Result<()> {
        let cut = self.file.set_len(count);
        self.answered(cut)
    }

    /// Syncs it.
    pub(crate) fn sync(&mut self) -> io::Result<()> {
        let synced = self.file.sync_all();
        self.answered(synced)
    }

    /// Takes from everyone the permission to write it. It isn't taken from a file that is open to be changed where others
    /// than its owner may write it: they couldn't give it back, and couldn't change it again.
    pub(crate) fn take_permission(&mut self) -> io::Result<()> {
        self.sound = false;
        if self.write && self.mode & OTHERS_WRITE != 0 {
            return Err(ErrorKind::PermissionDenied.into());
        }
        self.set_mode(self.mode & !WRITE)
    }

    /// Gives its owner the permission to write it, where nobody has it.
    pub(crate) fn give_permission(&mut self) -> io::Result<()> {
        self.sound = false;
        if self.mode & WRITE != 0 {
            return Ok(());
        }
        self.set_mode(self.mode | OWNER_WRITES)
    }

    fn set_mode(&mut self, mode: u32) -> io::Result<()> {
        self.file
            .set_permissions(Permissions::from_mode(mode & PERMISSIONS))?;
        self.mode = mode;
        Ok(())
    }
}

/// What this name leads to, if there is such a name; an error where that is no regular file.
pub(crate) fn look_up<R: Files>(rt: &R, path: &str) -> io::Result<Option<Found>> {
    match fs::symlink_metadata(rt, path) {
        Ok(named) if named.is_file() => Ok(Some(Found::of(&named))),
        Ok(_) => Err(ErrorKind::InvalidInput.into()),
        Err(e) if e.kind() == ErrorKind::NotFound => Ok(None),
        Err(e) => Err(e),
    }
}
