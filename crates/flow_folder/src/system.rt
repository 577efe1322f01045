// What a disk needs of the system's files beyond the traits of std.
use std::alloc::{AllocError, AllocFailed};
use std::fs::{File, TryLockError};
use std::io::{self, ErrorKind};
use std::os::fd::AsRawFd;

/// A file or folder that can be locked against other handles, of this process and of others, and that this process
/// names by a number.
pub trait Lockable {
    /// Locks it, where nobody else has. The lock ends with the last handle of this opening.
    fn try_lock(&self) -> Result<(), TryLockError>;

    /// Locks it together with others that do so, where nobody has it alone. The lock ends in the same way.
    fn try_lock_shared(&self) -> Result<(), TryLockError>;

    /// Its number among the open files of this process.
    fn descriptor(&self) -> i32;
}

impl Lockable for File {
    fn try_lock(&self) -> Result<(), TryLockError> {
        self.try_lock()
    }

    fn try_lock_shared(&self) -> Result<(), TryLockError> {
        self.try_lock_shared()
    }

    fn descriptor(&self) -> i32 {
        self.as_raw_fd()
    }
}

/// Why a folder can't be opened as a disk.
#[derive(Debug, Drop)]
pub enum FolderError {
    /// There is nothing at this path.
    NotThere,
    /// There is a file at this path, or another thing that is no folder.
    NotAFolder,
    /// Another value has it, of this process or another.
    InUse,
    /// The name of this file is that of a symbolic link, a folder, a pipe or a device.
    NotAFile(u64),
    /// The system can't lock it, as where its file system has no locks.
    NoLock(io::Error),
    /// The system's list of open files, `/proc/self/fd`, isn't there.
    NoHandles,
    /// Memory was refused.
    OutOfMemory,
    /// The system refused it otherwise.
    Refused(io::Error),
}

impl FolderError {
    /// What the system said of the call that failed, where it isn't said otherwise.
    pub(crate) fn said(&self) -> Option<&io::Error> {
        match self {
            FolderError::NoLock(error) | FolderError::Refused(error) => Some(error),
            _ => None,
        }
    }
}

impl From<io::Error> for FolderError {
    fn from(error: io::Error) -> Self {
        match error.kind() {
            ErrorKind::NotFound | ErrorKind::NotADirectory => FolderError::NotThere,
            ErrorKind::OutOfMemory => FolderError::OutOfMemory,
            _ => FolderError::Refused(error),
        }
    }
}

impl From<TryLockError> for FolderError {
    fn from(error: TryLockError) -> Self {
        match error {
            TryLockError::WouldBlock => FolderError::InUse,
            TryLockError::Error(error) => FolderError::NoLock(error),
        }
    }
}

impl From<AllocError> for FolderError {
    fn from(_: AllocError) -> Self {
        FolderError::OutOfMemory
    }
}

impl<T: Drop> From<AllocFailed<T>> for FolderError {
    fn from(_: AllocFailed<T>) -> Self {
        FolderError::OutOfMemory
    }
}
