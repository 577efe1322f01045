// A folder of the system, by its handle.
use crate::first_fault::FirstFault;
use crate::found::{Opened, look_up};
use crate::marks::Marks;
use crate::naming::{file_marked_by, file_named, path_of};
use crate::system::{FolderError, Lockable};
use std::alloc::{AllocGlobal, Global};
use std::fs::{self, File, Files, OpenFile};
use std::io::{self, ErrorKind};
use std::os::unix::fs::{FileExt, MetadataExt};

/// Who may have a folder meanwhile.
#[derive(Clone, Copy, PartialEq, Eq)]
pub(crate) enum Hold {
    /// Nobody else.
    Alone,
    /// Others that only read it too.
    Shared,
}

/// A folder's handle, and a path by which this process reaches that folder, whatever its name is now.
#[derive(Drop)]
pub(crate) struct Place<F> {
    pub(crate) handle: F,
    pub(crate) path: String,
}

impl<F: OpenFile + Lockable + Drop> Place<F> {
    /// Opens and locks a folder that exists, and answers its marks too. Each entry with the name of a file has to be a
    /// regular file. What the system says of a call that fails is noted, where that is asked for.
    pub(crate) fn open<R: Files<File = F> + AllocGlobal + Clone + Drop>(
        rt: &R,
        path: &str,
        hold: Hold,
        first_fault: Option<&FirstFault>,
    ) -> Result<(Self, Marks), FolderError> {
        let opened = Self::looked_through(rt, path, hold);
        if let (Err(refused), Some(first)) = (&opened, first_fault) {
            if let Some(error) = refused.said() {
                first.note(error);
            }
        }
        opened
    }

    fn looked_through<R: Files<File = F> + AllocGlobal + Clone + Drop>(
        rt: &R,
        path: &str,
        hold: Hold,
    ) -> Result<(Self, Marks), FolderError> {
        let place = Self::lock(rt, path, hold)?;
        let marks = look_at_names(rt, place.path.as_str())?;
        Ok((place, marks))
    }

    fn lock<R: Files<File = F> + AllocGlobal>(
        rt: &R,
        path: &str,
        hold: Hold,
    ) -> Result<Self, FolderError> {
        let handle = File::open(rt, path)?;
        let opened = handle.metadata()?;
        if !opened.is_dir() {
            return Err(FolderError::NotAFolder);
        }
        match hold {
            Hold::Alone => handle.try_lock()?,
            Hold::Shared => handle.try_lock_shared()?,
        }
        let path = format!(in rt.alloc(); "/proc/self/fd/{}", handle.descriptor())?;
        match fs::metadata(rt, path.as_str()) {
            Ok(again) if again.dev() == opened.dev() && again.ino() == opened.ino() => {
                Ok(Place { handle, path })
            }
            _ => Err(FolderError::NoHandles),
        }
    }
}

/// Which marks may be there; an error where an entry with the name of a file isn't a regular file.
fn look_at_names<R: Files + AllocGlobal + Clone + Drop>(
    rt: &R,
    folder: &str,
) -> Result<Marks, FolderError> {
    let mut marks = Marks::new(rt.alloc());
    for entry in fs::read_dir(rt, folder)? {
        match entry {
            Ok(entry) => {
                if let Some(file) = file_named(entry.file_name()) {
                    look_at_name(rt, folder, file)?;
                }
                if let Some(file) = file_marked_by(entry.file_name()) {
                    marks.note(file)?;
                }
            }
            Err(e) if e.kind() == ErrorKind::InvalidFilename => {}
            Err(e) => return Err(e.into()),
        }
    }
    Ok(marks)
}

/// An error where the entry with this file's name isn't a regular file.
fn look_at_name<R: Files + AllocGlobal>(
    rt: &R,
    folder: &str,
    file: u64,
) -> Result<(), FolderError> {
    match look_up(rt, path_of(rt.alloc(), folder, file)?.as_str()) {
        Ok(_) => Ok(()),
        Err(e) if e.kind() == ErrorKind::InvalidInput => Err(FolderError::NotAFile(file)),
        Err(e) => Err(e.into()),
    }
}

/// The numbers of the files of a folder, in the system's order.
pub(crate) fn list_files<R: Files + AllocGlobal + Clone + Drop>(
    rt: &R,
    alloc: Global,
    folder: &str,
) -> io::Result<Vec<u64>> {
    let mut files = Vec::new(alloc);
    for entry in fs::read_dir(rt, folder)? {
        match entry {
            Ok(entry) => {
                if let Some(file) = file_named(entry.file_name()) {
                    files.push(file)?;
                }
            }
            Err(e) if e.kind() == ErrorKind::InvalidFilename => {}
            Err(e) => return Err(e),
        }
    }
    Ok(files)
}

/// Reads octets of a file of a folder from a place on. No octets are read of an absent file too.
pub(crate) fn read_file<R: Files + AllocGlobal>(
    rt: &R,
    folder: &str,
    file: u64,
    at: u64,
    octets: &mut [u8],
) -> io::Result<()>
where
    R::File: FileExt,
{
    if octets.is_empty() {
        return Ok(());
    }
    let path = path_of(rt.alloc(), folder, file)?;
    match Opened::look_into(rt, path.as_str())? {
        Some(opened) => opened.file.read_exact_at(octets, at),
        None => Err(ErrorKind::NotFound.into()),
    }
}
