// The files of a folder that is only read.
ghost use Rattle.std.specs.Prelude.{◌≡◌, IfOk};
ghost use Rattle.std.specs.List.Sorted.{IsStrictlyIncreasing};

use crate::first_fault::FirstFault;
use crate::found::{Found, Opened, look_up};
use crate::naming::path_of;
use crate::place::{Hold, Place, list_files};
use crate::reader::SystemReader;
use crate::system::{FolderError, Lockable};
use std::alloc::{AllocError, AllocGlobal, Global};
use std::fs::Files;
use std::io::{self, ErrorKind};
use std::os::unix::fs::FileExt;
use std::sync::Arc;

/// The files of a folder that is only read. No call of this value or of a frozen file that it gives makes, writes,
/// cuts, syncs, renames or removes a file, changes who may write one, or opens one for more than reading. Many such
/// values may have a folder at once, of this process and of others, and meanwhile none that changes it.
#[derive(Drop)]
pub struct FolderFiles<'a, R: Files> {
    rt: &'a R,
    first_fault: &'a FirstFault,
    place: Arc<Place<R::File>>,
    last: Option<Last<R::File>>,
}

/// The file that was looked at last, as its name was found, and its handle once it was read: it stays open, since the
/// next piece that is read is mostly of it.
#[derive(Drop)]
struct Last<F> {
    number: u64,
    found: Found,
    handle: Option<F>,
}

impl<'a, R: Files + AllocGlobal + Clone + Drop> FolderFiles<'a, R>
where
    R::File: FileExt + Lockable,
{
    /// Opens a folder that exists, and locks it against values that change it as long as this one or a frozen file of
    /// it exists. Each entry with the name of a file has to be a regular file. What the system says of the first call
    /// that fails is noted.
    pub fn open(rt: &'a R, folder: &str, first_fault: &'a FirstFault) -> Result<Self, FolderError> {
        let (place, _) = Place::open(rt, folder, Hold::Shared, Some(first_fault))?;
        Ok(FolderFiles {
            rt,
            first_fault,
            place: Arc::new(rt.alloc(), place)?,
            last: None,
        })
    }

    /// Notes what the system said of a call that failed.
    pub fn note(&self, error: &io::Error) {
        self.first_fault.note(error);
    }

    /// How many octets a file has. It is looked for by its name, which isn't looked at again to open it or to lend it
    /// next.
    pub fn length(&mut self, file: u64) -> io::Result<u64> {
        self.last = None;
        match look_up(self.rt, self.path_of(file)?.as_str())? {
            Some(found) => {
                self.last = Some(Last {
                    number: file,
                    found,
                    handle: None,
                });
                Ok(found.length)
            }
            None => Ok(0),
        }
    }

    /// Reads octets of a file from a place on. No octets are read of an absent file too.
    pub fn read(&mut self, file: u64, at: u64, octets: &mut [u8]) -> io::Result<()> {
        if octets.is_empty() {
            return Ok(());
        }
        if !self.is_open(file) {
            self.open_file(file)?;
        }
        match &self.last {
            Some(
                Last {
                    handle: Some(handle),
                    ..
                },
            ) => handle.read_exact_at(octets, at),
            _ => Err(ErrorKind::NotFound.into()),
        }
    }

    /// Whether a file is open.
    fn is_open(&self, file: u64) -> bool {
        match &self.last {
            Some(last) => last.number == file && last.handle.is_some(),
            None => false,
        }
    }

    /// Opens a file that exists; the one that was open is closed.
    fn open_file(&mut self, file: u64) -> io::Result<()> {
        let path = self.path_of(file)?;
        let Some(found) = self.look_at(file, path.as_str())? else {
            return Err(ErrorKind::NotFound.into());
        };
        self.last = None;
        let opened = Opened::open(self.rt, path.as_str(), found, false)?;
        self.last = Some(Last {
            number: file,
            found: opened.found,
            handle: Some(opened.file),
        });
        Ok(())
    }

    /// What the name of a file led to, at the last look if that was at this one; there may be no such name.
    fn look_at(&self, file: u64, path: &str) -> io::Result<Option<Found>> {
        match &self.last {
            Some(last) if last.number == file => Ok(Some(last.found)),
            _ => look_up(self.rt, path),
        }
    }

    /// The files' numbers, ascending.
    pub fn list(&self, alloc: Global) -> io::Result<Vec<u64>>
        ensures ascending { IfOk result (λ files. IsStrictlyIncreasing files.items) }
    {
        let mut files = list_files(self.rt, alloc, self.place.path.as_str())?;
        files.sort_unstable();
        files.dedup();
        Ok(files)
    }

    /// A value that reads a file, which has at least `size` octets.
    pub fn reader(&self, file: u64, size: u64) -> io::Result<SystemReader<'a, R>>
        ensures { IfOk result (λ reader. reader.file ≡ file) }
    {
        match self.look_at(file, self.path_of(file)?.as_str())? {
            Some(found) if found.length >= size => {}
            None if size == 0 => {}
            _ => return Err(ErrorKind::UnexpectedEof.into()),
        }
        Ok(SystemReader {
            rt: self.rt,
            first_fault: Some(self.first_fault),
            place: Arc::try_clone(&self.place)?,
            file,
        })
    }

    /// The path of a file by the folder's handle.
    fn path_of(&self, file: u64) -> Result<String, AllocError> {
        path_of(self.rt.alloc(), self.place.path.as_str(), file)
    }
}
