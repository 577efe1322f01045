// A folder of the system.
use crate::error::SystemError;
use crate::first_fault::FirstFault;
use crate::found::{Found, Opened, look_up};
use crate::marks::{Marks, may_be_marked};
use crate::naming::path_of;
use crate::place::{Hold, Place, list_files};
use crate::reader::SystemReader;
use crate::system::{FolderError, Lockable};
use flow_directory::{Access, Directory, Status};
use std::alloc::{AllocError, AllocGlobal, Global};
use std::collections::BTreeMap;
use std::fs::{self, Files, OpenFile};
use std::io::ErrorKind;
use std::os::unix::fs::FileExt;
use std::sync::Arc;

/// A folder of the system, locked as long as a handle of it is open, its files that are open, and those that are marked
/// by a name. What the last look at a name found is kept, so that a file that is opened then is known to be that one.
///
/// The handle of the file that was closed last is kept too, since a segment is closed after each sync, and opened again
/// for the next write. It is used once more where the file is opened for the same as before, and a look at its name
/// since it was closed (`looked_since`) found this very file, of the same mode and owners: to open the name would give
/// no other file, and wouldn't be refused. It is closed before another file is opened, made or removed, and where
/// another one is closed. One on which a call failed, or that was to change the mode, isn't kept: so after a sync that
/// failed the file is opened by its name.
#[derive(Drop)]
pub struct SystemDirectory<'a, R: Files> {
    rt: &'a R,
    first_fault: Option<&'a FirstFault>,
    place: Arc<Place<R::File>>,
    open: BTreeMap<u64, Opened<R::File>>,
    kept: Option<(u64, Opened<R::File>)>,
    looked: Option<(u64, Found)>,
    looked_since: bool,
    marks: Marks,
}

impl<'a, R: Files + AllocGlobal + Clone + Drop> SystemDirectory<'a, R>
where
    R::File: FileExt + Lockable,
{
    /// Opens a folder that exists, and locks it as long as the directory or a reader of it exists. Each entry with the
    /// name of a file has to be a regular file. What the system says of the first call that fails is noted, where that
    /// is asked for.
    pub fn open(
        rt: &'a R,
        path: &str,
        first_fault: Option<&'a FirstFault>,
    ) -> Result<Self, FolderError> {
        let (place, marks) = Place::open(rt, path, Hold::Alone, first_fault)?;
        Ok(SystemDirectory {
            rt,
            first_fault,
            place: Arc::new(rt.alloc(), place)?,
            open: BTreeMap::new(rt.alloc()),
            kept: None,
            looked: None,
            looked_since: false,
            marks,
        })
    }

    /// The path of a file by the folder's handle.
    fn path_of(&self, file: u64) -> Result<String, AllocError> {
        path_of(self.rt.alloc(), self.place.path.as_str(), file)
    }

    /// What the last look at this name found, or a look now.
    fn looked_at(&mut self, file: u64, path: &str) -> Result<Found, SystemError> {
        match self.looked {
            Some((number, found)) if number == file => Ok(found),
            _ => match look_up(self.rt, path)? {
                Some(found) => Ok(found),
                None => Err(ErrorKind::NotFound.into()),
            },
        }
    }

    /// How many octets a file has that was found, and whether it counts as read-only: nobody may write it, or it is
    /// marked.
    fn status_of(&self, file: u64, found: Found) -> Result<Status, SystemError> {
        let folder = self.place.path.as_str();
        let read_only = found.read_only || self.marks.has(self.rt, folder, file, found)?;
        Ok(Status {
            length: found.length,
            read_only,
        })
    }

    /// Opens a file by its name.
    fn open_by_name(&mut self, file: u64, write: bool) -> Result<Opened<R::File>, SystemError> {
        let path = self.path_of(file)?;
        let named = self.looked_at(file, path.as_str())?;
        let _ = self.open.remove(&file);
        Ok(Opened::open(self.rt, path.as_str(), named, write)?)
    }

    /// The file that was closed last, opened again, where it is this one, and a look at its name since then found it as
    /// it was. Else its handle is closed.
    fn open_again(&mut self, file: u64, write: bool) -> Option<Opened<R::File>> {
        let (closed, opened) = self.kept.take()?;
        match self.looked {
            Some((looked, found)) if self.looked_since && looked == file && closed == file => {
                opened.again(found, write)
            }
            _ => None,
        }
    }

    /// A file that is open.
    fn opened(&mut self, file: u64) -> Result<&mut Opened<R::File>, SystemError> {
        match self.open.get_mut(&file) {
            Some(opened) => Ok(opened),
            None => Err(ErrorKind::NotFound.into()),
        }
    }

    /// Takes the mark of a file away, where it is marked by a name.
    fn unmark(&mut self, file: u64) -> Result<(), SystemError> {
        self.marks.remove(self.rt, self.place.path.as_str(), file)?;
        Ok(())
    }

    /// Marks an open file by a name, where all who may write the file may take that name away.
    fn mark(&mut self, file: u64) -> Result<(), SystemError> {
        let found = self.opened(file)?.file.metadata()?;
        if !may_be_marked(&self.place.handle.metadata()?, &found) {
            return Err(ErrorKind::PermissionDenied.into());
        }
        let folder = self.place.path.as_str();
        self.marks.make(self.rt, folder, file, found.modified()?)?;
        Ok(())
    }

    /// Takes the permission to write an open file from everyone. Where that isn't to be, or this user may not do it, the
    /// file is marked by a name.
    fn take_permission(&mut self, file: u64) -> Result<(), SystemError> {
        match self.opened(file)?.take_permission() {
            Err(e) if e.kind() == ErrorKind::PermissionDenied => self.mark(file),
            taken => Ok(taken?),
        }
    }

    /// Takes the mark of an open file away, and gives its owner the permission to write it, where nobody has it.
    fn give_permission(&mut self, file: u64) -> Result<(), SystemError> {
        self.unmark(file)?;
        self.opened(file)?.give_permission()?;
        Ok(())
    }

    /// Takes a name away, and the mark of the file before it. Answers whether it was there.
    fn take_name(&mut self, file: u64) -> Result<bool, SystemError> {
        let path = self.path_of(file)?;
        let _ = self.open.remove(&file);
        self.kept = None;
        self.looked = None;
        self.unmark(file)?;
        match fs::remove_file(self.rt, path.as_str()) {
            Ok(()) => Ok(true),
            Err(e) if e.kind() == ErrorKind::NotFound => Ok(false),
            Err(e) => Err(e.into()),
        }
    }

    /// Writes octets at a place of an open file.
    fn put(&mut self, file: u64, at: u64, octets: &[u8]) -> Result<(), SystemError> {
        self.opened(file)?.write(at, octets)?;
        Ok(())
    }

    /// Cuts an open file.
    fn set_length(&mut self, file: u64, count: u64) -> Result<(), SystemError> {
        self.opened(file)?.set_length(count)?;
        Ok(())
    }
}

impl<'a, R: Files + AllocGlobal + Clone + Drop> Directory for SystemDirectory<'a, R>
where
    R::File: FileExt + Lockable,
{
    type Error = SystemError;

    type Reader = SystemReader<'a, R>;

    ghost use Rattle.std.specs.Prelude.{false};
    ghost use Rattle.flow_folder.specs.Honesty.{never, nothing};

    ghost honest = { λ _. false };

    ghost files = { λ _ n. nothing };

    ghost moment = { λ _. 0 };

    ghost left_since = { λ _ t image. ⊥ };

    ghost absent = { λ d n h is. never h };

    ghost absent_clean = { λ d n h is. never h };

    ghost named = { λ d n h some. never h };

    ghost read_only_clean = { λ d n h is. never h };

    ghost lent_clean = { λ d n h is. never h };

    ghost within = { λ d n place h is. never h };

    ghost within_limit = { λ d n h. never h };

    ghost reads_image = { λ d n h. never h };

    ghost fast_within = { λ d n h. never h };

    ghost fast_whole = { λ d n h is. never h };

    ghost counts_now = { λ d t image h le is. never h };

    ghost only_now = { λ d image h left. never h };

    fn note(&self, error: &SystemError) {
        if let Some(first) = self.first_fault {
            first.note(&error.said);
        }
    }

    fn status(&mut self, file: u64) -> Result<Option<Status>, SystemError> {
        let path = self.path_of(file)?;
        self.looked = None;
        let Some(found) = look_up(self.rt, path.as_str())? else {
            return Ok(None);
        };
        self.looked = Some((file, found));
        self.looked_since = true;
        Ok(Some(self.status_of(file, found)?))
    }

    fn list(&mut self, alloc: Global) -> Result<Vec<u64>, SystemError> {
        Ok(list_files(self.rt, alloc, self.place.path.as_str())?)
    }

    fn open(&mut self, file: u64, access: Access) -> Result<Status, SystemError> {
        let write = access == Access::Write;
        let opened = match self.open_again(file, write) {
            Some(opened) => opened,
            None => self.open_by_name(file, write)?,
        };
        let status = self.status_of(file, opened.found)?;
        if write && !status.read_only {
            self.unmark(file)?;
        }
        self.open.insert(file, opened)?;
        Ok(status)
    }

    fn close(&mut self, file: u64) {
        if let Some(opened) = self.open.remove(&file) {
            self.kept = None;
            self.looked_since = false;
            if opened.sound {
                self.kept = Some((file, opened));
            }
        }
    }

    fn create(&mut self, file: u64) -> Result<(), SystemError> {
        self.kept = None;
        self.unmark(file)?;
        let path = self.path_of(file)?;
        let made = Opened::create(self.rt, path.as_str())?;
        self.open.insert(file, made)?;
        Ok(())
    }

    fn unlink(&mut self, file: u64) -> Result<bool, SystemError> {
        self.take_name(file)
    }

    fn unlink_empty(&mut self, file: u64) -> Result<bool, SystemError> {
        self.take_name(file)
    }

    fn sync_directory(&mut self) -> Result<(), SystemError> {
        self.place.handle.sync_all()?;
        Ok(())
    }

    fn settle(&mut self, _file: u64) -> Result<(), SystemError> {
        Ok(())
    }

    fn loosen(&mut self, _file: u64) -> Result<(), SystemError> {
        Ok(())
    }

    fn set_read_only(&mut self, file: u64, read_only: bool) -> Result<(), SystemError> {
        if read_only {
            self.take_permission(file)
        } else {
            self.give_permission(file)
        }
    }

    fn length(&mut self, file: u64) -> Result<u64, SystemError> {
        Ok(self.opened(file)?.length()?)
    }

    fn read(&mut self, file: u64, at: u64, octets: &mut [u8]) -> Result<(), SystemError> {
        self.opened(file)?.read(at, octets)?;
        Ok(())
    }

    fn write(&mut self, file: u64, at: u64, octets: &[u8]) -> Result<(), SystemError> {
        self.put(file, at, octets)
    }

    fn rewrite(&mut self, file: u64, at: u64, octets: &[u8]) -> Result<(), SystemError> {
        self.put(file, at, octets)
    }

    fn truncate(&mut self, file: u64, count: u64) -> Result<(), SystemError> {
        self.set_length(file, count)
    }

    fn retruncate(&mut self, file: u64, count: u64) -> Result<(), SystemError> {
        self.set_length(file, count)
    }

    fn sync(&mut self, file: u64) -> Result<(), SystemError> {
        self.opened(file)?.sync()?;
        Ok(())
    }

    fn lend(&mut self, file: u64) -> Result<SystemReader<'a, R>, SystemError> {
        Ok(SystemReader {
            rt: self.rt,
            first_fault: self.first_fault,
            place: Arc::try_clone(&self.place)?,
            file,
        })
    }

    fn take_back(&mut self, _reader: SystemReader<'a, R>) {}
}
