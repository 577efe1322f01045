// Marks by names.
use crate::found::Found;
use crate::naming::mark_path_of;
use std::alloc::{AllocError, AllocGlobal, Global};
use std::collections::BTreeSet;
use std::fs::{self, FileTimes, Files, Metadata, OpenFile, OpenOptions};
use std::io::{self, ErrorKind};
use std::os::unix::fs::{MetadataExt, OpenOptionsExt};
use std::time::SystemTime;

/// Who may read a new mark, where the process's mask allows it. Nobody has to write it.
const NEW_MARK: u32 = 0o440;

/// In a folder of this mode a name is its owner's, and others can't take it away.
const STICKY: u32 = 0o1000;

/// The permission of a group to write.
const GROUP_WRITES: u32 = 0o020;

/// That of all others.
const ALL_WRITE: u32 = 0o002;

/// When a file was changed last: seconds, and nanoseconds.
pub(crate) type Changed = (i64, i64);

/// When a file was changed last.
pub(crate) fn changed(metadata: &Metadata) -> Changed {
    (metadata.mtime(), metadata.mtime_nsec())
}

/// The files that are marked as settled by a name beside them, since their mode can't say so: that of an empty file,
/// which has the time of change that its file had then. So a file that was written by a program which knows of no marks
/// isn't marked any more. What is kept is which of the names may be there.
#[derive(Drop)]
pub(crate) struct Marks {
    files: BTreeSet<u64>,
}

impl Marks {
    /// No name is there.
    pub(crate) fn new(alloc: Global) -> Marks {
        Marks {
            files: BTreeSet::new(alloc),
        }
    }

    /// The name that marks this file may be there.
    pub(crate) fn note(&mut self, file: u64) -> Result<(), AllocError> {
        let _ = self.files.insert(file)?;
        Ok(())
    }

    /// Whether a file is marked, which was found so.
    pub(crate) fn has<R: Files + AllocGlobal>(
        &self,
        rt: &R,
        folder: &str,
        file: u64,
        found: Found,
    ) -> io::Result<bool> {
        if !self.files.contains(&file) {
            return Ok(false);
        }
        let path = mark_path_of(rt.alloc(), folder, file)?;
        Ok(time_of_mark(rt, path.as_str())? == Some(found.changed))
    }

    /// Takes the mark of a file away, where there is one. Another thing of that name stays.
    pub(crate) fn remove<R: Files + AllocGlobal>(
        &mut self,
        rt: &R,
        folder: &str,
        file: u64,
    ) -> io::Result<()> {
        if !self.files.contains(&file) {
            return Ok(());
        }
        let path = mark_path_of(rt.alloc(), folder, file)?;
        if time_of_mark(rt, path.as_str())?.is_some() {
            fs::remove_file(rt, path.as_str())?;
        }
        let _ = self.files.remove(&file);
        Ok(())
    }

    /// Marks a file, which was changed last at this time.
    pub(crate) fn make<R: Files + AllocGlobal>(
        &mut self,
        rt: &R,
        folder: &str,
        file: u64,
        changed: SystemTime,
    ) -> io::Result<()> {
        self.remove(rt, folder, file)?;
        self.note(file)?;
        let path = mark_path_of(rt.alloc(), folder, file)?;
        let mark = OpenOptions::new()
            .write(true)
            .create_new(true)
            .mode(NEW_MARK)
            .open(rt, path.as_str())?;
        mark.set_times(FileTimes::new().set_modified(changed))
    }
}

/// The time of the mark at this path; of no other thing there.
fn time_of_mark<R: Files>(rt: &R, path: &str) -> io::Result<Option<Changed>> {
    match fs::symlink_metadata(rt, path) {
        Ok(found) if found.is_file() && found.len() == 0 => Ok(Some(changed(&found))),
        Ok(_) => Ok(None),
        Err(e) if e.kind() == ErrorKind::NotFound => Ok(None),
        Err(e) => Err(e),
    }
}

/// Whether all who may write a file, by its mode, may take names of its folder away: else they couldn't change it once
/// it is marked.
pub(crate) fn may_be_marked(folder: &Metadata, file: &Metadata) -> bool {
    let all = folder.mode() & ALL_WRITE != 0;
    let group = folder.mode() & GROUP_WRITES != 0 && folder.gid() == file.gid();
    let owner = folder.uid() == file.uid() && file.mode() & GROUP_WRITES == 0;
    folder.mode() & STICKY == 0 && (all || file.mode() & ALL_WRITE == 0 && (group || owner))
}
