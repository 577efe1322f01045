//! The end of a command over a folder.

ghost use Rattle.std.specs.Prelude.{◌≡◌};
ghost use Rattle.flow_commands.specs.Rolling.{done_of};

use flow_archive::{Archive, Refused};
use flow_directory::Directory;
use flow_disk::Disk;
use flow_folder_disk::FolderDisk;
use std::alloc::Global;

/// A disk that a command had for itself.
pub trait Leave: Drop {
    /// Leaves it to others. What is settled is marked so before, where the disk has marks, so that whoever has it next
    /// writes nothing of it again. Nothing that it holds is changed.
    fn leave(self, alloc: Global);
}

impl<S: Directory> Leave for FolderDisk<S> {
    fn leave(self, alloc: Global) {
        let mut disk = self;
        let _ = disk.end(alloc);
    }
}

/// What a command answers where it gives an archive back, or the disk with a refusal. Both are dropped, which leaves a
/// folder to others again.
pub fn ended<D: Disk, E: Drop>(given: Result<Archive<D>, Refused<D, E>>) -> Result<(), E>
    ensures { result ≡ done_of given }
{
    match given {
        Ok(archive) => {
            drop(archive);
            Ok(())
        }
        Err(refused) => {
            let Refused { disk, error } = refused;
            drop(disk);
            Err(error)
        }
    }
}

/// The same of a disk that was changed, which is left.
pub(crate) fn left<D: Disk + Leave, E: Drop>(
    alloc: Global,
    given: Result<Archive<D>, Refused<D, E>>,
) -> Result<(), E>
    ensures { result ≡ done_of given }
{
    match given {
        Ok(archive) => {
            archive.into_disk().leave(alloc);
            Ok(())
        }
        Err(refused) => {
            let Refused { disk, error } = refused;
            disk.leave(alloc);
            Err(error)
        }
    }
}
