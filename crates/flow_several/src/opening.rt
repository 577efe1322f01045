//! The disks of folders.

ghost use Rattle.std.specs.Prelude.{◌≡◌, ℕ, false, map, IfOk, IfErr};
ghost use Rattle.std.specs.List.{All, AllZip};
ghost use Rattle.flow_several.specs.Folders.{AreUnopened};

use crate::folders_refusal::FoldersRefusal;
use crate::opener::Opener;
use flow_disk::Disk;
use std::alloc::Global;

/// Opens folders, each before anything is read of the first, up to the first that can't be opened.
pub(crate) fn open_all<'a, D: Disk, O: Opener<'a, D>>(
    alloc: Global,
    opener: &O,
    folders: &[&'a str],
) -> Result<Vec<D>, FoldersRefusal>
    ensures opened { IfOk result (λ disks. AllZip O.opens (map (λ folder. folder.now) folders.now) disks.items) }
    ensures thawed { IfOk result (λ disks. All (λ disk. (n : ℕ) → (D.marks disk n).frozen ≡ false) disks.items) }
    ensures refused { IfErr result (AreUnopened O.opens O.refuses (map (λ folder. folder.now) folders.now)) }
{
    let mut disks = Vec::new(alloc);
    let mut place: u64 = 0;
    for folder in folders {
        match opener.open(folder) {
            Ok(disk) => disks.push(disk)?,
            Err(error) => return Err(FoldersRefusal::Folder(place + 1, error)),
        }
        place += 1;
    }
    Ok(disks)
}
