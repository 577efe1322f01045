//! Why archives in folders aren't asked, or their answer isn't written.

ghost use Rattle.std.specs.Prelude.{◌≡◌};
ghost use Rattle.flow_several.specs.declared.refusal.SeveralRefusal.TheVariants as several;
ghost use Rattle.flow_several.specs.declared.folders_refusal.FoldersRefusal.TheVariants.{Several};

use crate::refusal::SeveralRefusal;
use flow_folder::FolderError;
use std::alloc::AllocFailed;

/// Why archives in folders aren't asked, or their answer isn't written.
#[derive(Debug, Drop)]
pub enum FoldersRefusal {
    /// The folder with this number, from 1 on, is the first that can't be opened.
    Folder(u64, FolderError),
    /// All folders are open, and the archives have no answer, or it isn't written; or memory ran out.
    Several(SeveralRefusal),
}

impl From<SeveralRefusal> for FoldersRefusal {
    ghost from_gives = { λ e r. r ≡ Several e };

    fn from(error: SeveralRefusal) -> FoldersRefusal {
        FoldersRefusal::Several(error)
    }
}

impl<T: Drop> From<AllocFailed<T>> for FoldersRefusal {
    ghost from_gives = { λ _ r. r ≡ Several several.OutOfMemory };

    fn from(_e: AllocFailed<T>) -> FoldersRefusal {
        FoldersRefusal::Several(SeveralRefusal::OutOfMemory)
    }
}
