//! What opens folders as disks.

ghost use Rattle.std.specs.Prelude.{◌≡◌, ℕ, List, false, IfOk, IfErr};
ghost use Rattle.flow_folder.specs.declared.system.FolderError.{FolderError};

use flow_disk::Disk;
use flow_folder::{FirstFault, FolderError, Lockable};
use flow_folder_view::FolderView;
use std::alloc::AllocGlobal;
use std::fs::Files;
use std::os::unix::fs::FileExt;

/// What opens folders as disks, of which nothing is frozen.
pub trait Opener<'a, D: Disk> {
    /// This is the disk of the folder at a path.
    ghost opens: { List ℕ → D → Type 0 };

    /// The folder at a path can't be opened, for this reason.
    ghost refuses: { List ℕ → FolderError → Type 0 };

    /// Opens the folder at a path.
    fn open(&self, folder: &'a str) -> Result<D, FolderError>
        ensures opened { IfOk result (λ disk. opens folder.now disk) }
        ensures thawed { IfOk result (λ disk. (n : ℕ) → (D.marks disk n).frozen ≡ false) }
        ensures refused { IfErr result (λ error. refuses folder.now error) };
}

/// Opens folders to be read alone, each together with others who read it. Which folder a disk is of is what the system
/// says, and no contract knows it.
#[derive(Clone, Copy)]
pub struct FolderViews<'a, H> {
    rt: &'a H,
    first_fault: &'a FirstFault,
}

impl<'a, H> FolderViews<'a, H> {
    /// What the system says of the first call that fails is noted.
    pub fn new(rt: &'a H, first_fault: &'a FirstFault) -> Self {
        FolderViews { rt, first_fault }
    }
}

impl<'a, H: Files + AllocGlobal + Clone + Drop> Opener<'a, FolderView<'a, H>> for FolderViews<'a, H>
where
    H::File: FileExt + Lockable,
{
    ghost use Rattle.std.specs.Prelude.{⊤};

    ghost opens = { λ folder view. ⊤ };

    ghost refuses = { λ folder error. ⊤ };

    fn open(&self, folder: &'a str) -> Result<FolderView<'a, H>, FolderError> {
        FolderView::noting(self.rt, folder, self.first_fault)
    }
}
