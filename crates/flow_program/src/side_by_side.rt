//! Archives that are checked side by side, a thread for each of those that are asked at once.

ghost use Rattle.std.specs.Prelude.{◌≡◌, ◌<◌, ◌≤◌, Bool, List, [], ◌∷◌, drop, length, map, take};
ghost use Rattle.std.specs.List.{All, AllZip};
ghost use Rattle.flow_several.specs.Folders.{Path};
ghost use Rattle.flow_program.specs.Checks.{IsOutcome};
ghost use Rattle.flow_program.specs.SideBySide.{outcome_of, AreAhead, IsOpened, MayBeChecked};

use crate::checking::Checking;
use flow_commands::ArchiveRefusal;
use flow_disk::Disk;
use flow_folder::FolderError;
use flow_several::{Asking, InTurn, Opener};
use std::alloc::Global;
use std::thread::Threads;

/// Opens the first of these folders, at most so many, and fewer where memory runs out. One that is refused is among
/// them.
fn open_first<'a, D: Disk, O: Opener<'a, D>>(
    alloc: Global,
    opener: &O,
    folders: &[&'a str],
    most: usize,
) -> Vec<Result<D, FolderError>>
    ensures most { length result.items ≤ most }
    ensures opened { AllZip (IsOpened O.opens O.refuses)
        (take (length result.items) (map (λ folder. folder.now) folders.now)) result.items }
    ensures thawed { All (MayBeChecked D.Disk) result.items }
{
    let mut opened = Vec::new(alloc);
    for folder in &folders[..folders.len().min(most)] {
        let Ok(()) = opened.push(opener.open(folder)) else {
            break;
        };
    }
    opened
}

/// The checks of several archives, in the order of their folders. As many as there are processors are opened, checked
/// and closed at once, each in a thread of its own, before the first of them is taken.
#[derive(Drop)]
pub(crate) struct Checks<D: Disk> {
    archives: InTurn<Result<D, FolderError>, Result<Vec<u8>, ArchiveRefusal>>,
}

impl<D: Disk + Send> Checks<D>
where
    D::Sealed: Send + Sync,
{
    /// Those of no archive.
    pub(crate) fn none(alloc: Global) -> Self
        ensures answers { result.archives.answers.items ≡ [] }
        ensures left { result.archives.left.items ≡ [] }
    {
        Checks {
            archives: InTurn::of(alloc, Vec::new(alloc)),
        }
    }

    /// Opens the folders from a place on, at most so many, wherever the number of those before it is a multiple of that:
    /// those that were opened before have answered then.
    pub(crate) fn open_more<'a, O: Opener<'a, D>>(
        &mut self,
        alloc: Global,
        opener: &O,
        folders: &[&'a str],
        place: usize,
        most: usize,
    )
        requires some { 0 < most }
        requires place { place ≤ length folders.now }
        requires thawed { All (MayBeChecked D.Disk) self.old.archives.left.items }
        ensures thawed { All (MayBeChecked D.Disk) self.new.archives.left.items }
        ensures ahead { (files : Bool) → AreAhead D.Disk O.opens O.refuses files self.old.archives.answers.items
            self.old.archives.left.items (drop place (map (λ folder. folder.now) folders.now))
            → AreAhead D.Disk O.opens O.refuses files self.new.archives.answers.items self.new.archives.left.items
            (drop place (map (λ folder. folder.now) folders.now)) }
    {
        if place % most == 0 {
            self.archives = InTurn::of(alloc, open_first(alloc, opener, &folders[place..], most));
        }
    }

    /// What `check` writes of the next archive, which is that of this folder. Where it isn't among those that were
    /// opened, or memory ran out for those that are asked at once, it is opened and checked by itself.
    pub(crate) fn next<'a, R: Threads + Sync, O: Opener<'a, D>>(
        &mut self,
        rt: &R,
        checking: &Checking,
        opener: &O,
        folder: &'a str,
    ) -> Result<Vec<u8>, ArchiveRefusal>
        requires thawed { All (MayBeChecked D.Disk) self.old.archives.left.items }
        ensures thawed { All (MayBeChecked D.Disk) self.new.archives.left.items }
        ensures answer { (later : List Path) → AreAhead D.Disk O.opens O.refuses checking.now.files
            self.old.archives.answers.items self.old.archives.left.items (folder.now ∷ later)
            → IsOutcome D.Disk O.opens O.refuses checking.now.files folder.now (outcome_of result) }
        ensures ahead { (later : List Path) → AreAhead D.Disk O.opens O.refuses checking.now.files
            self.old.archives.answers.items self.old.archives.left.items (folder.now ∷ later)
            → AreAhead D.Disk O.opens O.refuses checking.now.files self.new.archives.answers.items
            self.new.archives.left.items later }
    {
        if let Some(Ok(answer)) = self.archives.next(rt, checking) {
            return answer;
        }
        self.archives = InTurn::of(checking.alloc, Vec::new(checking.alloc));
        checking.ask(opener.open(folder))
    }
}
