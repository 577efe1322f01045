// What a view made of its files in memory.
ghost use Rattle.std.specs.Prelude.{◌≡◌, ◌≢◌, ℕ, Some, is_some, OnOk, OnErr};
ghost use Rattle.std.specs.Ordering.{nat_cmp};
ghost use Rattle.std.specs.BTreeMap.{get};

use flow_folder_disk::NoRoom;
use std::alloc::Global;
use std::collections::BTreeMap;

/// What was made of a file.
#[derive(Clone, Copy, PartialEq, Eq)]
pub(crate) enum Change {
    /// It was cut.
    Cut,
    /// It was removed, and not cut since.
    Removed,
}

/// What was made of each file. Of all others nothing was.
#[derive(Drop)]
pub(crate) struct ChangedFiles {
    changes: BTreeMap<u64, Change>,
}

impl ChangedFiles {
    ghost use Rattle.flow_folder_view.specs.Changed.{is_left, left_of};

    /// Nothing was changed.
    pub(crate) fn none(alloc: Global) -> Self {
        ChangedFiles {
            changes: BTreeMap::new(alloc),
        }
    }

    /// Whether a file was changed.
    pub(crate) fn has(&self, file: u64) -> bool
        ensures { result ≡ is_some (get nat_cmp self.now.changes file) }
    {
        self.changes.contains_key(&file)
    }

    /// Whether a file wasn't removed.
    fn leaves(&self, file: u64) -> bool
        ensures { result ≡ is_left (get nat_cmp self.now.changes file) }
    {
        match self.changes.get(&file) {
            None | Some(Change::Cut) => true,
            Some(Change::Removed) => false,
        }
    }

    /// Of these files those that weren't removed.
    pub(crate) fn left_of(&self, files: Vec<u64>) -> Vec<u64>
        ensures { result.items ≡ left_of self.now.changes files.items }
    {
        let mut files = files;
        files.retain(|file| self.leaves(*file));
        files
    }

    /// A file was changed so. Answers whether there was memory.
    pub(crate) fn note(&mut self, file: u64, change: Change) -> Result<(), NoRoom>
        ensures here { OnOk result (get nat_cmp self.new.changes file ≡ Some change) }
        ensures others { (n : ℕ) → n ≢ file → get nat_cmp self.new.changes n ≡ get nat_cmp self.old.changes n }
        ensures failed { OnErr result
            ((n : ℕ) → get nat_cmp self.new.changes n ≡ get nat_cmp self.old.changes n) }
    {
        match self.changes.insert(file, change) {
            Ok(_) => Ok(()),
            Err(_) => Err(NoRoom),
        }
    }
}
