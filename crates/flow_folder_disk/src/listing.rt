// The names of a folder.
ghost use Rattle.std.specs.Prelude.{◌≡◌, ℕ, true, IsTrue, ◌↔◌, Contains, IfOk};
ghost use Rattle.flow_disk.specs.Disk.{Stays};
ghost use Rattle.flow_disk.specs.Moments.{Passes};
ghost use Rattle.flow_directory.specs.File.{held_of};

use crate::folder::Folder;
use flow_directory::Directory;
use std::alloc::Global;

impl<S: Directory> Folder<S> {
    /// The files that have a name.
    pub(crate) fn list(&mut self, alloc: Global) -> Result<Vec<u64>, S::Error>
        ensures honest { S.honest self.new.system ≡ S.honest self.old.system }
        ensures pending { self.new.pending ≡ self.old.pending }
        ensures listed { IsTrue (S.honest self.old.system) → IfOk result (λ list. (n : ℕ)
            → Contains list.items n ↔ ((S.files self.old.system n).linked ≡ true)) }
        ensures files { IsTrue (S.honest self.old.system)
            → Stays (S.files self.old.system) (S.files self.new.system) }
        ensures time { IsTrue (S.honest self.old.system) → Passes S.moment S.left_since self.old.system
            self.new.system (held_of (S.files self.old.system)) }
    {
        self.system.list(alloc)
    }
}
