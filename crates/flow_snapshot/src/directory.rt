//! A directory: what an archive consists of, without its disk.

ghost use Rattle.std.specs.Prelude.{◌≡◌, ◌<◌, IsTrue, IfOk, OnErr, OnOk};
ghost use Rattle.flow_model.specs.Changes.{applied};
ghost use Rattle.flow_snapshot.specs.Directories.{sight_of};
ghost use Rattle.flow_snapshot.specs.Steps.{change_of, has_honest};

use crate::files::Files;
use crate::snapshot::Snapshot;
use crate::step::Step;
use flow_disk::SealedFile;
use std::alloc::AllocError;
use std::marker::Model;

/// The files of an archive, as readers learn of them step by step. It is seen as its shelf, beside whether its files
/// are on honest disks.
#[derive(Drop)]
pub struct Directory<S: SealedFile> {
    width: u32,
    wide: u32,
    files: Files<S>,
}

impl<S: SealedFile> Model for Directory<S> {
    ghost use Rattle.std.specs.Prelude.{◌<◌};
    ghost use Rattle.flow_snapshot.specs.ShelfSeen.{ShelfSeen};

    ghost Value = { ShelfSeen };

    ghost use Rattle.flow_snapshot.specs.Directories.{sight_of};

    ghost view = { λ d. sight_of d.width d.wide d.files };

    ghost invariant = { λ d. (0 < d.width) × (0 < d.wide) };
}

impl<S: SealedFile> Directory<S> {
    /// These files, of which the rolled ones are by `width` and the merged ones by `wide`, both in seconds.
    pub fn new(width: u32, wide: u32, files: Files<S>) -> Self
        requires width { 0 < width }
        requires wide { 0 < wide }
        ensures { result ≡ sight_of width wide files }
    {
        Directory { width, wide, files }
    }

    /// An equal value. It shares every file and the octets of every message.
    pub fn try_copy(&self) -> Result<Self, AllocError>
        ensures { IfOk result (λ copy. copy ≡ self.now) }
    {
        Ok(Directory {
            width: self.width,
            wide: self.wide,
            files: self.files.try_copy()?,
        })
    }

    /// Makes a step. After an `Err` all is as it was.
    pub fn apply(&mut self, step: &Step<S>) -> Result<(), AllocError>
        ensures applied { OnOk result (self.new.shelf ≡ applied self.old.shelf (change_of step.now)) }
        ensures honest { OnOk result (IsTrue self.old.honest → IsTrue (has_honest step.now) → IsTrue self.new.honest) }
        ensures kept { OnErr result (self.new ≡ self.old) }
    {
        self.files.apply(step)
    }

    /// The snapshot of these files, to be asked. It takes no memory.
    pub fn into_snapshot(self) -> Snapshot<S>
        ensures { result ≡ self }
    {
        Snapshot::new(self.width, self.wide, self.files)
    }
}
