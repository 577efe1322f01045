//! An archive that is asked.

ghost use Rattle.std.specs.Prelude.{List, ℕ, IsTrue, IfOk};
ghost use Rattle.flow_model.specs.Standing.{StandsFor};
ghost use Rattle.flow_commands.specs.Asking.{IsReadAs};
ghost use Rattle.flow_commands.specs.Opened.{IsAsked};

use flow_archive::Archive;
use flow_disk::{Disk, SealedFile};
use flow_model::one_view_of_a_state;
use flow_snapshot::Snapshot;
use std::alloc::{AllocError, Global};

/// An archive that is asked: its files, and the width of its intervals.
#[derive(Drop)]
pub struct Asked<S: SealedFile> {
    pub snapshot: Snapshot<S>,
    /// In seconds.
    pub width: u32,
}

/// What there is now of an archive, to be asked.
pub fn to_ask<D: Disk>(
    alloc: Global,
    archive: &mut Archive<D>,
) -> Result<Asked<D::Sealed>, AllocError>
    ensures asked { IsAsked archive.old archive.new }
    ensures read { IsTrue (D.honest archive.old.disk) → (reads : ℕ → List ℕ) → StandsFor reads archive.old.state
        → IfOk result (λ a. IsReadAs reads a.snapshot a.width) }
{
    one_view_of_a_state();
    let width = archive.width();
    let directory = archive.directory(alloc)?;
    let snapshot = directory.into_snapshot();
    Ok(Asked { snapshot, width })
}
