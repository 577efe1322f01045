//! The command `create`.

ghost use Rattle.std.specs.Prelude.{◌≡◌, ℕ, false, IsTrue, OnOk, IfOk, IfErr};
ghost use Rattle.flow_directory.specs.File.{entry};
ghost use Rattle.flow_disk.specs.Disk.{AllImages};
ghost use Rattle.flow_disk.specs.Cause.{HasCause};
ghost use Rattle.flow_model.specs.Standing.{StandsFor};
ghost use Rattle.flow_archive.specs.Beginning.{HasFiles, IsNotMade, answer_of, disk_of};
ghost use Rattle.flow_commands.specs.Made.{first_state, CreatesIn};

use crate::archive_refusal::ArchiveRefusal;
use crate::ending::left;
use crate::plan::NewArchive;
use flow_archive::{Archive, ArchiveError, Refused};
use flow_directory::Directory;
use flow_disk::Disk;
use flow_folder::{FirstFault, FolderDisk, Lockable, SystemDirectory};
use std::alloc::{AllocGlobal, Global};
use std::fs::Files;
use std::os::unix::fs::FileExt;

/// Makes an archive without messages on a disk without files. Refusals, with the disk: 27 NotEmpty where it has files,
/// and 11 OutOfMemory, which both leave it as it was; and 30 Fault.
pub fn create<D: Disk>(
    alloc: Global,
    disk: D,
    plan: &NewArchive,
) -> Result<Archive<D>, Refused<D, ArchiveError>>
    requires { (n : ℕ) → (D.marks disk n).frozen ≡ false }
    ensures honest { D.honest (disk_of result) ≡ D.honest disk }
    ensures made { IfOk result (λ a. (a.state ≡ first_state plan.now) × (a.closed ≡ false)) }
    ensures stands { IsTrue (D.honest disk) → IfOk result (λ a. AllImages (D.held a.disk)
        (λ image. StandsFor image (first_state plan.now))) }
    ensures was_empty { IsTrue (D.honest disk) → OnOk result (HasFiles (D.marks disk) → ⊥) }
    ensures refused { IfErr result (λ r. IsNotMade D.Disk disk r.disk r.error) }
    ensures cause { HasCause ArchiveError.Fault (D.faults disk) (D.faults (disk_of result)) (answer_of result) }
{
    match plan.wide() {
        None => Archive::create(alloc, disk, plan.width(), plan.limit()),
        Some(wide) => Archive::create_wide(alloc, disk, plan.width(), wide, plan.limit()),
    }
}

/// Makes an archive in a folder over any system of calls, and leaves the folder to others again.
fn create_over<S: Directory>(
    alloc: Global,
    system: S,
    plan: &NewArchive,
) -> Result<(), ArchiveRefusal>
    requires found { IsTrue (S.honest system) → (n : ℕ) → (S.files system n).lost entry ≡ false }
    requires free { IsTrue (S.honest system) → (n : ℕ) → (S.files system n).lent ≡ false }
    ensures told { CreatesIn ⟦<flow_folder_disk::FolderDisk<S> as Disk>⟧ plan.now result }
{
    let disk = flow_folder_disk::FolderDisk::new(alloc, system);
    left(alloc, create(alloc, disk, plan))?;
    Ok(())
}

/// Makes an archive in a folder, and leaves the folder to others again.
pub fn create_in<'a, H: Files + AllocGlobal + Clone + Drop>(
    rt: &'a H,
    folder: &'a str,
    first_fault: &'a FirstFault,
    plan: &NewArchive,
) -> Result<(), ArchiveRefusal>
where
    H::File: FileExt + Lockable,
    ensures told { CreatesIn ⟦<FolderDisk<'a, H> as Disk>⟧ plan.now result }
{
    let system = SystemDirectory::open(rt, folder, Some(first_fault))?;
    create_over(rt.alloc(), system, plan)
}
