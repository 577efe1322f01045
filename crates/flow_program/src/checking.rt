//! The check of one archive, written into memory.

ghost use Rattle.std.specs.Prelude.{◌≡◌, ℕ, false, true, IfErr, IfOk, IsTrue};
ghost use Rattle.flow_commands.specs.declared.archive_refusal.ArchiveRefusal.TheVariants as refused;
ghost use Rattle.flow_disk.specs.Cause.{HasCause};
ghost use Rattle.flow_manifest.specs.Slots.{reads_of};
ghost use Rattle.flow_program.specs.Checks.{without_room, AreChecked, AreCheckLines, IsNotChecked};

use flow_commands::{ArchiveRefusal, check, check_files};
use flow_disk::{Disk, Faults};
use flow_folder::FolderError;
use flow_manifest::OpenError;
use flow_several::Asking;
use std::alloc::Global;

/// A refusal of what writes a text into memory: there is no more where that fails.
fn without_room(refusal: ArchiveRefusal) -> ArchiveRefusal
    ensures { result ≡ without_room refusal }
{
    match refusal {
        ArchiveRefusal::Write(_) => ArchiveRefusal::OutOfMemory,
        refusal => refusal,
    }
}

/// The line of the archive on a disk, of which nothing is frozen.
fn check_line<D: Disk>(alloc: Global, disk: D) -> Result<Vec<u8>, ArchiveRefusal>
    requires { (n : ℕ) → (D.marks disk n).frozen ≡ false }
    ensures told { IsTrue (D.honest disk)
        → IfOk result (λ text. AreChecked false (reads_of (D.held disk)) text.items) }
    ensures refused { IsTrue (D.honest disk) → IfErr result (IsNotChecked false (reads_of (D.held disk))) }
    ensures written { IfOk result (λ text. AreCheckLines false text.items) }
    // It is a fault of opening exactly where a call of the disk failed.
    ensures cause { (after : D) × HasCause (refused.Opening OpenError.Fault) (D.faults disk) (D.faults after) result }
{
    let mut disk = disk;
    let mut text = Vec::new(alloc);
    match check(alloc, &mut disk, &mut text) {
        Ok(()) => Ok(text),
        Err(refusal) => Err(without_room(refusal)),
    }
}

/// The same, and a line for each of its files.
fn check_listing<D: Disk>(alloc: Global, disk: D) -> Result<Vec<u8>, ArchiveRefusal>
    requires { (n : ℕ) → (D.marks disk n).frozen ≡ false }
    ensures told { IsTrue (D.honest disk)
        → IfOk result (λ text. AreChecked true (reads_of (D.held disk)) text.items) }
    ensures refused { IsTrue (D.honest disk) → IfErr result (IsNotChecked true (reads_of (D.held disk))) }
    ensures written { IfOk result (λ text. AreCheckLines true text.items) }
    ensures cause { (after : D) × HasCause (refused.Opening OpenError.Fault) (D.faults disk) (D.faults after) result }
{
    let mut text = Vec::new(alloc);
    match check_files(alloc, disk, &mut text, &mut Faults::new()) {
        Ok(_) => Ok(text),
        Err(refused) => Err(without_room(refused.error)),
    }
}

/// What `check` writes of the archive on a disk, of which nothing is frozen.
fn check_text<D: Disk>(alloc: Global, disk: D, files: bool) -> Result<Vec<u8>, ArchiveRefusal>
    requires { (n : ℕ) → (D.marks disk n).frozen ≡ false }
    ensures told { IsTrue (D.honest disk)
        → IfOk result (λ text. AreChecked files (reads_of (D.held disk)) text.items) }
    ensures refused { IsTrue (D.honest disk) → IfErr result (IsNotChecked files (reads_of (D.held disk))) }
    ensures written { IfOk result (λ text. AreCheckLines files text.items) }
    ensures cause { (after : D) × HasCause (refused.Opening OpenError.Fault) (D.faults disk) (D.faults after) result }
{
    if files {
        check_listing(alloc, disk)
    } else {
        check_line(alloc, disk)
    }
}

/// What is asked of each of several archives: its line, and with `files` those of its files too.
#[derive(Clone, Copy)]
pub(crate) struct Checking {
    pub(crate) alloc: Global,
    pub(crate) files: bool,
}

impl<D: Disk> Asking<Result<D, FolderError>, Result<Vec<u8>, ArchiveRefusal>> for Checking {
    ghost use Rattle.flow_program.specs.SideBySide.{outcome_of, IsAnswerOf, MayBeChecked};

    ghost may_ask = { λ checking folder. MayBeChecked D.Disk folder };

    ghost answers = { λ checking folder answer. IsAnswerOf D.Disk checking.files folder (outcome_of answer) };

    /// Opens, checks and closes the archive of a folder that is open, or was refused.
    fn ask(&self, folder: Result<D, FolderError>) -> Result<Vec<u8>, ArchiveRefusal> {
        let disk = folder?;
        check_text(self.alloc, disk, self.files)
    }
}
