//! The command `check`.

ghost use Rattle.std.specs.Prelude.{◌≡◌, ◌⊎◌, ◌++◌, ℕ, false, IsTrue, OnOk, IfOk, IfErr};
ghost use Rattle.flow_disk.specs.Cause.{HasCause};
ghost use Rattle.flow_disk.specs.Disk.{AllImages};
ghost use Rattle.flow_disk.specs.Calls.{LeavesOnly};
ghost use Rattle.flow_manifest.specs.Slots.{reads_of};
ghost use Rattle.flow_recover.specs.Opening.{IsDeviceOrMemory, StandsForNone};
ghost use Rattle.flow_model.specs.Standing.{StandsFor, StandsForEither};
ghost use Rattle.flow_model.specs.State.{State};
ghost use Rattle.flow_commands.specs.declared.archive_refusal.ArchiveRefusal.TheVariants as refusal;
ghost use Rattle.flow_commands.specs.Check.{IsChecked, IsCheckRefused, KeepsOrChecks, TellsState, standing_line};
ghost use Rattle.flow_commands.specs.Check.{standing_by, standing_of, summed_count};
ghost use Rattle.flow_commands.specs.Opened.{KeepsFiles};

use crate::archive_refusal::ArchiveRefusal;
use flow_disk::Disk;
use flow_folder::{FirstFault, Lockable};
use flow_folder_view::FolderView;
use flow_manifest::{Entry, Kind, Manifest, OpenError, count_of};
use flow_recover::recover;
use flow_report::{Patience, push_count, write_patiently};
use std::alloc::{AllocError, AllocGlobal, Global};
use std::fs::Files;
use std::io::Write;
use std::os::unix::fs::FileExt;

/// What an archive is found to be.
#[derive(Drop)]
pub struct Standing {
    /// How many messages were taken in.
    pub position: u64,
    /// How many of them are in sums alone.
    pub cut: u64,
    /// How many files of sums there are, over wide intervals or not.
    pub rolled: u64,
    /// How many sealed segments there are.
    pub sealed: u64,
}

impl Standing {
    /// What a manifest says, of an archive of so many messages.
    pub(crate) fn of(manifest: &Manifest, position: u64) -> Self
        ensures { result ≡ standing_by manifest.now position }
    {
        let entries = manifest.entries.as_slice();
        Standing {
            position,
            cut: manifest.rolled,
            rolled: summed_count(entries),
            sealed: count_of(entries, Kind::Sealed) as u64,
        }
    }

    /// The line that says it.
    #[tactic(auto, unfolding(crate::specs::Check::standing_line))]
    fn push_line(&self, text: &mut Vec<u8>) -> Result<(), AllocError>
        ensures { OnOk result (text.new.items ≡ text.old.items ++ standing_line self.now) }
    {
        text.extend_from_slice("ok".as_bytes())?;
        push_count(text, self.position)?;
        push_count(text, self.cut)?;
        push_count(text, self.rolled)?;
        push_count(text, self.sealed)?;
        text.push(b'\n')?;
        Ok(())
    }

    /// The line alone: `ok POSITION CUT ROLLED SEALED`, with its line feed.
    pub fn line(&self, alloc: Global) -> Result<Vec<u8>, AllocError>
        ensures { IfOk result (λ text. text.items ≡ standing_line self.now) }
    {
        let mut text = Vec::new(alloc);
        self.push_line(&mut text)?;
        Ok(text)
    }
}

/// How many of these are files of sums, over wide intervals or not.
fn summed_count(entries: &[Entry]) -> u64
    ensures { result ≡ summed_count entries.now }
{
    let _most = entries.len();
    (count_of(entries, Kind::Rolled) + count_of(entries, Kind::Wide)) as u64
}

/// Opens the archive on a disk, of which nothing is frozen, and says what it is.
fn find_standing<D: Disk>(alloc: Global, disk: &mut D) -> Result<Standing, OpenError>
    requires { (n : ℕ) → (D.marks disk.old n).frozen ≡ false }
    ensures stands { IsTrue (D.honest disk.old) → IfOk result
        (λ t. (s : State) × StandsFor (reads_of (D.held disk.old)) s × (t ≡ standing_of s)) }
    ensures told { IsTrue (D.honest disk.old)
        → IfErr result (λ e. IsDeviceOrMemory e ⊎ StandsForNone (reads_of (D.held disk.old))) }
    ensures any_moment { IsTrue (D.honest disk.old) → (a b : State) → AllImages (D.held disk.old) (StandsForEither a b)
        → LeavesOnly D.Disk disk.old disk.new (StandsForEither a b) }
    ensures unchanged { IsTrue (D.honest disk.old) → IfErr result (λ e. (IsDeviceOrMemory e → ⊥)
        → (n : ℕ) → (D.held disk.new n).reads ≡ (D.held disk.old n).reads) }
    ensures cause { HasCause OpenError.Fault (D.faults disk.old) (D.faults disk.new) result }
{
    let found = recover(alloc, disk)?;
    Ok(Standing::of(&found.slots.current, found.total))
}

/// Opens the archive on a disk, of which nothing is frozen, and writes `ok POSITION CUT ROLLED SEALED`: how many
/// messages were taken in, how many of them are in sums alone, how many files of sums and sealed segments there are.
/// A stop at any moment leaves what opens as the archive that was there.
pub fn check<D: Disk, W: Write>(
    alloc: Global,
    disk: &mut D,
    output: &mut W,
) -> Result<(), ArchiveRefusal>
    requires { (n : ℕ) → (D.marks disk.old n).frozen ≡ false }
    ensures told { IsTrue (D.honest disk.old) → OnOk result
        (TellsState (reads_of (D.held disk.old)) (W.contents output.old) (W.contents output.new)) }
    ensures refused { IsTrue (D.honest disk.old) → IfErr result
        (IsCheckRefused (reads_of (D.held disk.old)) (W.contents output.old) (W.contents output.new)) }
    ensures any_moment { IsTrue (D.honest disk.old) → (a b : State) → AllImages (D.held disk.old) (StandsForEither a b)
        → LeavesOnly D.Disk disk.old disk.new (StandsForEither a b) }
    ensures unchanged { IfErr result (λ e. KeepsFiles D.Disk disk.old disk.new e) }
    // And whatever the disk:
    ensures written { OnOk result (IsChecked (W.contents output.old) (W.contents output.new)) }
    ensures kept { IfErr result (λ e. KeepsOrChecks e (W.contents output.old) (W.contents output.new)) }
    ensures cause { HasCause (refusal.Opening OpenError.Fault) (D.faults disk.old) (D.faults disk.new) result }
{
    let standing = find_standing(alloc, disk)?;
    let line = standing.line(alloc)?;
    write_patiently(output, line.as_slice(), &mut Patience::new())?;
    Ok(())
}

/// Checks the archive of a folder, of which nothing is changed, and which others may ask meanwhile.
pub fn check_in<H: Files + AllocGlobal + Clone + Drop, W: Write>(
    rt: &H,
    folder: &str,
    first_fault: &FirstFault,
    output: &mut W,
) -> Result<(), ArchiveRefusal>
where
    H::File: FileExt + Lockable,
    ensures written { OnOk result (IsChecked (W.contents output.old) (W.contents output.new)) }
    ensures kept { IfErr result (λ e. KeepsOrChecks e (W.contents output.old) (W.contents output.new)) }
{
    let mut view = FolderView::noting(rt, folder, first_fault)?;
    check(rt.alloc(), &mut view, output)
}
