//! What is done in a folder, as rows of tables: by a disk over it, and beside it.

ghost use Rattle.std.specs.Prelude.{◌≡◌, ℕ, false, IsTrue};
ghost use Rattle.flow_directory.specs.File.{entry};

use crate::calls::{Call, Thawed, is_short};
use crate::plan::{Failing, Plan};
use flow_directory::Directory;
use flow_disk::{Disk, DiskError, SealedFile};
use flow_folder::{FolderError, SystemDirectory};
use flow_folder_disk::FolderDisk;
use std::fs::{self, File};
use std::os::unix::fs::{MetadataExt, symlink};

/// The folder, and its file 3.
pub(crate) const FOLDER: &str = "folder";

pub(crate) const FILE: &str = "folder/3.ipfix";

/// What is done beside a disk, or found there.
#[derive(Clone, Copy)]
pub(crate) enum Beside<'a> {
    /// A file is made anew, with these octets.
    Put(&'a str, &'a [u8]),
    /// A symbolic link to this is made, here.
    Link(&'a str, &'a str),
    /// A folder is made.
    Made(&'a str),
    /// A file is removed.
    Removed(&'a str),
    /// A file or a folder gets another name.
    Renamed(&'a str, &'a str),
    /// A file has just these octets.
    Has(&'a str, &'a [u8]),
    /// A folder has no names; it is made anew.
    Empty(&'a str),
    /// A file has these rights, but for those of its group to read it.
    Mode(&'a str, u32),
    /// A folder is locked, or isn't.
    Locked(&'a str, bool),
}

/// Whether a folder is locked by another.
fn is_locked(rt: &HostRuntime, path: &str) -> bool {
    match File::open(rt, path) {
        Ok(folder) => folder.try_lock().is_err(),
        Err(_) => false,
    }
}

/// Whether a file has just these octets.
fn has(rt: &HostRuntime, path: &str, wanted: &[u8]) -> bool {
    match fs::read(rt, path) {
        Ok(octets) => octets.as_slice() == wanted,
        Err(_) => false,
    }
}

/// Whether a folder has no names: such a one alone can be removed. It is made anew.
fn is_empty(rt: &HostRuntime, path: &str) -> bool {
    fs::remove_dir(rt, path).is_ok() && fs::create_dir(rt, path).is_ok()
}

/// Whether a file has these rights.
fn has_mode(rt: &HostRuntime, path: &str, mode: u32) -> bool {
    match fs::metadata(rt, path) {
        Ok(found) => found.mode() & 0o737 == mode,
        Err(_) => false,
    }
}

impl Beside<'_> {
    /// Whether it is done, or found.
    pub(crate) fn is_so(self, rt: &HostRuntime) -> bool {
        match self {
            Beside::Put(path, octets) => fs::write(rt, path, octets).is_ok(),
            Beside::Link(target, path) => symlink(rt, target, path).is_ok(),
            Beside::Made(path) => fs::create_dir(rt, path).is_ok(),
            Beside::Removed(path) => fs::remove_file(rt, path).is_ok(),
            Beside::Renamed(from, to) => fs::rename(rt, from, to).is_ok(),
            Beside::Has(path, octets) => has(rt, path, octets),
            Beside::Empty(path) => is_empty(rt, path),
            Beside::Mode(path, mode) => has_mode(rt, path, mode),
            Beside::Locked(path, is) => is_locked(rt, path) == is,
        }
    }
}

/// A step with a disk.
#[derive(Clone, Copy)]
pub(crate) enum Step<'a> {
    /// A call gives what it says.
    Gives(Call<'a>),
    /// A call is refused as a fault.
    Faults(Call<'a>),
    /// A call of which so many syncs fail is good, or else a fault, and by its end so many writes, cuts and new files
    /// were made.
    Counts(Call<'a>, u32, bool, [u32; 3]),
    /// What is done beside it, or found there.
    Aside(Beside<'a>),
    /// Six octets of file 3 are written, three are left of them beside the disk, and it reads and cuts the file as if
    /// it had six: both are faults.
    Shortened,
}

/// How a disk is given up.
#[derive(Clone, Copy)]
pub(crate) enum End<'a> {
    /// It is dropped.
    Dropped,
    /// File 3 is frozen, and the disk dropped; then this is done, while the frozen file is there.
    Frozen(&'a [Held<'a>]),
    /// Freezing file 3 is a fault.
    Unfrozen,
    /// File 3 is frozen and removed: it has just these octets.
    Retired(&'a [u8]),
    /// It can't be opened, for this reason.
    Refused(Why),
}

/// What is done while a frozen file is there.
#[derive(Clone, Copy)]
pub(crate) enum Held<'a> {
    /// What is done beside it, or found there.
    Aside(Beside<'a>),
    /// A read of so many octets from a place on is a fault.
    Faults(u64, usize),
}

/// Why a folder can't be opened.
#[derive(Clone, Copy)]
pub(crate) enum Why {
    /// What has the name of this file is none.
    NotAFile(u64),
    /// The system refuses it.
    System,
    /// Memory was refused.
    Memory,
}

impl Why {
    /// Whether it is refused for this reason.
    fn is(self, error: &FolderError) -> bool {
        match (self, error) {
            (Why::NotAFile(wanted), FolderError::NotAFile(file)) => wanted == *file,
            (Why::System, FolderError::Refused(_)) => true,
            (Why::Memory, FolderError::OutOfMemory) => true,
            _ => false,
        }
    }
}

/// Writes six octets of file 3, leaves three of them beside the disk, and reads and cuts it as if it had six: whether
/// both are faults.
fn is_shortened<D: Disk>(rt: &HostRuntime, thawed: &mut Thawed<D>) -> Result<bool, DiskError> {
    thawed.disk.write_at(3, 0, b"abcdef")?;
    let is_cut = fs::write(rt, FILE, b"abc".as_slice()).is_ok();
    let is_fault = thawed.disk.read(rt.alloc(), 3, 2, 3) == Err(DiskError::Fault);
    Ok(is_cut && is_fault && thawed.disk.cut(3, 5) == Err(DiskError::Fault))
}

/// Whether a step is as it says.
fn is_step<D: Disk>(rt: &HostRuntime, plan: &Plan, disk: &mut Thawed<D>, step: Step<'_>) -> bool {
    match step {
        Step::Gives(call) => disk.answers(rt.alloc(), call, false),
        Step::Faults(call) => disk.answers(rt.alloc(), call, true),
        Step::Counts(call, syncs, is_good, counts) => {
            plan.failing.set(syncs);
            disk.answers(rt.alloc(), call, !is_good) && plan.counts() == counts
        }
        Step::Aside(beside) => beside.is_so(rt),
        Step::Shortened => is_shortened(rt, disk) == Ok(true),
    }
}

/// How many steps are as they say, up to the first that isn't.
fn steps_of<D: Disk>(
    rt: &HostRuntime,
    plan: &Plan,
    disk: &mut Thawed<D>,
    steps: &[Step<'_>],
) -> usize {
    for (index, step) in steps.iter().enumerate() {
        if !is_step(rt, plan, disk, *step) {
            return index;
        }
    }
    steps.len()
}

/// Whether all is as it says while a frozen file is there.
fn is_held<S: SealedFile>(rt: &HostRuntime, sealed: &S, parts: &[Held<'_>]) -> bool {
    for part in parts {
        let is_so = match part {
            Held::Aside(beside) => beside.is_so(rt),
            Held::Faults(at, count) => is_short(rt.alloc(), sealed, *at, *count),
        };
        if !is_so {
            return false;
        }
    }
    true
}

/// Freezes file 3, and gives up the disk: whether all is as it says while the frozen file is there, and nothing where
/// that is a fault.
fn is_frozen<D: Disk>(rt: &HostRuntime, disk: Thawed<D>, parts: &[Held<'_>]) -> Option<bool> {
    match disk.freeze() {
        Ok(sealed) => Some(is_held(rt, &sealed, parts)),
        Err(DiskError::Fault) => None,
        Err(_) => Some(false),
    }
}

/// Whether a disk is given up as is wanted.
fn ends<D: Disk>(rt: &HostRuntime, disk: Thawed<D>, end: End<'_>) -> bool {
    match end {
        End::Dropped => true,
        End::Frozen(parts) => is_frozen(rt, disk, parts) == Some(true),
        End::Unfrozen => is_frozen(rt, disk, &[]).is_none(),
        End::Retired(octets) => disk.retire(rt.alloc(), octets) == Ok(true),
        End::Refused(_) => false,
    }
}

/// Makes steps with a disk, and gives it up: how many are as they say, one more where its end is so, too.
fn played<D: Disk>(
    rt: &HostRuntime,
    plan: &Plan,
    disk: Thawed<D>,
    steps: &[Step<'_>],
    end: End<'_>,
) -> usize {
    let mut disk = disk;
    let made = steps_of(rt, plan, &mut disk, steps);
    if made == steps.len() && ends(rt, disk, end) {
        return made.saturating_add(1);
    }
    made
}

/// Makes steps with a folder over a system of calls, and gives it up: how many are as they say, one more where its end
/// is so, too.
fn played_over<S: Directory>(
    rt: &HostRuntime,
    plan: &Plan,
    system: S,
    steps: &[Step<'_>],
    end: End<'_>,
) -> usize
    requires found { IsTrue (S.honest system) → (n : ℕ) → (S.files system n).lost entry ≡ false }
    requires free { IsTrue (S.honest system) → (n : ℕ) → (S.files system n).lent ≡ false }
{
    let disk = FolderDisk::new(rt.alloc(), system);
    played(rt, plan, Thawed { disk }, steps, end)
}

/// Opens the folder, makes steps with its disk, and gives it up: how many are as they say, one more where its end is
/// so, too.
pub(crate) fn opened(failing: &Failing<'_>, steps: &[Step<'_>], end: End<'_>) -> usize {
    match SystemDirectory::open(failing, FOLDER, None) {
        Ok(system) => played_over(failing.rt, failing.plan, system, steps, end),
        Err(error) => match end {
            End::Refused(why) => usize::from(why.is(&error)),
            _ => 0,
        },
    }
}
