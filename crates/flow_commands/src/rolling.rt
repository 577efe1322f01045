//! The commands `roll` and `merge`.

ghost use Rattle.std.specs.Prelude.{◌≡◌, ℕ, false, IsTrue, Ok, OnOk, IfOk, IfErr};
ghost use Rattle.flow_directory.specs.File.{entry};
ghost use Rattle.flow_commands.specs.Asking.{Writes, WritesOrNot};
ghost use Rattle.flow_commands.specs.Rolling.{IsJobLine, IsRolled, RollsIn, RollsOn, TellsJob};
ghost use Rattle.flow_commands.specs.Rolling.{job_line, job_name};

use crate::archive_refusal::ArchiveRefusal;
use crate::ending::left;
use flow_archive::{Archive, Refused};
use flow_directory::Directory;
use flow_disk::{Disk, Faults};
use flow_folder::{FirstFault, FolderDisk, Lockable, SystemDirectory};
use flow_manifest::JobKind;
use flow_report::{Patience, push_count, write_patiently};
use flow_turns::run_job;
use std::alloc::{AllocError, AllocGlobal, Global};
use std::fs::Files;
use std::io::Write;
use std::os::unix::fs::FileExt;

/// What a job did, in a word.
fn job_name(kind: JobKind) -> &'static str
    ensures { result.now ≡ job_name kind }
{
    match kind {
        JobKind::Roll => "rolled",
        JobKind::Merge => "merged",
    }
}

/// The line that says how many files a job summed.
#[tactic(auto, unfolding(crate::specs::Rolling::job_line))]
fn job_line(alloc: Global, kind: JobKind, count: u32) -> Result<Vec<u8>, AllocError>
    ensures { IfOk result (λ text. text.items ≡ job_line kind count) }
{
    let mut text = Vec::new(alloc);
    text.extend_from_slice(job_name(kind).as_bytes())?;
    push_count(&mut text, u64::from(count))?;
    text.push(b'\n')?;
    Ok(text)
}

/// Writes the line of a job.
fn tell_job<W: Write>(
    alloc: Global,
    kind: JobKind,
    count: u32,
    output: &mut W,
) -> Result<(), ArchiveRefusal>
    ensures { TellsJob kind (Ok count) (W.contents output.old) (W.contents output.new) result }
{
    let text = job_line(alloc, kind, count)?;
    write_patiently(output, text.as_slice(), &mut Patience::new())?;
    Ok(())
}

/// Rolls all sealed segments of an archive but the newest `keep` as one job, or merges all its rolled files but the
/// newest `keep`, removes what can be removed, and writes how many they were: `rolled K` or `merged K`.
///
/// Errors: the first refusal of the job, before anything is written; 11 and 32 where the line couldn't be made or
/// written.
pub fn roll<D: Disk, W: Write>(
    alloc: Global,
    archive: &mut Archive<D>,
    kind: JobKind,
    keep: u32,
    output: &mut W,
) -> Result<(), ArchiveRefusal>
    ensures { IsRolled D.Disk kind keep archive.old archive.new (W.contents output.old) (W.contents output.new) result }
{
    match run_job(archive, alloc, kind, keep, &mut Faults::new()) {
        Ok(count) => tell_job(alloc, kind, count, output),
        Err(error) => Err(ArchiveRefusal::from(error)),
    }
}

/// Opens the archive on a disk, of which nothing is frozen, and rolls or merges its files, as `roll` does. It hands the
/// archive on, or gives the disk back.
pub fn roll_on<D: Disk, W: Write>(
    alloc: Global,
    disk: D,
    kind: JobKind,
    keep: u32,
    output: &mut W,
) -> Result<Archive<D>, Refused<D, ArchiveRefusal>>
    requires { (n : ℕ) → (D.marks disk n).frozen ≡ false }
    ensures told { RollsOn D.Disk kind keep disk (W.contents output.old) (W.contents output.new) result }
    ensures written { OnOk result (Writes (IsJobLine kind) (W.contents output.old) (W.contents output.new)) }
    ensures kept { IfErr result
        (λ r. WritesOrNot (IsJobLine kind) r.error (W.contents output.old) (W.contents output.new)) }
{
    match Archive::open(alloc, disk) {
        Ok(archive) => {
            let mut archive = archive;
            match roll(alloc, &mut archive, kind, keep, output) {
                Ok(()) => Ok(archive),
                Err(error) => Err(Refused {
                    disk: archive.into_disk(),
                    error,
                }),
            }
        }
        Err(refused) => Err(Refused {
            disk: refused.disk,
            error: ArchiveRefusal::from(refused.error),
        }),
    }
}

/// Rolls or merges the files of the archive in a folder over any system of calls, writes how many they were, and leaves
/// the folder to others again.
fn roll_over<S: Directory, W: Write>(
    alloc: Global,
    system: S,
    kind: JobKind,
    keep: u32,
    output: &mut W,
) -> Result<(), ArchiveRefusal>
    requires found { IsTrue (S.honest system) → (n : ℕ) → (S.files system n).lost entry ≡ false }
    requires free { IsTrue (S.honest system) → (n : ℕ) → (S.files system n).lent ≡ false }
    ensures told { RollsIn ⟦<flow_folder_disk::FolderDisk<S> as Disk>⟧ kind keep (W.contents output.old)
        (W.contents output.new) result }
    ensures written { OnOk result (Writes (IsJobLine kind) (W.contents output.old) (W.contents output.new)) }
    ensures kept { IfErr result (λ e. WritesOrNot (IsJobLine kind) e (W.contents output.old) (W.contents output.new)) }
{
    let disk = flow_folder_disk::FolderDisk::new(alloc, system);
    left(alloc, roll_on(alloc, disk, kind, keep, output))
}

/// Rolls or merges the files of the archive in a folder, and writes how many they were.
pub fn roll_in<'a, H: Files + AllocGlobal + Clone + Drop, W: Write>(
    rt: &'a H,
    folder: &'a str,
    first_fault: &'a FirstFault,
    kind: JobKind,
    keep: u32,
    output: &mut W,
) -> Result<(), ArchiveRefusal>
where
    H::File: FileExt + Lockable,
    ensures told { RollsIn ⟦<FolderDisk<'a, H> as Disk>⟧ kind keep (W.contents output.old) (W.contents output.new)
        result }
    ensures written { OnOk result (Writes (IsJobLine kind) (W.contents output.old) (W.contents output.new)) }
    ensures kept { IfErr result (λ e. WritesOrNot (IsJobLine kind) e (W.contents output.old) (W.contents output.new)) }
{
    let system = SystemDirectory::open(rt, folder, Some(first_fault))?;
    roll_over(rt.alloc(), system, kind, keep, output)
}
