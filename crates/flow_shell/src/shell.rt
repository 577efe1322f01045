//! The requests about the archive of a folder.

ghost use Rattle.std.specs.Prelude.{◌≡◌, ◌≢◌, ◌≤◌, ◌⊎◌, ℕ, false, IsTrue, IfOk};
ghost use Rattle.flow_directory.specs.File.{entry};
ghost use Rattle.flow_model.specs.Shelved.{shelf_of};
ghost use Rattle.flow_roller.specs.Asked.{Asked};
ghost use Rattle.flow_shell.specs.Asked.{MayKeep};
ghost use Rattle.flow_shell.specs.Endings.{shell_ended, IsServed, IsUnserved, ShellsIn, ShellsOn};

use crate::lines::Lines;
use crate::querying::Asking;
use crate::serving::serve_beside;
use flow_archive::{Archive, ArchiveError};
use flow_commands::{ArchiveRefusal, Leave, Workers};
use flow_directory::{Directory, FileReader};
use flow_disk::Disk;
use flow_folder::{FirstFault, FolderDisk, Lockable, SystemDirectory};
use flow_roller::{Bell, Keeping};
use flow_shared::{ArchiveReader, Naming, Opened, SharedArchive, start};
use std::alloc::AllocGlobal;
use std::fs::Files;
use std::io::{BufReader, Read, Write};
use std::marker::Brand;
use std::os::unix::fs::FileExt;
use std::sync::Wait;
use std::thread::Threads;

/// The status of requests that were answered, or why they weren't; else why the rolling was refused.
fn ended(
    status: Result<u8, ArchiveRefusal>,
    refused: Option<ArchiveError>,
) -> Result<u8, ArchiveRefusal>
    requires { IfOk status (λ status. (status ≤ 5) × (status ≢ 2)) }
    ensures value { result ≡ shell_ended status refused }
    ensures most { IfOk result (λ status. status ≤ 5) }
    ensures other { IfOk result (λ status. status ≢ 2) }
{
    let status = status?;
    match refused {
        Some(error) => Err(ArchiveRefusal::from(error)),
        None => Ok(status),
    }
}

/// Answers the requests that an input has, a line each, about a shared archive, by the last of these readers of it.
fn serve_reader<
    H: Files + AllocGlobal + Clone + Drop + Threads + Wait + Send + Sync,
    D: Disk + Send,
    J: Naming + Send + Sync,
    K: Keeping + Send + Sync,
    R: Read,
    W: Write,
>(
    rt: &H,
    shared: &SharedArchive<D, J, H>,
    limit: u32,
    keep: u32,
    merge: Option<u32>,
    readers: &mut Vec<ArchiveReader<D::Sealed, J>>,
    width: u32,
    input: &mut R,
    output: &mut W,
) -> Result<u8, ArchiveRefusal>
where
    H::File: Send + Sync,
    H::Dir: Send + Sync,
    D::Sealed: Send + Sync,
    // As many as at first, or as a line of the input says, may be kept.
    requires { (any : Asked) → MayKeep keep merge (R.remaining input.old) any → ∥ K.asked any ∥₁ }
    ensures served { IsServed D.Disk J.opening K.asked result
        ⊎ IsUnserved (W.contents output.old) (W.contents output.new) result }
    ensures most { IfOk result (λ status. status ≤ 5) }
    ensures other { IfOk result (λ status. status ≢ 2) }
{
    let Some(reader) = readers.pop() else {
        return Err(ArchiveRefusal::OutOfMemory);
    };
    let alloc = rt.alloc();
    let Ok(input) = BufReader::new(alloc, input) else {
        drop(reader);
        return Err(ArchiveRefusal::OutOfMemory);
    };
    let mut asking = Asking {
        reader,
        width,
        workers: Workers::of_processors(rt),
    };
    let lines: Lines<K, Brand, BufReader<&mut R>> = Lines::new(input, Vec::new(alloc));
    let bell: Bell<K> = Bell::new(keep, merge);
    let (status, refused) = serve_beside(rt, shared, &bell, limit, &mut asking, lines, output);
    drop(asking);
    ended(status, refused)
}

/// Shares an archive, and answers requests about it.
fn serve_archive<
    H: Files + AllocGlobal + Clone + Drop + Threads + Wait + Send + Sync,
    D: Disk + Leave + Send,
    J: Naming + Send + Sync,
    R: Read,
    W: Write,
>(
    rt: &H,
    archive: Archive<D>,
    opened: Opened,
    keep: u32,
    merge: Option<u32>,
    input: &mut R,
    output: &mut W,
) -> Result<u8, ArchiveRefusal>
where
    H::File: Send + Sync,
    H::Dir: Send + Sync,
    D::Sealed: Send + Sync,
    requires book { opened.seen.book ≡ J.book }
    requires opening { shelf_of archive.state ≡ J.opening }
    requires honest { D.honest archive.disk ≡ J.honest }
    ensures asked { IsServed D.Disk J.opening (MayKeep keep merge (R.remaining input.old)) result
        ⊎ IsUnserved (W.contents output.old) (W.contents output.new) result }
    ensures most { IfOk result (λ status. status ≤ 5) }
    ensures other { IfOk result (λ status. status ≢ 2) }
{
    let limit = archive.limit();
    let width = archive.width();
    let (shared, readers) = match start::<D, J, H>(rt.alloc(), archive, opened, 1) {
        Ok(shared) => shared,
        Err(archive) => {
            drop(archive);
            return Err(ArchiveRefusal::OutOfMemory);
        }
    };
    let mut readers = readers;
    let served = serve_reader::<H, D, J, Brand, R, W>(
        rt,
        &shared,
        limit,
        keep,
        merge,
        &mut readers,
        width,
        input,
        output,
    );
    shared.end(rt).into_disk().leave(rt.alloc());
    drop(readers);
    served
}

/// Opens the archive on a disk, of which nothing is frozen, and answers requests about it.
fn serve_disk<
    H: Files + AllocGlobal + Clone + Drop + Threads + Wait + Send + Sync,
    D: Disk + Leave + Send,
    R: Read,
    W: Write,
>(
    rt: &H,
    disk: D,
    keep: u32,
    merge: Option<u32>,
    input: &mut R,
    output: &mut W,
) -> Result<u8, ArchiveRefusal>
where
    H::File: Send + Sync,
    H::Dir: Send + Sync,
    D::Sealed: Send + Sync,
    requires { (n : ℕ) → (D.marks disk n).frozen ≡ false }
    ensures asked { ShellsOn D.Disk disk (MayKeep keep merge (R.remaining input.old)) (W.contents output.old)
        (W.contents output.new) result }
    ensures most { IfOk result (λ status. status ≤ 5) }
    ensures other { IfOk result (λ status. status ≢ 2) }
{
    match Archive::open(rt.alloc(), disk) {
        Ok(archive) => serve_archive::<H, D, Brand, R, W>(
            rt,
            archive,
            Opened::new(),
            keep,
            merge,
            input,
            output,
        ),
        Err(refused) => Err(ArchiveRefusal::from(refused.error)),
    }
}

/// Opens the archive of a folder over any system of calls, and answers requests about it.
fn serve_over<
    H: Files + AllocGlobal + Clone + Drop + Threads + Wait + Send + Sync,
    S: Directory + Send,
    R: Read,
    W: Write,
>(
    rt: &H,
    system: S,
    keep: u32,
    merge: Option<u32>,
    input: &mut R,
    output: &mut W,
) -> Result<u8, ArchiveRefusal>
where
    H::File: Send + Sync,
    H::Dir: Send + Sync,
    S::Error: Send,
    S::Reader: Send + Sync,
    <S::Reader as FileReader>::Error: Send,
    requires found { IsTrue (S.honest system) → (n : ℕ) → (S.files system n).lost entry ≡ false }
    requires free { IsTrue (S.honest system) → (n : ℕ) → (S.files system n).lent ≡ false }
    ensures asked { ShellsIn ⟦<flow_folder_disk::FolderDisk<S> as Disk>⟧ (MayKeep keep merge (R.remaining input.old))
        (W.contents output.old) (W.contents output.new) result }
    ensures most { IfOk result (λ status. status ≤ 5) }
    ensures other { IfOk result (λ status. status ≢ 2) }
{
    let disk = flow_folder_disk::FolderDisk::new(rt.alloc(), system);
    serve_disk(rt, disk, keep, merge, input, output)
}

/// Opens the archive of a folder, and answers the requests that `input` has, a line each, in their order: with their
/// lines, and `done STATUS`. Files that are asked for are fed meanwhile, at most 8 at once, and the line of one that
/// has ended is written before the next answer. The newest `keep` sealed segments are left as they are, or as many as a
/// request says from then on; older ones are rolled meanwhile. Of the rolled files the newest `merge` are, likewise,
/// where that is some number or a request says so, and older ones are merged, whenever there are 1,024. After `quit`,
/// and at the end of the input, Files end with what was read of them.
pub fn shell_in<
    'a,
    H: Files + AllocGlobal + Clone + Drop + Threads + Wait + Send + Sync,
    R: Read,
    W: Write,
>(
    rt: &'a H,
    folder: &'a str,
    first_fault: &'a FirstFault,
    keep: u32,
    merge: Option<u32>,
    input: &mut R,
    output: &mut W,
) -> Result<u8, ArchiveRefusal>
where
    H::File: FileExt + Lockable + Send + Sync,
    H::Dir: Send + Sync,
    ensures asked { ShellsIn ⟦<FolderDisk<'a, H> as Disk>⟧ (MayKeep keep merge (R.remaining input.old))
        (W.contents output.old) (W.contents output.new) result }
    ensures most { IfOk result (λ status. status ≤ 5) }
    ensures other { IfOk result (λ status. status ≢ 2) }
{
    let system = SystemDirectory::open(rt, folder, Some(first_fault))?;
    serve_over(rt, system, keep, merge, input, output)
}
