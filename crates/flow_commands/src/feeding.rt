//! The command `feed`.

ghost use Rattle.std.specs.Prelude.{◌≡◌, ◌≢◌, ◌≤◌, ◌⊎◌, ℕ, false, length, IsTrue, map, replicate, IfOk, IfErr};
ghost use Rattle.flow_directory.specs.File.{entry};
ghost use Rattle.flow_manifest.specs.Slots.{reads_of};
ghost use Rattle.flow_model.specs.Shelved.{shelf_of};
ghost use Rattle.flow_commands.specs.Feeding.{FeedsAsked, FeedsIn, FeedsLines, FeedsOn, IsNotFed, IsUnstarted};
ghost use Rattle.flow_commands.specs.Feeding.{KeepsOrFeeds, TellsFed, TellsFile, TellsFiles, feed_ended, octets_given};
ghost use Rattle.flow_commands.specs.Feeding.{unfed};

use crate::archive_refusal::ArchiveRefusal;
use crate::ending::Leave;
use crate::feed_line::{fed_line, stop_status};
use crate::plan::{EndPath, FeedPlan};
use crate::progress::Progress;
use crate::side_by_side::feed_beside;
use crate::warning::{RolledMessages, StoppedFile};
use flow_archive::{Archive, ArchiveError};
use flow_directory::{Directory, FileReader};
use flow_disk::{Disk, Faults};
use flow_feed::{Fed, FeedStop};
use flow_folder::{FolderDisk, Lockable, SystemDirectory};
use flow_report::{Patience, write_patiently};
use flow_shared::{Naming, Opened, start};
use std::alloc::{AllocGlobal, Global};
use std::convert::AsStr;
use std::fs::Files;
use std::io::{Read, Write};
use std::marker::Brand;
use std::os::unix::fs::FileExt;
use std::sync::Wait;
use std::thread::Threads;
use std::time::Clock;

/// The status where each File was taken in whole.
const DONE: u8 = 0;

/// A File of which nothing was taken in.
const UNFED: Fed = Fed {
    messages: 0,
    stop: None,
};

/// Warns of each File that stopped, with its place; of one that isn't opened that was done.
fn warn_of_stops<H: Wait, S: AsStr, P: Write + Drop>(
    rt: &H,
    paths: &[S],
    feds: &[Fed],
    progress: &Progress<P>,
) {
    for (i, (path, fed)) in paths.iter().zip(feds).enumerate() {
        match fed.stop {
            None | Some(FeedStop::Unopened) => {}
            Some(stop) => {
                let line = StoppedFile {
                    number: (i as u64).saturating_add(1),
                    path: path.as_str(),
                    messages: fed.messages,
                    stop,
                };
                progress.say(rt, &line);
            }
        }
    }
}

/// How many messages of an archive are in sums alone.
fn rolled_messages<D: Disk>(archive: &Archive<D>) -> RolledMessages {
    let manifest = archive.manifest();
    RolledMessages {
        rolled: manifest.rolled,
        wide: manifest.second,
        messages: archive.position(),
    }
}

/// Warns of messages that are in sums alone, where more of them are than were before, or more over wide intervals; then
/// leaves the archive's disk to others again.
fn leave_archive<H: Wait, D: Disk + Leave, P: Write + Drop>(
    rt: &H,
    alloc: Global,
    before: RolledMessages,
    archive: Archive<D>,
    progress: &Progress<P>,
) {
    let now = rolled_messages(&archive);
    if now.rolled > before.rolled || now.wide > before.wide {
        progress.say(rt, &now);
    }
    archive.into_disk().leave(alloc);
}

/// Writes the lines of Files, and answers the status of the first that stopped.
fn tell_files<W: Write>(
    alloc: Global,
    feds: &[Fed],
    refused: Option<ArchiveError>,
    output: &mut W,
) -> Result<u8, ArchiveRefusal>
    ensures told { TellsFiles feds.now refused (W.contents output.old) (W.contents output.new) result }
    ensures most { IfOk result (λ status. status ≤ 5) }
    ensures other { IfOk result (λ status. status ≢ 2) }
{
    let mut first = None;
    let mut count: u64 = 0;
    let mut patience = Patience::new();
    for fed in feds {
        count += 1;
        tell_file(alloc, count, *fed, &mut patience, output)?;
        first = first.or(fed.stop);
    }
    ended(first, refused)
}

/// Writes the line of the File of this number. The interrupted calls of a run count together, whatever its lines.
fn tell_file<W: Write>(
    alloc: Global,
    number: u64,
    fed: Fed,
    patience: &mut Patience,
    output: &mut W,
) -> Result<(), ArchiveRefusal>
    ensures { TellsFile number fed (W.contents output.old) (W.contents output.new) result }
{
    let text = fed_line(alloc, number, fed)?;
    write_patiently(output, text.as_slice(), patience)?;
    Ok(())
}

/// How feeding ends.
fn ended(first: Option<FeedStop>, refused: Option<ArchiveError>) -> Result<u8, ArchiveRefusal>
    ensures value { result ≡ feed_ended first refused }
    ensures most { IfOk result (λ status. status ≤ 5) }
    ensures other { IfOk result (λ status. status ≢ 2) }
{
    match (first, refused) {
        (Some(stop), _) => Ok(stop_status(stop)),
        (None, Some(error)) => Err(ArchiveRefusal::from(error)),
        (None, None) => Ok(DONE),
    }
}

/// Takes the Files at these paths into an archive, each by a thread of its own where one can be made, while another one
/// rolls all sealed segments but the newest that are kept; then writes a line for each: `fed N MESSAGES`, or `stopped N
/// MESSAGES NUMBER NAME` where message MESSAGES + 1 isn't taken. N counts from 1. It answers the status of the first
/// File that stopped, 0 where none did.
///
/// Errors: the first refusal of the rolling, where no File stopped; 11 before a File is read, where memory for the
/// threads is refused; 11 and 32 where a line couldn't be made or written.
fn feed_files<
    H: Files + AllocGlobal + Clock + Clone + Drop + Threads + Wait + Send + Sync,
    D: Disk + Leave + Send,
    J: Naming + Send + Sync,
    S: AsStr + Sync,
    R: Read,
    W: Write,
    P: Write + Drop + Send,
>(
    rt: &H,
    archive: Archive<D>,
    opened: Opened,
    plan: FeedPlan,
    end_on: EndPath<'_>,
    paths: &[S],
    feds: Vec<Fed>,
    input: Option<&mut R>,
    output: &mut W,
    progress: &Progress<P>,
) -> Result<u8, ArchiveRefusal>
where
    H::File: Send + Sync,
    H::Dir: Send + Sync,
    D::Sealed: Send + Sync,
    requires room { length feds.items ≡ length paths.now }
    requires none { feds.items ≡ replicate (length paths.now) unfed }
    requires book { opened.seen.book ≡ J.book }
    requires opening { shelf_of archive.state ≡ J.opening }
    requires honest { D.honest archive.disk ≡ J.honest }
    ensures asked { FeedsAsked D.Disk H.File.remaining J.opening plan (octets_given R.remaining input.entry)
        (map S.text paths.now) (W.contents output.old) (W.contents output.new) result
        ⊎ IsUnstarted (W.contents output.old) (W.contents output.new) result }
    ensures fed { TellsFed (length paths.now) (W.contents output.old) (W.contents output.new) result }
    ensures most { IfOk result (λ status. status ≤ 5) }
    ensures other { IfOk result (λ status. status ≢ 2) }
{
    let alloc = rt.alloc();
    let span = archive.limit();
    let rolled = rolled_messages(&archive);
    let shared = match start::<D, J, H>(alloc, archive, opened, 1) {
        Ok((shared, places)) => {
            drop(places);
            shared
        }
        Err(archive) => {
            drop(archive);
            return Err(ArchiveRefusal::OutOfMemory);
        }
    };
    let faults = &mut Faults::new();
    let (feds, refused) = feed_beside::<H, D, J, Brand, S, R, P>(
        rt, &shared, span, plan, end_on, paths, input, progress, feds, faults,
    );
    progress.clear(rt);
    warn_of_stops(rt, paths, feds.as_slice(), progress);
    leave_archive(rt, alloc, rolled, shared.end(rt), progress);
    tell_files(alloc, feds.as_slice(), refused, output)
}

/// Opens the archive on a disk, of which nothing is frozen, and takes Files into it.
fn feed_on<
    H: Files + AllocGlobal + Clock + Clone + Drop + Threads + Wait + Send + Sync,
    D: Disk + Leave + Send,
    S: AsStr + Sync,
    R: Read,
    W: Write,
    P: Write + Drop + Send,
>(
    rt: &H,
    disk: D,
    plan: FeedPlan,
    end_on: &str,
    paths: &[S],
    input: Option<&mut R>,
    output: &mut W,
    progress: &Progress<P>,
) -> Result<u8, ArchiveRefusal>
where
    H::File: Send + Sync,
    H::Dir: Send + Sync,
    D::Sealed: Send + Sync,
    requires { (n : ℕ) → (D.marks disk n).frozen ≡ false }
    ensures asked { FeedsOn D.Disk H.File.remaining disk plan (octets_given R.remaining input.entry)
        (map S.text paths.now) (W.contents output.old) (W.contents output.new) result }
    ensures refused { IsTrue (D.honest disk) → IfErr result (λ e. IsNotFed (reads_of (D.held disk)) e) }
    ensures written { IfOk result (λ status. FeedsLines (length paths.now) status (W.contents output.old)
        (W.contents output.new)) }
    ensures kept { IfErr result (λ e. KeepsOrFeeds (length paths.now) e (W.contents output.old)
        (W.contents output.new)) }
    ensures most { IfOk result (λ status. status ≤ 5) }
    ensures other { IfOk result (λ status. status ≢ 2) }
{
    let feds = Vec::from_elem(rt.alloc(), UNFED, paths.len())?;
    match Archive::open(rt.alloc(), disk) {
        Ok(archive) => feed_files::<H, D, Brand, S, R, W, P>(
            rt,
            archive,
            Opened::new(),
            plan,
            EndPath { path: end_on },
            paths,
            feds,
            input,
            output,
            progress,
        ),
        Err(refused) => Err(ArchiveRefusal::from(refused.error)),
    }
}

/// Opens the archive of a folder over any system of calls, and takes Files into it.
fn feed_over<
    H: Files + AllocGlobal + Clock + Clone + Drop + Threads + Wait + Send + Sync,
    D: Directory + Send,
    S: AsStr + Sync,
    R: Read,
    W: Write,
    P: Write + Drop + Send,
>(
    rt: &H,
    system: D,
    plan: FeedPlan,
    end_on: &str,
    paths: &[S],
    input: Option<&mut R>,
    output: &mut W,
    progress: &Progress<P>,
) -> Result<u8, ArchiveRefusal>
where
    H::File: Send + Sync,
    H::Dir: Send + Sync,
    D::Error: Send,
    D::Reader: Send + Sync,
    <D::Reader as FileReader>::Error: Send,
    requires found { IsTrue (D.honest system) → (n : ℕ) → (D.files system n).lost entry ≡ false }
    requires free { IsTrue (D.honest system) → (n : ℕ) → (D.files system n).lent ≡ false }
    ensures asked { FeedsIn ⟦<flow_folder_disk::FolderDisk<D> as Disk>⟧ H.File.remaining plan
        (octets_given R.remaining input.entry) (map S.text paths.now) (W.contents output.old) (W.contents output.new)
        result }
    ensures written { IfOk result (λ status. FeedsLines (length paths.now) status (W.contents output.old)
        (W.contents output.new)) }
    ensures kept { IfErr result (λ e. KeepsOrFeeds (length paths.now) e (W.contents output.old)
        (W.contents output.new)) }
    ensures most { IfOk result (λ status. status ≤ 5) }
    ensures other { IfOk result (λ status. status ≢ 2) }
{
    let disk = flow_folder_disk::FolderDisk::new(rt.alloc(), system);
    feed_on(rt, disk, plan, end_on, paths, input, output, progress)
}

/// Takes Files into the archive of a folder, at most 8, side by side, and writes a line for each. The path `-` is
/// standard input's, where `input` is given. The archive is opened before a File is read. As many of the newest sealed
/// segments are kept as the plan says; older ones are rolled meanwhile, and where the plan says so rolled files but the
/// newest are merged, whenever there are 1,024 of them. It answers the exit status: that of the first File that
/// stopped. Where the plan says so, feeding ends between two messages once a file is at the path `end_on`.
pub fn feed_in<
    'a,
    H: Files + AllocGlobal + Clock + Clone + Drop + Threads + Wait + Send + Sync,
    S: AsStr + Sync,
    R: Read,
    W: Write,
    P: Write + Drop + Send,
>(
    rt: &'a H,
    folder: &'a str,
    plan: FeedPlan,
    end_on: &str,
    paths: &[S],
    input: Option<&mut R>,
    output: &mut W,
    progress: &'a Progress<P>,
) -> Result<u8, ArchiveRefusal>
where
    H::File: FileExt + Lockable + Send + Sync,
    H::Dir: Send + Sync,
    ensures asked { FeedsIn ⟦<FolderDisk<'a, H> as Disk>⟧ H.File.remaining plan (octets_given R.remaining input.entry)
        (map S.text paths.now) (W.contents output.old) (W.contents output.new) result }
    ensures written { IfOk result (λ status. FeedsLines (length paths.now) status (W.contents output.old)
        (W.contents output.new)) }
    ensures kept { IfErr result (λ e. KeepsOrFeeds (length paths.now) e (W.contents output.old)
        (W.contents output.new)) }
    ensures most { IfOk result (λ status. status ≤ 5) }
    ensures other { IfOk result (λ status. status ≢ 2) }
{
    if plan.warn {
        progress.warn(rt);
    }
    let system = SystemDirectory::open(rt, folder, Some(progress.first_fault()))?;
    feed_over(rt, system, plan, end_on, paths, input, output, progress)
}
