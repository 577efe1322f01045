//! An archive on a disk in memory that threads share.

ghost use Rattle.std.specs.Prelude.{◌≡◌};
ghost use Rattle.flow_model.specs.Shelved.{shelf_of};

use crate::archives::in_memory;
use crate::places::{away, entering, first};
use crate::threads::{lets_in, meet_over};
use flow_archive::{Archive, ArchiveError};
use flow_disk::{Disk, SealedFile};
use flow_memory_disk::MemoryDisk;
use flow_shared::{ArchiveReader, Naming, Opened, SharedArchive, start};
use flow_snapshot::Snapshot;
use std::alloc::Global;
use std::marker::Brand;
use std::process::Abort;
use std::sync::Wait;
use std::test::*;
use std::thread::Threads;

/// What is tried with an archive of one sealed message that threads share.
#[derive(Clone, Copy)]
enum Trial {
    /// Four turns of rolling, of which the second is held until an append is answered.
    Rolling,
    /// Each of 16 places takes 100 snapshots, none of which is refused.
    Places,
}

/// How many messages a snapshot has after that, and how many of them are rolled.
fn found_after(trial: Trial) -> (u64, u64) {
    match trial {
        Trial::Rolling => (2, 1),
        Trial::Places => (17, 0),
    }
}

/// Tries it.
fn is_so<D: Disk + Send, J: Naming + Send + Sync, W: Wait + Threads + Send + Sync>(
    rt: &W,
    alloc: Global,
    shared: &SharedArchive<D, J, W>,
    readers: &mut [ArchiveReader<D::Sealed, J>],
    trial: Trial,
) -> bool
where
    D::Sealed: Send + Sync,
{
    match trial {
        Trial::Rolling => lets_in(rt, alloc, shared),
        Trial::Places => entering(rt, alloc, shared, readers) == 16,
    }
}

/// Whether none of 16 places is entered now that nobody shows anything, while a snapshot that was taken before is still
/// answered.
fn is_left<S: SealedFile, J: Naming>(
    readers: &mut [ArchiveReader<S, J>],
    snapshot: &Option<Snapshot<S>>,
    trial: Trial,
) -> bool {
    match snapshot {
        Some(snapshot) => {
            let found = (snapshot.position(), snapshot.cut());
            away(readers) == 16 && found == found_after(trial)
        }
        None => false,
    }
}

/// Tries it, and ends the sharing: whether it is so, whether the archive is open then, and whether the places are left.
fn tried_and_ended<
    D: Disk + Send,
    J: Naming + Send + Sync,
    W: Wait + Threads + Abort + Send + Sync,
>(
    rt: &W,
    alloc: Global,
    shared: SharedArchive<D, J, W>,
    readers: &mut [ArchiveReader<D::Sealed, J>],
    trial: Trial,
) -> [bool; 3]
where
    D::Sealed: Send + Sync,
{
    let is_so = is_so(rt, alloc, &shared, readers, trial);
    let snapshot = first(readers);
    let ended = shared.end(rt);
    let is_open = !ended.is_closed();
    drop(ended);
    let is_left = is_left(readers, &snapshot, trial);
    drop(snapshot);
    [is_so, is_open, is_left]
}

/// Lets threads share an archive, with 16 readers, and tries it; none where they can't. What is sent to a thread has
/// bounds that a trait's method can't have.
fn share<D: Disk + Send, J: Naming + Send + Sync, W: Wait + Threads + Abort + Send + Sync>(
    rt: &W,
    alloc: Global,
    archive: Archive<D>,
    opened: Opened,
    trial: Trial,
) -> Option<[bool; 3]>
where
    D::Sealed: Send + Sync,
    requires book { opened.seen.book ≡ J.book }
    requires opening { shelf_of archive.state ≡ J.opening }
    requires honest { D.honest archive.disk ≡ J.honest }
{
    match start::<D, J, W>(alloc, archive, opened, 16) {
        Ok((shared, readers)) => {
            let mut readers = readers;
            let ended = tried_and_ended(rt, alloc, shared, readers.as_mut_slice(), trial);
            drop(readers);
            Some(ended)
        }
        Err(refused) => {
            drop(refused);
            None
        }
    }
}

/// The same of one on a disk in memory.
fn tried<W: Wait + Threads + Abort + Send + Sync>(
    rt: &W,
    alloc: Global,
    trial: Trial,
) -> Result<(), Fail> {
    let archive = in_memory(alloc)?;
    let ended = share::<MemoryDisk, Brand, W>(rt, alloc, archive, Opened::new(), trial);
    assert_eq!(rt; ended, Some([true; 3]));
    Ok(())
}

#[test]
fn roller_lets_append(rt: HostRuntime) -> Result<(), Fail> {
    tried(&rt, rt.alloc(), Trial::Rolling)
}

#[test]
fn places_enter(rt: HostRuntime) -> Result<(), Fail> {
    tried(&rt, rt.alloc(), Trial::Places)
}

/// Whether workers meet over an archive in memory.
fn meet_in_memory<R: Threads + Sync>(rt: &R, alloc: Global) -> Result<bool, ArchiveError> {
    let mut archive = in_memory(alloc)?;
    let are_met = meet_over(rt, alloc, &mut archive);
    drop(archive);
    Ok(are_met)
}

#[test]
fn workers_meet(rt: HostRuntime) -> Result<(), Fail> {
    assert!(rt; meet_in_memory(&rt, rt.alloc())?);
    Ok(())
}
