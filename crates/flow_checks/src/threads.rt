//! Threads beside each other: workers of a scan, and the one that rolls beside one that appends.

use crate::archives::FLOW;
use crate::meeting::Meeting;
use flow_archive::Archive;
use flow_disk::{Disk, Faults, SealedFile};
use flow_roller::{roll_worker, scan_by_parts};
use flow_shared::{Naming, SharedArchive};
use flow_snapshot::Snapshot;
use std::alloc::Global;
use std::sync::Wait;
use std::thread::{Threads, join};

/// Whether four turns are made, as many as are asked for.
fn rolls<D: Disk, J: Naming, W: Wait>(
    rt: &W,
    alloc: Global,
    shared: &SharedArchive<D, J, W>,
    meeting: &Meeting,
) -> bool {
    matches!(
        roll_worker(shared, rt, alloc, meeting, 0, 4, &mut Faults::new()),
        Ok(4)
    )
}

/// Appends a message while the second turn is held, and says whether it was answered.
fn appends<D: Disk, J: Naming, W: Wait>(
    rt: &W,
    alloc: Global,
    shared: &SharedArchive<D, J, W>,
    meeting: &Meeting,
) -> bool {
    meeting.wait_for(1);
    let is_answered = shared.append(rt, alloc, &FLOW).is_ok();
    meeting.come();
    is_answered
}

/// Whether four turns are made, and a message is appended beside them while the second is held.
pub(crate) fn lets_in<D: Disk + Send, J: Naming + Send + Sync, W: Wait + Threads + Send + Sync>(
    rt: &W,
    alloc: Global,
    shared: &SharedArchive<D, J, W>,
) -> bool
where
    D::Sealed: Send + Sync,
{
    let meeting = Meeting::new();
    let gate = &meeting;
    let (turns, answered) = join(
        rt,
        move || rolls(rt, alloc, shared, gate),
        move || appends(rt, alloc, shared, gate),
    );
    turns && answered && meeting.is_met()
}

/// Whether two workers, each of which waits for the other, find one row.
fn meet<S: SealedFile + Send + Sync, R: Threads + Sync>(
    rt: &R,
    alloc: Global,
    snapshot: &Snapshot<S>,
) -> bool {
    let meeting = Meeting::new();
    let faults = &mut Faults::new();
    match scan_by_parts(snapshot, rt, alloc, &meeting, 2, 0, 1 << 32, faults) {
        Ok(rows) => rows.len() == 1 && meeting.is_met(),
        Err(_) => false,
    }
}

/// Whether they do over an archive of one row.
pub(crate) fn meet_over<D: Disk, R: Threads + Sync>(
    rt: &R,
    alloc: Global,
    archive: &mut Archive<D>,
) -> bool
where
    D::Sealed: Send + Sync,
{
    match archive.directory(alloc) {
        Ok(directory) => meet(rt, alloc, &directory.into_snapshot()),
        Err(_) => false,
    }
}
