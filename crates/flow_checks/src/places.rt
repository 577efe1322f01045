//! Places of readers.

use crate::archives::FLOW;
use flow_disk::{Disk, SealedFile};
use flow_shared::{ArchiveReader, Naming, ReaderError, SharedArchive};
use flow_snapshot::Snapshot;
use std::alloc::Global;
use std::sync::Wait;

/// Whether the message of this number is the last one of each of 100 snapshots.
fn is_shown<S: SealedFile, J: Naming>(reader: &mut ArchiveReader<S, J>, position: u64) -> bool {
    for _ in 0..100 {
        match reader.snapshot() {
            Ok(snapshot) if snapshot.position() == position => {}
            _ => return false,
        }
    }
    true
}

/// Whether a message is appended that a reader is shown at once, in each of 100 snapshots.
fn enters<D: Disk, J: Naming, W: Wait>(
    rt: &W,
    alloc: Global,
    shared: &SharedArchive<D, J, W>,
    reader: &mut ArchiveReader<D::Sealed, J>,
) -> bool {
    match shared.append(rt, alloc, &FLOW) {
        Ok(receipt) => receipt.shown && is_shown(reader, receipt.position),
        Err(_) => false,
    }
}

/// How many of these places each have such a message.
pub(crate) fn entering<D: Disk, J: Naming, W: Wait>(
    rt: &W,
    alloc: Global,
    shared: &SharedArchive<D, J, W>,
    readers: &mut [ArchiveReader<D::Sealed, J>],
) -> usize {
    let mut count = 0usize;
    for reader in readers {
        if enters(rt, alloc, shared, reader) {
            count = count.saturating_add(1);
        }
    }
    count
}

/// A snapshot of the first place.
pub(crate) fn first<S: SealedFile, J: Naming>(
    readers: &mut [ArchiveReader<S, J>],
) -> Option<Snapshot<S>> {
    readers.first_mut()?.snapshot().ok()
}

/// How many of these places can't be entered, since nobody shows anything now.
pub(crate) fn away<S: SealedFile, J: Naming>(readers: &mut [ArchiveReader<S, J>]) -> usize {
    let mut count = 0usize;
    for reader in readers {
        if matches!(reader.snapshot(), Err(ReaderError::Away)) {
            count = count.saturating_add(1);
        }
    }
    count
}
