//! Parts that a query of a span reads: those that aren't known to have nothing in it.

ghost use Rattle.std.specs.Prelude.{◌≡◌, ◌<◌, IfOk, IsTrue, map};
ghost use Rattle.std.specs.List.{list_all};
ghost use Rattle.flow_snapshot.specs.Files.{is_honest, is_honest_sum, rollup_of, segment_of, shared};
ghost use Rattle.flow_snapshot.specs.Shares.{IsFileSum, IsSegmentSum};
ghost use Rattle.flow_snapshot.specs.Spans.{LeavesOut};

use flow_disk::SealedFile;
use flow_rolled::RolledPart;
use flow_segment::SealedPart;
use std::alloc::{AllocError, Global};
use std::sync::Arc;

/// Those files of sums by `width`, in seconds, that aren't known to have no interval that starts from `from` on and
/// before `to`.
pub(crate) fn sums_within<S: SealedFile>(
    alloc: Global,
    parts: &[Arc<RolledPart<S>>],
    width: u32,
    from: u64,
    to: u64,
) -> Result<Vec<Arc<RolledPart<S>>>, AllocError>
    requires { 0 < width }
    ensures honest { IsTrue (list_all is_honest_sum (shared parts.now))
        → IfOk result (λ kept. IsTrue (list_all is_honest_sum (shared kept.items))) }
    // On honest disks: the others have sums, and none there.
    ensures left { IsTrue (list_all is_honest_sum (shared parts.now)) → IfOk result (λ kept.
        LeavesOut (IsFileSum width) from to (map rollup_of (shared parts.now)) (map rollup_of (shared kept.items))) }
{
    let mut kept = Vec::new(alloc);
    for part in parts {
        if !part.is_outside(width, from, to) {
            kept.push(Arc::try_clone(part)?)?;
        }
    }
    Ok(kept)
}

/// Those sealed segments that aren't known to have no flow in an interval of `width` seconds that starts from `from` on
/// and before `to`.
pub(crate) fn segments_within<S: SealedFile>(
    alloc: Global,
    parts: &[Arc<SealedPart<S>>],
    width: u32,
    from: u64,
    to: u64,
) -> Result<Vec<Arc<SealedPart<S>>>, AllocError>
    requires { 0 < width }
    ensures honest { IsTrue (list_all is_honest (shared parts.now))
        → IfOk result (λ kept. IsTrue (list_all is_honest (shared kept.items))) }
    // On honest disks: the others have sums, and none there.
    ensures left { IsTrue (list_all is_honest (shared parts.now)) → IfOk result (λ kept.
        LeavesOut (IsSegmentSum width) from to (map segment_of (shared parts.now))
        (map segment_of (shared kept.items))) }
{
    let mut kept = Vec::new(alloc);
    for part in parts {
        if !part.is_outside(width, from, to) {
            kept.push(Arc::try_clone(part)?)?;
        }
    }
    Ok(kept)
}
