//! Whether messages that are in sums alone may have flows of a span.

ghost use Rattle.std.specs.Prelude.{◌≡◌, ◌||◌, IsTrue};
ghost use Rattle.flow_disk.specs.Cause.{HasCause};
ghost use Rattle.flow_export.specs.Span.{has_row, meets_sums};
ghost use Rattle.flow_measure.specs.View.{View};
ghost use Rattle.flow_model.specs.Views.{IsViewOf};
ghost use Rattle.flow_snapshot.specs.Totals.{first_file, IsMade, SumsFit};

use crate::starting::TimeSpan;
use flow_disk::{Faults, SealedFile};
use flow_measure::Rows;
use flow_refusals::ReadRefusal;
use flow_snapshot::{PartSums, Snapshot};
use std::alloc::Global;

/// Whether there are sums over an interval that has a moment of a span.
fn has_row(rows: &Rows, span: TimeSpan) -> bool
    ensures { result ≡ has_row span.from span.to rows.now.width rows.now.sums }
{
    let width = u64::from(rows.width());
    let mut walk = rows.walk();
    'rows: while let Some((key, _)) = walk.next() {
        let start = u64::from(key.start);
        if span.from.max(start) < span.to.min(start + width) {
            return true;
        }
    }
    false
}

/// Whether there are such sums by either width.
fn has_either_row(sums: &PartSums, span: TimeSpan) -> bool
    ensures { result ≡ (has_row span.from span.to (sums.now.wide).width (sums.now.wide).sums
        || has_row span.from span.to (sums.now.narrow).width (sums.now.narrow).sums) }
{
    has_row(&sums.wide, span) || has_row(&sums.narrow, span)
}

/// Whether messages that are in sums alone may have flows of a span: there are sums over an interval that has a moment
/// of it. It reads the files of sums alone, and refuses as `totals` does.
pub fn meets_sums<S: SealedFile>(
    alloc: Global,
    snapshot: &Snapshot<S>,
    span: TimeSpan,
    faults: &mut Faults<S>,
) -> Result<bool, ReadRefusal>
    ensures cause { HasCause ReadRefusal.Fault faults.old faults.new result }
    // By each view of the files; damage is reported only where there is none, or where its sums don't fit their types.
    ensures given { IsTrue snapshot.now.honest → (v : View) → IsViewOf snapshot.now.shelf v
        → IsMade (first_file snapshot.now.shelf) (SumsFit v) (λ meets. meets ≡ meets_sums span.from span.to v) result }
{
    let files = snapshot.summed_files();
    // As many workers as there are parts: the first ones have a file of sums each.
    let parts = files.saturating_add(snapshot.kept_files());
    let Ok(workers) = u32::try_from(parts) else {
        return Err(ReadRefusal::OutOfMemory);
    };
    let first = snapshot.first_file();
    for worker in 0..files as u32 {
        let sums = snapshot.share(alloc, first, workers, worker, faults)?;
        if has_either_row(&sums, span) {
            return Ok(true);
        }
    }
    Ok(false)
}
