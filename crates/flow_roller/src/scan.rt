//! A query by several threads.

ghost use Rattle.std.specs.Prelude.{◌≡◌, ◌<◌, ◌≤◌, ℕ, IfOk, IsTrue, List};
ghost use Rattle.std.specs.FinMap.{FinMap};
ghost use Rattle.flow_disk.specs.Cause.{HasCause};
ghost use Rattle.flow_measure.specs.History.{History, IsHistory};
ghost use Rattle.flow_measure.specs.declared.rows.Sums.{Sums};
ghost use Rattle.flow_measure.specs.Query.{rows_of_both, totals_between, totals_in_view};
ghost use Rattle.flow_measure.specs.Sums.{key_cmp};
ghost use Rattle.flow_measure.specs.View.{view_of, AreCountsOf, View};
ghost use Rattle.flow_snapshot.specs.Shares.{summed, AreNarrow, AreWide, IsShare};
ghost use Rattle.flow_snapshot.specs.Answered.{IsAnswered};
ghost use Rattle.flow_snapshot.specs.Totals.{first_file, IsMade, IsWithinHistoryLimits, SumsFit};
ghost use Rattle.flow_model.specs.Views.{IsViewOf};

use crate::gate::{Gate, Point};
use flow_disk::{Faults, SealedFile};
use flow_measure::Row;
use flow_refusals::ReadRefusal;
use flow_snapshot::{Share, Snapshot};
use std::alloc::Global;
use std::thread;
use std::thread::Threads;

/// The share of a worker, whose numbers are from 0 on. Sums that don't fit their types are reported of the file
/// `first`.
fn share_of<S: SealedFile, G: Gate>(
    snapshot: &Snapshot<S>,
    alloc: Global,
    gate: &G,
    first: u64,
    workers: u32,
    worker: u32,
) -> Share<S>
    requires { worker < workers }
    ensures cause { HasCause ReadRefusal.Fault 0 result.faults result.sums }
    ensures share { IsShare first snapshot.now workers worker result.sums }
{
    gate.pass(Point::Worker(worker + 1));
    let mut faults = Faults::new();
    let sums = snapshot.share(alloc, first, workers, worker, &mut faults);
    Share { sums, faults }
}

/// What `totals` of the snapshot answers, by so many workers, each a thread of its own where one can be made. Those
/// parts of the archive that may have sums in the span go to them in turn: its files over wide intervals, its rolled
/// files, its sealed segments and the active one, in each list the oldest first. The others aren't read, and no damage
/// of theirs is found. Each worker passes the gate before its first part, also where it has none.
///
/// It refuses as `totals` does; where several workers are refused, it answers as the first of them.
pub fn scan_by_parts<S: SealedFile + Send + Sync, R: Threads + Sync, G: Gate + Sync>(
    snapshot: &Snapshot<S>,
    rt: &R,
    alloc: Global,
    gate: &G,
    workers: u32,
    from: u64,
    to: u64,
    faults: &mut Faults<S>,
) -> Result<Vec<Row>, ReadRefusal>
    requires workers { (0 < workers) × (workers ≤ 64) }
    ensures cause { HasCause ReadRefusal.Fault faults.old faults.new result }
    // On honest disks, also where files are damaged: the totals of all parts, each of which reads whole, with its own
    // prefix: it was read now, or is known to read so, and to have no sums in the span.
    ensures found { IsTrue snapshot.now.honest → IfOk result (λ rows. (wide : List (FinMap key_cmp Sums))
        × (narrow : List (FinMap key_cmp Sums)) × AreWide snapshot.now.shelf wide × AreNarrow snapshot.now.shelf narrow
        × (rows.items ≡ rows_of_both from to (summed snapshot.now.shelf.width narrow)
        (summed snapshot.now.shelf.wide wide))) }
    // What is answered by each view of the files; where its sums fit their types no damage is reported.
    ensures given { IsTrue snapshot.now.honest → (v : View) → IsViewOf snapshot.now.shelf v
        → IsMade (first_file snapshot.now.shelf) (SumsFit v) (λ rows. rows.items ≡ totals_in_view from to v) result }
    // Where the view is that of a history within the limits: its totals, and never damage.
    ensures answered { IsTrue snapshot.now.honest → (h : History) (counts : List ℕ) → IsHistory h
        → AreCountsOf h counts → IsWithinHistoryLimits h → IsViewOf snapshot.now.shelf (view_of h counts)
        → IsAnswered (λ rows. rows.items ≡ totals_between from to h) result }
{
    let first = snapshot.first_file();
    let within = snapshot.within(alloc, from, to)?;
    let parts = &within;
    let work = |i: usize| -> Share<S>
        requires { i < workers }
        ensures { HasCause ReadRefusal.Fault 0 result.faults result.sums
            × IsShare first parts.entry.now workers i result.sums }
    { share_of(parts, alloc, gate, first, workers, i as u32) };
    let shares = thread::map_indices(rt, alloc, workers as usize, &work)?;
    snapshot.totals_of_shares(alloc, parts, from, to, shares, faults)
}
