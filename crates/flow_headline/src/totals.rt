//! Totals after a stop.

ghost use Rattle.std.specs.Prelude.{◌≡◌, false, All, IfErr, IfOk};
ghost use Rattle.flow_measure.specs.Query.{totals_in_view};
ghost use Rattle.flow_measure.specs.View.{View};
ghost use Rattle.flow_model.specs.Views.{IsViewOf};
ghost use Rattle.flow_model.specs.Shelved.{shelf_of};
ghost use Rattle.flow_archive.specs.Runs.{IsEvent};
ghost use Rattle.flow_headline.specs.Front.{EndsAtFault};
ghost use Rattle.flow_headline.specs.Machine.{AreTotals, IsRefusal, IsUnanswered};

use crate::error::TotalsRefusal;
use crate::reopening::{Reopened, run_and_open};
use flow_archive::{Answer, Archive, ArchiveError, Event};
use flow_disk::Faults;
use flow_measure::Row;
use flow_memory_disk::{Choice, FusedDisk, MemoryDisk};
use flow_refusals::ReadRefusal;
use std::alloc::Global;

/// The answers of events, and totals that were asked after a stop.
#[derive(Drop)]
pub struct StoppedTotals {
    /// One for each event.
    pub answers: Vec<Result<Answer, ArchiveError>>,
    /// The rows of the span.
    pub rows: Vec<Row>,
}

/// Runs events on an archive over a disk that fails from some call on, stops the machine there, opens what the stop
/// left, and asks a snapshot of it for the totals of a span, from `from` on and before `to`, both in seconds since
/// 1970-01-01 00:00 UTC.
///
/// Errors: those of `run_and_open`; and of the query `OutOfMemory`, or `Damaged` where sums don't fit their types.
/// Reads of files in memory never fail: if one did, that would be answered as `OutOfMemory` too.
pub fn totals_after_a_stop(
    alloc: Global,
    archive: Archive<FusedDisk<MemoryDisk>>,
    events: &[Event],
    choice: Choice<'_>,
    from: u64,
    to: u64,
) -> Result<StoppedTotals, TotalsRefusal>
    requires events { All IsEvent events.now }
    requires still_open { archive.closed ≡ false }
    // The events were run, with these answers, and the machine was stopped by this choice. The rows are the totals of
    // all messages of what was left, which is the archive after a prefix of the events: of those that were there
    // before, and of those of the prefix, each counted once.
    ensures totals { IfOk result
        (λ t. AreTotals archive events.now t.answers.items choice.entry from to t.rows.items) }
    ensures behind { IfOk result (λ t. EndsAtFault t.answers.items) }
    // Refused only where memory runs out, where no stop leaves what was chosen, or where sums don't fit their types.
    ensures refused { IfErr result (λ e. IsRefusal archive events.now choice.entry e) }
{
    let Reopened { answers, archive } = run_and_open(alloc, archive, events, choice)?;
    match last_rows_of(alloc, archive, from, to) {
        Ok(rows) => Ok(StoppedTotals { answers, rows }),
        Err(refused) => Err(refused),
    }
}

/// The totals of an archive in memory, which is given up.
fn last_rows_of(
    alloc: Global,
    mut archive: Archive<MemoryDisk>,
    from: u64,
    to: u64,
) -> Result<Vec<Row>, TotalsRefusal>
    ensures rows { IfOk result (λ rows. (v : View) → IsViewOf (shelf_of archive.state) v
        → rows.items ≡ totals_in_view from to v) }
    ensures refused { IfErr result (λ e. IsUnanswered archive.state e) }
{
    rows_of(alloc, &mut archive, from, to)
}

/// The totals of an archive in memory.
fn rows_of(
    alloc: Global,
    archive: &mut Archive<MemoryDisk>,
    from: u64,
    to: u64,
) -> Result<Vec<Row>, TotalsRefusal>
    ensures rows { IfOk result (λ rows. (v : View) → IsViewOf (shelf_of archive.old.state) v
        → rows.items ≡ totals_in_view from to v) }
    ensures refused { IfErr result (λ e. IsUnanswered archive.old.state e) }
{
    let snapshot = archive.directory(alloc)?.into_snapshot();
    match snapshot.totals(alloc, from, to, &mut Faults::new()) {
        Ok(rows) => Ok(rows),
        Err(ReadRefusal::Damaged(file, at)) => {
            Err(TotalsRefusal::NotAnswered(ReadRefusal::Damaged(file, at)))
        }
        Err(ReadRefusal::Fault | ReadRefusal::OutOfMemory) => {
            Err(TotalsRefusal::NotAnswered(ReadRefusal::OutOfMemory))
        }
    }
}
