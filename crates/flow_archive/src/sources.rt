//! What a job reads of one source.

ghost use Rattle.std.specs.Prelude.{◌≡◌, ◌<◌, IsTrue, IfOk, OnErr, MatchResult};
ghost use Rattle.flow_disk.specs.Cause.{HasCause};
ghost use Rattle.flow_manifest.specs.declared.manifest.Entry.{Entry};
ghost use Rattle.flow_measure.specs.History.{flows_in};
ghost use Rattle.flow_measure.specs.Sums.{table_of, widened, Table};
ghost use Rattle.flow_rolled.specs.Rollup.{IsRollup};
ghost use Rattle.flow_rolled.specs.Stored.{export_time};
ghost use Rattle.flow_segment.specs.Carry.{Carry};
ghost use Rattle.flow_segment.specs.PartFlows.{greatest_time};
ghost use Rattle.flow_segment.specs.Segment.{part_octets};
ghost use Rattle.flow_model.specs.State.{Part};
ghost use Rattle.flow_model.specs.Chain.{IsSegment};
ghost use Rattle.flow_model.specs.Standing.{IsSealedAt};
ghost use Rattle.flow_archive.specs.Sources.{of_source, IsSummed};
ghost use Rattle.flow_archive.specs.Sources.{IsFileRefusal, IsFileSum, IsSegmentRefusal, IsSegmentSum};
ghost use Rattle.flow_archive.specs.Sources.{IsMerged, IsNotTakenUp, IsTakenUp};

use crate::refusal::ArchiveError;
use flow_disk::{Faults, SealedFile, Window};
use flow_measure::{Rows, Trial};
use flow_refusals::SumRefusal;
use flow_rolled::{RolledPart, sum_rows};
use flow_segment::{Adding, SealedPart, add_flows, templates_of};
use std::alloc::Global;
use std::mem::replace;

/// What is read of a rolled file.
#[derive(Drop)]
pub(crate) struct Source {
    /// Its sums.
    pub(crate) rows: Rows,
    /// The greatest Export Time in it, in seconds since 1970-01-01 00:00 UTC.
    pub(crate) time: u32,
}

/// What an archive answers where the source with the number `file` isn't summed, of a job whose first source has the
/// number `first`.
pub(crate) fn of_source(error: SumRefusal, first: u64, file: u64) -> ArchiveError
    ensures { result ≡ of_source first file error }
{
    match error {
        SumRefusal::Damaged(_, at) => ArchiveError::Damaged(file, at),
        SumRefusal::SumSpent => ArchiveError::Damaged(first, 0),
        SumRefusal::Fault => ArchiveError::SourceFault,
        SumRefusal::OutOfMemory => ArchiveError::OutOfMemory,
    }
}

/// Adds the flows of a sealed segment to sums, and answers the greatest Export Time of its messages, in seconds since
/// 1970-01-01 00:00 UTC. Its file is read once, a piece at a time, in the memory of `window`. A refusal leaves the sums
/// as they were.
pub(crate) fn add_segment<S: SealedFile>(
    alloc: Global,
    part: &SealedPart<S>,
    window: &mut Window,
    rows: &mut Rows,
    faults: &mut Faults<S>,
) -> Result<u32, SumRefusal>
    ensures kept { OnErr result (rows.new ≡ rows.old) }
    ensures width { rows.new.width ≡ rows.old.width }
    ensures cause { HasCause SumRefusal.Fault faults.old faults.new result }
    // On an honest disk, damaged or not: the flows of a segment that was read whole are added; or why they aren't.
    ensures found { IsTrue (S.honest part.now.reader) → MatchResult result
        (IsTakenUp (IsSegmentSum rows.old.width (part_octets 0 part.now.prefix (S.octets part.now.reader))
        (part_octets part.now.prefix part.now.length (S.octets part.now.reader)) part.now.messages) rows.old rows.new)
        (IsNotTakenUp (IsSegmentSum rows.old.width (part_octets 0 part.now.prefix (S.octets part.now.reader))
        (part_octets part.now.prefix part.now.length (S.octets part.now.reader)) part.now.messages)
        (IsSegmentRefusal (part_octets 0 part.now.prefix (S.octets part.now.reader))
        (part_octets part.now.prefix part.now.length (S.octets part.now.reader)) (S.number part.now.reader)
        part.now.prefix part.now.length part.now.messages) rows.old) }
    // On an honest disk: where the file holds a segment of accepted messages, its flows are added, and the greatest
    // Export Time is that of its messages.
    ensures given { IsTrue (S.honest part.now.reader) → (entry : Entry) (p : Part) (carry : Carry)
        → part.now.prefix ≡ entry.prefix → part.now.length ≡ entry.length → part.now.messages ≡ entry.messages
        → IsSealedAt (S.octets part.now.reader) entry p → (segment : IsSegment p carry)
        → IsMerged (table_of rows.old.width (flows_in segment.messages)) (greatest_time segment.messages) rows.old
        rows.new result }
{
    let mut templates = templates_of(alloc, part, faults)?;
    let none = Rows::new(alloc, rows.width());
    let mut adding = Adding {
        rows: Trial::new(alloc, replace(rows, none)),
        spent: false,
    };
    match add_flows(alloc, part, window, &mut templates, &mut adding, faults) {
        Ok(time) => {
            *rows = adding.rows.keep();
            Ok(time)
        }
        Err(error) => {
            *rows = adding.rows.take_back();
            Err(error)
        }
    }
}

/// The sums of a rolled file, which was rolled by `width`, over intervals of `wide`, both in seconds. It is read once,
/// a piece at a time.
fn sum_file<S: SealedFile>(
    alloc: Global,
    part: &RolledPart<S>,
    width: u32,
    wide: u32,
    faults: &mut Faults<S>,
) -> Result<Source, SumRefusal>
    requires width { 0 < width }
    requires wide { 0 < wide }
    ensures width { IfOk result (λ source. source.rows.width ≡ wide) }
    ensures cause { HasCause SumRefusal.Fault faults.old faults.new result }
    // On an honest disk, damaged or not: the sums of a file that was read whole; or why it has none.
    ensures found { IsTrue part.now.honest
        → MatchResult result (IsFileSum width wide part.now.octets) (IsFileRefusal width wide part.now.octets) }
    // On an honest disk: of the rolled file of a table, that table's sums over intervals of `wide`.
    ensures given { IsTrue part.now.honest → (table : Table) → IsRollup width part.now.octets table
        → IsSummed (widened wide table) (export_time part.now.octets) result }
{
    let time = part.export_time(alloc, faults)?;
    let mut rows = Rows::new(alloc, wide);
    sum_rows(alloc, faults, part, width, &mut rows)?;
    Ok(Source { rows, time })
}

/// Adds the sums of a rolled file, which was rolled by `width` in seconds, to sums of the same or another width, and
/// answers its greatest Export Time, in seconds since 1970-01-01 00:00 UTC. It is read once, a piece at a time. A
/// refusal leaves the sums as they were.
pub(crate) fn add_file<S: SealedFile>(
    alloc: Global,
    part: &RolledPart<S>,
    width: u32,
    rows: &mut Rows,
    faults: &mut Faults<S>,
) -> Result<u32, SumRefusal>
    requires { 0 < width }
    ensures kept { OnErr result (rows.new ≡ rows.old) }
    ensures width { rows.new.width ≡ rows.old.width }
    ensures cause { HasCause SumRefusal.Fault faults.old faults.new result }
    // On an honest disk, damaged or not: the sums of a file that was read whole are added; or why they aren't.
    ensures found { IsTrue part.now.honest → MatchResult result
        (IsTakenUp (IsFileSum width rows.old.width part.now.octets) rows.old rows.new)
        (IsNotTakenUp (IsFileSum width rows.old.width part.now.octets)
        (IsFileRefusal width rows.old.width part.now.octets) rows.old) }
    // On an honest disk: of the rolled file of a table, that table's sums are added.
    ensures given { IsTrue part.now.honest → (table : Table) → IsRollup width part.now.octets table
        → IsMerged (widened rows.old.width table) (export_time part.now.octets) rows.old rows.new result }
{
    let source = sum_file(alloc, part, width, rows.width(), faults)?;
    rows.merge(&source.rows)?;
    Ok(source.time)
}
