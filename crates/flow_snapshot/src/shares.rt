//! The sums of an archive's parts, shared among workers: each part falls to one of them, in turn, and is read with
//! nothing but its own file.

ghost use Rattle.std.specs.Prelude.{◌≡◌, ◌≢◌, ◌<◌, IsTrue, IfErr, IfOk, IfSome, List, [], MatchResult, length, map};
ghost use Rattle.std.specs.Prelude.{true, OnOk};
ghost use Rattle.std.specs.FinMap.{FinMap, entries};
ghost use Rattle.std.specs.List.{list_all, AllZip};
ghost use Rattle.flow_disk.specs.Cause.{HasCause};
ghost use Rattle.flow_measure.specs.declared.rows.Sums.{Sums};
ghost use Rattle.flow_measure.specs.Sums.{key_cmp, merged, AllFit, IsRefused};
ghost use Rattle.flow_snapshot.specs.Files.{is_honest, is_honest_sum, rollup_of, segment_of, shared};
ghost use Rattle.flow_snapshot.specs.Shares.{added_if, next_turn, own, turn_after, HaveSums, IsFileSum, IsJoined};
ghost use Rattle.flow_snapshot.specs.Shares.{IsOwnSum, IsRefusedAt, IsSegmentSum};
ghost use Rattle.flow_snapshot.specs.Totals.{with_maps, IsMade};

use crate::interleaving::told_of_sums;
use crate::kept::restated;
use crate::summing::{add_active, add_file, add_part};
use bytes::Bytes;
use flow_disk::{Faults, SealedFile};
use flow_measure::{Key, Rows, SumError, interval_of};
use flow_refusals::ReadRefusal;
use flow_rolled::RolledPart;
use flow_segment::{SealedPart, templates_of};
use std::alloc::Global;
use std::sync::Arc;

/// Sums of some parts of an archive: over intervals of the width, and over wide ones.
#[derive(Drop)]
pub struct PartSums {
    pub narrow: Rows,
    pub wide: Rows,
}

/// What a worker answers, and how many of its reads failed.
#[derive(Drop)]
pub struct Share<S: SealedFile> {
    pub sums: Result<PartSums, ReadRefusal>,
    pub faults: Faults<S>,
}

/// Whether there are no rows.
fn is_empty(rows: &Rows) -> bool
    ensures { IsTrue result → entries rows.now.sums ≡ [] }
{
    rows.walk().next().is_none()
}

/// Adds the sums of other rows, each under the key of the interval that holds its start. After an `Err` some may have
/// been added.
fn add_rows(rows: &mut Rows, other: &Rows) -> Result<(), SumError>
    ensures { rows.old.width ≡ other.now.width → MatchResult result
        (λ _. AllFit (merged rows.old other.now) × (rows.new ≡ merged rows.old other.now))
        (λ e. IsRefused e (merged rows.old other.now)) }
{
    let width = rows.width();
    // Each of its keys has flows.
    let _width = other.width();
    let mut walk = other.walk();
    'rows: while let Some((key, sums)) = walk.next() {
        let start = interval_of(key.start, width);
        rows.put(Key { start, ..key }, sums)?;
    }
    Ok(())
}

/// Adds the sums of other rows, of the same width: no row is copied where there were none. After an `Err` some may have
/// been added.
fn merge_rows(rows: &mut Rows, other: Rows, first: u64) -> Result<(), ReadRefusal>
    ensures given { rows.old.width ≡ other.width → IsMade first (AllFit (merged rows.old other))
        (λ _. rows.new ≡ merged rows.old other) result }
    ensures quiet { IfErr result (λ e. e ≢ ReadRefusal.Fault) }
{
    if is_empty(rows) {
        *rows = other;
        return Ok(());
    }
    match add_rows(rows, &other) {
        Ok(()) => Ok(()),
        Err(error) => Err(told_of_sums(error, first)),
    }
}

impl PartSums {
    /// Adds the sums of other parts, by the same widths. After an `Err` some may have been added.
    fn join(&mut self, other: PartSums, first: u64) -> Result<(), ReadRefusal>
        ensures given { self.old.narrow.width ≡ other.narrow.width → self.old.wide.width ≡ other.wide.width
            → IsMade first (AllFit (merged self.old.narrow other.narrow)
            × AllFit (merged self.old.wide other.wide))
            (λ _. (self.new.narrow ≡ merged self.old.narrow other.narrow)
            × (self.new.wide ≡ merged self.old.wide other.wide)) result }
        ensures quiet { IfErr result (λ e. e ≢ ReadRefusal.Fault) }
    {
        let PartSums { narrow, wide } = other;
        merge_rows(&mut self.narrow, narrow, first)?;
        merge_rows(&mut self.wide, wide, first)
    }
}

/// Adds a worker's sums, where it wasn't refused.
fn add_answer(
    sums: &mut PartSums,
    answer: Result<PartSums, ReadRefusal>,
    first: u64,
) -> Result<(), ReadRefusal>
    ensures given { IsJoined first sums.old answer sums.new result }
{
    match answer {
        Ok(own) => sums.join(own, first),
        Err(error) => Err(error),
    }
}

/// Adds a worker's share, with what its reads have raised.
pub(crate) fn add_share<S: SealedFile>(
    sums: &mut PartSums,
    share: Share<S>,
    first: u64,
    faults: &mut Faults<S>,
) -> Result<(), ReadRefusal>
    requires { HasCause ReadRefusal.Fault 0 share.faults share.sums }
    ensures cause { HasCause ReadRefusal.Fault faults.old faults.new result }
    ensures given { IsJoined first sums.old share.sums sums.new result }
{
    faults.add(share.faults);
    add_answer(sums, share.sums, first)
}

/// The number of the first worker that was refused, if one was. Workers have numbers from 0 on.
pub(crate) fn first_refused<S: SealedFile>(shares: &[Share<S>]) -> Option<usize>
    ensures { IfSome result (λ n. IsRefusedAt shares.now n) }
{
    for n in 0..shares.len() {
        if shares[n].sums.is_err() {
            return Some(n);
        }
    }
    None
}

/// What a worker answers, with what its reads have raised.
pub(crate) fn answer_of<S: SealedFile>(
    worker: Share<S>,
    faults: &mut Faults<S>,
) -> Result<PartSums, ReadRefusal>
    requires { HasCause ReadRefusal.Fault 0 worker.faults worker.sums }
    ensures cause { HasCause ReadRefusal.Fault faults.old faults.new result }
    ensures answer { result ≡ worker.sums }
{
    faults.add(worker.faults);
    worker.sums
}

/// Whose turn the part is after one whose turn it is.
fn next_turn(workers: u32, turn: u32) -> u32
    requires { turn < workers }
    ensures next { result ≡ next_turn workers turn }
    ensures within { result < workers }
{
    (turn + 1) % workers
}

/// Adds the sums of a rolled file, where it is the worker's own.
fn add_own_file<S: SealedFile>(
    alloc: Global,
    part: &RolledPart<S>,
    mine: bool,
    rows: &mut Rows,
    first: u64,
    faults: &mut Faults<S>,
) -> Result<(), ReadRefusal>
    ensures width { rows.new.width ≡ rows.old.width }
    ensures cause { HasCause ReadRefusal.Fault faults.old faults.new result }
    ensures found { IsTrue part.now.honest → OnOk result (mine ≡ true → (sums : FinMap key_cmp Sums)
        × IsFileSum rows.old.width (rollup_of part.now) sums) }
    ensures given { IsTrue part.now.honest → (sums : FinMap key_cmp Sums)
        → IsFileSum rows.old.width (rollup_of part.now) sums
        → IsMade first (AllFit (added_if mine sums rows.old)) (λ _. rows.new ≡ added_if mine sums rows.old) result }
{
    if !mine {
        return Ok(());
    }
    add_file(alloc, part, rows, first, faults)
}

/// Adds the sums of those rolled files that fall to a worker, and answers whose turn it is after them.
pub(crate) fn add_own_files<S: SealedFile>(
    alloc: Global,
    parts: &[Arc<RolledPart<S>>],
    workers: u32,
    worker: u32,
    turn: u32,
    rows: &mut Rows,
    first: u64,
    faults: &mut Faults<S>,
) -> Result<u32, ReadRefusal>
    requires { turn < workers }
    ensures turn { IfOk result (λ next. (next ≡ turn_after workers (length parts.now) turn) × (next < workers)) }
    ensures width { OnOk result (rows.new.width ≡ rows.old.width) }
    ensures cause { HasCause ReadRefusal.Fault faults.old faults.new result }
    // On honest disks: those that fall to the worker are rolled files.
    ensures found { IsTrue (list_all is_honest_sum (shared parts.now)) → OnOk result
        (HaveSums (IsFileSum rows.old.width) (own workers worker turn (map rollup_of (shared parts.now)))) }
    // Where all are those of these sums, the worker's own are added.
    ensures given { IsTrue (list_all is_honest_sum (shared parts.now)) → (maps : List (FinMap key_cmp Sums))
        → AllZip (IsFileSum rows.old.width) (map rollup_of (shared parts.now)) maps
        → IsMade first (AllFit (with_maps (own workers worker turn maps) rows.old))
        (λ _. rows.new ≡ with_maps (own workers worker turn maps) rows.old) result }
{
    let mut next = turn;
    for part in parts {
        add_own_file(alloc, part, next == worker, rows, first, faults)?;
        next = next_turn(workers, next);
    }
    Ok(next)
}

/// Adds the flows of a sealed segment's messages, after the templates that its own prefix restates; where it has none,
/// its prefix is read all the same.
fn add_whole<S: SealedFile>(
    alloc: Global,
    part: &SealedPart<S>,
    rows: &mut Rows,
    first: u64,
    faults: &mut Faults<S>,
) -> Result<(), ReadRefusal>
    ensures width { rows.new.width ≡ rows.old.width }
    ensures cause { HasCause ReadRefusal.Fault faults.old faults.new result }
    ensures found { IsTrue (is_honest part.now) → OnOk result ((sums : FinMap key_cmp Sums)
        × IsSegmentSum rows.old.width (segment_of part.now) sums) }
    ensures given { IsTrue (is_honest part.now) → (sums : FinMap key_cmp Sums)
        → IsSegmentSum rows.old.width (segment_of part.now) sums
        → IsMade first (AllFit (added_if true sums rows.old)) (λ _. rows.new ≡ added_if true sums rows.old) result }
{
    let mut templates = templates_of(alloc, part, faults)?;
    if part.messages == 0 {
        return Ok(());
    }
    add_part(alloc, part, &mut templates, rows, first, faults)
}

/// The same, where it is the worker's own.
fn add_own_segment<S: SealedFile>(
    alloc: Global,
    part: &SealedPart<S>,
    mine: bool,
    rows: &mut Rows,
    first: u64,
    faults: &mut Faults<S>,
) -> Result<(), ReadRefusal>
    ensures width { rows.new.width ≡ rows.old.width }
    ensures cause { HasCause ReadRefusal.Fault faults.old faults.new result }
    ensures found { IsTrue (is_honest part.now) → OnOk result (mine ≡ true → (sums : FinMap key_cmp Sums)
        × IsSegmentSum rows.old.width (segment_of part.now) sums) }
    ensures given { IsTrue (is_honest part.now) → (sums : FinMap key_cmp Sums)
        → IsSegmentSum rows.old.width (segment_of part.now) sums
        → IsMade first (AllFit (added_if mine sums rows.old)) (λ _. rows.new ≡ added_if mine sums rows.old) result }
{
    if !mine {
        return Ok(());
    }
    add_whole(alloc, part, rows, first, faults)
}

/// The same as `add_own_files` of sealed segments.
pub(crate) fn add_own_segments<S: SealedFile>(
    alloc: Global,
    parts: &[Arc<SealedPart<S>>],
    workers: u32,
    worker: u32,
    turn: u32,
    rows: &mut Rows,
    first: u64,
    faults: &mut Faults<S>,
) -> Result<u32, ReadRefusal>
    requires { turn < workers }
    ensures turn { IfOk result (λ next. (next ≡ turn_after workers (length parts.now) turn) × (next < workers)) }
    ensures width { OnOk result (rows.new.width ≡ rows.old.width) }
    ensures cause { HasCause ReadRefusal.Fault faults.old faults.new result }
    // On honest disks: those that fall to the worker are read whole.
    ensures found { IsTrue (list_all is_honest (shared parts.now)) → OnOk result
        (HaveSums (IsSegmentSum rows.old.width) (own workers worker turn (map segment_of (shared parts.now)))) }
    // Where these are the sums of the flows of all, the worker's own are added.
    ensures given { IsTrue (list_all is_honest (shared parts.now)) → (maps : List (FinMap key_cmp Sums))
        → AllZip (IsSegmentSum rows.old.width) (map segment_of (shared parts.now)) maps
        → IsMade first (AllFit (with_maps (own workers worker turn maps) rows.old))
        (λ _. rows.new ≡ with_maps (own workers worker turn maps) rows.old) result }
{
    let mut next = turn;
    for part in parts {
        add_own_segment(alloc, part, next == worker, rows, first, faults)?;
        next = next_turn(workers, next);
    }
    Ok(next)
}

/// Adds the flows of the active segment's messages, after the templates that its prefix restates, where it is the
/// worker's own.
pub(crate) fn add_own_active(
    alloc: Global,
    prefix: &[u8],
    messages: &[Bytes],
    mine: bool,
    rows: &mut Rows,
    first: u64,
) -> Result<(), ReadRefusal>
    ensures found { OnOk result (mine ≡ true → (sums : FinMap key_cmp Sums)
        × IsOwnSum rows.old.width prefix.now messages.now sums) }
    ensures given { (sums : FinMap key_cmp Sums) → IsOwnSum rows.old.width prefix.now messages.now sums
        → IsMade first (AllFit (added_if mine sums rows.old)) (λ _. rows.new ≡ added_if mine sums rows.old) result }
    ensures quiet { IfErr result (λ e. e ≢ ReadRefusal.Fault) }
{
    if !mine {
        return Ok(());
    }
    let mut templates = restated(alloc, prefix)?;
    add_active(alloc, messages, &mut templates, rows, first)
}
