//! A snapshot, and what is asked of it.

ghost use Rattle.std.specs.Prelude.{◌≡◌, ◌+◌, ◌++◌, ◌<◌, ◌≤◌, ℕ, length, min, slice_get, IfOk, IsTrue, List, OnOk};
ghost use Rattle.std.specs.Prelude.{Some};
ghost use Rattle.std.specs.FinMap.{FinMap};
ghost use Rattle.flow_codec.specs.Templates.{AllTemplates};
ghost use Rattle.flow_disk.specs.Cause.{HasCause};
ghost use Rattle.flow_measure.specs.declared.flow.Flow.{Flow};
ghost use Rattle.flow_measure.specs.History.{flows_in, Accepted, History, IsHistory};
ghost use Rattle.flow_measure.specs.Query.{flows_in_view, message_in_view, narrow_table_in, totals_between};
ghost use Rattle.flow_measure.specs.Query.{rows_of_both, totals_in_view};
ghost use Rattle.flow_measure.specs.declared.rows.Sums.{Sums};
ghost use Rattle.flow_measure.specs.Sums.{key_cmp, AllFit};
ghost use Rattle.flow_measure.specs.View.{view_of, AreCountsOf, View};
ghost use Rattle.flow_segment.specs.PartFlows.{with_flows};
ghost use Rattle.flow_segment.specs.Prefix.{IsRestated};
ghost use Rattle.flow_snapshot.specs.Directories.{sight_of};
ghost use Rattle.flow_snapshot.specs.Found.{kept_by_file, AppendsOwnFlows, AreOwnFlows, HaveOwnFlows, IsMessageAt};
ghost use Rattle.flow_snapshot.specs.Found.{KeptFile};
ghost use Rattle.flow_model.specs.Views.{first_prefix, AreKept, IsReadIn};
ghost use Rattle.flow_snapshot.specs.Parts.{file_of, is_honest_part};
ghost use Rattle.flow_snapshot.specs.Shares.{narrow_turn, own, summed, AllPartsFit, AreNarrow, AreShares, AreWide};
ghost use Rattle.flow_snapshot.specs.Shares.{HaveSums, IsFileSum, IsNarrowRead, IsShare};
ghost use Rattle.flow_model.specs.Shelf.{cut_of, position_of, second_of};
ghost use Rattle.flow_snapshot.specs.Answered.{octets_in, IsAnswered};
ghost use Rattle.flow_snapshot.specs.Spans.{IsSightWithin};
ghost use Rattle.flow_snapshot.specs.Totals.{first_file, wide_table_in, IsMade, IsWithinHistoryLimits, SumsFit};
ghost use Rattle.flow_model.specs.Views.{AreRestated, AreRolledInto, IsViewOf};

use crate::by_file::KeptPart;
use crate::counting::{rolled_count, sealed_count};
use crate::files::Files;
use crate::interleaving::rows_of_both;
use crate::kept::{collect_active, collect_segment, restated};
use crate::numbered::sealed_message;
use crate::shares::{
    PartSums, Share, add_own_active, add_own_files, add_own_segments, add_share, answer_of,
    first_refused,
};
use crate::summing::{add_active, add_rolled, add_sealed};
use flow_codec::Templates;
use flow_disk::{Faults, SealedFile};
use flow_measure::{Flow, Row, Rows};
use flow_refusals::ReadRefusal;
use flow_segment::templates_of;
use std::alloc::{AllocError, Global};
use std::marker::Model;

/// Why a query is not answered. Damaged: this file isn't what its archive wrote.
pub type QueryError = ReadRefusal;

/// The files of an archive at one moment. It never changes, whatever steps follow, and is seen as the directory that it
/// was taken of.
#[derive(Drop)]
pub struct Snapshot<S: SealedFile> {
    width: u32,
    wide: u32,
    files: Files<S>,
}

impl<S: SealedFile> Model for Snapshot<S> {
    ghost use Rattle.std.specs.Prelude.{◌<◌};
    ghost use Rattle.flow_snapshot.specs.ShelfSeen.{ShelfSeen};

    ghost Value = { ShelfSeen };

    ghost use Rattle.flow_snapshot.specs.Directories.{sight_of};

    ghost view = { λ d. sight_of d.width d.wide d.files };

    ghost invariant = { λ d. (0 < d.width) × (0 < d.wide) };
}

impl<S: SealedFile> Snapshot<S> {
    /// These files.
    pub(crate) fn new(width: u32, wide: u32, files: Files<S>) -> Self
        requires width { 0 < width }
        requires wide { 0 < wide }
        ensures { result ≡ sight_of width wide files }
    {
        Snapshot { width, wide, files }
    }

    /// The number of the last message that was summed over wide intervals. Messages are numbered from 1 on; where a
    /// number would pass its type, it is the greatest one.
    pub fn second_cut(&self) -> u64
        ensures { result ≡ min (second_of self.now.shelf) 18446744073709551615 }
    {
        rolled_count(self.files.merged.as_slice())
    }

    /// The number of the last message that was rolled; those after it are kept.
    pub fn cut(&self) -> u64
        ensures { result ≡ min (cut_of self.now.shelf) 18446744073709551615 }
    {
        self.second_cut()
            .saturating_add(rolled_count(self.files.rolled.as_slice()))
    }

    /// The number of the last message.
    pub fn position(&self) -> u64
        ensures { result ≡ min (position_of self.now.shelf) 18446744073709551615 }
    {
        let sealed = sealed_count(self.files.sealed.as_slice());
        let active = self.files.active.len() as u64;
        self.cut().saturating_add(sealed).saturating_add(active)
    }

    /// How many files of sums there are, over wide intervals or not.
    pub fn summed_files(&self) -> u64
        ensures { result ≡ min (length self.now.shelf.merged + length self.now.shelf.rolled) 18446744073709551615 }
    {
        let wide = self.files.merged.len() as u64;
        wide.saturating_add(self.files.rolled.len() as u64)
    }

    /// How many sealed segments there are.
    pub fn sealed_files(&self) -> u64
        ensures { result ≡ length self.now.shelf.sealed }
    {
        self.files.sealed.len() as u64
    }

    /// The templates in force before the first kept message. It refuses as `flows` does.
    fn templates(&self, alloc: Global, faults: &mut Faults<S>) -> Result<Templates, ReadRefusal>
        ensures cause { HasCause ReadRefusal.Fault faults.old faults.new result }
        ensures found { IsTrue self.now.honest → IfOk result
            (λ templates. IsRestated (first_prefix self.now.shelf.sealed self.now.shelf.prefix) templates) }
        ensures given { IsTrue self.now.honest → (before : AllTemplates)
            → AreRestated before self.now.shelf.sealed self.now.shelf.prefix
            → IsAnswered (λ templates. templates ≡ before) result }
    {
        match self.files.sealed.first() {
            Some(part) => Ok(templates_of(alloc, part, faults)?),
            None => restated(alloc, self.files.prefix.as_slice()),
        }
    }

    /// How many files have kept messages: the sealed segments, and the active one.
    pub fn kept_files(&self) -> u64
        ensures { result ≡ length self.now.shelf.sealed + 1 }
    {
        self.files.sealed.len() as u64 + 1
    }

    /// The file with kept messages at a place: the sealed segments, the oldest first, from 0 on, and after them the active
    /// one. Nothing is read.
    pub fn kept_part(&self, at: u64) -> KeptPart<'_, S>
        requires { at ≤ length self.now.shelf.sealed }
        ensures file { slice_get (kept_by_file self.now.shelf) at ≡ Some (file_of result) }
        ensures honest { IsTrue self.now.honest → IsTrue (is_honest_part result) }
    {
        match self.files.sealed.get(at as usize) {
            Some(part) => KeptPart::Sealed(part),
            None => {
                let prefix = self.files.prefix.as_slice();
                KeptPart::Active(prefix, self.files.active.as_slice())
            }
        }
    }

    /// Appends the flows of the file at a place.
    fn collect_file(
        &self,
        alloc: Global,
        at: u64,
        from: u64,
        to: u64,
        flows: &mut Vec<Flow>,
        faults: &mut Faults<S>,
    ) -> Result<(), ReadRefusal>
        requires { at ≤ length self.now.shelf.sealed }
        ensures cause { HasCause ReadRefusal.Fault faults.old faults.new result }
        ensures found { IsTrue self.now.honest → (file : KeptFile)
            → slice_get (kept_by_file self.now.shelf) at ≡ Some file
            → OnOk result (AppendsOwnFlows from to file flows.old.items flows.new.items) }
        ensures given { IsTrue self.now.honest → (file : KeptFile)
            → slice_get (kept_by_file self.now.shelf) at ≡ Some file → (own : List Flow)
            → HaveOwnFlows from to file own → IsAnswered (λ _. flows.new.items ≡ flows.old.items ++ own) result }
    {
        match self.files.sealed.get(at as usize) {
            Some(part) => collect_segment(alloc, part, from, to, flows, faults),
            None => {
                let prefix = self.files.prefix.as_slice();
                collect_active(alloc, prefix, self.files.active.as_slice(), from, to, flows)
            }
        }
    }

    /// The flows of one file's kept messages that start from `from` on and before `to`, as `flows` has them. Files have
    /// places from 0 on: the sealed segments, the oldest first, and after them the active one. Only this file is read,
    /// a piece at a time: its prefix, and its messages after the templates that this restates; and nothing where it is
    /// known that none of its flows start in the span. It refuses as `flows` does.
    pub fn flows_of_file(
        &self,
        alloc: Global,
        at: u64,
        from: u64,
        to: u64,
        faults: &mut Faults<S>,
    ) -> Result<Vec<Flow>, ReadRefusal>
        requires { at ≤ length self.now.shelf.sealed }
        ensures cause { HasCause ReadRefusal.Fault faults.old faults.new result }
        // On honest disks, also where files are damaged: its messages are accepted, and the flows are theirs.
        ensures found { IsTrue self.now.honest → (file : KeptFile)
            → slice_get (kept_by_file self.now.shelf) at ≡ Some file
            → IfOk result (λ flows. HaveOwnFlows from to file flows.items) }
        // Where it has flows, they are answered; damage is reported only where it has none.
        ensures given { IsTrue self.now.honest → (file : KeptFile)
            → slice_get (kept_by_file self.now.shelf) at ≡ Some file → (own : List Flow)
            → HaveOwnFlows from to file own → IsAnswered (λ flows. flows.items ≡ own) result }
    {
        let mut flows = Vec::new(alloc);
        self.collect_file(alloc, at, from, to, &mut flows, faults)?;
        Ok(flows)
    }

    /// The flows of kept messages that start from `from` on and before `to`, both in seconds since 1970-01-01 00:00
    /// UTC, in the order of their records. Each file is read once, a piece at a time, with nothing but its own prefix;
    /// and not at all where it is known that none of its flows start in the span.
    ///
    /// Where a file that is read isn't what its archive wrote, it answers `Damaged`, with the file and the place;
    /// `Fault` exactly where a read has raised `faults`; and `OutOfMemory`.
    pub fn flows(
        &self,
        alloc: Global,
        from: u64,
        to: u64,
        faults: &mut Faults<S>,
    ) -> Result<Vec<Flow>, ReadRefusal>
        ensures cause { HasCause ReadRefusal.Fault faults.old faults.new result }
        // On honest disks, also where files are damaged: the flows of all kept messages, each of them accepted, the
        // first one of each file after the templates that its own prefix restates.
        ensures found { IsTrue self.now.honest
            → IfOk result (λ flows. AreOwnFlows from to (kept_by_file self.now.shelf) flows.items) }
        // What is answered by each view of the files; damage is reported only where there is none.
        ensures given { IsTrue self.now.honest → (v : View) → IsViewOf self.now.shelf v
            → IsAnswered (λ flows. flows.items ≡ flows_in_view from to v) result }
    {
        let mut flows = Vec::new(alloc);
        let files = self.kept_files();
        for at in 0..files {
            self.collect_file(alloc, at, from, to, &mut flows, faults)?;
        }
        Ok(flows)
    }

    /// The octets of the message with this number, if it is kept: where it is above `cut` and not above `position`. It
    /// is found by the segments' counts and, in its own, by Lengths; no records are walked.
    ///
    /// Where a file isn't what its archive wrote, it answers `Damaged`, with the file and the place; `Fault` exactly
    /// where a read has raised `faults`; and `OutOfMemory`.
    pub fn message(
        &self,
        alloc: Global,
        n: u64,
        faults: &mut Faults<S>,
    ) -> Result<Option<Vec<u8>>, ReadRefusal>
        ensures cause { HasCause ReadRefusal.Fault faults.old faults.new result }
        // On honest disks, also where files are damaged: the message that has this number, or none where none is kept.
        ensures found { IsTrue self.now.honest → IfOk result (λ message.
            IsMessageAt self.now.shelf n (octets_in message)) }
        // What is answered by each view of the files; damage is reported only where there is none.
        ensures given { IsTrue self.now.honest → (v : View) → IsViewOf self.now.shelf v
            → IsAnswered (λ message. octets_in message ≡ message_in_view n v) result }
    {
        let cut = self.cut();
        if n <= cut {
            return Ok(None);
        }
        let place = n - cut - 1;
        let sealed = self.files.sealed.as_slice();
        let count = sealed_count(sealed);
        if place < count {
            return Ok(sealed_message(alloc, sealed, place, faults)?);
        }
        match self.files.active.get((place - count) as usize) {
            Some(message) => Ok(Some(Vec::from_slice(alloc, message.as_slice())?)),
            None => Ok(None),
        }
    }

    /// The files that a query of a span reads: those that may have sums over intervals that start from `from` on and
    /// before `to`, both in seconds since 1970-01-01 00:00 UTC. They are shared, and nothing is read.
    pub fn within(&self, alloc: Global, from: u64, to: u64) -> Result<Self, AllocError>
        ensures { IfOk result (λ kept. IsSightWithin from to self.now kept) }
    {
        Ok(Snapshot {
            width: self.width,
            wide: self.wide,
            files: self.files.within(alloc, self.width, self.wide, from, to)?,
        })
    }

    /// The file of the first part: of a wide one, else of a rolled one, else of a sealed segment; 0 where there is
    /// none. Sums that don't fit their types are reported as damage of this file.
    pub fn first_file(&self) -> u64
        ensures { result ≡ first_file self.now.shelf }
    {
        if let Some(part) = self.files.merged.first() {
            return part.file();
        }
        if let Some(part) = self.files.rolled.first() {
            return part.file();
        }
        match self.files.sealed.first() {
            Some(part) => part.reader.file(),
            None => 0,
        }
    }

    /// Adds the flows of all kept messages.
    fn add_kept(
        &self,
        alloc: Global,
        rows: &mut Rows,
        first: u64,
        faults: &mut Faults<S>,
    ) -> Result<(), ReadRefusal>
        ensures cause { HasCause ReadRefusal.Fault faults.old faults.new result }
        ensures found { IsTrue self.now.honest → OnOk result ((before : AllTemplates) × (kept : List Accepted)
            × AreKept self.now.shelf before kept × (rows.new ≡ with_flows (flows_in kept) rows.old)) }
        ensures given { IsTrue self.now.honest → (v : View) → IsViewOf self.now.shelf v
            → IsMade first (AllFit (with_flows (flows_in v.kept) rows.old))
            (λ _. rows.new ≡ with_flows (flows_in v.kept) rows.old) result }
    {
        let mut templates = self.templates(alloc, faults)?;
        let sealed = self.files.sealed.as_slice();
        add_sealed(alloc, sealed, &mut templates, rows, first, faults)?;
        let active = self.files.active.as_slice();
        add_active(alloc, active, &mut templates, rows, first)
    }

    /// The sums, by the width, of all flows that aren't summed over wide intervals: of rolled files, and of kept
    /// messages.
    fn narrow_rows(
        &self,
        alloc: Global,
        first: u64,
        faults: &mut Faults<S>,
    ) -> Result<Rows, ReadRefusal>
        ensures cause { HasCause ReadRefusal.Fault faults.old faults.new result }
        // Whatever the sums over wide intervals are.
        ensures found { IsTrue self.now.honest → (sums : FinMap key_cmp Sums)
            → AreRolledInto self.now.shelf.wide self.now.shelf.merged sums
            → IfOk result (λ rows. (v : View) × IsReadIn self.now.shelf v × (v.merged ≡ sums)
            × (rows ≡ narrow_table_in v)) }
        ensures given { IsTrue self.now.honest → (v : View) → IsViewOf self.now.shelf v
            → IsMade first (AllFit (narrow_table_in v)) (λ rows. rows ≡ narrow_table_in v) result }
    {
        let mut rows = Rows::new(alloc, self.width);
        let rolled = self.files.rolled.as_slice();
        add_rolled(alloc, rolled, &mut rows, first, faults)?;
        self.add_kept(alloc, &mut rows, first, faults)?;
        Ok(rows)
    }

    /// The sums over wide intervals.
    fn wide_rows(
        &self,
        alloc: Global,
        first: u64,
        faults: &mut Faults<S>,
    ) -> Result<Rows, ReadRefusal>
        ensures cause { HasCause ReadRefusal.Fault faults.old faults.new result }
        ensures found { IsTrue self.now.honest → IfOk result (λ rows. (sums : FinMap key_cmp Sums)
            × AreRolledInto self.now.shelf.wide self.now.shelf.merged sums
            × (rows ≡ record { width = self.now.shelf.wide; sums = sums })) }
        ensures given { IsTrue self.now.honest → (v : View) → IsViewOf self.now.shelf v
            → IsMade first (AllFit (wide_table_in v)) (λ rows. rows ≡ wide_table_in v) result }
    {
        let mut rows = Rows::new(alloc, self.wide);
        let merged = self.files.merged.as_slice();
        add_rolled(alloc, merged, &mut rows, first, faults)?;
        Ok(rows)
    }

    /// What `totals` answers.
    fn rows_between(
        &self,
        alloc: Global,
        from: u64,
        to: u64,
        faults: &mut Faults<S>,
    ) -> Result<Vec<Row>, ReadRefusal>
        ensures cause { HasCause ReadRefusal.Fault faults.old faults.new result }
        ensures found { IsTrue self.now.honest → IfOk result (λ rows. (v : View) × IsReadIn self.now.shelf v
            × (rows.items ≡ totals_in_view from to v)) }
        ensures given { IsTrue self.now.honest → (v : View) → IsViewOf self.now.shelf v
            → IsMade (first_file self.now.shelf) (SumsFit v) (λ rows. rows.items ≡ totals_in_view from to v) result }
    {
        let first = self.first_file();
        let narrow = self.narrow_rows(alloc, first, faults)?;
        let wide = self.wide_rows(alloc, first, faults)?;
        rows_of_both(alloc, from, to, narrow, &wide, first)
    }

    /// The sums of all flows by interval, domain and protocol, of those intervals that start from `from` on and before
    /// `to`, both in seconds since 1970-01-01 00:00 UTC, in the order of their keys: over wide intervals of messages up
    /// to `second_cut`, over intervals of the width of those after it. Of two rows of one key the narrow one comes
    /// first; where both widths are one, they are one row. Each rolled file is read once, and each kept message once, a
    /// piece at a time.
    ///
    /// Where a file isn't what its archive wrote, it answers `Damaged`, with the file and the place, and where a sum
    /// would pass its type, with the first part's file and 0; `Fault` exactly where a read has raised `faults`; and
    /// `OutOfMemory`.
    pub fn totals(
        &self,
        alloc: Global,
        from: u64,
        to: u64,
        faults: &mut Faults<S>,
    ) -> Result<Vec<Row>, ReadRefusal>
        ensures cause { HasCause ReadRefusal.Fault faults.old faults.new result }
        // On honest disks, also where files are damaged: the totals of all files, each of which was read whole.
        ensures found { IsTrue self.now.honest → IfOk result (λ rows. (v : View) × IsReadIn self.now.shelf v
            × (rows.items ≡ totals_in_view from to v)) }
        // What is answered by each view of the files; where its sums fit their types no damage is reported.
        ensures given { IsTrue self.now.honest → (v : View) → IsViewOf self.now.shelf v
            → IsMade (first_file self.now.shelf) (SumsFit v) (λ rows. rows.items ≡ totals_in_view from to v) result }
        // Where the view is that of a history within the limits: its totals, and never damage.
        ensures answered { IsTrue self.now.honest → (h : History) (counts : List ℕ) → IsHistory h → AreCountsOf h counts
            → IsWithinHistoryLimits h → IsViewOf self.now.shelf (view_of h counts)
            → IsAnswered (λ rows. rows.items ≡ totals_between from to h) result }
    {
        self.rows_between(alloc, from, to, faults)
    }

    /// The sums over wide intervals of those parts that fall to a worker, and whose turn it is after the wide parts.
    fn own_wide(
        &self,
        alloc: Global,
        workers: u32,
        worker: u32,
        first: u64,
        faults: &mut Faults<S>,
    ) -> Result<(Rows, u32), ReadRefusal>
        requires { 0 < workers }
        ensures cause { HasCause ReadRefusal.Fault faults.old faults.new result }
        ensures turn { IfOk result (λ r. (r.1 ≡ narrow_turn self.now.shelf workers) × (r.1 < workers)) }
        ensures found { IsTrue self.now.honest → OnOk result
            (HaveSums (IsFileSum self.now.shelf.wide) (own workers worker 0 self.now.shelf.merged)) }
        ensures given { IsTrue self.now.honest → (wide : List (FinMap key_cmp Sums)) → AreWide self.now.shelf wide
            → IsMade first (AllFit (summed self.now.shelf.wide wide))
            (λ r. r.0 ≡ summed self.now.shelf.wide (own workers worker 0 wide)) result }
    {
        let mut wide = Rows::new(alloc, self.wide);
        let merged = self.files.merged.as_slice();
        let turn = add_own_files(alloc, merged, workers, worker, 0, &mut wide, first, faults)?;
        Ok((wide, turn))
    }

    /// The sums by the width of those parts that fall to a worker, where the first of them that isn't wide is for the
    /// worker whose turn it is.
    fn own_narrow(
        &self,
        alloc: Global,
        workers: u32,
        worker: u32,
        turn: u32,
        first: u64,
        faults: &mut Faults<S>,
    ) -> Result<Rows, ReadRefusal>
        requires { turn < workers }
        ensures cause { HasCause ReadRefusal.Fault faults.old faults.new result }
        ensures found { IsTrue self.now.honest → OnOk result (IsNarrowRead self.now.shelf workers worker turn) }
        ensures given { IsTrue self.now.honest → (narrow : List (FinMap key_cmp Sums))
            → AreNarrow self.now.shelf narrow → IsMade first (AllFit (summed self.now.shelf.width narrow))
            (λ rows. rows ≡ summed self.now.shelf.width (own workers worker turn narrow)) result }
    {
        let mut rows = Rows::new(alloc, self.width);
        let rolled = self.files.rolled.as_slice();
        let turn = add_own_files(
            alloc, rolled, workers, worker, turn, &mut rows, first, faults,
        )?;
        let sealed = self.files.sealed.as_slice();
        let turn = add_own_segments(
            alloc, sealed, workers, worker, turn, &mut rows, first, faults,
        )?;
        let prefix = self.files.prefix.as_slice();
        let active = self.files.active.as_slice();
        add_own_active(alloc, prefix, active, turn == worker, &mut rows, first)?;
        Ok(rows)
    }

    /// The sums of the parts that fall to one of so many workers, which have numbers from 0 on. The parts are the wide
    /// files, the rolled files, the sealed segments and the active one, each list the oldest first: the first part is
    /// for worker 0, the next one for worker 1, and so on in turn. Each part is read with nothing but its own file.
    ///
    /// It refuses as `totals` does, of a sum that would pass its type with `first` and 0.
    pub fn share(
        &self,
        alloc: Global,
        first: u64,
        workers: u32,
        worker: u32,
        faults: &mut Faults<S>,
    ) -> Result<PartSums, ReadRefusal>
        requires { worker < workers }
        ensures cause { HasCause ReadRefusal.Fault faults.old faults.new result }
        ensures share { IsShare first self.now workers worker result }
    {
        let (wide, turn) = self.own_wide(alloc, workers, worker, first, faults)?;
        let narrow = self.own_narrow(alloc, workers, worker, turn, first, faults)?;
        Ok(PartSums { narrow, wide })
    }

    /// The sums of all workers' shares, added.
    fn joined(
        &self,
        alloc: Global,
        shares: Vec<Share<S>>,
        first: u64,
        faults: &mut Faults<S>,
    ) -> Result<PartSums, ReadRefusal>
        requires some { 0 < length shares.items }
        requires shares { AreShares first self.now shares.items }
        ensures cause { HasCause ReadRefusal.Fault faults.old faults.new result }
        // On honest disks: all parts were read whole.
        ensures found { IsTrue self.now.honest → OnOk result ((wide : List (FinMap key_cmp Sums))
            × (narrow : List (FinMap key_cmp Sums)) × AreWide self.now.shelf wide × AreNarrow self.now.shelf narrow) }
        ensures given { IsTrue self.now.honest → (wide narrow : List (FinMap key_cmp Sums))
            → AreWide self.now.shelf wide → AreNarrow self.now.shelf narrow
            → IsMade first (AllPartsFit self.now.shelf wide narrow)
            (λ sums. (sums.wide ≡ summed self.now.shelf.wide wide)
            × (sums.narrow ≡ summed self.now.shelf.width narrow)) result }
    {
        let mut sums = PartSums {
            narrow: Rows::new(alloc, self.width),
            wide: Rows::new(alloc, self.wide),
        };
        for share in shares {
            add_share(&mut sums, share, first, faults)?;
        }
        Ok(sums)
    }

    /// The same; where some workers were refused, nothing is added, and it answers as the first of these.
    fn first_or_all(
        &self,
        alloc: Global,
        mut shares: Vec<Share<S>>,
        first: u64,
        faults: &mut Faults<S>,
    ) -> Result<PartSums, ReadRefusal>
        requires some { 0 < length shares.items }
        requires shares { AreShares first self.now shares.items }
        ensures cause { HasCause ReadRefusal.Fault faults.old faults.new result }
        // On honest disks: all parts were read whole.
        ensures found { IsTrue self.now.honest → OnOk result ((wide : List (FinMap key_cmp Sums))
            × (narrow : List (FinMap key_cmp Sums)) × AreWide self.now.shelf wide × AreNarrow self.now.shelf narrow) }
        ensures given { IsTrue self.now.honest → (wide narrow : List (FinMap key_cmp Sums))
            → AreWide self.now.shelf wide → AreNarrow self.now.shelf narrow
            → IsMade first (AllPartsFit self.now.shelf wide narrow)
            (λ sums. (sums.wide ≡ summed self.now.shelf.wide wide)
            × (sums.narrow ≡ summed self.now.shelf.width narrow)) result }
    {
        if let Some(n) = first_refused(shares.as_slice()) {
            return answer_of(shares.swap_remove(n), faults);
        }
        self.joined(alloc, shares, first, faults)
    }

    /// What `totals` answers, of the shares of all workers, in the order of their numbers. These shared `parts`, which
    /// are the files `within` the span. Where some were refused, it answers as the first of these, before anything is
    /// added: `faults` is raised by what that worker's reads have raised, since those before it have raised nothing,
    /// and the answers of those after it are dropped with their counts. The first share's rows are kept, and those of
    /// the others added to them: no table is copied.
    ///
    /// Damage of a file that isn't `within` the span is not looked for.
    pub fn totals_of_shares(
        &self,
        alloc: Global,
        parts: &Snapshot<S>,
        from: u64,
        to: u64,
        shares: Vec<Share<S>>,
        faults: &mut Faults<S>,
    ) -> Result<Vec<Row>, ReadRefusal>
        requires some { 0 < length shares.items }
        requires parts { IsSightWithin from to self.now parts.now }
        requires shares { AreShares (first_file self.now.shelf) parts.now shares.items }
        ensures cause { HasCause ReadRefusal.Fault faults.old faults.new result }
        // On honest disks, also where files are damaged: the totals of all parts, each of which reads whole, with its
        // own prefix.
        ensures found { IsTrue self.now.honest → IfOk result (λ rows. (wide : List (FinMap key_cmp Sums))
            × (narrow : List (FinMap key_cmp Sums)) × AreWide self.now.shelf wide × AreNarrow self.now.shelf narrow
            × (rows.items ≡ rows_of_both from to (summed self.now.shelf.width narrow)
            (summed self.now.shelf.wide wide))) }
        ensures given { IsTrue self.now.honest → (v : View) → IsViewOf self.now.shelf v
            → IsMade (first_file self.now.shelf) (SumsFit v) (λ rows. rows.items ≡ totals_in_view from to v) result }
        ensures answered { IsTrue self.now.honest → (h : History) (counts : List ℕ) → IsHistory h → AreCountsOf h counts
            → IsWithinHistoryLimits h → IsViewOf self.now.shelf (view_of h counts)
            → IsAnswered (λ rows. rows.items ≡ totals_between from to h) result }
    {
        let first = self.first_file();
        let sums = parts.first_or_all(alloc, shares, first, faults)?;
        let PartSums { narrow, wide } = sums;
        rows_of_both(alloc, from, to, narrow, &wide, first)
    }
}
