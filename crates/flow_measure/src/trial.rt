//! Sums that are added on trial: all of them are kept, or all are taken back.

ghost use Rattle.std.specs.Prelude.{◌≡◌, ◌<◌, ◌%◌, None};
ghost use Rattle.std.specs.FinMap as finite;
ghost use Rattle.flow_measure.specs.Sums.{with_flow, with_sums, Becomes};

use crate::entries::{Change, Entries};
use crate::error::SumError;
use crate::flow::{Flow, interval_of};
use crate::rows::{Key, Rows, Sums};
use std::alloc::Global;
use std::marker::Model;

/// Rows to which sums are added on trial. What it holds beside the rows is one change for each of their keys that sums
/// came for.
#[derive(Drop)]
pub struct Trial {
    width: u32,
    entries: Entries,
    /// What was changed since the start, at most once for each key that there was.
    changes: Vec<Change>,
    /// For each place, where its change may be. It is checked before it is used.
    noted: Vec<usize>,
}

impl Model for Trial {
    ghost use Rattle.std.specs.Prelude.{◌<◌};
    ghost use Rattle.std.specs.Coded.{coded×};
    ghost use Rattle.flow_measure.specs.Sums.{Table, AreSound, AllFit, coded_table};
    ghost use Rattle.flow_measure.specs.Entries.{map_of, table_at, all_undone};

    ghost Value = { Table × Table };

    ghost coded = { coded× coded_table coded_table };

    ghost view = { λ t. (table_at t.width (all_undone t.changes.items t.entries), table_at t.width t.entries) };

    ghost invariant = { λ t. (0 < t.width)
        × (AreSound t.width (map_of t.entries) × AllFit (table_at t.width t.entries))
        × (AreSound t.width (map_of (all_undone t.changes.items t.entries))
        × AllFit (table_at t.width (all_undone t.changes.items t.entries))) };
}

impl Trial {
    /// Rows to which nothing was added yet.
    pub fn new(alloc: Global, rows: Rows) -> Self
        ensures { result ≡ (rows, rows) }
    {
        let (width, entries) = rows.into_parts();
        Trial {
            width,
            entries,
            changes: Vec::new(alloc),
            noted: Vec::new(alloc),
        }
    }

    /// Adds sums under a key. The first sums of a key have flows; those that are added to them may have none.
    fn put(&mut self, key: Key, sums: Sums) -> Result<(), SumError>
        requires aligned { key.start % self.old.1.width ≡ 0 }
        requires counted { finite.get self.old.1.sums key ≡ None → 0 < sums.flows }
        ensures start { self.new.0 ≡ self.old.0 }
        ensures becomes { Becomes result (with_sums key sums self.old.1) self.old.1 self.new.1 }
    {
        self.entries
            .add_once(key, sums, &mut self.changes, &mut self.noted)
    }

    /// Adds a flow under its key.
    #[inline(always)]
    pub fn add(&mut self, flow: &Flow) -> Result<(), SumError>
        ensures start { self.new.0 ≡ self.old.0 }
        ensures becomes { Becomes result (with_flow flow.now self.old.1) self.old.1 self.new.1 }
    {
        let key = Key {
            start: interval_of(flow.start, self.width),
            domain: flow.domain,
            protocol: flow.protocol,
        };
        self.put(key, flow.sums())
    }

    /// The rows with all that was added.
    pub fn keep(self) -> Rows
        ensures { result ≡ self.1 }
    {
        Rows::from_parts(self.width, self.entries)
    }

    /// The rows as they were, without what was added.
    pub fn take_back(self) -> Rows
        ensures { result ≡ self.0 }
    {
        let mut entries = self.entries;
        entries.undo_all(self.changes);
        Rows::from_parts(self.width, entries)
    }
}
