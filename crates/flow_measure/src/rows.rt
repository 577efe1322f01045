//! Sums of flows by interval, domain and protocol.

ghost use Rattle.std.specs.Prelude.{◌≡◌, ◌<◌, ◌≤◌, ◌%◌, true, List, [], ◌∷◌, ◌++◌, IfOk, IfErr, OnOk, MatchResult};
ghost use Rattle.std.specs.FinMap as finite;
ghost use Rattle.std.specs.List.{AllByRecursion};
ghost use Rattle.std.specs.Option.{SomeIff};
ghost use Rattle.flow_measure.specs.Sums.{key_of, counted, plus, Fits, HasRoom, empty_table, with_flow, with_sums};
ghost use Rattle.flow_measure.specs.Sums.{with_entries, merged};
ghost use Rattle.flow_measure.specs.Sums.{widened, rows_between, AreSound, AreSums, AllFit, Becomes, IsRefused};
ghost use Rattle.flow_measure.specs.Entries.{map_of, table_at};
ghost use Rattle.flow_measure.specs.declared.flow.Flow.{Flow};

use crate::entries::Entries;
use crate::error::SumError;
use crate::flow::{Flow, interval_of};
use crate::walk::InOrder;
use std::alloc::{AllocError, Global};
use std::marker::Model;

/// What flows are summed by. Keys are in order by start, then domain, then protocol, none before 0.
#[derive(Clone, Copy, Debug, PartialEq, Eq, PartialOrd, Ord)]
pub struct Key {
    /// The start of the interval, in seconds since 1970-01-01 00:00 UTC.
    pub start: u32,
    /// The observation domain.
    pub domain: u32,
    /// The number of the transport protocol, if any is known.
    pub protocol: Option<u8>,
}

/// The sums of the flows under one key.
#[derive(Clone, Copy, Debug, PartialEq, Eq)]
pub struct Sums {
    pub flows: u64,
    pub octets: u128,
    pub packets: u128,
}

impl Sums {
    /// The sums of both, where they fit their types.
    pub(crate) fn plus(self, other: Sums) -> Option<Sums>
        ensures { SomeIff result (Fits (plus self other)) (plus self other) }
    {
        Some(Sums {
            flows: self.flows.checked_add(other.flows)?,
            octets: self.octets.checked_add(other.octets)?,
            packets: self.packets.checked_add(other.packets)?,
        })
    }

    /// Whether each of the sums is in the lower half of its type, so that a flow can be added with no more asked.
    #[inline(always)]
    pub(crate) fn has_room(&self) -> bool
        ensures { result ≡ true → HasRoom self.now }
    {
        self.flows < 1 << 63 && self.octets < 1 << 127 && self.packets < 1 << 127
    }

    /// Adds a flow.
    #[inline(always)]
    pub(crate) fn count(&mut self, flow: &Flow)
        requires { HasRoom self.old }
        ensures sum { self.new ≡ plus self.old (counted flow.now) }
        ensures fit { Fits self.new }
    {
        self.flows += 1;
        self.octets += u128::from(flow.octets);
        self.packets += u128::from(flow.packets);
    }
}

/// A key with its sums, and the width of the interval in seconds.
#[derive(Clone, Copy, Debug, PartialEq, Eq)]
pub struct Row {
    pub key: Key,
    pub sums: Sums,
    pub width: u32,
}

/// Sums by key, over intervals of one width.
#[derive(Drop)]
pub struct Rows {
    width: u32,
    entries: Entries,
}

impl Model for Rows {
    ghost use Rattle.std.specs.Prelude.{◌<◌};
    ghost use Rattle.flow_measure.specs.Sums.{Table, AreSound, AllFit, coded_table};
    ghost use Rattle.flow_measure.specs.Entries.{map_of};

    ghost Value = { Table };

    ghost coded = { coded_table };

    ghost view = { λ r. record { width = r.width; sums = map_of r.entries } };

    ghost invariant = { λ r. (0 < r.width) × AreSound r.width (map_of r.entries)
        × AllFit (record { width = r.width; sums = map_of r.entries }) };
}

impl Rows {
    /// No sums, over intervals of this width in seconds.
    pub fn new(alloc: Global, width: u32) -> Self
        requires { 0 < width }
        ensures { result ≡ empty_table width }
    {
        Rows {
            width,
            entries: Entries::new(alloc),
        }
    }

    /// The width of the intervals, in seconds. Each start is a multiple of it, each number of a key fits its type, and
    /// each key has flows.
    pub fn width(&self) -> u32
        ensures width { result ≡ self.now.width }
        ensures positive { 0 < result }
        ensures sound { AreSound self.now.width self.now.sums }
        ensures fit { AllFit self.now }
    {
        self.width
    }

    /// The width, and the sums by key.
    pub(crate) fn into_parts(self) -> (u32, Entries)
        ensures parts { table_at result.0 result.1 ≡ self }
        ensures positive { 0 < result.0 }
        ensures sound { AreSound result.0 (map_of result.1) }
        ensures fit { AllFit (table_at result.0 result.1) }
    {
        (self.width, self.entries)
    }

    /// Rows of this width with these sums.
    pub(crate) fn from_parts(width: u32, entries: Entries) -> Self
        requires positive { 0 < width }
        requires sound { AreSound width (map_of entries) }
        requires fit { AllFit (table_at width entries) }
        ensures { result ≡ table_at width entries }
    {
        Rows { width, entries }
    }

    /// Adds sums under a key. The first sums of a key have flows; those that are added to them may have none.
    pub fn put(&mut self, key: Key, sums: Sums) -> Result<(), SumError>
        requires aligned { key.start % self.old.width ≡ 0 }
        requires counted { finite.get self.old.sums key ≡ None → 0 < sums.flows }
        ensures becomes { Becomes result (with_sums key sums self.old) self.old self.new }
        // Memory is taken for a new key alone.
        ensures room { IfErr result (λ e. e ≡ SumError.OutOfMemory → finite.get self.old.sums key ≡ None) }
    {
        self.entries.put(key, sums)
    }

    /// Adds a flow under its key.
    #[inline(always)]
    pub fn add(&mut self, flow: &Flow) -> Result<(), SumError>
        ensures becomes { Becomes result (with_flow flow.now self.old) self.old self.new }
        ensures sums { OnOk result ((flows : List Flow) → AreSums self.old flows
            → AreSums self.new (flows ++ flow.now ∷ [])) }
        // Memory is taken for a new key alone.
        ensures room { IfErr result (λ e. e ≡ SumError.OutOfMemory
            → finite.get self.old.sums (key_of self.old.width flow.now) ≡ None) }
    {
        let key = Key {
            start: interval_of(flow.start, self.width),
            domain: flow.domain,
            protocol: flow.protocol,
        };
        self.entries.add(key, flow)
    }

    /// Adds sums of keys, each under the key of the interval that holds its start. After an `Err` some may have been
    /// added.
    fn add_all(&mut self, entries: &[(Key, Sums)]) -> Result<(), SumError>
        requires { AllByRecursion (λ e. 0 < e.1.flows) entries.now }
        ensures { MatchResult result
            (λ _. AllFit (with_entries entries.now self.old) × (self.new ≡ with_entries entries.now self.old))
            (λ e. IsRefused e (with_entries entries.now self.old)) }
    {
        let width = self.width();
        for entry in entries {
            let (key, sums) = *entry;
            let start = interval_of(key.start, width);
            self.put(Key { start, ..key }, sums)?;
        }
        Ok(())
    }

    /// A copy.
    pub fn try_copy(&self) -> Result<Rows, AllocError>
        ensures copy { IfOk result (λ rows. rows ≡ self.now) }
        ensures fit { IfOk result AllFit }
    {
        Ok(Rows {
            width: self.width,
            entries: self.entries.try_copy()?,
        })
    }

    /// Adds the sums of other rows, of the same width, key by key, in place.
    pub fn merge(&mut self, other: &Rows) -> Result<(), SumError>
        requires { self.old.width ≡ other.now.width }
        ensures becomes { Becomes result (merged self.old other.now) self.old self.new }
        ensures sums { OnOk result ((flows more : List Flow) → AreSums self.old flows → AreSums other.now more
            → AreSums self.new (flows ++ more)) }
    {
        self.entries.merge(&other.entries)
    }

    /// The sums over wide intervals, each of some intervals of these rows.
    pub fn widen(&self, alloc: Global, wide: u32) -> Result<Rows, SumError>
        requires positive { 0 < wide }
        requires multiple { wide % self.now.width ≡ 0 }
        ensures made { MatchResult result (λ rows. AllFit (widened wide self.now) × (rows ≡ widened wide self.now))
            (λ e. IsRefused e (widened wide self.now)) }
        ensures sums { IfOk result (λ rows. (flows : List Flow) → AreSums self.now flows → AreSums rows flows) }
    {
        let mut rows = Rows::new(alloc, wide);
        rows.add_all(self.entries()?.as_slice())?;
        Ok(rows)
    }

    /// All keys with their sums, one by one in the order of the keys. Nothing is copied.
    pub fn walk(&self) -> InOrder<'_>
        ensures { result ≡ finite.entries self.now.sums }
    {
        self.entries.walk()
    }

    /// All keys with their sums, in the order of the keys. It also answers to proofs what `width` does.
    pub fn entries(&self) -> Result<Vec<(Key, Sums)>, AllocError>
        ensures list { IfOk result (λ list. list.items ≡ finite.entries self.now.sums) }
        ensures positive { 0 < self.now.width }
        ensures sound { AreSound self.now.width self.now.sums }
        ensures fit { AllFit self.now }
    {
        self.entries.in_order()
    }

    /// The rows whose intervals start from `from` on and before `to`, in the order of their keys.
    pub fn in_span(&self, alloc: Global, from: u64, to: u64) -> Result<Vec<Row>, AllocError>
        ensures { IfOk result (λ rows. rows.items ≡ rows_between from to self.now) }
    {
        let width = self.width;
        let mut walk = self.walk();
        let mut rows = Vec::new(alloc);
        while let Some((key, sums)) = walk.next() {
            let start = u64::from(key.start);
            if from <= start && start < to {
                rows.push(Row { key, sums, width })?;
            }
        }
        Ok(rows)
    }
}
