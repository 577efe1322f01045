//! Sums by key, in the order in which their keys came, and the place of each key.

ghost use Rattle.std.specs.Prelude.{◌<◌, ◌≡◌, ◌++◌, ◌∷◌, [], List, None, Some, slice_get, IfOk, OnOk, OnErr};
ghost use Rattle.std.specs.Prelude.{ℕ, ◌^◌, MatchResult, IfSome, true};
ghost use Rattle.std.specs.FinMap.{entries, get, insert};
ghost use Rattle.flow_measure.specs.Entries.{place_of, map_of, added_to, table_at, Adds, AreOnce};
ghost use Rattle.flow_measure.specs.Entries.{with_sums_at, without_last, undone, all_undone, is_noted};
ghost use Rattle.flow_measure.specs.Sums.{counted, Fits, HasRoom, AllFit, IsRefused, Becomes, merged, with_sums};
ghost use Rattle.flow_measure.specs.declared.entries.Change.TheVariants as Change;

use crate::error::SumError;
use crate::flow::Flow;
use crate::rows::{Key, Sums};
use crate::walk::InOrder;
use std::alloc::{AllocError, Global};
use std::collections::BTreeMap;
use std::marker::Model;

/// Sums, each under a key of its own.
#[derive(Drop)]
pub(crate) struct Entries {
    /// The keys with their sums.
    items: Vec<(Key, Sums)>,
    /// The place of each key among them.
    places: BTreeMap<Key, usize>,
    /// The places of keys that came lately, each at the index that `recent_slot` gives. A place is checked before it is
    /// used.
    recent: [usize; RECENT],
    alloc: Global,
}

/// How the sums under a key were changed, so that it can be taken back.
#[derive(Clone, Copy)]
pub(crate) enum Change {
    /// A new key came, at the place after all others.
    Pushed,
    /// Sums were added at this place, where the sums were these.
    Added(usize, Sums),
}

/// How many places of keys are remembered.
const RECENT: usize = 1024;

impl Model for Entries {
    ghost use Rattle.std.specs.Prelude.{List};
    ghost use Rattle.flow_measure.specs.declared.rows.Key.{Key};
    ghost use Rattle.flow_measure.specs.declared.rows.Sums.{Sums};
    ghost use Rattle.std.specs.Prelude.{◌≡◌};
    ghost use Rattle.std.specs.Map.{lookup};
    ghost use Rattle.std.specs.BTreeMap.{is_at};
    ghost use Rattle.flow_measure.specs.Sums.{key_cmp};
    ghost use Rattle.flow_measure.specs.Entries.{coded_entries, place_of, AreOnce};

    ghost Value = { List (Key × Sums) };

    ghost coded = { coded_entries };

    ghost view = { λ e. e.items.items };

    ghost invariant = { λ e. AreOnce e.items.items
        × ((key : Key) → lookup (is_at (key_cmp key)) e.places.entries ≡ place_of key e.items.items) };
}

impl Entries {
    /// No sums.
    pub(crate) fn new(alloc: Global) -> Self
        ensures { result ≡ [] }
    {
        Entries {
            items: Vec::new(alloc),
            places: BTreeMap::new(alloc),
            recent: [0; RECENT],
            alloc,
        }
    }

    /// The key at a place, with its sums.
    fn get(&self, place: usize) -> Option<(Key, Sums)>
        ensures value { result ≡ slice_get self.now place }
        ensures once { AreOnce self.now }
    {
        self.items.get(place).copied()
    }

    /// Whether the key at a place is this one.
    #[inline(always)]
    fn is_at(&self, place: usize, key: &Key) -> bool
        ensures { result ≡ true → place_of key.now self.now ≡ Some place }
    {
        match self.get(place) {
            Some((here, _)) => here == *key,
            None => false,
        }
    }

    /// The place of a key, looked for first at `near`.
    fn find(&self, near: usize, key: Key) -> Option<usize>
        ensures { result ≡ place_of key self.now }
    {
        if self.is_at(near, &key) {
            return Some(near);
        }
        self.search(Key { ..key })
    }

    /// The place of a key, by a search for it.
    #[inline(never)]
    fn search(&self, key: Key) -> Option<usize>
        ensures { result ≡ place_of key self.now }
    {
        self.places.get(&key).copied()
    }

    /// Adds sums to those of a key, which is at this place.
    fn increase(&mut self, place: usize, key: Key, sums: Sums) -> Result<(), SumError>
        requires { place_of key self.old ≡ Some place }
        ensures adds { Adds result key sums (map_of self.old) (map_of self.new) }
        ensures back { OnOk result ((total : Sums) → slice_get self.old place ≡ Some (key, total)
            → undone (Change.Added place total) self.new ≡ self.old) }
        ensures err { OnErr result (self.new ≡ self.old) }
    {
        let (_, total) = self.items[place];
        let Some(sum) = total.plus(sums) else {
            return Err(SumError::SumSpent);
        };
        self.items[place].1 = sum;
        Ok(())
    }

    /// Puts sums under a new key, at the end.
    #[inline(never)]
    fn push(&mut self, key: Key, sums: Sums) -> Result<(), AllocError>
        requires { place_of key self.old ≡ None }
        ensures ok { OnOk result (self.new ≡ self.old ++ (key, sums) ∷ []) }
        ensures err { OnErr result (self.new ≡ self.old) }
    {
        self.items.reserve(1)?;
        self.places.insert(key, self.items.len())?;
        self.items.push((key, sums)).unwrap();
        Ok(())
    }

    /// Adds sums under a key, which is searched for; its place is then at this index of `recent`.
    #[inline(never)]
    fn put_elsewhere(&mut self, slot: usize, key: Key, sums: Sums) -> Result<(), SumError>
        requires { slot < 1024 }
        ensures { Adds result key sums (map_of self.old) (map_of self.new) }
    {
        if let Some(place) = self.search(Key { ..key }) {
            self.recent[slot] = place;
            return self.increase(place, key, sums);
        }
        self.recent[slot] = self.items.len();
        self.push(key, sums)?;
        Ok(())
    }

    /// Adds sums under a key.
    pub(crate) fn put(&mut self, key: Key, sums: Sums) -> Result<(), SumError>
        ensures { Adds result key sums (map_of self.old) (map_of self.new) }
    {
        let slot = recent_slot(&key);
        let near = self.recent[slot];
        if self.is_at(near, &key) {
            return self.increase(near, key, sums);
        }
        self.put_elsewhere(slot, key, sums)
    }

    /// Whether this key is at a place, with sums that have room for a flow.
    #[inline(always)]
    fn takes(&self, place: usize, key: &Key) -> bool
        ensures { result ≡ true → (total : Sums) × (slice_get self.now place ≡ Some (key.now, total)) × HasRoom total }
    {
        match self.get(place) {
            Some((here, total)) => here == *key && total.has_room(),
            None => false,
        }
    }

    /// Adds a flow to the sums of its key, which is at this place, and whose sums have room for it.
    #[inline(always)]
    fn count(&mut self, place: usize, key: &Key, flow: &Flow)
        requires { (total : Sums) × (slice_get self.old place ≡ Some (key.now, total)) × HasRoom total }
        ensures fits { Fits (added_to (get (map_of self.old) key.now) (counted flow.now)) }
        ensures adds { map_of self.new ≡ insert (map_of self.old) key.now
            (added_to (get (map_of self.old) key.now) (counted flow.now)) }
    {
        self.items[place].1.count(flow);
    }

    /// Adds a flow under its key, wherever that is. It is a function of its own so that what it takes by memory is
    /// written there alone.
    #[inline(always)]
    fn add_elsewhere(&mut self, slot: usize, key: Key, flow: &Flow) -> Result<(), SumError>
        requires { slot < 1024 }
        ensures { Adds result key (counted flow.now) (map_of self.old) (map_of self.new) }
    {
        self.put_elsewhere(slot, key, flow.sums())
    }

    /// Adds a flow under its key: at once where that key is the one looked for first, and its sums have room.
    #[inline(always)]
    pub(crate) fn add(&mut self, key: Key, flow: &Flow) -> Result<(), SumError>
        ensures adds { Adds result key (counted flow.now) (map_of self.old) (map_of self.new) }
        // The key's numbers fit their types.
        ensures typed { (key.domain < 2 ^ 32) × IfSome key.protocol (λ p. p < 2 ^ 8) }
    {
        let slot = recent_slot(&key);
        let near = self.recent[slot];
        if self.takes(near, &key) {
            self.count(near, &key, flow);
            return Ok(());
        }
        self.add_elsewhere(slot, Key { ..key }, flow)
    }

    /// Puts sums at a place, under the key there. At a place without a key it does nothing.
    fn set(&mut self, place: usize, sums: Sums)
        ensures { self.new ≡ with_sums_at place sums self.old }
    {
        if place < self.items.len() {
            self.items[place].1 = sums;
        }
    }

    /// Takes out the key that came last, with its sums.
    fn pop(&mut self)
        ensures { self.new ≡ without_last self.old }
    {
        if let Some((key, _)) = self.items.pop() {
            self.places.remove(&key);
        }
    }

    /// Takes a change back.
    fn undo(&mut self, change: Change)
        ensures { self.new ≡ undone change self.old }
    {
        match change {
            Change::Pushed => self.pop(),
            Change::Added(place, sums) => self.set(place, sums),
        }
    }

    /// Takes all changes back, the last one first.
    pub(crate) fn undo_all(&mut self, changes: Vec<Change>)
        ensures { self.new ≡ all_undone changes.items self.old }
    {
        let mut changes = changes;
        while let Some(change) = changes.pop() {
            self.undo(change);
        }
    }

    /// Adds sums under a key, and answers how that is taken back.
    fn change(&mut self, key: Key, sums: Sums) -> Result<Change, SumError>
        ensures adds { Adds result key sums (map_of self.old) (map_of self.new) }
        ensures ok { IfOk result (λ change. undone change self.new ≡ self.old) }
        ensures err { OnErr result (self.new ≡ self.old) }
    {
        let slot = recent_slot(&key);
        let Some(place) = self.find(self.recent[slot], key) else {
            self.recent[slot] = self.items.len();
            self.push(key, sums)?;
            return Ok(Change::Pushed);
        };
        self.recent[slot] = place;
        let (_, total) = self.items[place];
        self.increase(place, key, sums)?;
        Ok(Change::Added(place, total))
    }

    /// Adds sums under a key, and notes the change.
    #[inline(never)]
    fn add_noted(&mut self, key: Key, sums: Sums, changes: &mut Vec<Change>) -> Result<(), SumError>
        ensures adds { MatchResult result (λ _. Fits (added_to (get (map_of self.old) key) sums)
            × (map_of self.new ≡ insert (map_of self.old) key (added_to (get (map_of self.old) key) sums)))
            (λ e. IsRefused e (with_sums key sums (table_at 0 self.old))) }
        ensures err { OnErr result (map_of self.new ≡ map_of self.old) }
        ensures back { all_undone changes.new.items self.new ≡ all_undone changes.old.items self.old }
    {
        changes.reserve(1)?;
        let change = self.change(key, sums)?;
        changes.push(change).unwrap();
        Ok(())
    }

    /// Adds sums under a key. Where they are the first for this key since the changes began, it notes the change;
    /// `noted` has for each place where its change may be.
    #[inline(always)]
    pub(crate) fn add_once(
        &mut self,
        key: Key,
        sums: Sums,
        changes: &mut Vec<Change>,
        noted: &mut Vec<usize>,
    ) -> Result<(), SumError>
        ensures adds { MatchResult result (λ _. Fits (added_to (get (map_of self.old) key) sums)
            × (map_of self.new ≡ insert (map_of self.old) key (added_to (get (map_of self.old) key) sums)))
            (λ e. IsRefused e (with_sums key sums (table_at 0 self.old))) }
        ensures err { OnErr result (map_of self.new ≡ map_of self.old) }
        ensures back { all_undone changes.new.items self.new ≡ all_undone changes.old.items self.old }
    {
        let slot = recent_slot(&key);
        if let Some(place) = self.find(self.recent[slot], key) {
            self.recent[slot] = place;
            if is_noted(noted.as_slice(), changes.as_slice(), place) {
                return self.increase(place, key, sums);
            }
            note(noted, place, changes.len())?;
        }
        self.add_noted(key, sums, changes)
    }

    /// Adds the sums of others, key by key. Where one is refused, all that were added before it are taken back.
    pub(crate) fn merge(&mut self, other: &Entries) -> Result<(), SumError>
        requires { AllFit (table_at 0 self.old) }
        ensures { (width : ℕ) → Becomes result (merged (table_at width self.old) (table_at width other.now))
            (table_at width self.old) (table_at width self.new) }
    {
        let mut changes = Vec::new(self.alloc);
        let mut walk = other.walk();
        while let Some((key, sums)) = walk.next() {
            if let Err(refusal) = self.add_noted(key, sums, &mut changes) {
                self.undo_all(changes);
                return Err(refusal);
            }
        }
        Ok(())
    }

    /// All keys with their sums, one by one in the order of the keys.
    pub(crate) fn walk(&self) -> InOrder<'_>
        ensures { result ≡ entries (map_of self.now) }
    {
        InOrder {
            places: self.places.iter(),
            items: self.items.as_slice(),
        }
    }

    /// All keys with their sums, in the order of the keys.
    pub(crate) fn in_order(&self) -> Result<Vec<(Key, Sums)>, AllocError>
        ensures { IfOk result (λ list. list.items ≡ entries (map_of self.now)) }
    {
        let mut list = Vec::with_capacity(self.alloc, self.items.len())?;
        for (key, place) in self.places.iter() {
            let (_, sums) = self.items[*place];
            list.push((*key, sums))?;
        }
        Ok(list)
    }

    /// A copy.
    pub(crate) fn try_copy(&self) -> Result<Entries, AllocError>
        ensures { IfOk result (λ copy. copy ≡ self.now) }
    {
        Ok(Entries {
            items: self.items.clone()?,
            places: self.places.clone()?,
            recent: self.recent,
            alloc: self.alloc,
        })
    }
}

/// The index in `recent` for the place of a key: the top bits of its numbers, mixed.
fn recent_slot(key: &Key) -> usize
    ensures { result < 1024 }
{
    let protocol = key.protocol.map_or(256, u32::from);
    let mixed = key
        .start
        .wrapping_mul(40503)
        .wrapping_add(key.domain)
        .wrapping_mul(257)
        .wrapping_add(protocol);
    (mixed.wrapping_mul(2654435769) >> 22) as usize
}

/// Whether the changes have one of this place.
fn is_noted(noted: &[usize], changes: &[Change], place: usize) -> bool
    ensures { result ≡ true → is_noted place changes.now ≡ true }
{
    let Some(at) = noted.get(place) else {
        return false;
    };
    match changes.get(*at) {
        Some(Change::Added(here, _)) => *here == place,
        _ => false,
    }
}

/// Notes where the change of a place will be.
fn note(noted: &mut Vec<usize>, place: usize, at: usize) -> Result<(), AllocError> {
    while noted.len() <= place {
        noted.push(0)?;
    }
    noted[place] = at;
    Ok(())
}
