//! Definitions in slots: a map knows the slot of each ID, so each change takes constant time, wherever it is.

ghost use Rattle.std.specs.Prelude.{◌≡◌, ℕ, suc, ◌+◌, ◌<◌, ◌≤◌, [], ◌++◌, ◌==◌, nat_eq, length, OnOk, IfOk};
ghost use Rattle.std.specs.List.{AllByRecursion};
ghost use Rattle.std.specs.Box.{box_value};
ghost use Rattle.std.specs.Map.{lookup};
ghost use Rattle.std.specs.Option.{option_copied};
ghost use Rattle.indexmap.specs.IndexMap.{insert_entry, shift_remove_entry};
ghost use Rattle.flow_codec.specs.Slots.{entries_of, begun, change_by, made, started, IsTable, HasRoom, IsReady};
ghost use Rattle.flow_codec.specs.Templates.{IsEntry};
ghost use Rattle.flow_codec.specs.Message.{joined};
ghost use Rattle.flow_codec.specs.Prefix.{defining_records};

use crate::kind::TemplateKind;
use crate::prefix::put_definition;
use crate::short_list::{Kept, ShortList};
use crate::templates::Definition;
use std::alloc::{AllocError, Global};
use std::collections::HashMap;

/// A definition that is taken out leaves its slot empty. Where more than half of the slots are empty, making room
/// leaves them out.
#[derive(Drop)]
pub(crate) struct SlotTable {
    slots: Vec<Option<(u16, Definition)>>,
    places: HashMap<u16, usize>,
    /// The places of IDs that were put lately, each at the index that `recent_slot` gives. A place is checked before it
    /// is used.
    recent: [usize; RECENT],
}

/// How many places of IDs are remembered.
const RECENT: usize = 32;

impl SlotTable {
    pub(crate) fn new(alloc: Global) -> Self
        ensures slots { IsTable result }
        ensures none { entries_of result ≡ [] }
    {
        SlotTable {
            slots: Vec::new(alloc),
            places: HashMap::new(alloc),
            recent: [0; RECENT],
        }
    }

    /// An empty table with room for `count` definitions.
    fn with_room(alloc: Global, count: usize) -> Result<Self, AllocError>
        ensures { IfOk result (IsReady [] count) }
    {
        Ok(SlotTable {
            slots: Vec::with_capacity(alloc, count)?,
            places: HashMap::with_capacity(alloc, count)?,
            recent: [0; RECENT],
        })
    }

    pub(crate) fn is_empty(&self) -> bool
        requires { IsTable self.now }
        ensures { result ≡ (length (entries_of self.now) == 0) }
    {
        self.places.is_empty()
    }

    /// The definition under an ID, looked for first at the place that is remembered.
    pub(crate) fn get(&self, id: u16) -> Option<&Definition>
        requires { IsTable self.now }
        ensures { option_copied result ≡ lookup (nat_eq id) (entries_of self.now) }
    {
        if let Some(Some((here, definition))) = self.slots.get(self.recent[recent_slot(id)]) {
            if *here == id {
                return Some(definition);
            }
        }
        self.search(id)
    }

    /// The definition under an ID, by a search for it.
    #[inline(never)]
    fn search(&self, id: u16) -> Option<&Definition>
        requires { IsTable self.now }
        ensures { option_copied result ≡ lookup (nat_eq id) (entries_of self.now) }
    {
        if self.is_empty() {
            return None;
        }
        let place = *self.places.get(&id)?;
        match &self.slots[place] {
            Some((_, definition)) => Some(definition),
            None => None,
        }
    }

    /// Puts a definition under an ID. An ID of the table keeps its place; a new one goes to the end.
    fn put(&mut self, id: u16, definition: Definition)
        requires slots { IsTable self.old }
        requires room { HasRoom 1 self.old }
        ensures slots { IsTable self.new }
        ensures entries { entries_of self.new ≡ insert_entry nat_eq (entries_of self.old) id definition }
        ensures room { (n : ℕ) → HasRoom (suc n) self.old → HasRoom n self.new }
    {
        if let Some(place) = self.places.get(&id).copied() {
            self.recent[recent_slot(id)] = place;
            self.slots[place] = Some((id, definition));
            return;
        }
        let place = self.slots.len();
        self.recent[recent_slot(id)] = place;
        let placed: Result<_, _> = self.places.insert(id, place);
        placed.unwrap();
        let pushed: Result<_, _> = self.slots.push(Some((id, definition)));
        pushed.unwrap();
    }

    fn take(&mut self, id: u16)
        requires { IsTable self.old }
        ensures slots { IsTable self.new }
        ensures entries { entries_of self.new ≡ shift_remove_entry (nat_eq id) (entries_of self.old) }
        ensures room { (n : ℕ) → HasRoom (suc n) self.old → HasRoom n self.new }
    {
        if let Some(place) = self.places.remove(&id) {
            self.slots[place] = None;
        }
    }

    /// Puts a definition under an ID, or takes out the one there.
    fn change(&mut self, id: u16, change: Option<Definition>)
        requires slots { IsTable self.old }
        requires room { HasRoom 1 self.old }
        ensures slots { IsTable self.new }
        ensures entries { entries_of self.new ≡ change_by (entries_of self.old) id change }
        ensures room { (n : ℕ) → HasRoom (suc n) self.old → HasRoom n self.new }
    {
        match change {
            Some(definition) => self.put(id, definition),
            None => self.take(id),
        }
    }

    /// A copy that shares the definitions, without empty slots and with room for `count` more.
    pub(crate) fn copy_with_room(&self, count: usize) -> Result<Self, AllocError>
        requires { IsTable self.now }
        ensures { IfOk result (IsReady (entries_of self.now) count) }
    {
        let mut copy = SlotTable::with_room(*self.slots.allocator(), self.slots.len())?;
        for slot in self.slots.as_slice() {
            if let Some((id, definition)) = slot {
                copy.put(*id, definition.clone()?);
            }
        }
        copy.grow(count)?;
        Ok(copy)
    }

    /// Appends the template records of these definitions to octets, in order.
    pub(crate) fn put_records(
        &self,
        octets: &mut Vec<u8>,
        kind: TemplateKind,
    ) -> Result<(), AllocError>
        requires { AllByRecursion (IsEntry kind) (entries_of self.now) }
        ensures { OnOk result
            (octets.new.items ≡ octets.old.items ++ joined (defining_records kind (entries_of self.now))) }
    {
        for slot in self.slots.as_slice() {
            if let Some((id, definition)) = slot {
                put_definition(octets, kind, *id, definition)?;
            }
        }
        Ok(())
    }

    fn grow(&mut self, count: usize) -> Result<(), AllocError>
        requires { IsTable self.old }
        ensures slots { IsTable self.new }
        ensures entries { entries_of self.new ≡ entries_of self.old }
        ensures room { OnOk result (HasRoom count self.new) }
    {
        self.slots.reserve(count)?;
        self.places.reserve(count)
    }

    /// Makes room for `count` more definitions. It leaves out empty slots where there are too many.
    fn reserve(&mut self, count: usize) -> Result<(), AllocError>
        requires { IsTable self.old }
        ensures slots { IsTable self.new }
        ensures entries { entries_of self.new ≡ entries_of self.old }
        ensures room { OnOk result (HasRoom count self.new) }
    {
        if self.slots.len() / 2 > self.places.len() {
            return self.leave_out_empty(count);
        }
        self.grow(count)
    }

    /// Leaves out empty slots, with room for `count` more definitions.
    #[inline(never)]
    fn leave_out_empty(&mut self, count: usize) -> Result<(), AllocError>
        requires { IsTable self.old }
        ensures slots { IsTable self.new }
        ensures entries { entries_of self.new ≡ entries_of self.old }
        ensures room { OnOk result (HasRoom count self.new) }
    {
        *self = self.copy_with_room(count)?;
        Ok(())
    }

    /// Takes the memory for `count` changes, and answers the table that they begin with, where that isn't this one.
    pub(crate) fn prepare(
        &mut self,
        cleared: bool,
        count: usize,
    ) -> Result<Option<Box<SlotTable>>, AllocError>
        requires { IsTable self.old }
        ensures slots { IsTable self.new }
        ensures entries { entries_of self.new ≡ entries_of self.old }
        ensures ready { IfOk result
            (λ fresh. IsReady (started cleared (entries_of self.old)) count (begun fresh self.new)) }
    {
        if cleared {
            return Ok(Some(boxed(*self.slots.allocator(), count)?));
        }
        if count > 0 {
            self.reserve(count)?;
        }
        Ok(None)
    }

    /// Replaces this table by `fresh`, where there is one.
    fn begin(&mut self, fresh: Option<Box<SlotTable>>)
        ensures { self.new ≡ begun fresh self.old }
    {
        if let Some(fresh) = fresh {
            *self = Box::into_inner(fresh);
        }
    }

    /// Makes changes one after the other, in memory that was taken for them.
    fn make(&mut self, changes: ShortList<(u16, Option<Definition>)>)
        requires slots { IsTable self.old }
        requires room { HasRoom (length changes) self.old }
        ensures slots { IsTable self.new }
        ensures entries { entries_of self.new ≡ made (entries_of self.old) changes }
    {
        match changes.into_kept() {
            Kept::Nothing => {}
            Kept::One([change]) => self.change(change.0, change.1),
            Kept::Many(changes) => self.make_each(changes),
        }
    }

    fn make_each(&mut self, changes: Vec<(u16, Option<Definition>)>)
        requires slots { IsTable self.old }
        requires room { HasRoom (length changes.items) self.old }
        ensures slots { IsTable self.new }
        ensures entries { entries_of self.new ≡ made (entries_of self.old) changes.items }
    {
        for (id, change) in changes {
            self.change(id, change);
        }
    }

    /// Makes changes in the table that `prepare` made ready for them.
    pub(crate) fn finish(
        &mut self,
        fresh: Option<Box<SlotTable>>,
        changes: ShortList<(u16, Option<Definition>)>,
    )
        requires slots { IsTable (begun fresh self.old) }
        requires room { HasRoom (length changes) (begun fresh self.old) }
        ensures slots { IsTable self.new }
        ensures entries { entries_of self.new ≡ made (entries_of (begun fresh self.old)) changes }
    {
        self.begin(fresh);
        self.make(changes);
    }
}

/// The index in `recent` for the place of an ID.
fn recent_slot(id: u16) -> usize
    ensures { result < 32 }
{
    id as usize % RECENT
}

/// An empty table with room for `count` definitions.
#[inline(never)]
fn boxed(alloc: Global, count: usize) -> Result<Box<SlotTable>, AllocError>
    ensures { IfOk result (λ fresh. IsReady [] count (box_value fresh)) }
{
    Ok(Box::new(alloc, SlotTable::with_room(alloc, count)?)?)
}
