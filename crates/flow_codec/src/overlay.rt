//! What a message changes in one list of definitions, beside the list, which stays as it was.

ghost use Rattle.std.specs.Prelude.{◌≡◌, IsTrue, ℕ, List, Option, None, ◌<◌, ◌^◌, [], ◌∷◌, ◌++◌, nat_eq, ◌==◌, length};
ghost use Rattle.std.specs.Prelude.{OnOk, IfOk};
ghost use Rattle.std.specs.HashMap.{get};
ghost use Rattle.std.specs.Map.{lookup};
ghost use Rattle.std.specs.Option.{option_copied};
ghost use Rattle.flow_codec.specs.Layout.{Layout};
ghost use Rattle.flow_codec.specs.Slots.{change_by};
ghost use Rattle.flow_codec.specs.Entries.{entries_size, size_in};
ghost use Rattle.flow_codec.specs.Working.{last_change, last_place, overlaid, IsOver, KnowsLast};

use crate::definitions::Definitions;
use crate::short_list::ShortList;
use crate::templates::Definition;
use std::alloc::{AllocError, Global};
use std::collections::HashMap;

/// Up to so many changes are looked through for the last one of an ID. Where there are more, a map has it.
const FEW: usize = 8;

/// The changes in order. The last one of an ID counts, before the list itself. A definition that was taken out is
/// `None`.
#[derive(Drop)]
pub(crate) struct Overlay {
    /// Whether all definitions were withdrawn, before these changes.
    pub(crate) cleared: bool,
    pub(crate) log: ShortList<(u16, Option<Definition>)>,
    /// The place of the last change of each ID, once there are more than a few.
    own: Option<Box<HashMap<u16, usize>>>,
    /// The octets of all template records after the changes. Within a message no limit bounds them.
    pub(crate) size: u128,
}

/// The octets of a definition's template record, and 0 for none.
fn size_in(definition: Option<&Definition>) -> usize
    ensures exact { result ≡ size_in (option_copied definition.entry) }
    ensures bound { result < 2 ^ 20 }
{
    match definition {
        Some(definition) => definition.size(),
        None => 0,
    }
}

/// Whether the definition under an ID is already the one that a change leaves.
fn is_so(here: Option<&Definition>, change: Option<&Definition>) -> bool
    ensures { IsTrue result → option_copied here.entry ≡ option_copied change.entry }
{
    match (here, change) {
        (Some(here), Some(change)) => here.is_same(change),
        (None, None) => true,
        _ => false,
    }
}

/// The last change of an ID.
fn last_in(log: &[(u16, Option<Definition>)], id: u16) -> Option<&Option<Definition>>
    ensures { option_copied result ≡ last_change id log.now }
{
    let mut last = None;
    for (key, change) in log {
        if *key == id {
            last = Some(change);
        }
    }
    last
}

/// The place of the last change of each ID.
fn places_of(
    alloc: Global,
    log: &[(u16, Option<Definition>)],
) -> Result<HashMap<u16, usize>, AllocError>
    ensures { IfOk result (λ own. (id : ℕ) → get nat_eq own id ≡ last_place id log.now) }
{
    let mut own = HashMap::new(alloc);
    for (place, (id, _)) in log.iter().enumerate() {
        own.insert(*id, place)?;
    }
    Ok(own)
}

/// Notes a change of an ID that will follow those in `log`. After an `Err` the map is of no use.
fn note(
    own: &mut Option<Box<HashMap<u16, usize>>>,
    alloc: Global,
    log: &[(u16, Option<Definition>)],
    id: u16,
) -> Result<(), AllocError>
    requires { KnowsLast own.old log.now }
    ensures { (change : Option Layout) → OnOk result (KnowsLast own.new (log.now ++ (id, change) ∷ [])) }
{
    match own {
        Some(own) => {
            own.insert(id, log.len())?;
        }
        None if log.len() >= FEW => {
            let mut map = places_of(alloc, log)?;
            map.insert(id, log.len())?;
            *own = Some(Box::new(alloc, map)?);
        }
        None => {}
    }
    Ok(())
}

impl Overlay {
    /// No change.
    pub(crate) fn new(base: &Definitions) -> Self
        ensures over { IsOver base.now result }
        ensures same { overlaid base.now result ≡ base.now }
    {
        Overlay {
            cleared: false,
            log: ShortList::new(),
            own: None,
            size: base.size() as u128,
        }
    }

    /// The last change of an ID.
    fn last(&self, id: u16) -> Option<&Option<Definition>>
        requires { KnowsLast self.now.own self.now.log }
        ensures { option_copied result ≡ last_change id self.now.log }
    {
        match &self.own {
            Some(own) => {
                let place = *own.get(&id)?;
                let (_, change) = self.log.as_slice().get(place)?;
                Some(change)
            }
            None => last_in(self.log.as_slice(), id),
        }
    }

    /// The definition under an ID, after the changes.
    pub(crate) fn get<'a>(&'a self, base: &'a Definitions, id: u16) -> Option<&'a Definition>
        requires { IsOver base.now self.now }
        ensures { option_copied result ≡ lookup (nat_eq id) (overlaid base.now self.now) }
    {
        match self.last(id) {
            Some(Some(definition)) => Some(definition),
            Some(None) => None,
            None if self.cleared => None,
            None => base.get(id),
        }
    }

    /// Whether no definition is left: the template record of each has octets.
    pub(crate) fn is_empty(&self) -> bool
        ensures { (base : List (ℕ × Layout)) → IsOver base self.now
            → result ≡ (length (overlaid base self.now) == 0) }
    {
        self.size == 0
    }

    /// Puts a definition under an ID, or takes out the one there. No change is noted where that is so already. After an
    /// `Err` the changes are of no use.
    pub(crate) fn change(
        &mut self,
        alloc: Global,
        base: &Definitions,
        id: u16,
        change: Option<Definition>,
    ) -> Result<(), AllocError>
        requires { IsOver base.now self.old }
        ensures over { OnOk result (IsOver base.now self.new) }
        ensures entries { OnOk result (overlaid base.now self.new ≡ change_by (overlaid base.now self.old) id change) }
    {
        let here = self.get(base, id);
        if is_so(here, change.as_ref()) {
            return Ok(());
        }
        let before = size_in(here);
        let after = size_in(change.as_ref());
        note(&mut self.own, alloc, self.log.as_slice(), id)?;
        self.log.push(alloc, (id, change))?;
        self.size = self.size - before as u128 + after as u128;
        Ok(())
    }

    /// Takes out the definition under an ID. After an `Err` the changes are of no use.
    #[tactic(auto, using(crate::proofs::OverlayLaws::nothing_taken))]
    pub(crate) fn take(
        &mut self,
        alloc: Global,
        base: &Definitions,
        id: u16,
    ) -> Result<(), AllocError>
        requires { IsOver base.now self.old }
        ensures over { OnOk result (IsOver base.now self.new) }
        ensures entries { OnOk result (overlaid base.now self.new ≡ change_by (overlaid base.now self.old) id None) }
    {
        if self.get(base, id).is_none() {
            return Ok(());
        }
        self.change(alloc, base, id, None)
    }

    /// Takes out all definitions.
    pub(crate) fn clear(&mut self)
        ensures over { (base : List (ℕ × Layout)) → IsOver base self.new }
        ensures none { (base : List (ℕ × Layout)) → overlaid base self.new ≡ [] }
    {
        self.cleared = true;
        self.log = ShortList::new();
        self.own = None;
        self.size = 0;
    }
}
