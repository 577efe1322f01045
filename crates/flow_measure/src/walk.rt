//! Keys with their sums, one by one in the order of the keys.

ghost use Rattle.std.specs.Prelude.{◌≡◌, [], ◌∷◌, MatchOption};

use crate::rows::{Key, Sums};
use std::collections::btree_map;
use std::marker::Model;

/// The keys that are left of rows, each with its sums, in the order of the keys.
#[derive(Drop)]
pub struct InOrder<'a> {
    pub(crate) places: btree_map::Iter<'a, Key, usize>,
    pub(crate) items: &'a [(Key, Sums)],
}

impl<'a> Model for InOrder<'a> {
    ghost use Rattle.std.specs.Prelude.{List, ◌≡◌, Some, map};
    ghost use Rattle.std.specs.List.{AllByRecursion};
    ghost use Rattle.flow_measure.specs.declared.rows.Key.{Key};
    ghost use Rattle.flow_measure.specs.declared.rows.Sums.{Sums};
    ghost use Rattle.flow_measure.specs.Entries.{coded_entries, place_of, resolved};

    ghost Value = { List (Key × Sums) };

    ghost coded = { coded_entries };

    ghost view = { λ w. map (resolved w.items.now) w.places };

    ghost invariant = { λ w. AllByRecursion (λ p. place_of p.0 w.items.now ≡ Some p.1) w.places };
}

impl<'a> InOrder<'a> {
    /// The next key with its sums; none where no key is left.
    pub fn next(&mut self) -> Option<(Key, Sums)>
        ensures { MatchOption result ((self.old ≡ []) × (self.new ≡ [])) (λ e. self.old ≡ e ∷ self.new) }
    {
        let Some((key, place)) = self.places.next() else {
            return None;
        };
        let (_, sums) = self.items[*place];
        Some((*key, sums))
    }
}
