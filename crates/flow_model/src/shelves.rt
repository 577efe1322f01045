//! Laws of shelves and of their views.

ghost use Rattle.std.specs.Prelude.{◌≡◌, ℕ, ◌%◌, ◌<◌, ◌^◌, take, drop};
ghost use Rattle.flow_measure.specs.History.{flows_in, History, IsHistory};
ghost use Rattle.flow_measure.specs.Sums.{table_of};
ghost use Rattle.flow_measure.specs.View.{view_of, AreCountsOf, View};
ghost use Rattle.flow_model.specs.Shelf.{rollup_message_count, new_shelf, Shelf};
ghost use Rattle.flow_model.specs.Views.{IsReadIn, IsViewOf};
ghost use Rattle.flow_model.specs.Changes.{applied, counts_of, history_after, merged_table, new_history};
ghost use Rattle.flow_model.specs.Changes.{Allows, Change};

/// A shelf has one view at most.
pub fn one_view()
    ensures { (s : Shelf) (v w : View) → s.width < 2 ^ 32 → s.wide < 2 ^ 32 → IsViewOf s v → IsViewOf s w → v ≡ w }
{}

/// Each view of a shelf is read in its files, and no two views are. So where a shelf has a view, what is read in its
/// files is that one.
pub fn views_are_read()
    ensures read { (s : Shelf) (v : View) → IsViewOf s v → IsReadIn s v }
    ensures one { (s : Shelf) (v w : View) → s.width < 2 ^ 32 → s.wide < 2 ^ 32 → IsReadIn s v → IsReadIn s w → v ≡ w }
{}

/// A shelf that has the view of a history has, after each change that may be made there, the view of the history after
/// that step. The shelf of a new archive has the view of the empty history.
///
/// What a merge asks is said by the view alone: the sums of the oldest rolled files, widened. They are the sums over
/// wide intervals of the flows of these files' messages.
pub fn views_follow()
    ensures start { (width wide : ℕ) → 0 < width → 0 < wide → wide % width ≡ 0 → IsHistory (new_history width wide)
        × IsViewOf (new_shelf width wide) (view_of (new_history width wide) (counts_of (new_shelf width wide))) }
    ensures counts { (s : Shelf) (h : History) → IsHistory h → IsViewOf s (view_of h (counts_of s))
        → AreCountsOf h (counts_of s) }
    ensures history { (s : Shelf) (h : History) (c : Change) → IsHistory h → IsViewOf s (view_of h (counts_of s))
        → Allows s (view_of h (counts_of s)) c → IsHistory (history_after h c) }
    ensures view { (s : Shelf) (h : History) (c : Change) → IsHistory h → IsViewOf s (view_of h (counts_of s))
        → Allows s (view_of h (counts_of s)) c
        → IsViewOf (applied s c) (view_of (history_after h c) (counts_of (applied s c))) }
    ensures merged { (s : Shelf) (h : History) (k : ℕ) → IsHistory h → IsViewOf s (view_of h (counts_of s))
        → merged_table s (view_of h (counts_of s)) k
        ≡ table_of s.wide (flows_in (take (rollup_message_count (take k s.rolled)) (drop h.second h.all))) }
{}
