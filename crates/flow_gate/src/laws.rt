// Laws of gated lists, each the contract of a call that does nothing.
ghost use Rattle.flow_gate.specs.Laws.{OneListFits, ListOrDamage, NeverBoth, OnePlaceDamaged, RowIsItsOctets};
ghost use Rattle.flow_gate.specs.Laws.{RowStaysInCut, OneRowFits, ListStaysInCut};

/// Octets have one gated list from a place on, or damage at one place, and never both; and a list stays in a file that
/// is cut after it.
pub fn laws_of_lists()
    ensures one_list { OneListFits }
    ensures list_or_damage { ListOrDamage }
    ensures never_both { NeverBoth }
    ensures one_place { OnePlaceDamaged }
    ensures row_octets { RowIsItsOctets }
    ensures row_stays { RowStaysInCut }
    ensures one_row { OneRowFits }
    ensures list_stays { ListStaysInCut }
{}
