//! Laws of sums of several archives.

ghost use Rattle.flow_several.specs.Together.{TotalsAlone, TotalsTogether};

/// What several archives answer together is, where these are the views of histories, the rows of two tables: of all
/// their flows that aren't summed over wide intervals, and of all that are. One archive answers what it answers alone.
pub fn sums_of_several()
    ensures together { TotalsTogether }
    ensures alone { TotalsAlone }
{}
