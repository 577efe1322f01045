//! Laws of what images represent.

ghost use Rattle.flow_recover.specs.Laws.{KnownStands, OneState, UnnamedFilesPlayNoPart};

/// An image represents one state at most; files that its manifest doesn't name play no part; and what an open archive
/// knows of an image is that it represents what is left of the archive on a disk.
pub fn what_an_image_stands_for()
    ensures one_state { OneState }
    ensures unnamed { UnnamedFilesPlayNoPart }
    ensures known { KnownStands }
{}
