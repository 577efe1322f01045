//! What no clause says: what a real folder holds after each call, its lock, and what comes of it where syncs and writes
//! fail. Which names are those of files, and that others stay, is in cases/folders.txt.

use crate::calls::Call;
use crate::plan::{Failing, Plan};
use crate::steps::Beside::{Empty, Has, Link, Locked, Made, Mode, Put, Removed, Renamed};
use crate::steps::Step::{Aside, Counts, Faults, Gives, Shortened};
use crate::steps::{Beside, End, FILE, FOLDER, Held, Step, Why, opened};
use std::alloc::{AllocError, Global};
use std::fs;
use std::io::ErrorKind;
use std::test::*;

const NAMES_OF_FILES: [Step<'static>; 6] = [
    Gives(Call::Write(18446744073709551615, 0, b"a")),
    Gives(Call::Write(7, 0, b"b")),
    Gives(Call::Write(2, 0, b"c")),
    Gives(Call::Write(1, 0, b"d")),
    Gives(Call::Write(0, 0, b"e")),
    Gives(Call::Files(&[0, 1, 2, 7, 18446744073709551615])),
];

/// Calls on files that don't exist.
const ABSENT: [Step<'static>; 7] = [
    Gives(Call::Length(3, 0)),
    Gives(Call::Sync(3)),
    Gives(Call::Cut(3, 0)),
    Gives(Call::Sync(3)),
    Gives(Call::Read(3, 0, b"")),
    Gives(Call::Remove(3)),
    Gives(Call::Files(&[])),
];

const OCTETS: [Step<'static>; 14] = [
    Gives(Call::Write(3, 0, b"zzz")),
    Gives(Call::Cut(3, 1)),
    Gives(Call::Length(3, 1)),
    Gives(Call::Cut(3, 0)),
    Gives(Call::Length(3, 0)),
    Gives(Call::Write(3, 0, b"abcdef")),
    Gives(Call::Write(3, 2, b"XY")),
    Gives(Call::Read(3, 1, b"bXYe")),
    Gives(Call::Sync(3)),
    Gives(Call::Read(3, 1, b"bXYe")),
    Gives(Call::Cut(3, 3)),
    Gives(Call::Write(3, 3, b"Z")),
    Gives(Call::Sync(3)),
    Gives(Call::Length(3, 4)),
];

const WRITTEN: [Step<'static>; 1] = [Gives(Call::Write(3, 0, b"abcdef"))];

/// What others make of a file while it is frozen: another one in its place, and none.
const CHANGED_BESIDE: [Held<'static>; 5] = [
    Held::Aside(Removed(FILE)),
    Held::Aside(Put(FILE, b"abc")),
    Held::Faults(2, 3),
    Held::Aside(Removed(FILE)),
    Held::Faults(0, 1),
];

/// One octet is added to a file that is settled.
const LENGTHENED: [Step<'static>; 3] = [
    Gives(Call::Write(3, 0, b"abcdef")),
    Gives(Call::Sync(3)),
    Aside(Put(FILE, b"abcdefg")),
];

/// A link under the name of file 3, beside a disk.
const LINKED: [Step<'static>; 4] = [
    Aside(Link("target", FILE)),
    Faults(Call::Write(3, 0, b"lost")),
    Faults(Call::Length(3, 0)),
    Faults(Call::Sync(3)),
];

/// The folder is renamed under a disk, and another one put in its place.
const MOVED: [Step<'static>; 6] = [
    Aside(Renamed(FOLDER, ANOTHER)),
    Aside(Made(FOLDER)),
    Gives(Call::Write(3, 0, b"abc")),
    Gives(Call::Sync(3)),
    Aside(Has("another/3.ipfix", b"abc")),
    Aside(Empty(FOLDER)),
];

/// Syncs that fail are made good.
const SYNCS: [Step<'static>; 12] = [
    Counts(Call::Write(3, 0, b"abcdef"), 0, true, [1, 0, 1]),
    Counts(Call::Cut(3, 4), 0, true, [1, 1, 1]),
    // written and cut again at once
    Counts(Call::Sync(3), 1, false, [2, 2, 1]),
    // and synced, so not once more
    Counts(Call::Sync(3), 0, true, [2, 2, 1]),
    Counts(Call::Write(3, 4, b"Z"), 0, true, [3, 2, 1]),
    // what was written since, with the length, though nothing was cut
    Counts(Call::Sync(3), 2, false, [4, 3, 1]),
    // once more, since that sync failed too
    Counts(Call::Sync(3), 0, true, [5, 4, 1]),
    // not after a good one
    Counts(Call::Sync(3), 0, true, [5, 4, 1]),
    Counts(Call::Write(3, 0, b"A"), 0, true, [6, 4, 1]),
    Counts(Call::Write(3, 3, b"D"), 0, true, [7, 4, 1]),
    // each of the two places
    Counts(Call::Sync(3), 1, false, [9, 5, 1]),
    Counts(Call::Sync(3), 0, true, [9, 5, 1]),
];

/// Files of others are written again.
const CHANGED: [Step<'static>; 5] = [
    Counts(Call::Write(3, 5, b"F"), 0, true, [1, 0, 0]),
    // all of it, with the length
    Counts(Call::Sync(3), 0, true, [2, 1, 0]),
    // settled by this value
    Counts(Call::Sync(3), 0, true, [2, 1, 0]),
    Counts(Call::Write(3, 5, b"f"), 0, true, [3, 1, 0]),
    Counts(Call::Sync(3), 0, true, [3, 1, 0]),
];

const FROZEN: [Step<'static>; 4] = [
    // frozen, so settled
    Counts(Call::Cut(3, 6), 0, true, [5, 3, 0]),
    Counts(Call::Sync(3), 0, true, [5, 3, 0]),
    // and written all the same
    Counts(Call::Write(3, 6, b"g"), 0, true, [6, 3, 0]),
    Counts(Call::Sync(3), 0, true, [6, 3, 0]),
];

/// After a failed sync a frozen file is doubtful.
const DOUBTFUL: [Step<'static>; 2] = [
    Counts(Call::Sync(3), 1, false, [2, 1, 1]),
    // no longer taken for settled
    Counts(Call::Sync(3), 0, true, [3, 2, 1]),
];

/// Names are durable first.
const NAMES: [Step<'static>; 6] = [
    // nothing is written to a name that may be lost: it was made once more
    Counts(Call::Write(3, 0, b"abc"), 2, false, [0, 0, 2]),
    // and a third time, being without octets
    Counts(Call::Write(3, 0, b"abc"), 0, true, [1, 0, 3]),
    Counts(Call::Sync(3), 0, true, [1, 0, 3]),
    // made and taken away once more
    Counts(Call::Remove(3), 2, false, [1, 0, 4]),
    // and once more
    Counts(Call::Remove(3), 0, true, [1, 0, 5]),
    Counts(Call::Files(&[]), 0, true, [1, 0, 5]),
];

/// A name that a failed sync has lost isn't gone for good by the next good sync of the folder.
const LOST: [Step<'static>; 8] = [
    Counts(Call::Write(3, 0, b"abc"), 0, true, [1, 0, 1]),
    Counts(Call::Sync(3), 0, true, [1, 0, 1]),
    // no sync has failed: nothing is made where there is no file
    Counts(Call::Sync(4), 0, true, [1, 0, 1]),
    Counts(Call::Remove(3), 2, false, [1, 0, 2]),
    // which syncs the folder
    Counts(Call::Write(4, 0, b"d"), 0, true, [2, 0, 3]),
    // made and taken away
    Counts(Call::Sync(3), 0, true, [2, 0, 4]),
    Counts(Call::Remove(3), 0, true, [2, 0, 5]),
    Counts(Call::Files(&[4]), 0, true, [2, 0, 5]),
];

/// Nor is the name of a file without octets durable by a sync of that file, or its cut.
const WITHOUT_OCTETS: [Step<'static>; 6] = [
    Counts(Call::Write(3, 0, b"abc"), 2, false, [0, 0, 2]),
    Counts(Call::Cut(3, 0), 0, true, [0, 0, 2]),
    // made anew
    Counts(Call::Sync(3), 0, true, [0, 0, 3]),
    Counts(Call::Cut(3, 0), 0, true, [0, 0, 3]),
    Counts(Call::Write(3, 0, b"abc"), 0, true, [1, 0, 4]),
    Counts(Call::Sync(3), 0, true, [1, 0, 4]),
];

/// A full device is a fault.
const FULL: [Step<'static>; 4] = [
    Counts(Call::Write(3, 0, b"abc"), 0, true, [1, 0, 1]),
    Counts(Call::Write(3, 0, b"ABCDEF"), 0, false, [2, 0, 1]),
    Counts(Call::Length(3, 3), 0, true, [2, 0, 1]),
    // some of it is written
    Counts(Call::Read(3, 0, b"ABc"), 0, true, [2, 0, 1]),
];

/// A file of two pieces is written again in two, each where it was.
const PIECES: [Step<'static>; 1] = [Counts(Call::Sync(3), 0, true, [2, 1, 0])];

/// Where a folder is renamed to.
const ANOTHER: &str = "another";

/// What is done with a folder, one after the other.
#[derive(Clone, Copy)]
enum Part<'a> {
    /// What is done beside any disk, or found there.
    Aside(Beside<'a>),
    /// A disk over it is opened, makes these steps, and is given up.
    Disk(&'a [Step<'a>], End<'a>),
    /// From now on no name can be looked up, for this reason.
    Unseen(ErrorKind),
}

/// What is shown, for how many octets there is room, and what is done with the folder.
type Folder<'a> = (&'a str, u64, &'a [Part<'a>]);

const FOLDERS: [Folder<'static>; 16] = [
    (
        "files have their names",
        100,
        &[
            Part::Disk(&NAMES_OF_FILES, End::Dropped),
            Part::Aside(Has("folder/18446744073709551615.ipfix", b"a")),
            Part::Aside(Has("folder/7.ipfix", b"b")),
            Part::Aside(Has("folder/2.slot", b"c")),
            Part::Aside(Has("folder/1.slot", b"d")),
            Part::Aside(Has("folder/0.ipfix", b"e")),
        ],
    ),
    (
        "octets are written and read",
        100,
        &[
            Part::Disk(&ABSENT, End::Dropped),
            Part::Aside(Empty(FOLDER)),
            Part::Disk(&OCTETS, End::Dropped),
            Part::Aside(Has(FILE, b"abXZ")),
            Part::Disk(
                &[Gives(Call::Remove(3)), Gives(Call::Length(3, 0))],
                End::Dropped,
            ),
            Part::Aside(Empty(FOLDER)),
        ],
    ),
    (
        "a folder is locked, by a frozen file too",
        100,
        &[
            Part::Disk(&[Aside(Locked(FOLDER, true))], End::Dropped),
            Part::Aside(Locked(FOLDER, false)),
            Part::Disk(&WRITTEN, End::Frozen(&[Held::Aside(Locked(FOLDER, true))])),
            Part::Aside(Locked(FOLDER, false)),
        ],
    ),
    (
        "frozen files are read and removed",
        100,
        &[
            Part::Disk(&WRITTEN, End::Retired(b"abcdef")),
            Part::Aside(Empty(FOLDER)),
            Part::Disk(&[], End::Retired(b"")),
            Part::Aside(Empty(FOLDER)),
        ],
    ),
    (
        "files that others changed are faults",
        100,
        &[
            Part::Disk(&[Shortened], End::Dropped),
            Part::Disk(&LENGTHENED, End::Unfrozen),
            Part::Disk(&WRITTEN, End::Frozen(&CHANGED_BESIDE)),
        ],
    ),
    (
        "only files are files",
        100,
        &[
            Part::Aside(Put("folder/target", b"kept")),
            Part::Disk(&LINKED, End::Dropped),
            Part::Disk(&[], End::Refused(Why::NotAFile(3))),
            Part::Aside(Removed(FILE)),
            Part::Aside(Made("folder/1.slot")),
            Part::Disk(&[], End::Refused(Why::NotAFile(1))),
            Part::Aside(Has("folder/target", b"kept")),
        ],
    ),
    (
        "a folder may be renamed",
        100,
        &[
            Part::Disk(&MOVED, End::Retired(b"abc")),
            Part::Aside(Empty(ANOTHER)),
        ],
    ),
    (
        "files are their owner's",
        100,
        &[
            Part::Disk(&WRITTEN, End::Dropped),
            Part::Aside(Mode(FILE, 0o600)),
            Part::Disk(&[Gives(Call::Length(3, 6))], End::Frozen(&[])),
            Part::Aside(Mode(FILE, 0o400)),
        ],
    ),
    (
        "syncs that fail are made good",
        1000,
        &[
            Part::Disk(&SYNCS, End::Dropped),
            Part::Aside(Has(FILE, b"AbcDZ")),
        ],
    ),
    (
        "files of others are written again",
        1000,
        &[
            Part::Aside(Put(FILE, b"abcdef")),
            Part::Disk(&CHANGED, End::Dropped),
            // a later value doesn't know it
            Part::Disk(&[Counts(Call::Sync(3), 0, true, [4, 2, 0])], End::Dropped),
            Part::Disk(&[Gives(Call::Length(3, 6))], End::Frozen(&[])),
            Part::Disk(&FROZEN, End::Dropped),
            // doubtful again
            Part::Disk(&[Counts(Call::Sync(3), 0, true, [7, 4, 0])], End::Dropped),
            Part::Aside(Has(FILE, b"abcdefg")),
        ],
    ),
    (
        "a frozen file is doubtful after a failed sync",
        1000,
        &[
            Part::Disk(
                &[Counts(Call::Write(3, 0, b"abc"), 0, true, [1, 0, 1])],
                End::Dropped,
            ),
            Part::Disk(&[Gives(Call::Length(3, 3))], End::Frozen(&[])),
            Part::Disk(&DOUBTFUL, End::Dropped),
            Part::Aside(Has(FILE, b"abc")),
        ],
    ),
    (
        "names are durable first",
        1000,
        &[Part::Disk(&NAMES, End::Dropped), Part::Aside(Empty(FOLDER))],
    ),
    (
        "a lost name isn't gone for good",
        1000,
        &[
            Part::Disk(&LOST, End::Dropped),
            Part::Aside(Has("folder/4.ipfix", b"d")),
        ],
    ),
    (
        "nor is that of a file without octets durable",
        1000,
        &[
            Part::Disk(&WITHOUT_OCTETS, End::Dropped),
            Part::Aside(Has(FILE, b"abc")),
        ],
    ),
    (
        "a full device is a fault",
        5,
        &[
            Part::Disk(&FULL, End::Dropped),
            Part::Aside(Has(FILE, b"ABc")),
        ],
    ),
    (
        "names that can't be looked up are faults",
        1000,
        &[
            Part::Unseen(ErrorKind::Other),
            Part::Disk(
                &[Counts(Call::Length(3, 0), 0, false, [0, 0, 0])],
                End::Dropped,
            ),
            Part::Aside(Put(FILE, b"abc")),
            Part::Disk(&[], End::Refused(Why::System)),
            Part::Unseen(ErrorKind::OutOfMemory),
            Part::Disk(&[], End::Refused(Why::Memory)),
        ],
    ),
];

/// Whether a part is as it says; where it isn't, of a disk the step that isn't is shown.
fn is_part(failing: &Failing<'_>, part: Part<'_>) -> Result<(), usize> {
    match part {
        Part::Aside(beside) if beside.is_so(failing.rt) => Ok(()),
        Part::Aside(_) => Err(0),
        Part::Disk(steps, end) => {
            let made = opened(failing, steps, end);
            if made == steps.len().saturating_add(1) {
                Ok(())
            } else {
                Err(made)
            }
        }
        Part::Unseen(why) => {
            failing.plan.unseen.set(Some(why));
            Ok(())
        }
    }
}

/// Makes the folder anew.
fn make_anew(rt: &HostRuntime) {
    let _ = fs::remove_dir_all(rt, FOLDER);
    let _ = fs::remove_dir_all(rt, ANOTHER);
    let _ = fs::create_dir(rt, FOLDER);
}

/// Makes the folder anew, and does its parts one after the other: which of them isn't as it says, and the step of it.
fn wrong_part(rt: &HostRuntime, room: u64, parts: &[Part<'_>]) -> Option<(usize, usize)> {
    make_anew(rt);
    let plan = Plan::new(room);
    let failing = Failing { rt, plan: &plan };
    for (index, part) in parts.iter().enumerate() {
        if let Err(step) = is_part(&failing, *part) {
            return Some((index, step));
        }
    }
    None
}

/// Octets of two pieces, which aren't alike.
fn two_pieces(alloc: Global) -> Result<Vec<u8>, AllocError> {
    let mut octets = vec![in alloc; 1u8; 4096]?;
    octets.resize(5000, 2)?;
    Ok(octets)
}

/// The first folder that isn't as it says: what is shown, and which of its parts and steps isn't.
fn wrong_folder<'a>(rt: &HostRuntime, folders: &[Folder<'a>]) -> Option<(&'a str, (usize, usize))> {
    for (what, room, parts) in folders {
        if let Some(place) = wrong_part(rt, *room, parts) {
            return Some((*what, place));
        }
    }
    None
}

/// Whether a file of octets of two pieces, which no disk wrote, is as it was once a disk has written it again.
fn are_written_again(rt: &HostRuntime, long: &[u8]) -> bool {
    make_anew(rt);
    let plan = Plan::new(10_000);
    let failing = Failing { rt, plan: &plan };
    Put(FILE, long).is_so(rt)
        && opened(&failing, &PIECES, End::Dropped) == PIECES.len() + 1
        && Has(FILE, long).is_so(rt)
}

#[test]
fn folders(rt: HostRuntime) -> Result<(), Fail> {
    assert_eq!(rt; wrong_folder(&rt, &FOLDERS), None);
    let long = two_pieces(rt.alloc())?;
    assert!(rt; are_written_again(&rt, &long), "two pieces");
    Ok(())
}
