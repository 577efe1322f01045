//! A File that was asked for is fed.

ghost use Rattle.std.specs.Prelude.{string_bytes};
ghost use Rattle.flow_commands.specs.Feeding.{IsFedFrom};
ghost use Rattle.flow_shell.specs.Fed.{EndsBy};
ghost use Rattle.flow_feed.specs.declared.batch.Fed.{Fed as FedFile};

use crate::board::{Board, Ends, Stoppable};
use crate::losses::Noting;
use flow_commands::{InputKind, take_input, unopened};
use flow_disk::Disk;
use flow_feed::{Fed, SharedAppender};
use flow_roller::{Bell, Keeping};
use flow_shared::{Naming, SharedArchive};
use std::alloc::AllocGlobal;
use std::fs::{File, Files};
use std::io::Read;
use std::sync::Wait;

/// Takes what `input` gives into the archive, by its kind, until the shell ends, and says how it ended. What isn't read
/// is counted meanwhile.
fn feed_file<H: AllocGlobal + Wait, D: Disk, J: Naming, K: Keeping, B: Ends, R: Read>(
    rt: &H,
    shared: &SharedArchive<D, J, H>,
    bell: &Bell<K>,
    board: &Board<B>,
    limit: u32,
    kind: InputKind,
    input: &mut R,
) -> Fed
    ensures { IsFedFrom D.Disk J.opening kind (R.remaining input.old) result }
{
    let mut input = Stoppable {
        rt,
        board,
        bell,
        span: limit,
        input,
        octets: 0,
    };
    let mut appender = SharedAppender::new(rt, shared, Noting { rt, board });
    let collected = take_input(&mut appender, rt.alloc(), &mut input, kind);
    collected.fed
}

/// The same of the File at a path, which was asked for, to be fed so.
fn feed_path<H: Files + AllocGlobal + Clone + Drop + Wait, D: Disk, J: Naming, K: Keeping, B: Ends>(
    rt: &H,
    shared: &SharedArchive<D, J, H>,
    bell: &Bell<K>,
    board: &Board<B>,
    limit: u32,
    kind: InputKind,
    path: &str,
) -> Fed
    requires { ∥ B.to_feed path.now kind ∥₁ }
    ensures { EndsBy D.Disk J.opening kind result }
{
    match File::open(rt, path) {
        Ok(file) => {
            let mut file = file;
            feed_file(rt, shared, bell, board, limit, kind, &mut file)
        }
        Err(error) => unopened(&error),
    }
}

/// Takes the File of this number, at a path, into the archive, and says how it ended.
pub(crate) fn feed_one<
    H: Files + AllocGlobal + Clone + Drop + Wait,
    D: Disk,
    J: Naming,
    K: Keeping,
    B: Ends,
>(
    rt: &H,
    shared: &SharedArchive<D, J, H>,
    bell: &Bell<K>,
    board: &Board<B>,
    limit: u32,
    kind: InputKind,
    number: u64,
    path: String,
)
    requires asked { ∥ B.to_feed (string_bytes path) kind ∥₁ }
    // What is said of its end is what feeding it gives.
    requires said { (fed : FedFile) → EndsBy D.Disk J.opening kind fed → ∥ B.said number fed ∥₁ }
{
    let fed = feed_path(rt, shared, bell, board, limit, kind, path.as_str());
    board.end(rt, number, fed);
}
