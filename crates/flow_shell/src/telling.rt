//! The lines of Files that have ended.

ghost use Rattle.flow_commands.specs.Feeding.{TellsFile};
ghost use Rattle.flow_shell.specs.Written.{TellsEnded};

use crate::board::{Board, Ends};
use flow_commands::{ArchiveRefusal, fed_line};
use flow_feed::Fed;
use flow_report::{Patience, write_patiently};
use std::alloc::Global;
use std::io::Write;
use std::sync::Wait;

/// The most Files that have ended and whose lines aren't written.
const MOST_FILES: usize = 8;

/// Writes the line of the File of this number, which has ended so.
fn tell_file<W: Write>(
    alloc: Global,
    number: u64,
    fed: Fed,
    output: &mut W,
) -> Result<(), ArchiveRefusal>
    ensures { TellsFile number fed (W.contents output.old) (W.contents output.new) result }
{
    let line = fed_line(alloc, number, fed)?;
    write_patiently(output, line.as_slice(), &mut Patience::new())?;
    Ok(())
}

/// Writes the lines of the Files that have ended since the last answer.
pub(crate) fn tell_ended<B: Ends, H: Wait, W: Write>(
    rt: &H,
    alloc: Global,
    board: &Board<B>,
    output: &mut W,
) -> Result<(), ArchiveRefusal>
    ensures { TellsEnded B.said (W.contents output.old) (W.contents output.new) result }
{
    for _ in 0..MOST_FILES {
        let Some((number, fed)) = board.take_ended(rt) else {
            return Ok(());
        };
        tell_file(alloc, number, fed, output)?;
    }
    Ok(())
}
