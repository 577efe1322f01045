//! Writing that tries again after a bounded number of interrupted calls.

ghost use Rattle.std.specs.Prelude.{◌≡◌, ◌≤◌, length, OnOk, OnErr, IfOk, take};
ghost use Rattle.std.specs.Io.KnownBytes.{Appends, Keeps};
ghost use Rattle.flow_report.specs.Writing.{AppendsFront};

use std::io::{ErrorKind, Write};

/// The count of interrupted calls at which a run gives up.
pub const MOST_INTERRUPTS: u32 = 1_000_000;

/// Writing stopped: a write failed or took nothing, or 1,000,000 calls of the run were interrupted. Only this module
/// makes one, where that is so.
#[derive(Debug, Drop)]
pub struct WriteFailed {
    _made_here: (),
}

/// How many interrupted calls a run has left, counting the one that gives up.
#[derive(Debug, Drop)]
pub struct Patience {
    left: u32,
}

impl Patience {
    /// For a whole run.
    pub fn new() -> Patience
        ensures { result.left ≡ 1000000 }
    {
        Patience {
            left: MOST_INTERRUPTS,
        }
    }
}

/// One write, tried again after an interrupted call while any is left.
fn write_some<W: Write>(
    output: &mut W,
    octets: &[u8],
    patience: &mut Patience,
) -> Result<usize, WriteFailed>
    ensures written { IfOk result (λ n. (n ≤ length octets.now)
        × Appends (W.contents output.old) (W.contents output.new) (take n octets.now)) }
    ensures kept { OnErr result (Keeps (W.contents output.old) (W.contents output.new)) }
{
    for _ in 0..MOST_INTERRUPTS {
        match output.write(octets) {
            Ok(count) => return Ok(count),
            Err(e) => {
                if e.kind() != ErrorKind::Interrupted || patience.left <= 1 {
                    break;
                }
                patience.left -= 1;
            }
        }
    }
    Err(WriteFailed { _made_here: () })
}

/// Writes all octets. After an `Err` the writer took a prefix of them.
pub fn write_patiently<W: Write>(
    output: &mut W,
    octets: &[u8],
    patience: &mut Patience,
) -> Result<(), WriteFailed>
    ensures all { OnOk result (Appends (W.contents output.old) (W.contents output.new) octets.now) }
    ensures front { OnErr result (AppendsFront (W.contents output.old) (W.contents output.new) octets.now) }
{
    let mut at = 0;
    while at < octets.len() {
        let taken = write_some(output, &octets[at..], patience)?;
        if taken == 0 {
            return Err(WriteFailed { _made_here: () });
        }
        at += taken;
    }
    Ok(())
}
