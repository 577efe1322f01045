//! Reading that tries again after interrupted calls.

ghost use Rattle.std.specs.Prelude.{Some, ◌≡◌, ◌≤◌, length, IfOk};
ghost use Rattle.std.specs.Io.KnownBytes.{ReadConsumes};
ghost use Rattle.flow_refusals.specs.Table.{code_text};
ghost use Rattle.flow_refusals.specs.declared.code.RefusalCode.TheVariants.{Read as ReadCode};

use flow_refusals::RefusalCode;
use std::error::Error;
use std::fmt;
use std::io::{ErrorKind, Read};

/// The count of interrupted calls at which a reader gives up.
const MAX_INTERRUPTS: u32 = 1_000_000;

/// Reading failed, or was interrupted 1,000,000 times over the reader's life. Only this module makes one, where that
/// has happened.
#[derive(Clone, Copy, Debug, PartialEq, Eq)]
pub struct ReadFailed {
    hidden: (),
}

impl fmt::Display for ReadFailed {
    ghost output = { λ _. Some (code_text ReadCode) };

    fn fmt<W: fmt::Write>(&self, f: &mut fmt::Formatter<W>) -> fmt::Result {
        write!(f, "{}", RefusalCode::Read)
    }
}

impl Error for ReadFailed {}

/// How many interrupted calls a reader has left.
#[derive(Drop)]
pub(crate) struct Patience {
    /// Counts the one that gives up.
    left: u32,
}

impl Patience {
    /// For a reader's whole life: the 1,000,000th interrupted call gives up.
    pub(crate) fn new() -> Self
        ensures { result.left ≡ 1000000 }
    {
        Patience {
            left: MAX_INTERRUPTS,
        }
    }

    /// One read, tried again after an interrupted call while any is left.
    pub(crate) fn read<R: Read>(
        &mut self,
        input: &mut R,
        buffer: &mut [u8],
    ) -> Result<usize, ReadFailed>
        ensures bound { IfOk result (λ n. n ≤ length buffer.new) }
        ensures bytes { ReadConsumes (R.remaining input.old) (R.remaining input.new) result buffer.new }
    {
        for _ in 0..MAX_INTERRUPTS {
            match input.read(buffer) {
                Ok(count) => return Ok(count),
                Err(error) => {
                    if error.kind() != ErrorKind::Interrupted || self.left <= 1 {
                        break;
                    }
                    self.left -= 1;
                }
            }
        }
        Err(ReadFailed { hidden: () })
    }
}
