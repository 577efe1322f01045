//! Text on its way to a writer.

ghost use Rattle.std.specs.Prelude.{◌≡◌, ◌≤◌, [], IfOk, OnOk, IfErr, vec_capacity};

use crate::patient::{Patience, WriteFailed, write_patiently};
use crate::values::MOST_LINE;
use std::alloc::{AllocError, Global};
use std::io::Write;

/// The octets of text that are held before they are written.
pub(crate) const MOST_HELD: usize = 65_536;

/// The octets of the room in which a record's line is written, until a longer field comes.
const LINE_ROOM: usize = 32_768;

/// Text that is held until there is much of it. Room for that much, and for a line of totals after it, is taken where
/// it is made; so is room in which one line is written before it is held.
#[derive(Drop)]
pub(crate) struct HeldText {
    pub(crate) text: Vec<u8>,
    pub(crate) line: Vec<u8>,
    patience: Patience,
}

impl HeldText {
    ghost use Rattle.flow_report.specs.Telling.{Tells, TellsFront};

    /// One that holds nothing.
    pub(crate) fn new(alloc: Global) -> Result<Self, AllocError>
        ensures none { IfOk result (λ held. held.text.items ≡ []) }
        ensures room { IfOk result (λ held. 65964 ≤ vec_capacity held.text) }
    {
        Ok(HeldText {
            text: Vec::with_capacity(alloc, MOST_HELD + MOST_LINE)?,
            line: Vec::from_elem(alloc, 0u8, LINE_ROOM)?,
            patience: Patience::new(),
        })
    }

    /// Writes all that is held.
    pub(crate) fn flush<W: Write>(&mut self, output: &mut W) -> Result<(), WriteFailed>
        ensures told { OnOk result
            (Tells (W.contents output.old) self.old.text.items (W.contents output.new) self.new.text.items []) }
        ensures none { OnOk result (self.new.text.items ≡ []) }
        ensures room { vec_capacity self.new.text ≡ vec_capacity self.old.text }
        ensures front { IfErr result
            (λ _. TellsFront (W.contents output.old) self.old.text.items (W.contents output.new) []) }
    {
        write_patiently(output, self.text.as_slice(), &mut self.patience)?;
        self.text.clear();
        Ok(())
    }
}
