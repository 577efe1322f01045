//! The rows of a rolled file on a disk, message by message.

ghost use Rattle.std.specs.Prelude.{◌≡◌, ◌<◌, ◌≤◌, List, [], ◌++◌, None, IsTrue, OnErr, OnOk, IfOk, IfErr, IfSome};
ghost use Rattle.std.specs.Prelude.{IfNone, vec_len};
ghost use Rattle.flow_disk.specs.Cause.{HasCause};
ghost use Rattle.flow_rolled.specs.declared.row.RolledRow.{RolledRow};
ghost use Rattle.flow_rolled.specs.Stored.{HasGiven, HasRead, Gives, IsTold};

use crate::cursor::Cursor;
use crate::part::RolledPart;
use crate::row::RolledRow;
use flow_disk::{Faults, SealedFile};
use flow_refusals::ReadRefusal;
use std::alloc::Global;
use std::marker::Model;

/// Reads the rows of one message after the other. It holds one piece of the file, of 256 KiB at most, and the rows of
/// one message.
#[derive(Drop)]
pub struct RowReader<'a, S: SealedFile> {
    part: &'a RolledPart<S>,
    cursor: Cursor,
}

impl<'a, S: SealedFile> Model for RowReader<'a, S> {
    ghost use Rattle.std.specs.Prelude.{◌≡◌, ◌<◌, IsTrue, length};
    ghost use Rattle.flow_disk.specs.Window.{IsOn};
    ghost use Rattle.flow_rolled.specs.Stored.{Reader};

    ghost Value = { Reader };

    ghost view = { λ r. record {
      part = r.part.now;
      width = r.cursor.width;
      place = r.cursor.window.place;
      before = r.cursor.before;
    } };

    ghost invariant = { λ r. (0 < r.cursor.width) × (r.cursor.window.end ≡ r.part.now.length)
        × (IsTrue r.part.now.honest → length r.part.now.octets ≡ r.part.now.length)
        × (IsTrue r.part.now.honest → IsOn r.part.now.octets r.cursor.window) };
}

impl<'a, S: SealedFile> RowReader<'a, S> {
    /// Before the first message of a file that was rolled by this width in seconds.
    pub fn new(alloc: Global, part: &'a RolledPart<S>, width: u32) -> Self
        requires { 0 < width }
        ensures value { result ≡ record { part = part.now; width = width; place = 0; before = None } }
        ensures given { HasGiven result [] }
        ensures read { HasRead result [] }
    {
        RowReader {
            part,
            cursor: Cursor::new(alloc, width, part.length()),
        }
    }

    /// The rows of the next message; none of the head of a domain. `None` at the end of the file, each time.
    ///
    /// What `decode_rows` refuses is refused as 20 Damaged of this file, at the same place; 30 Fault where the device
    /// failed, 11 OutOfMemory where memory ran out. After a refusal the reader is as it was.
    pub fn next(
        &mut self,
        alloc: Global,
        faults: &mut Faults<S>,
    ) -> Result<Option<Vec<RolledRow>>, ReadRefusal>
        // On every file: each message takes the reader further, never past the end, and `None` comes at the end alone.
        ensures part { self.new.part ≡ self.old.part }
        ensures width { self.new.width ≡ self.old.width }
        ensures further { IfOk result (λ o. IfSome o (λ _. (self.old.place < self.new.place)
            × (self.new.place ≤ self.old.part.length))) }
        ensures few { IfOk result (λ o. IfSome o (λ rows. vec_len rows ≤ 1000)) }
        ensures given { (rows : List RolledRow) → HasGiven self.old rows
            → IfOk result (λ o. IfSome o (λ more. HasGiven self.new (rows ++ more.items))) }
        ensures end { IfOk result (λ o. IfNone o (self.new ≡ self.old)) }
        ensures last { IfOk result (λ o. IfNone o (self.old.place ≡ self.old.part.length)) }
        ensures kept { OnErr result (self.new ≡ self.old) }
        ensures told { IfErr result (λ e. IsTold self.old e) }
        ensures cause { HasCause ReadRefusal.Fault faults.old faults.new result }

        // On an honest one: the rows are those of the file, and damage is reported where its octets break off.
        ensures gives { IsTrue self.old.part.honest → (rows : List RolledRow) → HasRead self.old rows
            → Gives self.old rows result self.new }
    {
        self.cursor.fill(self.part, faults)?;
        self.cursor.step(alloc, self.part.file())
    }
}
