//! The messages of a rolled file, one after the other, from pieces of it.

ghost use Rattle.std.specs.Prelude.{◌≡◌, ◌+◌, ◌<◌, ◌≤◌, ◌^◌, IsTrue, length, None, []};
ghost use Rattle.flow_disk.specs.Cause.{HasCause};
ghost use Rattle.flow_disk.specs.Window.{IsFilled, IsOn};
ghost use Rattle.flow_rolled.specs.Stored.{Steps};

use crate::decoding::next_message;
use crate::message::State;
use crate::part::RolledPart;
use crate::row::RolledRow;
use flow_disk::{DiskError, Faults, SealedFile, Window};
use flow_refusals::ReadRefusal;
use std::alloc::Global;

/// The most octets that a message has: its header, and two Sets of 1,000 rows together.
const GREATEST_MESSAGE: usize = 41_024;

/// How far the reading of a rolled file has come. It holds one piece of the file.
#[derive(Drop)]
pub(crate) struct Cursor {
    width: u32,
    /// Ahead is the next message.
    window: Window,
    before: Option<State>,
}

impl Cursor {
    /// At the first message of a file with so many octets.
    pub(crate) fn new(alloc: Global, width: u32, end: u64) -> Self
        ensures { result ≡ record {
          width = width;
          window = record { held = []; ahead = []; place = 0; end = end };
          before = None;
        } }
    {
        Cursor {
            width,
            window: Window::new(alloc, 0, end),
            before: None,
        }
    }

    /// Reads a piece of the file where the octets that were read may not hold the next message whole. After an `Err`
    /// all is as it was.
    pub(crate) fn fill<S: SealedFile>(
        &mut self,
        part: &RolledPart<S>,
        faults: &mut Faults<S>,
    ) -> Result<(), DiskError>
        requires { self.old.window.end ≡ part.now.length }
        ensures same { self.new ≡ record self.old { window = self.new.window } }
        ensures filled { IsFilled GREATEST_MESSAGE self.old.window self.new.window result }
        ensures on { IsTrue part.now.honest → IsOn part.now.octets self.old.window
            → IsOn part.now.octets self.new.window }
        ensures cause { HasCause DiskError.Fault faults.old faults.new result }
    {
        self.window.fill(GREATEST_MESSAGE, &part.reader, faults)
    }

    /// The rows of the next message, of the file with this number; none of a head. `None` at the end of the file.
    pub(crate) fn step(
        &mut self,
        alloc: Global,
        file: u64,
    ) -> Result<Option<Vec<RolledRow>>, ReadRefusal>
        requires { 0 < self.old.width }
        ensures steps { Steps file self.old result self.new }
        ensures width { self.new.width ≡ self.old.width }
        ensures wide { self.old.width < 2 ^ 32 }
        ensures within { self.old.window.place + length self.old.window.ahead ≤ self.old.window.end }
    {
        let (width, place, ahead) = (self.width, self.window.place(), self.window.ahead());
        if place == self.window.end() {
            return match self.before {
                Some(state) if state.count == 0 => Err(ReadRefusal::Damaged(file, place)),
                _ => Ok(None),
            };
        }
        let Some((message, rest)) = next_message(alloc, ahead, width, self.before)? else {
            return Err(ReadRefusal::Damaged(file, place));
        };
        let length = ahead.len() - rest.len();
        self.before = Some(State::behind(&message));
        self.window.pass(length);
        Ok(Some(message.rows))
    }
}
