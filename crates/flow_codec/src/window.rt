//! Octets that were read from an input and not yet taken.

ghost use Rattle.std.specs.Prelude.{◌≡◌, ◌+◌, ◌≤◌, ◌<◌, [], length, drop, vec_len, IfOk};

use crate::patient::{Patience, ReadFailed};
use std::alloc::{AllocError, Global};
use std::io::Read;

/// The octets that are read at a time and held at most: four times the longest message.
const ROOM: usize = 262_144;

/// Octets that were read and not yet taken: those from `start` to `end`. It takes memory once, where it is made.
#[derive(Drop)]
pub(crate) struct Window {
    octets: Vec<u8>,
    start: usize,
    end: usize,
    patience: Patience,
    ghost size: { vec_len octets ≡ 262144 },
    ghost ordered: { start ≤ end },
    ghost within: { end ≤ 262144 },
}

impl Window {
    ghost use Rattle.flow_codec.specs.Stream.{held, IsRefilled};

    /// One that holds nothing.
    pub(crate) fn new(alloc: Global) -> Result<Self, AllocError>
        ensures { IfOk result (λ window. held window ≡ []) }
    {
        Ok(Window {
            octets: Vec::from_elem(alloc, 0u8, ROOM)?,
            start: 0,
            end: 0,
            patience: Patience::new(),
        })
    }

    /// The octets that are held.
    pub(crate) fn octets(&self) -> &[u8]
        ensures value { result.now ≡ held self.now }
        ensures most { length result.now ≤ 262144 }
    {
        &self.octets[self.start..self.end]
    }

    /// Takes the first octets.
    pub(crate) fn skip(&mut self, count: usize)
        requires { count ≤ length (held self.old) }
        ensures { held self.new ≡ drop count (held self.old) }
    {
        self.start += count;
    }

    /// Moves the held octets to the start of the memory, where there is less room after them than the longest message
    /// needs: of a socket of datagrams each read takes a whole one.
    fn make_room(&mut self)
        requires { length (held self.old) < 65536 }
        ensures kept { held self.new ≡ held self.old }
        ensures room { self.new.end + 65535 ≤ 262144 }
    {
        let (start, end) = (self.start, self.end);
        if ROOM - end < 65_535 {
            self.octets.copy_within(start..end, 0);
            self.start = 0;
            self.end = end - start;
        }
    }

    /// Reads more octets after those that are held, with one read unless it is interrupted; `false` at the end of the
    /// input.
    pub(crate) fn refill<R: Read>(&mut self, input: &mut R) -> Result<bool, ReadFailed>
        requires { length (held self.old) < 65536 }
        ensures { IsRefilled (held self.old) (R.remaining input.old) result (held self.new)
            (R.remaining input.new) }
    {
        self.make_room();
        let end = self.end;
        let count = self.patience.read(input, &mut self.octets[end..])?;
        self.end = end + count;
        if count == 0 {
            return Ok(false);
        }
        Ok(true)
    }
}
