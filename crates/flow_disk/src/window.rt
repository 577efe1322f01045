//! A part of a file that is read piece by piece.

ghost use Rattle.std.specs.Prelude.{◌≡◌, ◌+◌, ◌-◌, ◌≤◌, ℕ, min, IsTrue, [], length, IfSome, IfNone, vec_len};
ghost use Rattle.flow_disk.specs.Cause.{HasCause};
ghost use Rattle.flow_disk.specs.Window.{fed, passed, IsReady, IsOn, IsFilled};

use crate::{DiskError, Faults, SealedFile};
use std::alloc::Global;
use std::marker::Model;
use std::mem::swap;

/// How many octets are read at a time.
pub const PIECE: u64 = 262_144;

/// The octets of a part of a file that were read and are ahead, and those that were passed last. It has one piece of
/// the file, and memory for the next one.
#[derive(Drop)]
pub struct Window {
    piece: Vec<u8>,
    /// What the next piece is read into, so that this one stays as it is where that read fails. It is the memory of the
    /// piece before this one.
    spare: Vec<u8>,
    /// The first octet in the piece that was passed last.
    from: usize,
    /// How many were passed last; those ahead come after them.
    held: usize,
    /// The place of the first octet ahead, in the file.
    place: u64,
    /// The part's end in the file.
    end: u64,
}

impl Model for Window {
    ghost use Rattle.std.specs.Prelude.{◌+◌, ◌-◌, ◌≤◌, take, drop, vec_len};
    ghost use Rattle.flow_disk.specs.Window.{Window};

    ghost Value = { Window };

    ghost view = { λ w. record {
      held = take w.held (drop w.from w.piece.items);
      ahead = drop (w.from + w.held) w.piece.items;
      place = w.place;
      end = w.end;
    } };

    ghost invariant = { λ w. (w.from + w.held ≤ vec_len w.piece)
        × (w.place + (vec_len w.piece - (w.from + w.held)) ≤ w.end) };
}

impl Window {
    /// At the first octet of a part.
    pub fn new(alloc: Global, from: u64, end: u64) -> Self
        requires { from ≤ end }
        ensures { result ≡ record { held = []; ahead = []; place = from; end = end } }
    {
        Window {
            piece: Vec::new(alloc),
            spare: Vec::new(alloc),
            from: 0,
            held: 0,
            place: from,
            end,
        }
    }

    /// Goes to the first octet of another part, of this file or another one. Its memory stays.
    pub fn go_to(&mut self, from: u64, end: u64)
        requires { from ≤ end }
        ensures { self.new ≡ record { held = []; ahead = []; place = from; end = end } }
    {
        self.from = self.piece.len();
        self.held = 0;
        self.place = from;
        self.end = end;
    }

    /// The octets that were passed last.
    pub fn held(&self) -> &[u8]
        ensures { result.now ≡ self.now.held }
    {
        &self.piece[self.from..self.from + self.held]
    }

    /// The octets that were read and are ahead.
    pub fn ahead(&self) -> &[u8]
        ensures value { result.now ≡ self.now.ahead }
        ensures within { self.now.place + length result.now ≤ self.now.end }
    {
        &self.piece[self.from + self.held..]
    }

    /// The place of the first octet ahead.
    pub fn place(&self) -> u64
        ensures place { result ≡ self.now.place }
        ensures within { result ≤ self.now.end }
    {
        self.place
    }

    /// The part's end.
    pub fn end(&self) -> u64
        ensures { result ≡ self.now.end }
    {
        self.end
    }

    /// How many octets are to be read, where fewer than `most` are ahead and there are more before the part's end.
    pub fn missing(&self, most: usize) -> Option<usize>
        ensures count { IfSome result (λ count. count ≡ min (self.now.end - self.now.place) PIECE) }
        ensures within { IfSome result (λ count. self.now.place + count ≤ self.now.end) }
        ensures ready { IfNone result (IsReady most self.now) }
    {
        let ahead = self.ahead().len();
        let left = self.end - self.place;
        if ahead >= most || ahead as u64 == left {
            return None;
        }
        Some(left.min(PIECE) as usize)
    }

    /// Takes a piece of the file, from the first octet ahead on, in place of the octets that it has.
    pub fn feed(&mut self, piece: Vec<u8>)
        requires { vec_len piece ≡ min (self.old.end - self.old.place) PIECE }
        ensures fed { self.new ≡ fed self.old piece.items }
        ensures ready { (most : ℕ) → most ≤ PIECE → IsReady most self.new }
    {
        self.piece = piece;
        self.from = 0;
        self.held = 0;
    }

    /// Goes on by so many octets.
    pub fn pass(&mut self, count: usize)
        requires { count ≤ length self.old.ahead }
        ensures { self.new ≡ passed self.old count }
    {
        self.from += self.held;
        self.held = count;
        self.place += count as u64;
    }

    /// Reads a piece of a frozen file where fewer than `most` octets are ahead and there are more before the part's
    /// end. After an `Err` all is as it was. It takes memory, which is filled with zeros, for the first two pieces; from
    /// then on each is read into that of the piece before the last.
    pub fn fill<F: SealedFile>(
        &mut self,
        most: usize,
        file: &F,
        faults: &mut Faults<F>,
    ) -> Result<(), DiskError>
        requires most { most ≤ PIECE }
        requires room { self.old.end ≤ F.size file.now }
        ensures filled { IsFilled most self.old self.new result }
        ensures on { IsTrue (F.honest file.now) → IsOn (F.octets file.now) self.old
            → IsOn (F.octets file.now) self.new }
        ensures within { (self.old.place + length self.old.ahead ≤ self.old.end)
            × (self.new.place + length self.new.ahead ≤ self.new.end) }
        ensures cause { HasCause DiskError.Fault faults.old faults.new result }
    {
        let Some(count) = self.missing(most) else {
            return Ok(());
        };
        self.spare.resize(count, 0)?;
        file.read_into(faults, self.place, &mut self.spare)?;
        swap(&mut self.piece, &mut self.spare);
        self.from = 0;
        self.held = 0;
        Ok(())
    }
}
