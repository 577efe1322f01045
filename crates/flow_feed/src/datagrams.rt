//! Datagrams, one at a time.

ghost use Rattle.std.specs.Prelude.{◌≡◌, ◌≤◌, ℕ, length, IfOk, IfSome, List};
ghost use Rattle.std.specs.Io.KnownBytes.{ReadConsumes};
ghost use Rattle.flow_feed.specs.Datagrams.{most_empty_of, reading, unread, IsOver, IsRead, IsReceived, IsUnread};

use std::io::{ErrorKind, Read};

/// The octets that a datagram is given room for: one more than the longest message has, so that what is longer than
/// its room isn't taken for a message.
pub const DATAGRAM_ROOM: usize = 65_536;

/// The count of interrupted calls at which receiving gives up.
const MAX_INTERRUPTS: u32 = 1_000_000;

/// How many reads of a socket may give nothing, one after the other, before it is taken for closed: a closed one gives
/// nothing for good, and an empty datagram gives nothing once.
const MOST_EMPTY: u64 = 1_000_000_000;

/// Receiving failed, or was interrupted 1,000,000 times over the life of the one that reads. Only this module makes
/// one, where that has happened.
#[derive(Clone, Copy, Debug, PartialEq, Eq)]
pub struct ReceiveFailed {
    hidden: (),
}

/// How many interrupted calls are left.
#[derive(Drop)]
pub(crate) struct Patience {
    /// Counts the one that gives up.
    left: u32,
}

impl Patience {
    /// For the life of one that reads: the 1,000,000th interrupted call gives up.
    pub(crate) fn new() -> Self {
        Patience {
            left: MAX_INTERRUPTS,
        }
    }

    /// One read, tried again after an interrupted call while any is left.
    pub(crate) fn read<R: Read>(
        &mut self,
        input: &mut R,
        buffer: &mut [u8],
    ) -> Result<usize, ReceiveFailed>
        ensures bound { IfOk result (λ n. n ≤ length buffer.new) }
        ensures bytes { ReadConsumes (R.remaining input.old) (R.remaining input.new) result buffer.new }
    {
        for _ in 0..MAX_INTERRUPTS {
            match input.read(buffer) {
                Ok(count) => return Ok(count),
                Err(error) => {
                    if error.kind() != ErrorKind::Interrupted || self.left <= 1 {
                        break;
                    }
                    self.left -= 1;
                }
            }
        }
        Err(ReceiveFailed { hidden: () })
    }
}

/// Gives datagrams.
pub trait Datagrams {
    /// From one to the other it gave this datagram.
    ghost gives: { Self → Self → List ℕ → Type 0 };

    /// From one to the other it turned out that no more come.
    ghost ends: { Self → Self → Type 0 };

    /// From one to the other receiving a datagram failed.
    ghost fails: { Self → Self → Type 0 };

    /// Receives the next datagram into the first octets of a buffer, and answers how many it has; None where no more
    /// come.
    fn receive(&mut self, buffer: &mut [u8]) -> Result<Option<usize>, ReceiveFailed>
        requires room { 65536 ≤ length buffer.now }
        ensures most { IfOk result (λ o. IfSome o (λ n. n ≤ length buffer.new)) }
        ensures received { IsReceived gives ends fails self.old self.new result buffer.new };
}

/// What receiving from an input needs to know: how many interrupted calls are left, and how many of the last reads gave
/// nothing.
#[derive(Drop)]
pub(crate) struct EmptyReads {
    patience: Patience,
    /// How many of the last reads gave nothing.
    empty: u64,
    /// How many in a row are taken for empty datagrams.
    most_empty: u64,
}

/// How many reads in a row that give nothing are taken for empty datagrams: of a socket, and of another input none.
fn most_empty_of(is_socket: bool) -> u64
    ensures { result ≡ most_empty_of is_socket }
{
    if is_socket { MOST_EMPTY } else { 0 }
}

impl EmptyReads {
    /// Of a socket a read that gives nothing is an empty datagram, unless it is the last of 1,000,000,001 in a row; of
    /// a file or a pipe it is the end.
    pub(crate) fn new(is_socket: bool) -> Self
        ensures none { result.empty ≡ 0 }
        ensures most { result.most_empty ≡ most_empty_of is_socket }
    {
        EmptyReads {
            patience: Patience::new(),
            empty: 0,
            most_empty: most_empty_of(is_socket),
        }
    }

    /// Receives the next datagram of an input into the first octets of a buffer, and answers how many it has; None where
    /// no more come.
    pub(crate) fn receive<R: Read>(
        &mut self,
        input: &mut R,
        buffer: &mut [u8],
    ) -> Result<Option<usize>, ReceiveFailed>
        requires room { 65536 ≤ length buffer.now }
        ensures most { IfOk result (λ o. IfSome o (λ n. n ≤ length buffer.new)) }
        ensures received { IsReceived IsRead IsOver IsUnread
            (reading (R.remaining input.old) self.old.empty self.old.most_empty)
            (reading (R.remaining input.new) self.new.empty self.new.most_empty) result buffer.new }
    {
        let count = self.patience.read(input, buffer)?;
        if count > 0 {
            self.empty = 0;
            return Ok(Some(count));
        }
        if self.empty >= self.most_empty {
            return Ok(None);
        }
        self.empty += 1;
        Ok(Some(count))
    }
}

/// Receives datagrams from an input of which each read gives one: a socket of datagrams, or a pipe of packets.
#[derive(Drop)]
pub struct Receiver<'a, R: Read> {
    input: &'a mut R,
    reads: EmptyReads,
}

impl<'a, R: Read> Receiver<'a, R> {
    /// Of a socket a read that gives nothing is an empty datagram, unless it is the last of 1,000,000,001 in a row; of
    /// a file or a pipe it is the end.
    pub fn new(input: &'a mut R, is_socket: bool) -> Self
        ensures { reading (R.remaining result.input.now) result.reads.empty result.reads.most_empty
            ≡ unread is_socket (R.remaining input.old) }
    {
        Receiver {
            input,
            reads: EmptyReads::new(is_socket),
        }
    }
}

impl<R: Read> Datagrams for Receiver<'_, R> {
    ghost gives = { λ old new datagram. IsRead
        (reading (R.remaining old.input.now) old.reads.empty old.reads.most_empty)
        (reading (R.remaining new.input.now) new.reads.empty new.reads.most_empty)
        datagram };

    ghost ends = { λ old new. IsOver
        (reading (R.remaining old.input.now) old.reads.empty old.reads.most_empty)
        (reading (R.remaining new.input.now) new.reads.empty new.reads.most_empty) };

    ghost fails = { λ old new. IsUnread
        (reading (R.remaining old.input.now) old.reads.empty old.reads.most_empty)
        (reading (R.remaining new.input.now) new.reads.empty new.reads.most_empty) };

    fn receive(&mut self, buffer: &mut [u8]) -> Result<Option<usize>, ReceiveFailed> {
        self.reads.receive(self.input, buffer)
    }
}
