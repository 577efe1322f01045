//! The messages of an input, read so that feeding can end between two of them.

ghost use Rattle.std.specs.Prelude.{◌≡◌, ◌≤◌, ◌<◌, ◌+◌, ◌*◌, ◌^◌, ◌-◌, [], false, true, length, drop, take, vec_len};
ghost use Rattle.std.specs.Prelude.{IfErr, IfNone, IfOk, IfSome};
ghost use Rattle.flow_codec.specs.Cutting.{length_of, version_of, IsHeaderRefused};
ghost use Rattle.flow_codec.specs.Stream.{IsWholeFront};

use crate::batch::FeedStop;
use crate::datagrams::{Patience, ReceiveFailed};
use crate::watch::FeedWatch;
use flow_codec::{FileError, StreamError};
use std::alloc::{AllocError, Global};
use std::io::Read;

/// The octets that one read takes at most, where none are held.
const READ: usize = 65_536;

/// The octets that are held at most: those of such a read, and the rest of its last message.
const ROOM: usize = 131_072;

/// The octets of a message's header.
const HEADER: usize = 16;

/// The Version of IPFIX.
const VERSION: u16 = 10;

/// The most messages that are read.
const MOST_MESSAGES: u64 = 0xffff_ffff_ffff;

/// Reads the messages of an input. Where it holds no octet, one read takes what there is; where it holds a part of a
/// message, the rest of just this message is read. So it comes again and again to a message's end with no octet read
/// after it.
#[derive(Drop)]
pub(crate) struct WholeReader {
    octets: Vec<u8>,
    /// The octets that were read and not yet taken are from here on,
    start: usize,
    /// before this place.
    end: usize,
    /// How many messages were taken.
    count: u64,
    /// The place after them, in octets from the input's first.
    at: u64,
    patience: Patience,
    ghost size: { vec_len octets ≡ 131072 },
    ghost ordered: { start ≤ end },
    ghost within: { end ≤ 131072 },
    ghost counted: { count < 2 ^ 48 },
    ghost placed: { at ≤ 65535 * count },
}

/// The Length in a message header (RFC 7011, section 3.1). `at` is its place in the File.
fn length_in(at: u64, header: &[u8]) -> Result<usize, FileError>
    requires { 16 ≤ length header.now }
    ensures found { IfOk result (λ n. (version_of header.now ≡ 10) × (n ≡ length_of header.now) × (16 ≤ n)
        × (n < 65536)) }
    ensures fault { IfErr result (λ e. IsHeaderRefused at header.now e) }
{
    let (version, behind) = header.split_at(2);
    let (length, _) = behind.split_at(2);
    if u16::from_be_bytes([version[0], version[1]]) != VERSION {
        return Err(FileError::Version(at));
    }
    let length = u16::from_be_bytes([length[0], length[1]]) as usize;
    if length < HEADER {
        return Err(FileError::Length(at));
    }
    Ok(length)
}

/// The length of the message that octets begin with, or None where they end before it does. `at` is their place in the
/// File.
fn whole_front(at: u64, octets: &[u8]) -> Result<Option<usize>, FileError>
    ensures front { IsWholeFront at octets.now result }
    ensures most { IfOk result (λ o. IfSome o (λ n. n < 65536)) }
    ensures few { IfOk result (λ o. IfNone o (length octets.now < 65536)) }
{
    if octets.len() < HEADER {
        return Ok(None);
    }
    let length = length_in(at, octets)?;
    if octets.len() < length {
        return Ok(None);
    }
    Ok(Some(length))
}

/// How many octets are read at most after these: those that their message lacks, or its header; where there are none,
/// as many as one read takes.
fn lacking(octets: &[u8]) -> usize
    ensures some { 1 ≤ result }
    ensures most { result ≤ 65536 }
{
    if octets.is_empty() {
        return READ;
    }
    if octets.len() < HEADER {
        return HEADER - octets.len();
    }
    let length = u16::from_be_bytes([octets[2], octets[3]]) as usize;
    length.saturating_sub(octets.len()).max(1)
}

impl WholeReader {
    ghost use Rattle.std.specs.Io.KnownBytes.{prepend_known};
    ghost use Rattle.flow_feed.specs.Whole.{ahead, IsMoreRead, IsNextFound, IsSamePlace};

    /// A reader of the File that begins at the position of its first call's input.
    pub(crate) fn new(alloc: Global) -> Result<Self, AllocError>
        ensures { IfOk result (λ reader. (ahead reader ≡ []) × (reader.count ≡ 0) × (reader.at ≡ 0)) }
    {
        Ok(WholeReader {
            octets: Vec::from_elem(alloc, 0u8, ROOM)?,
            start: 0,
            end: 0,
            count: 0,
            at: 0,
            patience: Patience::new(),
        })
    }

    /// The octets that were read and not yet taken.
    fn ahead(&self) -> &[u8]
        ensures value { result.now ≡ ahead self.now }
        ensures most { length result.now ≤ 131072 }
    {
        &self.octets[self.start..self.end]
    }

    /// Whether no octet is held: none was read after the messages that were taken.
    pub(crate) fn holds_none(&self) -> bool
        ensures none { result ≡ true → ahead self.now ≡ [] }
        ensures some { result ≡ false → 0 < length (ahead self.now) }
    {
        self.ahead().is_empty()
    }

    /// How many messages were taken.
    pub(crate) fn count(&self) -> u64
        ensures value { result ≡ self.now.count }
        ensures most { result < 2 ^ 48 }
    {
        self.count
    }

    /// Moves the held octets to the start of the memory, where there is less room after them than one read takes.
    fn make_room(&mut self)
        requires { length (ahead self.old) < 65536 }
        ensures kept { ahead self.new ≡ ahead self.old }
        ensures room { self.new.end + 65536 ≤ 131072 }
        ensures same { IsSamePlace self.old self.new }
    {
        let (start, end) = (self.start, self.end);
        if ROOM - end < READ {
            self.octets.copy_within(start..end, 0);
            self.start = 0;
            self.end = end - start;
        }
    }

    /// Reads more octets after those that are held, with one read unless it is interrupted, and none after the message
    /// that they are of; `false` at the end of the input.
    fn refill<R: Read, F: FeedWatch>(
        &mut self,
        input: &mut R,
        watch: &mut F,
    ) -> Result<bool, ReceiveFailed>
        requires { length (ahead self.old) < 65536 }
        ensures read { IsMoreRead (ahead self.old) (R.remaining input.old) result (ahead self.new)
            (R.remaining input.new) }
        ensures same { IsSamePlace self.old self.new }
    {
        let most = lacking(self.ahead());
        self.make_room();
        let end = self.end;
        let count = self
            .patience
            .read(input, &mut self.octets[end..end + most])?;
        self.end = end + count;
        watch.note_read(count);
        if count == 0 {
            return Ok(false);
        }
        Ok(true)
    }

    /// Reads until the held octets begin with a whole message, and answers its length; None at the end of the input.
    pub(crate) fn find<R: Read, F: FeedWatch>(
        &mut self,
        input: &mut R,
        watch: &mut F,
    ) -> Result<Option<usize>, FeedStop>
        ensures found { IsNextFound self.old.at (prepend_known (ahead self.old) (R.remaining input.old)) result
            (ahead self.new) (prepend_known (ahead self.new) (R.remaining input.new)) }
        ensures most { IfOk result (λ o. IfSome o (λ n. n < 65536)) }
        ensures room { IfOk result (λ o. IfSome o (λ _. self.new.count < 2 ^ 48 - 1)) }
        ensures same { IsSamePlace self.old self.new }
    {
        'reads: loop {
            match whole_front(self.at, self.ahead()) {
                Ok(Some(length)) if self.count < MOST_MESSAGES => return Ok(Some(length)),
                Ok(Some(_)) => return Err(FeedStop::File(StreamError::NumbersSpent)),
                Ok(None) => {}
                Err(fault) => return Err(FeedStop::File(StreamError::File(fault))),
            }
            match self.refill(input, watch) {
                Ok(true) => {}
                Ok(false) if self.holds_none() => return Ok(None),
                Ok(false) => {
                    let fault = FileError::Cut(self.at);
                    return Err(FeedStop::File(StreamError::File(fault)));
                }
                Err(failed) => return Err(FeedStop::Unreceived(failed)),
            }
        }
    }

    /// The first octets that are held.
    pub(crate) fn front(&self, size: usize) -> &[u8]
        requires { size ≤ length (ahead self.now) }
        ensures { result.now ≡ take size (ahead self.now) }
    {
        &self.ahead()[..size]
    }

    /// Takes the message of this size that the held octets begin with.
    pub(crate) fn take(&mut self, size: usize)
        requires within { size ≤ length (ahead self.old) }
        requires most { size < 65536 }
        requires room { self.old.count < 2 ^ 48 - 1 }
        ensures taken { ahead self.new ≡ drop size (ahead self.old) }
        ensures count { self.new.count ≡ self.old.count + 1 }
        ensures place { self.new.at ≡ self.old.at + size }
    {
        self.start += size;
        self.count += 1;
        self.at += size as u64;
    }
}
