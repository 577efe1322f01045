//! A File from a reader, one message after the other.

ghost use Rattle.std.specs.Prelude.{MatchBool, Some, ◌≡◌, ◌≤◌, ◌<◌, ◌^◌, ◌*◌, length, take, [], None, IfOk, IfErr};
ghost use Rattle.std.specs.Prelude.{IfSome, IfNone};
ghost use Rattle.std.specs.Io.KnownBytes.{prepend_known};
ghost use Rattle.flow_codec.specs.declared.stream.StreamError.TheVariants.{File, Read as ReadStopped};
ghost use Rattle.flow_codec.specs.Stream.{held, progress, IsFound, IsReadNext, IsStep, IsUnfinished, IsWholeFront};
ghost use Rattle.flow_codec.specs.Stream.{StopsWithin};
ghost use Rattle.flow_codec.specs.Printed.{stream_code, stream_text};

use crate::file::{FileError, length_in};
use crate::message::HEADER;
use crate::patient::ReadFailed;
use crate::window::Window;
use flow_refusals::RefusalCode;
use std::alloc::{AllocError, Global};
use std::error::Error;
use std::fmt;
use std::io::Read;
use std::marker::Model;

/// The most messages that are read.
const MOST_MESSAGES: u64 = 0xffff_ffff_ffff;

/// Why reading a File stopped.
#[derive(Clone, Copy, Debug, PartialEq, Eq)]
pub enum StreamError {
    /// The octets after the messages that were read are no message.
    File(FileError),
    /// Reading failed, so the octets after the messages that were read are unknown.
    Read(ReadFailed),
    /// One more message than 2^48 - 1.
    NumbersSpent,
}

impl StreamError {
    /// The refusal, without what it carries.
    pub fn code(self) -> RefusalCode
        ensures { result ≡ stream_code self }
    {
        match self {
            StreamError::File(fault) => fault.code(),
            StreamError::Read(_) => RefusalCode::Read,
            StreamError::NumbersSpent => RefusalCode::NumbersSpent,
        }
    }
}

impl fmt::Display for StreamError {
    ghost output = { λ e. Some (stream_text e) };

    fn fmt<W: fmt::Write>(&self, f: &mut fmt::Formatter<W>) -> fmt::Result {
        match self {
            StreamError::File(fault) => write!(f, "{fault}"),
            StreamError::Read(failed) => write!(f, "{failed}"),
            StreamError::NumbersSpent => write!(f, "{}", RefusalCode::NumbersSpent),
        }
    }
}

impl Error for StreamError {}

impl From<FileError> for StreamError {
    ghost from_gives = { λ fault e. e ≡ File fault };

    fn from(fault: FileError) -> StreamError {
        StreamError::File(fault)
    }
}

impl From<ReadFailed> for StreamError {
    ghost from_gives = { λ failed e. e ≡ ReadStopped failed };

    fn from(failed: ReadFailed) -> StreamError {
        StreamError::Read(failed)
    }
}

/// Reads a File (RFC 5655, section 4) from an input that each call is given, and holds one message. It takes memory
/// once, where it is made.
#[derive(Drop)]
pub struct MessageReader {
    /// The message that is held, and the octets read after it.
    window: Window,
    /// The octets of the message that is held, 0 where there is none.
    size: usize,
    count: u64,
    at: u64,
    stopped: Option<StreamError>,
}

impl Model for MessageReader {
    ghost use Rattle.std.specs.Prelude.{◌≤◌, ◌<◌, ◌*◌, ◌^◌, length, take, drop};
    ghost use Rattle.flow_codec.specs.Stream.{ReaderState, held};

    ghost Value = { ReaderState };

    ghost view = { λ r. record {
      ahead = drop r.size (held r.window);
      message = take r.size (held r.window);
      count = r.count;
      at = r.at;
      stopped = r.stopped;
    } };

    ghost invariant = { λ r. (r.size ≤ length (held r.window)) × (r.size ≤ 65535) × (r.count < 2 ^ 48)
        × (r.at ≤ 65535 * r.count) };
}

impl MessageReader {
    /// A reader of the File that begins at the position of its first call's input.
    pub fn new(alloc: Global) -> Result<Self, AllocError>
        ensures { IfOk result (λ reader. reader ≡ record {
          ahead = [];
          message = [];
          count = 0;
          at = 0;
          stopped = None;
        }) }
    {
        Ok(MessageReader {
            window: Window::new(alloc)?,
            size: 0,
            count: 0,
            at: 0,
            stopped: None,
        })
    }

    /// Reads the next message and holds it; `false` at the File's end. After an error it answers that error from then
    /// on. Each call of one reader is given the same input, at its position after all octets that were read.
    pub fn advance<R: Read>(&mut self, input: &mut R) -> Result<bool, StreamError>
        ensures step { IsStep (progress self.old (R.remaining input.old)) result
            (progress self.new (R.remaining input.new)) }
        ensures within { IfErr result
            (λ e. StopsWithin self.old (R.remaining input.old) e self.new (R.remaining input.new)) }
    {
        self.window.skip(self.size);
        self.size = 0;
        if let Some(error) = self.stopped {
            return Err(error);
        }
        match find_message(&mut self.window, input, self.at) {
            Ok(None) => Ok(false),
            Ok(Some(length)) if self.count < MOST_MESSAGES => {
                self.size = length;
                self.count += 1;
                self.at += length as u64;
                Ok(true)
            }
            Ok(Some(_)) => {
                self.stopped = Some(StreamError::NumbersSpent);
                Err(StreamError::NumbersSpent)
            }
            Err(error) => {
                self.stopped = Some(error);
                Err(error)
            }
        }
    }

    /// Whether the octets that were read after the held message begin with a whole message, or with a header that is
    /// refused. The next step then reads nothing from its input.
    pub fn has_read_next(&self) -> bool
        ensures { MatchBool result (IsReadNext self.now.at self.now.ahead) (IsUnfinished self.now.at self.now.ahead) }
    {
        !matches!(
            whole_front(self.at, &self.window.octets()[self.size..]),
            Ok(None)
        )
    }

    /// The octets of the message that is held; none before the first step, at the end, and after an error.
    pub fn message(&self) -> &[u8]
        ensures value { result.now ≡ self.now.message }
        ensures most { length result.now ≤ 65535 }
    {
        &self.window.octets()[..self.size]
    }

    /// The messages that were read.
    pub fn count(&self) -> u64
        ensures value { result ≡ self.now.count }
        ensures most { result < 2 ^ 48 }
    {
        self.count
    }

    /// The place after the messages that were read, in octets from the File's first.
    pub fn at(&self) -> u64
        ensures value { result ≡ self.now.at }
        ensures most { result ≤ 65535 * self.now.count }
    {
        self.at
    }
}

/// The length of the message that octets begin with, or None where they end before it does. `at` is their place in the
/// File.
fn whole_front(at: u64, octets: &[u8]) -> Result<Option<usize>, FileError>
    ensures front { IsWholeFront at octets.now result }
    ensures most { IfOk result (λ o. IfSome o (λ n. n < 65536)) }
    ensures few { IfOk result (λ o. IfNone o (length octets.now < 65536)) }
{
    if octets.len() < HEADER {
        return Ok(None);
    }
    let length = length_in(at, octets)?;
    if octets.len() < length {
        return Ok(None);
    }
    Ok(Some(length))
}

/// Reads until the window begins with a whole message, and answers its length; None at the end of the input. `at` is
/// its place in the File.
fn find_message<R: Read>(
    window: &mut Window,
    input: &mut R,
    at: u64,
) -> Result<Option<usize>, StreamError>
    ensures found { IsFound at (prepend_known (held window.old) (R.remaining input.old)) result (held window.new)
        (prepend_known (held window.new) (R.remaining input.new)) }
    ensures most { IfOk result (λ o. IfSome o (λ n. n < 65536)) }
{
    'reads: loop {
        if let Some(length) = whole_front(at, window.octets())? {
            return Ok(Some(length));
        }
        if !window.refill(input)? {
            if window.octets().is_empty() {
                return Ok(None);
            }
            return Err(StreamError::File(FileError::Cut(at)));
        }
    }
}
