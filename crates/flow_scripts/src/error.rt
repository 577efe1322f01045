//! Why scripts can't be read.

use std::alloc::{AllocError, AllocFailed};
use std::error::Error;
use std::fmt;

/// Why a line can't be read.
#[derive(Clone, Copy, Debug, PartialEq, Eq)]
pub enum Why {
    /// A growth of memory was refused.
    OutOfMemory,
    /// There is no such command, or not with so many words.
    NoCommand,
    /// A word isn't the number that it has to be, or is past its limit.
    NoNumber,
    /// A word is no message's name, and its hexadecimal digits aren't whole octets.
    NoOctets,
    /// The line gives more than 1,048,576 octets.
    TooManyOctets,
    /// The line has 500,000 octets or more.
    TooLong,
    /// The command is one that answers, and the line has no arrow.
    NoAnswer,
    /// A batch has no messages, or more than 64.
    BatchCount,
    /// The line is before the first script.
    NoScript,
    /// The command can't be here: questions to a disk are in parts of their own, and `create` and `open` first.
    Misplaced,
    /// The line ends with a backslash, and none follows.
    NoEnd,
}

impl fmt::Display for Why {
    fn fmt<W: fmt::Write>(&self, f: &mut fmt::Formatter<W>) -> fmt::Result {
        f.write_str(match self {
            Why::OutOfMemory => "out of memory",
            Why::NoCommand => "no such command, or not with so many words",
            Why::NoNumber => "a word is no number, or one past its limit",
            Why::NoOctets => {
                "a word is no message's name and no hexadecimal digits of whole octets"
            }
            Why::TooManyOctets => "more than 1048576 octets",
            Why::TooLong => "500000 characters or more",
            Why::NoAnswer => "no answer: an arrow and what is wanted are missing",
            Why::BatchCount => "a batch has from 1 to 64 messages",
            Why::NoScript => "no script has begun",
            Why::Misplaced => "the command can't be at this place of a part",
            Why::NoEnd => "the line goes on, and there is no next one",
        })
    }
}

impl Error for Why {}

impl From<AllocError> for Why {
    fn from(_e: AllocError) -> Why {
        Why::OutOfMemory
    }
}

impl<T: Drop> From<AllocFailed<T>> for Why {
    fn from(_e: AllocFailed<T>) -> Why {
        Why::OutOfMemory
    }
}

/// A line that can't be read, by its number from 1 on, and why.
#[derive(Clone, Copy, Debug, PartialEq, Eq)]
pub struct BadScript {
    /// The number of the line.
    pub line: u64,
    /// Why it can't be read.
    pub why: Why,
}

impl fmt::Display for BadScript {
    fn fmt<W: fmt::Write>(&self, f: &mut fmt::Formatter<W>) -> fmt::Result {
        let (line, why) = (self.line, self.why);
        write!(f, "line {line}: {why}")
    }
}

impl Error for BadScript {}
