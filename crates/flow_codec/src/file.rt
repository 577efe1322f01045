//! Files (RFC 5655): messages one after the other.

ghost use Rattle.std.specs.Prelude.{Some, ◌≡◌, ◌⊎◌, ◌≤◌, ◌<◌, List, [], ℕ, length, take, IfOk, IfErr, MatchResult};
ghost use Rattle.flow_codec.specs.declared.file.FileError.TheVariants.{OutOfMemory};
ghost use Rattle.flow_codec.specs.Printed.{file_code, file_text};
ghost use Rattle.flow_codec.specs.Cutting.{IsCutOff, IsHeaderRefused, IsFileFault, IsDivided, HasOneDivision};
ghost use Rattle.flow_codec.specs.Cutting.{spans_from, version_of, length_of};
ghost use Rattle.flow_codec.specs.File.{HasOneFront};
ghost use Rattle.flow_codec.specs.Fault.{IsOctets};
ghost use Rattle.flow_codec.specs.Message.{joined};
ghost use Rattle.flow_codec.specs.Templates.{AllTemplates};

use crate::message::{HEADER, VERSION};
use flow_elements::Items;
use flow_refusals::RefusalCode;
use std::alloc::{AllocError, AllocFailed, Global};
use std::error::Error;
use std::fmt;

/// Why octets are no File. A place is in octets from the File's first.
#[derive(Clone, Copy, Debug, PartialEq, Eq)]
pub enum FileError {
    /// A message that passes the File's end.
    Cut(u64),
    /// A Version other than 10.
    Version(u64),
    /// A Length below 16.
    Length(u64),
    /// A growth of memory was refused.
    OutOfMemory,
}

impl FileError {
    /// The refusal, without what it carries.
    pub fn code(self) -> RefusalCode
        ensures { result ≡ file_code self }
    {
        match self {
            FileError::Cut(_) => RefusalCode::FileCut,
            FileError::Version(_) => RefusalCode::FileVersion,
            FileError::Length(_) => RefusalCode::FileLength,
            FileError::OutOfMemory => RefusalCode::OutOfMemory,
        }
    }
}

impl fmt::Display for FileError {
    ghost output = { λ e. Some (file_text e) };

    fn fmt<W: fmt::Write>(&self, f: &mut fmt::Formatter<W>) -> fmt::Result {
        match self {
            FileError::Cut(at) | FileError::Version(at) | FileError::Length(at) => {
                write!(f, "{} {at}", self.code())
            }
            FileError::OutOfMemory => write!(f, "{}", self.code()),
        }
    }
}

impl Error for FileError {}

impl From<AllocError> for FileError {
    ghost from_gives = { λ _ e. e ≡ OutOfMemory };

    fn from(_e: AllocError) -> FileError {
        FileError::OutOfMemory
    }
}

impl<T: Drop> From<AllocFailed<T>> for FileError {
    ghost from_gives = { λ _ e. e ≡ OutOfMemory };

    fn from(_e: AllocFailed<T>) -> FileError {
        FileError::OutOfMemory
    }
}

/// The place and the length of a message in a File, in octets.
#[derive(Clone, Copy, Debug, PartialEq, Eq)]
pub struct Span {
    pub at: u64,
    pub length: usize,
}

/// The places of a File's messages.
pub fn split_file(alloc: Global, octets: &[u8]) -> Result<Items<Span>, FileError>
    // The spans are those of messages that fill the octets.
    ensures found { IfOk result (λ spans. (parts : List (List ℕ)) × IsDivided octets.now parts []
        × (spans ≡ spans_from 0 parts)) }
    // Other octets are refused by the first fault after their messages.
    ensures fault { IfErr result (λ e. (e ≡ OutOfMemory)
        ⊎ ((parts : List (List ℕ)) × (rest : List ℕ) × IsDivided octets.now parts rest
        × IsFileFault (length (joined parts)) rest e)) }
    // If messages fill the octets, the answer is their spans, unless memory runs out.
    ensures only { (parts : List (List ℕ)) → IsDivided octets.now parts []
        → MatchResult result (λ spans. spans ≡ spans_from 0 parts) (λ e. e ≡ OutOfMemory) }
{
    let mut spans = Vec::new(alloc);
    let mut at = 0;
    while at < octets.len() {
        let length = front_of(at as u64, &octets[at..])?;
        spans.push(Span {
            at: at as u64,
            length,
        })?;
        at += length;
    }
    Ok(Items::from_vec(spans))
}

/// Any octets divide in one way into messages, each cut off by its own header, and a rest that is empty or has one
/// fault. They have one accepted prefix, whatever templates are in force before it.
pub fn one_front()
    ensures divided { (octets : List ℕ) → HasOneDivision octets }
    ensures accepted { (before : AllTemplates) (octets : List ℕ) → IsOctets octets → HasOneFront before 0 octets }
{}

/// The Length in a message header (RFC 7011, section 3.1), which counts the header's octets too. `at` is its place in
/// the File.
pub(crate) fn length_in(at: u64, header: &[u8]) -> Result<usize, FileError>
    requires { 16 ≤ length header.now }
    ensures found { IfOk result (λ n. (version_of header.now ≡ 10) × (n ≡ length_of header.now) × (16 ≤ n)
        × (n < 65536)) }
    ensures fault { IfErr result (λ e. IsHeaderRefused at header.now e) }
{
    let (version, behind) = header.split_at(2);
    let (length, _) = behind.split_at(2);
    if u16::from_be_bytes([version[0], version[1]]) != VERSION {
        return Err(FileError::Version(at));
    }
    let length = u16::from_be_bytes([length[0], length[1]]) as usize;
    if length < HEADER {
        return Err(FileError::Length(at));
    }
    Ok(length)
}

/// The length of the message that these octets begin with, cut off by its version and its Length. `at` is their place
/// in the File.
pub fn front_of(at: u64, octets: &[u8]) -> Result<usize, FileError>
    requires { 0 < length octets.now }
    ensures found { IfOk result (λ n. (n ≤ length octets.now) × IsCutOff (take n octets.now)) }
    ensures fault { IfErr result (λ e. IsFileFault at octets.now e) }
{
    if octets.len() < HEADER {
        return Err(FileError::Cut(at));
    }
    let length = length_in(at, octets)?;
    if octets.len() < length {
        return Err(FileError::Cut(at));
    }
    Ok(length)
}
