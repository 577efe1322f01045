//! A rolled file on a disk.

ghost use Rattle.std.specs.Prelude.{◌≡◌, ◌≤◌, ◌<◌, true, IsTrue, length, take, IfOk, Some, None};
ghost use Rattle.flow_disk.specs.Cause.{HasCause};
ghost use Rattle.flow_rolled.specs.Spans.{is_known_outside, HasSpan, IsPassedOver};
ghost use Rattle.flow_rolled.specs.Stored.{export_time};

use crate::row_span::RowSpan;
use flow_disk::{DiskError, Faults, SealedFile};
use std::alloc::Global;
use std::marker::Model;

/// A frozen rolled file, with the number of messages that were rolled into it. It is seen as its number, this count,
/// its length and its octets, which reads give where the disk is honest, and as what is known of when its intervals
/// start: on an honest disk a file of which that is known reads whole.
#[derive(Drop)]
pub struct RolledPart<S: SealedFile> {
    pub(crate) reader: S,
    messages: u64,
    length: u64,
    span: Option<RowSpan>,
}

impl<S: SealedFile> Model for RolledPart<S> {
    ghost use Rattle.std.specs.Prelude.{◌≤◌, take, IfSome, IsTrue};
    ghost use Rattle.flow_rolled.specs.Spans.{HasSpan};
    ghost use Rattle.flow_rolled.specs.Stored.{Rollup};

    ghost Value = { Rollup };

    ghost view = { λ p. record {
      file = S.number p.reader;
      messages = p.messages;
      length = p.length;
      honest = S.honest p.reader;
      octets = take p.length (S.octets p.reader);
      span = p.span;
    } };

    ghost invariant = { λ p. (p.length ≤ S.size p.reader) × (IsTrue (S.honest p.reader)
        → IfSome p.span (λ s. HasSpan s (take p.length (S.octets p.reader)))) };
}

impl<S: SealedFile> RolledPart<S> {
    /// The first `length` octets of a frozen file, which so many messages were rolled into.
    pub fn new(reader: S, messages: u64, length: u64) -> Self
        requires { length ≤ S.size reader }
        ensures { result ≡ record {
          file = S.number reader;
          messages = messages;
          length = length;
          honest = S.honest reader;
          octets = take length (S.octets reader);
          span = None;
        } }
    {
        RolledPart {
            reader,
            messages,
            length,
            span: None,
        }
    }

    /// The same file, of which it is known when its intervals start.
    pub fn with_span(self, span: RowSpan) -> Self
        requires { IsTrue self.honest → HasSpan span self.octets }
        ensures { result ≡ record self { span = Some span } }
    {
        let RolledPart {
            reader,
            messages,
            length,
            ..
        } = self;
        RolledPart {
            reader,
            messages,
            length,
            span: Some(span),
        }
    }

    /// Whether it is known that no row of this file by `width`, in seconds, starts from `from` on and before `to`, both
    /// in seconds since 1970-01-01 00:00 UTC. Nothing is read.
    pub fn is_outside(&self, width: u32, from: u64, to: u64) -> bool
        requires { 0 < width }
        ensures known { result ≡ is_known_outside self.now.span width from to }
        // On an honest disk such a file reads whole.
        ensures whole { result ≡ true → IsTrue self.now.honest → IsPassedOver width from to self.now.octets }
    {
        match self.span {
            Some(known) => known.width == width && known.span.is_outside(width, from, to),
            None => false,
        }
    }

    /// The file's number on its disk.
    pub fn file(&self) -> u64
        ensures { result ≡ self.now.file }
    {
        self.reader.file()
    }

    /// How many messages were rolled into it.
    pub fn messages(&self) -> u64
        ensures { result ≡ self.now.messages }
    {
        self.messages
    }

    /// How many octets it has.
    pub fn length(&self) -> u64
        ensures length { result ≡ self.now.length }
        ensures whole { IsTrue self.now.honest → length self.now.octets ≡ self.now.length }
    {
        self.length
    }

    /// The Export Time of its first message, in seconds since 1970-01-01 00:00 UTC (RFC 7011, section 3.1): all its
    /// messages have the same. 0 where there is none. It reads these four octets.
    pub fn export_time(&self, alloc: Global, faults: &mut Faults<S>) -> Result<u32, DiskError>
        ensures time { IsTrue self.now.honest → IfOk result (λ time. time ≡ export_time self.now.octets) }
        ensures cause { HasCause DiskError.Fault faults.old faults.new result }
    {
        if self.length < 8 {
            return Ok(0);
        }
        let octets = self.reader.read(alloc, faults, 4, 4)?;
        let time = [octets[0], octets[1], octets[2], octets[3]];
        Ok(u32::from_be_bytes(time))
    }

    /// The frozen file again, as a disk takes it back.
    pub fn into_file(self) -> S
        ensures number { S.number result ≡ self.file }
        ensures length { self.length ≤ S.size result }
        ensures honest { S.honest result ≡ self.honest }
        ensures octets { take self.length (S.octets result) ≡ self.octets }
    {
        self.reader
    }
}
