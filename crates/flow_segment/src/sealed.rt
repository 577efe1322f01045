//! A sealed segment, and a reader of its messages.

ghost use Rattle.std.specs.Prelude.{◌≡◌, ◌≢◌, ◌≤◌, ℕ, IsTrue, List, length, IfOk, IfErr};
ghost use Rattle.std.specs.Option.{ForSome};
ghost use Rattle.flow_disk.specs.Cause.{HasCause};
ghost use Rattle.flow_gate.specs.Scan.{texts};
ghost use Rattle.flow_segment.specs.Segment.{part_octets, AreGiven, AreMessagesOf, GoesOn, IsNext, IsToldOf};
ghost use Rattle.flow_segment.specs.Spans.{HasSpan, IsSure};

use crate::part::advance;
use flow_disk::{Faults, SealedFile, Window};
use flow_measure::PartSpan;
use flow_refusals::ReadRefusal;
use std::alloc::Global;
use std::marker::Model;

/// A sealed segment: its file, which holds its prefix and then its messages.
#[derive(Drop)]
pub struct SealedPart<S: SealedFile> {
    /// The file.
    pub reader: S,
    /// How many octets the prefix has.
    pub prefix: u64,
    /// How many octets the file has, with the prefix.
    pub length: u64,
    /// How many messages there are after the prefix.
    pub messages: u64,
    /// When their flows start, where that is known.
    pub span: Option<PartSpan>,
    ghost order: { prefix ≤ length },
    ghost room: { length ≤ S.size reader },
    // On an honest disk a segment whose span is known reads whole.
    ghost spanned: { IsTrue (S.honest reader) → ForSome span (λ s. IsSure (HasSpan s (part_octets 0 prefix
        (S.octets reader)) (part_octets prefix length (S.octets reader)) messages)) },
}

/// Reads the messages of a sealed segment one after the other. It holds one piece of the file.
#[derive(Drop)]
pub struct PartReader<'a, S: SealedFile> {
    part: &'a SealedPart<S>,
    window: Window,
}

impl<'a, S: SealedFile> Model for PartReader<'a, S> {
    ghost use Rattle.std.specs.Prelude.{◌≡◌, ◌≤◌, IsTrue};
    ghost use Rattle.flow_disk.specs.Window.{IsOn};
    ghost use Rattle.flow_segment.specs.Segment.{reading, Reading};

    ghost Value = { Reading };

    ghost view = { λ r. reading (S.number r.part.now.reader) (S.honest r.part.now.reader)
        (S.octets r.part.now.reader) r.window };

    ghost invariant = { λ r. (r.window.end ≤ S.size r.part.now.reader)
        × (IsTrue (S.honest r.part.now.reader) → IsOn (S.octets r.part.now.reader) r.window) };
}

impl<'a, S: SealedFile> PartReader<'a, S> {
    /// Before the first message.
    pub fn new(alloc: Global, part: &'a SealedPart<S>) -> Self
        ensures { result ≡ record {
          file = S.number part.now.reader;
          honest = S.honest part.now.reader;
          rest = part_octets part.now.prefix part.now.length (S.octets part.now.reader);
          place = part.now.prefix;
          end = part.now.length;
        } }
    {
        PartReader {
            part,
            window: Window::new(alloc, part.prefix, part.length),
        }
    }

    /// The next message; none where all were given. Where the octets are no message it answers `Damaged`, with the file
    /// and the place; `Fault` exactly where this read has raised `faults`; and `OutOfMemory`. After an `Err` all is as
    /// it was.
    pub fn next(
        &mut self,
        alloc: Global,
        faults: &mut Faults<S>,
    ) -> Result<Option<Vec<u8>>, ReadRefusal>
        ensures goes { GoesOn self.old result self.new }
        ensures cause { HasCause ReadRefusal.Fault faults.old faults.new result }
        ensures next { IsTrue self.old.honest → IsNext self.old result self.new }
    {
        let at = self.window.place();
        if !advance(&mut self.window, &self.part.reader, faults)? {
            return Ok(None);
        }
        match Vec::from_slice(alloc, self.window.held()) {
            Ok(message) => Ok(Some(message)),
            Err(error) => {
                self.window = Window::new(alloc, at, self.window.end());
                Err(error.into())
            }
        }
    }
}

/// The messages of a sealed segment, in order. Where the octets are no message it answers `Damaged`, with the file and
/// the place; where there is another count of them, with the file and its length; `Fault` exactly where a read has
/// raised `faults`; and `OutOfMemory`.
pub fn messages_of<S: SealedFile>(
    alloc: Global,
    part: &SealedPart<S>,
    faults: &mut Faults<S>,
) -> Result<Vec<Vec<u8>>, ReadRefusal>
    ensures cause { HasCause ReadRefusal.Fault faults.old faults.new result }
    // On an honest disk: messages that fill the part, as many as there are to be; or why there are none.
    ensures found { IsTrue (S.honest part.now.reader) → IfOk result
        (λ messages. AreMessagesOf (part_octets part.now.prefix part.now.length (S.octets part.now.reader))
        part.now.messages (texts messages.items)) }
    ensures told { IsTrue (S.honest part.now.reader) → IfErr result
        (λ e. IsToldOf (part_octets part.now.prefix part.now.length (S.octets part.now.reader))
        (S.number part.now.reader) part.now.prefix part.now.length part.now.messages e) }
    // Where messages fill the part, as many as there are to be, these are given.
    ensures given { IsTrue (S.honest part.now.reader) → (list : List (List ℕ))
        → AreMessagesOf (part_octets part.now.prefix part.now.length (S.octets part.now.reader)) part.now.messages list
        → AreGiven list result }
{
    read_all(alloc, part, faults)
}

/// Reads all messages, and counts them.
fn read_all<S: SealedFile>(
    alloc: Global,
    part: &SealedPart<S>,
    faults: &mut Faults<S>,
) -> Result<Vec<Vec<u8>>, ReadRefusal>
    ensures cause { HasCause ReadRefusal.Fault faults.old faults.new result }
    // On an honest disk: messages that fill the part, as many as there are to be; or why there are none.
    ensures found { IsTrue (S.honest part.now.reader) → IfOk result
        (λ messages. AreMessagesOf (part_octets part.now.prefix part.now.length (S.octets part.now.reader))
        part.now.messages (texts messages.items)) }
    ensures told { IsTrue (S.honest part.now.reader) → IfErr result
        (λ e. IsToldOf (part_octets part.now.prefix part.now.length (S.octets part.now.reader))
        (S.number part.now.reader) part.now.prefix part.now.length part.now.messages e) }
{
    let mut reader = PartReader::new(alloc, part);
    let mut messages = Vec::new(alloc);
    'messages: loop {
        let Some(message) = reader.next(alloc, faults)? else {
            return counted(part, messages);
        };
        messages.push(message)?;
    }
}

/// These messages, where there are as many as there are to be.
fn counted<S: SealedFile>(
    part: &SealedPart<S>,
    messages: Vec<Vec<u8>>,
) -> Result<Vec<Vec<u8>>, ReadRefusal>
    ensures all { IfOk result (λ all. (all.items ≡ messages.items) × (length messages.items ≡ part.now.messages)) }
    ensures other { IfErr result (λ e. (length messages.items ≢ part.now.messages)
        × (e ≡ ReadRefusal.Damaged (S.number part.now.reader) part.now.length)) }
{
    if messages.len() as u64 == part.messages {
        return Ok(messages);
    }
    Err(ReadRefusal::Damaged(part.reader.file(), part.length))
}
