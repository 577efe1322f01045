//! Kept messages by their places.

ghost use Rattle.std.specs.Prelude.{◌≡◌, ◌<◌, ℕ, IfOk, IsTrue, List, Some, map, slice_get};
ghost use Rattle.std.specs.List.{list_all, AllByRecursion};
ghost use Rattle.flow_codec.specs.Cutting.{IsCutOff};
ghost use Rattle.flow_disk.specs.Cause.{HasCause};
ghost use Rattle.flow_segment.specs.Segment.{part_octets, AreMessagesOf};
ghost use Rattle.flow_snapshot.specs.Files.{is_honest, segment_of, shared};
ghost use Rattle.flow_snapshot.specs.Found.{IsCutBehind, IsSealedAt};
ghost use Rattle.flow_model.specs.Shelf.{messages_in};
ghost use Rattle.flow_snapshot.specs.Answered.{octets_in, IsAnswered};

use flow_disk::{Faults, SealedFile, Window};
use flow_refusals::ReadRefusal;
use flow_segment::{SealedPart, advance};
use std::alloc::Global;
use std::sync::Arc;

/// The message of a sealed segment after `skipped` others. No records are walked: the others are skipped by their
/// Lengths, a piece of the file at a time.
fn message_behind<S: SealedFile>(
    alloc: Global,
    part: &SealedPart<S>,
    skipped: u64,
    faults: &mut Faults<S>,
) -> Result<Vec<u8>, ReadRefusal>
    ensures cause { HasCause ReadRefusal.Fault faults.old faults.new result }
    // On an honest disk: it comes after so many others.
    ensures found { IsTrue (S.honest part.now.reader) → IfOk result (λ message.
        IsCutBehind (part_octets part.now.prefix part.now.length (S.octets part.now.reader)) skipped message.items) }
    // Where messages fill the part, as many as it says, it is the one after `skipped` of them.
    ensures given { IsTrue (S.honest part.now.reader) → (list : List (List ℕ))
        → AreMessagesOf (part_octets part.now.prefix part.now.length (S.octets part.now.reader)) part.now.messages list
        → skipped < part.now.messages
        → IsAnswered (λ message. Some message.items ≡ slice_get list skipped) result }
{
    let mut window = Window::new(alloc, part.prefix, part.length);
    let mut left = skipped;
    'messages: loop {
        if !advance(&mut window, &part.reader, faults)? {
            return Err(ReadRefusal::Damaged(part.reader.file(), part.length));
        }
        if left == 0 {
            return Ok(Vec::from_slice(alloc, window.held())?);
        }
        left -= 1;
    }
}

/// The message at a place, from 0, among those of sealed segments; none where they are fewer. The segments before it
/// are skipped by their counts.
pub(crate) fn sealed_message<S: SealedFile>(
    alloc: Global,
    parts: &[Arc<SealedPart<S>>],
    place: u64,
    faults: &mut Faults<S>,
) -> Result<Option<Vec<u8>>, ReadRefusal>
    ensures cause { HasCause ReadRefusal.Fault faults.old faults.new result }
    // On honest disks: it is in its own segment after others that are each cut off by their own header.
    ensures found { IsTrue (list_all is_honest (shared parts.now)) → IfOk result (λ message.
        IsSealedAt (map segment_of (shared parts.now)) place (octets_in message)) }
    // Of messages that are all cut off so, it is the one at this place.
    ensures given { IsTrue (list_all is_honest (shared parts.now))
        → AllByRecursion IsCutOff (messages_in (map segment_of (shared parts.now)))
        → IsAnswered (λ message. octets_in message ≡ slice_get (messages_in (map segment_of (shared parts.now))) place)
        result }
{
    let mut left = place;
    for part in parts {
        if left < part.messages {
            return Ok(Some(message_behind(alloc, part, left, faults)?));
        }
        left -= part.messages;
    }
    Ok(None)
}
