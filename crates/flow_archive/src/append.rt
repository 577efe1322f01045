//! The append of messages.

ghost use Rattle.std.specs.Prelude.{◌≡◌, ◌≤◌, [], ◌∷◌, ◌⊎◌, ◌+◌, ◌<◌, ◌++◌, true, IfOk, length, OnOk, OnErr, IfErr};
ghost use Rattle.std.specs.Prelude.{IfSome, IfNone, vec_len, vec_capacity};
ghost use Rattle.flow_codec.specs.Message.{joined};
ghost use Rattle.flow_disk.specs.Cause.{HasCause};
ghost use Rattle.flow_gate.specs.Steps.{slices};
ghost use Rattle.flow_model.specs.State.{appended};
ghost use Rattle.flow_archive.specs.Answers.{AnswersAppend, IsNotAdmitted};
ghost use Rattle.flow_archive.specs.Seen.{IsStep};
ghost use Rattle.flow_gate.specs.Gate.{octet_sum};
ghost use Rattle.flow_codec.specs.declared.error.MessageError.{MessageError};
ghost use Rattle.flow_segment.specs.Batch.{AreTaken, AreTakenNoting, IsFirstFault};
ghost use Rattle.flow_segment.specs.Carry.{Carry};
ghost use Rattle.flow_archive.specs.declared.refusal.ArchiveError.TheVariants.{Message, OutOfMemory};

use crate::archive::Archive;
use crate::refusal::ArchiveError;
use bytes::Bytes;
use flow_codec::MessageError;
use flow_disk::Disk;
use flow_gate::add_batch;
use flow_manifest::MOST_MESSAGES;
use flow_measure::PartSpan;
use flow_segment::Carry;
use std::alloc::{AllocError, Global};

impl<D: Disk> Archive<D> {
    /// Adds one message, and answers its number: a batch of one. It costs one walk of the message, one copy of it and
    /// two syncs, whatever templates are in force.
    pub fn append(&mut self, alloc: Global, message: &[u8]) -> Result<u64, ArchiveError>
        ensures answers { AnswersAppend self.old.closed self.old.state (message.now ∷ []) result self.new.state }
        ensures step { IsStep D.Disk self.old self.new
            (λ after. after ≡ appended self.old.state (message.now ∷ [])) result }
        ensures cause { HasCause ArchiveError.Fault (D.faults self.old.disk) (D.faults self.new.disk) result }
    {
        self.append_batch(alloc, &[message])
    }

    /// Adds messages, from 1 to 64, all of them or none, and answers the number of the last one. At Ok they are on the
    /// disk. Refusals, the first that holds: 49 Closed; 1 to 10, the first fault of the first message that isn't
    /// accepted after those before it; 40 NoRoom; 25 NumbersSpent; and 11 OutOfMemory, which changes nothing either.
    /// After 30 Fault the archive is closed.
    pub fn append_batch(&mut self, alloc: Global, messages: &[&[u8]]) -> Result<u64, ArchiveError>
        requires some { 1 ≤ length messages.now }
        requires few { length messages.now ≤ 64 }
        ensures answers { AnswersAppend self.old.closed self.old.state (slices messages.now) result self.new.state }
        ensures step { IsStep D.Disk self.old self.new
            (λ after. after ≡ appended self.old.state (slices messages.now)) result }
        ensures cause { HasCause ArchiveError.Fault (D.faults self.old.disk) (D.faults self.new.disk) result }
    {
        if self.closed {
            return Err(ArchiveError::Closed);
        }
        let Ok(()) = self.messages.reserve(messages.len()) else {
            return Err(ArchiveError::OutOfMemory);
        };
        let room = u64::from(self.active.prefix) + u64::from(self.slots.current.limit) - self.end;
        let positions = MOST_MESSAGES - self.total;
        let batch = admitted(
            alloc,
            &mut self.carry,
            &mut self.span,
            messages,
            room,
            positions,
        )?;
        match add_batch(&mut self.disk, self.active.file, self.end, messages) {
            Ok(()) => {
                put_all(&mut self.messages, batch.copies);
                self.end += batch.count;
                self.total += messages.len() as u64;
                Ok(self.total)
            }
            Err(_) => {
                self.closed = true;
                Err(ArchiveError::Fault)
            }
        }
    }
}

/// The carry after the messages of a batch; else the first fault of the first of them that isn't accepted, or 11.
fn carried(alloc: Global, carry: &Carry, messages: &[&[u8]]) -> Result<Carry, ArchiveError>
    ensures taken { IfOk result (λ new. AreTaken (slices messages.now) carry.now new) }
    ensures refused { IfErr result (λ e. (e ≡ OutOfMemory)
        ⊎ ((fault : MessageError) × IsFirstFault (slices messages.now) carry.now.templates fault
        × (e ≡ Message fault))) }
{
    let mut new = carry.try_copy()?;
    new.take_all(alloc, messages, &mut None)?;
    Ok(new)
}

/// Takes in the messages of a batch, all of them or none, and notes when their flows start, where a span is given; else
/// answers the first fault of the first of them that isn't accepted, or 11.
fn take_in(
    carry: &mut Carry,
    span: &mut Option<PartSpan>,
    alloc: Global,
    messages: &[&[u8]],
) -> Result<(), ArchiveError>
    ensures taken { OnOk result (AreTakenNoting (slices messages.now) carry.old carry.new span.old span.new) }
    ensures kept { OnErr result (carry.new ≡ carry.old) }
    ensures unnoted { OnErr result (span.new ≡ span.old) }
    ensures refused { IfErr result (λ e. (e ≡ OutOfMemory)
        ⊎ ((fault : MessageError) × IsFirstFault (slices messages.now) carry.old.templates fault
        × (e ≡ Message fault))) }
{
    carry.take_all(alloc, messages, span)?;
    Ok(())
}

/// Why a batch that passes a limit is refused: the first fault of the first message that isn't accepted, else the
/// limit.
fn judged(alloc: Global, carry: &Carry, messages: &[&[u8]], limit: ArchiveError) -> ArchiveError
    ensures { (result ≡ OutOfMemory)
        ⊎ ((fault : MessageError) × IsFirstFault (slices messages.now) carry.now.templates fault
        × (result ≡ Message fault))
        ⊎ (((new : Carry) × AreTaken (slices messages.now) carry.now new) × (result ≡ limit)) }
{
    match carried(alloc, carry, messages) {
        Ok(_) => limit,
        Err(e) => e,
    }
}

/// A batch that is taken in, and within the limits.
#[derive(Drop)]
struct Batch {
    /// Copies of its messages.
    copies: Vec<Bytes>,
    /// How many octets they have.
    count: u64,
}

/// Takes in a batch after a carry, with room for so many octets and numbers for so many messages, and notes when its
/// flows start, where a span is given; else the first of the refusals 1 to 10, 40, 25 that holds, or 11, and the carry
/// and the span are as they were.
fn admitted(
    alloc: Global,
    carry: &mut Carry,
    span: &mut Option<PartSpan>,
    messages: &[&[u8]],
    room: u64,
    positions: u64,
) -> Result<Batch, ArchiveError>
    ensures taken { OnOk result (AreTakenNoting (slices messages.now) carry.old carry.new span.old span.new) }
    ensures copies { IfOk result (λ batch. batch.copies.items ≡ slices messages.now) }
    ensures count { IfOk result (λ batch. batch.count ≡ octet_sum (slices messages.now)) }
    ensures room { IfOk result (λ batch. batch.count ≤ room) }
    ensures positions { OnOk result (length messages.now ≤ positions) }
    ensures kept { OnErr result (carry.new ≡ carry.old) }
    ensures unnoted { OnErr result (span.new ≡ span.old) }
    ensures refused { IfErr result (IsNotAdmitted (slices messages.now) carry.old room positions) }
{
    let Some(count) = count_within(messages, room) else {
        return Err(judged(alloc, carry, messages, ArchiveError::NoRoom));
    };
    if messages.len() as u64 > positions {
        return Err(judged(alloc, carry, messages, ArchiveError::NumbersSpent));
    }
    let copies = copies_of(alloc, messages, count)?;
    take_in(carry, span, alloc, messages)?;
    Ok(Batch { copies, count })
}

/// How many octets messages have, if there is room for them.
fn count_within(messages: &[&[u8]], room: u64) -> Option<u64>
    ensures found { IfSome result (λ count. (count ≡ octet_sum (slices messages.now)) × (count ≤ room)) }
    ensures none { IfNone result (room < octet_sum (slices messages.now)) }
{
    let mut count = 0;
    for message in messages {
        let more = message.len() as u64;
        if more > room - count {
            return None;
        }
        count += more;
    }
    Some(count)
}

/// Copies of the messages of a batch, which have so many octets. One piece of memory holds all of them, until the last
/// one is dropped: an allocation for each would cost more than judging it.
fn copies_of(alloc: Global, messages: &[&[u8]], count: u64) -> Result<Vec<Bytes>, AllocError>
    ensures { IfOk result (λ copies. copies.items ≡ slices messages.now) }
{
    let mut octets = Vec::with_capacity(alloc, count as usize)?;
    for message in messages {
        octets.extend_from_slice(message)?;
    }
    parts_of(alloc, Bytes::from_vec(octets)?, messages)
}

/// The parts of octets that are those of these messages, one after the other: a part for each.
fn parts_of(alloc: Global, octets: Bytes, messages: &[&[u8]]) -> Result<Vec<Bytes>, AllocError>
    requires { octets ≡ joined (slices messages.now) }
    ensures { IfOk result (λ parts. parts.items ≡ slices messages.now) }
{
    let mut rest = octets;
    let mut parts = Vec::with_capacity(alloc, messages.len())?;
    for message in messages {
        parts.push_reserved(rest.split_to(message.len())?);
    }
    Ok(parts)
}

/// Appends messages to those kept, which have room for them.
fn put_all(kept: &mut Vec<Bytes>, copies: Vec<Bytes>)
    requires { vec_len kept.old + vec_len copies ≤ vec_capacity kept.old }
    ensures { kept.new.items ≡ kept.old.items ++ copies.items }
{
    for copy in copies {
        kept.push_reserved(copy);
    }
}
