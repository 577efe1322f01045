//! The data records of a part's messages, passed to a sink.

ghost use Rattle.std.specs.Prelude.{◌≡◌, ◌≤◌, List, IsTrue, IfOk, IfErr, OnErr, OnOk};
ghost use Rattle.flow_disk.specs.Cause.{HasCause};
ghost use Rattle.flow_codec.specs.Raw.{Placed, Took};
ghost use Rattle.flow_measure.specs.History.{Accepted, templates_from};
ghost use Rattle.flow_segment.specs.PartFlows.{greatest_time, records_in, AreBehind, ArePartMessages, IsDamage};
ghost use Rattle.flow_segment.specs.PartFlows.{IsWalkedInto, TookAll};
ghost use Rattle.flow_segment.specs.Segment.{part_octets};

use crate::part::advance;
use crate::sealed::SealedPart;
use flow_codec::{MessageError, RecordSink, Templates, WalkError, walk_message};
use flow_disk::{Faults, SealedFile, Window};
use flow_refusals::ReadRefusal;
use std::alloc::{AllocError, Global};
use std::cmp::max;

/// Passes the data records of a message, at this place of this file, to a sink, and answers its Export Time.
fn hand_over<R: RecordSink<Error = AllocError>>(
    alloc: Global,
    templates: &mut Templates,
    octets: &[u8],
    file: u64,
    at: u64,
    sink: &mut R,
) -> Result<u32, ReadRefusal>
    ensures walked { IsWalkedInto (λ time m. Took R.holds m.header sink.old m.records sink.new
        × (time ≡ m.header.time)) file at octets.now templates.old templates.new result }
    ensures kept { OnErr result (templates.new ≡ templates.old) }
    ensures same { R.kept sink.new ≡ R.kept sink.old }
{
    match walk_message(templates, alloc, octets, sink) {
        Ok(header) => Ok(header.time),
        Err(WalkError::Message(MessageError::OutOfMemory)) => Err(ReadRefusal::OutOfMemory),
        Err(WalkError::Message(_)) => Err(ReadRefusal::Damaged(file, at)),
        Err(WalkError::Sink(_)) => Err(ReadRefusal::OutOfMemory),
    }
}

/// Passes the data records of the messages of a sealed segment to a sink, in order, and takes their templates in: those
/// given are in force before the first message. A piece of the file is held at a time, in the memory of `window`, which
/// any part may have been read by before. It answers the greatest Export Time of the messages, in seconds since
/// 1970-01-01 00:00 UTC, and 0 where there are none.
///
/// Where the octets are no accepted message it answers `Damaged`, with the file and the place; where there is another
/// count of messages, with the file and its length; `Fault` exactly where a read has raised `faults`; and
/// `OutOfMemory`, also where the sink refuses a record.
pub(crate) fn walk_part<S: SealedFile, R: RecordSink<Error = AllocError>>(
    alloc: Global,
    part: &SealedPart<S>,
    window: &mut Window,
    templates: &mut Templates,
    sink: &mut R,
    faults: &mut Faults<S>,
) -> Result<u32, ReadRefusal>
    ensures cause { HasCause ReadRefusal.Fault faults.old faults.new result }
    // On every disk: the sink took some records, and the templates are those after some messages.
    ensures templates { AreBehind templates.old templates.new }
    ensures taken { OnOk result ((records : List Placed) × TookAll R.holds sink.old records sink.new) }
    // On an honest one: those of accepted messages that fill the part; or why there are none.
    ensures found { IsTrue (S.honest part.now.reader) → OnOk result ((messages : List Accepted)
        × ArePartMessages (part_octets part.now.prefix part.now.length (S.octets part.now.reader)) templates.old
        part.now.messages messages × (templates.new ≡ templates_from templates.old messages)
        × TookAll R.holds sink.old (records_in messages) sink.new) }
    ensures told { IsTrue (S.honest part.now.reader) → IfErr result
        (λ e. IsDamage (part_octets part.now.prefix part.now.length (S.octets part.now.reader)) templates.old
        (S.number part.now.reader) part.now.prefix part.now.length part.now.messages e) }
    ensures time { IsTrue (S.honest part.now.reader) → (messages : List Accepted)
        → ArePartMessages (part_octets part.now.prefix part.now.length (S.octets part.now.reader)) templates.old
        part.now.messages messages → IfOk result (λ time. time ≡ greatest_time messages) }
    // What the sink keeps is as it was, whatever is answered.
    ensures same { R.kept sink.new ≡ R.kept sink.old }
{
    window.go_to(part.prefix, part.length);
    let mut count = 0;
    let mut time = 0;
    'messages: loop {
        let at = window.place();
        if !advance(window, &part.reader, faults)? {
            if count != part.messages {
                return Err(ReadRefusal::Damaged(part.reader.file(), part.length));
            }
            return Ok(time);
        }
        let file = part.reader.file();
        time = max(
            time,
            hand_over(alloc, templates, window.held(), file, at, sink)?,
        );
        count += 1;
    }
}
