//! The lines of a sealed segment's records.

ghost use Rattle.std.specs.Prelude.{◌≡◌, true, List, [], IfErr, IsTrue, OnErr, OnOk};
ghost use Rattle.flow_disk.specs.Cause.{HasCause};
ghost use Rattle.flow_codec.specs.Raw.{Placed};
ghost use Rattle.flow_measure.specs.History.{Accepted};
ghost use Rattle.flow_segment.specs.PartFlows.{records_in, ArePartMessages, HasMessages};
ghost use Rattle.flow_segment.specs.Segment.{part_octets};
ghost use Rattle.flow_segment.specs.Spans.{is_known_outside};
ghost use Rattle.flow_snapshot.specs.Files.{is_honest, segment_of};
ghost use Rattle.flow_snapshot.specs.Found.{kept_file};
ghost use Rattle.flow_records.specs.declared.refusal.RecordsRefusal.TheVariants.{Query};
ghost use Rattle.flow_records.specs.Listing.{IsBlameless, StaysSo, TellsFrontOf, TellsFrontOfSome, TellsOf};
ghost use Rattle.flow_records.specs.Listing.{TellsOwn, TellsSome};
ghost use Rattle.flow_records.specs.Records.{records_within, HaveOwnRecords};

use crate::listing::Listing;
use crate::message::tell_message;
use crate::refusal::RecordsRefusal;
use flow_codec::Templates;
use flow_disk::{Faults, SealedFile, Window};
use flow_refusals::ReadRefusal;
use flow_segment::{SealedPart, advance, templates_of};
use std::alloc::Global;
use std::io::Write;

/// Takes the lines of the records of a segment's messages, of flows that start within: the first one is read after
/// these templates. A piece of the file is held at a time.
fn tell_messages<S: SealedFile, W: Write>(
    alloc: Global,
    part: &SealedPart<S>,
    templates: &mut Templates,
    listing: &mut Listing,
    output: &mut W,
    faults: &mut Faults<S>,
) -> Result<(), RecordsRefusal>
    ensures same { StaysSo listing.old listing.new }
    ensures cause { HasCause (Query ReadRefusal.Fault) faults.old faults.new result }
    // On every disk.
    ensures all { OnOk result (TellsSome listing.old (W.contents output.old) (W.contents output.new) listing.new) }
    ensures some { OnErr result (TellsFrontOfSome listing.old (W.contents output.old) (W.contents output.new)) }
    // On an honest one: messages fill the part, and the lines are those of their records.
    ensures found { IsTrue (S.honest part.now.reader) → OnOk result
        (HasMessages (part_octets part.now.prefix part.now.length (S.octets part.now.reader)) templates.old
        part.now.messages) }
    ensures told { IsTrue (S.honest part.now.reader) → (messages : List Accepted)
        → ArePartMessages (part_octets part.now.prefix part.now.length (S.octets part.now.reader)) templates.old
        part.now.messages messages → OnOk result (TellsOf listing.old (W.contents output.old) (W.contents output.new)
        listing.new (records_within listing.old.chosen.from listing.old.chosen.to (records_in messages))) }
    ensures cut { IsTrue (S.honest part.now.reader) → (messages : List Accepted)
        → ArePartMessages (part_octets part.now.prefix part.now.length (S.octets part.now.reader)) templates.old
        part.now.messages messages → IfErr result (λ e. IsBlameless e
        × TellsFrontOf listing.old (W.contents output.old) (W.contents output.new)
        (records_within listing.old.chosen.from listing.old.chosen.to (records_in messages))) }
{
    let mut window = Window::new(alloc, part.prefix, part.length);
    let mut count = 0;
    'messages: loop {
        let at = window.place();
        if !advance(&mut window, &part.reader, faults)? {
            if count != part.messages {
                let file = part.reader.file();
                return Err(RecordsRefusal::Query(ReadRefusal::Damaged(file, part.length)));
            }
            return Ok(());
        }
        let file = part.reader.file();
        tell_message(alloc, templates, window.held(), file, at, listing, output)?;
        count += 1;
    }
}

/// Takes the lines of the records of a sealed segment, of flows that start within, after the templates that its own
/// prefix restates. A segment that is known to have none isn't read.
pub(crate) fn tell_segment<S: SealedFile, W: Write>(
    alloc: Global,
    part: &SealedPart<S>,
    listing: &mut Listing,
    output: &mut W,
    faults: &mut Faults<S>,
) -> Result<(), RecordsRefusal>
    ensures same { StaysSo listing.old listing.new }
    ensures cause { HasCause (Query ReadRefusal.Fault) faults.old faults.new result }
    // On every disk.
    ensures all { OnOk result (TellsSome listing.old (W.contents output.old) (W.contents output.new) listing.new) }
    ensures some { OnErr result (TellsFrontOfSome listing.old (W.contents output.old) (W.contents output.new)) }
    ensures unread { is_known_outside part.now.span 1 listing.old.chosen.from listing.old.chosen.to ≡ true
        → OnErr result ⊥ × (faults.new ≡ faults.old)
        × TellsOf listing.old (W.contents output.old) (W.contents output.new) listing.new [] }
    // On an honest one: its messages are accepted, and the lines are those of their records.
    ensures found { IsTrue (is_honest part.now) → OnOk result (TellsOwn listing.old (W.contents output.old)
        (W.contents output.new) listing.new (kept_file (segment_of part.now))) }
    ensures cut { IsTrue (is_honest part.now) → (own : List Placed)
        → HaveOwnRecords listing.old.chosen.from listing.old.chosen.to (kept_file (segment_of part.now)) own
        → IfErr result (λ e. IsBlameless e
        × TellsFrontOf listing.old (W.contents output.old) (W.contents output.new) own) }
{
    if part.is_outside(1, listing.chosen.from, listing.chosen.to) {
        return Ok(());
    }
    let mut templates = templates_of(alloc, part, faults)?;
    if part.messages == 0 {
        return Ok(());
    }
    tell_messages(alloc, part, &mut templates, listing, output, faults)
}
