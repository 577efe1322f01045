//! The lines of one message's records.

ghost use Rattle.std.specs.Prelude.{◌≡◌, ◌≢◌, IfErr, OnErr, OnOk, map};
ghost use Rattle.std.specs.List.{flat_map};
ghost use Rattle.flow_codec.specs.Message.{IsAccepted};
ghost use Rattle.flow_codec.specs.Raw.{under, RawMessage};
ghost use Rattle.flow_codec.specs.Templates.{AllTemplates};
ghost use Rattle.flow_columns.specs.Lines.{line_text};
ghost use Rattle.flow_report.specs.Telling.{Tells, TellsFront};
ghost use Rattle.flow_segment.specs.PartFlows.{IsWalkedInto};
ghost use Rattle.flow_records.specs.declared.refusal.RecordsRefusal.TheVariants.{Query};
ghost use Rattle.flow_records.specs.Holding.{held, held_in, span_of};
ghost use Rattle.flow_records.specs.Listing.{IsBlameless, StaysSo, TellsFrontOf, TellsFrontOfSome, TellsOf};
ghost use Rattle.flow_records.specs.Records.{records_within, started};

use crate::chosen::{ChosenRecord, ChosenRecords};
use crate::listing::Listing;
use crate::refusal::RecordsRefusal;
use flow_codec::{MessageError, Templates, WalkError, walk_message};
use flow_columns::ListLines;
use flow_refusals::ReadRefusal;
use flow_report::TextError;
use std::alloc::Global;
use std::io::Write;

/// Holds the chosen records of a message, at this place of this file, and takes its templates in.
fn choose(
    alloc: Global,
    templates: &mut Templates,
    octets: &[u8],
    file: u64,
    at: u64,
    chosen: &mut ChosenRecords,
) -> Result<(), ReadRefusal>
    ensures walked { IsWalkedInto (λ _ m. held chosen.new
        ≡ map started (records_within chosen.old.from chosen.old.to (under m.header m.records))) file at octets.now
        templates.old templates.new result }
    ensures span { span_of chosen.new ≡ span_of chosen.old }
{
    chosen.clear();
    match walk_message(templates, alloc, octets, chosen) {
        Ok(_) => Ok(()),
        Err(WalkError::Message(MessageError::OutOfMemory)) => Err(ReadRefusal::OutOfMemory),
        Err(WalkError::Message(_)) => Err(ReadRefusal::Damaged(file, at)),
        Err(WalkError::Sink(_)) => Err(ReadRefusal::OutOfMemory),
    }
}

/// Takes the lines of the records that are held.
fn tell_chosen<W: Write>(
    records: &[ChosenRecord],
    octets: &[u8],
    lines: &mut ListLines,
    output: &mut W,
) -> Result<(), TextError>
    ensures format { lines.new.line ≡ lines.old.line }
    ensures told { OnOk result (Tells (W.contents output.old) lines.old.held (W.contents output.new) lines.new.held
        (flat_map (line_text lines.old.line) (held_in records.now octets.now))) }
    ensures front { OnErr result (TellsFront (W.contents output.old) lines.old.held (W.contents output.new)
        (flat_map (line_text lines.old.line) (held_in records.now octets.now))) }
{
    let mut rest = octets;
    for record in records {
        let (own, after) = rest.split_at(record.len.min(rest.len()));
        lines.put(
            output,
            record.start,
            &record.header,
            record.id,
            &record.definition,
            own,
        )?;
        rest = after;
    }
    Ok(())
}

/// Takes the lines of a message's records of flows that start within, and takes its templates in. It is at this place
/// of this file.
pub(crate) fn tell_message<W: Write>(
    alloc: Global,
    templates: &mut Templates,
    octets: &[u8],
    file: u64,
    at: u64,
    listing: &mut Listing,
    output: &mut W,
) -> Result<(), RecordsRefusal>
    ensures same { StaysSo listing.old listing.new }
    // It is an accepted message, and the lines are those of its records.
    ensures found { OnOk result ((m : RawMessage) × IsAccepted octets.now templates.old m templates.new
        × TellsOf listing.old (W.contents output.old) (W.contents output.new) listing.new
        (records_within listing.old.chosen.from listing.old.chosen.to (under m.header m.records))) }
    // A prefix of such lines.
    ensures some { OnErr result (TellsFrontOfSome listing.old (W.contents output.old) (W.contents output.new)) }
    // Of an accepted message no damage is reported, and it is a prefix of its lines.
    ensures cut { (m : RawMessage) (after : AllTemplates) → IsAccepted octets.now templates.old m after
        → IfErr result (λ e. IsBlameless e × TellsFrontOf listing.old (W.contents output.old) (W.contents output.new)
        (records_within listing.old.chosen.from listing.old.chosen.to (under m.header m.records))) }
    ensures quiet { IfErr result (λ e. e ≢ Query ReadRefusal.Fault) }
{
    choose(alloc, templates, octets, file, at, &mut listing.chosen)?;
    let records = listing.chosen.records.as_slice();
    let octets = listing.chosen.octets.as_slice();
    tell_chosen(records, octets, &mut listing.lines, output)?;
    Ok(())
}
