//! The lines of the active segment's records.

ghost use Rattle.std.specs.Prelude.{◌≡◌, ◌≢◌, List, IfErr, OnErr, OnOk};
ghost use Rattle.flow_codec.specs.Raw.{Placed};
ghost use Rattle.flow_measure.specs.History.{Accepted, AreAcceptedFrom};
ghost use Rattle.flow_segment.specs.Carry.{octets_of};
ghost use Rattle.flow_segment.specs.PartFlows.{records_in};
ghost use Rattle.flow_snapshot.specs.Found.{AreAccepted};
ghost use Rattle.flow_records.specs.declared.refusal.RecordsRefusal.TheVariants.{Query};
ghost use Rattle.flow_records.specs.Listing.{IsBlameless, StaysSo, TellsFrontOf, TellsFrontOfSome, TellsOf};
ghost use Rattle.flow_records.specs.Listing.{TellsOwn, TellsSome};
ghost use Rattle.flow_records.specs.Records.{records_within, HaveOwnRecords};

use crate::listing::Listing;
use crate::message::tell_message;
use crate::refusal::RecordsRefusal;
use bytes::Bytes;
use flow_codec::Templates;
use flow_refusals::ReadRefusal;
use flow_snapshot::restated;
use std::alloc::Global;
use std::io::Write;

/// Takes the lines of the records of messages in memory, of flows that start within: the first one is read after these
/// templates. They are in no file: damage is reported of file 0.
fn tell_after<W: Write>(
    alloc: Global,
    messages: &[Bytes],
    templates: &mut Templates,
    listing: &mut Listing,
    output: &mut W,
) -> Result<(), RecordsRefusal>
    ensures same { StaysSo listing.old listing.new }
    ensures quiet { IfErr result (λ e. e ≢ Query ReadRefusal.Fault) }
    ensures all { OnOk result (TellsSome listing.old (W.contents output.old) (W.contents output.new) listing.new) }
    ensures some { OnErr result (TellsFrontOfSome listing.old (W.contents output.old) (W.contents output.new)) }
    ensures found { OnOk result (AreAccepted templates.old messages.now) }
    // Where they are accepted.
    ensures told { (list : List Accepted) → AreAcceptedFrom templates.old list → octets_of list ≡ messages.now
        → OnOk result (TellsOf listing.old (W.contents output.old) (W.contents output.new) listing.new
        (records_within listing.old.chosen.from listing.old.chosen.to (records_in list))) }
    ensures cut { (list : List Accepted) → AreAcceptedFrom templates.old list → octets_of list ≡ messages.now
        → IfErr result (λ e. IsBlameless e × TellsFrontOf listing.old (W.contents output.old) (W.contents output.new)
        (records_within listing.old.chosen.from listing.old.chosen.to (records_in list))) }
{
    for message in messages {
        tell_message(alloc, templates, message.as_slice(), 0, 0, listing, output)?;
    }
    Ok(())
}

/// The same, the first message after the templates that the prefix restates.
pub(crate) fn tell_active<W: Write>(
    alloc: Global,
    prefix: &[u8],
    messages: &[Bytes],
    listing: &mut Listing,
    output: &mut W,
) -> Result<(), RecordsRefusal>
    ensures same { StaysSo listing.old listing.new }
    ensures quiet { IfErr result (λ e. e ≢ Query ReadRefusal.Fault) }
    ensures all { OnOk result (TellsSome listing.old (W.contents output.old) (W.contents output.new) listing.new) }
    ensures some { OnErr result (TellsFrontOfSome listing.old (W.contents output.old) (W.contents output.new)) }
    // They are accepted, and the lines are those of their records.
    ensures found { OnOk result (TellsOwn listing.old (W.contents output.old) (W.contents output.new) listing.new
        (record { prefix = prefix.now; messages = messages.now })) }
    ensures cut { (own : List Placed) → HaveOwnRecords listing.old.chosen.from listing.old.chosen.to
        (record { prefix = prefix.now; messages = messages.now }) own → IfErr result (λ e. IsBlameless e
        × TellsFrontOf listing.old (W.contents output.old) (W.contents output.new) own) }
{
    let mut templates = restated(alloc, prefix)?;
    tell_after(alloc, messages, &mut templates, listing, output)
}
