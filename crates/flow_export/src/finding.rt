//! Between which messages of a file those of a span are.

ghost use Rattle.std.specs.Prelude.{◌≡◌, ◌≢◌, ◌+◌, ◌<◌, List, IfErr, IfOk};
ghost use Rattle.std.specs.Option.{option_map_or};
ghost use Rattle.flow_export.specs.Span.{FindsIn, IsFound};
ghost use Rattle.flow_measure.specs.History.{templates_from, Accepted, AreAcceptedFrom};
ghost use Rattle.flow_segment.specs.Carry.{octets_of};
ghost use Rattle.flow_snapshot.specs.Answered.{IsAnswered};

use crate::starting::{TimeSpan, has_flow};
use bytes::Bytes;
use flow_codec::Templates;
use flow_refusals::ReadRefusal;
use std::alloc::Global;

/// Where the messages of a span are, among others.
#[derive(Clone, Copy)]
pub(crate) struct Found {
    /// How many messages come before the first one that has a flow of the span.
    pub(crate) before: u64,
    /// How many there are up to the last one that has one.
    pub(crate) upto: u64,
}

/// What is found where one message more, after so many others, has a flow of the span.
fn with_message(found: Option<Found>, others: u64) -> Found
    requires { others < 18446744073709551615 }
    ensures before { result.before ≡ option_map_or (λ f. f.before) found others }
    ensures upto { result.upto ≡ others + 1 }
{
    let before = match found {
        Some(found) => found.before,
        None => others,
    };
    Found {
        before,
        upto: others + 1,
    }
}

/// Finds the messages of a span among those of a file, the first of which is at this place, and takes their templates
/// in.
pub(crate) fn find_in(
    alloc: Global,
    templates: &mut Templates,
    messages: &[Bytes],
    file: u64,
    from: u64,
    span: TimeSpan,
) -> Result<Option<Found>, ReadRefusal>
    ensures found { IfOk result (λ found. FindsIn span.from span.to messages.now templates.old templates.new found) }
    // Of accepted messages no damage is reported, and it is what is found of these.
    ensures given { (list : List Accepted) → AreAcceptedFrom templates.old list → octets_of list ≡ messages.now
        → IsAnswered (λ found. (templates.new ≡ templates_from templates.old list)
        × IsFound span.from span.to list found) result }
    ensures quiet { IfErr result (λ e. e ≢ ReadRefusal.Fault) }
{
    let mut found = None;
    let mut at = from;
    for index in 0..messages.len() {
        let octets = messages[index].as_slice();
        if has_flow(alloc, templates, octets, file, at, span)? {
            found = Some(with_message(found, index as u64));
        }
        at = at.saturating_add(octets.len() as u64);
    }
    Ok(found)
}
