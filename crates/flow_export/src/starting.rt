//! Messages of which some flow starts in a span.

ghost use Rattle.std.specs.Prelude.{◌≡◌, ◌≢◌, IfErr};
ghost use Rattle.std.specs.List.{list_any};
ghost use Rattle.flow_codec.specs.Message.{in_fields, IsAccepted};
ghost use Rattle.flow_codec.specs.Raw.{RawMessage};
ghost use Rattle.flow_codec.specs.Templates.{AllTemplates};
ghost use Rattle.flow_export.specs.Span.{starts_within};
ghost use Rattle.flow_measure.specs.Flows.{flows_of};
ghost use Rattle.flow_segment.specs.PartFlows.{IsWalkedInto};
ghost use Rattle.flow_snapshot.specs.Answered.{IsAnswered};

use flow_codec::{MessageError, Templates, WalkError, walk_message};
use flow_refusals::ReadRefusal;
use flow_segment::Chosen;
use std::alloc::Global;

/// A span of time: from a second since 1970-01-01 00:00 UTC on, and before another.
#[derive(Clone, Copy, Debug)]
pub struct TimeSpan {
    pub from: u64,
    pub to: u64,
}

/// Whether some flow of a message starts in a span. It is at this place of this file, and its templates are taken in.
pub(crate) fn has_flow(
    alloc: Global,
    templates: &mut Templates,
    octets: &[u8],
    file: u64,
    at: u64,
    span: TimeSpan,
) -> Result<bool, ReadRefusal>
    ensures walked { IsWalkedInto (λ has m. has ≡ list_any (starts_within span.from span.to) (flows_of (in_fields m)))
        file at octets.now templates.old templates.new result }
    ensures quiet { IfErr result (λ e. e ≢ ReadRefusal.Fault) }
{
    let mut chosen = Chosen {
        flows: Vec::new(alloc),
        from: span.from,
        to: span.to,
    };
    match walk_message(templates, alloc, octets, &mut chosen) {
        Ok(_) => Ok(!chosen.flows.is_empty()),
        Err(WalkError::Message(MessageError::OutOfMemory)) => Err(ReadRefusal::OutOfMemory),
        Err(WalkError::Message(_)) => Err(ReadRefusal::Damaged(file, at)),
        Err(WalkError::Sink(_)) => Err(ReadRefusal::OutOfMemory),
    }
}
