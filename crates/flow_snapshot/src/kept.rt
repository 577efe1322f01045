//! The flows of kept messages.

ghost use Rattle.std.specs.Prelude.{◌≡◌, ◌≢◌, ◌++◌, true, false, IsTrue, IfErr, IfOk, IfSome, List, [], OnErr, OnOk};
ghost use Rattle.flow_codec.specs.Fault.{IsOctets};
ghost use Rattle.flow_codec.specs.Message.{IsAccepted};
ghost use Rattle.flow_codec.specs.Raw.{Took};
ghost use Rattle.flow_codec.specs.Templates.{AllTemplates};
ghost use Rattle.flow_disk.specs.Cause.{HasCause};
ghost use Rattle.flow_measure.specs.History.{Accepted, AreAcceptedFrom, flows_in, templates_from};
ghost use Rattle.flow_segment.specs.Carry.{octets_of};
ghost use Rattle.flow_segment.specs.PartFlows.{flows_within};
ghost use Rattle.flow_segment.specs.Prefix.{IsRestated};
ghost use Rattle.flow_segment.specs.Spans.{is_known_outside, noted, IsOwnSpan};
ghost use Rattle.flow_snapshot.specs.Files.{is_honest, segment_of};
ghost use Rattle.flow_snapshot.specs.Found.{kept_file, AppendsOwnFlows, AreAccepted, HaveOwnFlows};
ghost use Rattle.flow_snapshot.specs.Answered.{IsAnswered};

use bytes::Bytes;
use flow_codec::{
    CaveatCounts, MessageError, RecordSink, Templates, WalkError, front_of, walk_message,
};
use flow_disk::{Faults, SealedFile};
use flow_measure::{Flow, PartSpan};
use flow_refusals::ReadRefusal;
use flow_segment::{Chosen, HasRecords, Noting, SealedPart, collect_flows, templates_of};
use std::alloc::{AllocError, Global};
use std::mem::replace;

/// The refusal of a message in memory that isn't accepted, or doesn't belong in a prefix: damage of file 0, since it is
/// in no file.
const NO_MESSAGE: ReadRefusal = ReadRefusal::Damaged(0, 0);

/// Takes in the templates of a message in memory, and answers whether it has data records.
fn take_in(alloc: Global, templates: &mut Templates, octets: &[u8]) -> Result<bool, ReadRefusal>
    // It is an accepted message.
    ensures found { IfOk result (λ any. (a : Accepted) × (a.octets ≡ octets.now)
        × IsAccepted octets.now templates.old a.message a.after × (templates.new ≡ a.after)
        × (any ≡ false → a.message.records ≡ [])) }
    ensures none { (a : Accepted) → a.octets ≡ octets.now → IsAccepted octets.now templates.old a.message a.after
        → a.message.records ≡ [] → IfOk result (λ any. any ≡ false) }
    ensures given { (a : Accepted) → a.octets ≡ octets.now → IsAccepted octets.now templates.old a.message a.after
        → IsAnswered (λ _. templates.new ≡ a.after) result }
    ensures quiet { IfErr result (λ e. e ≢ ReadRefusal.Fault) }
{
    let mut records = HasRecords { any: false };
    match walk_message(templates, alloc, octets, &mut records) {
        Ok(_) => Ok(records.any),
        Err(WalkError::Message(MessageError::OutOfMemory)) => Err(ReadRefusal::OutOfMemory),
        Err(WalkError::Message(_)) => Err(NO_MESSAGE),
        Err(WalkError::Sink(never)) => match never {},
    }
}

/// Passes the data records of a message in memory to a sink.
pub(crate) fn hand_over<R: RecordSink<Error = AllocError>>(
    alloc: Global,
    templates: &mut Templates,
    octets: &[u8],
    sink: &mut R,
) -> Result<(), ReadRefusal>
    // It is an accepted message.
    ensures found { OnOk result ((a : Accepted) × (a.octets ≡ octets.now)
        × IsAccepted octets.now templates.old a.message a.after) }
    ensures given { (a : Accepted) → a.octets ≡ octets.now → IsAccepted octets.now templates.old a.message a.after
        → IsAnswered (λ _. (templates.new ≡ a.after)
        × Took R.holds a.message.header sink.old a.message.records sink.new) result }
    ensures quiet { IfErr result (λ e. e ≢ ReadRefusal.Fault) }
{
    match walk_message(templates, alloc, octets, sink) {
        Ok(_) => Ok(()),
        Err(WalkError::Message(MessageError::OutOfMemory)) => Err(ReadRefusal::OutOfMemory),
        Err(WalkError::Message(_)) => Err(NO_MESSAGE),
        Err(WalkError::Sink(_)) => Err(ReadRefusal::OutOfMemory),
    }
}

/// Takes in the messages of a prefix in memory, where no template is in force before.
fn take_prefix(alloc: Global, templates: &mut Templates, prefix: &[u8]) -> Result<(), ReadRefusal>
    requires { templates.old ≡ [] }
    ensures found { OnOk result (IsRestated prefix.now templates.new) }
    ensures given { (all : AllTemplates) → IsRestated prefix.now all
        → IsAnswered (λ _. templates.new ≡ all) result }
    ensures quiet { IfErr result (λ e. e ≢ ReadRefusal.Fault) }
{
    let mut rest = prefix;
    'messages: while !rest.is_empty() {
        let Ok(length) = front_of(0, rest) else {
            return Err(NO_MESSAGE);
        };
        let (message, more) = rest.split_at(length);
        if take_in(alloc, templates, message)? {
            return Err(NO_MESSAGE);
        }
        rest = more;
    }
    Ok(())
}

/// The templates that a prefix in memory restates. One with data records is refused.
pub fn restated(alloc: Global, prefix: &[u8]) -> Result<Templates, ReadRefusal>
    ensures found { IfOk result (λ templates. IsRestated prefix.now templates) }
    ensures given { (all : AllTemplates) → IsRestated prefix.now all
        → IsAnswered (λ templates. templates ≡ all) result }
    ensures quiet { IfErr result (λ e. e ≢ ReadRefusal.Fault) }
{
    let mut templates = Templates::new(alloc);
    match take_prefix(alloc, &mut templates, prefix) {
        Ok(()) => Ok(templates),
        Err(refused) => {
            drop(templates);
            Err(refused)
        }
    }
}

/// Appends the flows of a sealed segment's messages that start from `from` on and before `to` to a list. They are read
/// after the templates that its own prefix restates; where it has none, its prefix is read all the same.
fn collect_read<S: SealedFile>(
    alloc: Global,
    part: &SealedPart<S>,
    from: u64,
    to: u64,
    flows: &mut Vec<Flow>,
    faults: &mut Faults<S>,
) -> Result<(), ReadRefusal>
    ensures cause { HasCause ReadRefusal.Fault faults.old faults.new result }
    ensures found { IsTrue (is_honest part.now) → OnOk result
        (AppendsOwnFlows from to (kept_file (segment_of part.now)) flows.old.items flows.new.items) }
    ensures given { IsTrue (is_honest part.now) → (own : List Flow)
        → HaveOwnFlows from to (kept_file (segment_of part.now)) own
        → IsAnswered (λ _. flows.new.items ≡ flows.old.items ++ own) result }
{
    let mut templates = templates_of(alloc, part, faults)?;
    if part.messages == 0 {
        return Ok(());
    }
    collect_flows(alloc, part, &mut templates, from, to, flows, faults)
}

/// The same; a segment that is known to have no flow in the span isn't read.
pub(crate) fn collect_segment<S: SealedFile>(
    alloc: Global,
    part: &SealedPart<S>,
    from: u64,
    to: u64,
    flows: &mut Vec<Flow>,
    faults: &mut Faults<S>,
) -> Result<(), ReadRefusal>
    ensures cause { HasCause ReadRefusal.Fault faults.old faults.new result }
    ensures unread { is_known_outside part.now.span 1 from to ≡ true
        → OnErr result ⊥ × (faults.new ≡ faults.old) × (flows.new.items ≡ flows.old.items) }
    // On an honest disk: its messages are accepted after its own prefix, and the flows are theirs.
    ensures found { IsTrue (is_honest part.now) → OnOk result
        (AppendsOwnFlows from to (kept_file (segment_of part.now)) flows.old.items flows.new.items) }
    ensures given { IsTrue (is_honest part.now) → (own : List Flow)
        → HaveOwnFlows from to (kept_file (segment_of part.now)) own
        → IsAnswered (λ _. flows.new.items ≡ flows.old.items ++ own) result }
{
    if part.is_outside(1, from, to) {
        return Ok(());
    }
    collect_read(alloc, part, from, to, flows, faults)
}

/// Appends the flows of messages in memory that start from `from` on and before `to` to a list.
fn collect_after(
    alloc: Global,
    messages: &[Bytes],
    templates: &mut Templates,
    from: u64,
    to: u64,
    flows: &mut Vec<Flow>,
) -> Result<(), ReadRefusal>
    ensures found { OnOk result (AreAccepted templates.old messages.now) }
    ensures given { (list : List Accepted) → AreAcceptedFrom templates.old list → octets_of list ≡ messages.now
        → IsAnswered (λ _. (templates.new ≡ templates_from templates.old list)
        × (flows.new.items ≡ flows.old.items ++ flows_within from to (flows_in list))) result }
    ensures quiet { IfErr result (λ e. e ≢ ReadRefusal.Fault) }
{
    let mut chosen = Chosen {
        flows: replace(flows, Vec::new(alloc)),
        from,
        to,
    };
    for message in messages {
        hand_over(alloc, templates, message.as_slice(), &mut chosen)?;
    }
    *flows = chosen.flows;
    Ok(())
}

/// The same, the first message after the templates that the prefix restates.
pub(crate) fn collect_active(
    alloc: Global,
    prefix: &[u8],
    messages: &[Bytes],
    from: u64,
    to: u64,
    flows: &mut Vec<Flow>,
) -> Result<(), ReadRefusal>
    ensures found { OnOk result (AppendsOwnFlows from to (record { prefix = prefix.now; messages = messages.now })
        flows.old.items flows.new.items) }
    ensures given { (own : List Flow)
        → HaveOwnFlows from to (record { prefix = prefix.now; messages = messages.now }) own
        → IsAnswered (λ _. flows.new.items ≡ flows.old.items ++ own) result }
    ensures quiet { IfErr result (λ e. e ≢ ReadRefusal.Fault) }
{
    let mut templates = restated(alloc, prefix)?;
    collect_after(alloc, messages, &mut templates, from, to, flows)
}

/// When the flows of messages in memory start, the first of which comes after the templates that the prefix restates;
/// none where memory is refused.
pub fn span_in_memory(alloc: Global, prefix: &[u8], messages: &[Bytes]) -> Option<PartSpan>
    ensures { IfSome result (λ span. IsOwnSpan prefix.now messages.now span) }
{
    let Ok(mut templates) = restated(alloc, prefix) else {
        return None;
    };
    let mut span = PartSpan::none();
    for message in messages {
        if !is_noted(alloc, &mut templates, message.as_slice(), &mut span) {
            return None;
        }
    }
    Some(span)
}

/// Notes the starts of a message's flows; `false` where memory is refused, or the message isn't accepted.
fn is_noted(alloc: Global, templates: &mut Templates, octets: &[u8], span: &mut PartSpan) -> bool
    ensures { result ≡ true → IsOctets octets.now × (a : Accepted) × (a.octets ≡ octets.now)
        × IsAccepted octets.now templates.old a.message a.after × (templates.new ≡ a.after)
        × (Some span.new ≡ noted a.message (Some span.old)) }
{
    let mut noting = Noting {
        records: 0,
        span: Some(*span),
        caveats: None,
    };
    match walk_message(templates, alloc, octets, &mut noting) {
        Ok(_) => match noting.span {
            Some(now) => {
                *span = now;
                true
            }
            None => false,
        },
        Err(_) => false,
    }
}
