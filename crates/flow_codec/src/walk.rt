//! The walk over a message, from left to right: its data records go to a sink, its template records are applied.

ghost use Rattle.std.specs.Prelude.{◌⊎◌, ◌≡◌, ◌+◌, ◌≤◌, ◌<◌, length, List, None, OnOk, OnErr, IfOk, IfErr};
ghost use Rattle.flow_codec.specs.Layout.{smallest};
ghost use Rattle.flow_codec.specs.Raw.{RawRecord, RawMessage, Took, IsWholeRecord};
ghost use Rattle.flow_codec.specs.Templates.{AllTemplates, definitions_of};
ghost use Rattle.flow_codec.specs.Working.{current, AreChanges};
ghost use Rattle.flow_codec.specs.Reading.{Gives, Feeds, FeedsAlone, IsRefused, IsWalked, octets_at, counted_at};
ghost use Rattle.flow_codec.specs.Reading.{extent_at, records_of, content_at, kind_of, set_at, sets_at, header_at};
ghost use Rattle.flow_codec.specs.Reading.{message_at};
ghost use Rattle.flow_codec.specs.Extent.{step_at, extent_by};
ghost use Rattle.flow_codec.specs.Message.{IsAccepted};
ghost use Rattle.flow_codec.specs.Fault.{IsFault};
ghost use Rattle.flow_codec.specs.Walk.{IsWalkedBy, IsWalkOf, IsStopped, IsJudgementOf};
ghost use Rattle.flow_codec.specs.Replaced.{replaced_at, replaced_of, replacing_in};
ghost use Rattle.flow_codec.specs.Unread.{counted, header_in, is_unread, unread_at, unread_of};

use crate::count::Count;
use crate::error::MessageError;
use crate::kind::TemplateKind;
use crate::message::{HEADER, Header, VERSION};
use crate::numbers::{u16_at, u32_at};
use crate::plan::{FieldStep, Way};
use crate::sink::{RecordSink, WalkError};
use crate::templates::{Definition, DomainTemplates, Templates};
use crate::working::{Changed, find_in, keep_limits, put_in, templates_of};
use std::alloc::Global;

/// The least ID of a Set of data records.
const FIRST_DATA_SET: u16 = 256;

/// The octets of a Set's ID and Length (RFC 7011, section 3.3.2).
const SET_HEADER: usize = 4;

/// The data Sets of a message without a definition in force, which are passed over.
#[derive(Clone, Copy, Debug, PartialEq, Eq)]
pub struct UnreadSets {
    /// How many there are.
    pub sets: usize,
    /// Their octets, with those of their headers.
    pub octets: usize,
}

/// What a walk over a message gives.
#[derive(Clone, Copy, Debug, PartialEq, Eq)]
pub struct Walked {
    pub header: Header,
    pub unread: UnreadSets,
    /// How many template records replace a different definition of their ID, which is in force (RFC 7011, section 8.1).
    pub replaced: usize,
}

/// The octets of a field of fixed length in the record at `at`, by their count.
fn octets_at(at: usize, len: usize, octets: &[u8]) -> Result<(&[u8], &[u8]), MessageError>
    ensures { Gives (λ x. (x.0.now, x.1.now)) result (octets_at at len octets.now) }
{
    if octets.len() < len {
        return Err(MessageError::RecordCut(at));
    }
    Ok(octets.split_at(len))
}

/// The octets of a field of variable length with its length octets, in the record at `at` (RFC 7011, section 7), and
/// those after it.
#[tactic(auto, unfolding(crate::specs::Reading::counted_at))]
fn counted_of(at: usize, octets: &[u8]) -> Result<(&[u8], &[u8]), MessageError>
    ensures { Gives (λ x. (x.0.now, x.1.now)) result (counted_at at octets.now) }
{
    let cut = MessageError::RecordCut(at);
    let [first, rest @ ..] = octets else {
        return Err(cut);
    };
    if *first < 255 {
        return octets_at(at, 1 + *first as usize, octets);
    }
    let (len, _) = u16_at(cut, rest)?;
    octets_at(at, 3 + len as usize, octets)
}

/// The octets that one step passes over in the record at `at`, and those after them.
fn step_over<'a>(
    at: usize,
    step: &FieldStep,
    octets: &'a [u8],
) -> Result<(&'a [u8], &'a [u8]), MessageError>
    ensures { Gives (λ x. (x.0.now, x.1.now)) result (step_at at step.now octets.now) }
{
    match step {
        FieldStep::Skip(count) => octets_at(at, *count, octets),
        FieldStep::Fixed(_, len) => octets_at(at, *len as usize, octets),
        FieldStep::Variable(_) => counted_of(at, octets),
    }
}

/// The octets that these steps pass over in the record at `at`, and those after them.
fn stepped_over<'a>(
    at: usize,
    steps: &[FieldStep],
    octets: &'a [u8],
) -> Result<(&'a [u8], &'a [u8]), MessageError>
    ensures { Gives (λ x. (x.0.now, x.1.now)) result (extent_by at steps.now octets.now) }
{
    let mut rest = octets;
    for step in steps {
        let (_, after) = step_over(at, step, rest)?;
        rest = after;
    }
    Ok(octets.split_at(octets.len() - rest.len()))
}

/// The octets of the whole record at `at`, and those after it.
fn extent_of<'a>(
    at: usize,
    definition: &Definition,
    octets: &'a [u8],
) -> Result<(&'a [u8], &'a [u8]), MessageError>
    ensures exact { Gives (λ x. (x.0.now, x.1.now)) result (extent_at at definition.now.fields octets.now) }
    ensures whole { IfOk result (λ x. IsWholeRecord definition.now x.0.now
        × (length x.0.now + length x.1.now ≡ length octets.now) × (smallest definition.now ≤ length x.0.now)) }
{
    let plan = definition.plan();
    match &plan.way {
        Way::ByPlaces(_) => octets_at(at, plan.smallest, octets),
        Way::BySteps(steps) => stepped_over(at, steps.as_slice(), octets),
    }
}

/// Hands the records of a Set that ends at `end` to a sink; what is left of it is padding.
fn records_of<S: RecordSink>(
    end: usize,
    header: &Header,
    id: u16,
    definition: &Definition,
    octets: &[u8],
    sink: &mut S,
) -> Result<(), WalkError<S::Error>>
    requires { length octets.now ≤ end }
    ensures exact { FeedsAlone (λ records. Took S.holds header.now sink.old records sink.new
        × (length records ≤ length octets.now))
        (IsRefused S.holds S.refuses header.now sink.old (length octets.now)) result
        (records_of end id definition.now octets.now) }
    ensures kept { S.kept sink.new ≡ S.kept sink.old }
{
    let smallest = definition.plan().smallest;
    if smallest == 0 {
        return Ok(());
    }
    let mut rest = octets;
    while rest.len() >= smallest {
        let (whole, after) = extent_of(end - rest.len(), definition, rest)?;
        if let Err(e) = sink.record(header, id, definition, whole) {
            return Err(WalkError::Sink(e));
        }
        rest = after;
    }
    Ok(())
}

/// The kind of template records in Sets of this ID.
fn kind_of(id: u16) -> Option<TemplateKind>
    ensures { result ≡ kind_of id }
{
    match id {
        2 => Some(TemplateKind::Plain),
        3 => Some(TemplateKind::Options),
        _ => None,
    }
}

/// Hands the records of a Set that ends at `end` to a sink, or applies its template records. `here` was in force in the
/// message's domain before it. It answers whether the Set is a data Set without a definition in force, and how many of
/// its template records replace a definition.
#[tactic(auto, unfolding(crate::specs::Reading::content_at, crate::specs::Reading::data_at, crate::specs::Replaced::replacing_in))]
fn content_of<S: RecordSink>(
    alloc: Global,
    end: usize,
    before: &Templates,
    here: &DomainTemplates,
    header: &Header,
    id: u16,
    changed: &mut Option<Changed>,
    octets: &[u8],
    sink: &mut S,
) -> Result<(bool, usize), WalkError<S::Error>>
    requires end { length octets.now ≤ end }
    requires here { here.now ≡ definitions_of header.now.domain before.now }
    requires changes { AreChanges header.now.domain before.now changed.old }
    ensures changes { OnOk result (AreChanges header.now.domain before.now changed.new) }
    ensures unread { IfOk result
        (λ x. x.0 ≡ is_unread header.now.domain (current header.now.domain before.now changed.old) id) }
    ensures replaced { IfOk result (λ x. x.1 ≡ replacing_in end header.now.domain id
        (current header.now.domain before.now changed.old) octets.now) }
    ensures few { IfOk result (λ x. x.1 ≤ length octets.now) }
    ensures exact { Feeds (λ records. Took S.holds header.now sink.old records sink.new
        × (length records ≤ length octets.now)) (IsRefused S.holds S.refuses header.now sink.old (length octets.now))
        (λ _. current header.now.domain before.now changed.new) result
        (content_at end header.now.domain id (current header.now.domain before.now changed.old) octets.now) }
    ensures kept { S.kept sink.new ≡ S.kept sink.old }
{
    if let Some(kind) = kind_of(id) {
        let replaced = templates_of(
            alloc,
            end,
            before,
            header.domain,
            here,
            kind,
            changed,
            octets,
        )?;
        return Ok((false, replaced));
    }
    if id < FIRST_DATA_SET {
        return Ok((false, 0));
    }
    match find_in(before, header.domain, here, changed, id) {
        None => Ok((true, 0)),
        Some(definition) => {
            records_of(end, header, id, definition, octets, sink)?;
            Ok((false, 0))
        }
    }
}

/// The Set at `at`: its ID, its content, and the octets after it.
#[tactic(auto, unfolding(crate::specs::Reading::set_at))]
fn set_of(at: usize, octets: &[u8]) -> Result<(u16, &[u8], &[u8]), MessageError>
    ensures exact { Gives (λ x. (x.0, x.1.now, x.2.now)) result (set_at at octets.now) }
    ensures len { IfOk result (λ x. length x.1.now + length x.2.now + 4 ≡ length octets.now) }
{
    let cut = MessageError::SetLength(at);
    let (id, rest) = u16_at(cut, octets)?;
    let (len, rest) = u16_at(cut, rest)?;
    let len = len as usize;
    if len < 4 || octets.len() < len {
        return Err(cut);
    }
    let (content, after) = rest.split_at(len - 4);
    Ok((id, content, after))
}

/// Hands the records of all Sets to a sink, and applies their template records. It counts the data Sets without a
/// definition in force, and the template records that replace a definition.
fn sets_of<S: RecordSink>(
    alloc: Global,
    end: usize,
    before: &Templates,
    header: &Header,
    changed: &mut Option<Changed>,
    octets: &[u8],
    sink: &mut S,
) -> Result<(UnreadSets, usize), WalkError<S::Error>>
    requires end { length octets.now ≤ end }
    requires changes { AreChanges header.now.domain before.now changed.old }
    ensures changes { OnOk result (AreChanges header.now.domain before.now changed.new) }
    ensures unread { IfOk result (λ x. x.0 ≡ counted (unread_at (length octets.now) end header.now.domain
        (current header.now.domain before.now changed.old) octets.now)) }
    ensures replaced { IfOk result (λ x. x.1 ≡ replaced_at (length octets.now) end header.now.domain
        (current header.now.domain before.now changed.old) octets.now) }
    ensures exact { Feeds (λ records. Took S.holds header.now sink.old records sink.new
        × (length records ≤ length octets.now)) (IsRefused S.holds S.refuses header.now sink.old (length octets.now))
        (λ _. current header.now.domain before.now changed.new) result
        (sets_at (length octets.now) end header.now.domain
        (current header.now.domain before.now changed.old) octets.now) }
    ensures kept { S.kept sink.new ≡ S.kept sink.old }
{
    let here = before.here(header.domain);
    let mut unread = UnreadSets { sets: 0, octets: 0 };
    let mut replaced = 0;
    let mut rest = octets;
    'sets: while !rest.is_empty() {
        let (id, content, after) = set_of(end - rest.len(), rest)?;
        let (is_unread, more) = content_of(
            alloc,
            end - after.len(),
            before,
            here,
            header,
            id,
            changed,
            content,
            sink,
        )?;
        if is_unread {
            unread.sets += 1;
            unread.octets += SET_HEADER + content.len();
        }
        replaced += more;
        rest = after;
    }
    Ok((unread, replaced))
}

/// The header of a message of all these octets, and the octets after the header.
#[tactic(auto, unfolding(crate::specs::Reading::header_at))]
fn header_of(octets: &[u8]) -> Result<(Header, &[u8]), MessageError>
    ensures exact { Gives (λ x. (x.0, x.1.now)) result (header_at octets.now) }
    ensures len { IfOk result (λ x. length x.1.now ≤ length octets.now) }
{
    if octets.len() < HEADER {
        return Err(MessageError::Short);
    }
    let cut = MessageError::Short;
    let (version, rest) = u16_at(cut, octets)?;
    if version != VERSION {
        return Err(MessageError::Version);
    }
    let (length, rest) = u16_at(cut, rest)?;
    if length as usize != octets.len() {
        return Err(MessageError::Length);
    }
    let (time, rest) = u32_at(cut, rest)?;
    let (sequence, rest) = u32_at(cut, rest)?;
    let (domain, rest) = u32_at(cut, rest)?;
    let header = Header {
        length,
        time,
        sequence,
        domain,
    };
    Ok((header, rest))
}

/// Hands a message's data records to a sink. It leaves in `changed` what the message changes in the templates, which
/// keep to their limits.
fn divided<S: RecordSink>(
    templates: &Templates,
    alloc: Global,
    octets: &[u8],
    changed: &mut Option<Changed>,
    sink: &mut S,
) -> Result<Walked, WalkError<S::Error>>
    requires { changed.old ≡ None }
    ensures changes { IfOk result (λ w. AreChanges w.header.domain templates.now changed.new) }
    ensures unread { IfOk result (λ w. w.unread ≡ counted (unread_of templates.now octets.now)) }
    ensures replaced { IfOk result (λ w. w.replaced ≡ replaced_of templates.now octets.now) }
    ensures exact { IsWalked S.holds (λ header. IsRefused S.holds S.refuses header sink.old (length octets.now))
        (λ w. (w.header, current w.header.domain templates.now changed.new)) sink.old sink.new result
        (message_at templates.now octets.now) }
    ensures kept { S.kept sink.new ≡ S.kept sink.old }
{
    let (header, rest) = header_of(octets)?;
    let (unread, replaced) = sets_of(alloc, octets.len(), templates, &header, changed, rest, sink)?;
    keep_limits(templates, &header, changed)?;
    Ok(Walked {
        header,
        unread,
        replaced,
    })
}

fn message_of<S: RecordSink>(
    templates: &mut Templates,
    alloc: Global,
    octets: &[u8],
    sink: &mut S,
) -> Result<Walked, WalkError<S::Error>>
    ensures unread { IfOk result (λ w. w.unread ≡ counted (unread_of templates.old octets.now)) }
    ensures replaced { IfOk result (λ w. w.replaced ≡ replaced_of templates.old octets.now) }
    ensures exact { IsWalked S.holds (λ header. IsRefused S.holds S.refuses header sink.old (length octets.now))
        (λ w. (w.header, templates.new)) sink.old sink.new result (message_at templates.old octets.now) }
    ensures err { OnErr result (templates.new ≡ templates.old) }
    ensures kept { S.kept sink.new ≡ S.kept sink.old }
{
    templates.are_in_force();
    let mut changed = None;
    let walked = divided(templates, alloc, octets, &mut changed, sink)?;
    if put_in(alloc, templates, walked.header.domain, &mut changed).is_err() {
        return Err(WalkError::Message(MessageError::OutOfMemory));
    }
    Ok(walked)
}

/// Hands a message's data records to a sink, in order, and takes its templates in. An `Err` leaves the templates as
/// they were.
///
/// It takes time in proportion to the message's octets, whatever templates are in force; each growth of memory and each
/// withdrawn definition is paid for once.
pub fn walk_message<S: RecordSink>(
    templates: &mut Templates,
    alloc: Global,
    octets: &[u8],
    sink: &mut S,
) -> Result<Header, WalkError<S::Error>>
    // What is walked is an accepted message; its templates are taken in, and the sink took its records.
    ensures found { IfOk result
        (λ header. IsWalkedBy S.holds octets.now templates.old templates.new sink.old sink.new header) }
    // An accepted message is walked, unless memory runs out or the sink refuses a record.
    ensures only { (m : RawMessage) (after : AllTemplates) → IsAccepted octets.now templates.old m after
        → IsWalkOf S.holds S.refuses (length octets.now) templates.new sink.old sink.new result m after }
    // Other octets are refused by their first fault, or by the sink before it.
    ensures fault { IfErr result (λ e. IsStopped S.holds S.refuses octets.now templates.old sink.old e) }
    ensures err { OnErr result (templates.new ≡ templates.old) }
    // What the sink keeps is as it was, whatever is answered.
    ensures kept { S.kept sink.new ≡ S.kept sink.old }
{
    match walk_sets(templates, alloc, octets, sink) {
        Ok(walked) => Ok(walked.header),
        Err(stop) => Err(stop),
    }
}

/// Walks over a message as `walk_message` does, and also counts its data Sets without a definition in force, and its
/// template records that replace a definition.
pub fn walk_sets<S: RecordSink>(
    templates: &mut Templates,
    alloc: Global,
    octets: &[u8],
    sink: &mut S,
) -> Result<Walked, WalkError<S::Error>>
    ensures found { IfOk result
        (λ w. IsWalkedBy S.holds octets.now templates.old templates.new sink.old sink.new w.header) }
    ensures only { (m : RawMessage) (after : AllTemplates) → IsAccepted octets.now templates.old m after
        → IsWalkOf S.holds S.refuses (length octets.now) templates.new sink.old sink.new
        (header_in result) m after }
    ensures fault { IfErr result (λ e. IsStopped S.holds S.refuses octets.now templates.old sink.old e) }
    ensures err { OnErr result (templates.new ≡ templates.old) }
    // What the sink keeps is as it was, whatever is answered.
    ensures kept { S.kept sink.new ≡ S.kept sink.old }
    // These are the data Sets without a definition in force, each under the templates of the Sets before it.
    ensures unread { IfOk result (λ w. w.unread ≡ counted (unread_of templates.old octets.now)) }
    // So many template records define an ID otherwise than the definition in force before them.
    ensures replaced { IfOk result (λ w. w.replaced ≡ replaced_of templates.old octets.now) }
{
    message_of(templates, alloc, octets, sink)
}

/// Whether the octets are an accepted message under these templates: answers its header, and changes nothing.
///
/// It takes time in proportion to the message's octets, whatever templates are in force; each growth of memory and each
/// withdrawn definition is paid for once.
pub fn judge_message(
    templates: &Templates,
    alloc: Global,
    octets: &[u8],
) -> Result<Header, MessageError>
    // What is accepted is a message within the limits.
    ensures found { IfOk result (λ header. (records : List RawRecord) × (after : AllTemplates)
        × IsAccepted octets.now templates.now (record { header = header; records = records }) after) }
    // A message is accepted, unless memory runs out.
    ensures only { (m : RawMessage) (after : AllTemplates) → IsAccepted octets.now templates.now m after
        → IsJudgementOf result m }
    // Other octets are refused by their first fault.
    ensures fault { IfErr result (λ e. (e ≡ MessageError.OutOfMemory) ⊎ IsFault octets.now templates.now e) }
{
    let mut changed = None;
    let mut count = Count { records: 0 };
    match divided(templates, alloc, octets, &mut changed, &mut count) {
        Ok(walked) => Ok(walked.header),
        Err(WalkError::Message(fault)) => Err(fault),
        Err(WalkError::Sink(never)) => match never {},
    }
}
