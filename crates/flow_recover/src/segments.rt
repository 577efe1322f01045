//! The messages of segments, each accepted after those before it.

ghost use Rattle.std.specs.Prelude.{◌≡◌, ◌≢◌, ◌+◌, ◌<◌, ◌≤◌, ◌^◌, ◌++◌, ℕ, List, [], length, drop, IfOk, IfErr, OnOk};
ghost use Rattle.flow_codec.specs.declared.file.FileError.{FileError};
ghost use Rattle.flow_codec.specs.Cutting.{IsFileFault};
ghost use Rattle.flow_codec.specs.Fault.{IsOctets};
ghost use Rattle.flow_codec.specs.Message.{IsAccepted};
ghost use Rattle.flow_gate.specs.Scan.{texts};
ghost use Rattle.flow_measure.specs.History.{Accepted, AreAcceptedFrom};
ghost use Rattle.flow_segment.specs.Carry.{carry_from, carry_with, octets_of, Carry};
ghost use Rattle.flow_segment.specs.Prefix.{AreRead};
ghost use Rattle.flow_segment.specs.Spans.{all_noted, noted};
ghost use Rattle.flow_recover.specs.Reading.{is_misplaced, AreOf, AreTaken, IsOf};

use flow_codec::{MessageError, front_of};
use flow_manifest::OpenError;
use flow_measure::PartSpan;
use flow_segment::Carry;
use std::alloc::Global;

/// Which messages of a segment are read.
#[derive(Clone, Copy, Debug, PartialEq, Eq)]
pub(crate) enum Section {
    /// Those of the prefix, which have no data records.
    Prefix,
    /// Those that were appended.
    Messages,
}

/// Takes in the message at this place of a file, after those before it, and notes the starts of its flows, where a span
/// is given.
pub(crate) fn take_message(
    carry: &mut Carry,
    alloc: Global,
    octets: &[u8],
    section: Section,
    file: u64,
    at: u64,
    span: &mut Option<PartSpan>,
) -> Result<(), OpenError>
    ensures taken { OnOk result ((a : Accepted) × (a.octets ≡ octets.now)
        × IsAccepted octets.now carry.old.templates a.message a.after × IsOf section a
        × (carry.new ≡ carry_with carry.old a)) }
    ensures refused { (a : Accepted) → IsAccepted octets.now carry.old.templates a.message a.after → IsOf section a
        → IfErr result (λ e. e ≡ OpenError.OutOfMemory) }
    ensures device { IfErr result (λ e. e ≢ OpenError.Fault) }
    ensures noted { OnOk result ((a : Accepted) → a.octets ≡ octets.now
        → IsAccepted octets.now carry.old.templates a.message a.after → span.new ≡ noted a.message span.old) }
{
    match carry.restate(alloc, octets, span) {
        Ok(bare) => {
            if is_misplaced(section, bare) {
                return Err(OpenError::Damaged(file, at));
            }
            Ok(())
        }
        Err(fault) => Err(told(fault, file, at)),
    }
}

/// Whether a message doesn't belong in this section: it has data records, and the section is a prefix.
fn is_misplaced(section: Section, bare: bool) -> bool
    ensures { result ≡ is_misplaced section bare }
{
    match section {
        Section::Prefix => !bare,
        Section::Messages => false,
    }
}

/// The refusal of a message at this place of a file.
fn told(fault: MessageError, file: u64, at: u64) -> OpenError
    ensures memory { fault ≡ MessageError.OutOfMemory → result ≡ OpenError.OutOfMemory }
    ensures device { result ≢ OpenError.Fault }
{
    match fault {
        MessageError::OutOfMemory => OpenError::OutOfMemory,
        _ => OpenError::Damaged(file, at),
    }
}

/// How far some octets were taken in.
#[derive(Clone, Copy, Debug, PartialEq, Eq)]
pub(crate) struct Taken {
    /// How many octets the messages have.
    pub(crate) octets: usize,
    /// How many messages there are.
    pub(crate) messages: u64,
}

/// Takes in the messages that these octets begin with, which start at this place of a file, up to the end or to octets
/// that no whole message begins with. It counts them, and notes the starts of their flows, where a span is given.
pub(crate) fn take_whole(
    carry: &mut Carry,
    alloc: Global,
    octets: &[u8],
    section: Section,
    file: u64,
    from: u64,
    span: &mut Option<PartSpan>,
) -> Result<Taken, OpenError>
    requires { from + length octets.now < 2 ^ 64 }
    ensures few { IfOk result (λ taken. taken.messages ≤ taken.octets) }
    ensures octets { IsOctets octets.now }
    ensures found { IfOk result (λ taken. AreTaken section octets.now carry.old carry.new span.old span.new taken) }
    ensures stopped { IfOk result (λ taken. taken.octets < length octets.now
        → (fault : FileError) × IsFileFault (from + taken.octets) (drop taken.octets octets.now) fault) }
    ensures refused { (messages : List Accepted) (later : List ℕ)
        → AreRead (octets.now ++ later) carry.old.templates messages [] → AreOf section messages
        → IfErr result (λ e. e ≡ OpenError.OutOfMemory) }
    ensures device { IfErr result (λ e. e ≢ OpenError.Fault) }
{
    let mut at = 0;
    let mut count = 0;
    'messages: while at < octets.len() {
        let rest = &octets[at..];
        let place = from + at as u64;
        let Ok(length) = front_of(place, rest) else {
            return Ok(Taken {
                octets: at,
                messages: count,
            });
        };
        take_message(carry, alloc, &rest[..length], section, file, place, span)?;
        at += length;
        count += 1;
    }
    Ok(Taken {
        octets: at,
        messages: count,
    })
}

/// Takes in the messages of these octets, which start at this place of a file, counts them, and notes the starts of
/// their flows, where a span is given.
pub(crate) fn take_octets(
    carry: &mut Carry,
    alloc: Global,
    octets: &[u8],
    section: Section,
    file: u64,
    from: u64,
    span: &mut Option<PartSpan>,
) -> Result<u64, OpenError>
    requires { from + length octets.now < 2 ^ 64 }
    ensures octets { IsOctets octets.now }
    ensures found { IfOk result (λ count. (messages : List Accepted)
        × AreRead octets.now carry.old.templates messages [] × AreOf section messages
        × (carry.new ≡ carry_from carry.old messages) × (length messages ≡ count)
        × (span.new ≡ all_noted messages span.old)) }
    ensures refused { (messages : List Accepted) → AreRead octets.now carry.old.templates messages []
        → AreOf section messages → IfErr result (λ e. e ≡ OpenError.OutOfMemory) }
    ensures device { IfErr result (λ e. e ≢ OpenError.Fault) }
{
    let taken = take_whole(carry, alloc, octets, section, file, from, span)?;
    if taken.octets < octets.len() {
        return Err(OpenError::Damaged(file, from + taken.octets as u64));
    }
    Ok(taken.messages)
}

/// Takes in these messages, the first of which starts at this place of a file.
pub(crate) fn take_list(
    carry: &mut Carry,
    alloc: Global,
    messages: &[Vec<u8>],
    file: u64,
    from: u64,
) -> Result<(), OpenError>
    ensures taken { OnOk result ((all : List Accepted) × (octets_of all ≡ texts messages.now)
        × AreAcceptedFrom carry.old.templates all × (carry.new ≡ carry_from carry.old all)) }
    ensures refused { (all : List Accepted) → octets_of all ≡ texts messages.now
        → AreAcceptedFrom carry.old.templates all → IfErr result (λ e. e ≡ OpenError.OutOfMemory) }
    ensures device { IfErr result (λ e. e ≢ OpenError.Fault) }
{
    let mut at = from;
    'messages: for message in messages {
        take_message(
            carry,
            alloc,
            message.as_slice(),
            Section::Messages,
            file,
            at,
            &mut None,
        )?;
        at = at.saturating_add(message.len() as u64);
    }
    Ok(())
}
