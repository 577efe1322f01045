//! A sealed segment, read piece by piece.

ghost use Rattle.std.specs.Prelude.{◌≡◌, ◌+◌, ◌<◌, ◌≤◌, IsTrue, List, [], length, take, drop, IfOk, IfErr, OnOk};
ghost use Rattle.std.specs.Prelude.{is_some, vec_len};
ghost use Rattle.flow_codec.specs.Fault.{IsOctets};
ghost use Rattle.flow_codec.specs.Message.{joined};
ghost use Rattle.flow_disk.specs.Cause.{HasCause};
ghost use Rattle.flow_disk.specs.Disk.{Stays};
ghost use Rattle.flow_measure.specs.History.{Accepted};
ghost use Rattle.flow_segment.specs.Carry.{no_carry, carry_from, octets_of};
ghost use Rattle.flow_segment.specs.Prefix.{AreRead};
ghost use Rattle.flow_segment.specs.Spans.{all_noted};
ghost use Rattle.flow_recover.specs.Opening.{IsDeviceOrMemory};
ghost use Rattle.flow_recover.specs.Reading.{AreOf, AreTaken, IsCalled, IsOnlyRead, IsRestatement};

use crate::chaining::read_prefix;
use crate::segments::{Section, Taken, take_whole};
use flow_disk::Disk;
use flow_manifest::{Entry, OpenError};
use flow_measure::PartSpan;
use flow_segment::Carry;
use std::alloc::{AllocError, Global};

/// How many octets of a segment are read at a time, 544 KiB: so many stay in a processor's own cache until they are
/// judged, and two pieces hold a segment of 1 MiB, the usual limit, also where the end of the first one, up to 65,535
/// octets, is read again with the second. Each message has fewer octets.
const PIECE: u64 = 557_056;

/// Makes a buffer of at least this length, where it is shorter. Its memory is given back before more is taken. It has
/// 65,535 octets more than asked, so that what serves one file mostly serves all.
pub(crate) fn lengthen(alloc: Global, buffer: &mut Vec<u8>, count: usize) -> Result<(), AllocError>
    ensures { OnOk result (count ≤ vec_len buffer.new) }
{
    if buffer.len() < count {
        *buffer = Vec::new(alloc);
        *buffer = vec![in alloc; 0u8; count.saturating_add(65_535)]?;
    }
    Ok(())
}

/// Reads a segment's prefix, which must be `called` if the segment isn't the first one, and takes it in.
pub(crate) fn take_prefix<D: Disk>(
    carry: &mut Carry,
    alloc: Global,
    disk: &mut D,
    called: &Option<Vec<u8>>,
    entry: Entry,
    buffer: &mut Vec<u8>,
) -> Result<(), OpenError>
    requires new { carry.old ≡ no_carry 0 }
    requires room { entry.prefix ≤ (D.marks disk.old entry.file).size }
    ensures keeps { IsOnlyRead D.Disk disk.old disk.new }
    ensures marks { Stays (D.marks disk.old) (D.marks disk.new) }
    ensures cause { HasCause OpenError.Fault (D.faults disk.old) (D.faults disk.new) result }
    ensures found { IsTrue (D.honest disk.old) → OnOk result
        (IsRestatement (take entry.prefix (D.held disk.old entry.file).reads) carry.new
        × IsCalled called.now (take entry.prefix (D.held disk.old entry.file).reads)
        × IsOctets (take entry.prefix (D.held disk.old entry.file).reads)) }
    ensures refused { IsTrue (D.honest disk.old) → (messages : List Accepted)
        → AreRead (take entry.prefix (D.held disk.old entry.file).reads) [] messages []
        → AreOf Section.Prefix messages → IsCalled called.now (take entry.prefix (D.held disk.old entry.file).reads)
        → IfErr result IsDeviceOrMemory }
{
    let count = entry.prefix as usize;
    lengthen(alloc, buffer, count)?;
    let octets = &mut buffer[..count];
    disk.read_into(entry.file, 0, octets)?;
    read_prefix(carry, alloc, called, entry.file, octets)
}

/// Reads a piece of a sealed segment from this place on, and takes in the messages that are whole in it.
fn take_piece<D: Disk>(
    carry: &mut Carry,
    alloc: Global,
    disk: &mut D,
    entry: Entry,
    at: u64,
    buffer: &mut Vec<u8>,
    span: &mut Option<PartSpan>,
) -> Result<Taken, OpenError>
    requires room { entry.length ≤ (D.marks disk.old entry.file).size }
    requires more { at < entry.length }
    ensures keeps { IsOnlyRead D.Disk disk.old disk.new }
    ensures marks { Stays (D.marks disk.old) (D.marks disk.new) }
    ensures cause { HasCause OpenError.Fault (D.faults disk.old) (D.faults disk.new) result }
    ensures some { IfOk result (λ taken. 0 < taken.octets) }
    ensures within { IfOk result (λ taken. at + taken.octets ≤ entry.length) }
    ensures few { IfOk result (λ taken. taken.messages ≤ taken.octets) }
    ensures noting { OnOk result (is_some span.new ≡ is_some span.old) }
    ensures found { IsTrue (D.honest disk.old) → IfOk result (AreTaken Section.Messages
        (drop at (take entry.length (D.held disk.old entry.file).reads)) carry.old carry.new span.old span.new) }
    ensures refused { IsTrue (D.honest disk.old) → (messages : List Accepted)
        → AreRead (drop at (take entry.length (D.held disk.old entry.file).reads)) carry.old.templates messages []
        → IfErr result IsDeviceOrMemory }
{
    let count = (entry.length - at).min(PIECE) as usize;
    lengthen(alloc, buffer, count)?;
    let octets = &mut buffer[..count];
    disk.read_into(entry.file, at, octets)?;
    let taken = take_whole(
        carry,
        alloc,
        octets,
        Section::Messages,
        entry.file,
        at,
        span,
    )?;
    if taken.octets == 0 {
        return Err(OpenError::Damaged(entry.file, at));
    }
    Ok(taken)
}

/// Takes in the messages of a sealed segment, after its prefix, counts them, and notes the starts of their flows, where
/// a span is given.
pub(crate) fn take_pieces<D: Disk>(
    carry: &mut Carry,
    alloc: Global,
    disk: &mut D,
    entry: Entry,
    buffer: &mut Vec<u8>,
    span: &mut Option<PartSpan>,
) -> Result<u64, OpenError>
    requires room { entry.length ≤ (D.marks disk.old entry.file).size }
    requires after { entry.prefix ≤ entry.length }
    ensures keeps { IsOnlyRead D.Disk disk.old disk.new }
    ensures cause { HasCause OpenError.Fault (D.faults disk.old) (D.faults disk.new) result }
    ensures noting { OnOk result (is_some span.new ≡ is_some span.old) }
    ensures found { IsTrue (D.honest disk.old) → IfOk result (λ count. (messages : List Accepted)
        × AreRead (drop entry.prefix (take entry.length (D.held disk.old entry.file).reads)) carry.old.templates
        messages [] × (carry.new ≡ carry_from carry.old messages) × (length messages ≡ count)
        × (span.new ≡ all_noted messages span.old) × IsOctets (joined (octets_of messages))) }
    ensures refused { IsTrue (D.honest disk.old) → (messages : List Accepted)
        → AreRead (drop entry.prefix (take entry.length (D.held disk.old entry.file).reads)) carry.old.templates
        messages [] → IfErr result IsDeviceOrMemory }
{
    let mut at = u64::from(entry.prefix);
    let mut count = 0;
    'pieces: while at < entry.length {
        let taken = take_piece(carry, alloc, disk, entry, at, buffer, span)?;
        at += taken.octets as u64;
        count += taken.messages;
    }
    Ok(count)
}
