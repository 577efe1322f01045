//! What the octets of an archive's files are: sums, and a chain of segments of accepted messages.

ghost use Rattle.std.specs.Prelude.{◌≡◌, ◌≢◌, ◌<◌, ◌≤◌, IsTrue, List, [], take, OnOk, IfOk, IfErr};
ghost use Rattle.flow_codec.specs.Fault.{IsOctets};
ghost use Rattle.flow_disk.specs.Cause.{HasCause};
ghost use Rattle.flow_measure.specs.History.{Accepted};
ghost use Rattle.flow_measure.specs.Sums.{Table};
ghost use Rattle.flow_rolled.specs.Rollup.{IsRollup};
ghost use Rattle.flow_rolled.specs.Spans.{HasSpan};
ghost use Rattle.flow_segment.specs.Carry.{no_carry, prefix_of, Carry};
ghost use Rattle.flow_segment.specs.Prefix.{AreRead};
ghost use Rattle.flow_model.specs.State.{Part};
ghost use Rattle.flow_recover.specs.Reading.{part_of};
ghost use Rattle.flow_model.specs.Chain.{IsSegment};
ghost use Rattle.flow_recover.specs.Opening.{IsDeviceOrMemory};
ghost use Rattle.flow_recover.specs.Reading.{AreOf, IsCalled, IsOnlyRead, IsRestatement};
ghost use Rattle.flow_segment.specs.Spans.{IsOwnSpan};
ghost use Rattle.flow_model.specs.Standing.{IsSealedAt};

use crate::active::ActiveSegment;
use crate::pieces::{lengthen, take_pieces, take_prefix};
use crate::segments::{Section, take_list, take_octets};
use flow_disk::Disk;
use flow_manifest::{Entry, OpenError};
use flow_measure::PartSpan;
use flow_rolled::{RolledError, decode_rows};
use flow_segment::Carry;
use std::alloc::Global;

/// Takes in a segment's prefix, which must be `called` if the segment isn't the first one.
pub(crate) fn read_prefix(
    carry: &mut Carry,
    alloc: Global,
    called: &Option<Vec<u8>>,
    file: u64,
    octets: &[u8],
) -> Result<(), OpenError>
    requires { carry.old ≡ no_carry 0 }
    ensures octets { IsOctets octets.now }
    ensures found { OnOk result (IsRestatement octets.now carry.new × IsCalled called.now octets.now) }
    ensures refused { (messages : List Accepted) → AreRead octets.now [] messages [] → AreOf Section.Prefix messages
        → IsCalled called.now octets.now → IfErr result (λ e. e ≡ OpenError.OutOfMemory) }
    ensures device { IfErr result (λ e. e ≢ OpenError.Fault) }
{
    take_octets(carry, alloc, octets, Section::Prefix, file, 0, &mut None)?;
    let Some(called) = called else {
        return Ok(());
    };
    if octets != called.as_slice() {
        return Err(OpenError::Damaged(file, 0));
    }
    Ok(())
}

/// Takes in the active segment.
fn take_active(
    carry: &mut Carry,
    alloc: Global,
    called: &Option<Vec<u8>>,
    active_entry: Entry,
    segment: &ActiveSegment,
) -> Result<(), OpenError>
    requires { carry.old ≡ no_carry 0 }
    ensures found { OnOk result (IsCalled called.now (part_of segment.now).front
        × IsSegment (part_of segment.now) carry.new) }
    ensures refused { (whole : Carry) → IsCalled called.now (part_of segment.now).front
        → IsSegment (part_of segment.now) whole → IfErr result (λ e. e ≡ OpenError.OutOfMemory) }
    ensures device { IfErr result (λ e. e ≢ OpenError.Fault) }
{
    read_prefix(
        carry,
        alloc,
        called,
        active_entry.file,
        segment.prefix.as_slice(),
    )?;
    let place = u64::from(active_entry.prefix);
    take_list(
        carry,
        alloc,
        segment.messages.as_slice(),
        active_entry.file,
        place,
    )?;
    Ok(())
}

/// The carry that the active segment passes on; its prefix must be `called` if it isn't the first segment.
pub(crate) fn read_segment(
    alloc: Global,
    called: &Option<Vec<u8>>,
    active_entry: Entry,
    segment: &ActiveSegment,
) -> Result<Carry, OpenError>
    ensures found { IfOk result (λ carry. IsCalled called.now (part_of segment.now).front
        × IsSegment (part_of segment.now) carry) }
    ensures refused { (whole : Carry) → IsCalled called.now (part_of segment.now).front
        → IsSegment (part_of segment.now) whole → IfErr result (λ e. e ≡ OpenError.OutOfMemory) }
    ensures device { IfErr result (λ e. e ≢ OpenError.Fault) }
{
    let mut carry = Carry::new(alloc);
    take_active(&mut carry, alloc, called, active_entry, segment)?;
    Ok(carry)
}

/// Reads a sealed segment and takes it in, and answers when its flows start.
fn take_sealed<D: Disk>(
    carry: &mut Carry,
    alloc: Global,
    disk: &mut D,
    called: &Option<Vec<u8>>,
    entry: Entry,
    buffer: &mut Vec<u8>,
) -> Result<PartSpan, OpenError>
    requires new { carry.old ≡ no_carry 0 }
    requires room { entry.length ≤ (D.marks disk.old entry.file).size }
    ensures keeps { IsOnlyRead D.Disk disk.old disk.new }
    ensures cause { HasCause OpenError.Fault (D.faults disk.old) (D.faults disk.new) result }
    ensures found { IsTrue (D.honest disk.old) → IfOk result (λ span. (p : Part)
        × IsSealedAt (take entry.length (D.held disk.old entry.file).reads) entry p × IsCalled called.now p.front
        × IsSegment p carry.new × IsOwnSpan p.front p.messages span) }
    ensures refused { IsTrue (D.honest disk.old) → (p : Part) (whole : Carry)
        → IsSealedAt (take entry.length (D.held disk.old entry.file).reads) entry p → IsCalled called.now p.front
        → IsSegment p whole → IfErr result IsDeviceOrMemory }
{
    if u64::from(entry.prefix) > entry.length {
        return Err(OpenError::Damaged(entry.file, entry.length));
    }
    take_prefix(carry, alloc, disk, called, entry, buffer)?;
    let mut noted = Some(PartSpan::none());
    let count = take_pieces(carry, alloc, disk, entry, buffer, &mut noted)?;
    if count != entry.messages {
        return Err(OpenError::Damaged(entry.file, entry.length));
    }
    let Some(span) = noted else { unreachable!() };
    Ok(span)
}

/// Takes a sealed segment in, after nothing: the prefix that the segment after it must have, and when its flows start.
fn read_taken<D: Disk>(
    carry: &mut Carry,
    alloc: Global,
    disk: &mut D,
    called: &Option<Vec<u8>>,
    entry: Entry,
    buffer: &mut Vec<u8>,
) -> Result<(Vec<u8>, PartSpan), OpenError>
    requires new { carry.old ≡ no_carry 0 }
    requires room { entry.length ≤ (D.marks disk.old entry.file).size }
    ensures keeps { IsOnlyRead D.Disk disk.old disk.new }
    ensures cause { HasCause OpenError.Fault (D.faults disk.old) (D.faults disk.new) result }
    ensures found { IsTrue (D.honest disk.old) → IfOk result (λ r. (p : Part) × (carry : Carry)
        × IsSealedAt (take entry.length (D.held disk.old entry.file).reads) entry p × IsCalled called.now p.front
        × IsSegment p carry × IsOwnSpan p.front p.messages r.1 × (r.0.items ≡ prefix_of carry)) }
    ensures refused { IsTrue (D.honest disk.old) → (p : Part) (whole : Carry)
        → IsSealedAt (take entry.length (D.held disk.old entry.file).reads) entry p → IsCalled called.now p.front
        → IsSegment p whole → IfErr result IsDeviceOrMemory }
{
    let span = take_sealed(carry, alloc, disk, called, entry, buffer)?;
    let next = carry.prefix(alloc)?;
    Ok((next, span))
}

/// The prefix that the segment after a sealed one must have, and when the flows of the sealed one start. The sealed
/// one's own prefix must be `called` if it isn't the first segment.
pub(crate) fn read_sealed<D: Disk>(
    alloc: Global,
    disk: &mut D,
    called: &Option<Vec<u8>>,
    entry: Entry,
    buffer: &mut Vec<u8>,
) -> Result<(Vec<u8>, PartSpan), OpenError>
    requires { entry.length ≤ (D.marks disk.old entry.file).size }
    ensures keeps { IsOnlyRead D.Disk disk.old disk.new }
    ensures cause { HasCause OpenError.Fault (D.faults disk.old) (D.faults disk.new) result }
    ensures found { IsTrue (D.honest disk.old) → IfOk result (λ r. (p : Part) × (carry : Carry)
        × IsSealedAt (take entry.length (D.held disk.old entry.file).reads) entry p × IsCalled called.now p.front
        × IsSegment p carry × IsOwnSpan p.front p.messages r.1 × (r.0.items ≡ prefix_of carry)) }
    ensures refused { IsTrue (D.honest disk.old) → (p : Part) (whole : Carry)
        → IsSealedAt (take entry.length (D.held disk.old entry.file).reads) entry p → IsCalled called.now p.front
        → IsSegment p whole → IfErr result IsDeviceOrMemory }
{
    let mut carry = Carry::new(alloc);
    let read = read_taken(&mut carry, alloc, disk, called, entry, buffer);
    drop(carry);
    read
}

/// Looks whether octets are the rolled file of some sums by a width, and answers when their intervals start.
fn read_rolled(alloc: Global, width: u32, file: u64, octets: &[u8]) -> Result<PartSpan, OpenError>
    requires { 0 < width }
    ensures found { IfOk result (λ span. HasSpan (record { width = width; span = span }) octets.now) }
    ensures refused { (table : Table) → IsRollup width octets.now table
        → IfErr result (λ e. e ≡ OpenError.OutOfMemory) }
    ensures device { IfErr result (λ e. e ≢ OpenError.Fault) }
{
    match decode_rows(alloc, octets, width) {
        Ok(rows) => Ok(rows.span()),
        Err(fault) => Err(told(fault, file)),
    }
}

/// The refusal of octets that are no rolled file.
fn told(fault: RolledError, file: u64) -> OpenError
    ensures memory { fault ≡ RolledError.OutOfMemory → result ≡ OpenError.OutOfMemory }
    ensures device { result ≢ OpenError.Fault }
{
    match fault {
        RolledError::NotRolled(at) => OpenError::Damaged(file, at as u64),
        RolledError::OutOfMemory => OpenError::OutOfMemory,
    }
}

/// Reads a file of sums by a width whole, looks at it, and answers when its intervals start.
pub(crate) fn read_sums<D: Disk>(
    alloc: Global,
    disk: &mut D,
    width: u32,
    entry: Entry,
    buffer: &mut Vec<u8>,
) -> Result<PartSpan, OpenError>
    requires width { 0 < width }
    requires room { entry.length ≤ (D.marks disk.old entry.file).size }
    ensures keeps { IsOnlyRead D.Disk disk.old disk.new }
    ensures cause { HasCause OpenError.Fault (D.faults disk.old) (D.faults disk.new) result }
    ensures found { IsTrue (D.honest disk.old) → IfOk result (λ span. HasSpan (record { width = width; span = span })
        (take entry.length (D.held disk.old entry.file).reads)) }
    ensures refused { IsTrue (D.honest disk.old) → (table : Table)
        → IsRollup width (take entry.length (D.held disk.old entry.file).reads) table → IfErr result IsDeviceOrMemory }
{
    let count = entry.length as usize;
    lengthen(alloc, buffer, count)?;
    let octets = &mut buffer[..count];
    disk.read_into(entry.file, 0, octets)?;
    read_rolled(alloc, width, entry.file, octets)
}
