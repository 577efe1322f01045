//! What the files of an archive hold.

ghost use Rattle.std.specs.Prelude.{◌≡◌, ◌≢◌, ℕ, ◌+◌, ◌^◌, ◌<◌, ◌≤◌, map, true, false, IsTrue, List, [], length, OnOk};
ghost use Rattle.std.specs.Prelude.{IfOk, IfErr, IfSome, IfNone, Option, None, vec_len};
ghost use Rattle.std.specs.List.{All, AllByRecursion, sum_by};
ghost use Rattle.flow_disk.specs.Disk.{IsDiskImage, Stays};
ghost use Rattle.flow_disk.specs.Calls.{LeavesOnly};
ghost use Rattle.flow_gate.specs.Gate.{IsWhole, octet_sum, IsRow, IsMessageAt};
ghost use Rattle.flow_gate.specs.Scan.{texts};
ghost use Rattle.flow_manifest.specs.declared.manifest.Entry.{Entry};
ghost use Rattle.flow_manifest.specs.Manifest.{IsValidManifest};
ghost use Rattle.flow_manifest.specs.Slots.{reads_of};
ghost use Rattle.flow_disk.specs.Cause.{HasCause};
ghost use Rattle.flow_manifest.specs.Limits.{too_many_messages};
ghost use Rattle.flow_model.specs.State.{Part, State, at_rest};
ghost use Rattle.flow_recover.specs.Reading.{part_of};
ghost use Rattle.flow_model.specs.Standing.{StandsAs, IsActiveAt, IsWithinLimits, HoldsFiles, PartsStand};
ghost use Rattle.flow_manifest.specs.Following.{active_of, front_of, messages_of};
ghost use Rattle.flow_recover.specs.Kept.{IsCounted};
ghost use Rattle.flow_model.specs.Chain.{ArePartsBehind, HandsOn, IsPartBehind, IsSegment};
ghost use Rattle.flow_recover.specs.Reading.{IsHeldBehind, IsOnlyRead};
ghost use Rattle.flow_recover.specs.Opening.{IsDeviceOrMemory};
ghost use Rattle.flow_recover.specs.Spans.{AreSpansOf, IsSpanOf};
ghost use Rattle.flow_segment.specs.Carry.{Carry};

use crate::active::ActiveSegment;
use crate::chaining::{read_sealed, read_segment, read_sums};
use flow_disk::Disk;
use flow_gate::scan;
use flow_manifest::{Entry, Kind, MOST_MESSAGES, Manifest, OpenError};
use flow_measure::PartSpan;
use flow_segment::Carry;
use std::alloc::Global;

/// One more than the most messages of an archive.
const TOO_MANY_MESSAGES: u64 = MOST_MESSAGES + 1;

/// What the files of an archive hold.
#[derive(Drop)]
pub(crate) struct Files {
    /// The active segment.
    pub(crate) active: ActiveSegment,
    /// The place of the closed gate after its messages.
    pub(crate) end: u64,
    /// How many messages there are in all.
    pub(crate) total: u64,
    /// The carry that the active segment passes on.
    pub(crate) carry: Carry,
    /// When the flows of each file before the active one start.
    pub(crate) spans: Vec<PartSpan>,
}

/// Reads each file that a manifest names. It only reads.
pub(crate) fn read_files<D: Disk>(
    alloc: Global,
    disk: &mut D,
    manifest: &Manifest,
    active_entry: Entry,
) -> Result<Files, OpenError>
    requires valid { IsValidManifest manifest.now }
    requires active_entry { active_entry ≡ active_of manifest.now }
    // On every disk.
    ensures keeps { IsOnlyRead D.Disk disk.old disk.new }
    ensures counted { IfOk result (λ f. (parts : List Part)
        → IsCounted (at_rest manifest.now parts (part_of f.active)) active_entry f.end f.total) }
    ensures small { IfOk result (λ f. f.end + 2 < 2 ^ 64) }
    ensures segment { IfOk result (λ f. IsSegment (part_of f.active) f.carry) }
    ensures cause { HasCause OpenError.Fault (D.faults disk.old) (D.faults disk.new) result }

    // On an honest one: what the files hold, where they hold an archive's.
    ensures found { IsTrue (D.honest disk.old) → IfOk result (λ f. (parts : List Part)
        × HoldsFiles (reads_of (D.held disk.old)) (at_rest manifest.now parts (part_of f.active))
        × HandsOn (at_rest manifest.now parts (part_of f.active)) f.carry) }
    ensures refused { IsTrue (D.honest disk.old) → (s : State) → s.manifest ≡ manifest.now
        → HoldsFiles (reads_of (D.held disk.old)) s → IfErr result IsDeviceOrMemory }
    ensures spanned { IsTrue (D.honest disk.old) → IfOk result (λ f. AreSpansOf (reads_of (D.held disk.old))
        manifest.now (front_of manifest.now) f.spans.items) }
{
    let entries = manifest.entries.as_slice();
    let mut spans = Vec::new(alloc);
    let before = &entries[..entries.len() - 1];
    let called = read_entries(alloc, disk, manifest, before, &mut spans)?;
    let (active, end) = read_active(alloc, disk, active_entry)?;
    let carry = read_segment(alloc, &called, active_entry, &active)?;
    let limit = u64::from(active_entry.prefix) + u64::from(manifest.limit);
    if end > limit {
        return Err(OpenError::Damaged(active_entry.file, u64::from(active_entry.prefix)));
    }
    let Some(total) = total_of(entries, active.messages.len()) else {
        return Err(OpenError::Damaged(active_entry.file, u64::from(active_entry.prefix)));
    };
    Ok(Files {
        active,
        end,
        total,
        carry,
        spans,
    })
}

/// How many messages an archive has, if they are not too many.
fn total_of(entries: &[Entry], count: usize) -> Option<u64>
    requires { messages_of entries.now < too_many_messages }
    ensures found { IfSome result (λ total. (total ≡ messages_of entries.now + count) × (total < too_many_messages)) }
    ensures none { IfNone result (too_many_messages ≤ messages_of entries.now + count) }
{
    let mut total = 0;
    for entry in entries {
        total += entry.messages;
    }
    if count as u64 >= TOO_MANY_MESSAGES {
        return None;
    }
    let total = total + count as u64;
    if total >= TOO_MANY_MESSAGES {
        return None;
    }
    Some(total)
}

/// Reads the active file.
fn read_active<D: Disk>(
    alloc: Global,
    disk: &mut D,
    active_entry: Entry,
) -> Result<(ActiveSegment, u64), OpenError>
    requires { 3 ≤ active_entry.file }
    ensures honest { D.honest disk.new ≡ D.honest disk.old }
    ensures settled { (n : ℕ) → (D.marks disk.new n).settled ≡ (D.marks disk.old n).settled }
    ensures frozen { (n : ℕ) → (D.marks disk.new n).frozen ≡ (D.marks disk.old n).frozen }
    ensures listed { (n : ℕ) → (D.marks disk.new n).listed ≡ (D.marks disk.old n).listed }
    ensures slots { (n : ℕ) → n < 3 → D.marks disk.new n ≡ D.marks disk.old n }
    ensures ends { IfOk result (λ r. (r.1 ≡ active_entry.prefix + octet_sum (part_of r.0).messages)
        × (r.1 + 2 < 2 ^ 64)) }
    ensures whole { IfOk result (λ r. All IsWhole (part_of r.0).messages) }
    ensures cause { HasCause OpenError.Fault (D.faults disk.old) (D.faults disk.new) result }
    ensures held { IsTrue (D.honest disk.old) → Stays (D.held disk.old) (D.held disk.new) }
    ensures any_moment { IsTrue (D.honest disk.old)
        → LeavesOnly D.Disk disk.old disk.new (IsDiskImage (D.held disk.old)) }
    ensures found { IsTrue (D.honest disk.old) → IfOk result (λ r. IsActiveAt (D.held disk.old active_entry.file).reads
        active_entry
        (part_of r.0)) }
    ensures refused { IsTrue (D.honest disk.old) → (p : Part)
        → IsActiveAt (D.held disk.old active_entry.file).reads active_entry p
        → IfErr result IsDeviceOrMemory }
{
    let start = u64::from(active_entry.prefix);
    let size = disk.length(active_entry.file)?;
    if start > size {
        return Err(OpenError::Damaged(active_entry.file, size));
    }
    let tail = scan(alloc, disk, active_entry.file, start)?;
    let prefix = disk.read(alloc, active_entry.file, 0, active_entry.prefix as usize)?;
    let segment = ActiveSegment {
        prefix,
        messages: tail.messages,
    };
    Ok((segment, tail.end))
}

/// Reads and checks the files before the active one. Answers the prefix that the active segment must have, if a segment
/// is before it, and appends to `spans` when the flows of each file start.
fn read_entries<D: Disk>(
    alloc: Global,
    disk: &mut D,
    manifest: &Manifest,
    entries: &[Entry],
    spans: &mut Vec<PartSpan>,
) -> Result<Option<Vec<u8>>, OpenError>
    requires width { 0 < manifest.now.width }
    requires wide { 0 < manifest.now.wide }
    requires files { AllByRecursion (λ (e : Entry). 3 ≤ e.file) entries.now }
    ensures keeps { IsOnlyRead D.Disk disk.old disk.new }
    ensures cause { HasCause OpenError.Fault (D.faults disk.old) (D.faults disk.new) result }
    ensures found { IsTrue (D.honest disk.old) → IfOk result (λ called. (parts : List Part) × (after : Option Carry)
        × PartsStand (reads_of (D.held disk.old)) entries.now parts
        × ArePartsBehind manifest.now None entries.now parts after × IsHeldBehind after called) }
    ensures refused { IsTrue (D.honest disk.old) → (parts : List Part) (after : Option Carry)
        → PartsStand (reads_of (D.held disk.old)) entries.now parts
        → ArePartsBehind manifest.now None entries.now parts after → IfErr result IsDeviceOrMemory }
    ensures spanned { IsTrue (D.honest disk.old) → spans.old.items ≡ [] → OnOk result (AreSpansOf
        (reads_of (D.held disk.old)) manifest.now entries.now spans.new.items) }
{
    let mut called = None;
    let mut buffer = Vec::new(alloc);
    'entries: for entry in entries {
        let read = read_part(alloc, disk, manifest, called, *entry, &mut buffer)?;
        called = read.called;
        spans.push(read.span)?;
    }
    Ok(called)
}

/// What the checking of the files before the active one gives.
#[derive(Drop)]
struct Checked {
    /// The prefix that the next segment must have, if a segment is before it.
    called: Option<Vec<u8>>,
    /// When the flows of the last file start.
    span: PartSpan,
}

/// Reads and checks the file of an entry. `called` is the prefix that the next segment must have, if a segment is
/// before it; the answer is the same after this file. The file, or a piece of a sealed segment after the other, is read
/// into `buffer`, which grows where it is shorter: so one buffer serves all files, and is filled with zeros only where
/// it grows.
fn read_part<D: Disk>(
    alloc: Global,
    disk: &mut D,
    manifest: &Manifest,
    called: Option<Vec<u8>>,
    entry: Entry,
    buffer: &mut Vec<u8>,
) -> Result<Checked, OpenError>
    requires width { 0 < manifest.now.width }
    requires wide { 0 < manifest.now.wide }
    requires file { 3 ≤ entry.file }
    ensures keeps { IsOnlyRead D.Disk disk.old disk.new }
    ensures cause { HasCause OpenError.Fault (D.faults disk.old) (D.faults disk.new) result }
    ensures found { IsTrue (D.honest disk.old) → (before : Option Carry) → IsHeldBehind before called
        → IfOk result (λ read. (p : Part) × (after : Option Carry)
        × StandsAs entry.kind (D.held disk.old entry.file).reads entry p
        × IsPartBehind manifest.now entry.kind before p after × IsHeldBehind after read.called) }
    ensures spanned { IsTrue (D.honest disk.old) → IfOk result (λ read. (p : Part)
        → StandsAs entry.kind (D.held disk.old entry.file).reads entry p
        → IsSpanOf manifest.now entry.kind p read.span) }
    ensures refused { IsTrue (D.honest disk.old) → (before : Option Carry) → IsHeldBehind before called
        → (p : Part) (after : Option Carry)
        → StandsAs entry.kind (D.held disk.old entry.file).reads entry p
        → IsPartBehind manifest.now entry.kind before p after → IfErr result IsDeviceOrMemory }
{
    let size = disk.length(entry.file)?;
    if entry.length > size {
        return Err(OpenError::Damaged(entry.file, size));
    }
    match entry.kind {
        Kind::Wide => {
            let span = read_sums(alloc, disk, manifest.wide, entry, buffer)?;
            Ok(Checked { called, span })
        }
        Kind::Rolled => {
            let span = read_sums(alloc, disk, manifest.width, entry, buffer)?;
            Ok(Checked { called, span })
        }
        Kind::Sealed => {
            let (next, span) = read_sealed(alloc, disk, &called, entry, buffer)?;
            Ok(Checked {
                called: Some(next),
                span,
            })
        }
        Kind::Active => Err(OpenError::Damaged(entry.file, 0)),
    }
}
