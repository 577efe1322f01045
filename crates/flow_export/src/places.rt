//! Between which of the kept messages those of a span are.

ghost use Rattle.std.specs.Prelude.{◌≡◌, ◌≢◌, ◌+◌, ◌++◌, ◌≤◌, ℕ, List, length, min, IfErr, IsTrue};
ghost use Rattle.std.specs.Option.{option_map_or};
ghost use Rattle.flow_codec.specs.Templates.{AllTemplates};
ghost use Rattle.flow_disk.specs.Cause.{HasCause};
ghost use Rattle.flow_export.specs.Span.{IsFound};
ghost use Rattle.flow_measure.specs.History.{Accepted, AreAcceptedFrom};
ghost use Rattle.flow_measure.specs.View.{View};
ghost use Rattle.flow_model.specs.Views.{IsViewOf};
ghost use Rattle.flow_segment.specs.Carry.{octets_of};
ghost use Rattle.flow_segment.specs.Prefix.{IsRestated};
ghost use Rattle.flow_snapshot.specs.Answered.{IsAnswered};
ghost use Rattle.flow_snapshot.specs.Files.{is_honest, segment_of};
ghost use Rattle.flow_snapshot.specs.Parts.{file_of, is_honest_part};

use crate::finding::{Found, find_in};
use crate::reading::read_own;
use crate::restating::message_count;
use crate::starting::TimeSpan;
use bytes::Bytes;
use flow_disk::{Faults, SealedFile};
use flow_refusals::ReadRefusal;
use flow_segment::SealedPart;
use flow_snapshot::{KeptPart, Snapshot, restated};
use std::alloc::Global;

/// Finds the messages of a span in a sealed segment. One that is known to have none isn't read.
fn find_sealed<S: SealedFile>(
    alloc: Global,
    part: &SealedPart<S>,
    span: TimeSpan,
    faults: &mut Faults<S>,
) -> Result<Option<Found>, ReadRefusal>
    ensures cause { HasCause ReadRefusal.Fault faults.old faults.new result }
    ensures given { IsTrue (is_honest part.now) → (before : AllTemplates) (list : List Accepted)
        → IsRestated (segment_of part.now).prefix before → AreAcceptedFrom before list
        → octets_of list ≡ (segment_of part.now).messages → IsAnswered (IsFound span.from span.to list) result }
{
    if part.is_outside(1, span.from, span.to) {
        return Ok(None);
    }
    let mut own = read_own(alloc, part, faults)?;
    let file = part.reader.file();
    let messages = own.messages.as_slice();
    find_in(alloc, &mut own.templates, messages, file, part.prefix, span)
}

/// The same of messages in memory, and of a prefix.
fn find_active(
    alloc: Global,
    prefix: &[u8],
    messages: &[Bytes],
    span: TimeSpan,
) -> Result<Option<Found>, ReadRefusal>
    ensures given { (before : AllTemplates) (list : List Accepted) → IsRestated prefix.now before
        → AreAcceptedFrom before list → octets_of list ≡ messages.now
        → IsAnswered (IsFound span.from span.to list) result }
    ensures quiet { IfErr result (λ e. e ≢ ReadRefusal.Fault) }
{
    let mut templates = restated(alloc, prefix)?;
    find_in(
        alloc,
        &mut templates,
        messages,
        0,
        prefix.len() as u64,
        span,
    )
}

/// Finds the messages of a span in a file. One that is known to have none isn't read.
fn find_part<S: SealedFile>(
    alloc: Global,
    part: KeptPart<'_, S>,
    span: TimeSpan,
    faults: &mut Faults<S>,
) -> Result<Option<Found>, ReadRefusal>
    ensures cause { HasCause ReadRefusal.Fault faults.old faults.new result }
    ensures given { IsTrue (is_honest_part part.entry) → (before : AllTemplates) (list : List Accepted)
        → IsRestated (file_of part.entry).prefix before → AreAcceptedFrom before list
        → octets_of list ≡ (file_of part.entry).messages → IsAnswered (IsFound span.from span.to list) result }
{
    match part {
        KeptPart::Sealed(part) => find_sealed(alloc, part, span, faults),
        KeptPart::Active(prefix, messages) => find_active(alloc, prefix, messages, span),
    }
}

/// What is found of messages, so many, and of others after them, where some of these have a flow of the span.
fn found_later(found: Option<Found>, count: u64, more: Found) -> Found
    ensures before { result.before ≡ option_map_or (λ f. f.before) found
        (min (count + more.before) 18446744073709551615) }
    ensures upto { result.upto ≡ min (count + more.upto) 18446744073709551615 }
{
    let before = match found {
        Some(found) => found.before,
        None => count.saturating_add(more.before),
    };
    Found {
        before,
        upto: count.saturating_add(more.upto),
    }
}

/// What is found of messages, so many, and of others after them.
fn found_in_both(found: Option<Found>, count: u64, more: Option<Found>) -> Option<Found>
    ensures { (xs ys : List Accepted) (from to : ℕ) → count ≡ length xs
        → length xs + length ys ≤ 18446744073709551615 → IsFound from to xs found → IsFound from to ys more
        → IsFound from to (xs ++ ys) result }
{
    match more {
        Some(more) => Some(found_later(found, count, more)),
        None => found,
    }
}

/// Finds the messages of a span among the kept ones, one file after the other. Out of memory is answered where there
/// are more of them than numbers.
pub(crate) fn find_span<S: SealedFile>(
    alloc: Global,
    snapshot: &Snapshot<S>,
    span: TimeSpan,
    faults: &mut Faults<S>,
) -> Result<Option<Found>, ReadRefusal>
    ensures cause { HasCause ReadRefusal.Fault faults.old faults.new result }
    ensures given { IsTrue snapshot.now.honest → (v : View) → IsViewOf snapshot.now.shelf v
        → IsAnswered (IsFound span.from span.to v.kept) result }
{
    let mut found = None;
    let mut count: u64 = 0;
    let files = snapshot.kept_files();
    for at in 0..files {
        let own = message_count(snapshot.kept_part(at));
        let Some(all) = count.checked_add(own) else {
            return Err(ReadRefusal::OutOfMemory);
        };
        let more = find_part(alloc, snapshot.kept_part(at), span, faults)?;
        found = found_in_both(found, count, more);
        count = all;
    }
    Ok(found)
}
