//! The messages of a span, written as they are.

ghost use Rattle.std.specs.Prelude.{◌≡◌, ◌≢◌, ◌≤◌, ◌-◌, ◌&&◌, ◌||◌, ℕ, List, [], length, nat_le, slice_get, Some};
ghost use Rattle.std.specs.Prelude.{if◌then◌else◌, IfErr, IsTrue, OnErr, OnOk};
ghost use Rattle.std.specs.Io.KnownBytes.{Appends};
ghost use Rattle.flow_codec.specs.Cutting.{IsCutOff};
ghost use Rattle.flow_codec.specs.Templates.{AllTemplates};
ghost use Rattle.flow_disk.specs.Cause.{HasCause};
ghost use Rattle.flow_export.specs.declared.refusal.ExportRefusal.TheVariants as refusal;
ghost use Rattle.flow_export.specs.Export.{IsBlameless, Writes, WritesSome, WritesUpTo};
ghost use Rattle.flow_export.specs.Span.{holds_templates, text_between, AreSpanMessages, IsSomeSpanExport};
ghost use Rattle.flow_export.specs.Span.{IsFound, IsMessageOfSpan, IsSpanExportOf};
ghost use Rattle.flow_measure.specs.History.{Accepted, AreAcceptedFrom};
ghost use Rattle.flow_measure.specs.View.{View};
ghost use Rattle.flow_model.specs.Views.{IsViewOf};
ghost use Rattle.flow_report.specs.Writing.{AppendsFront};
ghost use Rattle.flow_segment.specs.Carry.{octets_of};
ghost use Rattle.flow_segment.specs.Prefix.{IsRestated};
ghost use Rattle.flow_snapshot.specs.Files.{is_honest, segment_of};
ghost use Rattle.flow_snapshot.specs.Found.{kept_by_file, KeptFile};
ghost use Rattle.flow_snapshot.specs.Parts.{file_of, is_honest_part};

use crate::exporting::carry_before;
use crate::finding::Found;
use crate::places::find_span;
use crate::reading::read_own;
use crate::refusal::ExportRefusal;
use crate::restating::{message_count, write_restated, write_templates};
use crate::sets::holds_templates;
use crate::starting::{TimeSpan, has_flow};
use crate::whole::write_whole;
use bytes::Bytes;
use flow_codec::Templates;
use flow_disk::{Faults, SealedFile};
use flow_refusals::ReadRefusal;
use flow_report::Patience;
use flow_segment::SealedPart;
use flow_snapshot::{KeptPart, Snapshot, restated};
use std::alloc::Global;
use std::io::Write;

/// Which of a list of messages are asked for: those after the first `skip`, and among the first `end`.
#[derive(Clone, Copy)]
struct Asked {
    skip: u64,
    end: u64,
    span: TimeSpan,
}

/// Whether the message at a place is written, where it is known whether it has a flow of the span.
fn is_chosen(asked: Asked, index: u64, has: bool, octets: &[u8]) -> bool
    ensures { result ≡ (nat_le asked.skip index && (has || holds_templates octets.now)) }
{
    asked.skip <= index && (has || holds_templates(octets))
}

/// Writes a message of a file, where it is chosen.
fn write_if<W: Write>(
    chosen: bool,
    file: u64,
    octets: &[u8],
    output: &mut W,
    patience: &mut Patience,
) -> Result<(), ExportRefusal>
    // Whatever the octets are, where those that are chosen are a message of a span: whole ones, or a prefix of such.
    ensures whole { (from to : ℕ) → (IsTrue chosen → IsMessageOfSpan from to octets.now) → OnOk result
        (Writes (AreSpanMessages from to) (W.contents output.old) (W.contents output.new)) }
    ensures part { (from to : ℕ) → (IsTrue chosen → IsMessageOfSpan from to octets.now) → OnErr result
        (WritesSome (AreSpanMessages from to) (W.contents output.old) (W.contents output.new)) }
    ensures all { OnOk result (Appends (W.contents output.old) (W.contents output.new)
        (if chosen then octets.now else [])) }
    ensures some { OnErr result (AppendsFront (W.contents output.old) (W.contents output.new)
        (if chosen then octets.now else [])) }
    ensures blameless { IsCutOff octets.now → IfErr result IsBlameless }
    ensures quiet { IfErr result (λ e. e ≢ refusal.Query ReadRefusal.Fault) }
{
    if !chosen {
        return Ok(());
    }
    write_whole(file, octets, output, patience)
}

/// Writes messages of a file, the first of which is at this place: of those that are asked for the ones that have a
/// flow of the span, or hold Sets of template records.
fn write_chosen<W: Write>(
    alloc: Global,
    templates: &mut Templates,
    messages: &[Bytes],
    file: u64,
    from: u64,
    asked: Asked,
    output: &mut W,
    patience: &mut Patience,
) -> Result<(), ExportRefusal>
    // On every disk: whole messages of the span, or a prefix of such.
    ensures whole { OnOk result (Writes (AreSpanMessages asked.span.from asked.span.to) (W.contents output.old)
        (W.contents output.new)) }
    ensures part { OnErr result (WritesSome (AreSpanMessages asked.span.from asked.span.to) (W.contents output.old)
        (W.contents output.new)) }
    // Of accepted ones just these, or a prefix of them.
    ensures all { (list : List Accepted) → AreAcceptedFrom templates.old list → octets_of list ≡ messages.now
        → OnOk result (Appends (W.contents output.old) (W.contents output.new)
        (text_between asked.span.from asked.span.to asked.skip asked.end list)) }
    ensures some { (list : List Accepted) → AreAcceptedFrom templates.old list → octets_of list ≡ messages.now
        → OnErr result (AppendsFront (W.contents output.old) (W.contents output.new)
        (text_between asked.span.from asked.span.to asked.skip asked.end list)) }
    ensures blameless { (list : List Accepted) → AreAcceptedFrom templates.old list → octets_of list ≡ messages.now
        → IfErr result IsBlameless }
    ensures quiet { IfErr result (λ e. e ≢ refusal.Query ReadRefusal.Fault) }
{
    let end = asked.end.min(messages.len() as u64);
    let first = &messages[..end as usize];
    let mut at = from;
    for index in 0..first.len() {
        let octets = first[index].as_slice();
        let has = has_flow(alloc, templates, octets, file, at, asked.span)?;
        let chosen = is_chosen(asked, index as u64, has, octets);
        write_if(chosen, file, octets, output, patience)?;
        at = at.saturating_add(octets.len() as u64);
    }
    Ok(())
}

/// The same of a sealed segment, which is read.
fn write_sealed<S: SealedFile, W: Write>(
    alloc: Global,
    part: &SealedPart<S>,
    asked: Asked,
    output: &mut W,
    patience: &mut Patience,
    faults: &mut Faults<S>,
) -> Result<(), ExportRefusal>
    ensures whole { OnOk result (Writes (AreSpanMessages asked.span.from asked.span.to) (W.contents output.old)
        (W.contents output.new)) }
    ensures part { OnErr result (WritesSome (AreSpanMessages asked.span.from asked.span.to) (W.contents output.old)
        (W.contents output.new)) }
    ensures all { IsTrue (is_honest part.now) → (before : AllTemplates) (list : List Accepted)
        → IsRestated (segment_of part.now).prefix before → AreAcceptedFrom before list
        → octets_of list ≡ (segment_of part.now).messages → OnOk result (Appends (W.contents output.old)
        (W.contents output.new) (text_between asked.span.from asked.span.to asked.skip asked.end list)) }
    ensures some { IsTrue (is_honest part.now) → (before : AllTemplates) (list : List Accepted)
        → IsRestated (segment_of part.now).prefix before → AreAcceptedFrom before list
        → octets_of list ≡ (segment_of part.now).messages → OnErr result (AppendsFront (W.contents output.old)
        (W.contents output.new) (text_between asked.span.from asked.span.to asked.skip asked.end list)) }
    ensures given { IsTrue (is_honest part.now) → (before : AllTemplates) (list : List Accepted)
        → IsRestated (segment_of part.now).prefix before → AreAcceptedFrom before list
        → octets_of list ≡ (segment_of part.now).messages → IfErr result IsBlameless }
    ensures cause { HasCause (refusal.Query ReadRefusal.Fault) faults.old faults.new result }
{
    let mut own = read_own(alloc, part, faults)?;
    let file = part.reader.file();
    let messages = own.messages.as_slice();
    write_chosen(
        alloc,
        &mut own.templates,
        messages,
        file,
        part.prefix,
        asked,
        output,
        patience,
    )
}

/// The same of messages in memory, and of a prefix.
fn write_active<W: Write>(
    alloc: Global,
    prefix: &[u8],
    messages: &[Bytes],
    asked: Asked,
    output: &mut W,
    patience: &mut Patience,
) -> Result<(), ExportRefusal>
    ensures whole { OnOk result (Writes (AreSpanMessages asked.span.from asked.span.to) (W.contents output.old)
        (W.contents output.new)) }
    ensures part { OnErr result (WritesSome (AreSpanMessages asked.span.from asked.span.to) (W.contents output.old)
        (W.contents output.new)) }
    ensures all { (before : AllTemplates) (list : List Accepted) → IsRestated prefix.now before
        → AreAcceptedFrom before list → octets_of list ≡ messages.now → OnOk result (Appends
        (W.contents output.old) (W.contents output.new)
        (text_between asked.span.from asked.span.to asked.skip asked.end list)) }
    ensures some { (before : AllTemplates) (list : List Accepted) → IsRestated prefix.now before
        → AreAcceptedFrom before list → octets_of list ≡ messages.now → OnErr result (AppendsFront
        (W.contents output.old) (W.contents output.new)
        (text_between asked.span.from asked.span.to asked.skip asked.end list)) }
    ensures given { (before : AllTemplates) (list : List Accepted) → IsRestated prefix.now before
        → AreAcceptedFrom before list → octets_of list ≡ messages.now → IfErr result IsBlameless }
    ensures quiet { IfErr result (λ e. e ≢ refusal.Query ReadRefusal.Fault) }
{
    let mut templates = restated(alloc, prefix)?;
    write_chosen(
        alloc,
        &mut templates,
        messages,
        0,
        prefix.len() as u64,
        asked,
        output,
        patience,
    )
}

/// The same of a file with kept messages.
fn write_chosen_part<S: SealedFile, W: Write>(
    alloc: Global,
    part: KeptPart<'_, S>,
    asked: Asked,
    output: &mut W,
    patience: &mut Patience,
    faults: &mut Faults<S>,
) -> Result<(), ExportRefusal>
    ensures whole { OnOk result (Writes (AreSpanMessages asked.span.from asked.span.to) (W.contents output.old)
        (W.contents output.new)) }
    ensures part { OnErr result (WritesSome (AreSpanMessages asked.span.from asked.span.to) (W.contents output.old)
        (W.contents output.new)) }
    ensures all { IsTrue (is_honest_part part.entry) → (before : AllTemplates) (list : List Accepted)
        → IsRestated (file_of part.entry).prefix before → AreAcceptedFrom before list
        → octets_of list ≡ (file_of part.entry).messages → OnOk result (Appends (W.contents output.old)
        (W.contents output.new) (text_between asked.span.from asked.span.to asked.skip asked.end list)) }
    ensures some { IsTrue (is_honest_part part.entry) → (before : AllTemplates) (list : List Accepted)
        → IsRestated (file_of part.entry).prefix before → AreAcceptedFrom before list
        → octets_of list ≡ (file_of part.entry).messages → OnErr result (AppendsFront (W.contents output.old)
        (W.contents output.new) (text_between asked.span.from asked.span.to asked.skip asked.end list)) }
    ensures given { IsTrue (is_honest_part part.entry) → (before : AllTemplates) (list : List Accepted)
        → IsRestated (file_of part.entry).prefix before → AreAcceptedFrom before list
        → octets_of list ≡ (file_of part.entry).messages → IfErr result IsBlameless }
    ensures cause { HasCause (refusal.Query ReadRefusal.Fault) faults.old faults.new result }
{
    match part {
        KeptPart::Sealed(part) => write_sealed(alloc, part, asked, output, patience, faults),
        KeptPart::Active(prefix, messages) => {
            write_active(alloc, prefix, messages, asked, output, patience)
        }
    }
}

/// The same of the file at a place, which isn't read where none of its messages are asked for.
fn write_chosen_file<S: SealedFile, W: Write>(
    alloc: Global,
    snapshot: &Snapshot<S>,
    at: u64,
    asked: Asked,
    output: &mut W,
    patience: &mut Patience,
    faults: &mut Faults<S>,
) -> Result<(), ExportRefusal>
    requires { at ≤ length snapshot.now.shelf.sealed }
    ensures whole { OnOk result (Writes (AreSpanMessages asked.span.from asked.span.to) (W.contents output.old)
        (W.contents output.new)) }
    ensures part { OnErr result (WritesSome (AreSpanMessages asked.span.from asked.span.to) (W.contents output.old)
        (W.contents output.new)) }
    ensures all { IsTrue snapshot.now.honest → (file : KeptFile)
        → slice_get (kept_by_file snapshot.now.shelf) at ≡ Some file → (before : AllTemplates) (list : List Accepted)
        → IsRestated file.prefix before → AreAcceptedFrom before list → octets_of list ≡ file.messages
        → OnOk result (Appends (W.contents output.old) (W.contents output.new)
        (text_between asked.span.from asked.span.to asked.skip asked.end list)) }
    ensures some { IsTrue snapshot.now.honest → (file : KeptFile)
        → slice_get (kept_by_file snapshot.now.shelf) at ≡ Some file → (before : AllTemplates) (list : List Accepted)
        → IsRestated file.prefix before → AreAcceptedFrom before list → octets_of list ≡ file.messages
        → OnErr result (AppendsFront (W.contents output.old) (W.contents output.new)
        (text_between asked.span.from asked.span.to asked.skip asked.end list)) }
    ensures given { IsTrue snapshot.now.honest → (file : KeptFile)
        → slice_get (kept_by_file snapshot.now.shelf) at ≡ Some file → (before : AllTemplates) (list : List Accepted)
        → IsRestated file.prefix before → AreAcceptedFrom before list → octets_of list ≡ file.messages
        → IfErr result IsBlameless }
    ensures cause { HasCause (refusal.Query ReadRefusal.Fault) faults.old faults.new result }
{
    let count = message_count(snapshot.kept_part(at));
    if count <= asked.skip {
        return Ok(());
    }
    if asked.end == 0 {
        return Ok(());
    }
    let part = snapshot.kept_part(at);
    write_chosen_part(alloc, part, asked, output, patience, faults)
}

/// What is asked for of the messages after the first ones, so many.
fn asked_after(asked: Asked, count: u64) -> Asked
    ensures skip { result.skip ≡ asked.skip - count }
    ensures end { result.end ≡ asked.end - count }
    ensures span { result.span ≡ asked.span }
{
    Asked {
        skip: asked.skip.saturating_sub(count),
        end: asked.end.saturating_sub(count),
        span: asked.span,
    }
}

/// Writes those of the kept messages that are asked for, of one file after the other.
fn write_asked<S: SealedFile, W: Write>(
    alloc: Global,
    snapshot: &Snapshot<S>,
    asked: Asked,
    output: &mut W,
    patience: &mut Patience,
    faults: &mut Faults<S>,
) -> Result<(), ExportRefusal>
    ensures whole { OnOk result (Writes (AreSpanMessages asked.span.from asked.span.to) (W.contents output.old)
        (W.contents output.new)) }
    ensures part { OnErr result (WritesSome (AreSpanMessages asked.span.from asked.span.to) (W.contents output.old)
        (W.contents output.new)) }
    ensures all { IsTrue snapshot.now.honest → (v : View) → IsViewOf snapshot.now.shelf v
        → OnOk result (Appends (W.contents output.old) (W.contents output.new)
        (text_between asked.span.from asked.span.to asked.skip asked.end v.kept)) }
    ensures some { IsTrue snapshot.now.honest → (v : View) → IsViewOf snapshot.now.shelf v
        → OnErr result (AppendsFront (W.contents output.old) (W.contents output.new)
        (text_between asked.span.from asked.span.to asked.skip asked.end v.kept)) }
    ensures given { IsTrue snapshot.now.honest → (v : View) → IsViewOf snapshot.now.shelf v
        → IfErr result IsBlameless }
    ensures cause { HasCause (refusal.Query ReadRefusal.Fault) faults.old faults.new result }
{
    let mut left = asked;
    let files = snapshot.kept_files();
    for at in 0..files {
        let count = message_count(snapshot.kept_part(at));
        write_chosen_file(alloc, snapshot, at, left, output, patience, faults)?;
        left = asked_after(left, count);
    }
    Ok(())
}

/// Writes the messages of a span that are between these places, after those that restate what is passed on to the
/// first one.
fn write_found<S: SealedFile, W: Write>(
    alloc: Global,
    snapshot: &Snapshot<S>,
    found: Found,
    span: TimeSpan,
    output: &mut W,
    faults: &mut Faults<S>,
) -> Result<(), ExportRefusal>
    ensures written { OnOk result (Writes (IsSomeSpanExport span.from span.to) (W.contents output.old)
        (W.contents output.new)) }
    ensures some { IfErr result (WritesUpTo (IsSomeSpanExport span.from span.to) (W.contents output.old)
        (W.contents output.new)) }
    ensures exact { IsTrue snapshot.now.honest → (v : View) → IsViewOf snapshot.now.shelf v
        → IsFound span.from span.to v.kept (Some found) → OnOk result
        (Writes (IsSpanExportOf snapshot.now.shelf v span.from span.to) (W.contents output.old)
        (W.contents output.new)) }
    ensures cut { IsTrue snapshot.now.honest → (v : View) → IsViewOf snapshot.now.shelf v
        → IsFound span.from span.to v.kept (Some found) → IfErr result
        (WritesUpTo (IsSpanExportOf snapshot.now.shelf v span.from span.to) (W.contents output.old)
        (W.contents output.new)) }
    ensures blameless { IsTrue snapshot.now.honest → (v : View) → IsViewOf snapshot.now.shelf v
        → IfErr result IsBlameless }
    ensures cause { HasCause (refusal.Query ReadRefusal.Fault) faults.old faults.new result }
{
    let carry = carry_before(alloc, snapshot, found.before, faults)?;
    let patience = &mut Patience::new();
    write_restated(alloc, &carry, output, patience)?;
    let asked = Asked {
        skip: found.before,
        end: found.upto,
        span,
    };
    write_asked(alloc, snapshot, asked, output, patience, faults)
}

/// Writes the messages that restate what is passed on to the first message that has a flow of the span, and then, up to
/// the last one that has one, those that have one or hold Sets of template records, as they are. Where none has one the
/// templates after all messages are written alone.
///
/// Files before the first message and after the last one are read to find these alone, and not where it is known that
/// none of their flows start in the span.
pub fn write_span<S: SealedFile, W: Write>(
    alloc: Global,
    snapshot: &Snapshot<S>,
    span: TimeSpan,
    output: &mut W,
    faults: &mut Faults<S>,
) -> Result<(), ExportRefusal>
    // On every disk: messages that restate some templates, and after them whole messages, each of which holds Sets of
    // template records, or has a flow of the span under some templates; or a prefix of such octets.
    ensures written { OnOk result (Writes (IsSomeSpanExport span.from span.to) (W.contents output.old)
        (W.contents output.new)) }
    ensures some { IfErr result (WritesUpTo (IsSomeSpanExport span.from span.to) (W.contents output.old)
        (W.contents output.new)) }
    // On honest ones: just the messages of the span, or a prefix of them.
    ensures exact { IsTrue snapshot.now.honest → (v : View) → IsViewOf snapshot.now.shelf v → OnOk result
        (Writes (IsSpanExportOf snapshot.now.shelf v span.from span.to) (W.contents output.old)
        (W.contents output.new)) }
    ensures cut { IsTrue snapshot.now.honest → (v : View) → IsViewOf snapshot.now.shelf v → IfErr result
        (WritesUpTo (IsSpanExportOf snapshot.now.shelf v span.from span.to) (W.contents output.old)
        (W.contents output.new)) }
    ensures blameless { IsTrue snapshot.now.honest → (v : View) → IsViewOf snapshot.now.shelf v
        → IfErr result IsBlameless }
    ensures cause { HasCause (refusal.Query ReadRefusal.Fault) faults.old faults.new result }
{
    match find_span(alloc, snapshot, span, faults)? {
        Some(found) => write_found(alloc, snapshot, found, span, output, faults),
        None => write_templates(alloc, snapshot, output, faults),
    }
}
