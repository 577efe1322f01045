//! Kept messages, written as they are.

ghost use Rattle.std.specs.Prelude.{◌≡◌, ◌≢◌, ◌≤◌, ⊤, IfOk, IsTrue, Some, length, take, drop, slice_get, OnOk, IfErr};
ghost use Rattle.std.specs.Prelude.{OnErr};
ghost use Rattle.std.specs.Io.KnownBytes.{Appends};
ghost use Rattle.std.specs.List.{AllByRecursion};
ghost use Rattle.flow_codec.specs.Cutting.{IsCutOff};
ghost use Rattle.flow_codec.specs.Message.{joined};
ghost use Rattle.flow_disk.specs.Cause.{HasCause};
ghost use Rattle.flow_export.specs.declared.refusal.ExportRefusal.TheVariants as refusal;
ghost use Rattle.flow_export.specs.Export.{IsBlameless, IsCarryBefore, IsExport, IsExportOf, IsFileOfMessage};
ghost use Rattle.flow_export.specs.Export.{asked_count, messages_of, AreMessages, Writes, WritesSome, WritesUpTo};
ghost use Rattle.flow_measure.specs.View.{View};
ghost use Rattle.flow_model.specs.Shelf.{kept_of};
ghost use Rattle.flow_model.specs.Views.{IsViewOf};
ghost use Rattle.flow_report.specs.Writing.{AppendsFront};
ghost use Rattle.flow_snapshot.specs.Answered.{IsAnswered};
ghost use Rattle.flow_snapshot.specs.Found.{kept_by_file, KeptFile};
ghost use Rattle.flow_snapshot.specs.Parts.{file_of, is_honest_part};

use crate::reading::read_messages;
use crate::refusal::ExportRefusal;
use crate::restating::{carry_after, message_count, write_restated};
use crate::whole::write_whole;
use bytes::Bytes;
use flow_disk::{Faults, SealedFile};
use flow_refusals::ReadRefusal;
use flow_report::Patience;
use flow_segment::Carry;
use flow_snapshot::{KeptPart, Snapshot};
use std::alloc::Global;
use std::io::Write;

/// The place of the file that has the kept message after so many others, or else of the last one, and how many of the
/// file's own messages come before it.
fn file_of_message<S: SealedFile>(snapshot: &Snapshot<S>, skip: u64) -> (u64, u64)
    ensures place { result.0 ≤ length snapshot.now.shelf.sealed }
    ensures own { IsFileOfMessage (kept_by_file snapshot.now.shelf) skip result.0 result.1 }
{
    let mut left = skip;
    let sealed = snapshot.sealed_files();
    for at in 0..sealed {
        let count = message_count(snapshot.kept_part(at));
        if left < count {
            return (at, left);
        }
        left -= count;
    }
    (sealed, left)
}

/// What is passed on to the kept message after so many others.
pub(crate) fn carry_before<S: SealedFile>(
    alloc: Global,
    snapshot: &Snapshot<S>,
    skip: u64,
    faults: &mut Faults<S>,
) -> Result<Carry, ReadRefusal>
    ensures cause { HasCause ReadRefusal.Fault faults.old faults.new result }
    ensures found { IsTrue snapshot.now.honest
        → IfOk result (λ carry. IsCarryBefore (kept_by_file snapshot.now.shelf) skip carry) }
    ensures given { IsTrue snapshot.now.honest → (v : View) → IsViewOf snapshot.now.shelf v
        → IsAnswered (λ _. ⊤) result }
{
    let (at, first) = file_of_message(snapshot, skip);
    carry_after(alloc, snapshot.kept_part(at), first, faults)
}

/// Writes messages of a file: at most so many, after the first ones, and none that isn't whole. It answers how many it
/// wrote.
fn write_some<W: Write>(
    file: u64,
    messages: &[Bytes],
    skip: u64,
    most: u64,
    output: &mut W,
    patience: &mut Patience,
) -> Result<u64, ExportRefusal>
    ensures count { IfOk result (λ n. n ≡ asked_count skip most (length messages.now)) }
    ensures most { IfOk result (λ n. n ≤ most) }
    // Whatever the messages are: as many, each whole, or a prefix of such octets.
    ensures whole { OnOk result (Writes (AreMessages (asked_count skip most (length messages.now)))
        (W.contents output.old) (W.contents output.new)) }
    ensures part { OnErr result (WritesSome (AreMessages (asked_count skip most (length messages.now)))
        (W.contents output.old) (W.contents output.new)) }
    // They are these.
    ensures all { OnOk result (Appends (W.contents output.old) (W.contents output.new)
        (joined (take most (drop skip messages.now)))) }
    ensures some { OnErr result (AppendsFront (W.contents output.old) (W.contents output.new)
        (joined (take most (drop skip messages.now)))) }
    ensures blameless { AllByRecursion IsCutOff messages.now → IfErr result IsBlameless }
    ensures quiet { IfErr result (λ e. e ≢ refusal.Query ReadRefusal.Fault) }
{
    let count = messages.len() as u64;
    let from = skip.min(count);
    let end = from + most.min(count - from);
    let chosen = &messages[from as usize..end as usize];
    for message in chosen {
        write_whole(file, message.as_slice(), output, patience)?;
    }
    Ok(end - from)
}

/// Writes messages of a file: at most so many, after the first ones. It answers how many it wrote.
fn write_part<S: SealedFile, W: Write>(
    alloc: Global,
    part: KeptPart<'_, S>,
    skip: u64,
    most: u64,
    output: &mut W,
    patience: &mut Patience,
    faults: &mut Faults<S>,
) -> Result<u64, ExportRefusal>
    // On every disk: as many as are asked for, of those that it is to have, each whole, or a prefix of such octets.
    ensures count { IfOk result (λ n. n ≡ asked_count skip most (length (file_of part.entry).messages)) }
    ensures most { IfOk result (λ n. n ≤ most) }
    ensures whole { OnOk result (Writes (AreMessages (asked_count skip most (length (file_of part.entry).messages)))
        (W.contents output.old) (W.contents output.new)) }
    ensures part { OnErr result (WritesSome (AreMessages (asked_count skip most
        (length (file_of part.entry).messages))) (W.contents output.old) (W.contents output.new)) }
    // On an honest one they are these.
    ensures all { IsTrue (is_honest_part part.entry) → OnOk result (Appends (W.contents output.old)
        (W.contents output.new) (joined (take most (drop skip (file_of part.entry).messages)))) }
    ensures some { IsTrue (is_honest_part part.entry) → OnErr result (AppendsFront (W.contents output.old)
        (W.contents output.new) (joined (take most (drop skip (file_of part.entry).messages)))) }
    ensures given { IsTrue (is_honest_part part.entry) → AllByRecursion IsCutOff (file_of part.entry).messages
        → IfErr result IsBlameless }
    ensures cause { HasCause (refusal.Query ReadRefusal.Fault) faults.old faults.new result }
{
    match part {
        KeptPart::Sealed(part) => {
            let messages = read_messages(alloc, part, faults)?;
            let file = part.reader.file();
            write_some(file, messages.as_slice(), skip, most, output, patience)
        }
        KeptPart::Active(_, messages) => write_some(0, messages, skip, most, output, patience),
    }
}

/// Writes messages of the file at a place: at most so many, after the first ones. It isn't read where it has none of
/// them. It answers how many it wrote.
fn write_file<S: SealedFile, W: Write>(
    alloc: Global,
    snapshot: &Snapshot<S>,
    at: u64,
    skip: u64,
    most: u64,
    output: &mut W,
    patience: &mut Patience,
    faults: &mut Faults<S>,
) -> Result<u64, ExportRefusal>
    requires { at ≤ length snapshot.now.shelf.sealed }
    // On every disk.
    ensures count { (file : KeptFile) → slice_get (kept_by_file snapshot.now.shelf) at ≡ Some file
        → IfOk result (λ n. n ≡ asked_count skip most (length file.messages)) }
    ensures most { IfOk result (λ n. n ≤ most) }
    ensures whole { (file : KeptFile) → slice_get (kept_by_file snapshot.now.shelf) at ≡ Some file
        → OnOk result (Writes (AreMessages (asked_count skip most (length file.messages))) (W.contents output.old)
        (W.contents output.new)) }
    ensures part { (file : KeptFile) → slice_get (kept_by_file snapshot.now.shelf) at ≡ Some file
        → OnErr result (WritesSome (AreMessages (asked_count skip most (length file.messages)))
        (W.contents output.old) (W.contents output.new)) }
    // On honest ones.
    ensures all { IsTrue snapshot.now.honest → (file : KeptFile)
        → slice_get (kept_by_file snapshot.now.shelf) at ≡ Some file → OnOk result (Appends (W.contents output.old)
        (W.contents output.new) (joined (take most (drop skip file.messages)))) }
    ensures some { IsTrue snapshot.now.honest → (file : KeptFile)
        → slice_get (kept_by_file snapshot.now.shelf) at ≡ Some file → OnErr result (AppendsFront
        (W.contents output.old) (W.contents output.new) (joined (take most (drop skip file.messages)))) }
    ensures given { IsTrue snapshot.now.honest → (v : View) → IsViewOf snapshot.now.shelf v
        → IfErr result IsBlameless }
    ensures cause { HasCause (refusal.Query ReadRefusal.Fault) faults.old faults.new result }
{
    let count = message_count(snapshot.kept_part(at));
    if count <= skip {
        return Ok(0);
    }
    if most == 0 {
        return Ok(0);
    }
    let part = snapshot.kept_part(at);
    write_part(alloc, part, skip, most, output, patience, faults)
}

/// Writes kept messages: at most so many, after the first ones. Files that have none of them aren't read.
fn write_kept<S: SealedFile, W: Write>(
    alloc: Global,
    snapshot: &Snapshot<S>,
    skip: u64,
    most: u64,
    output: &mut W,
    patience: &mut Patience,
    faults: &mut Faults<S>,
) -> Result<(), ExportRefusal>
    // On every disk: as many as are asked for, of those that the files are to have, each whole.
    ensures whole { OnOk result (Writes (AreMessages (asked_count skip most
        (length (messages_of (kept_by_file snapshot.now.shelf))))) (W.contents output.old) (W.contents output.new)) }
    ensures part { OnErr result (WritesSome (AreMessages (asked_count skip most
        (length (messages_of (kept_by_file snapshot.now.shelf))))) (W.contents output.old)
        (W.contents output.new)) }
    // On honest ones they are these.
    ensures all { IsTrue snapshot.now.honest → OnOk result (Appends (W.contents output.old) (W.contents output.new)
        (joined (take most (drop skip (messages_of (kept_by_file snapshot.now.shelf)))))) }
    ensures some { IsTrue snapshot.now.honest → OnErr result (AppendsFront (W.contents output.old)
        (W.contents output.new) (joined (take most (drop skip (messages_of (kept_by_file snapshot.now.shelf)))))) }
    ensures given { IsTrue snapshot.now.honest → (v : View) → IsViewOf snapshot.now.shelf v
        → IfErr result IsBlameless }
    ensures cause { HasCause (refusal.Query ReadRefusal.Fault) faults.old faults.new result }
{
    let mut skip = skip;
    let mut left = most;
    let files = snapshot.kept_files();
    for at in 0..files {
        let count = message_count(snapshot.kept_part(at));
        let written = write_file(alloc, snapshot, at, skip, left, output, patience, faults)?;
        left -= written;
        skip = skip.saturating_sub(count);
    }
    Ok(())
}

/// Writes the messages that restate what is passed on to the kept message after so many others, which is given, and
/// then, at most so many, the messages from this one on, as they are.
fn write_after<S: SealedFile, W: Write>(
    alloc: Global,
    snapshot: &Snapshot<S>,
    carry: &Carry,
    skip: u64,
    most: u64,
    output: &mut W,
    faults: &mut Faults<S>,
) -> Result<(), ExportRefusal>
    requires { IsTrue snapshot.now.honest → IsCarryBefore (kept_by_file snapshot.now.shelf) skip carry.now }
    ensures written { OnOk result (Writes (IsExport (asked_count skip most (length (kept_of snapshot.now.shelf))))
        (W.contents output.old) (W.contents output.new)) }
    ensures some { IfErr result (WritesUpTo (IsExport (asked_count skip most (length (kept_of snapshot.now.shelf))))
        (W.contents output.old) (W.contents output.new)) }
    ensures exact { IsTrue snapshot.now.honest → OnOk result
        (Writes (IsExportOf snapshot.now.shelf skip most) (W.contents output.old) (W.contents output.new)) }
    ensures cut { IsTrue snapshot.now.honest → IfErr result
        (WritesUpTo (IsExportOf snapshot.now.shelf skip most) (W.contents output.old) (W.contents output.new)) }
    ensures blameless { IsTrue snapshot.now.honest → (v : View) → IsViewOf snapshot.now.shelf v
        → IfErr result IsBlameless }
    ensures cause { HasCause (refusal.Query ReadRefusal.Fault) faults.old faults.new result }
{
    let patience = &mut Patience::new();
    write_restated(alloc, carry, output, patience)?;
    write_kept(alloc, snapshot, skip, most, output, patience, faults)
}

/// Writes the messages that restate what is passed on to the kept message after so many others, and then, at most so
/// many, the messages from this one on, as they are.
pub fn write_messages<S: SealedFile, W: Write>(
    alloc: Global,
    snapshot: &Snapshot<S>,
    skip: u64,
    most: u64,
    output: &mut W,
    faults: &mut Faults<S>,
) -> Result<(), ExportRefusal>
    // On every disk: messages that restate some templates, and after them just as many messages as are asked for, of
    // those that the files are to have, each whole by its own header; or a prefix of such octets.
    ensures written { OnOk result (Writes (IsExport (asked_count skip most (length (kept_of snapshot.now.shelf))))
        (W.contents output.old) (W.contents output.new)) }
    ensures some { IfErr result (WritesUpTo (IsExport (asked_count skip most (length (kept_of snapshot.now.shelf))))
        (W.contents output.old) (W.contents output.new)) }
    // On honest ones: just what is asked for, or a prefix of it.
    ensures exact { IsTrue snapshot.now.honest → OnOk result
        (Writes (IsExportOf snapshot.now.shelf skip most) (W.contents output.old) (W.contents output.new)) }
    ensures cut { IsTrue snapshot.now.honest → IfErr result
        (WritesUpTo (IsExportOf snapshot.now.shelf skip most) (W.contents output.old) (W.contents output.new)) }
    // Where the files have a view, no damage is reported.
    ensures blameless { IsTrue snapshot.now.honest → (v : View) → IsViewOf snapshot.now.shelf v
        → IfErr result IsBlameless }
    ensures cause { HasCause (refusal.Query ReadRefusal.Fault) faults.old faults.new result }
{
    let carry = carry_before(alloc, snapshot, skip, faults)?;
    write_after(alloc, snapshot, &carry, skip, most, output, faults)
}
