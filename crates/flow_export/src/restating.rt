//! The templates in force before a message, restated.

ghost use Rattle.std.specs.Prelude.{◌≡◌, ◌≢◌, ⊤, List, IfOk, IsTrue, length, OnOk, IfErr};
ghost use Rattle.std.specs.Io.KnownBytes.{Appends};
ghost use Rattle.flow_codec.specs.Templates.{AllTemplates};
ghost use Rattle.flow_disk.specs.Cause.{HasCause};
ghost use Rattle.flow_export.specs.declared.refusal.ExportRefusal.TheVariants as refusal;
ghost use Rattle.flow_export.specs.Export.{AreTemplates, AreTemplatesAfter, IsBlameless, PassesOn, Writes};
ghost use Rattle.flow_export.specs.Export.{WritesOrNot};
ghost use Rattle.flow_measure.specs.History.{Accepted, AreAcceptedFrom};
ghost use Rattle.flow_measure.specs.View.{View};
ghost use Rattle.flow_model.specs.Views.{IsViewOf};
ghost use Rattle.flow_segment.specs.Carry.{octets_of, prefix_of, IsCarry};
ghost use Rattle.flow_segment.specs.Prefix.{IsRestated};
ghost use Rattle.flow_snapshot.specs.Answered.{IsAnswered};
ghost use Rattle.flow_snapshot.specs.Parts.{file_of, is_honest_part};

use crate::passing::passed_on;
use crate::reading::read_file;
use crate::refusal::ExportRefusal;
use flow_disk::{Faults, SealedFile};
use flow_refusals::ReadRefusal;
use flow_report::{Patience, write_patiently};
use flow_segment::Carry;
use flow_snapshot::{KeptPart, Snapshot};
use std::alloc::Global;
use std::io::Write;

/// How many messages a file has.
pub(crate) fn message_count<S: SealedFile>(part: KeptPart<'_, S>) -> u64
    ensures { result ≡ length (file_of part.entry).messages }
{
    match part {
        KeptPart::Sealed(part) => part.messages,
        KeptPart::Active(_, messages) => messages.len() as u64,
    }
}

/// What a file passes on to the message after its first ones, so many.
pub(crate) fn carry_after<S: SealedFile>(
    alloc: Global,
    part: KeptPart<'_, S>,
    count: u64,
    faults: &mut Faults<S>,
) -> Result<Carry, ReadRefusal>
    ensures cause { HasCause ReadRefusal.Fault faults.old faults.new result }
    ensures found { IsTrue (is_honest_part part.entry)
        → IfOk result (λ carry. PassesOn (file_of part.entry) count carry) }
    ensures given { IsTrue (is_honest_part part.entry) → (before : AllTemplates) (list : List Accepted)
        → IsRestated (file_of part.entry).prefix before → AreAcceptedFrom before list
        → octets_of list ≡ (file_of part.entry).messages → IsAnswered (λ _. ⊤) result }
{
    match part {
        KeptPart::Sealed(part) => {
            let read = read_file(alloc, part, faults)?;
            let file = part.reader.file();
            passed_on(
                alloc,
                file,
                read.prefix.as_slice(),
                read.messages.as_slice(),
                count,
            )
        }
        KeptPart::Active(prefix, messages) => passed_on(alloc, 0, prefix, messages, count),
    }
}

/// Writes the messages that restate this.
pub(crate) fn write_restated<W: Write>(
    alloc: Global,
    carry: &Carry,
    output: &mut W,
    patience: &mut Patience,
) -> Result<(), ExportRefusal>
    ensures all { OnOk result (Appends (W.contents output.old) (W.contents output.new) (prefix_of carry.now)) }
    ensures some { IfErr result (WritesOrNot (λ text. text ≡ prefix_of carry.now) (W.contents output.old)
        (W.contents output.new)) }
    ensures carry { IsCarry carry.now }
    ensures blameless { IfErr result IsBlameless }
    ensures quiet { IfErr result (λ e. e ≢ refusal.Query ReadRefusal.Fault) }
{
    let octets = carry.prefix(alloc)?;
    write_patiently(output, octets.as_slice(), patience)?;
    Ok(())
}

/// Writes the messages that restate the templates in force after the last message.
pub fn write_templates<S: SealedFile, W: Write>(
    alloc: Global,
    snapshot: &Snapshot<S>,
    output: &mut W,
    faults: &mut Faults<S>,
) -> Result<(), ExportRefusal>
    // On every disk: those of some templates, or a prefix of these.
    ensures written { OnOk result (Writes AreTemplates (W.contents output.old) (W.contents output.new)) }
    ensures some { IfErr result (WritesOrNot AreTemplates (W.contents output.old) (W.contents output.new)) }
    // On honest ones: those after the last message, or a prefix of these.
    ensures exact { IsTrue snapshot.now.honest → OnOk result
        (Writes (AreTemplatesAfter snapshot.now.shelf) (W.contents output.old) (W.contents output.new)) }
    ensures cut { IsTrue snapshot.now.honest → IfErr result
        (WritesOrNot (AreTemplatesAfter snapshot.now.shelf) (W.contents output.old) (W.contents output.new)) }
    // Where the files have a view, no damage is reported.
    ensures blameless { IsTrue snapshot.now.honest → (v : View) → IsViewOf snapshot.now.shelf v
        → IfErr result IsBlameless }
    ensures cause { HasCause (refusal.Query ReadRefusal.Fault) faults.old faults.new result }
{
    let last = snapshot.sealed_files();
    let count = message_count(snapshot.kept_part(last));
    let carry = carry_after(alloc, snapshot.kept_part(last), count, faults)?;
    write_restated(alloc, &carry, output, &mut Patience::new())
}
