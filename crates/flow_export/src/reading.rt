//! A sealed segment, read whole.

ghost use Rattle.std.specs.Prelude.{◌≡◌, ⊤, length, IfOk, IsTrue, List};
ghost use Rattle.std.specs.List.{AllByRecursion};
ghost use Rattle.flow_codec.specs.Cutting.{IsCutOff};
ghost use Rattle.flow_codec.specs.Templates.{AllTemplates};
ghost use Rattle.flow_disk.specs.Cause.{HasCause};
ghost use Rattle.flow_export.specs.Export.{file_read};
ghost use Rattle.flow_gate.specs.Scan.{texts};
ghost use Rattle.flow_measure.specs.History.{Accepted, AreAcceptedFrom};
ghost use Rattle.flow_segment.specs.Carry.{octets_of};
ghost use Rattle.flow_segment.specs.Prefix.{IsRestated};
ghost use Rattle.flow_snapshot.specs.Answered.{IsAnswered};
ghost use Rattle.flow_snapshot.specs.Files.{is_honest, segment_of};
ghost use Rattle.flow_snapshot.specs.Found.{kept_file};

use bytes::Bytes;
use flow_codec::Templates;
use flow_disk::{Faults, SealedFile};
use flow_refusals::ReadRefusal;
use flow_segment::{SealedPart, messages_of, templates_of};
use std::alloc::{AllocError, Global};

/// A sealed segment in memory: its prefix, and the messages after it.
#[derive(Drop)]
pub(crate) struct ReadFile {
    pub(crate) prefix: Vec<u8>,
    pub(crate) messages: Vec<Bytes>,
}

/// Messages, each as it may be shared. No octets are copied.
fn shared_messages(alloc: Global, messages: Vec<Vec<u8>>) -> Result<Vec<Bytes>, AllocError>
    ensures { IfOk result (λ shared. shared.items ≡ texts messages.items) }
{
    let mut shared = Vec::with_capacity(alloc, messages.len())?;
    for message in messages {
        shared.push_reserved(Bytes::from_vec(message)?);
    }
    Ok(shared)
}

/// The messages of a sealed segment, as many as there are to be. One that has none isn't read.
pub(crate) fn read_messages<S: SealedFile>(
    alloc: Global,
    part: &SealedPart<S>,
    faults: &mut Faults<S>,
) -> Result<Vec<Bytes>, ReadRefusal>
    ensures cause { HasCause ReadRefusal.Fault faults.old faults.new result }
    // On every disk as many as there are to be.
    ensures count { IfOk result (λ messages. length messages.items ≡ length (segment_of part.now).messages) }
    ensures found { IsTrue (is_honest part.now)
        → IfOk result (λ messages. messages.items ≡ (segment_of part.now).messages) }
    ensures given { IsTrue (is_honest part.now) → AllByRecursion IsCutOff (segment_of part.now).messages
        → IsAnswered (λ _. ⊤) result }
{
    if part.messages == 0 {
        return Ok(Vec::new(alloc));
    }
    let messages = messages_of(alloc, part, faults)?;
    if messages.len() as u64 != part.messages {
        return Err(ReadRefusal::Damaged(part.reader.file(), part.length));
    }
    Ok(shared_messages(alloc, messages)?)
}

/// Its prefix and its messages.
pub(crate) fn read_file<S: SealedFile>(
    alloc: Global,
    part: &SealedPart<S>,
    faults: &mut Faults<S>,
) -> Result<ReadFile, ReadRefusal>
    ensures cause { HasCause ReadRefusal.Fault faults.old faults.new result }
    ensures found { IsTrue (is_honest part.now)
        → IfOk result (λ read. file_read read ≡ kept_file (segment_of part.now)) }
    ensures given { IsTrue (is_honest part.now) → AllByRecursion IsCutOff (segment_of part.now).messages
        → IsAnswered (λ _. ⊤) result }
{
    let prefix = part.reader.read(alloc, faults, 0, part.prefix as usize)?;
    let messages = read_messages(alloc, part, faults)?;
    Ok(ReadFile { prefix, messages })
}

/// A sealed segment as it is read with nothing else: the templates that its own prefix restates, and its messages.
#[derive(Drop)]
pub(crate) struct OwnMessages {
    pub(crate) templates: Templates,
    pub(crate) messages: Vec<Bytes>,
}

/// The templates that the prefix of a sealed segment restates, and its messages.
pub(crate) fn read_own<S: SealedFile>(
    alloc: Global,
    part: &SealedPart<S>,
    faults: &mut Faults<S>,
) -> Result<OwnMessages, ReadRefusal>
    ensures cause { HasCause ReadRefusal.Fault faults.old faults.new result }
    // Where its messages are accepted after these templates, no damage is reported.
    ensures given { IsTrue (is_honest part.now) → (before : AllTemplates) (list : List Accepted)
        → IsRestated (segment_of part.now).prefix before → AreAcceptedFrom before list
        → octets_of list ≡ (segment_of part.now).messages
        → IsAnswered (λ own. (own.templates ≡ before)
        × (own.messages.items ≡ (segment_of part.now).messages)) result }
{
    let templates = templates_of(alloc, part, faults)?;
    let messages = read_messages(alloc, part, faults)?;
    Ok(OwnMessages {
        templates,
        messages,
    })
}
