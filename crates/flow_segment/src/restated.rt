//! The templates that the prefix of a sealed segment restates.

ghost use Rattle.std.specs.Prelude.{◌≡◌, ◌≤◌, [], IsTrue, IfOk, IfErr, OnOk};
ghost use Rattle.flow_disk.specs.Cause.{HasCause};
ghost use Rattle.flow_codec.specs.Templates.{AllTemplates};
ghost use Rattle.flow_segment.specs.Prefix.{AreTemplatesGiven, IsPrefixToldOf, IsRestated, IsRestating};
ghost use Rattle.flow_segment.specs.Segment.{part_octets};

use crate::part::advance;
use crate::sealed::SealedPart;
use flow_codec::{
    Definition, Header, MessageError, RecordSink, Templates, WalkError, walk_message,
};
use flow_disk::{Faults, SealedFile, Window};
use flow_refusals::ReadRefusal;
use std::alloc::Global;
use std::convert::Infallible;

/// A sink that keeps nothing of data records but whether there were any.
#[derive(Drop)]
pub struct HasRecords {
    pub any: bool,
}

impl RecordSink for HasRecords {
    ghost use Rattle.flow_segment.specs.Prefix.{AreSeen};

    type Error = Infallible;

    type Kept = ();

    ghost holds = { λ start taken now. AreSeen start.any taken now.any };

    ghost refuses = { λ _ _ _ _. ⊥ };

    ghost kept = { λ _. tt };

    fn record(
        &mut self,
        _header: &Header,
        _id: u16,
        _definition: &Definition,
        _octets: &[u8],
    ) -> Result<(), Infallible> {
        self.any = true;
        Ok(())
    }
}

/// Takes in the templates of a message of a prefix, at this place of this file.
fn restate(
    templates: &mut Templates,
    alloc: Global,
    octets: &[u8],
    file: u64,
    at: u64,
) -> Result<(), ReadRefusal>
    ensures { IsRestating file at octets.now templates.old templates.new result }
{
    let mut records = HasRecords { any: false };
    match walk_message(templates, alloc, octets, &mut records) {
        Ok(_) => {
            if records.any {
                return Err(ReadRefusal::Damaged(file, at));
            }
            Ok(())
        }
        Err(WalkError::Message(MessageError::OutOfMemory)) => Err(ReadRefusal::OutOfMemory),
        Err(WalkError::Message(_)) => Err(ReadRefusal::Damaged(file, at)),
        Err(WalkError::Sink(never)) => match never {},
    }
}

/// The templates in force after the prefix of a sealed segment. Where the octets are no accepted message, or one with
/// data records, it answers `Damaged`, with the file and the place; `Fault` exactly where a read has raised `faults`;
/// and `OutOfMemory`.
pub fn templates_of<S: SealedFile>(
    alloc: Global,
    part: &SealedPart<S>,
    faults: &mut Faults<S>,
) -> Result<Templates, ReadRefusal>
    ensures cause { HasCause ReadRefusal.Fault faults.old faults.new result }
    // On an honest disk: the templates that accepted messages without data records leave; or why there are none.
    ensures found { IsTrue (S.honest part.now.reader) → IfOk result
        (λ templates. IsRestated (part_octets 0 part.now.prefix (S.octets part.now.reader)) templates) }
    ensures told { IsTrue (S.honest part.now.reader) → IfErr result
        (λ e. IsPrefixToldOf (part_octets 0 part.now.prefix (S.octets part.now.reader))
        (S.number part.now.reader) e) }
    // Where a prefix restates these, they are given.
    ensures given { IsTrue (S.honest part.now.reader) → (all : AllTemplates)
        → IsRestated (part_octets 0 part.now.prefix (S.octets part.now.reader)) all
        → AreTemplatesGiven all result }
{
    let mut templates = Templates::new(alloc);
    match read_prefix(alloc, part, faults, &mut templates) {
        Ok(()) => Ok(templates),
        Err(refused) => {
            drop(templates);
            Err(refused)
        }
    }
}

/// Reads the prefix, message by message, where no template is in force before.
fn read_prefix<S: SealedFile>(
    alloc: Global,
    part: &SealedPart<S>,
    faults: &mut Faults<S>,
    templates: &mut Templates,
) -> Result<(), ReadRefusal>
    requires { templates.old ≡ [] }
    ensures cause { HasCause ReadRefusal.Fault faults.old faults.new result }
    // On an honest disk: the templates that accepted messages without data records leave; or why there are none.
    ensures found { IsTrue (S.honest part.now.reader) → OnOk result
        (IsRestated (part_octets 0 part.now.prefix (S.octets part.now.reader)) templates.new) }
    ensures told { IsTrue (S.honest part.now.reader) → IfErr result
        (λ e. IsPrefixToldOf (part_octets 0 part.now.prefix (S.octets part.now.reader))
        (S.number part.now.reader) e) }
{
    let mut window = Window::new(alloc, 0, part.prefix);
    'messages: loop {
        let at = window.place();
        if !advance(&mut window, &part.reader, faults)? {
            return Ok(());
        }
        restate(templates, alloc, window.held(), part.reader.file(), at)?;
    }
}
