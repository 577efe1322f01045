//! A sealed segment, read by what no program calls: message by message, all at once, and by its flows.

ghost use Rattle.std.specs.Prelude.{◌≡◌, false};

use crate::lies::memory;
use crate::messages::PLAIN;
use flow_disk::{Disk, DiskError, Faults, SealedFile};
use flow_measure::Flow;
use flow_segment::{PartReader, SealedPart, flows_of, messages_of};
use std::alloc::Global;
use std::test::*;

/// The flow of the message.
const THE_FLOW: Flow = Flow {
    domain: 7,
    start: 1_700_000_000,
    protocol: Some(6),
    octets: 1_500,
    packets: 10,
};

/// A frozen file of these octets.
pub(crate) fn frozen<D: Disk>(disk: &mut D, octets: &[u8]) -> Result<D::Sealed, DiskError>
    requires { (D.marks disk.old 4).frozen ≡ false }
{
    disk.write_at(4, 0, octets)?;
    disk.sync(4)?;
    disk.freeze(4)
}

/// Whether the next message is this one, and none where there is to be none.
fn is_next<S: SealedFile>(
    alloc: Global,
    reader: &mut PartReader<'_, S>,
    wanted: Option<&[u8]>,
) -> bool {
    match reader.next(alloc, &mut Faults::new()) {
        Ok(Some(message)) => wanted == Some(message.as_slice()),
        Ok(None) => wanted.is_none(),
        Err(_) => false,
    }
}

/// Whether a segment has the one message, read message by message up to the end, which is asked for twice.
fn one_by_one<S: SealedFile>(alloc: Global, part: &SealedPart<S>) -> bool {
    let mut reader = PartReader::new(alloc, part);
    is_next(alloc, &mut reader, Some(&PLAIN))
        && is_next(alloc, &mut reader, None)
        && is_next(alloc, &mut reader, None)
}

/// Whether it has the one message, all at once.
fn at_once<S: SealedFile>(alloc: Global, part: &SealedPart<S>) -> bool {
    match messages_of(alloc, part, &mut Faults::new()) {
        Ok(messages) => messages.len() == 1 && messages[0].as_slice() == PLAIN.as_slice(),
        Err(_) => false,
    }
}

/// Whether it has the one flow.
fn has_flow<S: SealedFile>(alloc: Global, part: &SealedPart<S>) -> bool {
    match flows_of(alloc, part, &mut Faults::new()) {
        Ok(flows) => flows.as_slice() == [THE_FLOW].as_slice(),
        Err(_) => false,
    }
}

/// Whether a frozen file is a segment of the message.
fn is_segment<S: SealedFile>(alloc: Global, file: S) -> bool {
    if file.length() != 57 {
        return false;
    }
    let part = SealedPart {
        reader: file,
        prefix: 0,
        length: 57,
        messages: 1,
        span: None,
    };
    one_by_one(alloc, &part) && at_once(alloc, &part) && has_flow(alloc, &part)
}

/// Whether it is one in memory.
fn is_in_memory(alloc: Global) -> Result<bool, DiskError> {
    let mut disk = memory(alloc)?;
    let file = frozen(&mut disk, &PLAIN)?;
    Ok(is_segment(alloc, file))
}

#[test]
fn a_segment(rt: HostRuntime) -> Result<(), Fail> {
    assert!(rt; is_in_memory(rt.alloc())?);
    Ok(())
}
