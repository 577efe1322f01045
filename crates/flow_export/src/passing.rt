//! What a file passes on to a message of it.

ghost use Rattle.std.specs.Prelude.{◌≡◌, ◌≢◌, ⊤, ℕ, List, IfErr, IfOk, OnOk};
ghost use Rattle.flow_codec.specs.Message.{IsAccepted};
ghost use Rattle.flow_codec.specs.Templates.{AllTemplates};
ghost use Rattle.flow_export.specs.Export.{PassesOn, PrefixPasses};
ghost use Rattle.flow_measure.specs.History.{Accepted, AreAcceptedFrom};
ghost use Rattle.flow_segment.specs.Batch.{AreTaken};
ghost use Rattle.flow_segment.specs.Carry.{carry_with, no_carry, octets_of, IsTaken};
ghost use Rattle.flow_segment.specs.Prefix.{IsRestated};
ghost use Rattle.flow_snapshot.specs.Answered.{IsAnswered};

use bytes::Bytes;
use flow_codec::{MessageError, front_of};
use flow_refusals::ReadRefusal;
use flow_segment::Carry;
use std::alloc::Global;

/// Takes in a message of a file, which is at this place. One that isn't accepted is damage.
pub(crate) fn take_in(
    carry: &mut Carry,
    alloc: Global,
    octets: &[u8],
    file: u64,
    at: u64,
) -> Result<(), ReadRefusal>
    ensures taken { OnOk result (IsTaken octets.now carry.old carry.new) }
    ensures given { (a : Accepted) → a.octets ≡ octets.now
        → IsAccepted octets.now carry.old.templates a.message a.after
        → IsAnswered (λ _. carry.new ≡ carry_with carry.old a) result }
    ensures quiet { IfErr result (λ e. e ≢ ReadRefusal.Fault) }
{
    match carry.take(alloc, octets) {
        Ok(()) => Ok(()),
        Err(MessageError::OutOfMemory) => Err(ReadRefusal::OutOfMemory),
        Err(_) => Err(ReadRefusal::Damaged(file, at)),
    }
}

/// Takes in the messages of a prefix, after nothing.
fn pass_prefix(
    carry: &mut Carry,
    alloc: Global,
    file: u64,
    prefix: &[u8],
) -> Result<(), ReadRefusal>
    requires { carry.old ≡ no_carry 0 }
    ensures found { OnOk result (PrefixPasses prefix.now carry.new) }
    ensures given { (all : AllTemplates) → IsRestated prefix.now all
        → IsAnswered (λ _. carry.new.templates ≡ all) result }
    ensures quiet { IfErr result (λ e. e ≢ ReadRefusal.Fault) }
{
    let mut rest = prefix;
    'messages: while !rest.is_empty() {
        let at = (prefix.len() - rest.len()) as u64;
        let Ok(length) = front_of(0, rest) else {
            return Err(ReadRefusal::Damaged(file, at));
        };
        let (message, more) = rest.split_at(length);
        take_in(carry, alloc, message, file, at)?;
        rest = more;
    }
    Ok(())
}

/// Takes in messages of a file, the first of which is at this place.
fn take_all(
    carry: &mut Carry,
    alloc: Global,
    messages: &[Bytes],
    file: u64,
    from: u64,
) -> Result<(), ReadRefusal>
    ensures found { OnOk result (AreTaken messages.now carry.old carry.new) }
    ensures given { (list : List Accepted) → AreAcceptedFrom carry.old.templates list
        → octets_of list ≡ messages.now → IsAnswered (λ _. ⊤) result }
    ensures quiet { IfErr result (λ e. e ≢ ReadRefusal.Fault) }
{
    let mut at = from;
    for message in messages {
        let octets = message.as_slice();
        take_in(carry, alloc, octets, file, at)?;
        at = at.saturating_add(octets.len() as u64);
    }
    Ok(())
}

/// Takes in a file's prefix, after nothing, and its first messages, so many.
fn pass(
    carry: &mut Carry,
    alloc: Global,
    file: u64,
    prefix: &[u8],
    messages: &[Bytes],
    count: u64,
) -> Result<(), ReadRefusal>
    requires { carry.old ≡ no_carry 0 }
    ensures found { OnOk result
        (PassesOn (record { prefix = prefix.now; messages = messages.now }) count carry.new) }
    ensures given { (before : AllTemplates) (list : List Accepted) → IsRestated prefix.now before
        → AreAcceptedFrom before list → octets_of list ≡ messages.now → IsAnswered (λ _. ⊤) result }
    ensures quiet { IfErr result (λ e. e ≢ ReadRefusal.Fault) }
{
    pass_prefix(carry, alloc, file, prefix)?;
    let most = messages.len() as u64;
    let first = &messages[..count.min(most) as usize];
    take_all(carry, alloc, first, file, prefix.len() as u64)
}

/// What a file passes on to the message after its first ones, so many: its number, its prefix and its messages are
/// given.
pub(crate) fn passed_on(
    alloc: Global,
    file: u64,
    prefix: &[u8],
    messages: &[Bytes],
    count: u64,
) -> Result<Carry, ReadRefusal>
    ensures found { IfOk result (λ carry.
        PassesOn (record { prefix = prefix.now; messages = messages.now }) count carry) }
    ensures given { (before : AllTemplates) (list : List Accepted) → IsRestated prefix.now before
        → AreAcceptedFrom before list → octets_of list ≡ messages.now → IsAnswered (λ _. ⊤) result }
    ensures quiet { IfErr result (λ e. e ≢ ReadRefusal.Fault) }
{
    let mut carry = Carry::new(alloc);
    pass(&mut carry, alloc, file, prefix, messages, count)?;
    Ok(carry)
}
