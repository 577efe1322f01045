// Messages in octets, one after the other.
ghost use Rattle.std.specs.Prelude.{ℕ, List, ◌≤◌, length, IfOk, IfSome, IfNone};
ghost use Rattle.flow_gate.specs.Gate.{IsMessageAt, IsRow};
ghost use Rattle.flow_gate.specs.Scan.{texts};

use std::alloc::{AllocError, Global};

/// How many octets a message's header has (RFC 7011, 3.1).
const HEADER: usize = 16;

/// The two octets of the Version field (RFC 7011, 3.1); the second one is the message's gate.
pub(crate) const VERSION: [u8; 2] = [0, 10];

/// How many octets the closed gate after a list has.
pub(crate) const TRAILER: usize = 2;

/// How many octets the message at a place has, if a whole one is there: its Version field, and a Length of at least 16
/// that doesn't pass the end. Nothing after the Length field is looked at.
pub fn message_at(octets: &[u8], at: usize) -> Option<usize>
    ensures found { IfSome result (λ count. IsMessageAt octets.now at count) }
    ensures none { IfNone result ((count : ℕ) → IsMessageAt octets.now at count → ⊥) }
{
    if octets.len() < HEADER || at > octets.len() - HEADER {
        return None;
    }
    if octets[at] != VERSION[0] || octets[at + 1] != VERSION[1] {
        return None;
    }
    let count = octets[at + 2] as usize * 256 + octets[at + 3] as usize;
    if count < HEADER || octets.len() - at < count {
        return None;
    }
    Some(count)
}

/// The messages that fill octets from a place on, to the end, if messages do: a segment's file has no trailer once it
/// is sealed. Answers `AllocError` where a growth of memory was refused.
pub fn messages_from(
    alloc: Global,
    octets: &[u8],
    from: usize,
) -> Result<Option<Vec<Vec<u8>>>, AllocError>
    requires { from ≤ length octets.now }
    ensures found { IfOk result (λ answer. IfSome answer (λ messages. IsRow octets.now from (texts messages.items))) }
    ensures none { IfOk result (λ answer. IfNone answer ((list : List (List ℕ)) → IsRow octets.now from list → ⊥)) }
{
    let mut messages = Vec::new(alloc);
    let mut at = from;
    'messages: loop {
        if at == octets.len() {
            return Ok(Some(messages));
        }
        let Some(count) = message_at(octets, at) else {
            return Ok(None);
        };
        messages.push(octets[at..at + count].to_vec(alloc)?)?;
        at += count;
    }
}
