//! A message from its octets.

ghost use Rattle.std.specs.Prelude.{◌≡◌, ◌≢◌, ◌<◌, ℕ, List, ◌++◌, IfOk, IfSome, IfNone};
ghost use Rattle.flow_rolled.specs.Messages.{RolledMessage};
ghost use Rattle.flow_rolled.specs.Octets.{rolled_header_octets, message_octets, IsRolledMessage};
ghost use Rattle.flow_rolled.specs.Reading.{data_of};

use crate::message::Message;
use crate::numbers::{u16_of, u32_of};
use crate::set_reading::rows_of_sets;
use std::alloc::{AllocError, Global};

/// How many octets a message's header has.
const HEADER_LENGTH: usize = 16;

/// The version of IPFIX (RFC 7011, section 3.1).
pub(crate) const VERSION: u16 = 10;

/// The numbers of a message's header.
#[derive(Clone, Copy)]
struct Header {
    len: u16,
    time: u32,
    sequence: u32,
    domain: u32,
}

/// The header with which octets begin, and the octets after it.
fn header_of(octets: &[u8]) -> Option<(Header, &[u8])>
    ensures found { IfSome result
        (λ x. octets.now ≡ rolled_header_octets x.0.len x.0.time x.0.sequence x.0.domain ++ x.1.now) }
    ensures none { IfNone result ((width : ℕ) (p : RolledMessage) (more : List ℕ)
        → octets.now ≢ message_octets width p ++ more) }
{
    if octets.len() < HEADER_LENGTH {
        return None;
    }
    let (version, rest) = u16_of(octets);
    if version != VERSION {
        return None;
    }
    let (len, rest) = u16_of(rest);
    let (time, rest) = u32_of(rest);
    let (sequence, rest) = u32_of(rest);
    let (domain, rest) = u32_of(rest);
    let header = Header {
        len,
        time,
        sequence,
        domain,
    };
    Some((header, rest))
}

/// The message of a rolled file with which octets begin, whatever comes before it, and the octets after it.
pub(crate) fn message_at<'a>(
    alloc: Global,
    octets: &'a [u8],
    width: u32,
) -> Result<Option<(Message, &'a [u8])>, AllocError>
    requires { 0 < width }
    ensures found { IfOk result (λ o. IfSome o (λ x. octets.now ≡ message_octets width (data_of x.0) ++ x.1.now)) }
    ensures part { IfOk result (λ o. IfSome o (λ x. IsRolledMessage width (data_of x.0))) }
    ensures none { IfOk result (λ o. IfNone o ((p : RolledMessage) (more : List ℕ) → IsRolledMessage width p
        → octets.now ≢ message_octets width p ++ more)) }
{
    let Some((header, rest)) = header_of(octets) else {
        return Ok(None);
    };
    let len = header.len as usize;
    if len < HEADER_LENGTH || len - HEADER_LENGTH > rest.len() {
        return Ok(None);
    }
    let (sets, after) = rest.split_at(len - HEADER_LENGTH);
    let Some(rows) = rows_of_sets(alloc, sets, width, header.domain)? else {
        return Ok(None);
    };
    let message = Message {
        time: header.time,
        sequence: header.sequence,
        domain: header.domain,
        rows,
    };
    Ok(Some((message, after)))
}
