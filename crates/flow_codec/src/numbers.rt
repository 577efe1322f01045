//! Numbers that octets begin with, in network octet order.

ghost use Rattle.std.specs.Prelude.{◌≡◌, ◌+◌, length, IfOk};
ghost use Rattle.std.specs.Int.{w16, w32};
ghost use Rattle.flow_codec.specs.Reading.{Gives, number_at};

use crate::error::MessageError;

/// The number in the first 2 octets, and the octets after it.
pub(crate) fn u16_at(cut: MessageError, octets: &[u8]) -> Result<(u16, &[u8]), MessageError>
    ensures exact { Gives (λ x. (x.0, x.1.now)) result (number_at cut w16 octets.now) }
    ensures len { IfOk result (λ x. length x.1.now + 2 ≡ length octets.now) }
{
    if octets.len() < 2 {
        return Err(cut);
    }
    let (front, rest) = octets.split_at(2);
    let number = u16::from_be_bytes([front[0], front[1]]);
    Ok((number, rest))
}

/// The number in the first 4 octets, and the octets after it.
pub(crate) fn u32_at(cut: MessageError, octets: &[u8]) -> Result<(u32, &[u8]), MessageError>
    ensures exact { Gives (λ x. (x.0, x.1.now)) result (number_at cut w32 octets.now) }
    ensures len { IfOk result (λ x. length x.1.now + 4 ≡ length octets.now) }
{
    if octets.len() < 4 {
        return Err(cut);
    }
    let (front, rest) = octets.split_at(4);
    let number = u32::from_be_bytes([front[0], front[1], front[2], front[3]]);
    Ok((number, rest))
}
