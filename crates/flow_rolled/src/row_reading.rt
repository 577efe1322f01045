//! A row from its octets.

ghost use Rattle.std.specs.Prelude.{◌≡◌, ◌≢◌, ◌≤◌, ◌<◌, ◌+◌, ◌-◌, ◌*◌, ◌%◌, ◌^◌, ℕ, List, ◌++◌, length, Option, None};
ghost use Rattle.std.specs.Prelude.{Some, IfSome, IfNone, is_some};
ghost use Rattle.flow_rolled.specs.declared.row.RolledRow.{RolledRow};
ghost use Rattle.flow_rolled.specs.Octets.{row_octets, protocol_octets, IsOf};

use crate::numbers::u64_of;
use crate::row::RolledRow;
use flow_measure::Key;

/// The protocol with which octets begin, where rows have one, and the octets after it.
fn protocol_of(octets: &[u8], with: bool) -> (Option<u8>, &[u8])
    requires { 1 ≤ length octets.now }
    ensures is { octets.now ≡ protocol_octets result.0 ++ result.1.now }
    ensures kind { is_some result.0 ≡ with }
{
    if with {
        return (Some(octets[0]), &octets[1..]);
    }
    (None, octets)
}

/// The start in seconds of the interval with these first and last milliseconds, where there is one.
fn interval_start(first: u64, last: u64, width: u32) -> Option<u32>
    requires { 0 < width }
    ensures found { IfSome result (λ s. (s < 2 ^ 32) × (s % width ≡ 0) × (first ≡ s * 1000)
        × (last ≡ (s + width) * 1000 - 1)) }
    ensures none { IfNone result ((s : ℕ) → s < 2 ^ 32 → s % width ≡ 0 → first ≡ s * 1000
        → last ≢ (s + width) * 1000 - 1) }
{
    let start = u32::try_from(first / 1000).ok()?;
    if first % 1000 == 0
        && start % width == 0
        && last == (u64::from(start) + u64::from(width)) * 1000 - 1
    {
        return Some(start);
    }
    None
}

/// The first row in a Set's octets, in which all rows have a protocol or none has, and the octets after it.
pub(crate) fn take_row(
    octets: &[u8],
    width: u32,
    domain: u32,
    with: bool,
) -> Option<(RolledRow, &[u8])>
    requires { 0 < width }
    ensures found { IfSome result (λ x. (octets.now ≡ row_octets width x.0 ++ x.1.now) × IsOf width domain with x.0) }
    ensures none { IfNone result ((r : RolledRow) (more : List ℕ) → IsOf width domain with r
        → octets.now ≢ row_octets width r ++ more) }
{
    let size = if with { 41 } else { 40 };
    if octets.len() < size {
        return None;
    }
    let (first, rest) = u64_of(octets);
    let (last, rest) = u64_of(rest);
    let (protocol, rest) = protocol_of(rest, with);
    let (flows, rest) = u64_of(rest);
    let (sum, rest) = u64_of(rest);
    let (packets, rest) = u64_of(rest);
    let start = interval_start(first, last, width)?;
    let key = Key {
        start,
        domain,
        protocol,
    };
    let row = RolledRow {
        key,
        flows,
        octets: sum,
        packets,
    };
    Some((row, rest))
}
