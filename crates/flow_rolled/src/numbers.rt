//! The first number in octets, big-endian, and numbers appended to octets.

ghost use Rattle.std.specs.Prelude.{◌≡◌, ◌≤◌, ◌++◌, length, OnOk};
ghost use Rattle.std.specs.Int.{w16, w32, w64, to_be_bytes};

use std::alloc::AllocError;

/// The number in the first 2 octets, and the octets after it.
pub(crate) fn u16_of(octets: &[u8]) -> (u16, &[u8])
    requires { 2 ≤ length octets.now }
    ensures is { octets.now ≡ to_be_bytes w16 result.0 ++ result.1.now }
{
    let (front, rest) = octets.split_at(2);
    let number = u16::from_be_bytes([front[0], front[1]]);
    (number, rest)
}

/// The number in the first 4 octets, and the octets after it.
pub(crate) fn u32_of(octets: &[u8]) -> (u32, &[u8])
    requires { 4 ≤ length octets.now }
    ensures is { octets.now ≡ to_be_bytes w32 result.0 ++ result.1.now }
{
    let (front, rest) = octets.split_at(4);
    let number = u32::from_be_bytes([front[0], front[1], front[2], front[3]]);
    (number, rest)
}

/// The number in the first 8 octets, and the octets after it.
pub(crate) fn u64_of(octets: &[u8]) -> (u64, &[u8])
    requires { 8 ≤ length octets.now }
    ensures is { octets.now ≡ to_be_bytes w64 result.0 ++ result.1.now }
{
    let (front, rest) = octets.split_at(8);
    let number = u64::from_be_bytes([
        front[0], front[1], front[2], front[3], front[4], front[5], front[6], front[7],
    ]);
    (number, rest)
}

/// Appends a number to octets.
pub(crate) fn put_u16(octets: &mut Vec<u8>, number: u16) -> Result<(), AllocError>
    ensures { OnOk result (octets.new.items ≡ octets.old.items ++ to_be_bytes w16 number) }
{
    octets.extend_from_slice(&number.to_be_bytes())?;
    Ok(())
}

/// Appends a number to octets.
pub(crate) fn put_u32(octets: &mut Vec<u8>, number: u32) -> Result<(), AllocError>
    ensures { OnOk result (octets.new.items ≡ octets.old.items ++ to_be_bytes w32 number) }
{
    octets.extend_from_slice(&number.to_be_bytes())?;
    Ok(())
}

/// Appends a number to octets.
pub(crate) fn put_u64(octets: &mut Vec<u8>, number: u64) -> Result<(), AllocError>
    ensures { OnOk result (octets.new.items ≡ octets.old.items ++ to_be_bytes w64 number) }
{
    octets.extend_from_slice(&number.to_be_bytes())?;
    Ok(())
}
