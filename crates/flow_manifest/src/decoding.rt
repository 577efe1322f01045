//! A manifest from its octets.

ghost use Rattle.std.specs.Prelude.{◌≡◌, ◌≢◌, ◌⊎◌, ◌+◌, ◌*◌, ◌/◌, ◌≤◌, ℕ, List, ◌++◌, length, Ok, Err, IfOk, IfErr};
ghost use Rattle.std.specs.Prelude.{IsErrAnd, IfSome, IfNone};
ghost use Rattle.std.specs.List.{flat_map, AllByRecursion};
ghost use Rattle.std.specs.Int.{w16, w32, w64, to_be_bytes};
ghost use Rattle.flow_manifest.specs.Limits.{greatest_width};
ghost use Rattle.flow_manifest.specs.declared.error.ManifestError.{ManifestError};
ghost use Rattle.flow_manifest.specs.declared.manifest.Entry.{Entry};
ghost use Rattle.flow_manifest.specs.declared.manifest.Kind.{Kind};
ghost use Rattle.flow_manifest.specs.declared.manifest.Manifest.{Manifest};
ghost use Rattle.flow_manifest.specs.Manifest.{IsBody, IsSaid, IsValidManifest, FitsHead, FitsEntry, head_of};
ghost use Rattle.flow_manifest.specs.Manifest.{entry_octets};
ghost use Rattle.flow_manifest.specs.Manifest.{kind_number, head_octets, format_1, format_2};
ghost use Rattle.flow_manifest.specs.Fault.{IsFault, IsFaultBehind, IsDecoded};

use crate::checks::{is_in_range, is_valid};
use crate::error::ManifestError;
use crate::head::Head;
use crate::limits::GREATEST_WIDTH;
use crate::manifest::{Entries, Entry, Kind, Manifest};
use std::alloc::Global;

/// How many octets come before the entries in format 1.
const HEAD_LENGTH_1: usize = 38;

/// How many octets come before the entries in format 2.
pub(crate) const HEAD_LENGTH_2: usize = 50;

/// How many octets an entry has.
pub(crate) const ENTRY_LENGTH: usize = 32;

/// The manifest whose octets these are, in format 2 or in format 1, which has neither the wide width nor the messages
/// wide: there the wide width is the greatest multiple of the width up to 86,400 seconds, and no messages are wide.
///
/// Else the first fault: fewer than 2 octets, 23 Cut; an unknown format, 21 Format; fewer octets than come before the
/// entries, 23 Cut; width, wide width, segment limit or entry count out of range, 22 Entries; another count of octets
/// than that of the entries, 23 Cut; entries that aren't those of a valid manifest, 22 Entries. 11 OutOfMemory may come
/// at any place.
pub fn decode(alloc: Global, octets: &[u8]) -> Result<Manifest, ManifestError>
    // Octets that are taken are a valid manifest's.
    ensures found { IfOk result (λ m. IsBody octets.now m) }
    // A valid manifest's octets are taken, unless memory runs out.
    ensures only { (m : Manifest) → IsBody octets.now m → IsDecoded result m }
    // Octets that are refused have this first fault, unless memory ran out.
    ensures fault { IfErr result (λ e. (e ≡ ManifestError.OutOfMemory) ⊎ IsFault octets.now e) }
    // Octets with a fault are refused for it, unless memory runs out.
    ensures refused { (d : ManifestError) → IsFault octets.now d
        → IsErrAnd result (λ e. (e ≡ ManifestError.OutOfMemory) ⊎ (e ≡ d)) }
{
    if octets.len() < 2 {
        return Err(ManifestError::Cut);
    }
    let (format, behind) = u16_of(octets);
    match format {
        1 => {
            if octets.len() < HEAD_LENGTH_1 {
                return Err(ManifestError::Cut);
            }
            let (head, rest) = head_1_of(behind);
            manifest_of(alloc, head, rest)
        }
        2 => {
            if octets.len() < HEAD_LENGTH_2 {
                return Err(ManifestError::Cut);
            }
            let (head, rest) = head_2_of(behind);
            manifest_of(alloc, head, rest)
        }
        _ => Err(ManifestError::Format),
    }
}

/// The numbers after the format in format 1, and the octets of the entries.
fn head_1_of(octets: &[u8]) -> (Head, &[u8])
    requires { 36 ≤ length octets.now }
    ensures is { octets.now ≡ head_octets format_1 result.0 ++ result.1.now }
    ensures fits { FitsHead result.0 }
    ensures said { IsSaid format_1 result.0 }
{
    let (generation, rest) = u64_of(octets);
    let (width, rest) = u32_of(rest);
    let (limit, rest) = u32_of(rest);
    let (next, rest) = u64_of(rest);
    let (rolled, rest) = u64_of(rest);
    let (count, rest) = u32_of(rest);
    let head = Head {
        generation,
        width,
        wide: greatest_multiple(width),
        limit,
        next,
        rolled,
        second: 0,
        count,
    };
    (head, rest)
}

/// The numbers after the format in format 2, and the octets of the entries.
fn head_2_of(octets: &[u8]) -> (Head, &[u8])
    requires { 48 ≤ length octets.now }
    ensures is { octets.now ≡ head_octets format_2 result.0 ++ result.1.now }
    ensures fits { FitsHead result.0 }
{
    let (generation, rest) = u64_of(octets);
    let (width, rest) = u32_of(rest);
    let (wide, rest) = u32_of(rest);
    let (limit, rest) = u32_of(rest);
    let (next, rest) = u64_of(rest);
    let (rolled, rest) = u64_of(rest);
    let (second, rest) = u64_of(rest);
    let (count, rest) = u32_of(rest);
    let head = Head {
        generation,
        width,
        wide,
        limit,
        next,
        rolled,
        second,
        count,
    };
    (head, rest)
}

/// The greatest multiple of a width up to 86,400 seconds; 0 of a width of 0, which is out of range.
fn greatest_multiple(width: u32) -> u32
    ensures is { result ≡ greatest_width / width * width }
{
    if width == 0 {
        return 0;
    }
    GREATEST_WIDTH / width * width
}

/// The manifest with these numbers, and with the entries that follow them.
fn manifest_of(alloc: Global, head: Head, octets: &[u8]) -> Result<Manifest, ManifestError>
    requires { FitsHead head }
    ensures found { IfOk result (λ m. IsValidManifest m × (head_of m ≡ head)
        × (flat_map entry_octets m.entries ≡ octets.now)) }
    ensures fault { IfErr result (λ e. (e ≡ ManifestError.OutOfMemory) ⊎ IsFaultBehind head octets.now e) }
{
    if !is_in_range(&head) {
        return Err(ManifestError::Entries);
    }
    if octets.len() != ENTRY_LENGTH * head.count as usize {
        return Err(ManifestError::Cut);
    }
    let entries = entries_of(alloc, octets)?;
    let manifest = Manifest {
        generation: head.generation,
        width: head.width,
        wide: head.wide,
        limit: head.limit,
        next: head.next,
        rolled: head.rolled,
        second: head.second,
        entries: Entries::from_vec(entries),
    };
    if !is_valid(&manifest) {
        return Err(ManifestError::Entries);
    }
    Ok(manifest)
}

/// The entries in these octets, one after the other.
fn entries_of(alloc: Global, octets: &[u8]) -> Result<Vec<Entry>, ManifestError>
    ensures found { IfOk result (λ entries. flat_map entry_octets entries.items ≡ octets.now) }
    ensures fit { IfOk result (λ entries. AllByRecursion FitsEntry entries.items) }
    ensures fault { IfErr result (λ e. (e ≡ ManifestError.OutOfMemory)
        ⊎ ((e ≡ ManifestError.Entries) × ((entries : List Entry) → flat_map entry_octets entries ≢ octets.now))) }
{
    let mut entries = Vec::with_capacity(alloc, octets.len() / ENTRY_LENGTH)?;
    let mut rest = octets;
    while rest.len() >= ENTRY_LENGTH {
        let Some((entry, after)) = entry_of(rest) else {
            return Err(ManifestError::Entries);
        };
        entries.push(entry)?;
        rest = after;
    }
    if !rest.is_empty() {
        return Err(ManifestError::Entries);
    }
    Ok(entries)
}

/// The first entry, if its kind is one of the four, and the octets after it.
fn entry_of(octets: &[u8]) -> Option<(Entry, &[u8])>
    requires { 32 ≤ length octets.now }
    ensures found { IfSome result (λ x. octets.now ≡ entry_octets x.0 ++ x.1.now) }
    ensures fits { IfSome result (λ x. FitsEntry x.0) }
    ensures other { IfNone result ((entry : Entry) (rest : List ℕ) → entry_octets entry ++ rest ≢ octets.now) }
{
    let (number, rest) = u32_of(octets);
    let kind = kind_of(number)?;
    let (prefix, rest) = u32_of(rest);
    let (file, rest) = u64_of(rest);
    let (length, rest) = u64_of(rest);
    let (messages, rest) = u64_of(rest);
    let entry = Entry {
        kind,
        prefix,
        file,
        length,
        messages,
    };
    Some((entry, rest))
}

fn kind_of(number: u32) -> Option<Kind>
    ensures found { IfSome result (λ kind. kind_number kind ≡ number) }
    ensures other { IfNone result ((kind : Kind) → kind_number kind ≢ number) }
{
    match number {
        1 => Some(Kind::Rolled),
        2 => Some(Kind::Sealed),
        3 => Some(Kind::Active),
        4 => Some(Kind::Wide),
        _ => None,
    }
}

/// The number in the first 2 octets, and the octets after it.
fn u16_of(octets: &[u8]) -> (u16, &[u8])
    requires { 2 ≤ length octets.now }
    ensures is { octets.now ≡ to_be_bytes w16 result.0 ++ result.1.now }
    ensures len { length result.1.now + 2 ≡ length octets.now }
{
    let (front, rest) = octets.split_at(2);
    let number = u16::from_be_bytes([front[0], front[1]]);
    (number, rest)
}

/// The number in the first 4 octets, and the octets after it.
fn u32_of(octets: &[u8]) -> (u32, &[u8])
    requires { 4 ≤ length octets.now }
    ensures is { octets.now ≡ to_be_bytes w32 result.0 ++ result.1.now }
    ensures len { length result.1.now + 4 ≡ length octets.now }
{
    let (front, rest) = octets.split_at(4);
    let number = u32::from_be_bytes([front[0], front[1], front[2], front[3]]);
    (number, rest)
}

/// The number in the first 8 octets, and the octets after it.
fn u64_of(octets: &[u8]) -> (u64, &[u8])
    requires { 8 ≤ length octets.now }
    ensures is { octets.now ≡ to_be_bytes w64 result.0 ++ result.1.now }
    ensures len { length result.1.now + 8 ≡ length octets.now }
{
    let (front, rest) = octets.split_at(8);
    let number = u64::from_be_bytes([
        front[0], front[1], front[2], front[3], front[4], front[5], front[6], front[7],
    ]);
    (number, rest)
}
