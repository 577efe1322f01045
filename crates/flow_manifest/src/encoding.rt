//! The octets of a manifest.

ghost use Rattle.std.specs.Prelude.{◌≡◌, ◌++◌, OnOk, IfOk};
ghost use Rattle.std.specs.Int.{w32, w64, to_be_bytes};
ghost use Rattle.flow_manifest.specs.Manifest.{IsValidManifest, manifest_octets, head_octets, head_of, entry_octets};
ghost use Rattle.flow_manifest.specs.Manifest.{kind_number, format_2};

use crate::decoding::{ENTRY_LENGTH, HEAD_LENGTH_2};
use crate::manifest::{Entry, Kind, Manifest};
use std::alloc::{AllocError, Global};

/// The format that is written.
const FORMAT: u16 = 2;

/// The octets of a manifest, in format 2. All numbers are big-endian: format (2 octets), generation (8), width (4),
/// wide width (4), segment limit (4), next file number (8), messages rolled (8), messages wide (8), entry count (4),
/// and the entries of 32 octets each: kind (4: 1 rolled, 2 sealed, 3 active, 4 wide), prefix length (4), file (8),
/// length (8), messages (8).
pub fn encode(alloc: Global, manifest: &Manifest) -> Result<Vec<u8>, AllocError>
    requires { IsValidManifest manifest.now }
    ensures { IfOk result (λ octets. octets.items ≡ manifest_octets manifest.now) }
{
    let entries = manifest.entries.as_slice();
    let mut octets = Vec::with_capacity(alloc, HEAD_LENGTH_2 + ENTRY_LENGTH * entries.len())?;
    octets.extend_from_slice(&FORMAT.to_be_bytes())?;
    put_head(&mut octets, manifest)?;
    for entry in entries {
        put_entry(&mut octets, *entry)?;
    }
    Ok(octets)
}

/// Appends the numbers that come before the entries.
fn put_head(octets: &mut Vec<u8>, manifest: &Manifest) -> Result<(), AllocError>
    requires { IsValidManifest manifest.now }
    ensures { OnOk result (octets.new.items ≡ octets.old.items ++ head_octets format_2 (head_of manifest.now)) }
{
    put_u64(octets, manifest.generation)?;
    put_u32(octets, manifest.width)?;
    put_u32(octets, manifest.wide)?;
    put_u32(octets, manifest.limit)?;
    put_u64(octets, manifest.next)?;
    put_u64(octets, manifest.rolled)?;
    put_u64(octets, manifest.second)?;
    put_u32(octets, manifest.entries.len() as u32)?;
    Ok(())
}

fn put_entry(octets: &mut Vec<u8>, entry: Entry) -> Result<(), AllocError>
    ensures { OnOk result (octets.new.items ≡ octets.old.items ++ entry_octets entry) }
{
    put_u32(octets, number_of(entry.kind))?;
    put_u32(octets, entry.prefix)?;
    put_u64(octets, entry.file)?;
    put_u64(octets, entry.length)?;
    put_u64(octets, entry.messages)?;
    Ok(())
}

fn put_u32(octets: &mut Vec<u8>, number: u32) -> Result<(), AllocError>
    ensures { OnOk result (octets.new.items ≡ octets.old.items ++ to_be_bytes w32 number) }
{
    octets.extend_from_slice(&number.to_be_bytes())?;
    Ok(())
}

fn put_u64(octets: &mut Vec<u8>, number: u64) -> Result<(), AllocError>
    ensures { OnOk result (octets.new.items ≡ octets.old.items ++ to_be_bytes w64 number) }
{
    octets.extend_from_slice(&number.to_be_bytes())?;
    Ok(())
}

fn number_of(kind: Kind) -> u32
    ensures { result ≡ kind_number kind }
{
    match kind {
        Kind::Rolled => 1,
        Kind::Sealed => 2,
        Kind::Active => 3,
        Kind::Wide => 4,
    }
}
