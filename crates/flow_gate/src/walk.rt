// The walk over a file's messages.
ghost use Rattle.std.specs.Prelude.{◌≡◌, ◌≢◌, ℕ, ◌+◌, ◌^◌, ◌<◌, ◌≤◌, IsTrue, List, length, IfOk, IfErr};
ghost use Rattle.std.specs.List.{All};
ghost use Rattle.flow_disk.specs.Disk.{IsDiskImage};
ghost use Rattle.flow_disk.specs.Calls.{LeavesOnly, OnlyReads};
ghost use Rattle.flow_disk.specs.Cause.{HasCause};
ghost use Rattle.flow_gate.specs.Gate.{IsWhole, IsGated, IsDamaged, octet_sum};
ghost use Rattle.flow_gate.specs.Scan.{IsFoundAt, IsTail, IsTold, IsTailRead, IsToldRead, IsGiven, IsRefused, IsNamed};
ghost use Rattle.flow_gate.specs.Scan.{texts};

use crate::messages::{TRAILER, VERSION, message_at};
use crate::tail::{Found, Tail};
use flow_disk::Disk;
use flow_refusals::ReadRefusal;
use std::alloc::Global;

/// Reads the messages from a place on, up to a closed gate. The disk stays as it is. On an honest disk it is Ok on a
/// gated list alone, and reports damage, at its place, only where there is none; a `from` past the end is damage at
/// `from`. It answers `Fault` exactly where the disk's count of failures rose.
pub fn scan<D: Disk>(alloc: Global, disk: &mut D, file: u64, from: u64) -> Result<Tail, ReadRefusal>
    // On every disk.
    ensures reads { OnlyReads D.Disk disk.old disk.new file }
    ensures size { IfOk result (λ tail. tail.end + 2 ≤ (D.marks disk.new file).size) }
    ensures ends { IfOk result (λ tail. tail.end ≡ from + octet_sum (texts tail.messages.items)) }
    ensures whole { IfOk result (λ tail. All IsWhole (texts tail.messages.items)) }
    ensures names { IfErr result (λ e. IsNamed file from e) }
    ensures cause { HasCause ReadRefusal.Fault (D.faults disk.old) (D.faults disk.new) result }

    // On an honest one.
    ensures found { IsTrue (D.honest disk.old)
        → IfOk result (λ tail. IsTail (D.held disk.old file).reads from tail.end tail.messages.items) }
    ensures damaged { IsTrue (D.honest disk.old) → IfErr result (λ e. IsTold (D.held disk.old file).reads file from e) }
    ensures given { IsTrue (D.honest disk.old) → (list : List (List ℕ))
        → IsGated (D.held disk.old file).reads from list → IsGiven list from result }
    ensures refused { IsTrue (D.honest disk.old) → (at : ℕ) → IsDamaged (D.held disk.old file).reads from at
        → IsRefused file at result }
    ensures any_moment { IsTrue (D.honest disk.old)
        → LeavesOnly D.Disk disk.old disk.new (IsDiskImage (D.held disk.old)) }
{
    let size = disk.length(file)?;
    if from > size {
        return Err(ReadRefusal::Damaged(file, from));
    }
    let octets = disk.read(alloc, file, from, (size - from) as usize)?;
    walk(alloc, &octets, file, from)
}

/// The messages of octets that were read from place `from` on.
fn walk(alloc: Global, octets: &[u8], file: u64, from: u64) -> Result<Tail, ReadRefusal>
    requires { from + length octets.now < 2 ^ 64 }
    ensures found { IfOk result (λ tail. IsTailRead octets.now from tail.end tail.messages.items) }
    ensures told { IfErr result (λ e. IsToldRead octets.now file from e) }
{
    let mut messages = Vec::new(alloc);
    let mut at = 0;
    'messages: loop {
        match found_at(octets, at) {
            Found::Closed => {
                return Ok(Tail {
                    end: from + at as u64,
                    messages,
                });
            }
            Found::Message(count) => {
                messages.push(octets[at..at + count].to_vec(alloc)?)?;
                at += count;
            }
            Found::Damage => return Err(ReadRefusal::Damaged(file, from + at as u64)),
        }
    }
}

/// What is at a place.
fn found_at(octets: &[u8], at: usize) -> Found
    ensures { IsFoundAt octets.now at result }
{
    if octets.len() < TRAILER || at > octets.len() - TRAILER || octets[at] != VERSION[0] {
        return Found::Damage;
    }
    if octets[at + 1] != VERSION[1] {
        return Found::Closed;
    }
    match message_at(octets, at) {
        Some(count) if octets.len() - at - count >= TRAILER => Found::Message(count),
        _ => Found::Damage,
    }
}
