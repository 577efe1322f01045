//! The messages of a part of a file, read piece by piece.

ghost use Rattle.std.specs.Prelude.{◌≡◌, ◌+◌, ◌<◌, ◌≤◌, ◌^◌, IsTrue, length};
ghost use Rattle.flow_disk.specs.Cause.{HasCause};
ghost use Rattle.flow_disk.specs.Disk.{IsDiskImage, Stays};
ghost use Rattle.flow_disk.specs.Calls.{LeavesOnly};
ghost use Rattle.flow_codec.specs.Cutting.{length_of};
ghost use Rattle.flow_disk.specs.Window.{IsOn, IsReady};
ghost use Rattle.flow_segment.specs.Part.{Holds, IsHeld, IsPartStep, Moves};

use flow_codec::front_of;
use flow_disk::{Disk, Faults, SealedFile, Window};
use flow_refusals::ReadRefusal;
use std::alloc::Global;

/// The most octets that a message has.
const GREATEST_MESSAGE: usize = 65_535;

/// Holds the next message.
fn step(window: &mut Window, file: u64) -> Result<bool, ReadRefusal>
    requires { IsReady 65535 window.old }
    ensures held { IsHeld file window.old result window.new }
    ensures moves { Moves window.old result window.new }
    ensures ready { IsReady 65535 window.old }
    ensures field { length_of window.old.ahead < 2 ^ 16 }
    ensures within { window.old.place + length window.old.ahead ≤ window.old.end }
{
    let at = window.place();
    // Lets go of the message that was held.
    window.pass(0);
    keep_field(window.ahead());
    if at == window.end() {
        return Ok(false);
    }
    match front_of(at, window.ahead()) {
        Err(_) => Err(ReadRefusal::Damaged(file, at)),
        Ok(length) => {
            window.pass(length);
            Ok(true)
        }
    }
}

/// A Length field has 16 bits. A call says so to proofs, and does nothing.
fn keep_field(octets: &[u8])
    ensures { length_of octets.now < 2 ^ 16 }
{
    let _ = octets;
}

/// Reads the next message of a part of a frozen file, which the window then holds; `false` at the part's end, where it
/// holds none. Where the octets are no message it answers `Damaged`, with the file and the place; `Fault` exactly where
/// this read has raised `faults`; and `OutOfMemory`. After an `Err` the window's place is as it was; after `Damaged` it
/// holds no message any more, after the others the one that it held.
///
/// It reads 262,144 octets at a time, so the device is read once for many messages.
pub fn advance<F: SealedFile>(
    window: &mut Window,
    file: &F,
    faults: &mut Faults<F>,
) -> Result<bool, ReadRefusal>
    requires room { window.old.end ≤ F.size file.now }

    // On every disk.
    ensures end { window.new.end ≡ window.old.end }
    ensures moves { Moves window.old result window.new }
    ensures holds { Holds window.old result window.new }
    ensures cause { HasCause ReadRefusal.Fault faults.old faults.new result }

    // On an honest one.
    ensures step { IsTrue (F.honest file.now) → IsOn (F.octets file.now) window.old
        → IsOn (F.octets file.now) window.new
        × IsPartStep (F.octets file.now) (F.number file.now) window.old result window.new }
{
    window.fill(GREATEST_MESSAGE, file, faults)?;
    step(window, file.file())
}

/// The same of a file of a disk that isn't frozen. The disk stays as it is.
pub fn advance_on<D: Disk>(
    window: &mut Window,
    alloc: Global,
    disk: &mut D,
    file: u64,
) -> Result<bool, ReadRefusal>
    requires room { window.old.end ≤ (D.marks disk.old file).size }

    // On every disk.
    ensures honest { D.honest disk.new ≡ D.honest disk.old }
    ensures clock { D.moment disk.old ≤ D.moment disk.new }
    ensures marks { Stays (D.marks disk.old) (D.marks disk.new) }
    ensures end { window.new.end ≡ window.old.end }
    ensures moves { Moves window.old result window.new }
    ensures holds { Holds window.old result window.new }
    ensures cause { HasCause ReadRefusal.Fault (D.faults disk.old) (D.faults disk.new) result }

    // On an honest one.
    ensures held { IsTrue (D.honest disk.old) → Stays (D.held disk.old) (D.held disk.new) }
    ensures step { IsTrue (D.honest disk.old) → IsOn (D.held disk.old file).reads window.old
        → IsOn (D.held disk.old file).reads window.new
        × IsPartStep (D.held disk.old file).reads file window.old result window.new }
    ensures any_moment { IsTrue (D.honest disk.old)
        → LeavesOnly D.Disk disk.old disk.new (IsDiskImage (D.held disk.old)) }
{
    if let Some(count) = window.missing(GREATEST_MESSAGE) {
        let piece = disk.read(alloc, file, window.place(), count)?;
        window.feed(piece);
    }
    step(window, file)
}
