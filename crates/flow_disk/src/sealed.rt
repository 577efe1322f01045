// A frozen file.
ghost use Rattle.std.specs.Prelude.{◌≡◌, ℕ, ◌+◌, ◌≤◌, Bool, IsTrue, List, length, take, drop, IfOk, OnOk, IsErrOf};
ghost use Rattle.std.specs.Prelude.{vec_len};
ghost use Rattle.flow_disk.specs.Cause.{HasCause};

use crate::{DiskError, Faults};
use std::alloc::Global;

/// How a frozen file's read shows a fault. It is a trait apart from `SealedFile`, so that the read itself can raise a
/// count of its own kind.
pub trait MayFail {
    /// Evidence that a read of such a file has failed. The code of its device alone makes one, so nothing above it can
    /// make up a failure. For a file whose reads can't fail it is a type without values.
    type Failure;
}

/// A file that no call changes for as long as this value exists. Its meaning is its octets.
pub trait SealedFile: MayFail + Drop {
    /// On an honest disk, the octets of the file.
    ghost octets: { Self → List ℕ };

    /// The file's number on its disk.
    ghost number: { Self → ℕ };

    /// How many octets the file has.
    ghost size: { Self → ℕ };

    /// Whether reads give the file's octets.
    ghost honest: { Self → Bool };

    /// Where a read at this place of so many octets may answer a fault.
    ghost can_fail: { Self → ℕ → ℕ → Type 0 };

    /// The file's number on its disk.
    fn file(&self) -> u64
        ensures { result ≡ number self.now };

    /// How many octets the file has.
    fn length(&self) -> u64
        ensures { result ≡ size self.now };

    /// Reads octets from place `at` on, over all those of `buffer`. Answers `OutOfMemory`, or `Fault` exactly where this
    /// read failed and has raised `faults`. After an `Err` those of `buffer` may be any.
    fn read_into(
        &self,
        faults: &mut Faults<Self>,
        at: u64,
        buffer: &mut [u8],
    ) -> Result<(), DiskError>
        requires { at + length buffer.old ≤ size self.now }
        ensures octets { IsTrue (honest self.now)
            → OnOk result (buffer.new ≡ take (length buffer.old) (drop at (octets self.now))) }
        ensures cause { HasCause DiskError.Fault faults.old faults.new result }
        ensures able { IsErrOf result DiskError.Fault → can_fail self.now at (length buffer.old) };

    /// Reads `count` octets from place `at` on, into memory of their own. Answers `OutOfMemory`, or `Fault` exactly
    /// where this read failed and has raised `faults`.
    fn read(
        &self,
        alloc: Global,
        faults: &mut Faults<Self>,
        at: u64,
        count: usize,
    ) -> Result<Vec<u8>, DiskError>
        requires { at + count ≤ size self.now }
        ensures count { IfOk result (λ got. vec_len got ≡ count) }
        ensures octets { IfOk result (λ got. IsTrue (honest self.now)
            → got.items ≡ take count (drop at (octets self.now))) }
        ensures cause { HasCause DiskError.Fault faults.old faults.new result }
        ensures able { IsErrOf result DiskError.Fault → can_fail self.now at count }
    {
        let mut octets = vec![in alloc; 0u8; count]?;
        self.read_into(faults, at, &mut octets)?;
        Ok(octets)
    }

    /// An honest file has its octets.
    ghost whole: { (file : Self) → IsTrue (honest file) → length (octets file) ≡ size file };
}
