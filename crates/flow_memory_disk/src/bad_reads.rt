// Frozen files of which some reads fail.
ghost use Rattle.std.specs.Prelude.{◌≡◌, ◌⊎◌, ◌↔◌, ◌+◌, ◌≤◌, IsTrue, IfOk, OnOk, IsErrOf, take, drop};
ghost use Rattle.std.specs.Prelude.{length, vec_len};
ghost use Rattle.flow_disk.specs.Cause.{HasCause};
ghost use Rattle.flow_memory_disk.specs.Failing.{Reaches};

use flow_disk::{DiskError, Faults, MayFail, SealedFile};
use std::alloc::Global;

/// Reads that fail: of this file once frozen, those that reach this octet.
#[derive(Clone, Copy, Drop)]
pub(crate) struct BadReads {
    pub(crate) file: u64,
    pub(crate) from: u64,
}

/// What shows that a read of a `FusedFile` failed: that it reached a bad octet, or that the read of the file below it
/// failed. Reads of such files alone make one.
#[derive(Drop)]
pub struct BadRead {
    _made_here: (),
}

/// A frozen file of which each read fails that reaches an octet.
#[derive(Drop)]
pub struct FusedFile<S: SealedFile> {
    pub(crate) sealed: S,
    pub(crate) bad: Option<u64>,
}

impl<S: SealedFile> MayFail for FusedFile<S> {
    type Failure = BadRead;
}

impl<S: SealedFile> SealedFile for FusedFile<S> {
    ghost octets = { λ f. S.octets f.sealed };

    ghost number = { λ f. S.number f.sealed };

    ghost size = { λ f. S.size f.sealed };

    ghost honest = { λ f. S.honest f.sealed };

    ghost can_fail = { λ f at count. Reaches f.bad at count ⊎ S.can_fail f.sealed at count };

    ghost whole = { λ f. S.whole f.sealed };

    fn file(&self) -> u64 {
        self.sealed.file()
    }

    fn length(&self) -> u64 {
        self.sealed.length()
    }

    fn read_into(
        &self,
        faults: &mut Faults<Self>,
        at: u64,
        buffer: &mut [u8],
    ) -> Result<(), DiskError>
        requires { at + length buffer.old ≤ S.size self.now.sealed }
        ensures octets { IsTrue (S.honest self.now.sealed)
            → OnOk result (buffer.new ≡ take (length buffer.old) (drop at (S.octets self.now.sealed))) }
        ensures cause { HasCause DiskError.Fault faults.old faults.new result }
        ensures able { IsErrOf result DiskError.Fault
            → Reaches self.now.bad at (length buffer.old) ⊎ S.can_fail self.now.sealed at (length buffer.old) }
        // A read that reaches a bad octet fails.
        ensures bad { Reaches self.now.bad at (length buffer.old) → IsErrOf result DiskError.Fault }
    {
        let answer = if self.reaches(at, buffer.len()) {
            Err(DiskError::Fault)
        } else {
            let mut below = Faults::<S>::new();
            self.sealed.read_into(&mut below, at, buffer)
        };
        if answer == Err(DiskError::Fault) {
            faults.raise(&BadRead { _made_here: () });
        }
        answer
    }

    fn read(
        &self,
        alloc: Global,
        faults: &mut Faults<Self>,
        at: u64,
        count: usize,
    ) -> Result<Vec<u8>, DiskError>
        requires { at + count ≤ S.size self.now.sealed }
        ensures count { IfOk result (λ got. vec_len got ≡ count) }
        ensures octets { IfOk result (λ got. IsTrue (S.honest self.now.sealed)
            → got.items ≡ take count (drop at (S.octets self.now.sealed))) }
        ensures cause { HasCause DiskError.Fault faults.old faults.new result }
        ensures able { IsErrOf result DiskError.Fault
            → Reaches self.now.bad at count ⊎ S.can_fail self.now.sealed at count }
        // A read that reaches a bad octet fails.
        ensures bad { Reaches self.now.bad at count → IsErrOf result DiskError.Fault }
    {
        let got = if self.reaches(at, count) {
            Err(DiskError::Fault)
        } else {
            let mut below = Faults::<S>::new();
            self.sealed.read(alloc, &mut below, at, count)
        };
        if got == Err(DiskError::Fault) {
            faults.raise(&BadRead { _made_here: () });
        }
        got
    }
}

impl<S: SealedFile> FusedFile<S> {
    /// Whether a read reaches the first bad octet.
    fn reaches(&self, at: u64, count: usize) -> bool
        ensures { IsTrue result ↔ Reaches self.now.bad at count }
    {
        match self.bad {
            Some(from) => count != 0 && (at >= from || count as u64 > from - at),
            None => false,
        }
    }
}
