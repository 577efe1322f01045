// A disk that lies.
ghost use Rattle.std.specs.Prelude.{◌≡◌, ◌≤◌, ℕ, None};
ghost use Rattle.flow_disk.specs.Cause.{HasRisen};
ghost use Rattle.flow_memory_disk.specs.Lying.{told_of};

use crate::lie::Lie;
use crate::there::{cut_there, read_there, write_there};
use flow_disk::{Disk, DiskError, Faults, LIMIT, MayFail, SealedFile};
use std::alloc::Global;

/// Numbers that follow from a seed.
fn following(seed: u64) -> u64 {
    seed.wrapping_mul(6364136223846793005)
        .wrapping_add(1442695040888963407)
}

/// Changes octets that were read, or not, as a seed chooses: another octet at one place, zeros from a place on, or
/// octets that were never written.
fn distort(octets: &mut [u8], seed: u64) {
    let length = octets.len();
    if length == 0 {
        return;
    }
    let place = (seed / 65536 % length as u64) as usize;
    match seed / 4294967296 % 5 {
        0 => octets[place] = octets[place].wrapping_add(1),
        1 => octets[place..].fill(0),
        2 => {
            let mut noise = seed;
            for octet in octets.iter_mut() {
                noise = following(noise);
                *octet = (noise / 4294967296 % 256) as u8;
            }
        }
        _ => {}
    }
}

/// A disk that lies, as a seed chooses: what is read of it, frozen files too, may be changed, forgotten or invented,
/// files may be missing from its list, and the length that it answers may be less or more than a file's own. It lies so
/// of one file at a time, from a call that asks for its length until the next one, or until its removal. Of this file a
/// read past the end gives zeros, a write past the end is put at the end, and a frozen file has the length that was
/// answered. It keeps the other marks, and fails where the disk below it fails, and where a write passes 2^62 octets of
/// this file.
#[derive(Drop)]
pub struct LyingDisk<D: Disk> {
    disk: D,
    seed: u64,
    lie: Lie,
    failed: u64,
}

/// What shows that a read of a `LyingFile` failed: that the read of the file below it failed. It never lies of that.
#[derive(Drop)]
pub struct ReadBelow {
    _made_here: (),
}

/// A frozen file of a disk that lies.
#[derive(Drop)]
pub struct LyingFile<S: SealedFile> {
    sealed: S,
    seed: u64,
    told: u64,
}

impl<D: Disk> LyingDisk<D> {
    /// Lies as this seed chooses.
    pub fn new(disk: D, seed: u64) -> Self
        ensures disk { result.disk ≡ disk }
        ensures seed { result.seed ≡ seed }
        ensures truth { (n : ℕ) → told_of result.lie n ≡ None }
        ensures failed { result.failed ≡ 0 }
    {
        LyingDisk {
            disk,
            seed,
            lie: Lie::none(),
            failed: 0,
        }
    }
}

/// Counts a fault.
fn fault(failed: &mut u64) -> DiskError
    ensures fault { result ≡ DiskError.Fault }
    ensures later { failed.old ≤ failed.new }
    ensures risen { HasRisen failed.old failed.new }
{
    *failed = failed.saturating_add(1);
    DiskError::Fault
}

impl<D: Disk> Disk for LyingDisk<D> {
    type Sealed = LyingFile<D::Sealed>;

    ghost use Rattle.std.specs.Prelude.{◌+◌, false};
    ghost use Rattle.flow_memory_disk.specs.Lying.{never, told, limited};

    ghost honest = { λ _. false };

    ghost marks = { λ d. told d.lie (D.marks d.disk) };

    ghost held = { λ d. D.held d.disk };

    ghost moment = { λ d. D.moment d.disk };

    ghost left_since = { λ d. D.left_since d.disk };

    ghost faults = { λ d. d.failed + D.faults d.disk };

    ghost reads_image = { λ d n h. never h };

    ghost fast_within = { λ d n h. never h };

    ghost fast_whole = { λ d n h. never h };

    ghost settled_alone = { λ d n image h. never h };

    ghost has_size = { λ d n h. never h };

    ghost within_limit = { λ d n. limited d.lie (D.marks d.disk n) n (D.within_limit d.disk n) };

    ghost counts_now = { λ d t image h. never h };

    ghost only_now = { λ d image h. never h };

    fn length(&mut self, file: u64) -> Result<u64, DiskError> {
        self.seed = following(self.seed);
        self.lie.forget(file);
        let real = self.disk.length(file)?;
        Ok(self.lie.choose(file, real, self.seed))
    }

    fn read_into(&mut self, file: u64, at: u64, octets: &mut [u8]) -> Result<(), DiskError> {
        self.seed = following(self.seed);
        match self.lie.of(file) {
            None => self.disk.read_into(file, at, octets)?,
            Some(_) => read_there(&mut self.disk, file, at, octets)?,
        }
        distort(octets, self.seed);
        Ok(())
    }

    fn write_at(&mut self, file: u64, at: u64, octets: &[u8]) -> Result<(), DiskError> {
        let Some(told) = self.lie.of(file) else {
            return self.disk.write_at(file, at, octets);
        };
        let count = octets.len() as u64;
        if count > LIMIT - at {
            return Err(fault(&mut self.failed));
        }
        let result = write_there(&mut self.disk, file, at, octets);
        self.lie.tell_after(&result, file, told.max(at + count));
        result
    }

    fn cut(&mut self, file: u64, count: u64) -> Result<(), DiskError> {
        let Some(_) = self.lie.of(file) else {
            return self.disk.cut(file, count);
        };
        let result = cut_there(&mut self.disk, file, count);
        self.lie.tell_after(&result, file, count);
        result
    }

    fn sync(&mut self, file: u64) -> Result<(), DiskError> {
        self.disk.sync(file)
    }

    fn remove(&mut self, file: u64) -> Result<(), DiskError> {
        self.lie.forget(file);
        self.disk.remove(file)
    }

    fn files(&mut self, alloc: Global) -> Result<Vec<u64>, DiskError> {
        self.seed = following(self.seed);
        let mut files = self.disk.files(alloc)?;
        if self.seed / 4294967296 % 2 == 0 {
            let kept = files.len() / 2;
            files.truncate(kept);
        }
        Ok(files)
    }

    fn freeze(&mut self, file: u64) -> Result<LyingFile<D::Sealed>, DiskError> {
        self.seed = following(self.seed);
        let sealed = self.disk.freeze(file)?;
        let told = self.lie.of(file).unwrap_or(sealed.length());
        Ok(LyingFile {
            sealed,
            seed: self.seed,
            told,
        })
    }

    fn retire(&mut self, sealed: LyingFile<D::Sealed>) -> Result<(), DiskError> {
        let LyingFile { sealed, .. } = sealed;
        self.lie.forget(sealed.file());
        self.disk.retire(sealed)
    }
}

impl<S: SealedFile> MayFail for LyingFile<S> {
    type Failure = ReadBelow;
}

impl<S: SealedFile> SealedFile for LyingFile<S> {
    ghost use Rattle.std.specs.Prelude.{false, min};
    ghost use Rattle.flow_memory_disk.specs.Lying.{never, there};

    ghost octets = { λ f. S.octets f.sealed };

    ghost number = { λ f. S.number f.sealed };

    ghost size = { λ f. f.told };

    ghost honest = { λ _. false };

    ghost can_fail = { λ f at count.
        S.can_fail f.sealed (min at (S.size f.sealed)) (there (S.size f.sealed) at count) };

    ghost whole = { λ f h. never h };

    fn file(&self) -> u64 {
        self.sealed.file()
    }

    fn length(&self) -> u64 {
        self.told
    }

    fn read_into(
        &self,
        faults: &mut Faults<Self>,
        at: u64,
        buffer: &mut [u8],
    ) -> Result<(), DiskError> {
        let real = self.sealed.length();
        let place = at.min(real);
        let there = (buffer.len() as u64).min(real - place) as usize;
        buffer[there..].fill(0);
        let mut below = Faults::<S>::new();
        let got = self
            .sealed
            .read_into(&mut below, place, &mut buffer[..there]);
        if got == Err(DiskError::Fault) {
            faults.raise(&ReadBelow { _made_here: () });
        }
        got?;
        distort(buffer, following(self.seed.wrapping_add(at)));
        Ok(())
    }
}
