//! A disk whose frozen files scripts damage under an archive.

ghost use Rattle.std.specs.Prelude.{◌≡◌, ◌≤◌, ℕ, false, IfOk, vec_len};
ghost use Rattle.flow_disk.specs.Cause.{HasCause};
ghost use Rattle.flow_memory_disk.specs.Lying.{never};

use flow_disk::{Disk, DiskError, Faults, MayFail, SealedFile};
use flow_scripts::Damage;
use std::alloc::{AllocError, Global};
use std::cell::RefCell;
use std::rc::Rc;

/// The damage of the files of a disk, and of what is frozen on it.
#[derive(Drop)]
pub(crate) struct Wear {
    /// Each later one lies over those before it.
    all: Rc<RefCell<Vec<Damage>>>,
}

/// Writes those of these octets that fall into a piece of the file, which was read from this place on.
fn write_over(piece: &mut [u8], from: u64, damage: &Damage) {
    let mut place = damage.at;
    for octet in &damage.octets {
        if let Some(ahead) = place.checked_sub(from) {
            if let Some(there) = piece.get_mut(ahead as usize) {
                *there = *octet;
            }
        }
        place = place.saturating_add(1);
    }
}

impl Wear {
    /// No damage.
    pub(crate) fn none(alloc: Global) -> Result<Self, AllocError> {
        let all = Rc::new(alloc, RefCell::new(Vec::new(alloc)))?;
        Ok(Wear { all })
    }

    /// The same damage, shared.
    pub(crate) fn share(&self) -> Result<Self, AllocError> {
        let all = self.all.clone()?;
        Ok(Wear { all })
    }

    /// Damages a file from now on.
    pub(crate) fn add(&self, alloc: Global, damage: &Damage) -> Result<(), AllocError> {
        let octets = damage.octets.as_slice().to_vec(alloc)?;
        let copy = Damage { octets, ..*damage };
        match self.all.try_borrow_mut() {
            Ok(mut all) => Ok(all.push(copy)?),
            Err(_) => Err(AllocError),
        }
    }

    /// Changes a piece of a file, which was read from this place on.
    fn change(&self, file: u64, from: u64, piece: &mut [u8]) {
        if let Ok(all) = self.all.try_borrow() {
            for damage in all.iter() {
                if damage.file == file {
                    write_over(piece, from, damage);
                }
            }
        }
    }
}

/// A disk whose frozen files give other octets where they are damaged. All else is as on the disk below it.
#[derive(Drop)]
pub(crate) struct WornDisk<D: Disk> {
    disk: D,
    wear: Wear,
}

/// Evidence that a read of a `WornFile` failed, since the read of the file below it failed.
#[derive(Drop)]
pub(crate) struct WornRead {
    _made_here: (),
}

/// A frozen file that may be damaged. It has no damage where memory to share it was refused.
#[derive(Drop)]
pub(crate) struct WornFile<S: SealedFile> {
    sealed: S,
    wear: Option<Wear>,
}

impl<D: Disk> WornDisk<D> {
    /// With this damage.
    pub(crate) fn new(disk: D, wear: Wear) -> Self
        ensures { result ≡ record { disk = disk; wear = wear } }
    {
        WornDisk { disk, wear }
    }

    /// The disk below it.
    pub(crate) fn into_disk(self) -> D {
        let WornDisk { disk, wear: _ } = self;
        disk
    }
}

impl<D: Disk> Disk for WornDisk<D> {
    type Sealed = WornFile<D::Sealed>;

    ghost honest = { λ _. false };

    ghost marks = { λ d. D.marks d.disk };

    ghost held = { λ d. D.held d.disk };

    ghost moment = { λ d. D.moment d.disk };

    ghost left_since = { λ d. D.left_since d.disk };

    ghost faults = { λ d. D.faults d.disk };

    ghost reads_image = { λ d n h. never h };

    ghost fast_within = { λ d n h. never h };

    ghost fast_whole = { λ d n h. never h };

    ghost settled_alone = { λ d n image h. never h };

    ghost has_size = { λ d n h. never h };

    ghost within_limit = { λ d n. D.within_limit d.disk n };

    ghost counts_now = { λ d t image h. never h };

    ghost only_now = { λ d image h. never h };

    fn length(&mut self, file: u64) -> Result<u64, DiskError> {
        self.disk.length(file)
    }

    fn read_into(&mut self, file: u64, at: u64, octets: &mut [u8]) -> Result<(), DiskError> {
        self.disk.read_into(file, at, octets)
    }

    fn write_at(&mut self, file: u64, at: u64, octets: &[u8]) -> Result<(), DiskError> {
        self.disk.write_at(file, at, octets)
    }

    fn cut(&mut self, file: u64, count: u64) -> Result<(), DiskError> {
        self.disk.cut(file, count)
    }

    fn sync(&mut self, file: u64) -> Result<(), DiskError> {
        self.disk.sync(file)
    }

    fn remove(&mut self, file: u64) -> Result<(), DiskError> {
        self.disk.remove(file)
    }

    fn files(&mut self, alloc: Global) -> Result<Vec<u64>, DiskError> {
        self.disk.files(alloc)
    }

    fn freeze(&mut self, file: u64) -> Result<WornFile<D::Sealed>, DiskError> {
        let wear = self.wear.share().ok();
        let sealed = self.disk.freeze(file)?;
        Ok(WornFile { sealed, wear })
    }

    fn retire(&mut self, sealed: WornFile<D::Sealed>) -> Result<(), DiskError> {
        let WornFile { sealed, wear: _ } = sealed;
        self.disk.retire(sealed)
    }
}

impl<S: SealedFile> MayFail for WornFile<S> {
    type Failure = WornRead;
}

impl<S: SealedFile> SealedFile for WornFile<S> {
    ghost octets = { λ f. S.octets f.sealed };

    ghost number = { λ f. S.number f.sealed };

    ghost size = { λ f. S.size f.sealed };

    ghost honest = { λ _. false };

    ghost can_fail = { λ f at count. S.can_fail f.sealed at count };

    ghost whole = { λ f h. never h };

    fn file(&self) -> u64 {
        self.sealed.file()
    }

    fn length(&self) -> u64 {
        self.sealed.length()
    }

    fn read_into(
        &self,
        faults: &mut Faults<Self>,
        at: u64,
        buffer: &mut [u8],
    ) -> Result<(), DiskError> {
        let mut below = Faults::<S>::new();
        let got = self.sealed.read_into(&mut below, at, buffer);
        if got == Err(DiskError::Fault) {
            faults.raise(&WornRead { _made_here: () });
        }
        got?;
        if let Some(wear) = &self.wear {
            wear.change(self.sealed.file(), at, buffer);
        }
        Ok(())
    }
}
