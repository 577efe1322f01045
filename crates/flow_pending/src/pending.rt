// A file between its first change and the sync that settles it.
ghost use Rattle.std.specs.Prelude.{◌≡◌, ◌≢◌, ◌↔◌, ◌⊎◌, ◌+◌, ◌<◌, ◌≤◌, ◌^◌, ℕ, true, false, IsTrue, length, take, drop};
ghost use Rattle.std.specs.Prelude.{OnOk, OnErr, IfOk};
ghost use Rattle.flow_disk.specs.Disk.{Stays};
ghost use Rattle.flow_disk.specs.Files.{Writes, Cuts, Syncs, while_writing, while_cutting};
ghost use Rattle.flow_disk.specs.Moments.{Passes, Covers};
ghost use Rattle.flow_directory.specs.File.{held_of};
ghost use Rattle.flow_pending.specs.Written.{IsWritten};
ghost use Rattle.flow_pending.specs.Tracked.{IsChangeable, IsTracked, IsRemembered, IsWholeAgain, Repairs, Copies};
ghost use Rattle.flow_pending.specs.Tracked.{Settles, IsMended};

use crate::ranges::{Range, Ranges};
use flow_directory::Directory;
use std::alloc::{AllocError, Global};

/// How many octets are written again at once.
const PIECE: usize = 4096;

/// How far a file is from being settled.
#[derive(Clone, Copy, PartialEq, Eq)]
pub enum Stage {
    /// It may have been changed since its last good sync.
    Changed,
    /// The octets it reads as may not be those on the device: its last sync failed, or others may have changed it.
    Doubtful,
    /// Its last sync was good, and it wasn't changed since.
    Synced,
}

impl Stage {
    /// After a change. A doubtful file stays doubtful.
    fn changed(self) -> Stage
        ensures unsynced { result ≢ Stage.Synced }
        ensures doubtful { result ≡ Stage.Doubtful ↔ self ≡ Stage.Doubtful }
    {
        match self {
            Stage::Doubtful => Stage::Doubtful,
            Stage::Changed | Stage::Synced => Stage::Changed,
        }
    }
}

/// A file that was changed, or whose last sync failed; it is open. After a failed sync the system takes the octets in its
/// memory for those of the device, though the device may not have them, and answers Ok to the next sync. So the ranges
/// written since the last good sync are remembered, and written again after a failed sync; a file that others may have
/// changed is written again whole before its first sync.
#[derive(Drop)]
pub struct Pending {
    file: u64,
    written: Ranges,
    stage: Stage,
}

impl Pending {
    /// A file of which nothing waits.
    pub fn unchanged(alloc: Global, file: u64) -> Result<Self, AllocError>
        ensures file { IfOk result (λ p. p.file ≡ file) }
        ensures stage { IfOk result (λ p. p.stage ≡ Stage.Changed) }
    {
        Ok(Pending {
            file,
            written: Ranges::none(alloc)?,
            stage: Stage::Changed,
        })
    }

    /// A file of so many octets that others may have changed, without a good sync since.
    pub fn doubtful(alloc: Global, file: u64, length: u64) -> Result<Self, AllocError>
        ensures file { IfOk result (λ p. p.file ≡ file) }
        ensures stage { IfOk result (λ p. p.stage ≡ Stage.Doubtful) }
        ensures whole { IfOk result (λ p. (place : ℕ) → place < length → IsWritten p.written.ranges.items place) }
    {
        let mut written = Ranges::none(alloc)?;
        written.add(Range {
            from: 0,
            to: length,
        });
        Ok(Pending {
            file,
            written,
            stage: Stage::Doubtful,
        })
    }

    /// Writes octets at a place. Where it fails, some of them may be written.
    pub fn write<D: Directory>(
        &mut self,
        dir: &mut D,
        at: u64,
        octets: &[u8],
    ) -> Result<(), D::Error>
        requires fits { at + length octets.now < 2 ^ 64 }
        requires within { IsTrue (D.honest dir.old) → at ≤ length (D.files dir.old self.old.file).held.reads }
        requires changeable { IsTrue (D.honest dir.old) → IsChangeable (D.files dir.old self.old.file) }
        requires tracked { IsTrue (D.honest dir.old) → IsTracked (D.files dir.old self.old.file) self.old }
        ensures file { self.new.file ≡ self.old.file }
        ensures honest { D.honest dir.new ≡ D.honest dir.old }
        ensures changeable { IsTrue (D.honest dir.old) → IsChangeable (D.files dir.new self.old.file) }
        ensures tracked { IsTrue (D.honest dir.old) → IsTracked (D.files dir.new self.old.file) self.new }
        ensures held { IsTrue (D.honest dir.old)
            → Writes (held_of (D.files dir.old)) (held_of (D.files dir.new)) self.old.file at octets.now result }
        ensures others { IsTrue (D.honest dir.old)
            → (n : ℕ) → n ≢ self.old.file → D.files dir.new n ≡ D.files dir.old n }
        ensures time { IsTrue (D.honest dir.old) → Passes D.moment D.left_since dir.old dir.new
            (while_writing (held_of (D.files dir.old)) self.old.file at octets.now) }
        ensures covered { IsTrue (D.honest dir.old) → OnOk result (Covers (D.moment dir.old) (D.left_since dir.new)
            (while_writing (held_of (D.files dir.old)) self.old.file at octets.now)) }
    {
        self.written.add(Range {
            from: at,
            to: at + octets.len() as u64,
        });
        self.stage = self.stage.changed();
        dir.write(self.file, at, octets)
    }

    /// Cuts the file to so many octets, of those that it has.
    pub fn cut<D: Directory>(&mut self, dir: &mut D, count: u64) -> Result<(), D::Error>
        requires within { IsTrue (D.honest dir.old) → count ≤ length (D.files dir.old self.old.file).held.reads }
        requires changeable { IsTrue (D.honest dir.old) → IsChangeable (D.files dir.old self.old.file) }
        requires tracked { IsTrue (D.honest dir.old) → IsTracked (D.files dir.old self.old.file) self.old }
        ensures file { self.new.file ≡ self.old.file }
        ensures honest { D.honest dir.new ≡ D.honest dir.old }
        ensures changeable { IsTrue (D.honest dir.old) → IsChangeable (D.files dir.new self.old.file) }
        ensures tracked { IsTrue (D.honest dir.old) → IsTracked (D.files dir.new self.old.file) self.new }
        ensures held { IsTrue (D.honest dir.old)
            → Cuts (held_of (D.files dir.old)) (held_of (D.files dir.new)) self.old.file count result }
        ensures others { IsTrue (D.honest dir.old)
            → (n : ℕ) → n ≢ self.old.file → D.files dir.new n ≡ D.files dir.old n }
        ensures time { IsTrue (D.honest dir.old) → Passes D.moment D.left_since dir.old dir.new
            (while_cutting (held_of (D.files dir.old)) self.old.file count) }
        ensures covered { IsTrue (D.honest dir.old) → OnOk result (Covers (D.moment dir.old) (D.left_since dir.new)
            (while_cutting (held_of (D.files dir.old)) self.old.file count)) }
    {
        self.stage = self.stage.changed();
        dir.truncate(self.file, count)
    }

    /// Syncs the file: writes again what the device may not hold, and asks the device to hold all of it. Where that
    /// fails, both are done once more at once, so that the device holds the octets that are read here, if it can; the
    /// answer stays.
    pub fn sync<D: Directory>(&mut self, dir: &mut D) -> Result<(), D::Error>
        requires changeable { IsTrue (D.honest dir.old) → IsChangeable (D.files dir.old self.old.file) }
        requires tracked { IsTrue (D.honest dir.old) → IsTracked (D.files dir.old self.old.file) self.old }
        ensures file { self.new.file ≡ self.old.file }
        ensures honest { D.honest dir.new ≡ D.honest dir.old }
        ensures changeable { IsTrue (D.honest dir.old) → IsChangeable (D.files dir.new self.old.file) }
        ensures tracked { IsTrue (D.honest dir.old) → IsTracked (D.files dir.new self.old.file) self.new }
        ensures settles { IsTrue (D.honest dir.old)
            → Settles (D.files dir.old self.old.file) (D.files dir.new self.old.file) result }
        ensures others { IsTrue (D.honest dir.old)
            → (n : ℕ) → n ≢ self.old.file → D.files dir.new n ≡ D.files dir.old n }
        ensures time { IsTrue (D.honest dir.old)
            → Passes D.moment D.left_since dir.old dir.new (held_of (D.files dir.old)) }
        ensures done { OnOk result (self.new.stage ≡ Stage.Synced) }
    {
        match self.settle(dir) {
            Ok(()) => {
                self.stage = Stage::Synced;
                Ok(())
            }
            Err(e) => {
                let _ = self.settle(dir);
                Err(e)
            }
        }
    }

    /// Writes again what the device may not hold, and syncs.
    fn settle<D: Directory>(&mut self, dir: &mut D) -> Result<(), D::Error>
        requires changeable { IsTrue (D.honest dir.old) → IsChangeable (D.files dir.old self.old.file) }
        requires tracked { IsTrue (D.honest dir.old) → IsTracked (D.files dir.old self.old.file) self.old }
        ensures file { self.new.file ≡ self.old.file }
        ensures honest { D.honest dir.new ≡ D.honest dir.old }
        ensures changeable { IsTrue (D.honest dir.old) → IsChangeable (D.files dir.new self.old.file) }
        ensures tracked { IsTrue (D.honest dir.old) → IsTracked (D.files dir.new self.old.file) self.new }
        ensures settles { IsTrue (D.honest dir.old)
            → Settles (D.files dir.old self.old.file) (D.files dir.new self.old.file) result }
        ensures others { IsTrue (D.honest dir.old)
            → (n : ℕ) → n ≢ self.old.file → D.files dir.new n ≡ D.files dir.old n }
        ensures time { IsTrue (D.honest dir.old)
            → Passes D.moment D.left_since dir.old dir.new (held_of (D.files dir.old)) }
    {
        let mended = self.mend(dir);
        self.stage = Stage::Doubtful;
        mended?;
        dir.sync(self.file)?;
        self.stage = Stage::Changed;
        Ok(())
    }

    /// Writes again what the device may not hold, where that is in doubt.
    fn mend<D: Directory>(&self, dir: &mut D) -> Result<(), D::Error>
        requires changeable { IsTrue (D.honest dir.old) → IsChangeable (D.files dir.old self.now.file) }
        requires tracked { IsTrue (D.honest dir.old) → IsTracked (D.files dir.old self.now.file) self.now }
        ensures honest { D.honest dir.new ≡ D.honest dir.old }
        ensures repairs { IsTrue (D.honest dir.old) → Repairs D.files D.moment D.left_since dir.old dir.new self.now.file }
        ensures remembered { IsTrue (D.honest dir.old) → IsRemembered (D.files dir.new self.now.file) self.now }
        ensures whole { IsTrue (D.honest dir.old) → OnOk result (IsWholeAgain (D.files dir.new self.now.file)) }
    {
        match self.stage {
            Stage::Doubtful => self.write_again(dir),
            Stage::Changed | Stage::Synced => Ok(()),
        }
    }

    /// Makes the changes since the last good sync again. The file is cut to the length that it has, whether it was cut
    /// before or not: after the failed sync the system may count a length as the device's that the device doesn't have,
    /// and write it no more.
    fn write_again<D: Directory>(&self, dir: &mut D) -> Result<(), D::Error>
        requires changeable { IsTrue (D.honest dir.old) → IsChangeable (D.files dir.old self.now.file) }
        requires remembered { IsTrue (D.honest dir.old) → IsRemembered (D.files dir.old self.now.file) self.now }
        ensures honest { D.honest dir.new ≡ D.honest dir.old }
        ensures repairs { IsTrue (D.honest dir.old) → Repairs D.files D.moment D.left_since dir.old dir.new self.now.file }
        ensures remembered { IsTrue (D.honest dir.old) → IsRemembered (D.files dir.new self.now.file) self.now }
        ensures whole { IsTrue (D.honest dir.old) → OnOk result (IsWholeAgain (D.files dir.new self.now.file)) }
    {
        let end = dir.length(self.file)?;
        dir.retruncate(self.file, end)?;
        self.copy_all(dir, end)
    }

    /// Writes the octets of each range over themselves.
    fn copy_all<D: Directory>(&self, dir: &mut D, end: u64) -> Result<(), D::Error>
        requires changeable { IsTrue (D.honest dir.old) → IsChangeable (D.files dir.old self.now.file) }
        requires end { IsTrue (D.honest dir.old) → end ≡ length (D.files dir.old self.now.file).held.reads }
        requires sized { IsTrue (D.honest dir.old) → IsMended (D.files dir.old self.now.file) }
        requires remembered { IsTrue (D.honest dir.old) → IsRemembered (D.files dir.old self.now.file) self.now }
        ensures honest { D.honest dir.new ≡ D.honest dir.old }
        ensures repairs { IsTrue (D.honest dir.old) → Repairs D.files D.moment D.left_since dir.old dir.new self.now.file }
        ensures remembered { IsTrue (D.honest dir.old) → IsRemembered (D.files dir.new self.now.file) self.now }
        ensures whole { IsTrue (D.honest dir.old) → OnOk result (IsWholeAgain (D.files dir.new self.now.file)) }
    {
        'all: for range in self.written.each() {
            self.copy_over(dir, range.from, range.to.min(end))?;
        }
        Ok(())
    }

    /// Writes the octets from a place on, up to another place, over themselves, in pieces.
    fn copy_over<D: Directory>(&self, dir: &mut D, from: u64, to: u64) -> Result<(), D::Error>
        requires changeable { IsTrue (D.honest dir.old) → IsChangeable (D.files dir.old self.now.file) }
        requires within { IsTrue (D.honest dir.old) → to ≤ length (D.files dir.old self.now.file).held.reads }
        ensures honest { D.honest dir.new ≡ D.honest dir.old }
        ensures copied { IsTrue (D.honest dir.old) → Copies D.files D.moment D.left_since dir.old
            dir.new self.now.file from to result }
    {
        let mut piece = [0u8; PIECE];
        let mut at = from;
        'pieces: while at < to {
            let count = (to - at).min(PIECE as u64);
            let octets = &mut piece[..count as usize];
            dir.read(self.file, at, octets)?;
            dir.rewrite(self.file, at, octets)?;
            at += count;
        }
        Ok(())
    }
}
