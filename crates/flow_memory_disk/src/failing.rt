// A disk of which some calls fail.
ghost use Rattle.std.specs.Prelude.{◌≡◌, ◌+◌, ◌≤◌, true, false};
ghost use Rattle.flow_disk.specs.Cause.{HasRisen};
ghost use Rattle.flow_memory_disk.specs.Failing.{raised, bad_from};

use crate::bad_reads::{BadReads, FusedFile};
use crate::choice::Choice;
use crate::disk::MemoryDisk;
use crate::when::When;
use flow_disk::{Disk, DiskError};
use std::alloc::Global;

/// A disk of which some calls fail. A failed write has written the first half of its octets, rounded down; any other
/// failed call leaves the disk as it was. Reads of frozen files are no calls of the disk.
#[derive(Drop)]
pub struct FailingDisk<D: Disk, W: When> {
    pub(crate) disk: D,
    when: W,
    bad: Option<BadReads>,
    failed: u64,
}

/// Whether this call fails, which is counted then.
fn fails<W: When>(when: &mut W, failed: &mut u64) -> bool
    ensures fails { result ≡ W.fails when.old }
    ensures once { when.new ≡ W.next when.old }
    ensures failing { result ≡ true → failed.new ≡ raised failed.old }
    ensures passing { result ≡ false → failed.new ≡ failed.old }
    ensures later { failed.old ≤ failed.new }
    ensures risen { result ≡ true → HasRisen failed.old failed.new }
{
    let fails = when.asks();
    if fails {
        *failed = failed.saturating_add(1);
    }
    fails
}

/// From where a file is bad once it is frozen.
fn bad_from(bad: Option<BadReads>, file: u64) -> Option<u64>
    ensures { result ≡ bad_from bad file }
{
    match bad {
        Some(bad) if bad.file == file => Some(bad.from),
        _ => None,
    }
}

impl<D: Disk, W: When> FailingDisk<D, W> {
    pub(crate) fn make(disk: D, when: W, bad: Option<BadReads>) -> Self
        ensures { result ≡ record { disk = disk; when = when; bad = bad; failed = 0 } }
    {
        FailingDisk {
            disk,
            when,
            bad,
            failed: 0,
        }
    }

    /// The disk below it.
    fn into_disk(self) -> D
        ensures { result ≡ self.disk }
    {
        let FailingDisk {
            disk,
            when: _,
            bad: _,
            failed: _,
        } = self;
        disk
    }
}

impl<W: When> FailingDisk<MemoryDisk, W> {
    ghost use Rattle.std.specs.Prelude.{ℕ, false, IsTrue, ◌↔◌, vec_len};
    ghost use Rattle.flow_disk.specs.Disk.{IsDiskImage};
    ghost use Rattle.flow_memory_disk.specs.Calls.{held_of};
    ghost use Rattle.flow_memory_disk.specs.Stopped.{stopped};
    ghost use Rattle.flow_memory_disk.specs.Stopping.{CanCrash};
    ghost use Rattle.flow_memory_disk.specs.Stored.{AreNamedAlike};
    ghost use Rattle.flow_memory_disk.specs.Memory.{story_of};

    /// Whether a stop may leave this, as `MemoryDisk::can_crash`.
    pub fn can_crash(&self, choice: Choice<'_>) -> bool
        ensures { IsTrue result ↔ CanCrash self.now.disk.files.items choice.entry }
    {
        self.disk.can_crash(choice)
    }

    /// The disk after a stop that left this image, as `MemoryDisk::crash`. All its calls pass.
    pub fn crash(self, choice: Choice<'_>) -> MemoryDisk
        requires { CanCrash self.disk.files.items choice }
        ensures story { story_of result ≡ stopped (story_of self.disk) choice.entry }
        ensures image { IsDiskImage (held_of (story_of self.disk)) (λ n. (held_of (story_of result) n).reads) }
        ensures thawed { (n : ℕ) → ((story_of result).marks n).frozen ≡ false }
        ensures faults { result.faults ≡ self.disk.faults }
        ensures spare { result.spare ≡ self.disk.spare }
        ensures named { AreNamedAlike self.disk.files.items result.files.items }
        ensures room { result.room ≡ self.disk.room }
        ensures unused { (vec_len result.log.deeds ≡ 0) × (vec_len result.log.octets ≡ 0) }
    {
        self.into_disk().crash(choice)
    }

    /// The disk given up without a stop, as `MemoryDisk::restart`. All its calls pass.
    pub fn restart(self) -> MemoryDisk
        ensures story { story_of result ≡ stopped (story_of self.disk) Choice.Kept }
        ensures thawed { (n : ℕ) → ((story_of result).marks n).frozen ≡ false }
        ensures faults { result.faults ≡ self.disk.faults }
        ensures spare { result.spare ≡ self.disk.spare }
        ensures named { AreNamedAlike self.disk.files.items result.files.items }
        ensures room { result.room ≡ self.disk.room }
        ensures unused { (vec_len result.log.deeds ≡ 0) × (vec_len result.log.octets ≡ 0) }
    {
        self.into_disk().restart()
    }
}

impl<D: Disk, W: When> Disk for FailingDisk<D, W> {
    type Sealed = FusedFile<D::Sealed>;

    ghost use Rattle.std.specs.Prelude.{◌≢◌, ℕ, ◌≤◌, max, true, false, Contains, ◌↔◌, length, take, drop, vec_len};
    ghost use Rattle.std.specs.Prelude.{IsTrue, Result, IfOk, OnOk, OnErr, IsErrOf};
    ghost use Rattle.std.specs.List.Sorted.{IsStrictlyIncreasing};
    ghost use Rattle.flow_disk.specs.Cause.{HasCause, FailsOnlyByFault};
    ghost use Rattle.flow_disk.specs.Disk.{Changes, Stays};
    ghost use Rattle.flow_disk.specs.Moments.{Passes, Covers};
    ghost use Rattle.flow_disk.specs.Files.{Writes, Cuts, Syncs, Removes, while_writing, while_cutting};
    ghost use Rattle.flow_disk.specs.Files.{while_removing, MarkedByWrite, MarkedBySync, MarkedByRemoval, frozen_as};
    ghost use Rattle.flow_memory_disk.specs.Failing.{TakesTurn, WroteAt, half};

    ghost honest = { λ f. D.honest f.disk };

    ghost marks = { λ f. D.marks f.disk };

    ghost held = { λ f. D.held f.disk };

    ghost moment = { λ f. D.moment f.disk };

    ghost left_since = { λ f. D.left_since f.disk };

    ghost faults = { λ f. f.failed + D.faults f.disk };

    ghost reads_image = { λ f. D.reads_image f.disk };

    ghost fast_within = { λ f. D.fast_within f.disk };

    ghost fast_whole = { λ f. D.fast_whole f.disk };

    ghost settled_alone = { λ f. D.settled_alone f.disk };

    ghost has_size = { λ f. D.has_size f.disk };

    ghost within_limit = { λ f. D.within_limit f.disk };

    ghost counts_now = { λ f. D.counts_now f.disk };

    ghost only_now = { λ f. D.only_now f.disk };

    fn length(&mut self, file: u64) -> Result<u64, DiskError>
        ensures honest { D.honest self.new.disk ≡ D.honest self.old.disk }
        ensures clock { D.moment self.old.disk ≤ D.moment self.new.disk }
        ensures count { IfOk result (λ count. (D.marks self.new.disk file).size ≡ count) }
        ensures marks { (n : ℕ) → n ≢ file → D.marks self.new.disk n ≡ D.marks self.old.disk n }
        ensures settled { (D.marks self.new.disk file).settled ≡ (D.marks self.old.disk file).settled }
        ensures frozen { (D.marks self.new.disk file).frozen ≡ (D.marks self.old.disk file).frozen }
        ensures listed { (D.marks self.new.disk file).listed ≡ (D.marks self.old.disk file).listed }
        ensures held { IsTrue (D.honest self.old.disk) → Stays (D.held self.old.disk) (D.held self.new.disk) }
        ensures time { IsTrue (D.honest self.old.disk)
            → Passes D.moment D.left_since self.old.disk self.new.disk (D.held self.old.disk) }
        ensures cause { FailsOnlyByFault (self.old.failed + D.faults self.old.disk)
            (self.new.failed + D.faults self.new.disk) result }
        ensures turn { TakesTurn W.fails W.next D.faults self.old self.new result }
    {
        if fails(&mut self.when, &mut self.failed) {
            return Err(DiskError::Fault);
        }
        self.disk.length(file)
    }

    fn read_into(&mut self, file: u64, at: u64, octets: &mut [u8]) -> Result<(), DiskError>
        requires { at + length octets.old ≤ (D.marks self.old.disk file).size }
        ensures honest { D.honest self.new.disk ≡ D.honest self.old.disk }
        ensures clock { D.moment self.old.disk ≤ D.moment self.new.disk }
        ensures octets { IsTrue (D.honest self.old.disk)
            → OnOk result (octets.new ≡ take (length octets.old) (drop at (D.held self.old.disk file).reads)) }
        ensures marks { Stays (D.marks self.old.disk) (D.marks self.new.disk) }
        ensures held { IsTrue (D.honest self.old.disk) → Stays (D.held self.old.disk) (D.held self.new.disk) }
        ensures time { IsTrue (D.honest self.old.disk)
            → Passes D.moment D.left_since self.old.disk self.new.disk (D.held self.old.disk) }
        ensures cause { HasCause DiskError.Fault (self.old.failed + D.faults self.old.disk)
            (self.new.failed + D.faults self.new.disk) result }
        ensures turn { TakesTurn W.fails W.next D.faults self.old self.new result }
    {
        if fails(&mut self.when, &mut self.failed) {
            return Err(DiskError::Fault);
        }
        self.disk.read_into(file, at, octets)
    }

    fn read(
        &mut self,
        alloc: Global,
        file: u64,
        at: u64,
        count: usize,
    ) -> Result<Vec<u8>, DiskError>
        requires { at + count ≤ (D.marks self.old.disk file).size }
        ensures honest { D.honest self.new.disk ≡ D.honest self.old.disk }
        ensures clock { D.moment self.old.disk ≤ D.moment self.new.disk }
        ensures count { IfOk result (λ octets. vec_len octets ≡ count) }
        ensures octets { IsTrue (D.honest self.old.disk)
            → IfOk result (λ octets. octets.items ≡ take count (drop at (D.held self.old.disk file).reads)) }
        ensures marks { Stays (D.marks self.old.disk) (D.marks self.new.disk) }
        ensures held { IsTrue (D.honest self.old.disk) → Stays (D.held self.old.disk) (D.held self.new.disk) }
        ensures time { IsTrue (D.honest self.old.disk)
            → Passes D.moment D.left_since self.old.disk self.new.disk (D.held self.old.disk) }
        ensures cause { HasCause DiskError.Fault (self.old.failed + D.faults self.old.disk)
            (self.new.failed + D.faults self.new.disk) result }
        ensures turn { TakesTurn W.fails W.next D.faults self.old self.new result }
    {
        if fails(&mut self.when, &mut self.failed) {
            return Err(DiskError::Fault);
        }
        self.disk.read(alloc, file, at, count)
    }

    fn write_at(&mut self, file: u64, at: u64, octets: &[u8]) -> Result<(), DiskError>
        requires place { at ≤ (D.marks self.old.disk file).size }
        requires thawed { (D.marks self.old.disk file).frozen ≡ false }
        ensures honest { D.honest self.new.disk ≡ D.honest self.old.disk }
        ensures clock { D.moment self.old.disk ≤ D.moment self.new.disk }
        ensures marks { MarkedByWrite (D.marks self.old.disk) (D.marks self.new.disk) file
            (max (D.marks self.old.disk file).size (at + length octets.now)) result }
        ensures held { IsTrue (D.honest self.old.disk)
            → Writes (D.held self.old.disk) (D.held self.new.disk) file at octets.now result }
        ensures time { IsTrue (D.honest self.old.disk)
            → Passes D.moment D.left_since self.old.disk self.new.disk
            (while_writing (D.held self.old.disk) file at octets.now) }
        ensures covered { IsTrue (D.honest self.old.disk)
            → OnOk result (Covers (D.moment self.old.disk) (D.left_since self.new.disk)
            (while_writing (D.held self.old.disk) file at octets.now)) }
        ensures cause { FailsOnlyByFault (self.old.failed + D.faults self.old.disk)
            (self.new.failed + D.faults self.new.disk) result }
        ensures once { self.new.when ≡ W.next self.old.when }
        ensures bad { self.new.bad ≡ self.old.bad }
        // Where its turn fails, the disk below is given the first half, whatever it answers.
        ensures half { IsTrue (W.fails self.old.when) → (answer : Result (Unit {0}) DiskError)
            × WroteAt D.honest D.marks D.held D.faults self.old.disk self.new.disk file at (half octets.now) answer }
        ensures failing { IsTrue (W.fails self.old.when) → IsErrOf result DiskError.Fault
            × (self.new.failed ≡ raised self.old.failed) }
        ensures passing { W.fails self.old.when ≡ false → (self.new.failed ≡ self.old.failed)
            × WroteAt D.honest D.marks D.held D.faults self.old.disk self.new.disk file at octets.now result }
    {
        if fails(&mut self.when, &mut self.failed) {
            let _ = self.disk.write_at(file, at, &octets[..octets.len() / 2]);
            return Err(DiskError::Fault);
        }
        self.disk.write_at(file, at, octets)
    }

    fn cut(&mut self, file: u64, count: u64) -> Result<(), DiskError>
        requires place { count ≤ (D.marks self.old.disk file).size }
        requires thawed { (D.marks self.old.disk file).frozen ≡ false }
        ensures honest { D.honest self.new.disk ≡ D.honest self.old.disk }
        ensures clock { D.moment self.old.disk ≤ D.moment self.new.disk }
        ensures marks { MarkedByWrite (D.marks self.old.disk) (D.marks self.new.disk) file count result }
        ensures held { IsTrue (D.honest self.old.disk)
            → Cuts (D.held self.old.disk) (D.held self.new.disk) file count result }
        ensures time { IsTrue (D.honest self.old.disk)
            → Passes D.moment D.left_since self.old.disk self.new.disk
            (while_cutting (D.held self.old.disk) file count) }
        ensures covered { IsTrue (D.honest self.old.disk)
            → OnOk result (Covers (D.moment self.old.disk) (D.left_since self.new.disk)
            (while_cutting (D.held self.old.disk) file count)) }
        ensures cause { FailsOnlyByFault (self.old.failed + D.faults self.old.disk)
            (self.new.failed + D.faults self.new.disk) result }
        ensures turn { TakesTurn W.fails W.next D.faults self.old self.new result }
    {
        if fails(&mut self.when, &mut self.failed) {
            return Err(DiskError::Fault);
        }
        self.disk.cut(file, count)
    }

    fn sync(&mut self, file: u64) -> Result<(), DiskError>
        ensures honest { D.honest self.new.disk ≡ D.honest self.old.disk }
        ensures clock { D.moment self.old.disk ≤ D.moment self.new.disk }
        ensures marks { MarkedBySync (D.marks self.old.disk) (D.marks self.new.disk) file result }
        ensures held { IsTrue (D.honest self.old.disk)
            → Syncs (D.held self.old.disk) (D.held self.new.disk) file result }
        ensures time { IsTrue (D.honest self.old.disk)
            → Passes D.moment D.left_since self.old.disk self.new.disk (D.held self.old.disk) }
        ensures cause { FailsOnlyByFault (self.old.failed + D.faults self.old.disk)
            (self.new.failed + D.faults self.new.disk) result }
        ensures turn { TakesTurn W.fails W.next D.faults self.old self.new result }
    {
        if fails(&mut self.when, &mut self.failed) {
            return Err(DiskError::Fault);
        }
        self.disk.sync(file)
    }

    fn remove(&mut self, file: u64) -> Result<(), DiskError>
        requires { (D.marks self.old.disk file).frozen ≡ false }
        ensures honest { D.honest self.new.disk ≡ D.honest self.old.disk }
        ensures clock { D.moment self.old.disk ≤ D.moment self.new.disk }
        ensures marks { MarkedByRemoval (D.marks self.old.disk) (D.marks self.new.disk) file result }
        ensures held { IsTrue (D.honest self.old.disk)
            → Removes (D.held self.old.disk) (D.held self.new.disk) file result }
        ensures time { IsTrue (D.honest self.old.disk)
            → Passes D.moment D.left_since self.old.disk self.new.disk (while_removing (D.held self.old.disk) file) }
        ensures covered { IsTrue (D.honest self.old.disk)
            → OnOk result (Covers (D.moment self.old.disk) (D.left_since self.new.disk)
            (while_removing (D.held self.old.disk) file)) }
        ensures cause { FailsOnlyByFault (self.old.failed + D.faults self.old.disk)
            (self.new.failed + D.faults self.new.disk) result }
        ensures turn { TakesTurn W.fails W.next D.faults self.old self.new result }
    {
        if fails(&mut self.when, &mut self.failed) {
            return Err(DiskError::Fault);
        }
        self.disk.remove(file)
    }

    fn files(&mut self, alloc: Global) -> Result<Vec<u64>, DiskError>
        ensures honest { D.honest self.new.disk ≡ D.honest self.old.disk }
        ensures clock { D.moment self.old.disk ≤ D.moment self.new.disk }
        ensures ascending { IfOk result (λ files. IsStrictlyIncreasing files.items) }
        ensures listed { IsTrue (D.honest self.old.disk)
            → IfOk result (λ files. (n : ℕ) → Contains files.items n ↔ ((D.marks self.new.disk n).listed ≡ true)) }
        ensures marks { Stays (D.marks self.old.disk) (D.marks self.new.disk) }
        ensures held { IsTrue (D.honest self.old.disk) → Stays (D.held self.old.disk) (D.held self.new.disk) }
        ensures time { IsTrue (D.honest self.old.disk)
            → Passes D.moment D.left_since self.old.disk self.new.disk (D.held self.old.disk) }
        ensures cause { HasCause DiskError.Fault (self.old.failed + D.faults self.old.disk)
            (self.new.failed + D.faults self.new.disk) result }
        ensures turn { TakesTurn W.fails W.next D.faults self.old self.new result }
    {
        if fails(&mut self.when, &mut self.failed) {
            return Err(DiskError::Fault);
        }
        self.disk.files(alloc)
    }

    fn freeze(&mut self, file: u64) -> Result<FusedFile<D::Sealed>, DiskError>
        requires settled { (D.marks self.old.disk file).settled ≡ true }
        requires thawed { (D.marks self.old.disk file).frozen ≡ false }
        ensures honest { D.honest self.new.disk ≡ D.honest self.old.disk }
        ensures clock { D.moment self.old.disk ≤ D.moment self.new.disk }
        ensures sealed { IfOk result (λ sealed. (D.Sealed.number sealed.sealed ≡ file)
            × (D.Sealed.size sealed.sealed ≡ (D.marks self.old.disk file).size)
            × (D.Sealed.honest sealed.sealed ≡ D.honest self.old.disk)) }
        ensures octets { IsTrue (D.honest self.old.disk)
            → IfOk result (λ sealed. D.Sealed.octets sealed.sealed ≡ (D.held self.old.disk file).reads) }
        ensures frozen { OnOk result
            (Changes (D.marks self.old.disk) (D.marks self.new.disk) file (frozen_as (D.marks self.old.disk file))) }
        ensures thawed { OnErr result (Stays (D.marks self.old.disk) (D.marks self.new.disk)) }
        ensures held { IsTrue (D.honest self.old.disk) → Stays (D.held self.old.disk) (D.held self.new.disk) }
        ensures time { IsTrue (D.honest self.old.disk)
            → Passes D.moment D.left_since self.old.disk self.new.disk (D.held self.old.disk) }
        ensures cause { FailsOnlyByFault (self.old.failed + D.faults self.old.disk)
            (self.new.failed + D.faults self.new.disk) result }
        ensures turn { TakesTurn W.fails W.next D.faults self.old self.new result }
        ensures bad { IfOk result (λ sealed. sealed.bad ≡ bad_from self.old.bad file) }
    {
        if fails(&mut self.when, &mut self.failed) {
            return Err(DiskError::Fault);
        }
        let bad = bad_from(self.bad, file);
        match self.disk.freeze(file) {
            Ok(sealed) => Ok(FusedFile { sealed, bad }),
            Err(error) => Err(error),
        }
    }

    fn retire(&mut self, sealed: FusedFile<D::Sealed>) -> Result<(), DiskError>
        requires { (D.marks self.old.disk (D.Sealed.number sealed.sealed)).frozen ≡ true }
        ensures honest { D.honest self.new.disk ≡ D.honest self.old.disk }
        ensures clock { D.moment self.old.disk ≤ D.moment self.new.disk }
        ensures marks { MarkedByRemoval (D.marks self.old.disk) (D.marks self.new.disk)
            (D.Sealed.number sealed.sealed) result }
        ensures held { IsTrue (D.honest self.old.disk)
            → Removes (D.held self.old.disk) (D.held self.new.disk) (D.Sealed.number sealed.sealed) result }
        ensures time { IsTrue (D.honest self.old.disk)
            → Passes D.moment D.left_since self.old.disk self.new.disk
            (while_removing (D.held self.old.disk) (D.Sealed.number sealed.sealed)) }
        ensures covered { IsTrue (D.honest self.old.disk)
            → OnOk result (Covers (D.moment self.old.disk) (D.left_since self.new.disk)
            (while_removing (D.held self.old.disk) (D.Sealed.number sealed.sealed))) }
        ensures cause { FailsOnlyByFault (self.old.failed + D.faults self.old.disk)
            (self.new.failed + D.faults self.new.disk) result }
        ensures turn { TakesTurn W.fails W.next D.faults self.old self.new result }
    {
        if fails(&mut self.when, &mut self.failed) {
            return Err(DiskError::Fault);
        }
        let FusedFile { sealed, bad: _ } = sealed;
        self.disk.retire(sealed)
    }
}
