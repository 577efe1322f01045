// A disk in memory is a disk, and an honest one.
use crate::disk::MemoryDisk;
use crate::sealed::MemorySealed;
use flow_disk::{Disk, DiskError};
use std::alloc::Global;

impl Disk for MemoryDisk {
    type Sealed = MemorySealed;

    ghost use Rattle.std.specs.Prelude.{◌≡◌, ◌≢◌, ◌⊎◌, ℕ, ◌+◌, ◌≤◌, max, true, false, ◌||◌, Contains, ◌↔◌, length};
    ghost use Rattle.std.specs.Prelude.{take};
    ghost use Rattle.std.specs.Prelude.{drop, vec_len, IfOk, OnOk, OnErr, IsErrOf, is_err};
    ghost use Rattle.std.specs.Arc.{arc_value};
    ghost use Rattle.std.specs.List.Sorted.{IsStrictlyIncreasing};
    ghost use Rattle.flow_disk.specs.Cause.{HasCause, FailsOnlyByFault, HasRisen};
    ghost use Rattle.flow_disk.specs.Disk.{Changes, Stays};
    ghost use Rattle.flow_disk.specs.Moments.{Passes, Covers};
    ghost use Rattle.flow_disk.specs.Files.{Writes, Cuts, Syncs, Removes, while_writing, while_cutting};
    ghost use Rattle.flow_disk.specs.Files.{while_removing, MarkedByWrite, MarkedBySync, MarkedByRemoval, frozen_as};
    ghost use Rattle.flow_memory_disk.specs.Calls.{held_of};
    ghost use Rattle.flow_memory_disk.specs.Memory.{story_of, moment_of, left_after_stop};
    ghost use Rattle.flow_memory_disk.specs.Room.{lacks_file, lacks_room, lacks_octets, IsRefused};
    ghost use Rattle.flow_memory_disk.specs.Stored.{IsNamedAfter};
    ghost use Rattle.flow_memory_disk.specs.Sound.{sound, now_counts, now_alone};
    ghost use Rattle.flow_memory_disk.specs.Laws.{settled_alone, size_is, limit};

    ghost honest = { λ _. true };

    ghost marks = { λ d. (story_of d).marks };

    ghost held = { λ d. held_of (story_of d) };

    ghost moment = { moment_of };

    ghost left_since = { left_after_stop };

    ghost faults = { λ d. d.faults };

    ghost reads_image = { λ d n h. (sound (story_of d) n).image };

    ghost fast_within = { λ d n h. (sound (story_of d) n).within };

    ghost fast_whole = { λ d n h. (sound (story_of d) n).whole };

    ghost settled_alone = { λ d n image h settled is. settled_alone d n image settled is };

    ghost has_size = { λ d n h. size_is d n };

    ghost within_limit = { λ d n. limit d n };

    ghost counts_now = { λ d t image h le is. now_counts (story_of d) t image le is };

    ghost only_now = { λ d image h left. now_alone (story_of d) image left };

    fn length(&mut self, file: u64) -> Result<u64, DiskError>
        ensures clock { moment_of self.old ≤ moment_of self.new }
        ensures count { IfOk result (λ count. ((story_of self.new).marks file).size ≡ count) }
        ensures marks { (n : ℕ) → n ≢ file → (story_of self.new).marks n ≡ (story_of self.old).marks n }
        ensures settled { ((story_of self.new).marks file).settled ≡ ((story_of self.old).marks file).settled }
        ensures frozen { ((story_of self.new).marks file).frozen ≡ ((story_of self.old).marks file).frozen }
        ensures listed { ((story_of self.new).marks file).listed ≡ ((story_of self.old).marks file).listed }
        ensures held { Stays (held_of (story_of self.old)) (held_of (story_of self.new)) }
        ensures time { Passes moment_of left_after_stop self.old self.new (held_of (story_of self.old)) }
        ensures cause { FailsOnlyByFault self.old.faults self.new.faults result }
        ensures sure { IsErrOf result DiskError.Fault → ⊥ }
        ensures same { self.new ≡ self.old }
    {
        Ok(self.octets(file).len() as u64)
    }

    fn read_into(&mut self, file: u64, at: u64, octets: &mut [u8]) -> Result<(), DiskError>
        requires { at + length octets.old ≤ ((story_of self.old).marks file).size }
        ensures clock { moment_of self.old ≤ moment_of self.new }
        ensures octets { OnOk result
            (octets.new ≡ take (length octets.old) (drop at (held_of (story_of self.old) file).reads)) }
        ensures marks { Stays (story_of self.old).marks (story_of self.new).marks }
        ensures held { Stays (held_of (story_of self.old)) (held_of (story_of self.new)) }
        ensures time { Passes moment_of left_after_stop self.old self.new (held_of (story_of self.old)) }
        ensures cause { HasCause DiskError.Fault self.old.faults self.new.faults result }
        ensures done { is_err result ≡ false }
        ensures same { self.new ≡ self.old }
    {
        let at = at as usize;
        let count = octets.len();
        octets.copy_from_slice(&self.octets(file)[at..at + count]);
        Ok(())
    }

    fn read(
        &mut self,
        alloc: Global,
        file: u64,
        at: u64,
        count: usize,
    ) -> Result<Vec<u8>, DiskError>
        requires { at + count ≤ ((story_of self.old).marks file).size }
        ensures clock { moment_of self.old ≤ moment_of self.new }
        ensures count { IfOk result (λ octets. vec_len octets ≡ count) }
        ensures octets { IfOk result
            (λ octets. octets.items ≡ take count (drop at (held_of (story_of self.old) file).reads)) }
        ensures marks { Stays (story_of self.old).marks (story_of self.new).marks }
        ensures held { Stays (held_of (story_of self.old)) (held_of (story_of self.new)) }
        ensures time { Passes moment_of left_after_stop self.old self.new (held_of (story_of self.old)) }
        ensures cause { HasCause DiskError.Fault self.old.faults self.new.faults result }
        ensures sure { IsErrOf result DiskError.Fault → ⊥ }
        ensures same { self.new ≡ self.old }
    {
        let at = at as usize;
        Ok(self.octets(file)[at..at + count].to_vec(alloc)?)
    }

    fn write_at(&mut self, file: u64, at: u64, octets: &[u8]) -> Result<(), DiskError>
        requires place { at ≤ ((story_of self.old).marks file).size }
        requires thawed { ((story_of self.old).marks file).frozen ≡ false }
        ensures clock { moment_of self.old ≤ moment_of self.new }
        ensures marks { MarkedByWrite (story_of self.old).marks (story_of self.new).marks file
            (max ((story_of self.old).marks file).size (at + length octets.now)) result }
        ensures held { Writes (held_of (story_of self.old)) (held_of (story_of self.new)) file at octets.now result }
        ensures time { Passes moment_of left_after_stop self.old self.new
            (while_writing (held_of (story_of self.old)) file at octets.now) }
        ensures covered { OnOk result (Covers (moment_of self.old) (left_after_stop self.new)
            (while_writing (held_of (story_of self.old)) file at octets.now)) }
        ensures cause { FailsOnlyByFault self.old.faults self.new.faults result }
        ensures lacks { is_err result ≡ (lacks_room self.old file 1
            (length octets.now) || lacks_octets self.old file at (length octets.now)) }
        ensures refused { OnErr result (IsRefused self.old self.new) }
        ensures named { OnOk result (IsNamedAfter self.old.files.items self.new.files.items file) }
        ensures room { self.new.room ≡ self.old.room }
    {
        self.try_write(file, at, octets)
    }

    fn cut(&mut self, file: u64, count: u64) -> Result<(), DiskError>
        requires place { count ≤ ((story_of self.old).marks file).size }
        requires thawed { ((story_of self.old).marks file).frozen ≡ false }
        ensures clock { moment_of self.old ≤ moment_of self.new }
        ensures marks { MarkedByWrite (story_of self.old).marks (story_of self.new).marks file count result }
        ensures held { Cuts (held_of (story_of self.old)) (held_of (story_of self.new)) file count result }
        ensures time { Passes moment_of left_after_stop self.old self.new
            (while_cutting (held_of (story_of self.old)) file count) }
        ensures covered { OnOk result
            (Covers (moment_of self.old) (left_after_stop self.new)
            (while_cutting (held_of (story_of self.old)) file count)) }
        ensures cause { FailsOnlyByFault self.old.faults self.new.faults result }
        ensures lacks { is_err result ≡ lacks_room self.old file 1 0 }
        ensures refused { OnErr result (IsRefused self.old self.new) }
        ensures named { OnOk result (IsNamedAfter self.old.files.items self.new.files.items file) }
        ensures room { self.new.room ≡ self.old.room }
    {
        self.try_cut(file, count)
    }

    fn sync(&mut self, file: u64) -> Result<(), DiskError>
        ensures clock { moment_of self.old ≤ moment_of self.new }
        ensures marks { MarkedBySync (story_of self.old).marks (story_of self.new).marks file result }
        ensures held { Syncs (held_of (story_of self.old)) (held_of (story_of self.new)) file result }
        ensures time { Passes moment_of left_after_stop self.old self.new (held_of (story_of self.old)) }
        ensures cause { FailsOnlyByFault self.old.faults self.new.faults result }
        ensures lacks { is_err result ≡ lacks_room self.old file 1 0 }
        ensures refused { OnErr result (IsRefused self.old self.new) }
        ensures named { OnOk result (IsNamedAfter self.old.files.items self.new.files.items file) }
        ensures room { self.new.room ≡ self.old.room }
    {
        self.try_sync(file)
    }

    fn remove(&mut self, file: u64) -> Result<(), DiskError>
        requires { ((story_of self.old).marks file).frozen ≡ false }
        ensures clock { moment_of self.old ≤ moment_of self.new }
        ensures marks { MarkedByRemoval (story_of self.old).marks (story_of self.new).marks file result }
        ensures held { Removes (held_of (story_of self.old)) (held_of (story_of self.new)) file result }
        ensures time { Passes moment_of left_after_stop self.old self.new
            (while_removing (held_of (story_of self.old)) file) }
        ensures covered { OnOk result
            (Covers (moment_of self.old) (left_after_stop self.new)
            (while_removing (held_of (story_of self.old)) file)) }
        ensures cause { FailsOnlyByFault self.old.faults self.new.faults result }
        ensures lacks { is_err result ≡ lacks_room self.old file 2 0 }
        ensures refused { OnErr result (IsRefused self.old self.new) }
        ensures named { OnOk result (IsNamedAfter self.old.files.items self.new.files.items file) }
        ensures room { self.new.room ≡ self.old.room }
    {
        self.try_remove(file)
    }

    fn files(&mut self, alloc: Global) -> Result<Vec<u64>, DiskError>
        ensures clock { moment_of self.old ≤ moment_of self.new }
        ensures ascending { IfOk result (λ files. IsStrictlyIncreasing files.items) }
        ensures listed { IfOk result (λ files. (n : ℕ)
            → Contains files.items n ↔ (((story_of self.new).marks n).listed ≡ true)) }
        ensures marks { Stays (story_of self.old).marks (story_of self.new).marks }
        ensures held { Stays (held_of (story_of self.old)) (held_of (story_of self.new)) }
        ensures time { Passes moment_of left_after_stop self.old self.new (held_of (story_of self.old)) }
        ensures cause { HasCause DiskError.Fault self.old.faults self.new.faults result }
        ensures sure { IsErrOf result DiskError.Fault → ⊥ }
        ensures same { self.new ≡ self.old }
    {
        let numbers = self.listed(alloc)?;
        Ok(numbers.iter().copied().collect(alloc)?)
    }

    fn freeze(&mut self, file: u64) -> Result<MemorySealed, DiskError>
        requires settled { ((story_of self.old).marks file).settled ≡ true }
        requires thawed { ((story_of self.old).marks file).frozen ≡ false }
        ensures clock { moment_of self.old ≤ moment_of self.new }
        ensures sealed { IfOk result (λ sealed. (sealed.number ≡ file)
            × (length (arc_value sealed.octets).items ≡ ((story_of self.old).marks file).size)) }
        ensures octets { IfOk result
            (λ sealed. (arc_value sealed.octets).items ≡ (held_of (story_of self.old) file).reads) }
        ensures frozen { OnOk result
            (Changes (story_of self.old).marks (story_of self.new).marks file
            (frozen_as ((story_of self.old).marks file))) }
        ensures thawed { OnErr result (Stays (story_of self.old).marks (story_of self.new).marks) }
        ensures held { Stays (held_of (story_of self.old)) (held_of (story_of self.new)) }
        ensures time { Passes moment_of left_after_stop self.old self.new (held_of (story_of self.old)) }
        ensures cause { FailsOnlyByFault self.old.faults self.new.faults result }
        ensures has { OnOk result ((lacks_file self.old file ≡ false) × (self.new.lent ≡ self.old.lent)) }
        ensures lacks { OnErr result ((lacks_file self.old file ≡ true) ⊎ HasRisen self.old.lent self.new.lent) }
        ensures named { OnOk result (IsNamedAfter self.old.files.items self.new.files.items file) }
        ensures log { self.new.log ≡ self.old.log }
        ensures room { self.new.room ≡ self.old.room }
    {
        let octets = self.try_freeze(file)?;
        Ok(MemorySealed::new(file, octets))
    }

    fn retire(&mut self, sealed: MemorySealed) -> Result<(), DiskError>
        requires { ((story_of self.old).marks (sealed.number)).frozen ≡ true }
        ensures clock { moment_of self.old ≤ moment_of self.new }
        ensures marks { MarkedByRemoval (story_of self.old).marks (story_of self.new).marks (sealed.number) result }
        ensures held { Removes (held_of (story_of self.old)) (held_of (story_of self.new)) (sealed.number) result }
        ensures time { Passes moment_of left_after_stop self.old self.new
            (while_removing (held_of (story_of self.old)) (sealed.number)) }
        ensures covered { OnOk result (Covers (moment_of self.old) (left_after_stop self.new)
            (while_removing (held_of (story_of self.old)) (sealed.number))) }
        ensures cause { FailsOnlyByFault self.old.faults self.new.faults result }
        ensures lacks { is_err result ≡ lacks_room self.old sealed.number 2 0 }
        ensures refused { OnErr result (IsRefused self.old self.new) }
        ensures named { OnOk result (IsNamedAfter self.old.files.items self.new.files.items sealed.number) }
        ensures room { self.new.room ≡ self.old.room }
    {
        let number = sealed.number;
        self.try_remove(number)
    }
}
