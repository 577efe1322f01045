// A disk in memory.
ghost use Rattle.std.specs.Prelude.{◌≡◌, ◌+◌, ◌<◌, ◌≤◌, ◌^◌, ℕ, [], length, get_or, vec_len, vec_capacity};
ghost use Rattle.flow_disk.specs.Disk.{settled_at};
ghost use Rattle.flow_memory_disk.specs.Calls.{replayed};
ghost use Rattle.flow_memory_disk.specs.Record.{calls_of};
ghost use Rattle.flow_memory_disk.specs.Stored.{looked, held_in, first_in, room_in};
ghost use Rattle.flow_memory_disk.specs.declared.stored.StoredFile.{StoredFile};

use crate::choice::Choice;
use crate::deed::Deed;
use crate::record::Record;
use crate::room::Room;
use crate::stop::stop_all;
use crate::stored::StoredFile;
use flow_disk::{DiskError, LIMIT};
use std::alloc::{AllocError, Global};
use std::collections::BTreeSet;
use std::sync::Arc;

/// A disk in memory. It keeps a record of the calls that changed its files.
#[derive(Drop)]
pub struct MemoryDisk {
    pub(crate) files: Vec<StoredFile>,
    spare: Vec<StoredFile>,
    pub(crate) log: Record,
    pub(crate) faults: u64,
    lent: u64,
    room: Room,
    ghost replays: { (n : ℕ) → looked held_in (settled_at []) files.items n
        ≡ replayed n (settled_at (looked first_in [] files.items n)) (calls_of log.deeds.items log.octets.items) },
    ghost limit: { room.octets ≤ 2 ^ 62 },
    ghost places: { length files.items + length spare.items ≡ room.files },
    ghost files_room: { room.files ≤ vec_capacity files },
    ghost files_fit: { (n : ℕ) → looked room_in (room.octets, room.calls) files.items n ≡ (room.octets, room.calls) },
    ghost spare_fit: { (k : ℕ) (d : StoredFile) → k < length spare.items
        → room_in (get_or spare.items k d) ≡ (room.octets, room.calls) },
    ghost calls_room: { room.calls ≤ vec_capacity log.deeds },
    ghost written_room: { room.written ≤ vec_capacity log.octets },
}

impl MemoryDisk {
    ghost use Rattle.std.specs.Prelude.{None, ◌++◌, ◌==◌, ◌||◌, true, false, min, max, take, IsTrue, ◌↔◌, IfOk, OnOk};
    ghost use Rattle.std.specs.Prelude.{OnErr};
    ghost use Rattle.std.specs.Prelude.{◌⊎◌, is_err};
    ghost use Rattle.std.specs.List.{position};
    ghost use Rattle.flow_memory_disk.specs.Stopped.{stopped};
    ghost use Rattle.flow_memory_disk.specs.Stopping.{CanCrash};
    ghost use Rattle.flow_disk.specs.Disk.{IsDiskImage};
    ghost use Rattle.std.specs.Arc.{arc_value};
    ghost use Rattle.std.specs.Ordering.{nat_cmp};
    ghost use Rattle.std.specs.BTreeSet.{contains};
    ghost use Rattle.flow_disk.specs.Cause.{FailsOnlyByFault, HasRisen};
    ghost use Rattle.flow_memory_disk.specs.Calls.{held_of, told, frozen_in, written, shortened, settled, abandoned};
    ghost use Rattle.flow_memory_disk.specs.Calls.{removed};
    ghost use Rattle.flow_memory_disk.specs.Stored.{IsPlace, IsNamedAfter, AreNamedAlike, is_named, unwritten};
    ghost use Rattle.flow_memory_disk.specs.Memory.{story_of};
    ghost use Rattle.flow_memory_disk.specs.Room.{lacks_file, lacks_room, lacks_octets, IsRefused};

    /// A disk with no files. All its room is made here.
    ///
    /// Errors: `AllocError`, where the room can't be had.
    pub fn new(alloc: Global, room: Room) -> Result<Self, AllocError>
        ensures story { IfOk result (λ disk. story_of disk
            ≡ record { base = λ n. []; calls = []; marks = λ n. unwritten }) }
        ensures room { IfOk result (λ disk. disk.room ≡ record {
          files = room.files;
          octets = min room.octets (2 ^ 62);
          calls = room.calls;
          written = room.written;
        }) }
        ensures free { IfOk result (λ disk. disk.files.items ≡ []) }
        ensures unused { IfOk result (λ disk. (vec_len disk.log.deeds ≡ 0) × (vec_len disk.log.octets ≡ 0)) }
    {
        let octets = room.octets.min(LIMIT as usize);
        let mut spare = Vec::with_capacity(alloc, room.files)?;
        for _ in 0..room.files {
            spare.push(StoredFile::new(alloc, octets, room.calls)?)?;
        }
        Ok(MemoryDisk {
            files: Vec::with_capacity(alloc, room.files)?,
            spare,
            log: Record::new(alloc, room.calls, room.written)?,
            faults: 0,
            lent: 0,
            room: Room {
                files: room.files,
                octets,
                calls: room.calls,
                written: room.written,
            },
        })
    }

    /// Counts a failure.
    fn fault(&mut self) -> DiskError
        ensures is { result ≡ DiskError.Fault }
        ensures refused { IsRefused self.old self.new }
        ensures story { story_of self.new ≡ story_of self.old }
        ensures lent { self.new.lent ≡ self.old.lent }
        ensures room { self.new.room ≡ self.old.room }
        ensures risen { HasRisen self.old.faults self.new.faults }
        ensures later { self.old.faults ≤ self.new.faults }
    {
        self.faults = self.faults.saturating_add(1);
        DiskError::Fault
    }

    /// Counts a failure to freeze a file of which an earlier frozen copy is still there.
    fn fault_of_lent(&mut self) -> DiskError
        ensures is { result ≡ DiskError.Fault }
        ensures story { story_of self.new ≡ story_of self.old }
        ensures log { self.new.log ≡ self.old.log }
        ensures room { self.new.room ≡ self.old.room }
        ensures lent { HasRisen self.old.lent self.new.lent }
        ensures risen { HasRisen self.old.faults self.new.faults }
        ensures later { self.old.faults ≤ self.new.faults }
    {
        self.lent = self.lent.saturating_add(1);
        self.fault()
    }

    /// The place of a file that some call has named.
    fn place(&self, file: u64) -> Option<usize>
        ensures { result ≡ position (λ stored. stored.number == file) self.now.files.items }
    {
        self.files.iter().position(|stored| stored.number == file)
    }

    /// Whether some call has named a file.
    fn is_named(&self, file: u64) -> bool
        ensures { result ≡ is_named self.now.files.items file }
    {
        match self.place(file) {
            Some(_) => true,
            None => false,
        }
    }

    /// Whether there is no room for a call of a file that takes so many places of the record and writes so many octets.
    fn lacks_room(&self, file: u64, calls: usize, octets: usize) -> bool
        ensures { result ≡ lacks_room self.now file calls octets }
    {
        !self.is_named(file) && self.files.len() >= self.room.files
            || self.log.lacks(self.room, calls, octets)
    }

    /// How many ranges of a file were written since it was last settled.
    fn touched_count(&self, file: u64) -> usize
        ensures { result ≡ length (held_of (story_of self.now) file).touched }
    {
        match self.place(file) {
            Some(index) => self.files[index].touched_count(),
            None => 0,
        }
    }

    /// Whether there is no room in a file for one write more, of so many octets at this place.
    fn lacks_octets(&self, file: u64, at: u64, count: usize) -> bool
        ensures { result ≡ lacks_octets self.now file at count }
    {
        count > self.room.octets
            || at > (self.room.octets - count) as u64
            || self.touched_count(file) >= self.room.calls
    }

    /// The place of a file, for a call that changes it.
    fn place_for(&mut self, file: u64) -> usize
        requires { lacks_file self.old file ≡ false }
        ensures place { IsPlace self.new.files.items file result }
        ensures named { IsNamedAfter self.old.files.items self.new.files.items file }
        ensures story { story_of self.new ≡ story_of self.old }
        ensures log { self.new.log ≡ self.old.log }
        ensures room { self.new.room ≡ self.old.room }
        ensures faults { self.new.faults ≡ self.old.faults }
        ensures lent { self.new.lent ≡ self.old.lent }
    {
        match self.place(file) {
            Some(index) => index,
            None => self.begin(file),
        }
    }

    /// Takes up a file that no call has named yet.
    fn begin(&mut self, file: u64) -> usize
        requires missing { position (λ stored. stored.number == file) self.old.files.items ≡ None }
        requires room { length self.old.files.items < self.old.room.files }
        ensures place { IsPlace self.new.files.items file result }
        ensures named { IsNamedAfter self.old.files.items self.new.files.items file }
        ensures story { story_of self.new ≡ story_of self.old }
        ensures log { self.new.log ≡ self.old.log }
        ensures room { self.new.room ≡ self.old.room }
        ensures faults { self.new.faults ≡ self.old.faults }
        ensures lent { self.new.lent ≡ self.old.lent }
    {
        let Some(mut stored) = self.spare.pop() else {
            unreachable!()
        };
        stored.begin(file);
        let index = self.files.len();
        self.files.push_reserved(stored);
        index
    }

    /// A write.
    pub(crate) fn try_write(&mut self, file: u64, at: u64, octets: &[u8]) -> Result<(), DiskError>
        requires { at ≤ ((story_of self.old).marks file).size }
        ensures ok { OnOk result (story_of self.new ≡ told (story_of self.old) (written file at octets.now)) }
        ensures err { OnErr result (story_of self.new ≡ story_of self.old) }
        ensures refused { OnErr result (IsRefused self.old self.new) }
        ensures lacks { is_err result ≡ (lacks_room self.old file 1
            (length octets.now) || lacks_octets self.old file at (length octets.now)) }
        ensures named { OnOk result (IsNamedAfter self.old.files.items self.new.files.items file) }
        ensures room { self.new.room ≡ self.old.room }
        ensures lent { self.new.lent ≡ self.old.lent }
        ensures cause { FailsOnlyByFault self.old.faults self.new.faults result }
    {
        if self.lacks_room(file, 1, octets.len()) || self.lacks_octets(file, at, octets.len()) {
            return Err(self.fault());
        }
        let index = self.place_for(file);
        self.files[index].write(at, octets);
        self.log.push(Deed::Wrote(file, at, octets.len()), octets);
        Ok(())
    }

    /// A cut.
    pub(crate) fn try_cut(&mut self, file: u64, count: u64) -> Result<(), DiskError>
        requires { count ≤ ((story_of self.old).marks file).size }
        ensures ok { OnOk result (story_of self.new ≡ told (story_of self.old) (shortened file count)) }
        ensures err { OnErr result (story_of self.new ≡ story_of self.old) }
        ensures refused { OnErr result (IsRefused self.old self.new) }
        ensures lacks { is_err result ≡ lacks_room self.old file 1 0 }
        ensures named { OnOk result (IsNamedAfter self.old.files.items self.new.files.items file) }
        ensures room { self.new.room ≡ self.old.room }
        ensures lent { self.new.lent ≡ self.old.lent }
        ensures cause { FailsOnlyByFault self.old.faults self.new.faults result }
    {
        if self.lacks_room(file, 1, 0) {
            return Err(self.fault());
        }
        let index = self.place_for(file);
        self.files[index].cut(count);
        self.log.push(Deed::Cut(file, count), &[]);
        Ok(())
    }

    /// A sync.
    pub(crate) fn try_sync(&mut self, file: u64) -> Result<(), DiskError>
        ensures ok { OnOk result (story_of self.new ≡ told (story_of self.old) (settled file)) }
        ensures err { OnErr result (story_of self.new ≡ story_of self.old) }
        ensures refused { OnErr result (IsRefused self.old self.new) }
        ensures lacks { is_err result ≡ lacks_room self.old file 1 0 }
        ensures named { OnOk result (IsNamedAfter self.old.files.items self.new.files.items file) }
        ensures room { self.new.room ≡ self.old.room }
        ensures lent { self.new.lent ≡ self.old.lent }
        ensures cause { FailsOnlyByFault self.old.faults self.new.faults result }
    {
        if self.lacks_room(file, 1, 0) {
            return Err(self.fault());
        }
        let index = self.place_for(file);
        self.files[index].sync();
        self.log.push(Deed::Synced(file), &[]);
        Ok(())
    }

    /// A removal: its begin and its end.
    pub(crate) fn try_remove(&mut self, file: u64) -> Result<(), DiskError>
        ensures ok { OnOk result (story_of self.new ≡ told (told (story_of self.old) (abandoned file)) (removed file)) }
        ensures err { OnErr result (story_of self.new ≡ story_of self.old) }
        ensures refused { OnErr result (IsRefused self.old self.new) }
        ensures lacks { is_err result ≡ lacks_room self.old file 2 0 }
        ensures named { OnOk result (IsNamedAfter self.old.files.items self.new.files.items file) }
        ensures room { self.new.room ≡ self.old.room }
        ensures lent { self.new.lent ≡ self.old.lent }
        ensures cause { FailsOnlyByFault self.old.faults self.new.faults result }
    {
        if self.lacks_room(file, 2, 0) {
            return Err(self.fault());
        }
        let index = self.place_for(file);
        self.files[index].abandon();
        self.log.push(Deed::Abandoned(file), &[]);
        self.files[index].remove();
        self.log.push(Deed::Removed(file), &[]);
        Ok(())
    }

    /// Freezes a file, and gives a copy of its octets that no later call changes. Where the copy of an earlier freezing
    /// is still there, which `lent` counts, it is a fault.
    pub(crate) fn try_freeze(&mut self, file: u64) -> Result<Arc<Vec<u8>>, DiskError>
        ensures ok { OnOk result (story_of self.new ≡ frozen_in (story_of self.old) file) }
        ensures octets { IfOk result (λ copy. (arc_value copy).items ≡ (held_of (story_of self.old) file).reads) }
        ensures err { OnErr result (story_of self.new ≡ story_of self.old) }
        ensures has { OnOk result ((lacks_file self.old file ≡ false) × (self.new.lent ≡ self.old.lent)) }
        ensures lacks { OnErr result ((lacks_file self.old file ≡ true) ⊎ HasRisen self.old.lent self.new.lent) }
        ensures named { OnOk result (IsNamedAfter self.old.files.items self.new.files.items file) }
        ensures log { self.new.log ≡ self.old.log }
        ensures room { self.new.room ≡ self.old.room }
        ensures cause { FailsOnlyByFault self.old.faults self.new.faults result }
    {
        if !self.is_named(file) && self.files.len() >= self.room.files {
            return Err(self.fault());
        }
        let index = self.place_for(file);
        match self.files[index].freeze() {
            Some(copy) => Ok(copy),
            None => Err(self.fault_of_lent()),
        }
    }

    /// What a file reads as.
    pub(crate) fn octets(&self, file: u64) -> &[u8]
        ensures octets { result.now ≡ (held_of (story_of self.now) file).reads }
        ensures size { length result.now ≡ ((story_of self.now).marks file).size }
    {
        match self.place(file) {
            Some(index) => &self.files[index].octets,
            None => &[],
        }
    }

    /// The numbers of the files that are listed.
    pub(crate) fn listed(&self, alloc: Global) -> Result<BTreeSet<u64>, AllocError>
        ensures { IfOk result (λ numbers. (n : ℕ) → contains nat_cmp numbers n ≡ ((story_of self.now).marks n).listed) }
    {
        let mut numbers = BTreeSet::new(alloc);
        for index in (0..self.files.len()).rev() {
            let stored = &self.files[index];
            if stored.listed {
                numbers.insert(stored.number)?;
            } else {
                numbers.remove(&stored.number);
            }
        }
        Ok(numbers)
    }

    /// Whether a stop may leave this: `Filled` needs an octet, and where a file's end is loose those of `Longer` must
    /// fit its room.
    pub fn can_crash(&self, choice: Choice<'_>) -> bool
        ensures { IsTrue result ↔ CanCrash self.now.files.items choice.entry }
    {
        for stored in &self.files {
            if !stored.can_stop(choice) {
                return false;
            }
        }
        true
    }

    /// The disk after a stop that left this image: it is settled, nothing is frozen, and the record begins anew in the
    /// same room. Takes no memory. Values of frozen files are to be dropped first, since they hold room.
    pub fn crash(self, choice: Choice<'_>) -> MemoryDisk
        requires { CanCrash self.files.items choice }
        ensures story { story_of result ≡ stopped (story_of self) choice.entry }
        ensures image { IsDiskImage (held_of (story_of self)) (λ n. (held_of (story_of result) n).reads) }
        ensures thawed { (n : ℕ) → ((story_of result).marks n).frozen ≡ false }
        ensures faults { result.faults ≡ self.faults }
        ensures spare { result.spare ≡ self.spare }
        ensures named { AreNamedAlike self.files.items result.files.items }
        ensures room { result.room ≡ self.room }
        ensures lent { result.lent ≡ self.lent }
        ensures unused { (vec_len result.log.deeds ≡ 0) × (vec_len result.log.octets ≡ 0) }
    {
        let MemoryDisk {
            mut files,
            spare,
            mut log,
            faults,
            lent,
            room,
        } = self;
        stop_all(&mut files, choice);
        log.clear();
        MemoryDisk {
            files,
            spare,
            log,
            faults,
            lent,
            room,
        }
    }

    /// The disk as the next program finds it where there was no stop: each file reads as before, nothing is frozen, and
    /// the record begins anew in the same room.
    pub fn restart(self) -> MemoryDisk
        ensures story { story_of result ≡ stopped (story_of self) Choice.Kept }
        ensures thawed { (n : ℕ) → ((story_of result).marks n).frozen ≡ false }
        ensures faults { result.faults ≡ self.faults }
        ensures spare { result.spare ≡ self.spare }
        ensures named { AreNamedAlike self.files.items result.files.items }
        ensures room { result.room ≡ self.room }
        ensures lent { result.lent ≡ self.lent }
        ensures unused { (vec_len result.log.deeds ≡ 0) × (vec_len result.log.octets ≡ 0) }
    {
        self.crash(Choice::Kept)
    }
}
