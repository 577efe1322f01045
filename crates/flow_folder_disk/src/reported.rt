// What a disk has reported of its files.
ghost use Rattle.std.specs.Prelude.{◌≡◌, ◌≤◌, ◌<◌, ◌-◌, ◌^◌, ℕ, IsTrue};

use crate::numbers::Numbers;
use std::alloc::{AllocError, Global};
use std::collections::{BTreeMap, BTreeSet};

/// What was reported of a file: how many octets it has, and whether it is settled, frozen and listed.
#[derive(Clone, Copy)]
pub struct Reported {
    pub size: u64,
    pub settled: bool,
    pub frozen: bool,
    pub listed: bool,
    ghost within: { size ≤ 2 ^ 62 },
}

impl Reported {
    ghost use Rattle.flow_folder_disk.specs.Table.{marks_of, removed};

    /// Whether it is what is reported of a file that was removed.
    fn is_of_removed(&self) -> bool
        ensures { IsTrue result → marks_of self.now ≡ removed }
    {
        self.size == 0 && self.settled && !self.frozen && !self.listed
    }
}

/// What was reported of one file.
#[derive(Clone, Copy)]
struct Named {
    file: u64,
    reported: Reported,
}

/// What was reported of each file. Of a file that no call has named, only that it isn't frozen.
#[derive(Drop)]
pub struct Table {
    alloc: Global,
    /// The file that was named last: one that is written again and again isn't looked up.
    last: Option<Named>,
    /// Others, but for those that were removed.
    reported: BTreeMap<u64, Reported>,
    /// Files that were removed. They take no memory each.
    removed: Numbers,
}

impl Table {
    ghost use Rattle.std.specs.Prelude.{◌≢◌, ◌||◌, ◌&&◌, true, OnOk, OnErr, IfOk, false};
    ghost use Rattle.std.specs.List.{list_any};
    ghost use Rattle.std.specs.Ordering.{nat_cmp, eq_by_cmp};
    ghost use Rattle.std.specs.BTreeSet.{contains};
    ghost use Rattle.flow_disk.specs.Disk.{Changes, Stays};
    ghost use Rattle.flow_folder_disk.specs.Table.{marks_of, marks_in, others_in, removed, reported_in};

    /// No call has named a file.
    pub fn new(alloc: Global) -> Self
        ensures frozen { (n : ℕ) → (marks_in result n).frozen ≡ false }
        ensures settled { (n : ℕ) → (marks_in result n).settled ≡ false }
    {
        Table {
            alloc,
            last: None,
            reported: BTreeMap::new(alloc),
            removed: Numbers::new(alloc),
        }
    }

    /// What was reported of a file.
    pub fn of(&self, file: u64) -> Reported
        ensures { marks_of result ≡ marks_in self.now file }
    {
        match self.last {
            Some(named) if named.file == file => named.reported,
            _ => self.of_other(file),
        }
    }

    /// What was reported of a file that wasn't named last.
    fn of_other(&self, file: u64) -> Reported
        ensures { marks_of result ≡ others_in self.now file }
    {
        match self.reported.get(&file) {
            Some(reported) => *reported,
            None => Reported {
                size: 0,
                settled: self.removed.has(file),
                frozen: false,
                listed: false,
            },
        }
    }

    /// Reports this of a file from now on. Answers whether there was memory.
    pub fn report(&mut self, file: u64, reported: Reported) -> Result<(), NoRoom>
        ensures done { OnOk result (Changes (marks_in self.old) (marks_in self.new) file (marks_of reported)) }
        ensures failed { OnErr result (Stays (marks_in self.old) (marks_in self.new)) }
    {
        self.make_way(file)?;
        self.last = Some(Named { file, reported });
        Ok(())
    }

    /// Puts the file that was named last among the others, unless it is this one.
    fn make_way(&mut self, file: u64) -> Result<(), NoRoom>
        ensures done { OnOk result ((n : ℕ) → n ≢ file → others_in self.new n ≡ marks_in self.old n) }
        ensures failed { OnErr result (Stays (marks_in self.old) (marks_in self.new)) }
    {
        match self.last {
            Some(named) if named.file != file => self.put(named.file, named.reported),
            _ => Ok(()),
        }
    }

    /// Puts a file among the others.
    fn put(&mut self, file: u64, reported: Reported) -> Result<(), NoRoom>
        ensures last { self.new.last ≡ self.old.last }
        ensures done { OnOk result (Changes (others_in self.old) (others_in self.new) file (marks_of reported)) }
        ensures failed { OnErr result (Stays (others_in self.old) (others_in self.new)) }
    {
        if file < u64::MAX && reported.is_of_removed() {
            return self.put_removed(file);
        }
        match self.reported.insert(file, reported) {
            Ok(_) => Ok(()),
            Err(_) => Err(NoRoom),
        }
    }

    /// Puts a file that was removed among the others.
    fn put_removed(&mut self, file: u64) -> Result<(), NoRoom>
        requires { file < 2 ^ 64 - 1 }
        ensures last { self.new.last ≡ self.old.last }
        ensures done { OnOk result (Changes (others_in self.old) (others_in self.new) file removed) }
        ensures failed { OnErr result (Stays (others_in self.old) (others_in self.new)) }
    {
        if self.removed.add(self.alloc, file).is_err() {
            return Err(NoRoom);
        }
        self.reported.remove(&file);
        Ok(())
    }

    /// Adds the files that were reported as listed to these numbers.
    pub(crate) fn list(&self, alloc: Global, numbers: &mut BTreeSet<u64>) -> Result<(), AllocError>
        ensures { OnOk result ((n : ℕ)
            → contains nat_cmp numbers.new n ≡ (contains nat_cmp numbers.old n || (marks_in self.now n).listed)) }
    {
        let files = self.files(alloc)?;
        self.add_all(&files, numbers)
    }

    /// Adds those of these files that were reported as listed to these numbers.
    fn add_all(&self, files: &[u64], numbers: &mut BTreeSet<u64>) -> Result<(), AllocError>
        ensures { OnOk result ((n : ℕ) → contains nat_cmp numbers.new n ≡ (contains nat_cmp numbers.old n
            || (list_any (eq_by_cmp nat_cmp n) files.now && (marks_in self.now n).listed))) }
    {
        for file in files {
            self.add(*file, numbers)?;
        }
        Ok(())
    }

    /// Adds a file to these numbers, if it was reported as listed.
    fn add(&self, file: u64, numbers: &mut BTreeSet<u64>) -> Result<(), AllocError>
        ensures { OnOk result ((n : ℕ) → contains nat_cmp numbers.new n
            ≡ (contains nat_cmp numbers.old n || (eq_by_cmp nat_cmp n file && (marks_in self.now n).listed))) }
    {
        if self.of(file).listed {
            numbers.insert(file)?;
        }
        Ok(())
    }

    /// The files of which something was reported.
    pub(crate) fn files(&self, alloc: Global) -> Result<Vec<u64>, AllocError>
        ensures all { IfOk result (λ files. files.items ≡ reported_in self.now) }
        ensures listed { IfOk result (λ files. (n : ℕ) → (marks_in self.now n).listed ≡ true
            → list_any (eq_by_cmp nat_cmp n) files.items ≡ true) }
        ensures settled { IfOk result (λ files. (n : ℕ) → (marks_in self.now n).settled ≡ true
            → list_any (eq_by_cmp nat_cmp n) files.items ≡ true) }
    {
        let mut files = self.reported.keys().copied().collect(alloc)?;
        self.removed.list(&mut files)?;
        if let Some(named) = self.last {
            files.push(named.file)?;
        }
        Ok(files)
    }
}

/// Memory was refused.
#[derive(Drop)]
pub struct NoRoom;
