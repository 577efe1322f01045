// A directory in memory.
ghost use Rattle.std.specs.Prelude.{◌≡◌, ◌≢◌, ℕ, ◌+◌, ◌<◌, ◌≤◌, ◌^◌, true, false, reverse, length, take, drop, vec_len};
ghost use Rattle.std.specs.Prelude.{IfOk, OnOk, OnErr, IsErr, Contains, ◌↔◌, ◌⊎◌};
ghost use Rattle.flow_memory_directory.specs.Views.{AllSound};

use crate::all::{enter_all, miss_all};
use crate::deed::Deed;
use crate::error::MemoryError;
use crate::node::Node;
use std::alloc::{AllocError, Global};

/// Which syncs and openings fail: the one after so many others, and each later one too where it lasts; and whether one
/// has failed.
#[derive(Clone, Copy)]
pub(crate) struct Failing {
    after: Option<u64>,
    lasts: bool,
    struck: bool,
}

impl Failing {
    /// None fails.
    pub(crate) const NEVER: Failing = Failing {
        after: None,
        lasts: false,
        struck: false,
    };
}

/// A directory in memory, with room for so many files, which are numbered from 0 on. It has the system's memory of each
/// file and the device's, and a log of the calls that changed what a stop may leave.
#[derive(Drop)]
pub struct MemoryDirectory {
    pub(crate) alloc: Global,
    pub(crate) nodes: Vec<Node>,
    pub(crate) log: Vec<Deed>,
    pub(crate) failing: Failing,
    pub(crate) drops: bool,
    ghost sound: { AllSound nodes.items (reverse log.items) },
}

impl MemoryDirectory {
    ghost use Rattle.std.specs.Prelude.{[]};
    ghost use Rattle.flow_disk.specs.Disk.{touched_at, loosened_at, given_up};
    ghost use Rattle.flow_directory.specs.Calls.{Writing, Rewriting, Truncating, Retruncating, Syncing, Opening};
    ghost use Rattle.flow_directory.specs.Calls.{Creating, Unlinking, UnlinkingEmpty, Entering, Loosening, ChangingMode};
    ghost use Rattle.flow_directory.specs.Calls.{Lending};
    ghost use Rattle.flow_memory_directory.specs.Memory.{files_of, IsUntouched, Changes, Keeps, Settles};

    /// Makes the sync, the sync of the directory or the opening after so many others fail, and each later one too where
    /// it lasts. Where the pages of a failed sync are dropped, the file reads as the device has it from then on.
    pub fn fail_after(&mut self, count: u64, drops: bool, lasts: bool)
        ensures nodes { self.new.nodes ≡ self.old.nodes }
        ensures log { self.new.log ≡ self.old.log }
    {
        self.failing = Failing {
            after: Some(count),
            lasts,
            struck: false,
        };
        self.drops = drops;
    }

    /// Whether a call has failed since then.
    pub fn has_failed(&self) -> bool
        ensures { result ≡ self.now.failing.struck }
    {
        self.failing.struck
    }

    /// The place of a file, where there is room for it.
    pub(crate) fn place(&self, file: u64) -> Result<usize, MemoryError>
        ensures found { IfOk result (λ index. (index ≡ file) × (index < length self.now.nodes.items)) }
        ensures past { OnErr result (length self.now.nodes.items ≤ file) }
    {
        if file < self.nodes.len() as u64 {
            Ok(file as usize)
        } else {
            Err(MemoryError::Refused)
        }
    }

    /// The files that have a name.
    pub(crate) fn listed(&self, alloc: Global) -> Result<Vec<u64>, MemoryError>
        ensures { IfOk result
            (λ list. (n : ℕ) → Contains list.items n ↔ ((files_of self.now n).linked ≡ true)) }
    {
        let mut list = Vec::new(alloc);
        'places: for place in 0..self.nodes.len() {
            self.list_node(&mut list, place)?;
        }
        Ok(list)
    }

    /// Adds a file to the list, where it has a name.
    fn list_node(&self, list: &mut Vec<u64>, place: usize) -> Result<(), MemoryError>
        requires { place < length self.now.nodes.items }
        ensures { OnOk result ((n : ℕ) → Contains list.new.items n
            ↔ (Contains list.old.items n ⊎ ((n ≡ place) × ((files_of self.now n).linked ≡ true)))) }
    {
        if !self.nodes[place].linked {
            return Ok(());
        }
        list.push(place as u64)?;
        Ok(())
    }

    /// Writes octets at a place.
    pub(crate) fn write_node(
        &mut self,
        file: u64,
        at: u64,
        octets: &[u8],
    ) -> Result<(), MemoryError>
        ensures done { OnOk result (Changes self.old self.new file (λ was now. Writing was now at octets.now result)
            (touched_at (files_of self.old file).held at (length octets.now) (files_of self.old file).held.reads)) }
        ensures failed { OnErr result (IsUntouched self.old self.new) }
    {
        let index = self.place(file)?;
        self.log.reserve(1)?;
        self.nodes[index].write(self.alloc, at, octets)?;
        self.log
            .push_reserved(Deed::Wrote(file, at, octets.len() as u64));
        Ok(())
    }

    /// Writes octets over those that are there.
    pub(crate) fn rewrite_node(
        &mut self,
        file: u64,
        at: u64,
        octets: &[u8],
    ) -> Result<(), MemoryError>
        requires { octets.now ≡ take (length octets.now) (drop at (files_of self.old file).held.reads) }
        ensures done { OnOk result (Keeps self.old self.new file
            (λ was now. Rewriting was now at (length octets.now) result)) }
        ensures failed { OnErr result (IsUntouched self.old self.new) }
    {
        let index = self.place(file)?;
        self.nodes[index].write(self.alloc, at, octets)?;
        Ok(())
    }

    /// Cuts a file.
    pub(crate) fn cut_node(&mut self, file: u64, count: u64) -> Result<(), MemoryError>
        ensures done { OnOk result (Changes self.old self.new file (λ was now. Truncating was now count result)
            (loosened_at (files_of self.old file).held count (files_of self.old file).held.reads)) }
        ensures failed { OnErr result (IsUntouched self.old self.new) }
    {
        let index = self.place(file)?;
        self.log.reserve(1)?;
        self.nodes[index].cut(count)?;
        self.log.push_reserved(Deed::Cut(file, count));
        Ok(())
    }

    /// Cuts a file to the size that it has.
    pub(crate) fn recut_node(&mut self, file: u64, count: u64) -> Result<(), MemoryError>
        requires { count ≡ length (files_of self.old file).held.reads }
        ensures done { OnOk result (Keeps self.old self.new file (λ was now. Retruncating was now result)) }
        ensures failed { OnErr result (IsUntouched self.old self.new) }
    {
        let index = self.place(file)?;
        self.nodes[index].cut(count)?;
        Ok(())
    }

    /// Makes a name.
    pub(crate) fn create_node(&mut self, file: u64) -> Result<(), MemoryError>
        ensures done { OnOk result (Keeps self.old self.new file (λ was now. Creating was now result)) }
        ensures failed { OnErr result (IsUntouched self.old self.new) }
    {
        let index = self.place(file)?;
        self.nodes[index].create()?;
        Ok(())
    }

    /// What was dirty of a file is lost, as an opening may find it.
    pub(crate) fn lose_node(&mut self, index: usize)
        requires { index < length self.old.nodes.items }
        ensures { Keeps self.old self.new index (λ was now. Opening was now) }
    {
        self.nodes[index].lose();
    }

    /// Changes a file's mode.
    pub(crate) fn set_mode_of_node(&mut self, file: u64, read_only: bool) -> Result<(), MemoryError>
        ensures done { OnOk result (Keeps self.old self.new file
            (λ was now. ChangingMode was now read_only result)) }
        ensures failed { OnErr result (IsUntouched self.old self.new) }
    {
        let index = self.place(file)?;
        self.nodes[index].set_read_only(read_only)?;
        Ok(())
    }

    /// A copy of a file's octets.
    pub(crate) fn octets_of(&self, file: u64) -> Result<Vec<u8>, MemoryError>
        ensures { IfOk result (λ octets. octets.items ≡ (files_of self.now file).held.reads) }
    {
        let index = self.place(file)?;
        let octets = self.nodes[index].octets.to_vec(self.alloc)?;
        Ok(octets)
    }

    /// Lends a file.
    pub(crate) fn lend_node(&mut self, file: u64) -> Result<(), MemoryError>
        ensures done { OnOk result (Keeps self.old self.new file (λ was now. Lending was now true)) }
        ensures failed { OnErr result (IsUntouched self.old self.new) }
    {
        let index = self.place(file)?;
        self.nodes[index].lend()?;
        Ok(())
    }

    /// Takes a name away: a stop may leave anything of the file from now on.
    pub(crate) fn unlink_node(&mut self, file: u64) -> Result<bool, MemoryError>
        ensures done { OnOk result (Changes self.old self.new file (λ was now. Unlinking was now result)
            (given_up (files_of self.old file).held (files_of self.old file).held.reads)) }
        ensures failed { OnErr result (IsUntouched self.old self.new) }
    {
        let index = self.place(file)?;
        self.log.reserve(1)?;
        let linked = self.nodes[index].unlink()?;
        self.log.push_reserved(Deed::Unlinked(file));
        Ok(linked)
    }

    /// Takes the name of a file without octets away.
    pub(crate) fn unlink_empty_node(&mut self, file: u64) -> Result<bool, MemoryError>
        requires { (files_of self.old file).held.reads ≡ [] }
        ensures done { OnOk result (Keeps self.old self.new file (λ was now. UnlinkingEmpty was now result)) }
        ensures failed { OnErr result (IsUntouched self.old self.new) }
    {
        let index = self.place(file)?;
        let linked = self.nodes[index].unlink()?;
        Ok(linked)
    }

    /// Syncs a file of which nothing is lost: a stop leaves what it reads as.
    pub(crate) fn sync_whole(&mut self, file: u64) -> Result<(), MemoryError>
        ensures done { OnOk result (Keeps self.old self.new file (λ was now. Syncing was now result)) }
        ensures failed { OnErr result (IsUntouched self.old self.new) }
    {
        let index = self.place(file)?;
        self.log.reserve(1)?;
        let octets = self.nodes[index].sync_whole(self.alloc)?;
        self.log.push_reserved(Deed::Settled(file, octets));
        Ok(())
    }

    /// Syncs a file of which something is lost, or whose name isn't durable.
    pub(crate) fn sync_some(&mut self, file: u64) -> Result<(), MemoryError>
        ensures done { OnOk result (Keeps self.old self.new file (λ was now. Syncing was now result)) }
        ensures failed { OnErr result (IsUntouched self.old self.new) }
    {
        let index = self.place(file)?;
        self.nodes[index].sync_some(self.alloc)?;
        Ok(())
    }

    /// Syncs the directory.
    pub(crate) fn sync_names(&mut self) -> Result<(), MemoryError>
        ensures names { (n : ℕ) → Entering (files_of self.old n) (files_of self.new n) result }
        ensures held { (n : ℕ) → (files_of self.new n).held ≡ (files_of self.old n).held }
        ensures log { self.new.log.items ≡ self.old.log.items }
    {
        if strikes(&mut self.failing) {
            miss_all(&mut self.nodes);
            return Err(MemoryError::Refused);
        }
        enter_all(&mut self.nodes);
        Ok(())
    }

    /// Takes what a file reads as for all that a stop may leave of it, where the device has that.
    pub(crate) fn settle_node(&mut self, file: u64) -> Result<(), MemoryError>
        ensures done { OnOk result (Keeps self.old self.new file (λ was now. Settles was now)) }
        ensures failed { OnErr result (IsUntouched self.old self.new) }
    {
        let index = self.place(file)?;
        if !self.nodes[index].is_settled() {
            return Ok(());
        }
        self.note_settled(file)
    }

    /// Takes what a file reads as for all that a stop may leave of it.
    fn note_settled(&mut self, file: u64) -> Result<(), MemoryError>
        ensures done { OnOk result (Keeps self.old self.new file (λ was now. Settles was now)) }
        ensures failed { OnErr result (IsUntouched self.old self.new) }
    {
        let index = self.place(file)?;
        self.log.reserve(1)?;
        let octets = self.nodes[index].settled_octets(self.alloc)?;
        self.log.push_reserved(Deed::Settled(file, octets));
        Ok(())
    }

    /// Takes it that anything may follow the octets that a file has.
    pub(crate) fn loosen_node(&mut self, file: u64) -> Result<(), MemoryError>
        ensures done { OnOk result (Changes self.old self.new file (λ was now. Loosening was now result)
            (loosened_at (files_of self.old file).held (length (files_of self.old file).held.reads)
            (files_of self.old file).held.reads)) }
        ensures failed { OnErr result (IsUntouched self.old self.new) }
    {
        let index = self.place(file)?;
        self.log.reserve(1)?;
        let count = self.nodes[index].octets.len() as u64;
        self.log.push_reserved(Deed::Cut(file, count));
        Ok(())
    }

    /// Finds a file as an opening may.
    pub(crate) fn reopen(&mut self, index: usize)
        requires { index < length self.old.nodes.items }
        ensures { Keeps self.old self.new index (λ was now. Opening was now) }
    {
        if !strikes(&mut self.failing) {
            return;
        }
        self.lose_node(index);
    }

    /// A sync of a file fails.
    pub(crate) fn fail_sync(&mut self, index: usize) -> Result<(), MemoryError>
        requires { index < length self.old.nodes.items }
        ensures rule { Keeps self.old self.new index (λ was now. Syncing was now result) }
        ensures failed { IsErr result }
    {
        self.nodes[index].fail(self.alloc, self.drops);
        Err(MemoryError::Refused)
    }

    /// Takes a file back.
    pub(crate) fn take_back_node(&mut self, index: usize)
        requires { index < length self.old.nodes.items }
        ensures { Keeps self.old self.new index (λ was now. Lending was now false) }
    {
        self.nodes[index].take_back();
    }
}

/// Whether this call fails.
pub(crate) fn strikes(failing: &mut Failing) -> bool {
    match failing.after {
        Some(0) => {
            if !failing.lasts {
                failing.after = None;
            }
            failing.struck = true;
            true
        }
        Some(count) => {
            failing.after = Some(count - 1);
            false
        }
        None => false,
    }
}
