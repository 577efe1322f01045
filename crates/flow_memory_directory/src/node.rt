// A file in the system's memory, and what the device has of it.
ghost use Rattle.std.specs.Prelude.{◌≡◌, ◌≢◌, ◌≤◌, ◌^◌, true, false, [], vec_len};
ghost use Rattle.flow_memory_directory.specs.Marks.{IsQuiet, IsKept};
ghost use Rattle.flow_memory_directory.specs.declared.mark.Mark.TheVariants.{Clean};

use crate::error::MemoryError;
use crate::lists::{are_clean, clean, fail_marks, has_no_lost, merged, put, put_marks, sync_marks};
use crate::mark::Mark;
use flow_directory::Status;
use flow_disk::LIMIT;
use std::alloc::{AllocError, Global};

/// A file, by its name: its octets in the page cache, the marks of these, of its size and of its name; and the device's
/// octets under that name, of which the first `end` are in the device's file. As long as the name isn't durable these
/// are those of an older file.
#[derive(Drop)]
pub(crate) struct Node {
    pub(crate) octets: Vec<u8>,
    marks: Vec<Mark>,
    size: Mark,
    entry: Mark,
    blocks: Vec<u8>,
    end: usize,
    on_device: bool,
    pub(crate) linked: bool,
    pub(crate) read_only: bool,
    lent: bool,
    ghost count: { vec_len marks ≡ vec_len octets },
    ghost limit: { vec_len octets ≤ 2 ^ 62 },
    ghost end_within: { end ≤ vec_len blocks },
    ghost absent: { linked ≡ false → octets.items ≡ [] },
    ghost unnamed: { entry ≢ Clean → octets.items ≡ [] },
    ghost unnamed_size: { entry ≢ Clean → size ≡ Clean },
    ghost sealed: { read_only ≡ true → IsQuiet marks.items size },
    ghost absent_quiet: { linked ≡ false → IsQuiet marks.items size },
    ghost lent_quiet: { lent ≡ true → IsQuiet marks.items size },
    ghost kept: { entry ≡ Clean → IsKept octets.items marks.items size blocks.items end },
    ghost alike: { entry ≡ Clean → on_device ≡ linked },
}

impl Node {
    ghost use Rattle.std.specs.Prelude.{ℕ, ◌+◌, length, take, get_or, IfOk, IfSome, OnOk, OnErr, IsTrue, is_some, ◌↔◌};
    ghost use Rattle.flow_disk.specs.Disk.{put_at};
    ghost use Rattle.flow_memory_directory.specs.Bound.{IsBetween};
    ghost use Rattle.flow_memory_directory.specs.Marks.{mark_at};
    ghost use Rattle.flow_memory_directory.specs.Nodes.{device_in, NodeWrites, NodeCuts, NodeSyncs, NodeFails};
    ghost use Rattle.flow_memory_directory.specs.Nodes.{NodeReverts, NodeCreates, NodeUnlinks, NodeEnters, NodeMisses};
    ghost use Rattle.flow_memory_directory.specs.Nodes.{NodeKeeps, NodeRestores, NodeFalls, IsNodeClean};
    ghost use Rattle.flow_memory_directory.specs.Nodes.{IsNodeWhole};

    /// A file that has no name.
    pub(crate) fn absent(alloc: Global) -> Self
        ensures octets { result.octets.items ≡ [] }
        ensures device { device_in result ≡ [] }
        ensures linked { result.linked ≡ false }
    {
        Node {
            octets: Vec::new(alloc),
            marks: Vec::new(alloc),
            size: Mark::Clean,
            entry: Mark::Clean,
            blocks: Vec::new(alloc),
            end: 0,
            on_device: false,
            linked: false,
            read_only: false,
            lent: false,
        }
    }

    /// Writes octets at a place, where it may be written.
    pub(crate) fn write(&mut self, alloc: Global, at: u64, octets: &[u8]) -> Result<(), MemoryError>
        ensures done { OnOk result (NodeWrites self.old self.new at octets.now) }
        ensures failed { OnErr result (self.new ≡ self.old) }
    {
        if !self.may_change(at) {
            return Err(MemoryError::Refused);
        }
        if octets.len() as u64 > LIMIT - at {
            return Err(MemoryError::Refused);
        }
        self.put(alloc, at as usize, octets)?;
        Ok(())
    }

    /// Puts octets at a place.
    fn put(&mut self, alloc: Global, at: usize, octets: &[u8]) -> Result<(), AllocError>
        requires place { at ≤ vec_len self.old.octets }
        requires fits { at + length octets.now ≤ 2 ^ 62 }
        requires named { self.old.entry ≡ Mark.Clean }
        requires writable { self.old.read_only ≡ false }
        requires thawed { self.old.lent ≡ false }
        requires linked { self.old.linked ≡ true }
        ensures done { OnOk result (NodeWrites self.old self.new at octets.now) }
        ensures failed { OnErr result (self.new ≡ self.old) }
    {
        let made = put(alloc, &self.octets, at, octets)?;
        let marks = put_marks(alloc, &self.marks, at, octets.len())?;
        self.octets = made;
        self.marks = marks;
        self.size = self.size.written();
        Ok(())
    }

    /// Whether it may be written or cut at a place: its name is durable, its mode allows it, and it isn't lent.
    fn may_change(&self, at: u64) -> bool
        ensures place { result ≡ true → at ≤ vec_len self.now.octets }
        ensures named { result ≡ true → self.now.entry ≡ Mark.Clean }
        ensures writable { result ≡ true → self.now.read_only ≡ false }
        ensures thawed { result ≡ true → self.now.lent ≡ false }
        ensures linked { result ≡ true → self.now.linked ≡ true }
    {
        self.linked
            && self.entry == Mark::Clean
            && !self.read_only
            && !self.lent
            && at <= self.octets.len() as u64
    }

    /// Cuts it to so many octets, where it may be cut.
    pub(crate) fn cut(&mut self, count: u64) -> Result<(), MemoryError>
        ensures done { OnOk result (NodeCuts self.old self.new count) }
        ensures failed { OnErr result (self.new ≡ self.old) }
    {
        if !self.may_change(count) {
            return Err(MemoryError::Refused);
        }
        self.octets.truncate(count as usize);
        self.marks.truncate(count as usize);
        self.size = Mark::Dirty;
        Ok(())
    }

    /// Syncs it: the device has all that was dirty.
    pub(crate) fn sync(&mut self, alloc: Global) -> Result<(), AllocError>
        ensures done { OnOk result (NodeSyncs self.old self.new) }
        ensures failed { OnErr result (self.new ≡ self.old) }
    {
        if self.entry != Mark::Clean {
            return Ok(());
        }
        let count = self.octets.len().max(self.blocks.len());
        let blocks = merged(alloc, &self.octets, &self.marks, &self.blocks, count)?;
        self.blocks = blocks;
        if !self.size.is_lost() {
            self.end = self.octets.len();
        }
        sync_marks(&mut self.marks);
        self.size = self.size.after_sync();
        Ok(())
    }

    /// Syncs it, where nothing of it is lost and its name is durable: the device has just what it reads as. Answers that.
    pub(crate) fn sync_whole(&mut self, alloc: Global) -> Result<Vec<u8>, MemoryError>
        ensures whole { OnOk result (IsNodeWhole self.old) }
        ensures octets { IfOk result (λ octets. octets.items ≡ self.old.octets.items) }
        ensures done { OnOk result (NodeSyncs self.old self.new) }
        ensures same { OnOk result (device_in self.new ≡ self.old.octets.items) }
        ensures failed { OnErr result (self.new ≡ self.old) }
    {
        if !self.is_whole() {
            return Err(MemoryError::Refused);
        }
        let octets = self.octets.to_vec(alloc)?;
        self.sync(alloc)?;
        Ok(octets)
    }

    /// Syncs it, where something of it is lost or its name isn't durable.
    pub(crate) fn sync_some(&mut self, alloc: Global) -> Result<(), MemoryError>
        ensures lost { OnOk result (IsNodeWhole self.old → ⊥) }
        ensures done { OnOk result (NodeSyncs self.old self.new) }
        ensures between { OnOk result (IsBetween self.old.octets.items (device_in self.old) (device_in self.new)) }
        ensures failed { OnErr result (self.new ≡ self.old) }
    {
        if self.is_whole() {
            return Err(MemoryError::Refused);
        }
        self.sync(alloc)?;
        Ok(())
    }

    /// What was dirty is lost.
    pub(crate) fn lose(&mut self)
        ensures { NodeFails self.old self.new }
    {
        fail_marks(&mut self.marks);
        self.size = self.size.after_failure();
    }

    /// A sync of it fails: what was dirty is lost. Where its pages are dropped, what is lost reads as the device has it.
    pub(crate) fn fail(&mut self, alloc: Global, drops: bool)
        ensures { NodeFalls self.old self.new }
    {
        self.lose();
        if !drops {
            return;
        }
        let _ = self.revert(alloc);
    }

    /// Its lost octets read as the device has them.
    fn revert(&mut self, alloc: Global) -> Result<(), AllocError>
        ensures done { OnOk result (NodeReverts self.old self.new) }
        ensures failed { OnErr result (self.new ≡ self.old) }
    {
        let count = self.octets.len();
        let octets = merged(
            alloc,
            &self.octets,
            &self.marks,
            &self.blocks[..self.end],
            count,
        )?;
        self.octets = octets;
        Ok(())
    }

    /// Makes its name, where it has none.
    pub(crate) fn create(&mut self) -> Result<(), MemoryError>
        ensures absent { OnOk result (self.old.linked ≡ false) }
        ensures done { OnOk result (NodeCreates self.old self.new) }
        ensures failed { OnErr result (self.new ≡ self.old) }
    {
        if self.linked {
            return Err(MemoryError::Refused);
        }
        self.octets.clear();
        self.marks.clear();
        self.size = Mark::Clean;
        self.entry = Mark::Dirty;
        self.linked = true;
        self.read_only = false;
        Ok(())
    }

    /// Takes its name away, where it has one and isn't lent, and answers whether it had one.
    pub(crate) fn unlink(&mut self) -> Result<bool, MemoryError>
        ensures linked { IfOk result (λ was. was ≡ self.old.linked) }
        ensures done { OnOk result (self.old.linked ≡ true → NodeUnlinks self.old self.new) }
        ensures none { OnOk result (self.old.linked ≡ false → self.new ≡ self.old) }
        ensures failed { OnErr result (self.new ≡ self.old) }
    {
        if self.lent {
            return Err(MemoryError::Refused);
        }
        if !self.linked {
            return Ok(false);
        }
        self.octets.clear();
        self.marks.clear();
        self.size = Mark::Clean;
        self.entry = Mark::Dirty;
        self.linked = false;
        self.read_only = false;
        Ok(true)
    }

    /// The directory is synced: a name that was made or taken away is so on the device.
    pub(crate) fn enter(&mut self)
        ensures { NodeEnters self.old self.new }
    {
        if self.entry == Mark::Dirty {
            self.blocks.clear();
            self.end = 0;
            self.on_device = self.linked;
        }
        self.entry = self.entry.after_sync();
    }

    /// A sync of the directory failed.
    pub(crate) fn miss(&mut self)
        ensures { NodeMisses self.old self.new }
    {
        self.entry = self.entry.after_failure();
    }

    /// Changes its mode, where nothing of it waits.
    pub(crate) fn set_read_only(&mut self, read_only: bool) -> Result<(), MemoryError>
        ensures done { OnOk result (NodeKeeps self.old self.new) }
        ensures mode { OnOk result (self.new.read_only ≡ read_only) }
        ensures lent { OnOk result (self.new.lent ≡ self.old.lent) }
        ensures failed { OnErr result (self.new ≡ self.old) }
    {
        if !self.is_clean() {
            return Err(MemoryError::Refused);
        }
        self.read_only = read_only;
        Ok(())
    }

    /// Lends it, where nothing of it waits.
    pub(crate) fn lend(&mut self) -> Result<(), MemoryError>
        ensures done { OnOk result (NodeKeeps self.old self.new) }
        ensures lent { OnOk result (self.new.lent ≡ true) }
        ensures mode { OnOk result (self.new.read_only ≡ self.old.read_only) }
        ensures failed { OnErr result (self.new ≡ self.old) }
    {
        if !self.is_clean() {
            return Err(MemoryError::Refused);
        }
        self.lent = true;
        Ok(())
    }

    /// Takes it back.
    pub(crate) fn take_back(&mut self)
        ensures done { NodeKeeps self.old self.new }
        ensures lent { self.new.lent ≡ false }
        ensures mode { self.new.read_only ≡ self.old.read_only }
    {
        self.lent = false;
    }

    /// Whether nothing of it is lost, and its name is durable.
    pub(crate) fn is_whole(&self) -> bool
        ensures { IsTrue result ↔ IsNodeWhole self.now }
    {
        self.entry == Mark::Clean && !self.size.is_lost() && has_no_lost(&self.marks)
    }

    /// Whether nothing of it is dirty or lost.
    pub(crate) fn is_clean(&self) -> bool
        ensures { IsTrue result ↔ IsNodeClean self.now }
    {
        self.size == Mark::Clean && are_clean(&self.marks)
    }

    /// Whether the device has just what it reads as.
    pub(crate) fn is_settled(&self) -> bool
        ensures named { result ≡ true → self.now.entry ≡ Mark.Clean }
        ensures clean { result ≡ true → IsNodeClean self.now }
        ensures other { result ≡ false → self.now.entry ≡ Mark.Clean → IsNodeClean self.now → ⊥ }
    {
        self.entry == Mark::Clean && self.is_clean()
    }

    /// What it reads as, where the device has just that.
    pub(crate) fn settled_octets(&self, alloc: Global) -> Result<Vec<u8>, MemoryError>
        ensures octets { IfOk result (λ octets. octets.items ≡ self.now.octets.items) }
        ensures named { OnOk result (self.now.entry ≡ Mark.Clean) }
        ensures clean { OnOk result (IsNodeClean self.now) }
    {
        if !self.is_settled() {
            return Err(MemoryError::Refused);
        }
        let octets = self.octets.to_vec(alloc)?;
        Ok(octets)
    }

    /// What the system says of it, where it has a name.
    pub(crate) fn status(&self) -> Option<Status>
        ensures linked { is_some result ≡ self.now.linked }
        ensures status { IfSome result (λ status. (status.length ≡ length self.now.octets.items)
            × (status.read_only ≡ self.now.read_only)) }
    {
        if !self.linked {
            return None;
        }
        Some(Status {
            length: self.octets.len() as u64,
            read_only: self.read_only,
        })
    }

    /// As the power cut leaves it: it reads as what the device has.
    pub(crate) fn restored(&self, alloc: Global) -> Result<Node, MemoryError>
        ensures { IfOk result (λ node. NodeRestores self.now node) }
    {
        if !self.is_restorable() {
            return Err(MemoryError::Refused);
        }
        let device = &self.blocks[..self.end];
        let node = Self::settled(alloc, device, self.on_device, self.read_only)?;
        Ok(node)
    }

    /// Whether the device's file is one: no longer than a file may be, and empty where it has no name there.
    fn is_restorable(&self) -> bool
        ensures limit { result ≡ true → self.now.end ≤ 2 ^ 62 }
        ensures gone { result ≡ true → self.now.on_device ≡ false → self.now.end ≡ 0 }
    {
        self.end as u64 <= LIMIT && (self.on_device || self.end == 0)
    }

    /// A file of which the device has just these octets.
    fn settled(
        alloc: Global,
        octets: &[u8],
        linked: bool,
        read_only: bool,
    ) -> Result<Self, AllocError>
        requires limit { length octets.now ≤ 2 ^ 62 }
        requires absent { linked ≡ false → octets.now ≡ [] }
        ensures octets { IfOk result (λ node. node.octets.items ≡ octets.now) }
        ensures device { IfOk result (λ node. device_in node ≡ octets.now) }
        ensures marks { IfOk result (λ node. (place : ℕ) → mark_at node.marks.items place ≡ Mark.Clean) }
        ensures size { IfOk result (λ node. node.size ≡ Mark.Clean) }
        ensures entry { IfOk result (λ node. node.entry ≡ Mark.Clean) }
        ensures lent { IfOk result (λ node. node.lent ≡ false) }
    {
        let memory = octets.to_vec(alloc)?;
        let blocks = octets.to_vec(alloc)?;
        let marks = clean(alloc, octets.len())?;
        Ok(Node {
            octets: memory,
            marks,
            size: Mark::Clean,
            entry: Mark::Clean,
            blocks,
            end: octets.len(),
            on_device: linked,
            linked,
            read_only,
            lent: false,
        })
    }
}
