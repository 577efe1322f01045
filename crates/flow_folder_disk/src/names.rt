// The names of a folder's files.
ghost use Rattle.std.specs.Prelude.{◌≡◌, ◌≢◌, ℕ, true, false, IsTrue, is_some, [], OnOk, OnErr};
ghost use Rattle.std.specs.Ordering.{nat_cmp};
ghost use Rattle.std.specs.BTreeMap.{get};
ghost use Rattle.flow_disk.specs.Disk.{Stays};
ghost use Rattle.flow_disk.specs.Files.{while_removing};
ghost use Rattle.flow_disk.specs.Moments.{Passes, Covers};
ghost use Rattle.flow_directory.specs.Calls.{Settling};
ghost use Rattle.flow_directory.specs.File.{entry, held_of};
ghost use Rattle.flow_folder_disk.specs.Known.{IsMade, IsGone, IsSeen, IsSynced, IsRemoved, KeepsLost, Leaves};

use crate::folder::Folder;
use flow_directory::Directory;

impl<S: Directory> Folder<S> {
    /// Syncs the folder where a name was made or removed since its last good sync, or may have been by others. From a
    /// sync that fails on, names may be lost.
    pub(crate) fn sync_names(&mut self) -> Result<(), S::Error>
        ensures honest { S.honest self.new.system ≡ S.honest self.old.system }
        ensures pending { self.new.pending ≡ self.old.pending }
        ensures done { OnOk result (self.new.names_pending ≡ false) }
        ensures failed { OnErr result (self.new.names_pending ≡ true) }
        ensures lost { OnOk result (self.new.names_lost ≡ self.old.names_lost) }
        ensures lost_by_this { OnErr result (self.new.names_lost ≡ true) }
        ensures held { IsTrue (S.honest self.old.system)
            → Stays (held_of (S.files self.old.system)) (held_of (S.files self.new.system)) }
        ensures seen { IsTrue (S.honest self.old.system)
            → (n : ℕ) → IsSeen (S.files self.old.system n) (S.files self.new.system n) }
        ensures entered { IsTrue (S.honest self.old.system)
            → OnOk result ((n : ℕ) → (S.files self.new.system n).dirty entry ≡ false) }
        ensures mended { IsTrue (S.honest self.old.system) → OnOk result ((n : ℕ)
            → (S.files self.new.system n).lost entry ≡ true → (S.files self.old.system n).lost entry ≡ true) }
        ensures time { IsTrue (S.honest self.old.system) → Passes S.moment S.left_since self.old.system
            self.new.system (held_of (S.files self.old.system)) }
    {
        if self.names_pending {
            if let Err(error) = self.system.sync_directory() {
                self.names_lost = true;
                return Err(error);
            }
            self.names_pending = false;
        }
        Ok(())
    }
}

impl<S: Directory> Folder<S> {
    /// Makes the name of a file without octets, for good. Where that fails, it is done once more at once; the answer
    /// stays.
    pub(crate) fn make(&mut self, file: u64) -> Result<(), S::Error>
        requires absent { is_some (get nat_cmp self.old.pending file) ≡ false }
        requires empty { IsTrue (S.honest self.old.system) → (S.files self.old.system file).held.reads ≡ [] }
        requires free { IsTrue (S.honest self.old.system) → (S.files self.old.system file).lent ≡ false }
        ensures honest { S.honest self.new.system ≡ S.honest self.old.system }
        ensures pending { self.new.pending ≡ self.old.pending }
        ensures names { OnOk result (self.new.names_pending ≡ false) }
        ensures lost { KeepsLost self.old.names_lost self.new.names_lost result }
        ensures held { IsTrue (S.honest self.old.system)
            → (S.files self.new.system file).held ≡ (S.files self.old.system file).held }
        ensures free { IsTrue (S.honest self.old.system) → (S.files self.new.system file).lent ≡ false }
        ensures made { IsTrue (S.honest self.old.system) → OnOk result (IsMade (S.files self.new.system file)) }
        ensures leaves { IsTrue (S.honest self.old.system) → Leaves S.files S.moment S.left_since self.old.system
            self.new.system file (held_of (S.files self.old.system)) }
    {
        let made = self.make_name(file);
        if made.is_err() {
            let _ = self.make_name(file);
        }
        made
    }

    /// Makes a file without octets and its name anew.
    fn make_name(&mut self, file: u64) -> Result<(), S::Error>
        requires absent { is_some (get nat_cmp self.old.pending file) ≡ false }
        requires empty { IsTrue (S.honest self.old.system) → (S.files self.old.system file).held.reads ≡ [] }
        requires free { IsTrue (S.honest self.old.system) → (S.files self.old.system file).lent ≡ false }
        ensures honest { S.honest self.new.system ≡ S.honest self.old.system }
        ensures pending { self.new.pending ≡ self.old.pending }
        ensures names { OnOk result (self.new.names_pending ≡ false) }
        ensures lost { KeepsLost self.old.names_lost self.new.names_lost result }
        ensures held { IsTrue (S.honest self.old.system)
            → (S.files self.new.system file).held ≡ (S.files self.old.system file).held }
        ensures free { IsTrue (S.honest self.old.system) → (S.files self.new.system file).lent ≡ false }
        ensures made { IsTrue (S.honest self.old.system) → OnOk result (IsMade (S.files self.new.system file)) }
        ensures leaves { IsTrue (S.honest self.old.system) → Leaves S.files S.moment S.left_since self.old.system
            self.new.system file (held_of (S.files self.old.system)) }
    {
        self.names_pending = true;
        let _ = self.system.unlink_empty(file)?;
        self.system.create(file)?;
        self.sync_names()
    }

    /// Makes durable that there is no such file. After a failed sync of the folder no other sync does so: the device
    /// may have the name. Names that a value before this one lost aren't known here.
    pub(crate) fn sync_absent(&mut self, file: u64) -> Result<(), S::Error>
        requires absent { is_some (get nat_cmp self.old.pending file) ≡ false }
        requires unlinked { IsTrue (S.honest self.old.system) → (S.files self.old.system file).linked ≡ false }
        requires free { IsTrue (S.honest self.old.system) → (S.files self.old.system file).lent ≡ false }
        ensures honest { S.honest self.new.system ≡ S.honest self.old.system }
        ensures pending { self.new.pending ≡ self.old.pending }
        ensures names { OnOk result (self.new.names_pending ≡ false) }
        ensures lost { KeepsLost self.old.names_lost self.new.names_lost result }
        ensures synced { IsTrue (S.honest self.old.system)
            → IsSynced (S.files self.old.system file) (S.files self.new.system file) result }
        ensures free { IsTrue (S.honest self.old.system) → (S.files self.new.system file).lent ≡ false }
        ensures leaves { IsTrue (S.honest self.old.system) → Leaves S.files S.moment S.left_since self.old.system
            self.new.system file (held_of (S.files self.old.system)) }
    {
        if self.names_lost {
            return self.remove_empty(file);
        }
        self.sync_names()?;
        self.settle(file)
    }

    /// Removes a file without octets, which is there or not, for good. Where that fails, it is done once more at once;
    /// the answer stays.
    fn remove_empty(&mut self, file: u64) -> Result<(), S::Error>
        requires absent { is_some (get nat_cmp self.old.pending file) ≡ false }
        requires empty { IsTrue (S.honest self.old.system) → (S.files self.old.system file).held.reads ≡ [] }
        requires free { IsTrue (S.honest self.old.system) → (S.files self.old.system file).lent ≡ false }
        ensures honest { S.honest self.new.system ≡ S.honest self.old.system }
        ensures pending { self.new.pending ≡ self.old.pending }
        ensures names { OnOk result (self.new.names_pending ≡ false) }
        ensures lost { KeepsLost self.old.names_lost self.new.names_lost result }
        ensures synced { IsTrue (S.honest self.old.system)
            → IsSynced (S.files self.old.system file) (S.files self.new.system file) result }
        ensures free { IsTrue (S.honest self.old.system) → (S.files self.new.system file).lent ≡ false }
        ensures leaves { IsTrue (S.honest self.old.system) → Leaves S.files S.moment S.left_since self.old.system
            self.new.system file (held_of (S.files self.old.system)) }
    {
        let removed = self.take_empty_name(file);
        if removed.is_err() {
            let _ = self.take_empty_name(file);
        }
        removed
    }

    /// Takes the name of a file without octets away for good. Where the folder doesn't have it the device may, since a
    /// sync failed: it is made and taken away, so that the next sync of the folder writes that it is gone.
    fn take_empty_name(&mut self, file: u64) -> Result<(), S::Error>
        requires absent { is_some (get nat_cmp self.old.pending file) ≡ false }
        requires empty { IsTrue (S.honest self.old.system) → (S.files self.old.system file).held.reads ≡ [] }
        requires free { IsTrue (S.honest self.old.system) → (S.files self.old.system file).lent ≡ false }
        ensures honest { S.honest self.new.system ≡ S.honest self.old.system }
        ensures pending { self.new.pending ≡ self.old.pending }
        ensures names { OnOk result (self.new.names_pending ≡ false) }
        ensures lost { KeepsLost self.old.names_lost self.new.names_lost result }
        ensures synced { IsTrue (S.honest self.old.system)
            → IsSynced (S.files self.old.system file) (S.files self.new.system file) result }
        ensures reads { IsTrue (S.honest self.old.system)
            → (S.files self.new.system file).held.reads ≡ (S.files self.old.system file).held.reads }
        ensures free { IsTrue (S.honest self.old.system) → (S.files self.new.system file).lent ≡ false }
        ensures leaves { IsTrue (S.honest self.old.system) → Leaves S.files S.moment S.left_since self.old.system
            self.new.system file (held_of (S.files self.old.system)) }
    {
        self.names_pending = true;
        self.unname_empty(file)?;
        self.sync_names()?;
        self.settle(file)
    }

    /// Takes the name of a file without octets away. Where the folder doesn't have it, it is made and taken away.
    fn unname_empty(&mut self, file: u64) -> Result<(), S::Error>
        requires waiting { self.old.names_pending ≡ true }
        requires absent { is_some (get nat_cmp self.old.pending file) ≡ false }
        requires empty { IsTrue (S.honest self.old.system) → (S.files self.old.system file).held.reads ≡ [] }
        requires free { IsTrue (S.honest self.old.system) → (S.files self.old.system file).lent ≡ false }
        ensures honest { S.honest self.new.system ≡ S.honest self.old.system }
        ensures pending { self.new.pending ≡ self.old.pending }
        ensures waiting { self.new.names_pending ≡ true }
        ensures lost { self.new.names_lost ≡ self.old.names_lost }
        ensures held { IsTrue (S.honest self.old.system)
            → (S.files self.new.system file).held ≡ (S.files self.old.system file).held }
        ensures free { IsTrue (S.honest self.old.system) → (S.files self.new.system file).lent ≡ false }
        ensures gone { IsTrue (S.honest self.old.system) → OnOk result (IsGone (S.files self.new.system file)) }
        ensures leaves { IsTrue (S.honest self.old.system) → Leaves S.files S.moment S.left_since self.old.system
            self.new.system file (held_of (S.files self.old.system)) }
    {
        if !self.system.unlink_empty(file)? {
            return self.name_and_unname(file);
        }
        Ok(())
    }

    /// Makes a name and takes it away.
    fn name_and_unname(&mut self, file: u64) -> Result<(), S::Error>
        requires waiting { self.old.names_pending ≡ true }
        requires absent { is_some (get nat_cmp self.old.pending file) ≡ false }
        requires empty { IsTrue (S.honest self.old.system) → (S.files self.old.system file).held.reads ≡ [] }
        requires free { IsTrue (S.honest self.old.system) → (S.files self.old.system file).lent ≡ false }
        ensures honest { S.honest self.new.system ≡ S.honest self.old.system }
        ensures pending { self.new.pending ≡ self.old.pending }
        ensures waiting { self.new.names_pending ≡ true }
        ensures lost { self.new.names_lost ≡ self.old.names_lost }
        ensures held { IsTrue (S.honest self.old.system)
            → (S.files self.new.system file).held ≡ (S.files self.old.system file).held }
        ensures free { IsTrue (S.honest self.old.system) → (S.files self.new.system file).lent ≡ false }
        ensures gone { IsTrue (S.honest self.old.system) → OnOk result (IsGone (S.files self.new.system file)) }
        ensures leaves { IsTrue (S.honest self.old.system) → Leaves S.files S.moment S.left_since self.old.system
            self.new.system file (held_of (S.files self.old.system)) }
    {
        self.system.create(file)?;
        let _ = self.system.unlink_empty(file)?;
        Ok(())
    }

    /// Removes a file, and syncs the folder. Where that fails, it is done once more at once; the answer stays.
    pub(crate) fn remove(&mut self, file: u64) -> Result<(), S::Error>
        requires { IsTrue (S.honest self.old.system) → (S.files self.old.system file).lent ≡ false }
        ensures honest { S.honest self.new.system ≡ S.honest self.old.system }
        ensures here { OnOk result (is_some (get nat_cmp self.new.pending file) ≡ false) }
        ensures pending { (n : ℕ) → n ≢ file → is_some (get nat_cmp self.new.pending n)
            ≡ is_some (get nat_cmp self.old.pending n) }
        ensures names { OnOk result (self.new.names_pending ≡ false) }
        ensures lost { KeepsLost self.old.names_lost self.new.names_lost result }
        ensures removed { IsTrue (S.honest self.old.system) → IsRemoved (S.files self.new.system file) result }
        ensures leaves { IsTrue (S.honest self.old.system) → Leaves S.files S.moment S.left_since self.old.system
            self.new.system file (while_removing (held_of (S.files self.old.system)) file) }
        ensures covered { IsTrue (S.honest self.old.system) → OnOk result (Covers (S.moment self.old.system)
            (S.left_since self.new.system) (while_removing (held_of (S.files self.old.system)) file)) }
    {
        self.forget(file);
        let removed = self.take_name(file);
        if removed.is_err() {
            let _ = self.take_name(file);
        }
        removed
    }

    /// A file isn't pending from here on, and its handle is closed.
    pub(crate) fn forget(&mut self, file: u64)
        ensures honest { S.honest self.new.system ≡ S.honest self.old.system }
        ensures here { is_some (get nat_cmp self.new.pending file) ≡ false }
        ensures pending { (n : ℕ) → n ≢ file → is_some (get nat_cmp self.new.pending n)
            ≡ is_some (get nat_cmp self.old.pending n) }
        ensures names { self.new.names_pending ≡ self.old.names_pending }
        ensures lost { self.new.names_lost ≡ self.old.names_lost }
        ensures files { IsTrue (S.honest self.old.system)
            → Stays (S.files self.old.system) (S.files self.new.system) }
        ensures leaves { IsTrue (S.honest self.old.system) → Leaves S.files S.moment S.left_since self.old.system
            self.new.system file (held_of (S.files self.old.system)) }
    {
        if let Some(_) = self.pending.remove(&file) {
            self.system.close(file);
        }
    }

    /// Takes a name away for good. Where the folder doesn't have it the device may, since a sync failed here or in a
    /// value before this one: it is made and taken away, so that the next sync of the folder writes that it is gone.
    fn take_name(&mut self, file: u64) -> Result<(), S::Error>
        requires absent { is_some (get nat_cmp self.old.pending file) ≡ false }
        requires free { IsTrue (S.honest self.old.system) → (S.files self.old.system file).lent ≡ false }
        ensures honest { S.honest self.new.system ≡ S.honest self.old.system }
        ensures pending { self.new.pending ≡ self.old.pending }
        ensures names { OnOk result (self.new.names_pending ≡ false) }
        ensures lost { KeepsLost self.old.names_lost self.new.names_lost result }
        ensures removed { IsTrue (S.honest self.old.system) → IsRemoved (S.files self.new.system file) result }
        ensures leaves { IsTrue (S.honest self.old.system) → Leaves S.files S.moment S.left_since self.old.system
            self.new.system file (while_removing (held_of (S.files self.old.system)) file) }
        ensures covered { IsTrue (S.honest self.old.system) → OnOk result (Covers (S.moment self.old.system)
            (S.left_since self.new.system) (while_removing (held_of (S.files self.old.system)) file)) }
    {
        self.names_pending = true;
        self.unname(file)?;
        self.sync_names()?;
        self.settle(file)
    }

    /// Takes a name away. Where the folder doesn't have it, it is made and taken away.
    fn unname(&mut self, file: u64) -> Result<(), S::Error>
        requires waiting { self.old.names_pending ≡ true }
        requires absent { is_some (get nat_cmp self.old.pending file) ≡ false }
        requires free { IsTrue (S.honest self.old.system) → (S.files self.old.system file).lent ≡ false }
        ensures honest { S.honest self.new.system ≡ S.honest self.old.system }
        ensures pending { self.new.pending ≡ self.old.pending }
        ensures waiting { self.new.names_pending ≡ true }
        ensures lost { self.new.names_lost ≡ self.old.names_lost }
        ensures free { IsTrue (S.honest self.old.system) → (S.files self.new.system file).lent ≡ false }
        ensures gone { IsTrue (S.honest self.old.system) → OnOk result (IsGone (S.files self.new.system file)) }
        ensures leaves { IsTrue (S.honest self.old.system) → Leaves S.files S.moment S.left_since self.old.system
            self.new.system file (while_removing (held_of (S.files self.old.system)) file) }
        ensures covered { IsTrue (S.honest self.old.system) → OnOk result (Covers (S.moment self.old.system)
            (S.left_since self.new.system) (while_removing (held_of (S.files self.old.system)) file)) }
    {
        if !self.system.unlink(file)? {
            return self.name_and_unname(file);
        }
        Ok(())
    }

    /// Looks again at what a stop may leave of a file that isn't pending.
    pub(crate) fn settle(&mut self, file: u64) -> Result<(), S::Error>
        requires { is_some (get nat_cmp self.old.pending file) ≡ false }
        ensures honest { S.honest self.new.system ≡ S.honest self.old.system }
        ensures pending { self.new.pending ≡ self.old.pending }
        ensures names { self.new.names_pending ≡ self.old.names_pending }
        ensures lost { self.new.names_lost ≡ self.old.names_lost }
        ensures settled { IsTrue (S.honest self.old.system)
            → Settling (S.files self.old.system file) (S.files self.new.system file) result }
        ensures leaves { IsTrue (S.honest self.old.system) → Leaves S.files S.moment S.left_since self.old.system
            self.new.system file (held_of (S.files self.old.system)) }
    {
        self.system.settle(file)
    }
}
