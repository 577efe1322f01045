// Syncs of a folder's files.
ghost use Rattle.std.specs.Prelude.{◌≡◌, ◌≢◌, ◌<◌, ℕ, true, false, IsTrue, is_some, []};
ghost use Rattle.std.specs.Prelude.{length, IfOk, IfSome, IfNone, OnOk};
ghost use Rattle.std.specs.Ordering.{nat_cmp};
ghost use Rattle.std.specs.BTreeMap.{get};
ghost use Rattle.flow_directory.specs.File.{held_of};
ghost use Rattle.flow_pending.specs.Tracked.{Settles};
ghost use Rattle.flow_folder_disk.specs.Known.{IsSure, IsSettled, IsSeen, IsReached, IsSynced, KeepsLost, Leaves};

use crate::folder::Folder;
use flow_directory::{Access, CallError, Directory, Status};

impl<S: Directory> Folder<S> {
    /// Syncs a file, and the folder where a name may not be durable. Then it lets go of the file's handle. A file with
    /// octets has a durable name; one without is made anew, since the device may have another under its name.
    pub(crate) fn sync(&mut self, file: u64, settled: bool) -> Result<(), S::Error>
        requires settled { IsTrue (S.honest self.old.system)
            → settled ≡ true → IsSettled (S.files self.old.system file) }
        requires free { IsTrue (S.honest self.old.system) → (S.files self.old.system file).lent ≡ false }
        ensures honest { S.honest self.new.system ≡ S.honest self.old.system }
        ensures here { OnOk result (is_some (get nat_cmp self.new.pending file) ≡ false) }
        ensures pending { (n : ℕ) → n ≢ file → is_some (get nat_cmp self.new.pending n)
            ≡ is_some (get nat_cmp self.old.pending n) }
        ensures names { OnOk result (self.new.names_pending ≡ false) }
        ensures lost { KeepsLost self.old.names_lost self.new.names_lost result }
        ensures synced { IsTrue (S.honest self.old.system)
            → IsSynced (S.files self.old.system file) (S.files self.new.system file) result }
        ensures free { IsTrue (S.honest self.old.system) → (S.files self.new.system file).lent ≡ false }
        ensures leaves { IsTrue (S.honest self.old.system) → Leaves S.files S.moment S.left_since self.old.system
            self.new.system file (held_of (S.files self.old.system)) }
    {
        if self.pending.contains_key(&file) {
            return self.sync_pending(file);
        }
        self.sync_found(file, settled)
    }

    /// Syncs a file that isn't pending.
    fn sync_found(&mut self, file: u64, settled: bool) -> Result<(), S::Error>
        requires absent { is_some (get nat_cmp self.old.pending file) ≡ false }
        requires settled { IsTrue (S.honest self.old.system)
            → settled ≡ true → IsSettled (S.files self.old.system file) }
        requires free { IsTrue (S.honest self.old.system) → (S.files self.old.system file).lent ≡ false }
        ensures honest { S.honest self.new.system ≡ S.honest self.old.system }
        ensures here { OnOk result (is_some (get nat_cmp self.new.pending file) ≡ false) }
        ensures pending { (n : ℕ) → n ≢ file → is_some (get nat_cmp self.new.pending n)
            ≡ is_some (get nat_cmp self.old.pending n) }
        ensures names { OnOk result (self.new.names_pending ≡ false) }
        ensures lost { KeepsLost self.old.names_lost self.new.names_lost result }
        ensures synced { IsTrue (S.honest self.old.system)
            → IsSynced (S.files self.old.system file) (S.files self.new.system file) result }
        ensures free { IsTrue (S.honest self.old.system) → (S.files self.new.system file).lent ≡ false }
        ensures leaves { IsTrue (S.honest self.old.system) → Leaves S.files S.moment S.left_since self.old.system
            self.new.system file (held_of (S.files self.old.system)) }
    {
        let found = self.find_to_sync(file)?;
        self.sync_opened(file, found, settled)
    }

    /// Syncs a file that isn't pending, and is open, if it exists.
    fn sync_opened(
        &mut self,
        file: u64,
        found: Option<Status>,
        settled: bool,
    ) -> Result<(), S::Error>
        requires absent { is_some (get nat_cmp self.old.pending file) ≡ false }
        requires settled { IsTrue (S.honest self.old.system)
            → settled ≡ true → IsSettled (S.files self.old.system file) }
        requires free { IsTrue (S.honest self.old.system) → (S.files self.old.system file).lent ≡ false }
        requires length { IsTrue (S.honest self.old.system) → IfSome found
            (λ status. status.length ≡ length (S.files self.old.system file).held.reads) }
        requires read_only { IsTrue (S.honest self.old.system) → IfSome found
            (λ status. status.read_only ≡ (S.files self.old.system file).read_only) }
        requires none { IsTrue (S.honest self.old.system) → IfNone found
            ((S.files self.old.system file).linked ≡ false) }
        ensures honest { S.honest self.new.system ≡ S.honest self.old.system }
        ensures here { OnOk result (is_some (get nat_cmp self.new.pending file) ≡ false) }
        ensures pending { (n : ℕ) → n ≢ file → is_some (get nat_cmp self.new.pending n)
            ≡ is_some (get nat_cmp self.old.pending n) }
        ensures names { OnOk result (self.new.names_pending ≡ false) }
        ensures lost { KeepsLost self.old.names_lost self.new.names_lost result }
        ensures synced { IsTrue (S.honest self.old.system)
            → IsSynced (S.files self.old.system file) (S.files self.new.system file) result }
        ensures free { IsTrue (S.honest self.old.system) → (S.files self.new.system file).lent ≡ false }
        ensures leaves { IsTrue (S.honest self.old.system) → Leaves S.files S.moment S.left_since self.old.system
            self.new.system file (held_of (S.files self.old.system)) }
    {
        match found {
            None => self.sync_absent(file),
            Some(found) if found.length == 0 => self.sync_empty(file),
            Some(found) if found.read_only => self.sync_sure(file),
            Some(found) => self.sync_begun(file, found, settled),
        }
    }

    /// Syncs an open file with octets that isn't read-only. One that isn't known to be settled is written again.
    fn sync_begun(&mut self, file: u64, found: Status, settled: bool) -> Result<(), S::Error>
        requires absent { is_some (get nat_cmp self.old.pending file) ≡ false }
        requires settled { IsTrue (S.honest self.old.system)
            → settled ≡ true → IsSettled (S.files self.old.system file) }
        requires free { IsTrue (S.honest self.old.system) → (S.files self.old.system file).lent ≡ false }
        requires octets { 0 < found.length }
        requires length { IsTrue (S.honest self.old.system)
            → found.length ≡ length (S.files self.old.system file).held.reads }
        requires writable { found.read_only ≡ false }
        requires read_only { IsTrue (S.honest self.old.system)
            → found.read_only ≡ (S.files self.old.system file).read_only }
        ensures honest { S.honest self.new.system ≡ S.honest self.old.system }
        ensures here { OnOk result (is_some (get nat_cmp self.new.pending file) ≡ false) }
        ensures pending { (n : ℕ) → n ≢ file → is_some (get nat_cmp self.new.pending n)
            ≡ is_some (get nat_cmp self.old.pending n) }
        ensures names { OnOk result (self.new.names_pending ≡ false) }
        ensures lost { KeepsLost self.old.names_lost self.new.names_lost result }
        ensures synced { IsTrue (S.honest self.old.system)
            → IsSynced (S.files self.old.system file) (S.files self.new.system file) result }
        ensures free { IsTrue (S.honest self.old.system) → (S.files self.new.system file).lent ≡ false }
        ensures leaves { IsTrue (S.honest self.old.system) → Leaves S.files S.moment S.left_since self.old.system
            self.new.system file (held_of (S.files self.old.system)) }
    {
        self.keep_found(file, found, settled)?;
        self.sync_pending(file)
    }

    /// Syncs a frozen file: it is as it was, and the device has it. Nothing of it is written again.
    pub(crate) fn sync_frozen(&mut self, file: u64) -> Result<(), S::Error>
        requires absent { is_some (get nat_cmp self.old.pending file) ≡ false }
        requires settled { IsTrue (S.honest self.old.system) → IsSettled (S.files self.old.system file) }
        ensures honest { S.honest self.new.system ≡ S.honest self.old.system }
        ensures pending { self.new.pending ≡ self.old.pending }
        ensures names { OnOk result (self.new.names_pending ≡ false) }
        ensures lost { KeepsLost self.old.names_lost self.new.names_lost result }
        ensures synced { IsTrue (S.honest self.old.system)
            → IsSynced (S.files self.old.system file) (S.files self.new.system file) result }
        ensures settled { IsTrue (S.honest self.old.system) → IsSettled (S.files self.new.system file) }
        ensures lent { IsTrue (S.honest self.old.system)
            → (S.files self.new.system file).lent ≡ (S.files self.old.system file).lent }
        ensures leaves { IsTrue (S.honest self.old.system) → Leaves S.files S.moment S.left_since self.old.system
            self.new.system file (held_of (S.files self.old.system)) }
    {
        match self.find_to_sync(file)? {
            Some(found) if found.length > 0 => self.sync_sure(file),
            _ => self.sync_no_octets(file),
        }
    }

    /// Syncs the folder for the sake of a settled file without octets.
    fn sync_no_octets(&mut self, file: u64) -> Result<(), S::Error>
        requires absent { is_some (get nat_cmp self.old.pending file) ≡ false }
        requires settled { IsTrue (S.honest self.old.system) → IsSettled (S.files self.old.system file) }
        ensures honest { S.honest self.new.system ≡ S.honest self.old.system }
        ensures pending { self.new.pending ≡ self.old.pending }
        ensures names { OnOk result (self.new.names_pending ≡ false) }
        ensures lost { KeepsLost self.old.names_lost self.new.names_lost result }
        ensures synced { IsTrue (S.honest self.old.system)
            → IsSynced (S.files self.old.system file) (S.files self.new.system file) result }
        ensures settled { IsTrue (S.honest self.old.system) → IsSettled (S.files self.new.system file) }
        ensures lent { IsTrue (S.honest self.old.system)
            → (S.files self.new.system file).lent ≡ (S.files self.old.system file).lent }
        ensures leaves { IsTrue (S.honest self.old.system) → Leaves S.files S.moment S.left_since self.old.system
            self.new.system file (held_of (S.files self.old.system)) }
    {
        self.sync_names()?;
        self.settle(file)
    }

    /// Opens a file to sync it, if it exists.
    fn find_to_sync(&mut self, file: u64) -> Result<Option<Status>, S::Error>
        requires { is_some (get nat_cmp self.old.pending file) ≡ false }
        ensures honest { S.honest self.new.system ≡ S.honest self.old.system }
        ensures pending { self.new.pending ≡ self.old.pending }
        ensures names { self.new.names_pending ≡ self.old.names_pending }
        ensures lost { self.new.names_lost ≡ self.old.names_lost }
        ensures seen { IsTrue (S.honest self.old.system)
            → IsSeen (S.files self.old.system file) (S.files self.new.system file) }
        ensures length { IsTrue (S.honest self.old.system) → IfOk result (λ found. IfSome found
            (λ status. status.length ≡ length (S.files self.old.system file).held.reads)) }
        ensures read_only { IsTrue (S.honest self.old.system) → IfOk result (λ found. IfSome found
            (λ status. status.read_only ≡ (S.files self.old.system file).read_only)) }
        ensures none { IsTrue (S.honest self.old.system) → IfOk result (λ found. IfNone found
            ((S.files self.old.system file).linked ≡ false)) }
        ensures leaves { IsTrue (S.honest self.old.system) → Leaves S.files S.moment S.left_since self.old.system
            self.new.system file (held_of (S.files self.old.system)) }
    {
        let Some(named) = self.system.status(file)? else {
            return Ok(None);
        };
        let opened = self.system.open(file, access_to_sync(named.read_only))?;
        Ok(Some(Status {
            length: opened.length,
            read_only: named.read_only,
        }))
    }

    /// Syncs a file that is pending.
    fn sync_pending(&mut self, file: u64) -> Result<(), S::Error>
        ensures honest { S.honest self.new.system ≡ S.honest self.old.system }
        ensures here { OnOk result (is_some (get nat_cmp self.new.pending file) ≡ false) }
        ensures pending { (n : ℕ) → n ≢ file → is_some (get nat_cmp self.new.pending n)
            ≡ is_some (get nat_cmp self.old.pending n) }
        ensures names { OnOk result (self.new.names_pending ≡ false) }
        ensures lost { KeepsLost self.old.names_lost self.new.names_lost result }
        ensures synced { IsTrue (S.honest self.old.system)
            → IsSynced (S.files self.old.system file) (S.files self.new.system file) result }
        ensures lent { IsTrue (S.honest self.old.system)
            → (S.files self.new.system file).lent ≡ (S.files self.old.system file).lent }
        ensures leaves { IsTrue (S.honest self.old.system) → Leaves S.files S.moment S.left_since self.old.system
            self.new.system file (held_of (S.files self.old.system)) }
    {
        self.settle_pending(file)?;
        self.sync_names()?;
        self.forget(file);
        Ok(())
    }

    /// Writes again what of a pending file the device may not hold, and syncs it. It stays pending.
    fn settle_pending(&mut self, file: u64) -> Result<(), S::Error>
        ensures honest { S.honest self.new.system ≡ S.honest self.old.system }
        ensures pending { (n : ℕ) → is_some (get nat_cmp self.new.pending n)
            ≡ is_some (get nat_cmp self.old.pending n) }
        ensures names { self.new.names_pending ≡ self.old.names_pending }
        ensures lost { self.new.names_lost ≡ self.old.names_lost }
        ensures settles { IsTrue (S.honest self.old.system)
            → Settles (S.files self.old.system file) (S.files self.new.system file) result }
        ensures leaves { IsTrue (S.honest self.old.system) → Leaves S.files S.moment S.left_since self.old.system
            self.new.system file (held_of (S.files self.old.system)) }
    {
        match self.pending.get_mut(&file) {
            Some(pending) => pending.sync(&mut self.system),
            None => Err(S::Error::other_length()),
        }
    }

    /// Syncs a file without octets: its name is made anew.
    fn sync_empty(&mut self, file: u64) -> Result<(), S::Error>
        requires absent { is_some (get nat_cmp self.old.pending file) ≡ false }
        requires empty { IsTrue (S.honest self.old.system) → (S.files self.old.system file).held.reads ≡ [] }
        requires free { IsTrue (S.honest self.old.system) → (S.files self.old.system file).lent ≡ false }
        ensures honest { S.honest self.new.system ≡ S.honest self.old.system }
        ensures pending { self.new.pending ≡ self.old.pending }
        ensures names { OnOk result (self.new.names_pending ≡ false) }
        ensures lost { KeepsLost self.old.names_lost self.new.names_lost result }
        ensures synced { IsTrue (S.honest self.old.system)
            → IsSynced (S.files self.old.system file) (S.files self.new.system file) result }
        ensures free { IsTrue (S.honest self.old.system) → (S.files self.new.system file).lent ≡ false }
        ensures leaves { IsTrue (S.honest self.old.system) → Leaves S.files S.moment S.left_since self.old.system
            self.new.system file (held_of (S.files self.old.system)) }
    {
        self.make(file)?;
        self.system.close(file);
        self.settle(file)
    }

    /// Syncs an open file of which nothing waits and nothing is lost. Where that fails it is no longer read-only, so
    /// that nobody takes it for settled.
    fn sync_sure(&mut self, file: u64) -> Result<(), S::Error>
        requires absent { is_some (get nat_cmp self.old.pending file) ≡ false }
        requires sure { IsTrue (S.honest self.old.system) → IsSure (S.files self.old.system file) }
        ensures honest { S.honest self.new.system ≡ S.honest self.old.system }
        ensures pending { self.new.pending ≡ self.old.pending }
        ensures names { OnOk result (self.new.names_pending ≡ false) }
        ensures lost { KeepsLost self.old.names_lost self.new.names_lost result }
        ensures synced { IsTrue (S.honest self.old.system)
            → IsSynced (S.files self.old.system file) (S.files self.new.system file) result }
        ensures reads { IsTrue (S.honest self.old.system)
            → (S.files self.new.system file).held.reads ≡ (S.files self.old.system file).held.reads }
        ensures sure { IsTrue (S.honest self.old.system) → IsSure (S.files self.new.system file) }
        ensures lent { IsTrue (S.honest self.old.system)
            → (S.files self.new.system file).lent ≡ (S.files self.old.system file).lent }
        ensures leaves { IsTrue (S.honest self.old.system) → Leaves S.files S.moment S.left_since self.old.system
            self.new.system file (held_of (S.files self.old.system)) }
    {
        self.sync_open(file)?;
        self.sync_names()
    }

    /// Syncs an open file of which nothing waits and nothing is lost, and closes it. Where that fails it is no longer
    /// read-only.
    fn sync_open(&mut self, file: u64) -> Result<(), S::Error>
        requires absent { is_some (get nat_cmp self.old.pending file) ≡ false }
        requires sure { IsTrue (S.honest self.old.system) → IsSure (S.files self.old.system file) }
        ensures honest { S.honest self.new.system ≡ S.honest self.old.system }
        ensures pending { self.new.pending ≡ self.old.pending }
        ensures names { self.new.names_pending ≡ self.old.names_pending }
        ensures lost { self.new.names_lost ≡ self.old.names_lost }
        ensures synced { IsTrue (S.honest self.old.system)
            → IsSynced (S.files self.old.system file) (S.files self.new.system file) result }
        ensures reads { IsTrue (S.honest self.old.system)
            → (S.files self.new.system file).held.reads ≡ (S.files self.old.system file).held.reads }
        ensures sure { IsTrue (S.honest self.old.system) → IsSure (S.files self.new.system file) }
        ensures linked { IsTrue (S.honest self.old.system)
            → (S.files self.new.system file).linked ≡ (S.files self.old.system file).linked }
        ensures lent { IsTrue (S.honest self.old.system)
            → (S.files self.new.system file).lent ≡ (S.files self.old.system file).lent }
        ensures leaves { IsTrue (S.honest self.old.system) → Leaves S.files S.moment S.left_since self.old.system
            self.new.system file (held_of (S.files self.old.system)) }
    {
        match self.system.sync(file) {
            Ok(()) => {
                self.system.close(file);
                Ok(())
            }
            Err(error) => {
                self.doubt(file);
                Err(error)
            }
        }
    }

    /// Makes an open file writable, so that nobody takes it for settled, and closes it.
    fn doubt(&mut self, file: u64)
        requires { is_some (get nat_cmp self.old.pending file) ≡ false }
        ensures honest { S.honest self.new.system ≡ S.honest self.old.system }
        ensures pending { self.new.pending ≡ self.old.pending }
        ensures names { self.new.names_pending ≡ self.old.names_pending }
        ensures lost { self.new.names_lost ≡ self.old.names_lost }
        ensures reached { IsTrue (S.honest self.old.system)
            → IsReached (S.files self.old.system file) (S.files self.new.system file) }
        ensures leaves { IsTrue (S.honest self.old.system) → Leaves S.files S.moment S.left_since self.old.system
            self.new.system file (held_of (S.files self.old.system)) }
    {
        let _ = self.system.set_read_only(file, false);
        self.system.close(file);
    }
}

/// What a file is opened for, to be synced: a read-only one to be read alone.
fn access_to_sync(read_only: bool) -> Access {
    if read_only {
        Access::Read
    } else {
        Access::Write
    }
}
