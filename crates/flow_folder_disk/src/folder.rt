// A folder, and its files that are not settled.
ghost use Rattle.std.specs.Prelude.{◌≡◌, ◌≢◌, ◌+◌, ◌<◌, ◌≤◌, ◌^◌, ℕ, true, false};
ghost use Rattle.std.specs.Prelude.{IsTrue, None, is_some, IsSome, IfSome};
ghost use Rattle.std.specs.Prelude.{IfNone, [], length, take, drop, IfOk, OnOk, OnErr};
ghost use Rattle.std.specs.Ordering.{nat_cmp};
ghost use Rattle.std.specs.BTreeMap.{get};
ghost use Rattle.flow_disk.specs.Disk.{Stays};
ghost use Rattle.flow_disk.specs.Moments.{Passes};
ghost use Rattle.flow_directory.specs.File.{entry, held_of};
ghost use Rattle.flow_pending.specs.Written.{IsWritten};
ghost use Rattle.flow_folder_disk.specs.Known.{IsPending, IsKnown, IsSeen, IsReached, Leaves};

use flow_directory::{Access, CallError, Directory, Status};
use flow_pending::Pending;
use std::alloc::{AllocError, Global};
use std::collections::BTreeMap;

/// A folder, and its files that are not settled. Each of these has a durable name, and is open. `names_pending` says
/// that names were made or taken away since the last good sync of the folder, or may have been by others; `names_lost`
/// that a sync of it failed: from then on the device may have another file under a name, or one that the folder has no
/// more, until that very name is changed and synced.
#[derive(Drop)]
pub(crate) struct Folder<S: Directory> {
    pub(crate) alloc: Global,
    pub(crate) system: S,
    pub(crate) pending: BTreeMap<u64, Pending>,
    pub(crate) names_pending: bool,
    pub(crate) names_lost: bool,
    ghost known: { IsTrue (S.honest system)
        → IsKnown (S.files system) (λ n. get nat_cmp pending n) names_pending names_lost },
}

impl<S: Directory> Folder<S> {
    /// A folder of which no call has changed a file.
    pub(crate) fn new(alloc: Global, system: S) -> Self
        requires { IsTrue (S.honest system) → (n : ℕ) → (S.files system n).lost entry ≡ false }
        ensures system { result.system ≡ system }
        ensures pending { (n : ℕ) → get nat_cmp result.pending n ≡ None }
    {
        Folder {
            alloc,
            system,
            pending: BTreeMap::new(alloc),
            names_pending: true,
            names_lost: false,
        }
    }

    /// How many octets a file has.
    pub(crate) fn length(&mut self, file: u64) -> Result<u64, S::Error>
        ensures honest { S.honest self.new.system ≡ S.honest self.old.system }
        ensures pending { self.new.pending ≡ self.old.pending }
        ensures count { IsTrue (S.honest self.old.system)
            → IfOk result (λ count. count ≡ length (S.files self.old.system file).held.reads) }
        ensures files { IsTrue (S.honest self.old.system)
            → Stays (S.files self.old.system) (S.files self.new.system) }
        ensures time { IsTrue (S.honest self.old.system) → Passes S.moment S.left_since self.old.system
            self.new.system (held_of (S.files self.old.system)) }
    {
        if self.pending.contains_key(&file) {
            return self.system.length(file);
        }
        match self.system.status(file)? {
            Some(found) => Ok(found.length),
            None => Ok(0),
        }
    }

    /// Reads octets of a file from a place on.
    pub(crate) fn read(&mut self, file: u64, at: u64, octets: &mut [u8]) -> Result<(), S::Error>
        ensures honest { S.honest self.new.system ≡ S.honest self.old.system }
        ensures pending { self.new.pending ≡ self.old.pending }
        ensures octets { IsTrue (S.honest self.old.system) → OnOk result
            (octets.new ≡ take (length octets.old) (drop at (S.files self.old.system file).held.reads)) }
        ensures seen { IsTrue (S.honest self.old.system)
            → IsSeen (S.files self.old.system file) (S.files self.new.system file) }
        ensures leaves { IsTrue (S.honest self.old.system) → Leaves S.files S.moment S.left_since self.old.system
            self.new.system file (held_of (S.files self.old.system)) }
    {
        if self.pending.contains_key(&file) {
            return self.system.read(file, at, octets);
        }
        if octets.is_empty() {
            return Ok(());
        }
        self.open_to_read(file)?;
        let read = self.system.read(file, at, octets);
        self.system.close(file);
        read
    }

    /// Opens a file that exists to read it.
    fn open_to_read(&mut self, file: u64) -> Result<Status, S::Error>
        requires { is_some (get nat_cmp self.old.pending file) ≡ false }
        ensures honest { S.honest self.new.system ≡ S.honest self.old.system }
        ensures pending { self.new.pending ≡ self.old.pending }
        ensures seen { IsTrue (S.honest self.old.system)
            → IsSeen (S.files self.old.system file) (S.files self.new.system file) }
        ensures leaves { IsTrue (S.honest self.old.system) → Leaves S.files S.moment S.left_since self.old.system
            self.new.system file (held_of (S.files self.old.system)) }
    {
        match self.system.status(file)? {
            Some(_) => self.system.open(file, Access::Read),
            None => Err(S::Error::other_length()),
        }
    }

    /// Opens a file to change it, if it exists. A read-only one is made writable first. Answers its length, and whether
    /// it was read-only.
    pub(crate) fn find_to_change(&mut self, file: u64) -> Result<Option<Status>, S::Error>
        requires { is_some (get nat_cmp self.old.pending file) ≡ false }
        ensures honest { S.honest self.new.system ≡ S.honest self.old.system }
        ensures pending { self.new.pending ≡ self.old.pending }
        ensures names { self.new.names_pending ≡ self.old.names_pending }
        ensures lost { self.new.names_lost ≡ self.old.names_lost }
        ensures reached { IsTrue (S.honest self.old.system)
            → IsReached (S.files self.old.system file) (S.files self.new.system file) }
        ensures length { IsTrue (S.honest self.old.system) → IfOk result (λ found. IfSome found
            (λ status. status.length ≡ length (S.files self.old.system file).held.reads)) }
        ensures read_only { IsTrue (S.honest self.old.system) → IfOk result (λ found. IfSome found
            (λ status. status.read_only ≡ (S.files self.old.system file).read_only)) }
        ensures writable { IsTrue (S.honest self.old.system) → IfOk result (λ found. IfSome found
            (λ status. (S.files self.new.system file).read_only ≡ false)) }
        ensures none { IsTrue (S.honest self.old.system) → IfOk result (λ found. IfNone found
            ((S.files self.old.system file).held.reads ≡ [])) }
        ensures leaves { IsTrue (S.honest self.old.system) → Leaves S.files S.moment S.left_since self.old.system
            self.new.system file (held_of (S.files self.old.system)) }
    {
        let Some(named) = self.system.status(file)? else {
            return Ok(None);
        };
        self.thaw(file, named.read_only)?;
        let opened = self.system.open(file, Access::Write)?;
        Ok(Some(Status {
            length: opened.length,
            read_only: named.read_only,
        }))
    }

    /// Makes a file writable, where it is read-only.
    fn thaw(&mut self, file: u64, read_only: bool) -> Result<(), S::Error>
        requires absent { is_some (get nat_cmp self.old.pending file) ≡ false }
        requires is { IsTrue (S.honest self.old.system) → read_only ≡ (S.files self.old.system file).read_only }
        ensures honest { S.honest self.new.system ≡ S.honest self.old.system }
        ensures pending { self.new.pending ≡ self.old.pending }
        ensures names { self.new.names_pending ≡ self.old.names_pending }
        ensures lost { self.new.names_lost ≡ self.old.names_lost }
        ensures reached { IsTrue (S.honest self.old.system)
            → IsReached (S.files self.old.system file) (S.files self.new.system file) }
        ensures writable { IsTrue (S.honest self.old.system)
            → OnOk result ((S.files self.new.system file).read_only ≡ false) }
        ensures leaves { IsTrue (S.honest self.old.system) → Leaves S.files S.moment S.left_since self.old.system
            self.new.system file (held_of (S.files self.old.system)) }
    {
        if read_only {
            return self.make_writable(file);
        }
        Ok(())
    }

    /// Makes a file writable.
    fn make_writable(&mut self, file: u64) -> Result<(), S::Error>
        requires { is_some (get nat_cmp self.old.pending file) ≡ false }
        ensures honest { S.honest self.new.system ≡ S.honest self.old.system }
        ensures pending { self.new.pending ≡ self.old.pending }
        ensures names { self.new.names_pending ≡ self.old.names_pending }
        ensures lost { self.new.names_lost ≡ self.old.names_lost }
        ensures reached { IsTrue (S.honest self.old.system)
            → IsReached (S.files self.old.system file) (S.files self.new.system file) }
        ensures writable { IsTrue (S.honest self.old.system)
            → OnOk result ((S.files self.new.system file).read_only ≡ false) }
        ensures leaves { IsTrue (S.honest self.old.system) → Leaves S.files S.moment S.left_since self.old.system
            self.new.system file (held_of (S.files self.old.system)) }
    {
        let _ = self.system.open(file, Access::Read)?;
        self.system.set_read_only(file, false)
    }

    /// Whether a file is read-only and has so many octets.
    pub(crate) fn is_read_only(&mut self, file: u64, count: u64) -> Result<bool, S::Error>
        ensures honest { S.honest self.new.system ≡ S.honest self.old.system }
        ensures pending { self.new.pending ≡ self.old.pending }
        ensures lost { self.new.names_lost ≡ self.old.names_lost }
        ensures length { IsTrue (S.honest self.old.system) → IfOk result (λ is. is ≡ true
            → count ≡ length (S.files self.old.system file).held.reads) }
        ensures files { IsTrue (S.honest self.old.system)
            → Stays (S.files self.old.system) (S.files self.new.system) }
        ensures time { IsTrue (S.honest self.old.system) → Passes S.moment S.left_since self.old.system
            self.new.system (held_of (S.files self.old.system)) }
    {
        match self.system.status(file)? {
            Some(named) => Ok(named.read_only && named.length == count),
            None => Ok(false),
        }
    }

    /// A file is pending from here on.
    pub(crate) fn keep(&mut self, file: u64, begun: Pending) -> Result<(), S::Error>
        requires { IsTrue (S.honest self.old.system) → IsPending (S.files self.old.system file) file begun }
        ensures system { self.new.system ≡ self.old.system }
        ensures here { OnOk result (IsSome (get nat_cmp self.new.pending file)) }
        ensures others { (n : ℕ) → n ≢ file → is_some (get nat_cmp self.new.pending n)
            ≡ is_some (get nat_cmp self.old.pending n) }
        ensures names { self.new.names_pending ≡ self.old.names_pending }
        ensures lost { self.new.names_lost ≡ self.old.names_lost }
    {
        match self.pending.insert(file, begun) {
            Ok(_) => Ok(()),
            Err(_) => Err(S::Error::out_of_memory()),
        }
    }
}

ghost use Rattle.flow_pending.specs.declared.pending.Stage.TheVariants.{Changed, Doubtful};

/// A file with octets, so with a durable name, to be changed or synced. One that isn't known to be settled is written
/// again before its next sync.
pub(crate) fn pending_of(
    alloc: Global,
    file: u64,
    found: Status,
    settled: bool,
) -> Result<Pending, AllocError>
    ensures number { IfOk result (λ pending. pending.file ≡ file) }
    ensures settled { settled ≡ true → IfOk result (λ pending. pending.stage ≡ Changed) }
    ensures read_only { found.read_only ≡ true → IfOk result (λ pending. pending.stage ≡ Changed) }
    ensures doubtful { settled ≡ false → found.read_only ≡ false
        → IfOk result (λ pending. pending.stage ≡ Doubtful) }
    ensures whole { settled ≡ false → found.read_only ≡ false → IfOk result (λ pending. (place : ℕ)
        → place < found.length → IsWritten pending.written.ranges.items place) }
{
    if settled || found.read_only {
        Pending::unchanged(alloc, file)
    } else {
        Pending::doubtful(alloc, file, found.length)
    }
}
