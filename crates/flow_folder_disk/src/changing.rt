// Changes of a folder's files.
ghost use Rattle.std.specs.Prelude.{◌≡◌, ◌≢◌, ◌+◌, ◌<◌, ◌≤◌, ◌^◌, ℕ, true, false, IsTrue, is_some, length};
ghost use Rattle.std.specs.Prelude.{[], IsSome, IfOk, OnOk};
ghost use Rattle.std.specs.Ordering.{nat_cmp};
ghost use Rattle.std.specs.BTreeMap.{get};
ghost use Rattle.flow_disk.specs.Files.{Writes, Cuts, while_writing, while_cutting};
ghost use Rattle.flow_disk.specs.Moments.{Covers};
ghost use Rattle.flow_directory.specs.File.{held_of};
ghost use Rattle.flow_folder_disk.specs.Known.{IsSure, IsSettled, IsNew, KeepsLost, Leaves};
ghost use Rattle.flow_pending.specs.Tracked.{IsChangeable};

use crate::folder::{Folder, pending_of};
use flow_directory::{CallError, Directory, Status};
use flow_pending::Pending;

impl<S: Directory> Folder<S> {
    /// Writes octets of a file at a place. Where it fails, some of them may be written. `settled` says that this value
    /// has settled what the file holds.
    pub(crate) fn write(
        &mut self,
        file: u64,
        at: u64,
        octets: &[u8],
        settled: bool,
    ) -> Result<(), S::Error>
        requires fits { at + length octets.now < 2 ^ 64 }
        requires within { IsTrue (S.honest self.old.system)
            → at ≤ length (S.files self.old.system file).held.reads }
        requires settled { IsTrue (S.honest self.old.system)
            → settled ≡ true → IsSettled (S.files self.old.system file) }
        requires free { IsTrue (S.honest self.old.system) → (S.files self.old.system file).lent ≡ false }
        ensures honest { S.honest self.new.system ≡ S.honest self.old.system }
        ensures pending { (n : ℕ) → n ≢ file → is_some (get nat_cmp self.new.pending n)
            ≡ is_some (get nat_cmp self.old.pending n) }
        ensures lost { KeepsLost self.old.names_lost self.new.names_lost result }
        ensures held { IsTrue (S.honest self.old.system) → Writes (held_of (S.files self.old.system))
            (held_of (S.files self.new.system)) file at octets.now result }
        ensures free { IsTrue (S.honest self.old.system) → (S.files self.new.system file).lent ≡ false }
        ensures leaves { IsTrue (S.honest self.old.system) → Leaves S.files S.moment S.left_since self.old.system
            self.new.system file (while_writing (held_of (S.files self.old.system)) file at octets.now) }
        ensures covered { IsTrue (S.honest self.old.system) → OnOk result (Covers (S.moment self.old.system)
            (S.left_since self.new.system) (while_writing (held_of (S.files self.old.system)) file at octets.now)) }
    {
        if self.pending.contains_key(&file) {
            return self.write_pending(file, at, octets);
        }
        self.begin(file, settled)?;
        self.write_pending(file, at, octets)
    }

    /// Writes octets of a file that is pending.
    fn write_pending(&mut self, file: u64, at: u64, octets: &[u8]) -> Result<(), S::Error>
        requires fits { at + length octets.now < 2 ^ 64 }
        requires within { IsTrue (S.honest self.old.system)
            → at ≤ length (S.files self.old.system file).held.reads }
        ensures honest { S.honest self.new.system ≡ S.honest self.old.system }
        ensures pending { (n : ℕ) → is_some (get nat_cmp self.new.pending n)
            ≡ is_some (get nat_cmp self.old.pending n) }
        ensures lost { self.new.names_lost ≡ self.old.names_lost }
        ensures held { IsTrue (S.honest self.old.system) → Writes (held_of (S.files self.old.system))
            (held_of (S.files self.new.system)) file at octets.now result }
        ensures lent { IsTrue (S.honest self.old.system)
            → (S.files self.old.system file).lent ≡ false → (S.files self.new.system file).lent ≡ false }
        ensures leaves { IsTrue (S.honest self.old.system) → Leaves S.files S.moment S.left_since self.old.system
            self.new.system file (while_writing (held_of (S.files self.old.system)) file at octets.now) }
        ensures covered { IsTrue (S.honest self.old.system) → OnOk result (Covers (S.moment self.old.system)
            (S.left_since self.new.system) (while_writing (held_of (S.files self.old.system)) file at octets.now)) }
    {
        match self.pending.get_mut(&file) {
            Some(pending) => pending.write(&mut self.system, at, octets),
            None => Err(S::Error::other_length()),
        }
    }

    /// A file that is to be written is pending from here on: the existing one, or a new one. One without octets is made
    /// anew, since its name may not be durable; so no octet is written to a file before its name is durable.
    fn begin(&mut self, file: u64, settled: bool) -> Result<(), S::Error>
        requires absent { is_some (get nat_cmp self.old.pending file) ≡ false }
        requires settled { IsTrue (S.honest self.old.system)
            → settled ≡ true → IsSettled (S.files self.old.system file) }
        requires free { IsTrue (S.honest self.old.system) → (S.files self.old.system file).lent ≡ false }
        ensures honest { S.honest self.new.system ≡ S.honest self.old.system }
        ensures pending { (n : ℕ) → n ≢ file → is_some (get nat_cmp self.new.pending n)
            ≡ is_some (get nat_cmp self.old.pending n) }
        ensures lost { KeepsLost self.old.names_lost self.new.names_lost result }
        ensures held { IsTrue (S.honest self.old.system)
            → (S.files self.new.system file).held ≡ (S.files self.old.system file).held }
        ensures free { IsTrue (S.honest self.old.system) → (S.files self.new.system file).lent ≡ false }
        ensures leaves { IsTrue (S.honest self.old.system) → Leaves S.files S.moment S.left_since self.old.system
            self.new.system file (held_of (S.files self.old.system)) }
    {
        if self.begin_found(file, settled)? {
            return Ok(());
        }
        self.make(file)?;
        self.keep_new(file)
    }

    /// An existing file with octets is pending from here on. Answers whether it is one.
    fn begin_found(&mut self, file: u64, settled: bool) -> Result<bool, S::Error>
        requires absent { is_some (get nat_cmp self.old.pending file) ≡ false }
        requires settled { IsTrue (S.honest self.old.system)
            → settled ≡ true → IsSettled (S.files self.old.system file) }
        requires free { IsTrue (S.honest self.old.system) → (S.files self.old.system file).lent ≡ false }
        ensures honest { S.honest self.new.system ≡ S.honest self.old.system }
        ensures here { IfOk result (λ begun. begun ≡ true → IsSome (get nat_cmp self.new.pending file)) }
        ensures not { IfOk result (λ begun. begun ≡ false → self.new.pending ≡ self.old.pending) }
        ensures pending { (n : ℕ) → n ≢ file → is_some (get nat_cmp self.new.pending n)
            ≡ is_some (get nat_cmp self.old.pending n) }
        ensures lost { self.new.names_lost ≡ self.old.names_lost }
        ensures empty { IsTrue (S.honest self.old.system) → IfOk result (λ begun. begun ≡ false
            → (S.files self.old.system file).held.reads ≡ []) }
        ensures held { IsTrue (S.honest self.old.system)
            → (S.files self.new.system file).held ≡ (S.files self.old.system file).held }
        ensures free { IsTrue (S.honest self.old.system) → (S.files self.new.system file).lent ≡ false }
        ensures leaves { IsTrue (S.honest self.old.system) → Leaves S.files S.moment S.left_since self.old.system
            self.new.system file (held_of (S.files self.old.system)) }
    {
        match self.find_to_change(file)? {
            Some(found) if found.length > 0 => {
                self.keep_found(file, found, settled)?;
                Ok(true)
            }
            _ => Ok(false),
        }
    }

    /// Cuts a file to so many octets, of those that it has. A read-only file that has just as many stays as it is, and
    /// so does one without octets: its name may not be durable.
    pub(crate) fn cut(&mut self, file: u64, count: u64, settled: bool) -> Result<(), S::Error>
        requires within { IsTrue (S.honest self.old.system)
            → count ≤ length (S.files self.old.system file).held.reads }
        requires settled { IsTrue (S.honest self.old.system)
            → settled ≡ true → IsSettled (S.files self.old.system file) }
        requires free { IsTrue (S.honest self.old.system) → (S.files self.old.system file).lent ≡ false }
        ensures honest { S.honest self.new.system ≡ S.honest self.old.system }
        ensures pending { (n : ℕ) → n ≢ file → is_some (get nat_cmp self.new.pending n)
            ≡ is_some (get nat_cmp self.old.pending n) }
        ensures lost { KeepsLost self.old.names_lost self.new.names_lost result }
        ensures held { IsTrue (S.honest self.old.system) → Cuts (held_of (S.files self.old.system))
            (held_of (S.files self.new.system)) file count result }
        ensures free { IsTrue (S.honest self.old.system) → (S.files self.new.system file).lent ≡ false }
        ensures leaves { IsTrue (S.honest self.old.system) → Leaves S.files S.moment S.left_since self.old.system
            self.new.system file (while_cutting (held_of (S.files self.old.system)) file count) }
        ensures covered { IsTrue (S.honest self.old.system) → OnOk result (Covers (S.moment self.old.system)
            (S.left_since self.new.system) (while_cutting (held_of (S.files self.old.system)) file count)) }
    {
        if self.pending.contains_key(&file) {
            return self.cut_pending(file, count);
        }
        if self.is_read_only(file, count)? {
            return self.loosen(file, count);
        }
        self.cut_found(file, count, settled)
    }

    /// Cuts a file that isn't pending, nor read-only with just as many octets.
    fn cut_found(&mut self, file: u64, count: u64, settled: bool) -> Result<(), S::Error>
        requires absent { is_some (get nat_cmp self.old.pending file) ≡ false }
        requires within { IsTrue (S.honest self.old.system)
            → count ≤ length (S.files self.old.system file).held.reads }
        requires settled { IsTrue (S.honest self.old.system)
            → settled ≡ true → IsSettled (S.files self.old.system file) }
        requires free { IsTrue (S.honest self.old.system) → (S.files self.old.system file).lent ≡ false }
        ensures honest { S.honest self.new.system ≡ S.honest self.old.system }
        ensures pending { (n : ℕ) → n ≢ file → is_some (get nat_cmp self.new.pending n)
            ≡ is_some (get nat_cmp self.old.pending n) }
        ensures lost { self.new.names_lost ≡ self.old.names_lost }
        ensures held { IsTrue (S.honest self.old.system) → Cuts (held_of (S.files self.old.system))
            (held_of (S.files self.new.system)) file count result }
        ensures free { IsTrue (S.honest self.old.system) → (S.files self.new.system file).lent ≡ false }
        ensures leaves { IsTrue (S.honest self.old.system) → Leaves S.files S.moment S.left_since self.old.system
            self.new.system file (while_cutting (held_of (S.files self.old.system)) file count) }
        ensures covered { IsTrue (S.honest self.old.system) → OnOk result (Covers (S.moment self.old.system)
            (S.left_since self.new.system) (while_cutting (held_of (S.files self.old.system)) file count)) }
    {
        if self.begin_found(file, settled)? {
            return self.cut_pending(file, count);
        }
        if count > 0 {
            return Err(S::Error::other_length());
        }
        self.loosen(file, count)
    }

    /// A file that was made here is pending from here on.
    fn keep_new(&mut self, file: u64) -> Result<(), S::Error>
        requires { IsTrue (S.honest self.old.system) → IsNew (S.files self.old.system file) }
        ensures system { self.new.system ≡ self.old.system }
        ensures pending { (n : ℕ) → n ≢ file → is_some (get nat_cmp self.new.pending n)
            ≡ is_some (get nat_cmp self.old.pending n) }
        ensures lost { self.new.names_lost ≡ self.old.names_lost }
    {
        match Pending::unchanged(self.alloc, file) {
            Ok(begun) => self.keep(file, begun),
            Err(_) => Err(S::Error::out_of_memory()),
        }
    }

    /// A file that was found is pending from here on.
    pub(crate) fn keep_found(
        &mut self,
        file: u64,
        found: Status,
        settled: bool,
    ) -> Result<(), S::Error>
        requires changeable { IsTrue (S.honest self.old.system) → IsChangeable (S.files self.old.system file) }
        requires settled { IsTrue (S.honest self.old.system)
            → settled ≡ true → IsSure (S.files self.old.system file) }
        requires read_only { IsTrue (S.honest self.old.system)
            → found.read_only ≡ true → IsSure (S.files self.old.system file) }
        requires length { IsTrue (S.honest self.old.system)
            → found.length ≡ length (S.files self.old.system file).held.reads }
        ensures system { self.new.system ≡ self.old.system }
        ensures here { OnOk result (IsSome (get nat_cmp self.new.pending file)) }
        ensures pending { (n : ℕ) → n ≢ file → is_some (get nat_cmp self.new.pending n)
            ≡ is_some (get nat_cmp self.old.pending n) }
        ensures names { self.new.names_pending ≡ self.old.names_pending }
        ensures lost { self.new.names_lost ≡ self.old.names_lost }
    {
        match pending_of(self.alloc, file, found, settled) {
            Ok(begun) => self.keep(file, begun),
            Err(_) => Err(S::Error::out_of_memory()),
        }
    }

    /// Cuts a file that is pending.
    fn cut_pending(&mut self, file: u64, count: u64) -> Result<(), S::Error>
        requires within { IsTrue (S.honest self.old.system)
            → count ≤ length (S.files self.old.system file).held.reads }
        ensures honest { S.honest self.new.system ≡ S.honest self.old.system }
        ensures pending { (n : ℕ) → is_some (get nat_cmp self.new.pending n)
            ≡ is_some (get nat_cmp self.old.pending n) }
        ensures lost { self.new.names_lost ≡ self.old.names_lost }
        ensures held { IsTrue (S.honest self.old.system) → Cuts (held_of (S.files self.old.system))
            (held_of (S.files self.new.system)) file count result }
        ensures lent { IsTrue (S.honest self.old.system)
            → (S.files self.old.system file).lent ≡ false → (S.files self.new.system file).lent ≡ false }
        ensures leaves { IsTrue (S.honest self.old.system) → Leaves S.files S.moment S.left_since self.old.system
            self.new.system file (while_cutting (held_of (S.files self.old.system)) file count) }
        ensures covered { IsTrue (S.honest self.old.system) → OnOk result (Covers (S.moment self.old.system)
            (S.left_since self.new.system) (while_cutting (held_of (S.files self.old.system)) file count)) }
    {
        if self.system.length(file)? < count {
            return Err(S::Error::other_length());
        }
        self.truncate_pending(file, count)
    }

    /// Cuts a file that is pending, and has as many octets.
    fn truncate_pending(&mut self, file: u64, count: u64) -> Result<(), S::Error>
        requires within { IsTrue (S.honest self.old.system)
            → count ≤ length (S.files self.old.system file).held.reads }
        ensures honest { S.honest self.new.system ≡ S.honest self.old.system }
        ensures pending { (n : ℕ) → is_some (get nat_cmp self.new.pending n)
            ≡ is_some (get nat_cmp self.old.pending n) }
        ensures lost { self.new.names_lost ≡ self.old.names_lost }
        ensures held { IsTrue (S.honest self.old.system) → Cuts (held_of (S.files self.old.system))
            (held_of (S.files self.new.system)) file count result }
        ensures lent { IsTrue (S.honest self.old.system)
            → (S.files self.old.system file).lent ≡ false → (S.files self.new.system file).lent ≡ false }
        ensures leaves { IsTrue (S.honest self.old.system) → Leaves S.files S.moment S.left_since self.old.system
            self.new.system file (while_cutting (held_of (S.files self.old.system)) file count) }
        ensures covered { IsTrue (S.honest self.old.system) → OnOk result (Covers (S.moment self.old.system)
            (S.left_since self.new.system) (while_cutting (held_of (S.files self.old.system)) file count)) }
    {
        match self.pending.get_mut(&file) {
            Some(pending) => pending.cut(&mut self.system, count),
            None => Err(S::Error::other_length()),
        }
    }

    /// Leaves a file that has just so many octets as a cut to these would leave it.
    fn loosen(&mut self, file: u64, count: u64) -> Result<(), S::Error>
        requires absent { is_some (get nat_cmp self.old.pending file) ≡ false }
        requires whole { IsTrue (S.honest self.old.system)
            → count ≡ length (S.files self.old.system file).held.reads }
        ensures honest { S.honest self.new.system ≡ S.honest self.old.system }
        ensures pending { self.new.pending ≡ self.old.pending }
        ensures lost { self.new.names_lost ≡ self.old.names_lost }
        ensures held { IsTrue (S.honest self.old.system) → Cuts (held_of (S.files self.old.system))
            (held_of (S.files self.new.system)) file count result }
        ensures lent { IsTrue (S.honest self.old.system)
            → (S.files self.new.system file).lent ≡ (S.files self.old.system file).lent }
        ensures leaves { IsTrue (S.honest self.old.system) → Leaves S.files S.moment S.left_since self.old.system
            self.new.system file (while_cutting (held_of (S.files self.old.system)) file count) }
        ensures covered { IsTrue (S.honest self.old.system) → OnOk result (Covers (S.moment self.old.system)
            (S.left_since self.new.system) (while_cutting (held_of (S.files self.old.system)) file count)) }
    {
        self.system.loosen(file)
    }
}
