// The calls on the files of a directory.
ghost use Rattle.std.specs.Prelude.{◌≡◌, ◌≢◌, ℕ, ◌+◌, ◌<◌, ◌≤◌, ◌^◌, ◌↔◌, Bool, true, false, IsTrue, List, [], length};
ghost use Rattle.std.specs.Prelude.{take, drop, Contains, OnOk, OnErr, IfOk, IfSome, is_some};
ghost use Rattle.flow_disk.specs.Disk.{Held, IsImage, IsDiskImage, Stays};
ghost use Rattle.flow_disk.specs.Moments.{Passes, Covers};
ghost use Rattle.flow_disk.specs.Files.{while_writing, while_cutting, while_removing};
ghost use Rattle.flow_directory.specs.File.{Part, octet, entry, File, held_of, IsClean, IsNamed, IsUnsure};
ghost use Rattle.flow_directory.specs.Calls.{Writing, Rewriting, Truncating, Retruncating, Syncing, Opening, Creating};
ghost use Rattle.flow_directory.specs.Calls.{Unlinking, UnlinkingEmpty, Entering, Settling, Loosening, ChangingMode};
ghost use Rattle.flow_directory.specs.Calls.{Lending};

use crate::FileReader;
use std::alloc::Global;

/// Why a call fails.
pub trait CallError: Drop {
    /// Whether memory was refused.
    fn is_out_of_memory(&self) -> bool;

    /// That memory was refused.
    fn out_of_memory() -> Self;

    /// That a file isn't there, or is shorter or longer than it was.
    fn other_length() -> Self;
}

/// What the system says of a file.
#[derive(Clone, Copy)]
pub struct Status {
    /// How many octets it has.
    pub length: u64,
    /// Whether its mode lets nobody write it.
    pub read_only: bool,
}

/// What a file is opened for.
#[derive(Clone, Copy, PartialEq, Eq)]
pub enum Access {
    /// To be read and synced.
    Read,
    /// To be read, written and synced.
    Write,
}

/// The calls that a folder of files makes, on the files of one directory, named by numbers. A file is open from `open`
/// or `create` on, until it is closed, opened again or unlinked; a call that wants an open file fails where it isn't
/// open. Nobody else changes the files. `files` says what each is by the system's memory, what a stop of the machine may
/// leave of it, and what waits for a sync or was lost by a failed one.
pub trait Directory: Drop {
    /// Why a call fails.
    type Error: CallError;

    /// A value that reads a file which nobody changes.
    type Reader: FileReader;

    /// Whether each call keeps its rule. No call changes it.
    ghost honest: { Self → Bool };

    /// Each file.
    ghost files: { Self → ℕ → File };

    /// The clock: the moment, as a number that doesn't fall.
    ghost moment: { Self → ℕ };

    /// What a stop at some moment from that one on might have left.
    ghost left_since: { Self → ℕ → (ℕ → List ℕ) → Type 0 };

    /// Notes why a call failed, for whoever looks into it. No clause speaks of that.
    fn note(&self, error: &Self::Error);

    /// What a name leads to (fstatat with AT_SYMLINK_NOFOLLOW). It fails where that is no regular file.
    fn status(&mut self, file: u64) -> Result<Option<Status>, Self::Error>
        ensures honest { honest self.new ≡ honest self.old }
        ensures linked { IsTrue (honest self.old) → IfOk result (λ found. is_some found ≡ (files self.old file).linked) }
        ensures status { IsTrue (honest self.old) → IfOk result (λ found. IfSome found (λ status.
            (status.length ≡ length (files self.old file).held.reads)
            × (status.read_only ≡ (files self.old file).read_only))) }
        ensures files { IsTrue (honest self.old) → Stays (files self.old) (files self.new) }
        ensures time { IsTrue (honest self.old)
            → Passes moment left_since self.old self.new (held_of (files self.old)) };

    /// The files that have a name (getdents64), in the system's order.
    fn list(&mut self, alloc: Global) -> Result<Vec<u64>, Self::Error>
        ensures honest { honest self.new ≡ honest self.old }
        ensures listed { IsTrue (honest self.old)
            → IfOk result (λ list. (n : ℕ) → Contains list.items n ↔ ((files self.old n).linked ≡ true)) }
        ensures files { IsTrue (honest self.old) → Stays (files self.old) (files self.new) }
        ensures time { IsTrue (honest self.old)
            → Passes moment left_since self.old self.new (held_of (files self.old)) };

    /// Opens an existing file (openat, fstat).
    fn open(&mut self, file: u64, access: Access) -> Result<Status, Self::Error>
        ensures honest { honest self.new ≡ honest self.old }
        ensures status { IsTrue (honest self.old) → IfOk result (λ status.
            (status.length ≡ length (files self.old file).held.reads)
            × (status.read_only ≡ (files self.old file).read_only)) }
        ensures linked { IsTrue (honest self.old) → OnOk result ((files self.old file).linked ≡ true) }
        ensures opened { IsTrue (honest self.old) → Opening (files self.old file) (files self.new file) }
        ensures others { IsTrue (honest self.old) → (n : ℕ) → n ≢ file → files self.new n ≡ files self.old n }
        ensures time { IsTrue (honest self.old)
            → Passes moment left_since self.old self.new (held_of (files self.old)) };

    /// Closes a file (close).
    fn close(&mut self, file: u64)
        ensures honest { honest self.new ≡ honest self.old }
        ensures files { IsTrue (honest self.old) → Stays (files self.old) (files self.new) }
        ensures time { IsTrue (honest self.old)
            → Passes moment left_since self.old self.new (held_of (files self.old)) };

    /// Makes a file and opens it (openat with O_CREAT and O_EXCL).
    fn create(&mut self, file: u64) -> Result<(), Self::Error>
        ensures honest { honest self.new ≡ honest self.old }
        ensures created { IsTrue (honest self.old) → Creating (files self.old file) (files self.new file) result }
        ensures others { IsTrue (honest self.old) → (n : ℕ) → n ≢ file → files self.new n ≡ files self.old n }
        ensures time { IsTrue (honest self.old)
            → Passes moment left_since self.old self.new (held_of (files self.old)) };

    /// Takes a name away (unlinkat), and answers whether it was there. A stop may leave anything of the file, until the
    /// directory is synced.
    fn unlink(&mut self, file: u64) -> Result<bool, Self::Error>
        requires { IsTrue (honest self.old) → (files self.old file).lent ≡ false }
        ensures honest { honest self.new ≡ honest self.old }
        ensures unlinked { IsTrue (honest self.old) → Unlinking (files self.old file) (files self.new file) result }
        ensures others { IsTrue (honest self.old) → (n : ℕ) → n ≢ file → files self.new n ≡ files self.old n }
        ensures time { IsTrue (honest self.old)
            → Passes moment left_since self.old self.new (while_removing (held_of (files self.old)) file) }
        ensures covered { IsTrue (honest self.old) → OnOk result
            (Covers (moment self.old) (left_since self.new) (while_removing (held_of (files self.old)) file)) };

    /// Takes the name of a file without octets away (unlinkat): a stop leaves what it might have left before.
    fn unlink_empty(&mut self, file: u64) -> Result<bool, Self::Error>
        requires lent { IsTrue (honest self.old) → (files self.old file).lent ≡ false }
        requires empty { IsTrue (honest self.old) → (files self.old file).held.reads ≡ [] }
        ensures honest { honest self.new ≡ honest self.old }
        ensures unlinked { IsTrue (honest self.old)
            → UnlinkingEmpty (files self.old file) (files self.new file) result }
        ensures others { IsTrue (honest self.old) → (n : ℕ) → n ≢ file → files self.new n ≡ files self.old n }
        ensures time { IsTrue (honest self.old)
            → Passes moment left_since self.old self.new (held_of (files self.old)) };

    /// Syncs the directory (fsync).
    fn sync_directory(&mut self) -> Result<(), Self::Error>
        ensures honest { honest self.new ≡ honest self.old }
        ensures names { IsTrue (honest self.old)
            → (n : ℕ) → Entering (files self.old n) (files self.new n) result }
        ensures held { IsTrue (honest self.old) → Stays (held_of (files self.old)) (held_of (files self.new)) }
        ensures time { IsTrue (honest self.old)
            → Passes moment left_since self.old self.new (held_of (files self.old)) };

    /// Looks again at what a stop may leave of a file. This is no system call: it changes what is known alone.
    fn settle(&mut self, file: u64) -> Result<(), Self::Error>
        ensures honest { honest self.new ≡ honest self.old }
        ensures settled { IsTrue (honest self.old) → Settling (files self.old file) (files self.new file) result }
        ensures others { IsTrue (honest self.old) → (n : ℕ) → n ≢ file → files self.new n ≡ files self.old n }
        ensures time { IsTrue (honest self.old)
            → Passes moment left_since self.old self.new (held_of (files self.old)) };

    /// Takes it that anything may follow the octets that a file has, as after a cut to its size. This is no system call:
    /// it changes what is known alone.
    fn loosen(&mut self, file: u64) -> Result<(), Self::Error>
        ensures honest { honest self.new ≡ honest self.old }
        ensures loosened { IsTrue (honest self.old) → Loosening (files self.old file) (files self.new file) result }
        ensures others { IsTrue (honest self.old) → (n : ℕ) → n ≢ file → files self.new n ≡ files self.old n }
        ensures time { IsTrue (honest self.old) → Passes moment left_since self.old self.new
            (while_cutting (held_of (files self.old)) file (length (files self.old file).held.reads)) }
        ensures covered { IsTrue (honest self.old) → OnOk result (Covers (moment self.old) (left_since self.new)
            (while_cutting (held_of (files self.old)) file (length (files self.old file).held.reads))) };

    /// Takes from everyone the permission to write an open file, or gives it to its owner (fchmod). A read-only file is
    /// one of which nothing waits.
    fn set_read_only(&mut self, file: u64, read_only: bool) -> Result<(), Self::Error>
        requires { IsTrue (honest self.old) → read_only ≡ true → IsClean (files self.old file) }
        ensures honest { honest self.new ≡ honest self.old }
        ensures changed { IsTrue (honest self.old)
            → ChangingMode (files self.old file) (files self.new file) read_only result }
        ensures others { IsTrue (honest self.old) → (n : ℕ) → n ≢ file → files self.new n ≡ files self.old n }
        ensures time { IsTrue (honest self.old)
            → Passes moment left_since self.old self.new (held_of (files self.old)) };

    /// How many octets an open file has (fstat).
    fn length(&mut self, file: u64) -> Result<u64, Self::Error>
        ensures honest { honest self.new ≡ honest self.old }
        ensures count { IsTrue (honest self.old)
            → IfOk result (λ count. count ≡ length (files self.old file).held.reads) }
        ensures files { IsTrue (honest self.old) → Stays (files self.old) (files self.new) }
        ensures time { IsTrue (honest self.old)
            → Passes moment left_since self.old self.new (held_of (files self.old)) };

    /// Reads octets of an open file from a place on (pread64): as many as asked, or it fails.
    fn read(&mut self, file: u64, at: u64, octets: &mut [u8]) -> Result<(), Self::Error>
        ensures honest { honest self.new ≡ honest self.old }
        ensures octets { IsTrue (honest self.old)
            → OnOk result (octets.new ≡ take (length octets.old) (drop at (files self.old file).held.reads)) }
        ensures files { IsTrue (honest self.old) → Stays (files self.old) (files self.new) }
        ensures time { IsTrue (honest self.old)
            → Passes moment left_since self.old self.new (held_of (files self.old)) };

    /// Writes octets at a place of an open file (pwrite64), not past its end, under a durable name.
    fn write(&mut self, file: u64, at: u64, octets: &[u8]) -> Result<(), Self::Error>
        requires named { IsTrue (honest self.old) → IsNamed (files self.old file) }
        requires writable { IsTrue (honest self.old) → (files self.old file).read_only ≡ false }
        requires lent { IsTrue (honest self.old) → (files self.old file).lent ≡ false }
        requires within { IsTrue (honest self.old) → at ≤ length (files self.old file).held.reads }
        ensures honest { honest self.new ≡ honest self.old }
        ensures written { IsTrue (honest self.old)
            → Writing (files self.old file) (files self.new file) at octets.now result }
        ensures others { IsTrue (honest self.old) → (n : ℕ) → n ≢ file → files self.new n ≡ files self.old n }
        ensures time { IsTrue (honest self.old)
            → Passes moment left_since self.old self.new (while_writing (held_of (files self.old)) file at octets.now) }
        ensures covered { IsTrue (honest self.old) → OnOk result (Covers (moment self.old) (left_since self.new)
            (while_writing (held_of (files self.old)) file at octets.now)) };

    /// Writes octets over those that the file has there already (pwrite64).
    fn rewrite(&mut self, file: u64, at: u64, octets: &[u8]) -> Result<(), Self::Error>
        requires named { IsTrue (honest self.old) → IsNamed (files self.old file) }
        requires writable { IsTrue (honest self.old) → (files self.old file).read_only ≡ false }
        requires lent { IsTrue (honest self.old) → (files self.old file).lent ≡ false }
        requires within { IsTrue (honest self.old) → at + length octets.now ≤ length (files self.old file).held.reads }
        requires equal { IsTrue (honest self.old)
            → octets.now ≡ take (length octets.now) (drop at (files self.old file).held.reads) }
        ensures honest { honest self.new ≡ honest self.old }
        ensures written { IsTrue (honest self.old)
            → Rewriting (files self.old file) (files self.new file) at (length octets.now) result }
        ensures others { IsTrue (honest self.old) → (n : ℕ) → n ≢ file → files self.new n ≡ files self.old n }
        ensures time { IsTrue (honest self.old)
            → Passes moment left_since self.old self.new (held_of (files self.old)) };

    /// Cuts an open file to so many octets of those that it has (ftruncate).
    fn truncate(&mut self, file: u64, count: u64) -> Result<(), Self::Error>
        requires named { IsTrue (honest self.old) → IsNamed (files self.old file) }
        requires writable { IsTrue (honest self.old) → (files self.old file).read_only ≡ false }
        requires lent { IsTrue (honest self.old) → (files self.old file).lent ≡ false }
        requires within { IsTrue (honest self.old) → count ≤ length (files self.old file).held.reads }
        ensures honest { honest self.new ≡ honest self.old }
        ensures cut { IsTrue (honest self.old)
            → Truncating (files self.old file) (files self.new file) count result }
        ensures others { IsTrue (honest self.old) → (n : ℕ) → n ≢ file → files self.new n ≡ files self.old n }
        ensures time { IsTrue (honest self.old)
            → Passes moment left_since self.old self.new (while_cutting (held_of (files self.old)) file count) }
        ensures covered { IsTrue (honest self.old) → OnOk result (Covers (moment self.old) (left_since self.new)
            (while_cutting (held_of (files self.old)) file count)) };

    /// Cuts an open file to the size that it has already (ftruncate).
    fn retruncate(&mut self, file: u64, count: u64) -> Result<(), Self::Error>
        requires named { IsTrue (honest self.old) → IsNamed (files self.old file) }
        requires writable { IsTrue (honest self.old) → (files self.old file).read_only ≡ false }
        requires lent { IsTrue (honest self.old) → (files self.old file).lent ≡ false }
        requires size { IsTrue (honest self.old) → count ≡ length (files self.old file).held.reads }
        ensures honest { honest self.new ≡ honest self.old }
        ensures cut { IsTrue (honest self.old) → Retruncating (files self.old file) (files self.new file) result }
        ensures others { IsTrue (honest self.old) → (n : ℕ) → n ≢ file → files self.new n ≡ files self.old n }
        ensures time { IsTrue (honest self.old)
            → Passes moment left_since self.old self.new (held_of (files self.old)) };

    /// Syncs an open file (fsync).
    fn sync(&mut self, file: u64) -> Result<(), Self::Error>
        ensures honest { honest self.new ≡ honest self.old }
        ensures synced { IsTrue (honest self.old) → Syncing (files self.old file) (files self.new file) result }
        ensures others { IsTrue (honest self.old) → (n : ℕ) → n ≢ file → files self.new n ≡ files self.old n }
        ensures time { IsTrue (honest self.old)
            → Passes moment left_since self.old self.new (held_of (files self.old)) };

    /// Lends a value that reads a file as it is now, as long as it is not changed.
    fn lend(&mut self, file: u64) -> Result<Self::Reader, Self::Error>
        requires { IsTrue (honest self.old) → IsClean (files self.old file) }
        ensures honest { honest self.new ≡ honest self.old }
        ensures reader { IfOk result (λ reader. (Self.Reader.number reader ≡ file)
            × (Self.Reader.honest reader ≡ honest self.old)) }
        ensures octets { IsTrue (honest self.old)
            → IfOk result (λ reader. Self.Reader.reads reader ≡ (files self.old file).held.reads) }
        ensures done { IsTrue (honest self.old)
            → OnOk result (Lending (files self.old file) (files self.new file) true) }
        ensures others { IsTrue (honest self.old) → (n : ℕ) → n ≢ file → files self.new n ≡ files self.old n }
        ensures failed { IsTrue (honest self.old) → OnErr result (Stays (files self.old) (files self.new)) }
        ensures time { IsTrue (honest self.old)
            → Passes moment left_since self.old self.new (held_of (files self.old)) };

    /// Takes back what was lent.
    fn take_back(&mut self, reader: Self::Reader)
        ensures honest { honest self.new ≡ honest self.old }
        ensures lent { IsTrue (honest self.old) → Lending (files self.old (Self.Reader.number reader))
            (files self.new (Self.Reader.number reader)) false }
        ensures others { IsTrue (honest self.old) → (n : ℕ) → n ≢ Self.Reader.number reader
            → files self.new n ≡ files self.old n }
        ensures time { IsTrue (honest self.old)
            → Passes moment left_since self.old self.new (held_of (files self.old)) };

    /// A file that has no name has no octets.
    ghost absent: { (dir : Self) (file : ℕ) → IsTrue (honest dir) → (files dir file).linked ≡ false
        → (files dir file).held.reads ≡ [] };

    /// Nor does anything of it wait.
    ghost absent_clean: { (dir : Self) (file : ℕ) → IsTrue (honest dir) → (files dir file).linked ≡ false
        → IsClean (files dir file) };

    /// The name of a file with octets is durable.
    ghost named: { (dir : Self) (file : ℕ) → IsTrue (honest dir) → 0 < length (files dir file).held.reads
        → IsNamed (files dir file) };

    /// A file that nobody may write is one of which nothing waits, and nothing is lost.
    ghost read_only_clean: { (dir : Self) (file : ℕ) → IsTrue (honest dir) → (files dir file).read_only ≡ true
        → IsClean (files dir file) };

    /// Nor does anything wait of a file that is lent.
    ghost lent_clean: { (dir : Self) (file : ℕ) → IsTrue (honest dir) → (files dir file).lent ≡ true
        → IsClean (files dir file) };

    /// Octets are those of the file.
    ghost within: { (dir : Self) (file place : ℕ) → IsTrue (honest dir) → IsUnsure (files dir file) (octet place)
        → place < length (files dir file).held.reads };

    /// No file passes 2^62 octets.
    ghost within_limit: { (dir : Self) (file : ℕ) → IsTrue (honest dir)
        → length (files dir file).held.reads ≤ 2 ^ 62 };

    /// What a file reads as is an image.
    ghost reads_image: { (dir : Self) (file : ℕ) → IsTrue (honest dir)
        → IsImage (files dir file).held (files dir file).held.reads };

    /// The places that a stop can't reach had octets when the file was last settled.
    ghost fast_within: { (dir : Self) (file : ℕ) → IsTrue (honest dir)
        → (files dir file).held.fast ≤ length (files dir file).held.last };

    /// Where the end isn't loose, `fast` is the length that the file had when it was last settled.
    ghost fast_whole: { (dir : Self) (file : ℕ) → IsTrue (honest dir) → (files dir file).held.loose ≡ false
        → length (files dir file).held.last ≡ (files dir file).held.fast };

    /// This moment is one of those since an earlier one.
    ghost counts_now: { (dir : Self) (t : ℕ) (image : ℕ → List ℕ) → IsTrue (honest dir) → t ≤ moment dir
        → IsDiskImage (held_of (files dir)) image → left_since dir t image };

    /// Since this moment a stop might have left only the images of now.
    ghost only_now: { (dir : Self) (image : ℕ → List ℕ) → IsTrue (honest dir) → left_since dir (moment dir) image
        → IsDiskImage (held_of (files dir)) image };
}
