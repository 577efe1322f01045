// A disk of files, named by numbers.
ghost use Rattle.std.specs.Prelude.{◌≡◌, ◌≢◌, ◌⊎◌, ℕ, ◌+◌, ◌<◌, ◌≤◌, ◌^◌, ◌↔◌, max, Bool, true, false, IsTrue, List};
ghost use Rattle.std.specs.Prelude.{Contains, length, take, drop, Result, OnOk, OnErr, IfOk, vec_len};
ghost use Rattle.std.specs.List.Sorted.{IsStrictlyIncreasing};
ghost use Rattle.flow_disk.specs.Disk.{Held, Marks, IsImage, IsDiskImage, Changes, Stays};
ghost use Rattle.flow_disk.specs.Moments.{Passes, Covers};
ghost use Rattle.flow_disk.specs.Files.{Writes, Cuts, Syncs, Removes, while_writing, while_cutting, while_removing};
ghost use Rattle.flow_disk.specs.Files.{MarkedByWrite, MarkedBySync, MarkedByRemoval, frozen_as};
ghost use Rattle.flow_disk.specs.Cause.{HasCause, FailsOnlyByFault};

use crate::{DiskError, SealedFile};
use std::alloc::Global;

/// The most octets that a file has.
pub const LIMIT: u64 = 1 << 62;

/// Files of octets, named by numbers. A file never written is an empty file.
///
/// Each call but `read`, `read_into` and `files` takes no memory, and answers Ok or `Fault`. A fault is answered only
/// where the count of failures rose in that call. A call that fails leaves of its file what a stop inside the call may
/// leave.
pub trait Disk: Drop {
    /// A frozen file of this disk.
    type Sealed: SealedFile;

    /// Whether the disk keeps what is promised of images. No call changes it.
    ghost honest: { Self → Bool };

    /// What every disk keeps of each file.
    ghost marks: { Self → ℕ → Marks };

    /// On an honest disk, what each file reads as and what a stop may leave of it.
    ghost held: { Self → ℕ → Held };

    /// The disk's clock: the moment, as a number that doesn't fall.
    ghost moment: { Self → ℕ };

    /// On an honest disk, what a stop at some moment from that one on might have left, inside a call or between two.
    ghost left_since: { Self → ℕ → (ℕ → List ℕ) → Type 0 };

    /// How often the device has failed, up to 2^64 - 1.
    ghost faults: { Self → ℕ };

    /// How many octets a file has.
    fn length(&mut self, file: u64) -> Result<u64, DiskError>
        ensures honest { honest self.new ≡ honest self.old }
        ensures clock { moment self.old ≤ moment self.new }
        ensures count { IfOk result (λ count. (marks self.new file).size ≡ count) }
        ensures marks { (n : ℕ) → n ≢ file → marks self.new n ≡ marks self.old n }
        ensures settled { (marks self.new file).settled ≡ (marks self.old file).settled }
        ensures frozen { (marks self.new file).frozen ≡ (marks self.old file).frozen }
        ensures listed { (marks self.new file).listed ≡ (marks self.old file).listed }
        ensures held { IsTrue (honest self.old) → Stays (held self.old) (held self.new) }
        ensures time { IsTrue (honest self.old) → Passes moment left_since self.old self.new (held self.old) }
        ensures cause { FailsOnlyByFault (faults self.old) (faults self.new) result };

    /// Reads octets of a file from place `at` on, over all those that are lent. After an `Err` these may be any.
    fn read_into(&mut self, file: u64, at: u64, octets: &mut [u8]) -> Result<(), DiskError>
        requires { at + length octets.old ≤ (marks self.old file).size }
        ensures honest { honest self.new ≡ honest self.old }
        ensures clock { moment self.old ≤ moment self.new }
        ensures octets { IsTrue (honest self.old)
            → OnOk result (octets.new ≡ take (length octets.old) (drop at (held self.old file).reads)) }
        ensures marks { Stays (marks self.old) (marks self.new) }
        ensures held { IsTrue (honest self.old) → Stays (held self.old) (held self.new) }
        ensures time { IsTrue (honest self.old) → Passes moment left_since self.old self.new (held self.old) }
        ensures cause { HasCause DiskError.Fault (faults self.old) (faults self.new) result };

    /// Reads `count` octets of a file from place `at` on, into memory of their own.
    fn read(
        &mut self,
        alloc: Global,
        file: u64,
        at: u64,
        count: usize,
    ) -> Result<Vec<u8>, DiskError>
        requires { at + count ≤ (marks self.old file).size }
        ensures honest { honest self.new ≡ honest self.old }
        ensures clock { moment self.old ≤ moment self.new }
        ensures count { IfOk result (λ octets. vec_len octets ≡ count) }
        ensures octets { IsTrue (honest self.old)
            → IfOk result (λ octets. octets.items ≡ take count (drop at (held self.old file).reads)) }
        ensures marks { Stays (marks self.old) (marks self.new) }
        ensures held { IsTrue (honest self.old) → Stays (held self.old) (held self.new) }
        ensures time { IsTrue (honest self.old) → Passes moment left_since self.old self.new (held self.old) }
        ensures cause { HasCause DiskError.Fault (faults self.old) (faults self.new) result }
    {
        let mut octets = vec![in alloc; 0u8; count]?;
        self.read_into(file, at, &mut octets)?;
        Ok(octets)
    }

    /// Writes octets over those at place `at`, and past the end. Until the next sync a stop may leave anything in their
    /// range, and anything past the end that was last settled where the range passes that end.
    fn write_at(&mut self, file: u64, at: u64, octets: &[u8]) -> Result<(), DiskError>
        requires place { at ≤ (marks self.old file).size }
        requires thawed { (marks self.old file).frozen ≡ false }
        ensures honest { honest self.new ≡ honest self.old }
        ensures clock { moment self.old ≤ moment self.new }
        ensures marks { MarkedByWrite (marks self.old) (marks self.new) file
            (max (marks self.old file).size (at + length octets.now)) result }
        ensures held { IsTrue (honest self.old) → Writes (held self.old) (held self.new) file at octets.now result }
        ensures time { IsTrue (honest self.old)
            → Passes moment left_since self.old self.new (while_writing (held self.old) file at octets.now) }
        ensures covered { IsTrue (honest self.old)
            → OnOk result (Covers (moment self.old) (left_since self.new)
            (while_writing (held self.old) file at octets.now)) }
        ensures cause { FailsOnlyByFault (faults self.old) (faults self.new) result };

    /// Cuts a file to `count` octets. Until the next sync a stop may leave anything after these.
    fn cut(&mut self, file: u64, count: u64) -> Result<(), DiskError>
        requires place { count ≤ (marks self.old file).size }
        requires thawed { (marks self.old file).frozen ≡ false }
        ensures honest { honest self.new ≡ honest self.old }
        ensures clock { moment self.old ≤ moment self.new }
        ensures marks { MarkedByWrite (marks self.old) (marks self.new) file count result }
        ensures held { IsTrue (honest self.old) → Cuts (held self.old) (held self.new) file count result }
        ensures time { IsTrue (honest self.old)
            → Passes moment left_since self.old self.new (while_cutting (held self.old) file count) }
        ensures covered { IsTrue (honest self.old)
            → OnOk result (Covers (moment self.old) (left_since self.new) (while_cutting (held self.old) file count)) }
        ensures cause { FailsOnlyByFault (faults self.old) (faults self.new) result };

    /// Settles a file and its name: after Ok a stop leaves the octets that the file reads as.
    fn sync(&mut self, file: u64) -> Result<(), DiskError>
        ensures honest { honest self.new ≡ honest self.old }
        ensures clock { moment self.old ≤ moment self.new }
        ensures marks { MarkedBySync (marks self.old) (marks self.new) file result }
        ensures held { IsTrue (honest self.old) → Syncs (held self.old) (held self.new) file result }
        ensures time { IsTrue (honest self.old) → Passes moment left_since self.old self.new (held self.old) }
        ensures cause { FailsOnlyByFault (faults self.old) (faults self.new) result };

    /// Removes a file. Until Ok a stop may leave anything of it; after Ok it is empty and not listed.
    fn remove(&mut self, file: u64) -> Result<(), DiskError>
        requires { (marks self.old file).frozen ≡ false }
        ensures honest { honest self.new ≡ honest self.old }
        ensures clock { moment self.old ≤ moment self.new }
        ensures marks { MarkedByRemoval (marks self.old) (marks self.new) file result }
        ensures held { IsTrue (honest self.old) → Removes (held self.old) (held self.new) file result }
        ensures time { IsTrue (honest self.old)
            → Passes moment left_since self.old self.new (while_removing (held self.old) file) }
        ensures covered { IsTrue (honest self.old)
            → OnOk result (Covers (moment self.old) (left_since self.new) (while_removing (held self.old) file)) }
        ensures cause { FailsOnlyByFault (faults self.old) (faults self.new) result };

    /// The files' numbers, ascending.
    fn files(&mut self, alloc: Global) -> Result<Vec<u64>, DiskError>
        ensures honest { honest self.new ≡ honest self.old }
        ensures clock { moment self.old ≤ moment self.new }
        ensures ascending { IfOk result (λ files. IsStrictlyIncreasing files.items) }
        ensures listed { IsTrue (honest self.old)
            → IfOk result (λ files. (n : ℕ) → Contains files.items n ↔ ((marks self.new n).listed ≡ true)) }
        ensures marks { Stays (marks self.old) (marks self.new) }
        ensures held { IsTrue (honest self.old) → Stays (held self.old) (held self.new) }
        ensures time { IsTrue (honest self.old) → Passes moment left_since self.old self.new (held self.old) }
        ensures cause { HasCause DiskError.Fault (faults self.old) (faults self.new) result };

    /// Takes a settled file out of reach of every change but `retire`, and gives the value that reads it.
    fn freeze(&mut self, file: u64) -> Result<Self::Sealed, DiskError>
        requires settled { (marks self.old file).settled ≡ true }
        requires thawed { (marks self.old file).frozen ≡ false }
        ensures honest { honest self.new ≡ honest self.old }
        ensures clock { moment self.old ≤ moment self.new }
        ensures sealed { IfOk result (λ sealed. (Self.Sealed.number sealed ≡ file)
            × (Self.Sealed.size sealed ≡ (marks self.old file).size) × (Self.Sealed.honest sealed ≡ honest self.old)) }
        ensures octets { IsTrue (honest self.old)
            → IfOk result (λ sealed. Self.Sealed.octets sealed ≡ (held self.old file).reads) }
        ensures frozen { OnOk result
            (Changes (marks self.old) (marks self.new) file (frozen_as (marks self.old file))) }
        ensures thawed { OnErr result (Stays (marks self.old) (marks self.new)) }
        ensures held { IsTrue (honest self.old) → Stays (held self.old) (held self.new) }
        ensures time { IsTrue (honest self.old) → Passes moment left_since self.old self.new (held self.old) }
        ensures cause { FailsOnlyByFault (faults self.old) (faults self.new) result };

    /// Removes a frozen file, in exchange for its value.
    fn retire(&mut self, sealed: Self::Sealed) -> Result<(), DiskError>
        requires { (marks self.old (Self.Sealed.number sealed)).frozen ≡ true }
        ensures honest { honest self.new ≡ honest self.old }
        ensures clock { moment self.old ≤ moment self.new }
        ensures marks { MarkedByRemoval (marks self.old) (marks self.new) (Self.Sealed.number sealed) result }
        ensures held { IsTrue (honest self.old)
            → Removes (held self.old) (held self.new) (Self.Sealed.number sealed) result }
        ensures time { IsTrue (honest self.old)
            → Passes moment left_since self.old self.new (while_removing (held self.old) (Self.Sealed.number sealed)) }
        ensures covered { IsTrue (honest self.old)
            → OnOk result (Covers (moment self.old) (left_since self.new)
            (while_removing (held self.old) (Self.Sealed.number sealed))) }
        ensures cause { FailsOnlyByFault (faults self.old) (faults self.new) result };

    /// The octets that a file reads as are an image.
    ghost reads_image: { (disk : Self) (file : ℕ) → IsTrue (honest disk)
        → IsImage (held disk file) (held disk file).reads };

    /// The places that a stop can't reach had octets when the file was last settled.
    ghost fast_within: { (disk : Self) (file : ℕ) → IsTrue (honest disk)
        → (held disk file).fast ≤ length (held disk file).last };

    /// Where the end isn't loose, `fast` is the length that the file had when it was last settled.
    ghost fast_whole: { (disk : Self) (file : ℕ) → IsTrue (honest disk) → (held disk file).loose ≡ false
        → length (held disk file).last ≡ (held disk file).fast };

    /// A settled file has one image: what it reads as.
    ghost settled_alone: { (disk : Self) (file : ℕ) (image : List ℕ) → IsTrue (honest disk)
        → (marks disk file).settled ≡ true → IsImage (held disk file) image → image ≡ (held disk file).reads };

    /// A file's length is that of the octets it reads as.
    ghost has_size: { (disk : Self) (file : ℕ) → IsTrue (honest disk)
        → (marks disk file).size ≡ length (held disk file).reads };

    /// No file passes 2^62 octets; a write past them is a fault.
    ghost within_limit: { (disk : Self) (file : ℕ) → (marks disk file).size ≤ 2 ^ 62 };

    /// This moment is one of those since an earlier one.
    ghost counts_now: { (disk : Self) (t : ℕ) (image : ℕ → List ℕ) → IsTrue (honest disk) → t ≤ moment disk
        → IsDiskImage (held disk) image → left_since disk t image };

    /// Since this moment a stop might have left only the images of now.
    ghost only_now: { (disk : Self) (image : ℕ → List ℕ) → IsTrue (honest disk) → left_since disk (moment disk) image
        → IsDiskImage (held disk) image };
}
