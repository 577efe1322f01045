//! The end of an opening: files are cut to what counts of them, frozen, and removed where the manifest doesn't name
//! them.

ghost use Rattle.std.specs.Prelude.{◌≡◌, ◌≢◌, ◌⊎◌, ℕ, ◌+◌, ◌^◌, ◌<◌, ◌≤◌, ◌==◌, true, false, IsTrue, List, length, map};
ghost use Rattle.std.specs.Prelude.{OnOk, IfOk, IfErr};
ghost use Rattle.std.specs.List.{list_any, AllByRecursion};
ghost use Rattle.flow_disk.specs.Disk.{AllImages, InFile};
ghost use Rattle.flow_disk.specs.Calls.{LeavesOnly, StopsBy};
ghost use Rattle.flow_disk.specs.Cause.{HasCause};
ghost use Rattle.flow_manifest.specs.declared.slots.Slot.{Slot};
ghost use Rattle.flow_manifest.specs.declared.slots.Slots.{Slots};
ghost use Rattle.flow_manifest.specs.Slots.{file_of};
ghost use Rattle.flow_manifest.specs.Manifest.{IsValidManifest, HaveOwnFiles};
ghost use Rattle.flow_segment.specs.Steps.{KeepsFront};
ghost use Rattle.flow_model.specs.State.{State, end_of};
ghost use Rattle.flow_model.specs.Standing.{IsKnown, is_file_of, SameNamed};
ghost use Rattle.flow_manifest.specs.Following.{active_of, front_of};
ghost use Rattle.flow_recover.specs.Kept.{AreFilesOf, IsFileOf, IsReadyFor};
ghost use Rattle.flow_recover.specs.Opening.{IsDeviceOrMemory, FrozenStand, shut_at};

use flow_disk::{Disk, DiskError};
use flow_manifest::{Entry, Manifest, OpenError};
use flow_segment::seal_tail;
use std::alloc::Global;

/// Cuts a file to a length that it has, and settles it. One that is settled and as long already stays as it is.
pub(crate) fn cut_file<D: Disk>(disk: &mut D, file: u64, length: u64) -> Result<(), OpenError>
    requires thawed { (D.marks disk.old file).frozen ≡ false }
    requires settled { (D.marks disk.old file).settled ≡ true }
    requires listed { (D.marks disk.old file).listed ≡ true }
    ensures honest { D.honest disk.new ≡ D.honest disk.old }
    ensures other_marks { (n : ℕ) → n ≢ file → D.marks disk.new n ≡ D.marks disk.old n }
    ensures thawed { (D.marks disk.new file).frozen ≡ false }
    ensures settled { OnOk result ((D.marks disk.new file).settled ≡ true) }
    ensures size { OnOk result ((D.marks disk.new file).size ≡ length) }
    ensures listed { OnOk result ((D.marks disk.new file).listed ≡ true) }
    ensures other_files { IsTrue (D.honest disk.old) → (n : ℕ) → n ≢ file → D.held disk.new n ≡ D.held disk.old n }
    ensures any_moment { StopsBy D.Disk disk.old disk.new (InFile file (KeepsFront length)) }
    ensures refused { IsTrue (D.honest disk.old) → length ≤ (D.marks disk.old file).size
        → IfErr result IsDeviceOrMemory }
    ensures cause { HasCause OpenError.Fault (D.faults disk.old) (D.faults disk.new) result }
{
    let size = disk.length(file)?;
    if length > size {
        return Err(OpenError::Damaged(file, size));
    }
    if length < size {
        seal_tail(disk, file, length)?;
    }
    Ok(())
}

/// Cuts the file of an entry to what counts of it, and freezes it.
fn freeze_one<D: Disk>(disk: &mut D, entry: Entry) -> Result<D::Sealed, OpenError>
    requires thawed { (D.marks disk.old entry.file).frozen ≡ false }
    requires settled { (D.marks disk.old entry.file).settled ≡ true }
    requires listed { (D.marks disk.old entry.file).listed ≡ true }
    ensures honest { D.honest disk.new ≡ D.honest disk.old }
    ensures other_marks { (n : ℕ) → n ≢ entry.file → D.marks disk.new n ≡ D.marks disk.old n }
    ensures any_moment { StopsBy D.Disk disk.old disk.new (InFile entry.file (KeepsFront entry.length)) }
    ensures other_files { IsTrue (D.honest disk.old)
        → (n : ℕ) → n ≢ entry.file → D.held disk.new n ≡ D.held disk.old n }
    ensures octets { IsTrue (D.honest disk.old) → IfOk result (λ part. D.Sealed.octets part ≡
        (D.held disk.new entry.file).reads) }
    ensures file { IfOk result (λ part. IsFileOf D.Sealed.number D.Sealed.size D.Sealed.honest (D.honest disk.new) entry
        part) }
    ensures size { IfOk result (λ part. D.Sealed.size part ≡ entry.length) }
    ensures shut { OnOk result (D.marks disk.new entry.file ≡ shut_at entry.length) }
    ensures refused { IsTrue (D.honest disk.old) → entry.length ≤ (D.marks disk.old entry.file).size
        → IfErr result IsDeviceOrMemory }
    ensures cause { HasCause OpenError.Fault (D.faults disk.old) (D.faults disk.new) result }
{
    cut_file(disk, entry.file, entry.length)?;
    let part = disk.freeze(entry.file)?;
    Ok(part)
}

/// Cuts and freezes the files before the active one.
pub(crate) fn freeze_files<D: Disk>(
    alloc: Global,
    disk: &mut D,
    entries: &[Entry],
) -> Result<Vec<D::Sealed>, OpenError>
    requires own { HaveOwnFiles entries.now }
    requires thawed { AllByRecursion (λ e. (D.marks disk.old e.file).frozen ≡ false) entries.now }
    requires settled { AllByRecursion (λ e. (D.marks disk.old e.file).settled ≡ true) entries.now }
    requires listed { AllByRecursion (λ e. (D.marks disk.old e.file).listed ≡ true) entries.now }
    ensures honest { D.honest disk.new ≡ D.honest disk.old }
    ensures other_marks { (n : ℕ) → AllByRecursion (λ e. e.file ≢ n) entries.now
        → D.marks disk.new n ≡ D.marks disk.old n }
    ensures any_moment { IsTrue (D.honest disk.old) → (slots : Slots) (s : State) → front_of s.manifest ≡ entries.now
        → AllImages (D.held disk.old) (IsKnown slots s) → LeavesOnly D.Disk disk.old disk.new (IsKnown slots s) }
    ensures other_files { IsTrue (D.honest disk.old) → (n : ℕ) → AllByRecursion (λ e. e.file ≢ n) entries.now
        → D.held disk.new n ≡ D.held disk.old n }
    ensures all { IfOk result (λ parts. length parts.items ≡ length entries.now) }
    ensures files { IfOk result (λ parts. AreFilesOf D.Sealed.number D.Sealed.size D.Sealed.honest (D.honest disk.new)
        entries.now parts.items) }
    ensures sizes { IfOk result (λ parts. map D.Sealed.size parts.items ≡ map (λ e. e.length) entries.now) }
    ensures shut { OnOk result (AllByRecursion (λ e. D.marks disk.new e.file ≡ shut_at e.length) entries.now) }
    ensures still { OnOk result
        ((n : ℕ) → (D.marks disk.old n).listed ≡ true → (D.marks disk.new n).listed ≡ true) }
    ensures parts { IsTrue (D.honest disk.old) → (slots : Slots) (s : State) → front_of s.manifest ≡ entries.now
        → AllImages (D.held disk.old) (IsKnown slots s)
        → IfOk result (λ parts. FrozenStand D.Sealed.octets entries.now s.parts parts.items) }
    ensures refused { IsTrue (D.honest disk.old) → AllByRecursion
        (λ e. e.length ≤ (D.marks disk.old e.file).size) entries.now → IfErr result IsDeviceOrMemory }
    ensures cause { HasCause OpenError.Fault (D.faults disk.old) (D.faults disk.new) result }
{
    let Ok(mut parts) = Vec::with_capacity(alloc, entries.len()) else {
        return Err(OpenError::OutOfMemory);
    };
    'entries: for entry in entries {
        let part = freeze_one(disk, *entry)?;
        parts.push_reserved(part);
    }
    Ok(parts)
}

/// Whether the manifest names this file, or it is a slot.
pub(crate) fn is_named(manifest: &Manifest, file: u64) -> bool
    ensures { result ≡ is_file_of manifest.now file }
{
    file == 1 || file == 2 || is_among(manifest.entries.as_slice(), file)
}

fn is_among(entries: &[Entry], file: u64) -> bool
    ensures { result ≡ list_any (λ e. e.file == file) entries.now }
{
    entries.iter().any(|entry| entry.file == file)
}

/// Removes a file, unless the manifest names it.
fn remove_one<D: Disk>(disk: &mut D, manifest: &Manifest, file: u64) -> Result<(), DiskError>
    requires { (n : ℕ) → is_file_of manifest.now n ≡ false → (D.marks disk.old n).frozen ≡ false }
    ensures honest { D.honest disk.new ≡ D.honest disk.old }
    ensures marks { (n : ℕ) → is_file_of manifest.now n ≡ true → D.marks disk.new n ≡ D.marks disk.old n }
    ensures thawed { (n : ℕ) → is_file_of manifest.now n ≡ false → (D.marks disk.new n).frozen ≡ false }
    ensures other_marks { (n : ℕ) → n ≢ file → D.marks disk.new n ≡ D.marks disk.old n }
    ensures removed { OnOk result (is_file_of manifest.now file ≡ false → (D.marks disk.new file).listed ≡ false) }
    ensures named { IsTrue (D.honest disk.old) → (n : ℕ) → is_file_of manifest.now n ≡ true
        → D.held disk.new n ≡ D.held disk.old n }
    ensures any_moment { StopsBy D.Disk disk.old disk.new (SameNamed manifest.now) }
    ensures cause { HasCause DiskError.Fault (D.faults disk.old) (D.faults disk.new) result }
{
    if is_named(manifest, file) {
        return Ok(());
    }
    disk.remove(file)?;
    Ok(())
}

/// Removes each file that the manifest doesn't name.
pub(crate) fn remove_unnamed<D: Disk>(
    alloc: Global,
    disk: &mut D,
    manifest: &Manifest,
) -> Result<(), DiskError>
    requires { (n : ℕ) → is_file_of manifest.now n ≡ false → (D.marks disk.old n).frozen ≡ false }
    ensures honest { D.honest disk.new ≡ D.honest disk.old }
    ensures marks { (n : ℕ) → is_file_of manifest.now n ≡ true → D.marks disk.new n ≡ D.marks disk.old n }
    ensures thawed { (n : ℕ) → is_file_of manifest.now n ≡ false → (D.marks disk.new n).frozen ≡ false }
    ensures removed { IsTrue (D.honest disk.old)
        → OnOk result ((n : ℕ) → is_file_of manifest.now n ≡ false → (D.marks disk.new n).listed ≡ false) }
    ensures named { IsTrue (D.honest disk.old) → (n : ℕ) → is_file_of manifest.now n ≡ true
        → D.held disk.new n ≡ D.held disk.old n }
    ensures any_moment { StopsBy D.Disk disk.old disk.new (SameNamed manifest.now) }
    ensures cause { HasCause DiskError.Fault (D.faults disk.old) (D.faults disk.new) result }
{
    let files = disk.files(alloc)?;
    'files: for file in &files {
        remove_one(disk, manifest, *file)?;
    }
    Ok(())
}

/// Cuts and freezes the files before the active one, cuts the active one after its trailer, and removes what the
/// manifest doesn't name.
pub(crate) fn tidy<D: Disk>(
    alloc: Global,
    disk: &mut D,
    manifest: &Manifest,
    active_entry: Entry,
    end: u64,
) -> Result<Vec<D::Sealed>, OpenError>
    requires valid { IsValidManifest manifest.now }
    requires active_entry { active_entry ≡ active_of manifest.now }
    requires end { end + 2 < 2 ^ 64 }
    requires thawed { (n : ℕ) → (D.marks disk.old n).frozen ≡ false }
    requires settled { AllByRecursion (λ e. (D.marks disk.old e.file).settled ≡ true) manifest.now.entries }
    requires listed { (n : ℕ) → is_file_of manifest.now n ≡ true → (D.marks disk.old n).listed ≡ true }
    requires slots { (slot : Slot) → ((D.marks disk.old (file_of slot)).settled ≡ true)
        × (1 ≤ (D.marks disk.old (file_of slot)).size) }
    ensures honest { D.honest disk.new ≡ D.honest disk.old }
    ensures ready { OnOk result (IsReadyFor (D.marks disk.new) active_entry.file manifest.now.next end) }
    ensures slots { IsTrue (D.honest disk.old)
        → (slot : Slot) → D.held disk.new (file_of slot) ≡ D.held disk.old (file_of slot) }
    ensures removed { IsTrue (D.honest disk.old)
        → OnOk result ((n : ℕ) → is_file_of manifest.now n ≡ false → (D.marks disk.new n).listed ≡ false) }
    ensures any_moment { IsTrue (D.honest disk.old) → (slots : Slots) (s : State) → s.manifest ≡ manifest.now
        → end_of s ≡ end → AllImages (D.held disk.old) (IsKnown slots s)
        → LeavesOnly D.Disk disk.old disk.new (IsKnown slots s) }
    ensures all { IfOk result (λ parts. length parts.items ≡ length (front_of manifest.now)) }
    ensures files { IfOk result (λ parts. AreFilesOf D.Sealed.number D.Sealed.size D.Sealed.honest (D.honest disk.new)
        (front_of manifest.now) parts.items) }
    ensures sizes { IfOk result
        (λ parts. map D.Sealed.size parts.items ≡ map (λ e. e.length) (front_of manifest.now)) }
    ensures shut { OnOk result
        (AllByRecursion (λ e. D.marks disk.new e.file ≡ shut_at e.length) (front_of manifest.now)) }
    ensures size { OnOk result ((D.marks disk.new active_entry.file).size ≡ end + 2) }
    ensures still { OnOk result ((n : ℕ) → is_file_of manifest.now n ≡ true → (D.marks disk.old n).listed ≡ true
        → (D.marks disk.new n).listed ≡ true) }
    ensures parts { IsTrue (D.honest disk.old) → (slots : Slots) (s : State) → s.manifest ≡ manifest.now
        → AllImages (D.held disk.old) (IsKnown slots s)
        → IfOk result (λ parts. FrozenStand D.Sealed.octets (front_of manifest.now) s.parts parts.items) }
    ensures refused { IsTrue (D.honest disk.old) → (slots : Slots) (s : State) → s.manifest ≡ manifest.now
        → end_of s ≡ end → AllImages (D.held disk.old) (IsKnown slots s)
        → IfErr result IsDeviceOrMemory }
    ensures cause { HasCause OpenError.Fault (D.faults disk.old) (D.faults disk.new) result }
{
    let entries = manifest.entries.as_slice();
    let parts = freeze_files(alloc, disk, &entries[..entries.len() - 1])?;
    cut_file(disk, active_entry.file, end + 2)?;
    remove_unnamed(alloc, disk, manifest)?;
    Ok(parts)
}
