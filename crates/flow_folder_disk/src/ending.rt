// How a folder is left: its settled files are read-only.
ghost use Rattle.std.specs.Prelude.{◌≡◌, ℕ, true, false, IsTrue, is_some, IfSome, IfNone, OnOk};
ghost use Rattle.std.specs.Ordering.{nat_cmp};
ghost use Rattle.std.specs.BTreeMap.{get};
ghost use Rattle.flow_directory.specs.File.{held_of, IsClean};
ghost use Rattle.flow_folder_disk.specs.Known.{IsMarked, IsReached, Leaves};

use crate::disk::FolderDisk;
use crate::folder::Folder;
use flow_directory::{Access, Directory, Status};
use flow_disk::DiskError;
use std::alloc::Global;

impl<S: Directory> Folder<S> {
    /// Takes the permission to write a settled file from everyone, so that a later value takes it for settled. An
    /// absent file has none.
    pub(crate) fn mark(&mut self, file: u64) -> Result<(), S::Error>
        requires absent { is_some (get nat_cmp self.old.pending file) ≡ false }
        requires clean { IsTrue (S.honest self.old.system) → IsClean (S.files self.old.system file) }
        ensures honest { S.honest self.new.system ≡ S.honest self.old.system }
        ensures pending { self.new.pending ≡ self.old.pending }
        ensures reached { IsTrue (S.honest self.old.system)
            → IsReached (S.files self.old.system file) (S.files self.new.system file) }
        ensures marked { IsTrue (S.honest self.old.system) → OnOk result (IsMarked (S.files self.new.system file)) }
        ensures still { IsTrue (S.honest self.old.system)
            → IsMarked (S.files self.old.system file) → IsMarked (S.files self.new.system file) }
        ensures leaves { IsTrue (S.honest self.old.system) → Leaves S.files S.moment S.left_since self.old.system
            self.new.system file (held_of (S.files self.old.system)) }
    {
        let found = self.system.status(file)?;
        self.mark_found(file, found)
    }

    /// The same, of a file as it was found.
    fn mark_found(&mut self, file: u64, found: Option<Status>) -> Result<(), S::Error>
        requires absent { is_some (get nat_cmp self.old.pending file) ≡ false }
        requires clean { IsTrue (S.honest self.old.system) → IsClean (S.files self.old.system file) }
        requires read_only { IsTrue (S.honest self.old.system) → IfSome found
            (λ status. status.read_only ≡ (S.files self.old.system file).read_only) }
        requires some { IsTrue (S.honest self.old.system) → IfSome found
            (λ status. (S.files self.old.system file).linked ≡ true) }
        requires none { IsTrue (S.honest self.old.system) → IfNone found
            ((S.files self.old.system file).linked ≡ false) }
        ensures honest { S.honest self.new.system ≡ S.honest self.old.system }
        ensures pending { self.new.pending ≡ self.old.pending }
        ensures reached { IsTrue (S.honest self.old.system)
            → IsReached (S.files self.old.system file) (S.files self.new.system file) }
        ensures marked { IsTrue (S.honest self.old.system) → OnOk result (IsMarked (S.files self.new.system file)) }
        ensures still { IsTrue (S.honest self.old.system)
            → IsMarked (S.files self.old.system file) → IsMarked (S.files self.new.system file) }
        ensures leaves { IsTrue (S.honest self.old.system) → Leaves S.files S.moment S.left_since self.old.system
            self.new.system file (held_of (S.files self.old.system)) }
    {
        match found {
            None => Ok(()),
            Some(named) if named.read_only => Ok(()),
            Some(_) => self.mark_named(file),
        }
    }

    /// The same, of a file that exists, and isn't read-only. It is opened to be written, as it may be changed again.
    fn mark_named(&mut self, file: u64) -> Result<(), S::Error>
        requires absent { is_some (get nat_cmp self.old.pending file) ≡ false }
        requires clean { IsTrue (S.honest self.old.system) → IsClean (S.files self.old.system file) }
        ensures honest { S.honest self.new.system ≡ S.honest self.old.system }
        ensures pending { self.new.pending ≡ self.old.pending }
        ensures reached { IsTrue (S.honest self.old.system)
            → IsReached (S.files self.old.system file) (S.files self.new.system file) }
        ensures marked { IsTrue (S.honest self.old.system) → OnOk result (IsMarked (S.files self.new.system file)) }
        ensures leaves { IsTrue (S.honest self.old.system) → Leaves S.files S.moment S.left_since self.old.system
            self.new.system file (held_of (S.files self.old.system)) }
    {
        let _ = self.system.open(file, Access::Write)?;
        self.close_marked(file)
    }

    /// Takes the permission to write an open file from everyone, and closes it.
    fn close_marked(&mut self, file: u64) -> Result<(), S::Error>
        requires absent { is_some (get nat_cmp self.old.pending file) ≡ false }
        requires clean { IsTrue (S.honest self.old.system) → IsClean (S.files self.old.system file) }
        ensures honest { S.honest self.new.system ≡ S.honest self.old.system }
        ensures pending { self.new.pending ≡ self.old.pending }
        ensures reached { IsTrue (S.honest self.old.system)
            → IsReached (S.files self.old.system file) (S.files self.new.system file) }
        ensures marked { IsTrue (S.honest self.old.system) → OnOk result (IsMarked (S.files self.new.system file)) }
        ensures leaves { IsTrue (S.honest self.old.system) → Leaves S.files S.moment S.left_since self.old.system
            self.new.system file (held_of (S.files self.old.system)) }
    {
        let marked = self.system.set_read_only(file, true);
        self.system.close(file);
        marked
    }
}

ghost use Rattle.std.specs.List.{list_any};
ghost use Rattle.std.specs.Ordering.{eq_by_cmp};
ghost use Rattle.std.specs.Prelude.{IsErrOf};
ghost use Rattle.flow_disk.specs.Cause.{HasCause, FailsOnlyByFault};
ghost use Rattle.flow_folder_disk.specs.Ended.{HasRisenBy, left_of};
ghost use Rattle.flow_folder_disk.specs.Known.{KeepsAll};
ghost use Rattle.flow_folder_disk.specs.Table.{marks_in, reported_in};

impl<S: Directory> FolderDisk<S> {
    /// Makes all settled files read-only, so that a later value takes each of them for settled and writes none of it
    /// again. Nothing else differs. Where the system refuses that for a file, the others are made so all the same: no
    /// more stay as they are than faults are counted.
    pub fn end(&mut self, alloc: Global) -> Result<(), DiskError>
        ensures honest { S.honest self.new.folder.system ≡ S.honest self.old.folder.system }
        ensures table { self.new.table ≡ self.old.table }
        ensures all { IsTrue (S.honest self.old.folder.system)
            → KeepsAll S.files S.moment S.left_since self.old.folder.system self.new.folder.system }
        ensures marked { IsTrue (S.honest self.old.folder.system) → OnOk result ((n : ℕ)
            → (marks_in self.old.table n).settled ≡ true → IsMarked (S.files self.new.folder.system n)) }
        ensures left { IsTrue (S.honest self.old.folder.system) → IsErrOf result DiskError.Fault
            → HasRisenBy (left_of (marks_in self.old.table) (S.files self.new.folder.system)
            (reported_in self.old.table)) self.old.failed self.new.failed }
        ensures cause { HasCause DiskError.Fault self.old.failed self.new.failed result }
    {
        let files = self.table.files(alloc)?;
        self.mark_all(&files)
    }

    /// The same of these files.
    fn mark_all(&mut self, files: &[u64]) -> Result<(), DiskError>
        ensures honest { S.honest self.new.folder.system ≡ S.honest self.old.folder.system }
        ensures table { self.new.table ≡ self.old.table }
        ensures all { IsTrue (S.honest self.old.folder.system)
            → KeepsAll S.files S.moment S.left_since self.old.folder.system self.new.folder.system }
        ensures marked { IsTrue (S.honest self.old.folder.system) → OnOk result ((n : ℕ)
            → list_any (eq_by_cmp nat_cmp n) files.now ≡ true → (marks_in self.old.table n).settled ≡ true
            → IsMarked (S.files self.new.folder.system n)) }
        ensures left { IsTrue (S.honest self.old.folder.system) → HasRisenBy (left_of (marks_in self.old.table)
            (S.files self.new.folder.system) files.now) self.old.failed self.new.failed }
        ensures cause { FailsOnlyByFault self.old.failed self.new.failed result }
    {
        let mut marked = Ok(());
        for file in files {
            let one = self.mark(*file);
            marked = marked.and(one);
        }
        marked
    }

    /// The same of one file.
    fn mark(&mut self, file: u64) -> Result<(), DiskError>
        ensures honest { S.honest self.new.folder.system ≡ S.honest self.old.folder.system }
        ensures table { self.new.table ≡ self.old.table }
        ensures all { IsTrue (S.honest self.old.folder.system)
            → KeepsAll S.files S.moment S.left_since self.old.folder.system self.new.folder.system }
        ensures marked { IsTrue (S.honest self.old.folder.system) → OnOk result
            ((marks_in self.old.table file).settled ≡ true → IsMarked (S.files self.new.folder.system file)) }
        ensures still { IsTrue (S.honest self.old.folder.system) → (n : ℕ)
            → IsMarked (S.files self.old.folder.system n) → IsMarked (S.files self.new.folder.system n) }
        ensures cause { FailsOnlyByFault self.old.failed self.new.failed result }
    {
        if self.table.of(file).settled {
            return self.mark_settled(file);
        }
        Ok(())
    }

    /// The same of one that is settled. What the system said isn't noted: nothing is refused for it.
    fn mark_settled(&mut self, file: u64) -> Result<(), DiskError>
        requires { (marks_in self.old.table file).settled ≡ true }
        ensures honest { S.honest self.new.folder.system ≡ S.honest self.old.folder.system }
        ensures table { self.new.table ≡ self.old.table }
        ensures all { IsTrue (S.honest self.old.folder.system)
            → KeepsAll S.files S.moment S.left_since self.old.folder.system self.new.folder.system }
        ensures marked { IsTrue (S.honest self.old.folder.system)
            → OnOk result (IsMarked (S.files self.new.folder.system file)) }
        ensures still { IsTrue (S.honest self.old.folder.system) → (n : ℕ)
            → IsMarked (S.files self.old.folder.system n) → IsMarked (S.files self.new.folder.system n) }
        ensures cause { FailsOnlyByFault self.old.failed self.new.failed result }
    {
        match self.folder.mark(file) {
            Ok(()) => Ok(()),
            Err(_error) => Err(self.fault()),
        }
    }
}
