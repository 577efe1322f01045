// Frozen files of a folder.
ghost use Rattle.std.specs.Prelude.{◌≡◌, ◌≢◌, ℕ, true, false, IsTrue, is_some, length, IfOk, IfNone, OnOk, OnErr};
ghost use Rattle.std.specs.Ordering.{nat_cmp};
ghost use Rattle.std.specs.BTreeMap.{get};
ghost use Rattle.flow_directory.specs.File.{held_of, IsClean};
ghost use Rattle.flow_folder_disk.specs.Known.{IsSettled, IsReached, IsSeen, Leaves};

use crate::folder::Folder;
use flow_directory::{Access, CallError, Directory, FileReader, Status};

impl<S: Directory> Folder<S> {
    /// A value that reads a file of so many octets, which nobody may write from now on. Where the system doesn't take
    /// the permission away the file counts as doubtful when it is opened next, and nothing else differs.
    pub(crate) fn seal(&mut self, file: u64, size: u64) -> Result<S::Reader, S::Error>
        requires absent { is_some (get nat_cmp self.old.pending file) ≡ false }
        requires settled { IsTrue (S.honest self.old.system) → IsSettled (S.files self.old.system file) }
        ensures honest { S.honest self.new.system ≡ S.honest self.old.system }
        ensures pending { self.new.pending ≡ self.old.pending }
        ensures size { IsTrue (S.honest self.old.system)
            → OnOk result (size ≡ length (S.files self.old.system file).held.reads) }
        ensures reader { IfOk result (λ reader. (S.Reader.number reader ≡ file)
            × (S.Reader.honest reader ≡ S.honest self.old.system)) }
        ensures octets { IsTrue (S.honest self.old.system) → IfOk result
            (λ reader. S.Reader.reads reader ≡ (S.files self.old.system file).held.reads) }
        ensures held { IsTrue (S.honest self.old.system)
            → (S.files self.new.system file).held ≡ (S.files self.old.system file).held }
        ensures linked { IsTrue (S.honest self.old.system)
            → (S.files self.new.system file).linked ≡ (S.files self.old.system file).linked }
        ensures settled { IsTrue (S.honest self.old.system) → IsSettled (S.files self.new.system file) }
        ensures lent { IsTrue (S.honest self.old.system) → OnErr result
            ((S.files self.new.system file).lent ≡ (S.files self.old.system file).lent) }
        ensures leaves { IsTrue (S.honest self.old.system) → Leaves S.files S.moment S.left_since self.old.system
            self.new.system file (held_of (S.files self.old.system)) }
    {
        self.shut(file, size)?;
        self.system.lend(file)
    }

    /// Takes the permission to write a file of so many octets from everyone. An absent one has none.
    fn shut(&mut self, file: u64, size: u64) -> Result<(), S::Error>
        requires absent { is_some (get nat_cmp self.old.pending file) ≡ false }
        requires clean { IsTrue (S.honest self.old.system) → IsClean (S.files self.old.system file) }
        ensures honest { S.honest self.new.system ≡ S.honest self.old.system }
        ensures pending { self.new.pending ≡ self.old.pending }
        ensures size { IsTrue (S.honest self.old.system)
            → OnOk result (size ≡ length (S.files self.old.system file).held.reads) }
        ensures reached { IsTrue (S.honest self.old.system)
            → IsReached (S.files self.old.system file) (S.files self.new.system file) }
        ensures leaves { IsTrue (S.honest self.old.system) → Leaves S.files S.moment S.left_since self.old.system
            self.new.system file (held_of (S.files self.old.system)) }
    {
        let found = self.system.status(file)?;
        self.shut_found(file, size, found)
    }

    /// The same, of a file as it was found.
    fn shut_found(&mut self, file: u64, size: u64, found: Option<Status>) -> Result<(), S::Error>
        requires absent { is_some (get nat_cmp self.old.pending file) ≡ false }
        requires clean { IsTrue (S.honest self.old.system) → IsClean (S.files self.old.system file) }
        requires none { IsTrue (S.honest self.old.system) → IfNone found
            ((S.files self.old.system file).linked ≡ false) }
        ensures honest { S.honest self.new.system ≡ S.honest self.old.system }
        ensures pending { self.new.pending ≡ self.old.pending }
        ensures size { IsTrue (S.honest self.old.system)
            → OnOk result (size ≡ length (S.files self.old.system file).held.reads) }
        ensures reached { IsTrue (S.honest self.old.system)
            → IsReached (S.files self.old.system file) (S.files self.new.system file) }
        ensures leaves { IsTrue (S.honest self.old.system) → Leaves S.files S.moment S.left_since self.old.system
            self.new.system file (held_of (S.files self.old.system)) }
    {
        match found {
            Some(named) => self.shut_named(file, size, named.read_only),
            None if size == 0 => Ok(()),
            None => Err(S::Error::other_length()),
        }
    }

    /// The same, of a file that exists.
    fn shut_named(&mut self, file: u64, size: u64, read_only: bool) -> Result<(), S::Error>
        requires absent { is_some (get nat_cmp self.old.pending file) ≡ false }
        requires clean { IsTrue (S.honest self.old.system) → IsClean (S.files self.old.system file) }
        ensures honest { S.honest self.new.system ≡ S.honest self.old.system }
        ensures pending { self.new.pending ≡ self.old.pending }
        ensures size { IsTrue (S.honest self.old.system)
            → OnOk result (size ≡ length (S.files self.old.system file).held.reads) }
        ensures reached { IsTrue (S.honest self.old.system)
            → IsReached (S.files self.old.system file) (S.files self.new.system file) }
        ensures leaves { IsTrue (S.honest self.old.system) → Leaves S.files S.moment S.left_since self.old.system
            self.new.system file (held_of (S.files self.old.system)) }
    {
        let opened = self.system.open(file, Access::Read)?;
        if opened.length != size {
            self.system.close(file);
            return Err(S::Error::other_length());
        }
        self.close_read_only(file, read_only);
        Ok(())
    }

    /// Closes a file, and takes the permission to write it from everyone before, where anyone has it.
    fn close_read_only(&mut self, file: u64, read_only: bool)
        requires absent { is_some (get nat_cmp self.old.pending file) ≡ false }
        requires clean { IsTrue (S.honest self.old.system) → IsClean (S.files self.old.system file) }
        ensures honest { S.honest self.new.system ≡ S.honest self.old.system }
        ensures pending { self.new.pending ≡ self.old.pending }
        ensures reached { IsTrue (S.honest self.old.system)
            → IsReached (S.files self.old.system file) (S.files self.new.system file) }
        ensures leaves { IsTrue (S.honest self.old.system) → Leaves S.files S.moment S.left_since self.old.system
            self.new.system file (held_of (S.files self.old.system)) }
    {
        if read_only {
            self.system.close(file);
            return;
        }
        let _ = self.system.set_read_only(file, true);
        self.system.close(file);
    }

    /// Takes back a value that reads a file.
    pub(crate) fn take_back(&mut self, reader: S::Reader)
        ensures honest { S.honest self.new.system ≡ S.honest self.old.system }
        ensures pending { self.new.pending ≡ self.old.pending }
        ensures held { IsTrue (S.honest self.old.system)
            → (S.files self.new.system (S.Reader.number reader)).held
            ≡ (S.files self.old.system (S.Reader.number reader)).held }
        ensures linked { IsTrue (S.honest self.old.system)
            → (S.files self.new.system (S.Reader.number reader)).linked
            ≡ (S.files self.old.system (S.Reader.number reader)).linked }
        ensures settled { IsTrue (S.honest self.old.system)
            → IsSettled (S.files self.old.system (S.Reader.number reader))
            → IsSettled (S.files self.new.system (S.Reader.number reader)) }
        ensures free { IsTrue (S.honest self.old.system)
            → (S.files self.new.system (S.Reader.number reader)).lent ≡ false }
        ensures leaves { IsTrue (S.honest self.old.system) → Leaves S.files S.moment S.left_since self.old.system
            self.new.system (S.Reader.number reader) (held_of (S.files self.old.system)) }
    {
        self.system.take_back(reader);
    }
}
