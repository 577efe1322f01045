//! The removal of files that no manifest names any more.

ghost use Rattle.std.specs.Prelude.{◌≡◌, ◌<◌, ◌∷◌, ℕ, false, vec_capacity, vec_len, IfOk};
ghost use Rattle.flow_disk.specs.Cause.{HasCause};
ghost use Rattle.flow_archive.specs.JobAnswers.{AnswersRetire, IsRetired};
ghost use Rattle.flow_archive.specs.Seen.{IsStep};

use crate::archive::Archive;
use crate::frozen::FrozenFile;
use crate::refusal::ArchiveError;
use flow_disk::{Disk, SealedFile};

impl<D: Disk> Archive<D> {
    /// Removes the oldest of the files that wait for their removal, and answers its number. It takes no memory.
    /// Refusals, the first that holds: 49 Closed; 48 NothingToRetire; and 47 Pinned, where a directory or a snapshot
    /// has the file too. After 30 Fault the archive is closed.
    pub fn retire(&mut self) -> Result<u64, ArchiveError>
        ensures answers { AnswersRetire self.old.closed self.old.state result self.new.state }
        // At Ok the disk lists it no more.
        ensures removed { IfOk result (λ file. (D.marks self.new.disk file).listed ≡ false) }
        ensures step { IsStep D.Disk self.old self.new
            (λ after. (file : ℕ) × IsRetired self.old.state file after) result }
        ensures cause { HasCause ArchiveError.Fault (D.faults self.old.disk) (D.faults self.new.disk) result }
    {
        if self.closed {
            return Err(ArchiveError::Closed);
        }
        if self.waiting.is_empty() {
            return Err(ArchiveError::NothingToRetire);
        }
        let oldest = take_oldest(&mut self.waiting);
        let number = oldest.number();
        match oldest.into_file() {
            Ok(file) => match self.disk.retire(file) {
                Ok(()) => Ok(number),
                Err(_) => {
                    self.closed = true;
                    Err(ArchiveError::Fault)
                }
            },
            Err(oldest) => {
                put_back(&mut self.waiting, oldest);
                Err(ArchiveError::Pinned)
            }
        }
    }
}

/// The oldest of these files, which leaves room for one.
fn take_oldest<S: SealedFile>(files: &mut Vec<FrozenFile<S>>) -> FrozenFile<S>
    requires { 0 < vec_len files.old }
    ensures items { files.old.items ≡ result ∷ files.new.items }
    ensures room { vec_len files.new < vec_capacity files.new }
{
    files.remove(0)
}

/// Puts a file before the others. It takes no memory.
fn put_back<S: SealedFile>(files: &mut Vec<FrozenFile<S>>, file: FrozenFile<S>)
    requires { vec_len files.old < vec_capacity files.old }
    ensures { files.new.items ≡ file ∷ files.old.items }
{
    let Ok(()) = files.insert(0, file) else {
        unreachable!();
    };
}
