// A file of the system that is read without the directory.
use crate::error::SystemError;
use crate::first_fault::FirstFault;
use crate::place::{Place, read_file};
use crate::system::Lockable;
use flow_directory::{CallError, FileReader};
use std::alloc::AllocGlobal;
use std::fs::Files;
use std::os::unix::fs::FileExt;
use std::sync::Arc;

/// A file of a folder. It is opened at each read, so that many need no open files; the folder stays locked as long as
/// one of them exists.
#[derive(Drop)]
pub struct SystemReader<'a, R: Files> {
    pub(crate) rt: &'a R,
    pub(crate) first_fault: Option<&'a FirstFault>,
    pub(crate) place: Arc<Place<R::File>>,
    pub(crate) file: u64,
}

impl<R: Files + Drop> SystemReader<'_, R> {
    /// Notes what the system said of a call that failed, but where memory was refused.
    fn note(&self, error: &SystemError) {
        if let Some(first) = self.first_fault {
            if !error.is_out_of_memory() {
                first.note(&error.said);
            }
        }
    }
}

impl<R: Files + AllocGlobal + Drop> FileReader for SystemReader<'_, R>
where
    R::File: FileExt + Lockable,
{
    type Error = SystemError;

    ghost use Rattle.std.specs.Prelude.{false, []};

    ghost honest = { λ _. false };

    ghost number = { λ f. f.file };

    ghost reads = { λ _. [] };

    fn file(&self) -> u64 {
        self.file
    }

    fn read(&self, at: u64, octets: &mut [u8]) -> Result<(), SystemError> {
        match read_file(self.rt, self.place.path.as_str(), self.file, at, octets) {
            Ok(()) => Ok(()),
            Err(said) => {
                let error = SystemError::from(said);
                self.note(&error);
                Err(error)
            }
        }
    }
}
