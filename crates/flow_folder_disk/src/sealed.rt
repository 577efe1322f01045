// A frozen file of a folder.
ghost use Rattle.std.specs.Prelude.{◌≡◌, IsTrue, length};

use flow_directory::{CallError, FileReader};
use flow_disk::{DiskError, Faults, MayFail, SealedFile};

/// Evidence that a read of a `FolderSealed` failed.
#[derive(Drop)]
pub struct ReadFailed {
    _made_here: (),
}

/// A frozen file of a folder.
#[derive(Drop)]
pub struct FolderSealed<R: FileReader> {
    pub(crate) reader: R,
    pub(crate) size: u64,
    ghost whole: { IsTrue (R.honest reader) → length (R.reads reader) ≡ size },
}

impl<R: FileReader> FolderSealed<R> {
    /// What this reads, as a frozen file of so many octets.
    pub fn new(reader: R, size: u64) -> Self
        requires { IsTrue (R.honest reader) → length (R.reads reader) ≡ size }
        ensures reader { result.reader ≡ reader }
        ensures size { result.size ≡ size }
    {
        FolderSealed { reader, size }
    }
}

impl<R: FileReader> MayFail for FolderSealed<R> {
    type Failure = ReadFailed;
}

impl<R: FileReader> SealedFile for FolderSealed<R> {
    ghost octets = { λ f. R.reads f.reader };

    ghost number = { λ f. R.number f.reader };

    ghost size = { λ f. f.size };

    ghost honest = { λ f. R.honest f.reader };

    ghost can_fail = { λ _ at count. Unit {0} };

    ghost whole = { λ f h. f.whole h };

    fn file(&self) -> u64 {
        self.reader.file()
    }

    fn length(&self) -> u64 {
        self.size
    }

    fn read_into(
        &self,
        faults: &mut Faults<Self>,
        at: u64,
        buffer: &mut [u8],
    ) -> Result<(), DiskError> {
        match self.reader.read(at, buffer) {
            Ok(()) => Ok(()),
            Err(error) if error.is_out_of_memory() => Err(DiskError::OutOfMemory),
            Err(_) => {
                faults.raise(&ReadFailed { _made_here: () });
                Err(DiskError::Fault)
            }
        }
    }
}
