// A file that is read without the directory.
ghost use Rattle.std.specs.Prelude.{◌≡◌, ℕ, Bool, IsTrue, List, length, take, drop, OnOk};

use crate::CallError;

/// A value that reads a file of a directory as the file was when the value was made. Nobody changes the file as long as
/// the directory has lent it.
pub trait FileReader: Drop {
    /// Why a read fails.
    type Error: CallError;

    /// Whether the directory that lent it keeps its rules.
    ghost honest: { Self → Bool };

    /// The file's number.
    ghost number: { Self → ℕ };

    /// What the file reads as.
    ghost reads: { Self → List ℕ };

    /// The file's number.
    fn file(&self) -> u64
        ensures { result ≡ number self.now };

    /// Reads octets from a place on (openat, pread): as many as asked, or it fails.
    fn read(&self, at: u64, octets: &mut [u8]) -> Result<(), Self::Error>
        ensures { IsTrue (honest self.now)
            → OnOk result (octets.new ≡ take (length octets.old) (drop at (reads self.now))) };
}
