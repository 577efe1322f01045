// A file that is read without the directory.
use crate::error::MemoryError;
use flow_directory::FileReader;

/// A copy of the octets of a file.
#[derive(Drop)]
pub struct MemoryReader {
    pub(crate) number: u64,
    pub(crate) octets: Vec<u8>,
}

impl FileReader for MemoryReader {
    type Error = MemoryError;

    ghost use Rattle.std.specs.Prelude.{true};

    ghost honest = { λ _. true };

    ghost number = { λ r. r.number };

    ghost reads = { λ r. r.octets.items };

    fn file(&self) -> u64 {
        self.number
    }

    fn read(&self, at: u64, octets: &mut [u8]) -> Result<(), MemoryError> {
        copy(&self.octets, at, octets)
    }
}

ghost use Rattle.std.specs.Prelude.{◌≡◌, length, take, drop, OnOk};

/// Copies octets from a place on: as many as asked, or it fails.
pub(crate) fn copy(octets: &[u8], at: u64, to: &mut [u8]) -> Result<(), MemoryError>
    ensures { OnOk result (to.new ≡ take (length to.old) (drop at octets.now)) }
{
    let count = octets.len() as u64;
    if at > count || to.len() as u64 > count - at {
        return Err(MemoryError::Refused);
    }
    let at = at as usize;
    to.copy_from_slice(&octets[at..at + to.len()]);
    Ok(())
}
