// A frozen file of a memory disk.
ghost use Rattle.std.specs.Prelude.{◌≡◌, true, length};
ghost use Rattle.std.specs.Arc.{arc_value};

use flow_disk::{DiskError, Faults, MayFail, SealedFile};
use std::convert::Infallible;
use std::sync::Arc;

/// A frozen file of a memory disk. Its reads fail only where memory is refused.
#[derive(Drop)]
pub struct MemorySealed {
    pub(crate) number: u64,
    octets: Arc<Vec<u8>>,
}

impl MemorySealed {
    pub(crate) fn new(number: u64, octets: Arc<Vec<u8>>) -> Self
        ensures { result ≡ record { number = number; octets = octets } }
    {
        MemorySealed { number, octets }
    }
}

impl MayFail for MemorySealed {
    type Failure = Infallible;
}

impl SealedFile for MemorySealed {
    ghost use Rattle.std.specs.Prelude.{refl};

    ghost octets = { λ s. (arc_value s.octets).items };

    ghost number = { λ s. s.number };

    ghost size = { λ s. length (arc_value s.octets).items };

    ghost honest = { λ _. true };

    ghost can_fail = { λ _ at count. ⊥ };

    ghost whole = { λ s h. refl };

    fn file(&self) -> u64 {
        self.number
    }

    fn length(&self) -> u64 {
        self.octets.len() as u64
    }

    fn read_into(
        &self,
        _faults: &mut Faults<Self>,
        at: u64,
        buffer: &mut [u8],
    ) -> Result<(), DiskError> {
        let at = at as usize;
        let end = at + buffer.len();
        buffer.copy_from_slice(&self.octets[at..end]);
        Ok(())
    }
}
