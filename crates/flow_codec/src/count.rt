//! The number of data records.

ghost use Rattle.std.specs.Prelude.{◌≡◌, ◌+◌, ◌%◌, ◌^◌, length};

use crate::message::Header;
use crate::sink::RecordSink;
use crate::templates::Definition;
use std::convert::Infallible;

/// Counts data records modulo 2^32, as sequence numbers do (RFC 7011, section 3.1). It refuses none.
#[derive(Clone, Copy, Debug)]
pub struct Count {
    pub records: u32,
}

impl RecordSink for Count {
    ghost use Rattle.std.specs.Prelude.{◌≡◌, ◌+◌, ◌%◌, ◌^◌, length};

    type Error = Infallible;

    type Kept = ();

    ghost holds = { λ s taken t. t.records % 2 ^ 32 ≡ (s.records + length taken) % 2 ^ 32 };

    ghost refuses = { λ _ _ _ _. ⊥ };

    ghost kept = { λ _. tt };

    fn record(
        &mut self,
        _header: &Header,
        _id: u16,
        _definition: &Definition,
        _octets: &[u8],
    ) -> Result<(), Infallible> {
        self.records = self.records.wrapping_add(1);
        Ok(())
    }
}
