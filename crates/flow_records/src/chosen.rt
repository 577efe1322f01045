//! The records of a message whose flows start in a span.

ghost use Rattle.std.specs.Prelude.{◌≡◌, nat_le, nat_lt, ◌&&◌, []};
ghost use Rattle.flow_records.specs.Holding.{span_of};

use flow_codec::{Definition, Header, RecordSink};
use flow_measure::start_of_flow;
use std::alloc::{AllocError, Global};

/// A data record: when its flow starts, the header of its message, the ID and definition of its template, and how many
/// octets it has.
#[derive(Drop)]
pub(crate) struct ChosenRecord {
    pub(crate) start: u32,
    pub(crate) header: Header,
    pub(crate) id: u16,
    pub(crate) definition: Definition,
    pub(crate) len: usize,
}

/// Holds the data records of flows that start from `from` on and before `to`, their octets one after the other. Its
/// memory is kept for the next message.
#[derive(Drop)]
pub(crate) struct ChosenRecords {
    pub(crate) records: Vec<ChosenRecord>,
    pub(crate) octets: Vec<u8>,
    pub(crate) from: u64,
    pub(crate) to: u64,
}

impl ChosenRecords {
    /// Of a span, with nothing held.
    pub(crate) fn new(alloc: Global, from: u64, to: u64) -> Self
        ensures from { result.from ≡ from }
        ensures to { result.to ≡ to }
    {
        ChosenRecords {
            records: Vec::new(alloc),
            octets: Vec::new(alloc),
            from,
            to,
        }
    }

    /// Leaves nothing held.
    pub(crate) fn clear(&mut self)
        ensures records { self.new.records.items ≡ [] }
        ensures octets { self.new.octets.items ≡ [] }
        ensures span { span_of self.new ≡ span_of self.old }
    {
        self.records.clear();
        self.octets.clear();
    }

    /// Whether a start is within.
    fn takes(&self, start: u32) -> bool
        ensures { result ≡ (nat_le self.now.from start && nat_lt start self.now.to) }
    {
        let start = u64::from(start);
        self.from <= start && start < self.to
    }
}

impl RecordSink for ChosenRecords {
    ghost use Rattle.flow_records.specs.Holding.{span_of, HasTaken};

    type Error = AllocError;

    type Kept = (u64, u64);

    ghost holds = { λ s taken t. HasTaken s taken t };

    ghost refuses = { λ _ _ _ _. Unit {0} };

    ghost kept = { λ s. span_of s };

    fn record(
        &mut self,
        header: &Header,
        id: u16,
        definition: &Definition,
        octets: &[u8],
    ) -> Result<(), AllocError> {
        if definition.options() {
            return Ok(());
        }
        let start = start_of_flow(header, definition, octets);
        if !self.takes(start) {
            return Ok(());
        }
        self.records.push(ChosenRecord {
            start,
            header: *header,
            id,
            definition: definition.clone()?,
            len: octets.len(),
        })?;
        self.octets.extend_from_slice(octets)?;
        Ok(())
    }
}
