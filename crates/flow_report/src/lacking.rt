//! What messages lack, counted beside their sums.

ghost use Rattle.std.specs.Prelude.{◌≡◌, ◌+◌, ◌%◌, ◌^◌, [], nat_eq, OnOk};
ghost use Rattle.std.specs.Map.{lookup};
ghost use Rattle.indexmap.specs.IndexMap.{insert_entry};
ghost use Rattle.flow_codec.specs.Losses.{both_losses, losses_of, no_losses};

use flow_codec::{Definition, Header, Losses, RecordSink, Walked};
use flow_measure::{SumError, Totals};
use indexmap::IndexMap;
use std::alloc::{AllocError, Global};

/// Adds the flows of a message to sums, and counts its data records, modulo 2^32.
#[derive(Drop)]
pub(crate) struct CountedTotals {
    pub(crate) totals: Totals,
    pub(crate) records: u32,
}

impl RecordSink for CountedTotals {
    ghost use Rattle.std.specs.Prelude.{◌≡◌, ◌+◌, ◌%◌, ◌^◌, length};
    ghost use Rattle.flow_measure.specs.Sinks.{TookFlows, RefuseFlow};

    type Error = SumError;

    type Kept = ();

    ghost holds = { λ start taken now. TookFlows start.totals.rows taken now.totals.rows
        × (now.records ≡ (start.records + length taken) % 2 ^ 32) };

    ghost refuses = { λ start taken x e. RefuseFlow start.totals.rows taken x e };

    ghost kept = { λ _. tt };

    fn record(
        &mut self,
        header: &Header,
        id: u16,
        definition: &Definition,
        octets: &[u8],
    ) -> Result<(), SumError> {
        self.records = self.records.wrapping_add(1);
        self.totals.record(header, id, definition, octets)
    }
}

/// What messages show of records that aren't read, and the Sequence Number that is due in each domain.
#[derive(Drop)]
pub(crate) struct Lacking {
    losses: Losses,
    due: IndexMap<u32, u32>,
}

impl Lacking {
    /// Of no message.
    pub(crate) fn new(alloc: Global) -> Lacking
        ensures losses { result.losses ≡ no_losses }
        ensures due { result.due.entries ≡ [] }
    {
        Lacking {
            losses: Losses::none(),
            due: IndexMap::new(alloc),
        }
    }

    /// With one message more, which has so many data records.
    pub(crate) fn note(&mut self, walked: &Walked, records: u32) -> Result<(), AllocError>
        ensures losses { OnOk result (self.new.losses ≡ both_losses self.old.losses
            (losses_of walked.now (lookup (nat_eq walked.now.header.domain) self.old.due.entries))) }
        ensures due { OnOk result (self.new.due.entries
            ≡ insert_entry nat_eq self.old.due.entries walked.now.header.domain
            ((walked.now.header.sequence + records) % 2 ^ 32)) }
    {
        let header = &walked.header;
        let losses = Losses::of(walked, self.due.get(&header.domain).copied());
        let due = header.sequence.wrapping_add(records);
        match self.due.insert(header.domain, due) {
            Ok(_) => {}
            Err(_) => return Err(AllocError),
        }
        self.losses = self.losses.and(losses);
        Ok(())
    }

    /// What they show.
    pub(crate) fn losses(&self) -> Losses
        ensures { result ≡ self.now.losses }
    {
        self.losses
    }
}
