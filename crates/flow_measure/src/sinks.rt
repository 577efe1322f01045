//! Sinks that take the flows of data records from a walk over messages.

ghost use Rattle.std.specs.Prelude.{◌≡◌, []};

use crate::counts::flow_of;
use crate::error::SumError;
use crate::flow::Flow;
use crate::rows::Rows;
use flow_codec::{Definition, Header, RecordSink};
use flow_elements::Items;
use std::alloc::{AllocError, Global};

/// Takes flows one after the other.
#[derive(Debug, Drop)]
pub struct Flows {
    /// The flows of the records taken, in their order.
    pub flows: Vec<Flow>,
}

impl Flows {
    /// No flows.
    pub fn new(alloc: Global) -> Self
        ensures { result.flows.items ≡ [] }
    {
        Flows {
            flows: Vec::new(alloc),
        }
    }
}

impl RecordSink for Flows {
    ghost use Rattle.std.specs.Prelude.{◌≡◌, ◌++◌};
    ghost use Rattle.flow_measure.specs.Flows.{flows_of_records};

    type Error = AllocError;

    type Kept = ();

    ghost holds = { λ start taken now. now.flows.items ≡ start.flows.items ++ flows_of_records taken };

    ghost refuses = { λ start taken x e. Unit {0} };

    ghost kept = { λ _. tt };

    fn record(
        &mut self,
        header: &Header,
        _id: u16,
        definition: &Definition,
        octets: &[u8],
    ) -> Result<(), AllocError> {
        if !definition.options() {
            self.flows.push(flow_of(header, definition, octets))?;
        }
        Ok(())
    }
}

/// Adds flows to rows.
#[derive(Drop)]
pub struct Totals {
    /// The sums, with the flows of the records taken.
    pub rows: Rows,
}

impl RecordSink for Totals {
    ghost use Rattle.flow_measure.specs.Sinks.{TookFlows, RefuseFlow};

    type Error = SumError;

    type Kept = ();

    ghost holds = { λ start taken now. TookFlows start.rows taken now.rows };

    ghost refuses = { λ start taken x e. RefuseFlow start.rows taken x e };

    ghost kept = { λ _. tt };

    fn record(
        &mut self,
        header: &Header,
        _id: u16,
        definition: &Definition,
        octets: &[u8],
    ) -> Result<(), SumError> {
        if !definition.options() {
            self.rows.add(&flow_of(header, definition, octets))?;
        }
        Ok(())
    }
}
