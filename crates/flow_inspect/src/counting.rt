//! The data records of a message.

ghost use Rattle.std.specs.Prelude.{◌≡◌, ◌+◌, ◌-◌, ◌^◌, min, if◌then◌else◌};
ghost use Rattle.flow_codec.specs.Fields.{fields_in};
ghost use Rattle.flow_inspect.specs.Lasting.{ends_of, lasting, with_lasting};

use crate::lasting::{Lasted, lasted_after, lasting};
use crate::span::{Span, widened};
use flow_codec::{Definition, Header, RecordSink};
use flow_measure::{flow_of, has_no_start};
use std::convert::Infallible;

/// How many data records a message has, by the kind of their definition, when their flows start, how long they last,
/// and how many of them have sums that may be other than their exporter means. Counts stop at 2^32 - 1, which no message
/// reaches.
#[derive(Clone, Copy)]
pub(crate) struct RecordCounts {
    /// Those of Templates.
    pub(crate) records: u32,
    /// Those of Options Templates.
    pub(crate) options: u32,
    /// The least and the greatest start of the flows, which the records of Templates are.
    pub(crate) starts: Option<Span>,
    /// How long the flows last.
    pub(crate) lasted: Lasted,
    /// Flows that start at the Export Time of the message.
    pub(crate) placed: u32,
    /// Flows whose octets or packets are counted by an element that isn't summed.
    pub(crate) uncounted: u32,
    /// Flows whose record has a sampling rate.
    pub(crate) sampled: u32,
}

/// What is counted of the flows so far, and of one more, where it has a start and an end.
fn with_flow(lasted: Lasted, definition: &Definition, octets: &[u8]) -> Lasted
    ensures { result ≡ with_lasting lasted (lasting (ends_of (fields_in definition.now.fields octets.now))) }
{
    match lasting(definition, octets) {
        Some(seconds) => lasted_after(lasted, seconds),
        None => lasted,
    }
}

/// A count, and one more where the test holds.
fn risen(count: u32, test: bool) -> u32
    ensures { result ≡ min (count + (if test then 1 else 0)) (2 ^ 32 - 1) }
{
    if test { count.saturating_add(1) } else { count }
}

impl RecordSink for RecordCounts {
    ghost use Rattle.flow_inspect.specs.Counting.{HasCounted};

    type Error = Infallible;

    type Kept = ();

    ghost holds = { λ start taken now. HasCounted start taken now };

    ghost refuses = { λ _ _ _ _. ⊥ };

    ghost kept = { λ _. tt };

    fn record(
        &mut self,
        header: &Header,
        _id: u16,
        definition: &Definition,
        octets: &[u8],
    ) -> Result<(), Infallible> {
        if definition.options() {
            self.options = self.options.saturating_add(1);
        } else {
            self.records = self.records.saturating_add(1);
            self.starts = widened(self.starts, flow_of(header, definition, octets).start);
            self.lasted = with_flow(self.lasted, definition, octets);
            self.placed = risen(self.placed, has_no_start(definition, octets));
            self.uncounted = risen(self.uncounted, definition.is_uncounted());
            self.sampled = risen(self.sampled, definition.is_sampled());
        }
        Ok(())
    }
}
