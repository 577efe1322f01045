//! What takes the flows of a part's data records.

ghost use Rattle.std.specs.Prelude.{◌≡◌, nat_le, nat_lt, option_map, ◌&&◌};
ghost use Rattle.flow_codec.specs.Losses.{both_caveats};
ghost use Rattle.flow_codec.specs.Replaced.{one_if};
ghost use Rattle.flow_measure.specs.Span.{with_start};
ghost use Rattle.flow_segment.specs.Spans.{caveats_where};

use flow_codec::{CaveatCounts, Definition, Header, RecordSink};
use flow_measure::{Adder, Flow, PartSpan, SumError, flow_of, own_start_of};
use std::alloc::AllocError;
use std::convert::Infallible;

/// Adds flows to rows, up to the first with which a sum would pass its type.
#[derive(Drop)]
pub struct Adding<T> {
    /// The sums, with the flows of the records taken.
    pub rows: T,
    /// Whether a sum would pass its type.
    pub spent: bool,
}

impl<T: Adder> RecordSink for Adding<T> {
    ghost use Rattle.flow_segment.specs.PartFlows.{HasAdded};

    type Error = AllocError;

    type Kept = T::Kept;

    ghost holds = { λ start taken now. HasAdded (T.table start.rows) taken (T.table now.rows) now.spent };

    ghost refuses = { λ _ _ _ _. Unit {0} };

    ghost kept = { λ sink. T.kept sink.rows };

    fn record(
        &mut self,
        header: &Header,
        _id: u16,
        definition: &Definition,
        octets: &[u8],
    ) -> Result<(), AllocError> {
        if definition.options() {
            return Ok(());
        }
        let flow = flow_of(header, definition, octets);
        if self.spent {
            return Ok(());
        }
        match self.rows.add_flow(&flow) {
            Ok(()) => Ok(()),
            Err(SumError::SumSpent) => {
                self.spent = true;
                Ok(())
            }
            Err(SumError::OutOfMemory) => Err(AllocError),
        }
    }
}

/// Takes the flows that start from one moment on and before another.
#[derive(Drop)]
pub struct Chosen {
    /// The flows of the records taken, in their order.
    pub flows: Vec<Flow>,
    /// The first second.
    pub from: u64,
    /// The second after the last one.
    pub to: u64,
}

impl Chosen {
    /// Whether a flow starts within.
    fn takes(&self, flow: &Flow) -> bool
        ensures { result ≡ (nat_le self.now.from flow.now.start && nat_lt flow.now.start self.now.to) }
    {
        let start = u64::from(flow.start);
        self.from <= start && start < self.to
    }
}

impl RecordSink for Chosen {
    ghost use Rattle.flow_segment.specs.PartFlows.{HasChosen};

    type Error = AllocError;

    type Kept = ();

    ghost holds = { λ start taken now. HasChosen start.from start.to start.flows.items taken now.from now.to
        now.flows.items };

    ghost refuses = { λ _ _ _ _. Unit {0} };

    ghost kept = { λ _. tt };

    fn record(
        &mut self,
        header: &Header,
        _id: u16,
        definition: &Definition,
        octets: &[u8],
    ) -> Result<(), AllocError> {
        if definition.options() {
            return Ok(());
        }
        let flow = flow_of(header, definition, octets);
        if self.takes(&flow) {
            self.flows.push(flow)?;
        }
        Ok(())
    }
}

/// Counts data records, notes when their flows start, where it is given a span, and counts the flows that are summed
/// otherwise than their exporter may mean, where it is given counts.
#[derive(Drop)]
pub struct Noting {
    /// How many records were taken, modulo 2^32.
    pub records: u32,
    /// When their flows start, with those of before; none where starts aren't noted.
    pub span: Option<PartSpan>,
    /// Flows that are summed otherwise, with those of before; none where they aren't counted.
    pub caveats: Option<CaveatCounts>,
}

/// One where this holds.
fn one_if(test: bool) -> u64
    ensures { result ≡ one_if test }
{
    if test { 1 } else { 0 }
}

/// What is counted of the flow of a record of a Template, which may have no start of its own.
fn caveats_of(definition: &Definition, placed: bool) -> CaveatCounts
    ensures { result ≡ caveats_where placed definition.now }
{
    CaveatCounts {
        placed: one_if(placed),
        uncounted: one_if(definition.is_uncounted()),
        sampled: one_if(definition.is_sampled()),
    }
}

/// Counts what is to be counted of one flow more, where it is counted.
#[inline(always)]
fn count_flow(caveats: &mut Option<CaveatCounts>, definition: &Definition, placed: bool)
    ensures { caveats.new ≡ option_map (λ c. both_caveats c (caveats_where placed definition.now)) caveats.old }
{
    let Some(counts) = *caveats else {
        return;
    };
    *caveats = Some(counts.and(caveats_of(definition, placed)));
}

/// With one start more, where starts are noted.
fn with_start(span: Option<PartSpan>, start: u32) -> Option<PartSpan>
    ensures { result ≡ option_map (λ s. with_start start s) span }
{
    Some(span?.with(start))
}

impl RecordSink for Noting {
    ghost use Rattle.flow_measure.specs.Caveats.{with_caveats};
    ghost use Rattle.flow_segment.specs.Spans.{HasNoted};

    type Error = Infallible;

    type Kept = ();

    ghost holds = { λ start taken now. HasNoted start.records start.span taken now.records now.span
        × (now.caveats ≡ option_map (λ c. with_caveats c taken) start.caveats) };

    ghost refuses = { λ _ _ _ _. ⊥ };

    ghost kept = { λ _. tt };

    fn record(
        &mut self,
        header: &Header,
        _id: u16,
        definition: &Definition,
        octets: &[u8],
    ) -> Result<(), Infallible> {
        self.records = self.records.wrapping_add(1);
        if definition.options() {
            return Ok(());
        }
        let own = own_start_of(definition, octets);
        count_flow(&mut self.caveats, definition, own.is_none());
        self.span = with_start(self.span, own.unwrap_or(header.time));
        Ok(())
    }
}
