//! What is counted of messages.

ghost use Rattle.std.specs.Prelude.{◌≡◌};
ghost use Rattle.flow_inspect.specs.Reports.{together, with_tally};

use crate::lasting::{Lasted, both_lasted};
use crate::span::{Span, hull};

/// What a File has of one Observation Domain, or of all. Counts stop at 2^64 - 1.
#[derive(Clone, Copy)]
pub(crate) struct Tally {
    pub(crate) messages: u64,
    /// Data records of Templates.
    pub(crate) records: u64,
    /// Data records of Options Templates.
    pub(crate) options: u64,
    /// Data Sets without a definition in force.
    pub(crate) unread: u64,
    /// The octets of these, with those of their headers.
    pub(crate) unread_octets: u64,
    /// Template records that replace a different definition of their ID, which is in force.
    pub(crate) replaced: u64,
    /// Messages whose Sequence Number is past the due one.
    pub(crate) gaps: u64,
    /// How many records are missing there.
    pub(crate) missing: u64,
    /// Messages whose Sequence Number is before the due one.
    pub(crate) backwards: u64,
    /// The least Export Time, in seconds since 1970-01-01 00:00 UTC.
    pub(crate) first: u32,
    /// The greatest Export Time.
    pub(crate) last: u32,
    /// The least and the greatest start of the flows.
    pub(crate) starts: Option<Span>,
    /// How long the flows last.
    pub(crate) lasted: Lasted,
    /// Flows that start at the Export Time of their message.
    pub(crate) placed: u64,
    /// Flows whose octets or packets are counted by an element that isn't summed.
    pub(crate) uncounted: u64,
    /// Flows whose record has a sampling rate.
    pub(crate) sampled: u64,
}

/// What is counted of two parts of a File, together.
fn together(a: Tally, b: Tally) -> Tally
    ensures { result ≡ together a b }
{
    Tally {
        messages: a.messages.saturating_add(b.messages),
        records: a.records.saturating_add(b.records),
        options: a.options.saturating_add(b.options),
        unread: a.unread.saturating_add(b.unread),
        unread_octets: a.unread_octets.saturating_add(b.unread_octets),
        replaced: a.replaced.saturating_add(b.replaced),
        gaps: a.gaps.saturating_add(b.gaps),
        missing: a.missing.saturating_add(b.missing),
        backwards: a.backwards.saturating_add(b.backwards),
        first: a.first.min(b.first),
        last: a.last.max(b.last),
        starts: hull(a.starts, b.starts),
        lasted: both_lasted(a.lasted, b.lasted),
        placed: a.placed.saturating_add(b.placed),
        uncounted: a.uncounted.saturating_add(b.uncounted),
        sampled: a.sampled.saturating_add(b.sampled),
    }
}

/// What is counted of some domains and one more, together.
pub(crate) fn with_tally(whole: Option<Tally>, tally: Tally) -> Tally
    ensures { result ≡ with_tally whole tally }
{
    match whole {
        Some(whole) => together(whole, tally),
        None => tally,
    }
}
