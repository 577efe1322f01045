//! What messages show of records that aren't read, or are summed otherwise than their exporter may mean.

ghost use Rattle.std.specs.Prelude.{◌≡◌};
ghost use Rattle.flow_codec.specs.Losses.{both_caveats, both_losses, elsewhere_of, gap_of, joined_losses, losses_of};
ghost use Rattle.flow_codec.specs.Losses.{no_caveats, no_losses, none_after};

use crate::walk::Walked;

/// A Sequence Number that is so far past the due one, modulo 2^32, or farther, is before it.
const HALF: u32 = 0x8000_0000;

/// Flows whose sums may be other than their exporter means. Counts stop at 2^64 - 1.
#[derive(Clone, Copy, Debug, PartialEq, Eq)]
pub struct CaveatCounts {
    /// Flows that start at the Export Time of their message: their record has no start that counts.
    pub placed: u64,
    /// Flows whose octets or packets are counted by an element that isn't summed.
    pub uncounted: u64,
    /// Flows whose record has a sampling rate, which no sum is multiplied by.
    pub sampled: u64,
}

impl CaveatCounts {
    /// Those of no flow.
    pub fn none() -> CaveatCounts
        ensures { result ≡ no_caveats }
    {
        CaveatCounts {
            placed: 0,
            uncounted: 0,
            sampled: 0,
        }
    }

    /// With those of other flows.
    pub fn and(self, more: CaveatCounts) -> CaveatCounts
        ensures { result ≡ both_caveats self more }
    {
        CaveatCounts {
            placed: self.placed.saturating_add(more.placed),
            uncounted: self.uncounted.saturating_add(more.uncounted),
            sampled: self.sampled.saturating_add(more.sampled),
        }
    }
}

/// What messages show of records that aren't read: they are in a Set without a definition in force, or Sequence Numbers
/// leave them out; and of flows that are summed otherwise than their exporter may mean. Counts stop at 2^64 - 1.
#[derive(Clone, Copy, Debug, PartialEq, Eq)]
pub struct Losses {
    /// Data Sets without a definition in force.
    pub unread: u64,
    /// The Observation Domain of the first of them.
    pub domain: Option<u32>,
    /// How many of them other domains have.
    pub elsewhere: u64,
    /// Messages whose Sequence Number is past the due one (RFC 7011, section 3.1).
    pub gaps: u64,
    /// How many records are missing there.
    pub missing: u64,
    /// Flows that are summed otherwise.
    pub caveats: CaveatCounts,
}

impl Losses {
    /// Those of no message.
    pub fn none() -> Losses
        ensures { result ≡ no_losses }
    {
        Losses {
            unread: 0,
            domain: None,
            elsewhere: 0,
            gaps: 0,
            missing: 0,
            caveats: CaveatCounts::none(),
        }
    }

    /// Those of a message, at which a Sequence Number was due, or any was right, without what its flows are summed as.
    pub fn of(walked: &Walked, due: Option<u32>) -> Losses
        ensures { result ≡ losses_of walked.now due }
    {
        let unread = walked.unread.sets as u64;
        let past = match due {
            Some(due) => gap_of(walked.header.sequence.wrapping_sub(due)),
            None => 0,
        };
        Losses {
            unread,
            domain: if unread == 0 {
                None
            } else {
                Some(walked.header.domain)
            },
            elsewhere: 0,
            gaps: if past == 0 { 0 } else { 1 },
            missing: u64::from(past),
            caveats: CaveatCounts::none(),
        }
    }

    /// Of no message after these: a piece of messages after them, as a batch, is counted from here on.
    pub fn none_after(self) -> Losses
        ensures { result ≡ none_after self }
    {
        Losses {
            domain: self.domain,
            ..Losses::none()
        }
    }

    /// With those of one message after these.
    pub fn and(self, message: Losses) -> Losses
        ensures { result ≡ both_losses self message }
    {
        Losses {
            unread: self.unread.saturating_add(message.unread),
            domain: self.domain.or(message.domain),
            elsewhere: self
                .elsewhere
                .saturating_add(elsewhere_of(self.domain, message)),
            gaps: self.gaps.saturating_add(message.gaps),
            missing: self.missing.saturating_add(message.missing),
            caveats: self.caveats.and(message.caveats),
        }
    }

    /// With those of a piece of messages after these, which was counted from `none_after` on.
    pub fn and_piece(self, piece: Losses) -> Losses
        ensures { result ≡ joined_losses self piece }
    {
        Losses {
            unread: self.unread.saturating_add(piece.unread),
            domain: piece.domain,
            elsewhere: self.elsewhere.saturating_add(piece.elsewhere),
            gaps: self.gaps.saturating_add(piece.gaps),
            missing: self.missing.saturating_add(piece.missing),
            caveats: self.caveats.and(piece.caveats),
        }
    }
}

/// How many records a Sequence Number so far past the due one, modulo 2^32, leaves out: none where it is before it.
fn gap_of(distance: u32) -> u32
    ensures { result ≡ gap_of distance }
{
    if distance < HALF { distance } else { 0 }
}

/// How many unread Sets are of another domain than this first one.
fn elsewhere_of(first: Option<u32>, more: Losses) -> u64
    ensures { result ≡ elsewhere_of first more }
{
    match (first, more.domain) {
        (Some(first), Some(domain)) => {
            if first == domain {
                more.elsewhere
            } else {
                more.unread
            }
        }
        _ => more.elsewhere,
    }
}
