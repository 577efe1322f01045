//! How many datagrams aren't accepted, by their refusals.

ghost use Rattle.std.specs.Prelude.{◌≡◌, get_or};
ghost use Rattle.flow_feed.specs.Datagrams.{AreNone, IsOneMore};

use flow_codec::MessageError;

/// The numbers below which are those of the refusals that a message may earn, from 1 on.
const NUMBERS: usize = 11;

/// How many datagrams weren't accepted, by the number of their refusal, from 1 to 10. Counts stop at 2^64 - 1.
#[derive(Clone, Copy, Debug, PartialEq, Eq)]
pub struct RefusedDatagrams {
    /// None has the number 0.
    pub counts: [u64; NUMBERS],
}

impl RefusedDatagrams {
    /// Of no datagram.
    pub fn none() -> RefusedDatagrams
        ensures { AreNone result.counts }
    {
        RefusedDatagrams {
            counts: [0; NUMBERS],
        }
    }

    /// One more has this fault.
    pub fn add(&mut self, fault: MessageError)
        ensures { IsOneMore fault self.old.counts self.new.counts }
    {
        let number = fault.code().number() as usize;
        if number < NUMBERS {
            self.counts[number] = self.counts[number].saturating_add(1);
        }
    }

    /// How many have the refusal of this number.
    pub fn of_number(&self, number: u64) -> u64
        ensures { result ≡ get_or self.now.counts number 0 }
    {
        if number < NUMBERS as u64 {
            self.counts[number as usize]
        } else {
            0
        }
    }
}
