//! Flows, and the intervals that they fall in.

ghost use Rattle.std.specs.Prelude.{◌≡◌, ◌<◌};
ghost use Rattle.flow_measure.specs.Sums.{counted, interval_of};

use crate::rows::Sums;

/// What one data record counts.
#[derive(Clone, Copy, Debug, PartialEq, Eq)]
pub struct Flow {
    /// The observation domain of the message.
    pub domain: u32,
    /// When the flow began, in seconds since 1970-01-01 00:00 UTC.
    pub start: u32,
    /// The number of the transport protocol, where the record has one.
    pub protocol: Option<u8>,
    /// Octets of the flow in the record's time.
    pub octets: u64,
    /// Packets of the flow in the record's time.
    pub packets: u64,
}

impl Flow {
    /// What it adds to the sums of its key.
    #[inline(always)]
    pub(crate) fn sums(&self) -> Sums
        ensures { result ≡ counted self.now }
    {
        Sums {
            flows: 1,
            octets: u128::from(self.octets),
            packets: u128::from(self.packets),
        }
    }
}

/// The start of the interval that holds a moment, both in seconds: the greatest multiple of the width up to it
/// (start interval distribution, RFC 7015, section 5.1.1).
pub fn interval_of(start: u32, width: u32) -> u32
    requires { 0 < width }
    ensures { result ≡ interval_of start width }
{
    start - start % width
}
