//! When flows start.

ghost use Rattle.std.specs.Prelude.{◌≡◌, ◌<◌};
ghost use Rattle.flow_measure.specs.Span.{is_outside, no_span, span_of, starts_in, with_start};

use crate::flow::interval_of;
use crate::rows::Rows;

/// When some flows start, or the intervals of some sums. Where there are none, the first start is after the last one.
#[derive(Clone, Copy, Debug, PartialEq, Eq)]
pub struct PartSpan {
    /// The first start, in seconds since 1970-01-01 00:00 UTC.
    pub first: u32,
    /// The last one.
    pub last: u32,
}

impl PartSpan {
    /// That of no flows.
    pub fn none() -> Self
        ensures { result ≡ no_span }
    {
        PartSpan {
            first: u32::MAX,
            last: 0,
        }
    }

    /// With one start more.
    pub fn with(self, start: u32) -> Self
        ensures { result ≡ with_start start self }
    {
        PartSpan {
            first: self.first.min(start),
            last: self.last.max(start),
        }
    }

    /// Whether no flow lies in an interval, of `width` seconds, that starts from `from` on and before `to`.
    pub fn is_outside(self, width: u32, from: u64, to: u64) -> bool
        requires { 0 < width }
        ensures { result ≡ is_outside width from to self }
    {
        self.last < self.first
            || u64::from(interval_of(self.last, width)) < from
            || to <= u64::from(interval_of(self.first, width))
    }
}

impl Rows {
    /// When the intervals that have sums start.
    pub fn span(&self) -> PartSpan
        ensures { result ≡ span_of (starts_in self.now.sums) }
    {
        let mut span = PartSpan::none();
        let mut walk = self.walk();
        while let Some((key, _sums)) = walk.next() {
            span = span.with(key.start);
        }
        span
    }
}
