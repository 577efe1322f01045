// Which octets of a file were written.
ghost use Rattle.std.specs.Prelude.{◌≡◌, ℕ, ◌<◌, ◌≤◌, ◌⊎◌, vec_capacity, vec_len, IfOk};

use std::alloc::{AllocError, Global};

/// How many ranges are kept apart.
const MOST: usize = 8;

/// The octets from a place on, up to another place.
#[derive(Clone, Copy)]
pub(crate) struct Range {
    pub(crate) from: u64,
    pub(crate) to: u64,
}

/// Ranges of octets. Those that touch are joined; where there are too many, all are joined into one, with the octets
/// between them.
#[derive(Drop)]
pub(crate) struct Ranges {
    ranges: Vec<Range>,
    ghost room: { 8 ≤ vec_capacity ranges },
    ghost count: { vec_len ranges ≤ 8 },
}

impl Range {
    ghost use Rattle.flow_pending.specs.Written.{IsWithin};

    /// Whether no place lies between the two.
    fn touches(self, other: Range) -> bool {
        self.from <= other.to && other.from <= self.to
    }

    /// One range of both and the octets between them.
    fn joined(self, other: Range) -> Range
        ensures { (place : ℕ) → IsWithin self place ⊎ IsWithin other place → IsWithin result place }
    {
        Range {
            from: self.from.min(other.from),
            to: self.to.max(other.to),
        }
    }
}

impl Ranges {
    ghost use Rattle.flow_pending.specs.Written.{IsWithin, IsWritten};

    /// No octets.
    pub(crate) fn none(alloc: Global) -> Result<Self, AllocError> {
        Ok(Ranges {
            ranges: Vec::with_capacity(alloc, MOST)?,
        })
    }

    /// These octets too.
    pub(crate) fn add(&mut self, range: Range)
        ensures before { (place : ℕ) → IsWritten self.old.ranges.items place → IsWritten self.new.ranges.items place }
        ensures now { (place : ℕ) → IsWithin range place → IsWritten self.new.ranges.items place }
    {
        let touched = touched_by(&self.ranges, range);
        if let Some(index) = touched {
            self.ranges[index] = self.ranges[index].joined(range);
        } else if self.ranges.len() < MOST {
            self.ranges.push_reserved(range);
        } else {
            self.ranges[0] = hull(&self.ranges, range);
            self.ranges.truncate(1);
        }
    }

    /// The ranges.
    pub(crate) fn each(&self) -> &[Range]
        ensures { result.now ≡ self.now.ranges.items }
    {
        &self.ranges
    }
}

ghost use Rattle.std.specs.Prelude.{IfSome, length};
ghost use Rattle.flow_pending.specs.Written.{IsWithin, IsWritten};

/// The first range that touches this one.
fn touched_by(ranges: &[Range], range: Range) -> Option<usize>
    ensures { IfSome result (λ index. index < length ranges.now) }
{
    ranges.iter().position(|other| other.touches(range))
}

/// One range of all of these and this one.
fn hull(ranges: &[Range], range: Range) -> Range
    ensures others { (place : ℕ) → IsWritten ranges.now place → IsWithin result place }
    ensures this { (place : ℕ) → IsWithin range place → IsWithin result place }
{
    let mut hull = range;
    'others: for other in ranges {
        hull = hull.joined(*other);
    }
    hull
}
