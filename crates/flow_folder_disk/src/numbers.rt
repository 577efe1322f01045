//! Numbers of files, as ranges.

ghost use Rattle.std.specs.Prelude.{◌≡◌, ◌≤◌, ◌<◌, ◌-◌, ◌||◌, ◌^◌, ◌==◌, ◌++◌, ℕ, [], IfOk, OnOk, OnErr};
ghost use Rattle.flow_folder_disk.specs.Numbers.{is_among, numbers_from, numbers_of};

use crate::number_range::NumberRange;
use std::alloc::{AllocError, Global};

/// Numbers of files. Those that follow one another take the memory of one range, however many they are.
#[derive(Drop)]
pub(crate) struct Numbers {
    ranges: Vec<NumberRange>,
}

impl Numbers {
    /// No numbers.
    pub(crate) fn new(alloc: Global) -> Self
        ensures { result.ranges.items ≡ [] }
    {
        Numbers {
            ranges: Vec::new(alloc),
        }
    }

    /// Whether a number is among them.
    pub(crate) fn has(&self, number: u64) -> bool
        ensures { result ≡ is_among number self.now.ranges.items }
    {
        self.ranges.iter().any(|range| range.has(number))
    }

    /// Adds a number.
    pub(crate) fn add(&mut self, alloc: Global, number: u64) -> Result<(), AllocError>
        requires { number < 2 ^ 64 - 1 }
        ensures done { OnOk result ((n : ℕ)
            → is_among n self.new.ranges.items ≡ ((n == number) || is_among n self.old.ranges.items)) }
        ensures failed { OnErr result (self.new.ranges ≡ self.old.ranges) }
    {
        self.ranges = with_number(alloc, self.ranges.as_slice(), number)?;
        Ok(())
    }

    /// Puts all numbers after others.
    pub(crate) fn list(&self, numbers: &mut Vec<u64>) -> Result<(), AllocError>
        ensures { OnOk result (numbers.new.items ≡ numbers.old.items ++ numbers_of self.now.ranges.items) }
    {
        for range in &self.ranges {
            list_range(range.from, range.to, numbers)?;
        }
        Ok(())
    }
}

/// Ranges, with one number more. Those that meet at it become one.
fn with_number(
    alloc: Global,
    ranges: &[NumberRange],
    number: u64,
) -> Result<Vec<NumberRange>, AllocError>
    requires { number < 2 ^ 64 - 1 }
    ensures { IfOk result (λ all. (n : ℕ) → is_among n all.items ≡ ((n == number) || is_among n ranges.now)) }
{
    let mut from = number;
    let mut to = number + 1;
    let mut all = Vec::new(alloc);
    for range in ranges {
        if range.to == from {
            from = range.from;
        } else if range.from == to {
            to = range.to;
        } else {
            all.push(*range)?;
        }
    }
    all.push(NumberRange { from, to })?;
    Ok(all)
}

/// Puts the numbers from `from` on and before `to` after others.
fn list_range(from: u64, to: u64, numbers: &mut Vec<u64>) -> Result<(), AllocError>
    requires { from ≤ to }
    ensures { OnOk result (numbers.new.items ≡ numbers.old.items ++ numbers_from from to) }
{
    for number in from..to {
        numbers.push(number)?;
    }
    Ok(())
}
