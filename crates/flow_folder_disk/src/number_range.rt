//! A range of numbers.

ghost use Rattle.std.specs.Prelude.{◌≤◌};

/// The numbers from `from` on and before `to`.
#[derive(Clone, Copy)]
pub(crate) struct NumberRange {
    pub(crate) from: u64,
    pub(crate) to: u64,
    ghost within: { from ≤ to },
}

impl NumberRange {
    ghost use Rattle.std.specs.Prelude.{◌≡◌};
    ghost use Rattle.flow_folder_disk.specs.Numbers.{has};

    /// Whether it has a number.
    pub(crate) fn has(self, number: u64) -> bool
        ensures { result ≡ has number self }
    {
        self.from <= number && number < self.to
    }
}
