// How often reads of sealed files have failed, for contracts alone.
ghost use Rattle.std.specs.Prelude.{◌≡◌, ℕ, ◌≤◌};
ghost use Rattle.flow_disk.specs.Cause.{HasRisen};

use crate::MayFail;
use std::marker::{Model, PhantomData};

/// How often reads of sealed files of one kind have failed, up to 2^64 - 1, where the count stays. Contracts alone see
/// it. A count belongs to its kind of file: no layer above a device can raise it, not even through a kind of its own.
#[derive(Drop)]
pub struct Faults<S> {
    count: u64,
    kind: PhantomData<S>,
}

impl<S> Model for Faults<S> {
    ghost Value = { ℕ };

    ghost view = { λ f. f.count };
}

impl<S: MayFail> Faults<S> {
    /// No failure yet.
    pub fn new() -> Self
        ensures { result ≡ 0 }
    {
        Faults {
            count: 0,
            kind: PhantomData,
        }
    }

    /// Counts one failure more. It takes what only the code of such a file's device can make, where its read failed.
    pub fn raise(&mut self, _failure: &S::Failure)
        ensures risen { HasRisen self.old self.new }
        ensures later { self.old ≤ self.new }
    {
        self.count = self.count.saturating_add(1);
    }

    /// Adds the failures of another count of this kind, as that of another thread. The other count is consumed, so
    /// that no failure is counted twice.
    pub fn add(&mut self, other: Faults<S>)
        ensures none { other ≡ 0 → self.new ≡ self.old }
        ensures risen { HasRisen 0 other → HasRisen self.old self.new }
        ensures later { self.old ≤ self.new }
    {
        self.count = self.count.saturating_add(other.count);
    }
}
