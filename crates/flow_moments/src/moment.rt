//! A moment.

ghost use Rattle.std.specs.Prelude.{◌≡◌, ◌≤◌, ℕ, false};
ghost use Rattle.flow_moments.specs.Moments.{is_relative, second_at};

/// No flow starts at this second or after it.
pub(crate) const LAST: u64 = 4_294_967_296;

/// A moment.
#[derive(Clone, Copy, Debug, PartialEq, Eq)]
pub enum Moment {
    /// This second, since 1970-01-01 00:00 UTC.
    Second(u64),
    /// So many seconds before now.
    Ago(u64),
}

impl Moment {
    /// Its second since 1970-01-01 00:00 UTC where it is now the second `now`: 0 at least, 2^32 at most.
    pub fn second_at(self, now: u64) -> u64
        ensures value { result ≡ second_at now self }
        ensures most { result ≤ 4294967296 }
    {
        let second = match self {
            Moment::Second(second) => second,
            Moment::Ago(count) => now.saturating_sub(count),
        };
        second.min(LAST)
    }

    /// Whether its second depends on what second it is now.
    pub fn is_relative(self) -> bool
        ensures value { result ≡ is_relative self }
        ensures absolute { result ≡ false → (a b : ℕ) → second_at a self ≡ second_at b self }
    {
        match self {
            Moment::Second(_) => false,
            Moment::Ago(_) => true,
        }
    }
}
