//! Interval widths.

use crate::numbers::number_between;
use std::marker::Model;

/// An interval width in seconds, from 1 to 86,400.
#[derive(Drop)]
pub struct Width {
    seconds: u32,
}

impl Model for Width {
    ghost use Rattle.std.specs.Prelude.{ℕ, ◌≤◌};

    ghost Value = { ℕ };

    ghost view = { λ w. w.seconds };

    ghost invariant = { λ w. (1 ≤ w.seconds) × (w.seconds ≤ 86400) };
}

impl Width {
    ghost use Rattle.std.specs.Prelude.{◌≡◌, ◌≤◌};
    ghost use Rattle.flow_report.specs.Numbers.{number_between};

    /// The width of a word: digits alone, from 1 to 86,400.
    pub fn of(word: &str) -> Option<Width>
        ensures { result ≡ number_between 1 86400 word.now }
    {
        let seconds = number_between(1, 86_400, word.as_bytes())?;
        Some(Width {
            seconds: seconds as u32,
        })
    }

    pub fn seconds(&self) -> u32
        ensures value { result ≡ self.now }
        ensures some { 1 ≤ result }
        ensures most { result ≤ 86400 }
    {
        self.seconds
    }
}
