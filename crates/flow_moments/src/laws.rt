//! Moments and texts of times.

ghost use Rattle.std.specs.Prelude.{◌≡◌, ◌<◌, ◌^◌, ℕ};
ghost use Rattle.flow_dates.specs.Dates.{time_text};
ghost use Rattle.flow_moments.specs.declared.moment.Moment.TheVariants.{Second};
ghost use Rattle.flow_moments.specs.Moments.{moment_of};

/// A second that is written as a date is read as that second.
pub fn dates_are_read_back()
    ensures { (second : ℕ) → second < 2 ^ 32 → moment_of (time_text second) ≡ Some (Second second) }
{}
