//! What the day after so many days is.

ghost use Rattle.std.specs.Prelude.{◌≡◌, ℕ, pos};
ghost use Rattle.jiff_core.specs.Calendar.{days_from_civil};
ghost use Rattle.flow_dates.specs.Dates.{day_after};

/// The day after so many days has this number in the calendar of the crate jiff.
pub fn days_are_counted()
    ensures { (n : ℕ) → days_from_civil (pos (day_after n).year) (day_after n).month (day_after n).day ≡ pos n }
{}
