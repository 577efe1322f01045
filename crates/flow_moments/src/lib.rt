//! Moments of UTC as people write them: a day, a minute or a second of it, so many days or hours ago, now.
//!
//! Promised to the layers above: a word is exactly the moment that `moment_of` says, and none else is read; each is a
//! second since 1970-01-01 00:00 UTC, by the Gregorian calendar of the crate jiff.
#![tactic(auto)]

mod laws;
mod moment;
mod reading;

pub use laws::dates_are_read_back;
pub use moment::Moment;
pub use reading::moment_of;
