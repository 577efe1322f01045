//! The date and the time of a second of UTC, as text.
//!
//! Promised to the layers above: `time_text` is exactly the text of a second, YYYY-MM-DDTHH:MM:SSZ (RFC 3339), by the
//! Gregorian calendar.
#![tactic(auto)]

mod laws;
mod text;

pub use laws::days_are_counted;
pub use text::{TIME_TEXT, time_text};
