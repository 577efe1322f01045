//! What a stop leaves of an archive while threads run.
//!
//! Laws alone, without code: whatever threads call under the lock, a stop at any moment from one value under it to a
//! later one leaves the files that the start began with, after all steps of the one, and then steps of the other.
#![tactic(auto)]

mod laws;

pub use laws::{calls_under_the_lock, stops_while_threads_run};
