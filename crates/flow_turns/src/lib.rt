//! Turns of rolling and merging, and whole jobs.
//!
//! Promised to the layer above: a turn (`roll_turn`, `merge_turn`) is the next step of the job under way, or begins
//! one, or removes a file that waits for its removal, and answers which. `run_job` rolls or merges all files but the
//! newest ones as one job. What a job makes of an archive is said by `whole_job`, and that turns make the same job by
//! `turns_of_a_job`.
#![tactic(auto)]

mod job;
mod laws;
mod turn;

pub use job::run_job;
pub use laws::{turns_of_a_job, whole_job};
pub use turn::{Turn, merge_turn, roll_turn};
