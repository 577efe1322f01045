//! A process that appends to an archive while it answers: requests in, a line each; lines out.
//!
//! Promised to the layer above: `request_of` reads exactly the requests that `request_in` says. Sums and flows are
//! answered by the steps that a reader of the shared archive is shown, which begin with all that it was shown before:
//! on an honest disk their lines are those of the archive's history after these steps. What is answered is written, or
//! a prefix of it where writing failed. That feeds go on meanwhile is what threads do, and said by no clause.
#![tactic(auto)]

mod answering;
mod asked;
mod board;
mod feeding;
mod finishing;
mod lines;
mod losses;
mod querying;
mod refusal;
mod rolling;
mod serving;
mod shell;
mod telling;

pub use answering::{answer_flows, answer_message, answer_totals};
pub use asked::{FileName, Query, ShellRequest, request_of};
pub use refusal::ShellRefusal;
pub use shell::shell_in;
