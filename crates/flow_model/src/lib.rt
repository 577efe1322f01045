//! What an archive is, as plain data, and what it means: the octets of a disk, a state, a shelf, a view, a history.
//!
//! There is no code here, but definitions and laws. The octets that a disk may hold represent a `State`: a manifest and
//! what the files that it names hold. The files of a state are a `Shelf`: sums of rolled files, and messages. What a
//! shelf means is its `View`, of which it has one at most: sums, and accepted messages. A view is that of a `History`:
//! all messages from the first one on, and how many of them are kept as sums alone. The events of an archive move its
//! history, and a job moves its cuts alone.
#![tactic(auto)]

mod shelves;
mod states;

pub use shelves::{one_view, views_are_read, views_follow};
pub use states::{events_and_history, jobs_and_history, one_view_of_a_state};
