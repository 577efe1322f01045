//! What a stop leaves of an archive.
//!
//! Promised to the reader: on a disk in memory, stopped before or within any device call of any list of events, with
//! any of the stops that can be chosen there, opening gives exactly a prefix of that list. Every event that was
//! acknowledged is in it, and besides these at most the one that was under way; and the archive's history is the one
//! before with the messages of that prefix after it, each once, in their order, and no other, however many of them are
//! rolled or merged by then. So its totals over any span are those of all these messages. Opening is refused only where
//! memory runs out, in the machine or in its disk.
//!
//! And on every honest disk: a stop at any moment of a run of events leaves a prefix of them, with every event that was
//! acknowledged by then, and at most the one under way besides. After such a stop, and any number of openings that were
//! stopped or failed themselves, the opening that answers Ok finds just this.
#![tactic(auto)]

mod error;
mod hearing;
mod laws;
mod memory;
mod openings;
mod reopening;
mod running;
mod totals;

pub use error::{NotOpened, TotalsRefusal};
pub use hearing::{Listener, run_heard};
pub use laws::{answers_lead_to_one_state, files_are_ipfix, lives_have_histories};
pub use memory::left_in_memory;
pub use openings::{create_archive, open_what_is_left};
pub use reopening::{Reopened, run_and_open};
pub use running::run_on_disk;
pub use totals::{StoppedTotals, totals_after_a_stop};
