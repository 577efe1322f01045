//! Archives of accepted IPFIX messages.
//!
//! Promised to the layer above: a `PlainArchive` is a history of accepted messages, held in memory, for others to be
//! compared with. `append` takes in an accepted message and answers its number, from 1 on; other octets are refused by
//! their first fault, and a refusal leaves the history as it was. `totals` answers the sums of the flows of all
//! messages. No sum ever passes its type.
//!
//! An `Archive` is one over a disk. `create` makes one without messages, on a disk without files. `open` finds the
//! state that what the disk reads represents: after a stop one of the two that it may have left, and while it opens
//! each image represents one of them; it refuses for other reasons than the device and memory only where what the disk
//! reads represents none. Each append, batch or seal is answered by the first refusal that holds, or taken. A stop at
//! any moment, inside device calls too, leaves what represents the archive before the event or after it: after Ok the
//! one after it, after a refusal but 30 the one before it. After 30 the archive is closed: no call changes anything any
//! more. `run` takes lists of events, of which a stop leaves some prefix. `directory` answers the archive's files,
//! shared: on an honest disk its shelf is that of the archive's state, so that a snapshot of it answers for each
//! history that the archive has. `step` answers each later step: on an honest disk it is the change that was made.
//!
//! A job (`roll_begin`, `merge_begin`) sums the oldest sealed segments, or rolled files: `roll_step` reads one of them,
//! `roll_write` makes one file of their sums, `roll_install` puts it in their place, and `roll_drop` gives the job up.
//! Appends and seals may come between any two of these. `retire` removes the oldest of the files that no manifest names
//! any more; while a directory or a snapshot has it too, it is refused.
#![tactic(auto)]

mod append;
mod archive;
mod creating;
mod error;
mod event;
mod frozen;
mod install;
mod job;
mod laws;
mod opening;
mod plain;
mod refusal;
mod retire;
mod roll;
mod seal;
mod share;
mod sources;

pub use archive::Archive;
pub use error::PlainError;
pub use event::{Answer, Event, run, take_event};
pub use job::JobStatus;
pub use laws::{marks_of_answers, shelves_of_answers};
pub use plain::PlainArchive;
pub use refusal::{ArchiveError, Refused};
