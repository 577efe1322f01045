//! An archive's files, apart from its disk: what is asked of them. What they mean is in flow_model.
//!
//! Promised to the layers above: a `Directory` takes steps whole or not at all, and a copy shares every file with it; a
//! `Snapshot` never changes, and takes no memory to be made. Its position and cuts are those of its shelf; the
//! messages, the flows and the totals that it answers are, on honest disks, those of each view of its files. So damage
//! is reported only where there is no view, or where a sum of the view would pass its type, which no sum of a history
//! within the limits does; and 30 only where a read failed in that call. Whatever is damaged, what it answers was read
//! whole: flows of all kept messages, totals of all files. `flows` and workers pass a file over where it is known that
//! none of its flows or sums are in the span; it is known only of files that read whole.
//!
//! Workers can share the files of one query of totals: each answers the sums of its own, and what comes of all their
//! answers is what one call answers.
#![tactic(auto)]

mod by_file;
mod counting;
mod directory;
mod files;
mod interleaving;
mod kept;
mod laws;
mod numbered;
mod passing;
mod shares;
mod snapshot;
mod step;
mod summing;

pub use by_file::KeptPart;
pub use directory::Directory;
pub use files::Files;
pub use kept::{restated, span_in_memory};
pub use laws::{flows_by_file, parts_are};
pub use shares::{PartSums, Share};
pub use snapshot::{QueryError, Snapshot};
pub use step::{Mark, Step};
