//! The data records of an archive's kept messages whose flows start in a span, written line by line; and the command
//! `records`, on any disk and in a folder.
//!
//! Promised to the layers above: `write_records` writes, of a snapshot on an honest disk, exactly the lines of the data
//! records of its view whose flows start in the span, each once, in the order of the messages, and no record of an
//! Options Template; where a read fails, memory runs out or writing fails, a prefix of them. Whatever the disk, what is
//! written are lines of records of flows that start in the span. A file that is known to have no such flow isn't read.
//!
//! On an honest disk `records` writes these lines of the archive that it opens; a refusal of the opening comes before
//! anything is written, and a later one after a prefix of the lines; the disk and the archive stay as they are. Whatever
//! the disk, and so over a folder, it writes lines of records whose flows start in the span.
#![tactic(auto)]

mod active;
mod asking;
mod chosen;
mod laws;
mod listing;
mod message;
mod part;
mod refusal;

pub use asking::{records, records_in};
pub use laws::records_are_flows;
pub use listing::write_records;
pub use refusal::RecordsRefusal;
