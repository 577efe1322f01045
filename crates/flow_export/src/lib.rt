//! Kept messages of an archive, as an IPFIX File: of a snapshot, or of an archive on a disk or in a folder.
//!
//! Promised to the layer above: `write_templates` writes just the messages that restate what an archive passes on after
//! its last message; `write_messages` these as they are before some kept message, and then this message and those after
//! it, octet for octet. On honest disks this is so also where files are damaged; where the files have a view no damage
//! is reported. Whatever the disk, what is written are messages that restate some templates, without data records, and
//! then just as many messages as are asked for, of those that the snapshot counts, each whole by its own header.
//!
//! `write_span` writes the messages of which some flow starts in a span of time, and those between that define or
//! withdraw templates, after the templates in force before the first of them. Whatever the disk, each message that it
//! writes after the templates is whole, and holds template records or has, under some templates, a flow of the span.
//! `meets_sums` answers whether messages that are in sums alone may have flows of the span.
//!
//! Of an archive on an honest disk, or in a folder, `templates` writes just the messages that a next segment would begin
//! with, `export` these as they are before the first message that is asked for, and then the messages, octet for
//! octet, and `export_by_time` likewise the messages of which some flow starts in a span. Messages that are in sums
//! alone are refused by 52, before anything is written, as is an archive that can't be opened. Whatever the disk,
//! nothing of it is changed but what the opening of an archive changes, and what is written are messages that restate
//! some templates, and after them those of `export`, as many as are asked for and are there, or of `export_by_time`
//! messages that have a flow of the span, or template records.
#![tactic(auto)]

mod archive_refusal;
mod asking;
mod by_time;
mod exporting;
mod finding;
mod laws;
mod passing;
mod places;
mod reading;
mod refusal;
mod restating;
mod selecting;
mod sets;
mod span;
mod starting;
mod summed;
mod whole;

pub use archive_refusal::ArchiveExportRefusal;
pub use asking::{export, export_in, templates, templates_in};
pub use by_time::{export_by_time, export_by_time_in};
pub use exporting::write_messages;
pub use laws::{exported_files, exported_spans, unrolled_spans};
pub use refusal::ExportRefusal;
pub use restating::write_templates;
pub use selecting::write_span;
pub use span::MessageSpan;
pub use starting::TimeSpan;
pub use summed::meets_sums;
