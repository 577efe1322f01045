//! IPFIX messages (RFC 7011), their templates, and Files of them (RFC 5655).
//!
//! Promised to the layers above: octets are one accepted message, or have one first fault, which is what a call
//! answers. `walk_message` hands a message's data records to a sink, in order and each in its octets, and takes its
//! templates in; a refusal leaves the templates as they were. It costs time in proportion to the message's octets,
//! whatever templates are in force, and no memory for records or fields. `walk_sets` does the same, and counts the data
//! Sets without a definition in force and the template records that replace a definition. `judge_message` answers the
//! same and changes nothing, and `read_message` builds the fields. `MessageReader` reads the messages of a File one
//! after the other and holds one. `write_templates` restates templates in messages without data records that, read from
//! none, leave just these in their order.
#![tactic(auto)]

mod caveats;
mod count;
mod definitions;
mod error;
mod fields;
mod file;
mod kind;
mod laws;
mod losses;
mod message;
mod numbers;
mod overlay;
mod patient;
mod plan;
mod prefix;
mod short_list;
mod sink;
mod slot_table;
mod stream;
mod template_records;
mod templates;
mod walk;
mod window;
mod working;

pub use count::Count;
pub use error::MessageError;
pub use fields::{read_message, split_field};
pub use file::{FileError, Span, front_of, one_front, split_file};
pub use kind::TemplateKind;
pub use laws::{
    files_and_fronts, losses_by_pieces, message_bounds, one_answer, one_division,
    replaced_definitions, restated_templates, template_changes, unread_sets,
};
pub use losses::{CaveatCounts, Losses};
pub use message::{DataRecord, Field, Header, Message};
pub use patient::ReadFailed;
pub use plan::{FieldStep, Place, Places, Plan, Role, VARIABLE, Way};
pub use prefix::write_templates;
pub use short_list::ShortList;
pub use sink::{RecordSink, WalkError};
pub use stream::{MessageReader, StreamError};
pub use templates::{Definition, Templates};
pub use walk::{UnreadSets, Walked, judge_message, walk_message, walk_sets};
