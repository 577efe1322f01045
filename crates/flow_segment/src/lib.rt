//! Segments: what one passes to the next, the prefix that restates it, and their files.
//!
//! Promised to the layers above: a `Carry` is at any time what the accepted messages that it has taken pass on, and a
//! refusal leaves it as it was; of several messages it takes all or none. Its prefix, read from nothing, is accepted
//! messages without a data record that pass on the same again; so a sealed segment is an IPFIX File (RFC 5655) that is
//! read with nothing else beside it. While a segment's file is made or sealed, a stop at any moment leaves all other
//! files as they were; once it is made each image of it is its prefix and a closed gate, and while it is sealed its
//! first octets stay in each image. `advance` reads the messages of a part of a file one by one, through a `Window`
//! over it: what it gives to the end are the part's messages, and where the octets are no message it reports that
//! place. A `PartReader` does so for a sealed segment, and a refusal leaves it as it was; `messages_of` gives the
//! messages of a sealed segment at once, `templates_of` the templates that its prefix restates, and `flows_of` the
//! flows of its messages under these. `add_flows` adds the flows of a sealed segment to sums, and `collect_flows` puts
//! those of a span of time after others, each under the templates that are given and piece by piece. Of a segment that
//! is good none of these is refused by damage. A sealed segment whose span is known reads whole, and has no flow
//! outside of it.
#![tactic(auto)]

mod batch;
mod carry;
mod defining;
mod files;
mod flows;
mod laws;
mod part;
mod restated;
mod sealed;
mod sinks;
mod spans;
mod walking;

pub use carry::Carry;
pub use files::{make_segment, seal_tail};
pub use flows::{add_flows, collect_flows, flows_of};
pub use laws::{accepted_message_fits, few_messages_fit, handed_on, read_to_the_end};
pub use part::{advance, advance_on};
pub use restated::{HasRecords, templates_of};
pub use sealed::{PartReader, SealedPart, messages_of};
pub use sinks::{Adding, Chosen, Noting};
