//! What an IPFIX File (RFC 5655) holds of each Observation Domain, whether its Sequence Numbers follow, and when its
//! flows start.
//!
//! Promised to the layer above: `inspect` writes exactly the lines of the whole File, or nothing and the first fault by
//! place. A line counts the messages and data records of a domain, and says by how many records its Sequence Numbers
//! leave some out (RFC 7011, section 3.1): records that were lost on their way, or are in a Set without a definition in
//! force, which are counted too. It counts definitions that replace a different one of their ID, and says when the
//! flows start, and how long they last. It counts the flows whose sums may be other than their exporter means: those
//! without a start that counts, without a count that is summed, and with a sampling rate. In words a line of all
//! domains together comes last. Memory holds one message, and some 190 octets for each domain.
#![tactic(auto)]

mod counting;
mod inspecting;
mod lasting;
mod laws;
mod reporting;
mod span;
mod tally;
mod whole;

pub use inspecting::{inspect, inspect_file};
pub use laws::{each_domain_alone, own_start_or_export_time};
