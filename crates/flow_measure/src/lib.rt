//! Flows, intervals and sums.
//!
//! What the layers above may count on: the flows of a message are the same by its fields and by the plan of each
//! record's definition, one for each data record of a Template; `Rows` is at any time the table of sums of the flows
//! that were added, each flow whole in the interval that holds its start; merging adds tables, widening gives the table
//! that the same flows have over wide intervals; a refusal changes nothing, and comes exactly where a sum would pass
//! its type or no memory is left. Adding to a key that has sums takes no memory. A `PartSpan` is the least and the
//! greatest start of some flows: where it is outside of a span, their sums have no row in it.
#![tactic(auto)]

mod adder;
mod counts;
mod entries;
mod error;
mod fields;
mod flow;
pub mod laws;
mod rows;
mod sinks;
mod span;
mod trial;
mod walk;

pub use adder::Adder;
pub use counts::{flow_of, has_no_start, own_start_of, start_of_flow};
pub use error::SumError;
pub use fields::flows_of_message;
pub use flow::{Flow, interval_of};
pub use rows::{Key, Row, Rows, Sums};
pub use sinks::{Flows, Totals};
pub use span::PartSpan;
pub use trial::Trial;
pub use walk::InOrder;
