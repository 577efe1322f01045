//! Lines of flows' data records: all fields of each, as flow_report writes them, or the fields that are named, as CSV.
//!
//! Promised to the layers above: the lines are exactly those of specs/Lines. In CSV (RFC 4180) there is a line of names
//! first, and then a line for each record, with a value or nothing for each name; where writing fails, the writer took
//! a prefix of the text.
#![tactic(auto)]

mod cell;
mod column;
mod columns;
mod laws;
mod line;
mod lines;
mod names;
mod value;

pub use column::Column;
pub use laws::lines_are_read_back;
pub use lines::ListLines;
pub use names::{FieldNames, LineFormat, first_unknown};
