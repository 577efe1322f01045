//! Rolled files: sums of flows as IPFIX Files in RFC 7015's elements.
//!
//! What the layers above may count on: `encode_rows` writes exactly the rolled file of a table with an Export Time;
//! `decode_rows` takes exactly what is the rolled file of a table by its width, with any one Export Time, and gives
//! that table; octets are the rolled file of one table at most; all others are refused at one place, the end of the
//! longest sequence of whole messages with which some rolled file begins; a sum of a table that fits a file always fits
//! its type.
//!
//! `RolledPart` is such a file on a disk; one of which it is known when its intervals start reads whole. `RowReader`
//! reads its rows message by message, a piece of the file at a time: where it comes to the end its rows are those of
//! the file's table, and where octets break off it reports damage at that place. `sum_rows` adds them to sums of the
//! same or another width. The laws say that a rolled file is an IPFIX File, of which each row is read as one flow.
#![tactic(auto)]

mod cursor;
mod decoding;
mod encoding;
mod error;
mod judging;
pub mod laws;
mod message;
mod message_reading;
mod message_writing;
mod numbers;
mod order;
mod part;
mod reader;
mod row;
mod row_reading;
mod row_span;
mod row_writing;
mod set_reading;
mod summing;

pub use decoding::decode_rows;
pub use encoding::encode_rows;
pub use error::{RolledError, RowError};
pub use part::RolledPart;
pub use reader::RowReader;
pub use row::RolledRow;
pub use row_span::RowSpan;
pub use summing::sum_rows;
