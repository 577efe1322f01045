//! What `measure` and `dump` write of an IPFIX File (RFC 5655), and lines of an archive's rows and flows.
//!
//! What the layers above may count on: `measure` writes the totals lines of the whole File or nothing, `dump` the lines
//! of all messages before the first fault; a refusal is that of the first fault by place. Sums and flows are written in
//! words, as CSV or as JSON. Interrupted writes are tried again a bounded number of times; where writing fails, the
//! writer took a prefix of the text.
#![tactic(auto)]

mod dumping;
mod flows;
mod format;
mod label;
mod lacking;
mod line;
mod measuring;
mod numbers;
mod objects;
mod output;
mod patient;
mod records;
mod refusal;
mod rows;
mod tables;
mod text;
mod text_error;
mod values;
mod width;

pub use dumping::dump;
pub use flows::{FlowLines, write_flows};
pub use format::{Format, Layout, Times};
pub use measuring::measure;
pub use numbers::number_between;
pub use patient::{MOST_INTERRUPTS, Patience, WriteFailed, write_patiently};
pub use records::{RecordFormat, RecordLayout, RecordLines};
pub use refusal::Refusal;
pub use rows::write_rows;
pub use text::{push_count, push_time};
pub use text_error::TextError;
pub use values::{MOST_VALUE, put_last, put_opening, put_time, put_value};
pub use width::Width;
