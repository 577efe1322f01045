//! A message as it was read.

use flow_elements::{ElementId, Items};

/// The octets of a message header (RFC 7011, section 3.1).
pub(crate) const HEADER: usize = 16;

/// The Version Number of IPFIX (RFC 7011, section 3.1).
pub(crate) const VERSION: u16 = 10;

/// The header of a message (RFC 7011, section 3.1), without its Version.
#[derive(Clone, Copy, Debug, PartialEq, Eq)]
pub struct Header {
    /// The octets of the whole message, this header too.
    pub length: u16,
    /// Export Time, in seconds since 1970-01-01 00:00 UTC.
    pub time: u32,
    /// Sequence Number: the data records sent before, modulo 2^32.
    pub sequence: u32,
    /// Observation Domain ID.
    pub domain: u32,
}

/// One field of a data record: its Information Element, and its octets without any length octets.
#[derive(Debug, Drop)]
pub struct Field {
    pub id: ElementId,
    pub octets: Items<u8>,
}

/// A data record, under the definition that was in force for the ID `template`.
#[derive(Debug, Drop)]
pub struct DataRecord {
    pub template: u16,
    /// Whether the definition is an Options Template.
    pub options: bool,
    pub fields: Items<Field>,
}

/// A message, with all its data records in order.
#[derive(Debug, Drop)]
pub struct Message {
    pub header: Header,
    pub records: Items<DataRecord>,
}
