//! The limits of an archive (specs/Limits has them for definitions).

/// The greatest width of an interval, in seconds: a day.
pub const GREATEST_WIDTH: u32 = 86_400;

/// The least limit of a segment's messages, in octets: the longest message fits.
pub const LEAST_LIMIT: u32 = 65_535;

/// The greatest limit of a segment's messages, in octets.
pub const GREATEST_LIMIT: u32 = 16_777_216;

/// The most files that a manifest names, the active one among them.
pub const MOST_ENTRIES: u32 = 4_096;

/// The most messages of an archive: 2^48 - 1.
pub const MOST_MESSAGES: u64 = 281_474_976_710_655;
