//! When the intervals of a rolled file start.

use flow_measure::PartSpan;

/// When the intervals of a rolled file start, and their width.
#[derive(Clone, Copy, Debug, PartialEq, Eq)]
pub struct RowSpan {
    /// The width, in seconds.
    pub width: u32,
    /// The first and the last start.
    pub span: PartSpan,
}
