// The choice of the image that a stop leaves.

/// The image that a stop leaves of each file, among those that it may leave.
#[derive(Clone, Copy, Drop)]
pub enum Choice<'a> {
    /// What the file reads as.
    Kept,
    /// What it was last settled as.
    Settled,
    /// What it reads as, with these octets, at least one, in turn at each place that is not settled; over again at
    /// their end.
    Filled(&'a [u8]),
    /// Where its end may be anywhere, its fast prefix and these octets after it; else what it was last settled as.
    Longer(&'a [u8]),
}
