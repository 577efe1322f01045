// A call that changed what a stop may leave of a file.

/// A call that changed what a stop may leave of a file.
#[derive(Drop)]
pub(crate) enum Deed {
    /// So many octets were written at a place.
    Wrote(u64, u64, u64),
    /// It was cut to so many octets.
    Cut(u64, u64),
    /// The device has just these octets of it.
    Settled(u64, Vec<u8>),
    /// Its name was taken away.
    Unlinked(u64),
}
