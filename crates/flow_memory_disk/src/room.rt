// How much room a memory disk makes.

/// The room that a memory disk makes when it is made. A call that would pass it is a fault.
#[derive(Clone, Copy, Debug, Drop)]
pub struct Room {
    /// How many files may be named by a call that changes a file, or by `freeze`.
    pub files: usize,
    /// How many octets a file may have, and its frozen copy; no more than 2^62.
    pub octets: usize,
    /// How many calls that change a file are recorded; a removal takes the room of two.
    pub calls: usize,
    /// How many octets are written in all.
    pub written: usize,
}
