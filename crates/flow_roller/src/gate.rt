//! Where threads may be held.

/// A place in a thread's work.
#[derive(Clone, Copy, Debug, PartialEq, Eq)]
pub enum Point {
    /// Before the first part of a worker of a scan. Workers are numbered from 1 on.
    Worker(u32),
    /// Before a turn of rolling. Turns are numbered from 1 on.
    Turn(u64),
}

/// What a thread passes on its way, so that a test can hold it there.
pub trait Gate {
    /// Returns when the thread may go on.
    fn pass(&self, point: Point);
}

/// Holds nothing.
#[derive(Clone, Copy, Debug)]
pub struct Open;

impl Gate for Open {
    fn pass(&self, _point: Point) {}
}
