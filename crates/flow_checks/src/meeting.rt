//! Two threads that wait for each other.

use flow_roller::{Gate, Point};
use std::sync::atomic::{AtomicBool, AtomicU64, Ordering};
use std::thread;

/// So often a thread looks before it gives up.
const LOOKS: u64 = 10_000_000;

/// How many have come, and whether one has looked too often for another.
#[derive(Drop)]
pub(crate) struct Meeting {
    come: AtomicU64,
    missed: AtomicBool,
}

impl Meeting {
    pub(crate) fn new() -> Self {
        Meeting {
            come: AtomicU64::new(0),
            missed: AtomicBool::new(false),
        }
    }

    /// One comes.
    pub(crate) fn come(&self) {
        self.come.fetch_add(1, Ordering::SeqCst);
    }

    /// Waits until so many have come.
    pub(crate) fn wait_for(&self, count: u64) {
        for _ in 0..LOOKS {
            if self.come.load(Ordering::SeqCst) >= count {
                return;
            }
            thread::yield_now();
        }
        self.missed.store(true, Ordering::SeqCst);
    }

    /// Whether nobody looked too often.
    pub(crate) fn is_met(&self) -> bool {
        !self.missed.load(Ordering::SeqCst)
    }
}

/// A worker, and the second turn of rolling, wait until another has come.
impl Gate for Meeting {
    fn pass(&self, point: Point) {
        match point {
            Point::Worker(_) | Point::Turn(2) => {
                self.come();
                self.wait_for(2);
            }
            Point::Turn(_) => {}
        }
    }
}
