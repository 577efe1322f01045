//! Threads over an archive: a query that several of them answer, and the one that rolls.
//!
//! Promised to the layer above: what `scan_by_parts` answers is what `totals` answers, for every number of workers, and
//! it refuses only where `totals` may. `roll_worker` makes turns of rolling, one call after the other, until one is
//! refused. No clause says that two threads run, or that a turn comes: tests show it.
#![tactic(auto)]

mod bell;
mod beside;
mod gate;
mod rolling;
mod scan;

pub use bell::{Bell, Keeping};
pub use beside::roll_beside;
pub use gate::{Gate, Open, Point};
pub use rolling::roll_worker;
pub use scan::scan_by_parts;
