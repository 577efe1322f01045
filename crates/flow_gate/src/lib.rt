//! Lists of messages in a file, each with a gate that is opened once it is on the disk.
//!
//! A batch is placed with its gate closed, and settled; then the gate is opened and settled. A stop at any moment
//! leaves each list as it was, or, once `open_gate` has begun, with all messages of the batch; after its Ok, with all
//! of them. `scan` reads a list back: Ok on a gated list alone, else the place of the damage.
#![tactic(auto)]

mod batch;
mod gate;
mod laws;
mod messages;
mod tail;
mod walk;

pub use batch::add_batch;
pub use gate::{open_gate, place, place_batch};
pub use laws::laws_of_lists;
pub use messages::{message_at, messages_from};
pub use tail::{ScanError, Tail};
pub use walk::scan;
