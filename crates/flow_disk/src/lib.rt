//! The disk as every layer above sees it: files by number, what they read as, and what a stop may leave of them.
//!
//! Every disk keeps lengths, settled and frozen marks, a count of its failures and a clock. An honest one also keeps,
//! for each file, the images that a stop may leave, and gives all images of all moments since any moment. A `Window`
//! reads a part of a frozen file piece by piece. Nothing here runs on a device: `flow_memory_disk` and `flow_folder`
//! do, and every crate between rests on these promises alone.
#![tactic(auto)]

mod disk;
mod error;
mod faults;
mod laws;
mod sealed;
mod window;

pub use disk::{Disk, LIMIT};
pub use error::DiskError;
pub use faults::Faults;
pub use laws::{StopEffect, law_of_quiet_calls, law_of_runs, laws_of_images};
pub use sealed::{MayFail, SealedFile};
pub use window::{PIECE, Window};
