//! Disks in memory, for tests. `MemoryDisk` keeps a record of its calls, so that a stop can leave any image its files
//! may have; all its room is made at once.
#![tactic(auto)]

mod bad_reads;
mod choice;
mod deed;
mod device;
mod disk;
mod failing;
mod fill;
mod fused;
mod lie;
mod lying;
mod one_fault;
mod record;
mod reserved;
mod room;
mod sealed;
mod stop;
mod stored;
mod there;
mod when;

pub use bad_reads::{BadRead, FusedFile};
pub use choice::Choice;
pub use disk::MemoryDisk;
pub use failing::FailingDisk;
pub use fused::FusedDisk;
pub use lying::{LyingDisk, LyingFile, ReadBelow};
pub use one_fault::OneFaultDisk;
pub use room::Room;
pub use sealed::MemorySealed;
pub use when::{Countdown, Fuse, When};
