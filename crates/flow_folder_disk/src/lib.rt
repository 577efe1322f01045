//! A folder of files as a disk, over any system that keeps the rules of `Directory`.
#![tactic(auto)]

mod changing;
mod disk;
mod ending;
mod folder;
mod listing;
mod names;
mod number_range;
mod numbers;
mod reported;
mod reporting;
mod sealed;
mod sealing;
mod syncing;

pub use disk::FolderDisk;
pub use reported::{NoRoom, Reported, Table};
pub use sealed::{FolderSealed, ReadFailed};
