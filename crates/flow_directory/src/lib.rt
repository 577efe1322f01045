//! The system calls on the files of one directory, each with the rule that it keeps.
//!
//! A folder of files is proved over any system that keeps these rules, and can call nothing else. A rule says what a
//! call does to what a file reads as, to what a stop of the machine may leave of it, and to what waits for a sync or was
//! lost by a failed one. docs/DISK.md has a sentence for each, and who promises it.
#![tactic(auto)]

mod directory;
mod reader;

pub use directory::{Access, CallError, Directory, Status};
pub use reader::FileReader;
