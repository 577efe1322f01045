//! A directory in memory that loses what a real one may lose, and keeps every rule of `Directory`.
//!
//! It has the system's memory of each file and the device's apart. A sync writes what is dirty from the one to the
//! other; a sync that fails loses it, as an opening may; so does a sync of the directory with names. That each rule is
//! kept shows that the rules don't contradict each other, where things are lost too.
#![tactic(auto)]

mod all;
mod calls;
mod deed;
mod error;
mod events;
mod lists;
mod mark;
mod memory;
mod node;
mod reader;

pub use error::MemoryError;
pub use memory::MemoryDirectory;
pub use reader::MemoryReader;
