//! A file of a directory between its first change and the sync that settles it, over any system that keeps the rules of
//! `Directory`.
#![tactic(auto)]

mod pending;
mod ranges;

pub use pending::{Pending, Stage};
