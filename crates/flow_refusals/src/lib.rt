//! The refusals: what each one's number, name and exit status are, what is said of it where it is asked for, and the
//! two that many layers answer.
//!
//! A refusal is printed as its number, its name and what it carries, parted by single spaces. Each layer has an enum of
//! the refusals that its calls answer; the numbers and the names are here alone.
#![tactic(auto)]

mod code;
mod read_refusal;
mod sum_refusal;
mod texts;

pub use code::RefusalCode;
pub use read_refusal::ReadRefusal;
pub use sum_refusal::SumRefusal;
