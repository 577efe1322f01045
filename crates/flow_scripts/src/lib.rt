//! Scripts of archives, as text: what is asked of an archive and of its disk, line by line, and what is to be answered.
//!
//! `read_scripts` reads them all, or reports the first line that can't be read, and why. Nothing is played here.
#![tactic(auto)]

mod asked;
mod command;
mod error;
mod octets;
mod reading;
mod script;
mod verb;
mod words;

pub use command::{Command, Damage, Event, OfDisk, Question, Span, Widths};
pub use error::{BadScript, Why};
pub use reading::read_scripts;
pub use script::{Failing, Line, Script, ScriptPart, Size};
