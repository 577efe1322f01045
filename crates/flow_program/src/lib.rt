//! Command lines: what their words ask for, and what a run of the program answers.
//!
//! What the program may count on: words ask for exactly what is said of them, or for nothing, and one line says why; a
//! run is that of the command that they ask for, on the input and the folder that they name, and answers its status;
//! status 0 leaves standard error as it was.
#![tactic(auto)]

mod archives;
mod arguments;
mod checking;
mod checks;
mod explaining;
mod export_words;
mod exporting;
mod grammar;
mod inspecting;
mod refusing;
mod request;
mod run;
mod several;
mod side_by_side;
mod telling;

pub use run::run_line;
