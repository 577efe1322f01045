//! Several archives, asked in the order of their disks, or of their folders.
//!
//! Promised to the layer above: on honest disks `totals_of` writes the totals lines of all archives together, the sums
//! of what is read of each of them, or nothing where one can't be summed, which is then named: the first, by its
//! number. `totals_of_each` and `flows_of_each` write those of each archive, with its number first, up to the first
//! that can't be asked. Whatever the disks, lines of rows, or of flows, of the span are written, or nothing, or a
//! prefix where writing failed. As many archives as there are processors are asked at once, or for flows opened, each in
//! a thread of its own; what is answered is what one thread would answer.
//!
//! `ask_folders` asks archives in folders so: all folders are opened before the first archive is asked, and each disk is
//! that of the folder at its place. A folder that can't be opened is named, the first by its number, and nothing is
//! written.
#![tactic(auto)]

mod answer;
mod asked;
mod asking;
mod error;
mod flow_lines;
mod folders_refusal;
mod in_turn;
mod interleaving;
mod laws;
mod listing;
mod listing_refusal;
mod numbered;
mod opener;
mod opening;
mod refusal;
mod side_by_side;
mod summing;
mod threads;
mod together;
mod totalling;
mod writing;

pub use asked::Asking;
pub use asking::{Question, Wanted, ask_folders};
pub use error::TogetherError;
pub use folders_refusal::FoldersRefusal;
pub use in_turn::InTurn;
pub use laws::sums_of_several;
pub use listing::flows_of_each;
pub use opener::{FolderViews, Opener};
pub use refusal::{SeveralRefusal, SummingRefusal};
pub use threads::at_once;
pub use together::Together;
pub use totalling::{totals_of, totals_of_each};
