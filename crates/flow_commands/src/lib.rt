//! What the commands over an archive do, on any disk and over a folder.
//!
//! What the layers above may count on: on an honest disk `create` makes the archive that was asked for; `check` writes
//! the line of the state of what is read, and reports damage only where there is none. Whatever the disk,
//! and so over a folder, `check` writes one line of numbers, or nothing, or a prefix of one where writing failed. A
//! refusal is printed with its number and its name, and has its exit status. `feed` takes Files side by side, writes
//! exactly a line for each, in their order, and ends with the status of the first that stopped, or with the refusal of
//! the rolling; `roll` and `merge` are whole jobs, and write exactly how many files they summed.
#![tactic(auto)]

mod archive_files;
mod archive_refusal;
mod asking;
mod checking;
mod creating;
mod ending;
mod feed_line;
mod feeding;
mod folder_fault;
mod laws;
mod listing;
mod plan;
mod progress;
mod rolling;
mod side_by_side;
mod streaming;
mod totalling;
mod warner;
mod warning;

pub use archive_files::{check_files, check_files_in};
pub use archive_refusal::ArchiveRefusal;
pub use asking::{Asked, to_ask};
pub use checking::{Standing, check, check_in};
pub use creating::{create, create_in};
pub use ending::{Leave, ended};
pub use feed_line::fed_line;
pub use feeding::feed_in;
pub use folder_fault::FolderFault;
pub use laws::each_file_alone;
pub use listing::{flows, flows_in};
pub use plan::{FeedPlan, InputKind, NewArchive, StartSpan, Workers};
pub use progress::Progress;
pub use rolling::{roll, roll_in, roll_on};
pub use streaming::{take_input, unopened};
pub use totalling::{ask_rows, totals, totals_in};
pub use warning::{shows_more, tell_fault, warn_of_input, warn_of_wide};
