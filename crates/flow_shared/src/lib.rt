//! An archive that threads share: a lock, places for readers, and receipts.
#![tactic(auto)]

mod calls;
mod history;
mod locked;
mod reader;
mod receipt;
mod shared;
mod shown;
mod writing;

pub use history::{Naming, Opened, Tip, Told};
pub use locked::Locked;
pub use reader::{ArchiveReader, ReaderError};
pub use receipt::Receipt;
pub use shared::{SharedArchive, start};
pub use shown::{Shown, Telling};
pub use writing::Waits;
