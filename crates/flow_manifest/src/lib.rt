//! The manifest of an archive, and the two slots that hold it by turns: which files the archive consists of, in which
//! order, and what each of them counts.
//!
//! To the layers above: `encode` gives the octets of a valid manifest, and `decode` takes exactly those octets, of this
//! format or of the one before it, and names the first fault of all others. Through `swap_slots` the manifest in force
//! of every image of every moment is the old one or the new one, and after its Ok the new one. `prepare` and `commit`
//! are its two halves: the old one is in force until `commit` begins. `read_slots` answers which one is.
#![tactic(auto)]

mod checks;
mod creating;
mod decoding;
mod encoding;
mod error;
mod following;
mod head;
mod laws;
mod limits;
mod manifest;
mod reading;
mod slots;
mod swap;

pub use creating::create_slots;
pub use decoding::decode;
pub use encoding::encode;
pub use error::{ManifestError, OpenError};
pub use following::{JobKind, Staged, count_of, installed_manifest, next_manifest};
pub use laws::{one_answer, one_in_force, read_back};
pub use limits::{GREATEST_LIMIT, GREATEST_WIDTH, LEAST_LIMIT, MOST_ENTRIES, MOST_MESSAGES};
pub use manifest::{Entries, Entry, Kind, Manifest};
pub use reading::read_slots;
pub use slots::{Slot, Slots, commit, prepare, swap_slots};
