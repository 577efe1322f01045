//! A folder of the system: files 1 and 2 are `1.slot` and `2.slot`, each other file n is `n.ipfix`. `SystemDirectory`
//! has the calls of std on it, each the call of `Directory` that it stands for, a few lines each; `FolderDisk` is the
//! disk that is proved over every system of calls, over these; `FolderFiles` are the files of a folder that is only
//! read.
//!
//! That the calls of std keep their rules is a premise, as no contract can say what a real file holds: so `honest` is
//! false here. docs/DISK.md says what is assumed of the system.
//!
//! Files are opened by the folder's handle, so the folder may be renamed; a name of a file that a symbolic link, a
//! folder, a pipe or a device has is refused. The folder is locked as long as its directory, or a reader of it, exists.
#![tactic(auto)]

mod directory;
mod disk;
mod error;
mod files;
mod first_fault;
mod found;
mod marks;
mod naming;
mod place;
mod reader;
mod system;

pub use directory::SystemDirectory;
pub use disk::FolderDisk;
pub use error::SystemError;
pub use files::FolderFiles;
pub use first_fault::FirstFault;
pub use reader::SystemReader;
pub use system::{FolderError, Lockable};
