// A folder of the system as a disk.
use crate::directory::SystemDirectory;

/// A folder of the system as a disk: the one that is proved over every system of calls, over those of std.
pub type FolderDisk<'a, R> = flow_folder_disk::FolderDisk<SystemDirectory<'a, R>>;
