//! A folder of the system as a disk that is only read: nothing of the folder is changed, whatever is called.
//!
//! Promised to the layers above, whatever the system answers: every clause of `Disk` that requires no honesty. A cut
//! and a removal are made in memory alone: from then on the file has the length that the cut gave it, or is empty and
//! isn't listed. A write is a fault; a sync has nothing to do, and answers Ok. So what opens an archive, which cuts and
//! removes what a crash left and writes no octet, finds here what it would find if it changed the folder, and leaves
//! the folder as it is.
//!
//! The folder is locked together with other views, against disks that change it, as long as the view or a frozen file
//! of it exists. The crate calls nothing of the system itself: the files are those of `FolderFiles`, whose calls only
//! read. No contract can say what a real file holds, so `honest` is false, as it is of `FolderDisk`.
#![tactic(auto)]

mod changed;
mod view;

pub use view::FolderView;
