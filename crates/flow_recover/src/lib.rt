//! Opening an archive: what an image of a disk represents, and the state that is found on it.
//!
//! Promised to the layers above: an image represents one state at most, files that its manifest doesn't name play no
//! part, and what an open archive knows of an image is that it represents what is left of the archive on a disk. What
//! states and images are, and what they mean, is in flow_model.
//! Opening looks at what the files mean: messages are accepted, each prefix is the one that the segment before it
//! determines, and rolled files are sums. It keeps at every moment what each image represented, and refuses for other
//! reasons than the device and memory only where what is read represents no state. It finds the state that what is read
//! represents, the carry that its active segment passes on, and when the flows of each other file start.
//! It cuts each file that the manifest names exactly where it is to end, leaves those before the active one frozen,
//! removes what the manifest doesn't name, and only settles the slots.
#![tactic(auto)]

mod active;
mod chaining;
mod laws;
mod opening;
mod pieces;
mod reading;
mod segments;
mod settling;
mod tidying;

pub use active::ActiveSegment;
pub use laws::what_an_image_stands_for;
pub use opening::{Recovered, recover};
