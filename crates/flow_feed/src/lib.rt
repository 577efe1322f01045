//! Files into an archive that threads share.
//!
//! Promised to the layer above: `feed` takes the messages of a File, as they are read, in batches, and gives each batch
//! to an appender: the value under the archive's lock, or the archive that threads share. What is acknowledged of the
//! File are the messages after those that are passed over, in their order, each once, and as many as are reported, and
//! where nothing stopped it all the rest of the File. Into an archive that threads share `feed_shared` does the same,
//! and says of the thread that feeds that the steps which it learnt meanwhile add these messages. What isn't read, and
//! datagrams that are passed over, are counted meanwhile by whatever counts them (`Counter`). Where whoever watches over
//! it (`FeedWatch`) says that feeding is to end, `feed_until` ends between two messages: no octet of the input was read
//! that isn't taken in.
#![tactic(auto)]

mod appender;
mod batch;
mod collecting;
mod collecting_until;
mod counter;
mod datagrams;
mod feeding;
mod giving;
mod held;
mod reading;
mod refused;
mod until;
mod watch;
mod whole;

pub use appender::{Appender, SharedAppender};
pub use batch::{Fed, FeedStop};
pub use collecting::{Collected, collect, feed_datagrams};
pub use collecting_until::feed_datagrams_until;
pub use counter::{Counter, Uncounted};
pub use datagrams::{DATAGRAM_ROOM, Datagrams, ReceiveFailed, Receiver};
pub use feeding::{feed, feed_shared};
pub use refused::RefusedDatagrams;
pub use until::{feed_shared_until, feed_until};
pub use watch::FeedWatch;
