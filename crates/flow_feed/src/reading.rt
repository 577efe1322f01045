//! The messages of a File, as they are read.

ghost use Rattle.std.specs.Prelude.{◌≡◌, ◌≤◌, ◌<◌, false, true, length, None};
ghost use Rattle.flow_codec.specs.Stream.{progress};
ghost use Rattle.flow_feed.specs.Feed.{AreRead, IsOfFile};

use crate::batch::FeedStop;
use crate::held::HeldMessages;
use flow_codec::MessageReader;
use std::alloc::{AllocError, Global};
use std::io::Read;

/// The most messages that are taken in together.
pub(crate) const MOST_TOGETHER: u64 = 64;

/// Messages that were read together, and what follows them: more, unless the File is at its end or stops there.
#[derive(Drop)]
pub(crate) struct Batch {
    pub(crate) messages: HeldMessages,
    pub(crate) is_last: bool,
    pub(crate) stop: Option<FeedStop>,
}

/// Messages after which no others are read.
pub(crate) fn last_batch(messages: HeldMessages, stop: Option<FeedStop>) -> Batch
    ensures { result ≡ record { messages = messages; is_last = true; stop = stop } }
{
    Batch {
        messages,
        is_last: true,
        stop,
    }
}

/// Messages after which others may be read.
pub(crate) fn next_batch(messages: HeldMessages) -> Batch
    ensures { result ≡ record { messages = messages; is_last = false; stop = None } }
{
    Batch {
        messages,
        is_last: false,
        stop: None,
    }
}

/// Reads up to 64 messages, never past a fault of the File. Where one was read, it reads no more than what was read
/// with it: a message isn't held back for others that are still to come.
pub(crate) fn read_batch<R: Read>(alloc: Global, reader: &mut MessageReader, input: &mut R) -> Batch
    requires { reader.old.stopped ≡ None }
    ensures read { AreRead (progress reader.old (R.remaining input.old)) result.messages result.is_last
        result.stop (progress reader.new (R.remaining input.new)) }
    ensures few { length result.messages ≤ 64 }
    ensures some { result.is_last ≡ false → 0 < length result.messages }
    ensures stop { IsOfFile result.stop }
{
    let mut messages = HeldMessages::new(alloc);
    for _ in 0..MOST_TOGETHER {
        match reader.advance(input) {
            Ok(true) => {}
            Ok(false) => return last_batch(messages, None),
            Err(error) => return last_batch(messages, Some(FeedStop::File(error))),
        }
        match messages.push(reader.message()) {
            Ok(()) => {}
            Err(AllocError) => return last_batch(messages, Some(FeedStop::OutOfMemory)),
        }
        if !reader.has_read_next() {
            return next_batch(messages);
        }
    }
    next_batch(messages)
}
