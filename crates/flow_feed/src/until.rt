//! An input into an archive, up to where feeding is asked to end.

ghost use Rattle.std.specs.Prelude.{◌≡◌, ◌≤◌, ◌<◌, false, true, length};
ghost use Rattle.flow_feed.specs.Feed.{ArePassed, AreRead};
ghost use Rattle.flow_feed.specs.Shared.{IsGivenShared, IsInSteps};
ghost use Rattle.flow_feed.specs.Until.{IsFedUntil};
ghost use Rattle.flow_feed.specs.Whole.{reached};

use crate::appender::{Appender, SharedAppender};
use crate::batch::{Fed, FeedStop};
use crate::counter::Counter;
use crate::giving::give;
use crate::held::HeldMessages;
use crate::reading::{Batch, MOST_TOGETHER, last_batch, next_batch};
use crate::watch::FeedWatch;
use crate::whole::WholeReader;
use flow_disk::Disk;
use flow_shared::Naming;
use std::alloc::{AllocError, Global};
use std::io::Read;
use std::sync::Wait;

/// Reads up to 64 messages, never past a fault of the File. Where one was read, it reads no more than what was read with
/// it, and the rest of its last message.
fn read_whole<R: Read, F: FeedWatch>(
    alloc: Global,
    reader: &mut WholeReader,
    input: &mut R,
    watch: &mut F,
) -> Batch
    ensures read { AreRead (reached reader.old (R.remaining input.old)) result.messages result.is_last
        result.stop (reached reader.new (R.remaining input.new)) }
    ensures few { length result.messages ≤ 64 }
    ensures some { result.is_last ≡ false → 0 < length result.messages }
{
    let mut messages = HeldMessages::new(alloc);
    for _ in 0..MOST_TOGETHER {
        let size = match reader.find(input, watch) {
            Ok(Some(size)) => size,
            Ok(None) => return last_batch(messages, None),
            Err(stop) => return last_batch(messages, Some(stop)),
        };
        match messages.push(reader.front(size)) {
            Ok(()) => {}
            Err(AllocError) => return last_batch(messages, Some(FeedStop::OutOfMemory)),
        }
        reader.take(size);
        if reader.holds_none() {
            return next_batch(messages);
        }
    }
    next_batch(messages)
}

/// Reads the first messages of a File without giving them to anybody: so many, or where it has fewer all of them, and
/// then how it ended.
fn pass_whole<R: Read, F: FeedWatch>(
    reader: &mut WholeReader,
    input: &mut R,
    watch: &mut F,
    first: u64,
) -> Option<Fed>
    ensures { ArePassed first (reached reader.old (R.remaining input.old)) (reached reader.new (R.remaining input.new))
        result }
{
    for _ in 0..first {
        match reader.find(input, watch) {
            Ok(Some(size)) => reader.take(size),
            Ok(None) => {
                return Some(Fed {
                    messages: reader.count(),
                    stop: None,
                });
            }
            Err(stop) => {
                return Some(Fed {
                    messages: reader.count(),
                    stop: Some(stop),
                });
            }
        }
    }
    None
}

/// Takes the messages that `input` gives into an archive as `feed` does; but where `watch` says that feeding is to end,
/// it ends between two messages: no octet was read that isn't of one that is taken in. It is asked once the messages are
/// read that are only read, each time before more is read than the rest of a message.
pub fn feed_until<A: Appender, R: Read, F: FeedWatch>(
    appender: &mut A,
    alloc: Global,
    input: &mut R,
    first: u64,
    watch: &mut F,
) -> Fed
    ensures { IsFedUntil A.appends (F.asked watch.new) first appender.old appender.new (R.remaining input.old)
        (R.remaining input.new) result }
{
    let Ok(mut reader) = WholeReader::new(alloc) else {
        return Fed {
            messages: 0,
            stop: Some(FeedStop::OutOfMemory),
        };
    };
    if let Some(ended) = pass_whole(&mut reader, input, watch, first) {
        return ended;
    }
    'batches: loop {
        // All messages that were taken of the reader before are taken in.
        let before = reader.count();
        if reader.holds_none() && watch.is_asked() {
            return Fed {
                messages: before,
                stop: None,
            };
        }
        let batch = read_whole(alloc, &mut reader, input, watch);
        let Ok(taken) = give(appender, alloc, &batch.messages) else {
            return Fed {
                messages: before,
                stop: Some(FeedStop::OutOfMemory),
            };
        };
        if let Some(error) = taken.stop {
            return Fed {
                messages: before + taken.count,
                stop: Some(FeedStop::Archive(error)),
            };
        }
        if batch.is_last {
            return Fed {
                messages: before + taken.count,
                stop: batch.stop,
            };
        }
    }
}

/// The same into an archive that threads share. Where the appender is whole then, the steps that it learnt meanwhile add
/// the messages that are reported, but for those that are only read, each once, in the File's order.
pub fn feed_shared_until<D: Disk, J: Naming, W: Wait, C: Counter + Drop, R: Read, F: FeedWatch>(
    appender: &mut SharedAppender<'_, D, J, W, C>,
    alloc: Global,
    input: &mut R,
    first: u64,
    watch: &mut F,
) -> Fed
    ensures fed { IsFedUntil (IsGivenShared D.Disk J.opening) (F.asked watch.new) first appender.old appender.new
        (R.remaining input.old) (R.remaining input.new) result }
    ensures steps { appender.new.whole ≡ true
        → IsInSteps first appender.old.steps appender.new.steps (R.remaining input.old) result }
{
    feed_until(appender, alloc, input, first, watch)
}
