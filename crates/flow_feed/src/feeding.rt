//! A File into an archive.

ghost use Rattle.std.specs.Prelude.{◌≡◌, None, true, IfSome};
ghost use Rattle.flow_codec.specs.Stream.{progress};
ghost use Rattle.flow_feed.specs.Feed.{ArePassed, IsFed, IsOfFile};
ghost use Rattle.flow_feed.specs.Shared.{IsGivenShared, IsInSteps};

use crate::appender::{Appender, SharedAppender};
use crate::batch::{Fed, FeedStop};
use crate::counter::Counter;
use crate::giving::give;
use crate::reading::read_batch;
use flow_codec::MessageReader;
use flow_disk::Disk;
use flow_shared::Naming;
use std::alloc::Global;
use std::io::Read;
use std::sync::Wait;

/// Reads the first messages of a File without giving them to anybody: so many, or where it has fewer all of them, and
/// then how it ended.
fn pass<R: Read>(reader: &mut MessageReader, input: &mut R, first: u64) -> Option<Fed>
    requires { reader.old.stopped ≡ None }
    ensures passed { ArePassed first (progress reader.old (R.remaining input.old))
        (progress reader.new (R.remaining input.new)) result }
    ensures stop { IfSome result (λ fed. IsOfFile fed.stop) }
{
    for _ in 0..first {
        match reader.advance(input) {
            Ok(true) => {}
            Ok(false) => {
                return Some(Fed {
                    messages: reader.count(),
                    stop: None,
                });
            }
            Err(error) => {
                return Some(Fed {
                    messages: reader.count(),
                    stop: Some(FeedStop::File(error)),
                });
            }
        }
    }
    None
}

/// Takes the messages of the File that `input` reads into an archive, after the first `first` ones, which are only
/// read: up to its end, its first fault, or the first message that the archive refuses. A batch is what was read
/// together, up to 64 messages, and is given as soon as it is read; one that is refused by what its messages are is
/// given message by message. What is reported counts the messages of the File, those that were only read too.
pub fn feed<A: Appender, R: Read>(appender: &mut A, alloc: Global, input: &mut R, first: u64) -> Fed
    ensures fed { IsFed A.appends first appender.old appender.new (R.remaining input.old) result }
    ensures stop { IsOfFile result.stop }
{
    let Ok(mut reader) = MessageReader::new(alloc) else {
        return Fed {
            messages: 0,
            stop: Some(FeedStop::OutOfMemory),
        };
    };
    if let Some(ended) = pass(&mut reader, input, first) {
        return ended;
    }
    'batches: loop {
        // All messages that were read before are taken in.
        let before = reader.count();
        let batch = read_batch(alloc, &mut reader, input);
        let Ok(taken) = give(appender, alloc, &batch.messages) else {
            return Fed {
                messages: before,
                stop: Some(FeedStop::OutOfMemory),
            };
        };
        if let Some(error) = taken.stop {
            return Fed {
                messages: before + taken.count,
                stop: Some(FeedStop::Archive(error)),
            };
        }
        if batch.is_last {
            return Fed {
                messages: before + taken.count,
                stop: batch.stop,
            };
        }
    }
}

/// The same into an archive that threads share. Where the appender is whole then, the steps that it learnt meanwhile add
/// the messages that are reported, but for those that are only read, each once, in the File's order.
pub fn feed_shared<D: Disk, J: Naming, W: Wait, C: Counter + Drop, R: Read>(
    appender: &mut SharedAppender<'_, D, J, W, C>,
    alloc: Global,
    input: &mut R,
    first: u64,
) -> Fed
    ensures fed { IsFed (IsGivenShared D.Disk J.opening) first appender.old appender.new (R.remaining input.old) result }
    ensures stop { IsOfFile result.stop }
    ensures steps { appender.new.whole ≡ true
        → IsInSteps first appender.old.steps appender.new.steps (R.remaining input.old) result }
{
    feed(appender, alloc, input, first)
}
