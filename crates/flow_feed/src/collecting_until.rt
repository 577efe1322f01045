//! Datagrams into an archive, up to where feeding is asked to end.

ghost use Rattle.std.specs.Prelude.{◌≡◌, true, length};
ghost use Rattle.flow_feed.specs.Shared.{IsGivenShared};
ghost use Rattle.flow_feed.specs.Until.{AreReadUntil, AreStepsUntil};

use crate::appender::{Appender, SharedAppender};
use crate::batch::FeedStop;
use crate::collecting::{Collected, Tally, take_datagram};
use crate::counter::Counter;
use crate::datagrams::{DATAGRAM_ROOM, EmptyReads};
use crate::refused::RefusedDatagrams;
use crate::watch::FeedWatch;
use flow_codec::StreamError;
use flow_disk::Disk;
use flow_shared::Naming;
use std::alloc::Global;
use std::io::Read;
use std::sync::Wait;

/// Takes the datagrams of an input into an archive, each received into this room, up to where feeding is asked to end.
fn collect_until<A: Appender, R: Read, F: FeedWatch>(
    appender: &mut A,
    alloc: Global,
    input: &mut R,
    is_socket: bool,
    watch: &mut F,
    room: &mut [u8],
) -> Collected
    requires { length room.old ≡ 65536 }
    ensures { AreReadUntil A.appends (F.asked watch.new) is_socket appender.old appender.new (R.remaining input.old)
        (R.remaining input.new) result }
{
    let mut reads = EmptyReads::new(is_socket);
    let refused = RefusedDatagrams::none();
    let mut tally = Tally {
        messages: 0,
        refused,
    };
    for _ in 0..u64::MAX {
        if watch.is_asked() {
            return tally.ended(None);
        }
        match reads.receive(input, room) {
            Ok(Some(count)) => {
                watch.note_read(count);
                match take_datagram(appender, alloc, &room[..count]) {
                    Ok(fault) => tally.note(fault),
                    Err(error) => return tally.ended(Some(FeedStop::Archive(error))),
                }
            }
            Ok(None) => return tally.ended(None),
            Err(failed) => return tally.ended(Some(FeedStop::Unreceived(failed))),
        }
    }
    tally.ended(Some(FeedStop::File(StreamError::NumbersSpent)))
}

/// The datagrams that an input gives, one a read, into an archive that threads share, as `feed_datagrams` takes them;
/// but where `watch` says so before a datagram is received, it ends, and no octet is lost: what wasn't received is left
/// in the input.
pub fn feed_datagrams_until<D: Disk, J: Naming, W: Wait, C: Counter + Drop, R: Read, F: FeedWatch>(
    appender: &mut SharedAppender<'_, D, J, W, C>,
    alloc: Global,
    input: &mut R,
    is_socket: bool,
    watch: &mut F,
) -> Collected
    ensures collected { AreReadUntil (IsGivenShared D.Disk J.opening) (F.asked watch.new) is_socket appender.old
        appender.new (R.remaining input.old) (R.remaining input.new) result }
    ensures steps { appender.new.whole ≡ true
        → AreStepsUntil D.Disk J.opening (F.asked watch.new) is_socket appender.old appender.new
        (R.remaining input.old) (R.remaining input.new) result }
{
    let Ok(mut room) = Vec::from_elem(alloc, 0u8, DATAGRAM_ROOM) else {
        let refused = RefusedDatagrams::none();
        let tally = Tally {
            messages: 0,
            refused,
        };
        return tally.ended(Some(FeedStop::OutOfMemory));
    };
    collect_until(
        appender,
        alloc,
        input,
        is_socket,
        watch,
        room.as_mut_slice(),
    )
}
