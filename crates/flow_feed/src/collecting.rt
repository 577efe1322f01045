//! Datagrams into an archive.

ghost use Rattle.std.specs.Prelude.{◌≡◌, true, length};
ghost use Rattle.flow_feed.specs.Datagrams.{fault_in, AreCollected, AreInSteps, AreReadFrom, IsNoted, IsTaken};
ghost use Rattle.flow_feed.specs.Shared.{IsGivenShared};

use crate::appender::{Appender, SharedAppender};
use crate::batch::{Fed, FeedStop};
use crate::counter::Counter;
use crate::datagrams::{DATAGRAM_ROOM, Datagrams, Receiver};
use crate::refused::RefusedDatagrams;
use flow_archive::ArchiveError;
use flow_codec::{MessageError, StreamError};
use flow_disk::Disk;
use flow_shared::Naming;
use std::alloc::Global;
use std::io::Read;
use std::sync::Wait;

/// How far a stream of datagrams was taken in.
#[derive(Clone, Copy, Debug, PartialEq, Eq)]
pub struct Collected {
    /// How many were acknowledged, and why no more are received.
    pub fed: Fed,
    /// How many weren't accepted.
    pub refused: RefusedDatagrams,
}

/// Why a datagram that was refused for this isn't accepted; None where that isn't why.
fn fault_of(error: ArchiveError) -> Option<MessageError>
    ensures { result ≡ fault_in error }
{
    match error {
        ArchiveError::Message(MessageError::OutOfMemory) => None,
        ArchiveError::Message(fault) => Some(fault),
        _ => None,
    }
}

/// Gives a datagram by itself. Where it isn't accepted it is passed over, and its fault is answered.
pub(crate) fn take_datagram<A: Appender>(
    appender: &mut A,
    alloc: Global,
    datagram: &[u8],
) -> Result<Option<MessageError>, ArchiveError>
    ensures { IsTaken A.appends appender.old appender.new datagram.now result }
{
    let Err(error) = appender.append_batch(alloc, &[datagram]) else {
        return Ok(None);
    };
    match fault_of(error) {
        Some(fault) => {
            appender.pass_over(fault);
            Ok(Some(fault))
        }
        None => Err(error),
    }
}

/// What came of datagrams so far.
#[derive(Clone, Copy)]
pub(crate) struct Tally {
    pub(crate) messages: u64,
    pub(crate) refused: RefusedDatagrams,
}

impl Tally {
    /// One more was taken in, or isn't accepted for this fault.
    pub(crate) fn note(&mut self, fault: Option<MessageError>)
        ensures { IsNoted fault self.old self.new }
    {
        match fault {
            None => self.messages = self.messages.saturating_add(1),
            Some(fault) => self.refused.add(fault),
        }
    }

    /// No more are received.
    pub(crate) fn ended(self, stop: Option<FeedStop>) -> Collected
        ensures { result ≡ record { fed = record { messages = self.messages; stop = stop }; refused = self.refused } }
    {
        Collected {
            fed: Fed {
                messages: self.messages,
                stop,
            },
            refused: self.refused,
        }
    }
}

/// Takes the datagrams of a source into an archive, each received into this room.
fn collect_into<A: Appender, S: Datagrams>(
    appender: &mut A,
    alloc: Global,
    source: &mut S,
    room: &mut [u8],
) -> Collected
    requires { length room.old ≡ 65536 }
    ensures { AreCollected A.appends S.gives S.ends S.fails appender.old appender.new source.old source.new result }
{
    let refused = RefusedDatagrams::none();
    let mut tally = Tally {
        messages: 0,
        refused,
    };
    for _ in 0..u64::MAX {
        match source.receive(room) {
            Ok(Some(count)) => match take_datagram(appender, alloc, &room[..count]) {
                Ok(fault) => tally.note(fault),
                Err(error) => return tally.ended(Some(FeedStop::Archive(error))),
            },
            Ok(None) => return tally.ended(None),
            Err(failed) => return tally.ended(Some(FeedStop::Unreceived(failed))),
        }
    }
    tally.ended(Some(FeedStop::File(StreamError::NumbersSpent)))
}

/// Takes the datagrams of a source into an archive, each as one message. One that isn't accepted is passed over and
/// counted, an empty one too, and the next one is received; up to the source's end, or the first that the archive
/// refuses for another reason.
pub fn collect<A: Appender, S: Datagrams>(
    appender: &mut A,
    alloc: Global,
    source: &mut S,
) -> Collected
    ensures { AreCollected A.appends S.gives S.ends S.fails appender.old appender.new source.old source.new result }
{
    let Ok(mut room) = Vec::from_elem(alloc, 0u8, DATAGRAM_ROOM) else {
        let refused = RefusedDatagrams::none();
        let tally = Tally {
            messages: 0,
            refused,
        };
        return tally.ended(Some(FeedStop::OutOfMemory));
    };
    collect_into(appender, alloc, source, room.as_mut_slice())
}

/// The datagrams that an input gives, one a read, into an archive that threads share; `is_socket` says whether it is a
/// socket, of which a read may give an empty one. Where the appender is whole then, the steps that it learnt meanwhile
/// add the messages that are taken in, each once, in their order.
pub fn feed_datagrams<D: Disk, J: Naming, W: Wait, C: Counter + Drop, R: Read>(
    appender: &mut SharedAppender<'_, D, J, W, C>,
    alloc: Global,
    input: &mut R,
    is_socket: bool,
) -> Collected
    ensures collected { AreReadFrom (IsGivenShared D.Disk J.opening) is_socket appender.old appender.new
        (R.remaining input.old) result }
    ensures steps { appender.new.whole ≡ true
        → AreInSteps D.Disk J.opening is_socket appender.old appender.new (R.remaining input.old) result }
{
    let mut receiver = Receiver::new(input, is_socket);
    collect(appender, alloc, &mut receiver)
}
