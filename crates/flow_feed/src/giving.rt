//! Messages, given to an appender.

ghost use Rattle.std.specs.Prelude.{◌≡◌, ◌≤◌, ◌<◌, length, take, IfErr, IfNone, IfOk, IfSome};
ghost use Rattle.flow_gate.specs.Steps.{slices};
ghost use Rattle.flow_feed.specs.Feed.{batch_of};
ghost use Rattle.flow_feed.specs.Given.{AreGivenInTurn, AreGivenSingly, HasTaken, IsGivenTogether};
ghost use Rattle.flow_feed.specs.Given.{is_of_messages as of_messages};

use crate::appender::Appender;
use crate::held::HeldMessages;
use flow_archive::ArchiveError;
use std::alloc::{AllocError, Global};

/// How many of some messages are taken in, and why the next one isn't.
#[derive(Drop)]
pub(crate) struct Taken {
    pub(crate) count: u64,
    pub(crate) stop: Option<ArchiveError>,
}

/// Gives messages one by one, up to the first that isn't taken.
fn take_singly<A: Appender>(appender: &mut A, alloc: Global, messages: &[&[u8]]) -> Taken
    ensures most { result.count ≤ length messages.now }
    ensures taken { HasTaken A.appends (AreGivenSingly (slices messages.now)) appender.old appender.new
        (take result.count (slices messages.now)) result.stop }
    ensures fewer { IfSome result.stop (λ _. result.count < length messages.now) }
    ensures all { IfNone result.stop (result.count ≡ length messages.now) }
{
    let mut count = 0;
    for message in messages {
        match appender.append_batch(alloc, &[*message]) {
            Ok(_) => count += 1,
            Err(error) => {
                return Taken {
                    count,
                    stop: Some(error),
                };
            }
        }
    }
    Taken { count, stop: None }
}

/// Whether messages of a batch that is refused for this may be taken singly.
fn is_of_messages(error: ArchiveError) -> bool
    ensures { result ≡ of_messages error }
{
    matches!(
        error,
        ArchiveError::Message(_)
            | ArchiveError::NumbersSpent
            | ArchiveError::NoRoom
            | ArchiveError::ManifestFull
    )
}

/// Gives from 1 to 64 messages together, or where that is refused by what they are, one by one.
pub(crate) fn take_batch<A: Appender>(appender: &mut A, alloc: Global, messages: &[&[u8]]) -> Taken
    requires some { 1 ≤ length messages.now }
    requires few { length messages.now ≤ 64 }
    ensures most { result.count ≤ length messages.now }
    ensures taken { HasTaken A.appends (IsGivenTogether (slices messages.now)) appender.old appender.new
        (take result.count (slices messages.now)) result.stop }
    ensures fewer { IfSome result.stop (λ _. result.count < length messages.now) }
    ensures all { IfNone result.stop (result.count ≡ length messages.now) }
{
    let count = messages.len() as u64;
    let Err(error) = appender.append_batch(alloc, messages) else {
        return Taken { count, stop: None };
    };
    if count > 1 && is_of_messages(error) {
        return take_singly(appender, alloc, messages);
    }
    Taken {
        count: 0,
        stop: Some(error),
    }
}

/// Gives messages that were read together, which may be none.
///
/// Errors: there was no memory to give any.
pub(crate) fn give<A: Appender>(
    appender: &mut A,
    alloc: Global,
    messages: &HeldMessages,
) -> Result<Taken, AllocError>
    requires { length messages.now ≤ 64 }
    ensures refused { IfErr result (λ _. appender.new ≡ appender.old) }
    ensures most { IfOk result (λ t. t.count ≤ length messages.now) }
    ensures taken { IfOk result (λ t. HasTaken A.appends (AreGivenInTurn (batch_of messages.now)) appender.old
        appender.new (take t.count messages.now) t.stop) }
    ensures fewer { IfOk result (λ t. IfSome t.stop (λ _. t.count < length messages.now)) }
    ensures all { IfOk result (λ t. IfNone t.stop (t.count ≡ length messages.now)) }
{
    if messages.len() == 0 {
        return Ok(Taken {
            count: 0,
            stop: None,
        });
    }
    let slices = messages.slices(alloc)?;
    Ok(take_batch(appender, alloc, slices.as_slice()))
}
