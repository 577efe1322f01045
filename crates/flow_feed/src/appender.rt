//! What appends messages to an archive.

ghost use Rattle.std.specs.Prelude.{◌≡◌, true, ◌≤◌, ℕ, length, List, Result};
ghost use Rattle.flow_gate.specs.Steps.{slices};
ghost use Rattle.flow_archive.specs.declared.refusal.ArchiveError.{ArchiveError as Refusal};

use crate::counter::Counter;
use flow_archive::ArchiveError;
use flow_codec::{Losses, MessageError};
use flow_disk::Disk;
use flow_shared::{Locked, Naming, SharedArchive, Told};
use std::alloc::Global;
use std::marker::Model;
use std::sync::Wait;

/// Appends messages to an archive.
pub trait Appender {
    /// What an append of these messages makes of it, where this is answered: the number of the last one, or why none is
    /// taken.
    ghost appends: { Self → Self → List (List ℕ) → Result ℕ Refusal → Type 0 };

    /// Appends messages, from 1 to 64, all of them or none, and answers the number of the last one.
    fn append_batch(&mut self, alloc: Global, messages: &[&[u8]]) -> Result<u64, ArchiveError>
        requires some { 1 ≤ length messages.now }
        requires few { length messages.now ≤ 64 }
        ensures { appends self.old self.new (slices messages.now) result };

    /// A datagram isn't accepted for this fault, and is passed over.
    fn pass_over(&mut self, fault: MessageError)
        ensures { self.new ≡ self.old };
}

/// The value under the lock of an archive that threads share: what an append makes of it is said of the archive, and of
/// the steps that readers are shown.
impl<D: Disk, J: Naming, W: Wait> Appender for Locked<D, J, W> {
    ghost use Rattle.flow_feed.specs.Given.{IsGivenLocked};

    ghost appends = { λ old new messages result. IsGivenLocked D.Disk old new messages
        result };

    fn append_batch(&mut self, alloc: Global, messages: &[&[u8]]) -> Result<u64, ArchiveError> {
        let receipt = Locked::append_batch(self, alloc, messages)?;
        Ok(receipt.position)
    }

    fn pass_over(&mut self, _fault: MessageError) {}
}

/// An archive that threads share, with the handle by which one of them waits for its lock, and the steps that this one
/// knows. It is seen as these steps, and whether they have the step of each batch that it was acknowledged. What is
/// counted of records that aren't read, and of datagrams that are passed over, is added to a counter as it goes.
#[derive(Drop)]
pub struct SharedAppender<'a, D: Disk, J: Naming, W: Wait, C: Counter + Drop> {
    shared: &'a SharedArchive<D, J, W>,
    rt: &'a W,
    counter: C,
    losses: Losses,
    steps: Told<J>,
    is_whole: bool,
}

impl<'a, D: Disk, J: Naming, W: Wait, C: Counter + Drop> Model for SharedAppender<'a, D, J, W, C> {
    ghost use Rattle.flow_feed.specs.Shared.{known, Known};

    ghost Value = { Known };

    ghost view = { λ a. known a.steps a.is_whole };
}

impl<'a, D: Disk, J: Naming, W: Wait, C: Counter + Drop> SharedAppender<'a, D, J, W, C> {
    /// One that waits by this handle, and counts there.
    pub fn new(rt: &'a W, shared: &'a SharedArchive<D, J, W>, counter: C) -> Self
        ensures { result.whole ≡ true }
    {
        SharedAppender {
            shared,
            rt,
            counter,
            losses: Losses::none(),
            steps: shared.steps(rt),
            is_whole: true,
        }
    }

    /// What all messages that it appended show of records that aren't read.
    pub fn losses(&self) -> Losses {
        self.losses
    }

    /// Whether the steps that it knows have the step of each batch that it was acknowledged.
    pub fn is_whole(&self) -> bool
        ensures { result ≡ self.now.whole }
    {
        self.is_whole
    }
}

impl<D: Disk, J: Naming, W: Wait, C: Counter + Drop> Appender for SharedAppender<'_, D, J, W, C> {
    ghost use Rattle.flow_feed.specs.Shared.{IsGivenShared};

    ghost appends = { λ old new messages result. IsGivenShared D.Disk J.opening old new messages result };

    fn append_batch(&mut self, alloc: Global, messages: &[&[u8]]) -> Result<u64, ArchiveError> {
        let receipt = self
            .shared
            .append_batch(self.rt, alloc, &mut self.steps, messages, self.losses)?;
        self.losses = self.losses.and_piece(receipt.losses);
        self.counter.add_losses(receipt.losses);
        if !receipt.made {
            self.is_whole = false;
        }
        Ok(receipt.position)
    }

    fn pass_over(&mut self, fault: MessageError) {
        self.counter.add_refused(fault);
    }
}
