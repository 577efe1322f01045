//! The files of an archive, in their order.

ghost use Rattle.std.specs.Prelude.{◌≡◌, ◌<◌, ℕ, drop, IsTrue, IfOk, OnErr, OnOk};
ghost use Rattle.flow_model.specs.Changes.{applied};
ghost use Rattle.flow_snapshot.specs.Directories.{sight_of};
ghost use Rattle.flow_snapshot.specs.Spans.{IsSightWithin};
ghost use Rattle.flow_snapshot.specs.Steps.{change_of, has_honest};

use crate::passing::{segments_within, sums_within};
use crate::step::Step;
use bytes::Bytes;
use flow_disk::SealedFile;
use flow_rolled::RolledPart;
use flow_segment::SealedPart;
use std::alloc::{AllocError, Global};
use std::sync::Arc;

/// The files of an archive, in each list the oldest first, each perhaps with further owners; and of the active segment
/// its prefix and the messages that were added to it.
#[derive(Drop)]
pub struct Files<S: SealedFile> {
    /// Sums over wide intervals.
    pub merged: Vec<Arc<RolledPart<S>>>,
    /// Sums over intervals of the width.
    pub rolled: Vec<Arc<RolledPart<S>>>,
    /// Sealed segments.
    pub sealed: Vec<Arc<SealedPart<S>>>,
    /// The active segment's prefix.
    pub prefix: Bytes,
    /// The messages of the active segment, in the order in which they were added.
    pub active: Vec<Bytes>,
}

/// Takes the first `count` items out of a list; all of them, where it has fewer.
fn drop_front<T: Drop>(list: &mut Vec<T>, count: usize)
    ensures { list.new.items ≡ drop count list.old.items }
{
    let count = count.min(list.len());
    list.rotate_left(count);
    list.truncate(list.len() - count);
}

impl<S: SealedFile> Files<S> {
    /// An equal value, which shares every file and the octets of every message.
    pub fn try_copy(&self) -> Result<Self, AllocError>
        ensures { IfOk result (λ copy. (width wide : ℕ) → sight_of width wide copy ≡ sight_of width wide self.now) }
    {
        Ok(Files {
            merged: self.merged.clone()?,
            rolled: self.rolled.clone()?,
            sealed: self.sealed.clone()?,
            prefix: self.prefix.clone()?,
            active: self.active.clone()?,
        })
    }

    /// Those that may have sums over intervals, of `width` or of `wide` seconds, that start from `from` on and before
    /// `to`. Nothing is read.
    pub(crate) fn within(
        &self,
        alloc: Global,
        width: u32,
        wide: u32,
        from: u64,
        to: u64,
    ) -> Result<Self, AllocError>
        requires width { 0 < width }
        requires wide { 0 < wide }
        ensures { IfOk result (λ kept. IsSightWithin from to (sight_of width wide self.now) (sight_of width wide kept)) }
    {
        let prefix = self.prefix.clone()?;
        let active = self.active.clone()?;
        Ok(Files {
            merged: sums_within(alloc, self.merged.as_slice(), wide, from, to)?,
            rolled: sums_within(alloc, self.rolled.as_slice(), width, from, to)?,
            sealed: segments_within(alloc, self.sealed.as_slice(), width, from, to)?,
            prefix,
            active,
        })
    }

    /// Makes a step. After an `Err` all is as it was.
    pub fn apply(&mut self, step: &Step<S>) -> Result<(), AllocError>
        ensures applied { OnOk result ((width wide : ℕ) → (sight_of width wide self.new).shelf
            ≡ applied (sight_of width wide self.old).shelf (change_of step.now)) }
        ensures honest { OnOk result ((width wide : ℕ) → IsTrue (sight_of width wide self.old).honest
            → IsTrue (has_honest step.now) → IsTrue (sight_of width wide self.new).honest) }
        ensures kept { OnErr result ((width wide : ℕ) → sight_of width wide self.new ≡ sight_of width wide self.old) }
    {
        match step {
            Step::Added(messages) => {
                let mut messages = messages.clone()?;
                self.active.append(&mut messages)
            }
            Step::Sealed(part, next) => {
                let next = next.clone()?;
                self.sealed.push(Arc::try_clone(part)?)?;
                self.prefix = next;
                self.active.clear();
                Ok(())
            }
            Step::Installed(part, count) => {
                self.rolled.push(Arc::try_clone(part)?)?;
                drop_front(&mut self.sealed, *count);
                Ok(())
            }
            Step::Merged(part, count) => {
                self.merged.push(Arc::try_clone(part)?)?;
                drop_front(&mut self.rolled, *count);
                Ok(())
            }
        }
    }
}
