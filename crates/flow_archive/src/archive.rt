//! The archive over a disk, and what it answers of itself.

ghost use Rattle.std.specs.Prelude.{◌≡◌, ◌↔◌, true, false, IsTrue, length};
ghost use Rattle.flow_disk.specs.Disk.{AllImages};
ghost use Rattle.flow_manifest.specs.declared.manifest.Kind.TheVariants.{Rolled, Sealed};
ghost use Rattle.flow_manifest.specs.Following.{count_of, front_of};
ghost use Rattle.flow_manifest.specs.Manifest.{IsValidManifest};
ghost use Rattle.flow_model.specs.Shelved.{shelf_of};
ghost use Rattle.flow_model.specs.State.{end_of, reopened};
ghost use Rattle.flow_model.specs.Standing.{StandsFor};
ghost use Rattle.flow_archive.specs.Answers.{HasRoom, archive_position};
ghost use Rattle.flow_archive.specs.Seen.{Seen};
ghost use Rattle.flow_archive.specs.UnderWay.{status_of};
ghost use Rattle.flow_model.specs.Shelf.{position_of};

use crate::frozen::FrozenFile;
use crate::job::{JobStatus, RunningJob, status};
use bytes::Bytes;
use flow_codec::Losses;
use flow_disk::Disk;
use flow_manifest::{Entry, Kind, Manifest, Slots, count_of};
use flow_measure::PartSpan;
use flow_segment::Carry;
use std::marker::Model;

/// An archive of IPFIX messages on a disk. Each change is on the disk when it is answered, and a stop at any moment
/// leaves it whole or not at all.
#[derive(Drop)]
pub struct Archive<D: Disk> {
    pub(crate) disk: D,
    pub(crate) slots: Slots,
    pub(crate) active: Entry,
    pub(crate) end: u64,
    pub(crate) total: u64,
    pub(crate) carry: Carry,
    pub(crate) files: Vec<FrozenFile<D::Sealed>>,
    pub(crate) prefix: Bytes,
    pub(crate) messages: Vec<Bytes>,
    /// When the flows of the active segment's messages start, where that was noted since the segment began.
    pub(crate) span: Option<PartSpan>,
    pub(crate) next: u64,
    pub(crate) job: Option<RunningJob<D::Sealed>>,
    pub(crate) waiting: Vec<FrozenFile<D::Sealed>>,
    pub(crate) shared: bool,
    pub(crate) closed: bool,
}

impl<D: Disk> Model for Archive<D> {
    ghost use Rattle.flow_archive.specs.Seen.{Seen, IsArchive, IsNotedWhileOpen, state_in};
    ghost use Rattle.flow_archive.specs.UnderWay.{under_way_in, HasOwnFiles, IsUnderWay};

    ghost Value = { Seen D };

    ghost view = { λ a. record {
      disk = a.disk;
      state = state_in (under_way_in a.next a.job a.waiting.items) a.shared a.slots.current a.files.items a.prefix
          a.messages.items;
      closed = a.closed;
    } };

    ghost invariant = { λ a. IsArchive D.honest D.marks D.held a.disk a.slots a.active a.end a.total a.carry
        a.files.items (state_in (under_way_in a.next a.job a.waiting.items) a.shared a.slots.current a.files.items
        a.prefix a.messages.items) a.closed
        × IsUnderWay D.honest D.marks D.held a.disk (state_in (under_way_in a.next a.job a.waiting.items) a.shared
        a.slots.current a.files.items a.prefix a.messages.items) (under_way_in a.next a.job a.waiting.items) a.closed
        × HasOwnFiles a.shared a.files.items (under_way_in a.next a.job a.waiting.items)
        × IsNotedWhileOpen a.closed a.span a.prefix a.messages.items a.carry };
}

impl<D: Disk> Archive<D> {
    /// Whether a fault of the device has closed it: it takes no more changes, and is to be given up and opened again.
    pub fn is_closed(&self) -> bool
        ensures closed { result ≡ self.now.closed }
        // While it is open, each image represents its state.
        ensures stands { IsTrue (D.honest self.now.disk) → self.now.closed ≡ false
            → AllImages (D.held self.now.disk) (λ image. StandsFor image (reopened self.now.state)) }
        // On every disk, open or not, its manifest is a valid one.
        ensures valid { IsValidManifest self.now.state.manifest }
        // Each file but the active one has its part, and its files have as many messages as its numbers say.
        ensures parts { length self.now.state.parts ≡ length (front_of self.now.state.manifest) }
        ensures counted { position_of (shelf_of self.now.state) ≡ archive_position self.now.state }
    {
        self.closed
    }

    /// Whether so many octets of messages more are within the limit of the active segment.
    pub fn has_room(&self, octets: u64) -> bool
        ensures { (result ≡ true) ↔ HasRoom self.now.state octets }
    {
        octets <= u64::from(self.active.prefix) + u64::from(self.slots.current.limit) - self.end
    }

    /// The width of its intervals, in seconds.
    pub fn width(&self) -> u32
        ensures { result ≡ self.now.state.manifest.width }
    {
        self.slots.current.width
    }

    /// How many octets of messages a segment takes.
    pub fn limit(&self) -> u32
        ensures { result ≡ self.now.state.manifest.limit }
    {
        self.slots.current.limit
    }

    /// How many segments are sealed, and not rolled.
    pub fn sealed_count(&self) -> usize
        ensures { result ≡ count_of Sealed self.now.state.manifest.entries }
    {
        count_of(self.slots.current.entries.as_slice(), Kind::Sealed)
    }

    /// How many rolled files there are, without the wide ones.
    pub fn rolled_count(&self) -> usize
        ensures { result ≡ count_of Rolled self.now.state.manifest.entries }
    {
        count_of(self.slots.current.entries.as_slice(), Kind::Rolled)
    }

    /// The manifest in force, whose last entry is that of the active segment.
    pub fn manifest(&self) -> &Manifest
        ensures { result.now ≡ self.now.state.manifest }
    {
        &self.slots.current
    }

    /// How many octets of the active segment's file count: the place of its closed gate.
    pub fn end(&self) -> u64
        ensures { result ≡ end_of self.now.state }
    {
        self.end
    }

    /// How many messages the active segment has.
    pub fn active_count(&self) -> usize
        ensures { result ≡ length self.now.state.active.messages }
    {
        self.messages.len()
    }

    /// How many messages it has in all, those in sums too.
    pub fn position(&self) -> u64
        ensures { result ≡ archive_position self.now.state }
    {
        self.total
    }

    /// What the messages that were taken in show of records that aren't read, or are summed otherwise than their exporter
    /// may mean, counted from what was put here last; from now on they are counted from these on. Before its first call
    /// nothing is counted, and it answers none.
    pub fn replace_losses(&mut self, losses: Losses) -> Losses
        ensures { self.new ≡ self.old }
    {
        self.carry.replace_losses(losses)
    }

    /// The job that is under way.
    pub fn job(&self) -> Option<JobStatus>
        ensures { result ≡ status_of self.now.state.job }
    {
        status(&self.job)
    }

    /// Gives the archive up, and its disk back as it is.
    pub fn into_disk(self) -> D
        ensures { result ≡ self.disk }
    {
        self.disk
    }
}
