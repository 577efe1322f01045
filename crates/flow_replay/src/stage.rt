//! An archive as scripts have it: each event and each question is answered by a text. The calls of an archive are here
//! alone, and promise nothing, so that what plays them is proved without all that an archive promises.

ghost use Rattle.std.specs.Prelude.{◌≡◌, ◌≤◌, ◌%◌};

use crate::asked::{asked, summary};
use crate::thawed::Thawed;
use flow_archive::{Answer, Archive, ArchiveError, Event, Refused, take_event};
use flow_disk::{Disk, Faults};
use flow_manifest::OpenError;
use flow_scripts::{Command, Question};
use flow_snapshot::Snapshot;
use std::alloc::{AllocError, Global};

/// The most messages of a batch.
const MOST_MESSAGES: usize = 64;

/// An archive on a disk, and the snapshot that a reader holds.
#[derive(Drop)]
pub(crate) struct Stage<D: Disk> {
    archive: Archive<D>,
    held: Option<Snapshot<D::Sealed>>,
}

impl<D: Disk> Stage<D> {
    /// An archive that no reader has a snapshot of.
    fn new(archive: Archive<D>) -> Self {
        Stage {
            archive,
            held: None,
        }
    }

    /// Makes one without messages, of widths and a limit that an archive may have.
    pub(crate) fn create(
        alloc: Global,
        disk: Thawed<D>,
        narrow: u32,
        wide: u32,
        limit: u32,
    ) -> Result<Self, Refused<D, ArchiveError>>
        requires narrow { 1 ≤ narrow }
        requires wide { (narrow ≤ wide) × (wide ≤ 86400) }
        requires multiple { wide % narrow ≡ 0 }
        requires limit { (65535 ≤ limit) × (limit ≤ 16777216) }
    {
        let Thawed { disk } = disk;
        let archive = Archive::create_wide(alloc, disk, narrow, wide, limit)?;
        Ok(Stage::new(archive))
    }

    /// Opens the one on a disk.
    pub(crate) fn open(alloc: Global, disk: Thawed<D>) -> Result<Self, Refused<D, OpenError>> {
        let Thawed { disk } = disk;
        let archive = Archive::open(alloc, disk)?;
        Ok(Stage::new(archive))
    }

    /// Gives an event.
    fn give(&mut self, alloc: Global, event: &Event) -> Result<Answer, ArchiveError> {
        if let Event::AppendBatch(messages) = event {
            if messages.is_empty() || messages.len() > MOST_MESSAGES {
                return Err(ArchiveError::NoRoom);
            }
        }
        take_event(&mut self.archive, alloc, event, &mut Faults::new())
    }

    /// A snapshot of its directory.
    fn snapshot(&mut self, alloc: Global) -> Result<Snapshot<D::Sealed>, AllocError> {
        Ok(self.archive.directory(alloc)?.into_snapshot())
    }

    /// A reader takes a snapshot and holds it.
    fn hold(&mut self, alloc: Global) -> Result<String, AllocError> {
        let snapshot = self.snapshot(alloc)?;
        self.held = Some(snapshot);
        Ok(String::new(alloc))
    }

    /// The reader drops it.
    fn let_go(&mut self, alloc: Global) -> Result<String, AllocError> {
        self.held = None;
        Ok(String::new(alloc))
    }

    /// The answer of the snapshot that is held.
    fn held(&self, alloc: Global, question: &Question) -> Result<String, AllocError> {
        match &self.held {
            Some(snapshot) => asked(alloc, snapshot, self.archive.width(), question),
            None => "nothing is held".to_string(alloc),
        }
    }

    /// What a new snapshot answers.
    fn see(&mut self, alloc: Global, question: &Question) -> Result<String, AllocError> {
        let narrow = self.archive.width();
        match self.snapshot(alloc) {
            Ok(snapshot) => asked(alloc, &snapshot, narrow, question),
            Err(_) => format!(in alloc; "{}", ArchiveError::OutOfMemory),
        }
    }

    /// How many files are sealed, and how many are rolled; the counts of a snapshot, and all its totals.
    pub(crate) fn state(&mut self, alloc: Global) -> Result<String, AllocError> {
        let (sealed, rolled) = (self.archive.sealed_count(), self.archive.rolled_count());
        let narrow = self.archive.width();
        let summary = summary(alloc, &self.snapshot(alloc)?, narrow)?;
        format!(in alloc; "{sealed} {rolled}, {summary}")
    }

    /// Whether so many octets more are within the limit of the active segment.
    fn room(&self, alloc: Global, octets: u64) -> Result<String, AllocError> {
        let has_room = self.archive.has_room(octets);
        format!(in alloc; "{has_room}")
    }

    /// The width of its intervals, the limit of its segments, and its job.
    fn status(&self, alloc: Global) -> Result<String, AllocError> {
        let (width, limit) = (self.archive.width(), self.archive.limit());
        match self.archive.job() {
            Some(job) => format!(in alloc;
                "{width} {limit} {:?} {} {} {:?}",
                job.kind, job.sources, job.left, job.staged
            ),
            None => format!(in alloc; "{width} {limit}"),
        }
    }

    /// What is answered to an event.
    pub(crate) fn event(
        &mut self,
        alloc: Global,
        event: &flow_scripts::Event,
    ) -> Result<String, AllocError> {
        let event = event_of(alloc, event)?;
        match self.give(alloc, &event) {
            Ok(answer) => format!(in alloc; "{answer:?}"),
            Err(refused) => format!(in alloc; "{refused}"),
        }
    }

    /// What is answered to a line.
    pub(crate) fn answer(
        &mut self,
        alloc: Global,
        command: &Command,
    ) -> Result<String, AllocError> {
        match command {
            Command::Event(event) => self.event(alloc, event),
            Command::See(question) => self.see(alloc, question),
            Command::SeeHeld(question) => self.held(alloc, question),
            Command::Hold => self.hold(alloc),
            Command::LetGo => self.let_go(alloc),
            Command::State => self.state(alloc),
            Command::Room(octets) => self.room(alloc, *octets),
            Command::Status => self.status(alloc),
            Command::Create(_)
            | Command::Open
            | Command::Damage(_)
            | Command::Disk(_)
            | Command::RollTurn(_)
            | Command::MergeTurn(_)
            | Command::Refresh => "there is an archive".to_string(alloc),
        }
    }

    /// The archive.
    pub(crate) fn into_archive(self) -> Archive<D> {
        let Stage { archive, held: _ } = self;
        archive
    }

    /// Gives the archive up, and its disk back.
    pub(crate) fn into_disk(self) -> D {
        let Stage { archive, held: _ } = self;
        archive.into_disk()
    }
}

/// The same messages.
fn messages_of(alloc: Global, messages: &[Vec<u8>]) -> Result<Vec<Vec<u8>>, AllocError> {
    let mut copies = Vec::new(alloc);
    for message in messages {
        copies.push(message.as_slice().to_vec(alloc)?)?;
    }
    Ok(copies)
}

/// The event that a line gives.
fn event_of(alloc: Global, event: &flow_scripts::Event) -> Result<Event, AllocError> {
    Ok(match event {
        flow_scripts::Event::Append(message) => Event::Append(message.as_slice().to_vec(alloc)?),
        flow_scripts::Event::Batch(messages) => Event::AppendBatch(messages_of(
            alloc,
            messages.as_slice(),
        )?),
        flow_scripts::Event::Seal => Event::Seal,
        flow_scripts::Event::Roll(count) => Event::RollBegin(*count),
        flow_scripts::Event::Merge(count) => Event::MergeBegin(*count),
        flow_scripts::Event::RollStep => Event::RollStep,
        flow_scripts::Event::Write => Event::RollWrite,
        flow_scripts::Event::Install => Event::RollInstall,
        flow_scripts::Event::GiveUp => Event::RollDrop,
        flow_scripts::Event::Retire => Event::Retire,
    })
}
