//! Parts whose disk stops, or fails once: what an opening after that finds.
//!
//! A stop leaves the archive as it was before the event that it met, or as it was after it. Both are known from the
//! part without a stop: by the `state` lines that follow its events, else by what its archive answers there.

use crate::playing::{Beginning, begin};
use crate::stage::Stage;
use crate::thawed::{
    Failure, Thawed, after_power_cut, empty, empty_folder, fused, lying, with_a_fault,
};
use flow_disk::{Disk, DiskError};
use flow_folder_disk::FolderDisk;
use flow_memory_directory::MemoryDirectory;
use flow_memory_disk::{FusedDisk, MemoryDisk, OneFaultDisk, Room};
use flow_scripts::{Command, Event, Line};
use std::alloc::{AllocError, Global};

/// The answer to a call that the disk refuses.
const FAULT: &str = "30 Fault";

/// The answer of an archive that is closed.
const CLOSED: &str = "49 Closed";

/// Powers of two, whose sum is more than the calls of a part.
const STEPS: [u64; 14] = [
    8_192, 4_096, 2_048, 1_024, 512, 256, 128, 64, 32, 16, 8, 4, 2, 1,
];

/// The files of a disk, all of them settled.
#[derive(Drop)]
pub(crate) struct Image {
    room: Room,
    files: Vec<(u64, Vec<u8>)>,
}

impl Image {
    /// The files of a disk that was given up without a stop, with room for lines.
    pub(crate) fn of(
        alloc: Global,
        disk: MemoryDisk,
        lines: &[Line<'_>],
    ) -> Result<Image, DiskError> {
        let mut disk = fused(disk, u64::MAX);
        let files = disk.image(alloc)?;
        let room = room_for(&files, lines);
        Ok(Image { room, files })
    }

    /// A disk that holds it.
    pub(crate) fn disk(&self, alloc: Global) -> Result<MemoryDisk, DiskError> {
        self.disk_in(alloc, self.room)
    }

    /// A disk of this room that holds it.
    pub(crate) fn disk_in(&self, alloc: Global, room: Room) -> Result<MemoryDisk, DiskError> {
        let mut disk = fused(empty(alloc, room)?, u64::MAX);
        disk.write_all(&self.files)?;
        let Thawed { disk } = disk;
        Ok(disk.restart())
    }

    /// A folder in memory that holds it, all of it on the device, of which this fails.
    pub(crate) fn folder(
        &self,
        alloc: Global,
        failure: Failure,
    ) -> Result<Thawed<FolderDisk<MemoryDirectory>>, DiskError> {
        let mut disk = empty_folder(alloc, self.numbers())?;
        disk.write_all(&self.files)?;
        let Thawed { disk } = disk;
        after_power_cut(alloc, disk.into_system(), failure)
    }

    /// How many numbers there are for files: those that it has, and as many as a part may use besides.
    fn numbers(&self) -> usize {
        let mut most = 0u64;
        for (file, _) in &self.files {
            most = most.max(*file);
        }
        (most as usize).saturating_add(self.room.files)
    }
}

/// How many octets an event adds.
fn octets_of(command: &Command) -> usize {
    let mut octets = 0usize;
    match command {
        Command::Event(Event::Append(message)) => octets = message.len(),
        Command::Event(Event::Batch(messages)) => {
            for message in messages {
                octets = octets.saturating_add(message.len());
            }
        }
        _ => {}
    }
    octets
}

/// The room for files, and for what lines add to them. A disk is made anew for each stop, so it is no larger.
fn room_for(files: &[(u64, Vec<u8>)], lines: &[Line<'_>]) -> Room {
    let mut octets = 4_096usize;
    for line in lines {
        octets = octets.saturating_add(octets_of(&line.command));
    }
    let mut largest = 0usize;
    for (_, held) in files {
        largest = largest.max(held.len());
    }
    let count = files.len();
    let calls = lines.len().saturating_add(count).saturating_mul(16);
    let octets = largest.saturating_add(octets).saturating_mul(2);
    Room {
        files: count.saturating_add(lines.len()).saturating_add(8),
        octets,
        calls: calls.saturating_add(256),
        written: octets.saturating_mul(16),
    }
}

/// What is given to an archive: how it begins, and the lines that follow; and whether these say its states.
#[derive(Clone, Copy)]
pub(crate) struct Given<'a, 'b> {
    pub(crate) begin: &'b Command,
    pub(crate) lines: &'b [Line<'a>],
    pub(crate) has_states: bool,
}

/// How a run ended: how many events were taken, of which its beginning is the first; whether the next one met a fault;
/// whether the archive is closed after a fault, and not without one; and the disk.
#[derive(Drop)]
pub(crate) struct Ended<D: Disk> {
    pub(crate) taken: usize,
    pub(crate) is_stopped: bool,
    pub(crate) is_closed: bool,
    pub(crate) disk: D,
}

/// Gives lines to an archive until one meets a fault, or finds it closed: how many events were taken, and the answer
/// that ended it.
fn given_to<D: Disk>(
    alloc: Global,
    stage: &mut Stage<D>,
    lines: &[Line<'_>],
) -> Result<(usize, String), AllocError> {
    let mut taken = 1usize;
    for line in lines {
        if line.command.acts() {
            let told = stage.answer(alloc, &line.command)?;
            if told.as_str() == FAULT || told.as_str() == CLOSED {
                return Ok((taken, told));
            }
            taken = taken.saturating_add(usize::from(line.command.is_event()));
        }
    }
    Ok((taken, String::new(alloc)))
}

/// Whether an archive answers to events that it is closed.
fn is_closed<D: Disk>(alloc: Global, stage: &mut Stage<D>) -> Result<bool, AllocError> {
    let seal = stage.event(alloc, &Event::Seal)?;
    let step = stage.event(alloc, &Event::RollStep)?;
    Ok(seal.as_str() == CLOSED && step.as_str() == CLOSED)
}

/// How far lines were given to an archive.
#[derive(Clone, Copy)]
struct GivenUntil {
    /// How many were taken.
    taken: usize,
    is_stopped: bool,
    is_closed: bool,
}

/// Gives lines to an archive until one meets a fault.
fn given_until<D: Disk>(
    alloc: Global,
    stage: &mut Stage<D>,
    lines: &[Line<'_>],
) -> Result<GivenUntil, AllocError> {
    let (taken, last) = given_to(alloc, stage, lines)?;
    let is_stopped = last.as_str() == FAULT;
    let is_closed = last.is_empty() || is_stopped && is_closed(alloc, stage)?;
    Ok(GivenUntil {
        taken,
        is_stopped,
        is_closed,
    })
}

/// Gives lines to an archive until one meets a fault, and gives it up.
fn run_lines<D: Disk>(
    alloc: Global,
    mut stage: Stage<D>,
    lines: &[Line<'_>],
) -> Result<Ended<D>, AllocError> {
    match given_until(alloc, &mut stage, lines) {
        Ok(until) => Ok(Ended {
            taken: until.taken,
            is_stopped: until.is_stopped,
            is_closed: until.is_closed,
            disk: stage.into_disk(),
        }),
        Err(refused) => {
            drop(stage);
            Err(refused)
        }
    }
}

/// Makes or opens an archive, and gives lines to it until one meets a fault.
pub(crate) fn run<D: Disk>(
    alloc: Global,
    disk: Thawed<D>,
    given: Given<'_, '_>,
) -> Result<Ended<D>, AllocError> {
    match begin(alloc, disk, given.begin)? {
        Beginning::Archive(stage) => run_lines(alloc, stage, given.lines),
        Beginning::Refused(disk, why) => {
            let is_stopped = why.as_str() == FAULT;
            Ok(Ended {
                taken: usize::from(!is_stopped),
                is_stopped,
                is_closed: true,
                disk,
            })
        }
    }
}

/// The state of an archive, which is given up.
pub(crate) fn last_state<D: Disk>(
    alloc: Global,
    mut stage: Stage<D>,
) -> Result<String, AllocError> {
    let state = stage.state(alloc);
    drop(stage);
    state
}

/// The state of the archive on a disk, or why none is opened.
pub(crate) fn found(alloc: Global, disk: MemoryDisk) -> Result<String, AllocError> {
    match Stage::open(alloc, fused(disk, u64::MAX)) {
        Ok(stage) => last_state(alloc, stage),
        Err(refused) => format!(in alloc; "{}", refused.error),
    }
}

/// Adds the states after the beginning, and after each event of these lines.
fn add_states(
    alloc: Global,
    beginning: Beginning<FusedDisk<MemoryDisk>>,
    given: Given<'_, '_>,
    states: &mut Vec<String>,
) -> Result<(), AllocError> {
    match beginning {
        Beginning::Archive(stage) => add_all_of(alloc, stage, given, states),
        Beginning::Refused(disk, _) => add_state(found(alloc, disk.restart()), states),
    }
}

/// Adds a state.
fn add_state(
    state: Result<String, AllocError>,
    states: &mut Vec<String>,
) -> Result<(), AllocError> {
    Ok(states.push(state?)?)
}

/// Adds the states of an archive, which is given up.
fn add_all_of<D: Disk>(
    alloc: Global,
    mut stage: Stage<D>,
    given: Given<'_, '_>,
    states: &mut Vec<String>,
) -> Result<(), AllocError> {
    let added = add_all(alloc, &mut stage, given, states);
    drop(stage);
    added
}

/// Adds the states of an archive: at once, and after each event of these lines.
fn add_all<D: Disk>(
    alloc: Global,
    stage: &mut Stage<D>,
    given: Given<'_, '_>,
    states: &mut Vec<String>,
) -> Result<(), AllocError> {
    states.push(stage.state(alloc)?)?;
    for line in given.lines {
        if line.command.acts() {
            let _ = stage.answer(alloc, &line.command)?;
        }
        if line.command.is_event() {
            states.push(stage.state(alloc)?)?;
        }
        if given.has_states && line.command.is_state() {
            if let Some(last) = states.last_mut() {
                *last = line.wanted.to_string(alloc)?;
            }
        }
    }
    Ok(())
}

/// The states of the archive: before the beginning, after it, and after each event.
fn states_of(alloc: Global, image: &Image, given: Given<'_, '_>) -> Result<Vec<String>, DiskError> {
    let mut states = Vec::new(alloc);
    states.push(found(alloc, image.disk(alloc)?)?)?;
    let disk = fused(image.disk(alloc)?, u64::MAX);
    let beginning = begin(alloc, disk, given.begin)?;
    add_states(alloc, beginning, given, &mut states)?;
    Ok(states)
}

/// How many calls of its disk a part makes.
fn calls_of(alloc: Global, image: &Image, given: Given<'_, '_>) -> Result<u64, DiskError> {
    let mut calls = 0u64;
    for step in STEPS {
        let more = calls.saturating_add(step);
        let disk = fused(image.disk(alloc)?, more.saturating_sub(1));
        if run(alloc, disk, given)?.is_stopped {
            calls = more;
        }
    }
    Ok(calls)
}

/// A part that is played again and again: what it is played on, what is given, its states, and how many calls of its
/// disk it makes.
#[derive(Drop)]
pub(crate) struct Trial<'a, 'b> {
    image: &'b Image,
    pub(crate) given: Given<'a, 'b>,
    states: Vec<String>,
    pub(crate) calls: u64,
    /// How many of these make an archive. Nothing is promised of what a stop among them leaves.
    pub(crate) making: u64,
}

impl<'a, 'b> Trial<'a, 'b> {
    /// Plays it without a stop.
    pub(crate) fn new(
        alloc: Global,
        image: &'b Image,
        given: Given<'a, 'b>,
    ) -> Result<Trial<'a, 'b>, DiskError> {
        let states = states_of(alloc, image, given)?;
        let calls = calls_of(alloc, image, given)?;
        let making = match given.begin {
            Command::Create(_) => calls_of(
                alloc,
                image,
                Given {
                    lines: &[],
                    ..given
                },
            )?,
            _ => 0,
        };
        Ok(Trial {
            image,
            given,
            states,
            calls,
            making,
        })
    }

    /// Plays it on a disk all of whose calls fail from this one on, counted from 0.
    pub(crate) fn stopped(
        &self,
        alloc: Global,
        call: u64,
    ) -> Result<Ended<FusedDisk<MemoryDisk>>, DiskError> {
        let disk = fused(self.image.disk(alloc)?, call);
        Ok(run(alloc, disk, self.given)?)
    }

    /// Plays it on a disk whose call of this number fails, counted from 1.
    pub(crate) fn faulted(
        &self,
        alloc: Global,
        call: u64,
    ) -> Result<Ended<OneFaultDisk<MemoryDisk>>, DiskError> {
        let disk = with_a_fault(self.image.disk(alloc)?, call);
        Ok(run(alloc, disk, self.given)?)
    }

    /// Plays it on a disk that lies: whether its archive is closed by faults alone.
    pub(crate) fn lied(&self, alloc: Global, seed: u64) -> Result<bool, DiskError> {
        let disk = lying(self.image.disk(alloc)?, seed);
        Ok(run(alloc, disk, self.given)?.is_closed)
    }

    /// Whether it makes its archive.
    pub(crate) fn makes(&self) -> bool {
        matches!(self.given.begin, Command::Create(_))
    }

    /// The state after so many events; nothing where there are fewer.
    pub(crate) fn state_after(&self, count: usize) -> &str {
        match self.states.get(count) {
            Some(state) => state.as_str(),
            None => "",
        }
    }

    /// The files of a disk after a stop, with room for the lines that were given.
    pub(crate) fn image_of(&self, alloc: Global, disk: MemoryDisk) -> Result<Image, DiskError> {
        Image::of(alloc, disk, self.given.lines)
    }

    /// Whether an archive may be found so where so many events were taken: as it was after them, or after one more.
    pub(crate) fn may_find(&self, taken: usize, state: &str) -> bool {
        state == self.state_after(taken) || state == self.state_after(taken.saturating_add(1))
    }

    /// The lines after so many events, of which the beginning is the first.
    pub(crate) fn rest(&self, taken: usize) -> &'b [Line<'a>] {
        let mut left = taken;
        let mut skipped = 0usize;
        for line in self.given.lines {
            if left > 1 {
                left = left.saturating_sub(usize::from(line.command.is_event()));
                skipped = skipped.saturating_add(1);
            }
        }
        self.given.lines.get(skipped..).unwrap_or(&[])
    }
}
