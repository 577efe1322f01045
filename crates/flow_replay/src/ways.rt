//! Parts of scripts with stops and with faults.
//!
//! A part of an archive is stopped before each call of its disk, and each such stop leaves each choice of what isn't
//! settled. Then the archive is opened, and that opening is stopped before each of its calls too.

use crate::foldered::play_folder;
use crate::playing::{play_part, room_of};
use crate::report::{Report, place_of};
use crate::stopping::{Ended, Given, Image, Trial, found};
use crate::thawed::fused;
use crate::way::{Plan, Way};
use flow_disk::DiskError;
use flow_memory_disk::{Choice, FusedDisk, MemoryDisk, Room};
use flow_scripts::{Command, Failing, Line, Script, ScriptPart};
use std::alloc::Global;
use std::sync::Wait;

/// How many disks lie, each in its own way.
const LIES: u64 = 400;

/// What a stop leaves of what isn't settled.
const CHOICES: [Left; 5] = [
    Left {
        name: "what was written",
        choice: Choice::Kept,
    },
    Left {
        name: "what was settled",
        choice: Choice::Settled,
    },
    Left {
        name: "octets 0A",
        choice: Choice::Filled(&[0x0A]),
    },
    Left {
        name: "octets A5",
        choice: Choice::Filled(&[0xA5]),
    },
    Left {
        name: "a Message header",
        choice: Choice::Longer(&[0, 0x0A, 0, 16, 0, 0, 0, 0, 0, 0, 0, 0, 0, 0, 0, 0]),
    },
];

/// What a stop leaves of what isn't settled.
#[derive(Clone, Copy)]
struct Left {
    name: &'static str,
    choice: Choice<'static>,
}

/// A part that is played in a way: its script, its first line, and the way.
#[derive(Clone, Copy)]
pub(crate) struct Scene<'a, 'b> {
    pub(crate) script: &'b str,
    pub(crate) first: &'b Line<'a>,
    way: Way,
}

/// The disk after a stop, where it may leave what is chosen; else as it reads.
fn crashed(disk: FusedDisk<MemoryDisk>, left: Left) -> MemoryDisk {
    if disk.can_crash(left.choice) {
        disk.crash(left.choice)
    } else {
        disk.restart()
    }
}

/// Compares what is found after a stop or a fault with what may be.
pub(crate) fn compare(
    alloc: Global,
    scene: Scene<'_, '_>,
    trial: &Trial<'_, '_>,
    taken: usize,
    event: &str,
    state: &str,
    report: &mut Report,
) -> Result<(), DiskError> {
    if trial.may_find(taken, state) {
        report.agree();
        return Ok(());
    }
    let place = place_of(alloc, scene.script, scene.first)?;
    let place = format!(in alloc; "{place}, {event}")?;
    let (before, after) = (
        trial.state_after(taken),
        trial.state_after(taken.saturating_add(1)),
    );
    let wanted = format!(in alloc; "{before}, or {after}")?;
    Ok(report.tell(alloc, place.as_str(), wanted.as_str(), state)?)
}

/// Reports that an event was taken by an archive that a fault should have closed.
pub(crate) fn tell_open(
    alloc: Global,
    scene: Scene<'_, '_>,
    event: &str,
    report: &mut Report,
) -> Result<(), DiskError> {
    let place = place_of(alloc, scene.script, scene.first)?;
    let place = format!(in alloc; "{place}, {event}")?;
    Ok(report.tell(
        alloc,
        place.as_str(),
        "an archive that is closed by a fault alone",
        "another one",
    )?)
}

/// What comes after a stop is stopped too, before each call of its disk.
fn stop_again(
    alloc: Global,
    scene: Scene<'_, '_>,
    image: &Image,
    lines: &[Line<'_>],
    event: &str,
    left: Left,
    report: &mut Report,
) -> Result<(), DiskError> {
    let given = Given {
        begin: &Command::Open,
        lines,
        has_states: false,
    };
    let trial = Trial::new(alloc, image, given)?;
    for call in 0..trial.calls {
        let ended = trial.stopped(alloc, call)?;
        let taken = ended.taken;
        let state = found(alloc, crashed(ended.disk, left))?;
        let event = format!(in alloc; "{event}, and after that at call {call}")?;
        compare(
            alloc,
            scene,
            &trial,
            taken,
            event.as_str(),
            state.as_str(),
            report,
        )?;
    }
    Ok(())
}

/// A part is stopped before a call.
fn stop_at(
    alloc: Global,
    scene: Scene<'_, '_>,
    trial: &Trial<'_, '_>,
    call: u64,
    left: Left,
    report: &mut Report,
) -> Result<(), DiskError> {
    let ended = trial.stopped(alloc, call)?;
    let (taken, name) = (ended.taken, left.name);
    let event = format!(in alloc; "stopped at call {call}, which leaves {name}")?;
    if !ended.is_closed {
        tell_open(alloc, scene, event.as_str(), report)?;
    }
    let image = trial.image_of(alloc, crashed(ended.disk, left))?;
    let state = found(alloc, image.disk(alloc)?)?;
    compare(
        alloc,
        scene,
        trial,
        taken,
        event.as_str(),
        state.as_str(),
        report,
    )?;
    let lines = if scene.way == Way::StoppedTwice {
        trial.rest(taken)
    } else {
        &[]
    };
    stop_again(alloc, scene, &image, lines, event.as_str(), left, report)
}

/// A part is stopped before each call, and after the last one; one of so many of these stops is played.
fn stop_each(
    alloc: Global,
    scene: Scene<'_, '_>,
    trial: &Trial<'_, '_>,
    every: u64,
    report: &mut Report,
) -> Result<(), DiskError> {
    for call in trial.making..=trial.calls {
        for left in CHOICES {
            if report.takes(every) {
                stop_at(alloc, scene, trial, call, left, report)?;
            }
        }
    }
    Ok(())
}

/// Each call of a part fails once.
fn fault_each(
    alloc: Global,
    scene: Scene<'_, '_>,
    trial: &Trial<'_, '_>,
    every: u64,
    report: &mut Report,
) -> Result<(), DiskError> {
    for call in trial.making..trial.calls {
        let call = call.saturating_add(1);
        if report.takes(every) {
            let ended = trial.faulted(alloc, call)?;
            let (taken, is_closed) = (ended.taken, ended.is_closed);
            let event = format!(in alloc; "a fault at call {call}")?;
            if !is_closed {
                tell_open(alloc, scene, event.as_str(), report)?;
            }
            let state = found(alloc, ended.disk.restart())?;
            compare(
                alloc,
                scene,
                trial,
                taken,
                event.as_str(),
                state.as_str(),
                report,
            )?;
        }
    }
    Ok(())
}

/// A part is played on disks that lie, each in its own way. What is found on them then is anything.
fn lie_each(
    alloc: Global,
    scene: Scene<'_, '_>,
    trial: &Trial<'_, '_>,
    every: u64,
    report: &mut Report,
) -> Result<(), DiskError> {
    for seed in 0..LIES {
        if report.takes(every) {
            if trial.lied(alloc, seed)? {
                report.agree();
            } else {
                let event = format!(in alloc; "a disk that lies by seed {seed}")?;
                tell_open(alloc, scene, event.as_str(), report)?;
            }
        }
    }
    Ok(())
}

/// A part of an archive, on a disk that doesn't fail by itself, is played in the way of a plan.
fn try_part(
    alloc: Global,
    script: &str,
    part: &ScriptPart<'_>,
    image: &Image,
    plan: Plan,
    report: &mut Report,
) -> Result<(), DiskError> {
    let Some((first, lines)) = part.lines.split_first() else {
        return Ok(());
    };
    let is_failing = part.failing != Failing::Never || part.is_damaged();
    if !first.command.begins() || part.is_shared || is_failing {
        return Ok(());
    }
    let given = Given {
        begin: &first.command,
        lines,
        has_states: true,
    };
    let scene = Scene {
        script,
        first,
        way: plan.way,
    };
    let trial = Trial::new(alloc, image, given)?;
    match plan.way {
        Way::Plainly | Way::Memory => Ok(()),
        Way::Faults => fault_each(alloc, scene, &trial, plan.every, report),
        Way::Lies => lie_each(alloc, scene, &trial, plan.every, report),
        Way::Folder => play_folder(alloc, scene, image, &trial, plan.every, report),
        Way::Stopped | Way::StoppedTwice => stop_each(alloc, scene, &trial, plan.every, report),
    }
}

/// A script, on a disk without files: as it is, and each part in the way of a plan before. Where the player's own
/// memory is refused, it is played once more from its beginning, if something may be given once more.
pub(crate) fn play<W: Wait>(
    rt: &W,
    alloc: Global,
    script: &Script<'_>,
    plan: Plan,
    report: &mut Report,
) -> Result<(), DiskError> {
    let played = play_all(rt, alloc, script, plan, report);
    if played.is_err() && report.gives_again() {
        return play_all(rt, alloc, script, plan, report);
    }
    played
}

/// Plays a part of a script on a disk: the disk afterwards.
fn play_next<W: Wait>(
    rt: &W,
    alloc: Global,
    disk: MemoryDisk,
    script: &Script<'_>,
    part: &ScriptPart<'_>,
    room: Room,
    plan: Plan,
    report: &mut Report,
) -> Result<MemoryDisk, DiskError> {
    if !plan.way.stops() {
        return Ok(play_part(rt, alloc, disk, script, part, report)?);
    }
    let image = Image::of(alloc, disk, &part.lines)?;
    try_part(alloc, script.name, part, &image, plan, report)?;
    let disk = image.disk_in(alloc, room)?;
    Ok(play_part(rt, alloc, disk, script, part, report)?)
}

/// Plays each part of a script.
fn play_all<W: Wait>(
    rt: &W,
    alloc: Global,
    script: &Script<'_>,
    plan: Plan,
    report: &mut Report,
) -> Result<(), DiskError> {
    let room = room_of(script);
    let mut disk = MemoryDisk::new(alloc, room)?;
    for part in &script.parts {
        disk = play_next(rt, alloc, disk, script, part, room, plan, report)?;
    }
    Ok(())
}
