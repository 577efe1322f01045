//! Scripts, played.

use crate::report::Report;
use crate::sharing::share;
use crate::stage::Stage;
use crate::thawed::{Thawed, fused, given_up, with_bad_reads, worn};
use crate::worn::Wear;
use flow_disk::Disk;
use flow_memory_disk::{FusedDisk, MemoryDisk, Room};
use flow_scripts::{Command, Failing, Line, Script, ScriptPart, Widths};
use std::alloc::{AllocError, Global};
use std::sync::Wait;

/// Room for scripts that don't give a size.
const ROOM: Room = Room {
    files: 96,
    octets: 300_000,
    calls: 20_000,
    written: 4_000_000,
};

/// The room for a script.
pub(crate) fn room_of(script: &Script<'_>) -> Room {
    match script.size {
        Some(size) => Room {
            files: size.files as usize,
            octets: size.octets as usize,
            calls: size.calls as usize,
            written: size.written as usize,
        },
        None => ROOM,
    }
}

/// The answer to a line that makes or opens an archive.
#[derive(Drop)]
pub(crate) enum Beginning<D: Disk> {
    /// There is one.
    Archive(Stage<D>),
    /// There is none, for this reason.
    Refused(D, String),
}

/// Makes an archive.
fn create<D: Disk>(
    alloc: Global,
    disk: Thawed<D>,
    widths: Widths,
) -> Result<Beginning<D>, AllocError> {
    let (narrow, wide, limit) = (widths.narrow, widths.wide, widths.limit);
    if narrow < 1
        || wide < narrow
        || wide > 86_400
        || wide % narrow != 0
        || limit < 65_535
        || limit > 16_777_216
    {
        let why = "no archive has these widths, or this limit".to_string(alloc)?;
        let Thawed { disk } = disk;
        return Ok(Beginning::Refused(disk, why));
    }
    match Stage::create(alloc, disk, narrow, wide, limit) {
        Ok(stage) => Ok(Beginning::Archive(stage)),
        Err(refused) => {
            let text = format!(in alloc; "{}", refused.error)?;
            Ok(Beginning::Refused(refused.disk, text))
        }
    }
}

/// Makes or opens an archive.
pub(crate) fn begin<D: Disk>(
    alloc: Global,
    disk: Thawed<D>,
    command: &Command,
) -> Result<Beginning<D>, AllocError> {
    if let Command::Create(widths) = command {
        return create(alloc, disk, *widths);
    }
    match Stage::open(alloc, disk) {
        Ok(stage) => Ok(Beginning::Archive(stage)),
        Err(refused) => {
            let text = format!(in alloc; "{}", refused.error)?;
            Ok(Beginning::Refused(refused.disk, text))
        }
    }
}

/// What an archive answers to a line, or nothing where it damages a file of its disk.
fn answer_one<D: Disk>(
    alloc: Global,
    stage: &mut Stage<D>,
    wear: &Wear,
    command: &Command,
) -> Result<String, AllocError> {
    if let Command::Damage(damage) = command {
        wear.add(alloc, damage)?;
        return Ok(String::new(alloc));
    }
    stage.answer(alloc, command)
}

/// An archive answers lines.
fn answer_all<D: Disk>(
    alloc: Global,
    stage: &mut Stage<D>,
    wear: &Wear,
    name: &str,
    lines: &[Line<'_>],
    report: &mut Report,
) -> Result<(), AllocError> {
    for line in lines {
        let mut told = answer_one(alloc, stage, wear, &line.command)?;
        if report.repeats(line, told.as_str()) {
            told = answer_one(alloc, stage, wear, &line.command)?;
        }
        report.compare(alloc, name, line, told.as_str())?;
    }
    Ok(())
}

/// The answers of an archive that begins a part.
fn answer_part<D: Disk>(
    alloc: Global,
    stage: &mut Stage<D>,
    wear: &Wear,
    name: &str,
    first: &Line<'_>,
    lines: &[Line<'_>],
    report: &mut Report,
) -> Result<(), AllocError> {
    report.compare(alloc, name, first, "")?;
    answer_all(alloc, stage, wear, name, lines, report)
}

/// Compares the answers of a part whose archive is refused: whether it is played. It isn't where it will be given once
/// more.
fn refuse_part(
    alloc: Global,
    name: &str,
    why: &str,
    first: &Line<'_>,
    lines: &[Line<'_>],
    report: &mut Report,
) -> Result<bool, AllocError> {
    if report.repeats(first, why) {
        return Ok(false);
    }
    report.compare(alloc, name, first, why)?;
    for line in lines {
        report.compare(alloc, name, line, "there is no archive")?;
    }
    Ok(true)
}

/// Gives lines to an archive, on a disk that has this damage, and gives it up: the disk.
fn with_stage<D: Disk>(
    alloc: Global,
    mut stage: Stage<D>,
    wear: &Wear,
    name: &str,
    first: &Line<'_>,
    lines: &[Line<'_>],
    report: &mut Report,
) -> Result<D, AllocError> {
    match answer_part(alloc, &mut stage, wear, name, first, lines, report) {
        Ok(()) => Ok(stage.into_disk()),
        Err(refused) => {
            drop(stage);
            Err(refused)
        }
    }
}

/// A part with an archive, on a disk that has this damage: the disk, and whether the part is played.
pub(crate) fn with_archive<D: Disk>(
    alloc: Global,
    disk: Thawed<D>,
    wear: &Wear,
    name: &str,
    first: &Line<'_>,
    lines: &[Line<'_>],
    report: &mut Report,
) -> Result<(D, bool), AllocError> {
    match begin(alloc, disk, &first.command)? {
        Beginning::Archive(stage) => {
            let disk = with_stage(alloc, stage, wear, name, first, lines, report)?;
            Ok((disk, true))
        }
        Beginning::Refused(disk, why) => {
            let is_played = refuse_part(alloc, name, why.as_str(), first, lines, report)?;
            Ok((disk, is_played))
        }
    }
}

/// A part with an archive that threads share: the disk afterwards, and whether the part is played.
fn with_shared<W: Wait>(
    rt: &W,
    alloc: Global,
    disk: Thawed<MemoryDisk>,
    script: &Script<'_>,
    part: &ScriptPart<'_>,
    report: &mut Report,
) -> Result<(MemoryDisk, bool), AllocError> {
    let Some((first, lines)) = part.lines.split_first() else {
        let Thawed { disk } = disk;
        return Ok((disk, true));
    };
    match begin(alloc, disk, &first.command)? {
        Beginning::Archive(stage) => {
            let compared = report.compare(alloc, script.name, first, "");
            let disk = share(rt, alloc, stage.into_archive(), script, lines, report)?;
            compared?;
            Ok((disk, true))
        }
        Beginning::Refused(disk, why) => {
            let is_played = refuse_part(alloc, script.name, why.as_str(), first, lines, report)?;
            Ok((disk, is_played))
        }
    }
}

/// A part without an archive.
fn without_archive<D: Disk>(
    alloc: Global,
    disk: Thawed<D>,
    name: &str,
    lines: &[Line<'_>],
    report: &mut Report,
) -> Result<D, AllocError> {
    let mut disk = disk;
    for line in lines {
        if let Command::Disk(asked) = &line.command {
            let mut told = disk.answer(alloc, asked)?;
            if report.repeats(line, told.as_str()) {
                told = disk.answer(alloc, asked)?;
            }
            report.compare(alloc, name, line, told.as_str())?;
        }
    }
    let Thawed { disk } = disk;
    Ok(disk)
}

/// The disk of a part.
fn disk_of(disk: MemoryDisk, failing: Failing) -> Thawed<FusedDisk<MemoryDisk>> {
    match failing {
        Failing::Never => fused(disk, u64::MAX),
        Failing::From(call) => fused(disk, call),
        Failing::Reads(file, from) => with_bad_reads(disk, file, from),
    }
}

/// A part with an archive that no threads share: the disk afterwards, and whether the part is played.
fn play_archive(
    alloc: Global,
    disk: Thawed<FusedDisk<MemoryDisk>>,
    name: &str,
    first: &Line<'_>,
    lines: &[Line<'_>],
    report: &mut Report,
) -> Result<(MemoryDisk, bool), AllocError> {
    let wear = Wear::none(alloc)?;
    let disk = worn(disk, wear.share()?);
    let (disk, is_played) = with_archive(alloc, disk, &wear, name, first, lines, report)?;
    Ok((disk.into_disk().restart(), is_played))
}

/// A part, on a disk: the disk afterwards, and whether the part is played.
fn play_once<W: Wait>(
    rt: &W,
    alloc: Global,
    disk: MemoryDisk,
    script: &Script<'_>,
    part: &ScriptPart<'_>,
    report: &mut Report,
) -> Result<(MemoryDisk, bool), AllocError> {
    if part.is_shared {
        let (disk, is_played) = with_shared(rt, alloc, given_up(disk), script, part, report)?;
        return Ok((disk.restart(), is_played));
    }
    let disk = disk_of(disk, part.failing);
    match part.lines.split_first() {
        Some((first, rest)) if first.command.begins() => {
            play_archive(alloc, disk, script.name, first, rest, report)
        }
        _ => {
            let disk = without_archive(alloc, disk, script.name, &part.lines, report)?;
            Ok((disk.restart(), true))
        }
    }
}

/// A part, on a disk: the disk afterwards.
pub(crate) fn play_part<W: Wait>(
    rt: &W,
    alloc: Global,
    disk: MemoryDisk,
    script: &Script<'_>,
    part: &ScriptPart<'_>,
    report: &mut Report,
) -> Result<MemoryDisk, AllocError> {
    let (disk, is_played) = play_once(rt, alloc, disk, script, part, report)?;
    if is_played {
        return Ok(disk);
    }
    let (disk, _) = play_once(rt, alloc, disk, script, part, report)?;
    Ok(disk)
}
