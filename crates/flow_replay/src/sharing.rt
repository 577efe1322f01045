//! Parts with an archive that threads share, and one reader, which learns each receipt.

ghost use Rattle.std.specs.Prelude.{◌≡◌};
ghost use Rattle.flow_model.specs.Shelved.{shelf_of};

use crate::asked::asked;
use crate::report::Report;
use flow_archive::{Archive, ArchiveError};
use flow_codec::Losses;
use flow_disk::{Disk, Faults};
use flow_memory_disk::MemoryDisk;
use flow_scripts::{Command, Event, Line, Question, Script};
use flow_shared::{ArchiveReader, Naming, Opened, Receipt, SharedArchive, Told, start};
use flow_snapshot::Snapshot;
use flow_turns::Turn;
use std::alloc::{AllocError, Global};
use std::marker::Brand;
use std::sync::Wait;

/// The most messages of a batch.
const MOST_MESSAGES: usize = 64;

/// How often an archive is shared: once, and once more where memory was refused.
const TRIES: usize = 2;

/// A reader, the snapshot that it holds, the width of narrow intervals, and the steps that whoever appends batches has.
#[derive(Drop)]
struct Reading<D: Disk, J: Naming> {
    reader: ArchiveReader<D::Sealed, J>,
    held: Option<Snapshot<D::Sealed>>,
    narrow: u32,
    steps: Told<J>,
}

impl<D: Disk, J: Naming> Reading<D, J> {
    /// What is answered to an append, whose receipt the reader learns.
    fn receipt(
        &mut self,
        alloc: Global,
        answer: Result<Receipt<J>, ArchiveError>,
    ) -> Result<String, AllocError> {
        match answer {
            Ok(receipt) => {
                let (position, is_shown) = (receipt.position, receipt.shown);
                self.reader.learn(receipt.told);
                if is_shown {
                    format!(in alloc; "Position({position})")
                } else {
                    format!(in alloc; "Position({position}) unseen")
                }
            }
            Err(refused) => format!(in alloc; "{refused}"),
        }
    }

    /// What a new snapshot answers.
    fn see(&mut self, alloc: Global, question: &Question) -> Result<String, AllocError> {
        match self.reader.snapshot() {
            Ok(snapshot) => asked(alloc, &snapshot, self.narrow, question),
            Err(refused) => format!(in alloc; "{refused}"),
        }
    }

    /// The answer of the snapshot that is held.
    fn held(&self, alloc: Global, question: &Question) -> Result<String, AllocError> {
        match &self.held {
            Some(snapshot) => asked(alloc, snapshot, self.narrow, question),
            None => "nothing is held".to_string(alloc),
        }
    }

    /// Takes a snapshot and holds it.
    fn hold(&mut self, alloc: Global) -> Result<String, AllocError> {
        match self.reader.snapshot() {
            Ok(snapshot) => {
                self.held = Some(snapshot);
                Ok(String::new(alloc))
            }
            Err(refused) => format!(in alloc; "{refused}"),
        }
    }

    /// What is answered to a question; none where it is none.
    fn asked(&mut self, alloc: Global, command: &Command) -> Result<Option<String>, AllocError> {
        Ok(Some(match command {
            Command::See(question) => self.see(alloc, question)?,
            Command::SeeHeld(question) => self.held(alloc, question)?,
            Command::Hold => self.hold(alloc)?,
            Command::LetGo => {
                self.held = None;
                String::new(alloc)
            }
            _ => return Ok(None),
        }))
    }
}

/// What is answered to a turn.
fn turn_text(alloc: Global, answer: Result<Turn, ArchiveError>) -> Result<String, AllocError> {
    match answer {
        Ok(turn) => format!(in alloc; "{turn:?}"),
        Err(refused) => format!(in alloc; "{refused}"),
    }
}

/// What is answered to a batch.
fn batch<D: Disk, J: Naming, W: Wait>(
    rt: &W,
    alloc: Global,
    shared: &SharedArchive<D, J, W>,
    reading: &mut Reading<D, J>,
    messages: &[Vec<u8>],
) -> Result<String, AllocError> {
    let mut slices: Vec<&[u8]> = Vec::new(alloc);
    for message in messages {
        slices.push(message.as_slice())?;
    }
    if slices.is_empty() || slices.len() > MOST_MESSAGES {
        return "a batch has from 1 to 64 messages".to_string(alloc);
    }
    let known = &mut reading.steps;
    let answer = shared.append_batch(rt, alloc, known, slices.as_slice(), Losses::none());
    reading.receipt(alloc, answer)
}

/// What is answered to a line that isn't a reader's question.
fn done<D: Disk, J: Naming, W: Wait>(
    rt: &W,
    alloc: Global,
    shared: &SharedArchive<D, J, W>,
    reading: &mut Reading<D, J>,
    command: &Command,
) -> Result<String, AllocError> {
    match command {
        Command::Event(Event::Append(message)) => {
            let answer = shared.append(rt, alloc, message.as_slice());
            reading.receipt(alloc, answer)
        }
        Command::Event(Event::Batch(messages)) => {
            batch(rt, alloc, shared, reading, messages.as_slice())
        }
        Command::Event(Event::Seal) => match shared.seal(rt, alloc) {
            Ok(file) => format!(in alloc; "Sealed({file})"),
            Err(refused) => format!(in alloc; "{refused}"),
        },
        Command::RollTurn(keep) => {
            turn_text(
                alloc,
                shared.roll_turn(rt, alloc, *keep, &mut Faults::new()),
            )
        }
        Command::MergeTurn(keep) => {
            turn_text(
                alloc,
                shared.merge_turn(rt, alloc, *keep, &mut Faults::new()),
            )
        }
        Command::Refresh => {
            let is_shown = shared.refresh(rt, alloc);
            format!(in alloc; "{is_shown}")
        }
        _ => "the archive is shared".to_string(alloc),
    }
}

/// What a shared archive answers to a command.
fn answer<D: Disk, J: Naming, W: Wait>(
    rt: &W,
    alloc: Global,
    shared: &SharedArchive<D, J, W>,
    reading: &mut Reading<D, J>,
    command: &Command,
) -> Result<String, AllocError> {
    match reading.asked(alloc, command)? {
        Some(told) => Ok(told),
        None => done(rt, alloc, shared, reading, command),
    }
}

/// A shared archive answers lines. Where memory is refused, a line is given once more; where that left messages which
/// readers don't see, they are shown these before the next line.
fn answer_lines<D: Disk, J: Naming, W: Wait>(
    rt: &W,
    alloc: Global,
    shared: &SharedArchive<D, J, W>,
    reading: &mut Reading<D, J>,
    name: &str,
    lines: &[Line<'_>],
    report: &mut Report,
) -> Result<(), AllocError> {
    for line in lines {
        let mut told = answer(rt, alloc, shared, reading, &line.command)?;
        if report.repeats(line, told.as_str()) {
            told = answer(rt, alloc, shared, reading, &line.command)?;
        }
        if report.shows(line, told.as_str()) && shared.refresh(rt, alloc) {
            report.agree();
        } else {
            report.compare(alloc, name, line, told.as_str())?;
        }
    }
    Ok(())
}

/// An archive is shared, unless memory is refused for that, and answers lines: its disk afterwards.
fn answer_all<D: Disk, J: Naming, W: Wait>(
    rt: &W,
    alloc: Global,
    archive: Archive<D>,
    opened: Opened,
    script: &Script<'_>,
    lines: &[Line<'_>],
    report: &mut Report,
) -> Result<Result<D, AllocError>, Archive<D>>
    requires book { opened.seen.book ≡ J.book }
    requires opening { shelf_of archive.state ≡ J.opening }
    requires honest { D.honest archive.disk ≡ J.honest }
{
    let narrow = archive.width();
    let (shared, mut readers) = start::<D, J, W>(alloc, archive, opened, 1)?;
    let Some(reader) = readers.pop() else {
        return Ok(Err(AllocError));
    };
    let mut reading: Reading<D, J> = Reading {
        reader,
        held: None,
        narrow,
        steps: shared.steps(rt),
    };
    let answered = answer_lines(rt, alloc, &shared, &mut reading, script.name, lines, report);
    drop(reading);
    let disk = shared.end(rt).into_disk();
    Ok(answered.map(|()| disk))
}

/// An archive is shared, once more where memory is refused for that, and answers lines: its disk afterwards.
pub(crate) fn share<W: Wait>(
    rt: &W,
    alloc: Global,
    archive: Archive<MemoryDisk>,
    script: &Script<'_>,
    lines: &[Line<'_>],
    report: &mut Report,
) -> Result<MemoryDisk, AllocError> {
    let mut archive = archive;
    for _ in 0..TRIES {
        let opened = Opened::new();
        match answer_all::<MemoryDisk, Brand, W>(
            rt, alloc, archive, opened, script, lines, report,
        ) {
            Ok(ended) => return ended,
            Err(given) => archive = given,
        }
        if !report.gives_again() {
            break;
        }
    }
    drop(archive);
    Err(AllocError)
}
