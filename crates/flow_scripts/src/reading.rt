//! Texts of scripts, line by line.

use crate::asked::command_of;
use crate::error::{BadScript, Why};
use crate::script::{Failing, Line, Script, ScriptPart, Size};
use crate::words::{number, small_number};
use std::alloc::Global;

/// More octets than a line has.
const TOO_LONG: usize = 500_000;

/// What has been read.
#[derive(Drop)]
struct Reading<'a> {
    scripts: Vec<Script<'a>>,
    /// Whether the next line begins a part.
    is_between: bool,
    /// The words of a line that goes on in the next one.
    words: Vec<&'a str>,
}

impl<'a> Reading<'a> {
    /// Nothing.
    fn new(alloc: Global) -> Self {
        Reading {
            scripts: Vec::new(alloc),
            is_between: true,
            words: Vec::new(alloc),
        }
    }

    /// The script that is read.
    fn script(&mut self) -> Result<&mut Script<'a>, Why> {
        match self.scripts.last_mut() {
            Some(script) => Ok(script),
            None => Err(Why::NoScript),
        }
    }

    /// A script begins.
    fn begin(&mut self, alloc: Global, name: &'a str) -> Result<(), Why> {
        self.is_between = true;
        self.scripts.push(Script {
            name,
            size: None,
            parts: Vec::new(alloc),
        })?;
        Ok(())
    }

    /// A part begins, on a disk that fails so, with a shared archive or not.
    fn begin_part(&mut self, alloc: Global, failing: Failing, is_shared: bool) -> Result<(), Why> {
        if !self.is_between {
            return Err(Why::Misplaced);
        }
        self.is_between = false;
        let script = self.script()?;
        script.parts.push(ScriptPart {
            failing,
            is_shared,
            lines: Vec::new(alloc),
        })?;
        Ok(())
    }

    /// Sets the size of the disk, before the first part.
    fn set_size(&mut self, size: Size) -> Result<(), Why> {
        let script = self.script()?;
        if !script.parts.is_empty() || script.size.is_some() {
            return Err(Why::Misplaced);
        }
        script.size = Some(size);
        Ok(())
    }

    /// The part that is read, which begins now where none has.
    fn part(&mut self, alloc: Global) -> Result<&mut ScriptPart<'a>, Why> {
        if self.is_between {
            self.begin_part(alloc, Failing::Never, false)?;
        }
        match self.script()?.parts.last_mut() {
            Some(part) => Ok(part),
            None => Err(Why::Misplaced),
        }
    }

    /// A line of a part.
    fn add_line(&mut self, alloc: Global, line: Line<'a>) -> Result<(), Why> {
        match self.part(alloc) {
            Ok(part) => add_to(part, line),
            Err(why) => {
                drop(line);
                Err(why)
            }
        }
    }
}

/// A line after the others of a part.
fn add_to<'a>(part: &mut ScriptPart<'a>, line: Line<'a>) -> Result<(), Why> {
    if !part.may_take(&line.command) {
        drop(line);
        return Err(Why::Misplaced);
    }
    part.lines.push(line)?;
    Ok(())
}

/// The size that words give.
fn size_of(words: &[&str]) -> Result<Size, Why> {
    match words {
        [files, octets, calls, written] => Ok(Size {
            files: small_number(files)?,
            octets: small_number(octets)?,
            calls: small_number(calls)?,
            written: small_number(written)?,
        }),
        _ => Err(Why::NoCommand),
    }
}

/// How words say that a disk fails.
fn failing_of(words: &[&str]) -> Result<Failing, Why> {
    match words {
        ["from", call] => Ok(Failing::From(number(call)?)),
        ["reads", file, from] => Ok(Failing::Reads(number(file)?, number(from)?)),
        _ => Err(Why::NoCommand),
    }
}

/// The line of words that ask something, and its answer where it has an arrow.
fn line_of<'a>(
    alloc: Global,
    (number, text): (u64, &'a str),
    words: &[&'a str],
    answer: Option<&'a str>,
) -> Result<Line<'a>, Why> {
    let command = command_of(alloc, words)?;
    if answer.is_none() && command.answers() {
        drop(command);
        return Err(Why::NoAnswer);
    }
    let wanted = answer.unwrap_or("");
    Ok(Line {
        number,
        text,
        command,
        wanted,
    })
}

/// Takes the words of a whole line, and its answer where it has an arrow.
fn take_words<'a>(
    alloc: Global,
    reading: &mut Reading<'a>,
    place: (u64, &'a str),
    words: &[&'a str],
    answer: Option<&'a str>,
) -> Result<(), Why> {
    match words {
        ["disk", size @ ..] => reading.set_size(size_of(size)?),
        ["shared"] => reading.begin_part(alloc, Failing::Never, true),
        ["failing", failing @ ..] => reading.begin_part(alloc, failing_of(failing)?, false),
        _ => reading.add_line(alloc, line_of(alloc, place, words, answer)?),
    }
}

/// Takes a line that isn't empty, no comment, and begins no script.
fn take_line<'a>(
    alloc: Global,
    reading: &mut Reading<'a>,
    number_of_line: u64,
    text: &'a str,
) -> Result<(), Why> {
    let (asked, answer) = match text.split_once("->") {
        Some((asked, answer)) => (asked.trim(), Some(answer.trim())),
        None => (text, None),
    };
    let (asked, goes_on) = match asked.strip_suffix("\\") {
        Some(front) => (front, answer.is_none()),
        None => (asked, false),
    };
    for word in asked.split_whitespace() {
        reading.words.push(word)?;
    }
    if goes_on {
        return Ok(());
    }
    let words = std::mem::replace(&mut reading.words, Vec::new(alloc));
    take_words(
        alloc,
        reading,
        (number_of_line, asked),
        words.as_slice(),
        answer,
    )
}

/// Takes a line.
fn take<'a>(
    alloc: Global,
    reading: &mut Reading<'a>,
    number_of_line: u64,
    text: &'a str,
) -> Result<(), Why> {
    if text.len() >= TOO_LONG {
        return Err(Why::TooLong);
    }
    let text = text.trim();
    if !reading.words.is_empty() {
        return take_line(alloc, reading, number_of_line, text);
    }
    if text.is_empty() {
        reading.is_between = true;
        return Ok(());
    }
    if text.starts_with("#") {
        return Ok(());
    }
    match text.strip_prefix("script ") {
        Some(name) => reading.begin(alloc, name.trim()),
        None => take_line(alloc, reading, number_of_line, text),
    }
}

/// Reads scripts. A script begins with `script NAME`; empty lines divide it into parts; a line that begins with `#` is
/// a comment, and one that ends with a backslash goes on in the next.
///
/// Errors: the first line that can't be read, and why.
pub fn read_scripts(alloc: Global, text: &str) -> Result<Vec<Script<'_>>, BadScript> {
    let mut reading = Reading::new(alloc);
    let mut line = 0u64;
    for text in text.lines() {
        line = line.saturating_add(1);
        if let Err(why) = take(alloc, &mut reading, line, text) {
            return Err(BadScript { line, why });
        }
    }
    if !reading.words.is_empty() {
        let why = Why::NoEnd;
        return Err(BadScript { line, why });
    }
    Ok(reading.scripts)
}
