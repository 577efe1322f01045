//! Scripts.

use crate::command::Command;

/// A script: parts, each on the disk that the one before it left, given up without a stop.
#[derive(Drop)]
pub struct Script<'a> {
    /// Its name.
    pub name: &'a str,
    /// The size of its disk, where it asks for one.
    pub size: Option<Size>,
    /// Its parts.
    pub parts: Vec<ScriptPart<'a>>,
}

/// The size of a disk: how many files it has room for, how many octets each, how many calls that change a file, and how
/// many octets are written in all.
#[derive(Clone, Copy)]
pub struct Size {
    /// How many files.
    pub files: u32,
    /// How many octets each.
    pub octets: u32,
    /// How many calls that change a file.
    pub calls: u32,
    /// How many octets in all.
    pub written: u32,
}

/// How the disk of a part fails.
#[derive(Clone, Copy, PartialEq, Eq)]
pub enum Failing {
    /// It doesn't.
    Never,
    /// All its calls fail from this one on, counted from 0.
    From(u64),
    /// Each read of this frozen file fails that reaches this octet.
    Reads(u64, u64),
}

/// A part: it begins with `create` or `open` and goes on with events and questions; or it has questions and changes of
/// the disk alone.
#[derive(Drop)]
pub struct ScriptPart<'a> {
    /// How its disk fails.
    pub failing: Failing,
    /// Whether its archive is one that threads share.
    pub is_shared: bool,
    /// Its lines.
    pub lines: Vec<Line<'a>>,
}

/// A line: what is asked, and what is to be answered.
#[derive(Drop)]
pub struct Line<'a> {
    /// Its number in the input, from 1 on.
    pub number: u64,
    /// The text before the arrow.
    pub text: &'a str,
    /// What is asked.
    pub command: Command,
    /// What is to be answered: nothing where it has no arrow.
    pub wanted: &'a str,
}

impl ScriptPart<'_> {
    /// Whether it begins with an archive.
    pub fn has_archive(&self) -> bool {
        match self.lines.first() {
            Some(line) => line.command.begins(),
            None => false,
        }
    }

    /// Whether one of its lines damages a file.
    pub fn is_damaged(&self) -> bool {
        for line in &self.lines {
            if line.command.damages() {
                return true;
            }
        }
        false
    }

    /// Whether a command may follow its lines.
    pub(crate) fn may_take(&self, command: &Command) -> bool {
        if self.lines.is_empty() {
            return command.begins() || command.is_of_disk() && !self.is_shared;
        }
        if self.is_shared {
            return command.is_of_shared();
        }
        !command.begins()
            && !command.is_of_shared_alone()
            && command.is_of_disk() != self.has_archive()
    }
}
