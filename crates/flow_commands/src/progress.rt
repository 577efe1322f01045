//! How far feeding is, on a terminal, and what it warns of.

ghost use Rattle.std.specs.Prelude.{◌≡◌};

use flow_feed::FeedWatch;
use flow_folder::FirstFault;
use flow_roller::{Bell, Keeping};
use std::fmt::Display;
use std::fs::Files;
use std::io::{Read, Write};
use std::sync::{Mutex, Wait};
use std::time::{Clock, Instant};
use std::{fs, io};

/// How many octets of Files are shown at once.
const STEP: u64 = 1 << 20;

/// The milliseconds in which it is looked at most once whether feeding is to end.
const LOOK_EACH: u128 = 100;

/// What is shown.
#[derive(Drop)]
struct Shown<W: Write + Drop> {
    errors: Option<W>,
    is_terminal: bool,
    /// Whether warnings are written.
    warns: bool,
    mebibytes: u64,
    /// Whether a line of it is on the terminal.
    is_shown: bool,
}

impl<W: Write + Drop> Shown<W> {
    /// Clears what is shown, so that a line can be written in its place.
    fn clear(&mut self) {
        if !self.is_shown {
            return;
        }
        if let Some(errors) = &mut self.errors {
            let _ = write!(errors, "\r\x1b[K");
            let _ = errors.flush();
        }
        self.is_shown = false;
    }

    /// Writes a line, in place of what is shown.
    fn write<L: Display>(&mut self, line: &L) {
        self.clear();
        if let Some(errors) = &mut self.errors {
            let _ = write!(errors, "flowvault: {line}\n");
            let _ = errors.flush();
        }
    }
}

/// Shows on a terminal how much of the Files is read, by whichever threads, and writes warnings there, or where they
/// are asked for. What can't be written is left out.
#[derive(Drop)]
pub struct Progress<W: Write + Drop> {
    shown: Mutex<Shown<W>>,
    first_fault: FirstFault,
}

impl<W: Write + Drop> Progress<W> {
    /// Nothing is shown yet. Where `errors` is a terminal, progress and warnings are written to it; else warnings,
    /// where they are asked for.
    pub fn new(errors: Option<W>, is_terminal: bool) -> Self {
        let shown = Shown {
            errors,
            is_terminal,
            warns: is_terminal,
            mebibytes: 0,
            is_shown: false,
        };
        Progress {
            shown: Mutex::new(shown),
            first_fault: FirstFault::new(),
        }
    }

    /// Warnings are written from now on, though it is no terminal.
    pub(crate) fn warn<H: Wait>(&self, rt: &H) {
        self.shown.lock(rt).warns = true;
    }

    /// Whether warnings are written.
    pub(crate) fn warns<H: Wait>(&self, rt: &H) -> bool {
        self.shown.lock(rt).warns
    }

    /// Shows that so many mebibytes more are read, in place of what is shown.
    fn add<H: Wait>(&self, rt: &H, mebibytes: u64) {
        let mut guard = self.shown.lock(rt);
        let shown = &mut *guard;
        shown.mebibytes = shown.mebibytes.saturating_add(mebibytes);
        let all = shown.mebibytes;
        if !shown.is_terminal {
            return;
        }
        if let Some(errors) = &mut shown.errors {
            let _ = write!(errors, "\r{all} MiB read");
            let _ = errors.flush();
            shown.is_shown = true;
        }
    }

    /// What the system said of the first call on a folder that failed is noted here.
    pub fn first_fault(&self) -> &FirstFault {
        &self.first_fault
    }

    /// Writes a line.
    pub(crate) fn tell<H: Wait, L: Display>(&self, rt: &H, line: &L) {
        self.shown.lock(rt).write(line);
    }

    /// Writes a line, where warnings are written.
    pub(crate) fn say<H: Wait, L: Display>(&self, rt: &H, line: &L) {
        let mut shown = self.shown.lock(rt);
        if shown.warns {
            shown.write(line);
        }
    }

    /// Writes a line, where it is a terminal.
    pub(crate) fn note<H: Wait, L: Display>(&self, rt: &H, line: &L) {
        let mut shown = self.shown.lock(rt);
        if shown.is_terminal {
            shown.write(line);
        }
    }

    /// Clears what is shown, so that a line can be written in its place.
    pub(crate) fn clear<H: Wait>(&self, rt: &H) {
        self.shown.lock(rt).clear();
    }
}

/// Shows each mebibyte that is read of a File, and rings a bell for each `span` octets.
#[derive(Drop)]
struct Shower<'a, H: Wait, K: Keeping, W: Write + Drop> {
    rt: &'a H,
    progress: &'a Progress<W>,
    bell: &'a Bell<K>,
    span: u32,
    /// How many were read.
    octets: u64,
}

impl<'a, H: Wait, K: Keeping, W: Write + Drop> Shower<'a, H, K, W> {
    /// Nothing is read.
    fn new(rt: &'a H, progress: &'a Progress<W>, bell: &'a Bell<K>, span: u32) -> Self {
        Shower {
            rt,
            progress,
            bell,
            span: span.max(1),
            octets: 0,
        }
    }

    /// So many octets more were read.
    fn add(&mut self, count: usize) {
        let before = self.octets;
        self.octets = self.octets.saturating_add(count as u64);
        if self.octets / STEP > before / STEP {
            self.progress
                .add(self.rt, self.octets / STEP - before / STEP);
        }
        let span = u64::from(self.span.max(1));
        if self.octets / span > before / span {
            self.bell.ring(self.rt);
        }
    }
}

/// A File, which shows each mebibyte that is read of it, and rings a bell for each `span` octets.
#[derive(Drop)]
pub(crate) struct Watched<'a, H: Wait, K: Keeping, R: Read, W: Write + Drop> {
    input: &'a mut R,
    shower: Shower<'a, H, K, W>,
}

impl<'a, H: Wait, K: Keeping, R: Read, W: Write + Drop> Watched<'a, H, K, R, W> {
    /// A File of which nothing is read.
    pub(crate) fn new(
        rt: &'a H,
        input: &'a mut R,
        progress: &'a Progress<W>,
        bell: &'a Bell<K>,
        span: u32,
    ) -> Self
        ensures { result.input.now ≡ input.old }
    {
        Watched {
            input,
            shower: Shower::new(rt, progress, bell, span),
        }
    }
}

impl<H: Wait, K: Keeping, R: Read, W: Write + Drop> Read for Watched<'_, H, K, R, W> {
    ghost remaining = { λ watched. R.remaining watched.input.now };

    fn read(&mut self, buf: &mut [u8]) -> io::Result<usize> {
        let count = self.input.read(buf)?;
        self.shower.add(count);
        Ok(count)
    }
}

/// Shows the same, and looks whether a file is there that says that feeding is to end: not again within 100 milliseconds.
#[derive(Drop)]
pub(crate) struct EndWatch<'a, H: Clock + Wait, K: Keeping, W: Write + Drop> {
    shower: Shower<'a, H, K, W>,
    /// The file's path.
    end_on: &'a str,
    /// When it looked last.
    looked: Option<Instant>,
}

impl<'a, H: Clock + Wait, K: Keeping, W: Write + Drop> EndWatch<'a, H, K, W> {
    /// Nothing is read, and it hasn't looked yet.
    pub(crate) fn new(
        rt: &'a H,
        progress: &'a Progress<W>,
        bell: &'a Bell<K>,
        span: u32,
        end_on: &'a str,
    ) -> Self {
        EndWatch {
            shower: Shower::new(rt, progress, bell, span),
            end_on,
            looked: None,
        }
    }

    /// Whether it looked within the last 100 milliseconds. Where no clock can be read it didn't.
    fn looked_lately(&mut self) -> bool {
        let Ok(now) = Instant::now(self.shower.rt) else {
            return false;
        };
        if let Some(last) = self.looked {
            if now.duration_since(last).as_millis() < LOOK_EACH {
                return true;
            }
        }
        self.looked = Some(now);
        false
    }
}

impl<H: Files + Clock + Wait, K: Keeping, W: Write + Drop> FeedWatch for EndWatch<'_, H, K, W> {
    ghost use Rattle.std.specs.Prelude.{⊤};

    // No contract knows which files are there.
    ghost asked = { λ _. ⊤ };

    fn note_read(&mut self, octets: usize) {
        self.shower.add(octets);
    }

    fn is_asked(&mut self) -> bool {
        if self.looked_lately() {
            return false;
        }
        fs::metadata(self.shower.rt, self.end_on).is_ok()
    }
}
