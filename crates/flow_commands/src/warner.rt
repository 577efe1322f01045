//! What is warned of while a File is read.

use crate::progress::Progress;
use crate::warning::{LossyFile, NamedFile, RefusedFile, SO_FAR, shows_more};
use flow_codec::{Losses, MessageError};
use flow_feed::{Counter, RefusedDatagrams};
use std::io::Write;
use std::sync::Wait;
use std::time::{Clock, Instant};

/// The seconds between two warnings of a File.
const PERIOD: u64 = 60;

/// Counts what the messages of a File show not to be read, or to be summed otherwise, and its datagrams that are passed
/// over, and warns of all so far while it is read: at most once in 60 seconds, and where more was counted since. It does
/// so when the next batch or datagram comes, by a clock that is read where something is to be warned of.
#[derive(Drop)]
pub(crate) struct Warner<'a, H: Clock + Wait, P: Write + Drop> {
    rt: &'a H,
    progress: &'a Progress<P>,
    file: NamedFile<'a>,
    losses: Losses,
    refused: RefusedDatagrams,
    /// Whether more was counted than was warned of.
    has_more: bool,
    /// When it warned last, or began; None where warnings aren't written, or no clock is read.
    last: Option<Instant>,
}

impl<'a, H: Clock + Wait, P: Write + Drop> Warner<'a, H, P> {
    /// Nothing is counted of this File.
    pub(crate) fn new(rt: &'a H, progress: &'a Progress<P>, file: NamedFile<'a>) -> Self {
        let last = if progress.warns(rt) {
            Instant::now(rt).ok()
        } else {
            None
        };
        Warner {
            rt,
            progress,
            file,
            losses: Losses::none(),
            refused: RefusedDatagrams::none(),
            has_more: false,
            last,
        }
    }

    /// Writes what is counted so far.
    fn tell(&self) {
        if let Some(line) = RefusedFile::of(self.file, SO_FAR, self.refused) {
            self.progress.say(self.rt, &line);
        }
        if let Some(line) = LossyFile::of(self.file, SO_FAR, self.losses) {
            self.progress.say(self.rt, &line);
        }
    }

    /// Warns, where more was counted and it is time to.
    fn warn(&mut self) {
        let Some(last) = self.last else {
            return;
        };
        if !self.has_more {
            return;
        }
        let Ok(now) = Instant::now(self.rt) else {
            return;
        };
        if now.duration_since(last).as_secs() < PERIOD {
            return;
        }
        self.tell();
        self.has_more = false;
        self.last = Some(now);
    }
}

impl<H: Clock + Wait, P: Write + Drop> Counter for Warner<'_, H, P> {
    fn add_losses(&mut self, piece: Losses) {
        self.losses = self.losses.and_piece(piece);
        self.has_more = self.has_more || shows_more(piece);
        self.warn();
    }

    fn add_refused(&mut self, fault: MessageError) {
        self.refused.add(fault);
        self.has_more = true;
        self.warn();
    }
}
