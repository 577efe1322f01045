//! What a run has found.

use flow_scripts::{Command, Line};
use std::alloc::{AllocError, Global};

/// How many characters of a line are reported.
const TOLD: usize = 100;

/// What an answer ends by where memory is refused.
const NO_MEMORY: &str = "11 OutOfMemory";

/// What an answer ends by where readers of a shared archive weren't shown its messages.
const UNSEEN: &str = " unseen";

/// What a run has found: how much it has compared, and what differs.
#[derive(Drop)]
pub(crate) struct Report {
    /// The differences that aren't printed yet, in lines.
    pub(crate) text: String,
    /// How many answers were compared.
    pub(crate) answers: u64,
    /// How many of them differ from what is wanted.
    pub(crate) differ: u64,
    /// How many stops or faults there are, and how many of them are played.
    pub(crate) stops: u64,
    pub(crate) played: u64,
    /// How many lines may be given once more, since memory was refused.
    pub(crate) more: u64,
}

impl Report {
    /// Nothing; so many lines may be given once more.
    pub(crate) fn new(alloc: Global, more: u64) -> Report {
        Report {
            text: String::new(alloc),
            answers: 0,
            differ: 0,
            stops: 0,
            played: 0,
            more,
        }
    }

    /// Whether nothing differs.
    pub(crate) fn agrees(&self) -> bool {
        self.differ == 0
    }

    /// Counts a stop: whether it is played, where one of so many is.
    pub(crate) fn takes(&mut self, every: u64) -> bool {
        self.stops = self.stops.saturating_add(1);
        let is_taken = self.stops.checked_rem(every) == Some(0);
        self.played = self.played.saturating_add(u64::from(is_taken));
        is_taken
    }

    /// Whether something may be given once more. It is counted then.
    pub(crate) fn gives_again(&mut self) -> bool {
        let gives = self.more > 0;
        self.more = self.more.saturating_sub(1);
        gives
    }

    /// Whether a line is given once more after this answer: one that ends in a refusal of memory, or says that readers
    /// don't see all, which isn't wanted.
    pub(crate) fn repeats(&mut self, line: &Line<'_>, came: &str) -> bool {
        let is_refused = came.ends_with(NO_MEMORY) && !line.wanted.ends_with(NO_MEMORY);
        let is_late = matches!(line.command, Command::Refresh) && came != line.wanted;
        (is_refused || is_late) && self.gives_again()
    }

    /// Whether readers are to be shown what they don't see yet: after the answer that is wanted, but for `unseen`. It
    /// is counted as something that is given once more.
    pub(crate) fn shows(&mut self, line: &Line<'_>, came: &str) -> bool {
        came.strip_suffix(UNSEEN) == Some(line.wanted) && self.gives_again()
    }

    /// Counts an answer that is the one that is wanted.
    pub(crate) fn agree(&mut self) {
        self.answers = self.answers.saturating_add(1);
    }

    /// Counts an answer that differs, and reports it.
    pub(crate) fn tell(
        &mut self,
        alloc: Global,
        place: &str,
        wanted: &str,
        came: &str,
    ) -> Result<(), AllocError> {
        self.answers = self.answers.saturating_add(1);
        self.differ = self.differ.saturating_add(1);
        self.text.push_str(&format!(in alloc; "{place}\n  wanted {wanted}\n  came   {came}\n")?)
    }

    /// Compares the answer to a line.
    pub(crate) fn compare(
        &mut self,
        alloc: Global,
        script: &str,
        line: &Line<'_>,
        came: &str,
    ) -> Result<(), AllocError> {
        if came == line.wanted {
            self.agree();
            return Ok(());
        }
        let place = place_of(alloc, script, line)?;
        self.tell(alloc, place.as_str(), line.wanted, came)
    }
}

/// The place of a line.
pub(crate) fn place_of(alloc: Global, script: &str, line: &Line<'_>) -> Result<String, AllocError> {
    let number = line.number;
    let text: String = line.text.chars().take(TOLD).collect(alloc)?;
    format!(in alloc; "script {script}, line {number}: {text}")
}
