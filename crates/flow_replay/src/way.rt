//! How scripts are played, as the words of the command line say.

/// How scripts are played.
#[derive(Clone, Copy, PartialEq, Eq)]
pub(crate) enum Way {
    /// As they are.
    Plainly,
    /// And each part is stopped before each call of its disk, and so is the opening after that.
    Stopped,
    /// The same, and what follows of the part is given to the archive that was opened, and stopped too.
    StoppedTwice,
    /// And each call of its disk fails once.
    Faults,
    /// And its disk lies, in each of so many ways.
    Lies,
    /// And over a folder whose system is in memory: each of its syncs fails, once or with all later ones, and then the
    /// power is cut.
    Folder,
    /// As they are; what is refused because of memory, where that isn't wanted, is given once more.
    Memory,
}

impl Way {
    /// Whether parts are stopped, or meet faults or lies.
    pub(crate) fn stops(self) -> bool {
        !matches!(self, Way::Plainly | Way::Memory)
    }
}

/// How scripts are played, and which of the stops or faults.
#[derive(Clone, Copy)]
pub(crate) struct Plan {
    /// The way.
    pub(crate) way: Way,
    /// One of so many stops is played.
    pub(crate) every: u64,
}

/// What the words of a command line say; nothing where they are wrong.
pub(crate) fn plan_of(words: &[String]) -> Option<Plan> {
    let (way, every) = match words {
        [] => ("plainly", "1"),
        [way] => (way.as_str(), "1"),
        [way, every] => (way.as_str(), every.as_str()),
        _ => return None,
    };
    let way = match way {
        "plainly" => Way::Plainly,
        "stopped" => Way::Stopped,
        "twice" => Way::StoppedTwice,
        "faults" => Way::Faults,
        "lies" => Way::Lies,
        "folder" => Way::Folder,
        "memory" => Way::Memory,
        _ => return None,
    };
    let every: u64 = every.parse().ok()?;
    (every > 0).then_some(Plan { way, every })
}

/// How the words of a command line are written.
pub(crate) const USAGE: &str =
    "flow_replay [plainly | stopped [N] | twice [N] | faults [N] | lies [N] | folder [N] | memory] < SCRIPTS";
