//! What lines ask.

/// The widths of a new archive, in seconds, and the limit of its segments, in octets.
#[derive(Clone, Copy)]
pub struct Widths {
    /// The width of its narrow intervals.
    pub narrow: u32,
    /// How many octets of messages a segment takes.
    pub limit: u32,
    /// The width of its wide intervals.
    pub wide: u32,
}

/// What an archive is asked to do.
#[derive(Drop)]
pub enum Event {
    /// Add a message.
    Append(Vec<u8>),
    /// Add messages, all of them or none: from 1 to 64.
    Batch(Vec<Vec<u8>>),
    /// Seal the active segment.
    Seal,
    /// Begin to roll so many sealed segments.
    Roll(u32),
    /// Begin to merge so many rolled files.
    Merge(u32),
    /// Read one source more of the job.
    RollStep,
    /// Make the file of the job.
    Write,
    /// Put it in place of its sources.
    Install,
    /// Give the job up.
    GiveUp,
    /// Remove the oldest file that waits for it.
    Retire,
}

/// Seconds from one on and before another.
#[derive(Clone, Copy)]
pub struct Span {
    /// The first second.
    pub from: u64,
    /// The one after the last.
    pub to: u64,
}

/// What a reader asks of a snapshot.
#[derive(Drop)]
pub enum Question {
    /// The rows of a span.
    Totals(Span),
    /// The flows of a span.
    Flows(Span),
    /// Whether the message of this number has these octets.
    Message(u64, Vec<u8>),
    /// How many messages there are, and the two cuts.
    Counts,
    /// The counts and all totals.
    Summary,
}

/// What is asked of a disk, or done to it.
#[derive(Drop)]
pub enum OfDisk {
    /// Write octets into a file at a place, and settle it.
    Put(u64, u64, Vec<u8>),
    /// Write octets into each file from one on up to another.
    Fill(u64, u64, Vec<u8>),
    /// Cut a file to so many octets, and settle it.
    Cut(u64, u64),
    /// Remove a file.
    Remove(u64),
    /// Whether a file has these octets.
    File(u64, Vec<u8>),
    /// How many octets a file has.
    Length(u64),
    /// The numbers of all files.
    Files,
}

/// Octets that reads of a frozen file give in place of those that it has.
#[derive(Drop)]
pub struct Damage {
    /// The file's number.
    pub file: u64,
    /// The place of the first of them, in octets from the file's start.
    pub at: u64,
    /// The octets.
    pub octets: Vec<u8>,
}

/// What a line asks.
#[derive(Drop)]
pub enum Command {
    /// Make an archive.
    Create(Widths),
    /// Open the archive of the disk.
    Open,
    /// Give it an event.
    Event(Event),
    /// Ask a new snapshot.
    See(Question),
    /// Ask the snapshot that is held.
    SeeHeld(Question),
    /// Hold a snapshot.
    Hold,
    /// Let it go.
    LetGo,
    /// The counts of its files, those of a snapshot, and all totals.
    State,
    /// Whether so many octets more fit the active segment.
    Room(u64),
    /// Its widths, and its job.
    Status,
    /// Make a turn of rolling, which leaves so many of the newest segments as they are.
    RollTurn(u32),
    /// Make a turn of merging, which leaves so many of the newest rolled files as they are.
    MergeTurn(u32),
    /// Show readers what they don't see yet.
    Refresh,
    /// Damage a frozen file, under the archive.
    Damage(Damage),
    /// Something of the disk alone.
    Disk(OfDisk),
}

impl Command {
    /// Whether it begins a part with an archive.
    pub fn begins(&self) -> bool {
        matches!(self, Command::Create(_) | Command::Open)
    }

    /// Whether it is of the disk alone.
    pub fn is_of_disk(&self) -> bool {
        matches!(self, Command::Disk(_))
    }

    /// Whether a shared archive takes it.
    pub(crate) fn is_of_shared(&self) -> bool {
        matches!(
            self,
            Command::Event(Event::Append(_) | Event::Batch(_) | Event::Seal)
                | Command::See(_)
                | Command::SeeHeld(_)
                | Command::Hold
                | Command::LetGo
                | Command::RollTurn(_)
                | Command::MergeTurn(_)
                | Command::Refresh
        )
    }

    /// Whether a shared archive alone takes it.
    pub(crate) fn is_of_shared_alone(&self) -> bool {
        matches!(
            self,
            Command::RollTurn(_) | Command::MergeTurn(_) | Command::Refresh
        )
    }

    /// Whether it is an event.
    pub fn is_event(&self) -> bool {
        matches!(self, Command::Event(_))
    }

    /// Whether it changes an archive, or what readers hold of it.
    pub fn acts(&self) -> bool {
        matches!(self, Command::Event(_) | Command::Hold | Command::LetGo)
    }

    /// Whether it damages a file.
    pub(crate) fn damages(&self) -> bool {
        matches!(self, Command::Damage(_))
    }

    /// Whether it asks for the state of an archive.
    pub fn is_state(&self) -> bool {
        matches!(self, Command::State)
    }

    /// Whether its line needs an answer: the other ones answer nothing where all is well.
    pub(crate) fn answers(&self) -> bool {
        match self {
            Command::Event(_)
            | Command::State
            | Command::Room(_)
            | Command::Status
            | Command::RollTurn(_)
            | Command::MergeTurn(_)
            | Command::Refresh => true,
            Command::See(question) | Command::SeeHeld(question) => question.answers(),
            Command::Disk(asked) => matches!(asked, OfDisk::Length(_) | OfDisk::Files),
            _ => false,
        }
    }
}

impl Question {
    /// Whether its line needs an answer: that of a message with its octets answers nothing where it has these.
    fn answers(&self) -> bool {
        match self {
            Question::Message(_, octets) => octets.is_empty(),
            _ => true,
        }
    }
}
