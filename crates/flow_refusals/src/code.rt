//! The table of refusals.

ghost use Rattle.std.specs.Prelude.{◌≡◌, ◌≢◌, ◌≤◌, is_some, IfSome, IsTrue, Some};
ghost use Rattle.flow_refusals.specs.Table.{code_text, is_refusal, row_of};

use crate::texts;
use std::fmt;

/// A refusal, without what it carries: each has a number of its own. It is printed as its number and its name.
#[derive(Clone, Copy, Debug, PartialEq, Eq)]
pub enum RefusalCode {
    /// Fewer octets than a message header has.
    Short,
    /// The Version field of a message isn't 10.
    Version,
    /// The Length field of a message isn't the count of its octets.
    Length,
    /// A Set's header or its Length doesn't fit its message.
    SetLength,
    /// A template record passes the end of its Set.
    TemplateCut,
    /// A Template ID below 256 that withdraws nothing.
    TemplateId,
    /// A Scope Field Count of 0, or above the Field Count.
    ScopeCount,
    /// A field of a data record passes the end of its Set.
    RecordCut,
    /// The template records in force in an Observation Domain would pass 60,000 octets.
    TemplatesFull,
    /// More than 64 Observation Domains would have templates in force.
    DomainsFull,
    /// A growth of memory was refused.
    OutOfMemory,
    /// A sum would pass its type.
    SumSpent,
    /// A message that passes the end of its File.
    FileCut,
    /// A message in a File with a Version other than 10.
    FileVersion,
    /// A message in a File with a Length below 16.
    FileLength,
    /// A file with content that no honest run leaves.
    Damaged,
    /// An open slot whose format is neither 1 nor 2.
    Format,
    /// An open slot with entries that aren't those of a valid manifest.
    Entries,
    /// An open slot with fewer octets, or more, than its manifest has, or a slot without octets beside an open one.
    SlotCut,
    /// No slot is open.
    NoArchive,
    /// The next message, file or manifest would have a number past its limit.
    NumbersSpent,
    /// Octets that are no rolled file.
    NotRolled,
    /// The disk of a new archive has files.
    NotEmpty,
    /// The device failed in that call.
    Fault,
    /// Reading failed.
    Read,
    /// Writing failed.
    Write,
    /// The messages don't fit the active segment any more.
    NoRoom,
    /// The manifest has no room for another entry.
    ManifestFull,
    /// The active segment has no message that was appended.
    NothingToSeal,
    /// A job is under way.
    RollBusy,
    /// No job is under way.
    NoRoll,
    /// A job over no file, or over more than there are.
    RollCount,
    /// Sources of the job are unread, or its file isn't written.
    RollNotDone,
    /// A file that waits for its removal is still read.
    Pinned,
    /// No file waits for its removal.
    NothingToRetire,
    /// The device failed in an earlier call.
    Closed,
    /// What readers are shown can't be read.
    Away,
    /// Archives that are summed together have intervals of other widths.
    Widths,
    /// Messages that are asked for are in sums alone.
    Rolled,
}

/// What the table has of a refusal.
#[derive(Drop)]
struct Row {
    number: u64,
    name: &'static str,
    /// The exit status of a run that ends with it.
    status: u8,
    /// What it means, what usually causes it, and what to do: lines, each with its end.
    explanation: &'static str,
}

impl Row {
    fn new(number: u64, name: &'static str, status: u8, explanation: &'static str) -> Row
        ensures number { result.number ≡ number }
        ensures name { result.name.now ≡ name.now }
        ensures status { result.status ≡ status }
    {
        Row {
            number,
            name,
            status,
            explanation,
        }
    }
}

impl RefusalCode {
    /// Its row of the table.
    fn row(self) -> Row
        ensures number { result.number ≡ (row_of self).number }
        ensures name { result.name.now ≡ (row_of self).name }
        ensures status { result.status ≡ (row_of self).status }
    {
        match self {
            Self::Short => Row::new(1, "Short", 1, texts::SHORT),
            Self::Version => Row::new(2, "Version", 1, texts::VERSION),
            Self::Length => Row::new(3, "Length", 1, texts::LENGTH),
            Self::SetLength => Row::new(4, "SetLength", 1, texts::SET_LENGTH),
            Self::TemplateCut => Row::new(5, "TemplateCut", 1, texts::TEMPLATE_CUT),
            Self::TemplateId => Row::new(6, "TemplateId", 1, texts::TEMPLATE_ID),
            Self::ScopeCount => Row::new(7, "ScopeCount", 1, texts::SCOPE_COUNT),
            Self::RecordCut => Row::new(8, "RecordCut", 1, texts::RECORD_CUT),
            Self::TemplatesFull => Row::new(9, "TemplatesFull", 1, texts::TEMPLATES_FULL),
            Self::DomainsFull => Row::new(10, "DomainsFull", 1, texts::DOMAINS_FULL),
            Self::OutOfMemory => Row::new(11, "OutOfMemory", 4, texts::OUT_OF_MEMORY),
            Self::SumSpent => Row::new(14, "SumSpent", 1, texts::SUM_SPENT),
            Self::FileCut => Row::new(15, "Cut", 1, texts::FILE_CUT),
            Self::FileVersion => Row::new(16, "Version", 1, texts::FILE_VERSION),
            Self::FileLength => Row::new(17, "Length", 1, texts::FILE_LENGTH),
            Self::Damaged => Row::new(20, "Damaged", 5, texts::DAMAGED),
            Self::Format => Row::new(21, "Format", 5, texts::FORMAT),
            Self::Entries => Row::new(22, "Entries", 5, texts::ENTRIES),
            Self::SlotCut => Row::new(23, "Cut", 5, texts::SLOT_CUT),
            Self::NoArchive => Row::new(24, "NoArchive", 5, texts::NO_ARCHIVE),
            Self::NumbersSpent => Row::new(25, "NumbersSpent", 1, texts::NUMBERS_SPENT),
            Self::NotRolled => Row::new(26, "NotRolled", 1, texts::NOT_ROLLED),
            Self::NotEmpty => Row::new(27, "NotEmpty", 1, texts::NOT_EMPTY),
            Self::Fault => Row::new(30, "Fault", 3, texts::FAULT),
            Self::Read => Row::new(31, "Read", 3, texts::READ),
            Self::Write => Row::new(32, "Write", 3, texts::WRITE),
            Self::NoRoom => Row::new(40, "NoRoom", 1, texts::NO_ROOM),
            Self::ManifestFull => Row::new(41, "ManifestFull", 1, texts::MANIFEST_FULL),
            Self::NothingToSeal => Row::new(42, "NothingToSeal", 1, texts::NOTHING_TO_SEAL),
            Self::RollBusy => Row::new(43, "RollBusy", 1, texts::ROLL_BUSY),
            Self::NoRoll => Row::new(44, "NoRoll", 1, texts::NO_ROLL),
            Self::RollCount => Row::new(45, "RollCount", 1, texts::ROLL_COUNT),
            Self::RollNotDone => Row::new(46, "RollNotDone", 1, texts::ROLL_NOT_DONE),
            Self::Pinned => Row::new(47, "Pinned", 1, texts::PINNED),
            Self::NothingToRetire => Row::new(48, "NothingToRetire", 1, texts::NOTHING_TO_RETIRE),
            Self::Closed => Row::new(49, "Closed", 3, texts::CLOSED),
            Self::Away => Row::new(50, "Away", 3, texts::AWAY),
            Self::Widths => Row::new(51, "Widths", 1, texts::WIDTHS),
            Self::Rolled => Row::new(52, "Rolled", 1, texts::ROLLED),
        }
    }

    /// The number.
    pub fn number(self) -> u64
        ensures value { result ≡ (row_of self).number }
        ensures known { IsTrue (is_refusal result) }
    {
        self.row().number
    }

    /// The name.
    pub fn name(self) -> &'static str
        ensures { result.now ≡ (row_of self).name }
    {
        self.row().name
    }

    /// The exit status of a run that ends with it: 1 for what is refused, 3 for a device or a reader's place, 4 for
    /// memory, 5 for damage.
    pub fn status(self) -> u8
        ensures value { result ≡ (row_of self).status }
        ensures failed { 1 ≤ result }
        ensures other { result ≢ 2 }
        ensures most { result ≤ 5 }
    {
        self.row().status
    }

    /// What it means, what usually causes it, and what to do: lines, of which the first begins with its number and its
    /// name.
    pub fn explanation(self) -> &'static str {
        self.row().explanation
    }

    /// The refusal of this number, where there is one.
    pub fn of_number(number: u64) -> Option<RefusalCode>
        ensures found { IfSome result (λ code. (row_of code).number ≡ number) }
        ensures there { is_some result ≡ is_refusal number }
    {
        match number {
            1..=11 => Some(of_messages(number)),
            14..=17 => Some(of_files(number)),
            20..=27 => Some(of_openings(number)),
            30..=32 => Some(of_devices(number)),
            40..=52 => Some(of_archives(number)),
            _ => None,
        }
    }
}

impl fmt::Display for RefusalCode {
    ghost output = { λ code. Some (code_text code) };

    #[tactic(auto, unfolding(crate::specs::Table::code_text))]
    fn fmt<W: fmt::Write>(&self, f: &mut fmt::Formatter<W>) -> fmt::Result {
        write!(f, "{} {}", self.number(), self.name())
    }
}

/// The refusal that a message earns, or memory, by its number from 1 to 11.
fn of_messages(number: u64) -> RefusalCode
    requires least { 1 ≤ number }
    requires most { number ≤ 11 }
    ensures { (row_of result).number ≡ number }
{
    match number {
        1 => RefusalCode::Short,
        2 => RefusalCode::Version,
        3 => RefusalCode::Length,
        4 => RefusalCode::SetLength,
        5 => RefusalCode::TemplateCut,
        6 => RefusalCode::TemplateId,
        7 => RefusalCode::ScopeCount,
        8 => RefusalCode::RecordCut,
        9 => RefusalCode::TemplatesFull,
        10 => RefusalCode::DomainsFull,
        _ => RefusalCode::OutOfMemory,
    }
}

/// The refusal that a File earns, or its sums, by its number from 14 to 17.
fn of_files(number: u64) -> RefusalCode
    requires least { 14 ≤ number }
    requires most { number ≤ 17 }
    ensures { (row_of result).number ≡ number }
{
    match number {
        14 => RefusalCode::SumSpent,
        15 => RefusalCode::FileCut,
        16 => RefusalCode::FileVersion,
        _ => RefusalCode::FileLength,
    }
}

/// The refusal that an archive that isn't opened or made earns, by its number from 20 to 27.
fn of_openings(number: u64) -> RefusalCode
    requires least { 20 ≤ number }
    requires most { number ≤ 27 }
    ensures { (row_of result).number ≡ number }
{
    match number {
        20 => RefusalCode::Damaged,
        21 => RefusalCode::Format,
        22 => RefusalCode::Entries,
        23 => RefusalCode::SlotCut,
        24 => RefusalCode::NoArchive,
        25 => RefusalCode::NumbersSpent,
        26 => RefusalCode::NotRolled,
        _ => RefusalCode::NotEmpty,
    }
}

/// The refusal that a device earns, by its number from 30 to 32.
fn of_devices(number: u64) -> RefusalCode
    requires least { 30 ≤ number }
    requires most { number ≤ 32 }
    ensures { (row_of result).number ≡ number }
{
    match number {
        30 => RefusalCode::Fault,
        31 => RefusalCode::Read,
        _ => RefusalCode::Write,
    }
}

/// The refusal that an open archive earns, what readers are shown of it, or several archives, by its number from 40 to
/// 52.
fn of_archives(number: u64) -> RefusalCode
    requires least { 40 ≤ number }
    requires most { number ≤ 52 }
    ensures { (row_of result).number ≡ number }
{
    match number {
        40 => RefusalCode::NoRoom,
        41 => RefusalCode::ManifestFull,
        42 => RefusalCode::NothingToSeal,
        43 => RefusalCode::RollBusy,
        44 => RefusalCode::NoRoll,
        45 => RefusalCode::RollCount,
        46 => RefusalCode::RollNotDone,
        47 => RefusalCode::Pinned,
        48 => RefusalCode::NothingToRetire,
        49 => RefusalCode::Closed,
        50 => RefusalCode::Away,
        51 => RefusalCode::Widths,
        _ => RefusalCode::Rolled,
    }
}
