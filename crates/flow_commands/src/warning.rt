//! What a warning says of a File that stopped, or whose messages show that records aren't read, or are summed otherwise
//! than their exporter may mean.

ghost use Rattle.std.specs.Prelude.{◌≡◌, Some};
ghost use Rattle.flow_commands.specs.Warnings.{gap_part, lacks_of, lacks_text, message_place, part_text, parts_of};
ghost use Rattle.flow_commands.specs.Warnings.{place_text, shows_more, stop_place, stream_place, unread_part};

use crate::plan::InputKind;
use crate::progress::Progress;
use flow_archive::ArchiveError;
use flow_codec::{CaveatCounts, FileError, Losses, MessageError, StreamError};
use flow_feed::{Fed, FeedStop, RefusedDatagrams};
use flow_refusals::RefusalCode;
use std::io::Write;
use std::sync::Wait;
use std::{fmt, io};

/// The greatest number of a refusal that a message may earn.
const MOST_NUMBER: u64 = 10;

/// The octet at which reading stopped.
#[derive(Clone, Copy)]
enum StopPlace {
    /// This one of the File.
    OfFile(u64),
    /// This one of the message after those that were taken in.
    OfMessage(u64),
    Unknown,
}

impl fmt::Display for StopPlace {
    ghost output = { λ place. Some (place_text place) };

    fn fmt<W: fmt::Write>(&self, f: &mut fmt::Formatter<W>) -> fmt::Result {
        match self {
            StopPlace::OfFile(at) => write!(f, " at octet {at}"),
            StopPlace::OfMessage(at) => write!(f, " at octet {at} of the next one"),
            StopPlace::Unknown => write!(f, ""),
        }
    }
}

/// The place of a message's fault, within it.
fn message_place(fault: MessageError) -> StopPlace
    ensures { result ≡ message_place fault }
{
    match fault {
        MessageError::SetLength(at)
        | MessageError::TemplateCut(at)
        | MessageError::TemplateId(at)
        | MessageError::ScopeCount(at)
        | MessageError::RecordCut(at) => StopPlace::OfMessage(at as u64),
        _ => StopPlace::Unknown,
    }
}

/// The place of a File's fault.
fn stream_place(error: StreamError) -> StopPlace
    ensures { result ≡ stream_place error }
{
    match error {
        StreamError::File(FileError::Cut(at) | FileError::Version(at) | FileError::Length(at)) => {
            StopPlace::OfFile(at)
        }
        _ => StopPlace::Unknown,
    }
}

/// The place at which a File stopped.
fn stop_place(stop: FeedStop) -> StopPlace
    ensures { result ≡ stop_place stop }
{
    match stop {
        FeedStop::File(error) => stream_place(error),
        FeedStop::Archive(ArchiveError::Message(fault)) => message_place(fault),
        _ => StopPlace::Unknown,
    }
}

/// The File of this number and path stopped after so many messages.
#[derive(Drop)]
pub(crate) struct StoppedFile<'a> {
    pub(crate) number: u64,
    pub(crate) path: &'a str,
    pub(crate) messages: u64,
    pub(crate) stop: FeedStop,
}

impl fmt::Display for StoppedFile<'_> {
    fn fmt<W: fmt::Write>(&self, f: &mut fmt::Formatter<W>) -> fmt::Result {
        write!(
            f,
            "warning: file {} ({}): stopped after {} messages: {}{}",
            self.number,
            self.path,
            self.messages,
            self.stop.code(),
            stop_place(self.stop)
        )
    }
}

/// The File of this number and path can't be opened.
#[derive(Drop)]
pub(crate) struct UnopenedFile<'a> {
    pub(crate) number: u64,
    pub(crate) path: &'a str,
    pub(crate) error: &'a io::Error,
}

impl fmt::Display for UnopenedFile<'_> {
    fn fmt<W: fmt::Write>(&self, f: &mut fmt::Formatter<W>) -> fmt::Result {
        write!(
            f,
            "warning: file {} ({}): can't be opened: {}",
            self.number, self.path, self.error
        )
    }
}

/// The File of this number and path has fewer messages than were to be passed over.
#[derive(Drop)]
pub(crate) struct PassedFile<'a> {
    number: u64,
    path: &'a str,
    messages: u64,
    passed: u64,
}

impl<'a> PassedFile<'a> {
    /// Nothing where it stopped, or has as many, or none were to be passed over.
    pub(crate) fn of(
        number: u64,
        path: &'a str,
        fed: Fed,
        kind: InputKind,
    ) -> Option<PassedFile<'a>> {
        let InputKind::File(passed) = kind else {
            return None;
        };
        if fed.stop.is_some() || fed.messages >= passed {
            return None;
        }
        Some(PassedFile {
            number,
            path,
            messages: fed.messages,
            passed,
        })
    }
}

impl fmt::Display for PassedFile<'_> {
    fn fmt<W: fmt::Write>(&self, f: &mut fmt::Formatter<W>) -> fmt::Result {
        write!(
            f,
            "warning: file {} ({}): nothing is taken in, since --from {} is past its last message: {}",
            self.number, self.path, self.passed, self.messages
        )
    }
}

/// A File by its number and path.
#[derive(Clone, Copy)]
pub(crate) struct NamedFile<'a> {
    pub(crate) number: u64,
    pub(crate) path: &'a str,
}

impl fmt::Display for NamedFile<'_> {
    fn fmt<W: fmt::Write>(&self, f: &mut fmt::Formatter<W>) -> fmt::Result {
        write!(f, "file {} ({})", self.number, self.path)
    }
}

/// What is said after a File's name where counts are of all of it, and where it is still read.
pub(crate) const WHOLE: &str = "";

pub(crate) const SO_FAR: &str = " so far";

/// Datagrams of a File that were passed over, in all or so far.
#[derive(Drop)]
pub(crate) struct RefusedFile<'a> {
    file: NamedFile<'a>,
    extent: &'static str,
    refused: RefusedDatagrams,
}

impl<'a> RefusedFile<'a> {
    /// Nothing where none were.
    pub(crate) fn of(
        file: NamedFile<'a>,
        extent: &'static str,
        refused: RefusedDatagrams,
    ) -> Option<RefusedFile<'a>> {
        for number in 1..=MOST_NUMBER {
            if refused.of_number(number) > 0 {
                return Some(RefusedFile {
                    file,
                    extent,
                    refused,
                });
            }
        }
        None
    }
}

impl fmt::Display for RefusedFile<'_> {
    fn fmt<W: fmt::Write>(&self, f: &mut fmt::Formatter<W>) -> fmt::Result {
        write!(
            f,
            "warning: {}{}: datagrams passed over",
            self.file, self.extent
        )?;
        let mut before = ": ";
        for number in 1..=MOST_NUMBER {
            let count = self.refused.of_number(number);
            if let (true, Some(code)) = (count > 0, RefusalCode::of_number(number)) {
                write!(f, "{before}{count} by {code}")?;
                before = ", ";
            }
        }
        Ok(())
    }
}

/// So many messages of so many in all are in sums alone.
#[derive(Drop)]
pub(crate) struct RolledMessages {
    pub(crate) rolled: u64,
    /// Those of them that are in sums over wide intervals.
    pub(crate) wide: u64,
    pub(crate) messages: u64,
}

impl fmt::Display for RolledMessages {
    fn fmt<W: fmt::Write>(&self, f: &mut fmt::Formatter<W>) -> fmt::Result {
        write!(
            f,
            "{} of {} messages are in sums alone now",
            self.rolled, self.messages
        )?;
        match self.wide {
            0 => Ok(()),
            wide => write!(f, ", {wide} of them over wide intervals"),
        }
    }
}

/// What sums over wide intervals lose.
#[derive(Drop)]
struct WideSums;

impl fmt::Display for WideSums {
    fn fmt<W: fmt::Write>(&self, f: &mut fmt::Formatter<W>) -> fmt::Result {
        write!(
            f,
            "merged sums are over wide intervals alone: peaks and percentiles of shorter ones can't be had of them"
        )
    }
}

/// Says on a terminal what sums over wide intervals lose.
pub fn warn_of_wide<H: Wait, P: Write + Drop>(rt: &H, progress: &Progress<P>) {
    progress.note(rt, &WideSums);
}

/// What the system said of the first call on a folder that failed.
#[derive(Drop)]
struct SystemSaid {
    error: io::Error,
}

impl fmt::Display for SystemSaid {
    fn fmt<W: fmt::Write>(&self, f: &mut fmt::Formatter<W>) -> fmt::Result {
        write!(f, "the system said: {}", self.error)
    }
}

/// Says what the system said of the first call on a folder that failed, where one did.
pub fn tell_fault<H: Wait, P: Write + Drop>(rt: &H, progress: &Progress<P>) {
    if let Some(error) = progress.first_fault().said() {
        progress.tell(rt, &SystemSaid { error });
    }
}

/// One part of what a warning says of messages.
#[derive(Clone, Copy)]
enum LackPart {
    /// So many data Sets of this domain had no definition in force.
    OfDomain(u64, u32),
    /// So many of this domain, and so many of others.
    OfDomains(u64, u32, u64),
    /// Sequence Numbers leave so many records out, in so many gaps.
    Gaps(u64, u64),
    /// So many flows start at the Export Time of their message.
    Placed(u64),
    /// The octets or packets of so many flows are counted by an element alone that isn't summed.
    Uncounted(u64),
    /// So many flows have a sampling rate.
    Sampled(u64),
}

impl fmt::Display for LackPart {
    ghost output = { λ part. Some (part_text part) };

    fn fmt<W: fmt::Write>(&self, f: &mut fmt::Formatter<W>) -> fmt::Result {
        match self {
            LackPart::OfDomain(sets, domain) => {
                write!(f, "{sets} data sets of domain {domain} had no template")
            }
            LackPart::OfDomains(sets, domain, others) => write!(
                f,
                "{sets} data sets of domain {domain} had no template, and {others} of other domains"
            ),
            LackPart::Gaps(missing, gaps) => {
                write!(
                    f,
                    "{missing} records are missing, in {gaps} gaps of sequence numbers"
                )
            }
            LackPart::Placed(flows) => write!(f, "{flows} flows have no start time of their own"),
            LackPart::Uncounted(flows) => write!(
                f,
                "{flows} flows have octets or packets only in elements that aren't summed"
            ),
            LackPart::Sampled(flows) => write!(f, "{flows} flows have a sampling rate"),
        }
    }
}

/// What is said of Sets without a definition in force.
fn unread_part(losses: Losses) -> Option<LackPart>
    ensures { result ≡ unread_part losses }
{
    let domain = losses.domain?;
    let own = losses.unread.saturating_sub(losses.elsewhere);
    if losses.elsewhere == 0 {
        Some(LackPart::OfDomain(own, domain))
    } else {
        Some(LackPart::OfDomains(own, domain, losses.elsewhere))
    }
}

/// What is said of Sequence Numbers.
fn gap_part(losses: Losses) -> Option<LackPart>
    ensures { result ≡ gap_part losses }
{
    if losses.gaps == 0 {
        None
    } else {
        Some(LackPart::Gaps(losses.missing, losses.gaps))
    }
}

/// All that may be said, in its order.
fn parts_of(losses: Losses) -> [Option<LackPart>; 5]
    ensures { result ≡ parts_of losses }
{
    let CaveatCounts {
        placed,
        uncounted,
        sampled,
    } = losses.caveats;
    [
        unread_part(losses),
        gap_part(losses),
        (placed > 0).then_some(LackPart::Placed(placed)),
        (uncounted > 0).then_some(LackPart::Uncounted(uncounted)),
        (sampled > 0).then_some(LackPart::Sampled(sampled)),
    ]
}

/// What messages show of records that aren't read, or are summed otherwise than their exporter may mean.
#[derive(Clone, Copy)]
struct Lacks {
    parts: [Option<LackPart>; 5],
}

impl Lacks {
    /// Nothing where there is no part.
    fn of(losses: Losses) -> Option<Lacks>
        ensures { result ≡ lacks_of losses }
    {
        let parts = parts_of(losses);
        if parts.iter().all(|part| part.is_none()) {
            return None;
        }
        Some(Lacks { parts })
    }
}

impl fmt::Display for Lacks {
    ghost output = { λ lacks. Some (lacks_text lacks) };

    fn fmt<W: fmt::Write>(&self, f: &mut fmt::Formatter<W>) -> fmt::Result {
        let mut before = "";
        'parts: for part in &self.parts {
            if let Some(part) = part {
                write!(f, "{before}{part}")?;
                before = "; ";
            }
        }
        Ok(())
    }
}

/// Whether a piece of messages shows anything of which a warning or a count says more.
pub fn shows_more(piece: Losses) -> bool
    ensures { result ≡ shows_more piece }
{
    let caveats = piece.caveats;
    piece.unread > 0
        || piece.gaps > 0
        || caveats.placed > 0
        || caveats.uncounted > 0
        || caveats.sampled > 0
}

/// The messages of a File, all or so far, show that records aren't read, or are summed otherwise.
#[derive(Drop)]
pub(crate) struct LossyFile<'a> {
    file: NamedFile<'a>,
    extent: &'static str,
    lacks: Lacks,
}

impl<'a> LossyFile<'a> {
    /// Nothing where they don't.
    pub(crate) fn of(
        file: NamedFile<'a>,
        extent: &'static str,
        losses: Losses,
    ) -> Option<LossyFile<'a>> {
        let lacks = Lacks::of(losses)?;
        Some(LossyFile {
            file,
            extent,
            lacks,
        })
    }
}

impl fmt::Display for LossyFile<'_> {
    fn fmt<W: fmt::Write>(&self, f: &mut fmt::Formatter<W>) -> fmt::Result {
        write!(f, "warning: {}{}: {}", self.file, self.extent, self.lacks)
    }
}

/// The messages of the File on standard input show that records aren't read, or are summed otherwise.
#[derive(Drop)]
struct LossyInput {
    lacks: Lacks,
}

impl fmt::Display for LossyInput {
    fn fmt<W: fmt::Write>(&self, f: &mut fmt::Formatter<W>) -> fmt::Result {
        write!(f, "warning: {}", self.lacks)
    }
}

/// Warns of what the messages of the File on standard input show not to be read, or to be summed otherwise: on a
/// terminal, or anywhere where that is asked for.
pub fn warn_of_input<H: Wait, P: Write + Drop>(
    rt: &H,
    is_asked: bool,
    losses: Losses,
    progress: &Progress<P>,
) {
    if is_asked {
        progress.warn(rt);
    }
    if let Some(lacks) = Lacks::of(losses) {
        progress.say(rt, &LossyInput { lacks });
    }
}
