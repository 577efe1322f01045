//! The command `inspect`.

ghost use Rattle.std.specs.Prelude.{◌≡◌, ◌++◌, [], ℕ, List, Some, None, OnOk, IfOk, IfErr, IfSome, length};
ghost use Rattle.std.specs.Io.KnownBytes.{Appends};
ghost use Rattle.flow_report.specs.Refusals.{IsOfInput};
ghost use Rattle.flow_report.specs.Measure.{IsRefusedBy};
ghost use Rattle.flow_inspect.specs.Inspect.{AreOf, HasReports, HasLines, KeepsOrFront, KeepsOrFrontOfFile, WritesFile};
ghost use Rattle.flow_inspect.specs.Inspect.{walk_refusal};
ghost use Rattle.flow_inspect.specs.Reports.{domains_text, entries_after, file_words, reports_text, whole_in};
ghost use Rattle.flow_inspect.specs.Reports.{whole_line, whole_of};

use crate::counting::RecordCounts;
use crate::lasting::Lasted;
use crate::reporting::{DomainReport, begun, continued, push_file, push_heading, push_in};
use crate::tally::{Tally, with_tally};
use crate::whole::push_whole;
use flow_codec::{MessageReader, Templates, WalkError, Walked, walk_sets};
use flow_report::{Format, Layout, Patience, Refusal, Times, write_patiently};
use indexmap::IndexMap;
use std::alloc::{AllocError, Global};
use std::convert::Infallible;
use std::io::{Read, Write};

/// What is counted of each domain, in the order of their first messages.
type Reports = IndexMap<u32, DomainReport>;

/// Why a run stops at the message of this number.
fn walk_refusal(stop: WalkError<Infallible>, number: u64) -> Refusal
    ensures value { result ≡ walk_refusal stop number }
    ensures unwritten { IsOfInput result }
{
    match stop {
        WalkError::Message(fault) => Refusal::of_message(fault, number),
        WalkError::Sink(never) => match never {},
    }
}

/// Counts one message more.
fn add_message(
    reports: &mut Reports,
    walked: &Walked,
    counts: RecordCounts,
) -> Result<(), AllocError>
    ensures { OnOk result (reports.new.entries ≡ entries_after reports.old.entries walked.now counts) }
{
    let report = match reports.get(&walked.header.domain) {
        Some(report) => continued(*report, walked, counts),
        None => begun(walked, counts),
    };
    match reports.insert(walked.header.domain, report) {
        Ok(_) => Ok(()),
        Err(_) => Err(AllocError),
    }
}

/// Counts the messages of a File that was opened now, by domain, in reports of none.
fn add_messages<R: Read>(
    alloc: Global,
    input: &mut R,
    reader: &mut MessageReader,
    templates: &mut Templates,
    reports: &mut Reports,
) -> Result<(), Refusal>
    requires opened { reader.old ≡ record { ahead = []; message = []; count = 0; at = 0; stopped = None } }
    requires undefined { templates.old ≡ [] }
    requires none { reports.old.entries ≡ [] }
    ensures reports { OnOk result ((octets : List ℕ) × AreOf (R.remaining input.old) octets
        × HasReports octets reports.new.entries) }
    ensures refused { IfErr result (λ e. IfSome (R.remaining input.old)
        (λ octets. IsRefusedBy octets (R.remaining input.new) e)) }
    ensures unwritten { IfErr result (λ e. IsOfInput e) }
{
    'messages: while reader.advance(input)? {
        let mut counts = RecordCounts {
            records: 0,
            options: 0,
            starts: None,
            lasted: Lasted {
                longest: None,
                long: 0,
            },
            placed: 0,
            uncounted: 0,
            sampled: 0,
        };
        match walk_sets(templates, alloc, reader.message(), &mut counts) {
            Ok(walked) => add_message(reports, &walked, counts)?,
            Err(stop) => return Err(walk_refusal(stop, reader.count())),
        }
    }
    Ok(())
}

/// What is counted of each domain of the File that `input` reads.
fn reports_of<R: Read>(alloc: Global, input: &mut R) -> Result<Reports, Refusal>
    ensures reports { IfOk result
        (λ reports. (octets : List ℕ) × AreOf (R.remaining input.old) octets × HasReports octets reports.entries) }
    ensures refused { IfErr result (λ e. IfSome (R.remaining input.old)
        (λ octets. IsRefusedBy octets (R.remaining input.new) e)) }
    ensures unwritten { IfErr result (λ e. IsOfInput e) }
{
    let mut reader = MessageReader::new(alloc)?;
    let mut templates = Templates::new(alloc);
    let mut reports = IndexMap::new(alloc);
    let added = add_messages(alloc, input, &mut reader, &mut templates, &mut reports);
    drop(reader);
    drop(templates);
    match added {
        Ok(()) => Ok(reports),
        Err(refused) => {
            drop(reports);
            Err(refused)
        }
    }
}

/// What is before all lines, and the lines of the domains.
fn domains_text_of(
    alloc: Global,
    format: Format,
    file: Option<u64>,
    reports: &Reports,
) -> Result<Vec<u8>, AllocError>
    ensures { IfOk result (λ text. text.items ≡ domains_text format file reports.now.entries) }
{
    let mut text = Vec::new(alloc);
    push_heading(&mut text, format, file)?;
    for i in 0..reports.len() {
        if let Some((domain, report)) = reports.get_index(i) {
            push_in(&mut text, format, file, *domain, report)?;
        }
    }
    Ok(text)
}

/// What is counted of all domains together; nothing where there is no message.
fn whole_of(reports: &Reports) -> Option<Tally>
    ensures { result ≡ whole_of reports.now.entries }
{
    let mut whole = None;
    let domains = reports.len();
    for i in 0..domains {
        if let Some((_, report)) = reports.get_index(i) {
            whole = Some(with_tally(whole, report.tally));
        }
    }
    whole
}

/// Puts the line of the whole File after a text, in words.
fn push_whole_line(
    text: &mut Vec<u8>,
    times: Times,
    file: Option<u64>,
    reports: &Reports,
) -> Result<(), AllocError>
    ensures { OnOk result (text.new.items ≡ text.old.items
        ++ (file_words file ++ whole_line times (length reports.now.entries) (whole_of reports.now.entries))) }
{
    push_file(text, file)?;
    push_whole(text, times, reports.len() as u64, whole_of(reports))
}

/// Puts the line of the whole File after a text, in words alone.
#[tactic(auto, unfolding(crate::specs::Reports::whole_in))]
fn push_whole_in(
    text: &mut Vec<u8>,
    format: Format,
    file: Option<u64>,
    reports: &Reports,
) -> Result<(), AllocError>
    ensures { OnOk result (text.new.items ≡ text.old.items ++ whole_in format file reports.now.entries) }
{
    match format.layout {
        Layout::Lines => push_whole_line(text, format.times, file, reports),
        Layout::Csv => Ok(()),
        Layout::Json => Ok(()),
    }
}

/// The lines of all domains, and that of the whole File.
fn text_of(
    alloc: Global,
    format: Format,
    file: Option<u64>,
    reports: &Reports,
) -> Result<Vec<u8>, AllocError>
    ensures { IfOk result (λ text. text.items ≡ reports_text format file reports.now.entries) }
{
    let mut text = domains_text_of(alloc, format, file, reports)?;
    push_whole_in(&mut text, format, file, reports)?;
    Ok(text)
}

/// Reads a File and writes its lines, with its number where it has one.
fn write_lines<R: Read, W: Write>(
    alloc: Global,
    format: Format,
    file: Option<u64>,
    input: &mut R,
    output: &mut W,
) -> Result<(), Refusal>
    ensures lines { OnOk result
        (WritesFile format file (R.remaining input.old) (W.contents output.old) (W.contents output.new)) }
    ensures refused { IfErr result (λ e. IfSome (R.remaining input.old)
        (λ octets. IsRefusedBy octets (R.remaining input.new) e)) }
    ensures kept { IfErr result (λ e. KeepsOrFrontOfFile format file (R.remaining input.old) (W.contents output.old)
        (W.contents output.new) e) }
{
    let reports = reports_of(alloc, input)?;
    let text = text_of(alloc, format, file, &reports)?;
    write_patiently(output, text.as_slice(), &mut Patience::new())?;
    Ok(())
}

/// Reads a File and writes a line for each Observation Domain, in the order of their first messages: `domain DOMAIN
/// messages N records N options N unread SETS OCTETS replaced N gaps N missing N backwards N from TIME to TIME starts
/// FIRST LAST longest SECONDS long N placed N uncounted N sampled N`, or the same values as CSV or JSON. In words one
/// line of the whole File comes after them: `all domains N`, and the same of all domains together. Nothing is written
/// unless the whole File was accepted.
///
/// Data Sets without a definition in force are passed over: SETS is how many there are, and OCTETS what they have with
/// their headers. How many records they hold can't be known.
///
/// A template record replaces a definition where its ID has one in force that differs, in its kind, its scope fields,
/// or its fields' elements and lengths, and wasn't withdrawn (RFC 7011, section 8.1): two exporters may share the
/// domain.
///
/// A message's Sequence Number is due where it is that of the domain's message before, with as many data records more
/// as that one has, modulo 2^32 (RFC 7011, section 3.1). One past it is a gap, of as many missing records as it is past
/// it. One that is before it counts as backwards. The first message of a domain has whichever it has. TIME is the least
/// and the greatest Export Time, FIRST and LAST the least and the greatest start of the flows, which are the data
/// records of Templates, in seconds since 1970-01-01 00:00 UTC.
///
/// A flow lasts from its start to its end, where its record has both: flowStartMilliseconds or else flowStartSeconds,
/// and flowEndMilliseconds or else flowEndSeconds. The longest one lasts SECONDS, and N of them last more than 300.
///
/// A flow is placed by the Export Time of its message where its record has no start that counts. One is uncounted where
/// its octets or packets are counted by another element alone than octetDeltaCount and packetDeltaCount, which are
/// summed. One is sampled where its record has a sampling rate, which no sum is multiplied by.
pub fn inspect<R: Read, W: Write>(
    alloc: Global,
    format: Format,
    input: &mut R,
    output: &mut W,
) -> Result<(), Refusal>
    // The lines are those of a whole File.
    ensures lines { OnOk result
        (IfSome (R.remaining input.old) (λ octets. (lines : List ℕ) × HasLines format octets lines
        × Appends (W.contents output.old) (W.contents output.new) lines)) }
    // A refusal is that of the first fault by place.
    ensures refused { IfErr result (λ e. IfSome (R.remaining input.old)
        (λ octets. IsRefusedBy octets (R.remaining input.new) e)) }
    // After one nothing is written, or, where writing failed, a prefix of the lines.
    ensures kept { IfErr result
        (λ e. KeepsOrFront format (R.remaining input.old) (W.contents output.old) (W.contents output.new) e) }
{
    write_lines(alloc, format, None, input, output)
}

/// Reads one of several Files and writes the lines of `inspect`, each with the File's number: they begin with `file N `
/// in words, CSV and JSON have it as their first value, `file`. The names of CSV are written before the lines of File 1
/// alone. Nothing is written unless the whole File was accepted.
pub fn inspect_file<R: Read, W: Write>(
    alloc: Global,
    format: Format,
    number: u64,
    input: &mut R,
    output: &mut W,
) -> Result<(), Refusal>
    // The lines are those of a whole File, which is what `input` has, where that is known.
    ensures lines { OnOk result
        (WritesFile format (Some number) (R.remaining input.old) (W.contents output.old) (W.contents output.new)) }
    // A refusal is that of the first fault by place.
    ensures refused { IfErr result (λ e. IfSome (R.remaining input.old)
        (λ octets. IsRefusedBy octets (R.remaining input.new) e)) }
    // After one nothing is written, or, where writing failed, a prefix of the lines.
    ensures kept { IfErr result (λ e. KeepsOrFrontOfFile format (Some number) (R.remaining input.old)
        (W.contents output.old) (W.contents output.new) e) }
{
    write_lines(alloc, format, Some(number), input, output)
}
