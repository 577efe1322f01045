//! What is counted of an Observation Domain, and its line.

ghost use Rattle.std.specs.Prelude.{◌≡◌, ◌++◌, ◌∷◌, [], if◌then◌else◌, OnOk, option_map, codes};
ghost use Rattle.std.specs.Fmt.{decimal};
ghost use Rattle.flow_inspect.specs.Reports.{begun, continued, due_after, plus, tally_after};
ghost use Rattle.flow_inspect.specs.Reports.{caveats_text, counts_text, lasted_text, report_line, sequence_text};
ghost use Rattle.flow_inspect.specs.Reports.{beginning_of, file_values, file_words, heading_of, report_in};
ghost use Rattle.flow_inspect.specs.Reports.{report_names, report_values, starts_text, tally_text};
ghost use Rattle.flow_report.specs.Formats.{closing, heading, line_in, number_or_none, second_text, separator};
ghost use Rattle.flow_report.specs.Formats.{time_or_none, value_in};
ghost use Rattle.flow_report.specs.Formats.Value.{Nothing, Number};

use crate::counting::RecordCounts;
use crate::lasting::{Lasted, both_lasted};
use crate::span::{Span, hull};
use crate::tally::Tally;
use flow_codec::{Header, Walked};
use flow_report::{
    Format, Layout, MOST_VALUE, Times, push_count, push_time, put_last, put_opening, put_time,
    put_value,
};
use std::alloc::AllocError;

/// A Sequence Number that is so far past the due one, modulo 2^32, or farther, is before it.
const HALF: u32 = 0x8000_0000;

/// What a File has of one Observation Domain.
#[derive(Clone, Copy)]
pub(crate) struct DomainReport {
    pub(crate) tally: Tally,
    /// The Sequence Number that is due next.
    pub(crate) due: u32,
}

/// The Sequence Number that is due after a message.
fn due_after(header: &Header, counts: RecordCounts) -> u32
    ensures { result ≡ due_after header.now counts }
{
    header
        .sequence
        .wrapping_add(counts.records)
        .wrapping_add(counts.options)
}

/// A count, and so many more where the test holds.
fn counted(test: bool, count: u64, more: u64) -> u64
    ensures { result ≡ (if test then plus count more else count) }
{
    if test {
        count.saturating_add(more)
    } else {
        count
    }
}

/// What is counted of a domain with its first message.
pub(crate) fn begun(walked: &Walked, counts: RecordCounts) -> DomainReport
    ensures { result ≡ begun walked.now counts }
{
    DomainReport {
        tally: Tally {
            messages: 1,
            records: u64::from(counts.records),
            options: u64::from(counts.options),
            unread: walked.unread.sets as u64,
            unread_octets: walked.unread.octets as u64,
            replaced: walked.replaced as u64,
            gaps: 0,
            missing: 0,
            backwards: 0,
            first: walked.header.time,
            last: walked.header.time,
            starts: counts.starts,
            lasted: counts.lasted,
            placed: u64::from(counts.placed),
            uncounted: u64::from(counts.uncounted),
            sampled: u64::from(counts.sampled),
        },
        due: due_after(&walked.header, counts),
    }
}

/// What is counted with one message more, whose Sequence Number is so far past the due one.
fn tally_after(tally: Tally, distance: u32, walked: &Walked, counts: RecordCounts) -> Tally
    ensures { result ≡ tally_after tally distance walked.now counts }
{
    let is_past = 0 < distance && distance < HALF;
    let is_before = HALF <= distance;
    Tally {
        messages: tally.messages.saturating_add(1),
        records: tally.records.saturating_add(u64::from(counts.records)),
        options: tally.options.saturating_add(u64::from(counts.options)),
        unread: tally.unread.saturating_add(walked.unread.sets as u64),
        unread_octets: tally
            .unread_octets
            .saturating_add(walked.unread.octets as u64),
        replaced: tally.replaced.saturating_add(walked.replaced as u64),
        gaps: counted(is_past, tally.gaps, 1),
        missing: counted(is_past, tally.missing, u64::from(distance)),
        backwards: counted(is_before, tally.backwards, 1),
        first: tally.first.min(walked.header.time),
        last: tally.last.max(walked.header.time),
        starts: hull(tally.starts, counts.starts),
        lasted: both_lasted(tally.lasted, counts.lasted),
        placed: tally.placed.saturating_add(u64::from(counts.placed)),
        uncounted: tally.uncounted.saturating_add(u64::from(counts.uncounted)),
        sampled: tally.sampled.saturating_add(u64::from(counts.sampled)),
    }
}

/// What is counted of a domain with one message more.
pub(crate) fn continued(report: DomainReport, walked: &Walked, counts: RecordCounts) -> DomainReport
    ensures { result ≡ continued report walked.now counts }
{
    let distance = walked.header.sequence.wrapping_sub(report.due);
    DomainReport {
        tally: tally_after(report.tally, distance, walked, counts),
        due: due_after(&walked.header, counts),
    }
}

/// Puts a name and a number after a text.
fn push_named(text: &mut Vec<u8>, name: &str, number: u64) -> Result<(), AllocError>
    ensures { OnOk result (text.new.items ≡ text.old.items ++ name.now ++ 32 ∷ decimal number) }
{
    text.extend_from_slice(name.as_bytes())?;
    push_count(text, number)?;
    Ok(())
}

/// Puts a name and a time after a text.
fn push_named_time(
    text: &mut Vec<u8>,
    name: &str,
    times: Times,
    second: u32,
) -> Result<(), AllocError>
    ensures { OnOk result (text.new.items ≡ text.old.items ++ name.now ++ 32 ∷ second_text times second) }
{
    text.extend_from_slice(name.as_bytes())?;
    push_time(text, times, second)?;
    Ok(())
}

/// Puts after a text how many messages and data records there are, how many data Sets without a definition in force,
/// with their octets, and how many definitions were replaced.
#[tactic(auto, unfolding(crate::specs::Reports::counts_text))]
fn push_counts(text: &mut Vec<u8>, tally: &Tally) -> Result<(), AllocError>
    ensures { OnOk result (text.new.items ≡ text.old.items ++ counts_text tally.now) }
{
    push_named(text, " messages", tally.messages)?;
    push_named(text, " records", tally.records)?;
    push_named(text, " options", tally.options)?;
    push_named(text, " unread", tally.unread)?;
    push_count(text, tally.unread_octets)?;
    push_named(text, " replaced", tally.replaced)?;
    Ok(())
}

/// Puts after a text how the Sequence Numbers follow.
#[tactic(auto, unfolding(crate::specs::Reports::sequence_text))]
fn push_sequence(text: &mut Vec<u8>, tally: &Tally) -> Result<(), AllocError>
    ensures { OnOk result (text.new.items ≡ text.old.items ++ sequence_text tally.now) }
{
    push_named(text, " gaps", tally.gaps)?;
    push_named(text, " missing", tally.missing)?;
    push_named(text, " backwards", tally.backwards)?;
    Ok(())
}

/// Puts after a text when the flows start: ` starts FIRST LAST`, or ` starts - -` where there is none.
#[tactic(auto, unfolding(crate::specs::Reports::starts_text))]
fn push_starts(text: &mut Vec<u8>, times: Times, starts: Option<Span>) -> Result<(), AllocError>
    ensures { OnOk result (text.new.items ≡ text.old.items ++ starts_text times starts) }
{
    match starts {
        Some(span) => {
            push_named_time(text, " starts", times, span.first)?;
            push_time(text, times, span.last)?;
        }
        None => text.extend_from_slice(" starts - -".as_bytes())?,
    }
    Ok(())
}

/// Puts after a text how long the flows last: ` longest SECONDS long N`, or ` longest - long 0` where none has an end.
#[tactic(auto, unfolding(crate::specs::Reports::lasted_text))]
fn push_lasted(text: &mut Vec<u8>, lasted: Lasted) -> Result<(), AllocError>
    ensures { OnOk result (text.new.items ≡ text.old.items ++ lasted_text lasted) }
{
    match lasted.longest {
        Some(seconds) => push_named(text, " longest", seconds)?,
        None => text.extend_from_slice(" longest -".as_bytes())?,
    }
    push_named(text, " long", lasted.long)
}

/// Puts after a text how many flows may have other sums than their exporter means.
#[tactic(auto, unfolding(crate::specs::Reports::caveats_text))]
fn push_caveats(text: &mut Vec<u8>, tally: &Tally) -> Result<(), AllocError>
    ensures { OnOk result (text.new.items ≡ text.old.items ++ caveats_text tally.now) }
{
    push_named(text, " placed", tally.placed)?;
    push_named(text, " uncounted", tally.uncounted)?;
    push_named(text, " sampled", tally.sampled)?;
    Ok(())
}

/// Puts after a text what was counted, and ends the line: ` messages N records N options N unread SETS OCTETS
/// replaced N gaps N missing N backwards N from TIME to TIME starts FIRST LAST longest SECONDS long N placed N
/// uncounted N sampled N`.
#[tactic(auto, unfolding(crate::specs::Reports::tally_text))]
pub(crate) fn push_tally(text: &mut Vec<u8>, times: Times, tally: &Tally) -> Result<(), AllocError>
    ensures { OnOk result (text.new.items ≡ text.old.items ++ tally_text times tally.now) }
{
    push_counts(text, tally)?;
    push_sequence(text, tally)?;
    push_named_time(text, " from", times, tally.first)?;
    push_named_time(text, " to", times, tally.last)?;
    push_starts(text, times, tally.starts)?;
    push_lasted(text, tally.lasted)?;
    push_caveats(text, tally)?;
    text.push(b'\n')?;
    Ok(())
}

/// Puts the line of a domain after a text: `domain DOMAIN`, and what was counted of it.
#[tactic(auto, unfolding(crate::specs::Reports::report_line))]
fn push_report(
    text: &mut Vec<u8>,
    times: Times,
    domain: u32,
    report: &DomainReport,
) -> Result<(), AllocError>
    ensures { OnOk result (text.new.items ≡ text.old.items ++ report_line times (domain, report.now)) }
{
    push_named(text, "domain", u64::from(domain))?;
    push_tally(text, times, &report.tally)?;
    Ok(())
}

/// What is written for the starts of the flows where there is none, and a separator.
fn without_starts(format: Format) -> &'static str
    ensures { result.now ≡ value_in format (codes "first", Nothing) ++ separator format.layout
        ∷ value_in format (codes "last", Nothing) ++ separator format.layout ∷ [] }
{
    match format.layout {
        Layout::Lines => "- - ",
        Layout::Csv => ",,",
        Layout::Json => "\"first\":null,\"last\":null,",
    }
}

/// What is written for the longest flow where there is none, and a separator.
fn without_longest(format: Format) -> &'static str
    ensures { result.now ≡ value_in format (codes "longest", Nothing) ++ separator format.layout ∷ [] }
{
    match format.layout {
        Layout::Lines => "- ",
        Layout::Csv => ",",
        Layout::Json => "\"longest\":null,",
    }
}

/// The most octets of nineteen values, which a line of a domain has.
const MOST_REPORT: usize = 19 * MOST_VALUE;

/// Puts after a text the starts of the flows, and a separator.
fn push_start_values(
    text: &mut Vec<u8>,
    format: Format,
    starts: Option<Span>,
) -> Result<(), AllocError>
    ensures { OnOk result (text.new.items
        ≡ text.old.items ++ value_in format (codes "first", time_or_none (option_map (λ span. span.first) starts))
        ++ separator format.layout
        ∷ value_in format (codes "last", time_or_none (option_map (λ span. span.last) starts))
        ++ separator format.layout ∷ []) }
{
    match starts {
        Some(span) => {
            text.reserve(2 * MOST_VALUE)?;
            put_time(text, format, "first", span.first);
            put_time(text, format, "last", span.last);
        }
        None => text.extend_from_slice(without_starts(format).as_bytes())?,
    }
    Ok(())
}

/// Puts after a text how long the flows last, and a separator.
fn push_lasting_values(text: &mut Vec<u8>, format: Format, lasted: Lasted) -> Result<(), AllocError>
    ensures { OnOk result (text.new.items
        ≡ text.old.items ++ value_in format (codes "longest", number_or_none lasted.longest)
        ++ separator format.layout ∷ value_in format (codes "long", Number lasted.long)
        ++ separator format.layout ∷ []) }
{
    match lasted.longest {
        Some(seconds) => {
            text.reserve(MOST_VALUE)?;
            put_value(text, format, "longest", seconds);
        }
        None => text.extend_from_slice(without_longest(format).as_bytes())?,
    }
    text.reserve(MOST_VALUE)?;
    put_value(text, format, "long", lasted.long);
    Ok(())
}

/// Puts after a text how many flows may have other sums than their exporter means, the last three values of a line, and
/// what the line ends with.
fn push_caveat_values(text: &mut Vec<u8>, format: Format, tally: &Tally) -> Result<(), AllocError>
    ensures { OnOk result (text.new.items
        ≡ text.old.items ++ value_in format (codes "placed", Number tally.now.placed)
        ++ separator format.layout ∷ value_in format (codes "uncounted", Number tally.now.uncounted)
        ++ separator format.layout ∷ value_in format (codes "sampled", Number tally.now.sampled)
        ++ closing format.layout) }
{
    text.reserve(3 * MOST_VALUE)?;
    put_value(text, format, "placed", tally.placed);
    put_value(text, format, "uncounted", tally.uncounted);
    put_last(text, format, "sampled", tally.sampled);
    Ok(())
}

/// Puts after a text what a line of values begins with: its opening, and the File's number, where it has one.
fn push_beginning(text: &mut Vec<u8>, format: Format, file: Option<u64>) -> Result<(), AllocError>
    ensures { OnOk result (text.new.items ≡ text.old.items ++ beginning_of format file) }
{
    text.reserve(MOST_VALUE + 1)?;
    put_opening(text, format);
    if let Some(number) = file {
        put_value(text, format, "file", number);
    }
    Ok(())
}

/// Puts the values of a domain after a text, a line in a format; the File's number first, where it has one.
fn push_values(
    text: &mut Vec<u8>,
    format: Format,
    file: Option<u64>,
    domain: u32,
    report: &DomainReport,
) -> Result<(), AllocError>
    ensures { OnOk result (text.new.items
        ≡ text.old.items ++ line_in format (file_values file ++ report_values (domain, report.now))) }
{
    let tally = report.tally;
    push_beginning(text, format, file)?;
    text.reserve(MOST_REPORT)?;
    put_value(text, format, "domain", domain);
    put_value(text, format, "messages", tally.messages);
    put_value(text, format, "records", tally.records);
    put_value(text, format, "options", tally.options);
    put_value(text, format, "unread_sets", tally.unread);
    put_value(text, format, "unread_octets", tally.unread_octets);
    put_value(text, format, "replaced", tally.replaced);
    put_value(text, format, "gaps", tally.gaps);
    put_value(text, format, "missing", tally.missing);
    put_value(text, format, "backwards", tally.backwards);
    put_time(text, format, "from", tally.first);
    put_time(text, format, "to", tally.last);
    push_start_values(text, format, tally.starts)?;
    push_lasting_values(text, format, tally.lasted)?;
    push_caveat_values(text, format, &tally)?;
    Ok(())
}

/// Puts after a text what a line in words begins with where the File has a number: `file N `.
pub(crate) fn push_file(text: &mut Vec<u8>, file: Option<u64>) -> Result<(), AllocError>
    ensures { OnOk result (text.new.items ≡ text.old.items ++ file_words file) }
{
    if let Some(number) = file {
        push_named(text, "file", number)?;
        text.push(b' ')?;
    }
    Ok(())
}

/// Puts the line of a domain after a text, in words.
fn push_words(
    text: &mut Vec<u8>,
    times: Times,
    file: Option<u64>,
    domain: u32,
    report: &DomainReport,
) -> Result<(), AllocError>
    ensures { OnOk result (text.new.items
        ≡ text.old.items ++ (file_words file ++ report_line times (domain, report.now))) }
{
    push_file(text, file)?;
    push_report(text, times, domain, report)
}

/// Puts the line of a domain after a text, in a format.
#[tactic(auto, unfolding(crate::specs::Reports::report_in))]
pub(crate) fn push_in(
    text: &mut Vec<u8>,
    format: Format,
    file: Option<u64>,
    domain: u32,
    report: &DomainReport,
) -> Result<(), AllocError>
    ensures { OnOk result (text.new.items ≡ text.old.items ++ report_in format file (domain, report.now)) }
{
    match format.layout {
        Layout::Lines => push_words(text, format.times, file, domain, report),
        Layout::Csv => push_values(text, format, file, domain, report),
        Layout::Json => push_values(text, format, file, domain, report),
    }
}

/// The names of the values of a domain, in CSV.
const NAMES: &str =
    "domain,messages,records,options,unread_sets,unread_octets,replaced,gaps,missing,backwards,from,to,\
     first,last,longest,long,placed,uncounted,sampled\n";

/// Puts the name of a File's number and those of the values of a domain after a text, in CSV.
fn push_numbered_names(text: &mut Vec<u8>) -> Result<(), AllocError>
    ensures { OnOk result (text.new.items ≡ text.old.items ++ heading Layout.Csv (codes "file" ∷ report_names)) }
{
    text.extend_from_slice("file,".as_bytes())?;
    text.extend_from_slice(NAMES.as_bytes())?;
    Ok(())
}

/// Puts the names of values after a text, in CSV; where the File has a number, that of the first one alone.
fn push_names(text: &mut Vec<u8>, file: Option<u64>) -> Result<(), AllocError>
    ensures { OnOk result (text.new.items ≡ text.old.items ++ heading_of Layout.Csv file) }
{
    match file {
        None => text.extend_from_slice(NAMES.as_bytes())?,
        Some(number) => {
            if number == 1 {
                push_numbered_names(text)?;
            }
        }
    }
    Ok(())
}

/// Puts after a text what is before all lines: in CSV the names of the values.
pub(crate) fn push_heading(
    text: &mut Vec<u8>,
    format: Format,
    file: Option<u64>,
) -> Result<(), AllocError>
    ensures { OnOk result (text.new.items ≡ text.old.items ++ heading_of format.layout file) }
{
    if let Layout::Csv = format.layout {
        push_names(text, file)?;
    }
    Ok(())
}
