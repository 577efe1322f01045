//! The words of `export` and `templates`.

ghost use Rattle.std.specs.Prelude.{◌≡◌, false, codes, IfOk};
ghost use Rattle.clap.specs.Matches.{found_of};
ghost use Rattle.clap.specs.Simple.{app_of, shape_of};
ghost use Rattle.clap.specs.Walk.{rows_of};
ghost use Rattle.clap.specs.declared.builder.command.Command.TheViews.{out-Command as fields_of};
ghost use Rattle.flow_program.specs.Arguments.{exported_in, exporting, first_in, is_by_numbers, is_not_before, last_in};
ghost use Rattle.flow_program.specs.Arguments.{lasting, messages_in, ordered, time_in};
ghost use Rattle.flow_program.specs.CommandLine.{export_shape, numbered_shape, templates_shape, with_exports};

use crate::arguments::{MomentSpan, folder_in, is_by_moments, is_given, worded_span_in};
use crate::grammar::{folder_argument, option, titled, with_queries, with_three};
use crate::request::Request;
use clap::{ArgMatches, Command};
use flow_export::MessageSpan;
use flow_manifest::MOST_MESSAGES;
use flow_moments::Moment;
use flow_report::number_between;
use std::alloc::{AllocError, Global};

/// What `export` does, in a line or two.
const EXPORT_ABOUT: &str = "Writes messages of the archive of a folder, as an IPFIX File";

/// What help has below the arguments of `export`.
const EXPORT_HELP: &str =
    "Messages have numbers, which count all that were taken in, from 1 on: those from\n\
     --from on, up to --to, are written as they were taken in, octet for octet, after\n\
     messages that restate the templates in force before the first of them. So any\n\
     reader of IPFIX Files takes them, and so does feed of another archive. Where\n\
     --from isn't given they begin after the last message that is rolled; where no\n\
     message is left the templates are written alone. Messages that are in sums alone\n\
     are refused: 52 Rolled CUT, status 1. A damaged archive is reported as of check:\n\
     status 5; what was written before is a prefix.\n\
     \n\
     With --since or --until, in place of numbers, they are those of which some flow\n\
     starts in the span, and, between the first and the last of these, those that\n\
     define or withdraw templates. Messages are whole: flows of other times may be\n\
     among them, and all that start in the span are. Where an interval of sums of\n\
     rolled messages meets the span it is refused likewise, since they may have more.\n\
     \n\
     Examples: flowvault export flows --from 1000 --to 1999 > part.ipfix\n\
     \x20         flowvault export flows --since 2026-11-25 > since.ipfix";

/// What `--since` asks for.
const EXPORT_SINCE: &str = "In place of numbers, flows from it on: a day, 1d, 6h, now";

/// What `--until` asks for.
const EXPORT_UNTIL: &str = "In place of numbers, flows before it, likewise [no end]";

/// What `templates` does, in a line or two.
const TEMPLATES_ABOUT: &str =
    "Writes the templates in force in the archive of a folder, as an\nIPFIX File";

/// What help has below the arguments of `templates`.
const TEMPLATES_HELP: &str =
    "A message for each Observation Domain that has templates restates them as they\n\
     are after the last message: what a new archive needs, so that no record is left\n\
     unread until the exporter sends them again. They are those that export writes\n\
     of messages that are still to come.\n\
     \n\
     Example: flowvault templates monday | flowvault feed tuesday -";

/// The command `export` with the arguments that ask by numbers, and its help.
fn numbered_command<'a>(alloc: Global) -> Result<Command<'a>, AllocError>
    ensures shape { IfOk result (λ command. shape_of command ≡ numbered_shape) }
    ensures own { IfOk result (λ command. (fields_of command).has_globals ≡ false) }
{
    with_three(
        titled(alloc, "export", EXPORT_ABOUT, EXPORT_HELP),
        folder_argument(alloc),
        option(
            alloc,
            "N",
            "from",
            "Number of the first message [the first that isn't rolled]",
        ),
        option(
            alloc,
            "M",
            "to",
            "Number of the last message [the last of all]",
        ),
    )
}

/// The command `export`, with its help.
fn export_command<'a>(alloc: Global) -> Result<Command<'a>, AllocError>
    ensures shape { IfOk result (λ command. shape_of command ≡ export_shape) }
    ensures own { IfOk result (λ command. (fields_of command).has_globals ≡ false) }
{
    numbered_command(alloc)?
        .arg(option(alloc, "SINCE", "since", EXPORT_SINCE))?
        .arg(option(alloc, "UNTIL", "until", EXPORT_UNTIL))
}

/// The command `templates`, with its help.
fn templates_command<'a>(alloc: Global) -> Result<Command<'a>, AllocError>
    ensures shape { IfOk result (λ command. shape_of command ≡ templates_shape) }
    ensures own { IfOk result (λ command. (fields_of command).has_globals ≡ false) }
{
    titled(alloc, "templates", TEMPLATES_ABOUT, TEMPLATES_HELP).arg(folder_argument(alloc))
}

/// The program with the commands that ask an archive, and those that export it.
pub(crate) fn with_exports<'a>(alloc: Global, version: &'a str) -> Result<Command<'a>, AllocError>
    ensures { IfOk result (λ command. app_of command ≡ with_exports) }
{
    with_queries(alloc, version)?
        .subcommand(export_command(alloc)?)?
        .subcommand(templates_command(alloc)?)
}

/// The number of the first message, among the arguments of `export`, where one is given.
#[tactic(auto, using(crate::proofs::Reading::first_value_is))]
fn first_in(arguments: &ArgMatches<'_>) -> Option<Option<u64>>
    ensures { result ≡ first_in (rows_of (found_of arguments.now)) }
{
    let Some(word) = arguments.get_str("N") else {
        return Some(None);
    };
    let first = number_between(1, MOST_MESSAGES, word.as_bytes())?;
    Some(Some(first))
}

/// That of the last one, or else the greatest that there is.
#[tactic(auto, using(crate::proofs::Reading::first_value_is))]
fn last_in(arguments: &ArgMatches<'_>) -> Option<u64>
    ensures { result ≡ last_in (rows_of (found_of arguments.now)) }
{
    let Some(word) = arguments.get_str("M") else {
        return Some(MOST_MESSAGES);
    };
    number_between(0, MOST_MESSAGES, word.as_bytes())
}

/// Messages of which the last isn't before the one that comes before the first.
fn ordered(span: MessageSpan) -> Option<MessageSpan>
    ensures { result ≡ ordered span }
{
    match span.from {
        Some(from) if span.to < from.saturating_sub(1) => None,
        _ => Some(span),
    }
}

/// The messages among the arguments of `export`.
fn messages_in(arguments: &ArgMatches<'_>) -> Option<MessageSpan>
    ensures { result ≡ messages_in (rows_of (found_of arguments.now)) }
{
    let from = first_in(arguments)?;
    let to = last_in(arguments)?;
    ordered(MessageSpan { from, to })
}

/// Whether messages are asked for by their numbers, among the arguments of `export`.
fn is_by_numbers(arguments: &ArgMatches<'_>) -> bool
    ensures { result ≡ is_by_numbers (rows_of (found_of arguments.now)) }
{
    is_given(arguments, "N") || is_given(arguments, "M")
}

/// Whether the first of two moments isn't before the second, whatever second it is now.
fn is_not_before(from: Moment, to: Moment) -> bool
    ensures { result ≡ is_not_before from to }
{
    match (from, to) {
        (Moment::Second(from), Moment::Second(to)) => to <= from,
        (Moment::Ago(from), Moment::Ago(to)) => from <= to,
        (Moment::Second(_), Moment::Ago(_)) => false,
        (Moment::Ago(_), Moment::Second(_)) => false,
    }
}

/// A span that begins before it ends.
fn lasting(span: MomentSpan) -> Option<MomentSpan>
    ensures { result ≡ lasting span }
{
    if is_not_before(span.from, span.to) {
        return None;
    }
    Some(span)
}

/// The span of time among the arguments of `export`, beside which no number is.
fn time_in(arguments: &ArgMatches<'_>) -> Option<MomentSpan>
    ensures { result ≡ time_in (rows_of (found_of arguments.now)) }
{
    if is_by_numbers(arguments) {
        return None;
    }
    lasting(worded_span_in(arguments)?)
}

/// What `export` asks for: messages by their numbers, or those of a span of time.
fn exported_in<'a>(arguments: &ArgMatches<'a>) -> Option<Request<'a>>
    ensures { result ≡ exported_in (rows_of (found_of arguments.now)) }
{
    let folder = folder_in(arguments)?;
    if is_by_moments(arguments) {
        let span = time_in(arguments)?;
        return Some(Request::ExportByTime { folder, span });
    }
    let span = messages_in(arguments)?;
    Some(Request::Export { folder, span })
}

/// What a command that exports an archive asks for, by its name and its arguments.
pub(crate) fn exporting<'a>(name: &str, arguments: &ArgMatches<'a>) -> Option<Request<'a>>
    ensures { result ≡ exporting name.now (rows_of (found_of arguments.now)) }
{
    match name {
        "export" => exported_in(arguments),
        "templates" => Some(Request::Templates {
            folder: folder_in(arguments)?,
        }),
        _ => None,
    }
}
