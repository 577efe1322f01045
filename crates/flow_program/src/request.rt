//! What the words of a command line ask for.

ghost use Rattle.std.specs.Prelude.{◌≡◌, ◌≢◌, ◌⊎◌, Some, map, IfOk, IfErr};
ghost use Rattle.clap.specs.Values.{kind_of};
ghost use Rattle.clap.specs.Matches.{found_of};
ghost use Rattle.clap.specs.Walk.{rows_of};
ghost use Rattle.clap.specs.Simple.{subcommand_rows_of};
ghost use Rattle.flow_program.specs.Arguments.{changing, checked, checked_in, create_in, fed_alone, fed_in};
ghost use Rattle.flow_program.specs.Arguments.{inspected_in};
ghost use Rattle.flow_program.specs.Arguments.{listed, listed_in, queried, request_in, requested, totalled};
ghost use Rattle.flow_program.specs.Arguments.{totalled_in, without_list};
ghost use Rattle.flow_program.specs.CommandLine.{asked};
ghost use Rattle.flow_program.specs.Requested.{formatted_values, wrong_others, wrong_records, wrong_values};
ghost use Rattle.flow_program.specs.Requested.{wrong_values_in, wrong_values_of, IsLineError};
ghost use Rattle.clap.specs.declared.error.kind.ErrorKind.TheVariants as ErrorKind;
ghost use Rattle.flow_program.specs.declared.request.LineError.TheVariants as LineError;

use crate::arguments::{
    EndName, FileNames, FolderName, FolderNames, MomentSpan, are_swapped, end_in, explained_in,
    feeding_in, fields_in, files_in, folder_in, folders_of, format_in, given_in, is_set, keep_in,
    kept_in_shell, line_format_in, merge_in, passes, plan_in, span_in, totals_span_in, width_in,
    words_in, workers_in,
};
use crate::explaining::Explanation;
use crate::export_words::exporting;
use crate::grammar::command_line;
use clap::error::ErrorKind;
use clap::{ArgMatches, Error};
use flow_columns::{FieldNames, LineFormat, first_unknown};
use flow_commands::{FeedPlan, NewArchive, Workers};
use flow_export::MessageSpan;
use flow_report::{Format, Width};
use std::alloc::{AllocError, Global};
use std::convert::AsStr;

/// The most archives that are asked at once.
const MOST_FOLDERS: usize = 4_096;

/// A command with its arguments.
#[derive(Drop)]
pub enum Request<'a> {
    /// Totals lines of the File on standard input.
    Measure {
        width: Width,
        format: Format,
        /// Whether records that aren't read are warned of.
        warn: bool,
    },
    /// Message and record lines of the File on standard input.
    Dump,
    /// Lines of the Observation Domains of the File on standard input.
    Inspect {
        format: Format,
    },
    /// The same of each of these Files, with its number.
    InspectFiles {
        format: Format,
        files: FileNames<'a>,
    },
    /// A new archive in a folder.
    Create {
        folder: FolderName<'a>,
        plan: NewArchive,
    },
    /// The line of what the archive of a folder has.
    Check {
        folder: FolderName<'a>,
    },
    /// The same line, and one for each of its files.
    CheckFiles {
        folder: FolderName<'a>,
    },
    /// The same of the archives of folders, each with its number: lines of what they have, or of their files too.
    CheckSeveral {
        folders: FolderNames<'a>,
        files: bool,
    },
    /// Totals lines of the archive of a folder.
    Totals {
        folder: FolderName<'a>,
        span: MomentSpan,
        /// How many workers scan it; as many as there are processors where nothing is said.
        workers: Option<Workers>,
        format: Format,
    },
    /// Totals lines of the archives of folders: of all together, or of each, with its number.
    TotalsOfSeveral {
        folders: FolderNames<'a>,
        span: MomentSpan,
        each: bool,
        format: Format,
    },
    /// Lines of the flows in the archive of a folder that aren't rolled.
    Flows {
        folder: FolderName<'a>,
        span: MomentSpan,
        format: Format,
    },
    /// The same of the archives of folders, each with its number.
    FlowsOfSeveral {
        folders: FolderNames<'a>,
        span: MomentSpan,
        format: Format,
    },
    /// Lines of the data records of these flows.
    Records {
        folder: FolderName<'a>,
        span: MomentSpan,
        format: LineFormat<'a>,
    },
    /// Files are taken into the archive of a folder, up to where a file says that feeding is to end, where one is given.
    Feed {
        folder: FolderName<'a>,
        plan: FeedPlan,
        end_on: EndName<'a>,
        files: FileNames<'a>,
    },
    /// Requests about the archive of a folder are answered, and Files taken in meanwhile.
    Shell {
        folder: FolderName<'a>,
        keep: u32,
        merge: Option<u32>,
    },
    /// All sealed segments but the newest become one rolled file.
    Roll {
        folder: FolderName<'a>,
        keep: u32,
    },
    /// All rolled files but the newest become one file of wide intervals.
    Merge {
        folder: FolderName<'a>,
        keep: u32,
    },
    /// Messages of the archive of a folder, after the templates in force before them.
    Export {
        folder: FolderName<'a>,
        span: MessageSpan,
    },
    /// The messages of a span of time, of which some flow starts in it, after the templates in force before them.
    ExportByTime {
        folder: FolderName<'a>,
        span: MomentSpan,
    },
    /// The templates in force in the archive of a folder.
    Templates {
        folder: FolderName<'a>,
    },
    /// What a refusal means.
    Explain {
        refusal: Explanation,
    },
}

/// Why a command line asks for nothing.
#[derive(Drop)]
pub enum LineError<'a> {
    /// The parser of the command line says why, or has the help that was asked for.
    Parser(Error),
    /// The width of `measure` isn't digits alone, from 1 to 86,400.
    Width,
    /// A number of a new archive isn't digits alone, or out of its range.
    Plan,
    /// The span of `records` isn't two numbers, digits alone and at most 2^32, nor by moments in their place.
    Span,
    /// There are more than 4,096 folders.
    Folders,
    /// The same of the span of `flows`, or there is no folder, or there are more than 4,096.
    Flows,
    /// The same of the span of `totals`, or how many workers scan isn't digits alone, from 1 to 64, or is said of several
    /// archives or with `--each`; or there is no folder, or there are more than 4,096.
    Totals,
    /// The span ends before it begins: `--since` is later than `--until`.
    Swapped,
    /// How many files are left isn't digits alone, or is past 2^32 - 1.
    Keep,
    /// There are more than 8 Files, or how many segments or rolled files are left isn't digits alone, or is past 2^32 -
    /// 1; or how many messages are passed isn't digits alone, or is past 2^48 - 1, or is said of several Files or of
    /// datagrams.
    Files,
    /// No refusal has the number.
    Number,
    /// A number of a message isn't digits alone, or out of its range, or the last one is before the one that comes
    /// before the first; or one of the moments in their place is none, or the first isn't before the second, or numbers
    /// are beside them.
    Messages,
    /// Two formats are asked for.
    Formats,
    /// No field has this name, among those that `records` is to write.
    Field(FieldNames<'a>),
    OutOfMemory,
}

/// Why the parser of the command line stopped.
fn line_error<'a>(error: Error) -> LineError<'a>
    ensures memory { kind_of error ≡ ErrorKind.OutOfMemory → result ≡ LineError.OutOfMemory }
    ensures other { kind_of error ≢ ErrorKind.OutOfMemory → result ≡ LineError.Parser error }
    ensures either { (result ≡ LineError.OutOfMemory) ⊎ (result ≡ LineError.Parser error) }
{
    if error.kind() == ErrorKind::OutOfMemory {
        return LineError::OutOfMemory;
    }
    LineError::Parser(error)
}

/// What `create` asks for.
fn create_in<'a>(arguments: &ArgMatches<'a>) -> Option<Request<'a>>
    ensures { result ≡ create_in (rows_of (found_of arguments.now)) }
{
    let folder = folder_in(arguments)?;
    let plan = plan_in(arguments)?;
    Some(Request::Create { folder, plan })
}

/// One archive alone, or 2 to 4,096: with their files, or without.
fn checked<'a>(folders: FolderNames<'a>, files: bool) -> Option<Request<'a>>
    ensures { result ≡ checked folders.entry files }
{
    let count = folders.paths.len();
    if count == 1 {
        let folder = FolderName {
            path: folders.paths[0],
        };
        if files {
            return Some(Request::CheckFiles { folder });
        }
        return Some(Request::Check { folder });
    }
    if count == 0 || MOST_FOLDERS < count {
        return None;
    }
    Some(Request::CheckSeveral { folders, files })
}

/// What `check` asks for.
fn checked_in<'a>(
    alloc: Global,
    arguments: &ArgMatches<'a>,
) -> Result<Option<Request<'a>>, AllocError>
    ensures { IfOk result (λ request. request ≡ checked_in (rows_of (found_of arguments.now))) }
{
    let Some(words) = words_in(arguments) else {
        return Ok(None);
    };
    let paths = Vec::from_slice(alloc, words)?;
    Ok(checked(FolderNames { paths }, is_set(arguments, "files")))
}

/// What a command that changes an archive asks for, by its name and its arguments.
fn changing<'a>(name: &str, arguments: &ArgMatches<'a>) -> Option<Request<'a>>
    ensures { result ≡ changing name.now (rows_of (found_of arguments.now)) }
{
    match name {
        "roll" => Some(Request::Roll {
            folder: folder_in(arguments)?,
            keep: keep_in(arguments)?,
        }),
        "merge" => Some(Request::Merge {
            folder: folder_in(arguments)?,
            keep: keep_in(arguments)?,
        }),
        "shell" => Some(Request::Shell {
            folder: folder_in(arguments)?,
            keep: kept_in_shell(arguments)?,
            merge: merge_in(arguments)?,
        }),
        _ => exporting(name, arguments),
    }
}

/// What a query asks for, by its name and its arguments.
fn queried<'a>(name: &str, arguments: &ArgMatches<'a>) -> Option<Request<'a>>
    ensures { result ≡ queried name.now (rows_of (found_of arguments.now)) }
{
    match name {
        "records" => Some(Request::Records {
            folder: folder_in(arguments)?,
            span: span_in(arguments)?,
            format: line_format_in(arguments)?,
        }),
        "explain" => Some(Request::Explain {
            refusal: explained_in(arguments)?,
        }),
        _ => changing(name, arguments),
    }
}

/// What a command that is given no list asks for, by its name and its arguments.
fn without_list<'a>(name: &str, arguments: &ArgMatches<'a>) -> Option<Request<'a>>
    ensures { result ≡ without_list name.now (rows_of (found_of arguments.now)) }
{
    match name {
        "measure" => Some(Request::Measure {
            format: format_in(arguments)?,
            width: width_in(arguments)?,
            warn: is_set(arguments, "warn"),
        }),
        "dump" => Some(Request::Dump),
        "create" => create_in(arguments),
        _ => queried(name, arguments),
    }
}

/// What `feed` asks for: messages are passed of one File alone, so `--from` goes with no other, and with no datagrams.
fn fed_alone<'a>(
    passes: bool,
    folder: FolderName<'a>,
    plan: FeedPlan,
    end_on: EndName<'a>,
    files: FileNames<'a>,
) -> Option<Request<'a>>
    ensures { result ≡ fed_alone passes folder.entry plan end_on.entry files.entry }
{
    if passes && (plan.datagrams || files.paths.len() > 1) {
        return None;
    }
    Some(Request::Feed {
        folder,
        plan,
        end_on,
        files,
    })
}

/// What `feed` asks for.
fn fed_in<'a>(alloc: Global, arguments: &ArgMatches<'a>) -> Result<Option<Request<'a>>, AllocError>
    ensures { IfOk result (λ request. request ≡ fed_in (rows_of (found_of arguments.now))) }
{
    let files = files_in(alloc, arguments)?;
    match (folder_in(arguments), feeding_in(arguments), files) {
        (Some(folder), Some(plan), Some(files)) => {
            let end_on = end_in(arguments);
            Ok(fed_alone(passes(arguments), folder, plan, end_on, files))
        }
        _ => Ok(None),
    }
}

/// What `inspect` asks for: of standard input, or of the Files that are given.
fn inspected_in<'a>(
    alloc: Global,
    arguments: &ArgMatches<'a>,
) -> Result<Option<Request<'a>>, AllocError>
    ensures { IfOk result (λ request. request ≡ inspected_in (rows_of (found_of arguments.now))) }
{
    match (format_in(arguments), given_in(alloc, arguments)?) {
        (Some(format), Some(files)) => Ok(Some(Request::InspectFiles { format, files })),
        (Some(format), None) => Ok(Some(Request::Inspect { format })),
        _ => Ok(None),
    }
}

/// The totals of one archive alone, by so many workers; or of 1 to 4,096, without a word of workers: of all together, or
/// of each by itself.
fn totalled<'a>(
    folders: FolderNames<'a>,
    span: MomentSpan,
    workers: Option<Workers>,
    each: bool,
    format: Format,
) -> Option<Request<'a>>
    ensures { result ≡ totalled folders.entry span workers each format }
{
    let count = folders.paths.len();
    if count == 1 && !each {
        let folder = FolderName {
            path: folders.paths[0],
        };
        return Some(Request::Totals {
            folder,
            span,
            workers,
            format,
        });
    }
    if count == 0 || workers.is_some() || MOST_FOLDERS < count {
        return None;
    }
    Some(Request::TotalsOfSeveral {
        folders,
        span,
        each,
        format,
    })
}

/// What `totals` asks for.
fn totalled_in<'a>(
    alloc: Global,
    arguments: &ArgMatches<'a>,
) -> Result<Option<Request<'a>>, AllocError>
    ensures { IfOk result (λ request. request ≡ totalled_in (rows_of (found_of arguments.now))) }
{
    let Some(words) = words_in(arguments) else {
        return Ok(None);
    };
    let folders = folders_of(alloc, arguments, words)?;
    let each = is_set(arguments, "each");
    match (
        totals_span_in(arguments, words),
        workers_in(arguments),
        format_in(arguments),
    ) {
        (Some(span), Some(workers), Some(format)) => {
            Ok(totalled(folders, span, workers, each, format))
        }
        _ => Ok(None),
    }
}

/// The flows of one archive alone, or of 2 to 4,096.
fn listed<'a>(folders: FolderNames<'a>, span: MomentSpan, format: Format) -> Option<Request<'a>>
    ensures { result ≡ listed folders.entry span format }
{
    let count = folders.paths.len();
    if count == 1 {
        let folder = FolderName {
            path: folders.paths[0],
        };
        return Some(Request::Flows {
            folder,
            span,
            format,
        });
    }
    if count == 0 || MOST_FOLDERS < count {
        return None;
    }
    Some(Request::FlowsOfSeveral {
        folders,
        span,
        format,
    })
}

/// What `flows` asks for.
fn listed_in<'a>(
    alloc: Global,
    arguments: &ArgMatches<'a>,
) -> Result<Option<Request<'a>>, AllocError>
    ensures { IfOk result (λ request. request ≡ listed_in (rows_of (found_of arguments.now))) }
{
    let Some(words) = words_in(arguments) else {
        return Ok(None);
    };
    let folders = folders_of(alloc, arguments, words)?;
    match (totals_span_in(arguments, words), format_in(arguments)) {
        (Some(span), Some(format)) => Ok(listed(folders, span, format)),
        _ => Ok(None),
    }
}

/// What a command asks for, by its name and its arguments.
fn requested<'a>(
    alloc: Global,
    name: &str,
    arguments: &ArgMatches<'a>,
) -> Result<Option<Request<'a>>, AllocError>
    ensures { IfOk result (λ request. request ≡ requested name.now (rows_of (found_of arguments.now))) }
{
    match name {
        "feed" => fed_in(alloc, arguments),
        "inspect" => inspected_in(alloc, arguments),
        "totals" => totalled_in(alloc, arguments),
        "flows" => listed_in(alloc, arguments),
        "check" => checked_in(alloc, arguments),
        _ => Ok(without_list(name, arguments)),
    }
}

/// What a command line asks for that its parser took.
fn found<'a>(alloc: Global, matches: &ArgMatches<'a>) -> Result<Option<Request<'a>>, AllocError>
    ensures { IfOk result (λ request. request ≡ request_in (subcommand_rows_of matches.now)) }
{
    match matches.subcommand() {
        Some((name, arguments)) => requested(alloc, name, arguments),
        None => Ok(None),
    }
}

/// What is wrong with the values of the command of this name.
fn wrong_values_of<'a>(name: &str) -> LineError<'a>
    ensures { result ≡ wrong_values_of name.now }
{
    match name {
        "create" => LineError::Plan,
        "check" => LineError::Folders,
        "totals" => LineError::Totals,
        "flows" => LineError::Flows,
        "records" => LineError::Span,
        "feed" => LineError::Files,
        "roll" => LineError::Keep,
        "merge" => LineError::Keep,
        "shell" => LineError::Keep,
        "explain" => LineError::Number,
        "export" => LineError::Messages,
        _ => LineError::Width,
    }
}

/// What is wrong with the values of a command that have one format, by its name and its arguments.
fn formatted_values<'a>(name: &str, arguments: &ArgMatches<'a>) -> LineError<'a>
    ensures { result ≡ formatted_values name.now (rows_of (found_of arguments.now)) }
{
    if are_swapped(arguments) {
        return LineError::Swapped;
    }
    wrong_values_of(name)
}

/// What is wrong with the values of `records`.
fn wrong_records<'a>(arguments: &ArgMatches<'a>) -> LineError<'a>
    ensures { result ≡ wrong_records (rows_of (found_of arguments.now)) }
{
    let Some(names) = fields_in(arguments) else {
        return formatted_values("records", arguments);
    };
    if is_set(arguments, "json") {
        return LineError::Formats;
    }
    match first_unknown(names) {
        Some(name) => LineError::Field(FieldNames::new(name)),
        None => formatted_values("records", arguments),
    }
}

/// What is wrong with the values of any other command, by its name and its arguments.
fn wrong_others<'a>(name: &str, arguments: &ArgMatches<'a>) -> LineError<'a>
    ensures { result ≡ wrong_others name.now (rows_of (found_of arguments.now)) }
{
    match format_in(arguments) {
        Some(_) => formatted_values(name, arguments),
        None => LineError::Formats,
    }
}

/// What is wrong with the values of a command, by its name and its arguments.
fn wrong_values_in<'a>(name: &str, arguments: &ArgMatches<'a>) -> LineError<'a>
    ensures { result ≡ wrong_values_in name.now (rows_of (found_of arguments.now)) }
{
    match name {
        "records" => wrong_records(arguments),
        _ => wrong_others(name, arguments),
    }
}

/// What is wrong with the values that a command line has.
fn wrong_values<'a>(matches: &ArgMatches<'a>) -> LineError<'a>
    ensures { result ≡ wrong_values (subcommand_rows_of matches.now) }
{
    match matches.subcommand() {
        Some((name, arguments)) => wrong_values_in(name, arguments),
        None => LineError::Width,
    }
}

/// Reads the words, of which the first is the program's name. `version` is what `--version` shows.
pub fn parse<'a, S: AsStr>(
    alloc: Global,
    version: &'a str,
    words: &'a [S],
) -> Result<Request<'a>, LineError<'a>>
    ensures found { IfOk result (λ request. asked (map S.text words.now) ≡ Some request) }
    ensures refused { IfErr result (λ e. IsLineError (map S.text words.now) e) }
{
    let Ok(command) = command_line(alloc, version) else {
        return Err(LineError::OutOfMemory);
    };
    match command.try_get_matches_from(words) {
        Ok(matches) => match found(alloc, &matches) {
            Ok(request) => request.ok_or(wrong_values(&matches)),
            Err(AllocError) => Err(LineError::OutOfMemory),
        },
        Err(error) => Err(line_error(error)),
    }
}
