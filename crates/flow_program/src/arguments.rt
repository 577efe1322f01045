//! What the values of a command's arguments are.

ghost use Rattle.std.specs.Prelude.{◌≡◌, ◌≤◌, IfOk, IfSome, codes, map, option_map};
ghost use Rattle.std.specs.List.{list_any};
ghost use Rattle.std.specs.Str.{bytes_eq};
ghost use Rattle.clap.specs.Matches.{found_of};
ghost use Rattle.clap.specs.Walk.{all_of, rows_of};
ghost use Rattle.flow_program.specs.Arguments.{explained_in, few_of, folder_in, limit_in, plan_in, second_in, span_in};
ghost use Rattle.flow_program.specs.Arguments.{end_in, wide_in};
ghost use Rattle.flow_program.specs.Arguments.{feeding_in, files_in, format_in, given_in, is_given, is_set, keep_in};
ghost use Rattle.flow_program.specs.Arguments.{are_swapped, fields_in, forward, is_later, kept_or, merge_in};
ghost use Rattle.flow_program.specs.Arguments.{layout_in, line_format_in, record_format_in, times_in};
ghost use Rattle.flow_program.specs.Arguments.{moment_in, numbered_span_in, passed_in, worded_span_in};
ghost use Rattle.flow_program.specs.Arguments.{folders_of, is_by_moments, last_span_of, span_of, totals_span_in};
ghost use Rattle.flow_program.specs.Arguments.{width_in, workers_in};
ghost use Rattle.flow_commands.specs.Plans.{IsWide};
ghost use Rattle.flow_manifest.specs.Limits.{greatest_limit, least_limit};

use crate::explaining::Explanation;
use clap::ArgMatches;
use flow_columns::{FieldNames, LineFormat, first_unknown};
use flow_commands::{FeedPlan, NewArchive, StartSpan, Workers};
use flow_manifest::{GREATEST_LIMIT, GREATEST_WIDTH, LEAST_LIMIT, MOST_MESSAGES};
use flow_moments::{Moment, moment_of};
use flow_report::{Format, Layout, RecordFormat, RecordLayout, Times, Width, number_between};
use std::alloc::{AllocError, Global};
use std::marker::Model;

/// The octets of messages that a segment takes where nothing else is asked for.
const USUAL_LIMIT: u32 = 1_048_576;

/// The greatest second of a span: every flow starts before it.
const MOST_SECOND: u64 = 4_294_967_296;

/// The seconds at which a span begins and ends where nothing else is asked for.
const FIRST: Moment = Moment::Second(0);

const LAST: Moment = Moment::Second(MOST_SECOND);

/// The most files that may be left.
const MOST_KEEP: u64 = 4_294_967_295;

/// How many of the newest segments `feed` leaves where nothing else is asked for.
const USUAL_KEEP: u32 = 8;

/// As many as `shell` leaves then: all of them.
const ALL_KEPT: u32 = 4_294_967_295;

/// The most Files that are fed in one run.
const MOST_FILES: usize = 8;

/// The most workers that scan.
const MOST_WORKERS: u64 = 64;

/// No refusal has a number above it.
const MOST_NUMBER: u64 = 99;

/// A path of a folder.
#[derive(Drop)]
pub struct FolderName<'a> {
    pub(crate) path: &'a str,
}

impl<'a> Model for FolderName<'a> {
    ghost use Rattle.std.specs.Prelude.{ℕ, List};

    ghost Value = { List ℕ };

    ghost view = { λ f. f.path.now };
}

/// Paths of folders.
#[derive(Drop)]
pub struct FolderNames<'a> {
    pub(crate) paths: Vec<&'a str>,
}

impl<'a> Model for FolderNames<'a> {
    ghost use Rattle.std.specs.Prelude.{ℕ, List, map};

    ghost Value = { List (List ℕ) };

    ghost view = { λ f. map (λ s. s.now) f.paths.items };
}

/// Paths of Files.
#[derive(Drop)]
pub struct FileNames<'a> {
    pub(crate) paths: Vec<&'a str>,
}

impl<'a> Model for FileNames<'a> {
    ghost use Rattle.std.specs.Prelude.{ℕ, List, map};

    ghost Value = { List (List ℕ) };

    ghost view = { λ f. map (λ s. s.now) f.paths.items };
}

/// The path of the file that ends a feed, where one is given.
#[derive(Drop)]
pub struct EndName<'a> {
    pub(crate) path: Option<&'a str>,
}

impl<'a> Model for EndName<'a> {
    ghost use Rattle.std.specs.Prelude.{ℕ, List, Option, option_map};

    ghost Value = { Option (List ℕ) };

    ghost view = { λ e. option_map (λ s. s.now) e.path };
}

impl FileNames<'_> {
    ghost use Rattle.flow_program.specs.Arguments.{has_input};

    /// Whether standard input is one of them.
    pub(crate) fn has_input(&self) -> bool
        ensures { result ≡ has_input self.now }
    {
        are_with_input(self.paths.as_slice())
    }
}

/// Flows that start from one moment on and before another.
#[derive(Clone, Copy, Debug)]
pub struct MomentSpan {
    pub(crate) from: Moment,
    pub(crate) to: Moment,
}

impl MomentSpan {
    ghost use Rattle.flow_program.specs.Arguments.{depends_on_now, span_at};

    /// Whether its seconds depend on what second it is now.
    pub(crate) fn is_relative(self) -> bool
        ensures { result ≡ depends_on_now self }
    {
        self.from.is_relative() || self.to.is_relative()
    }

    /// The same as seconds, where it is now the second `now` since 1970-01-01 00:00 UTC.
    pub(crate) fn at(self, now: u64) -> StartSpan
        ensures { result ≡ span_at now self }
    {
        StartSpan::new(self.from.second_at(now), self.to.second_at(now))
    }
}

/// Whether a path is that of standard input.
pub(crate) fn is_input(path: &str) -> bool
    ensures { result ≡ bytes_eq path.now (codes "-") }
{
    path == "-"
}

/// Whether one of some paths is that of standard input.
fn are_with_input(paths: &[&str]) -> bool
    ensures { result ≡ list_any (λ path. bytes_eq path.now (codes "-")) paths.now }
{
    paths.iter().any(|path| is_input(path))
}

/// The width among the arguments of `measure` or `create`.
#[tactic(auto, using(crate::proofs::Reading::first_value_is))]
pub(crate) fn width_in(arguments: &ArgMatches<'_>) -> Option<Width>
    ensures { result ≡ width_in (rows_of (found_of arguments.now)) }
{
    Width::of(arguments.get_str("WIDTH")?)
}

/// The folder among a command's arguments.
#[tactic(auto, using(crate::proofs::Reading::first_value_is))]
pub(crate) fn folder_in<'a>(arguments: &ArgMatches<'a>) -> Option<FolderName<'a>>
    ensures { result ≡ folder_in (rows_of (found_of arguments.now)) }
{
    Some(FolderName {
        path: arguments.get_str("DIR")?,
    })
}

/// The limit of a segment among the arguments of `create`.
#[tactic(auto, using(crate::proofs::Reading::first_value_is))]
fn limit_in(arguments: &ArgMatches<'_>) -> Option<u32>
    ensures value { result ≡ limit_in (rows_of (found_of arguments.now)) }
    ensures from { IfSome result (λ limit. least_limit ≤ limit) }
    ensures to { IfSome result (λ limit. limit ≤ greatest_limit) }
{
    let Some(word) = arguments.get_str("N") else {
        return Some(USUAL_LIMIT);
    };
    let limit = number_between(
        u64::from(LEAST_LIMIT),
        u64::from(GREATEST_LIMIT),
        word.as_bytes(),
    )?;
    Some(limit as u32)
}

/// The wide width among the arguments of `create`, where one is asked for: a multiple of the width, up to a day.
#[tactic(auto, using(crate::proofs::Reading::first_value_is))]
fn wide_in(arguments: &ArgMatches<'_>, width: u32) -> Option<Option<u32>>
    requires { 1 ≤ width }
    ensures value { result ≡ wide_in width (rows_of (found_of arguments.now)) }
    ensures found { IfSome result (λ o. IfSome o (IsWide width)) }
{
    let Some(word) = arguments.get_str("SECONDS") else {
        return Some(None);
    };
    let wide = number_between(u64::from(width), u64::from(GREATEST_WIDTH), word.as_bytes())?;
    if wide % u64::from(width) == 0 {
        Some(Some(wide as u32))
    } else {
        None
    }
}

/// The numbers of a new archive among the arguments of `create`.
pub(crate) fn plan_in(arguments: &ArgMatches<'_>) -> Option<NewArchive>
    ensures { result ≡ plan_in (rows_of (found_of arguments.now)) }
{
    let width = width_in(arguments)?.seconds();
    let limit = limit_in(arguments)?;
    let wide = wide_in(arguments, width)?;
    Some(NewArchive::new(width, wide, limit))
}

/// A second among the arguments of a command that asks for a span.
#[tactic(auto, using(crate::proofs::Reading::first_value_is))]
fn second_in(arguments: &ArgMatches<'_>, id: &str) -> Option<u64>
    ensures value { result ≡ second_in id.now (rows_of (found_of arguments.now)) }
    ensures most { IfSome result (λ second. second ≤ 4294967296) }
{
    number_between(0, MOST_SECOND, arguments.get_str(id)?.as_bytes())
}

/// The span that FROM and TO give, among the arguments of a command that asks for one.
fn numbered_span_in(arguments: &ArgMatches<'_>) -> Option<MomentSpan>
    ensures { result ≡ numbered_span_in (rows_of (found_of arguments.now)) }
{
    let from = second_in(arguments, "FROM")?;
    let to = second_in(arguments, "TO")?;
    Some(MomentSpan {
        from: Moment::Second(from),
        to: Moment::Second(to),
    })
}

/// A moment among the arguments of a command that asks for a span, or a usual one.
#[tactic(auto, using(crate::proofs::Reading::first_value_is))]
fn moment_in(arguments: &ArgMatches<'_>, id: &str, usual: Moment) -> Option<Moment>
    ensures { result ≡ moment_in id.now usual (rows_of (found_of arguments.now)) }
{
    match arguments.get_str(id) {
        Some(word) => moment_of(word),
        None => Some(usual),
    }
}

/// Whether an argument is among a command's arguments.
#[tactic(auto, using(crate::proofs::Reading::first_value_is))]
pub(crate) fn is_given(arguments: &ArgMatches<'_>, id: &str) -> bool
    ensures { result ≡ is_given id.now (rows_of (found_of arguments.now)) }
{
    arguments.get_str(id).is_some()
}

/// The span that `--since` and `--until` give, among the arguments of a command that asks for one.
pub(crate) fn worded_span_in(arguments: &ArgMatches<'_>) -> Option<MomentSpan>
    ensures { result ≡ worded_span_in (rows_of (found_of arguments.now)) }
{
    if is_given(arguments, "FROM") {
        return None;
    }
    let from = moment_in(arguments, "SINCE", FIRST)?;
    let to = moment_in(arguments, "UNTIL", LAST)?;
    Some(MomentSpan { from, to })
}

/// Whether the first of two moments is later, whatever second it is now.
fn is_later(from: Moment, to: Moment) -> bool
    ensures { result ≡ is_later from to }
{
    match (from, to) {
        (Moment::Second(from), Moment::Second(to)) => to < from,
        (Moment::Ago(from), Moment::Ago(to)) => from < to,
        (Moment::Second(_), Moment::Ago(_)) => false,
        (Moment::Ago(_), Moment::Second(_)) => false,
    }
}

/// A span that doesn't end before it begins.
fn forward(span: MomentSpan) -> Option<MomentSpan>
    ensures { result ≡ forward span }
{
    if is_later(span.from, span.to) {
        return None;
    }
    Some(span)
}

/// Whether `--since` is later than `--until`, among the arguments of a command.
pub(crate) fn are_swapped(arguments: &ArgMatches<'_>) -> bool
    ensures { result ≡ are_swapped (rows_of (found_of arguments.now)) }
{
    match worded_span_in(arguments) {
        Some(span) => is_later(span.from, span.to),
        None => false,
    }
}

/// Whether a span is given by moments, among the arguments of a command that asks for one.
pub(crate) fn is_by_moments(arguments: &ArgMatches<'_>) -> bool
    ensures { result ≡ is_by_moments (rows_of (found_of arguments.now)) }
{
    is_given(arguments, "SINCE") || is_given(arguments, "UNTIL")
}

/// The span among the arguments of a command that asks for one: by two numbers, or by options alone.
pub(crate) fn span_in(arguments: &ArgMatches<'_>) -> Option<MomentSpan>
    ensures { result ≡ span_in (rows_of (found_of arguments.now)) }
{
    if is_by_moments(arguments) {
        forward(worded_span_in(arguments)?)
    } else {
        numbered_span_in(arguments)
    }
}

/// The words among the arguments of `totals` and `flows`: folders, and a span by two numbers after them.
#[tactic(auto, using(crate::proofs::Reading::all_values_are))]
pub(crate) fn words_in<'b, 'a>(arguments: &'b ArgMatches<'a>) -> Option<&'b [&'a str]>
    ensures { option_map (λ words. map (λ word. word.now) words.now) result
        ≡ all_of (codes "DIR") (rows_of (found_of arguments.now)) }
{
    arguments.get_strs("DIR")
}

/// A span by two numbers.
fn span_of(from: &str, to: &str) -> Option<MomentSpan>
    ensures { result ≡ span_of from.now to.now }
{
    let first = number_between(0, MOST_SECOND, from.as_bytes())?;
    let last = number_between(0, MOST_SECOND, to.as_bytes())?;
    Some(MomentSpan {
        from: Moment::Second(first),
        to: Moment::Second(last),
    })
}

/// The span that the last two words are.
fn last_span_of(words: &[&str]) -> Option<MomentSpan>
    ensures { result ≡ last_span_of (map (λ word. word.now) words.now) }
{
    let count = words.len();
    if count < 2 {
        return None;
    }
    span_of(words[count - 2], words[count - 1])
}

/// The span of `totals` and `flows`: by options, or by the last two of their words.
pub(crate) fn totals_span_in(arguments: &ArgMatches<'_>, words: &[&str]) -> Option<MomentSpan>
    ensures { result ≡ totals_span_in (rows_of (found_of arguments.now)) (map (λ word. word.now) words.now) }
{
    if is_by_moments(arguments) {
        forward(worded_span_in(arguments)?)
    } else {
        last_span_of(words)
    }
}

/// Their folders: all of their words, or those before the span.
pub(crate) fn folders_of<'a>(
    alloc: Global,
    arguments: &ArgMatches<'_>,
    words: &[&'a str],
) -> Result<FolderNames<'a>, AllocError>
    ensures { IfOk result (λ folders. folders
        ≡ folders_of (rows_of (found_of arguments.now)) (map (λ word. word.now) words.now)) }
{
    let by_moments = is_by_moments(arguments);
    let count = if by_moments {
        words.len()
    } else {
        words.len().saturating_sub(2)
    };
    let paths = Vec::from_slice(alloc, &words[..count])?;
    Ok(FolderNames { paths })
}

/// Whether an option without a value is among a command's arguments.
#[tactic(auto, using(crate::proofs::Reading::first_value_is))]
pub(crate) fn is_set(arguments: &ArgMatches<'_>, id: &str) -> bool
    ensures { result ≡ is_set id.now (rows_of (found_of arguments.now)) }
{
    match arguments.get_str(id) {
        Some(word) => "true" == word,
        None => false,
    }
}

/// The layout among a command's arguments: one at most, lines where none is asked for.
fn layout_in(arguments: &ArgMatches<'_>) -> Option<Layout>
    ensures { result ≡ layout_in (rows_of (found_of arguments.now)) }
{
    match (is_set(arguments, "csv"), is_set(arguments, "json")) {
        (true, true) => None,
        (true, false) => Some(Layout::Csv),
        (false, true) => Some(Layout::Json),
        (false, false) => Some(Layout::Lines),
    }
}

/// How times are to be written, among a command's arguments.
fn times_in(arguments: &ArgMatches<'_>) -> Times
    ensures { result ≡ times_in (rows_of (found_of arguments.now)) }
{
    if is_set(arguments, "utc") {
        Times::Dates
    } else {
        Times::Seconds
    }
}

/// The format among a command's arguments.
pub(crate) fn format_in(arguments: &ArgMatches<'_>) -> Option<Format>
    ensures { result ≡ format_in (rows_of (found_of arguments.now)) }
{
    let layout = layout_in(arguments)?;
    let times = times_in(arguments);
    Some(Format { layout, times })
}

/// How `records` writes all fields, among its arguments.
fn record_format_in(arguments: &ArgMatches<'_>) -> RecordFormat
    ensures { result ≡ record_format_in (rows_of (found_of arguments.now)) }
{
    let layout = if is_set(arguments, "json") {
        RecordLayout::Json
    } else {
        RecordLayout::Lines
    };
    let times = times_in(arguments);
    RecordFormat { layout, times }
}

/// The names of the fields that `records` writes, among its arguments, where they are given.
#[tactic(auto, using(crate::proofs::Reading::first_value_is))]
pub(crate) fn fields_in<'a>(arguments: &ArgMatches<'a>) -> Option<&'a str>
    ensures { option_map (λ names. names.now) result ≡ fields_in (rows_of (found_of arguments.now)) }
{
    arguments.get_str("FIELDS")
}

/// How `records` writes, among its arguments: `None` where two formats are asked for, or where no field has a name that
/// is given.
pub(crate) fn line_format_in<'a>(arguments: &ArgMatches<'a>) -> Option<LineFormat<'a>>
    ensures { result ≡ line_format_in (rows_of (found_of arguments.now)) }
{
    let Some(names) = fields_in(arguments) else {
        return Some(LineFormat::Whole(record_format_in(arguments)));
    };
    if is_set(arguments, "json") {
        return None;
    }
    match first_unknown(names) {
        Some(_) => None,
        None => Some(LineFormat::Columns(FieldNames::new(names), times_in(arguments))),
    }
}

/// How many workers scan, among the arguments of `totals`, where that is said.
#[tactic(auto, using(crate::proofs::Reading::first_value_is))]
pub(crate) fn workers_in(arguments: &ArgMatches<'_>) -> Option<Option<Workers>>
    ensures { result ≡ workers_in (rows_of (found_of arguments.now)) }
{
    let Some(word) = arguments.get_str("WORKERS") else {
        return Some(None);
    };
    let count = number_between(1, MOST_WORKERS, word.as_bytes())?;
    Some(Some(Workers::new(count as u32)))
}

/// How many of the newest files are left, among the arguments of `roll` and `merge`.
#[tactic(auto, using(crate::proofs::Reading::first_value_is))]
pub(crate) fn keep_in(arguments: &ArgMatches<'_>) -> Option<u32>
    ensures { result ≡ keep_in (rows_of (found_of arguments.now)) }
{
    let keep = number_between(0, MOST_KEEP, arguments.get_str("KEEP")?.as_bytes())?;
    Some(keep as u32)
}

/// How many of the newest segments are left, among the arguments of `feed` and `shell`, or as many as usual.
#[tactic(auto, using(crate::proofs::Reading::first_value_is))]
fn kept_or(arguments: &ArgMatches<'_>, usual: u32) -> Option<u32>
    ensures { result ≡ kept_or usual (rows_of (found_of arguments.now)) }
{
    let Some(word) = arguments.get_str("KEEP") else {
        return Some(usual);
    };
    let keep = number_between(0, MOST_KEEP, word.as_bytes())?;
    Some(keep as u32)
}

/// How many of the newest rolled files are left, among the arguments of `feed` and `shell`, where others are merged.
#[tactic(auto, using(crate::proofs::Reading::first_value_is))]
pub(crate) fn merge_in(arguments: &ArgMatches<'_>) -> Option<Option<u32>>
    ensures { result ≡ merge_in (rows_of (found_of arguments.now)) }
{
    let Some(word) = arguments.get_str("LEFT") else {
        return Some(None);
    };
    let keep = number_between(0, MOST_KEEP, word.as_bytes())?;
    Some(Some(keep as u32))
}

/// How many of the newest segments `shell` leaves, among its arguments: all of them where nothing is said.
pub(crate) fn kept_in_shell(arguments: &ArgMatches<'_>) -> Option<u32>
    ensures { result ≡ kept_or 4294967295 (rows_of (found_of arguments.now)) }
{
    kept_or(arguments, ALL_KEPT)
}

/// Whether `--from` is among the arguments of `feed`.
pub(crate) fn passes(arguments: &ArgMatches<'_>) -> bool
    ensures { result ≡ is_given (codes "COUNT") (rows_of (found_of arguments.now)) }
{
    is_given(arguments, "COUNT")
}

/// How many of the first messages of a File are only read, among the arguments of `feed`.
#[tactic(auto, using(crate::proofs::Reading::first_value_is))]
fn passed_in(arguments: &ArgMatches<'_>) -> Option<u64>
    ensures { result ≡ passed_in (rows_of (found_of arguments.now)) }
{
    let Some(word) = arguments.get_str("COUNT") else {
        return Some(0);
    };
    number_between(0, MOST_MESSAGES, word.as_bytes())
}

/// The path of the file that ends it, among the arguments of `feed`.
#[tactic(auto, using(crate::proofs::Reading::first_value_is))]
pub(crate) fn end_in<'a>(arguments: &ArgMatches<'a>) -> EndName<'a>
    ensures { result ≡ end_in (rows_of (found_of arguments.now)) }
{
    EndName {
        path: arguments.get_str("PATH"),
    }
}

/// How the Files are fed, among the arguments of `feed`.
pub(crate) fn feeding_in(arguments: &ArgMatches<'_>) -> Option<FeedPlan>
    ensures { result ≡ feeding_in (rows_of (found_of arguments.now)) }
{
    let keep = kept_or(arguments, USUAL_KEEP)?;
    let merge = merge_in(arguments)?;
    let passed = passed_in(arguments)?;
    let warn = is_set(arguments, "warn");
    let datagrams = is_set(arguments, "datagrams");
    let ends = is_given(arguments, "PATH");
    Some(FeedPlan {
        keep,
        merge,
        passed,
        warn,
        datagrams,
        ends,
    })
}

/// The Files among a command's arguments, where one is given.
#[tactic(auto, using(crate::proofs::Reading::all_values_are))]
pub(crate) fn given_in<'a>(
    alloc: Global,
    arguments: &ArgMatches<'a>,
) -> Result<Option<FileNames<'a>>, AllocError>
    ensures { IfOk result (λ files. files ≡ given_in (rows_of (found_of arguments.now))) }
{
    let Some(paths) = arguments.get_strs("FILE") else {
        return Ok(None);
    };
    let paths = Vec::from_slice(alloc, paths)?;
    Ok(Some(FileNames { paths }))
}

/// These Files, where they are at most 8.
fn few_of(files: FileNames<'_>) -> Option<FileNames<'_>>
    ensures { result ≡ few_of files.entry }
{
    if files.paths.len() > MOST_FILES {
        return None;
    }
    Some(files)
}

/// The Files among the arguments of `feed`: at most 8.
pub(crate) fn files_in<'a>(
    alloc: Global,
    arguments: &ArgMatches<'a>,
) -> Result<Option<FileNames<'a>>, AllocError>
    ensures { IfOk result (λ files. files ≡ files_in (rows_of (found_of arguments.now))) }
{
    match given_in(alloc, arguments)? {
        Some(files) => Ok(few_of(files)),
        None => Ok(None),
    }
}

/// What `explain` asks for.
#[tactic(auto, using(crate::proofs::Reading::first_value_is))]
pub(crate) fn explained_in(arguments: &ArgMatches<'_>) -> Option<Explanation>
    ensures { result ≡ explained_in (rows_of (found_of arguments.now)) }
{
    let number = number_between(0, MOST_NUMBER, arguments.get_str("NUMBER")?.as_bytes())?;
    Explanation::of(number)
}
