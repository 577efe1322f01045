//! What a line asks of the shell.

ghost use Rattle.std.specs.Prelude.{◌≡◌, IfSome, ◌≤◌};
ghost use Rattle.flow_shell.specs.Asked.{by_name, collected_in, fed_in, file_in, keep_in, message_in, name_of};
ghost use Rattle.flow_shell.specs.Asked.{path_in, query_by_name, request_in, rest_of, span_in};

use flow_commands::StartSpan;
use flow_manifest::MOST_MESSAGES;
use flow_report::number_between;
use std::marker::Model;

/// The greatest second of a span: every flow starts before it.
const MOST_SECOND: u64 = 4_294_967_296;

/// The most files that may be left.
const MOST_KEEP: u64 = 4_294_967_295;

/// The path of a File.
#[derive(Drop)]
pub struct FileName<'a> {
    pub(crate) path: &'a str,
}

impl<'a> Model for FileName<'a> {
    ghost use Rattle.std.specs.Prelude.{ℕ, List};

    ghost Value = { List ℕ };

    ghost view = { λ f. f.path.now };
}

/// A question about the archive.
#[derive(Drop)]
pub enum Query {
    /// `totals FROM TO`: totals lines.
    Totals(StartSpan),
    /// `flows FROM TO`: lines of the flows that aren't rolled.
    Flows(StartSpan),
    /// `message N`: the octets of this message.
    Message(u64),
    /// `check`: how many messages there are.
    Check,
}

/// A request.
#[derive(Drop)]
pub enum ShellRequest<'a> {
    /// A question about the archive.
    Ask(Query),
    /// `feed FILE`: this File is taken in, while other requests are answered.
    Feed(FileName<'a>),
    /// `feed FILE datagrams`: the same, and each read of it gives one message.
    Collect(FileName<'a>),
    /// `keep N`: so many of the newest segments are left as they are from now on.
    Keep(u32),
    /// `merge N`: so many of the newest rolled files are from now on, and older ones are merged.
    Merge(u32),
    /// `losses`: what all Files so far show not to be read, or to be summed otherwise.
    Losses,
    /// `wait`: answered when all Files that are fed have ended.
    Wait,
    /// `quit`: the shell ends.
    Quit,
}

/// The part of a line before its first space, and what comes after that.
fn divided(line: &str) -> (&str, &str)
    ensures name { result.0.now ≡ name_of line.now }
    ensures rest { result.1.now ≡ rest_of line.now }
{
    match line.split_once(' ') {
        Some((name, rest)) => (name, rest),
        None => (line, ""),
    }
}

/// The span that two words give.
fn span_of(words: &str) -> Option<StartSpan>
    ensures { result ≡ span_in words.now }
{
    let (from, to) = divided(words);
    let from = number_between(0, MOST_SECOND, from.as_bytes())?;
    let to = number_between(0, MOST_SECOND, to.as_bytes())?;
    Some(StartSpan::new(from, to))
}

/// The number of a message.
fn message_of(word: &str) -> Option<u64>
    ensures { result ≡ message_in word.now }
{
    number_between(0, MOST_MESSAGES, word.as_bytes())
}

/// How many segments, or rolled files, are left as they are.
fn keep_of(word: &str) -> Option<u32>
    ensures { result ≡ keep_in word.now }
{
    let keep = number_between(0, MOST_KEEP, word.as_bytes())?;
    Some(keep as u32)
}

/// The path of a File, which isn't empty.
fn name_at(path: &str) -> Option<FileName<'_>>
    ensures { result ≡ path_in path.now }
{
    if path.is_empty() {
        return None;
    }
    Some(FileName { path })
}

/// The File at a path.
fn fed_of(path: &str) -> Option<ShellRequest<'_>>
    ensures { result ≡ fed_in path.now }
{
    Some(ShellRequest::Feed(name_at(path)?))
}

/// The same, by datagrams.
fn collected_of(path: &str) -> Option<ShellRequest<'_>>
    ensures { result ≡ collected_in path.now }
{
    Some(ShellRequest::Collect(name_at(path)?))
}

/// The File that words name: by datagrams, where that is the last of several.
fn file_of(words: &str) -> Option<ShellRequest<'_>>
    ensures { result ≡ file_in words.now }
{
    match words.strip_suffix(" datagrams") {
        Some(path) => collected_of(path),
        None => fed_of(words),
    }
}

/// What a question's name and the words after it ask for.
fn query_by_name(name: &str, rest: &str) -> Option<Query>
    ensures { result ≡ query_by_name name.now rest.now }
{
    match name {
        "totals" => Some(Query::Totals(span_of(rest)?)),
        "flows" => Some(Query::Flows(span_of(rest)?)),
        "message" => Some(Query::Message(message_of(rest)?)),
        _ => None,
    }
}

/// What a name and the words after it ask for.
fn by_name<'a>(name: &str, rest: &'a str) -> Option<ShellRequest<'a>>
    ensures { result ≡ by_name name.now rest.now }
{
    match name {
        "feed" => file_of(rest),
        "keep" => Some(ShellRequest::Keep(keep_of(rest)?)),
        "merge" => Some(ShellRequest::Merge(keep_of(rest)?)),
        _ => Some(ShellRequest::Ask(query_by_name(name, rest)?)),
    }
}

/// What a line asks for, without its line feed; nothing where it is no request.
pub fn request_of(line: &str) -> Option<ShellRequest<'_>>
    ensures { result ≡ request_in line.now }
{
    match line {
        "check" => Some(ShellRequest::Ask(Query::Check)),
        "losses" => Some(ShellRequest::Losses),
        "wait" => Some(ShellRequest::Wait),
        "quit" => Some(ShellRequest::Quit),
        _ => {
            let (name, rest) = divided(line);
            by_name(name, rest)
        }
    }
}
