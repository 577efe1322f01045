//! What a run writes of a command line that asks for nothing, or for help.

ghost use Rattle.std.specs.Prelude.{◌≡◌, ◌≢◌, ◌≤◌, ℕ, OnOk, OnErr, IfOk};
ghost use Rattle.std.specs.Prelude.{string_bytes};
ghost use Rattle.std.specs.Io.KnownBytes.{Appends, Keeps};
ghost use Rattle.flow_report.specs.Printed.{line_of};
ghost use Rattle.flow_report.specs.Writing.{AppendsFront};
ghost use Rattle.flow_program.specs.Printed.{field_text, kind_text, words_text};
ghost use Rattle.flow_program.specs.Run.{AreWordsLines, AreWordsTold, IsHelp, IsShown, IsTold};

use crate::request::LineError;
use crate::telling::{DONE, tell, tell_line, write_octets};
use clap::Error;
use clap::error::ErrorKind;
use flow_columns::FieldNames;
use flow_report::Refusal;
use std::alloc::{AllocError, Global};
use std::fmt::Display;
use std::io::Write;

/// The status of a run whose words ask for nothing.
const WRONG_LINE: u8 = 2;

/// The line for a width that isn't one.
const WRONG_WIDTH: &str =
    "flowvault: WIDTH is 1 to 86400, digits alone, as in: flowvault measure 300 < FILE\n";

/// The line for numbers that no new archive has.
const WRONG_PLAN: &str =
    "flowvault: WIDTH is 1 to 86400, --limit 65535 to 16777216, --wide a multiple of WIDTH up to \
     86400, all digits alone\n";

/// The line for seconds that no span has.
const WRONG_SPAN: &str =
    "flowvault: FROM and TO are seconds since 1970-01-01 00:00 UTC, digits alone, 0 to 4294967296; --since and \
     --until, in their place, are as 2026-11-25, 2026-11-25T06:00, 1d, 6h or now\n";

/// The line for a number of folders that aren't asked.
const WRONG_FOLDERS: &str = "flowvault: DIR is given 1 to 4096 times\n";

/// The line for seconds that no span has, or of a number of folders that aren't asked.
const WRONG_FLOWS: &str =
    "flowvault: FROM and TO are seconds since 1970-01-01 00:00 UTC, digits alone, 0 to 4294967296; --since and \
     --until, in their place, are as 2026-11-25, 2026-11-25T06:00, 1d, 6h or now; DIR is given 1 to 4096 times\n";

/// The line for seconds that no span has, or of a number of folders or workers that no scan has.
const WRONG_TOTALS: &str =
    "flowvault: FROM and TO are seconds since 1970-01-01 00:00 UTC, digits alone, 0 to 4294967296; --since and \
     --until, in their place, are as 2026-11-25, 2026-11-25T06:00, 1d, 6h or now; DIR is given 1 to 4096 times; \
     --workers is 1 to 64, with one DIR and without --each\n";

/// The line for a number of files that can't be left.
const WRONG_KEEP: &str =
    "flowvault: KEEP is how many of the newest files are left, digits alone, 0 to 4294967295\n";

/// The line for too many Files, or of a number of segments that can't be left.
const WRONG_FILES: &str =
    "flowvault: FILE is given 1 to 8 times, but once with --from, 0 to 281474976710655, and without --datagrams; \
     --keep and --merge are how many of the newest segments, and rolled files, are left, 0 to 4294967295\n";

/// The line for a number that no refusal has.
const WRONG_NUMBER: &str =
    "flowvault: no refusal has this NUMBER: they are 1 to 11, 14 to 17, 20 to 27, 30 to 32, 40 to 52\n";

/// The line for a span that ends before it begins.
const SWAPPED: &str = "flowvault: --since is later than --until: the span ends before it begins\n";

/// The line for numbers that no messages have, and moments that no span of theirs has.
const WRONG_MESSAGES: &str =
    "flowvault: --from is 1 to 281474976710655, --to up to 281474976710655 and at least --from less 1, digits alone; \
     --since and --until, in their place, are as 2026-11-25, 2026-11-25T06:00, 1d, 6h or now, the first earlier\n";

/// What is reported of two formats.
const WRONG_FORMATS: &str =
    "flowvault: --csv and --json are two formats: one of them is taken, not both\n";

/// The line where a command is missing.
const NO_COMMAND: &str = "flowvault: a command is needed: flowvault --help lists them\n";

/// The line where an argument is missing.
const NO_ARGUMENT: &str = "flowvault: an argument is missing: flowvault help COMMAND lists them\n";

/// The line for any other wrong words.
const WRONG_WORDS: &str =
    "flowvault: a word isn't understood: flowvault help COMMAND lists what it takes; measure and dump read \
     standard input\n";

/// The line for a name that no field has.
fn field_line(alloc: Global, name: &FieldNames<'_>) -> Result<String, AllocError>
    ensures { IfOk result (λ line. string_bytes line ≡ line_of (field_text name.now)) }
{
    let name = name.text();
    format!(in alloc; "flowvault: --csv names fields as --json does: no field is named '{name}'\n")
}

/// Reports a name that no field has. Where there is no memory for the line nothing is.
fn tell_field<E: Write>(alloc: Global, errors: &mut E, name: &FieldNames<'_>)
    ensures { AppendsFront (E.contents errors.old) (E.contents errors.new) (line_of (field_text name.now)) }
{
    let Ok(line) = field_line(alloc, name) else {
        return;
    };
    tell_line(errors, line.as_bytes());
}

/// Tells why a command line asks for nothing, or shows the help that it asks for. It answers the exit status.
pub(crate) fn refuse<W: Write, E: Write>(
    alloc: Global,
    error: &LineError<'_>,
    output: &mut W,
    errors: &mut E,
) -> u8
    ensures told { IsTold error.now (W.contents output.old) (W.contents output.new) (E.contents errors.old)
        (E.contents errors.new) result }
    ensures quiet { result ≡ 0 → Keeps (E.contents errors.old) (E.contents errors.new) }
    ensures status { result ≤ 5 }
    ensures wrong { result ≡ 2 → Keeps (W.contents output.old) (W.contents output.new) }
{
    match error {
        LineError::Parser(error) if error.use_stderr() => {
            tell_words(alloc, errors, error);
            WRONG_LINE
        }
        LineError::Parser(help) => show(alloc, help, output, errors),
        LineError::Width => {
            tell_line(errors, WRONG_WIDTH.as_bytes());
            WRONG_LINE
        }
        LineError::Plan => {
            tell_line(errors, WRONG_PLAN.as_bytes());
            WRONG_LINE
        }
        LineError::Span => {
            tell_line(errors, WRONG_SPAN.as_bytes());
            WRONG_LINE
        }
        LineError::Folders => {
            tell_line(errors, WRONG_FOLDERS.as_bytes());
            WRONG_LINE
        }
        LineError::Flows => {
            tell_line(errors, WRONG_FLOWS.as_bytes());
            WRONG_LINE
        }
        LineError::Totals => {
            tell_line(errors, WRONG_TOTALS.as_bytes());
            WRONG_LINE
        }
        LineError::Swapped => {
            tell_line(errors, SWAPPED.as_bytes());
            WRONG_LINE
        }
        LineError::Keep => {
            tell_line(errors, WRONG_KEEP.as_bytes());
            WRONG_LINE
        }
        LineError::Files => {
            tell_line(errors, WRONG_FILES.as_bytes());
            WRONG_LINE
        }
        LineError::Number => {
            tell_line(errors, WRONG_NUMBER.as_bytes());
            WRONG_LINE
        }
        LineError::Messages => {
            tell_line(errors, WRONG_MESSAGES.as_bytes());
            WRONG_LINE
        }
        LineError::Formats => {
            tell_line(errors, WRONG_FORMATS.as_bytes());
            WRONG_LINE
        }
        LineError::Field(name) => {
            tell_field(alloc, errors, name);
            WRONG_LINE
        }
        LineError::OutOfMemory => tell(alloc, errors, &Refusal::OutOfMemory),
    }
}

/// The line for words that the parser of the command line refuses.
fn kind_line(kind: ErrorKind) -> &'static str
    ensures { result.now ≡ line_of (kind_text kind) }
{
    match kind {
        ErrorKind::MissingSubcommand => NO_COMMAND,
        ErrorKind::MissingRequiredArgument => NO_ARGUMENT,
        _ => WRONG_WORDS,
    }
}

/// The part of a text before a mark, or all of it.
fn before<'a>(text: &'a str, mark: &str) -> &'a str {
    match text.split_once(mark) {
        Some((front, _)) => front,
        None => text,
    }
}

/// What the parser of the command line says of words that it refuses: which word, and which one is like it, but not how
/// the command is used; nothing where no command is there.
fn said_of(alloc: Global, error: &Error) -> Result<String, AllocError> {
    if error.kind() == ErrorKind::MissingSubcommand {
        return Ok(String::new(alloc));
    }
    let text = format!(in alloc; "{error}")?;
    let said = before(before(text.as_str(), "\nUsage:"), "\nFor more information");
    format!(in alloc; "{}\n", said.trim_end())
}

/// The line for words that the parser of the command line refuses, and what it says of them.
fn words_lines(alloc: Global, error: &Error) -> Result<String, AllocError>
    ensures { IfOk result (λ lines. AreWordsLines error.now (string_bytes lines)) }
{
    let said = said_of(alloc, error)?;
    let mut lines = String::from_str(alloc, kind_line(error.kind()))?;
    lines.push_str(said.as_str())?;
    Ok(lines)
}

/// Writes why the parser of the command line refuses words. Where there is no memory for what it says of them, the line
/// is written alone.
fn tell_words<E: Write>(alloc: Global, errors: &mut E, error: &Error)
    ensures { AreWordsTold error.now (E.contents errors.old) (E.contents errors.new) }
{
    match words_lines(alloc, error) {
        Ok(lines) => tell_line(errors, lines.as_bytes()),
        Err(AllocError) => tell_line(errors, kind_line(error.kind()).as_bytes()),
    }
}

/// Writes a text.
fn write_text<W: Write, D: Display + Drop>(
    alloc: Global,
    to: &mut W,
    text: D,
) -> Result<(), Refusal> {
    let text = format!(in alloc; "{text}")?;
    write_octets(to, text.as_bytes())
}

/// Shows help on `output`.
fn show<W: Write, E: Write>(alloc: Global, help: &Error, output: &mut W, errors: &mut E) -> u8
    ensures shown { IsShown (E.contents errors.old) (E.contents errors.new) result }
    ensures quiet { result ≡ 0 → Keeps (E.contents errors.old) (E.contents errors.new) }
    ensures status { result ≤ 5 }
    ensures other { result ≢ 2 }
{
    match write_text(alloc, output, help) {
        Ok(()) => DONE,
        Err(refusal) => tell(alloc, errors, &refusal),
    }
}
