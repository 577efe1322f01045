//! What the parser of the command line is given: the commands, and their help.

ghost use Rattle.std.specs.Prelude.{◌≡◌, ◌++◌, ◌∷◌, [], false, IfOk};
ghost use Rattle.clap.specs.Walk.{rule_of};
ghost use Rattle.clap.specs.Simple.{app_of, new_shape, shape_of};
ghost use Rattle.clap.specs.declared.builder.command.Command.TheViews.{out-Command as fields_of};
ghost use Rattle.flow_program.specs.CommandLine.{any_number, check_shape, create_shape, dump_shape, explain_shape};
ghost use Rattle.flow_program.specs.CommandLine.{feed_shape, flag, merging_shape, passing_shape};
ghost use Rattle.flow_program.specs.CommandLine.{flowvault, folder_rule, keep_shape, measure_shape, needed, option};
ghost use Rattle.flow_program.specs.CommandLine.{moments_shape, optional, program, several, sized_shape, span_shape};
ghost use Rattle.flow_program.specs.CommandLine.{since_rule, until_rule};
ghost use Rattle.flow_program.specs.CommandLine.{asking_shape, folders_shape, records_shape, totals_shape, width_rule};
ghost use Rattle.flow_program.specs.CommandLine.{with_archives, with_feeding, with_queries, with_rolling, with_streams};
ghost use Rattle.flow_program.specs.CommandLine.{format_rules, inspect_shape, kept_shape, shell_shape};

use crate::export_words::with_exports;
use clap::{Arg, ArgAction, Command};
use std::alloc::{AllocError, Global};

/// What `measure` does, in a line or two.
const MEASURE_ABOUT: &str =
    "Sums the flows of the IPFIX File on standard input, by interval,\nObservation Domain and protocol";

/// What help has below the arguments of `measure`.
const MEASURE_HELP: &str =
    "Each line: START DOMAIN PROTOCOL FLOWS OCTETS PACKETS. START is in seconds since\n\
     1970-01-01 00:00 UTC; PROTOCOL is - where a flow has none. Nothing is written\n\
     unless the whole File is accepted.\n\
     A terminal on standard error is shown which records the File lacks: those\n\
     without a template in force, and those that Sequence Numbers leave out; --warn\n\
     says so anywhere.\n\
     \n\
     Example: flowvault measure 300 < FILE";

/// What `dump` does, in a line or two.
const DUMP_ABOUT: &str =
    "Writes the messages of the IPFIX File on standard input and their\ndata records, a line each";

/// What help has below the options of `dump`.
const DUMP_HELP: &str =
    "The lines: message LENGTH TIME SEQUENCE DOMAIN, then for each data record\n\
     record ID NAME=VALUE .. or options ID NAME=VALUE ..\n\
     TIME and elements of seconds or milliseconds count from 1970-01-01 00:00 UTC. An\n\
     element without a name here is eNUMBER, an enterprise's eENTERPRISE.NUMBER. The\n\
     lines before a refused message stay.\n\
     \n\
     Example: flowvault dump < FILE";

/// What `inspect` does, in a line or two.
const INSPECT_ABOUT: &str =
    "Counts what an IPFIX File has of each Observation Domain, and how\nmany records are missing";

/// What help has below the options of `inspect`.
const INSPECT_HELP: &str =
    "The lines, a domain each, in the order of their first messages: domain DOMAIN\n\
     messages N records N options N unread SETS OCTETS replaced N gaps N missing N\n\
     backwards N from TIME to TIME starts FIRST LAST longest SECONDS long N placed N\n\
     uncounted N sampled N; then one of all together: all domains N messages N ..\n\
     Unread are the data Sets without a template in force, and their octets; how\n\
     many records these hold isn't known. Replaced are the templates whose ID had a\n\
     different one in force, as where two exporters use the same IDs. A gap is a\n\
     message whose Sequence Number is past the one that the domain's data records\n\
     so far make due: as many are missing, lost on their way or unread. Backwards\n\
     are those before it: sent twice, in another order, or by an exporter that\n\
     began anew. TIME is the least and the greatest Export Time, FIRST and LAST the\n\
     least and the greatest start of the flows, SECONDS how long the longest one\n\
     lasts, - without one; N flows last more than 300 seconds. Placed are flows that\n\
     start at the Export Time, as their record has no start that counts; uncounted\n\
     those whose octets or packets are counted by elements that aren't summed;\n\
     sampled those with a sampling rate, which no sum is multiplied by. Nothing is\n\
     written unless the whole File is accepted.\n\
     Without a FILE standard input is read. The lines of FILEs begin with file N,\n\
     which counts them from 1; file is the first name of CSV and JSON. Each is read\n\
     by itself, in their order, up to the first that is refused, with its N.\n\
     \n\
     Examples: flowvault inspect < FILE\n\
     \x20         flowvault inspect --csv FILE OTHER";

/// What `create` does, in a line or two.
const CREATE_ABOUT: &str = "Makes an archive in a folder that exists";

/// What help has below the arguments of `create`.
const CREATE_HELP: &str =
    "Writes nothing on standard output. A segment takes --limit octets of messages;\n\
     old sums are made over --wide seconds, the greatest multiple of WIDTH where it\n\
     isn't given. These have no peaks within a wide interval, and no percentiles of\n\
     shorter ones, which a terminal on standard error is shown. A folder with any\n\
     n.ipfix, 1.slot or 2.slot is refused: 27 NotEmpty, status 1. One that isn't\n\
     there, or is in use: 30 Fault, status 3.\n\
     \n\
     Example: mkdir flows && flowvault create flows 300";

/// What `check` does, in a line or two.
const CHECK_ABOUT: &str = "Opens the archives of folders and says what they hold";

/// What help has below the arguments of `check`.
const CHECK_HELP: &str =
    "Writes ok POSITION CUT ROLLED SEALED: how many messages were taken in, how many\n\
     of them are in sums alone, how many files of sums and how many sealed segments\n\
     there are. With --files a line for each file follows, the oldest messages first:\n\
     KIND FILE OCTETS MESSAGES FIRST LAST. Its kind is wide, rolled, sealed or\n\
     active, and FIRST and LAST are the starts of the first and the last interval in\n\
     which a flow of it starts, or - without one. A damaged archive is reported on\n\
     standard error as 20 Damaged FILE AT, 21 Format SLOT, 22 Entries SLOT, 23 Cut\n\
     SLOT or 24 NoArchive: status 5.\n\
     Of several DIRs, up to 4096, each line is after the number of its archive, which\n\
     counts DIRs from 1. What isn't well is reported with its number, archive N, and\n\
     the next one is checked; the status is the greatest of all.\n\
     \n\
     Examples: flowvault check flows\n\
     \x20         flowvault check north south";

/// What `totals` does, in a line or two.
const TOTALS_ABOUT: &str =
    "Sums the flows in the archives of folders, by interval, Observation\nDomain and protocol";

/// What help has below the arguments of `totals`.
const TOTALS_HELP: &str =
    "The last two words are FROM and TO, in seconds since 1970-01-01 00:00 UTC, up to\n\
     4294967296. --since and --until, in their place, take a day or a minute of UTC,\n\
     days or hours before now, or now; then all words are DIRs.\n\
     Each line: START DOMAIN PROTOCOL FLOWS OCTETS PACKETS, as of measure, for the\n\
     intervals that start from FROM on and before TO. Sums over wide intervals have\n\
     the interval's width in seconds as a seventh number. The lines don't depend on\n\
     --workers.\n\
     Of several DIRs, up to 4096, the lines are the sums of all archives. These have\n\
     one WIDTH and one --wide: the first that has others is refused, 51 Widths, and\n\
     only --each asks them. With --each the lines are those of each archive, after\n\
     its number, which counts DIRs from 1; archive is the first name of CSV and JSON.\n\
     The first archive that can't be asked is named: archive N.\n\
     A damaged archive is reported as of check: status 5.\n\
     \n\
     Examples: flowvault totals flows 0 4294967296\n\
     \x20         flowvault totals flows --since 2026-11-01 --until 2026-12-01\n\
     \x20         flowvault totals north south --since 2026-11-01 --each --csv";

/// What `flows` does, in a line or two.
const FLOWS_ABOUT: &str = "Writes the flows in the archives of folders that aren't rolled";

/// What help has below the arguments of `flows`.
const FLOWS_HELP: &str =
    "Each line: START DOMAIN PROTOCOL OCTETS PACKETS, for the flows that start from\n\
     FROM on and before TO, in the order in which they were taken in. START is in\n\
     seconds since 1970-01-01 00:00 UTC; PROTOCOL is - where a flow has none. FROM\n\
     and TO, --since and --until are those of totals.\n\
     Of several DIRs, up to 4096, the lines are those of each archive, after its\n\
     number, which counts DIRs from 1; archive is the first name of CSV and JSON. The\n\
     first archive that can't be asked is named: archive N, after the lines of those\n\
     before it. A damaged archive is reported as of check: status 5.\n\
     \n\
     Examples: flowvault flows flows 1700000000 1700003600\n\
     \x20         flowvault flows flows --since 1h\n\
     \x20         flowvault flows north south --since 1h --csv";

/// What `records` does, in a line or two.
const RECORDS_ABOUT: &str = "Writes the data records of flows of a span, with all their fields";

/// What help has below the arguments of `records`.
const RECORDS_HELP: &str =
    "Each line: START DOMAIN record ID NAME=VALUE .., for the flows that start from\n\
     FROM on and before TO, in the order in which they were taken in: START as of\n\
     flows, then the record as of dump. With --json an object each: start, domain and\n\
     template, then all fields by their names, numbers as numbers, addresses and\n\
     octets in quotes. With --csv a line of the names that are given, then a line\n\
     each of these fields: start, domain, template, or names as of --json.\n\
     Records of Options Templates are no flows, and aren't written.\n\
     --since and --until are those of totals. A damaged archive is reported as of\n\
     check: status 5.\n\
     \n\
     Examples: flowvault records flows 1700000000 1700003600\n\
     \x20         flowvault records flows --since 1h --json\n\
     \x20         flowvault records flows --since 1h --csv start,octetDeltaCount";

/// What `--csv` does of records.
const FIELDS: &str = "CSV (RFC 4180) of these fields: FIELD,FIELD..";

/// What `--utc` does of records.
const RECORDS_UTC: &str = "START as a date of UTC: 2026-11-25T06:00:00Z";

/// What `feed` does, in a line or two.
const FEED_ABOUT: &str = "Takes IPFIX Files into the archive of a folder";

/// What help has below the arguments of `feed`.
const FEED_HELP: &str =
    "The Files are taken in side by side, each as it is read: the messages of one\n\
     keep their order, those of several are interleaved. In the end a line is\n\
     written for each: fed N MESSAGES, or stopped N MESSAGES NUMBER NAME, where the\n\
     message after the first MESSAGES isn't taken in, or the File ends within it; N\n\
     counts the Files from 1. Messages that were taken in stay, whatever comes\n\
     later, a stop of the machine too: feed the rest of a File, not all of it again:\n\
     --from MESSAGES passes over what was taken in, where there is one FILE.\n\
     Meanwhile sealed segments but the newest --keep are rolled, as of roll; no more\n\
     than these are left in the end, and sums of the others: --keep 4294967295 rolls\n\
     nothing. With --merge rolled files but the newest --merge are merged, as of\n\
     merge, whenever there are 1,024 of them. A terminal on standard error is shown\n\
     how much is read, the octet at which a File stopped, which records it lacks:\n\
     those without a template in force, and those that Sequence Numbers leave out,\n\
     how many flows have no start time of their own, octets or packets only in\n\
     elements that aren't summed, or a sampling rate, and how many messages are in\n\
     sums alone in the end; --warn shows these anywhere, but for how much is read.\n\
     What a File lacks so far is said while it is read too, once a minute.\n\
     With --datagrams each read gives one message, as of a socket of datagrams. One\n\
     that isn't accepted, or is empty, is passed over; --warn says how many were, by\n\
     their refusals.\n\
     With --end-on feeding ends between two messages once a file is at PATH, which\n\
     is looked for each time before more is read: what was read is taken in, and the\n\
     rest is left to the next reader of the input. No read that waits is broken off.\n\
     The exit status is that of the first File that stopped. An archive that can't be\n\
     opened is reported on standard error before a File is read.\n\
     \n\
     Example: flowvault feed flows FILE OTHER --keep 24";

/// What `shell` does, in a line or two.
const SHELL_ABOUT: &str =
    "Answers requests about the archive of a folder, and takes Files in\nmeanwhile";

/// What help has below the arguments of `shell`.
const SHELL_HELP: &str =
    "Standard input has the requests, a line each. They are answered in their order:\n\
     \x20 feed FILE       began N: this File, the Nth, is taken in; 8 at once; with\n\
     \x20                 datagrams after FILE each read of it gives one message\n\
     \x20 totals FROM TO  lines as of totals\n\
     \x20 flows FROM TO   lines as of flows\n\
     \x20 message N       the octets of the Nth message in hexadecimal digits, or none\n\
     \x20 check           ok POSITION CUT ROLLED SEALED, as of check\n\
     \x20 losses          what isn't read of all Files so far: sets N (no template),\n\
     \x20                 domain N (of the first), gaps N and records N (missing by\n\
     \x20                 Sequence Numbers), placed N, uncounted N, sampled N (flows, as\n\
     \x20                 of inspect), datagrams COUNT NUMBER NAME (passed over)\n\
     \x20 keep N          from now on sealed segments but the newest N are rolled\n\
     \x20 merge N         from now on rolled files but the newest N are merged, whenever\n\
     \x20                 there are 1,024 of them\n\
     \x20 wait            answered when all Files have ended\n\
     \x20 quit            answered last: Files end with what was read of them\n\
     An answer ends with done STATUS: 0, or as an exit status, after refused NUMBER\n\
     NAME; 2 is no request. Between two answers the line of a File that has ended is\n\
     written, as of feed. No answer waits for a File. Nothing is rolled before a\n\
     keep, unless --keep says how many segments aren't, and nothing merged before a\n\
     merge, unless --merge says so.\n\
     \n\
     Example: flowvault shell flows --keep 24 < REQUESTS";

/// What `roll` does, in a line or two.
const ROLL_ABOUT: &str = "Sums the sealed segments of the archive in a folder, but the newest";

/// What help has below the arguments of `roll`.
const ROLL_HELP: &str = "All sealed segments but the newest KEEP become one file of sums, and are\n\
     removed: their flows stay in totals, and are no longer written by flows. Writes\n\
     rolled K: how many they were, 0 where there are none.\n\
     \n\
     Example: flowvault roll flows 8";

/// What `merge` does, in a line or two.
const MERGE_ABOUT: &str =
    "Sums the rolled files of the archive in a folder over wide\nintervals, but the newest";

/// What help has below the arguments of `merge`.
const MERGE_HELP: &str = "All rolled files but the newest KEEP become one file of sums over wide\n\
     intervals, and are removed. Writes merged K: how many they were, 0 where there\n\
     are none. These sums have no peaks within a wide interval, a day unless create\n\
     was given --wide, and no percentiles of shorter ones, which a terminal on\n\
     standard error is shown.\n\
     \n\
     Example: flowvault merge flows 8";

/// What `explain` does, in a line or two.
const EXPLAIN_ABOUT: &str = "Says what a refusal means, what usually causes it, and what to do";

/// What help has below the arguments of `explain`.
const EXPLAIN_HELP: &str =
    "A refusal is written to standard error as 'flowvault: NUMBER NAME ..'. A\n\
     number that no refusal has is a wrong command line: status 2.\n\
     \n\
     Example: flowvault explain 16";

/// Which words a command over several archives takes.
const FOLDERS: &str = "Folders of archives; then FROM and TO, where no moment is given";

/// What `--each` asks for.
const EACH: &str = "Lines of each archive, with its number first";

/// What `--csv` asks for.
const CSV: &str = "As CSV: a line of names first";

/// What `--files` asks for.
const FILES: &str = "List the archive's files too, each of which is read";

/// What `--warn` asks for of `measure`.
const MEASURE_WARN: &str = "Says on standard error which records the File lacks";

/// What `--warn` asks for.
const WARN: &str = "Says on standard error where FILEs stop, what they lack";

/// What `--datagrams` asks for.
const DATAGRAMS: &str = "Each read gives one message: others are passed over";

/// What `--end-on` asks for.
const END_ON: &str = "Ends between two messages once this file is there";

/// What `--merge` asks for.
const MERGE: &str = "Newest rolled files not merged: 0 to 4294967295 [all]";

/// What `--json` asks for.
const JSON: &str = "As JSON, an object a line";

/// What `--utc` asks for.
const UTC: &str = "Times as dates of UTC: 2026-11-25T06:00:00Z";

/// What `--since` asks for.
const SINCE: &str = "In place of FROM: a day or minute of UTC, 1d, 6h, now";

/// What `--until` asks for.
const UNTIL: &str = "In place of TO, likewise [no end]";

/// What help has below the commands.
const PROGRAM_HELP: &str = "Examples: flowvault measure 300 < FILE\n\
     \x20         flowvault create flows 300 && flowvault check flows\n\
     \n\
     A refusal is written to standard error as 'flowvault: NUMBER NAME ..'.\n\
     Exit status: 0 done, 1 input refused, 2 wrong command line,\n\
     3 reading, writing or the device failed, 4 no memory, 5 archive damaged";

/// An argument that has to be there, once.
fn needed<'a>(alloc: Global, id: &'a str, help: &'a str) -> Arg<'a>
    ensures rule { rule_of result ≡ needed id.now }
    ensures own { result.global ≡ false }
{
    Arg::new(alloc, id)
        .required(true)
        .action(ArgAction::Set)
        .help(help)
}

/// An argument that may be there, any number of times.
fn any_number<'a>(alloc: Global, id: &'a str, help: &'a str) -> Arg<'a>
    ensures rule { rule_of result ≡ any_number id.now }
    ensures own { result.global ≡ false }
{
    Arg::new(alloc, id).action(ArgAction::Append).help(help)
}

/// An argument that has to be there, and may be there again.
fn several<'a>(alloc: Global, id: &'a str, help: &'a str) -> Arg<'a>
    ensures rule { rule_of result ≡ several id.now }
    ensures own { result.global ≡ false }
{
    any_number(alloc, id, help).required(true)
}

/// An argument that may be there, once.
fn optional<'a>(alloc: Global, id: &'a str, help: &'a str) -> Arg<'a>
    ensures rule { rule_of result ≡ optional id.now }
    ensures own { result.global ≡ false }
{
    Arg::new(alloc, id).action(ArgAction::Set).help(help)
}

/// An option with a value.
pub(crate) fn option<'a>(alloc: Global, id: &'a str, name: &'a str, help: &'a str) -> Arg<'a>
    ensures rule { rule_of result ≡ option id.now name.now }
    ensures own { result.global ≡ false }
{
    Arg::new(alloc, id)
        .long(name)
        .action(ArgAction::Set)
        .help(help)
}

/// An option without a value.
fn flag<'a>(alloc: Global, name: &'a str, help: &'a str) -> Arg<'a>
    ensures rule { rule_of result ≡ flag name.now }
    ensures own { result.global ≡ false }
{
    Arg::new(alloc, name)
        .long(name)
        .action(ArgAction::SetTrue)
        .help(help)
}

/// The width of the intervals.
fn width_argument<'a>(alloc: Global) -> Arg<'a>
    ensures rule { rule_of result ≡ width_rule }
    ensures own { result.global ≡ false }
{
    needed(
        alloc,
        "WIDTH",
        "Interval width in seconds: digits alone, 1 to 86400",
    )
}

/// The folder of an archive.
pub(crate) fn folder_argument<'a>(alloc: Global) -> Arg<'a>
    ensures rule { rule_of result ≡ folder_rule }
    ensures own { result.global ≡ false }
{
    needed(alloc, "DIR", "Folder of the archive")
}

/// The moment from which a span is asked about.
fn since_argument<'a>(alloc: Global) -> Arg<'a>
    ensures rule { rule_of result ≡ since_rule }
    ensures own { result.global ≡ false }
{
    option(alloc, "SINCE", "since", SINCE)
}

/// The moment before which it is.
fn until_argument<'a>(alloc: Global) -> Arg<'a>
    ensures rule { rule_of result ≡ until_rule }
    ensures own { result.global ≡ false }
{
    option(alloc, "UNTIL", "until", UNTIL)
}

/// A command without arguments, with its help.
pub(crate) fn titled<'a>(alloc: Global, name: &'a str, about: &'a str, help: &'a str) -> Command<'a>
    ensures shape { shape_of result ≡ new_shape name.now }
    ensures own { (fields_of result).has_globals ≡ false }
{
    Command::new(alloc, name).about(about).after_help(help)
}

/// A command that takes three arguments more, none of which is global.
pub(crate) fn with_three<'a>(
    command: Command<'a>,
    first: Arg<'a>,
    second: Arg<'a>,
    third: Arg<'a>,
) -> Result<Command<'a>, AllocError>
    requires { (first.global ≡ false) × (second.global ≡ false) × (third.global ≡ false) }
    ensures shape { IfOk result (λ with. shape_of with ≡ record (shape_of command.entry) {
      rules = (shape_of command.entry).rules
          ++ rule_of first.entry ∷ rule_of second.entry ∷ rule_of third.entry ∷ [];
    }) }
    ensures own { IfOk result (λ with. (fields_of with).has_globals ≡ (fields_of command.entry).has_globals) }
{
    command.arg(first)?.arg(second)?.arg(third)
}

/// A command that takes the words of a format too.
fn in_formats<'a>(alloc: Global, command: Command<'a>) -> Result<Command<'a>, AllocError>
    ensures shape { IfOk result (λ with. shape_of with
        ≡ record (shape_of command.entry) { rules = (shape_of command.entry).rules ++ format_rules }) }
    ensures own { IfOk result (λ with. (fields_of with).has_globals ≡ (fields_of command.entry).has_globals) }
{
    with_three(
        command,
        flag(alloc, "csv", CSV),
        flag(alloc, "json", JSON),
        flag(alloc, "utc", UTC),
    )
}

/// The command `measure`, with its help.
fn measure_command<'a>(alloc: Global) -> Result<Command<'a>, AllocError>
    ensures shape { IfOk result (λ command. shape_of command ≡ measure_shape) }
    ensures own { IfOk result (λ command. (fields_of command).has_globals ≡ false) }
{
    let command = titled(alloc, "measure", MEASURE_ABOUT, MEASURE_HELP).arg(width_argument(alloc))?;
    in_formats(alloc, command)?.arg(flag(alloc, "warn", MEASURE_WARN))
}

/// The command `dump`, with its help.
fn dump_command<'a>(alloc: Global) -> Command<'a>
    ensures shape { shape_of result ≡ dump_shape }
    ensures own { (fields_of result).has_globals ≡ false }
{
    titled(alloc, "dump", DUMP_ABOUT, DUMP_HELP)
}

/// The command `inspect`, with its help.
fn inspect_command<'a>(alloc: Global) -> Result<Command<'a>, AllocError>
    ensures shape { IfOk result (λ command. shape_of command ≡ inspect_shape) }
    ensures own { IfOk result (λ command. (fields_of command).has_globals ≡ false) }
{
    let command = titled(alloc, "inspect", INSPECT_ABOUT, INSPECT_HELP).arg(any_number(
        alloc,
        "FILE",
        "Paths of IPFIX Files; - is standard input",
    ))?;
    in_formats(alloc, command)
}

/// The command `create` but for its last argument.
fn sized_command<'a>(alloc: Global) -> Result<Command<'a>, AllocError>
    ensures shape { IfOk result (λ command. shape_of command ≡ sized_shape) }
    ensures own { IfOk result (λ command. (fields_of command).has_globals ≡ false) }
{
    with_three(
        titled(alloc, "create", CREATE_ABOUT, CREATE_HELP),
        folder_argument(alloc),
        width_argument(alloc),
        option(
            alloc,
            "N",
            "limit",
            "Octets of a segment: 65535 to 16777216 [1048576]",
        ),
    )
}

/// The command `create`, with its help.
fn create_command<'a>(alloc: Global) -> Result<Command<'a>, AllocError>
    ensures shape { IfOk result (λ command. shape_of command ≡ create_shape) }
    ensures own { IfOk result (λ command. (fields_of command).has_globals ≡ false) }
{
    sized_command(alloc)?.arg(option(
        alloc,
        "SECONDS",
        "wide",
        "Wide width: a multiple of WIDTH up to 86400",
    ))
}

/// The command `check`, with its help.
fn check_command<'a>(alloc: Global) -> Result<Command<'a>, AllocError>
    ensures shape { IfOk result (λ command. shape_of command ≡ check_shape) }
    ensures own { IfOk result (λ command. (fields_of command).has_globals ≡ false) }
{
    titled(alloc, "check", CHECK_ABOUT, CHECK_HELP)
        .arg(several(alloc, "DIR", "Folders of archives"))?
        .arg(flag(alloc, "files", FILES))
}

/// A command that asks an archive about a span of starts by numbers, with its help.
fn span_command<'a>(
    alloc: Global,
    name: &'a str,
    about: &'a str,
    help: &'a str,
) -> Result<Command<'a>, AllocError>
    ensures shape { IfOk result (λ command. shape_of command ≡ span_shape name.now) }
    ensures own { IfOk result (λ command. (fields_of command).has_globals ≡ false) }
{
    with_three(
        titled(alloc, name, about, help),
        folder_argument(alloc),
        optional(
            alloc,
            "FROM",
            "Starts from it on: seconds since 1970-01-01 00:00 UTC",
        ),
        optional(alloc, "TO", "Starts before it: up to 4294967296"),
    )
}

/// The same, also by moments in their place.
fn moments_command<'a>(
    alloc: Global,
    name: &'a str,
    about: &'a str,
    help: &'a str,
) -> Result<Command<'a>, AllocError>
    ensures shape { IfOk result (λ command. shape_of command ≡ moments_shape name.now) }
    ensures own { IfOk result (λ command. (fields_of command).has_globals ≡ false) }
{
    span_command(alloc, name, about, help)?
        .arg(since_argument(alloc))?
        .arg(until_argument(alloc))
}

/// The command `records` with its help.
fn records_command<'a>(alloc: Global) -> Result<Command<'a>, AllocError>
    ensures shape { IfOk result (λ command. shape_of command ≡ records_shape) }
    ensures own { IfOk result (λ command. (fields_of command).has_globals ≡ false) }
{
    with_three(
        moments_command(alloc, "records", RECORDS_ABOUT, RECORDS_HELP)?,
        option(alloc, "FIELDS", "csv", FIELDS),
        flag(alloc, "json", JSON),
        flag(alloc, "utc", RECORDS_UTC),
    )
}

/// A command that asks the archives of folders about a span, with its help.
fn folders_command<'a>(
    alloc: Global,
    name: &'a str,
    about: &'a str,
    help: &'a str,
) -> Result<Command<'a>, AllocError>
    ensures shape { IfOk result (λ command. shape_of command ≡ folders_shape name.now) }
    ensures own { IfOk result (λ command. (fields_of command).has_globals ≡ false) }
{
    with_three(
        titled(alloc, name, about, help),
        several(alloc, "DIR", FOLDERS),
        since_argument(alloc),
        until_argument(alloc),
    )
}

/// The same, and takes a format.
fn asking_command<'a>(
    alloc: Global,
    name: &'a str,
    about: &'a str,
    help: &'a str,
) -> Result<Command<'a>, AllocError>
    ensures shape { IfOk result (λ command. shape_of command ≡ asking_shape name.now) }
    ensures own { IfOk result (λ command. (fields_of command).has_globals ≡ false) }
{
    in_formats(alloc, folders_command(alloc, name, about, help)?)
}

/// The command `totals`, with its help.
fn totals_command<'a>(alloc: Global) -> Result<Command<'a>, AllocError>
    ensures shape { IfOk result (λ command. shape_of command ≡ totals_shape) }
    ensures own { IfOk result (λ command. (fields_of command).has_globals ≡ false) }
{
    asking_command(alloc, "totals", TOTALS_ABOUT, TOTALS_HELP)?
        .arg(option(
            alloc,
            "WORKERS",
            "workers",
            "Threads that scan: 1 to 64 [as many as processors]",
        ))?
        .arg(flag(alloc, "each", EACH))
}

/// The command `feed` with its first arguments.
fn kept_command<'a>(alloc: Global) -> Result<Command<'a>, AllocError>
    ensures shape { IfOk result (λ command. shape_of command ≡ kept_shape) }
    ensures own { IfOk result (λ command. (fields_of command).has_globals ≡ false) }
{
    with_three(
        titled(alloc, "feed", FEED_ABOUT, FEED_HELP),
        folder_argument(alloc),
        several(
            alloc,
            "FILE",
            "Paths of 1 to 8 IPFIX Files; - is standard input",
        ),
        option(
            alloc,
            "KEEP",
            "keep",
            "Newest segments that aren't rolled: 0 to 4294967295 [8]",
        ),
    )
}

/// The same, and one more.
fn merging_command<'a>(alloc: Global) -> Result<Command<'a>, AllocError>
    ensures shape { IfOk result (λ command. shape_of command ≡ merging_shape) }
    ensures own { IfOk result (λ command. (fields_of command).has_globals ≡ false) }
{
    kept_command(alloc)?.arg(option(alloc, "LEFT", "merge", MERGE))
}

/// The command `feed` but for its very last arguments.
fn passing_command<'a>(alloc: Global) -> Result<Command<'a>, AllocError>
    ensures shape { IfOk result (λ command. shape_of command ≡ passing_shape) }
    ensures own { IfOk result (λ command. (fields_of command).has_globals ≡ false) }
{
    merging_command(alloc)?
        .arg(option(
            alloc,
            "COUNT",
            "from",
            "First messages of the one FILE that are passed over [0]",
        ))?
        .arg(flag(alloc, "warn", WARN))
}

/// The command `feed`, with its help.
fn feed_command<'a>(alloc: Global) -> Result<Command<'a>, AllocError>
    ensures shape { IfOk result (λ command. shape_of command ≡ feed_shape) }
    ensures own { IfOk result (λ command. (fields_of command).has_globals ≡ false) }
{
    passing_command(alloc)?
        .arg(flag(alloc, "datagrams", DATAGRAMS))?
        .arg(option(alloc, "PATH", "end-on", END_ON))
}

/// The command `shell`, with its help.
fn shell_command<'a>(alloc: Global) -> Result<Command<'a>, AllocError>
    ensures shape { IfOk result (λ command. shape_of command ≡ shell_shape) }
    ensures own { IfOk result (λ command. (fields_of command).has_globals ≡ false) }
{
    with_three(
        titled(alloc, "shell", SHELL_ABOUT, SHELL_HELP),
        folder_argument(alloc),
        option(
            alloc,
            "KEEP",
            "keep",
            "Newest segments that aren't rolled: 0 to 4294967295 [all]",
        ),
        option(alloc, "LEFT", "merge", MERGE),
    )
}

/// A command that sums files of an archive but the newest, with its help.
fn keep_command<'a>(
    alloc: Global,
    name: &'a str,
    about: &'a str,
    help: &'a str,
) -> Result<Command<'a>, AllocError>
    ensures shape { IfOk result (λ command. shape_of command ≡ keep_shape name.now) }
    ensures own { IfOk result (λ command. (fields_of command).has_globals ≡ false) }
{
    titled(alloc, name, about, help)
        .arg(folder_argument(alloc))?
        .arg(needed(
            alloc,
            "KEEP",
            "How many of the newest are left: 0 to 4294967295",
        ))
}

/// The command `explain`, with its help.
fn explain_command<'a>(alloc: Global) -> Result<Command<'a>, AllocError>
    ensures shape { IfOk result (λ command. shape_of command ≡ explain_shape) }
    ensures own { IfOk result (λ command. (fields_of command).has_globals ≡ false) }
{
    titled(alloc, "explain", EXPLAIN_ABOUT, EXPLAIN_HELP).arg(needed(
        alloc,
        "NUMBER",
        "Number of a refusal",
    ))
}

/// The program without its commands, with its help.
fn program<'a>(alloc: Global, version: &'a str) -> Command<'a>
    ensures { app_of result ≡ program }
{
    Command::new(alloc, "flowvault")
        .about("A crash-safe archive of IPFIX Files (RFC 5655)")
        .version(version)
        .after_help(PROGRAM_HELP)
        .subcommand_required(true)
}

/// The program with the commands that read standard input.
fn with_streams<'a>(alloc: Global, version: &'a str) -> Result<Command<'a>, AllocError>
    ensures { IfOk result (λ command. app_of command ≡ with_streams) }
{
    program(alloc, version)
        .subcommand(measure_command(alloc)?)?
        .subcommand(dump_command(alloc))?
        .subcommand(inspect_command(alloc)?)
}

/// The program with these, and those that make or open an archive and ask it nothing.
fn with_archives<'a>(alloc: Global, version: &'a str) -> Result<Command<'a>, AllocError>
    ensures { IfOk result (λ command. app_of command ≡ with_archives) }
{
    with_streams(alloc, version)?
        .subcommand(create_command(alloc)?)?
        .subcommand(check_command(alloc)?)
}

/// The program with these, and those that ask an archive.
pub(crate) fn with_queries<'a>(alloc: Global, version: &'a str) -> Result<Command<'a>, AllocError>
    ensures { IfOk result (λ command. app_of command ≡ with_queries) }
{
    with_archives(alloc, version)?
        .subcommand(totals_command(alloc)?)?
        .subcommand(asking_command(alloc, "flows", FLOWS_ABOUT, FLOWS_HELP)?)?
        .subcommand(records_command(alloc)?)
}

/// The program with these, and those that take Files into an archive.
fn with_feeding<'a>(alloc: Global, version: &'a str) -> Result<Command<'a>, AllocError>
    ensures { IfOk result (λ command. app_of command ≡ with_feeding) }
{
    with_exports(alloc, version)?
        .subcommand(feed_command(alloc)?)?
        .subcommand(shell_command(alloc)?)
}

/// The program with these, and those that roll the files of an archive.
fn with_rolling<'a>(alloc: Global, version: &'a str) -> Result<Command<'a>, AllocError>
    ensures { IfOk result (λ command. app_of command ≡ with_rolling) }
{
    with_feeding(alloc, version)?
        .subcommand(keep_command(alloc, "roll", ROLL_ABOUT, ROLL_HELP)?)?
        .subcommand(keep_command(alloc, "merge", MERGE_ABOUT, MERGE_HELP)?)
}

/// The command line, with its commands and their help.
pub(crate) fn command_line<'a>(alloc: Global, version: &'a str) -> Result<Command<'a>, AllocError>
    ensures { IfOk result (λ command. app_of command ≡ flowvault) }
{
    with_rolling(alloc, version)?.subcommand(explain_command(alloc)?)
}
