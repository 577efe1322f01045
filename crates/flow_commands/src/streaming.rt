//! One File is taken into an archive that threads share.

ghost use Rattle.std.specs.Prelude.{◌≡◌, ◌≢◌};
ghost use Rattle.flow_commands.specs.Feeding.{unopened, IsFedBy, IsInputTaken, IsInputTakenUntil, IsPathFed, IsStreamed};
ghost use Rattle.flow_commands.specs.Feeding.{IsStreamedIf, IsStreamedUntil};
ghost use Rattle.flow_feed.specs.declared.batch.FeedStop.{FeedStop as WhyStopped};
ghost use Rattle.flow_feed.specs.declared.batch.FeedStop.TheVariants as stop;
ghost use Rattle.std.specs.IoError.{error_kind};
ghost use Rattle.std.specs.declared.io.ErrorKind.TheVariants as io_kind;

use crate::plan::{InputKind, InputPlan};
use crate::progress::{EndWatch, Progress, Watched};
use crate::warner::Warner;
use crate::warning::{LossyFile, NamedFile, PassedFile, RefusedFile, UnopenedFile, WHOLE};
use flow_codec::Losses;
use flow_disk::Disk;
use flow_feed::{
    Collected, Counter, Fed, FeedStop, FeedWatch, RefusedDatagrams, SharedAppender, feed_datagrams,
    feed_datagrams_until, feed_shared, feed_shared_until,
};
use flow_roller::{Bell, Keeping};
use flow_shared::{Naming, SharedArchive};
use std::alloc::{AllocGlobal, Global};
use std::fs::{File, Files};
use std::io;
use std::io::{ErrorKind, Read, Write};
use std::sync::Wait;
use std::time::Clock;

/// How far an input was taken in, and what its messages show of records that aren't read.
#[derive(Clone, Copy)]
struct Streamed {
    collected: Collected,
    losses: Losses,
}

/// Takes what an input gives into an archive that threads share, by its kind.
pub fn take_input<D: Disk, J: Naming, W: Wait, C: Counter + Drop, R: Read>(
    appender: &mut SharedAppender<'_, D, J, W, C>,
    alloc: Global,
    input: &mut R,
    kind: InputKind,
) -> Collected
    ensures { IsInputTaken D.Disk J.opening kind appender.old appender.new (R.remaining input.old) result }
{
    match kind {
        InputKind::File(passed) => Collected {
            fed: feed_shared(appender, alloc, input, passed),
            refused: RefusedDatagrams::none(),
        },
        InputKind::Datagrams => feed_datagrams(appender, alloc, input, false),
        InputKind::Socket => feed_datagrams(appender, alloc, input, true),
    }
}

/// Takes what `input` gives into an archive that threads share, by its kind, counts there what isn't read, shows its
/// progress, and rings the bell for each `span` octets that are read.
fn stream<
    H: AllocGlobal + Wait,
    D: Disk,
    J: Naming,
    K: Keeping,
    C: Counter + Drop,
    R: Read,
    P: Write + Drop,
>(
    rt: &H,
    shared: &SharedArchive<D, J, H>,
    bell: &Bell<K>,
    span: u32,
    counter: C,
    input: &mut R,
    progress: &Progress<P>,
    kind: InputKind,
) -> Streamed
    ensures { IsStreamed D.Disk J.opening kind (R.remaining input.old) result.collected }
{
    let mut input = Watched::new(rt, input, progress, bell, span);
    let mut appender = SharedAppender::new(rt, shared, counter);
    let collected = take_input(&mut appender, rt.alloc(), &mut input, kind);
    let losses = appender.losses();
    Streamed { collected, losses }
}

/// Takes what an input gives into an archive that threads share, by its kind, up to where feeding is asked to end.
fn take_until<D: Disk, J: Naming, W: Wait, C: Counter + Drop, R: Read, F: FeedWatch>(
    appender: &mut SharedAppender<'_, D, J, W, C>,
    alloc: Global,
    input: &mut R,
    kind: InputKind,
    watch: &mut F,
) -> Collected
    ensures { IsInputTakenUntil D.Disk J.opening (F.asked watch.new) kind appender.old appender.new
        (R.remaining input.old) (R.remaining input.new) result }
{
    match kind {
        InputKind::File(passed) => Collected {
            fed: feed_shared_until(appender, alloc, input, passed, watch),
            refused: RefusedDatagrams::none(),
        },
        InputKind::Datagrams => feed_datagrams_until(appender, alloc, input, false, watch),
        InputKind::Socket => feed_datagrams_until(appender, alloc, input, true, watch),
    }
}

/// The same as `stream`, up to where a file at the path `end_on` says that feeding is to end.
fn stream_until<
    H: Files + AllocGlobal + Clock + Wait,
    D: Disk,
    J: Naming,
    K: Keeping,
    C: Counter + Drop,
    R: Read,
    P: Write + Drop,
>(
    rt: &H,
    shared: &SharedArchive<D, J, H>,
    bell: &Bell<K>,
    span: u32,
    counter: C,
    input: &mut R,
    progress: &Progress<P>,
    kind: InputKind,
    end_on: &str,
) -> Streamed
    ensures { IsStreamedUntil D.Disk J.opening kind (R.remaining input.old) (R.remaining input.new)
        result.collected }
{
    let mut watch = EndWatch::new(rt, progress, bell, span, end_on);
    let mut appender = SharedAppender::new(rt, shared, counter);
    let collected = take_until(&mut appender, rt.alloc(), input, kind, &mut watch);
    let losses = appender.losses();
    Streamed { collected, losses }
}

/// Takes what `input` gives into an archive that threads share, as is planned.
fn stream_by<
    H: Files + AllocGlobal + Clock + Wait,
    D: Disk,
    J: Naming,
    K: Keeping,
    C: Counter + Drop,
    R: Read,
    P: Write + Drop,
>(
    rt: &H,
    shared: &SharedArchive<D, J, H>,
    bell: &Bell<K>,
    span: u32,
    counter: C,
    input: &mut R,
    progress: &Progress<P>,
    plan: InputPlan,
    end_on: &str,
) -> Streamed
    ensures { IsStreamedIf D.Disk J.opening plan.ends plan.kind (R.remaining input.old) (R.remaining input.new)
        result.collected }
{
    let kind = plan.kind;
    if plan.ends {
        return stream_until(
            rt, shared, bell, span, counter, input, progress, kind, end_on,
        );
    }
    stream(rt, shared, bell, span, counter, input, progress, kind)
}

/// Takes what `input` gives into an archive that threads share, as is planned, as the File of this number and path, shows
/// its progress, and rings the bell for each `span` octets that are read. It warns of records that its messages show not
/// to be read, and of datagrams that aren't accepted, while it is read and after its end.
pub(crate) fn feed_named<
    H: Files + AllocGlobal + Clock + Wait,
    D: Disk,
    J: Naming,
    K: Keeping,
    R: Read,
    P: Write + Drop,
>(
    rt: &H,
    shared: &SharedArchive<D, J, H>,
    bell: &Bell<K>,
    span: u32,
    number: u64,
    path: &str,
    input: &mut R,
    progress: &Progress<P>,
    plan: InputPlan,
    end_on: &str,
) -> Fed
    ensures { IsFedBy D.Disk J.opening plan (R.remaining input.old) (R.remaining input.new) result }
{
    let file = NamedFile { number, path };
    let warner = Warner::new(rt, progress, file);
    let streamed = stream_by(
        rt, shared, bell, span, warner, input, progress, plan, end_on,
    );
    let collected = streamed.collected;
    if let Some(line) = RefusedFile::of(file, WHOLE, collected.refused) {
        progress.say(rt, &line);
    }
    if let Some(line) = LossyFile::of(file, WHOLE, streamed.losses) {
        progress.say(rt, &line);
    }
    if let Some(line) = PassedFile::of(number, path, collected.fed, plan.kind) {
        progress.tell(rt, &line);
    }
    collected.fed
}

/// What comes of a File that can't be opened: 11 where memory is refused, else 31.
pub fn unopened(error: &io::Error) -> Fed
    ensures memory { error_kind error.now ≡ io_kind.OutOfMemory → result ≡ unopened stop.OutOfMemory }
    ensures other { error_kind error.now ≢ io_kind.OutOfMemory → result ≡ unopened stop.Unopened }
    ensures some { (why : WhyStopped) × (result ≡ unopened why) }
{
    let stop = if error.kind() == ErrorKind::OutOfMemory {
        FeedStop::OutOfMemory
    } else {
        FeedStop::Unopened
    };
    Fed {
        messages: 0,
        stop: Some(stop),
    }
}

/// Warns of the File of this number that it can't be opened, and why.
fn warn_of_unopened<H: Wait, P: Write + Drop>(
    rt: &H,
    number: u64,
    path: &str,
    error: &io::Error,
    progress: &Progress<P>,
) {
    let line = UnopenedFile {
        number,
        path,
        error,
    };
    progress.tell(rt, &line);
}

/// The same of the File of this number at a path.
pub(crate) fn feed_path<
    H: Files + AllocGlobal + Clock + Clone + Drop + Wait,
    D: Disk,
    J: Naming,
    K: Keeping,
    P: Write + Drop,
>(
    rt: &H,
    shared: &SharedArchive<D, J, H>,
    bell: &Bell<K>,
    span: u32,
    number: u64,
    path: &str,
    progress: &Progress<P>,
    plan: InputPlan,
    end_on: &str,
) -> Fed
    ensures { IsPathFed D.Disk H.File.remaining J.opening plan result }
{
    match File::open(rt, path) {
        Ok(file) => {
            let mut file = file;
            feed_named(
                rt, shared, bell, span, number, path, &mut file, progress, plan, end_on,
            )
        }
        Err(error) => {
            warn_of_unopened(rt, number, path, &error, progress);
            unopened(&error)
        }
    }
}
