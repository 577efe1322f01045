//! The commands over an archive.

ghost use Rattle.std.specs.Prelude.{◌≡◌, ◌≢◌, ◌≤◌, ℕ, true, false, OnOk, OnErr, IfOk, IfErr, length};
ghost use Rattle.std.specs.Io.KnownBytes.{Keeps};
ghost use Rattle.flow_commands.specs.ArchiveFiles.{AreListings};
ghost use Rattle.flow_commands.specs.Asking.{Writes, WritesOrNot, WritesUpTo};
ghost use Rattle.flow_commands.specs.declared.archive_refusal.ArchiveRefusal.TheVariants as refusal;
ghost use Rattle.flow_commands.specs.declared.folder_fault.FolderFault.TheVariants as fault;
ghost use Rattle.flow_commands.specs.Feeding.{FeedsIn, FeedsLines, KeepsOrFeeds};
ghost use Rattle.flow_program.specs.Arguments.{depends_on_now, has_input, span_at};
ghost use Rattle.flow_program.specs.Run.{AreFlowsAsked, AreRecordsAsked, AreRowsAsked, AskEnds, CheckEnds, CreateEnds};
ghost use Rattle.flow_program.specs.Run.{FeedEnds, JobEnds, input_given, ListEnds, ShellEnds};

use crate::arguments::{EndName, FileNames, FolderName, MomentSpan};
use crate::telling::{DONE, tell_of_archive};
use flow_columns::LineFormat;
use flow_commands::{
    ArchiveRefusal, FeedPlan, FolderFault, NewArchive, Progress, StartSpan, Workers,
    check_files_in, check_in, create_in, feed_in, flows_in, roll_in, totals_in, warn_of_wide,
};
use flow_disk::Disk;
use flow_folder::{FirstFault, FolderDisk, Lockable};
use flow_manifest::JobKind;
use flow_records::records_in;
use flow_report::Format;
use flow_shell::shell_in;
use std::alloc::AllocGlobal;
use std::fs::Files;
use std::io::{Empty, Read, Write};
use std::os::unix::fs::FileExt;
use std::sync::Wait;
use std::thread::Threads;
use std::time::{Clock, SystemTime};

/// Runs `create`.
pub(crate) fn run_create<
    'a,
    H: Files + AllocGlobal + Clone + Drop + Wait,
    E: Write,
    P: Write + Drop,
>(
    rt: &'a H,
    folder: &FolderName<'a>,
    plan: &NewArchive,
    errors: &mut E,
    progress: &'a Progress<P>,
) -> u8
where
    H::File: FileExt + Lockable,
    ensures runs { CreateEnds ⟦<FolderDisk<'a, H> as Disk>⟧ plan.now (E.contents errors.old) (E.contents errors.new)
        result }
    ensures quiet { result ≡ 0 → Keeps (E.contents errors.old) (E.contents errors.new) }
    ensures status { result ≤ 5 }
    ensures other { result ≢ 2 }
{
    match create_in(rt, folder.path, progress.first_fault(), plan) {
        Ok(()) => {
            warn_of_wide(rt, progress);
            DONE
        }
        Err(refusal) => tell_of_archive(rt.alloc(), errors, &refusal),
    }
}

/// Runs `check`.
pub(crate) fn run_check<H: Files + AllocGlobal + Clone + Drop, W: Write, E: Write>(
    rt: &H,
    folder: &FolderName<'_>,
    first_fault: &FirstFault,
    output: &mut W,
    errors: &mut E,
) -> u8
where
    H::File: FileExt + Lockable,
    ensures runs { CheckEnds (W.contents output.old) (W.contents output.new) (E.contents errors.old)
        (E.contents errors.new) result }
    ensures quiet { result ≡ 0 → Keeps (E.contents errors.old) (E.contents errors.new) }
    ensures status { result ≤ 5 }
    ensures other { result ≢ 2 }
{
    match check_in(rt, folder.path, first_fault, output) {
        Ok(()) => DONE,
        Err(refusal) => tell_of_archive(rt.alloc(), errors, &refusal),
    }
}

/// Runs `check --files`.
pub(crate) fn run_check_files<H: Files + AllocGlobal + Clone + Drop, W: Write, E: Write>(
    rt: &H,
    folder: &FolderName<'_>,
    first_fault: &FirstFault,
    output: &mut W,
    errors: &mut E,
) -> u8
where
    H::File: FileExt + Lockable,
    ensures runs { AskEnds AreListings (W.contents output.old) (W.contents output.new) (E.contents errors.old)
        (E.contents errors.new) result }
    ensures quiet { result ≡ 0 → Keeps (E.contents errors.old) (E.contents errors.new) }
    ensures status { result ≤ 5 }
    ensures other { result ≢ 2 }
{
    match check_files_in(rt, folder.path, first_fault, output) {
        Ok(()) => DONE,
        Err(refusal) => tell_of_archive(rt.alloc(), errors, &refusal),
    }
}

/// The second that it is now, since 1970-01-01 00:00 UTC.
fn second_of_now<H: Clock>(rt: &H) -> Result<u64, ArchiveRefusal>
    ensures { IfErr result (λ e. e ≡ refusal.Folder fault.NoClock) }
{
    let no_clock = ArchiveRefusal::Folder(FolderFault::NoClock);
    let Ok(now) = SystemTime::now(rt) else {
        return Err(no_clock);
    };
    match now.duration_since(SystemTime::UNIX_EPOCH) {
        Ok(since) => Ok(since.as_secs()),
        Err(_) => Err(no_clock),
    }
}

/// The seconds of a span; the clock is read only where one of them depends on it.
pub(crate) fn seconds_of<H: Clock>(rt: &H, span: MomentSpan) -> Result<StartSpan, ArchiveRefusal>
    ensures found { IfOk result (λ seconds. (now : ℕ) × (seconds ≡ span_at now span)) }
    ensures refused { IfErr result (λ e. e ≡ refusal.Folder fault.NoClock) }
    ensures relative { OnErr result (depends_on_now span ≡ true) }
{
    let now = if span.is_relative() {
        second_of_now(rt)?
    } else {
        0
    };
    Ok(span.at(now))
}

/// Writes the lines of `totals`.
fn write_totals<H: Files + AllocGlobal + Clock + Clone + Drop + Threads + Send + Sync, W: Write>(
    rt: &H,
    folder: &FolderName<'_>,
    first_fault: &FirstFault,
    span: MomentSpan,
    workers: Option<&Workers>,
    format: Format,
    output: &mut W,
) -> Result<(), ArchiveRefusal>
where
    H::File: FileExt + Lockable + Send + Sync,
    H::Dir: Send + Sync,
    ensures written { OnOk result (Writes (AreRowsAsked format span) (W.contents output.old)
        (W.contents output.new)) }
    ensures kept { IfErr result
        (λ e. WritesOrNot (AreRowsAsked format span) e (W.contents output.old) (W.contents output.new)) }
{
    let span = seconds_of(rt, span)?;
    totals_in(rt, folder.path, first_fault, &span, workers, format, output)
}

/// Runs `totals`.
pub(crate) fn run_totals<
    H: Files + AllocGlobal + Clock + Clone + Drop + Threads + Send + Sync,
    W: Write,
    E: Write,
>(
    rt: &H,
    folder: &FolderName<'_>,
    first_fault: &FirstFault,
    span: MomentSpan,
    workers: Option<&Workers>,
    format: Format,
    output: &mut W,
    errors: &mut E,
) -> u8
where
    H::File: FileExt + Lockable + Send + Sync,
    H::Dir: Send + Sync,
    ensures runs { AskEnds (AreRowsAsked format span) (W.contents output.old) (W.contents output.new)
        (E.contents errors.old) (E.contents errors.new) result }
    ensures quiet { result ≡ 0 → Keeps (E.contents errors.old) (E.contents errors.new) }
    ensures status { result ≤ 5 }
    ensures other { result ≢ 2 }
{
    match write_totals(rt, folder, first_fault, span, workers, format, output) {
        Ok(()) => DONE,
        Err(refusal) => tell_of_archive(rt.alloc(), errors, &refusal),
    }
}

/// Writes the lines of `flows`.
fn write_flows<H: Files + AllocGlobal + Clock + Clone + Drop, W: Write>(
    rt: &H,
    folder: &FolderName<'_>,
    first_fault: &FirstFault,
    span: MomentSpan,
    format: Format,
    output: &mut W,
) -> Result<(), ArchiveRefusal>
where
    H::File: FileExt + Lockable,
    ensures written { OnOk result (Writes (AreFlowsAsked format span) (W.contents output.old)
        (W.contents output.new)) }
    ensures kept { IfErr result
        (λ e. WritesUpTo (AreFlowsAsked format span) e (W.contents output.old) (W.contents output.new)) }
{
    let span = seconds_of(rt, span)?;
    flows_in(rt, folder.path, first_fault, &span, format, output)
}

/// Runs `flows`.
pub(crate) fn run_flows<H: Files + AllocGlobal + Clock + Clone + Drop, W: Write, E: Write>(
    rt: &H,
    folder: &FolderName<'_>,
    first_fault: &FirstFault,
    span: MomentSpan,
    format: Format,
    output: &mut W,
    errors: &mut E,
) -> u8
where
    H::File: FileExt + Lockable,
    ensures runs { ListEnds (AreFlowsAsked format span) (W.contents output.old) (W.contents output.new)
        (E.contents errors.old) (E.contents errors.new) result }
    ensures quiet { result ≡ 0 → Keeps (E.contents errors.old) (E.contents errors.new) }
    ensures status { result ≤ 5 }
    ensures other { result ≢ 2 }
{
    match write_flows(rt, folder, first_fault, span, format, output) {
        Ok(()) => DONE,
        Err(refusal) => tell_of_archive(rt.alloc(), errors, &refusal),
    }
}

/// Writes the lines of `records`.
fn write_records<H: Files + AllocGlobal + Clock + Clone + Drop, W: Write>(
    rt: &H,
    folder: &FolderName<'_>,
    first_fault: &FirstFault,
    span: MomentSpan,
    format: &LineFormat<'_>,
    output: &mut W,
) -> Result<(), ArchiveRefusal>
where
    H::File: FileExt + Lockable,
    ensures written { OnOk result (Writes (AreRecordsAsked format.now span) (W.contents output.old)
        (W.contents output.new)) }
    ensures kept { IfErr result
        (λ e. WritesUpTo (AreRecordsAsked format.now span) e (W.contents output.old) (W.contents output.new)) }
{
    let span = seconds_of(rt, span)?;
    records_in(rt, folder.path, first_fault, &span, format, output)
}

/// Runs `records`.
pub(crate) fn run_records<H: Files + AllocGlobal + Clock + Clone + Drop, W: Write, E: Write>(
    rt: &H,
    folder: &FolderName<'_>,
    first_fault: &FirstFault,
    span: MomentSpan,
    format: &LineFormat<'_>,
    output: &mut W,
    errors: &mut E,
) -> u8
where
    H::File: FileExt + Lockable,
    ensures runs { ListEnds (AreRecordsAsked format.now span) (W.contents output.old) (W.contents output.new)
        (E.contents errors.old) (E.contents errors.new) result }
    ensures quiet { result ≡ 0 → Keeps (E.contents errors.old) (E.contents errors.new) }
    ensures status { result ≤ 5 }
    ensures other { result ≢ 2 }
{
    match write_records(rt, folder, first_fault, span, format, output) {
        Ok(()) => DONE,
        Err(refusal) => tell_of_archive(rt.alloc(), errors, &refusal),
    }
}

/// Feeds Files; standard input is one of them, or it isn't read.
fn feed_files<
    'a,
    H: Files + AllocGlobal + Clock + Clone + Drop + Threads + Wait + Send + Sync,
    R: Read,
    W: Write,
    P: Write + Drop + Send,
>(
    rt: &'a H,
    folder: &FolderName<'a>,
    plan: FeedPlan,
    end_on: &EndName<'_>,
    files: &FileNames<'_>,
    input: &mut R,
    output: &mut W,
    progress: &'a Progress<P>,
) -> Result<u8, ArchiveRefusal>
where
    H::File: FileExt + Lockable + Send + Sync,
    H::Dir: Send + Sync,
    ensures input { has_input files.now ≡ false → Keeps (R.remaining input.old) (R.remaining input.new) }
    ensures asked { FeedsIn ⟦<FolderDisk<'a, H> as Disk>⟧ H.File.remaining plan
        (input_given files.now (R.remaining input.old)) files.now (W.contents output.old) (W.contents output.new)
        result }
    ensures written { IfOk result (λ status. FeedsLines (length files.now) status (W.contents output.old)
        (W.contents output.new)) }
    ensures kept { IfErr result (λ e. KeepsOrFeeds (length files.now) e (W.contents output.old)
        (W.contents output.new)) }
    ensures most { IfOk result (λ status. status ≤ 5) }
    ensures other { IfOk result (λ status. status ≢ 2) }
{
    let folder = folder.path;
    let paths = files.paths.as_slice();
    let end_on = end_on.path.unwrap_or("");
    if files.has_input() {
        return feed_in(
            rt,
            folder,
            plan,
            end_on,
            paths,
            Some(input),
            output,
            progress,
        );
    }
    let none: Option<&mut Empty> = None;
    feed_in(rt, folder, plan, end_on, paths, none, output, progress)
}

/// Runs `feed`.
pub(crate) fn run_feed<
    'a,
    H: Files + AllocGlobal + Clock + Clone + Drop + Threads + Wait + Send + Sync,
    R: Read,
    W: Write,
    E: Write,
    P: Write + Drop + Send,
>(
    rt: &'a H,
    folder: &FolderName<'a>,
    plan: FeedPlan,
    end_on: &EndName<'_>,
    files: &FileNames<'_>,
    input: &mut R,
    output: &mut W,
    errors: &mut E,
    progress: &'a Progress<P>,
) -> u8
where
    H::File: FileExt + Lockable + Send + Sync,
    H::Dir: Send + Sync,
    ensures input { has_input files.now ≡ false → Keeps (R.remaining input.old) (R.remaining input.new) }
    ensures runs { FeedEnds ⟦<FolderDisk<'a, H> as Disk>⟧ H.File.remaining plan files.now (R.remaining input.old)
        (W.contents output.old) (W.contents output.new) (E.contents errors.old) (E.contents errors.new) result }
    ensures quiet { result ≡ 0 → Keeps (E.contents errors.old) (E.contents errors.new) }
    ensures status { result ≤ 5 }
    ensures other { result ≢ 2 }
{
    match feed_files(rt, folder, plan, end_on, files, input, output, progress) {
        Ok(status) => status,
        Err(refusal) => tell_of_archive(rt.alloc(), errors, &refusal),
    }
}

/// Runs `shell`.
pub(crate) fn run_shell<
    'a,
    H: Files + AllocGlobal + Clone + Drop + Threads + Wait + Send + Sync,
    R: Read,
    W: Write,
    E: Write,
>(
    rt: &'a H,
    folder: &FolderName<'a>,
    first_fault: &'a FirstFault,
    keep: u32,
    merge: Option<u32>,
    input: &mut R,
    output: &mut W,
    errors: &mut E,
) -> u8
where
    H::File: FileExt + Lockable + Send + Sync,
    H::Dir: Send + Sync,
    ensures runs { ShellEnds ⟦<FolderDisk<'a, H> as Disk>⟧ keep merge (R.remaining input.old) (W.contents output.old)
        (W.contents output.new) (E.contents errors.old) (E.contents errors.new) result }
    ensures quiet { result ≡ 0 → Keeps (E.contents errors.old) (E.contents errors.new) }
    ensures status { result ≤ 5 }
    ensures other { result ≢ 2 }
{
    match shell_in(rt, folder.path, first_fault, keep, merge, input, output) {
        Ok(status) => status,
        Err(refusal) => tell_of_archive(rt.alloc(), errors, &refusal),
    }
}

/// Runs `roll` or `merge`.
pub(crate) fn run_job<
    'a,
    H: Files + AllocGlobal + Clone + Drop + Wait,
    W: Write,
    E: Write,
    P: Write + Drop,
>(
    rt: &'a H,
    folder: &FolderName<'a>,
    kind: JobKind,
    keep: u32,
    output: &mut W,
    errors: &mut E,
    progress: &'a Progress<P>,
) -> u8
where
    H::File: FileExt + Lockable,
    ensures runs { JobEnds ⟦<FolderDisk<'a, H> as Disk>⟧ kind keep (W.contents output.old) (W.contents output.new)
        (E.contents errors.old) (E.contents errors.new) result }
    ensures quiet { result ≡ 0 → Keeps (E.contents errors.old) (E.contents errors.new) }
    ensures status { result ≤ 5 }
    ensures other { result ≢ 2 }
{
    match roll_in(rt, folder.path, progress.first_fault(), kind, keep, output) {
        Ok(()) => {
            if let JobKind::Merge = kind {
                warn_of_wide(rt, progress);
            }
            DONE
        }
        Err(refusal) => tell_of_archive(rt.alloc(), errors, &refusal),
    }
}
