//! One run of the program: words and an input in, lines and a status out.

ghost use Rattle.std.specs.Prelude.{◌≡◌, ◌≢◌, ◌≤◌, map};
ghost use Rattle.std.specs.Io.KnownBytes.{Keeps};
ghost use Rattle.flow_program.specs.Run.{DumpEnds, InspectInputEnds, MeasureEnds, Runs, IsAnswered, IsShown};

use crate::archives::{
    run_check, run_check_files, run_create, run_feed, run_flows, run_job, run_records, run_shell,
    run_totals,
};
use crate::checks::run_folder_checks;
use crate::explaining::Explanation;
use crate::exporting::{run_export, run_export_by_time, run_templates};
use crate::inspecting::run_inspect_files;
use crate::refusing::refuse;
use crate::request::{Request, parse};
use crate::several::{run_several_folders, totals_wanted};
use crate::telling::{DONE, tell, write_octets};
use flow_commands::{Progress, tell_fault, warn_of_input};
use flow_disk::Disk;
use flow_folder::{FolderDisk, Lockable};
use flow_folder_view::FolderView;
use flow_inspect::inspect;
use flow_manifest::JobKind;
use flow_report::{Format, Width, dump, measure};
use flow_several::Wanted;
use std::alloc::{AllocGlobal, Global};
use std::convert::AsStr;
use std::fs::Files;
use std::io::{Read, Write};
use std::os::unix::fs::FileExt;
use std::sync::Wait;
use std::thread::Threads;
use std::time::Clock;

/// Runs `measure`.
fn run_measure<H: AllocGlobal + Wait, R: Read, W: Write, E: Write, P: Write + Drop>(
    rt: &H,
    width: &Width,
    format: Format,
    warn: bool,
    input: &mut R,
    output: &mut W,
    errors: &mut E,
    progress: &Progress<P>,
) -> u8
    ensures runs { MeasureEnds format width.now (R.remaining input.old) (R.remaining input.new) (W.contents output.old)
        (W.contents output.new) (E.contents errors.old) (E.contents errors.new) result }
    ensures quiet { result ≡ 0 → Keeps (E.contents errors.old) (E.contents errors.new) }
    ensures status { result ≤ 5 }
    ensures other { result ≢ 2 }
{
    match measure(rt.alloc(), width, format, input, output) {
        Ok(losses) => {
            warn_of_input(rt, warn, losses, progress);
            DONE
        }
        Err(refusal) => tell(rt.alloc(), errors, &refusal),
    }
}

/// Runs `dump`.
fn run_dump<R: Read, W: Write, E: Write>(
    alloc: Global,
    input: &mut R,
    output: &mut W,
    errors: &mut E,
) -> u8
    ensures runs { DumpEnds (R.remaining input.old) (R.remaining input.new) (W.contents output.old)
        (W.contents output.new) (E.contents errors.old) (E.contents errors.new) result }
    ensures quiet { result ≡ 0 → Keeps (E.contents errors.old) (E.contents errors.new) }
    ensures status { result ≤ 5 }
    ensures other { result ≢ 2 }
{
    match dump(alloc, input, output) {
        Ok(()) => DONE,
        Err(refusal) => tell(alloc, errors, &refusal),
    }
}

/// Runs `inspect`.
fn run_inspect<R: Read, W: Write, E: Write>(
    alloc: Global,
    format: Format,
    input: &mut R,
    output: &mut W,
    errors: &mut E,
) -> u8
    ensures runs { InspectInputEnds format (R.remaining input.old) (R.remaining input.new) (W.contents output.old)
        (W.contents output.new) (E.contents errors.old) (E.contents errors.new) result }
    ensures quiet { result ≡ 0 → Keeps (E.contents errors.old) (E.contents errors.new) }
    ensures status { result ≤ 5 }
    ensures other { result ≢ 2 }
{
    match inspect(alloc, format, input, output) {
        Ok(()) => DONE,
        Err(refusal) => tell(alloc, errors, &refusal),
    }
}

/// Runs `explain`.
fn run_explain<W: Write, E: Write>(
    alloc: Global,
    refusal: &Explanation,
    output: &mut W,
    errors: &mut E,
) -> u8
    ensures shown { IsShown (E.contents errors.old) (E.contents errors.new) result }
    ensures quiet { result ≡ 0 → Keeps (E.contents errors.old) (E.contents errors.new) }
    ensures status { result ≤ 5 }
    ensures other { result ≢ 2 }
{
    match write_octets(output, refusal.text().as_bytes()) {
        Ok(()) => DONE,
        Err(refusal) => tell(alloc, errors, &refusal),
    }
}

/// Runs a command, and reports a refusal on `errors` as `flowvault: NUMBER NAME ..`. It answers the exit status.
fn run<
    'a,
    H: Files + AllocGlobal + Clock + Clone + Drop + Threads + Wait + Send + Sync,
    R: Read,
    W: Write,
    E: Write,
    P: Write + Drop + Send,
>(
    rt: &'a H,
    request: &Request<'a>,
    input: &mut R,
    output: &mut W,
    errors: &mut E,
    progress: &'a Progress<P>,
) -> u8
where
    H::File: FileExt + Lockable + Send + Sync,
    H::Dir: Send + Sync,
    ensures runs { Runs ⟦<FolderDisk<'a, H> as Disk>⟧ ⟦<FolderView<'a, H> as Disk>⟧ H.File.remaining request.now
        (R.remaining input.old) (R.remaining input.new) (W.contents output.old) (W.contents output.new)
        (E.contents errors.old) (E.contents errors.new) result }
    ensures quiet { result ≡ 0 → Keeps (E.contents errors.old) (E.contents errors.new) }
    ensures status { result ≤ 5 }
    ensures other { result ≢ 2 }
{
    let first_fault = progress.first_fault();
    match request {
        Request::Measure {
            width,
            format,
            warn,
        } => run_measure(rt, width, *format, *warn, input, output, errors, progress),
        Request::Dump => run_dump(rt.alloc(), input, output, errors),
        Request::Inspect { format } => run_inspect(rt.alloc(), *format, input, output, errors),
        Request::InspectFiles { format, files } => {
            run_inspect_files(rt, *format, files, input, output, errors)
        }
        Request::Create { folder, plan } => run_create(rt, folder, plan, errors, progress),
        Request::Check { folder } => run_check(rt, folder, first_fault, output, errors),
        Request::CheckFiles { folder } => run_check_files(rt, folder, first_fault, output, errors),
        Request::CheckSeveral { folders, files } => {
            run_folder_checks(rt, first_fault, folders, *files, output, errors)
        }
        Request::Totals {
            folder,
            span,
            workers,
            format,
        } => run_totals(
            rt,
            folder,
            first_fault,
            *span,
            workers.as_ref(),
            *format,
            output,
            errors,
        ),
        Request::TotalsOfSeveral {
            folders,
            span,
            each,
            format,
        } => run_several_folders(
            rt,
            first_fault,
            folders,
            *span,
            totals_wanted(*each),
            *format,
            output,
            errors,
        ),
        Request::Flows {
            folder,
            span,
            format,
        } => run_flows(rt, folder, first_fault, *span, *format, output, errors),
        Request::FlowsOfSeveral {
            folders,
            span,
            format,
        } => run_several_folders(
            rt,
            first_fault,
            folders,
            *span,
            Wanted::FlowsOfEach,
            *format,
            output,
            errors,
        ),
        Request::Records {
            folder,
            span,
            format,
        } => run_records(rt, folder, first_fault, *span, format, output, errors),
        Request::Feed {
            folder,
            plan,
            end_on,
            files,
        } => run_feed(
            rt, folder, *plan, end_on, files, input, output, errors, progress,
        ),
        Request::Shell {
            folder,
            keep,
            merge,
        } => run_shell(
            rt,
            folder,
            first_fault,
            *keep,
            *merge,
            input,
            output,
            errors,
        ),
        Request::Roll { folder, keep } => {
            run_job(rt, folder, JobKind::Roll, *keep, output, errors, progress)
        }
        Request::Merge { folder, keep } => {
            run_job(rt, folder, JobKind::Merge, *keep, output, errors, progress)
        }
        Request::Export { folder, span } => {
            run_export(rt, folder, first_fault, span, output, errors)
        }
        Request::ExportByTime { folder, span } => {
            run_export_by_time(rt, folder, first_fault, *span, output, errors)
        }
        Request::Templates { folder } => run_templates(rt, folder, first_fault, output, errors),
        Request::Explain { refusal } => run_explain(rt.alloc(), refusal, output, errors),
    }
}

/// Runs one command line, whose first word is the program's name, and answers the exit status; `version` is what
/// `--version` shows. Feeding shows its `progress`, and what the system said of a call on a folder that failed is
/// written there, of which no clause speaks.
pub fn run_line<
    'a,
    H: Files + AllocGlobal + Clock + Clone + Drop + Threads + Wait + Send + Sync,
    S: AsStr,
    R: Read,
    W: Write,
    E: Write,
    P: Write + Drop + Send,
>(
    rt: &'a H,
    version: &str,
    words: &'a [S],
    input: &mut R,
    output: &mut W,
    errors: &mut E,
    progress: &'a Progress<P>,
) -> u8
where
    H::File: FileExt + Lockable + Send + Sync,
    H::Dir: Send + Sync,
    // The words decide which command runs, on what width, or why none does.
    ensures answered { IsAnswered ⟦<FolderDisk<'a, H> as Disk>⟧ ⟦<FolderView<'a, H> as Disk>⟧ H.File.remaining
        (map S.text words.now) (R.remaining input.old) (R.remaining input.new) (W.contents output.old)
        (W.contents output.new) (E.contents errors.old) (E.contents errors.new) result }
    ensures quiet { result ≡ 0 → Keeps (E.contents errors.old) (E.contents errors.new) }
    ensures status { result ≤ 5 }
    // Of words that ask for nothing nothing is written but why.
    ensures wrong { result ≡ 2 → Keeps (W.contents output.old) (W.contents output.new) }
{
    match parse(rt.alloc(), version, words) {
        Ok(request) => {
            let status = run(rt, &request, input, output, errors, progress);
            drop(request);
            tell_fault(rt, progress);
            status
        }
        Err(error) => refuse(rt.alloc(), &error, output, errors),
    }
}
