//! Runs of `export` and `templates`.

ghost use Rattle.std.specs.Prelude.{◌≡◌, ◌≢◌, ◌≤◌, IfOk, string_bytes};
ghost use Rattle.std.specs.Io.KnownBytes.{Keeps};
ghost use Rattle.flow_program.specs.Exporting.{archive_refusal, export_status, rolled_printed, IsExportReported};
ghost use Rattle.flow_program.specs.Exporting.{ByTimeEnd, MessagesEnd, TemplatesEnd, TimeEnd};

use crate::archives::seconds_of;
use crate::arguments::{FolderName, MomentSpan};
use crate::several::report_text;
use crate::telling::{DONE, tell_of_archive};
use flow_commands::{ArchiveRefusal, StartSpan};
use flow_disk::Disk;
use flow_export::{
    ArchiveExportRefusal, MessageSpan, TimeSpan, export_by_time_in, export_in, templates_in,
};
use flow_folder::{FirstFault, Lockable};
use flow_folder_view::FolderView;
use flow_refusals::RefusalCode;
use std::alloc::{AllocError, AllocGlobal, Global};
use std::fs::Files;
use std::io::Write;
use std::os::unix::fs::FileExt;
use std::time::Clock;

/// The text of why messages up to this one, which are in sums alone, aren't exported.
fn rolled_text(alloc: Global, cut: u64) -> Result<String, AllocError>
    ensures { IfOk result (λ text. string_bytes text ≡ rolled_printed cut) }
{
    format!(in alloc; "{} {cut}", RefusalCode::Rolled)
}

/// What a refusal is of a command over an archive, or else the number of the last message that is in sums alone.
fn archive_refusal(refusal: ArchiveExportRefusal) -> Result<ArchiveRefusal, u64>
    ensures { result ≡ archive_refusal refusal }
{
    match refusal {
        ArchiveExportRefusal::Folder(error) => Ok(ArchiveRefusal::from(error)),
        ArchiveExportRefusal::Opening(error) => Ok(ArchiveRefusal::from(error)),
        ArchiveExportRefusal::Query(error) => Ok(ArchiveRefusal::from(error)),
        ArchiveExportRefusal::Write(failed) => Ok(ArchiveRefusal::from(failed)),
        ArchiveExportRefusal::Rolled(cut) => Err(cut),
    }
}

/// Reports why an archive isn't exported. It answers the exit status.
fn report_export<E: Write>(alloc: Global, errors: &mut E, refusal: ArchiveExportRefusal) -> u8
    ensures status { result ≡ export_status refusal }
    ensures failed { 1 ≤ result }
    ensures other { result ≢ 2 }
    ensures most { result ≤ 5 }
    ensures reported { IsExportReported refusal (E.contents errors.old) (E.contents errors.new) }
{
    match archive_refusal(refusal) {
        Ok(refusal) => tell_of_archive(alloc, errors, &refusal),
        Err(cut) => {
            let status = RefusalCode::Rolled.status();
            report_text(alloc, errors, status, rolled_text(alloc, cut));
            status
        }
    }
}

/// Runs `export`.
pub(crate) fn run_export<'a, H: Files + AllocGlobal + Clone + Drop, W: Write, E: Write>(
    rt: &'a H,
    folder: &FolderName<'a>,
    first_fault: &'a FirstFault,
    span: &MessageSpan,
    output: &mut W,
    errors: &mut E,
) -> u8
where
    H::File: FileExt + Lockable,
    ensures runs { MessagesEnd ⟦<FolderView<'a, H> as Disk>⟧ span.now (W.contents output.old) (W.contents output.new)
        (E.contents errors.old) (E.contents errors.new) result }
    ensures quiet { result ≡ 0 → Keeps (E.contents errors.old) (E.contents errors.new) }
    ensures status { result ≤ 5 }
    ensures other { result ≢ 2 }
{
    match export_in(rt, folder.path, first_fault, span, output) {
        Ok(()) => DONE,
        Err(refusal) => report_export(rt.alloc(), errors, refusal),
    }
}

/// The seconds of a span of time.
fn time_of(span: &StartSpan) -> TimeSpan
    ensures { result ≡ record { from = span.now.from; to = span.now.to } }
{
    TimeSpan {
        from: span.from(),
        to: span.to(),
    }
}

/// Runs `export` of the messages of a span of time, by its seconds.
fn export_time<'a, H: Files + AllocGlobal + Clone + Drop, W: Write, E: Write>(
    rt: &'a H,
    folder: &FolderName<'a>,
    first_fault: &'a FirstFault,
    span: TimeSpan,
    output: &mut W,
    errors: &mut E,
) -> u8
where
    H::File: FileExt + Lockable,
    ensures runs { TimeEnd ⟦<FolderView<'a, H> as Disk>⟧ span (W.contents output.old) (W.contents output.new)
        (E.contents errors.old) (E.contents errors.new) result }
    ensures quiet { result ≡ 0 → Keeps (E.contents errors.old) (E.contents errors.new) }
    ensures status { result ≤ 5 }
    ensures other { result ≢ 2 }
{
    match export_by_time_in(rt, folder.path, first_fault, span, output) {
        Ok(()) => DONE,
        Err(refusal) => report_export(rt.alloc(), errors, refusal),
    }
}

/// Runs `export` of the messages of a span of time.
pub(crate) fn run_export_by_time<
    'a,
    H: Files + AllocGlobal + Clock + Clone + Drop,
    W: Write,
    E: Write,
>(
    rt: &'a H,
    folder: &FolderName<'a>,
    first_fault: &'a FirstFault,
    span: MomentSpan,
    output: &mut W,
    errors: &mut E,
) -> u8
where
    H::File: FileExt + Lockable,
    ensures runs { ByTimeEnd ⟦<FolderView<'a, H> as Disk>⟧ span (W.contents output.old) (W.contents output.new)
        (E.contents errors.old) (E.contents errors.new) result }
    ensures quiet { result ≡ 0 → Keeps (E.contents errors.old) (E.contents errors.new) }
    ensures status { result ≤ 5 }
    ensures other { result ≢ 2 }
{
    match seconds_of(rt, span) {
        Ok(seconds) => {
            let time = time_of(&seconds);
            export_time(rt, folder, first_fault, time, output, errors)
        }
        Err(refusal) => tell_of_archive(rt.alloc(), errors, &refusal),
    }
}

/// Runs `templates`.
pub(crate) fn run_templates<'a, H: Files + AllocGlobal + Clone + Drop, W: Write, E: Write>(
    rt: &'a H,
    folder: &FolderName<'a>,
    first_fault: &'a FirstFault,
    output: &mut W,
    errors: &mut E,
) -> u8
where
    H::File: FileExt + Lockable,
    ensures runs { TemplatesEnd ⟦<FolderView<'a, H> as Disk>⟧ (W.contents output.old) (W.contents output.new)
        (E.contents errors.old) (E.contents errors.new) result }
    ensures quiet { result ≡ 0 → Keeps (E.contents errors.old) (E.contents errors.new) }
    ensures status { result ≤ 5 }
    ensures other { result ≢ 2 }
{
    match templates_in(rt, folder.path, first_fault, output) {
        Ok(()) => DONE,
        Err(refusal) => report_export(rt.alloc(), errors, refusal),
    }
}
