//! Queries, answered by what a reader is shown.

ghost use Rattle.std.specs.Prelude.{◌≡◌, IfErr, IsTrue, OnOk};
ghost use Rattle.std.specs.Io.KnownBytes.{Appends};
ghost use mathlib.Core.List.{IsPrefix};
ghost use Rattle.flow_measure.specs.History.{History};
ghost use Rattle.flow_shared.specs.Meaning.{HasView};
ghost use Rattle.flow_shell.specs.Answers.{query_lines, KeepsBefore};
ghost use Rattle.flow_shell.specs.Written.{IsAnswer};
ghost use Rattle.flow_shell.specs.Endings.{IsUnanswered};

use crate::answering::{answer_check, answer_flows, answer_message, answer_totals};
use crate::asked::Query;
use crate::finishing::finish;
use crate::refusal::ShellRefusal;
use flow_commands::{ArchiveRefusal, Workers};
use flow_disk::SealedFile;
use flow_shared::{ArchiveReader, Naming};
use std::alloc::Global;
use std::io::Write;
use std::thread::Threads;

/// What a reader is shown, and by how many workers it is asked.
#[derive(Drop)]
pub(crate) struct Asking<S: SealedFile, J: Naming> {
    pub(crate) reader: ArchiveReader<S, J>,
    /// The width of the archive's intervals, in seconds.
    pub(crate) width: u32,
    pub(crate) workers: Workers,
}

/// Writes the lines that a query is answered by.
fn answer_lines<S: SealedFile + Send + Sync, J: Naming, H: Threads + Sync, W: Write>(
    rt: &H,
    alloc: Global,
    asking: &mut Asking<S, J>,
    query: &Query,
    output: &mut W,
) -> Result<(), ShellRefusal>
    ensures later { IsPrefix asking.old.reader asking.new.reader }
    ensures width { asking.new.width ≡ asking.old.width }
    ensures lines { IsTrue J.honest → (h : History) → HasView J.opening h
        → OnOk result (Appends (W.contents output.old) (W.contents output.new)
        (query_lines query.now asking.old.width J.opening h asking.new.reader)) }
    ensures kept { IfErr result (λ e. KeepsBefore e (W.contents output.old) (W.contents output.new)) }
{
    let Asking {
        reader,
        width,
        workers,
    } = asking;
    match query {
        Query::Totals(span) => answer_totals(rt, alloc, reader, *width, span, workers, output),
        Query::Flows(span) => answer_flows(alloc, reader, span, output),
        Query::Message(number) => answer_message(alloc, reader, *number, output),
        Query::Check => answer_check(alloc, reader, output),
    }
}

/// Answers a query.
pub(crate) fn answer_query<S: SealedFile + Send + Sync, J: Naming, H: Threads + Sync, W: Write>(
    rt: &H,
    alloc: Global,
    asking: &mut Asking<S, J>,
    query: &Query,
    output: &mut W,
) -> Result<(), ArchiveRefusal>
    ensures later { IsPrefix asking.old.reader asking.new.reader }
    ensures width { asking.new.width ≡ asking.old.width }
    // On an honest disk: its lines and done 0, or a refusal and its status.
    ensures answered { IsTrue J.honest → (h : History) → HasView J.opening h
        → OnOk result (IsAnswer (query_lines query.now asking.old.width J.opening h asking.new.reader)
        (W.contents output.old) (W.contents output.new)) }
    ensures unanswered { IfErr result IsUnanswered }
{
    let outcome = answer_lines(rt, alloc, asking, query, output);
    finish(alloc, outcome, output)
}
