//! Archives in folders that are asked.

ghost use Rattle.std.specs.Prelude.{◌≡◌, ℕ, false, length, map, IsTrue, IfErr, OnOk};
ghost use Rattle.std.specs.List.{All};
ghost use Rattle.flow_several.specs.Several.{readings, HasReadCause};
ghost use Rattle.flow_several.specs.Folders.{AnswersFolders, AreFoldersRefused, HasFoldersCause, KeepsOrRows};
ghost use Rattle.flow_several.specs.Questions.{Answers, AnswersRows, AnswersSomeRows, IsUnanswered};

use crate::folders_refusal::FoldersRefusal;
use crate::listing::flows_of_each;
use crate::opener::Opener;
use crate::opening::open_all;
use crate::refusal::SeveralRefusal;
use crate::totalling::{totals_of, totals_of_each};
use flow_disk::{Disk, Faults};
use flow_report::Format;
use std::alloc::Global;
use std::io::Write;
use std::thread::Threads;

/// What is asked of several archives.
#[derive(Clone, Copy)]
pub enum Wanted {
    /// The totals of all together.
    Totals,
    /// Those of each, with its number first.
    TotalsOfEach,
    /// The flows of each that aren't rolled, with its number first.
    FlowsOfEach,
}

/// What is asked of several archives: of the intervals, or flows, that start from `from` on and before `to`.
#[derive(Clone, Copy)]
pub struct Question {
    pub from: u64,
    pub to: u64,
    pub wanted: Wanted,
    pub format: Format,
}

/// Writes the answer of the archives on these disks, of which nothing is frozen.
fn answer<D: Disk + Send, R: Threads + Sync, W: Write>(
    rt: &R,
    alloc: Global,
    disks: Vec<D>,
    question: &Question,
    output: &mut W,
    faults: &mut Faults<D::Sealed>,
) -> Result<(), SeveralRefusal>
where
    D::Sealed: Send + Sync,
    requires { All (λ d. (n : ℕ) → (D.marks d n).frozen ≡ false) disks.items }
    ensures answered { All (λ d. IsTrue (D.honest d)) disks.items → OnOk result
        (Answers question.now (readings D.Disk disks.items) (W.contents output.old) (W.contents output.new)) }
    ensures refused { All (λ d. IsTrue (D.honest d)) disks.items → IfErr result
        (IsUnanswered question.now (readings D.Disk disks.items) (W.contents output.old) (W.contents output.new)) }
    ensures written { OnOk result
        (AnswersRows question.now (length disks.items) (W.contents output.old) (W.contents output.new)) }
    ensures kept { IfErr result (AnswersSomeRows question.now (W.contents output.old) (W.contents output.new)) }
    ensures cause { HasReadCause faults.old faults.new result }
{
    let Question {
        from,
        to,
        wanted,
        format,
    } = *question;
    match wanted {
        Wanted::Totals => totals_of(rt, alloc, disks, from, to, format, output, faults),
        Wanted::TotalsOfEach => {
            totals_of_each(rt, alloc, disks, from, to, format, output, faults)
        }
        Wanted::FlowsOfEach => flows_of_each(rt, alloc, disks, from, to, format, output, faults),
    }
}

/// Opens folders, and then asks their archives, as many at once as there are processors: for flows they are opened at
/// once, and then listed one after the other. The answers are taken in the order of the folders. A folder that can't be
/// opened is named, the first by its number, and then nothing is asked.
pub fn ask_folders<'a, D: Disk + Send, R: Threads + Sync, O: Opener<'a, D>, W: Write>(
    rt: &R,
    alloc: Global,
    opener: &O,
    folders: &[&'a str],
    question: &Question,
    output: &mut W,
    faults: &mut Faults<D::Sealed>,
) -> Result<(), FoldersRefusal>
where
    D::Sealed: Send + Sync,
    // The disk at each place is that of the folder there; where all are honest the lines are those of what was read.
    ensures answered { OnOk result (AnswersFolders D.Disk O.opens question.now
        (map (λ folder. folder.now) folders.now) (W.contents output.old) (W.contents output.new)) }
    ensures refused { IfErr result (AreFoldersRefused D.Disk O.opens O.refuses question.now
        (map (λ folder. folder.now) folders.now) (W.contents output.old) (W.contents output.new)) }
    // And whatever the disks:
    ensures written { OnOk result
        (AnswersRows question.now (length folders.now) (W.contents output.old) (W.contents output.new)) }
    ensures kept { IfErr result
        (KeepsOrRows question.now (length folders.now) (W.contents output.old) (W.contents output.new)) }
    // It is a fault of asking exactly where a read of an archive's file failed.
    ensures cause { HasFoldersCause faults.old faults.new result }
{
    let disks = open_all(alloc, opener, folders)?;
    answer(rt, alloc, disks, question, output, faults)?;
    Ok(())
}
