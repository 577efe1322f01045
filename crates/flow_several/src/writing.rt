//! The lines of sums that were made.

ghost use Rattle.std.specs.Prelude.{◌≡◌, ℕ, IfErr, OnOk, List, MatchResult};
ghost use Rattle.std.specs.Io.KnownBytes.{Appends};
ghost use Rattle.flow_several.specs.Together.{rows_of_sums, width_of_sums, OneTableFits};
ghost use Rattle.flow_several.specs.Each.{archive_lines, IsLineRefusal};
ghost use Rattle.flow_several.specs.Refusals.{of_rows};
ghost use Rattle.flow_several.specs.Several.{AreSummed, IsOfAnArchive, AreTotalsUnwritten, WritesNoRows, WritesRows};
ghost use Rattle.flow_several.specs.Several.{WritesTotals};

use crate::error::TogetherError;
use crate::numbered::lines_of;
use crate::refusal::{SeveralRefusal, SummingRefusal};
use crate::together::Together;
use flow_measure::SumError;
use flow_report::{Format, Patience, write_patiently, write_rows};
use std::alloc::Global;
use std::io::Write;

/// Writes the lines of the sums of archives, where their rows can be made.
pub(crate) fn write_sums<W: Write>(
    alloc: Global,
    all: Together,
    from: u64,
    to: u64,
    format: Format,
    output: &mut W,
) -> Result<(), SeveralRefusal>
    ensures totals { (reads : List (ℕ → List ℕ)) → AreSummed reads all.sums → MatchResult result
        (λ _. WritesTotals format from to reads (W.contents output.old) (W.contents output.new))
        (AreTotalsUnwritten format from to reads (W.contents output.old) (W.contents output.new)) }
    ensures written { OnOk result (WritesRows format from to (W.contents output.old) (W.contents output.new)) }
    ensures kept { IfErr result (WritesNoRows format from to (W.contents output.old) (W.contents output.new)) }
    ensures unnamed { IfErr result (λ e. IsOfAnArchive e → ⊥) }
{
    let width = all.width();
    let rows = all.rows(alloc, from, to)?;
    write_rows(alloc, rows.as_slice(), width, format, output)?;
    Ok(())
}

/// Why an archive's rows aren't made, where they are those of the archive with this number.
fn refused_rows(number: u64, error: SumError) -> SeveralRefusal
    ensures { result ≡ of_rows number error }
{
    match error {
        SumError::SumSpent => {
            SeveralRefusal::Archive(number, SummingRefusal::Sums(TogetherError::SumSpent))
        }
        SumError::OutOfMemory => SeveralRefusal::OutOfMemory,
    }
}

/// Writes the lines of an archive's sums, with its number.
pub(crate) fn write_archive<W: Write>(
    alloc: Global,
    number: u64,
    one: Together,
    from: u64,
    to: u64,
    format: Format,
    output: &mut W,
) -> Result<(), SeveralRefusal>
    ensures all { OnOk result (Appends (W.contents output.old) (W.contents output.new)
        (archive_lines format number (width_of_sums one.sums) (rows_of_sums from to one.sums))) }
    ensures refused { IfErr result (IsLineRefusal number (OneTableFits one.sums)
        (archive_lines format number (width_of_sums one.sums) (rows_of_sums from to one.sums)) (W.contents output.old)
        (W.contents output.new)) }
{
    let usual = one.width();
    let rows = match one.rows(alloc, from, to) {
        Ok(rows) => rows,
        Err(error) => return Err(refused_rows(number, error)),
    };
    let text = lines_of(alloc, format, number, usual, rows.as_slice())?;
    write_patiently(output, text.as_slice(), &mut Patience::new())?;
    Ok(())
}
