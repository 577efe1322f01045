//! The rows of two tables, as one list.

ghost use Rattle.std.specs.Prelude.{◌≡◌, ◌≢◌, ◌+◌, ◌≤◌, ℕ, length, IfErr, IfOk};
ghost use Rattle.flow_measure.specs.Query.{interleaved, rows_of_both};
ghost use Rattle.flow_measure.specs.Sums.{merged, AllFit};
ghost use Rattle.flow_snapshot.specs.Totals.{told_of_sums, IsMade};

use flow_measure::{Row, Rows, SumError};
use flow_refusals::ReadRefusal;
use std::alloc::{AllocError, Global};

/// Two lists of rows in the order of their keys, as one: of two rows of one key the first list's comes first.
fn interleaved(alloc: Global, rows: &[Row], others: &[Row]) -> Result<Vec<Row>, AllocError>
    ensures { IfOk result (λ all. (steps : ℕ) → length rows.now + length others.now ≤ steps
        → all.items ≡ interleaved steps rows.now others.now) }
{
    let mut all = Vec::new(alloc);
    let (mut row, mut other) = (0, 0);
    'rows: while row < rows.len() && other < others.len() {
        if rows[row].key.cmp(&others[other].key).is_le() {
            all.push(rows[row])?;
            row += 1;
        } else {
            all.push(others[other])?;
            other += 1;
        }
    }
    all.extend_from_slice(&rows[row..])?;
    all.extend_from_slice(&others[other..])?;
    Ok(all)
}

/// A refusal of sums as that of a query.
pub(crate) fn told_of_sums(error: SumError, first: u64) -> ReadRefusal
    ensures { result ≡ told_of_sums first error }
{
    match error {
        SumError::SumSpent => ReadRefusal::Damaged(first, 0),
        SumError::OutOfMemory => ReadRefusal::OutOfMemory,
    }
}

/// The rows of two tables that start from `from` on and before `to`, in the order of their keys, those of the narrow
/// table first. Where both have one width, they are one table.
pub(crate) fn rows_of_both(
    alloc: Global,
    from: u64,
    to: u64,
    mut narrow: Rows,
    wide: &Rows,
    first: u64,
) -> Result<Vec<Row>, ReadRefusal>
    ensures made { IsMade first (narrow.width ≡ wide.now.width → AllFit (merged narrow wide.now))
        (λ rows. rows.items ≡ rows_of_both from to narrow wide.now) result }
    ensures quiet { IfErr result (λ e. e ≢ ReadRefusal.Fault) }
{
    let rows = rows_within(alloc, from, to, &mut narrow, wide, first);
    drop(narrow);
    rows
}

/// The same, where the narrow table may have the sums of both afterwards.
fn rows_within(
    alloc: Global,
    from: u64,
    to: u64,
    narrow: &mut Rows,
    wide: &Rows,
    first: u64,
) -> Result<Vec<Row>, ReadRefusal>
    ensures made { IsMade first (narrow.old.width ≡ wide.now.width → AllFit (merged narrow.old wide.now))
        (λ rows. rows.items ≡ rows_of_both from to narrow.old wide.now) result }
    ensures quiet { IfErr result (λ e. e ≢ ReadRefusal.Fault) }
{
    if narrow.width() != wide.width() {
        let rows = narrow.in_span(alloc, from, to)?;
        let others = wide.in_span(alloc, from, to)?;
        return Ok(interleaved(alloc, rows.as_slice(), others.as_slice())?);
    }
    match narrow.merge(wide) {
        Ok(()) => Ok(narrow.in_span(alloc, from, to)?),
        Err(error) => Err(told_of_sums(error, first)),
    }
}
