//! The rows of two tables, as one list.

ghost use Rattle.std.specs.Prelude.{◌≡◌, ◌≢◌, ◌+◌, ◌≤◌, ℕ, length, IfOk, MatchResult};
ghost use Rattle.flow_measure.specs.Query.{interleaved, rows_of_both};
ghost use Rattle.flow_measure.specs.Sums.{merged, AllFit};
ghost use Rattle.flow_several.specs.Together.{IsUnmade};

use flow_measure::{Row, Rows, SumError};
use std::alloc::{AllocError, Global};

/// Two lists of rows in the order of their keys, as one: of two rows of one key the first list's comes first.
fn interleaved(alloc: Global, rows: &[Row], others: &[Row]) -> Result<Vec<Row>, AllocError>
    ensures { IfOk result (λ all. (steps : ℕ) → length rows.now + length others.now ≤ steps
        → all.items ≡ interleaved steps rows.now others.now) }
{
    let mut all = Vec::new(alloc);
    let (mut row, mut other) = (0, 0);
    'rows: while row < rows.len() && other < others.len() {
        if rows[row].key.cmp(&others[other].key).is_le() {
            all.push(rows[row])?;
            row += 1;
        } else {
            all.push(others[other])?;
            other += 1;
        }
    }
    all.extend_from_slice(&rows[row..])?;
    all.extend_from_slice(&others[other..])?;
    Ok(all)
}

/// The rows of two tables of different widths.
fn two_tables(
    alloc: Global,
    from: u64,
    to: u64,
    narrow: &Rows,
    wide: &Rows,
) -> Result<Vec<Row>, AllocError>
    requires { narrow.now.width ≢ wide.now.width }
    ensures { IfOk result (λ rows. rows.items ≡ rows_of_both from to narrow.now wide.now) }
{
    let rows = narrow.in_span(alloc, from, to)?;
    let others = wide.in_span(alloc, from, to)?;
    Ok(interleaved(alloc, rows.as_slice(), others.as_slice())?)
}

/// The rows of two tables that start from `from` on and before `to`, in the order of their keys, those of the narrow
/// table first. Where both have one width, they are one table.
pub(crate) fn rows_of_both(
    alloc: Global,
    from: u64,
    to: u64,
    mut narrow: Rows,
    wide: &Rows,
) -> Result<Vec<Row>, SumError>
    ensures { MatchResult result (λ rows. rows.items ≡ rows_of_both from to narrow wide.now)
        (λ e. IsUnmade (narrow.width ≡ wide.now.width → AllFit (merged narrow wide.now)) e) }
{
    if narrow.width() != wide.width() {
        return Ok(two_tables(alloc, from, to, &narrow, wide)?);
    }
    narrow.merge(wide)?;
    Ok(narrow.in_span(alloc, from, to)?)
}
