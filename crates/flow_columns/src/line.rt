//! The line of a record.

ghost use Rattle.std.specs.Prelude.{◌≡◌, ◌∷◌, ◌++◌, [], map, OnOk};
ghost use Rattle.std.specs.List.{flat_map, join_with_byte};
ghost use Rattle.flow_codec.specs.Raw.{raw};
ghost use Rattle.flow_columns.specs.Lines.{after_comma, cell_or_none, cells_line};

use crate::cell::push_cell;
use crate::column::Column;
use flow_codec::{Definition, Header};
use flow_report::Times;
use std::alloc::AllocError;

/// What columns have of a record, a comma before each.
fn push_others(
    text: &mut Vec<u8>,
    times: Times,
    columns: &[Option<Column>],
    start: u32,
    header: &Header,
    id: u16,
    definition: &Definition,
    octets: &[u8],
) -> Result<(), AllocError>
    ensures { OnOk result (text.new.items ≡ text.old.items
        ++ flat_map (after_comma times (start, (header.now, raw id definition.now octets.now))) columns.now) }
{
    for column in columns {
        text.push(b',')?;
        push_cell(text, times, *column, start, header, id, definition, octets)?;
    }
    Ok(())
}

/// What columns have of a record, with commas between them.
fn push_cells(
    text: &mut Vec<u8>,
    times: Times,
    columns: &[Option<Column>],
    start: u32,
    header: &Header,
    id: u16,
    definition: &Definition,
    octets: &[u8],
) -> Result<(), AllocError>
    ensures { OnOk result (text.new.items ≡ text.old.items ++ join_with_byte 44
        (map (cell_or_none times (start, (header.now, raw id definition.now octets.now))) columns.now)) }
{
    let Some((first, others)) = columns.split_first() else {
        return Ok(());
    };
    push_cell(text, times, *first, start, header, id, definition, octets)?;
    push_others(text, times, others, start, header, id, definition, octets)
}

/// The line of a record.
pub(crate) fn push_line(
    text: &mut Vec<u8>,
    times: Times,
    columns: &[Option<Column>],
    start: u32,
    header: &Header,
    id: u16,
    definition: &Definition,
    octets: &[u8],
) -> Result<(), AllocError>
    ensures { OnOk result (text.new.items ≡ text.old.items
        ++ cells_line times columns.now (start, (header.now, raw id definition.now octets.now))) }
{
    let before = text.len();
    push_cells(text, times, columns, start, header, id, definition, octets)?;
    if text.len() == before {
        text.extend_from_slice(b"\"\"")?;
    }
    text.push(b'\n')?;
    Ok(())
}
