//! Lines of an archive's rows, with its number.

ghost use Rattle.std.specs.Prelude.{◌≡◌, ◌++◌, ◌∷◌, [], codes, IfOk, OnOk};
ghost use Rattle.flow_report.specs.ArchiveLines.{shows_width};
ghost use Rattle.flow_report.specs.Formats.{number_or_none, separator, value_in};
ghost use Rattle.flow_report.specs.Formats.Value.{Nothing};
ghost use Rattle.flow_several.specs.Each.{archive_lines, names_before, numbered_row};

use flow_measure::Row;
use flow_report::{Format, Layout, MOST_VALUE, put_last, put_opening, put_time, put_value};
use std::alloc::{AllocError, Global};

/// Whether the width of a row's intervals is written: where it isn't the usual one, and in CSV and JSON always.
fn shows_width(layout: Layout, usual: u32, width: u32) -> bool
    ensures { result ≡ shows_width layout usual width }
{
    match layout {
        Layout::Lines => width != usual,
        Layout::Csv => true,
        Layout::Json => true,
    }
}

/// What is written for no protocol, and a separator.
fn without_protocol(format: Format) -> &'static str
    ensures { result.now ≡ value_in format (codes "protocol", Nothing) ++ separator format.layout ∷ [] }
{
    match format.layout {
        Layout::Lines => "- ",
        Layout::Csv => ",",
        Layout::Json => "\"protocol\":null,",
    }
}

/// Puts a protocol after a text, and a separator.
pub(crate) fn push_protocol(
    text: &mut Vec<u8>,
    format: Format,
    protocol: Option<u8>,
) -> Result<(), AllocError>
    ensures { OnOk result (text.new.items
        ≡ text.old.items ++ value_in format (codes "protocol", number_or_none protocol)
        ++ separator format.layout ∷ []) }
{
    match protocol {
        Some(protocol) => {
            text.reserve(MOST_VALUE)?;
            put_value(text, format, "protocol", protocol);
        }
        None => text.extend_from_slice(without_protocol(format).as_bytes())?,
    }
    Ok(())
}

/// Puts the line of a row after a text: ARCHIVE START DOMAIN PROTOCOL FLOWS OCTETS PACKETS, and the width of its
/// intervals where that isn't the usual one; in CSV and JSON always.
#[tactic(auto, unfolding(crate::specs::Each::numbered_row))]
fn push_row(
    text: &mut Vec<u8>,
    format: Format,
    number: u64,
    usual: u32,
    row: Row,
) -> Result<(), AllocError>
    ensures { OnOk result (text.new.items ≡ text.old.items ++ numbered_row format number usual row) }
{
    text.reserve(4 * MOST_VALUE)?;
    put_opening(text, format);
    put_value(text, format, "archive", number);
    put_time(text, format, "start", row.key.start);
    put_value(text, format, "domain", row.key.domain);
    push_protocol(text, format, row.key.protocol)?;
    text.reserve(4 * MOST_VALUE)?;
    put_value(text, format, "flows", row.sums.flows);
    put_value(text, format, "octets", row.sums.octets);
    if shows_width(format.layout, usual, row.width) {
        put_value(text, format, "packets", row.sums.packets);
        put_last(text, format, "width", row.width);
    } else {
        put_last(text, format, "packets", row.sums.packets);
    }
    Ok(())
}

/// The text before an archive's lines: in CSV before those of the first one the names of their values.
fn names_before(layout: Layout, number: u64) -> &'static str
    ensures { result.now ≡ names_before layout number }
{
    if number != 1 {
        return "";
    }
    match layout {
        Layout::Lines => "",
        Layout::Csv => "archive,start,domain,protocol,flows,octets,packets,width\n",
        Layout::Json => "",
    }
}

/// The lines of an archive's rows, with its number.
pub(crate) fn lines_of(
    alloc: Global,
    format: Format,
    number: u64,
    usual: u32,
    rows: &[Row],
) -> Result<Vec<u8>, AllocError>
    ensures { IfOk result (λ text. text.items ≡ archive_lines format number usual rows.now) }
{
    let mut text = Vec::new(alloc);
    text.extend_from_slice(names_before(format.layout, number).as_bytes())?;
    for row in rows {
        push_row(&mut text, format, number, usual, *row)?;
    }
    Ok(text)
}
