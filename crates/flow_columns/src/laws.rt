//! What lines of CSV are to their readers, as the contract of a call that does nothing.

ghost use Rattle.std.specs.Prelude.{◌≡◌, ◌∷◌, List, Option, Some, map};
ghost use Rattle.std.specs.List.{join_with_byte, slice_split};
ghost use Rattle.flow_columns.specs.Columns.{column_of, is_comma};
ghost use Rattle.flow_columns.specs.Lines.{cell_or_none};
ghost use Rattle.flow_columns.specs.Reading.{IsElement, IsPlain};
ghost use Rattle.flow_columns.specs.declared.column.Column.TheVariants.{Element};
ghost use Rattle.flow_report.specs.Lines.{name_text};
ghost use Rattle.flow_report.specs.Records.{Started};

use crate::column::Column;
use flow_elements::ElementId;
use flow_report::Times;

/// The parts of a line between its commas are the values of its columns, none of which is ever in quotes; and each
/// field can be asked for by the name that `dump` writes.
pub fn lines_are_read_back()
    ensures plain { (times : Times) (s : Started) (column : Option Column) → IsPlain (cell_or_none times s column) }
    ensures parts { (times : Times) (s : Started) (column : Option Column) (columns : List (Option Column))
        → slice_split is_comma (join_with_byte 44 (map (cell_or_none times s) (column ∷ columns)))
        ≡ map (cell_or_none times s) (column ∷ columns) }
    ensures names { (id : ElementId) → IsElement id → column_of (name_text id) ≡ Some (Element id) }
{}
