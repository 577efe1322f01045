//! Lines of columns on their way to a writer.

ghost use Rattle.std.specs.Prelude.{◌≡◌, ◌∷◌, ◌++◌, [], map, IfErr, IfOk, OnErr, OnOk};
ghost use Rattle.std.specs.Io.KnownBytes.{Appends};
ghost use Rattle.flow_codec.specs.Raw.{raw};
ghost use Rattle.flow_columns.specs.Columns.{column_of, columns_of, names_in};
ghost use Rattle.flow_columns.specs.Lines.{cells_line};
ghost use Rattle.flow_report.specs.Telling.{Tells, TellsFront};
ghost use Rattle.flow_report.specs.Writing.{AppendsFront};

use crate::column::{Column, column_of};
use crate::line::push_line;
use crate::names::cut;
use flow_codec::{Definition, Header};
use flow_report::{Patience, TextError, Times, WriteFailed, write_patiently};
use std::alloc::{AllocError, Global};
use std::io::Write;

/// The octets of text that are held before they are written.
const MOST_HELD: usize = 65_536;

/// Lines of columns on their way to a writer. Some 64 KiB of them are held, and written once there are more.
#[derive(Drop)]
pub(crate) struct ColumnLines {
    pub(crate) text: Vec<u8>,
    pub(crate) columns: Vec<Option<Column>>,
    pub(crate) times: Times,
    patience: Patience,
}

/// The columns of the names of a text.
fn push_columns(columns: &mut Vec<Option<Column>>, text: &str) -> Result<(), AllocError>
    ensures { OnOk result (columns.new.items ≡ columns.old.items ++ columns_of text.now) }
{
    let mut rest = text;
    'names: while let Some((name, more)) = cut(rest) {
        columns.push(column_of(name))?;
        rest = more;
    }
    columns.push(column_of(rest))?;
    Ok(())
}

impl ColumnLines {
    ghost use Rattle.std.specs.Prelude.{◌≡◌, ◌∷◌, ◌++◌, [], IfErr, IfOk, OnErr, OnOk};
    ghost use Rattle.std.specs.Io.KnownBytes.{Appends};
    ghost use Rattle.flow_codec.specs.Raw.{raw};
    ghost use Rattle.flow_columns.specs.Columns.{columns_of};
    ghost use Rattle.flow_columns.specs.Lines.{cells_line};
    ghost use Rattle.flow_report.specs.Telling.{Tells, TellsFront};
    ghost use Rattle.flow_report.specs.Writing.{AppendsFront};

    /// Of no records: the line of the names is held.
    pub(crate) fn new(alloc: Global, names: &str, times: Times) -> Result<Self, AllocError>
        ensures text { IfOk result (λ l. l.text.items ≡ names.now ++ 10 ∷ []) }
        ensures columns { IfOk result (λ l. l.columns.items ≡ columns_of names.now) }
        ensures times { IfOk result (λ l. l.times ≡ times) }
    {
        let mut text = Vec::new(alloc);
        text.extend_from_slice(names.as_bytes())?;
        text.push(b'\n')?;
        let mut columns = Vec::new(alloc);
        push_columns(&mut columns, names)?;
        Ok(ColumnLines {
            text,
            columns,
            times,
            patience: Patience::new(),
        })
    }

    /// Writes all that is held.
    fn flush<W: Write>(&mut self, output: &mut W) -> Result<(), WriteFailed>
        ensures columns { self.new.columns ≡ self.old.columns }
        ensures times { self.new.times ≡ self.old.times }
        ensures none { OnOk result (self.new.text.items ≡ []) }
        ensures all { OnOk result (Appends (W.contents output.old) (W.contents output.new) self.old.text.items) }
        ensures front { OnErr result
            (AppendsFront (W.contents output.old) (W.contents output.new) self.old.text.items) }
    {
        write_patiently(output, self.text.as_slice(), &mut self.patience)?;
        self.text.clear();
        Ok(())
    }

    /// Takes the line of a record. After an `Err` the writer has a prefix of what was held and of this line.
    pub(crate) fn put<W: Write>(
        &mut self,
        output: &mut W,
        start: u32,
        header: &Header,
        id: u16,
        definition: &Definition,
        octets: &[u8],
    ) -> Result<(), TextError>
        ensures columns { self.new.columns ≡ self.old.columns }
        ensures times { self.new.times ≡ self.old.times }
        ensures told { OnOk result (Tells (W.contents output.old) self.old.text.items (W.contents output.new)
            self.new.text.items (cells_line self.old.times self.old.columns.items
            (start, (header.now, raw id definition.now octets.now)))) }
        ensures front { OnErr result (TellsFront (W.contents output.old) self.old.text.items (W.contents output.new)
            (cells_line self.old.times self.old.columns.items
            (start, (header.now, raw id definition.now octets.now)))) }
    {
        if self.text.len() >= MOST_HELD {
            self.flush(output)?;
        }
        let columns = self.columns.as_slice();
        push_line(
            &mut self.text,
            self.times,
            columns,
            start,
            header,
            id,
            definition,
            octets,
        )?;
        Ok(())
    }

    /// Writes all that is held. After an `Err` the writer has a prefix of it.
    pub(crate) fn end<W: Write>(self, output: &mut W) -> Result<(), WriteFailed>
        ensures all { OnOk result (Appends (W.contents output.old) (W.contents output.new) self.text.items) }
        ensures front { OnErr result
            (AppendsFront (W.contents output.old) (W.contents output.new) self.text.items) }
    {
        let mut lines = self;
        lines.flush(output)
    }
}
