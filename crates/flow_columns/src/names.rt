//! Names of fields, and formats of lines.

ghost use Rattle.std.specs.Prelude.{◌≡◌, ◌<◌, is_some, length, option_map, IfNone, IfSome};
ghost use Rattle.std.specs.List.{after_first, before_first, position_or_len};
ghost use Rattle.flow_columns.specs.Columns.{column_of, first_unknown, is_comma};

use crate::column::column_of;
use flow_report::{RecordFormat, Times};
use std::marker::Model;

/// Names of fields, with a comma between two.
#[derive(Debug, Drop)]
pub struct FieldNames<'a> {
    text: &'a str,
}

impl<'a> Model for FieldNames<'a> {
    ghost use Rattle.std.specs.Prelude.{ℕ, List};

    ghost Value = { List ℕ };

    ghost view = { λ n. n.text.now };
}

impl<'a> FieldNames<'a> {
    /// The names of a text.
    pub fn new(text: &'a str) -> FieldNames<'a>
        ensures { result ≡ text.now }
    {
        FieldNames { text }
    }

    /// The text.
    pub fn text(&self) -> &str
        ensures { result.now ≡ self.now }
    {
        self.text
    }
}

/// The first name of a text, and the text after its comma; `None` where it has one name alone.
pub(crate) fn cut(text: &str) -> Option<(&str, &str)>
    ensures first { IfSome result (λ p. p.0.now ≡ before_first is_comma text.now) }
    ensures rest { IfSome result (λ p. p.1.now ≡ after_first is_comma text.now) }
    ensures some { IfSome result (λ p. position_or_len is_comma text.now < length text.now) }
    ensures none { IfNone result (position_or_len is_comma text.now ≡ length text.now) }
{
    match text.split_once(',') {
        Some((name, rest)) => Some((name, rest)),
        None => None,
    }
}

/// Whether a name asks for a column.
fn is_known(name: &str) -> bool
    ensures { result ≡ is_some (column_of name.now) }
{
    column_of(name).is_some()
}

/// The first name of a text that asks for no column.
pub fn first_unknown(text: &str) -> Option<&str>
    ensures { option_map (λ name. name.now) result ≡ first_unknown text.now }
{
    let mut rest = text;
    'names: while let Some((name, more)) = cut(rest) {
        if !is_known(name) {
            return Some(name);
        }
        rest = more;
    }
    if !is_known(rest) {
        return Some(rest);
    }
    None
}

/// How lines of flows' data records are made.
#[derive(Debug, Drop)]
pub enum LineFormat<'a> {
    /// Of all fields of each, without a heading.
    Whole(RecordFormat),
    /// CSV (RFC 4180): a line of the names, then a line each, of the values of these fields with a comma between two.
    /// Lines end in a line feed.
    Columns(FieldNames<'a>, Times),
}
