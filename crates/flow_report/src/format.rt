//! How values are written.

ghost use Rattle.std.specs.Prelude.{◌≡◌, ◌≤◌, length};
ghost use Rattle.flow_report.specs.Formats.{closing, none_text, opening, separator};

/// How the values of a row, a flow or a domain are laid out.
#[derive(Clone, Copy, Debug, PartialEq, Eq)]
pub enum Layout {
    /// A line each, of words with a space between two.
    Lines,
    /// CSV (RFC 4180): a line of names, then a line each, of values with a comma between two. Lines end in a line feed.
    Csv,
    /// JSON (RFC 8259), an object each, which is a line.
    Json,
}

impl Layout {
    /// What a line begins with.
    pub(crate) fn opening(self) -> &'static str
        ensures text { result.now ≡ opening self }
        ensures len { length result.now ≤ 1 }
    {
        match self {
            Layout::Lines => "",
            Layout::Csv => "",
            Layout::Json => "{",
        }
    }

    /// What is between two values.
    pub(crate) fn separator(self) -> u8
        ensures { result ≡ separator self }
    {
        match self {
            Layout::Lines => b' ',
            Layout::Csv => b',',
            Layout::Json => b',',
        }
    }

    /// What a line ends with.
    pub(crate) fn closing(self) -> &'static str
        ensures text { result.now ≡ closing self }
        ensures len { length result.now ≤ 2 }
    {
        match self {
            Layout::Lines => "\n",
            Layout::Csv => "\n",
            Layout::Json => "}\n",
        }
    }

    /// What is written for none.
    pub(crate) fn none(self) -> &'static str
        ensures text { result.now ≡ none_text self }
        ensures len { length result.now ≤ 4 }
    {
        match self {
            Layout::Lines => "-",
            Layout::Csv => "",
            Layout::Json => "null",
        }
    }
}

/// How a time is written.
#[derive(Clone, Copy, Debug, PartialEq, Eq)]
pub enum Times {
    /// As a number: its second since 1970-01-01 00:00 UTC.
    Seconds,
    /// As its date and time in UTC, YYYY-MM-DDTHH:MM:SSZ (RFC 3339), in JSON in quotes.
    Dates,
}

/// How the values of a row, a flow or a domain are written.
#[derive(Clone, Copy, Debug, PartialEq, Eq)]
pub struct Format {
    pub layout: Layout,
    pub times: Times,
}

impl Format {
    /// In words, with times as numbers.
    pub const PLAIN: Format = Format {
        layout: Layout::Lines,
        times: Times::Seconds,
    };
}
