//! A manifest as data.

ghost use Rattle.std.specs.Prelude.{◌≡◌, length};

use std::marker::Model;

/// What the file of an entry is.
#[derive(Clone, Copy, Debug, PartialEq, Eq)]
pub enum Kind {
    /// Rows of the wide width.
    Wide,
    /// Rows of the narrow width.
    Rolled,
    /// A segment that takes no more messages.
    Sealed,
    /// The segment that messages are appended to.
    Active,
}

/// One file of the archive.
#[derive(Clone, Copy, Debug, PartialEq, Eq)]
pub struct Entry {
    pub kind: Kind,
    /// How many octets of the file come before its appended messages.
    pub prefix: u32,
    /// The file's number.
    pub file: u64,
    /// How many octets of the file count. 0 for the active segment, whose end is found by reading it.
    pub length: u64,
    /// How many messages the file represents. 0 for the active segment.
    pub messages: u64,
}

/// The entries of a manifest, which contracts see as a list.
#[derive(Drop)]
pub struct Entries {
    items: Vec<Entry>,
}

impl Model for Entries {
    ghost use Rattle.std.specs.Prelude.{List};
    ghost use Rattle.flow_manifest.specs.declared.manifest.Entry.{Entry};

    ghost Value = { List Entry };

    ghost view = { λ l. l.items.items };
}

impl Entries {
    /// Takes no memory.
    pub fn from_vec(items: Vec<Entry>) -> Self
        ensures { result ≡ items.items }
    {
        Entries { items }
    }

    /// Takes no memory.
    pub fn into_vec(self) -> Vec<Entry>
        ensures { result.items ≡ self }
    {
        self.items
    }

    pub fn as_slice(&self) -> &[Entry]
        ensures { result.now ≡ self.now }
    {
        self.items.as_slice()
    }

    pub fn len(&self) -> usize
        ensures { result ≡ length self.now }
    {
        self.items.len()
    }
}

/// Which files an archive consists of, and what was rolled of it.
#[derive(Drop)]
pub struct Manifest {
    /// Grows by one with each manifest of the archive.
    pub generation: u64,
    /// The seconds of an interval of rolled files.
    pub width: u32,
    /// The seconds of an interval of wide files, a multiple of `width`.
    pub wide: u32,
    /// How many octets of messages a segment takes.
    pub limit: u32,
    /// The number of the next file.
    pub next: u64,
    /// How many messages the wide and the rolled files represent.
    pub rolled: u64,
    /// How many messages the wide files represent.
    pub second: u64,
    /// The files, oldest messages first.
    pub entries: Entries,
}
