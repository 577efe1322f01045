// A call that changed what a file holds.

/// A call that changed what a file holds. The octets of a write are in the record, beside it.
#[derive(Drop)]
pub(crate) enum Deed {
    Wrote(u64, u64, usize),
    Cut(u64, u64),
    Synced(u64),
    /// The begin of a removal: a stop may leave anything of the file.
    Abandoned(u64),
    Removed(u64),
}

impl Deed {
    ghost use Rattle.std.specs.Prelude.{◌≡◌};
    ghost use Rattle.flow_memory_disk.specs.Record.{octet_count};

    /// How many octets it wrote.
    pub(crate) fn count(&self) -> usize
        ensures { result ≡ octet_count self.now }
    {
        match self {
            Deed::Wrote(_, _, count) => *count,
            _ => 0,
        }
    }
}
