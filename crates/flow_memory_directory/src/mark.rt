// How far a part of a file is from the device.
ghost use Rattle.std.specs.Prelude.{◌≡◌, ◌≢◌};
ghost use Rattle.flow_memory_directory.specs.Marks.{is_lost, after_sync, after_failure};

/// How far a part of a file is from the device.
#[derive(Clone, Copy, PartialEq, Eq)]
pub(crate) enum Mark {
    /// The device has it.
    Clean,
    /// The next sync writes it.
    Dirty,
    /// The device may have it otherwise, and no sync writes it.
    Lost,
}

impl Mark {
    /// Whether it is lost.
    pub(crate) fn is_lost(self) -> bool
        ensures { result ≡ is_lost self }
    {
        match self {
            Mark::Clean | Mark::Dirty => false,
            Mark::Lost => true,
        }
    }

    /// After a write. What is lost stays so.
    pub(crate) fn written(self) -> Mark
        ensures lost { is_lost result ≡ is_lost self }
        ensures unclean { result ≢ Mark.Clean }
    {
        match self {
            Mark::Clean | Mark::Dirty => Mark::Dirty,
            Mark::Lost => Mark::Lost,
        }
    }

    /// After a good sync.
    pub(crate) fn after_sync(self) -> Mark
        ensures { result ≡ after_sync self }
    {
        match self {
            Mark::Clean | Mark::Dirty => Mark::Clean,
            Mark::Lost => Mark::Lost,
        }
    }

    /// After a failed one.
    pub(crate) fn after_failure(self) -> Mark
        ensures { result ≡ after_failure self }
    {
        match self {
            Mark::Clean => Mark::Clean,
            Mark::Dirty | Mark::Lost => Mark::Lost,
        }
    }
}
