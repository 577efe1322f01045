//! What a command is given: the numbers of a new archive, and a span of starts.

ghost use Rattle.std.specs.Prelude.{◌≡◌, ◌≤◌, ◌%◌, IfSome};
ghost use Rattle.flow_manifest.specs.Limits.{greatest_limit, greatest_width, least_limit};
ghost use Rattle.flow_commands.specs.Plans.{input_kind_in, is_in, kind_in, planned, IsPlan};

use std::marker::Model;
use std::thread;
use std::thread::Threads;

/// The numbers of a new archive.
#[derive(Drop)]
pub struct NewArchive {
    width: u32,
    wide: Option<u32>,
    limit: u32,
}

impl Model for NewArchive {
    ghost use Rattle.flow_commands.specs.Plans.{Plan, IsPlan};

    ghost Value = { Plan };

    ghost view = { λ p. record { width = p.width; wide = p.wide; limit = p.limit } };

    ghost invariant = { λ p. IsPlan (record { width = p.width; wide = p.wide; limit = p.limit }) };
}

impl NewArchive {
    /// One of these numbers.
    pub fn new(width: u32, wide: Option<u32>, limit: u32) -> NewArchive
        requires { IsPlan (record { width = width; wide = wide; limit = limit }) }
        ensures { result ≡ record { width = width; wide = wide; limit = limit } }
    {
        NewArchive { width, wide, limit }
    }

    /// The width of its intervals, in seconds.
    pub fn width(&self) -> u32
        ensures value { result ≡ self.now.width }
        ensures from { 1 ≤ result }
        ensures to { result ≤ greatest_width }
    {
        self.width
    }

    /// The wide width, in seconds, where one was asked for.
    pub fn wide(&self) -> Option<u32>
        ensures value { result ≡ self.now.wide }
        ensures from { IfSome result (λ wide. self.now.width ≤ wide) }
        ensures to { IfSome result (λ wide. wide ≤ greatest_width) }
        ensures multiple { IfSome result (λ wide. wide % self.now.width ≡ 0) }
    {
        self.wide
    }

    /// How many octets of messages a segment takes.
    pub fn limit(&self) -> u32
        ensures value { result ≡ self.now.limit }
        ensures from { least_limit ≤ result }
        ensures to { result ≤ greatest_limit }
    {
        self.limit
    }
}

/// Flows that start from one second on and before another, both since 1970-01-01 00:00 UTC and up to 2^32.
#[derive(Drop)]
pub struct StartSpan {
    from: u64,
    to: u64,
}

impl Model for StartSpan {
    ghost use Rattle.std.specs.Prelude.{◌≤◌};
    ghost use Rattle.flow_commands.specs.Plans.{Span};

    ghost Value = { Span };

    ghost view = { λ s. record { from = s.from; to = s.to } };

    ghost invariant = { λ s. (s.from ≤ 4294967296) × (s.to ≤ 4294967296) };
}

impl StartSpan {
    /// From one second on and before another.
    pub fn new(from: u64, to: u64) -> StartSpan
        requires from { from ≤ 4294967296 }
        requires to { to ≤ 4294967296 }
        ensures { result ≡ record { from = from; to = to } }
    {
        StartSpan { from, to }
    }

    /// The first second.
    pub fn from(&self) -> u64
        ensures { result ≡ self.now.from }
    {
        self.from
    }

    /// The second after the last one.
    pub fn to(&self) -> u64
        ensures { result ≡ self.now.to }
    {
        self.to
    }

    /// Whether a start is one of them.
    pub(crate) fn has(&self, start: u32) -> bool
        ensures { result ≡ is_in self.now start }
    {
        self.from <= u64::from(start) && u64::from(start) < self.to
    }
}

/// How Files are fed.
#[derive(Clone, Copy, Debug)]
pub struct FeedPlan {
    /// How many of the newest sealed segments are left as they are.
    pub keep: u32,
    /// How many of the newest rolled files are left as they are, where older ones are merged.
    pub merge: Option<u32>,
    /// How many of the first messages of each File are only read.
    pub passed: u64,
    /// Whether a warning says where a File stopped, though standard error is no terminal.
    pub warn: bool,
    /// Whether each read of a File gives one message.
    pub datagrams: bool,
    /// Whether feeding ends between two messages where a file says so.
    pub ends: bool,
}

/// How an input is read.
#[derive(Clone, Copy, Debug, PartialEq, Eq)]
pub enum InputKind {
    /// As one File, of which so many of the first messages are only read.
    File(u64),
    /// By datagrams, of which each is one message: those of a file or a pipe.
    Datagrams,
    /// The same, of a socket.
    Socket,
}

/// How an input is fed.
#[derive(Clone, Copy)]
pub(crate) struct InputPlan {
    pub(crate) kind: InputKind,
    /// Whether feeding ends between two messages where a file says so.
    pub(crate) ends: bool,
}

/// The path of the file that says that feeding is to end.
#[derive(Clone, Copy)]
pub(crate) struct EndPath<'a> {
    pub(crate) path: &'a str,
}

impl FeedPlan {
    /// How an input that is read so is fed.
    fn planned(self, kind: InputKind) -> InputPlan
        ensures { result ≡ planned self kind }
    {
        InputPlan {
            kind,
            ends: self.ends,
        }
    }

    /// How Files at paths are fed.
    pub(crate) fn kind(self) -> InputPlan
        ensures { result ≡ planned self (kind_in self) }
    {
        if self.datagrams {
            self.planned(InputKind::Datagrams)
        } else {
            self.planned(InputKind::File(self.passed))
        }
    }

    /// How standard input is fed, which is a socket or isn't.
    pub(crate) fn input_kind(self, is_socket: bool) -> InputPlan
        ensures { result ≡ planned self (input_kind_in is_socket self) }
    {
        if self.datagrams && is_socket {
            self.planned(InputKind::Socket)
        } else {
            self.kind()
        }
    }
}

/// How many workers scan an archive, from 1 to 64.
#[derive(Drop)]
pub struct Workers {
    count: u32,
}

impl Model for Workers {
    ghost use Rattle.std.specs.Prelude.{ℕ, ◌≤◌};

    ghost Value = { ℕ };

    ghost view = { λ w. w.count };

    ghost invariant = { λ w. (1 ≤ w.count) × (w.count ≤ 64) };
}

impl Workers {
    /// So many.
    pub fn new(count: u32) -> Workers
        requires from { 1 ≤ count }
        requires to { count ≤ 64 }
        ensures { result ≡ count }
    {
        Workers { count }
    }

    /// As many as there are processors that the program may use, up to 64.
    pub fn of_processors<H: Threads>(rt: &H) -> Workers {
        match thread::available_parallelism(rt) {
            Ok(count) => Workers::new(count.get().min(64) as u32),
            Err(_) => Workers::new(1),
        }
    }

    /// So many, or as many as there are processors where none are given.
    pub(crate) fn given_or_usual<H: Threads>(rt: &H, given: Option<&Workers>) -> Workers
        ensures { IfSome given.entry (λ workers. result ≡ workers.now) }
    {
        match given {
            Some(workers) => Workers::new(workers.count()),
            None => Workers::of_processors(rt),
        }
    }

    /// How many.
    pub fn count(&self) -> u32
        ensures value { result ≡ self.now }
        ensures from { 1 ≤ result }
        ensures to { result ≤ 64 }
    {
        self.count
    }
}
