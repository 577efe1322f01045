// Which calls of a disk fail.
ghost use Rattle.std.specs.Prelude.{◌≡◌, ◌-◌, ◌==◌, Bool};

/// Which calls of a disk fail. Each call asks once.
pub trait When: Drop {
    /// Whether the next call fails.
    ghost fails: { Self → Bool };

    /// The same after one call more.
    ghost next: { Self → Self };

    /// Whether this call fails.
    fn asks(&mut self) -> bool
        ensures fails { result ≡ fails self.old }
        ensures next { self.new ≡ next self.old };
}

/// Passes so many calls, and fails each later one.
#[derive(Drop)]
pub struct Fuse {
    left: u64,
}

impl Fuse {
    pub(crate) fn new(calls: u64) -> Self
        ensures { result ≡ record { left = calls } }
    {
        Fuse { left: calls }
    }
}

impl When for Fuse {
    ghost fails = { λ fuse. fuse.left == 0 };

    ghost next = { λ fuse. record { left = fuse.left - 1 } };

    fn asks(&mut self) -> bool {
        let fails = self.left == 0;
        self.left = self.left.saturating_sub(1);
        fails
    }
}

/// Fails one call, counted from 1; with 0 none.
#[derive(Drop)]
pub struct Countdown {
    until: u64,
}

impl Countdown {
    pub(crate) fn new(call: u64) -> Self
        ensures { result ≡ record { until = call } }
    {
        Countdown { until: call }
    }
}

impl When for Countdown {
    ghost fails = { λ countdown. countdown.until == 1 };

    ghost next = { λ countdown. record { until = countdown.until - 1 } };

    fn asks(&mut self) -> bool {
        let fails = self.until == 1;
        self.until = self.until.saturating_sub(1);
        fails
    }
}
