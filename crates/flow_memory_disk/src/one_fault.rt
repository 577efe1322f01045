// A disk of which one call fails.
use crate::failing::FailingDisk;
use crate::when::Countdown;
use flow_disk::Disk;

/// A disk of which one call fails, once; later ones go on.
pub type OneFaultDisk<D> = FailingDisk<D, Countdown>;

impl<D: Disk> FailingDisk<D, Countdown> {
    ghost use Rattle.std.specs.Prelude.{◌≡◌, None};

    /// Of the calls, counted from 1, this one fails; with 0 none does.
    pub fn new(disk: D, call: u64) -> Self
        ensures { result ≡ record { disk = disk; when = record { until = call }; bad = None; failed = 0 } }
    {
        FailingDisk::make(disk, Countdown::new(call), None)
    }
}
