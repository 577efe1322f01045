// A disk that passes some calls and fails each later one.
use crate::bad_reads::BadReads;
use crate::failing::FailingDisk;
use crate::when::Fuse;
use flow_disk::Disk;

/// A disk that passes so many calls and fails each later one.
pub type FusedDisk<D> = FailingDisk<D, Fuse>;

impl<D: Disk> FailingDisk<D, Fuse> {
    ghost use Rattle.std.specs.Prelude.{◌≡◌, None, Some};

    /// Passes so many calls.
    pub fn new(disk: D, calls: u64) -> Self
        ensures { result ≡ record { disk = disk; when = record { left = calls }; bad = None; failed = 0 } }
    {
        FailingDisk::make(disk, Fuse::new(calls), None)
    }

    /// The same, and each read of this file once frozen fails that reaches octet `from`.
    pub fn with_bad_reads(disk: D, calls: u64, file: u64, from: u64) -> Self
        ensures { result ≡ record {
          disk = disk;
          when = record { left = calls };
          bad =
              Some (record { file = file; from = from });
          failed = 0;
        } }
    {
        FailingDisk::make(disk, Fuse::new(calls), Some(BadReads { file, from }))
    }
}
