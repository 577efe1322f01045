// Laws that hold of every honest disk, each the contract of a call that does nothing.
ghost use Rattle.std.specs.Prelude.{ℕ, List};
ghost use Rattle.flow_disk.specs.Laws.{RunsCompose, QuietCallsCovered, AloneIsFast, WriteKeepsFront, CutKeepsFront};
ghost use Rattle.flow_disk.specs.Laws.{OneOctetDiffers};

use crate::Disk;

/// What a stop makes of the disk's images: a relation between the octets of all files before and after.
pub trait StopEffect {
    /// These octets become those.
    ghost leads: { (ℕ → List ℕ) → (ℕ → List ℕ) → Type 0 };
}

/// What a stop may leave of two runs of calls, one after the other, follows from what it may leave of each, whatever
/// the steps are.
pub fn law_of_runs<D: Disk, F: StopEffect, S: StopEffect, W: StopEffect>(_disk: &D)
    ensures { RunsCompose D.Disk F.leads S.leads W.leads }
{}

/// Every call is among the moments, also one that changes nothing.
pub fn law_of_quiet_calls<D: Disk>(_disk: &D)
    ensures { QuietCallsCovered D.Disk }
{}

/// What a stop may leave of one file after a write, a cut or the write of one octet.
pub fn laws_of_images()
    ensures settled { AloneIsFast }
    ensures write { WriteKeepsFront }
    ensures cut { CutKeepsFront }
    ensures octet { OneOctetDiffers }
{}
