//! The rolling beside the shell.

ghost use Rattle.std.specs.Prelude.{◌≡◌};
ghost use Rattle.flow_disk.specs.Cause.{HasCause};
ghost use Rattle.flow_archive.specs.declared.refusal.ArchiveError.TheVariants as event;
ghost use Rattle.flow_shell.specs.Endings.{answer_by, RollsAsked};

use flow_archive::ArchiveError;
use flow_disk::{Disk, Faults};
use flow_roller::{Bell, Keeping, roll_beside};
use flow_shared::{Naming, SharedArchive};
use std::alloc::Global;
use std::marker::PhantomData;
use std::sync::Wait;

/// How rolling ended beside the shell: after rounds by one who keeps and merges as many as was asked for.
#[derive(Drop)]
pub(crate) struct RollEnd<D: Disk, J: Naming, K: Keeping> {
    /// The first refusal, if any.
    pub(crate) refused: Option<ArchiveError>,
    disk: PhantomData<D>,
    opening: PhantomData<J>,
    keeping: PhantomData<K>,
    ghost is_asked: { ∥ RollsAsked D.Disk J.opening K.asked refused ∥₁ },
}

impl<D: Disk, J: Naming, K: Keeping> RollEnd<D, J, K> {
    /// By this refusal, if any.
    fn new(refused: Option<ArchiveError>) -> Self
        requires { RollsAsked D.Disk J.opening K.asked refused }
        ensures { result.refused ≡ refused }
    {
        RollEnd {
            refused,
            disk: PhantomData,
            opening: PhantomData,
            keeping: PhantomData,
        }
    }
}

/// Rolls beside the shell, and answers the first refusal of that, if any. Reads of a job's sources that fail raise
/// `faults`.
pub(crate) fn roll_files<D: Disk, J: Naming, K: Keeping, H: Wait>(
    rt: &H,
    alloc: Global,
    shared: &SharedArchive<D, J, H>,
    bell: &Bell<K>,
    faults: &mut Faults<D::Sealed>,
) -> RollEnd<D, J, K>
    ensures { HasCause event.SourceFault faults.old faults.new (answer_by result.refused) }
{
    match roll_beside(shared, rt, alloc, bell, faults) {
        Ok(()) => RollEnd::new(None),
        Err(error) => RollEnd::new(Some(error)),
    }
}
