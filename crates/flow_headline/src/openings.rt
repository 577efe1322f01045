//! Openings after a run and any number of stops, on any disk.

ghost use Rattle.std.specs.Prelude.{◌≡◌, ℕ, ◌+◌, ◌≤◌, false, IsTrue, IfErr, IfOk, List, Result, take};
ghost use Rattle.flow_disk.specs.Cause.{HasCause};
ghost use Rattle.flow_manifest.specs.Limits.{greatest_limit, greatest_width, least_limit};
ghost use Rattle.flow_manifest.specs.Slots.{reads_of};
ghost use Rattle.flow_model.specs.Changes.{new_history};
ghost use Rattle.flow_model.specs.Shelved.{HasHistory};
ghost use Rattle.flow_model.specs.Standing.{StandsFor};
ghost use Rattle.flow_model.specs.State.{empty_state};
ghost use Rattle.flow_recover.specs.Opening.{IsDeviceOrMemory};
ghost use Rattle.flow_archive.specs.declared.event.Answer.{Answer};
ghost use Rattle.flow_archive.specs.declared.event.Event.{Event};
ghost use Rattle.flow_archive.specs.declared.refusal.ArchiveError.{ArchiveError};
ghost use Rattle.flow_archive.specs.Beginning.{IsNotMade, answer_of, disk_of, widest};
ghost use Rattle.flow_archive.specs.Seen.{Seen};
ghost use Rattle.flow_headline.specs.Front.{IsPrefix};
ghost use Rattle.flow_headline.specs.Openings.{IsLeftBy, IsLeftOfRun, IsOpening, IsReady};

use flow_archive::{Archive, ArchiveError, Refused};
use flow_disk::Disk;
use flow_manifest::OpenError;
use std::alloc::Global;

/// Makes an archive on a disk without files, as `Archive::create` does. It has an empty history.
pub fn create_archive<D: Disk>(
    alloc: Global,
    disk: D,
    width: u32,
    limit: u32,
) -> Result<Archive<D>, Refused<D, ArchiveError>>
    requires thawed { (n : ℕ) → (D.marks disk n).frozen ≡ false }
    requires width_from { 1 ≤ width }
    requires width_to { width ≤ greatest_width }
    requires limit_from { least_limit ≤ limit }
    requires limit_to { limit ≤ greatest_limit }
    ensures made { IfOk result (λ a. a.state ≡ empty_state width (widest width) limit) }
    ensures history { IfOk result (λ a. HasHistory a.state (new_history width (widest width))) }
    ensures ready { IsTrue (D.honest disk) → IfOk result (λ a. IsReady D.Disk a) }
    ensures refused { IfErr result (λ r. IsNotMade D.Disk disk r.disk r.error) }
    ensures cause { HasCause ArchiveError.Fault (D.faults disk) (D.faults (disk_of result)) (answer_of result) }
{
    Archive::create(alloc, disk, width, limit)
}

/// Opens what a run and any number of stops have left of an archive, as `Archive::open` does.
pub fn open_what_is_left<D: Disk>(
    alloc: Global,
    disk: D,
) -> Result<Archive<D>, Refused<D, OpenError>>
    requires thawed { (n : ℕ) → (D.marks disk n).frozen ≡ false }
    // Whatever run it was, and wherever it and the openings since were stopped: what is found is the archive after a
    // prefix of the events, with all that were acknowledged, and at most the one under way besides.
    ensures found { (old early late : Seen D) (events : List Event) (answers : List (Result Answer ArchiveError))
        (begun : ℕ) → IsLeftOfRun D.Disk old events answers begun early late disk
        → IfOk result (λ a. IsPrefix old.state (take (begun + 1) events) (take (begun + 1) answers) begun a.state) }
    // So it is after each stop within this opening.
    ensures again { (old early late : Seen D) (events : List Event) (answers : List (Result Answer ArchiveError))
        (begun : ℕ) → IsLeftOfRun D.Disk old events answers begun early late disk
        → (next : D) → IsLeftBy D.Disk disk (disk_of result) next
        → IsLeftOfRun D.Disk old events answers begun early late next }
    // It is refused only where the device or memory fails.
    ensures refused { (old early late : Seen D) (events : List Event) (answers : List (Result Answer ArchiveError))
        (begun : ℕ) → IsLeftOfRun D.Disk old events answers begun early late disk
        → IfErr result (λ r. IsDeviceOrMemory r.error) }
    // Whatever disk it was: on an honest one what was read represents what is found, and the archive is ready to be run.
    ensures read { IsTrue (D.honest disk) → IfOk result (λ a. StandsFor (reads_of (D.held disk)) a.state) }
    ensures ready { IsTrue (D.honest disk) → IfOk result (λ a. IsReady D.Disk a) }
    ensures cause { HasCause OpenError.Fault (D.faults disk) (D.faults (disk_of result)) (answer_of result) }
{
    Archive::open(alloc, disk)
}
