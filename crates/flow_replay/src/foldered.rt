//! Parts over a folder whose system is in memory, which keeps apart what the page cache has and what the device has:
//! each of their syncs fails, once or with all later ones; then the power is cut.

use crate::playing::with_archive;
use crate::report::Report;
use crate::stage::Stage;
use crate::stopping::{Image, Trial, last_state, run};
use crate::thawed::{Failure, after_power_cut};
use crate::ways::{Scene, compare, tell_open};
use crate::worn::Wear;
use flow_disk::DiskError;
use flow_memory_directory::MemoryDirectory;
use std::alloc::{AllocError, Global};

/// No part makes as many syncs and openings.
const MOST_SYNCS: u64 = 100_000;

/// The state of the archive on a folder whose power is cut, or why none is opened.
fn found(alloc: Global, system: MemoryDirectory) -> Result<String, DiskError> {
    let disk = after_power_cut(alloc, system, Failure::NEVER)?;
    let state = match Stage::open(alloc, disk) {
        Ok(stage) => last_state(alloc, stage),
        Err(refused) => format!(in alloc; "{}", refused.error),
    };
    Ok(state?)
}

/// Compares what is found after a part that met a fault, and after the power was cut, with what may be. Of one that
/// didn't make its archive nothing is promised.
fn compare_found(
    alloc: Global,
    scene: Scene<'_, '_>,
    trial: &Trial<'_, '_>,
    taken: usize,
    event: &str,
    system: MemoryDirectory,
    report: &mut Report,
) -> Result<(), DiskError> {
    let state = found(alloc, system)?;
    if taken == 0 && trial.makes() {
        report.agree();
        return Ok(());
    }
    compare(alloc, scene, trial, taken, event, state.as_str(), report)
}

/// What a part meets, as text.
fn event_of(alloc: Global, failure: Failure) -> Result<String, AllocError> {
    let Failure {
        after,
        drops,
        lasts,
    } = failure;
    let which = if lasts {
        "all syncs fail"
    } else {
        "a sync fails"
    };
    let pages = if drops { ", its pages are dropped" } else { "" };
    format!(in alloc; "{which} after {after} good ones{pages}, and the power is cut")
}

/// A part of which a sync or an opening fails: whether one failed.
fn fail_at(
    alloc: Global,
    scene: Scene<'_, '_>,
    image: &Image,
    trial: &Trial<'_, '_>,
    failure: Failure,
    report: &mut Report,
) -> Result<bool, DiskError> {
    let disk = image.folder(alloc, failure)?;
    let ended = run(alloc, disk, trial.given)?;
    let (taken, is_closed) = (ended.taken, ended.is_closed);
    let system = ended.disk.into_system();
    let (has_failed, event) = (system.has_failed(), event_of(alloc, failure)?);
    if !is_closed {
        tell_open(alloc, scene, event.as_str(), report)?;
    }
    compare_found(alloc, scene, trial, taken, event.as_str(), system, report)?;
    Ok(has_failed)
}

/// Each sync and each opening of a part fails, once or with all later ones; one of so many of these faults is played.
fn fail_each(
    alloc: Global,
    scene: Scene<'_, '_>,
    image: &Image,
    trial: &Trial<'_, '_>,
    drops: bool,
    lasts: bool,
    every: u64,
    report: &mut Report,
) -> Result<(), DiskError> {
    for after in 0..MOST_SYNCS {
        let failure = Failure {
            after,
            drops,
            lasts,
        };
        if report.takes(every) && !fail_at(alloc, scene, image, trial, failure, report)? {
            return Ok(());
        }
    }
    Ok(())
}

/// A part of an archive, over such a folder: as it is, and with each fault, whether or not pages are dropped then.
pub(crate) fn play_folder(
    alloc: Global,
    scene: Scene<'_, '_>,
    image: &Image,
    trial: &Trial<'_, '_>,
    every: u64,
    report: &mut Report,
) -> Result<(), DiskError> {
    let disk = image.folder(alloc, Failure::NEVER)?;
    let wear = Wear::none(alloc)?;
    let (name, first, lines) = (scene.script, scene.first, trial.given.lines);
    let _ = with_archive(alloc, disk, &wear, name, first, lines, report)?;
    fail_each(alloc, scene, image, trial, false, false, every, report)?;
    fail_each(alloc, scene, image, trial, true, false, every, report)?;
    fail_each(alloc, scene, image, trial, false, true, every, report)
}
