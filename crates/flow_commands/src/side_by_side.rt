//! Files are taken in side by side, while another thread rolls and merges.

ghost use Rattle.std.specs.Prelude.{◌≡◌, ◌≢◌, ◌<◌, ℕ, Bool, List, Option, Some, length, codes, map, replicate, slice_get, IfNone, IfSome};
ghost use Rattle.flow_commands.specs.Feeding.{AreFed, AreFilesFed, IsFedAt, IsFedBy, IsInputAt, IsRollEnd};
ghost use Rattle.flow_commands.specs.Feeding.{octets_given, unfed};
ghost use Rattle.flow_commands.specs.Plans.{input_kind_in, planned};
ghost use Rattle.flow_roller.specs.Asked.{to_keep, to_merge};

use crate::plan::{EndPath, FeedPlan, InputPlan};
use crate::progress::Progress;
use crate::streaming::{feed_named, feed_path};
use flow_archive::ArchiveError;
use flow_disk::{Disk, Faults};
use flow_feed::Fed;
use flow_roller::{Bell, Keeping, roll_beside};
use flow_shared::{Naming, SharedArchive};
use std::alloc::{AllocGlobal, Global};
use std::convert::AsStr;
use std::fs::Files;
use std::io::{Read, Write};
use std::os::unix::fs::FileTypeExt;
use std::sync::Wait;
use std::thread::Threads;
use std::time::Clock;
use std::{fs, thread};

/// The most Files that are fed at once.
const MOST_FILES: usize = 8;

/// The path that standard input has among those of Files.
const STANDARD_INPUT: &str = "-";

/// The path by which the system has standard input among its files.
const INPUT_FILE: &str = "/dev/stdin";

/// Rolls beside Files that are fed, and answers the first refusal of that, if any, and which reads of sources failed.
fn roll_files<D: Disk, J: Naming, K: Keeping, H: Wait>(
    rt: &H,
    alloc: Global,
    shared: &SharedArchive<D, J, H>,
    bell: &Bell<K>,
) -> (Option<ArchiveError>, Faults<D::Sealed>)
    ensures { IsRollEnd D.Disk J.opening K.asked 0 result.1 result.0 }
{
    let mut faults = Faults::new();
    match roll_beside(shared, rt, alloc, bell, &mut faults) {
        Ok(()) => (None, faults),
        Err(error) => (Some(error), faults),
    }
}

/// Takes the File at this place of some paths into an archive that threads share, and answers what came of it: of
/// standard input what was there before.
fn feed_at<
    H: Files + AllocGlobal + Clock + Clone + Drop + Wait,
    D: Disk,
    J: Naming,
    K: Keeping,
    S: AsStr,
    P: Write + Drop,
>(
    rt: &H,
    shared: &SharedArchive<D, J, H>,
    bell: &Bell<K>,
    span: u32,
    paths: &[S],
    i: usize,
    progress: &Progress<P>,
    kind: InputPlan,
    end_on: &str,
    before: Fed,
) -> Fed
    requires { i < length paths.now }
    ensures { (path : S) → slice_get paths.now i ≡ Some path
        → IsFedAt D.Disk H.File.remaining J.opening kind (S.text path) before result }
{
    let path = paths[i].as_str();
    if path == STANDARD_INPUT {
        return before;
    }
    let number = (i as u64).saturating_add(1);
    feed_path(rt, shared, bell, span, number, path, progress, kind, end_on)
}

/// Takes the Files at these paths but standard input into an archive that threads share, each by a thread of its own
/// where one can be made, and puts what came of each in its place.
fn feed_each<
    H: Files + AllocGlobal + Clock + Clone + Drop + Threads + Wait + Send + Sync,
    D: Disk + Send,
    J: Naming + Send + Sync,
    K: Keeping + Send + Sync,
    S: AsStr + Sync,
    P: Write + Drop + Send,
>(
    rt: &H,
    shared: &SharedArchive<D, J, H>,
    bell: &Bell<K>,
    span: u32,
    paths: &[S],
    progress: &Progress<P>,
    kind: InputPlan,
    end_on: &str,
    feds: Vec<Fed>,
) -> Vec<Fed>
where
    H::File: Send + Sync,
    H::Dir: Send + Sync,
    D::Sealed: Send + Sync,
    requires room { length feds.items ≡ length paths.now }
    requires none { feds.items ≡ replicate (length paths.now) unfed }
    ensures count { length result.items ≡ length paths.now }
    ensures fed { AreFilesFed D.Disk H.File.remaining J.opening kind (map S.text paths.now) result.items }
{
    let mut feds = feds;
    let one = |i: usize, fed: &mut Fed|
        requires { i < length paths.now }
        ensures { (path : S) → slice_get paths.entry.now i ≡ Some path
            → IsFedAt D.Disk H.File.remaining J.opening kind (S.text path) fed.old fed.new }
    {
        *fed = feed_at(
            rt, shared, bell, span, paths, i, progress, kind, end_on, *fed,
        );
    };
    thread::for_each_mut(rt, feds.as_mut_slice(), MOST_FILES, &one);
    feds
}

/// Whether standard input is a socket. Where that can't be known it may be one.
fn input_is_socket<H: Files>(rt: &H) -> bool {
    match fs::metadata(rt, INPUT_FILE) {
        Ok(metadata) => metadata.file_type().is_socket(),
        Err(_) => true,
    }
}

/// How standard input is read.
fn input_kind<H: Files>(rt: &H, plan: FeedPlan) -> InputPlan
    ensures { (is_socket : Bool) × (result ≡ planned plan (input_kind_in is_socket plan)) }
{
    plan.input_kind(plan.datagrams && input_is_socket(rt))
}

/// The first of these paths that is standard input.
fn place_of_input<S: AsStr>(paths: &[S]) -> Option<usize>
    ensures within { IfSome result (λ i. i < length paths.now) }
    ensures input { IfSome result (IsInputAt (map S.text paths.now)) }
    ensures none { IfNone result ((k : ℕ) → slice_get (map S.text paths.now) k ≢ Some (codes "-")) }
{
    for (i, path) in paths.iter().enumerate() {
        if path.as_str() == STANDARD_INPUT {
            return Some(i);
        }
    }
    None
}

/// Takes the Files at these paths into an archive that threads share; standard input, which is the first at `-`, by
/// this thread, and where it is there again, that has ended.
fn feed_with_input<
    H: Files + AllocGlobal + Clock + Clone + Drop + Threads + Wait + Send + Sync,
    D: Disk + Send,
    J: Naming + Send + Sync,
    K: Keeping + Send + Sync,
    S: AsStr + Sync,
    R: Read,
    P: Write + Drop + Send,
>(
    rt: &H,
    shared: &SharedArchive<D, J, H>,
    bell: &Bell<K>,
    span: u32,
    paths: &[S],
    place: usize,
    input: &mut R,
    progress: &Progress<P>,
    plan: FeedPlan,
    end_on: &str,
    feds: Vec<Fed>,
) -> Vec<Fed>
where
    H::File: Send + Sync,
    H::Dir: Send + Sync,
    D::Sealed: Send + Sync,
    requires within { place < length paths.now }
    requires input { IsInputAt (map S.text paths.now) place }
    requires room { length feds.items ≡ length paths.now }
    requires none { feds.items ≡ replicate (length paths.now) unfed }
    ensures count { length result.items ≡ length paths.now }
    ensures fed { AreFed D.Disk H.File.remaining J.opening plan (Some (R.remaining input.old))
        (map S.text paths.now) result.items }
{
    let number = (place as u64).saturating_add(1);
    let files = plan.kind();
    let kind = input_kind(rt, plan);
    let (feds, own) = thread::join(
        rt,
        move || -> Vec<Fed>
            requires room { length feds.items ≡ length paths.now }
            requires none { feds.items ≡ replicate (length paths.now) unfed }
            ensures count { length result.items ≡ length paths.entry.now }
            ensures fed { AreFilesFed D.Disk H.File.remaining J.opening files (map S.text paths.entry.now)
                result.items }
        { feed_each(rt, shared, bell, span, paths, progress, files, end_on, feds) },
        move || -> Fed
            ensures { (left : Option (List ℕ))
                × IsFedBy D.Disk J.opening kind (R.remaining input.entry.now) left result }
        {
            feed_named(
                rt,
                shared,
                bell,
                span,
                number,
                STANDARD_INPUT,
                input,
                progress,
                kind,
                end_on,
            )
        },
    );
    let mut feds = feds;
    feds[place] = own;
    feds
}

/// Takes the Files at these paths into an archive that threads share; standard input, where it is given and among
/// them, too.
fn feed_all<
    H: Files + AllocGlobal + Clock + Clone + Drop + Threads + Wait + Send + Sync,
    D: Disk + Send,
    J: Naming + Send + Sync,
    K: Keeping + Send + Sync,
    S: AsStr + Sync,
    R: Read,
    P: Write + Drop + Send,
>(
    rt: &H,
    shared: &SharedArchive<D, J, H>,
    bell: &Bell<K>,
    span: u32,
    paths: &[S],
    input: Option<&mut R>,
    progress: &Progress<P>,
    plan: FeedPlan,
    end_on: &str,
    feds: Vec<Fed>,
) -> Vec<Fed>
where
    H::File: Send + Sync,
    H::Dir: Send + Sync,
    D::Sealed: Send + Sync,
    requires room { length feds.items ≡ length paths.now }
    requires none { feds.items ≡ replicate (length paths.now) unfed }
    ensures count { length result.items ≡ length paths.now }
    ensures fed { AreFed D.Disk H.File.remaining J.opening plan (octets_given R.remaining input.entry)
        (map S.text paths.now) result.items }
{
    let files = plan.kind();
    match input {
        None => feed_each(rt, shared, bell, span, paths, progress, files, end_on, feds),
        Some(input) => match place_of_input(paths) {
            None => feed_each(rt, shared, bell, span, paths, progress, files, end_on, feds),
            Some(place) => feed_with_input(
                rt, shared, bell, span, paths, place, input, progress, plan, end_on, feds,
            ),
        },
    }
}

/// The same, while another thread rolls; where none can be made, this one rolls once they are fed. It answers the first
/// refusal of the rolling besides, if any. Reads of sources that fail raise `faults`.
pub(crate) fn feed_beside<
    H: Files + AllocGlobal + Clock + Clone + Drop + Threads + Wait + Send + Sync,
    D: Disk + Send,
    J: Naming + Send + Sync,
    K: Keeping + Send + Sync,
    S: AsStr + Sync,
    R: Read,
    P: Write + Drop + Send,
>(
    rt: &H,
    shared: &SharedArchive<D, J, H>,
    span: u32,
    plan: FeedPlan,
    end_on: EndPath<'_>,
    paths: &[S],
    input: Option<&mut R>,
    progress: &Progress<P>,
    feds: Vec<Fed>,
    faults: &mut Faults<D::Sealed>,
) -> (Vec<Fed>, Option<ArchiveError>)
where
    H::File: Send + Sync,
    H::Dir: Send + Sync,
    D::Sealed: Send + Sync,
    requires room { length feds.items ≡ length paths.now }
    requires none { feds.items ≡ replicate (length paths.now) unfed }
    // The bell keeps, and merges, what was asked for.
    requires asked { ∥ K.asked (to_keep plan.keep) ∥₁ }
    requires merge_asked { ∥ K.asked (to_merge plan.merge) ∥₁ }
    ensures count { length result.0.items ≡ length paths.now }
    ensures fed { AreFed D.Disk H.File.remaining J.opening plan (octets_given R.remaining input.entry)
        (map S.text paths.now) result.0.items }
    ensures rolled { IsRollEnd D.Disk J.opening K.asked faults.old faults.new result.1 }
{
    let bell: Bell<K> = Bell::new(plan.keep, plan.merge);
    let rung = &bell;
    let alloc = rt.alloc();
    let ((refused, unread), feds) = thread::join(
        rt,
        move || -> (Option<ArchiveError>, Faults<D::Sealed>)
            ensures { IsRollEnd D.Disk J.opening K.asked 0 result.1 result.0 }
        { roll_files(rt, alloc, shared, rung) },
        move || -> Vec<Fed>
            requires room { length feds.items ≡ length paths.now }
            requires none { feds.items ≡ replicate (length paths.now) unfed }
            ensures count { length result.items ≡ length paths.entry.now }
            ensures fed { AreFed D.Disk H.File.remaining J.opening plan
                (octets_given R.remaining input.entry) (map S.text paths.entry.now) result.items }
        {
            let feds = feed_all(
                rt,
                shared,
                rung,
                span,
                paths,
                input,
                progress,
                plan,
                end_on.path,
                feds,
            );
            rung.end(rt);
            feds
        },
    );
    faults.add(unread);
    (feds, refused)
}
