//! The manifests that follow a valid one: after a seal, and after an install.

ghost use Rattle.std.specs.Prelude.{◌≡◌, ◌≢◌, ◌+◌, ◌<◌, ◌≤◌, ◌^◌, ◌++◌, length, IfOk};
ghost use Rattle.std.specs.List.{AllByRecursion};
ghost use Rattle.flow_manifest.specs.Limits.{most_entries, too_many_messages};
ghost use Rattle.flow_manifest.specs.Manifest.{IsValidManifest};
ghost use Rattle.flow_manifest.specs.Following.{messages_of, active_of, next_manifest, source_of, made_of, count_of};
ghost use Rattle.flow_manifest.specs.Following.{count_before, cut_by, second_cut_by, installed_manifest};

use crate::checks::{rank, totals_of};
use crate::manifest::{Entries, Entry, Kind, Manifest};
use std::alloc::{AllocError, Global};

/// What a job makes of files.
#[derive(Clone, Copy, Debug, PartialEq, Eq)]
pub enum JobKind {
    /// One rolled file of the oldest sealed segments.
    Roll,
    /// One wide file of the oldest rolled files.
    Merge,
}

impl JobKind {
    /// The kind of its sources.
    pub fn source(self) -> Kind
        ensures { result ≡ source_of self }
    {
        match self {
            JobKind::Roll => Kind::Sealed,
            JobKind::Merge => Kind::Rolled,
        }
    }

    /// The kind of the file that it makes.
    pub fn made(self) -> Kind
        ensures { result ≡ made_of self }
    {
        match self {
            JobKind::Roll => Kind::Rolled,
            JobKind::Merge => Kind::Wide,
        }
    }

    /// By how much the cut rises where its sources have so many messages.
    fn cut_by(self, messages: u64) -> u64
        ensures { result ≡ cut_by self messages }
    {
        match self {
            JobKind::Roll => messages,
            JobKind::Merge => 0,
        }
    }

    /// By how much the second cut rises then.
    fn second_cut_by(self, messages: u64) -> u64
        ensures { result ≡ second_cut_by self messages }
    {
        match self {
            JobKind::Roll => 0,
            JobKind::Merge => messages,
        }
    }
}

/// A file that a job has made, before a manifest names it.
#[derive(Clone, Copy)]
pub struct Staged {
    /// The file's number.
    pub file: u64,
    /// How many octets it has.
    pub length: u64,
}

/// The manifest after a seal: the active segment is a sealed one of `end` octets and `count` messages, and a new file,
/// with a prefix of `prefix` octets, is the active one. `file` is at least the next number that `now` names. `end`
/// counts the prefix of the sealed segment too.
pub fn next_manifest(
    alloc: Global,
    now: &Manifest,
    end: u64,
    count: u64,
    file: u64,
    prefix: u32,
) -> Result<Manifest, AllocError>
    requires valid { IsValidManifest now.now }
    requires generation { now.now.generation + 1 < 2 ^ 64 }
    requires few { length now.now.entries < most_entries }
    requires file { now.now.next ≤ file }
    requires next { file + 1 < 2 ^ 64 }
    requires some { 1 ≤ count }
    requires long { (active_of now.now).prefix + 16 ≤ end }
    requires within { end ≤ (active_of now.now).prefix + now.now.limit }
    requires all { messages_of now.now.entries + count < too_many_messages }
    ensures made { IfOk result (λ made. made ≡ next_manifest now.now end count file prefix) }
    ensures valid { IfOk result (λ made. IsValidManifest made) }
{
    let old = now.entries.as_slice();
    let before = old.len() - 1;
    let active = old[before];
    let sealed = Entry {
        kind: Kind::Sealed,
        length: end,
        messages: count,
        ..active
    };
    let next = Entry {
        kind: Kind::Active,
        prefix,
        file,
        length: 0,
        messages: 0,
    };
    let entries = joined(alloc, &old[..before], &[sealed, next], &[])?;
    Ok(Manifest {
        generation: now.generation + 1,
        width: now.width,
        wide: now.wide,
        limit: now.limit,
        next: file + 1,
        rolled: now.rolled,
        second: now.second,
        entries,
    })
}

/// The manifest after an install: the file that a job has made takes the place of the `sources` oldest entries of the
/// job's source kind, which aren't named any more. `next` is the next file number from then on.
pub fn installed_manifest(
    alloc: Global,
    now: &Manifest,
    job: JobKind,
    sources: usize,
    staged: Staged,
    next: u64,
) -> Result<Manifest, AllocError>
    requires valid { IsValidManifest now.now }
    requires generation { now.now.generation + 1 < 2 ^ 64 }
    requires some { 1 ≤ sources }
    requires sources { sources ≤ count_of (source_of job) now.now.entries }
    requires file { 3 ≤ staged.file }
    requires unnamed { AllByRecursion (λ entry. entry.file ≢ staged.file) now.now.entries }
    requires below { staged.file < next }
    requires next { now.now.next ≤ next }
    ensures made { IfOk result (λ made. made ≡ installed_manifest now.now job sources staged next) }
    ensures valid { IfOk result (λ made. IsValidManifest made) }
{
    let old = now.entries.as_slice();
    let (front, rest) = old.split_at(count_before(old, job.source()));
    let (oldest, behind) = rest.split_at(sources);
    let Staged { file, length } = staged;
    let messages = totals_of(oldest).all as u64;
    let made = Entry {
        kind: job.made(),
        prefix: 0,
        file,
        length,
        messages,
    };
    let entries = joined(alloc, front, &[made], behind)?;
    Ok(Manifest {
        generation: now.generation + 1,
        width: now.width,
        wide: now.wide,
        limit: now.limit,
        next,
        rolled: now.rolled + job.cut_by(messages),
        second: now.second + job.second_cut_by(messages),
        entries,
    })
}

/// How many entries are of a kind.
pub fn count_of(entries: &[Entry], kind: Kind) -> usize
    ensures { result ≡ count_of kind entries.now }
{
    entries
        .iter()
        .filter(|entry| rank(entry.kind) == rank(kind))
        .count()
}

/// How many entries come before those of a kind.
fn count_before(entries: &[Entry], kind: Kind) -> usize
    ensures { result ≡ count_before kind entries.now }
{
    entries
        .iter()
        .filter(|entry| rank(entry.kind) < rank(kind))
        .count()
}

/// Entries one after the other.
fn joined(
    alloc: Global,
    front: &[Entry],
    middle: &[Entry],
    behind: &[Entry],
) -> Result<Entries, AllocError>
    ensures { IfOk result (λ entries. entries ≡ front.now ++ middle.now ++ behind.now) }
{
    let mut entries = Vec::new(alloc);
    entries.extend_from_slice(front)?;
    entries.extend_from_slice(middle)?;
    entries.extend_from_slice(behind)?;
    Ok(Entries::from_vec(entries))
}
