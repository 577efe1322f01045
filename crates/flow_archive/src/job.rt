//! A job of an archive.

ghost use Rattle.std.specs.Prelude.{◌≡◌, ◌<◌};
ghost use Rattle.flow_manifest.specs.Following.{count_before, source_of};
ghost use Rattle.flow_model.specs.Jobs.{width_made};
ghost use Rattle.flow_archive.specs.Answers.{job_generations};
ghost use Rattle.flow_archive.specs.UnderWay.{fresh, job_in, frozen_staged_in, status_of};

use flow_disk::{SealedFile, Window};
use flow_manifest::{Entry, JobKind, Kind, Manifest, count_of};
use flow_measure::Rows;
use std::alloc::Global;
use std::marker::Model;

/// A job: one file of sums is made of the oldest files of a kind.
#[derive(Drop)]
pub(crate) struct RunningJob<S: SealedFile> {
    /// What it makes.
    pub(crate) kind: JobKind,
    /// How many files it sums.
    pub(crate) sources: u32,
    /// How many of them have been read.
    pub(crate) read: u32,
    /// The memory that sources are read into, one after the other.
    pub(crate) window: Window,
    /// Their sums.
    pub(crate) rows: Rows,
    /// The greatest Export Time in them, in seconds since 1970-01-01 00:00 UTC.
    pub(crate) time: u32,
    /// The file, once it is made. It has no other owner.
    pub(crate) staged: Option<S>,
}

impl<S: SealedFile> Model for RunningJob<S> {
    ghost use Rattle.std.specs.Coded.{codes};
    ghost use Rattle.flow_measure.specs.Sums.{coded_table};
    ghost use Rattle.flow_archive.specs.UnderWay.{frozen_staged_in, RunningJob};

    ghost Value = { RunningJob };

    ghost coded = { Prim.hlevel (codes, coded_table) };

    ghost view = { λ r. record {
      kind = r.kind;
      sources = r.sources;
      read = r.read;
      rows = r.rows;
      time = r.time;
      staged = frozen_staged_in S.number S.size S.honest S.octets r.staged;
    } };
}

impl<S: SealedFile> RunningJob<S> {
    /// A job over so many sources that has read none, and sums over intervals of `width` seconds.
    pub(crate) fn new(alloc: Global, kind: JobKind, sources: u32, width: u32) -> Self
        requires { 0 < width }
        ensures { result ≡ fresh kind sources width }
    {
        RunningJob {
            kind,
            sources,
            read: 0,
            window: Window::new(alloc, 0, 0),
            rows: Rows::new(alloc, width),
            time: 0,
            staged: None,
        }
    }

    /// The file that it has made.
    pub(crate) fn into_file(self) -> Option<S>
        ensures { frozen_staged_in S.number S.size S.honest S.octets result ≡ self.staged }
    {
        let RunningJob { staged, .. } = self;
        staged
    }
}

/// The width in seconds of the intervals that a job sums over.
pub(crate) fn width_made(kind: JobKind, manifest: &Manifest) -> u32
    ensures { result ≡ width_made kind manifest.now }
{
    match kind {
        JobKind::Roll => manifest.width,
        JobKind::Merge => manifest.wide,
    }
}

/// How many entries are before those of a job's sources.
pub(crate) fn sources_from(kind: JobKind, entries: &[Entry]) -> usize
    ensures { result ≡ count_before (source_of kind) entries.now }
{
    let merged = count_of(entries, Kind::Wide);
    match kind {
        JobKind::Roll => merged + count_of(entries, Kind::Rolled),
        JobKind::Merge => merged,
    }
}

/// What a job is about.
#[derive(Clone, Copy, Debug, PartialEq, Eq)]
pub struct JobStatus {
    /// What it makes.
    pub kind: JobKind,
    /// How many files it sums.
    pub sources: u32,
    /// How many of them are left to be read.
    pub left: u32,
    /// The number of the file that it has made.
    pub staged: Option<u64>,
}

/// The status of a job.
pub(crate) fn status<S: SealedFile>(job: &Option<RunningJob<S>>) -> Option<JobStatus>
    ensures { result ≡ status_of (job_in job.now) }
{
    match job {
        None => None,
        Some(job) => Some(JobStatus {
            kind: job.kind,
            sources: job.sources,
            left: job.sources.saturating_sub(job.read),
            staged: match &job.staged {
                None => None,
                Some(file) => Some(file.file()),
            },
        }),
    }
}

/// How many generations are kept for the file that a job has made.
pub(crate) fn generations_kept<S: SealedFile>(job: &Option<RunningJob<S>>) -> u64
    ensures { result ≡ job_generations (job_in job.now) }
{
    match job {
        Some(
            RunningJob {
                staged: Some(_),
                ..
            },
        ) => 1,
        _ => 0,
    }
}
