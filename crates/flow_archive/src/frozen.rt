//! The frozen files of an archive, and what directories have of them.

ghost use Rattle.std.specs.Prelude.{◌≡◌, ◌++◌, ◌<◌, ◌≤◌, ◌≢◌, ℕ, Bool, true, false, IsTrue, OnErr, OnOk, IfOk, IfErr};
ghost use Rattle.std.specs.Prelude.{map, None};
ghost use Rattle.std.specs.Prelude.{take, vec_len, MatchResult};
ghost use Rattle.std.specs.List.{list_all, AllByRecursion};
ghost use Rattle.std.specs.Arc.{arc_value};
ghost use Rattle.flow_disk.specs.Cause.{HasCause};
ghost use Rattle.flow_manifest.specs.declared.following.JobKind.{JobKind};
ghost use Rattle.flow_manifest.specs.declared.manifest.Manifest.{Manifest};
ghost use Rattle.flow_snapshot.specs.Directories.{sight_of};
ghost use Rattle.flow_snapshot.specs.Files.{is_honest, rollup_of, segment_of, shared};
ghost use Rattle.flow_archive.specs.Frozen.{all_frozen, frozen_as, is_shared, rolled_in, segment_file, segment_in};
ghost use Rattle.flow_archive.specs.Frozen.{shelf_with, sums_file, unshared, value_of, wide_in, width_of, HasSpan};
ghost use Rattle.flow_archive.specs.Frozen.{HaveSpans, MayBeFrozen};
ghost use Rattle.flow_rolled.specs.Spans as rows;
ghost use Rattle.flow_segment.specs.Segment.{part_octets};
ghost use Rattle.flow_segment.specs.Spans as segment;
ghost use Rattle.flow_archive.specs.Advancing.{IsNotTaken};
ghost use Rattle.flow_archive.specs.Sources.{IsRead, IsReadWhole, IsSource, IsTakenUp};
ghost use Rattle.flow_model.specs.Jobs.{width_made};
ghost use Rattle.flow_recover.specs.Kept.{AreFilesOf};
ghost use Rattle.flow_model.specs.State.{Part};
ghost use Rattle.flow_archive.specs.Frozen as own;

use crate::sources::{add_file, add_segment};
use bytes::Bytes;
use flow_disk::{Faults, SealedFile, Window};
use flow_manifest::{Entry, Kind, Manifest};
use flow_measure::{PartSpan, Rows};
use flow_refusals::SumRefusal;
use flow_rolled::{RolledPart, RowSpan};
use flow_segment::SealedPart;
use flow_snapshot::Files;
use std::alloc::{AllocError, Global};
use std::marker::Model;
use std::mem::replace;
use std::sync::Arc;

/// A value with one owner, or perhaps with further ones.
#[derive(Drop)]
pub(crate) enum Owned<P> {
    /// It has one owner, and takes no memory of its own.
    Plain(P),
    /// It is shared.
    Shared(Arc<P>),
}

impl<P: Drop> Owned<P> {
    /// The same value, which is shared from now on, where memory is not refused.
    fn shared(self, alloc: Global) -> Self
        ensures { value_of result ≡ value_of self }
    {
        match self {
            Owned::Plain(value) => match Arc::new(alloc, value) {
                Ok(arc) => Owned::Shared(arc),
                Err(refused) => Owned::Plain(refused.value),
            },
            Owned::Shared(arc) => Owned::Shared(arc),
        }
    }

    /// The value.
    fn value(&self) -> &P
        ensures { result.now ≡ value_of self.now }
    {
        match self {
            Owned::Plain(value) => value,
            Owned::Shared(arc) => arc,
        }
    }

    /// One owner more. It takes no memory, and is refused where the value isn't shared.
    fn owner(&self) -> Result<Arc<P>, AllocError>
        ensures { IfOk result (λ arc. arc_value arc ≡ value_of self.now) }
    {
        match self {
            Owned::Plain(_) => Err(AllocError),
            Owned::Shared(arc) => Arc::try_clone(arc),
        }
    }

    /// The value, where it has no further owner.
    fn into_value(self) -> Result<P, Self>
        ensures done { IfOk result (λ value. value ≡ value_of self) }
        ensures refused { IfErr result (λ same. (same ≡ self) × (is_shared self ≡ true)) }
    {
        match self {
            Owned::Plain(value) => Ok(value),
            Owned::Shared(arc) => match Arc::try_unwrap(arc) {
                Ok(value) => Ok(value),
                Err(arc) => Err(Owned::Shared(arc)),
            },
        }
    }
}

/// A frozen file, by its kind.
#[derive(Drop)]
pub(crate) enum FrozenPart<S: SealedFile> {
    /// A sealed segment.
    Sealed(Owned<SealedPart<S>>),
    /// Sums over intervals of the width.
    Rolled(Owned<RolledPart<S>>),
    /// Sums over wide intervals.
    Wide(Owned<RolledPart<S>>),
}

/// A frozen file of an archive. It is seen as its entry, beside whether it is on an honest disk, its octets, and
/// whether it may have further owners.
#[derive(Drop)]
pub(crate) struct FrozenFile<S: SealedFile> {
    held: FrozenPart<S>,
}

impl<S: SealedFile> Model for FrozenFile<S> {
    ghost use Rattle.flow_archive.specs.Frozen.{frozen_of, Frozen};

    ghost Value = { Frozen };

    ghost view = { λ f. frozen_of f.held };
}

impl<S: SealedFile> FrozenFile<S> {
    /// A file as the disk gave it, which this entry names.
    pub(crate) fn named(file: S, entry: Entry) -> Self
        requires number { S.number file ≡ entry.file }
        requires long { entry.length ≤ S.size file }
        requires entry { MayBeFrozen entry.kind entry }
        ensures { result ≡ frozen_as entry (S.honest file) (S.octets file) }
    {
        let held = match entry.kind {
            Kind::Wide => FrozenPart::Wide(sums_of(file, entry)),
            Kind::Rolled => FrozenPart::Rolled(sums_of(file, entry)),
            Kind::Sealed => FrozenPart::Sealed(Owned::Plain(SealedPart {
                reader: file,
                prefix: u64::from(entry.prefix),
                length: entry.length,
                messages: entry.messages,
                span: None,
            })),
            Kind::Active => unreachable!(),
        };
        FrozenFile { held }
    }

    /// The same file, of which it is known when its flows start, or the intervals of its sums, by `width` in seconds.
    pub(crate) fn with_span(self, width: u32, span: PartSpan) -> Self
        requires { HasSpan self width span }
        ensures { result ≡ self }
    {
        let held = match self.held {
            FrozenPart::Sealed(part) => FrozenPart::Sealed(spanned_segment(part, span)),
            FrozenPart::Rolled(part) => {
                FrozenPart::Rolled(spanned_sums(part, RowSpan { width, span }))
            }
            FrozenPart::Wide(part) => FrozenPart::Wide(spanned_sums(part, RowSpan { width, span })),
        };
        FrozenFile { held }
    }

    /// Its number.
    pub(crate) fn number(&self) -> u64
        ensures { result ≡ self.now.entry.file }
    {
        match &self.held {
            FrozenPart::Sealed(part) => part.value().reader.file(),
            FrozenPart::Rolled(part) => part.value().file(),
            FrozenPart::Wide(part) => part.value().file(),
        }
    }

    /// Adds what it holds to sums, and answers its greatest Export Time, in seconds since 1970-01-01 00:00 UTC. A file
    /// of sums was rolled by `width` seconds. It is read once, a piece at a time, a sealed segment in the memory of
    /// `window`. A refusal leaves the sums as they were.
    pub(crate) fn add_to(
        &self,
        alloc: Global,
        width: u32,
        window: &mut Window,
        rows: &mut Rows,
        faults: &mut Faults<S>,
    ) -> Result<u32, SumRefusal>
        requires { 0 < width }
        ensures kept { OnErr result (rows.new ≡ rows.old) }
        ensures width { rows.new.width ≡ rows.old.width }
        ensures cause { HasCause SumRefusal.Fault faults.old faults.new result }
        // On an honest disk, damaged or not: all that it holds is added; or why not.
        ensures found { IsTrue self.now.honest → MatchResult result
            (IsTakenUp (IsReadWhole self.now.entry.kind width rows.old.width self.now) rows.old rows.new)
            (IsNotTaken width self.now rows.old) }
        // On an honest disk: where it is a source for a job, it is read as one.
        ensures read { IsTrue self.now.honest → (kind : JobKind) (m : Manifest) (p : Part) → width ≡ m.width
            → rows.old.width ≡ width_made kind m → IsSource kind m self.now p
            → IsRead kind m p rows.old rows.new result }
    {
        match &self.held {
            FrozenPart::Sealed(part) => add_segment(alloc, part.value(), window, rows, faults),
            FrozenPart::Rolled(part) => add_file(alloc, part.value(), width, rows, faults),
            FrozenPart::Wide(part) => add_file(alloc, part.value(), width, rows, faults),
        }
    }

    /// Its kind.
    pub(crate) fn kind(&self) -> Kind
        ensures { result ≡ self.now.entry.kind }
    {
        match &self.held {
            FrozenPart::Sealed(_) => Kind::Sealed,
            FrozenPart::Rolled(_) => Kind::Rolled,
            FrozenPart::Wide(_) => Kind::Wide,
        }
    }

    /// One owner more of a sealed segment. It is refused where the file isn't shared.
    pub(crate) fn segment(&self) -> Result<Arc<SealedPart<S>>, AllocError>
        requires { self.now.entry.kind ≡ Kind.Sealed }
        ensures part { IfOk result (λ part. segment_of (arc_value part) ≡ own.segment_of self.now) }
        ensures honest { IfOk result (λ part. is_honest (arc_value part) ≡ self.now.honest) }
    {
        match &self.held {
            FrozenPart::Sealed(part) => part.owner(),
            FrozenPart::Rolled(_) => unreachable!(),
            FrozenPart::Wide(_) => unreachable!(),
        }
    }

    /// One owner more of a file of sums. It is refused where the file isn't shared.
    pub(crate) fn sums(&self) -> Result<Arc<RolledPart<S>>, AllocError>
        requires { self.now.entry.kind ≢ Kind.Sealed }
        ensures part { IfOk result (λ part. rollup_of (arc_value part) ≡ own.rollup_of self.now) }
        ensures honest { IfOk result (λ part. (arc_value part).honest ≡ self.now.honest) }
    {
        match &self.held {
            FrozenPart::Sealed(_) => unreachable!(),
            FrozenPart::Rolled(part) => part.owner(),
            FrozenPart::Wide(part) => part.owner(),
        }
    }

    /// The file, as its disk takes it back. It is refused only where the file is shared.
    pub(crate) fn into_file(self) -> Result<S, Self>
        ensures done { IfOk result (λ file. S.number file ≡ self.entry.file) }
        ensures refused { IfErr result (λ same. (same ≡ self) × (self.shared ≡ true)) }
    {
        let held = match self.held {
            FrozenPart::Sealed(part) => match part.into_value() {
                Ok(part) => return Ok(part.reader),
                Err(part) => FrozenPart::Sealed(part),
            },
            FrozenPart::Rolled(part) => match part.into_value() {
                Ok(part) => return Ok(part.into_file()),
                Err(part) => FrozenPart::Rolled(part),
            },
            FrozenPart::Wide(part) => match part.into_value() {
                Ok(part) => return Ok(part.into_file()),
                Err(part) => FrozenPart::Wide(part),
            },
        };
        Err(FrozenFile { held })
    }

    /// The same file, which is shared from now on, where memory is not refused.
    fn shared(self, alloc: Global) -> Self
        ensures { unshared result ≡ unshared self }
    {
        let held = match self.held {
            FrozenPart::Sealed(part) => FrozenPart::Sealed(part.shared(alloc)),
            FrozenPart::Rolled(part) => FrozenPart::Rolled(part.shared(alloc)),
            FrozenPart::Wide(part) => FrozenPart::Wide(part.shared(alloc)),
        };
        FrozenFile { held }
    }

    /// Appends the file to those of its kind, with one more owner. It is refused where the file isn't shared.
    fn list(&self, files: &mut Files<S>) -> Result<(), AllocError>
        ensures merged { OnOk result (map rollup_of (shared files.new.merged.items)
            ≡ map rollup_of (shared files.old.merged.items) ++ wide_in self.now.entry.kind self.now) }
        ensures rolled { OnOk result (map rollup_of (shared files.new.rolled.items)
            ≡ map rollup_of (shared files.old.rolled.items) ++ rolled_in self.now.entry.kind self.now) }
        ensures sealed { OnOk result (map segment_of (shared files.new.sealed.items)
            ≡ map segment_of (shared files.old.sealed.items) ++ segment_in self.now.entry.kind self.now) }
        ensures kept { (files.new.prefix ≡ files.old.prefix) × (files.new.active.items ≡ files.old.active.items) }
        ensures honest { OnOk result (IsTrue self.now.honest → IsTrue (sight_of 0 0 files.old).honest
            → IsTrue (sight_of 0 0 files.new).honest) }
    {
        match &self.held {
            FrozenPart::Sealed(part) => files.sealed.push(part.owner()?)?,
            FrozenPart::Rolled(part) => files.rolled.push(part.owner()?)?,
            FrozenPart::Wide(part) => files.merged.push(part.owner()?)?,
        }
        Ok(())
    }
}

/// A file of sums that this entry names.
fn sums_of<S: SealedFile>(file: S, entry: Entry) -> Owned<RolledPart<S>>
    requires long { entry.length ≤ S.size file }
    ensures value { value_of result ≡ record {
      file = S.number file;
      messages = entry.messages;
      length = entry.length;
      honest = S.honest file;
      octets = take entry.length (S.octets file);
      span = None;
    } }
    ensures alone { is_shared result ≡ false }
{
    Owned::Plain(RolledPart::new(file, entry.messages, entry.length))
}

/// The same segment, of which it is known when its flows start, unless it is shared.
fn spanned_segment<S: SealedFile>(
    part: Owned<SealedPart<S>>,
    span: PartSpan,
) -> Owned<SealedPart<S>>
    requires { IsTrue (S.honest (value_of part).reader) → segment.HasSpan span
        (part_octets 0 (value_of part).prefix (S.octets (value_of part).reader))
        (part_octets (value_of part).prefix (value_of part).length (S.octets (value_of part).reader))
        (value_of part).messages }
    ensures { segment_file (is_shared result) (value_of result) ≡ segment_file (is_shared part) (value_of part) }
{
    match part {
        Owned::Plain(part) => Owned::Plain(SealedPart {
            reader: part.reader,
            prefix: part.prefix,
            length: part.length,
            messages: part.messages,
            span: Some(span),
        }),
        Owned::Shared(arc) => Owned::Shared(arc),
    }
}

/// The same file of sums, of which it is known when its intervals start, unless it is shared.
fn spanned_sums<S: SealedFile>(part: Owned<RolledPart<S>>, span: RowSpan) -> Owned<RolledPart<S>>
    requires { IsTrue (value_of part).honest → rows.HasSpan span (value_of part).octets }
    ensures { (of : Kind) → sums_file of (is_shared result) (value_of result)
        ≡ sums_file of (is_shared part) (value_of part) }
{
    match part {
        Owned::Plain(part) => Owned::Plain(part.with_span(span)),
        Owned::Shared(arc) => Owned::Shared(arc),
    }
}

/// Shares each file where memory is not refused.
fn share_all<S: SealedFile>(alloc: Global, files: &mut Vec<FrozenFile<S>>) -> Result<(), AllocError>
    ensures { map unshared files.new.items ≡ map unshared files.old.items }
{
    let room = Vec::with_capacity(alloc, files.len())?;
    for file in replace(files, room) {
        files.push_reserved(file.shared(alloc));
    }
    Ok(())
}

/// Shares the file at a place, where memory is not refused.
pub(crate) fn share_at<S: SealedFile>(alloc: Global, files: &mut Vec<FrozenFile<S>>, place: usize)
    requires { place < vec_len files.old }
    ensures len { vec_len files.new ≡ vec_len files.old }
    ensures same { map unshared files.new.items ≡ map unshared files.old.items }
{
    let file = files.remove(place);
    let Ok(()) = files.insert(place, file.shared(alloc)) else {
        unreachable!();
    };
}

/// These files, all of them shared, in their order, and an active segment with this prefix and these messages.
fn listed<S: SealedFile>(
    alloc: Global,
    files: &[FrozenFile<S>],
    prefix: Bytes,
    active: Vec<Bytes>,
) -> Result<Files<S>, AllocError>
    ensures shelf { IfOk result (λ list. (width wide : ℕ) → (sight_of width wide list).shelf
        ≡ shelf_with width wide files.now prefix active.items) }
    ensures honest { IsTrue (list_all (λ f. f.honest) files.now)
        → IfOk result (λ list. (width wide : ℕ) → IsTrue (sight_of width wide list).honest) }
{
    let mut list = Files {
        merged: Vec::new(alloc),
        rolled: Vec::new(alloc),
        sealed: Vec::new(alloc),
        prefix,
        active,
    };
    for file in files {
        file.list(&mut list)?;
    }
    Ok(list)
}

/// The files as a directory has them, shared from now on, and an active segment with this prefix and these messages.
/// Where memory is refused, some of them are shared.
pub(crate) fn shared_files<S: SealedFile>(
    alloc: Global,
    files: &mut Vec<FrozenFile<S>>,
    prefix: &Bytes,
    messages: &Vec<Bytes>,
) -> Result<Files<S>, AllocError>
    ensures same { map unshared files.new.items ≡ map unshared files.old.items }
    ensures shelf { IfOk result (λ list. (width wide : ℕ) → (sight_of width wide list).shelf
        ≡ shelf_with width wide files.old.items prefix.now messages.now.items) }
    ensures honest { IsTrue (list_all (λ f. f.honest) files.old.items)
        → IfOk result (λ list. (width wide : ℕ) → IsTrue (sight_of width wide list).honest) }
{
    share_all(alloc, files)?;
    listed(alloc, files.as_slice(), prefix.clone()?, messages.clone()?)
}

/// The files that an opening has frozen, one for each entry.
pub(crate) fn frozen_files<S: SealedFile>(
    alloc: Global,
    entries: &[Entry],
    files: Vec<S>,
) -> Result<Vec<FrozenFile<S>>, AllocError>
    requires files { (honest : Bool) × AreFilesOf S.number S.size S.honest honest entries.now files.items }
    requires entries { AllByRecursion (λ e. MayBeFrozen e.kind e) entries.now }
    ensures { IfOk result (λ frozen. frozen.items ≡ all_frozen S.honest S.octets entries.now files.items) }
{
    let mut frozen = Vec::with_capacity(alloc, files.len())?;
    for file in files {
        let entry = entries[frozen.len()];
        frozen.push_reserved(FrozenFile::named(file, entry));
    }
    Ok(frozen)
}

/// The width in seconds of the intervals of a file of a kind.
fn width_of(kind: Kind, manifest: &Manifest) -> u32
    ensures { result ≡ width_of kind manifest.now }
{
    match kind {
        Kind::Wide => manifest.wide,
        _ => manifest.width,
    }
}

/// The same files, of which it is known when their flows start.
pub(crate) fn spanned_files<S: SealedFile>(
    alloc: Global,
    files: Vec<FrozenFile<S>>,
    manifest: &Manifest,
    spans: &[PartSpan],
) -> Result<Vec<FrozenFile<S>>, AllocError>
    requires { HaveSpans manifest.now files.items spans.now }
    ensures { IfOk result (λ all. all.items ≡ files.items) }
{
    let mut all = Vec::with_capacity(alloc, files.len())?;
    for file in files {
        let known = all.len();
        let file = if known < spans.len() {
            let width = width_of(file.kind(), manifest);
            file.with_span(width, spans[known])
        } else {
            file
        };
        all.push_reserved(file);
    }
    Ok(all)
}
