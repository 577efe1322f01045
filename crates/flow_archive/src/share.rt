//! What an archive shares with its readers: its files, and each later step.

ghost use Rattle.std.specs.Prelude.{◌≡◌, ◌≢◌, ◌-◌, ◌<◌, true, IsTrue, IfOk, length, ℕ, List, map, get_or};
ghost use Rattle.flow_measure.specs.History.{History};
ghost use Rattle.flow_measure.specs.View.{view_of};
ghost use Rattle.flow_model.specs.Changes.{counts_of, applied, Change};
ghost use Rattle.flow_model.specs.Views.{IsViewOf};
ghost use Rattle.flow_model.specs.Shelved.{HasHistory, shelf_of};
ghost use Rattle.flow_archive.specs.Seen.{HasActive};
ghost use Rattle.std.specs.Arc.{arc_value};
ghost use Rattle.std.specs.List.{list_all};
ghost use Rattle.flow_model.specs.Changes.Change.{added};
ghost use Rattle.flow_model.specs.Shelf.{Shelf};
ghost use Rattle.flow_snapshot.specs.Steps.{change_of, has_honest};
ghost use Rattle.flow_archive.specs.Marks.{mark_of, HasKind, HasMark, HasMarkAmong, IsMarked, IsMarkedAmong};
ghost use Rattle.flow_archive.specs.Marks.{IsNewestOf};
ghost use Rattle.flow_archive.specs.Frozen.{rollup_of, segment_of, unshared, Frozen};
ghost use Rattle.flow_snapshot.specs.Files as shown;

use crate::archive::Archive;
use crate::frozen::{FrozenFile, share_at, shared_files};
use bytes::Bytes;
use flow_disk::{Disk, SealedFile};
use flow_manifest::Kind;
use flow_rolled::RolledPart;
use flow_segment::SealedPart;
use flow_snapshot::{Directory, Mark, Step};
use std::alloc::{AllocError, Global};
use std::sync::Arc;

impl<D: Disk> Archive<D> {
    /// Its files as they are now, shared, for readers, which learn of later steps one by one. From now on the archive
    /// is shared, also where memory is refused, which changes nothing else. No octets are copied, and nothing is read.
    /// A closed archive has one too.
    pub fn directory(&mut self, alloc: Global) -> Result<Directory<D::Sealed>, AllocError>
        ensures disk { self.new.disk ≡ self.old.disk }
        ensures closed { self.new.closed ≡ self.old.closed }
        ensures state { self.new.state ≡ record self.old.state { shared = true } }
        // On every disk it has the widths, and the active segment.
        ensures active { IfOk result (λ d. HasActive self.old.state d.shelf) }
        // On every disk it has the files of the archive's state.
        ensures every { IfOk result (λ d. d.shelf ≡ shelf_of self.old.state) }
        // On an honest disk they read as they are.
        ensures shown { IsTrue (D.honest self.old.disk)
            → IfOk result (λ d. (d.shelf ≡ shelf_of self.old.state) × (d.honest ≡ true)) }
        // Then its files have the view of each history that the archive has.
        ensures history { IsTrue (D.honest self.old.disk) → (h : History) → HasHistory self.old.state h
            → IfOk result (λ d. IsViewOf d.shelf (view_of h (counts_of d.shelf))) }
    {
        self.shared = true;
        let files = shared_files(alloc, &mut self.files, &self.prefix, &self.messages)?;
        let manifest = &self.slots.current;
        Ok(Directory::new(manifest.width, manifest.wide, files))
    }

    /// The step that a mark names, with its content, for directories: messages of the active segment, or the newest
    /// file of a kind, shared. From now on the archive is shared, also where memory is refused, which changes nothing
    /// else. No octets are copied, and nothing is read. A closed archive answers its steps too.
    pub fn step(&mut self, alloc: Global, mark: Mark) -> Result<Step<D::Sealed>, AllocError>
        requires { HasMark self.old.state mark }
        ensures disk { self.new.disk ≡ self.old.disk }
        ensures closed { self.new.closed ≡ self.old.closed }
        ensures state { self.new.state ≡ record self.old.state { shared = true } }
        // On every disk it has what its mark says.
        ensures marked { IfOk result (λ step. IsMarked self.old.state mark (change_of step)) }
        // It is the change of this mark that made the archive's files what they are, but for messages that were added
        // after it.
        ensures told { (before : Shelf) (change : Change) (later : List (List ℕ))
            → mark ≡ mark_of before change → shelf_of self.old.state ≡ applied (applied before change) (added later)
            → IfOk result (λ step. change_of step ≡ change) }
        ensures honest { IsTrue (D.honest self.old.disk) → IfOk result (λ step. has_honest step ≡ true) }
    {
        self.shared = true;
        let before = self.total - self.messages.len() as u64;
        let messages = self.messages.as_slice();
        named(alloc, &mut self.files, &self.prefix, before, messages, mark)
    }
}

/// The step that a mark names, of these files and an active segment with this prefix and these messages, which come
/// after `before` others.
fn named<S: SealedFile>(
    alloc: Global,
    files: &mut Vec<FrozenFile<S>>,
    prefix: &Bytes,
    before: u64,
    messages: &[Bytes],
    mark: Mark,
) -> Result<Step<S>, AllocError>
    requires { HasMarkAmong files.old.items before messages.now mark }
    ensures same { map unshared files.new.items ≡ map unshared files.old.items }
    ensures step { IfOk result (λ step. IsMarkedAmong files.old.items prefix.now before messages.now mark
        (change_of step)) }
    ensures honest { IsTrue (list_all (λ f. f.honest) files.old.items)
        → IfOk result (λ step. has_honest step ≡ true) }
{
    match mark {
        Mark::Added(first, last) => {
            let from = (first - 1 - before) as usize;
            let to = (last - before) as usize;
            Ok(Step::Added(shared_all(alloc, &messages[from..to])?))
        }
        Mark::Sealed(_) => {
            let part = newest_segment(alloc, files)?;
            Ok(Step::Sealed(part, prefix.clone()?))
        }
        Mark::Installed(_, sources) => {
            let part = newest_sums(alloc, files, Kind::Rolled)?;
            Ok(Step::Installed(part, sources))
        }
        Mark::Merged(_, sources) => {
            let part = newest_sums(alloc, files, Kind::Wide)?;
            Ok(Step::Merged(part, sources))
        }
    }
}

/// The same messages, each with one more owner.
fn shared_all(alloc: Global, messages: &[Bytes]) -> Result<Vec<Bytes>, AllocError>
    ensures { IfOk result (λ shared. shared.items ≡ messages.now) }
{
    let mut shared = Vec::with_capacity(alloc, messages.len())?;
    for message in messages {
        shared.push_reserved(message.clone()?);
    }
    Ok(shared)
}

/// One owner more of the newest sealed segment, which is shared from now on, where memory is not refused.
fn newest_segment<S: SealedFile>(
    alloc: Global,
    files: &mut Vec<FrozenFile<S>>,
) -> Result<Arc<SealedPart<S>>, AllocError>
    requires { HasKind Kind.Sealed files.old.items }
    ensures same { map unshared files.new.items ≡ map unshared files.old.items }
    ensures part { IfOk result (λ part. (f : Frozen) × IsNewestOf Kind.Sealed files.old.items f
        × (shown.segment_of (arc_value part) ≡ segment_of f) × (shown.is_honest (arc_value part) ≡ f.honest)) }
{
    let place = newest(files.as_slice(), Kind::Sealed);
    share_at(alloc, files, place);
    files[place].segment()
}

/// One owner more of the newest file of sums of a kind, which is shared from now on, where memory is not refused.
fn newest_sums<S: SealedFile>(
    alloc: Global,
    files: &mut Vec<FrozenFile<S>>,
    kind: Kind,
) -> Result<Arc<RolledPart<S>>, AllocError>
    requires there { HasKind kind files.old.items }
    requires sums { kind ≢ Kind.Sealed }
    ensures same { map unshared files.new.items ≡ map unshared files.old.items }
    ensures part { IfOk result (λ part. (f : Frozen) × IsNewestOf kind files.old.items f
        × (shown.rollup_of (arc_value part) ≡ rollup_of f) × ((arc_value part).honest ≡ f.honest)) }
{
    let place = newest(files.as_slice(), kind);
    share_at(alloc, files, place);
    files[place].sums()
}

/// The place of the newest file of a kind.
fn newest<S: SealedFile>(files: &[FrozenFile<S>], kind: Kind) -> usize
    requires { HasKind kind files.now }
    ensures below { result < length files.now }
    ensures newest { (f : Frozen) → f ≡ get_or files.now result f → IsNewestOf kind files.now f }
{
    let mut newest = 0;
    for place in 0..files.len() {
        if files[place].kind() == kind {
            newest = place;
        }
    }
    newest
}
