//! What a roller waits for.

ghost use Rattle.std.specs.Prelude.{◌≡◌, ◌≢◌, ◌⊎◌, ◌↔◌, ◌≤◌, false, IsTrue};
ghost use Rattle.flow_roller.specs.Asked.{to_keep, to_merge};

use std::marker::{Brand, PhantomData};
use std::sync::{Condvar, Mutex, Wait};

/// How many of the newest sealed segments, and of the newest rolled files, may be left as they are. Each use of a bell
/// picks it.
pub trait Keeping {
    ghost use Rattle.flow_roller.specs.Asked.{Asked};

    /// It was asked for that so many are left.
    ghost asked: { Asked → Type 0 };
}

impl Keeping for Brand {
    ghost use Rattle.std.specs.Prelude.{⊤};

    ghost asked = { λ any. ⊤ };
}

/// What a roller knows of the work beside it.
#[derive(Drop)]
struct Work<K: Keeping> {
    /// How often there was something new, up to 2^64 - 1.
    rings: u64,
    has_ended: bool,
    /// How many of the newest sealed segments are left as they are.
    keep: u32,
    /// How many of the newest rolled files are, where older ones are merged.
    merge: Option<u32>,
    of: PhantomData<K>,
    ghost is_asked: { ∥ K.asked (to_keep keep) ∥₁ },
    ghost is_merge_asked: { ∥ K.asked (to_merge merge) ∥₁ },
}

impl<K: Keeping> Work<K> {
    /// Nothing is new yet, so many of the newest segments are left as they are, and so many of the newest rolled files,
    /// where older ones are merged.
    fn new(keep: u32, merge: Option<u32>) -> Work<K>
        requires keep { ∥ K.asked (to_keep keep) ∥₁ }
        requires merge { ∥ K.asked (to_merge merge) ∥₁ }
        ensures keep { result.keep ≡ keep }
        ensures merge { result.merge ≡ merge }
        ensures none { result.rings ≡ 0 }
        ensures goes_on { result.has_ended ≡ false }
    {
        Work {
            rings: 0,
            has_ended: false,
            keep,
            merge,
            of: PhantomData,
        }
    }

    /// There may be something to roll.
    fn ring(&mut self)
        ensures later { self.old.rings ≤ self.new.rings }
        ensures same { (self.new.keep ≡ self.old.keep) × (self.new.merge ≡ self.old.merge)
            × (self.new.has_ended ≡ self.old.has_ended) }
    {
        self.rings = self.rings.saturating_add(1);
    }

    /// From now on so many of the newest segments are left as they are.
    fn set_keep(&mut self, keep: u32)
        requires { ∥ K.asked (to_keep keep) ∥₁ }
        ensures keep { self.new.keep ≡ keep }
        ensures same { (self.new.merge ≡ self.old.merge) × (self.new.rings ≡ self.old.rings)
            × (self.new.has_ended ≡ self.old.has_ended) }
    {
        self.keep = keep;
    }

    /// From now on so many of the newest rolled files are left as they are, where older ones are merged.
    fn set_merge(&mut self, merge: Option<u32>)
        requires { ∥ K.asked (to_merge merge) ∥₁ }
        ensures merge { self.new.merge ≡ merge }
        ensures same { (self.new.keep ≡ self.old.keep) × (self.new.rings ≡ self.old.rings)
            × (self.new.has_ended ≡ self.old.has_ended) }
    {
        self.merge = merge;
    }

    /// How many of the newest segments are left as they are.
    fn kept(&self) -> u32
        ensures value { result ≡ self.now.keep }
        ensures asked { ∥ K.asked (to_keep result) ∥₁ }
    {
        self.keep
    }

    /// How many of the newest rolled files are left as they are, where older ones are merged.
    fn merged(&self) -> Option<u32>
        ensures value { result ≡ self.now.merge }
        ensures asked { ∥ K.asked (to_merge result) ∥₁ }
    {
        self.merge
    }

    /// Nothing more is appended.
    fn end(&mut self)
        ensures ended { IsTrue self.new.has_ended }
        ensures same { (self.new.keep ≡ self.old.keep) × (self.new.merge ≡ self.old.merge)
            × (self.new.rings ≡ self.old.rings) }
    {
        self.has_ended = true;
    }

    /// Whether it has rung more often than this, or nothing more is appended.
    fn has_news(&self, heard: u64) -> bool
        ensures { IsTrue result ↔ (IsTrue self.now.has_ended ⊎ (self.now.rings ≢ heard)) }
    {
        self.has_ended || self.rings != heard
    }

    /// Whether nothing more is appended. `heard` is then the count of the rings.
    fn hear(&self, heard: &mut u64) -> bool
        ensures ended { result ≡ self.now.has_ended }
        ensures heard { heard.new ≡ self.now.rings }
    {
        *heard = self.rings;
        self.has_ended
    }
}

/// By which those who append wake a roller: there may be something to roll, or nothing more is appended. What it says
/// to keep, and to merge, was asked for, whichever thread set it.
#[derive(Drop)]
pub struct Bell<K: Keeping> {
    work: Mutex<Work<K>>,
    changed: Condvar,
}

impl<K: Keeping> Bell<K> {
    /// One that hasn't rung yet. The newest `keep` sealed segments are left as they are. Of the rolled files the newest
    /// `merge` are, where that is some number, and older ones are merged once there are many; else none is merged.
    pub fn new(keep: u32, merge: Option<u32>) -> Bell<K>
        requires keep { ∥ K.asked (to_keep keep) ∥₁ }
        requires merge { ∥ K.asked (to_merge merge) ∥₁ }
    {
        Bell {
            work: Mutex::new(Work::new(keep, merge)),
            changed: Condvar::new(),
        }
    }

    /// Says that there may be something to roll.
    pub fn ring<W: Wait>(&self, rt: &W) {
        let mut work = self.work.lock(rt);
        work.ring();
        drop(work);
        self.changed.notify_all();
    }

    /// How many of the newest sealed segments are left as they are.
    pub(crate) fn keep<W: Wait>(&self, rt: &W) -> u32
        ensures { ∥ K.asked (to_keep result) ∥₁ }
    {
        self.work.lock(rt).kept()
    }

    /// How many of the newest rolled files are left as they are, where older ones are merged.
    pub(crate) fn merge<W: Wait>(&self, rt: &W) -> Option<u32>
        ensures { ∥ K.asked (to_merge result) ∥₁ }
    {
        self.work.lock(rt).merged()
    }

    /// From now on the newest `keep` sealed segments are left as they are.
    pub fn set_keep<W: Wait>(&self, rt: &W, keep: u32)
        requires { ∥ K.asked (to_keep keep) ∥₁ }
    {
        let mut work = self.work.lock(rt);
        work.set_keep(keep);
        work.ring();
        drop(work);
        self.changed.notify_all();
    }

    /// From now on the newest `merge` rolled files are left as they are, and older ones are merged once there are many;
    /// where it is no number none is merged.
    pub fn set_merge<W: Wait>(&self, rt: &W, merge: Option<u32>)
        requires { ∥ K.asked (to_merge merge) ∥₁ }
    {
        let mut work = self.work.lock(rt);
        work.set_merge(merge);
        work.ring();
        drop(work);
        self.changed.notify_all();
    }

    /// Says that nothing more is appended.
    pub fn end<W: Wait>(&self, rt: &W) {
        let mut work = self.work.lock(rt);
        work.end();
        drop(work);
        self.changed.notify_all();
    }

    /// Waits until it has rung more often than `heard` says, or nothing more is appended, and answers whether the
    /// latter is so. `heard` is then the count of its rings.
    pub(crate) fn wait<W: Wait>(&self, rt: &W, heard: &mut u64) -> bool
        ensures { IsTrue result ⊎ (heard.new ≢ heard.old) }
    {
        let mut work = self.work.lock(rt);
        for _ in rt.forever() {
            if work.has_news(*heard) {
                break;
            }
            work = self.changed.wait(rt, work);
        }
        work.hear(heard)
    }
}
