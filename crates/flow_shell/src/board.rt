//! The Files that are fed, and how those ended that aren't written down yet.

ghost use Rattle.std.specs.Prelude.{◌≡◌, ◌≢◌, ◌↔◌, IfSome, IsTrue};
ghost use Rattle.std.specs.Sync.Mutex.{mutex_guard_value};
ghost use Rattle.flow_shell.specs.Losses.{IsCounted, IsOfNoFile};
ghost use Rattle.flow_shell.specs.declared.losses.FeedCounts.{FeedCounts as Counts};
ghost use Rattle.flow_shell.specs.Places.{AreSaid, Begins, Frees, HasFed, IsFirst, Replaces};

use crate::losses::{FeedCounts, Missed};
use flow_feed::Fed;
use flow_roller::{Bell, Keeping};
use std::io;
use std::io::{ErrorKind, Read};
use std::marker::{Brand, PhantomData};
use std::sync::{Condvar, Mutex, MutexGuard, Wait};

/// The most Files that are fed at once.
const MOST_FILES: usize = 8;

/// A place for a File. Files are numbered from 1 on, in the order in which they were asked for.
#[derive(Clone, Copy, PartialEq, Eq)]
enum Place {
    Free,
    /// The File of this number is fed.
    Fed(u64),
    /// It has ended so.
    Ended(u64, Fed),
}

impl Place {
    /// `to` in place of `from`; any other is as it was.
    fn replaced(self, from: Place, to: Place) -> Place
        ensures same { self ≡ from → result ≡ to }
        ensures other { self ≢ from → result ≡ self }
    {
        if self == from { to } else { self }
    }
}

/// All places.
#[derive(Clone, Copy)]
struct Places {
    places: [Place; MOST_FILES],
    /// How many Files were asked for.
    count: u64,
    is_ending: bool,
}

impl Places {
    /// Whether a File is fed.
    fn has_fed(&self) -> bool
        ensures { IsTrue result ↔ HasFed self.now.places }
    {
        for place in &self.places {
            if let Place::Fed(_) = place {
                return true;
            }
        }
        false
    }

    /// A place for one File more, which has the number that is answered; none where all are taken.
    fn begin(&mut self) -> Option<u64>
        ensures { Begins self.old result self.new }
    {
        let number = self.count.saturating_add(1);
        for place in &mut self.places {
            if let Place::Free = *place {
                *place = Place::Fed(number);
                self.count = number;
                return Some(number);
            }
        }
        None
    }

    /// Each place that is `from` is `to` from then on.
    fn replace(&mut self, from: Place, to: Place)
        ensures { Replaces from to self.old self.new }
    {
        for place in &mut self.places {
            *place = place.replaced(from, to);
        }
    }

    /// The File of this number has ended so.
    fn end(&mut self, number: u64, fed: Fed)
        ensures { Replaces (Place.Fed number) (Place.Ended number fed) self.old self.new }
    {
        self.replace(Place::Fed(number), Place::Ended(number, fed));
    }

    /// The File with the least number that has ended.
    fn first_ended(&self) -> Option<(u64, Fed)>
        ensures { IsFirst self.now.places result }
    {
        let mut first = None;
        for place in &self.places {
            if let Place::Ended(number, fed) = *place {
                first = match first {
                    Some((least, other)) if least < number => Some((least, other)),
                    _ => Some((number, fed)),
                };
            }
        }
        first
    }

    /// The File with the least number that has ended, whose place is free from then on.
    fn take_ended(&mut self) -> Option<(u64, Fed)>
        ensures answered { IsFirst self.old.places result }
        ensures freed { Frees result self.old self.new }
    {
        let first = self.first_ended();
        if let Some((number, fed)) = first {
            self.replace(Place::Ended(number, fed), Place::Free);
        }
        first
    }
}

/// Which Files were asked for, what is said of how they ended, and what was counted of them at some time. Each use of a
/// board picks it.
pub(crate) trait Ends {
    ghost use Rattle.std.specs.Prelude.{ℕ, List};
    ghost use Rattle.flow_commands.specs.declared.plan.InputKind.{InputKind as Kind};
    ghost use Rattle.flow_feed.specs.declared.batch.Fed.{Fed as HowFar};
    ghost use Rattle.flow_shell.specs.declared.losses.FeedCounts.{FeedCounts as Counts};
    ghost use Rattle.flow_shell.specs.declared.losses.Missed.{Missed as NotRead};
    ghost use Rattle.flow_shell.specs.Losses.{IsCounted};

    /// The File at this path was asked for, to be fed so.
    ghost to_feed: { List ℕ → Kind → Type 0 };

    /// The File of this number ended so.
    ghost said: { ℕ → HowFar → Type 0 };

    /// At some time so much was counted of all Files.
    ghost had: { Counts → Type 0 };

    /// After one more is counted so much is.
    ghost had_more: { (missed : NotRead) (old new : Counts) → ∥ had old ∥₁ → IsCounted missed old new → ∥ had new ∥₁ };
}

impl Ends for Brand {
    ghost use Rattle.std.specs.Prelude.{⊤};

    ghost to_feed = { λ path kind. ⊤ };

    ghost said = { λ number fed. ⊤ };

    ghost had = { λ counts. ⊤ };

    ghost had_more = { λ missed old new had counted. had };
}

/// The places, of which each File that has ended did so as is said of it; and what was counted of all Files so far.
#[derive(Drop)]
struct Table<B: Ends> {
    places: Places,
    counts: FeedCounts,
    of: PhantomData<B>,
    ghost are_said: { AreSaid B.said places.places },
    ghost is_had: { ∥ B.had counts ∥₁ },
}

impl<B: Ends> Table<B> {
    /// No File is fed, and nothing is counted.
    #[tactic(auto, using(crate::proofs::Said::none_ended))]
    fn new() -> Table<B>
        requires { (counts : Counts) → IsOfNoFile counts → ∥ B.had counts ∥₁ }
        ensures { IsOfNoFile result.counts }
    {
        let places = Places {
            places: [Place::Free; MOST_FILES],
            count: 0,
            is_ending: false,
        };
        Table {
            places,
            counts: FeedCounts::none(),
            of: PhantomData,
        }
    }

    /// Whether a File is fed.
    fn has_fed(&self) -> bool
        ensures { IsTrue result ↔ HasFed self.now.places.places }
    {
        self.places.has_fed()
    }

    /// A place for one File more, which has the number that is answered; none where all are taken.
    #[tactic(auto, using(crate::proofs::Said::begun))]
    fn begin(&mut self) -> Option<u64>
        ensures places { Begins self.old.places result self.new.places }
        ensures counts { self.new.counts ≡ self.old.counts }
    {
        self.places.begin()
    }

    /// The File of this number has ended so.
    #[tactic(auto, using(crate::proofs::Said::ended))]
    fn end(&mut self, number: u64, fed: Fed)
        requires { ∥ B.said number fed ∥₁ }
        ensures places { Replaces (Place.Fed number) (Place.Ended number fed) self.old.places self.new.places }
        ensures counts { self.new.counts ≡ self.old.counts }
    {
        self.places.end(number, fed);
    }

    /// The File with the least number that has ended, whose place is free from then on.
    #[tactic(auto, using(crate::proofs::Said::freed, crate::proofs::Said::taken))]
    fn take_ended(&mut self) -> Option<(u64, Fed)>
        ensures answered { IsFirst self.old.places.places result }
        ensures freed { Frees result self.old.places self.new.places }
        ensures said { IfSome result (λ ended. ∥ B.said ended.0 ended.1 ∥₁) }
        ensures counts { self.new.counts ≡ self.old.counts }
    {
        self.places.take_ended()
    }

    /// Counts what a File shows not to be read, or to be summed otherwise.
    fn add(&mut self, missed: Missed)
        ensures counted { IsCounted missed self.old.counts self.new.counts }
        ensures places { self.new.places ≡ self.old.places }
    {
        self.counts.add(missed);
    }

    /// What was counted so far.
    fn counts(&self) -> FeedCounts
        ensures value { result ≡ self.now.counts }
        ensures had { ∥ B.had result ∥₁ }
    {
        self.counts
    }

    /// No File is read from now on.
    fn quit(&mut self)
        ensures places { self.new.places.places ≡ self.old.places.places }
        ensures counts { self.new.counts ≡ self.old.counts }
    {
        self.places.is_ending = true;
    }
}

/// What the threads that feed, and the one that answers, know of each other.
#[derive(Drop)]
pub(crate) struct Board<B: Ends> {
    table: Mutex<Table<B>>,
    changed: Condvar,
}

impl<B: Ends> Board<B> {
    /// No File is fed, and nothing is counted.
    pub(crate) fn new() -> Board<B>
        requires { (counts : Counts) → IsOfNoFile counts → ∥ B.had counts ∥₁ }
    {
        Board {
            table: Mutex::new(Table::new()),
            changed: Condvar::new(),
        }
    }

    /// A place for one File more, which has the number that is answered; none where all are taken.
    pub(crate) fn begin<H: Wait>(&self, rt: &H) -> Option<u64> {
        self.table.lock(rt).begin()
    }

    /// The File of this number has ended so.
    pub(crate) fn end<H: Wait>(&self, rt: &H, number: u64, fed: Fed)
        requires { ∥ B.said number fed ∥₁ }
    {
        let mut table = self.table.lock(rt);
        table.end(number, fed);
        drop(table);
        self.changed.notify_all();
    }

    /// The File with the least number that has ended, whose place is free from then on.
    pub(crate) fn take_ended<H: Wait>(&self, rt: &H) -> Option<(u64, Fed)>
        ensures { IfSome result (λ ended. ∥ B.said ended.0 ended.1 ∥₁) }
    {
        self.table.lock(rt).take_ended()
    }

    /// Counts what a File shows not to be read, or to be summed otherwise.
    pub(crate) fn add<H: Wait>(&self, rt: &H, missed: Missed) {
        self.table.lock(rt).add(missed);
    }

    /// What was counted so far, of all Files.
    pub(crate) fn counts<H: Wait>(&self, rt: &H) -> FeedCounts
        ensures { ∥ B.had result ∥₁ }
    {
        self.table.lock(rt).counts()
    }

    /// The table, at a moment when no File is fed.
    fn settled<H: Wait>(&self, rt: &H) -> MutexGuard<'_, Table<B>>
        ensures { HasFed (mutex_guard_value result).places.places → ⊥ }
    {
        let table = self.table.lock(rt);
        self.changed.wait_while(
            rt,
            table,
            |table: &mut Table<B>| -> bool
                ensures kept { table.new ≡ table.old }
                ensures fed { IsTrue result ↔ HasFed table.new.places.places }
            { table.has_fed() },
        )
    }

    /// Waits until no File is fed.
    pub(crate) fn wait<H: Wait>(&self, rt: &H) {
        drop(self.settled(rt));
    }

    /// No File is read from now on.
    pub(crate) fn quit<H: Wait>(&self, rt: &H) {
        self.table.lock(rt).quit();
    }

    /// Whether no File is read any more.
    fn is_ending<H: Wait>(&self, rt: &H) -> bool {
        self.table.lock(rt).places.is_ending
    }
}

/// A File that is read until the shell ends. It rings a bell for each `span` octets that are read.
#[derive(Drop)]
pub(crate) struct Stoppable<'a, B: Ends, K: Keeping, H: Wait, R: Read> {
    pub(crate) rt: &'a H,
    pub(crate) board: &'a Board<B>,
    pub(crate) bell: &'a Bell<K>,
    pub(crate) span: u32,
    pub(crate) input: &'a mut R,
    /// How many were read.
    pub(crate) octets: u64,
}

impl<B: Ends, K: Keeping, H: Wait, R: Read> Read for Stoppable<'_, B, K, H, R> {
    ghost remaining = { λ file. R.remaining file.input.now };

    fn read(&mut self, buf: &mut [u8]) -> io::Result<usize> {
        if self.board.is_ending(self.rt) {
            return Err(io::Error::from(ErrorKind::ConnectionAborted));
        }
        let count = self.input.read(buf)?;
        let before = self.octets;
        self.octets = self.octets.saturating_add(count as u64);
        let span = u64::from(self.span.max(1));
        if self.octets / span > before / span {
            self.bell.ring(self.rt);
        }
        Ok(count)
    }
}
