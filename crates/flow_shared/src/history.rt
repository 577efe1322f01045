//! The steps since the start, as one history, of which each thread knows a beginning.

ghost use Rattle.std.specs.Prelude.{◌≡◌, ◌+◌, ◌==◌, ◌<◌, ◌≤◌, ◌^◌, ◌++◌, ◌∷◌, ◌⊎◌, [], length, MatchBool};
ghost use mathlib.Core.List.{IsPrefix};
ghost use Rattle.flow_snapshot.specs.Steps.{change_of};
ghost use Rattle.flow_shared.specs.Rules.{head_of};

use flow_disk::SealedFile;
use flow_snapshot::Step;
use logbook::{Gain, Offer, Plain, Play, Rule, Seen, Start, Word};
use std::marker::{Brand, Model, PhantomData};

/// What the history consists of. No value of it is made: it is seen as a change.
pub struct Entry {
    none: u8,
}

impl Model for Entry {
    ghost use Rattle.std.specs.Prelude.{[]};
    ghost use Rattle.flow_model.specs.Changes.{Change};
    ghost use Rattle.flow_model.specs.Changes.Change.{added};

    ghost Value = { Change };

    ghost view = { λ e. added [] };
}

/// The rule of the history.
pub struct Law;

impl Rule<Entry, u64> for Law {
    ghost use Rattle.std.specs.Prelude.{[]};
    ghost use base.Fml.{ftrue};
    ghost use Rattle.flow_shared.specs.Rules.{IsKept};

    ghost holds = { λ cells log. IsKept cells log };

    ghost first = { [] };

    ghost hinted = { λ n log. Unit {0} };

    ghost shows = { λ log. [] };

    ghost keeps = { λ names log. ftrue };

    ghost moves = { λ ask before after answer. Unit {0} };
}

/// Callers trade nothing.
pub struct Nothing;

impl Gain<Entry, u64> for Nothing {
    ghost use base.Fml.{ftrue};

    ghost after = { λ names about answer. ftrue };
}

/// A step that adds to the history.
pub struct Add;

impl Play<Entry, u64> for Add {
    ghost use Rattle.flow_shared.specs.Rules.{Adds};

    ghost then = { Adds };
}

impl<S: SealedFile> Plain<Step<S>, Entry, u64> for Add {
    ghost use Rattle.std.specs.Prelude.{None};
    ghost use Rattle.flow_snapshot.specs.Steps.{change_of};

    ghost ask = { λ step. change_of step };

    ghost state = { λ step. None };
}

/// Which start it is, the files that it opened with, and whether the disk is an honest one. Each call of a program
/// picks it.
pub trait Naming {
    ghost use Rattle.std.specs.Prelude.{Bool};
    ghost use Rattle.logbook.specs.Pages.{Book};
    ghost use Rattle.flow_model.specs.Shelf.{Shelf};

    ghost book: { Book };

    ghost opening: { Shelf };

    ghost honest: { Bool };
}

impl Naming for Brand {
    ghost use Rattle.std.specs.Prelude.{false};
    ghost use Rattle.flow_model.specs.Shelf.{new_shelf};

    ghost book = { record { number = 0; log_name = 0; cells_name = 0 } };

    ghost opening = { new_shelf 0 0 };

    ghost honest = { false };
}

/// An empty history, which has no name yet.
pub struct Opened {
    head: Word<Entry, u64, Law>,
    seen: Seen<Entry, u64, Law>,
    pub ghost empty: { seen.log ≡ [] },
    pub ghost head_is: { head ≡ head_of seen.book },
}

impl Opened {
    /// An empty history. It takes no memory.
    pub fn new() -> Opened {
        let (seen, mut first, _second) = Seen::open(Start::alone(), 0, 0);
        Opened {
            head: Word::tracked(0, &mut first),
            seen,
        }
    }

    /// Its end under a name, and the list without steps.
    pub(crate) fn named<J: Naming>(self) -> (Tip<J>, Told<J>)
        requires { self.seen.book ≡ J.book }
        ensures { result.1 ≡ [] }
    {
        let Opened { head, seen } = self;
        (
            Tip {
                head,
                of: PhantomData,
            },
            Told {
                count: 0,
                seen,
                of: PhantomData,
            },
        )
    }
}

/// The end of the history: its length, which the writer alone changes.
#[derive(Drop)]
pub struct Tip<J: Naming> {
    head: Word<Entry, u64, Law>,
    of: PhantomData<J>,
    ghost head_is: { head ≡ head_of J.book },
}

/// A prefix of the history that was published. It is seen as its steps.
#[derive(Drop)]
pub struct Told<J: Naming> {
    count: u64,
    seen: Seen<Entry, u64, Law>,
    of: PhantomData<J>,
}

impl<J: Naming> Model for Told<J> {
    ghost use Rattle.std.specs.Prelude.{◌≡◌, List, length};
    ghost use Rattle.flow_model.specs.Changes.{Change};

    ghost Value = { List Change };

    ghost view = { λ t. t.seen.log };

    ghost invariant = { λ t. (t.count ≡ length t.seen.log) × (t.seen.book ≡ J.book) };
}

impl<J: Naming> Told<J> {
    /// How many steps.
    pub(crate) fn len(&self) -> u64
        ensures { result ≡ length self.now }
    {
        self.count
    }

    /// The same once more.
    pub(crate) fn again(&self) -> Told<J>
        ensures { result ≡ self.now }
    {
        Told {
            count: self.count,
            seen: self.seen.again(),
            of: PhantomData,
        }
    }

    /// Whether the other list is no shorter. Then it begins with this one, and else this one with it.
    pub fn begins(&self, other: &Told<J>) -> bool
        ensures { MatchBool result (IsPrefix self.now other.now) (IsPrefix other.now self.now) }
    {
        let mut both = self.seen.again();
        both.learn(&other.seen);
        if self.count <= other.count {
            return true;
        }
        false
    }

    /// Takes in the other list.
    pub(crate) fn learn(&mut self, other: &Told<J>)
        ensures one { (self.new ≡ self.old) ⊎ (self.new ≡ other.now) }
        ensures this { IsPrefix self.old self.new }
        ensures that { IsPrefix other.now self.new }
    {
        if self.begins(other) {
            *self = other.again();
        }
    }

    /// Adds a step, and says whether it did. It did not where the history is longer, or as long as it may be.
    pub(crate) fn add<S: SealedFile>(&mut self, tip: &Tip<J>, step: &Step<S>) -> bool
        ensures { MatchBool result (self.new ≡ self.old ++ change_of step.now ∷ []) (self.new ≡ self.old) }
    {
        if self.count >= 1 << 62 {
            return false;
        }
        let mut seen = self.seen.again();
        let mut offer: Offer<Entry, u64, Law, Nothing> = seen.plain::<Nothing, Step<S>, Add>(step);
        let mut pen = seen.no_pen();
        let count = self.count;
        let found = tip
            .head
            .compare_exchange::<Add, Nothing>(count, count + 1, &mut seen, &mut offer, &mut pen);
        if found != count {
            return false;
        }
        self.count = count + 1;
        self.seen = seen;
        true
    }
}
