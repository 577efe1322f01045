//! Answers of what is given away to be asked.

ghost use Rattle.std.specs.Prelude.{◌≡◌, ◌<◌, ◌+◌, ◌++◌, List, [], length, IfNone, IfOk, IfSome, OnErr, OnOk};
ghost use Rattle.std.specs.List.{All};
ghost use Rattle.flow_several.specs.SideBySide.{Awaits, IsNext};

use crate::asked::Asking;
use crate::threads::{ask_all, at_once};
use std::alloc::{AllocError, Global};
use std::collections::VecDeque;
use std::mem;
use std::thread::Threads;

/// The first of these, at most so many, which are taken out.
fn first_of<J: Drop>(all: &mut Vec<J>, count: usize) -> Result<Vec<J>, AllocError>
    requires { 0 < count }
    ensures parts { IfOk result (λ first. all.old.items ≡ first.items ++ all.new.items) }
    ensures some { IfOk result (λ first. 0 < length all.old.items → 0 < length first.items) }
    ensures same { OnErr result (all.new.items ≡ all.old.items) }
{
    let rest = all.split_off(count.min(all.len()))?;
    Ok(mem::replace(all, rest))
}

/// The answers of several, in their order. So many are asked at once, and all of these have answered before the first
/// answer is taken.
#[derive(Drop)]
pub struct InTurn<J, X> {
    answers: VecDeque<X>,
    left: Vec<J>,
}

impl<J: Send + Drop, X: Send + Drop> InTurn<J, X> {
    /// Those of all these, of which none was asked.
    pub fn of(alloc: Global, all: Vec<J>) -> Self
        ensures answers { result.answers.items ≡ [] }
        ensures left { result.left.items ≡ all.items }
    {
        InTurn {
            answers: VecDeque::new(alloc),
            left: all,
        }
    }

    /// Asks the next ones, where no answer is left.
    fn ask_more<R: Threads + Sync, A: Asking<J, X> + Sync>(
        &mut self,
        rt: &R,
        asking: &A,
    ) -> Result<(), AllocError>
        requires may { All (A.may_ask asking.now) self.old.left.items }
        requires none { length self.old.answers.items ≡ 0 }
        requires some { 0 < length self.old.left.items }
        ensures may { All (A.may_ask asking.now) self.new.left.items }
        ensures answers { OnOk result ((all : List J)
            → Awaits (A.answers asking.now) self.old.answers.items self.old.left.items all
            → Awaits (A.answers asking.now) self.new.answers.items self.new.left.items all) }
        ensures count { OnOk result (length self.new.answers.items + length self.new.left.items
            ≡ length self.old.left.items) }
        ensures some { OnOk result (0 < length self.new.answers.items) }
        ensures same { OnErr result (length self.new.answers.items ≡ 0) }
    {
        let first = first_of(&mut self.left, at_once(rt))?;
        let answers = ask_all(rt, asking, first)?;
        self.answers = VecDeque::from(answers);
        Ok(())
    }

    /// The same, unless an answer or none is left.
    fn refill<R: Threads + Sync, A: Asking<J, X> + Sync>(
        &mut self,
        rt: &R,
        asking: &A,
    ) -> Result<(), AllocError>
        requires { All (A.may_ask asking.now) self.old.left.items }
        ensures may { All (A.may_ask asking.now) self.new.left.items }
        ensures answers { OnOk result ((all : List J)
            → Awaits (A.answers asking.now) self.old.answers.items self.old.left.items all
            → Awaits (A.answers asking.now) self.new.answers.items self.new.left.items all) }
        ensures count { OnOk result (length self.new.answers.items + length self.new.left.items
            ≡ length self.old.answers.items + length self.old.left.items) }
        ensures some { OnOk result (length self.new.answers.items ≡ 0 → length self.new.left.items ≡ 0) }
        ensures refused { OnErr result (0 < length self.old.left.items) }
        ensures none { OnErr result (length self.new.answers.items ≡ 0) }
    {
        if self.answers.len() == 0 && self.left.len() > 0 {
            self.ask_more(rt, asking)
        } else {
            Ok(())
        }
    }

    /// The answer of the next one; None after the last one. Where memory runs out for those that are asked at once, that
    /// is answered in place of the first of them; after that nothing is known of those after it.
    pub fn next<R: Threads + Sync, A: Asking<J, X> + Sync>(
        &mut self,
        rt: &R,
        asking: &A,
    ) -> Option<Result<X, AllocError>>
        requires { All (A.may_ask asking.now) self.old.left.items }
        ensures may { All (A.may_ask asking.now) self.new.left.items }
        ensures answer { IfSome result (λ answer. IfOk answer (λ x. (all : List J)
            → Awaits (A.answers asking.now) self.old.answers.items self.old.left.items all
            → IsNext (A.answers asking.now) self.new.answers.items self.new.left.items all x)) }
        ensures end { IfNone result ((all : List J)
            → Awaits (A.answers asking.now) self.old.answers.items self.old.left.items all → all ≡ []) }
        ensures count { IfSome result (λ answer. OnOk answer
            (length self.new.answers.items + length self.new.left.items + 1
            ≡ length self.old.answers.items + length self.old.left.items)) }
        ensures ended { IfNone result (length self.old.answers.items + length self.old.left.items ≡ 0) }
        ensures empty { IfNone result (length self.new.answers.items ≡ 0) }
        ensures refused { IfSome result (λ answer. OnErr answer (0 < length self.old.left.items)) }
        ensures none { IfSome result (λ answer. OnErr answer (length self.new.answers.items ≡ 0)) }
    {
        match self.refill(rt, asking) {
            Ok(()) => match self.answers.pop_front() {
                None => None,
                Some(answer) => Some(Ok(answer)),
            },
            Err(error) => Some(Err(error)),
        }
    }
}
