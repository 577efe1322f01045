//! Lists that mostly have one item.

ghost use Rattle.std.specs.Prelude.{◌≡◌, [], ◌∷◌, ◌++◌, OnOk, IfOk};
ghost use Rattle.flow_codec.specs.ShortList.{listed};

use std::alloc::{AllocError, Global};
use std::fmt;
use std::fmt::Debug;
use std::marker::Model;
use std::mem::replace;

/// How many items the first memory has room for, where there is more than one.
const FEW: usize = 4;

/// A list that keeps a single item in place, and takes memory for more. Contracts see it as the list of its items.
#[derive(Drop)]
pub struct ShortList<T> {
    kept: Kept<T>,
}

/// The items of a list.
#[derive(Drop)]
pub(crate) enum Kept<T> {
    /// None.
    Nothing,
    /// One in place.
    One([T; 1]),
    /// So many in memory of their own.
    Many(Vec<T>),
}

impl<T> Model for ShortList<T> {
    ghost use Rattle.std.specs.Prelude.{List};
    ghost use Rattle.flow_codec.specs.ShortList.{listed};

    ghost Value = { List T };

    ghost view = { λ l. listed l.kept };
}

impl<T: Debug> Debug for ShortList<T> {
    fn fmt<W: fmt::Write>(&self, f: &mut fmt::Formatter<W>) -> fmt::Result {
        self.as_slice().fmt(f)
    }
}

impl<T: Drop> ShortList<T> {
    /// No items.
    pub(crate) fn new() -> Self
        ensures { result ≡ [] }
    {
        ShortList {
            kept: Kept::Nothing,
        }
    }

    /// No items, with memory for `count` where that is more than one.
    pub(crate) fn with_capacity(alloc: Global, count: usize) -> Result<Self, AllocError>
        ensures { IfOk result (λ list. list ≡ []) }
    {
        if count < 2 {
            return Ok(ShortList::new());
        }
        Ok(ShortList {
            kept: Kept::Many(Vec::with_capacity(alloc, count)?),
        })
    }

    /// Takes all items out.
    pub(crate) fn take(&mut self) -> Self
        ensures { result ≡ self.old }
    {
        replace(self, ShortList::new())
    }

    /// Puts an item at the end. After an `Err` the list is of no use.
    pub(crate) fn push(&mut self, alloc: Global, item: T) -> Result<(), AllocError>
        ensures { OnOk result (self.new ≡ self.old ++ item ∷ []) }
    {
        match &mut self.kept {
            Kept::Nothing => self.kept = Kept::One([item]),
            Kept::Many(items) => items.push(item)?,
            few => *few = with_item(alloc, replace(few, Kept::Nothing), item)?,
        }
        Ok(())
    }
}

impl<T> ShortList<T> {
    pub(crate) fn into_kept(self) -> Kept<T>
        ensures { listed result ≡ self }
    {
        self.kept
    }

    pub fn as_slice(&self) -> &[T]
        ensures { result.now ≡ self.now }
    {
        match &self.kept {
            Kept::Nothing => &[],
            Kept::One(item) => item.as_slice(),
            Kept::Many(items) => items.as_slice(),
        }
    }
}

/// The items with one more at the end.
fn with_item<T: Drop>(alloc: Global, kept: Kept<T>, item: T) -> Result<Kept<T>, AllocError>
    ensures { IfOk result (λ more. listed more ≡ listed kept ++ item ∷ []) }
{
    match kept {
        Kept::Nothing => Ok(Kept::One([item])),
        Kept::One([first]) => {
            let mut items = Vec::with_capacity(alloc, FEW)?;
            items.push(first)?;
            items.push(item)?;
            Ok(Kept::Many(items))
        }
        Kept::Many(items) => {
            let mut items = items;
            items.push(item)?;
            Ok(Kept::Many(items))
        }
    }
}
