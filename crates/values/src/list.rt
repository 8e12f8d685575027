//! A list that owns its items.

ghost use Rattle.std.specs.Prelude.{◌≡◌, ◌<◌, ◌++◌, ◌∷◌, ◌==◌, [], OnOk, OnErr, IfOk, IfErr, length, take};

use std::alloc::{AllocError, AllocFailed, Global};
use std::marker::Model;

/// A list: contracts see its items, and not where they lie.
#[derive(Debug, Drop)]
pub struct Seq<T> {
    items: Vec<T>,
}

impl<T> Model for Seq<T> {
    ghost use Rattle.std.specs.Prelude.{List};

    ghost Value = { List T };

    ghost view = { λ s. s.items.items };
}

impl<T> Seq<T> {
    /// The list without items; takes no memory.
    pub fn new(alloc: Global) -> Seq<T>
        ensures { result ≡ [] }
    {
        Seq {
            items: Vec::new(alloc),
        }
    }

    /// Adds an item at the end.
    pub fn push(&mut self, item: T) -> Result<(), AllocFailed<T>>
        ensures ok { OnOk result (self.new ≡ self.old ++ item ∷ []) }
        ensures err { OnErr result (self.new ≡ self.old) }
        ensures value_returned { IfErr result (λ e. e.value ≡ item) }
    {
        self.items.push(item)
    }

    /// The items, in order.
    pub fn as_slice(&self) -> &[T]
        ensures { result.now ≡ self.now }
    {
        &self.items
    }

    /// How many items there are.
    pub fn len(&self) -> usize
        ensures { result ≡ length self.now }
    {
        self.items.len()
    }

    /// Whether there is no item.
    pub fn is_empty(&self) -> bool
        ensures { result ≡ (length self.now == 0) }
    {
        self.items.is_empty()
    }

    /// Takes all items out, and makes room for so many, in the memory that there is where that is enough.
    pub fn refill(&mut self, count: usize) -> Result<(), AllocError>
    where
        T: Drop,
        ensures { OnOk result (self.new ≡ []) }
    {
        self.items.clear();
        self.items.reserve_exact(count)
    }

    /// Keeps the first `count` items.
    pub fn truncate(&mut self, count: usize)
    where
        T: Drop,
        ensures { self.new ≡ take count self.old }
    {
        self.items.truncate(count);
    }
}

/// The list of a `Vec`'s items; takes no memory.
impl<T> From<Vec<T>> for Seq<T> {
    ghost from_gives = { λ items s. s ≡ items.items };

    fn from(items: Vec<T>) -> Seq<T> {
        Seq { items }
    }
}

/// The list's items as a `Vec`; takes no memory.
impl<T> From<Seq<T>> for Vec<T> {
    ghost from_gives = { λ s items. items.items ≡ s };

    fn from(list: Seq<T>) -> Vec<T> {
        list.items
    }
}

/// A type whose values can be copied; a copy equals its source.
pub trait Duplicate: Sized {
    fn copy(&self, alloc: Global) -> Result<Self, AllocError>
        ensures { IfOk result (λ copy. copy ≡ self.now) };
}

impl Duplicate for u8 {
    fn copy(&self, _alloc: Global) -> Result<u8, AllocError> {
        Ok(*self)
    }
}

impl<T: Duplicate + Drop> Duplicate for Seq<T> {
    fn copy(&self, alloc: Global) -> Result<Seq<T>, AllocError> {
        let mut items = Vec::with_capacity(alloc, self.items.len())?;
        for item in &self.items {
            items.push(item.copy(alloc)?)?;
        }
        Ok(Seq { items })
    }
}
