//! Lists of items in which each item keeps its position.

ghost use Rattle.std.specs.Prelude.{◌≡◌, ◌≤◌, ◌++◌, ◌∷◌, [], length, slice_get, IfOk, OnErr, option_copied};
ghost use Rattle.std.specs.List.{enumerate_from};
ghost use Rattle.std.specs.Option.{option_copied_mut};
ghost use Rattle.std.specs.Borrow.{sem};
ghost use Rattle.std.specs.Iterator.{YieldsFirstBy, item_count};
ghost use Rattle.souper_graph.specs.Lending.{LendsItem};

use crate::ast::ids::Id;
use std::alloc::{AllocError, Global};
use std::marker::Model;

/// A list of items that grows at its end, so that each item keeps its position.
#[derive(Debug, Drop)]
pub struct Arena<T: Drop> {
    items: Vec<T>,
}

impl<T: Drop> Model for Arena<T> {
    ghost use Rattle.std.specs.Prelude.{List};

    ghost Value = { List T };

    ghost view = { λ arena. arena.items.items };
}

impl<T: Drop> Arena<T> {
    /// An empty arena. It does not allocate.
    pub fn new(alloc: Global) -> Self
        ensures { result ≡ [] }
    {
        Arena {
            items: Vec::new(alloc),
        }
    }

    /// Appends the item and returns its position. If memory runs out, the arena is unchanged.
    #[inline(always)]
    pub fn alloc(&mut self, item: T) -> Result<Id<T>, AllocError>
        ensures position { IfOk result (λ id. id ≡ length self.old) }
        ensures grows { IfOk result (λ _. self.new ≡ self.old ++ item ∷ []) }
        ensures err { OnErr result (self.new ≡ self.old) }
    {
        let index = self.items.len();
        self.items.reserve(1)?;
        self.items.push_reserved(item);
        Ok(Id::at(index))
    }

    /// The position that the next item gets.
    pub fn next_id(&self) -> Id<T>
        ensures { result ≡ length self.now }
    {
        Id::at(self.items.len())
    }

    /// The item at the position, or `None` at or past the end.
    pub fn get(&self, id: Id<T>) -> Option<&T>
        ensures { option_copied result ≡ slice_get self.now id }
    {
        self.items.get(id.index())
    }

    /// The item at the position, for writing, or `None` at or past the end.
    ///
    /// A write changes that item alone.
    pub fn get_mut(&mut self, id: Id<T>) -> Option<&mut T>
        ensures* writes_back { sem 𝓛 (LendsItem T.row self.entry id result) }
        ensures value { option_copied_mut result ≡ slice_get self.old id }
    {
        self.items.get_mut(id.index())
    }

    /// Makes room for this number of further items. The items stay.
    pub fn reserve(&mut self, further: usize) -> Result<(), AllocError>
        ensures { self.new ≡ self.old }
    {
        self.items.reserve(further)
    }

    /// Shrinks the capacity to the length. The items stay.
    pub fn shrink_to_fit(&mut self)
        ensures { self.new ≡ self.old }
    {
        self.items.shrink_to_fit();
    }

    /// Removes all items. Their room stays.
    pub fn clear(&mut self)
        ensures { self.new ≡ [] }
    {
        self.items.clear();
    }

    /// The number of items that there is room for, those that are there among them.
    pub fn capacity(&self) -> usize
        ensures { length self.now ≤ result }
    {
        self.items.capacity()
    }

    /// The number of items.
    pub fn len(&self) -> usize
        ensures { result ≡ length self.now }
    {
        self.items.len()
    }

    /// Each item with its position, in order.
    pub fn iter(&self) -> Iter<'_, T>
        ensures { result ≡ enumerate_from 0 self.now }
    {
        Iter {
            rest: self.items.as_slice(),
            index: 0,
        }
    }

    /// The allocator of the items.
    pub fn allocator(&self) -> Global {
        *self.items.allocator()
    }

    pub(crate) fn as_slice(&self) -> &[T]
        ensures { result.now ≡ self.now }
    {
        self.items.as_slice()
    }
}

/// The items of an [`Arena`] with their positions, in order.
#[derive(Drop)]
pub struct Iter<'a, T> {
    rest: &'a [T],
    // The position of the first of `rest`.
    index: usize,
}

impl<'a, T> Model for Iter<'a, T> {
    ghost use Rattle.std.specs.Prelude.{ℕ, List, length, ◌+◌, ◌<◌, ◌^◌};
    ghost use Rattle.std.specs.List.{enumerate_from};

    ghost Value = { List (ℕ × T) };

    ghost view = { λ it. enumerate_from it.index it.rest.now };

    ghost invariant = { λ it. it.index + length it.rest.now < 2 ^ 64 };
}

impl<'a, T> Iterator for Iter<'a, T> {
    type Item = (Id<T>, &'a T);

    ghost next_gives = { YieldsFirstBy (λ item. (item.0, item.1.now)) (λ rest. rest) };

    ghost remaining = { item_count (λ rest. rest) };

    fn next(&mut self) -> Option<(Id<T>, &'a T)> {
        let (first, rest) = self.rest.split_first()?;
        let id = Id::at(self.index);
        self.rest = rest;
        self.index += 1;
        Some((id, first))
    }
}
