//! Growing lists.

ghost use Rattle.std.specs.Prelude.{◌≡◌, [], ◌∷◌, ◌++◌, ◌<◌, ◌↔◌, length, slice_get, IsTrue, IfOk, MatchOption, OnOk, OnErr, OnSome};
ghost use Rattle.std.specs.Option.{option_copied};

use std::alloc::{AllocError, Global};
use std::marker::Model;

/// A growing list. Contracts see the list of its items, and a type may hold itself through it.
#[derive(Drop)]
pub struct List<T> {
    vec: Vec<T>,
}

impl<T> Model for List<T> {
    ghost use Rattle.std.specs.Prelude.{List as Listed};
    ghost use Rattle.std.specs.Coded.{coded_list};

    ghost Value = { Listed T };

    ghost coded = { coded_list T.code };

    ghost view = { λ list. list.vec.items };
}

impl<T> List<T> {
    /// A list with no items. It takes no memory until the first is put in.
    pub fn new(alloc: Global) -> List<T>
        ensures { result ≡ [] }
    {
        List {
            vec: Vec::new(alloc),
        }
    }

    /// A list with no items, with this list's allocator. It takes no memory until the first is put in.
    pub fn new_alike(&self) -> List<T>
        ensures { result ≡ [] }
    {
        List {
            vec: Vec::new(*self.vec.allocator()),
        }
    }

    /// The list that a `Vec` holds. Nothing is copied.
    pub fn from_vec(vec: Vec<T>) -> List<T>
        ensures { result ≡ vec.items }
    {
        List { vec }
    }

    /// The `Vec` that the list holds. Nothing is copied.
    pub fn into_vec(self) -> Vec<T>
        ensures { result.items ≡ self }
    {
        let List { vec } = self;
        vec
    }

    /// The items as a slice, which is borrowed from the list.
    pub fn as_slice(&self) -> &[T]
        ensures { result.now ≡ self.now }
    {
        self.vec.as_slice()
    }

    /// How many items there are.
    pub fn len(&self) -> usize
        ensures { result ≡ length self.now }
    {
        self.vec.len()
    }

    /// Whether there are no items.
    pub fn is_empty(&self) -> bool
        ensures { IsTrue result ↔ (self.now ≡ []) }
    {
        self.vec.is_empty()
    }

    /// The item at a place, counted from 0; `None` where the list has no more than `at` items.
    pub fn get(&self, at: usize) -> Option<&T>
        ensures value { option_copied result ≡ slice_get self.now at }
        ensures within { OnSome result (at < length self.now) }
    {
        self.vec.get(at)
    }

    /// Takes the last item away and gives it; `None` where there are no items.
    pub fn pop(&mut self) -> Option<T>
        ensures { MatchOption result ((self.old ≡ []) × (self.new ≡ []))
            (λ last. self.old ≡ self.new ++ last ∷ []) }
    {
        self.vec.pop()
    }
}

impl<T: Drop> List<T> {
    /// Makes room for so many more items, and for none beyond them. The items stay as they are, also where it fails. They
    /// are moved to the new room where the old one is too small.
    ///
    /// # Errors
    ///
    /// Where an allocation is refused.
    pub fn reserve(&mut self, more: usize) -> Result<(), AllocError>
        ensures { self.new ≡ self.old }
    {
        self.vec.reserve_exact(more)
    }

    /// Puts an item at the end. The first item gets room for itself alone, as most lists have one.
    ///
    /// # Errors
    ///
    /// Where an allocation is refused. The list is then as it was, and the item is gone.
    pub fn push(&mut self, item: T) -> Result<(), AllocError>
        ensures ok { OnOk result (self.new ≡ self.old ++ item ∷ []) }
        ensures err { OnErr result (self.new ≡ self.old) }
    {
        if self.vec.capacity() == 0 {
            self.vec.reserve_exact(1)?;
        }
        self.vec.push(item)?;
        Ok(())
    }
}

impl<T: Copy> List<T> {
    /// A list of its own with the same items, in time by their number.
    ///
    /// # Errors
    ///
    /// Where an allocation is refused.
    pub fn copy(&self) -> Result<List<T>, AllocError>
        ensures { IfOk result (λ list. list ≡ self.now) }
    {
        Ok(List {
            vec: Vec::from_slice(*self.vec.allocator(), &self.vec)?,
        })
    }
}
