//! Growing lists that are mostly short.

ghost use Rattle.std.specs.Prelude.{◌≡◌, [], ◌∷◌, ◌++◌, OnOk, OnErr};

use smallvec::SmallVec;
use std::alloc::{AllocError, Global};
use std::default::MadeWith;
use std::marker::Model;

/// A growing list whose first `N` items stand in the list itself, so that a short one takes no memory of its own. Contracts see the list
/// of its items.
#[derive(Drop)]
pub(crate) struct ShortList<T, const N: usize> {
    items: SmallVec<T, N>,
}

impl<T, const N: usize> Model for ShortList<T, N> {
    ghost use Rattle.std.specs.Prelude.{List as Listed};
    ghost use Rattle.std.specs.Coded.{coded_list};

    ghost Value = { Listed T };

    ghost coded = { coded_list T.code };

    ghost view = { λ list. list.items.items };
}

impl<T, const N: usize> ShortList<T, N> {
    /// The items as a slice.
    pub fn as_slice(&self) -> &[T]
        ensures { result.now ≡ self.now }
    {
        self.items.as_slice()
    }
}

impl<T: MadeWith<Global> + Drop, const N: usize> ShortList<T, N> {
    /// No items.
    pub fn new(alloc: Global) -> ShortList<T, N>
        ensures { result ≡ [] }
    {
        ShortList {
            items: SmallVec::new(alloc),
        }
    }

    /// Puts an item at the end.
    pub fn push(&mut self, item: T) -> Result<(), AllocError>
        ensures ok { OnOk result (self.new ≡ self.old ++ item ∷ []) }
        ensures err { OnErr result (self.new ≡ self.old) }
    {
        self.items.push(item)?;
        Ok(())
    }
}
