//! `Few`: a small vector that contracts see as a list.
ghost use Rattle.std.specs.Prelude.{◌≡◌, ◌<◌, ◌==◌, List, [], ◌∷◌, ◌++◌, OnOk, OnErr, IfOk, length, slice_get, slice_index_or};
ghost use Rattle.std.specs.Cmp.Lexicographic.{pointwise, lists_equiv, lists_per};
ghost use Rattle.std.specs.Hash as fed;
ghost use Rattle.std.specs.Hash.{items_Alike};

use crate::Copies;
use smallvec::SmallVec;
use std::alloc::{AllocError, Global};
use std::default::MadeWith;
use std::hash::{Hash, Hasher};
use std::marker::Model;

/// A list that keeps up to `N` items in the value itself, and more than that in an allocation.
#[derive(Drop, Debug)]
pub struct Few<T, const N: usize> {
    items: SmallVec<T, N>,
}

impl<T, const N: usize> Model for Few<T, N> {
    ghost Value = { List T };

    ghost view = { λ s. s.items.items };
}

impl<T, const N: usize> Few<T, N> {
    /// The number of items.
    pub fn len(&self) -> usize
        ensures { result ≡ length self.now }
    {
        self.items.len()
    }

    /// Whether there is no item.
    pub fn is_empty(&self) -> bool
        ensures { result ≡ (length self.now == 0) }
    {
        self.items.is_empty()
    }

    /// The item at a place.
    pub fn at(&self, place: usize) -> &T
        requires { place < length self.now }
        ensures item { result.now ≡ slice_index_or self.now place result.now }
        ensures found { slice_get self.now place ≡ Some result.now }
    {
        &self.items.as_slice()[place]
    }

    /// All items.
    pub fn as_slice(&self) -> &[T]
        ensures { result.now ≡ self.now }
    {
        self.items.as_slice()
    }
}

impl<T: MadeWith<Global> + Drop, const N: usize> Few<T, N> {
    /// A list with no item.
    pub fn new(alloc: Global) -> Self
        ensures { result ≡ [] }
    {
        Few {
            items: SmallVec::new(alloc),
        }
    }

    /// Adds an item at the end. One that finds no memory is dropped.
    pub fn push(&mut self, item: T) -> Result<(), AllocError>
        ensures ok { OnOk result (self.new ≡ self.old ++ item ∷ []) }
        ensures err { OnErr result (self.new ≡ self.old) }
    {
        self.items.push(item)?;
        Ok(())
    }
}

impl<T: Copies + MadeWith<Global> + Drop, const N: usize> Copies for Few<T, N> {
    fn copy(&self) -> Result<Self, AllocError> {
        let mut items = SmallVec::with_capacity(*self.items.allocator(), self.items.len())?;
        for item in self.items.as_slice() {
            items.push(item.copy()?)?;
        }
        Ok(Few { items })
    }
}

impl<T: PartialEq, const N: usize> PartialEq for Few<T, N> {
    ghost eq = { pointwise T.eq };

    ghost laws = { lists_per T.laws };

    fn eq(&self, other: &Self) -> bool {
        self.items == other.items
    }
}

impl<T: Eq, const N: usize> Eq for Few<T, N> {
    ghost laws = { lists_equiv T.Eq.laws };
}

impl<T: Hash, const N: usize> Hash for Few<T, N> {
    ghost hash_input = { fed.slice T.hash_input };

    ghost respects_eq = { (items_Alike (record { fed = T.respects_eq })).fed };

    fn hash<H: Hasher>(&self, state: &mut H) {
        self.items.hash(state);
    }
}
