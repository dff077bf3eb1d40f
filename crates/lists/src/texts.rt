//! `Texts`: many texts in one allocation, which contracts see as a list.
ghost use Rattle.std.specs.Prelude.{◌≡◌, ◌<◌, ◌==◌, [], ◌∷◌, ◌++◌, OnOk, OnErr, length, slice_get, slice_index_or, slice_index};

use crate::Copies;
use std::alloc::{AllocError, Global};
use std::marker::Model;

/// A list of texts, as their bytes, which need not be UTF-8.
#[derive(Drop, Debug)]
pub struct Texts {
    bytes: Vec<u8>,
    ends: Vec<usize>,
}

impl Model for Texts {
    ghost use Rattle.std.specs.Prelude.{ℕ, List, length};
    ghost use Rattle.lists.specs.Ends.{texts_between, EndAt};

    ghost Value = { List (List ℕ) };

    ghost view = { λ s. texts_between s.bytes.items 0 s.ends.items };

    ghost invariant = { λ s. EndAt (length s.bytes.items) 0 s.ends.items };
}

impl Texts {
    /// A list with no text.
    pub fn new(alloc: Global) -> Texts
        ensures { result ≡ [] }
    {
        Texts {
            bytes: Vec::new(alloc),
            ends: Vec::new(alloc),
        }
    }

    /// Adds a text at the end.
    pub fn push(&mut self, text: &[u8]) -> Result<(), AllocError>
        ensures ok { OnOk result (self.new ≡ self.old ++ text.now ∷ []) }
        ensures err { OnErr result (self.new ≡ self.old) }
    {
        let start = self.bytes.len();
        self.bytes.extend_from_slice(text)?;
        match self.ends.push(self.bytes.len()) {
            Ok(()) => Ok(()),
            Err(_) => {
                self.bytes.truncate(start);
                Err(AllocError)
            }
        }
    }

    /// The number of texts.
    pub fn len(&self) -> usize
        ensures { result ≡ length self.now }
    {
        self.ends.len()
    }

    /// Whether there is no text.
    pub fn is_empty(&self) -> bool
        ensures { result ≡ (length self.now == 0) }
    {
        self.ends.is_empty()
    }

    /// The text at a place.
    pub fn at(&self, place: usize) -> &[u8]
        requires { place < length self.now }
        ensures item { result.now ≡ slice_index_or self.now place result.now }
        ensures found { slice_get self.now place ≡ Some result.now }
    {
        let start = start_of(self.ends.as_slice(), place);
        let end = self.ends[place];
        &self.bytes[start..end]
    }
}

// Where a text begins: where the one before it ends.
fn start_of(ends: &[usize], place: usize) -> usize
    requires { place < length ends.now }
    ensures { result ≡ slice_index (0 ∷ ends.now) place }
{
    if place == 0 { 0 } else { ends[place - 1] }
}

impl Copies for Texts {
    fn copy(&self) -> Result<Self, AllocError> {
        let bytes = Vec::from_slice(*self.bytes.allocator(), self.bytes.as_slice())?;
        let ends = Vec::from_slice(*self.ends.allocator(), self.ends.as_slice())?;
        Ok(Texts { bytes, ends })
    }
}
