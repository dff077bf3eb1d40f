//! `Text`: bytes that contracts see as a list.
ghost use Rattle.std.specs.Prelude.{◌≡◌, ℕ, ◌<◌, ◌==◌, List, [], IfOk, length, slice_get, slice_index_or};
ghost use Rattle.std.specs.Cmp.{partial_equiv_from_equiv};
ghost use Rattle.std.specs.Cmp.Lexicographic.{nat_list_eq_equiv};
ghost use Rattle.std.specs.Cmp.Rules.{hashing};
ghost use Rattle.std.specs.Hash as fed;
ghost use Rattle.std.specs.Str.{bytes_eq};
ghost use Rattle.std.proofs.Common.{rules};

use crate::Copies;
use std::alloc::{AllocError, Global};
use std::default::MadeWith;
use std::hash::{Hash, Hasher};
use std::marker::Model;

/// A name or another text, as its bytes, which need not be UTF-8.
#[derive(Drop, Debug)]
pub struct Text {
    bytes: Vec<u8>,
}

impl Model for Text {
    ghost Value = { List ℕ };

    ghost view = { λ s. s.bytes.items };
}

impl Text {
    /// A text of these bytes.
    pub fn from_slice(alloc: Global, bytes: &[u8]) -> Result<Text, AllocError>
        ensures { IfOk result (λ text. text ≡ bytes.now) }
    {
        let bytes = Vec::from_slice(alloc, bytes)?;
        Ok(Text { bytes })
    }

    /// The bytes of a vector, in its memory.
    pub fn from_vec(bytes: Vec<u8>) -> Text
        ensures { result ≡ bytes.items }
    {
        Text { bytes }
    }

    /// The bytes.
    pub fn as_bytes(&self) -> &[u8]
        ensures { result.now ≡ self.now }
    {
        self.bytes.as_slice()
    }

    /// The number of bytes.
    pub fn len(&self) -> usize
        ensures { result ≡ length self.now }
    {
        self.bytes.len()
    }

    /// Whether there is no byte.
    pub fn is_empty(&self) -> bool
        ensures { result ≡ (length self.now == 0) }
    {
        self.bytes.is_empty()
    }

    /// The byte at a place.
    pub fn at(&self, place: usize) -> &u8
        requires { place < length self.now }
        ensures item { result.now ≡ slice_index_or self.now place result.now }
        ensures found { slice_get self.now place ≡ Some result.now }
    {
        &self.bytes[place]
    }
}

impl PartialEq for Text {
    ghost eq = { bytes_eq };

    ghost laws = { partial_equiv_from_equiv nat_list_eq_equiv };

    fn eq(&self, other: &Self) -> bool {
        self.bytes == other.bytes
    }
}

impl Eq for Text {
    ghost laws = { nat_list_eq_equiv };
}

impl Hash for Text {
    ghost hash_input = { fed.str };

    ghost respects_eq = { Prim.search (hashing, rules) };

    fn hash<H: Hasher>(&self, state: &mut H) {
        state.write(self.bytes.as_slice());
        state.write_u8(0xff);
    }
}

impl Copies for Text {
    fn copy(&self) -> Result<Self, AllocError> {
        Text::from_slice(*self.bytes.allocator(), self.as_bytes())
    }
}

impl MadeWith<Global> for Text {
    ghost is_made_with = { λ text. text ≡ [] };

    fn made_with(alloc: Global) -> Text {
        Text {
            bytes: Vec::new(alloc),
        }
    }
}
