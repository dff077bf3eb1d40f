// The first name in each memory type that has too many bytes.

ghost use Rattle.std.specs.Prelude.{◌≡◌, map, IfOk};
ghost use Rattle.ir_types.specs.declared.memory_type.TypeName.{TypeName};
ghost use Rattle.ir_types.specs.Names.{name_at};
ghost use Rattle.ir_types.specs.TypeNodes.{type_nodes};
ghost use Rattle.ir_limits.specs.Limits.{long_name, first_of};
ghost use Rattle.ir_limits.specs.Longs.{long_in, longs_of, long_at, long_from};
ghost use Rattle.ir_limits.specs.Placed.{names_alone, tables_over};

use crate::names::long_name;
use ir_types::{MemTy, Name, TypeId, TypeName};
use std::alloc::{AllocError, Global};
use std::marker::Model;

/// The names of symbols and types that functions mention by their places, and of each type the first name in it that has too many bytes.
/// (Names of types and types are held as contracts speak of them; what is looked up in them stands in `longs`.)
#[derive(Drop, Debug)]
pub struct LongNames<'m> {
    symbols: &'m [Name],
    names: &'m [TypeName],
    types: &'m [MemTy],
    longs: Vec<Option<u64>>,
}

impl<'m> Model for LongNames<'m> {
    ghost use Rattle.std.specs.Prelude.{◌≡◌, map};
    ghost use Rattle.ir_types.specs.declared.memory_type.TypeName.{TypeName};
    ghost use Rattle.ir_types.specs.Denotes.{Tables};
    ghost use Rattle.ir_limits.specs.Longs.{longs_of};

    ghost Value = { Tables };

    ghost view = { λ s. record { symbols = s.symbols.now; type_names = map (λ (n : TypeName). n.name) s.names.now; types = s.types.now } };

    ghost invariant = { λ s. s.longs.items ≡ longs_of (map (λ (n : TypeName). n.name) s.names.now) s.types.now };
}

// Of the type at a place, where it is known.
fn long_known(longs: &[Option<u64>], id: TypeId) -> Option<u64>
    ensures { result ≡ long_at longs.now id }
{
    match longs.get(id.0 as usize) {
        Some(long) => *long,
        None => None,
    }
}

// Of the members of a struct.
fn long_in_members(longs: &[Option<u64>], members: &[TypeId]) -> Option<u64>
    ensures { result ≡ first_of (long_at longs.now) members.now }
{
    for member in members {
        if let Some(bytes) = long_known(longs, *member) {
            return Some(bytes);
        }
    }
    None
}

// Of the name at a place, where there is one.
fn long_called(names: &[TypeName], place: u32) -> Option<u64>
    ensures { result ≡ long_name (name_at (map (λ (n : TypeName). n.name) names.now) place) }
{
    match names.get(place as usize) {
        Some(entry) => long_name(&entry.name),
        None => None,
    }
}

// Of a type behind those of which it is known.
fn long_from(names: &[TypeName], longs: &[Option<u64>], ty: &MemTy) -> Option<u64>
    ensures { result ≡ long_from (map (λ (n : TypeName). n.name) names.now) longs.now ty.now }
{
    match ty {
        MemTy::One(_) => None,
        MemTy::Array(_, element) => long_known(longs, *element),
        MemTy::Struct(_, members) => long_in_members(longs, members.as_slice()),
        MemTy::Named(place) => long_called(names, *place),
    }
}

/// The bytes of the first name in each type that is no number and has more than 255.
///
/// # Errors
///
/// Where there is no memory.
pub fn long_names(
    alloc: Global,
    names: &[TypeName],
    types: &[MemTy],
) -> Result<Vec<Option<u64>>, AllocError>
    ensures { IfOk result (λ longs. longs.items ≡ longs_of (names_alone names.now) types.now) }
{
    let mut longs = Vec::new(alloc);
    for ty in types {
        let long = long_from(names, longs.as_slice(), ty);
        longs.push(long)?;
    }
    Ok(longs)
}

impl<'m> LongNames<'m> {
    /// Of the types of a module, for functions that use them and these symbols.
    ///
    /// # Errors
    ///
    /// Where there is no memory.
    pub fn new(
        alloc: Global,
        symbols: &'m [Name],
        names: &'m [TypeName],
        types: &'m [MemTy],
    ) -> Result<LongNames<'m>, AllocError>
        ensures { IfOk result (λ t. t ≡ tables_over symbols.now names.now types.now) }
    {
        let longs = long_names(alloc, names, types)?;
        Ok(LongNames {
            symbols,
            names,
            types,
            longs,
        })
    }

    /// The bytes of a symbol's name, where these are too many.
    pub fn of_symbol(&self, place: u32) -> Option<u64>
        ensures { result ≡ long_name (name_at self.now.symbols place) }
    {
        match self.symbols.get(place as usize) {
            Some(name) => long_name(name),
            None => None,
        }
    }

    /// The bytes of the first name in a type that has too many.
    pub fn of_type(&self, id: TypeId) -> Option<u64>
        ensures { result ≡ long_in (type_nodes self.now.type_names self.now.types id) }
    {
        long_known(self.longs.as_slice(), id)
    }
}
