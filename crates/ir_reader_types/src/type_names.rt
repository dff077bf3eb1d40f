// The names of types of a module, while it is read.

ghost use Rattle.std.specs.Prelude.{◌≡◌, ◌<◌, ◌^◌, ◌++◌, ◌∷◌, [], IfOk, OnOk, OnErr, length, position};
ghost use Rattle.std.specs.Prelude.{List};
ghost use Rattle.ir_types.specs.declared.memory_type.TypeName.{TypeName};
ghost use Rattle.ir_types.specs.Names.{same_name};

use crate::places::keep_place;
use indexmap::IndexMap;
use ir_types::{Name, NamedType, TypeName};
use lists::Items;
use std::alloc::{AllocError, Global};
use std::marker::Model;

/// The names of types in the order in which a module has them. A name may stand there twice.
#[derive(Drop, Debug)]
pub struct TypeNames {
    types: Vec<TypeName>,
    places: IndexMap<Name, u32>,
}

impl Model for TypeNames {
    ghost use Rattle.std.specs.Prelude.{List, length, ◌<◌, ◌^◌};
    ghost use Rattle.ir_types.specs.declared.memory_type.TypeName.{TypeName};
    ghost use Rattle.ir_reader_types.specs.TypeTable.{names_of, HasFirstPlaces};

    ghost Value = { List TypeName };

    ghost view = { λ s. s.types.items };

    ghost invariant = { λ s. HasFirstPlaces (names_of s.types.items) s.places.entries × (length s.types.items < 2 ^ 32) };
}

impl TypeNames {
    ghost use Rattle.ir_reader_types.specs.TypeTable.{names_of, IsPlaceOf, LooksUp, with_type};

    /// No names.
    pub fn new(alloc: Global) -> TypeNames
        ensures { result ≡ [] }
    {
        TypeNames {
            types: Vec::new(alloc),
            places: IndexMap::new(alloc),
        }
    }

    /// The number of names.
    pub fn len(&self) -> usize
        ensures value { result ≡ length self.now }
        ensures small { result < 2 ^ 32 }
    {
        self.types.len()
    }

    /// The names, and what they stand for.
    pub fn as_slice(&self) -> &[TypeName]
        ensures { result.now ≡ self.now }
    {
        self.types.as_slice()
    }

    /// The names, and what they stand for, in the same memory.
    pub fn into_items(self) -> Items<TypeName>
        ensures { result ≡ self }
    {
        let TypeNames { types, places: _ } = self;
        Items::from_vec(types)
    }

    // The first place of a name.
    fn find(&self, name: &Name) -> Option<u32>
        ensures { result ≡ position (same_name name.now) (names_of self.now) }
    {
        self.places.get(name).copied()
    }

    /// Adds a name at the end, which stands for this type. A name that is there already stays found where it stands first.
    ///
    /// # Errors
    ///
    /// Where there is no room, and where there are 2^32 - 1 names.
    pub fn define(&mut self, name: Name, ty: NamedType) -> Result<(), AllocError>
        ensures ok { OnOk result (self.new ≡ self.old ++ record { name = name; ty = ty } ∷ []) }
        ensures err { OnErr result (self.new ≡ self.old) }
    {
        if self.types.len() >= u32::MAX as usize {
            return Err(AllocError);
        }
        let place = self.types.len() as u32;
        self.types.reserve(1)?;
        keep_place(&mut self.places, &name, place)?;
        self.types.push_reserved(TypeName { name, ty });
        Ok(())
    }

    /// The first place of a name, which is added at the end, and is missing, where no entry has it.
    ///
    /// # Errors
    ///
    /// Where there is no room for the name, and where it is to be added to 2^32 - 1 names.
    pub fn place_of(&mut self, name: Name) -> Result<u32, AllocError>
        ensures place { IfOk result (IsPlaceOf (names_of self.new) name) }
        ensures ok { OnOk result (LooksUp self.old name self.new) }
        ensures err { OnErr result (self.new ≡ self.old) }
    {
        match self.find(&name) {
            Some(place) => Ok(place),
            None => {
                let place = self.types.len() as u32;
                self.define(name, NamedType::Missing)?;
                Ok(place)
            }
        }
    }

    /// Makes the name at a place stand for another type.
    pub fn set(&mut self, place: u32, ty: NamedType)
        requires { place < length self.old }
        ensures types { self.new ≡ with_type self.old place ty }
        ensures names { names_of self.new ≡ names_of self.old }
    {
        self.types[place as usize].ty = ty;
    }
}
