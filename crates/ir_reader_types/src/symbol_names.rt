// The names of symbols of a module, while it is read.

ghost use Rattle.std.specs.Prelude.{◌≡◌, ◌<◌, ◌^◌, ◌++◌, ◌∷◌, [], IfOk, OnOk, OnErr, length, position};
ghost use Rattle.ir_types.specs.Names.{same_name, Adds};
ghost use Rattle.ir_reader_types.specs.TypeTable.{IsPlaceOf};

use crate::places::keep_place;
use indexmap::IndexMap;
use ir_types::Name;
use lists::Items;
use std::alloc::{AllocError, Global};
use std::marker::Model;

/// The names of symbols in the order in which a module has them. A name may stand there twice.
#[derive(Drop, Debug)]
pub struct SymbolNames {
    names: Vec<Name>,
    places: IndexMap<Name, u32>,
}

impl Model for SymbolNames {
    ghost use Rattle.std.specs.Prelude.{List, length, ◌<◌, ◌^◌};
    ghost use Rattle.ir_types.specs.declared.name.Name.{Name};
    ghost use Rattle.ir_reader_types.specs.TypeTable.{HasFirstPlaces};

    ghost Value = { List Name };

    ghost view = { λ s. s.names.items };

    ghost invariant = { λ s. HasFirstPlaces s.names.items s.places.entries × (length s.names.items < 2 ^ 32) };
}

impl SymbolNames {
    /// No names.
    pub fn new(alloc: Global) -> SymbolNames
        ensures { result ≡ [] }
    {
        SymbolNames {
            names: Vec::new(alloc),
            places: IndexMap::new(alloc),
        }
    }

    /// The number of names.
    pub fn len(&self) -> usize
        ensures value { result ≡ length self.now }
        ensures small { result < 2 ^ 32 }
    {
        self.names.len()
    }

    /// The names, in the same memory.
    pub fn into_items(self) -> Items<Name>
        ensures { result ≡ self }
    {
        let SymbolNames { names, places: _ } = self;
        Items::from_vec(names)
    }

    // The first place of a name.
    fn find(&self, name: &Name) -> Option<u32>
        ensures { result ≡ position (same_name name.now) self.now }
    {
        self.places.get(name).copied()
    }

    /// Adds a name at the end. One that is there already stays found where it stands first.
    ///
    /// # Errors
    ///
    /// Where there is no room, and where there are 2^32 - 1 names.
    pub fn define(&mut self, name: Name) -> Result<(), AllocError>
        ensures ok { OnOk result (self.new ≡ self.old ++ name ∷ []) }
        ensures err { OnErr result (self.new ≡ self.old) }
    {
        if self.names.len() >= u32::MAX as usize {
            return Err(AllocError);
        }
        let place = self.names.len() as u32;
        self.names.reserve(1)?;
        keep_place(&mut self.places, &name, place)?;
        self.names.push_reserved(name);
        Ok(())
    }

    /// The first place of a name, which is added at the end where it is not there.
    ///
    /// # Errors
    ///
    /// Where there is no room for the name, and where it is to be added to 2^32 - 1 names.
    pub fn place_of(&mut self, name: Name) -> Result<u32, AllocError>
        ensures place { IfOk result (IsPlaceOf self.new name) }
        ensures ok { OnOk result (Adds self.old name self.new) }
        ensures err { OnErr result (self.new ≡ self.old) }
    {
        match self.find(&name) {
            Some(place) => Ok(place),
            None => {
                let place = self.names.len() as u32;
                self.define(name)?;
                Ok(place)
            }
        }
    }
}
