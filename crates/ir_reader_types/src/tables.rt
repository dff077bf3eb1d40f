// What a module has for its functions, while these are read.

ghost use Rattle.std.specs.Prelude.{◌≡◌, ◌<◌, ◌∷◌, [], ℕ, List, length, map, All, IfOk, OnOk, OnErr};
ghost use Rattle.std.specs.List.{AllByRecursion};
ghost use Rattle.text_forms.specs.Gives.{Gives, left};
ghost use Rattle.text_forms.specs.Reading.{read};
ghost use Rattle.text_forms.specs.View.{Extends};
ghost use Rattle.ir_types.specs.Names.{name_at};
ghost use Rattle.ir_types.specs.Types.{AreTypes};
ghost use Rattle.ir_types.specs.TypeNodes.{type_nodes, names_used};
ghost use Rattle.ir_types.specs.Tree.{global};
ghost use Rattle.ir_types.specs.Sizes.{AreExtents};
ghost use Rattle.ir_types.specs.TypeForms.{inst_memory};
ghost use Rattle.ir_types.specs.Offsets.{offset_of};
ghost use Rattle.ir_sizes.specs.Stepping.{index_pair, IsIndex};
ghost use Rattle.ir_sizes.specs.Prepared.{AreSteps};
ghost use Rattle.ir_reader_types.specs.TypeTable.{names_of, LooksUpSome, LooksUpAll};
ghost use Rattle.ir_reader_types.specs.Tables.{TableLists, nodes_there, definitions_of, Grows, IsDefinedBefore, AreEntriesApart, AreTables};
ghost use Rattle.ir_reader_types.specs.Uses.{Uses};

use crate::memory::memory_type;
use crate::symbol_names::SymbolNames;
use crate::type_names::TypeNames;
use ir_sizes::{Index, Steps, extents_behind, extents_of, offset, steps_behind, steps_of};
use ir_types::{Extent, MemTy, Name, TypeId, TypeName};
use lists::Items;
use std::alloc::{AllocError, Global};
use std::marker::Model;
use text_forms::{Cursor, SyntaxFault};

/// The names of symbols, of which some are defined or declared and the others only used, the names of types, the types and their extents.
#[derive(Drop, Debug)]
pub struct Tables {
    types: Vec<MemTy>,
    extents: Vec<Extent>,
    steps: Steps,
    names: TypeNames,
    symbols: SymbolNames,
    known: usize,
}

impl Model for Tables {
    ghost use Rattle.ir_sizes.specs.Prepared.{AreSteps};
    ghost use Rattle.ir_reader_types.specs.Tables.{TableLists, AreTables};

    ghost Value = { TableLists };

    ghost view = { λ s. record { symbols = s.symbols; known = s.known; entries = s.names; types = s.types.items; extents = s.extents.items } };

    ghost invariant = { λ s. AreTables (record { symbols = s.symbols; known = s.known; entries = s.names; types = s.types.items; extents = s.extents.items }) × AreSteps s.types.items s.names s.extents.items s.steps };
}

/// A memory type, which is added at the end of the list of types behind its parts, with the extents of all and what steps into them need.
fn read_type<'t>(
    alloc: Global,
    tokens: Cursor<'t>,
    types: &mut Vec<MemTy>,
    names: &mut TypeNames,
    extents: &mut Vec<Extent>,
    steps: &mut Steps,
) -> Result<(TypeId, Cursor<'t>), SyntaxFault>
    requires are { AreTypes (names_of names.old) 0 types.old.items }
    requires defined { AllByRecursion (IsDefinedBefore (length types.old.items)) names.old }
    requires extents { AreExtents types.old.items names.old extents.old.items }
    requires steps { AreSteps types.old.items names.old extents.old.items steps.old }
    ensures types_grow { Extends types.old.items types.new.items }
    ensures extents_grow { Extends extents.old.items extents.new.items }
    ensures looks_up { LooksUpSome names.old names.new }
    ensures are { OnOk result (AreTypes (names_of names.new) 0 types.new.items) }
    ensures extents_are { OnOk result (AreExtents types.new.items names.new extents.new.items) }
    ensures steps_are { OnOk result (AreSteps types.new.items names.new extents.new.items steps.new) }
    ensures steps_stay { OnErr result (steps.new ≡ steps.old) }
    ensures reads { Gives (λ x. (type_nodes (names_of names.new) types.new.items x.0, left x.1)) result (read inst_memory (left tokens.entry)) }
    ensures within { IfOk result (λ x. x.0.0 < length types.new.items) }
    ensures names { IfOk result (λ x. LooksUpAll names.old (type_nodes (names_of names.new) types.new.items x.0) names.new) }
{
    let (id, rest) = memory_type(alloc, tokens, types, names)?;
    extents_behind(types.as_slice(), names.as_slice(), extents)?;
    steps_behind(types.as_slice(), extents.as_slice(), steps)?;
    Ok((id, rest))
}

/// The parts of tables.
#[derive(Drop, Debug)]
pub struct TableParts {
    /// The types.
    pub types: Items<MemTy>,
    /// Their extents.
    pub extents: Items<Extent>,
    /// The names of types.
    pub type_names: Items<TypeName>,
    /// The names of symbols, those that are only used behind the others.
    pub symbols: Items<Name>,
    /// How many of them are defined or declared.
    pub known: usize,
}

impl Tables {
    /// The tables of these types, names of types and symbols.
    pub fn new(
        alloc: Global,
        types: Vec<MemTy>,
        names: TypeNames,
        symbols: SymbolNames,
    ) -> Result<Tables, AllocError>
        requires are { AreTypes (names_of names) 0 types.items }
        requires defined { AllByRecursion (IsDefinedBefore (length types.items)) names }
        requires apart { AreEntriesApart names }
        ensures symbols { IfOk result (λ t. t.symbols ≡ symbols) }
        ensures known { IfOk result (λ t. t.known ≡ length symbols) }
        ensures entries { IfOk result (λ t. t.entries ≡ names) }
        ensures types { IfOk result (λ t. t.types ≡ types.items) }
    {
        let extents = extents_of(alloc, types.as_slice(), names.as_slice())?.into_vec();
        let steps = steps_of(
            alloc,
            types.as_slice(),
            names.as_slice(),
            extents.as_slice(),
        )?;
        let known = symbols.len();
        Ok(Tables {
            types,
            extents,
            steps,
            names,
            symbols,
            known,
        })
    }

    /// The place of a symbol, which is added at the end where no symbol has the name.
    ///
    /// # Errors
    ///
    /// Where there is no room for the name, and where it is to be added to 2^32 - 1 names.
    pub fn symbol(&mut self, name: Name) -> Result<u32, AllocError>
        ensures grows { Grows self.old self.new }
        ensures named { IfOk result (λ id. name_at self.new.symbols id ≡ name) }
        ensures uses { IfOk result (λ id. Uses self.old [] (global name 0 ∷ []) self.new) }
        ensures stays { IfOk result (λ id. (later : TableLists) → Grows self.new later → name_at later.symbols id ≡ name_at self.new.symbols id) }
    {
        self.symbols.place_of(name)
    }

    /// A memory type in an instruction, which is added at the end behind its parts.
    ///
    /// # Errors
    ///
    /// Where no type stands; and where there is no room, or there would be 2^32 types or names.
    pub fn memory_type<'t>(
        &mut self,
        alloc: Global,
        tokens: Cursor<'t>,
    ) -> Result<(TypeId, Cursor<'t>), SyntaxFault>
        ensures grows { Grows self.old self.new }
        ensures reads { Gives (λ x. (nodes_there self.new x.0, left x.1)) result (read inst_memory (left tokens.entry)) }
        ensures stays { IfOk result (λ x. (later : TableLists) → Grows self.new later → nodes_there later x.0 ≡ nodes_there self.new x.0) }
        ensures uses { IfOk result (λ x. Uses self.old (names_used (nodes_there self.new x.0)) [] self.new) }
    {
        let count = self.types.len();
        match read_type(
            alloc,
            tokens,
            &mut self.types,
            &mut self.names,
            &mut self.extents,
            &mut self.steps,
        ) {
            Ok(found) => Ok(found),
            Err(fault) => {
                self.types.truncate(count);
                self.extents.truncate(count);
                Err(fault)
            }
        }
    }

    /// How many bytes these indexes lead on, modulo 2^64, from a pointer that is stepped through as the type at a place; none where they step
    /// over a type without a size, or of 2^61 bytes or more, or into what has no parts.
    pub fn offset(&self, id: TypeId, indexes: &[Index]) -> Option<u64>
        requires { All IsIndex indexes.now }
        ensures { result ≡ offset_of (definitions_of self.now) (nodes_there self.now id) (map index_pair indexes.now) }
    {
        offset(
            self.types.as_slice(),
            &self.steps,
            self.extents.as_slice(),
            id,
            indexes,
        )
    }

    /// The parts, in the same memory.
    pub fn into_parts(self) -> TableParts
        ensures types { result.types ≡ self.types }
        ensures extents { result.extents ≡ self.extents }
        ensures type_names { result.type_names ≡ self.entries }
        ensures symbols { result.symbols ≡ self.symbols }
        ensures known { result.known ≡ self.known }
        ensures are { AreTables self }
    {
        let Tables {
            types,
            extents,
            steps: _,
            names,
            symbols,
            known,
        } = self;
        TableParts {
            types: Items::from_vec(types),
            extents: Items::from_vec(extents),
            type_names: names.into_items(),
            symbols: symbols.into_items(),
            known,
        }
    }
}
