// Sizes of memory types, and where a `getelementptr` leads in them.
ghost use Rattle.std.specs.Prelude.{◌≡◌, ◌&&◌, List, map, zip, IfOk};
ghost use Rattle.ir_types.specs.declared.name.Name.{Name};
ghost use Rattle.ir_types.specs.Denotes.{Tables, operand_in};
ghost use Rattle.ir_check_fits.specs.Places.{is_sized_at, chosen, end_behind, part_at, leads_at};

use ir_sizes::{Steps, steps_of};
use ir_types::{Extent, MemTy, Module, Operand, TypeId};
use std::alloc::{AllocError, Global};
use std::marker::Model;

/// Sizes from here on count as none.
const SIZE_CAP: u64 = 1 << 61;

// Whether the type at a place has a size.
fn is_sized_at(extents: &[Extent], id: TypeId) -> bool
    ensures { result ≡ is_sized_at extents.now id }
{
    match extents.get(id.0 as usize) {
        Some(Extent::Size(size, _)) => *size < SIZE_CAP,
        _ => false,
    }
}

// Where the type at a place leads through the names with which it begins.
fn end_behind(types: &[MemTy], steps: &Steps, id: TypeId) -> Option<TypeId>
    ensures { result ≡ end_behind types.now steps.now.ends id }
{
    match types.get(id.0 as usize)? {
        MemTy::Named(name) => steps.end_of_name(*name),
        _ => Some(id),
    }
}

// The member that an index chooses: a number of 32 bits that isn't negative.
fn chosen(width: u32, index: &Operand) -> Option<usize>
    ensures { (t : Tables) (names : List Name)
        → result ≡ chosen (width, operand_in t names index.now) }
{
    match index {
        Operand::Int(number) if width == 32 && *number < 1 << 31 => Some(*number as usize),
        _ => None,
    }
}

// Where an index leads from the type at a place.
fn part_at(
    types: &[MemTy],
    steps: &Steps,
    extents: &[Extent],
    id: TypeId,
    width: u32,
    index: &Operand,
) -> Option<TypeId>
    ensures { (t : Tables) (names : List Name) → result ≡ part_at types.now steps.now.ends
        extents.now id (width, operand_in t names index.now) }
{
    let last = end_behind(types, steps, id)?;
    match types.get(last.0 as usize)? {
        MemTy::Array(_, element) if is_sized_at(extents, *element) => Some(*element),
        MemTy::Struct(_, members) => {
            let number = chosen(width, index)?;
            members.as_slice().get(number).copied()
        }
        _ => None,
    }
}

// Whether indexes lead into the type at a place, one after another.
fn leads_at(
    types: &[MemTy],
    steps: &Steps,
    extents: &[Extent],
    id: TypeId,
    widths: &[u32],
    indexes: &[Operand],
) -> bool
    ensures { (t : Tables) (names : List Name) → result ≡ leads_at types.now steps.now.ends
        extents.now id (zip widths.now (map (operand_in t names) indexes.now)) }
{
    let mut place = id;
    let mut widths_left = widths;
    let mut left = indexes;
    'more: while let Some((width, widths_behind)) = widths_left.split_first() {
        let Some((index, behind)) = left.split_first() else {
            return true;
        };
        let Some(next) = part_at(types, steps, extents, place, *width, index) else {
            return false;
        };
        place = next;
        widths_left = widths_behind;
        left = behind;
    }
    true
}

/// The types of a module, with what steps into them need.
#[derive(Drop, Debug)]
pub struct TypeSteps<'m> {
    whole: &'m Module,
    steps: Steps,
}

impl<'m> Model for TypeSteps<'m> {
    ghost use Rattle.ir_types.specs.declared.module.Module.{Module};
    ghost use Rattle.ir_check_fits.specs.Places.{AreModuleSteps};

    ghost Value = { Module };

    ghost view = { λ s. s.whole.now };

    ghost invariant = { λ s. AreModuleSteps s.whole.now s.steps };
}

impl<'m> TypeSteps<'m> {
    ghost use Rattle.std.specs.Prelude.{◌≡◌, List, map, zip, IfOk};
    ghost use Rattle.ir_types.specs.declared.name.Name.{Name};
    ghost use Rattle.ir_types.specs.Denotes.{Tables, operand_in, nodes_in, tree_of};
    ghost use Rattle.ir_shape.specs.Modules.{IsModule};
    ghost use Rattle.ir_rules.specs.Steps.{type_definitions, has_size, is_stepped};

    /// Of a module.
    ///
    /// # Errors
    ///
    /// Where there is no memory.
    pub fn new(alloc: Global, whole: &'m Module) -> Result<TypeSteps<'m>, AllocError>
        requires { IsModule whole.now }
        ensures { IfOk result (λ s. s ≡ whole.now) }
    {
        let steps = steps_of(
            alloc,
            whole.types.as_slice(),
            whole.type_names.as_slice(),
            whole.extents.as_slice(),
        )?;
        Ok(TypeSteps { whole, steps })
    }

    /// Whether the type at a place has a size.
    pub fn has_size(&self, id: TypeId) -> bool
        ensures { result ≡ has_size (type_definitions (tree_of self.now)) (nodes_in self.now id) }
    {
        is_sized_at(self.whole.extents.as_slice(), id)
    }

    /// Whether indexes, of which the first steps over whole types, lead through the type at a place.
    pub fn is_stepped(&self, id: TypeId, widths: &[u32], indexes: &[Operand]) -> bool
        ensures { (t : Tables) (names : List Name) → result ≡ is_stepped
            (type_definitions (tree_of self.now)) (nodes_in self.now id)
            (zip widths.now (map (operand_in t names) indexes.now)) }
    {
        let Some((_, widths_behind)) = widths.split_first() else {
            return false;
        };
        let Some((_, behind)) = indexes.split_first() else {
            return false;
        };
        let types = self.whole.types.as_slice();
        let extents = self.whole.extents.as_slice();
        is_sized_at(extents, id) && leads_at(types, &self.steps, extents, id, widths_behind, behind)
    }
}
