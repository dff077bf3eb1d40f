// One step of a constant `getelementptr` into a type.
ghost use Rattle.std.specs.Prelude.{◌≡◌, ◌<◌, ◌≤◌, List, length, MatchOption};
ghost use Rattle.ir_types.specs.declared.memory_type.TypeName.{TypeName};
ghost use Rattle.ir_types.specs.declared.memory_type.Extent.{Extent};
ghost use Rattle.ir_types.specs.Offsets.{Definitions, counted};
ghost use Rattle.ir_sizes.specs.Known.{extent_at, IsSizedAt};
ghost use Rattle.ir_sizes.specs.Definitions.{AreDefinitions};
ghost use Rattle.ir_sizes.specs.Stepping.{index_pair, IsIndex, IsSteppable, IsStep};
ghost use Rattle.ir_sizes.specs.Prepared.{LeadsTo, ArePrepared};

use crate::offsets::{Index, scaled};
use crate::prepare::Steps;
use crate::single::small_size;
use ir_types::{Extent, MemTy, TypeId};

/// Where a step leads: so many bytes on, modulo 2^64, to the type at a place.
#[derive(Clone, Copy)]
pub struct Step {
    pub bytes: u64,
    pub place: TypeId,
}

/// Where the type at a place leads through the names with which it begins.
fn unnamed(types: &[MemTy], steps: &Steps, id: TypeId) -> Option<TypeId>
    ensures { (names : List TypeName) (extents : List Extent) → ArePrepared types.now names extents steps.now → IsSizedAt extents id → MatchOption result ⊥ (LeadsTo types.now names id) }
{
    match types.get(id.0 as usize)? {
        MemTy::Named(name) => steps.end_of_name(*name),
        _ => Some(id),
    }
}

/// The number of an index, where it is not negative as a signed one.
fn counted(index: Index) -> Option<u64>
    requires { IsIndex index }
    ensures { result ≡ counted (index_pair index) }
{
    if index.number < 1 << (index.width - 1) {
        Some(index.number)
    } else {
        None
    }
}

/// A step by an index into the type at a place; none where it has no such part, or one that is too large to step over.
pub fn step_into(
    types: &[MemTy],
    steps: &Steps,
    extents: &[Extent],
    id: TypeId,
    index: Index,
) -> Option<Step>
    requires { IsIndex index }
    ensures { (names : List TypeName) (defs : Definitions) → ArePrepared types.now names extents.now steps.now → AreDefinitions types.now names defs → IsSteppable (extent_at extents.now id.0) → IsStep types.now names extents.now defs id index result }
{
    let place = unnamed(types, steps, id)?;
    match types.get(place.0 as usize)? {
        MemTy::Array(_, element) => {
            let size = small_size(extents, *element)?;
            Some(Step {
                bytes: scaled(size, index),
                place: *element,
            })
        }
        MemTy::Struct(_, members) => {
            let members = members.as_slice();
            let number = counted(index)?;
            if number >= members.len() as u64 {
                return None;
            }
            let member = number as usize;
            Some(Step {
                bytes: steps.begin(place, member)?,
                place: members[member],
            })
        }
        _ => None,
    }
}
