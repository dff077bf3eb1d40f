// Where names of types lead: to the first type behind each that is no name.
ghost use Rattle.std.specs.Prelude.{◌≡◌, ◌<◌, ℕ, length, IfOk, IfSome, IsSome, Some};
ghost use Rattle.std.specs.Prelude.{List, []};
ghost use Rattle.ir_types.specs.Types.{AreTypes};
ghost use Rattle.ir_types.specs.Sizes.{AreExtents};
ghost use Rattle.ir_sizes.specs.Known.{IsSizedAt};
ghost use Rattle.ir_sizes.specs.Definitions.{names_in};
ghost use Rattle.ir_sizes.specs.Prepared.{LeadsTo, end_at, AreEnds, IsEndedAt, AreAllEnds};

use crate::single::{definition, extent_of_part, is_sized};
use ir_types::{Extent, MemTy, NamedType, TypeId, TypeName};
use std::alloc::{AllocError, Global};

/// Where each name ends that stands for a type with a size.
///
/// # Errors
///
/// Where there is no memory.
pub fn ends_of(
    alloc: Global,
    types: &[MemTy],
    names: &[TypeName],
    extents: &[Extent],
) -> Result<Vec<Option<TypeId>>, AllocError>
    requires types { AreTypes (names_in names.now) 0 types.now }
    requires extents { AreExtents types.now names.now extents.now }
    ensures { IfOk result (λ ends. AreAllEnds types.now names.now extents.now ends.items) }
{
    let mut ends = vec![in alloc; None; names.len()]?;
    for place in 0..names.len() {
        set_end(types, names, extents, &mut ends, place);
    }
    Ok(ends)
}

/// Sets the end of the name at a place, and of all names on the way, where it stands for a type with a size.
fn set_end(
    types: &[MemTy],
    names: &[TypeName],
    extents: &[Extent],
    ends: &mut [Option<TypeId>],
    place: usize,
)
    requires types { AreTypes (names_in names.now) 0 types.now }
    requires extents { AreExtents types.now names.now extents.now }
    requires ends { AreEnds types.now names.now ends.old }
    requires within { place < length names.now }
    ensures ends { AreEnds types.now names.now ends.new }
    ensures set { IsEndedAt names.now extents.now ends.new place }
    ensures stays { (k : ℕ) → IsSome (end_at ends.old k) → IsSome (end_at ends.new k) }
{
    let NamedType::Defined(id) = names[place].ty else {
        return;
    };
    if !is_sized(extent_of_part(extents, id)) {
        return;
    }
    if let Some(end) = end_from(types, names, ends, id) {
        set_on_the_way(types, names, ends, id, end);
        ends[place] = Some(end);
    }
}

/// The end of the name at a place, where it is known.
pub fn known_end(ends: &[Option<TypeId>], name: u32) -> Option<TypeId>
    ensures { result ≡ end_at ends.now name }
{
    match ends.get(name as usize) {
        Some(end) => *end,
        None => None,
    }
}

/// Where the type at a place leads; none where it leads nowhere.
fn end_from(
    types: &[MemTy],
    names: &[TypeName],
    ends: &[Option<TypeId>],
    id: TypeId,
) -> Option<TypeId>
    requires types { AreTypes (names_in names.now) 0 types.now }
    requires ends { AreEnds types.now names.now ends.now }
    ensures leads { IfSome result (LeadsTo types.now names.now id) }
    ensures found { (extents : List Extent) → AreExtents types.now names.now extents → IsSizedAt extents id → IsSome result }
{
    let mut place = id;
    let mut left = names.len();
    loop {
        let MemTy::Named(name) = types.get(place.0 as usize)? else {
            return Some(place);
        };
        if let Some(end) = known_end(ends, *name) {
            return Some(end);
        }
        left = left.checked_sub(1)?;
        place = definition(names, *name)?;
    }
}

/// Sets the end of the names through which the type at a place leads there, up to one whose end is known.
fn set_on_the_way(
    types: &[MemTy],
    names: &[TypeName],
    ends: &mut [Option<TypeId>],
    id: TypeId,
    last: TypeId,
)
    requires ends { AreEnds types.now names.now ends.old }
    requires leads { LeadsTo types.now names.now id last }
    ensures ends { AreEnds types.now names.now ends.new }
    ensures stays { (k : ℕ) → IsSome (end_at ends.old k) → IsSome (end_at ends.new k) }
{
    let mut place = id;
    for _ in 0..names.len() {
        match set_first(types, names, ends, place, last) {
            Some(next) => place = next,
            None => break,
        }
    }
}

/// Sets the end of the name with which the type at a place begins, where it isn't known; what that name stands for.
fn set_first(
    types: &[MemTy],
    names: &[TypeName],
    ends: &mut [Option<TypeId>],
    id: TypeId,
    last: TypeId,
) -> Option<TypeId>
    requires ends { AreEnds types.now names.now ends.old }
    requires leads { LeadsTo types.now names.now id last }
    ensures ends { AreEnds types.now names.now ends.new }
    ensures stays { (k : ℕ) → IsSome (end_at ends.old k) → IsSome (end_at ends.new k) }
    ensures leads { IfSome result (λ next. LeadsTo types.now names.now next last) }
{
    let MemTy::Named(name) = types.get(id.0 as usize)? else {
        return None;
    };
    let place = *name as usize;
    if place >= ends.len() || ends[place].is_some() {
        return None;
    }
    ends[place] = Some(last);
    definition(names, *name)
}
