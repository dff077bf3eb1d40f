// The first name in each memory type that is not defined.

ghost use Rattle.std.specs.Prelude.{◌≡◌, [], IfOk};
ghost use Rattle.ir_check_names.specs.Choice.{first_of};
ghost use Rattle.ir_check_names.specs.Missing.{missing_at, missing_called, missing_from, missing_names};

use ir_types::{MemTy, NamedType, TypeId, TypeName};
use std::alloc::{AllocError, Global};

// Of the type at a place, where it is known.
pub(crate) fn missing_at(missing: &[Option<u32>], id: TypeId) -> Option<u32>
    ensures { result ≡ missing_at missing.now id }
{
    match missing.get(id.0 as usize) {
        Some(place) => *place,
        None => None,
    }
}

// Of the members of a struct.
fn missing_in_members(missing: &[Option<u32>], members: &[TypeId]) -> Option<u32>
    ensures { result ≡ first_of (missing_at missing.now) members.now }
{
    for member in members {
        if let Some(place) = missing_at(missing, *member) {
            return Some(place);
        }
    }
    None
}

// The place of a name, where that isn't defined.
fn missing_called(names: &[TypeName], place: u32) -> Option<u32>
    ensures { result ≡ missing_called names.now place }
{
    match names.get(place as usize) {
        Some(entry) if matches!(entry.ty, NamedType::Missing) => Some(place),
        _ => None,
    }
}

// Of a type behind those of which it is known.
fn missing_from(names: &[TypeName], missing: &[Option<u32>], ty: &MemTy) -> Option<u32>
    ensures { result ≡ missing_from names.now missing.now ty.now }
{
    match ty {
        MemTy::One(_) => None,
        MemTy::Array(_, element) => missing_at(missing, *element),
        MemTy::Struct(_, members) => missing_in_members(missing, members.as_slice()),
        MemTy::Named(place) => missing_called(names, *place),
    }
}

/// The place of the first name in each type that is not defined.
///
/// # Errors
///
/// Where there is no memory.
pub(crate) fn missing_names(
    alloc: Global,
    names: &[TypeName],
    types: &[MemTy],
) -> Result<Vec<Option<u32>>, AllocError>
    ensures { IfOk result (λ missing. missing.items ≡ missing_names names.now [] types.now) }
{
    let mut missing = Vec::new(alloc);
    for ty in types {
        let place = missing_from(names, missing.as_slice(), ty);
        missing.push(place)?;
    }
    Ok(missing)
}
