// Where the members of structs begin, those of each type behind those of the types before.
ghost use Rattle.std.specs.Prelude.{◌≡◌, ◌≤◌, List, length, OnOk};
ghost use Rattle.text_forms.specs.View.{Extends};
ghost use Rattle.ir_types.specs.declared.memory_type.MemTy.{MemTy};
ghost use Rattle.ir_types.specs.declared.memory_type.MemTy.TheVariants.{Struct};
ghost use Rattle.ir_types.specs.declared.memory_type.TypeName.{TypeName};
ghost use Rattle.ir_sizes.specs.Known.{AreSmall, EachIsRight};
ghost use Rattle.ir_sizes.specs.Prepared.{AreBegun, AreStarts};

use crate::single::{SIZE_CAP, aligned_up, extent_of_part, member_align};
use ir_types::{Extent, MemTy, TypeId};
use std::alloc::AllocError;

/// Puts where the members of the types behind the first ones begin behind the begins of those, and where each of these types starts there.
///
/// # Errors
///
/// Where there is no memory.
pub fn begins_behind(
    types: &[MemTy],
    extents: &[Extent],
    starts: &mut Vec<usize>,
    begins: &mut Vec<u64>,
) -> Result<(), AllocError>
    requires small { AreSmall extents.now }
    ensures starts_grow { Extends starts.old.items starts.new.items }
    ensures begins_grow { Extends begins.old.items begins.new.items }
    ensures are { OnOk result ((names : List TypeName) → EachIsRight types.now names extents.now → AreStarts types.now names extents.now starts.old.items begins.old.items → AreStarts types.now names extents.now starts.new.items begins.new.items) }
    ensures as_many { OnOk result (length starts.old.items ≤ length types.now → length starts.new.items ≡ length types.now) }
{
    for place in starts.len()..types.len() {
        let start = begins.len();
        begins_of_type(&types[place], extents, begins)?;
        starts.push(start)?;
    }
    Ok(())
}

/// Puts where the members of a type begin behind the others, where it is a struct and they have sizes.
fn begins_of_type(ty: &MemTy, extents: &[Extent], begins: &mut Vec<u64>) -> Result<(), AllocError>
    requires small { AreSmall extents.now }
    ensures grow { Extends begins.old.items begins.new.items }
    ensures are { OnOk result ((types : List MemTy) (names : List TypeName) → EachIsRight types names extents.now → AreBegun types names extents.now begins.new.items (length begins.old.items) ty.now) }
{
    match ty {
        MemTy::Struct(packed, members) => {
            begins_of_members(*packed, members.as_slice(), extents, begins)
        }
        _ => Ok(()),
    }
}

/// The same of the members of a struct: each begins behind those before it, at a multiple of its alignment.
fn begins_of_members(
    packed: bool,
    members: &[TypeId],
    extents: &[Extent],
    begins: &mut Vec<u64>,
) -> Result<(), AllocError>
    requires small { AreSmall extents.now }
    ensures grow { Extends begins.old.items begins.new.items }
    ensures are { OnOk result ((types : List MemTy) (names : List TypeName) → EachIsRight types names extents.now → AreBegun types names extents.now begins.new.items (length begins.old.items) (Struct packed members.now)) }
{
    let mut end = 0;
    for id in members {
        let Extent::Size(size, natural) = extent_of_part(extents, *id) else {
            return Ok(());
        };
        let begin = aligned_up(member_align(packed, natural), end);
        begins.push(begin)?;
        end = (begin + size).min(SIZE_CAP);
    }
    Ok(())
}
