// Types of what lies in memory.

ghost use Rattle.std.specs.Prelude.{◌≡◌, ◌<◌, length};
ghost use Rattle.ir_types.specs.Types.{AreTypes};
ghost use Rattle.ir_types.specs.TypeNodes.{type_nodes};
ghost use Rattle.ir_types.specs.Names.{name_at};
ghost use Rattle.ir_printer_types.specs.Appends.{Appends, Prints};
ghost use Rattle.ir_printer_types.specs.Pieces.{local_token};
ghost use Rattle.ir_printer_types.specs.MemoryPieces.{struct_head, struct_end, node_pieces};
ghost use Rattle.ir_printer_types.specs.Parts.{names_of, HasItsName, parts_of, front_pieces, end_pieces, up_to_part};

use crate::name::{put_digits, put_name};
use crate::types::put_type;
use ir_types::{MemTy, TypeId, TypeName};
use std::alloc::{AllocError, Global};
use std::slice;

// A type that is being printed.
#[derive(Clone, Copy, Drop)]
struct Frame {
    id: TypeId,
    // How many of its parts are printed.
    printed: usize,
}

// The types that stand in a type.
fn parts(ty: &MemTy) -> &[TypeId]
    ensures { result.now ≡ parts_of ty.now }
{
    match ty {
        MemTy::One(_) | MemTy::Named(_) => &[],
        MemTy::Array(_, element) => slice::from_ref(element),
        MemTy::Struct(_, members) => members.as_slice(),
    }
}

/// Appends `%name` for a place in the list of type names.
pub fn put_type_name(out: &mut Vec<u8>, names: &[TypeName], name: u32) -> Result<(), AllocError>
    requires { name < length names.now }
    ensures { Appends out.old out.new result
        ((local_token (name_at (names_of names.now) name)).text) }
{
    out.push(b'%')?;
    put_name(out, &names[name as usize].name)
}

fn put_struct_head(out: &mut Vec<u8>, packed: bool) -> Result<(), AllocError>
    ensures { Prints out.old out.new result (struct_head packed) }
{
    out.extend_from_slice(if packed { b"<{".as_slice() } else { b"{" })
}

fn put_struct_end(out: &mut Vec<u8>, packed: bool) -> Result<(), AllocError>
    ensures { Prints out.old out.new result (struct_end packed) }
{
    out.extend_from_slice(if packed { b"}>".as_slice() } else { b"}" })
}

// Appends what stands before a type's parts, or all of a type without parts.
fn put_front(out: &mut Vec<u8>, names: &[TypeName], ty: &MemTy) -> Result<(), AllocError>
    requires { HasItsName (names_of names.now) ty.now }
    ensures { Prints out.old out.new result (front_pieces (names_of names.now) ty.now) }
{
    match ty {
        MemTy::One(ty) => put_type(out, *ty),
        MemTy::Array(count, _) => {
            out.push(b'[')?;
            put_digits(out, *count)?;
            out.extend_from_slice(b" x ")
        }
        MemTy::Struct(packed, members) => {
            put_struct_head(out, *packed)?;
            if members.is_empty() {
                put_struct_end(out, *packed)
            } else {
                out.extend_from_slice(b" ")
            }
        }
        MemTy::Named(name) => put_type_name(out, names, *name),
    }
}

// Appends what stands behind a type's last part.
fn put_end(out: &mut Vec<u8>, ty: &MemTy) -> Result<(), AllocError>
    ensures { Prints out.old out.new result (end_pieces ty.now) }
{
    match ty {
        MemTy::Array(..) => out.extend_from_slice(b"]"),
        MemTy::Struct(packed, members) if !members.is_empty() => {
            out.extend_from_slice(b" ")?;
            put_struct_end(out, *packed)
        }
        MemTy::One(_) | MemTy::Struct(..) | MemTy::Named(_) => Ok(()),
    }
}

// Appends what stands before the part at a place, or where there is none, behind the last one.
fn put_up_to_part(
    out: &mut Vec<u8>,
    names: &[TypeName],
    ty: &MemTy,
    place: usize,
) -> Result<(), AllocError>
    requires { HasItsName (names_of names.now) ty.now }
    ensures { Prints out.old out.new result (up_to_part (names_of names.now) ty.now place) }
{
    if place == 0 {
        put_front(out, names, ty)
    } else if place < parts(ty).len() {
        out.extend_from_slice(b", ")
    } else {
        put_end(out, ty)
    }
}

/// Appends a type of a module's list of types.
pub fn put_memory_type(
    alloc: Global,
    out: &mut Vec<u8>,
    types: &[MemTy],
    names: &[TypeName],
    id: TypeId,
) -> Result<(), AllocError>
    requires listed { AreTypes (names_of names.now) 0 types.now }
    requires place { id.0 < length types.now }
    ensures { Prints out.old out.new result
        (node_pieces (type_nodes (names_of names.now) types.now id)) }
{
    let mut frames = Vec::new(alloc);
    frames.push(Frame { id, printed: 0 })?;
    while let Some(frame) = frames.pop() {
        let ty = &types[frame.id.0 as usize];
        put_up_to_part(out, names, ty, frame.printed)?;
        let Some(part) = parts(ty).get(frame.printed) else {
            continue;
        };
        frames.push(Frame {
            printed: frame.printed + 1,
            ..frame
        })?;
        frames.push(Frame {
            id: *part,
            printed: 0,
        })?;
    }
    Ok(())
}
