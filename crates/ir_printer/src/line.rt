// Instructions, each on a line.

ghost use Rattle.std.specs.Prelude.{◌<◌, ◌++◌, ◌∷◌, [], length};
ghost use Rattle.text_lex.specs.Layout.{text_of};
ghost use Rattle.ir_types.specs.Types.{AreTypes};
ghost use Rattle.std.specs.Option.{option_map};
ghost use Rattle.ir_types.specs.Denotes.{Tables, name_in, type_names_of, nodes_in, tables_of, kind_in, inst_in};
ghost use Rattle.ir_shape.specs.Shape.{IsBody, IsResult, IsInst};
ghost use Rattle.ir_printer_types.specs.Appends.{Appends, Prints};
ghost use Rattle.ir_printer_types.specs.MemoryPieces.{node_pieces};
ghost use Rattle.ir_printer.specs.Trees.{operands_of, labels_of, inst_of};
ghost use Rattle.ir_printer.specs.Print.{operands_pieces, to_pieces, align_pieces, ending_pieces, result_pieces, inst_pieces};

use crate::branching::{put_entries, put_switch, put_targets};
use crate::call::{put_call, put_steps};
use crate::item::put_type_at;
use crate::kept::{put_blank_then_kept, put_kept_behind};
use crate::opening::put_opening;
use crate::value::{put_listed, put_typed};
use ir_printer_types::name::put_digits;
use ir_printer_types::types::{put_local, put_type};
use ir_types::{Inst, InstKind, Module, Names, Ty, TypeId, ValueId};
use std::alloc::{AllocError, Global};

// Appends a space and the memory type of a `getelementptr`, and a comma behind it.
fn put_stepped_type(
    alloc: Global,
    out: &mut Vec<u8>,
    m: &Module,
    id: TypeId,
) -> Result<(), AllocError>
    requires types { AreTypes (type_names_of m.now) 0 m.now.types }
    requires place { id.0 < length m.now.types }
    ensures { Appends out.old out.new result
        (32 ∷ (text_of (node_pieces (nodes_in m.now id)) ++ 44 ∷ [])) }
{
    out.push(b' ')?;
    put_type_at(alloc, out, m, id)?;
    out.push(b',')?;
    Ok(())
}

// Appends the operands of an instruction with their types.
#[tactic(auto, using(crate::proofs::Operands::all_alike, ir_printer_types::proofs::Appended::text_of_both, std::proofs::lemmas::Grind::common_steps))]
fn put_operands_of(
    alloc: Global,
    out: &mut Vec<u8>,
    m: &Module,
    names: &Names,
    inst: &Inst,
) -> Result<(), AllocError>
    requires types { AreTypes (type_names_of m.now) 0 m.now.types }
    requires known { IsBody (inst_of m.now names.now inst.now) }
    ensures { Prints out.old out.new result
        (operands_pieces (kind_in (tables_of m.now) inst.now.kind) inst.now.ty
        (operands_of m.now names.now inst.now.args) (labels_of names.now inst.now.labels)) }
{
    let ty = inst.ty;
    let args = inst.args.as_slice();
    match &inst.kind {
        InstKind::Binary(..) => put_typed(out, m, names, ty, args),
        InstKind::Compare(_, of) => put_typed(out, m, names, *of, args),
        InstKind::Select(condition, last) => {
            put_listed(out, m, names, &[*condition, ty, *last], args)
        }
        InstKind::Freeze => put_listed(out, m, names, &[ty], args),
        InstKind::Trunc(from, ..) | InstKind::Zext(from, _) | InstKind::Sext(from) => {
            put_listed(out, m, names, &[*from], args)
        }
        InstKind::PtrToInt => put_listed(out, m, names, &[Ty::Ptr], args),
        InstKind::Phi => {
            out.push(b' ')?;
            put_type(out, ty)?;
            out.push(b' ')?;
            put_entries(out, m, names, ty, args, inst.labels.as_slice())
        }
        InstKind::Offset(id, widths, ..) => {
            put_stepped_type(alloc, out, m, *id)?;
            put_steps(out, m, names, widths.as_slice(), args)
        }
        InstKind::Load(_) => {
            out.push(b' ')?;
            put_type(out, ty)?;
            out.push(b',')?;
            put_listed(out, m, names, &[Ty::Ptr], args)
        }
        InstKind::Store(of, _) => put_listed(out, m, names, &[*of, Ty::Ptr], args),
        InstKind::Call(callee) => put_call(out, m, names, ty, callee, args),
        InstKind::Extract(of, width) => put_listed(out, m, names, &[*of, Ty::Int(*width)], args),
        InstKind::Insert(element, width) => {
            put_listed(out, m, names, &[ty, *element, Ty::Int(*width)], args)
        }
        InstKind::Shuffle(one, other, mask) => {
            put_listed(out, m, names, &[*one, *other, *mask], args)
        }
        InstKind::Branch => put_listed(out, m, names, &[Ty::Int(1)], args),
        InstKind::Switch(width, _) => put_listed(out, m, names, &[Ty::Int(*width)], args),
        InstKind::Return(of) => put_listed(out, m, names, &[*of], args),
        InstKind::ReturnVoid => out.extend_from_slice(b" void"),
        InstKind::Jump | InstKind::Unreachable => Ok(()),
    }
}

fn put_to(out: &mut Vec<u8>, ty: Ty) -> Result<(), AllocError>
    ensures { Prints out.old out.new result (to_pieces ty) }
{
    out.extend_from_slice(b" to ")?;
    put_type(out, ty)
}

fn put_align(out: &mut Vec<u8>, align: u64) -> Result<(), AllocError>
    ensures { Prints out.old out.new result (align_pieces align) }
{
    out.extend_from_slice(b", align ")?;
    put_digits(out, align)
}

// Appends the type of a cast, an alignment, what is kept behind a call, or labels.
#[tactic(auto, using(crate::proofs::Operands::first_type, ir_printer_types::proofs::Appended::text_of_both, std::proofs::lemmas::Grind::common_steps))]
fn put_ending(out: &mut Vec<u8>, names: &Names, inst: &Inst) -> Result<(), AllocError>
    requires { (tables : Tables) × IsBody (inst_in tables names.now inst.now) }
    ensures { (tables : Tables) → Prints out.old out.new result
        (ending_pieces (kind_in tables inst.now.kind) inst.now.ty
        (labels_of names.now inst.now.labels)) }
{
    let labels = inst.labels.as_slice();
    match &inst.kind {
        InstKind::Trunc(..) | InstKind::Zext(..) | InstKind::Sext(_) | InstKind::PtrToInt => {
            put_to(out, inst.ty)
        }
        InstKind::Load(align) | InstKind::Store(_, align) => put_align(out, *align),
        InstKind::Call(callee) => put_blank_then_kept(out, &callee.after),
        InstKind::Jump => {
            out.push(b' ')?;
            put_targets(out, names, labels)
        }
        InstKind::Branch => {
            out.extend_from_slice(b", ")?;
            put_targets(out, names, labels)
        }
        InstKind::Switch(width, numbers) => {
            put_switch(out, names, *width, numbers.as_slice(), labels)
        }
        InstKind::Binary(..)
        | InstKind::Compare(..)
        | InstKind::Select(..)
        | InstKind::Freeze
        | InstKind::Phi
        | InstKind::Offset(..)
        | InstKind::Extract(..)
        | InstKind::Insert(..)
        | InstKind::Shuffle(..)
        | InstKind::ReturnVoid
        | InstKind::Return(_)
        | InstKind::Unreachable => Ok(()),
    }
}

// Appends `%name = ` where there is a name.
fn put_result(
    out: &mut Vec<u8>,
    names: &Names,
    ty: Ty,
    name: Option<ValueId>,
) -> Result<(), AllocError>
    requires { IsResult ty (option_map (name_in names.now) name) }
    ensures { Prints out.old out.new result (result_pieces (option_map (name_in names.now) name)) }
{
    if let Some(name) = name {
        put_local(out, names, name)?;
        out.extend_from_slice(b" = ")?;
    }
    Ok(())
}

/// Appends an instruction and a line feed.
pub(crate) fn put_inst(
    alloc: Global,
    out: &mut Vec<u8>,
    m: &Module,
    names: &Names,
    inst: &Inst,
) -> Result<(), AllocError>
    requires types { AreTypes (type_names_of m.now) 0 m.now.types }
    requires known { IsInst (inst_of m.now names.now inst.now) }
    ensures { Prints out.old out.new result (inst_pieces (inst_of m.now names.now inst.now)) }
{
    put_result(out, names, inst.ty, inst.result)?;
    put_opening(out, &inst.kind)?;
    put_operands_of(alloc, out, m, names, inst)?;
    put_ending(out, names, inst)?;
    put_kept_behind(out, &inst.kept)?;
    out.push(b'\n')?;
    Ok(())
}
