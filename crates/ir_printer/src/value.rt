// Numbers, lanes and operands.

ghost use Rattle.std.specs.Prelude.{◌<◌, ◌≤◌, ◌^◌, ◌∷◌, [], map};
ghost use Rattle.std.specs.List.{AllByRecursion, AllZip};
ghost use Rattle.ir_types.specs.ValueForms.{width_of};
ghost use Rattle.ir_shape.specs.Shape.{IsType, IsLane, IsTyped};
ghost use Rattle.ir_printer_types.specs.Appends.{Appends, Prints};
ghost use Rattle.ir_printer_types.specs.Texts.{signed_text};
ghost use Rattle.ir_printer_types.specs.Pieces.{with_commas};
ghost use Rattle.ir_printer.specs.Trees.{operand_of, operands_of};
ghost use Rattle.ir_printer.specs.Print.{comma_before, number_token, lane_pieces, lanes_pieces, operand_pieces, typed_operand, typed_pieces, each_typed, listed_pieces};

use crate::symbol::put_global;
use ir_printer_types::name::put_digits;
use ir_printer_types::types::{put_local, put_type};
use ir_types::{Module, Names, Operand, Ty};
use std::alloc::AllocError;

/// Appends what parts the one at a place from those before it.
pub(crate) fn put_comma(out: &mut Vec<u8>, place: usize) -> Result<(), AllocError>
    ensures { Prints out.old out.new result (comma_before place) }
{
    if place > 0 {
        out.extend_from_slice(b", ")?;
    }
    Ok(())
}

/// Appends a number of so many bits as the signed one that it stands for.
#[tactic(auto, unfolding(ir_printer_types::specs::Texts::signed_text), using(crate::proofs::Numbers::two_halves))]
pub(crate) fn put_signed(out: &mut Vec<u8>, width: u32, number: u64) -> Result<(), AllocError>
    requires some { 0 < width }
    requires most { width ≤ 64 }
    requires fits { number < 2 ^ width }
    ensures { Appends out.old out.new result (signed_text width number) }
{
    let half = 1 << (width - 1);
    if number < half {
        return put_digits(out, number);
    }
    out.push(b'-')?;
    put_digits(out, half - (number - half))
}

// Appends a number at its type.
#[tactic(auto, unfolding(crate::specs::Print::number_token), using(ir_printer_types::proofs::Widths::width_within))]
pub(crate) fn put_number(out: &mut Vec<u8>, ty: Ty, number: u64) -> Result<(), AllocError>
    requires typed { IsType ty }
    requires fits { number < 2 ^ width_of ty }
    ensures { Appends out.old out.new result ((number_token ty number).text) }
{
    match ty {
        Ty::Int(1) if number == 1 => out.extend_from_slice(b"true"),
        Ty::Int(1) => out.extend_from_slice(b"false"),
        Ty::Int(width) => put_signed(out, width, number),
        Ty::Ptr | Ty::Vector(..) => put_signed(out, 64, number),
        Ty::Void => unreachable!(),
    }
}

// Appends a lane with its type.
#[tactic(auto, using(ir_printer_types::proofs::Appended::text_of_both, std::proofs::lemmas::Grind::common_steps))]
fn put_lane(out: &mut Vec<u8>, ty: Ty, lane: Option<u64>) -> Result<(), AllocError>
    requires typed { IsType ty }
    requires known { IsLane (width_of ty) lane }
    ensures { Prints out.old out.new result (lane_pieces ty lane) }
{
    put_type(out, ty)?;
    out.push(b' ')?;
    match lane {
        Some(number) => put_number(out, ty, number),
        None => out.extend_from_slice(b"poison"),
    }
}

fn put_each_lane(out: &mut Vec<u8>, ty: Ty, lanes: &[Option<u64>]) -> Result<(), AllocError>
    requires typed { IsType ty }
    requires known { AllByRecursion (IsLane (width_of ty)) lanes.now }
    ensures { Prints out.old out.new result (with_commas (map (lane_pieces ty) lanes.now)) }
{
    for (place, lane) in lanes.iter().enumerate() {
        put_comma(out, place)?;
        put_lane(out, ty, *lane)?;
    }
    Ok(())
}

// Appends lanes, each with its type.
#[tactic(auto, using(ir_printer_types::proofs::Appended::text_of_both, std::proofs::lemmas::Grind::common_steps))]
fn put_lanes(out: &mut Vec<u8>, ty: Ty, lanes: &[Option<u64>]) -> Result<(), AllocError>
    requires typed { IsType ty }
    requires known { AllByRecursion (IsLane (width_of ty)) lanes.now }
    ensures { Prints out.old out.new result (lanes_pieces ty lanes.now) }
{
    out.push(b'<')?;
    put_each_lane(out, ty, lanes)?;
    out.push(b'>')?;
    Ok(())
}

/// Appends an operand at its type.
pub(crate) fn put_operand(
    out: &mut Vec<u8>,
    m: &Module,
    names: &Names,
    ty: Ty,
    operand: &Operand,
) -> Result<(), AllocError>
    requires { IsTyped ty (operand_of m.now names.now operand.now) }
    ensures { Prints out.old out.new result
        (operand_pieces ty (operand_of m.now names.now operand.now)) }
{
    match operand {
        Operand::Local(name) => put_local(out, names, *name),
        Operand::Int(number) => put_number(out, ty, *number),
        Operand::Null => out.extend_from_slice(b"null"),
        Operand::Poison => out.extend_from_slice(b"poison"),
        Operand::Lanes(lanes) => match ty {
            Ty::Vector(_, width) => put_lanes(out, Ty::Int(width), lanes.as_slice()),
            Ty::Int(_) | Ty::Ptr | Ty::Void => unreachable!(),
        },
        Operand::Global(symbol, bytes) => put_global(out, m, *symbol, *bytes),
        Operand::OutOfRange(_) => unreachable!(),
    }
}

fn put_operands(
    out: &mut Vec<u8>,
    m: &Module,
    names: &Names,
    ty: Ty,
    operands: &[Operand],
) -> Result<(), AllocError>
    requires { AllByRecursion (IsTyped ty) (operands_of m.now names.now operands.now) }
    ensures { Prints out.old out.new result
        (with_commas (map (operand_pieces ty) (operands_of m.now names.now operands.now))) }
{
    for (place, operand) in operands.iter().enumerate() {
        put_comma(out, place)?;
        put_operand(out, m, names, ty, operand)?;
    }
    Ok(())
}

/// Appends ` T V, V`.
#[tactic(auto, using(crate::proofs::Operands::two_alike, ir_printer_types::proofs::Appended::text_of_both, std::proofs::lemmas::Grind::common_steps))]
pub(crate) fn put_typed(
    out: &mut Vec<u8>,
    m: &Module,
    names: &Names,
    ty: Ty,
    operands: &[Operand],
) -> Result<(), AllocError>
    requires { AllZip IsTyped (ty ∷ ty ∷ []) (operands_of m.now names.now operands.now) }
    ensures { Prints out.old out.new result
        (typed_pieces ty (operands_of m.now names.now operands.now)) }
{
    out.push(b' ')?;
    put_type(out, ty)?;
    out.push(b' ')?;
    put_operands(out, m, names, ty, operands)
}

/// Appends `T V`.
#[tactic(auto, using(ir_printer_types::proofs::Appended::text_of_both, std::proofs::lemmas::Grind::common_steps))]
pub(crate) fn put_typed_operand(
    out: &mut Vec<u8>,
    m: &Module,
    names: &Names,
    ty: Ty,
    operand: &Operand,
) -> Result<(), AllocError>
    requires { IsTyped ty (operand_of m.now names.now operand.now) }
    ensures { Prints out.old out.new result
        (typed_operand ty (operand_of m.now names.now operand.now)) }
{
    put_type(out, ty)?;
    out.push(b' ')?;
    put_operand(out, m, names, ty, operand)
}

fn put_each_typed(
    out: &mut Vec<u8>,
    m: &Module,
    names: &Names,
    types: &[Ty],
    operands: &[Operand],
) -> Result<(), AllocError>
    requires { AllZip IsTyped types.now (operands_of m.now names.now operands.now) }
    ensures { Prints out.old out.new result
        (with_commas (each_typed types.now (operands_of m.now names.now operands.now))) }
{
    for (place, operand) in operands.iter().enumerate() {
        put_comma(out, place)?;
        put_typed_operand(out, m, names, types[place], operand)?;
    }
    Ok(())
}

/// Appends ` T V, T V`.
pub(crate) fn put_listed(
    out: &mut Vec<u8>,
    m: &Module,
    names: &Names,
    types: &[Ty],
    operands: &[Operand],
) -> Result<(), AllocError>
    requires { AllZip IsTyped types.now (operands_of m.now names.now operands.now) }
    ensures { Prints out.old out.new result
        (listed_pieces types.now (operands_of m.now names.now operands.now)) }
{
    out.push(b' ')?;
    put_each_typed(out, m, names, types, operands)
}
