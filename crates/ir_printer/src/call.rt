// Calls, and the steps of `getelementptr`.

ghost use Rattle.std.specs.Prelude.{◌∷◌, [], map};
ghost use Rattle.std.specs.List.{AllZip};
ghost use Rattle.ir_types.specs.declared.inst.Ty.TheVariants.{Int, Ptr};
ghost use Rattle.ir_shape.specs.Shape.{IsTyped};
ghost use Rattle.ir_printer_types.specs.Appends.{Prints};
ghost use Rattle.ir_printer_types.specs.Pieces.{comma, blank, each_behind, with_commas, type_pieces};
ghost use Rattle.ir_printer.specs.Trees.{operand_of, operands_of};
ghost use Rattle.ir_printer.specs.Print.{dots_pieces, written_types, signature_pieces, argument_pieces, arguments_of, call_pieces, each_typed, listed_pieces};

use crate::kept::{put_blank_then_kept, put_kept_then_blank};
use crate::value::{put_comma, put_operand, put_typed_operand};
use ir_printer_types::name::put_name;
use ir_printer_types::types::put_type;
use ir_types::{Actual, Callee, Module, Names, Operand, Signature, Ty};
use std::alloc::AllocError;

/// Appends the dots for further arguments, behind so many parameters.
pub(crate) fn put_dots(out: &mut Vec<u8>, params: usize) -> Result<(), AllocError>
    ensures { Prints out.old out.new result (dots_pieces params) }
{
    put_comma(out, params)?;
    out.extend_from_slice(b"...")
}

fn put_types(out: &mut Vec<u8>, types: &[Ty]) -> Result<(), AllocError>
    ensures { Prints out.old out.new result (with_commas (map type_pieces types.now)) }
{
    for (place, ty) in types.iter().enumerate() {
        put_comma(out, place)?;
        put_type(out, *ty)?;
    }
    Ok(())
}

// Appends the types of a function's parameters.
fn put_written_types(out: &mut Vec<u8>, signature: &Signature) -> Result<(), AllocError>
    ensures { Prints out.old out.new result (written_types signature.now) }
{
    put_types(out, signature.params.as_slice())?;
    if signature.varargs {
        put_dots(out, signature.params.len())?;
    }
    Ok(())
}

// Appends a space and these in parentheses, where they are written.
#[tactic(auto, using(ir_printer_types::proofs::Appended::text_of_both, std::proofs::lemmas::Grind::common_steps))]
fn put_signature(out: &mut Vec<u8>, signature: &Option<Signature>) -> Result<(), AllocError>
    ensures { Prints out.old out.new result (signature_pieces signature.now) }
{
    let Some(signature) = signature else {
        return Ok(());
    };
    out.extend_from_slice(b" (")?;
    put_written_types(out, signature)?;
    out.extend_from_slice(b")")
}

// Appends an argument with its type.
#[tactic(auto, unfolding(crate::specs::Print::argument_pieces), using(ir_printer_types::proofs::Appended::text_of_both, std::proofs::lemmas::Grind::common_steps))]
fn put_argument(
    out: &mut Vec<u8>,
    m: &Module,
    names: &Names,
    actual: &Actual,
    operand: &Operand,
) -> Result<(), AllocError>
    requires { IsTyped actual.now.ty (operand_of m.now names.now operand.now) }
    ensures { Prints out.old out.new result
        (argument_pieces actual.now (operand_of m.now names.now operand.now)) }
{
    put_type(out, actual.ty)?;
    put_blank_then_kept(out, &actual.kept)?;
    out.push(b' ')?;
    put_operand(out, m, names, actual.ty, operand)
}

fn put_arguments(
    out: &mut Vec<u8>,
    m: &Module,
    names: &Names,
    actuals: &[Actual],
    operands: &[Operand],
) -> Result<(), AllocError>
    requires { AllZip IsTyped (map (λ a. a.ty) actuals.now)
        (operands_of m.now names.now operands.now) }
    ensures { Prints out.old out.new result
        (with_commas (arguments_of actuals.now (operands_of m.now names.now operands.now))) }
{
    for (place, operand) in operands.iter().enumerate() {
        put_comma(out, place)?;
        put_argument(out, m, names, &actuals[place], operand)?;
    }
    Ok(())
}

/// Appends what is called, and the arguments.
pub(crate) fn put_call(
    out: &mut Vec<u8>,
    m: &Module,
    names: &Names,
    ty: Ty,
    callee: &Callee,
    operands: &[Operand],
) -> Result<(), AllocError>
    requires { AllZip IsTyped (map (λ a. a.ty) callee.now.actuals)
        (operands_of m.now names.now operands.now) }
    ensures { Prints out.old out.new result
        (call_pieces callee.now ty (operands_of m.now names.now operands.now)) }
{
    out.push(b' ')?;
    put_kept_then_blank(out, &callee.before)?;
    put_type(out, ty)?;
    put_signature(out, &callee.signature)?;
    out.extend_from_slice(b" @")?;
    put_name(out, &callee.name)?;
    out.push(b'(')?;
    put_arguments(out, m, names, callee.actuals.as_slice(), operands)?;
    out.push(b')')?;
    Ok(())
}

fn put_indexes(
    out: &mut Vec<u8>,
    m: &Module,
    names: &Names,
    widths: &[u32],
    operands: &[Operand],
) -> Result<(), AllocError>
    requires { AllZip IsTyped (map Int widths.now)
        (operands_of m.now names.now operands.now) }
    ensures { Prints out.old out.new result
        (each_behind (comma ∷ blank ∷ []) (each_typed (map Int widths.now)
        (operands_of m.now names.now operands.now))) }
{
    for (place, operand) in operands.iter().enumerate() {
        out.extend_from_slice(b", ")?;
        put_typed_operand(out, m, names, Ty::Int(widths[place]), operand)?;
    }
    Ok(())
}

/// Appends the pointer and the indexes of a `getelementptr`.
#[tactic(auto, using(ir_printer_types::proofs::Appended::text_of_both, std::proofs::lemmas::Grind::common_steps))]
pub(crate) fn put_steps(
    out: &mut Vec<u8>,
    m: &Module,
    names: &Names,
    widths: &[u32],
    operands: &[Operand],
) -> Result<(), AllocError>
    requires { AllZip IsTyped (Ptr ∷ map Int widths.now)
        (operands_of m.now names.now operands.now) }
    ensures { Prints out.old out.new result
        (listed_pieces (Ptr ∷ map Int widths.now) (operands_of m.now names.now operands.now)) }
{
    let [pointer, indexes @ ..] = operands else {
        return Ok(());
    };
    out.push(b' ')?;
    put_typed_operand(out, m, names, Ty::Ptr, pointer)?;
    put_indexes(out, m, names, widths, indexes)
}
