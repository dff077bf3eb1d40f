// Whether calls are right for what names mean.
ghost use Rattle.std.specs.Prelude.{◌≡◌, List, map, Option};
ghost use Rattle.ir_types.specs.declared.name.Name.{Name};
ghost use Rattle.ir_types.specs.declared.inst.Ty.{Ty};
ghost use Rattle.ir_types.specs.declared.call.Actual.{Actual};
ghost use Rattle.ir_types.specs.Kinds.{actual_types};
ghost use Rattle.ir_types.specs.Denotes.{Tables, operand_in};
ghost use Rattle.ir_intrinsics.specs.Intrinsics.{masked_load, masked_store, Meant, meant_by};
ghost use Rattle.ir_rules.specs.Mismatch.{is_access_right, is_meant_right};
ghost use Rattle.ir_check_fits.specs.Masked.{masked_in};

use crate::masked::{Masked, access_of};
use crate::numbers::is_written_alignment;
use crate::operands::is_bits;
use ir_rules::same_type;
use ir_types::{Actual, Callee, Operand, Ty};

// Whether a masked load may load a type, and its alignment is written, where it has one.
fn load_fits(ty: Ty, actuals: &[Actual], args: &[Operand]) -> bool
    ensures { (t : Tables) (names : List Name) → result ≡ is_access_right masked_load ty
        (map (λ (a : Actual). a.ty) actuals.now) (map (operand_in t names) args.now) }
{
    let Some((_, behind)) = actuals.split_first() else {
        return true;
    };
    let Some((width, _)) = behind.split_first() else {
        return true;
    };
    let Some((_, args_behind)) = args.split_first() else {
        return true;
    };
    match args_behind.split_first() {
        Some((align, _)) if same_type(width.ty, Ty::Int(32)) => {
            !is_bits(ty) && is_written_alignment(align)
        }
        _ => true,
    }
}

// Whether a masked store may store what it does, and its alignment is written, where it has one.
fn store_fits(actuals: &[Actual], args: &[Operand]) -> bool
    ensures { (t : Tables) (names : List Name) (ty : Ty) → result ≡ is_access_right masked_store ty
        (map (λ (a : Actual). a.ty) actuals.now) (map (operand_in t names) args.now) }
{
    let Some((stored, actuals_behind)) = actuals.split_first() else {
        return true;
    };
    let Some((_, behind)) = args.split_first() else {
        return true;
    };
    load_fits(stored.ty, actuals_behind, behind)
}

// Whether a masked access is right, where this is one.
fn access_fits(access: Option<Masked>, ty: Ty, actuals: &[Actual], args: &[Operand]) -> bool
    ensures { (t : Tables) (names : List Name) (meant : Option Meant) → access ≡ masked_in meant
        → result ≡ is_meant_right meant ty (map (λ (a : Actual). a.ty) actuals.now)
        (map (operand_in t names) args.now) }
{
    let Some(access) = access else {
        return true;
    };
    match access {
        Masked::Load => load_fits(ty, actuals, args),
        Masked::Store => store_fits(actuals, args),
    }
}

/// Whether a call that gives a type is right for what the name of its function means.
pub fn is_meant_right(callee: &Callee, ty: Ty, args: &[Operand]) -> bool
    ensures { (t : Tables) (names : List Name) → result ≡ is_meant_right (meant_by callee.now.name)
        ty (actual_types callee.now) (map (operand_in t names) args.now) }
{
    access_fits(access_of(&callee.name), ty, callee.actuals.as_slice(), args)
}
