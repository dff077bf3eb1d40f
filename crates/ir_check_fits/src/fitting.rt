// Whether the operands of an instruction have their types.
ghost use Rattle.std.specs.Prelude.{◌≡◌, ◌∷◌, List, map, length, replicate};
ghost use Rattle.std.specs.List.{AllByRecursion};
ghost use Rattle.ir_types.specs.declared.inst.Ty.TheVariants.{Int, Ptr};
ghost use Rattle.ir_rules.specs.Operands.{fit};
ghost use Rattle.ir_rules.specs.Mismatch.{operands_fit};
ghost use Rattle.ir_check_fits.specs.Sites.{around_at, locals_at, operands_at, kind_at, IsHere};

use crate::around::Around;
use ir_rules::Typed;
use ir_types::{InstKind, Operand, Ty};

// Whether operands have the types that these have, one each.
fn fit<T: Typed>(x: &Around<'_>, typed: &[T], args: &[Operand]) -> bool
    requires { AllByRecursion (IsHere (length x.now.part.names)) args.now }
    ensures { result ≡ fit (locals_at x.now) (map T.type_of typed.now)
        (operands_at x.now args.now) }
{
    let mut typed_left = typed;
    let mut args_left = args;
    'more: while let Some((one, typed_behind)) = typed_left.split_first() {
        let Some((arg, args_behind)) = args_left.split_first() else {
            return false;
        };
        if !x.fits(one.ty(), arg) {
            return false;
        }
        typed_left = typed_behind;
        args_left = args_behind;
    }
    args_left.is_empty()
}

// Whether the operands are a pointer, and behind it indexes of these widths, one each.
fn offset_fits(x: &Around<'_>, widths: &[u32], args: &[Operand]) -> bool
    requires { AllByRecursion (IsHere (length x.now.part.names)) args.now }
    ensures { result ≡ fit (locals_at x.now) (Ptr ∷ map Int widths.now)
        (operands_at x.now args.now) }
{
    let Some((pointer, indexes)) = args.split_first() else {
        return false;
    };
    x.fits(Ty::Ptr, pointer) && fit(x, widths, indexes)
}

// Whether operands all have this type.
fn fit_all(x: &Around<'_>, ty: Ty, args: &[Operand]) -> bool
    requires { AllByRecursion (IsHere (length x.now.part.names)) args.now }
    ensures { result ≡ fit (locals_at x.now) (replicate (length args.now) ty)
        (operands_at x.now args.now) }
{
    let mut left = args;
    'more: while let Some((arg, behind)) = left.split_first() {
        if !x.fits(ty, arg) {
            return false;
        }
        left = behind;
    }
    true
}

/// Whether operands have the types that an instruction of a kind with a result of a type takes.
pub fn operands_fit(x: &Around<'_>, kind: &InstKind, ty: Ty, args: &[Operand]) -> bool
    requires { AllByRecursion (IsHere (length x.now.part.names)) args.now }
    ensures { result ≡ operands_fit (around_at x.now) (kind_at x.now kind.now) ty
        (operands_at x.now args.now) }
{
    match kind {
        InstKind::Binary(_, _) => fit(x, &[ty, ty], args),
        InstKind::Compare(_, of) => fit(x, &[*of, *of], args),
        InstKind::Select(condition, last) => fit(x, &[*condition, ty, *last], args),
        InstKind::Freeze => fit(x, &[ty], args),
        InstKind::Trunc(from, _, _) => fit(x, &[*from], args),
        InstKind::Zext(from, _) => fit(x, &[*from], args),
        InstKind::Sext(from) => fit(x, &[*from], args),
        InstKind::PtrToInt => fit(x, &[Ty::Ptr], args),
        InstKind::Phi => fit_all(x, ty, args),
        InstKind::Offset(_, widths, _, _, _) => offset_fits(x, widths.as_slice(), args),
        InstKind::Load(_) => fit(x, &[Ty::Ptr], args),
        InstKind::Store(of, _) => fit(x, &[*of, Ty::Ptr], args),
        InstKind::Call(callee) => fit(x, callee.actuals.as_slice(), args),
        InstKind::Extract(of, width) => fit(x, &[*of, Ty::Int(*width)], args),
        InstKind::Insert(element, width) => fit(x, &[ty, *element, Ty::Int(*width)], args),
        InstKind::Shuffle(of, other, mask) => fit(x, &[*of, *other, *mask], args),
        InstKind::Branch => fit(x, &[Ty::Int(1)], args),
        InstKind::Switch(width, _) => fit(x, &[Ty::Int(*width)], args),
        InstKind::Return(of) => fit(x, &[*of], args),
        InstKind::Jump | InstKind::ReturnVoid | InstKind::Unreachable => fit::<Ty>(x, &[], args),
    }
}
