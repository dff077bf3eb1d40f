// Symbols whose names have a meaning.

ghost use Rattle.std.specs.Prelude.{◌≡◌, filter_map, IfOk};
ghost use Rattle.ir_types.specs.InstForms as grammar;
ghost use Rattle.ir_rules.specs.Breaches.{first};
ghost use Rattle.ir_intrinsics.specs.Means.{meant_in};
ghost use Rattle.ir_check_calls.specs.Heads.{has_signature_of, may_mean_of, means_rightly_of, misdeclared_of};

use crate::types::same_types;
use ir_intrinsics::{Intrinsic, meant_by};
use ir_rules::{Breach, Subject, same_type};
use ir_types::{Function, Symbol, SymbolKind, Ty};
use lists::Copies;
use std::alloc::AllocError;

// The type of one lane; another type has no lanes.
fn element_of(ty: Ty) -> Ty
    ensures { result ≡ grammar.element_of ty }
{
    match ty {
        Ty::Vector(_, width) => Ty::Int(width),
        other => other,
    }
}

// A bit for each lane, or one for a type without lanes.
fn bits_for(ty: Ty) -> Ty
    ensures { result ≡ grammar.bits_for ty }
{
    match ty {
        Ty::Vector(lanes, _) => Ty::Vector(lanes, 1),
        _ => Ty::Int(1),
    }
}

// Whether a function is declared, and returns and takes these types alone.
fn has_signature(function: &Function, ret: Ty, params: &[Ty]) -> bool
    ensures { result ≡ has_signature_of function.now (record { ret = ret; params = params.now }) }
{
    function.body.is_empty()
        && !function.varargs
        && same_type(ret, function.ret)
        && same_types(params, function.params.as_slice())
}

// Whether a function may have a name with this meaning.
fn may_mean(function: &Function, intrinsic: Intrinsic) -> bool
    ensures { result ≡ may_mean_of function.now (meant_in intrinsic) }
{
    match intrinsic {
        Intrinsic::MinimumMaximum(_, ty) => has_signature(function, ty, &[ty, ty]),
        Intrinsic::Reduction(_, ty) => has_signature(function, element_of(ty), &[ty]),
        Intrinsic::MaskedLoad(ty) => {
            has_signature(function, ty, &[Ty::Ptr, Ty::Int(32), bits_for(ty), ty])
        }
        Intrinsic::MaskedStore(ty) => {
            has_signature(
                function,
                Ty::Void,
                &[ty, Ty::Ptr, Ty::Int(32), bits_for(ty)],
            )
        }
        Intrinsic::Lifetime => function.body.is_empty(),
    }
}

// Whether a symbol of this kind may have a name with this meaning. What is only used isn't looked at.
fn means_rightly(functions: &[Function], kind: SymbolKind, intrinsic: Intrinsic) -> bool
    ensures { result ≡ means_rightly_of functions.now kind (meant_in intrinsic) }
{
    match kind {
        SymbolKind::Variable(_, _) => false,
        SymbolKind::Function(id) => match functions.get(id.0 as usize) {
            Some(function) => may_mean(function, intrinsic),
            None => true,
        },
        SymbolKind::Missing => true,
    }
}

// A breach by a symbol that can't have the meaning of its name.
fn misdeclared(functions: &[Function], symbol: &Symbol) -> Result<Option<Breach>, AllocError>
    ensures { IfOk result (λ found. found ≡ misdeclared_of functions.now symbol.now) }
{
    let Some(intrinsic) = meant_by(&symbol.name) else {
        return Ok(None);
    };
    if means_rightly(functions, symbol.kind, intrinsic) {
        return Ok(None);
    }
    Ok(Some(Breach {
        function: None,
        subject: Subject::Symbol(symbol.name.copy()?),
        place: 0,
    }))
}

/// The first symbol that can't have the meaning of its name.
///
/// # Errors
///
/// Where memory is short.
pub fn first_misdeclared(
    functions: &[Function],
    symbols: &[Symbol],
) -> Result<Option<Breach>, AllocError>
    ensures { IfOk result (λ found. found ≡ first
        (filter_map (misdeclared_of functions.now) symbols.now)) }
{
    let mut left = symbols;
    'more: while let Some((symbol, behind)) = left.split_first() {
        if let Some(breach) = misdeclared(functions, symbol)? {
            return Ok(Some(breach));
        }
        left = behind;
    }
    Ok(None)
}
