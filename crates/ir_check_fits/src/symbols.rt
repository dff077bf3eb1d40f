// Variables whose types have no size.
ghost use Rattle.std.specs.Prelude.{◌≡◌, Some, None, if◌then◌else◌};
ghost use Rattle.ir_rules.specs.declared.fault.Subject.TheVariants.{Nothing};
ghost use Rattle.ir_rules.specs.Breaches.{first, outside};
ghost use Rattle.ir_check_fits.specs.Variables.{is_sizeless, breaches_of};

use crate::steps::TypeSteps;
use ir_types::{Symbol, SymbolKind};

// Whether a symbol is a variable whose type has no size.
fn is_sizeless(types: &TypeSteps<'_>, symbol: &Symbol) -> bool
    ensures { result ≡ is_sizeless types.now symbol.now }
{
    match symbol.kind {
        SymbolKind::Variable(id, _) => !types.has_size(id),
        _ => false,
    }
}

/// Whether one of some symbols is a variable whose type has no size.
pub fn any_sizeless(types: &TypeSteps<'_>, symbols: &[Symbol]) -> bool
    ensures { first (breaches_of types.now symbols.now)
        ≡ (if result then Some (outside Nothing) else None) }
{
    let mut left = symbols;
    'more: while let Some((symbol, rest)) = left.split_first() {
        if is_sizeless(types, symbol) {
            return true;
        }
        left = rest;
    }
    false
}
