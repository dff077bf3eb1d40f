// The first instruction that doesn't fit.
ghost use Rattle.std.specs.Prelude.{◌≡◌, List, map, IfOk};
ghost use Rattle.std.specs.List.{AllByRecursion};
ghost use Rattle.text_forms.specs.Nested.{concat};
ghost use Rattle.ir_types.specs.Tree.{FunctionTree};
ghost use Rattle.ir_types.specs.Denotes.{tables_of, function_in, tree_of};
ghost use Rattle.ir_shape.specs.Placed.{IsFunctionPlaced};
ghost use Rattle.ir_rules.specs.Breaches.{first, inside};
ghost use Rattle.ir_rules.specs.Mismatch.{mismatches};

use crate::around::Around;
use crate::steps::TypeSteps;
use ir_rules::Breach;
use ir_types::Function;
use ir_walk::first_broken;
use std::alloc::{AllocError, Global};

// The first of a function.
fn in_function(
    alloc: Global,
    types: &TypeSteps<'_>,
    function: &Function,
) -> Result<Option<Breach>, AllocError>
    requires { IsFunctionPlaced (tables_of types.now) function.now }
    ensures { IfOk result (λ b. b ≡ first
        (map (inside function.now.name)
        (mismatches (tree_of types.now) (function_in (tables_of types.now) function.now)))) }
{
    let around = Around::new(alloc, types, function)?;
    first_broken(alloc, &around, function)
}

/// The first of some functions.
///
/// # Errors
///
/// Where there is no memory.
pub fn in_functions(
    alloc: Global,
    types: &TypeSteps<'_>,
    functions: &[Function],
) -> Result<Option<Breach>, AllocError>
    requires { AllByRecursion (IsFunctionPlaced (tables_of types.now)) functions.now }
    ensures { IfOk result (λ b. b ≡ first
        (concat (map (λ (f : FunctionTree). map (inside f.name) (mismatches (tree_of types.now) f))
        (map (function_in (tables_of types.now)) functions.now)))) }
{
    let mut left = functions;
    'more: while let Some((function, rest)) = left.split_first() {
        if let Some(breach) = in_function(alloc, types, function)? {
            return Ok(Some(breach));
        }
        left = rest;
    }
    Ok(None)
}
