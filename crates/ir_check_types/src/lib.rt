//! The rules about names and types of a module.
#![tactic(auto)]

ghost use Rattle.std.specs.Prelude.{◌≡◌, [], Some, None, IfErr, OnOk};
ghost use Rattle.ir_types.specs.Denotes.{tree_of};
ghost use Rattle.ir_shape.specs.Modules.{IsModule};
ghost use Rattle.ir_shape.specs.Narrow.{IsNarrow};
ghost use Rattle.ir_rules.specs.declared.fault.Breach.{Breach};
ghost use Rattle.ir_rules.specs.declared.fault.CheckFault.TheVariants.{Broken};
ghost use Rattle.ir_rules.specs.WellFormed.{type_breaches, TypeCause};

use ir_check_calls::unknown_callee;
use ir_check_fits::mismatch;
use ir_check_names::{duplicate_name, misnumbered, unknown_name};
use ir_rules::{Breach, CheckFault, Rule};
use ir_types::Module;
use std::alloc::Global;

/// Goes on where no breach of a rule is found.
///
/// # Errors
///
/// The breach that is found.
pub fn kept(rule: Rule, found: Option<Breach>) -> Result<(), CheckFault>
    ensures ok { OnOk result (found ≡ None) }
    ensures err { IfErr result (λ fault. (breach : Breach) × (found ≡ Some breach)
        × (fault ≡ Broken rule breach)) }
{
    match found {
        Some(breach) => Err(CheckFault::Broken(rule, breach)),
        None => Ok(()),
    }
}

/// Whether a module keeps the rules about names and types: duplicate-name, unknown-name, type-mismatch, unknown-callee and numbering.
///
/// # Errors
///
/// The first of these rules that is broken, and of it the first breach, through the types, the symbols, and then each function's head and
/// instructions in the text's order; and where there was no memory for the checks.
#[tactic(auto, using(crate::proofs::Narrowed::narrow_module, crate::proofs::Firsts::none_first, crate::proofs::Firsts::next_rule, crate::proofs::Firsts::broken))]
pub fn check_types(alloc: Global, m: &Module) -> Result<(), CheckFault>
    requires { IsModule m.now }
    ensures ok { OnOk result (type_breaches (tree_of m.now) ≡ []) }
    ensures narrow { OnOk result (IsNarrow (tree_of m.now)) }
    ensures err { IfErr result (TypeCause (tree_of m.now)) }
{
    kept(Rule::DuplicateName, duplicate_name(alloc, m)?)?;
    kept(Rule::UnknownName, unknown_name(alloc, m)?)?;
    kept(Rule::TypeMismatch, mismatch(alloc, m)?)?;
    kept(Rule::UnknownCallee, unknown_callee(alloc, m)?)?;
    kept(Rule::Numbering, misnumbered(alloc, m)?)
}
