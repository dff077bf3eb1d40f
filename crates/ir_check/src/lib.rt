//! Which modules are well-formed.
#![tactic(auto)]

ghost use Rattle.std.specs.Prelude.{◌≡◌, IfErr, IfOk, MatchResult};
ghost use Rattle.ir_types.specs.Denotes.{tree_of};
ghost use Rattle.ir_shape.specs.Modules.{IsModule};
ghost use Rattle.ir_rules.specs.WellFormed.{KeepsRules, Cause};

mod laws;

use ir_check_edges::{entry_entered, wrong_phi};
use ir_check_paths::unavailable;
use ir_check_types::{check_types, kept};
use ir_rules::{CheckFault, Rule};
use ir_types::Module;
pub use laws::{one_cause, one_verdict, same_module_is_well_formed, well_formed_is_narrow};
use std::alloc::Global;
use std::marker::Model;

/// A well-formed module: it breaks no rule.
#[derive(Debug, Drop)]
pub struct Checked {
    module: Module,
}

impl Model for Checked {
    ghost use Rattle.ir_types.specs.declared.module.Module.{Module};

    ghost Value = { Module };

    ghost view = { λ s. s.module };

    ghost use Rattle.ir_check.specs.WellFormed.{IsWellFormed};

    ghost invariant = { λ s. IsWellFormed s.module };
}

impl Checked {
    ghost use Rattle.std.specs.Prelude.{◌≡◌};
    ghost use Rattle.ir_types.specs.Denotes.{tree_of};
    ghost use Rattle.ir_shape.specs.Narrow.{IsNarrow};
    ghost use Rattle.ir_check.specs.WellFormed.{IsWellFormed};

    /// The module. It takes no memory.
    #[tactic(auto, using(crate::proofs::Narrowed::narrow_module))]
    pub fn module(&self) -> &Module
        ensures is { result.now ≡ self.now }
        ensures well_formed { IsWellFormed self.now }
        ensures narrow { IsNarrow (tree_of self.now) }
    {
        &self.module
    }

    /// The module itself. It takes no memory.
    pub fn into_module(self) -> Module
        ensures is { result ≡ self }
        ensures well_formed { IsWellFormed self }
    {
        self.module
    }
}

/// Whether a module keeps all rules.
///
/// # Errors
///
/// The first rule that is broken, and of it the first breach; and where there was no memory for the checks.
fn keeps_rules(alloc: Global, m: &Module) -> Result<(), CheckFault>
    requires { IsModule m.now }
    ensures { MatchResult result (λ _. KeepsRules (tree_of m.now)) (Cause (tree_of m.now)) }
{
    check_types(alloc, m)?;
    kept(Rule::EntryHasPredecessor, entry_entered(alloc, m)?)?;
    kept(Rule::PhiEdges, wrong_phi(alloc, m)?)?;
    kept(Rule::NotAvailable, unavailable(alloc, m)?)
}

/// The module, where it is well-formed.
///
/// # Errors
///
/// The first rule that is broken, and of it the first breach, through the types, the symbols, and then each function's head and instructions
/// in the text's order; and where there was no memory for the checks. The module comes back as it was.
pub fn check(alloc: Global, m: Module) -> Result<Checked, (Module, CheckFault)>
    requires { IsModule m }
    ensures ok { IfOk result (λ checked. (checked ≡ m) × KeepsRules (tree_of m)) }
    ensures err { IfErr result (λ refused. (refused.0 ≡ m) × Cause (tree_of m) refused.1) }
{
    match keeps_rules(alloc, &m) {
        Ok(()) => Ok(Checked { module: m }),
        Err(fault) => Err((m, fault)),
    }
}
