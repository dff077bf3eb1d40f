// What is known of well-formed modules, and of the cause of a refusal.

ghost use Rattle.std.specs.Prelude.{◌≡◌};
ghost use Rattle.ir_types.specs.declared.module.Module.{Module};
ghost use Rattle.ir_types.specs.Tree.{ModuleTree};
ghost use Rattle.ir_types.specs.Denotes.{tree_of};
ghost use Rattle.ir_shape.specs.Modules.{IsModule};
ghost use Rattle.ir_shape.specs.Narrow.{IsNarrow};
ghost use Rattle.ir_rules.specs.declared.fault.Rule.{Rule};
ghost use Rattle.ir_rules.specs.declared.fault.Breach.{Breach};
ghost use Rattle.ir_rules.specs.declared.fault.CheckFault.TheVariants.{Broken};
ghost use Rattle.ir_rules.specs.WellFormed.{KeepsRules, Cause};
ghost use Rattle.ir_check.specs.WellFormed.{IsWellFormed};

/// In what breaks no rule no number is out of its type's range.
#[tactic(auto, using(crate::proofs::Narrowed::narrow))]
pub fn well_formed_is_narrow()
    ensures { (m : ModuleTree) → KeepsRules m → IsNarrow m }
{}

/// What breaks no rule is refused for none.
pub fn one_verdict()
    ensures { (m : ModuleTree) (rule : Rule) (breach : Breach)
        → KeepsRules m → Cause m (Broken rule breach) → ⊥ }
{}

/// There is one first breach of the rules.
pub fn one_cause()
    ensures { (m : ModuleTree) (rule other : Rule) (breach another : Breach)
        → Cause m (Broken rule breach) → Cause m (Broken other another)
        → (rule ≡ other) × (breach ≡ another) }
{}

/// A module that says the same as a well-formed one is well-formed too.
#[tactic(auto, using(crate::proofs::Causes::same_is_well_formed))]
pub fn same_module_is_well_formed()
    ensures { (m n : Module)
        → IsWellFormed m → tree_of m ≡ tree_of n → IsModule n → IsWellFormed n }
{}
