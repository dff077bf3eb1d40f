// Refinement.

ghost use Rattle.std.specs.Prelude.{List};
ghost use Rattle.ir_types.specs.declared.inst.Ty.{Ty};
ghost use Rattle.ir_types.specs.declared.name.Name.{Name};
ghost use Rattle.ir_types.specs.Kinds.{Kind};
ghost use Rattle.ir_types.specs.Tree.{ModuleTree};
ghost use Rattle.ir_meaning.specs.Memory.{Memory};
ghost use Rattle.ir_meaning.specs.State.{Env};
ghost use Rattle.ir_meaning.specs.Refines.{MemoryRefines};
ghost use Rattle.ir_run_laws.specs.Kinds.{IsReflexive, IsTransitive, EachRefinement};
ghost use Rattle.ir_run_laws.specs.Respect.{EnvRefines, OperandsRespect, PhisRespect, OperationRespects};

/// Refinement of each kind is reflexive.
pub fn refinement_is_reflexive()
    ensures { EachRefinement IsReflexive }
{}

/// Refinement of each kind is transitive.
pub fn refinement_is_transitive()
    ensures { EachRefinement IsTransitive }
{}

/// Operands respect refinement: where the names have values that refine others, so have operands of their types, and the operand of a phi.
pub fn operands_respect_refinement()
    ensures operands { (types : Name → Ty) (here other : Memory) (env there : Env)
        → MemoryRefines here other → EnvRefines types env there
        → OperandsRespect types here other env there }
    ensures phis { (types : Name → Ty) (here other : Memory) (env there : Env)
        → MemoryRefines here other → EnvRefines types env there
        → PhisRespect types here other env there }
{}

/// Each operation respects refinement: by operands of its types that refine others, it asks for what refines what they ask for. So does a
/// call: it asks for the same function, with arguments that refine the others.
pub fn operations_respect_refinement()
    ensures { (m : ModuleTree) (here other : Memory) (kind : Kind) (ty : Ty) (labels : List Name)
        → MemoryRefines here other → OperationRespects m here other kind ty labels }
{}
