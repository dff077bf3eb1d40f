// What is allowed at a toll.

ghost use Rattle.ir_types.specs.Tree.{ModuleTree};
ghost use Rattle.ir_run_laws.specs.Tolls.{TollsAdd, TollsGiveFactors};

/// Tolls add up: where one pass and then another are allowed, and the second charges blocks that the first module has, both together are
/// allowed at the charges of both.
pub fn tolls_add()
    ensures { (a b c : ModuleTree) → TollsAdd a b c }
{}

/// What is allowed at a toll is allowed with a factor: one more than all costs together.
pub fn toll_is_allowed()
    ensures { (read printed : ModuleTree) → TollsGiveFactors read printed }
{}
